//! How a run ended.

ghost use Rattle.std.specs.Prelude.{◌≡◌};
ghost use Rattle.perf_lines.specs.Outcomes.{status_of};

/// How a run of the program ended.
#[derive(Copy, Clone, Debug, PartialEq, Eq)]
pub enum Outcome {
    /// No record was refused, and the input ended after a record or the limit was reached.
    Clean,
    /// A record was refused, or the input ended inside a header.
    Refused,
    /// The attribute at the start of the input was refused, and the only line states that.
    BadAttr,
    /// The reader failed or memory ran out, and the last line states that.
    Faulted,
    /// Writing failed, or there was no memory for a line. What was written is a prefix of the text.
    Stopped,
}

impl Outcome {
    /// The exit status for this outcome.
    pub fn status(self) -> u8
        ensures { result ≡ status_of self }
    {
        match self {
            Outcome::Clean => 0,
            Outcome::Refused => 1,
            Outcome::BadAttr => 2,
            Outcome::Faulted | Outcome::Stopped => 3,
        }
    }
}
