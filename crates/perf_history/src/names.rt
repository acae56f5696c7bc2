//! The name of a thread.
#![tactic(auto)]

ghost use Rattle.std.specs.Prelude.{◌≡◌};
ghost use Rattle.perf_history.specs.Names.{name_or_number};

/// The name of a thread.
#[derive(Clone, Copy, Debug, PartialEq, Eq)]
pub enum Name<'p> {
    /// The name that it was given, or took over from its parent.
    Given(&'p [u8]),
    /// It has none: perf prints `:` and its id.
    Number(u32),
    /// It has none and is thread 0, which runs if no other does: perf prints `swapper`.
    Swapper,
}

// The name of a thread with this id that was given one, or none.
pub fn name_or_number<'p>(name: Option<&'p [u8]>, tid: u32) -> Name<'p>
    ensures { result ≡ name_or_number name.entry tid }
{
    match name {
        Some(name) => Name::Given(name),
        None => {
            if tid == 0 {
                Name::Swapper
            } else {
                Name::Number(tid)
            }
        }
    }
}
