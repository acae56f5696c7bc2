//! The fields of a line.

ghost use Rattle.std.specs.Prelude.{◌≡◌};
ghost use Rattle.std.specs.List.{list_all};
ghost use Rattle.perf_walk.specs.Filters.{is_among};
ghost use Rattle.perf_script.specs.Fields as fields;

/// Which fields a line has, of those that its sample or its record has.
#[derive(Clone, Copy, Debug, PartialEq, Eq)]
pub struct Fields {
    /// The name of the thread.
    pub comm: bool,
    /// The process.
    pub pid: bool,
    /// The thread.
    pub tid: bool,
    /// The processor.
    pub cpu: bool,
    /// The time.
    pub time: bool,
    /// The period.
    pub period: bool,
    /// The name of the event.
    pub event: bool,
    /// The address, or the addresses of the call chain.
    pub ip: bool,
    /// What is mapped at each address that is shown.
    pub dso: bool,
}

/// All fields.
impl Default for Fields {
    ghost is_default = { λ chosen. chosen ≡ fields.all_fields };

    fn default() -> Self {
        Fields {
            comm: true,
            pid: true,
            tid: true,
            cpu: true,
            time: true,
            period: true,
            event: true,
            ip: true,
            dso: true,
        }
    }
}

impl Fields {
    /// The fields of which these are the names, in any order: `comm`, `pid`, `tid`, `cpu`, `time`,
    /// `period`, `event`, `ip` and `dso`. `None` if one of the words is the name of no field.
    pub fn named(words: &[&str]) -> Option<Fields>
        ensures { result ≡ fields.fields_of words.now }
    {
        if !are_names(words) {
            return None;
        }
        Some(Fields {
            comm: is_among(words, "comm"),
            pid: is_among(words, "pid"),
            tid: is_among(words, "tid"),
            cpu: is_among(words, "cpu"),
            time: is_among(words, "time"),
            period: is_among(words, "period"),
            event: is_among(words, "event"),
            ip: is_among(words, "ip"),
            dso: is_among(words, "dso"),
        })
    }
}

// Whether a word is among some.
fn is_among(words: &[&str], word: &str) -> bool
    ensures { result ≡ is_among words.now word.now }
{
    words.contains(&word)
}

// Whether each word is the name of a field.
fn are_names(words: &[&str]) -> bool
    ensures { result ≡ list_all (λ word. fields.is_field_name word.now) words.now }
{
    words.iter().all(|word| is_field_name(word))
}

/// Whether a word is the name of a field.
pub fn is_field_name(word: &str) -> bool
    ensures { result ≡ fields.is_field_name word.now }
{
    word == "comm"
        || word == "pid"
        || word == "tid"
        || word == "cpu"
        || word == "time"
        || word == "period"
        || word == "event"
        || word == "ip"
        || word == "dso"
}

/// What lines a text has.
#[derive(Clone, Copy, Debug, PartialEq, Eq)]
pub struct Style {
    /// Which fields a line has.
    pub fields: Fields,
    /// Whether records that are no samples have lines.
    pub side_band: bool,
}

/// All fields of samples alone.
impl Default for Style {
    ghost is_default = { λ style. style ≡ fields.sample_style };

    fn default() -> Self {
        Style {
            fields: Fields::default(),
            side_band: false,
        }
    }
}
