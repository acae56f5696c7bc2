//! Why the calls inside this library refuse: a value of two bytes, which becomes an error when a
//! public call returns it.

ghost use Rattle.std.specs.Prelude.{◌≡◌, option_map};
ghost use Rattle.perf_base.specs.Errors.{kind_of};
ghost use Rattle.perf_base.specs.Refusals.{refusal_kind, refusal_text, IsErrorOf};

use crate::error::{ErrorKind, ParseError};

/// The result of a call inside this library: a value, or the reason why there is none.
pub type ReadResult<T> = Result<T, Refusal>;

/// Why this library refuses. It takes two bytes, and becomes a [`ParseError`] when a public call
/// returns it.
#[derive(Copy, Clone, Debug, PartialEq, Eq)]
pub enum Refusal {
    /// There are not enough bytes.
    Eof,
    /// A header's size is smaller than the header.
    SmallHeader,
    /// A frame is too short for its sample id.
    NoRoomForId,
    /// No attribute has that size.
    AttributeSize,
    /// An attribute has unknown fields.
    AttributeTail,
    /// The length of a build id is greater than its number of bytes.
    BuildIdLength,
    /// The used size of a user stack is greater than the record's copy of it.
    UsedStack,
    /// A single counter was to be read, but the format is that of a group.
    SingleRead,
    /// A group was to be read, but the format is that of a single counter.
    GroupRead,
    /// The read format of a counter has unknown flags.
    ReadFormat,
    /// A group has more numbers than can be counted.
    GroupLength,
    /// Out of memory.
    OutOfMemory,
    /// An error of that kind that was made elsewhere, and is kept separately.
    Kept(ErrorKind),
}

impl Refusal {
    /// The kind of the error it becomes.
    #[inline]
    pub fn kind(self) -> ErrorKind
        ensures { result ≡ refusal_kind self }
    {
        match self {
            Refusal::Eof => ErrorKind::Eof,
            Refusal::SmallHeader
            | Refusal::NoRoomForId
            | Refusal::AttributeSize
            | Refusal::BuildIdLength
            | Refusal::UsedStack
            | Refusal::GroupLength => ErrorKind::InvalidRecord,
            Refusal::SingleRead | Refusal::GroupRead | Refusal::ReadFormat => {
                ErrorKind::UnsupportedConfig
            }
            Refusal::AttributeTail => ErrorKind::UnsupportedData,
            Refusal::OutOfMemory => ErrorKind::OutOfMemory,
            Refusal::Kept(kind) => kind,
        }
    }

    // The message of the error it becomes, if it has one.
    fn message(self) -> Option<&'static str>
        ensures { option_map (λ text. text.now) result ≡ refusal_text self }
    {
        match self {
            Refusal::SmallHeader => Some("header size was too small to be valid"),
            Refusal::NoRoomForId => Some(
                "config has sample_id_all bit set but record does not have enough data to store the sample_id",
            ),
            Refusal::AttributeSize => Some("not a valid size for a perf_event_attr struct"),
            Refusal::AttributeTail => Some(
                "serialized perf_event_attr contains fields not supported by this version of perf-event-data",
            ),
            Refusal::BuildIdLength => Some("build_id had invalid length"),
            Refusal::UsedStack => Some("stack dyn_size was greater than the record size"),
            Refusal::SingleRead => Some(
                "attempted to parse a SingleRead with a config that has GROUP set in read_format",
            ),
            Refusal::GroupRead => Some(
                "attempted to parse a GroupRead with a config that does not have GROUP set in read_format",
            ),
            Refusal::ReadFormat => Some("read_format contains unsupported flags"),
            Refusal::GroupLength => {
                Some("number of elements in group read was too large for data type")
            }
            Refusal::Eof | Refusal::OutOfMemory | Refusal::Kept(_) => None,
        }
    }

    // The error with its kind and its message.
    fn error(self) -> ParseError
        ensures { IsErrorOf result self }
    {
        match self.message() {
            Some(message) => ParseError::custom(self.kind(), message),
            None => ParseError::plain(self.kind()),
        }
    }
}

/// The error of a buffer or of a caller's own type, until it is returned.
#[derive(Drop)]
pub struct Kept {
    error: Option<ParseError>,
}

impl Kept {
    /// No error.
    #[inline]
    pub fn none() -> Kept {
        Kept { error: None }
    }

    /// Keeps an error, which replaces an earlier one.
    #[cold]
    #[inline(never)]
    pub fn keep(&mut self, error: ParseError) -> Refusal
        ensures { refusal_kind result ≡ kind_of error }
    {
        let kind = error.kind();
        self.error = Some(error);
        Refusal::Kept(kind)
    }

    // The error that is kept, if it is of that kind.
    fn take(&mut self, kind: ErrorKind) -> ParseError
        ensures { kind_of result ≡ kind }
    {
        match self.error.take() {
            Some(error) if error.kind() == kind => error,
            _ => ParseError::plain(kind),
        }
    }

    /// The error that a refusal becomes.
    #[cold]
    #[inline(never)]
    pub fn error_of(&mut self, refusal: Refusal) -> ParseError
        ensures { IsErrorOf result refusal }
    {
        match refusal {
            Refusal::Kept(kind) => self.take(kind),
            _ => refusal.error(),
        }
    }
}
