//! Why something could not be parsed.

ghost use Rattle.std.specs.Prelude.{◌≡◌, ◌≤◌, if◌then◌else◌, Some, None, option_map, codes, length};
ghost use Rattle.std.specs.Fmt.Cut.{cut_to};
ghost use Rattle.perf_base.specs.Errors.{kind_text, kind_of, message_of, cause_of, error_text};
ghost use Rattle.perf_base.specs.Errors.{IsMadeOf, is_unexpected_eof, of_layout};
ghost use Rattle.perf_base.specs.declared.error.ErrorKind.TheVariants.{Eof, External, OutOfMemory};

use std::alloc::{AllocError, AllocFailed};
use std::fmt::InlineText;
use std::{fmt, io};

/// The number of bytes of a message that are kept. Every message of this library fits.
const ROOM: usize = 120;

/// The result of a call of this library: a value, or why there is none.
pub type ParseResult<T> = Result<T, ParseError>;

/// The six kinds of refusal.
#[derive(Copy, Clone, Debug, PartialEq, Eq, Hash)]
pub enum ErrorKind {
    /// There are fewer bytes than a number, a list or a record needs.
    Eof,
    /// A record contains an impossible value, such as a size below that of its header.
    InvalidRecord,
    /// The configuration specifies a format that this record cannot have.
    UnsupportedConfig,
    /// An attribute has fields of a kernel newer than this library.
    UnsupportedData,
    /// The buffer failed, such as by an error of its reader. This library returns it for nothing
    /// else.
    External,
    /// Out of memory.
    OutOfMemory,
}

impl ErrorKind {
    /// Whether the bytes themselves are refused: it is neither a fault nor out of memory. A run goes
    /// on after such a frame; [`ErrorKind::External`] and [`ErrorKind::OutOfMemory`] end it.
    #[inline]
    pub fn is_of_layout(&self) -> bool
        ensures { result ≡ of_layout self.now }
    {
        !matches!(self, ErrorKind::External | ErrorKind::OutOfMemory)
    }

    fn text(self) -> &'static str
        ensures { result.now ≡ kind_text self }
    {
        match self {
            ErrorKind::Eof => "unexpected EOF during parsing",
            ErrorKind::InvalidRecord => "invalid record",
            ErrorKind::UnsupportedConfig => "unsupported config",
            ErrorKind::UnsupportedData => "unsupported serialized data",
            ErrorKind::External => "user-provided error",
            ErrorKind::OutOfMemory => "out of memory",
        }
    }
}

// What an error contains besides its kind.
#[derive(Drop)]
enum Detail {
    Nothing,
    Message(InlineText<{ ROOM }>),
    Cause(anyhow::Error),
}

/// Why something could not be parsed: a kind, and possibly a message or an outside cause.
#[derive(Drop)]
pub struct ParseError {
    kind: ErrorKind,
    detail: Detail,
}

impl ParseError {
    // It is inlined, and so are the calls that make one without a message: an error is large, and a
    // caller that has it made elsewhere clears space for it before it knows whether there is one.
    #[inline(always)]
    pub(crate) fn plain(kind: ErrorKind) -> ParseError
        ensures { IsMadeOf result kind None None }
    {
        ParseError {
            kind,
            detail: Detail::Nothing,
        }
    }

    /// An error from outside, of the kind [`ErrorKind::External`].
    #[cold]
    pub fn new(cause: anyhow::Error) -> ParseError
        ensures { IsMadeOf result ErrorKind.External None (Some cause) }
    {
        ParseError {
            kind: ErrorKind::External,
            detail: Detail::Cause(cause),
        }
    }

    /// An error with a message. Its first 120 bytes are kept.
    #[cold]
    pub fn custom(kind: ErrorKind, message: &'static str) -> ParseError
        ensures cut { IsMadeOf result kind (Some (cut_to 120 message.now)) None }
        ensures whole { length message.now ≤ 120 → IsMadeOf result kind (Some message.now) None }
    {
        ParseError {
            kind,
            detail: Detail::Message(InlineText::new().and_str(message, ROOM)),
        }
    }

    /// There are not enough bytes.
    #[inline(always)]
    pub fn eof() -> ParseError
        ensures { IsMadeOf result ErrorKind.Eof None None }
    {
        ParseError::plain(ErrorKind::Eof)
    }

    /// Out of memory.
    #[inline(always)]
    pub fn out_of_memory() -> ParseError
        ensures { IsMadeOf result ErrorKind.OutOfMemory None None }
    {
        ParseError::plain(ErrorKind::OutOfMemory)
    }

    /// The kind of this error.
    #[inline]
    pub fn kind(&self) -> ErrorKind
        ensures { result ≡ kind_of self.now }
    {
        self.kind
    }

    /// The message with which it was made, if there is one.
    pub fn message(&self) -> Option<&str>
        ensures { option_map (λ text. text.now) result ≡ message_of self.now }
    {
        match &self.detail {
            Detail::Message(text) => Some(text.as_str()),
            Detail::Nothing | Detail::Cause(_) => None,
        }
    }

    /// The outside error from which it was made, if there is one.
    pub fn cause(&self) -> Option<&anyhow::Error>
        ensures { option_map (λ cause. cause.now) result ≡ cause_of self.now }
    {
        match &self.detail {
            Detail::Cause(cause) => Some(cause),
            Detail::Nothing | Detail::Message(_) => None,
        }
    }
}

impl From<anyhow::Error> for ParseError {
    ghost from_gives = { λ cause e. IsMadeOf e External None (Some cause) };

    fn from(cause: anyhow::Error) -> ParseError {
        ParseError::new(cause)
    }
}

impl From<AllocError> for ParseError {
    ghost from_gives = { λ _ e. IsMadeOf e OutOfMemory None None };

    fn from(_error: AllocError) -> ParseError {
        ParseError::out_of_memory()
    }
}

impl<T: Drop> From<AllocFailed<T>> for ParseError {
    ghost from_gives = { λ _ e. IsMadeOf e OutOfMemory None None };

    fn from(_error: AllocFailed<T>) -> ParseError {
        ParseError::out_of_memory()
    }
}

/// An unexpected end of the input is [`ErrorKind::Eof`], and any other error
/// [`ErrorKind::External`].
impl From<io::Error> for ParseError {
    ghost from_gives = { λ x e.
        IsMadeOf e (if is_unexpected_eof x then Eof else External) None None };

    fn from(error: io::Error) -> ParseError {
        if error.kind() == io::ErrorKind::UnexpectedEof {
            ParseError::eof()
        } else {
            ParseError::plain(ErrorKind::External)
        }
    }
}

impl fmt::Display for ParseError {
    ghost output = { λ e. Some (error_text e) };

    fn fmt<W: fmt::Write>(&self, f: &mut fmt::Formatter<W>) -> fmt::Result {
        f.write_str(self.kind.text())?;
        match &self.detail {
            Detail::Nothing => Ok(()),
            Detail::Message(text) => {
                f.write_str(": ")?;
                f.write_str(text.as_str())
            }
            Detail::Cause(cause) => {
                f.write_str(": ")?;
                write!(f, "{cause}")
            }
        }
    }
}

impl fmt::Debug for ParseError {
    fn fmt<W: fmt::Write>(&self, f: &mut fmt::Formatter<W>) -> fmt::Result {
        f.write_str("ParseError: ")?;
        write!(f, "{self}")
    }
}

impl std::error::Error for ParseError {}
