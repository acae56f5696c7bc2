//! Why a file cannot be opened.

ghost use Rattle.std.specs.Prelude.{◌≡◌, Some};
ghost use Rattle.perf_sections.specs.Messages as messages;
ghost use Rattle.perf_sections.specs.declared.error.OpenError.TheVariants.{OutOfMemory};

use perf_base::ErrorKind;
use std::alloc::{AllocError, AllocFailed};
use std::fmt;

// What is wrong with the file, and what to do.
const NOT_PERF_DATA: &str = "this is no perf.data file: pass a file that `perf record` has written";

const OLD_FORMAT: &str =
    "this file has the format that perf wrote before 2010: record again with a newer perf";

const BAD_HEAD: &str =
    "the head of the file is cut off, or has an unknown size: copy the file again, or record again";

const PIPE: &str =
    "this is what `perf record -o -` writes: record into a file, with `perf record -o perf.data`";

const DIRECTORY: &str =
    "this is one of several files of `perf record --threads`: record again without that option";

const COMPRESSED: &str =
    "the frames are compressed: run `perf inject -i perf.data -o plain.data`, or record without `-z`";

const BAD_ENTRY: &str =
    "the attributes are not whole entries, so the file is damaged: copy it again, or record again";

const NO_ATTRIBUTES: &str =
    "the file has no event, so it is damaged: copy it again, or record again";

const BAD_IDS: &str =
    "the ids of an event are not whole numbers, so the file is damaged: copy it again, or record again";

const OVERLAP: &str =
    "two parts of the file share bytes, so it is damaged: copy it again, or record again";

const NO_ID_PLACE: &str =
    "the events have their ids at different places: record all of them with one `perf record`";

const SHARED_ID: &str =
    "two events have one id, so the file is damaged: copy it again, or record again";

const OUT_OF_MEMORY: &str = "out of memory: leave more of it to the program";

/// A part of the file.
#[derive(Copy, Clone, Debug, PartialEq, Eq)]
pub enum Part {
    /// The attributes of the events.
    Attributes,
    /// The frames.
    Data,
    /// The ids of the event with that number.
    Ids(usize),
}

/// Why a file cannot be opened: the first check that fails, in this order. Events are numbered from
/// 0, in the order of the file.
#[derive(Copy, Clone, Debug, PartialEq, Eq)]
pub enum OpenError {
    /// It has fewer than 16 bytes, or does not begin as `perf record` writes it.
    NotPerfData,
    /// It has the format before `PERFILE2`, which perf wrote until 2009.
    OldFormat,
    /// Its head has an unknown size, or is cut off.
    BadHead,
    /// It is what `perf record -o -` writes, which the calls for C do not open.
    Pipe,
    /// It is one of several files that `perf record --threads` writes.
    Directory,
    /// Its frames are compressed, by `perf record -z`.
    Compressed,
    /// A part ends beyond the file.
    PastEnd(Part),
    /// The attributes are not whole entries of at least 80 bytes.
    BadEntry,
    /// There is no event.
    NoAttributes,
    /// The attribute of the event with that number is refused, with that kind.
    /// [`ErrorKind::InvalidRecord`] also if its size is not that of the entry.
    BadAttribute(usize, ErrorKind),
    /// The ids of the event with that number are not whole numbers of eight bytes.
    BadIds(usize),
    /// Two parts of the file share a byte.
    Overlap,
    /// There are several events, and no place where all of their frames have an id.
    NoIdPlace,
    /// Two events have that id.
    SharedId(u64),
    /// Out of memory.
    OutOfMemory,
}

impl From<AllocError> for OpenError {
    ghost from_gives = { λ _ e. e ≡ OutOfMemory };

    fn from(_error: AllocError) -> OpenError {
        OpenError::OutOfMemory
    }
}

impl<T: Drop> From<AllocFailed<T>> for OpenError {
    ghost from_gives = { λ _ e. e ≡ OutOfMemory };

    fn from(_error: AllocFailed<T>) -> OpenError {
        OpenError::OutOfMemory
    }
}

impl Part {
    // The message for a part that ends beyond the file.
    fn message(self) -> &'static str
        ensures { result.now ≡ messages.part_message self }
    {
        match self {
            Part::Attributes => {
                "the attributes end beyond the file, so it is cut off: copy it again, or record again"
            }
            Part::Data => {
                "the frames end beyond the file, so it is cut off: copy it again, or record again"
            }
            Part::Ids(_) => {
                "the ids of an event end beyond the file, so it is cut off: copy it again, or record again"
            }
        }
    }
}

impl OpenError {
    // The message for an attribute that is refused with a kind.
    fn attribute_message(kind: ErrorKind) -> &'static str
        ensures { result.now ≡ messages.attribute_message kind }
    {
        match kind {
            ErrorKind::UnsupportedData => {
                "an event has fields of a newer kernel than this library knows: use a newer version of it"
            }
            _ => "the attribute of an event is damaged: copy the file again, or record again",
        }
    }

    /// What is wrong with the file, and what to do.
    pub fn message(self) -> &'static str
        ensures { result.now ≡ messages.message self }
    {
        match self {
            OpenError::NotPerfData => NOT_PERF_DATA,
            OpenError::OldFormat => OLD_FORMAT,
            OpenError::BadHead => BAD_HEAD,
            OpenError::Pipe => PIPE,
            OpenError::Directory => DIRECTORY,
            OpenError::Compressed => COMPRESSED,
            OpenError::PastEnd(part) => part.message(),
            OpenError::BadEntry => BAD_ENTRY,
            OpenError::NoAttributes => NO_ATTRIBUTES,
            OpenError::BadAttribute(_, kind) => OpenError::attribute_message(kind),
            OpenError::BadIds(_) => BAD_IDS,
            OpenError::Overlap => OVERLAP,
            OpenError::NoIdPlace => NO_ID_PLACE,
            OpenError::SharedId(_) => SHARED_ID,
            OpenError::OutOfMemory => OUT_OF_MEMORY,
        }
    }
}

/// Its message.
impl fmt::Display for OpenError {
    ghost output = { λ e. Some (messages.message e) };

    fn fmt<W: fmt::Write>(&self, f: &mut fmt::Formatter<W>) -> fmt::Result {
        f.write_str(self.message())
    }
}

impl std::error::Error for OpenError {}
