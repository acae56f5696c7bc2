//! MMAP.
#![tactic(auto, using(perf_reader::proofs::Calls::chain))]

ghost use Rattle.std.specs.Prelude.{◌≡◌, option_map};
ghost use Rattle.perf_types.specs.Mmap.{mmap, mmap_value, IsBorrowedMmap, mmap_form};
ghost use Rattle.perf_types.specs.Prelude.{ReadsInPlace, cow_items, text_of, IsClone, IsOwnedCopy};

use crate::mmap2::Place;
use crate::text::text;
use perf_base::{CowSlice, Endian, ParseResult, ReadResult};
use perf_buffers::input::Input;
use perf_reader::read::{HasTransition, ReadFrom};
use perf_reader::reader::Reader;
use std::alloc::Global;

/// A process mapped something into its memory (`PERF_RECORD_MMAP`): something executable, or if the
/// attribute has `mmap_data`, also something that is not.
#[derive(Debug, Drop)]
pub struct Mmap<'a> {
    /// The process id.
    pub pid: u32,
    /// The id of its thread.
    pub tid: u32,
    /// The address of the mapping in the process's memory.
    pub addr: u64,
    /// The size of the mapping in bytes.
    pub len: u64,
    /// The offset of the mapping in the file, in bytes.
    pub pgoff: u64,
    /// The file's path, without the trailing zero bytes. If there is no file, it is the kernel's
    /// name for what is mapped, such as `//anon` or `[vdso]`.
    pub filename: CowSlice<'a, u8>,
}

impl<'a> Mmap<'a> {
    /// The path as text, or `None` if it is not UTF-8.
    pub fn filename_os(&self) -> Option<&str>
        ensures { option_map (λ text. text.now) result ≡ text_of (cow_items self.now.filename) }
    {
        text(self.filename.as_slice())
    }

    /// A copy of the record. It needs no memory if the path is borrowed.
    pub fn clone(&self, alloc: Global) -> ParseResult<Mmap<'a>>
        ensures { IsClone mmap_value mmap_form self.now result }
    {
        Ok(Mmap {
            pid: self.pid,
            tid: self.tid,
            addr: self.addr,
            len: self.len,
            pgoff: self.pgoff,
            filename: self.filename.clone(alloc)?,
        })
    }

    /// Makes the record own its path, so that it does not borrow from the input. It needs no memory
    /// if it owns the path already. If out of memory, it returns `OutOfMemory` and the record is
    /// dropped.
    pub fn into_owned<'b>(self, alloc: Global) -> ParseResult<Mmap<'b>>
        ensures { IsOwnedCopy mmap_value mmap_form self.entry result }
    {
        let Mmap {
            pid,
            tid,
            addr,
            len,
            pgoff,
            filename,
        } = self;
        Ok(Mmap {
            pid,
            tid,
            addr,
            len,
            pgoff,
            filename: filename.into_owned(alloc)?,
        })
    }
}

impl HasTransition for Mmap<'_> {
    ghost transition = { ReadsInPlace (λ _. mmap) mmap_value IsBorrowedMmap };
}

impl<'p, I: Input<'p>> ReadFrom<'p, I> for Mmap<'p> {
    #[inline]
    fn read<E: Endian>(reader: &mut Reader<I, E>) -> ReadResult<Self> {
        let place = Place::read(reader)?;
        let filename = reader.read_rest_trim_nul()?;
        Ok(Mmap {
            pid: place.pid,
            tid: place.tid,
            addr: place.addr,
            len: place.len,
            pgoff: place.pgoff,
            filename,
        })
    }
}
