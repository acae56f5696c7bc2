//! COMM.
#![tactic(auto, using(perf_reader::proofs::Calls::chain))]

ghost use Rattle.std.specs.Prelude.{◌≡◌, option_map};
ghost use Rattle.perf_types.specs.Comm.{comm, comm_value, IsBorrowedComm, comm_form};
ghost use Rattle.perf_types.specs.Prelude.{ReadsInPlace, cow_items, text_of, IsClone, IsOwnedCopy};

use crate::pair::read_pair;
use crate::text::text;
use perf_base::{CowSlice, Endian, ParseResult, ReadResult};
use perf_buffers::input::Input;
use perf_reader::read::{HasTransition, ReadFrom};
use perf_reader::reader::Reader;
use std::alloc::Global;

/// A task was given a name (`PERF_RECORD_COMM`), for example by `execve(2)` or `prctl(2)`.
#[derive(Debug, Drop)]
pub struct Comm<'a> {
    /// The process id of the task.
    pub pid: u32,
    /// The thread id of the task.
    pub tid: u32,
    /// The new name, without the trailing zero bytes.
    pub comm: CowSlice<'a, u8>,
}

impl<'a> Comm<'a> {
    /// The new name as text, or `None` if it is not UTF-8.
    pub fn comm_os(&self) -> Option<&str>
        ensures { option_map (λ text. text.now) result ≡ text_of (cow_items self.now.comm) }
    {
        text(self.comm.as_slice())
    }

    /// A copy of the record. It needs no memory if the name is borrowed.
    pub fn clone(&self, alloc: Global) -> ParseResult<Comm<'a>>
        ensures { IsClone comm_value comm_form self.now result }
    {
        Ok(Comm {
            pid: self.pid,
            tid: self.tid,
            comm: self.comm.clone(alloc)?,
        })
    }

    /// Makes the record own its name, so that it does not borrow from the input. It needs no memory
    /// if it owns the name already. If out of memory, it returns `OutOfMemory` and the record is
    /// dropped.
    pub fn into_owned<'b>(self, alloc: Global) -> ParseResult<Comm<'b>>
        ensures { IsOwnedCopy comm_value comm_form self.entry result }
    {
        let Comm { pid, tid, comm } = self;
        Ok(Comm {
            pid,
            tid,
            comm: comm.into_owned(alloc)?,
        })
    }
}

impl HasTransition for Comm<'_> {
    ghost transition = { ReadsInPlace (λ _. comm) comm_value IsBorrowedComm };
}

impl<'p, I: Input<'p>> ReadFrom<'p, I> for Comm<'p> {
    #[inline]
    fn read<E: Endian>(reader: &mut Reader<I, E>) -> ReadResult<Self> {
        let (pid, tid) = read_pair(reader)?;
        let comm = reader.read_rest_trim_nul()?;
        Ok(Comm { pid, tid, comm })
    }
}
