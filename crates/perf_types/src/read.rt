//! READ.
#![tactic(auto, using(perf_reader::proofs::Calls::chain))]

ghost use Rattle.perf_reader.specs.Prelude.{ReadsPlain};
ghost use Rattle.perf_types.specs.Read.{read, task_read};

use crate::pair::read_pair;
use perf_base::{Endian, ReadResult};
use perf_buffers::input::Input;
use perf_counters::read_value::ReadValue;
use perf_reader::read::{HasTransition, ReadFrom};
use perf_reader::reader::Reader;

/// The kernel read a counter of a task (`PERF_RECORD_READ`), which it does if the attribute has
/// `inherit_stat`.
#[derive(Clone, Debug, Drop)]
pub struct Read {
    /// The process id.
    pub pid: u32,
    /// The id of its thread.
    pub tid: u32,
    /// What was read.
    pub values: ReadValue,
}

impl HasTransition for Read {
    ghost transition = { ReadsPlain read task_read };
}

impl<'p, I: Input<'p>> ReadFrom<'p, I> for Read {
    #[inline]
    fn read<E: Endian>(reader: &mut Reader<I, E>) -> ReadResult<Self> {
        let (pid, tid) = read_pair(reader)?;
        let values = reader.read()?;
        Ok(Read { pid, tid, values })
    }
}
