//! SWITCH_CPU_WIDE.
#![tactic(auto, using(perf_reader::proofs::Calls::chain))]

ghost use Rattle.std.specs.Prelude.{◌≡◌};
ghost use Rattle.perf_reader.specs.Prelude.{ReadsPlain};
ghost use Rattle.perf_types.specs.SwitchCpuWide.{other_pid, other_tid, switch_cpu_wide};
ghost use Rattle.perf_base.specs.Misc.{switch_out_bit};
ghost use Rattle.perf_words.specs.Bits.{has_bit};

use crate::pair::read_pair;
use perf_base::sys::PERF_RECORD_MISC_SWITCH_OUT;
use perf_base::{Endian, ReadResult};
use perf_buffers::input::Input;
use perf_reader::read::{HasTransition, ReadFrom};
use perf_reader::reader::Reader;

/// The processor switched from one task to another (`PERF_RECORD_SWITCH_CPU_WIDE`), as seen by a
/// CPU-wide event. The direction is bit 13 of the header's `misc`, `PERF_RECORD_MISC_SWITCH_OUT`.
#[derive(Copy, Clone, Debug)]
pub enum SwitchCpuWide {
    /// To the task of this record's sample id.
    In {
        /// The process id of the previous task.
        pid: u32,
        /// The id of its thread.
        tid: u32,
    },
    /// Away from the task of this record's sample id.
    Out {
        /// The process id of the next task.
        pid: u32,
        /// The id of its thread.
        tid: u32,
    },
}

impl SwitchCpuWide {
    /// The process id of the other task: the previous or the next one.
    #[inline]
    pub fn pid(&self) -> u32
        ensures { result ≡ other_pid self.now }
    {
        match *self {
            SwitchCpuWide::In { pid, .. } | SwitchCpuWide::Out { pid, .. } => pid,
        }
    }

    /// The thread id of the other task: the previous or the next one.
    #[inline]
    pub fn tid(&self) -> u32
        ensures { result ≡ other_tid self.now }
    {
        match *self {
            SwitchCpuWide::In { tid, .. } | SwitchCpuWide::Out { tid, .. } => tid,
        }
    }
}

/// Whether the record with this `misc` reports that a task left its CPU.
#[inline]
#[tactic(auto, using(crate::proofs::Flags::misc_bits))]
pub fn is_switch_out(misc: u16) -> bool
    ensures { result ≡ has_bit misc switch_out_bit }
{
    misc & PERF_RECORD_MISC_SWITCH_OUT == PERF_RECORD_MISC_SWITCH_OUT
}

impl HasTransition for SwitchCpuWide {
    ghost transition = { ReadsPlain switch_cpu_wide (λ r. r) };
}

impl<'p, I: Input<'p>> ReadFrom<'p, I> for SwitchCpuWide {
    #[inline]
    fn read<E: Endian>(reader: &mut Reader<I, E>) -> ReadResult<Self> {
        let out = is_switch_out(reader.config().misc());
        let (pid, tid) = read_pair(reader)?;
        if out {
            Ok(SwitchCpuWide::Out { pid, tid })
        } else {
            Ok(SwitchCpuWide::In { pid, tid })
        }
    }
}
