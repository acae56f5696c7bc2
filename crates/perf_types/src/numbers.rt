//! Records of numbers alone: EXIT and FORK, THROTTLE and UNTHROTTLE, LOST, LOST_SAMPLES, AUX,
//! AUX_OUTPUT_HW_ID, ITRACE_START and BPF_EVENT.
#![tactic(auto, using(perf_reader::proofs::Calls::chain))]

ghost use Rattle.std.specs.Prelude.{◌≡◌};
ghost use Rattle.perf_base.specs.Layout.{value};
ghost use Rattle.perf_reader.specs.Prelude.{ReadsPlain};
ghost use Rattle.perf_types.specs.Numbers.{exit, throttle, lost, lost_samples, aux, aux_value};
ghost use Rattle.perf_types.specs.Numbers.{aux_output_hw_id, itrace_start, bpf_event, bpf_event_value};

use crate::pair::{pair_in, read_pair};
use perf_base::{Endian, ReadResult};
use perf_buffers::input::Input;
use perf_reader::read::{HasTransition, ReadFrom};
use perf_reader::reader::Reader;
use perf_words::flags::AuxFlags;
use perf_words::named::BpfEventType;

/// A task ended (`PERF_RECORD_EXIT`), or was created (`PERF_RECORD_FORK`), as perf_event_open(2)
/// lays out both.
#[derive(Clone, Debug, Drop)]
pub struct Exit {
    /// The process id of the task.
    pub pid: u32,
    /// For FORK, the process that created the task; for EXIT, that of the task's parent.
    pub ppid: u32,
    /// The thread id of the task.
    pub tid: u32,
    /// For FORK, the thread that created the task; for EXIT, `ppid` again, since Linux 5.8.
    pub ptid: u32,
    /// When it happened, in nanoseconds of the event's clock.
    pub time: u64,
}

/// A task was created by `fork(2)` or `clone(2)`: the same fields as an [`Exit`].
pub type Fork = Exit;

impl HasTransition for Exit {
    ghost transition = { ReadsPlain (λ _. exit) (λ r. r) };
}

// The size of an `Exit` in bytes, and how many numbers it has.
const EXIT_SIZE: usize = 24;

const EXIT_NUMBERS: usize = 5;

// The fields in these bytes.
#[inline]
#[tactic(auto)]
fn exit_in<E: Endian>(endian: &E, bytes: [u8; EXIT_SIZE]) -> Exit
    ensures { result ≡ value (E.order endian.now) bytes 0 exit }
{
    let (eights, _) = bytes.as_chunks::<8>();
    let (pid, ppid) = pair_in(endian, eights[0]);
    let (tid, ptid) = pair_in(endian, eights[1]);
    Exit {
        pid,
        ppid,
        tid,
        ptid,
        time: endian.convert_u64(eights[2]),
    }
}

impl<'p, I: Input<'p>> ReadFrom<'p, I> for Exit {
    #[inline]
    fn read<E: Endian>(reader: &mut Reader<I, E>) -> ReadResult<Self> {
        if let Some(bytes) = reader.read_at_once::<EXIT_SIZE>(EXIT_NUMBERS)? {
            return Ok(exit_in(reader.endian(), bytes));
        }
        Ok(Exit {
            pid: reader.read_u32()?,
            ppid: reader.read_u32()?,
            tid: reader.read_u32()?,
            ptid: reader.read_u32()?,
            time: reader.read_u64()?,
        })
    }
}

/// The kernel stopped an event that occurred too often (`PERF_RECORD_THROTTLE`), or resumed it
/// (`PERF_RECORD_UNTHROTTLE`).
#[derive(Clone, Debug, Drop)]
pub struct Throttle {
    /// When it happened, in nanoseconds of the event's clock.
    pub time: u64,
    /// The kernel's id of the event, or of its group's leader.
    pub id: u64,
    /// The kernel's id of the event itself.
    pub stream_id: u64,
}

impl HasTransition for Throttle {
    ghost transition = { ReadsPlain (λ _. throttle) (λ r. r) };
}

impl<'p, I: Input<'p>> ReadFrom<'p, I> for Throttle {
    #[inline]
    fn read<E: Endian>(reader: &mut Reader<I, E>) -> ReadResult<Self> {
        Ok(Throttle {
            time: reader.read_u64()?,
            id: reader.read_u64()?,
            stream_id: reader.read_u64()?,
        })
    }
}

/// Events were lost, because the ring buffer was full (`PERF_RECORD_LOST`).
#[derive(Copy, Clone, Debug)]
pub struct Lost {
    /// The kernel's id of the event that lost them.
    pub id: u64,
    /// How many were lost.
    pub lost: u64,
}

impl HasTransition for Lost {
    ghost transition = { ReadsPlain (λ _. lost) (λ r. r) };
}

impl<'p, I: Input<'p>> ReadFrom<'p, I> for Lost {
    #[inline]
    fn read<E: Endian>(reader: &mut Reader<I, E>) -> ReadResult<Self> {
        Ok(Lost {
            id: reader.read_u64()?,
            lost: reader.read_u64()?,
        })
    }
}

/// Hardware samples were lost (`PERF_RECORD_LOST_SAMPLES`).
#[derive(Clone, Debug, Drop)]
pub struct LostSamples {
    /// How many may have been lost.
    pub lost: u64,
}

impl HasTransition for LostSamples {
    ghost transition = { ReadsPlain (λ _. lost_samples) (λ r. r) };
}

impl<'p, I: Input<'p>> ReadFrom<'p, I> for LostSamples {
    #[inline]
    fn read<E: Endian>(reader: &mut Reader<I, E>) -> ReadResult<Self> {
        let count = reader.read_u64()?;
        Ok(LostSamples { lost: count })
    }
}

/// There is new data in the AUX buffer (`PERF_RECORD_AUX`).
#[derive(Clone, Debug, Drop)]
pub struct Aux {
    /// The offset of the data in the AUX buffer, in bytes.
    pub aux_offset: u64,
    /// The size of the data in bytes.
    pub aux_size: u64,
    /// What happened to the data, `PERF_AUX_FLAG_*`.
    pub flags: AuxFlags,
}

impl HasTransition for Aux {
    ghost transition = { ReadsPlain (λ _. aux) aux_value };
}

impl<'p, I: Input<'p>> ReadFrom<'p, I> for Aux {
    #[inline]
    fn read<E: Endian>(reader: &mut Reader<I, E>) -> ReadResult<Self> {
        Ok(Aux {
            aux_offset: reader.read_u64()?,
            aux_size: reader.read_u64()?,
            flags: reader.read()?,
        })
    }
}

/// The hardware's id of an event whose output goes to the AUX buffer
/// (`PERF_RECORD_AUX_OUTPUT_HW_ID`).
#[derive(Copy, Clone, Debug)]
pub struct AuxOutputHwId {
    /// The id by which a trace in the AUX buffer names the event.
    pub hw_id: u64,
}

impl HasTransition for AuxOutputHwId {
    ghost transition = { ReadsPlain (λ _. aux_output_hw_id) (λ r. r) };
}

impl<'p, I: Input<'p>> ReadFrom<'p, I> for AuxOutputHwId {
    #[inline]
    fn read<E: Endian>(reader: &mut Reader<I, E>) -> ReadResult<Self> {
        Ok(AuxOutputHwId {
            hw_id: reader.read_u64()?,
        })
    }
}

/// An instruction trace began (`PERF_RECORD_ITRACE_START`).
#[derive(Clone, Debug, Drop)]
pub struct ITraceStart {
    /// The id of the traced process.
    pub pid: u32,
    /// The id of its thread.
    pub tid: u32,
}

impl HasTransition for ITraceStart {
    ghost transition = { ReadsPlain (λ _. itrace_start) (λ r. r) };
}

impl<'p, I: Input<'p>> ReadFrom<'p, I> for ITraceStart {
    #[inline]
    fn read<E: Endian>(reader: &mut Reader<I, E>) -> ReadResult<Self> {
        let (pid, tid) = read_pair(reader)?;
        Ok(ITraceStart { pid, tid })
    }
}

/// A BPF program was loaded or unloaded (`PERF_RECORD_BPF_EVENT`).
#[derive(Copy, Clone, Debug)]
pub struct BpfEvent {
    /// Which of the two happened, `PERF_BPF_EVENT_*`.
    pub ty: BpfEventType,
    /// Flags of the program. The kernel sets none so far.
    pub flags: u16,
    /// The kernel's id of the program.
    pub id: u32,
    /// The program's tag: eight bytes of a hash of its instructions.
    pub tag: [u8; 8],
}

impl HasTransition for BpfEvent {
    ghost transition = { ReadsPlain (λ _. bpf_event) bpf_event_value };
}

impl<'p, I: Input<'p>> ReadFrom<'p, I> for BpfEvent {
    #[inline]
    fn read<E: Endian>(reader: &mut Reader<I, E>) -> ReadResult<Self> {
        Ok(BpfEvent {
            ty: reader.read()?,
            flags: reader.read_u16()?,
            id: reader.read_u32()?,
            tag: reader.read_array::<8>()?,
        })
    }
}
