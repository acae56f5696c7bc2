//! The sample id at the end of records.
#![tactic(auto, using(perf_reader::proofs::Calls::chain, crate::proofs::Flags::sample_flags))]

ghost use Rattle.std.specs.Prelude.{◌≡◌, ◌*◌, if◌then◌else◌};
ghost use Rattle.perf_sample_types.specs.SampleId as ids;
ghost use Rattle.perf_sample_types.specs.SampleIdFields.{origin, after_origin, TakesOrLacks};
ghost use Rattle.perf_sample_types.specs.Prelude as samples;
ghost use Rattle.perf_counters.specs.Prelude.{Call, ReadsPlain, kinds, configuration_of};
ghost use Rattle.perf_counters.specs.Prelude.{sample_flags_bits};

use crate::sample::Sample;
use bitflags::Flags;
use perf_base::{Endian, ParseConfig, ReadResult};
use perf_buffers::input::Input;
use perf_reader::read::{HasTransition, ReadFrom};
use perf_reader::reader::Reader;
use perf_words::SampleFlags;
use std::marker::Model;

/// Which task and event a record belongs to (`struct sample_id`). With `sample_id_all` the kernel
/// writes it at the end of each of its own records, whose types are below 64, except SAMPLE. A
/// field is present if the sample type has its flag.
#[derive(Copy, Clone, Debug)]
pub struct SampleId {
    pid: Option<u32>,
    tid: Option<u32>,
    time: Option<u64>,
    id: Option<u64>,
    stream_id: Option<u64>,
    cpu: Option<u32>,
}

impl Model for SampleId {
    ghost Value = { ids.SampleIdValue };

    ghost view = { λ s. record {
      pid = s.pid;
      tid = s.tid;
      time = s.time;
      id = s.id;
      stream_id = s.stream_id;
      cpu = s.cpu;
    } };

    ghost inverse = { λ s. record {
      pid = s.pid;
      tid = s.tid;
      time = s.time;
      id = s.id;
      stream_id = s.stream_id;
      cpu = s.cpu;
    } };
}

/// All fields are absent.
impl Default for SampleId {
    ghost is_default = { λ s. s ≡ ids.no_sample_id };

    fn default() -> SampleId {
        SampleId {
            pid: None,
            tid: None,
            time: None,
            id: None,
            stream_id: None,
            cpu: None,
        }
    }
}

impl From<Sample<'_>> for SampleId {
    ghost from_gives = { λ sample id. id ≡ samples.sample_id_of (samples.sample_value sample) };

    fn from(sample: Sample<'_>) -> SampleId {
        SampleId::from_sample(&sample)
    }
}

impl From<&Sample<'_>> for SampleId {
    ghost from_gives = { λ sample id. id ≡ samples.sample_id_of (samples.sample_value sample.now) };

    fn from(sample: &Sample<'_>) -> SampleId {
        SampleId::from_sample(sample)
    }
}

#[inline]
fn field_len(flag: bool) -> usize
    ensures { result ≡ 8 * ids.one_if flag }
{
    if flag { 8 } else { 0 }
}

impl SampleId {
    /// The sample id with these fields.
    #[inline]
    pub fn from_parts(
        pid: Option<u32>,
        tid: Option<u32>,
        time: Option<u64>,
        id: Option<u64>,
        stream_id: Option<u64>,
        cpu: Option<u32>,
    ) -> SampleId
        ensures { result ≡ record {
          pid = pid;
          tid = tid;
          time = time;
          id = id;
          stream_id = stream_id;
          cpu = cpu;
        } }
    {
        SampleId {
            pid,
            tid,
            time,
            id,
            stream_id,
            cpu,
        }
    }

    /// The sample id with the values of a sample. It allocates nothing.
    pub fn from_sample(sample: &Sample<'_>) -> SampleId
        ensures { result ≡ samples.sample_id_of (samples.sample_value sample.now) }
    {
        SampleId {
            pid: sample.pid(),
            tid: sample.tid(),
            time: sample.time(),
            id: sample.id(),
            stream_id: sample.stream_id(),
            cpu: sample.cpu(),
        }
    }

    /// How many bytes the sample id of a record has under a configuration: eight for each of its
    /// flags that the sample type has, and none without `sample_id_all`.
    #[inline]
    pub fn estimate_len<E>(config: &ParseConfig<E>) -> usize
        ensures { result ≡ ids.sample_id_length (configuration_of config.now) }
    {
        if !config.sample_id_all() {
            return 0;
        }
        let flags = config.sample_type();
        field_len(flags.contains(SampleFlags::TID))
            + field_len(flags.contains(SampleFlags::TIME))
            + field_len(flags.contains(SampleFlags::ID))
            + field_len(flags.contains(SampleFlags::STREAM_ID))
            + field_len(flags.contains(SampleFlags::CPU))
            + field_len(flags.contains(SampleFlags::IDENTIFIER))
    }

    /// The process in which it happened, if the sample type has `PERF_SAMPLE_TID`.
    #[inline]
    pub fn pid(&self) -> Option<u32>
        ensures { result ≡ self.now.pid }
    {
        self.pid
    }

    /// The thread in which it happened, if the sample type has `PERF_SAMPLE_TID`.
    #[inline]
    pub fn tid(&self) -> Option<u32>
        ensures { result ≡ self.now.tid }
    {
        self.tid
    }

    /// When it happened, in nanoseconds of the event's clock, if the sample type has
    /// `PERF_SAMPLE_TIME`.
    #[inline]
    pub fn time(&self) -> Option<u64>
        ensures { result ≡ self.now.time }
    {
        self.time
    }

    /// The kernel's own number of the event, or of its group's leader, if the sample type has
    /// `PERF_SAMPLE_ID` or `PERF_SAMPLE_IDENTIFIER`.
    #[inline]
    pub fn id(&self) -> Option<u64>
        ensures { result ≡ self.now.id }
    {
        self.id
    }

    /// The kernel's own number of the event itself, if the sample type has `PERF_SAMPLE_STREAM_ID`.
    #[inline]
    pub fn stream_id(&self) -> Option<u64>
        ensures { result ≡ self.now.stream_id }
    {
        self.stream_id
    }

    /// The processor on which it happened, if the sample type has `PERF_SAMPLE_CPU`.
    #[inline]
    pub fn cpu(&self) -> Option<u32>
        ensures { result ≡ self.now.cpu }
    {
        self.cpu
    }
}

#[inline]
fn padding_len(flag: bool) -> usize
    ensures { result ≡ (if flag then 4 else 0) }
{
    if flag { 4 } else { 0 }
}

// The task, the time and the id.
#[derive(Copy, Clone)]
struct Origin {
    pid: Option<u32>,
    tid: Option<u32>,
    time: Option<u64>,
    id: Option<u64>,
}

#[inline]
fn read_origin<'p, I: Input<'p>, E: Endian>(
    reader: &mut Reader<I, E>,
    flags: SampleFlags,
) -> ReadResult<Origin>
    ensures call { Call I.source E.order
        (ReadsPlain (λ _. origin (sample_flags_bits flags)) (λ o. o))
        reader.old (kinds result) reader.new }
{
    let has_task = flags.contains(SampleFlags::TID);
    Ok(Origin {
        pid: reader.read_u32_if(has_task)?,
        tid: reader.read_u32_if(has_task)?,
        time: reader.read_u64_if(flags.contains(SampleFlags::TIME))?,
        id: reader.read_u64_if(flags.contains(SampleFlags::ID))?,
    })
}

// The fields after these.
#[inline]
fn read_after<'p, I: Input<'p>, E: Endian>(
    reader: &mut Reader<I, E>,
    flags: SampleFlags,
    origin: Origin,
) -> ReadResult<SampleId>
    ensures call { Call I.source E.order
        (ReadsPlain (λ _. after_origin (sample_flags_bits flags) origin) (λ s. s))
        reader.old (kinds result) reader.new }
{
    let stream_id = reader.read_u64_if(flags.contains(SampleFlags::STREAM_ID))?;
    let has_cpu = flags.contains(SampleFlags::CPU);
    let cpu = reader.read_u32_if(has_cpu)?;
    reader.skip(padding_len(has_cpu))?;
    let identifier = reader.read_u64_if(flags.contains(SampleFlags::IDENTIFIER))?;
    let Origin { pid, tid, time, id } = origin;
    Ok(SampleId::from_parts(pid, tid, time, id.or(identifier), stream_id, cpu))
}

#[inline]
#[tactic(auto)]
fn read_fields<'p, I: Input<'p>, E: Endian>(
    reader: &mut Reader<I, E>,
    flags: SampleFlags,
) -> ReadResult<SampleId>
    ensures call { Call I.source E.order
        (ReadsPlain (λ _. ids.sample_id_fields (sample_flags_bits flags)) (λ s. s))
        reader.old (kinds result) reader.new }
{
    match read_origin(reader, flags) {
        Ok(origin) => read_after(reader, flags, origin),
        Err(refusal) => Err(refusal),
    }
}

impl HasTransition for SampleId {
    ghost transition = { λ old outcome new. ReadsPlain ids.sample_id (λ s. s) old outcome new
        × TakesOrLacks (ids.sample_id_length old.settings) old outcome new };
}

/// The sample id of a record, from where its bytes begin. It is read whenever
/// [`SampleId::estimate_len`] bytes are left, and takes exactly those. Without `sample_id_all` it
/// is empty and takes none.
impl<'p, I: Input<'p>> ReadFrom<'p, I> for SampleId {
    #[inline]
    fn read<E: Endian>(reader: &mut Reader<I, E>) -> ReadResult<Self> {
        let config = reader.config();
        if !config.sample_id_all() {
            return Ok(SampleId::default());
        }
        let sample_type = config.sample_type();
        read_fields(reader, sample_type)
    }
}
