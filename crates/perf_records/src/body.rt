//! Visits the record of a type, read from the bytes between header and sample id.
//!
//! Each type is read in a function of its own, so that a call uses no more stack than that type
//! needs.
#![tactic(auto, using(perf_reader::proofs::Calls::chain))]

ghost use Rattle.perf_records.specs.Prelude.{Call, GivesBody, GivesType, GivesUnknown, kinds};
ghost use Rattle.perf_records.specs.Prelude as prelude;

use crate::metadata::RecordMetadata;
use crate::record_type::RecordType;
use crate::visitor::Visitor;
use perf_base::{Endian, ReadResult};
use perf_buffers::input::Input;
use perf_reader::reader::Reader;
use perf_sample_types::read_sample;
use perf_sample_types::sample::{Sample, fill_sample};
use perf_types::{
    Aux, AuxOutputHwId, BpfEvent, CGroup, Comm, Exit, ITraceStart, KSymbol, Lost, LostSamples,
    Mmap, Mmap2, Namespaces, Read, SwitchCpuWide, TextPoke, Throttle,
};

// Reads a record of a type, and passes it to the visitor's method for that type.
macro_rules! visited {
    ($reader:ident, $metadata:ident, $visitor:ident, $type:ty => $visit:ident) => {
        match $reader.read::<$type>() {
            Ok(content) => Ok($visitor.$visit(content, $metadata)),
            Err(refusal) => Err(refusal),
        }
    };
}

#[inline(never)]
fn visit_mmap<'p, I: Input<'p>, E: Endian, V: Visitor<'p>>(
    reader: &mut Reader<I, E>,
    metadata: RecordMetadata,
    visitor: V,
) -> ReadResult<V::Output>
    ensures call { Call I.source E.order (GivesType V.gives metadata RecordType.Mmap)
        reader.old (kinds result) reader.new }
{
    visited!(reader, metadata, visitor, Mmap<'p> => visit_mmap)
}

#[inline(never)]
fn visit_lost<'p, I: Input<'p>, E: Endian, V: Visitor<'p>>(
    reader: &mut Reader<I, E>,
    metadata: RecordMetadata,
    visitor: V,
) -> ReadResult<V::Output>
    ensures call { Call I.source E.order (GivesType V.gives metadata RecordType.Lost)
        reader.old (kinds result) reader.new }
{
    visited!(reader, metadata, visitor, Lost => visit_lost)
}

#[inline(never)]
fn visit_comm<'p, I: Input<'p>, E: Endian, V: Visitor<'p>>(
    reader: &mut Reader<I, E>,
    metadata: RecordMetadata,
    visitor: V,
) -> ReadResult<V::Output>
    ensures call { Call I.source E.order (GivesType V.gives metadata RecordType.Comm)
        reader.old (kinds result) reader.new }
{
    visited!(reader, metadata, visitor, Comm<'p> => visit_comm)
}

#[inline(never)]
fn visit_exit<'p, I: Input<'p>, E: Endian, V: Visitor<'p>>(
    reader: &mut Reader<I, E>,
    metadata: RecordMetadata,
    visitor: V,
) -> ReadResult<V::Output>
    ensures call { Call I.source E.order (GivesType V.gives metadata RecordType.Exit)
        reader.old (kinds result) reader.new }
{
    visited!(reader, metadata, visitor, Exit => visit_exit)
}

#[inline(never)]
fn visit_throttle<'p, I: Input<'p>, E: Endian, V: Visitor<'p>>(
    reader: &mut Reader<I, E>,
    metadata: RecordMetadata,
    visitor: V,
) -> ReadResult<V::Output>
    ensures call { Call I.source E.order (GivesType V.gives metadata RecordType.Throttle)
        reader.old (kinds result) reader.new }
{
    visited!(reader, metadata, visitor, Throttle => visit_throttle)
}

#[inline(never)]
fn visit_unthrottle<'p, I: Input<'p>, E: Endian, V: Visitor<'p>>(
    reader: &mut Reader<I, E>,
    metadata: RecordMetadata,
    visitor: V,
) -> ReadResult<V::Output>
    ensures call { Call I.source E.order (GivesType V.gives metadata RecordType.Unthrottle)
        reader.old (kinds result) reader.new }
{
    visited!(reader, metadata, visitor, Throttle => visit_unthrottle)
}

#[inline(never)]
fn visit_fork<'p, I: Input<'p>, E: Endian, V: Visitor<'p>>(
    reader: &mut Reader<I, E>,
    metadata: RecordMetadata,
    visitor: V,
) -> ReadResult<V::Output>
    ensures call { Call I.source E.order (GivesType V.gives metadata RecordType.Fork)
        reader.old (kinds result) reader.new }
{
    visited!(reader, metadata, visitor, Exit => visit_fork)
}

#[inline(never)]
fn visit_read<'p, I: Input<'p>, E: Endian, V: Visitor<'p>>(
    reader: &mut Reader<I, E>,
    metadata: RecordMetadata,
    visitor: V,
) -> ReadResult<V::Output>
    ensures call { Call I.source E.order (GivesType V.gives metadata RecordType.Read)
        reader.old (kinds result) reader.new }
{
    visited!(reader, metadata, visitor, Read => visit_read)
}

// A sample is read in place, as it is large.
#[inline(never)]
fn visit_sample<'p, I: Input<'p>, E: Endian, V: Visitor<'p>>(
    reader: &mut Reader<I, E>,
    metadata: RecordMetadata,
    visitor: V,
) -> ReadResult<V::Output>
    ensures call { Call I.source E.order (GivesType V.gives metadata RecordType.Sample)
        reader.old (kinds result) reader.new }
{
    let mut content = Sample::default();
    read_sample!(fill_sample, content, reader =>
        visitor.visit_sample(content, metadata), drop(content))
}

#[inline(never)]
fn visit_mmap2<'p, I: Input<'p>, E: Endian, V: Visitor<'p>>(
    reader: &mut Reader<I, E>,
    metadata: RecordMetadata,
    visitor: V,
) -> ReadResult<V::Output>
    ensures call { Call I.source E.order (GivesType V.gives metadata RecordType.Mmap2)
        reader.old (kinds result) reader.new }
{
    visited!(reader, metadata, visitor, Mmap2<'p> => visit_mmap2)
}

#[inline(never)]
fn visit_aux<'p, I: Input<'p>, E: Endian, V: Visitor<'p>>(
    reader: &mut Reader<I, E>,
    metadata: RecordMetadata,
    visitor: V,
) -> ReadResult<V::Output>
    ensures call { Call I.source E.order (GivesType V.gives metadata RecordType.Aux)
        reader.old (kinds result) reader.new }
{
    visited!(reader, metadata, visitor, Aux => visit_aux)
}

#[inline(never)]
fn visit_itrace_start<'p, I: Input<'p>, E: Endian, V: Visitor<'p>>(
    reader: &mut Reader<I, E>,
    metadata: RecordMetadata,
    visitor: V,
) -> ReadResult<V::Output>
    ensures call { Call I.source E.order (GivesType V.gives metadata RecordType.ITraceStart)
        reader.old (kinds result) reader.new }
{
    visited!(reader, metadata, visitor, ITraceStart => visit_itrace_start)
}

#[inline(never)]
fn visit_lost_samples<'p, I: Input<'p>, E: Endian, V: Visitor<'p>>(
    reader: &mut Reader<I, E>,
    metadata: RecordMetadata,
    visitor: V,
) -> ReadResult<V::Output>
    ensures call { Call I.source E.order (GivesType V.gives metadata RecordType.LostSamples)
        reader.old (kinds result) reader.new }
{
    visited!(reader, metadata, visitor, LostSamples => visit_lost_samples)
}

#[inline(never)]
fn visit_switch_cpu_wide<'p, I: Input<'p>, E: Endian, V: Visitor<'p>>(
    reader: &mut Reader<I, E>,
    metadata: RecordMetadata,
    visitor: V,
) -> ReadResult<V::Output>
    ensures call { Call I.source E.order (GivesType V.gives metadata RecordType.SwitchCpuWide)
        reader.old (kinds result) reader.new }
{
    visited!(reader, metadata, visitor, SwitchCpuWide => visit_switch_cpu_wide)
}

#[inline(never)]
fn visit_namespaces<'p, I: Input<'p>, E: Endian, V: Visitor<'p>>(
    reader: &mut Reader<I, E>,
    metadata: RecordMetadata,
    visitor: V,
) -> ReadResult<V::Output>
    ensures call { Call I.source E.order (GivesType V.gives metadata RecordType.Namespaces)
        reader.old (kinds result) reader.new }
{
    visited!(reader, metadata, visitor, Namespaces<'p> => visit_namespaces)
}

#[inline(never)]
fn visit_ksymbol<'p, I: Input<'p>, E: Endian, V: Visitor<'p>>(
    reader: &mut Reader<I, E>,
    metadata: RecordMetadata,
    visitor: V,
) -> ReadResult<V::Output>
    ensures call { Call I.source E.order (GivesType V.gives metadata RecordType.KSymbol)
        reader.old (kinds result) reader.new }
{
    visited!(reader, metadata, visitor, KSymbol<'p> => visit_ksymbol)
}

#[inline(never)]
fn visit_bpf_event<'p, I: Input<'p>, E: Endian, V: Visitor<'p>>(
    reader: &mut Reader<I, E>,
    metadata: RecordMetadata,
    visitor: V,
) -> ReadResult<V::Output>
    ensures call { Call I.source E.order (GivesType V.gives metadata RecordType.BpfEvent)
        reader.old (kinds result) reader.new }
{
    visited!(reader, metadata, visitor, BpfEvent => visit_bpf_event)
}

#[inline(never)]
fn visit_cgroup<'p, I: Input<'p>, E: Endian, V: Visitor<'p>>(
    reader: &mut Reader<I, E>,
    metadata: RecordMetadata,
    visitor: V,
) -> ReadResult<V::Output>
    ensures call { Call I.source E.order (GivesType V.gives metadata RecordType.CGroup)
        reader.old (kinds result) reader.new }
{
    visited!(reader, metadata, visitor, CGroup<'p> => visit_cgroup)
}

#[inline(never)]
fn visit_text_poke<'p, I: Input<'p>, E: Endian, V: Visitor<'p>>(
    reader: &mut Reader<I, E>,
    metadata: RecordMetadata,
    visitor: V,
) -> ReadResult<V::Output>
    ensures call { Call I.source E.order (GivesType V.gives metadata RecordType.TextPoke)
        reader.old (kinds result) reader.new }
{
    visited!(reader, metadata, visitor, TextPoke<'p> => visit_text_poke)
}

#[inline(never)]
fn visit_aux_output_hw_id<'p, I: Input<'p>, E: Endian, V: Visitor<'p>>(
    reader: &mut Reader<I, E>,
    metadata: RecordMetadata,
    visitor: V,
) -> ReadResult<V::Output>
    ensures call { Call I.source E.order (GivesType V.gives metadata RecordType.AuxOutputHwId)
        reader.old (kinds result) reader.new }
{
    visited!(reader, metadata, visitor, AuxOutputHwId => visit_aux_output_hw_id)
}

// All bytes, for a type that has no table.
#[inline(never)]
fn visit_unread<'p, I: Input<'p>, E: Endian, V: Visitor<'p>>(
    reader: &mut Reader<I, E>,
    metadata: RecordMetadata,
    visitor: V,
) -> ReadResult<V::Output>
    ensures call { Call I.source E.order (GivesUnknown V.gives metadata)
        reader.old (kinds result) reader.new }
{
    match reader.read_rest() {
        Ok(bytes) => Ok(visitor.visit_unknown(bytes, metadata)),
        Err(refusal) => Err(refusal),
    }
}

/// Visits the record in the bytes of a body, of the type given by the metadata. Bytes left after
/// the record are ignored. A body that is refused is not visited.
#[inline]
pub fn visit_body<'p, I: Input<'p>, E: Endian, V: Visitor<'p>>(
    reader: &mut Reader<I, E>,
    metadata: RecordMetadata,
    visitor: V,
) -> ReadResult<V::Output>
    ensures call { Call I.source E.order (GivesBody V.gives metadata)
        reader.old (kinds result) reader.new }
{
    let Some(kind) = RecordType::of(metadata.ty()) else {
        return visit_unread(reader, metadata, visitor);
    };
    match kind {
        RecordType::Mmap => visit_mmap(reader, metadata, visitor),
        RecordType::Lost => visit_lost(reader, metadata, visitor),
        RecordType::Comm => visit_comm(reader, metadata, visitor),
        RecordType::Exit => visit_exit(reader, metadata, visitor),
        RecordType::Throttle => visit_throttle(reader, metadata, visitor),
        RecordType::Unthrottle => visit_unthrottle(reader, metadata, visitor),
        RecordType::Fork => visit_fork(reader, metadata, visitor),
        RecordType::Read => visit_read(reader, metadata, visitor),
        RecordType::Sample => visit_sample(reader, metadata, visitor),
        RecordType::Mmap2 => visit_mmap2(reader, metadata, visitor),
        RecordType::Aux => visit_aux(reader, metadata, visitor),
        RecordType::ITraceStart => visit_itrace_start(reader, metadata, visitor),
        RecordType::LostSamples => visit_lost_samples(reader, metadata, visitor),
        RecordType::Switch => Ok(visitor.visit_switch(metadata)),
        RecordType::SwitchCpuWide => visit_switch_cpu_wide(reader, metadata, visitor),
        RecordType::Namespaces => visit_namespaces(reader, metadata, visitor),
        RecordType::KSymbol => visit_ksymbol(reader, metadata, visitor),
        RecordType::BpfEvent => visit_bpf_event(reader, metadata, visitor),
        RecordType::CGroup => visit_cgroup(reader, metadata, visitor),
        RecordType::TextPoke => visit_text_poke(reader, metadata, visitor),
        RecordType::AuxOutputHwId => visit_aux_output_hw_id(reader, metadata, visitor),
    }
}
