//! What is made from the body of a frame.

ghost use Rattle.std.specs.Prelude.{◌≡◌, ◌≤◌, ◌+◌, ℕ, ⊤, false, length, IsTrue};
ghost use Rattle.perf_records.specs.Prelude.{Call, GivesBody, GivesWholeBody, IsRecordOf, IsSampleOf, IsSampleIn};
ghost use Rattle.perf_records.specs.Prelude.{Event, kinds, input_of, body};
ghost use Rattle.perf_records.specs.Prelude.{configuration_of, endian_of, kind_if_refused, is_external};
ghost use Rattle.perf_records.specs.Prelude.{one_if_refused, config_of, NeedsNoMemory};
ghost use Rattle.perf_base.specs.Configuration.{Configuration};
ghost use Rattle.perf_sample_types.specs.SampleMemory.{HasNoLists};
ghost use Rattle.perf_buffers.specs.Prelude.{chunk_bytes, chunk_is_borrowed};

use crate::body::visit_body;
use crate::metadata::RecordMetadata;
use crate::record::Record;
use crate::visitor::{Recording, Visitor};
use perf_base::sys::PERF_RECORD_SAMPLE;
use perf_base::{Endian, ParseConfig, ReadCounter, ReadResult};
use perf_buffers::input::Input;
use perf_buffers::parsebuf::ParseBufChunk;
use perf_buffers::transient::TransientBytes;
use perf_reader::reader::Reader;
use perf_sample_types::sample::{Sample, fill_over};
use perf_sample_types::sample_boxed::read_boxed_sample;
use std::alloc::Global;
use std::boxed::Box;

/// What is made from a body, together with a state of the caller's.
pub trait OfBody<'p, S>: Drop {
    /// What is made from it.
    type Output;

    // the types of records that it reads
    ghost reads: { ℕ → Type 0 };

    // which outputs and new states belong to an event and a state
    ghost gives: { Event → S → Self.Output → S → Type 0 };

    // under which configurations no memory is needed, if the bytes live as long as the input
    ghost plain: { Configuration → Type 0 };
}

/// What is made from a body, whether or not its bytes live as long as the input.
pub trait BodyReader<'p, S>: OfBody<'p, S> {
    /// Makes the output from the body with these bytes, and returns it with the number of
    /// elementary reads made. Bytes after the record are ignored.
    fn read<E: Endian>(
        self,
        alloc: Global,
        bytes: ParseBufChunk<'_, 'p>,
        config: ParseConfig<E>,
        metadata: RecordMetadata,
        state: &mut S,
    ) -> (ReadResult<Self::Output>, ReadCounter)
        ensures answer { Self.reads metadata.ty →
            GivesWholeBody (λ e output. Self.gives e state.old output state.new) metadata
            (E.order (endian_of config)) (body (configuration_of config) metadata.ty)
            (chunk_bytes bytes.entry) (chunk_is_borrowed bytes.entry) (kinds result.0) result.1 }
        ensures faults { Self.reads metadata.ty → is_external (kind_if_refused (kinds result.0)) ≡ false }
        ensures cost { Self.reads metadata.ty → result.1 ≤ length (chunk_bytes bytes.entry)
            + one_if_refused (kind_if_refused (kinds result.0)) }
        ensures memory { Self.plain (configuration_of config) →
            IsTrue (chunk_is_borrowed bytes.entry) → NeedsNoMemory (kinds result.0) };
}

/// The same, for one kind of input.
pub trait ReadBody<'p, S, I: Input<'p>>: OfBody<'p, S> {
    /// Makes the output from the body in the reader's input.
    fn read_body<E: Endian>(
        self,
        reader: &mut Reader<I, E>,
        metadata: RecordMetadata,
        state: &mut S,
    ) -> ReadResult<Self::Output>
        requires { IsTrue (I.source (input_of reader.old)).told }
        ensures memory { Self.plain (configuration_of (config_of reader.old)) →
            IsTrue (I.source (input_of reader.old)).whole → NeedsNoMemory (kinds result) }
        ensures call { Self.reads metadata.ty → Call I.source E.order
            (GivesBody (λ e output. Self.gives e state.old output state.new) metadata)
            reader.old (kinds result) reader.new };
}

/// Makes the output from the body with these bytes, and returns it with the number of elementary
/// reads made. This is the only place where a reader of a body is made.
#[inline]
pub fn read_from<'p, S, I: Input<'p> + Drop, E: Endian, M: ReadBody<'p, S, I>>(
    alloc: Global,
    bytes: I,
    config: ParseConfig<E>,
    metadata: RecordMetadata,
    maker: M,
    state: &mut S,
) -> (ReadResult<M::Output>, ReadCounter)
    requires told { IsTrue (I.source bytes).told }
    requires inside { (I.source bytes).can_fault ≡ false }
    ensures answer { M.reads metadata.ty →
        GivesWholeBody (λ e output. M.gives e state.old output state.new) metadata
        (E.order (endian_of config)) (body (configuration_of config) metadata.ty)
        (I.source bytes).left (I.source bytes).whole (kinds result.0) result.1 }
    ensures faults { M.reads metadata.ty → is_external (kind_if_refused (kinds result.0)) ≡ false }
    ensures cost { M.reads metadata.ty → result.1 ≤ length (I.source bytes).left
        + one_if_refused (kind_if_refused (kinds result.0)) }
    ensures memory { M.plain (configuration_of config) → IsTrue (I.source bytes).whole →
        NeedsNoMemory (kinds result.0) }
{
    let mut reader = Reader::new(alloc, bytes, config);
    let output = maker.read_body(&mut reader, metadata, state);
    (output, reader.into_reads())
}

// The same of bytes that live as long as the input, or do not: what is kept of them is borrowed or
// copied.
macro_rules! read_either {
    ($alloc:ident, $bytes:ident, $config:ident, $metadata:ident, $maker:ident, $state:ident) => {
        match $bytes {
            ParseBufChunk::External(bytes) => {
                read_from($alloc, bytes, $config, $metadata, $maker, $state)
            }
            ParseBufChunk::Temporary(bytes) => {
                read_from($alloc, TransientBytes::new(bytes), $config, $metadata, $maker, $state)
            }
        }
    };
}

/// What a visitor makes of a record.
#[derive(Drop)]
pub struct ByVisitor<V> {
    /// The visitor.
    pub visitor: V,
}

impl<'p, V: Visitor<'p>> OfBody<'p, ()> for ByVisitor<V> {
    type Output = V::Output;

    ghost reads = { λ _. ⊤ };

    ghost gives = { λ e _ output _. V.gives e output };

    ghost plain = { λ _. ⊥ };
}

impl<'p, V: Visitor<'p>> BodyReader<'p, ()> for ByVisitor<V> {
    #[inline]
    fn read<E: Endian>(
        self,
        alloc: Global,
        bytes: ParseBufChunk<'_, 'p>,
        config: ParseConfig<E>,
        metadata: RecordMetadata,
        state: &mut (),
    ) -> (ReadResult<Self::Output>, ReadCounter) {
        read_either!(alloc, bytes, config, metadata, self, state)
    }
}

impl<'p, I: Input<'p>, V: Visitor<'p>> ReadBody<'p, (), I> for ByVisitor<V> {
    #[inline]
    fn read_body<E: Endian>(
        self,
        reader: &mut Reader<I, E>,
        metadata: RecordMetadata,
        state: &mut (),
    ) -> ReadResult<Self::Output> {
        visit_body(reader, metadata, self.visitor)
    }
}

/// The record of a body. A visit by [`Recording`] makes it, except for a sample, which is large:
/// that is read in place, in its box.
#[derive(Drop)]
pub struct AsRecord;

impl<'p> OfBody<'p, ()> for AsRecord {
    type Output = Record<'p>;

    ghost reads = { λ _. ⊤ };

    ghost gives = { λ e _ output _. IsRecordOf e output };

    ghost plain = { λ _. ⊥ };
}

impl<'p> BodyReader<'p, ()> for AsRecord {
    #[inline]
    fn read<E: Endian>(
        self,
        alloc: Global,
        bytes: ParseBufChunk<'_, 'p>,
        config: ParseConfig<E>,
        metadata: RecordMetadata,
        state: &mut (),
    ) -> (ReadResult<Self::Output>, ReadCounter) {
        read_either!(alloc, bytes, config, metadata, self, state)
    }
}

impl<'p, I: Input<'p>> ReadBody<'p, (), I> for AsRecord {
    #[inline]
    fn read_body<E: Endian>(
        self,
        reader: &mut Reader<I, E>,
        metadata: RecordMetadata,
        state: &mut (),
    ) -> ReadResult<Self::Output> {
        if metadata.ty() == PERF_RECORD_SAMPLE {
            return match read_boxed_sample(reader) {
                Ok(sample) => Ok(Record::Sample(sample)),
                Err(refusal) => Err(refusal),
            };
        }
        match visit_body(reader, metadata, Recording::small(reader.alloc())) {
            Ok(Ok(record)) => Ok(record),
            Ok(Err(refusal)) => Err(refusal),
            Err(refusal) => Err(refusal),
        }
    }
}

/// The sample of a body, in a box.
#[derive(Drop)]
pub struct AsSample;

impl<'p> OfBody<'p, ()> for AsSample {
    type Output = Box<Sample<'p>>;

    ghost reads = { λ ty. ty ≡ 9 };

    ghost gives = { λ e _ output _. IsSampleOf e output };

    ghost plain = { λ _. ⊥ };
}

impl<'p> BodyReader<'p, ()> for AsSample {
    #[inline]
    fn read<E: Endian>(
        self,
        alloc: Global,
        bytes: ParseBufChunk<'_, 'p>,
        config: ParseConfig<E>,
        metadata: RecordMetadata,
        state: &mut (),
    ) -> (ReadResult<Self::Output>, ReadCounter) {
        read_either!(alloc, bytes, config, metadata, self, state)
    }
}

impl<'p, I: Input<'p>> ReadBody<'p, (), I> for AsSample {
    #[inline]
    fn read_body<E: Endian>(
        self,
        reader: &mut Reader<I, E>,
        metadata: RecordMetadata,
        state: &mut (),
    ) -> ReadResult<Self::Output> {
        read_boxed_sample(reader)
    }
}

/// The sample of a body, read into the place of an existing one. If it is refused, the caller has to
/// clear the place.
#[derive(Drop)]
pub struct IntoSample;

impl<'p> OfBody<'p, Sample<'p>> for IntoSample {
    type Output = ();

    ghost reads = { λ ty. ty ≡ 9 };

    ghost gives = { λ e _ _ now. IsSampleIn e now };

    ghost plain = { HasNoLists };
}

impl<'p> BodyReader<'p, Sample<'p>> for IntoSample {
    #[inline]
    fn read<E: Endian>(
        self,
        alloc: Global,
        bytes: ParseBufChunk<'_, 'p>,
        config: ParseConfig<E>,
        metadata: RecordMetadata,
        state: &mut Sample<'p>,
    ) -> (ReadResult<Self::Output>, ReadCounter) {
        read_either!(alloc, bytes, config, metadata, self, state)
    }
}

impl<'p, I: Input<'p>> ReadBody<'p, Sample<'p>, I> for IntoSample {
    #[inline]
    fn read_body<E: Endian>(
        self,
        reader: &mut Reader<I, E>,
        metadata: RecordMetadata,
        state: &mut Sample<'p>,
    ) -> ReadResult<Self::Output> {
        fill_over(state, reader)
    }
}
