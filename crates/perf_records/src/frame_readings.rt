//! What one whole frame contains.

ghost use Rattle.std.specs.Prelude.{◌≡◌, false, Ok, Err, IfErr, IsTrue, OnErr};
ghost use Rattle.perf_base.specs.Configuration.{under_misc};
ghost use Rattle.perf_base.specs.Refusals.{IsErrorOf, error_kinds};
ghost use Rattle.perf_base.specs.declared.error.ParseError.{ParseError};
ghost use Rattle.perf_buffers.specs.Prelude.{chunk_bytes, chunk_is_borrowed};
ghost use Rattle.perf_records.specs.Answers.{split_after};
ghost use Rattle.perf_records.specs.FrameReadings.{FrameGives, FrameGivesOrBad, HasNoRoom, PutsSample};
ghost use Rattle.perf_records.specs.FrameReadings.{TakesNoMemory, metadata_in};
ghost use Rattle.perf_records.specs.Records.{type_of};
ghost use Rattle.perf_records.specs.Prelude.{configuration_of, endian_of, IsRecordOf, NoRoomForId};
ghost use Rattle.perf_records.specs.Prelude.{NeedsNoMemory};
ghost use Rattle.perf_sample_types.specs.SampleEmpty.{no_sample};
ghost use Rattle.perf_sample_types.specs.SampleMemory.{HasNoLists};

use crate::body_reader::{AsRecord, BodyReader, ByVisitor, IntoSample};
use crate::frame::Frame;
use crate::frame_end::frame_end;
use crate::frame_handler::BadFrame;
use crate::metadata::RecordMetadata;
use crate::record::Record;
use crate::record_type::RecordType;
use crate::visitor::Visitor;
use perf_base::sys::PERF_RECORD_SAMPLE;
use perf_base::{Endian, Kept, ParseConfig, ParseResult, Refusal};
use perf_sample_types::sample::{Sample, clear_sample};
use std::alloc::Global;

// What a call returns for a frame that is refused. An error is large, so it is made where it is
// returned: a caller that makes one itself clears space for it before it knows whether there is one.
#[cold]
#[inline(never)]
fn refused<T>(refusal: Refusal) -> ParseResult<T>
    ensures { (e : ParseError) × (result ≡ Err e) × IsErrorOf e refusal }
{
    Err(Kept::none().error_of(refusal))
}

impl<'c, 'p> Frame<'c, 'p> {
    // Makes an output from the frame's body; a refusal becomes a bad frame.
    #[inline(always)]
    fn read_or_bad<S, E: Endian, M: BodyReader<'p, S>>(
        &self,
        alloc: Global,
        config: &ParseConfig<E>,
        maker: M,
        state: &mut S,
    ) -> Result<M::Output, BadFrame>
        ensures answer { M.reads self.now.header.type_ → FrameGivesOrBad
            (λ e output. M.gives e state.old output state.new) self.now.header
            (configuration_of config.now) (E.order (endian_of config.now))
            (chunk_bytes self.now.rest) (chunk_is_borrowed self.now.rest) result }
        ensures memory { M.plain (under_misc self.now.header.misc (configuration_of config.now)) →
            IsTrue (chunk_is_borrowed self.now.rest) → TakesNoMemory result }
    {
        let (answer, _reads) = self.read(alloc, config, maker, state);
        match answer {
            Ok(output) => Ok(output),
            Err(refusal) => Err(BadFrame::new(self.header(), refusal)),
        }
    }

    /// The type of the frame's record, by the number in its header (`enum perf_event_type`), or
    /// `None` if the kernel has no such type.
    #[inline]
    pub fn kind(&self) -> Option<RecordType>
        ensures { result ≡ type_of self.now.header.type_ }
    {
        RecordType::of(self.header().type_)
    }

    /// The metadata of the frame's record: the type and the `misc` from its header, and the sample
    /// id at its end (`struct sample_id`), which is present under `sample_id_all`. A SAMPLE, and a
    /// type of 64 or more, has no sample id: its fields are absent.
    ///
    /// The only refusal is `InvalidRecord`, if the frame is too short for its sample id. No memory
    /// is needed.
    #[inline]
    pub fn metadata<E: Endian>(
        &self,
        _alloc: Global,
        config: &ParseConfig<E>,
    ) -> ParseResult<RecordMetadata>
        ensures parts { error_kinds result ≡ metadata_in (split_after (configuration_of config.now)
            (E.order (endian_of config.now)) self.now.header (chunk_bytes self.now.rest)) }
        ensures no_room { IfErr result (λ e. IsErrorOf e NoRoomForId) }
        ensures room { OnErr result (HasNoRoom self.now.header (configuration_of config.now)) }
    {
        let header = self.header();
        match frame_end(config, header.type_, self.rest()) {
            Some(end) => Ok(RecordMetadata::from_parts(header.type_, header.misc, end.id)),
            None => refused(Refusal::NoRoomForId),
        }
    }

    /// The frame's record, as the kernel lays it out (perf_event_open(2)), under the frame's own
    /// `misc`. Its byte strings are borrowed if the frame's bytes live as long as the input, and
    /// otherwise copied. Bytes after the record's last field are ignored.
    ///
    /// The refusals are those of the layout: `Eof` if the frame ends before its record does,
    /// `InvalidRecord` if it is too short for its sample id or contains an impossible length, and
    /// `UnsupportedConfig` if the configuration does not fit it. `OutOfMemory` is possible only for
    /// a SAMPLE or a NAMESPACES record, which need memory, or if the bytes do not live as long as
    /// the input. `External` never occurs.
    #[inline]
    pub fn record<E: Endian>(
        &self,
        alloc: Global,
        config: &ParseConfig<E>,
    ) -> ParseResult<Record<'p>>
        ensures { FrameGives IsRecordOf self.now.header (configuration_of config.now)
            (E.order (endian_of config.now)) (chunk_bytes self.now.rest) (chunk_is_borrowed self.now.rest) result }
    {
        match self.read_or_bad(alloc, config, AsRecord, &mut ()) {
            Ok(record) => Ok(record),
            Err(bad) => refused(bad.refusal),
        }
    }

    /// What a visitor makes of the frame's record and metadata. The refusals are those of
    /// [`Frame::record`], and occur before the visitor is called.
    #[inline]
    pub fn visit<E: Endian, V: Visitor<'p>>(
        &self,
        alloc: Global,
        config: &ParseConfig<E>,
        visitor: V,
    ) -> ParseResult<V::Output>
        ensures { FrameGives V.gives self.now.header (configuration_of config.now)
            (E.order (endian_of config.now)) (chunk_bytes self.now.rest) (chunk_is_borrowed self.now.rest) result }
    {
        match self.try_visit(alloc, config, visitor) {
            Ok(output) => Ok(output),
            Err(bad) => refused(bad.refusal),
        }
    }

    /// As [`Frame::visit`], but a refusal is a [`BadFrame`], which is small: an error of it is made
    /// only if [`BadFrame::error`] is called. This is for callers that visit many frames.
    #[inline]
    pub fn try_visit<E: Endian, V: Visitor<'p>>(
        &self,
        alloc: Global,
        config: &ParseConfig<E>,
        visitor: V,
    ) -> Result<V::Output, BadFrame>
        ensures { FrameGivesOrBad V.gives self.now.header (configuration_of config.now)
            (E.order (endian_of config.now)) (chunk_bytes self.now.rest) (chunk_is_borrowed self.now.rest) result }
    {
        self.read_or_bad(alloc, config, ByVisitor { visitor }, &mut ())
    }

    /// Reads a SAMPLE (`PERF_RECORD_SAMPLE`) into the place of an existing one, and returns `true`;
    /// nothing of the old sample is left. For a frame of another type the place is unchanged, and
    /// `false` is returned. This is for callers that read many samples into one place, without a
    /// box for each.
    ///
    /// A list of the sample has the memory of the old one, and takes memory only if that does not
    /// suffice; the lists of absent fields are dropped. So it is never `OutOfMemory` for a sample of
    /// plain numbers and byte strings of a frame whose bytes live as long as the input.
    ///
    /// The refusals are those of [`Frame::record`]. After one, all fields of the sample are absent.
    #[inline]
    pub fn sample_into<E: Endian>(
        &self,
        alloc: Global,
        config: &ParseConfig<E>,
        sample: &mut Sample<'p>,
    ) -> ParseResult<bool>
        ensures sample { self.now.header.type_ ≡ 9 → FrameGives
            (λ e put. PutsSample e put sample.new) self.now.header (configuration_of config.now)
            (E.order (endian_of config.now)) (chunk_bytes self.now.rest) (chunk_is_borrowed self.now.rest) result }
        ensures other { (self.now.header.type_ ≡ 9 → ⊥) →
            (result ≡ Ok false) × (sample.new ≡ sample.old) }
        ensures empty { OnErr result (sample.new ≡ no_sample) }
        ensures memory { IsTrue (chunk_is_borrowed self.now.rest) →
            HasNoLists (configuration_of config.now) → NeedsNoMemory (error_kinds result) }
    {
        match self.try_sample_into(alloc, config, sample) {
            Ok(put) => Ok(put),
            Err(bad) => refused(bad.refusal),
        }
    }

    /// As [`Frame::sample_into`], but a refusal is a [`BadFrame`], as that of [`Frame::try_visit`].
    #[inline(always)]
    pub fn try_sample_into<E: Endian>(
        &self,
        alloc: Global,
        config: &ParseConfig<E>,
        sample: &mut Sample<'p>,
    ) -> Result<bool, BadFrame>
        ensures sample { self.now.header.type_ ≡ 9 → FrameGivesOrBad
            (λ e put. PutsSample e put sample.new) self.now.header (configuration_of config.now)
            (E.order (endian_of config.now)) (chunk_bytes self.now.rest) (chunk_is_borrowed self.now.rest) result }
        ensures other { (self.now.header.type_ ≡ 9 → ⊥) →
            (result ≡ Ok false) × (sample.new ≡ sample.old) }
        ensures empty { OnErr result (sample.new ≡ no_sample) }
        ensures memory { IsTrue (chunk_is_borrowed self.now.rest) →
            HasNoLists (configuration_of config.now) → TakesNoMemory result }
    {
        if self.header().type_ != PERF_RECORD_SAMPLE {
            return Ok(false);
        }
        match self.read_or_bad(alloc, config, IntoSample, sample) {
            Ok(()) => Ok(true),
            Err(bad) => {
                clear_sample(sample);
                Err(bad)
            }
        }
    }
}
