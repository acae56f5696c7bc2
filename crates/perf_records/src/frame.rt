//! One whole frame, in place.

ghost use Rattle.std.specs.Prelude.{◌≡◌, ◌≤◌, length, true, IfErr, IsTrue};
ghost use Rattle.perf_base.specs.Configuration.{under_misc};
ghost use Rattle.perf_records.specs.FrameReadings.{HasNoRoom};
ghost use Rattle.perf_records.specs.Prelude.{configuration_of, endian_of, length_after, GivesFrameBytes};
ghost use Rattle.perf_records.specs.Prelude.{NoRoomForId, NeedsNoMemory, kinds};
ghost use Rattle.perf_buffers.specs.Prelude.{chunk_bytes, chunk_is_borrowed};

use crate::body_reader::BodyReader;
use crate::frame_end::{FrameEnd, frame_end};
use crate::metadata::RecordMetadata;
use perf_base::sys::perf_event_header;
use perf_base::{Endian, ParseConfig, ReadCounter, ReadResult, Refusal};
use perf_buffers::parsebuf::ParseBufChunk;
use std::alloc::Global;

/// One whole frame, in place: its header (`struct perf_event_header`) and the bytes after it, as
/// many as the header's size specifies. They live as long as the input, or until the buffer
/// advances.
#[derive(Copy, Clone, Debug)]
pub struct Frame<'c, 'p> {
    header: perf_event_header,
    rest: ParseBufChunk<'c, 'p>,
    ghost sized: { 8 ≤ header.size },
    ghost whole: { length (chunk_bytes rest) ≡ length_after header },
}

impl<'c, 'p> Frame<'c, 'p> {
    // The frame with that header, and with all of these bytes after it.
    #[inline]
    pub(crate) fn new(header: perf_event_header, rest: ParseBufChunk<'c, 'p>) -> Frame<'c, 'p>
        requires sized { 8 ≤ header.size }
        requires whole { length (chunk_bytes rest) ≡ length_after header }
        ensures header { result.header ≡ header }
        ensures rest { chunk_bytes result.rest ≡ chunk_bytes rest.entry }
        ensures chunk_is_borrowed { chunk_is_borrowed result.rest ≡ chunk_is_borrowed rest.entry }
    {
        Frame { header, rest }
    }

    /// The header.
    #[inline]
    pub fn header(&self) -> perf_event_header
        ensures { result ≡ self.now.header }
    {
        self.header
    }

    /// The bytes after the header.
    #[inline]
    pub fn rest(&self) -> &[u8]
        ensures { result.now ≡ chunk_bytes self.now.rest }
    {
        self.rest.as_bytes()
    }

    /// Whether its bytes live as long as the input. If so, what is read from the frame borrows its
    /// byte strings; otherwise it copies them.
    #[inline]
    pub fn is_borrowed(&self) -> bool
        ensures { result ≡ chunk_is_borrowed self.now.rest }
    {
        match self.rest {
            ParseBufChunk::External(_) => true,
            ParseBufChunk::Temporary(_) => false,
        }
    }

    /// The same frame, whose bytes count as bytes that live as long as the input. A record, a visit
    /// or a sample that is read from it borrows its byte strings, for as long as this frame is
    /// shown: no byte string is copied, even if the frame itself lives only until the buffer
    /// advances.
    #[inline]
    pub fn borrowed(&self) -> Frame<'_, '_>
        ensures header { result.header ≡ self.now.header }
        ensures rest { chunk_bytes result.rest ≡ chunk_bytes self.now.rest }
        ensures lasts { chunk_is_borrowed result.rest ≡ true }
    {
        Frame::new(self.header, ParseBufChunk::External(self.rest.as_bytes()))
    }

    // Makes an output from the frame's body, under a configuration and the frame's own `misc`, and
    // returns it with the number of elementary reads made after the header.
    #[inline(always)]
    pub(crate) fn read<S, E: Endian, M: BodyReader<'p, S>>(
        self,
        alloc: Global,
        config: &ParseConfig<E>,
        maker: M,
        state: &mut S,
    ) -> (ReadResult<M::Output>, ReadCounter)
        ensures answer { M.reads self.entry.header.type_ →
            GivesFrameBytes (λ e output. M.gives e state.old output state.new)
            self.entry.header (configuration_of config.now) (E.order (endian_of config.now))
            (chunk_bytes self.entry.rest) (chunk_is_borrowed self.entry.rest) result.0 result.1 }
        ensures no_room { HasNoRoom self.entry.header (configuration_of config.now) →
            IfErr result.0 (λ e. e ≡ NoRoomForId) }
        ensures memory { M.plain (under_misc self.entry.header.misc (configuration_of config.now)) →
            IsTrue (chunk_is_borrowed self.entry.rest) → NeedsNoMemory (kinds result.0) }
    {
        let bytes = self.rest.as_bytes();
        let FrameEnd {
            id,
            body,
            mut reads,
        } = match frame_end(config, self.header.type_, bytes) {
            Some(end) => end,
            None => {
                drop(maker);
                return (Err(Refusal::NoRoomForId), ReadCounter::new());
            }
        };
        let len = body.len();
        let metadata = RecordMetadata::from_parts(self.header.type_, self.header.misc, id);
        let mut under = config.lent();
        under.set_misc(self.header.misc);
        let (output, more) = maker.read(alloc, self.rest.first(len), under, metadata, state);
        reads.add(more);
        (output, reads)
    }
}
