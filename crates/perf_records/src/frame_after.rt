//! The frame after a header that was already read.

ghost use Rattle.std.specs.Prelude.{◌≡◌, ◌≤◌, ◌<◌, ℕ, false, true, drop, length, Err};
ghost use Rattle.std.specs.Prelude.{IsTrue, IfOk, IfErr, OnErr};
ghost use Rattle.perf_buffers.specs.declared.outer.Outer.{Outer};
ghost use Rattle.perf_reader.specs.Prelude.{buffer_of, config_of, reads_of, of_layout, BufferInvariant, CanFail};
ghost use Rattle.perf_records.specs.Sights.{whole, HandsAfter};
ghost use Rattle.perf_records.specs.Prelude.{configuration_of, endian_of};
ghost use Rattle.perf_records.specs.Prelude.{Call, kinds, refusal_kind, length_after};
ghost use Rattle.perf_records.specs.Prelude as prelude;

use crate::body_reader::{AsRecord, BodyReader};
use crate::frame::Frame;
use crate::frame_handler::{BadFrame, FrameHandler};
use crate::parts::is_small;
use crate::record::Record;
use perf_base::sys::perf_event_header;
use perf_base::{Endian, ErrorKind, ParseConfig, ReadCounter, ReadResult, Refusal};
use perf_buffers::outer::Outer;
use perf_buffers::parsebuf::{ParseBuf, ParseBufChunk};
use perf_reader::frame_reader::ConfiguredFrameReader;
use perf_reader::read::{HasTransition, ReadFrom};
use perf_reader::reader::Reader;
use std::alloc::Global;

// Reads the body of the frame with that header.
#[derive(Drop)]
struct FrameOf<M> {
    header: perf_event_header,
    body: M,
    ghost sized: { 8 ≤ header.size },
}

impl<'p, S, E: Endian, M: BodyReader<'p, S>> ConfiguredFrameReader<'p, E, S> for FrameOf<M> {
    type Output = ReadResult<M::Output>;

    ghost len = { λ frame. length_after frame.header };

    ghost gives = { λ frame settings order bytes borrowed made was output now.
        M.reads frame.header.type_ → prelude.GivesFrameBytes (λ e x. M.gives e was x now)
        frame.header settings order bytes borrowed output made };

    #[inline]
    fn read(
        self,
        alloc: Global,
        config: &ParseConfig<E>,
        state: &mut S,
        bytes: ParseBufChunk<'_, 'p>,
    ) -> (Self::Output, ReadCounter) {
        Frame::new(self.header, bytes).read(alloc, config, self.body, state)
    }
}

/// Makes an output from the frame whose header was read. Exactly the frame is taken, even if it is
/// refused; after a fault, or without memory for the frame, only a prefix of it is taken.
///
/// This is the only way from a header to a frame. Its bytes are obtained by the rule of
/// [`Outer::with_frame`]: in place if the buffer shows all of them, and otherwise assembled.
#[inline]
pub fn read_after<'p, S, B: ParseBuf<'p>, E: Endian, M: BodyReader<'p, S>>(
    reader: &mut Reader<Outer<B>, E>,
    header: perf_event_header,
    body: M,
    state: &mut S,
) -> ReadResult<M::Output>
    requires reads { M.reads header.type_ }
    ensures within { IsTrue (B.source (buffer_of reader.old)).told →
        prelude.MovesWithin (B.source (buffer_of reader.old)) (length_after header)
        (B.source (buffer_of reader.new)) }
    ensures event { IfOk result (λ output. prelude.BelongsTo
        (λ e x. M.gives e state.old x state.new) header
        (B.source (buffer_of reader.old)).whole output) }
    ensures whole_memory { IsTrue (B.source (buffer_of reader.old)).whole →
        prelude.needs_memory header.type_ ≡ false → prelude.NeedsNoMemory (kinds result) }

    // A size that does not count the header is refused before anything else.
    ensures small { header.size < 8 → (kinds result ≡ Err prelude.InvalidRecord)
        × (B.source (buffer_of reader.new) ≡ B.source (buffer_of reader.old)) }
    ensures small_why { header.size < 8 → IfErr result (λ e. e ≡ prelude.SmallHeader) }

    // Memory is allocated by the rules of a frame, and as the body needs it. If there is no memory
    // for the frame, nothing is taken if the full capacity is reserved first; if there is none for
    // the body, exactly the frame is taken.
    ensures nothing { length_after header ≡ 0 → prelude.needs_memory header.type_ ≡ false →
        prelude.NeedsNoMemory (kinds result) }
    ensures short { prelude.falls_short (B.hint (buffer_of reader.old)) (length_after header) ≡ true →
        prelude.NeedsNoMemory (kinds result) × IfOk result (λ output. ⊥) }
    ensures beforehand { IsTrue (B.source (buffer_of reader.old)).told →
        prelude.is_made_beforehand (B.hint (buffer_of reader.old)) (length_after header) ≡ true →
        IfErr result (λ e. refusal_kind e ≡ prelude.OutOfMemory →
        prelude.LeavesAllOrRest (B.source (buffer_of reader.old)) (length_after header)
        (B.source (buffer_of reader.new))) }
    ensures spent { IsTrue (B.source (buffer_of reader.old)).told →
        IsTrue (B.source (buffer_of reader.old)).whole →
        IfErr result (λ e. refusal_kind e ≡ prelude.OutOfMemory →
        (B.source (buffer_of reader.new)).left
        ≡ drop (length_after header) (B.source (buffer_of reader.old)).left) }
    ensures call { Call (λ (o : Outer B). B.source o.buf) E.order
        (prelude.GivesFrameAfter (λ e x. M.gives e state.old x state.new) header)
        reader.old (kinds result) reader.new }
{
    if is_small(header) {
        drop(body);
        return Err(Refusal::SmallHeader);
    }
    match reader.with_frame(header.size as usize - 8, FrameOf { header, body }, state) {
        Ok(output) => output,
        Err(refusal) => Err(refusal),
    }
}

// Passes the frame with that header to a handler.
#[derive(Drop)]
struct Hand {
    header: perf_event_header,
    ghost sized: { 8 ≤ header.size },
}

impl<'p, E: Endian, H: FrameHandler<'p, E>> ConfiguredFrameReader<'p, E, H> for Hand {
    type Output = bool;

    ghost len = { λ frame. length_after frame.header };

    ghost gives = { λ frame settings order bytes borrowed made was go now. (made ≡ 0)
        × H.gets was settings order (whole frame.header bytes borrowed) go now };

    #[inline]
    fn read(
        self,
        alloc: Global,
        config: &ParseConfig<E>,
        state: &mut H,
        bytes: ParseBufChunk<'_, 'p>,
    ) -> (bool, ReadCounter) {
        let go = state.frame(config, Ok(Frame::new(self.header, bytes)));
        (go, ReadCounter::new())
    }
}

// Whether it was refused because bytes are missing.
#[inline]
fn is_eof(refusal: Refusal) -> bool
    ensures eof { IsTrue result → refusal_kind refusal ≡ ErrorKind.Eof }
    ensures other { result ≡ false → refusal_kind refusal ≡ ErrorKind.Eof → ⊥ }
{
    refusal.kind() == ErrorKind::Eof
}

/// Passes the frame whose header was read to a handler, and returns whether the run goes on. If the
/// frame is not whole, the handler gets a [`BadFrame`].
#[inline]
pub fn hand_after<'p, B: ParseBuf<'p>, E: Endian, H: FrameHandler<'p, E>>(
    reader: &mut Reader<Outer<B>, E>,
    header: perf_event_header,
    handler: &mut H,
) -> ReadResult<bool>
    ensures config { config_of reader.new ≡ config_of reader.old }
    ensures stays { BufferInvariant (B.source (buffer_of reader.old)) (prelude.kind_if_refused (kinds result))
        (B.source (buffer_of reader.new)) }
    ensures can_fail { CanFail (B.source (buffer_of reader.old)) (prelude.kind_if_refused (kinds result)) }
    ensures reads { reads_of reader.new ≡ reads_of reader.old }
    ensures handed { IfOk result (λ go. HandsAfter
        (λ s x. H.gets s (configuration_of (config_of reader.old))
        (E.order (endian_of (config_of reader.old))) x) header
        (B.source (buffer_of reader.old)) handler.old go (B.source (buffer_of reader.new))
        handler.new) }
    ensures same { OnErr result (handler.new ≡ handler.old) }
    ensures stops { IsTrue (B.source (buffer_of reader.old)).told →
        IfErr result (λ e. IsTrue (of_layout (refusal_kind e)) → ⊥) }
    ensures left { IsTrue (B.source (buffer_of reader.old)).told → IfErr result (λ e.
        prelude.MovesWithin (B.source (buffer_of reader.old)) (length_after header)
        (B.source (buffer_of reader.new))) }
    ensures memory { IsTrue (B.source (buffer_of reader.old)).whole →
        prelude.NeedsNoMemory (kinds result) }
{
    if is_small(header) {
        let bad = BadFrame::new(header, Refusal::SmallHeader);
        return Ok(handler.frame(reader.config(), Err(bad)));
    }
    match reader.with_frame(header.size as usize - 8, Hand { header }, handler) {
        Ok(go) => Ok(go),
        Err(refusal) => {
            if !is_eof(refusal) {
                return Err(refusal);
            }
            let bad = BadFrame::new(header, Refusal::Eof);
            Ok(handler.frame(reader.config(), Err(bad)))
        }
    }
}

impl HasTransition for Record<'_> {
    ghost transition = { prelude.ReadsRecord };
}

/// A frame with its header, which is three elementary reads.
impl<'p, B: ParseBuf<'p>> ReadFrom<'p, Outer<B>> for Record<'p> {
    #[inline]
    fn read<E: Endian>(reader: &mut Reader<Outer<B>, E>) -> ReadResult<Self> {
        let header = reader.read::<perf_event_header>()?;
        read_after(reader, header, AsRecord, &mut ())
    }
}
