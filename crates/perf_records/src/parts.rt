//! The parts of a frame: its body and its metadata.

ghost use Rattle.std.specs.Prelude.{◌≡◌, ◌≤◌, ◌<◌, ◌+◌, true, length, nat_lt, Err};
ghost use Rattle.std.specs.Prelude.{IsTrue, IfOk, IfErr};
ghost use Rattle.perf_records.specs.Prelude.{configuration_of, endian_of, input_of, config_of, Call};
ghost use Rattle.perf_records.specs.Prelude.{reads_of, kinds, refusal_kind, cursor_left, length_after};
ghost use Rattle.perf_records.specs.Prelude as prelude;

use crate::frame_end::{FrameEnd, frame_end};
use crate::metadata::RecordMetadata;
use perf_base::sys::{PERF_RECORD_SAMPLE, perf_event_header};
use perf_base::{Endian, ParseConfig, ReadResult, Refusal};
use perf_buffers::cursor::ParseBufCursor;
use perf_buffers::input::Input;
use perf_reader::reader::Reader;
use perf_sample_types::sample_id::SampleId;

/// Whether records of a type end with a sample id if the event has `sample_id_all`: those of the
/// kernel do, except SAMPLE.
#[inline]
pub fn carries_sample_id(ty: u32) -> bool
    ensures { result ≡ prelude.carries_sample_id ty }
{
    ty < 64 && ty != PERF_RECORD_SAMPLE
}

// How many bytes of a frame are its sample id.
#[inline]
pub(crate) fn id_len<E>(config: &ParseConfig<E>, ty: u32) -> usize
    ensures { result ≡ prelude.id_length (configuration_of config.now) ty }
{
    if carries_sample_id(ty) {
        SampleId::estimate_len(config)
    } else {
        0
    }
}

/// Whether the size in a header does not count the header itself. It then has no frame.
#[inline]
pub fn is_small(header: perf_event_header) -> bool
    ensures { result ≡ nat_lt header.size 8 }
{
    header.size < 8
}

/// The bytes of the body of a frame whose header was read, and its metadata.
///
/// A size that does not count the header is `InvalidRecord`, with nothing taken. Too few bytes are
/// `Eof`, with all of them taken. A frame too short for its sample id is `InvalidRecord`, with
/// exactly the frame taken.
#[inline]
pub fn split<'p, I: Input<'p>, E: Endian>(
    reader: &mut Reader<I, E>,
    header: perf_event_header,
) -> ReadResult<(ParseBufCursor<'p>, RecordMetadata)>
    ensures within { IsTrue (I.source (input_of reader.old)).told →
        prelude.MovesWithin (I.source (input_of reader.old)) (length_after header)
        (I.source (input_of reader.new)) }
    ensures named { IfOk result (λ parts.
        (parts.1.ty ≡ header.type_) × (parts.1.misc ≡ header.misc)) }
    ensures whole { IsTrue (I.source (input_of reader.old)).whole →
        IfOk result (λ parts. IsTrue (prelude.cursor_is_borrowed parts.0)) }
    ensures whole_memory { IsTrue (I.source (input_of reader.old)).whole →
        prelude.NeedsNoMemory (kinds result) }

    // A size that does not count the header is refused before anything else.
    ensures small { header.size < 8 → (kinds result ≡ Err prelude.InvalidRecord)
        × (I.source (input_of reader.new) ≡ I.source (input_of reader.old)) }
    ensures small_why { header.size < 8 → IfErr result (λ e. e ≡ prelude.SmallHeader) }

    // With another size it is no record only if it is too short for its sample id.
    ensures id_why { IsTrue (I.source (input_of reader.old)).told → 8 ≤ header.size →
        IfErr result (λ e. refusal_kind e ≡ prelude.InvalidRecord → e ≡ prelude.NoRoomForId) }

    // Memory is allocated by the rules of a cut: none for an empty body, none if the input reports
    // too few bytes, and otherwise the full capacity first, if it is small.
    ensures nothing { length_after header ≡ 0 → prelude.NeedsNoMemory (kinds result)
        × IfOk result (λ parts. IsTrue (prelude.cursor_is_borrowed parts.0)) }
    ensures short { prelude.falls_short (I.hint (input_of reader.old)) (length_after header) ≡ true →
        prelude.NeedsNoMemory (kinds result) × IfOk result (λ parts. ⊥) }
    ensures beforehand { IsTrue (I.source (input_of reader.old)).told →
        prelude.is_made_beforehand (I.hint (input_of reader.old)) (length_after header) ≡ true →
        IfErr result (λ e. refusal_kind e ≡ prelude.OutOfMemory →
        (I.source (input_of reader.new)).left ≡ (I.source (input_of reader.old)).left) }

    // The body's bytes are paid for, and not read yet.
    ensures paid { IsTrue (I.source (input_of reader.old)).told → IfOk result (λ parts.
        reads_of reader.new + length (cursor_left parts.0)
        + length (I.source (input_of reader.new)).left
        ≤ reads_of reader.old + length (I.source (input_of reader.old)).left) }
    ensures call { Call I.source E.order (prelude.SplitsAfter header)
        reader.old (kinds result) reader.new }
{
    if is_small(header) {
        return Err(Refusal::SmallHeader);
    }
    let mut frame = match reader.cut(header.size as usize - 8) {
        Ok(frame) => frame,
        Err(refusal) => return Err(refusal),
    };
    let FrameEnd { id, body, reads } = match frame_end(
        reader.config(),
        header.type_,
        frame.last(frame.len()),
    ) {
        Some(end) => end,
        None => return Err(Refusal::NoRoomForId),
    };
    let len = body.len();
    frame.drop_last(frame.len() - len);
    reader.count(reads);
    let metadata = RecordMetadata::from_parts(header.type_, header.misc, id);
    Ok((frame, metadata))
}
