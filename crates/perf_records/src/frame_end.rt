//! The sample id at the end of a frame. Its fields are taken off from the last one on, so its length
//! is not needed before.

ghost use Rattle.std.specs.Prelude.{◌≡◌, ◌<◌, ◌*◌, length, MatchOption, option_map};
ghost use Rattle.perf_records.specs.FrameEnds.{EndsWithId, TakesLast, id_field_reads};
ghost use Rattle.perf_records.specs.FrameNumbers as numbers;
ghost use Rattle.perf_records.specs.Metadata.{id_length, id_of_type};
ghost use Rattle.perf_records.specs.Prelude.{configuration_of, endian_of};
ghost use Rattle.perf_sample_types.specs.SampleId as ids;
ghost use Rattle.perf_words.specs.SetBits.{sample_flags_bits};

use crate::parts::carries_sample_id;
use bitflags::Flags;
use perf_base::{Endian, ParseConfig, ReadCounter};
use perf_reader::halves::{first_half, second_half};
use perf_sample_types::sample_id::SampleId;
use perf_words::SampleFlags;

// The eight bytes of a field, if it is present, and the bytes before it.
#[derive(Drop)]
struct LastField<'c> {
    word: Option<[u8; 8]>,
    before: &'c [u8],
}

// Takes a field off the end of bytes, if it is present. `None` if there are fewer bytes.
#[inline(always)]
fn last_field(bytes: &[u8], present: bool) -> Option<LastField<'_>>
    ensures { MatchOption result (length bytes.now < 8 * ids.one_if present)
        (λ field. TakesLast present bytes.now field) }
{
    if !present {
        return Some(LastField {
            word: None,
            before: bytes,
        });
    }
    match bytes.split_last_chunk::<8>() {
        Some((before, word)) => Some(LastField {
            word: Some(*word),
            before,
        }),
        None => None,
    }
}

// A field as a number of eight bytes.
#[inline(always)]
fn number<E: Endian>(order: &E, word: Option<[u8; 8]>) -> Option<u64>
    ensures { result ≡ option_map (E.order order.now).eight word }
{
    match word {
        Some(eight) => Some(order.convert_u64(eight)),
        None => None,
    }
}

// The first four bytes of a field as a number.
#[inline(always)]
fn first_number<E: Endian>(order: &E, word: Option<[u8; 8]>) -> Option<u32>
    ensures { result ≡ option_map (numbers.first_half (E.order order.now)) word }
{
    match word {
        Some(eight) => Some(first_half(order, eight)),
        None => None,
    }
}

// The last four bytes of a field as a number.
#[inline(always)]
fn second_number<E: Endian>(order: &E, word: Option<[u8; 8]>) -> Option<u32>
    ensures { result ≡ option_map (numbers.second_half (E.order order.now)) word }
{
    match word {
        Some(eight) => Some(second_half(order, eight)),
        None => None,
    }
}

/// The sample id at the end of a frame.
#[derive(Drop)]
pub struct FrameEnd<'c> {
    /// The sample id. All fields are absent if the frame has none.
    pub id: SampleId,
    /// The bytes between the frame's header and its sample id.
    pub body: &'c [u8],
    /// How many elementary reads the sample id is.
    pub reads: ReadCounter,
}

#[inline(always)]
fn one_if(flag: bool) -> u64
    ensures { result ≡ ids.one_if flag }
{
    if flag { 1 } else { 0 }
}

// How many elementary reads the fields of a sample type are: one each, and two for TID, which has two
// numbers, and for CPU, whose number is followed by padding.
#[inline(always)]
#[tactic(auto, using(crate::proofs::FrameFlags::number_flags))]
fn field_reads(flags: SampleFlags) -> ReadCounter
    ensures { result ≡ id_field_reads (sample_flags_bits flags) }
{
    let task = one_if(flags.contains(SampleFlags::TID));
    let time = one_if(flags.contains(SampleFlags::TIME));
    let id = one_if(flags.contains(SampleFlags::ID));
    let stream_id = one_if(flags.contains(SampleFlags::STREAM_ID));
    let cpu = one_if(flags.contains(SampleFlags::CPU));
    let identifier = one_if(flags.contains(SampleFlags::IDENTIFIER));
    ReadCounter::of(2 * task + time + id + stream_id + 2 * cpu + identifier)
}

// Takes a sample id with the fields of a sample type off the end of bytes. `None` if there are fewer
// bytes.
#[inline(always)]
fn last_fields<'c, E: Endian>(
    order: &E,
    flags: SampleFlags,
    bytes: &'c [u8],
) -> Option<FrameEnd<'c>>
    ensures { EndsWithId (E.order order.now) (8 * ids.sample_id_flags (sample_flags_bits flags))
        (ids.sample_id_fields (sample_flags_bits flags)) bytes.now result }
{
    let identifier = last_field(bytes, flags.contains(SampleFlags::IDENTIFIER))?;
    let cpu = last_field(identifier.before, flags.contains(SampleFlags::CPU))?;
    let stream_id = last_field(cpu.before, flags.contains(SampleFlags::STREAM_ID))?;
    let id = last_field(stream_id.before, flags.contains(SampleFlags::ID))?;
    let time = last_field(id.before, flags.contains(SampleFlags::TIME))?;
    let task = last_field(time.before, flags.contains(SampleFlags::TID))?;
    let made = SampleId::from_parts(
        first_number(order, task.word),
        second_number(order, task.word),
        number(order, time.word),
        number(order, id.word.or(identifier.word)),
        number(order, stream_id.word),
        first_number(order, cpu.word),
    );
    Some(FrameEnd {
        id: made,
        body: task.before,
        reads: field_reads(flags),
    })
}

/// Takes the sample id off the bytes after a frame's header. `None` if the frame is too short for it.
#[inline(always)]
pub fn frame_end<'c, E: Endian>(
    config: &ParseConfig<E>,
    ty: u32,
    bytes: &'c [u8],
) -> Option<FrameEnd<'c>>
    ensures { EndsWithId (E.order (endian_of config.now)) (id_length (configuration_of config.now) ty)
        (id_of_type (configuration_of config.now) ty) bytes.now result }
{
    if carries_sample_id(ty) && config.sample_id_all() {
        last_fields(config.endian(), config.sample_type(), bytes)
    } else {
        Some(FrameEnd {
            id: SampleId::default(),
            body: bytes,
            reads: ReadCounter::new(),
        })
    }
}
