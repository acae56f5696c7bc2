//! Where the id of a frame is.

ghost use Rattle.std.specs.Prelude.{◌≡◌, ◌<◌, ◌≤◌, length};
ghost use Rattle.perf_base.specs.Configured.{configuration_of};
ghost use Rattle.perf_base.specs.Dynamic.{order_of};
ghost use Rattle.perf_sections.specs.IdPlaces as places;
ghost use Rattle.perf_words.specs.Bits.{has_bit};

use crate::number::number_at;
use bitflags::Flags;
use perf_base::ParseConfig;
use perf_base::endian::Dynamic;
use perf_base::sys::PERF_RECORD_SAMPLE;

/// Where the id of a frame is.
#[derive(Copy, Clone, Debug)]
pub struct IdPlace {
    /// Its offset in the body of a SAMPLE.
    pub in_sample: usize,
    /// How many bytes before the end of another frame it begins; 0 if it has none.
    pub from_end: usize,
}

// Whether a sample type has a flag.
fn has_flag(sample_type: u64, flag: u32) -> bool
    requires { flag < 64 }
    ensures { result ≡ has_bit sample_type flag }
{
    (sample_type >> flag) % 2 == 1
}

// How many bytes the field of a flag takes.
fn field_size(sample_type: u64, flag: u32) -> usize
    requires { flag < 64 }
    ensures value { result ≡ places.field_size sample_type flag }
    ensures bound { result ≤ 8 }
{
    if has_flag(sample_type, flag) { 8 } else { 0 }
}

// An offset from the end, if records other than SAMPLE end with a sample id.
fn if_at_end<E>(config: &ParseConfig<E>, from_end: usize) -> usize
    ensures { result ≡ places.if_at_end (configuration_of config.now) from_end }
{
    if config.sample_id_all() { from_end } else { 0 }
}

// The place of ID: after IP, TID, TIME and ADDR in a SAMPLE, and before STREAM_ID and CPU at the end
// of another frame.
fn place_of_id<E>(config: &ParseConfig<E>, sample_type: u64) -> IdPlace
    ensures { result ≡ places.place_of_id (configuration_of config.now) sample_type }
{
    let (ip, task) = (field_size(sample_type, 0), field_size(sample_type, 1));
    let (time, addr) = (field_size(sample_type, 2), field_size(sample_type, 3));
    let (stream, cpu) = (field_size(sample_type, 9), field_size(sample_type, 7));
    IdPlace {
        in_sample: ip + task + time + addr,
        from_end: if_at_end(config, 8 + stream + cpu),
    }
}

/// Where the frames of an event have its id, if they do.
pub fn id_place<E>(config: &ParseConfig<E>) -> Option<IdPlace>
    ensures { result ≡ places.id_place (configuration_of config.now) }
{
    let sample_type = config.sample_type().bits();
    if has_flag(sample_type, 16) {
        Some(IdPlace {
            in_sample: 0,
            from_end: if_at_end(config, 8),
        })
    } else if has_flag(sample_type, 6) {
        Some(place_of_id(config, sample_type))
    } else {
        None
    }
}

/// Whether both are there, and the same.
pub fn is_same_place(first: Option<IdPlace>, second: Option<IdPlace>) -> bool
    ensures { result ≡ places.is_same_place first second }
{
    match (first, second) {
        (Some(p), Some(q)) => p.in_sample == q.in_sample && p.from_end == q.from_end,
        _ => false,
    }
}

// The number of the eight bytes at an offset, if there are so many.
#[inline]
pub fn number_if(order: Dynamic, bytes: &[u8], place: usize) -> Option<u64>
    ensures { result ≡ places.number_if (order_of order) bytes.now place }
{
    if bytes.len() < 8 || bytes.len() - 8 < place {
        return None;
    }
    Some(number_at(order, bytes, place))
}

/// The id at a place, in a frame of that type with these bytes after its header. None if there are
/// too few.
#[inline]
pub fn id_at(order: Dynamic, place: IdPlace, ty: u32, bytes: &[u8]) -> Option<u64>
    ensures { result ≡ places.id_at (order_of order) place ty bytes.now }
{
    if ty == PERF_RECORD_SAMPLE {
        return number_if(order, bytes, place.in_sample);
    }
    if bytes.len() < place.from_end {
        return None;
    }
    number_if(order, bytes, bytes.len() - place.from_end)
}
