//! Single numbers of a frame, read at their offsets, without reading the rest of the frame.

ghost use Rattle.std.specs.Prelude.{◌≡◌, ◌≤◌, ◌*◌, ◌==◌};
ghost use Rattle.perf_records.specs.Prelude.{configuration_of, endian_of};
ghost use Rattle.perf_records.specs.FrameNumbers as numbers;
ghost use Rattle.perf_buffers.specs.Prelude.{chunk_bytes};
ghost use Rattle.perf_words.specs.SetBits.{sample_flags_bits};
ghost use Rattle.perf_words.specs.Bits.{has_bit};
ghost use Rattle.perf_sample_types.specs.SampleGetters.{getters_of};
ghost use Rattle.perf_sample_types.specs.SampleId.{one_if};
ghost use Rattle.std.specs.Int.RustNames.{bit_and};

use crate::frame::Frame;
use crate::parts::id_len;
use bitflags::Flags;
use perf_base::sys::PERF_RECORD_SAMPLE;
use perf_base::{Endian, ParseConfig};
use perf_reader::halves::{first_half, second_half};
use perf_words::SampleFlags;

// The place of a field of eight bytes: whether the sample type has it, and how many bytes come
// before it in a SAMPLE and in a sample id.
#[derive(Copy, Clone)]
struct Place {
    present: bool,
    in_sample: usize,
    in_id: usize,
}

// How many bytes the field of a flag takes under a sample type.
#[inline]
fn len_of(field: SampleFlags, flags: SampleFlags) -> usize
    ensures len { result ≡ 8 * one_if (bit_and (sample_flags_bits flags)
        (sample_flags_bits field) == sample_flags_bits field) }
    ensures bound { result ≤ 8 }
{
    if flags.contains(field) { 8 } else { 0 }
}

#[inline]
#[tactic(auto, using(crate::proofs::FrameFlags::number_flags))]
fn time_place(flags: SampleFlags) -> Place
    ensures { result ≡ numbers.number_place (sample_flags_bits flags) numbers.time_field }
{
    let task = len_of(SampleFlags::TID, flags);
    Place {
        present: flags.contains(SampleFlags::TIME),
        in_sample: len_of(SampleFlags::IDENTIFIER, flags) + len_of(SampleFlags::IP, flags) + task,
        in_id: task,
    }
}

#[inline]
#[tactic(auto, using(crate::proofs::FrameFlags::number_flags))]
fn task_place(flags: SampleFlags) -> Place
    ensures { result ≡ numbers.number_place (sample_flags_bits flags) numbers.task_field }
{
    Place {
        present: flags.contains(SampleFlags::TID),
        in_sample: len_of(SampleFlags::IDENTIFIER, flags) + len_of(SampleFlags::IP, flags),
        in_id: 0,
    }
}

#[inline]
#[tactic(auto, using(crate::proofs::FrameFlags::number_flags))]
fn id_place(flags: SampleFlags) -> Place
    ensures { result ≡ numbers.number_place (sample_flags_bits flags) numbers.id_field }
{
    let task = len_of(SampleFlags::TID, flags);
    let time = len_of(SampleFlags::TIME, flags);
    let identifier = len_of(SampleFlags::IDENTIFIER, flags);
    let ip = len_of(SampleFlags::IP, flags);
    let addr = len_of(SampleFlags::ADDR, flags);
    Place {
        present: flags.contains(SampleFlags::ID),
        in_sample: identifier + ip + task + time + addr,
        in_id: task + time,
    }
}

#[inline]
#[tactic(auto, using(crate::proofs::FrameFlags::number_flags))]
fn cpu_place(flags: SampleFlags) -> Place
    ensures { result ≡ numbers.number_place (sample_flags_bits flags) numbers.cpu_field }
{
    let id = id_place(flags);
    let ids = len_of(SampleFlags::ID, flags) + len_of(SampleFlags::STREAM_ID, flags);
    Place {
        present: flags.contains(SampleFlags::CPU),
        in_sample: id.in_sample + ids,
        in_id: id.in_id + ids,
    }
}

#[inline]
#[tactic(auto, using(crate::proofs::FrameFlags::number_flags))]
fn identifier_place(flags: SampleFlags) -> Place
    ensures { result ≡ numbers.number_place (sample_flags_bits flags) numbers.identifier_field }
{
    let cpu = cpu_place(flags);
    Place {
        present: flags.contains(SampleFlags::IDENTIFIER),
        in_sample: 0,
        in_id: cpu.in_id + len_of(SampleFlags::CPU, flags),
    }
}

// The place of the event's id: that of ID, or else that of IDENTIFIER.
#[inline]
#[tactic(auto, using(crate::proofs::FrameFlags::number_flags))]
fn event_place(flags: SampleFlags) -> Place
    ensures { result ≡ numbers.number_place (sample_flags_bits flags)
        (numbers.event_field (sample_flags_bits flags)) }
{
    if flags.contains(SampleFlags::ID) {
        id_place(flags)
    } else {
        identifier_place(flags)
    }
}

// The eight bytes at an offset.
#[inline]
fn eight_at(bytes: &[u8], place: usize) -> Option<[u8; 8]>
    ensures { result ≡ numbers.eight_at bytes.now place }
{
    if bytes.len() < place {
        return None;
    }
    match bytes[place..].first_chunk::<8>() {
        Some(eight) => Some(*eight),
        None => None,
    }
}

// The eight bytes of IDENTIFIER in a frame of that type, if present.
#[inline]
fn identifier_bytes(bytes: &[u8], ty: u32) -> Option<[u8; 8]>
    ensures { result ≡ numbers.identifier_bytes ty bytes.now }
{
    if ty == PERF_RECORD_SAMPLE {
        eight_at(bytes, 0)
    } else if ty < 64 && 8 <= bytes.len() {
        eight_at(bytes, bytes.len() - 8)
    } else {
        None
    }
}

// Single numbers of a frame are read at their offsets, without looking at the rest of it.
impl<'c, 'p> Frame<'c, 'p> {
    // The eight bytes of the field at that place.
    #[inline]
    fn field<E>(&self, config: &ParseConfig<E>, place: Place) -> Option<[u8; 8]>
        ensures { result ≡ numbers.place_bytes (configuration_of config.now) place self.now.header
            (chunk_bytes self.now.rest) }
    {
        if !place.present {
            return None;
        }
        let bytes = self.rest();
        let ty = self.header().type_;
        if ty == PERF_RECORD_SAMPLE {
            return eight_at(bytes, place.in_sample);
        }
        let room = id_len(config, ty);
        if bytes.len() < room {
            return None;
        }
        eight_at(&bytes[bytes.len() - room..], place.in_id)
    }

    /// When it happened, in nanoseconds of the event's clock: `PERF_SAMPLE_TIME` of a SAMPLE, or of
    /// the sample id of another frame written by the kernel. `None` if the sample type does not
    /// have this flag, if a SAMPLE ends before the field, or if another frame has no sample id or
    /// is too short for it.
    ///
    /// This is the same number as in the fully parsed record. A SAMPLE that is refused because of
    /// what follows this field still has it, though it has no parsed record.
    #[inline]
    pub fn time<E: Endian>(&self, config: &ParseConfig<E>) -> Option<u64>
        ensures place { result ≡ numbers.time_in (configuration_of config.now)
            (E.order (endian_of config.now)) self.now.header (chunk_bytes self.now.rest) }
        ensures read { numbers.IsRead (λ s. (getters_of s).time) (λ id. id.time)
            (configuration_of config.now) (E.order (endian_of config.now)) self.now.header
            (chunk_bytes self.now.rest) result }
    {
        match self.field(config, time_place(config.sample_type())) {
            Some(bytes) => Some(config.endian().convert_u64(bytes)),
            None => None,
        }
    }

    /// The process in which it happened: the first half of `PERF_SAMPLE_TID`. As for
    /// [`Frame::time`] it is the same number as in the fully parsed record, and `None` if the frame
    /// does not contain the field.
    #[inline]
    pub fn pid<E: Endian>(&self, config: &ParseConfig<E>) -> Option<u32>
        ensures place { result ≡ numbers.pid_in (configuration_of config.now)
            (E.order (endian_of config.now)) self.now.header (chunk_bytes self.now.rest) }
        ensures read { numbers.IsRead (λ s. (getters_of s).pid) (λ id. id.pid)
            (configuration_of config.now) (E.order (endian_of config.now)) self.now.header
            (chunk_bytes self.now.rest) result }
    {
        match self.field(config, task_place(config.sample_type())) {
            Some(bytes) => Some(first_half(config.endian(), bytes)),
            None => None,
        }
    }

    /// The thread in which it happened: the second half of `PERF_SAMPLE_TID`, or `None` as for
    /// [`Frame::pid`].
    #[inline]
    pub fn tid<E: Endian>(&self, config: &ParseConfig<E>) -> Option<u32>
        ensures place { result ≡ numbers.tid_in (configuration_of config.now)
            (E.order (endian_of config.now)) self.now.header (chunk_bytes self.now.rest) }
        ensures read { numbers.IsRead (λ s. (getters_of s).tid) (λ id. id.tid)
            (configuration_of config.now) (E.order (endian_of config.now)) self.now.header
            (chunk_bytes self.now.rest) result }
    {
        match self.field(config, task_place(config.sample_type())) {
            Some(bytes) => Some(second_half(config.endian(), bytes)),
            None => None,
        }
    }

    /// The processor on which it happened: the first half of `PERF_SAMPLE_CPU`. As for
    /// [`Frame::time`] it is the same number as in the fully parsed record, and `None` if the frame
    /// does not contain the field.
    #[inline]
    pub fn cpu<E: Endian>(&self, config: &ParseConfig<E>) -> Option<u32>
        ensures place { result ≡ numbers.cpu_in (configuration_of config.now)
            (E.order (endian_of config.now)) self.now.header (chunk_bytes self.now.rest) }
        ensures read { numbers.IsRead (λ s. (getters_of s).cpu) (λ id. id.cpu)
            (configuration_of config.now) (E.order (endian_of config.now)) self.now.header
            (chunk_bytes self.now.rest) result }
    {
        match self.field(config, cpu_place(config.sample_type())) {
            Some(bytes) => Some(first_half(config.endian(), bytes)),
            None => None,
        }
    }

    /// The kernel's own number of the event, or of its group's leader: `PERF_SAMPLE_ID`, or
    /// `PERF_SAMPLE_IDENTIFIER` if the sample type has only that. As for [`Frame::time`] it is the
    /// same number as in the fully parsed record, and `None` if the frame does not contain the
    /// field.
    #[inline]
    pub fn id<E: Endian>(&self, config: &ParseConfig<E>) -> Option<u64>
        ensures place { result ≡ numbers.id_in (configuration_of config.now)
            (E.order (endian_of config.now)) self.now.header (chunk_bytes self.now.rest) }
        ensures read { numbers.IsRead (λ s. (getters_of s).id) (λ id. id.id)
            (configuration_of config.now) (E.order (endian_of config.now)) self.now.header
            (chunk_bytes self.now.rest) result }
    {
        match self.field(config, event_place(config.sample_type())) {
            Some(bytes) => Some(config.endian().convert_u64(bytes)),
            None => None,
        }
    }

    /// The kernel's own number of the event, from `PERF_SAMPLE_IDENTIFIER`, for use before it is
    /// known which configuration the frame was written under: the first 8 bytes of a SAMPLE's body,
    /// or the last 8 of another frame written by the kernel. `None` if there are fewer, and for
    /// frames written by programs, whose types are 64 or more.
    ///
    /// Under every configuration whose sample type has that flag, with `sample_id_all` for a frame
    /// other than a SAMPLE, it is the same number as in the fully parsed record. The metadata of a
    /// frame other than a SAMPLE has one id, which is that of `PERF_SAMPLE_ID` if the sample type
    /// has both.
    #[inline]
    pub fn identifier<E: Endian>(&self, order: &E) -> Option<u64>
        ensures place { result ≡ numbers.identifier_in (E.order order.now) self.now.header
            (chunk_bytes self.now.rest) }
        ensures read { numbers.IsIdentifierRead (E.order order.now) self.now.header
            (chunk_bytes self.now.rest) result }
    {
        let bytes = self.rest();
        match identifier_bytes(bytes, self.header().type_) {
            Some(eight) => Some(order.convert_u64(eight)),
            None => None,
        }
    }
}
