//! A frame as plain numbers, and what it has besides the contents of its record.

ghost use Rattle.std.specs.Prelude.{◌≡◌, ◌≤◌, ◌<◌, ◌+◌, ◌^◌, length, ◌==◌, ◌||◌, ◌&&◌};
ghost use Rattle.perf_flat.specs.Arrays.{filled, filled_spans, low_u32, span};
ghost use Rattle.perf_flat.specs.CursorReads.{SameHead};
ghost use Rattle.perf_flat.specs.Flat as flat;
ghost use Rattle.perf_flat.specs.Samples as samples;
ghost use Rattle.perf_records.specs.Prelude.{configuration_of};
ghost use Rattle.perf_words.specs.Bits.{has_bit};

use bitflags::Flags;
use perf_base::ParseConfig;
use perf_base::sys::{PERF_RECORD_READ, PERF_RECORD_SAMPLE, perf_event_header};
use perf_records::parts::carries_sample_id;
use perf_records::record_type::RecordType;
use perf_sample_types::sample_id::SampleId;
use perf_words::SampleFlags;

/// How many numbers a flat frame has.
pub const NUMBERS: usize = 24;

/// How many spans a flat frame has.
pub const SPANS: usize = 8;

/// A place in a frame.
#[repr(C)]
#[derive(Copy, Clone, Debug)]
pub struct Span {
    /// Its offset in the frame, in bytes; 0 if the frame does not have it.
    pub at: u32,
    /// Its length in bytes.
    pub len: u32,
}

/// A frame as numbers alone, in 320 bytes. What the record does not have is 0.
#[repr(C)]
#[derive(Copy, Clone, Debug)]
pub struct FlatFrame {
    /// The type in the frame's header, `PERF_RECORD_*`.
    pub type_: u32,
    /// The bits in its header that depend on the type, `PERF_RECORD_MISC_*`.
    pub misc: u16,
    /// The size in its header, in bytes.
    pub size: u16,
    /// The type if this library knows it, else 0.
    pub read: u32,
    /// Why there is no record, or 0: 1 for too few bytes, 2 for an invalid record, 3 for a configuration
    /// that is not supported.
    pub refusal: u16,
    /// The reason for that, or 0.
    pub reason: u16,
    /// Which fields of the sample type are present, `PERF_SAMPLE_*`: those of a sample that this library
    /// knows, and bit 32 if its branches have the hardware's index; else those of the sample id.
    pub present: u64,
    /// The process in which it happened.
    pub pid: u32,
    /// The thread in which it happened.
    pub tid: u32,
    /// When it happened, in nanoseconds of the event's clock.
    pub time: u64,
    /// The kernel's own number of the event, or of its group's leader.
    pub id: u64,
    /// The kernel's own number of the event itself.
    pub stream_id: u64,
    /// The processor on which it happened.
    pub cpu: u32,
    /// What the read of a counter has besides its value, `PERF_FORMAT_*`: of a READ, or of a sample that
    /// has READ.
    pub read_format: u32,
    /// The numbers of the record, in the order of its fields. Those of a sample: address of the
    /// instruction, address, period, weight, source of data, transaction, physical address, control group,
    /// sizes of the pages of data and of code, the hardware's index of the branches, the ABI of the user
    /// registers and of those at the interrupt, the times enabled and running, how many counters were
    /// read, and without GROUP the counter's value, its id and its lost samples.
    pub numbers: [u64; NUMBERS],
    /// Where its byte strings and its lists are. Those of a sample: call chain, branches (24 bytes each),
    /// the entries of a group, user registers, registers at the interrupt, raw bytes, stack, AUX data.
    pub spans: [Span; SPANS],
}

// The span of what is absent.
pub(crate) const NO_SPAN: Span = Span { at: 0, len: 0 };

// A number in 32 bits. No frame has so many bytes that any is lost.
#[inline]
pub(crate) fn low_u32(number: usize) -> u32
    ensures { result ≡ low_u32 number }
{
    (number % (1 << 32)) as u32
}

// The span of so many bytes at that offset of the frame.
#[inline]
pub(crate) fn short_span(place: usize, len: usize) -> Span
    ensures { result ≡ span (low_u32 place) (low_u32 len) }
{
    Span {
        at: low_u32(place),
        len: low_u32(len),
    }
}

// So many bytes of a span, after the first `from` of it.
#[inline]
pub(crate) fn span_within(run: Span, from: u64, len: u64) -> Span
    requires { from < 2 ^ 16 }
    ensures { result ≡ span (low_u32 (run.at + from)) (low_u32 len) }
{
    short_span(run.at as usize + from as usize, len as usize)
}

// Writes these numbers, and zeros after them.
#[inline(always)]
#[tactic(auto, unfolding(crate::specs::Arrays::filled))]
pub(crate) fn put_numbers(numbers: &[u64], all: &mut [u64; NUMBERS])
    requires { length numbers.now ≤ 24 }
    ensures { all.new ≡ filled numbers.now }
{
    *all = [0; NUMBERS];
    all[..numbers.len()].copy_from_slice(numbers);
}

// Writes these spans, and spans of no bytes after them.
#[inline(always)]
#[tactic(auto, unfolding(crate::specs::Arrays::filled_spans))]
pub(crate) fn put_spans(spans: &[Span], all: &mut [Span; SPANS])
    requires { length spans.now ≤ 8 }
    ensures { all.new ≡ filled_spans spans.now }
{
    *all = [Span { at: 0, len: 0 }; SPANS];
    all[..spans.len()].copy_from_slice(spans);
}

// The flags of a sample id.
#[inline]
fn id_flags() -> u64
    ensures { result ≡ flat.id_flags }
{
    SampleFlags::TID.bits()
        | SampleFlags::TIME.bits()
        | SampleFlags::ID.bits()
        | SampleFlags::STREAM_ID.bits()
        | SampleFlags::CPU.bits()
        | SampleFlags::IDENTIFIER.bits()
}

// One more than the sum of all flags of which the library knows the fields.
const KNOWN: u64 = 1 << 25;

// That branches have the hardware's index, which has no flag.
const HW_INDEX: u64 = 1 << 32;

// The type of the header, if the kernel has one of that number.
#[inline]
fn read_type(ty: u32) -> u32
    ensures { result ≡ flat.read_type ty }
{
    match RecordType::of(ty) {
        Some(_) => ty,
        None => 0,
    }
}

// Whether a sample has counters.
#[inline]
fn has_read<E>(config: &ParseConfig<E>) -> bool
    ensures { result ≡ has_bit (configuration_of config.now).sample_type 4 }
{
    config.sample_type().contains(SampleFlags::READ)
}

// Whether a sample has branches.
#[inline]
fn has_branches<E>(config: &ParseConfig<E>) -> bool
    ensures { result ≡ has_bit (configuration_of config.now).sample_type 11 }
{
    config.sample_type().contains(SampleFlags::BRANCH_STACK)
}

// Which fields of the sample type are present in a sample.
#[inline]
fn sample_present<E>(config: &ParseConfig<E>) -> u64
    ensures { result ≡ samples.sample_present (configuration_of config.now) }
{
    let known = config.sample_type().bits() % KNOWN;
    if has_branches(config) && config.branch_hw_index() {
        known + HW_INDEX
    } else {
        known
    }
}

// Which fields of the sample type a frame of that type has.
#[inline]
fn present_of<E>(config: &ParseConfig<E>, ty: u32) -> u64
    ensures { result ≡ flat.present_of (configuration_of config.now) ty }
{
    if ty == PERF_RECORD_SAMPLE {
        sample_present(config)
    } else if carries_sample_id(ty) && config.sample_id_all() {
        config.sample_type().bits() & id_flags()
    } else {
        0
    }
}

// Whether a frame of that type has counters.
#[inline]
fn has_counters<E>(config: &ParseConfig<E>, ty: u32) -> bool
    ensures { result ≡ (ty == 8
        || (ty == 9 && has_bit (configuration_of config.now).sample_type 4)) }
{
    match ty {
        PERF_RECORD_READ => true,
        PERF_RECORD_SAMPLE => has_read(config),
        _ => false,
    }
}

// The format of the counters of a frame of that type.
#[inline]
fn format_of<E>(config: &ParseConfig<E>, ty: u32) -> u32
    ensures { result ≡ flat.format_of (configuration_of config.now) ty }
{
    if has_counters(config, ty) {
        config.read_format().bits() as u32
    } else {
        0
    }
}

// Writes what a flat frame has of a sample id.
#[inline]
pub(crate) fn put_id(id: &SampleId, frame: &mut FlatFrame)
    ensures id { flat.StatesId id.now frame.new }
    ensures head { SameHead frame.old frame.new }
    ensures numbers { frame.new.numbers ≡ frame.old.numbers }
    ensures spans { frame.new.spans ≡ frame.old.spans }
{
    frame.pid = id.pid().unwrap_or(0);
    frame.tid = id.tid().unwrap_or(0);
    frame.time = id.time().unwrap_or(0);
    frame.id = id.id().unwrap_or(0);
    frame.stream_id = id.stream_id().unwrap_or(0);
    frame.cpu = id.cpu().unwrap_or(0);
}

// Writes what a flat frame has besides the contents of its record.
#[inline]
pub(crate) fn put_head<E>(
    config: &ParseConfig<E>,
    header: perf_event_header,
    id: &SampleId,
    frame: &mut FlatFrame,
)
    ensures header { flat.HasHeader header frame.new }
    ensures numbers { flat.CarriesNumbers (configuration_of config.now) id.now
        frame.new.numbers frame.new }
    ensures size { header.size < 2 ^ 16 }
{
    frame.type_ = header.type_;
    frame.misc = header.misc;
    frame.size = header.size;
    frame.read = read_type(header.type_);
    frame.refusal = 0;
    frame.reason = 0;
    frame.present = present_of(config, header.type_);
    frame.read_format = format_of(config, header.type_);
    put_id(id, frame);
}
