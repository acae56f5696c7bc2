//! The bodies of all records but SAMPLE, read in place: their numbers are written to a flat frame, and where
//! their byte strings and lists are. Nothing is copied, and no memory is needed.

ghost use Rattle.std.specs.Prelude.{ℕ, ◌≡◌, ◌∷◌, [], if◌then◌else◌, ◌<◌, ◌^◌};
ghost use Rattle.perf_base.specs.Attribute.{or_zero};
ghost use Rattle.perf_base.specs.Configuration.{Configuration, under_misc};
ghost use Rattle.perf_base.specs.Layout.{map_parts, done};
ghost use Rattle.perf_base.specs.Misc.{switch_out_bit};
ghost use Rattle.perf_base.specs.Order.{Order};
ghost use Rattle.perf_flat.specs.BodyReads.{IsDetail};
ghost use Rattle.perf_flat.specs.CursorReads.{WritesRecord, ReadsFor};
ghost use Rattle.perf_records.specs.Bodies.{body, body_of, unread};
ghost use Rattle.perf_records.specs.Prelude.{configuration_of, endian_of};
ghost use Rattle.perf_records.specs.Records as record_of;
ghost use Rattle.perf_records.specs.Records.{namespaces_is};
ghost use Rattle.perf_types.specs.Numbers.{aux, aux_output_hw_id, bpf_event, exit};
ghost use Rattle.perf_types.specs.Numbers.{itrace_start, lost, lost_samples, throttle};
ghost use Rattle.perf_types.specs.CGroup.{cgroup};
ghost use Rattle.perf_types.specs.Comm.{comm};
ghost use Rattle.perf_types.specs.KSymbol.{ksymbol};
ghost use Rattle.perf_types.specs.Mmap.{mmap};
ghost use Rattle.perf_types.specs.Mmap2.{mmap2};
ghost use Rattle.perf_types.specs.MmapDetail as detail_of;
ghost use Rattle.perf_types.specs.Namespaces.{namespaces};
ghost use Rattle.perf_types.specs.Read.{read};
ghost use Rattle.perf_types.specs.SwitchCpuWide.{switch_cpu_wide};
ghost use Rattle.perf_types.specs.TextPoke.{text_poke};
ghost use Rattle.perf_words.specs.Bits.{has_bit};
ghost use Rattle.perf_words.specs.SetBits.{read_format_bits};

use crate::cursor::BodyCursor;
use crate::frame::{FlatFrame, NO_SPAN, Span, span_within};
use crate::sample::{Counters, put_sample};
use perf_base::sys::perf_event_header;
use perf_base::{Endian, ParseConfig, Refusal};
use perf_records::record_type::RecordType;
use perf_types::mmap2::has_build_id;
use perf_types::switch_cpu_wide::is_switch_out;
use perf_types::text_poke::poked_len;
use perf_words::ReadFormat;

// Writes the contents of the record of a header, by its type and its `misc`.
#[inline]
pub(crate) fn put_record<E: Endian>(
    config: &ParseConfig<E>,
    header: perf_event_header,
    bytes: &[u8],
    frame: &mut FlatFrame,
) -> Option<Refusal>
    ensures { WritesRecord (under_misc header.misc (configuration_of config.now))
        (E.order (endian_of config.now))
        (body (under_misc header.misc (configuration_of config.now)) header.type_) bytes.now
        frame.old result frame.new }
{
    let kind = RecordType::of(header.type_);
    match kind {
        Some(known) => {
            let order = config.endian();
            put_known(config, order, known, header.misc, bytes, frame)
        }
        None => put_unknown(bytes, frame),
    }
}

// Writes the contents of a record of a known type.
fn put_known<E: Endian>(
    config: &ParseConfig<E>,
    order: &E,
    kind: RecordType,
    misc: u16,
    body: &[u8],
    frame: &mut FlatFrame,
) -> Option<Refusal>
    ensures { (ty : ℕ) → WritesRecord (under_misc misc (configuration_of config.now))
        (E.order order.now) (body_of (under_misc misc (configuration_of config.now)) ty kind)
        body.now frame.old result frame.new }
{
    match kind {
        RecordType::Mmap => put_mmap(order, body, frame),
        RecordType::Lost => put_lost(order, body, frame),
        RecordType::Comm => put_comm(order, body, frame),
        RecordType::Exit | RecordType::Fork => put_task(order, body, frame),
        RecordType::Throttle | RecordType::Unthrottle => put_throttle(order, body, frame),
        RecordType::Read => put_read(order, config.read_format(), body, frame),
        RecordType::Sample => put_sample(config, order, body, frame),
        RecordType::Mmap2 => put_mmap2(order, misc, body, frame),
        RecordType::Aux => put_aux(order, body, frame),
        RecordType::ITraceStart => put_itrace_start(order, body, frame),
        RecordType::LostSamples => put_lost_samples(order, body, frame),
        RecordType::Switch => put_switch(body, frame),
        RecordType::SwitchCpuWide => put_switch_cpu_wide(order, misc, body, frame),
        RecordType::Namespaces => put_namespaces(order, body, frame),
        RecordType::KSymbol => put_ksymbol(order, body, frame),
        RecordType::BpfEvent => put_bpf_event(order, body, frame),
        RecordType::CGroup => put_cgroup(order, body, frame),
        RecordType::TextPoke => put_text_poke(order, body, frame),
        RecordType::AuxOutputHwId => put_hw_id(order, body, frame),
    }
}

// Writes the contents of an MMAP record.
fn put_mmap<E: Endian>(order: &E, body: &[u8], frame: &mut FlatFrame) -> Option<Refusal>
    ensures { (c : Configuration) → WritesRecord c (E.order order.now)
        (map_parts record_of.mmap_is mmap) body.now frame.old result frame.new }
{
    let mut cursor = BodyCursor::new(body);
    let pid = cursor.read_u32_as_u64(order);
    let tid = cursor.read_u32_as_u64(order);
    let addr = cursor.read_u64(order);
    let len = cursor.read_u64(order);
    let pgoff = cursor.read_u64(order);
    let filename = cursor.name();
    cursor.finish(&[pid, tid, addr, len, pgoff], &[filename], frame)
}

// Writes the contents of a LOST record.
fn put_lost<E: Endian>(order: &E, body: &[u8], frame: &mut FlatFrame) -> Option<Refusal>
    ensures { (c : Configuration) → WritesRecord c (E.order order.now)
        (map_parts record_of.lost_is lost) body.now frame.old result frame.new }
{
    let mut cursor = BodyCursor::new(body);
    let id = cursor.read_u64(order);
    let lost = cursor.read_u64(order);
    cursor.finish(&[id, lost], &[], frame)
}

// Writes the contents of a COMM record.
fn put_comm<E: Endian>(order: &E, body: &[u8], frame: &mut FlatFrame) -> Option<Refusal>
    ensures { (c : Configuration) → WritesRecord c (E.order order.now)
        (map_parts record_of.comm_is comm) body.now frame.old result frame.new }
{
    let mut cursor = BodyCursor::new(body);
    let pid = cursor.read_u32_as_u64(order);
    let tid = cursor.read_u32_as_u64(order);
    let comm = cursor.name();
    cursor.finish(&[pid, tid], &[comm], frame)
}

// Writes the contents of an EXIT or a FORK record.
fn put_task<E: Endian>(order: &E, body: &[u8], frame: &mut FlatFrame) -> Option<Refusal>
    ensures exit { (c : Configuration) → WritesRecord c (E.order order.now)
        (map_parts record_of.exit_is exit) body.now frame.old result frame.new }
    ensures fork { (c : Configuration) → WritesRecord c (E.order order.now)
        (map_parts record_of.fork_is exit) body.now frame.old result frame.new }
{
    let mut cursor = BodyCursor::new(body);
    let pid = cursor.read_u32_as_u64(order);
    let ppid = cursor.read_u32_as_u64(order);
    let tid = cursor.read_u32_as_u64(order);
    let ptid = cursor.read_u32_as_u64(order);
    let time = cursor.read_u64(order);
    cursor.finish(&[pid, ppid, tid, ptid, time], &[], frame)
}

// Writes the contents of a THROTTLE or an UNTHROTTLE record.
fn put_throttle<E: Endian>(order: &E, body: &[u8], frame: &mut FlatFrame) -> Option<Refusal>
    ensures throttle { (c : Configuration) → WritesRecord c (E.order order.now)
        (map_parts record_of.throttle_is throttle) body.now frame.old result frame.new }
    ensures unthrottle { (c : Configuration) → WritesRecord c (E.order order.now)
        (map_parts record_of.unthrottle_is throttle) body.now frame.old result frame.new }
{
    let mut cursor = BodyCursor::new(body);
    let time = cursor.read_u64(order);
    let id = cursor.read_u64(order);
    let stream_id = cursor.read_u64(order);
    cursor.finish(&[time, id, stream_id], &[], frame)
}

// The numbers of a READ record.
#[inline]
fn read_numbers(pid: u64, tid: u64, one: &Counters) -> [u64; 7]
    ensures { result ≡ pid ∷ tid ∷ one.now.value ∷ or_zero one.now.time_enabled
        ∷ or_zero one.now.time_running ∷ or_zero one.now.id ∷ or_zero one.now.lost ∷ [] }
{
    [
        pid,
        tid,
        one.value,
        one.time_enabled.unwrap_or(0),
        one.time_running.unwrap_or(0),
        one.id.unwrap_or(0),
        one.lost.unwrap_or(0),
    ]
}

// Writes the contents of a READ record.
fn put_read<E: Endian>(
    order: &E,
    format: ReadFormat,
    body: &[u8],
    frame: &mut FlatFrame,
) -> Option<Refusal>
    ensures { (c : Configuration) → read_format_bits format ≡ c.read_format →
        WritesRecord c (E.order order.now) (map_parts record_of.read_is (read c)) body.now
        frame.old result frame.new }
{
    let mut cursor = BodyCursor::new(body);
    let pid = cursor.read_u32_as_u64(order);
    let tid = cursor.read_u32_as_u64(order);
    let one = cursor.one_counter(order, format);
    cursor.finish(&read_numbers(pid, tid, &one), &[], frame)
}

// What identifies the file of a mapping: the numbers of its inode, or where its build id is.
#[derive(Copy, Clone)]
struct Detail {
    maj: u64,
    min: u64,
    ino: u64,
    ino_generation: u64,
    build_id: Span,
}

// The longest build id, in bytes.
const BUILD_ID: u64 = 20;

impl BodyCursor<'_> {
    // The numbers of an inode.
    #[inline]
    fn inode<E: Endian>(&mut self, order: &E) -> Detail
        ensures { ReadsFor (E.order order.now) detail_of.inode
            (λ d. IsDetail self.old.bytes.now d result) self.old self.new }
    {
        Detail {
            maj: self.read_u32_as_u64(order),
            min: self.read_u32_as_u64(order),
            ino: self.read_u64(order),
            ino_generation: self.read_u64(order),
            build_id: NO_SPAN,
        }
    }

    // A build id.
    #[inline]
    fn build_id<E: Endian>(&mut self, order: &E) -> Detail
        ensures { ReadsFor (E.order order.now) detail_of.build_id
            (λ d. IsDetail self.old.bytes.now d result) self.old self.new }
    {
        let len = self.read_u8_as_u64(order);
        self.pass(3);
        let bytes = self.pass(BUILD_ID);
        self.require(len <= BUILD_ID, Refusal::BuildIdLength);
        Detail {
            maj: 0,
            min: 0,
            ino: 0,
            ino_generation: 0,
            build_id: span_within(bytes, 0, len),
        }
    }

    // One of the two, by the header's `misc`.
    #[inline]
    fn detail<E: Endian>(&mut self, order: &E, misc: u16) -> Detail
        ensures { (c : Configuration) → misc ≡ c.misc →
            ReadsFor (E.order order.now) (detail_of.mmap_detail c)
            (λ d. IsDetail self.old.bytes.now d result) self.old self.new }
    {
        if has_build_id(misc) {
            self.build_id(order)
        } else {
            self.inode(order)
        }
    }
}

// Writes the contents of an MMAP2 record.
fn put_mmap2<E: Endian>(order: &E, misc: u16, body: &[u8], frame: &mut FlatFrame) -> Option<Refusal>
    ensures { (c : Configuration) → misc ≡ c.misc → WritesRecord c (E.order order.now)
        (map_parts record_of.mmap2_is (mmap2 c)) body.now frame.old result frame.new }
{
    let mut cursor = BodyCursor::new(body);
    let pid = cursor.read_u32_as_u64(order);
    let tid = cursor.read_u32_as_u64(order);
    let addr = cursor.read_u64(order);
    let len = cursor.read_u64(order);
    let pgoff = cursor.read_u64(order);
    let detail = cursor.detail(order, misc);
    let prot = cursor.read_u32_as_u64(order);
    let flags = cursor.read_u32_as_u64(order);
    let filename = cursor.name();
    let numbers = [
        pid,
        tid,
        addr,
        len,
        pgoff,
        prot,
        flags,
        detail.maj,
        detail.min,
        detail.ino,
        detail.ino_generation,
    ];
    cursor.finish(&numbers, &[filename, detail.build_id], frame)
}

// Writes the contents of an AUX record.
fn put_aux<E: Endian>(order: &E, body: &[u8], frame: &mut FlatFrame) -> Option<Refusal>
    ensures { (c : Configuration) → WritesRecord c (E.order order.now)
        (map_parts record_of.aux_is aux) body.now frame.old result frame.new }
{
    let mut cursor = BodyCursor::new(body);
    let offset = cursor.read_u64(order);
    let size = cursor.read_u64(order);
    let flags = cursor.read_u64(order);
    cursor.finish(&[offset, size, flags], &[], frame)
}

// Writes the contents of an ITRACE_START record.
fn put_itrace_start<E: Endian>(order: &E, body: &[u8], frame: &mut FlatFrame) -> Option<Refusal>
    ensures { (c : Configuration) → WritesRecord c (E.order order.now)
        (map_parts record_of.itrace_start_is itrace_start) body.now frame.old result frame.new }
{
    let mut cursor = BodyCursor::new(body);
    let pid = cursor.read_u32_as_u64(order);
    let tid = cursor.read_u32_as_u64(order);
    cursor.finish(&[pid, tid], &[], frame)
}

// Writes the contents of a LOST_SAMPLES record.
fn put_lost_samples<E: Endian>(order: &E, body: &[u8], frame: &mut FlatFrame) -> Option<Refusal>
    ensures { (c : Configuration) → WritesRecord c (E.order order.now)
        (map_parts record_of.lost_samples_is lost_samples) body.now frame.old result frame.new }
{
    let mut cursor = BodyCursor::new(body);
    let lost = cursor.read_u64(order);
    cursor.finish(&[lost], &[], frame)
}

// Writes the contents of a SWITCH record: nothing.
fn put_switch(body: &[u8], frame: &mut FlatFrame) -> Option<Refusal>
    ensures { (c : Configuration) (o : Order) →
        WritesRecord c o (done record_of.switch_is) body.now frame.old result frame.new }
{
    BodyCursor::new(body).finish(&[], &[], frame)
}

// Whether the record with this `misc` reports that a task left its processor: 1 or 0.
#[inline]
fn switch_out(misc: u16) -> u64
    ensures { result ≡ (if has_bit misc switch_out_bit then 1 else 0) }
{
    if is_switch_out(misc) { 1 } else { 0 }
}

// Writes the contents of a SWITCH_CPU_WIDE record.
fn put_switch_cpu_wide<E: Endian>(
    order: &E,
    misc: u16,
    body: &[u8],
    frame: &mut FlatFrame,
) -> Option<Refusal>
    ensures { (c : Configuration) → misc ≡ c.misc → WritesRecord c (E.order order.now)
        (map_parts record_of.switch_cpu_wide_is (switch_cpu_wide c)) body.now frame.old result frame.new }
{
    let mut cursor = BodyCursor::new(body);
    let pid = cursor.read_u32_as_u64(order);
    let tid = cursor.read_u32_as_u64(order);
    cursor.finish(&[pid, tid, switch_out(misc)], &[], frame)
}

// How many numbers the entry of a namespace has: its device and its inode.
const ENTRY: u64 = 2;

// Writes the contents of a NAMESPACES record.
fn put_namespaces<E: Endian>(order: &E, body: &[u8], frame: &mut FlatFrame) -> Option<Refusal>
    ensures { (c : Configuration) → WritesRecord c (E.order order.now)
        (map_parts namespaces_is namespaces) body.now frame.old result frame.new }
{
    let mut cursor = BodyCursor::new(body);
    let pid = cursor.read_u32_as_u64(order);
    let tid = cursor.read_u32_as_u64(order);
    let count = cursor.read_u64(order);
    let entries = cursor.pass_items(count, ENTRY);
    cursor.finish(&[pid, tid, count], &[entries], frame)
}

// Writes the contents of a KSYMBOL record.
fn put_ksymbol<E: Endian>(order: &E, body: &[u8], frame: &mut FlatFrame) -> Option<Refusal>
    ensures { (c : Configuration) → WritesRecord c (E.order order.now)
        (map_parts record_of.ksymbol_is ksymbol) body.now frame.old result frame.new }
{
    let mut cursor = BodyCursor::new(body);
    let addr = cursor.read_u64(order);
    let len = cursor.read_u32_as_u64(order);
    let kind = cursor.read_u16_as_u64(order);
    let flags = cursor.read_u16_as_u64(order);
    let name = cursor.name();
    cursor.finish(&[addr, len, kind, flags], &[name], frame)
}

// How many bytes the tag of a BPF program has.
const TAG: u64 = 8;

// Writes the contents of a BPF_EVENT record.
fn put_bpf_event<E: Endian>(order: &E, body: &[u8], frame: &mut FlatFrame) -> Option<Refusal>
    ensures { (c : Configuration) → WritesRecord c (E.order order.now)
        (map_parts record_of.bpf_event_is bpf_event) body.now frame.old result frame.new }
{
    let mut cursor = BodyCursor::new(body);
    let kind = cursor.read_u16_as_u64(order);
    let flags = cursor.read_u16_as_u64(order);
    let id = cursor.read_u32_as_u64(order);
    let tag = cursor.pass(TAG);
    cursor.finish(&[kind, flags, id], &[tag], frame)
}

// Writes the contents of a CGROUP record.
fn put_cgroup<E: Endian>(order: &E, body: &[u8], frame: &mut FlatFrame) -> Option<Refusal>
    ensures { (c : Configuration) → WritesRecord c (E.order order.now)
        (map_parts record_of.cgroup_is cgroup) body.now frame.old result frame.new }
{
    let mut cursor = BodyCursor::new(body);
    let id = cursor.read_u64(order);
    let path = cursor.name();
    cursor.finish(&[id], &[path], frame)
}

// Writes the contents of a TEXT_POKE record.
fn put_text_poke<E: Endian>(order: &E, body: &[u8], frame: &mut FlatFrame) -> Option<Refusal>
    ensures { (c : Configuration) → WritesRecord c (E.order order.now)
        (map_parts record_of.text_poke_is text_poke) body.now frame.old result frame.new }
{
    let mut cursor = BodyCursor::new(body);
    let addr = cursor.read_u64(order);
    let old_len = cursor.read_u16_as_u64(order);
    let new_len = cursor.read_u16_as_u64(order);
    let run = cursor.pass(poked_len(old_len + new_len));
    let old = span_within(run, 0, old_len);
    let new = span_within(run, old_len, new_len);
    cursor.finish(&[addr], &[old, new], frame)
}

// Writes the contents of an AUX_OUTPUT_HW_ID record.
fn put_hw_id<E: Endian>(order: &E, body: &[u8], frame: &mut FlatFrame) -> Option<Refusal>
    ensures { (c : Configuration) → WritesRecord c (E.order order.now)
        (map_parts record_of.aux_output_hw_id_is aux_output_hw_id) body.now frame.old result frame.new }
{
    let mut cursor = BodyCursor::new(body);
    let hw_id = cursor.read_u64(order);
    cursor.finish(&[hw_id], &[], frame)
}

// Writes the contents of a record of a type that is not known: all of its bytes.
fn put_unknown(body: &[u8], frame: &mut FlatFrame) -> Option<Refusal>
    ensures { (c : Configuration) (o : Order) (ty : ℕ) →
        WritesRecord c o (unread ty) body.now frame.old result frame.new }
{
    let mut cursor = BodyCursor::new(body);
    let all = cursor.all_left();
    cursor.finish(&[], &[all], frame)
}
