//! Records of each type, each as a name and fields.

ghost use Rattle.std.specs.Prelude.{◌≡◌, ◌≤◌, ◌++◌, length, string_bytes, OnOk};
ghost use Rattle.perf_records.specs.Records as value;
ghost use Rattle.perf_lines.specs.Text as lines;
ghost use Rattle.perf_lines.specs.Text.{namespace_item};
ghost use Rattle.perf_lines.specs.Fields.{with_spaces, with_commas};

use crate::fields::{push_fields, push_hex, push_numbers};
use crate::sample::push_sample;
use bitflags::Flags;
use perf_records::record::Record;
use perf_text::strip::Strip;
use perf_types::{
    Aux, AuxOutputHwId, BpfEvent, CGroup, Comm, Exit, ITraceStart, KSymbol, Lost, LostSamples,
    Mmap, Mmap2, NamespaceEntry, Namespaces, Read, SwitchCpuWide, TextPoke, Throttle,
};
use std::alloc::AllocError;

/// Appends the name of a record and its fields, each after a space.
pub fn push_record(text: &mut String, found: &Record) -> Result<(), AllocError>
    ensures { OnOk result (string_bytes text.new
        ≡ string_bytes text.old ++ with_spaces (lines.record_words (value.record_value found.now))) }
{
    match found {
        Record::Mmap(mapped) => push_mmap(text, mapped),
        Record::Lost(lost) => push_lost(text, lost),
        Record::Comm(comm) => push_comm(text, comm),
        Record::Exit(exit) => push_exit(text, " Exit", exit),
        Record::Throttle(throttle) => push_throttle(text, " Throttle", throttle),
        Record::Unthrottle(throttle) => push_throttle(text, " Unthrottle", throttle),
        Record::Fork(fork) => push_exit(text, " Fork", fork),
        Record::Read(read) => push_read(text, read),
        Record::Sample(sample) => push_sample(text, sample),
        Record::Mmap2(mapped) => push_mmap2(text, mapped),
        Record::Aux(aux) => push_aux(text, aux),
        Record::ITraceStart(start) => push_itrace_start(text, start),
        Record::LostSamples(lost) => push_lost_samples(text, lost),
        Record::Switch => text.push_str(" Switch"),
        Record::SwitchCpuWide(switch) => push_switch_cpu_wide(text, switch),
        Record::Namespaces(namespaces) => push_namespaces(text, namespaces),
        Record::KSymbol(symbol) => push_ksymbol(text, symbol),
        Record::BpfEvent(event) => push_bpf_event(text, event),
        Record::CGroup(group) => push_cgroup(text, group),
        Record::TextPoke(poke) => push_text_poke(text, poke),
        Record::AuxOutputHwId(output) => push_aux_output_hw_id(text, output),
        Record::Unknown { ty: _, bytes } => push_unknown(text, bytes.as_slice()),
    }
}

fn push_mmap(text: &mut String, mapped: &Mmap) -> Result<(), AllocError>
    ensures { OnOk result (string_bytes text.new
        ≡ string_bytes text.old ++ with_spaces (lines.mmap_words (value.mmap_value mapped.now))) }
{
    let fields = [
        (" pid=", u64::from(mapped.pid)),
        (" tid=", u64::from(mapped.tid)),
        (" addr=", mapped.addr),
        (" len=", mapped.len),
        (" pgoff=", mapped.pgoff),
    ];
    push_fields(text, " Mmap", &fields)?;
    push_hex(text, " filename=", mapped.filename.as_slice())
}

fn push_lost(text: &mut String, lost: &Lost) -> Result<(), AllocError>
    ensures { OnOk result (string_bytes text.new
        ≡ string_bytes text.old ++ with_spaces (lines.lost_words lost.now)) }
{
    push_fields(text, " Lost", &[(" id=", lost.id), (" lost=", lost.lost)])
}

fn push_comm(text: &mut String, comm: &Comm) -> Result<(), AllocError>
    ensures { OnOk result (string_bytes text.new
        ≡ string_bytes text.old ++ with_spaces (lines.comm_words (value.comm_value comm.now))) }
{
    let fields = [
        (" pid=", u64::from(comm.pid)),
        (" tid=", u64::from(comm.tid)),
    ];
    push_fields(text, " Comm", &fields)?;
    push_hex(text, " comm=", comm.comm.as_slice())
}

// The name begins with a space. Exits and forks have the same fields.
fn push_exit(text: &mut String, name: &str, exit: &Exit) -> Result<(), AllocError>
    requires { length name.now ≤ 16 }
    ensures { OnOk result (string_bytes text.new
        ≡ string_bytes text.old ++ (name.now ++ with_spaces (lines.exit_fields exit.now))) }
{
    let fields = [
        (" pid=", u64::from(exit.pid)),
        (" ppid=", u64::from(exit.ppid)),
        (" tid=", u64::from(exit.tid)),
        (" ptid=", u64::from(exit.ptid)),
        (" time=", exit.time),
    ];
    push_fields(text, name, &fields)
}

// The name begins with a space. Both ends of a throttle have the same fields.
fn push_throttle(text: &mut String, name: &str, throttle: &Throttle) -> Result<(), AllocError>
    requires { length name.now ≤ 16 }
    ensures { OnOk result (string_bytes text.new
        ≡ string_bytes text.old ++ (name.now ++ with_spaces (lines.throttle_fields throttle.now))) }
{
    let fields = [
        (" time=", throttle.time),
        (" id=", throttle.id),
        (" stream_id=", throttle.stream_id),
    ];
    push_fields(text, name, &fields)
}

fn push_read(text: &mut String, read: &Read) -> Result<(), AllocError>
    ensures { OnOk result (string_bytes text.new
        ≡ string_bytes text.old ++ with_spaces (lines.read_words (value.task_read read.now))) }
{
    let fields = [
        (" pid=", u64::from(read.pid)),
        (" tid=", u64::from(read.tid)),
        (" value=", read.values.value()),
    ];
    push_fields(text, " Read", &fields)?;
    let others = [
        (" time_enabled=", read.values.time_enabled()),
        (" time_running=", read.values.time_running()),
        (" id=", read.values.id()),
        (" lost=", read.values.lost()),
    ];
    push_numbers(text, &others)
}

fn push_mmap2(text: &mut String, mapped: &Mmap2) -> Result<(), AllocError>
    ensures { OnOk result (string_bytes text.new
        ≡ string_bytes text.old ++ with_spaces (lines.mmap2_words (value.mmap2_value mapped.now))) }
{
    let fields = [
        (" pid=", u64::from(mapped.pid)),
        (" tid=", u64::from(mapped.tid)),
        (" addr=", mapped.addr),
        (" len=", mapped.len),
        (" pgoff=", mapped.pgoff),
    ];
    push_fields(text, " Mmap2", &fields)?;
    push_detail(text, mapped)?;
    let fields = [
        (" prot=", u64::from(mapped.prot)),
        (" flags=", u64::from(mapped.flags)),
    ];
    push_fields(text, "", &fields)?;
    push_hex(text, " filename=", mapped.filename.as_slice())
}

// Appends the numbers of the inode, or the build id.
fn push_detail(text: &mut String, mapped: &Mmap2) -> Result<(), AllocError>
    ensures { OnOk result (string_bytes text.new
        ≡ string_bytes text.old
        ++ with_spaces (lines.detail_words (value.mmap2_value mapped.now).detail)) }
{
    let numbers = [
        (" maj=", mapped.maj().map(u64::from)),
        (" min=", mapped.min().map(u64::from)),
        (" ino=", mapped.ino()),
        (" ino_generation=", mapped.ino_generation()),
    ];
    push_numbers(text, &numbers)?;
    match mapped.build_id() {
        Some(build_id) => push_hex(text, " build_id=", build_id),
        None => Ok(()),
    }
}

fn push_aux(text: &mut String, aux: &Aux) -> Result<(), AllocError>
    ensures { OnOk result (string_bytes text.new
        ≡ string_bytes text.old ++ with_spaces (lines.aux_words (value.aux_value aux.now))) }
{
    let fields = [
        (" aux_offset=", aux.aux_offset),
        (" aux_size=", aux.aux_size),
        (" flags=", aux.flags.bits()),
    ];
    push_fields(text, " Aux", &fields)
}

fn push_itrace_start(text: &mut String, start: &ITraceStart) -> Result<(), AllocError>
    ensures { OnOk result (string_bytes text.new
        ≡ string_bytes text.old ++ with_spaces (lines.itrace_start_words start.now)) }
{
    let fields = [
        (" pid=", u64::from(start.pid)),
        (" tid=", u64::from(start.tid)),
    ];
    push_fields(text, " ITraceStart", &fields)
}

fn push_lost_samples(text: &mut String, lost: &LostSamples) -> Result<(), AllocError>
    ensures { OnOk result (string_bytes text.new
        ≡ string_bytes text.old ++ with_spaces (lines.lost_samples_words lost.now)) }
{
    push_fields(text, " LostSamples", &[(" lost=", lost.lost)])
}

fn push_switch_cpu_wide(text: &mut String, switch: &SwitchCpuWide) -> Result<(), AllocError>
    ensures { OnOk result (string_bytes text.new
        ≡ string_bytes text.old ++ with_spaces (lines.switch_cpu_wide_words switch.now)) }
{
    let fields = [
        (" pid=", u64::from(switch.pid())),
        (" tid=", u64::from(switch.tid())),
        (" out=", out_of(switch)),
    ];
    push_fields(text, " SwitchCpuWide", &fields)
}

fn out_of(switch: &SwitchCpuWide) -> u64
    ensures { result ≡ lines.out_of switch.now }
{
    match switch {
        SwitchCpuWide::In { .. } => 0,
        SwitchCpuWide::Out { .. } => 1,
    }
}

fn push_namespaces(text: &mut String, found: &Namespaces) -> Result<(), AllocError>
    ensures { OnOk result (string_bytes text.new
        ≡ string_bytes text.old
        ++ with_spaces (lines.namespaces_words (value.namespaces_value found.now))) }
{
    let fields = [
        (" pid=", u64::from(found.pid)),
        (" tid=", u64::from(found.tid)),
    ];
    push_fields(text, " Namespaces", &fields)?;
    push_entries(text, " namespaces=", found.namespaces.as_slice())
}

// Appends `before` and the entries, separated by commas.
fn push_entries(
    text: &mut String,
    before: &str,
    entries: &[NamespaceEntry],
) -> Result<(), AllocError>
    ensures { OnOk result (string_bytes text.new
        ≡ string_bytes text.old ++ (before.now ++ with_commas namespace_item entries.now)) }
{
    text.push_str(before)?;
    let Some((first, rest)) = entries.split_first() else {
        return Ok(());
    };
    push_entry(text, "", first)?;
    for entry in rest {
        push_entry(text, ",", entry)?;
    }
    Ok(())
}

// Appends `before` and one entry.
fn push_entry(text: &mut String, before: &str, entry: &NamespaceEntry) -> Result<(), AllocError>
    requires { length before.now ≤ 1 }
    ensures { OnOk result (string_bytes text.new
        ≡ string_bytes text.old ++ (before.now ++ namespace_item entry.now)) }
{
    let mut strip = Strip::new();
    strip.put_number(entry.inode);
    strip.put(":");
    strip.put_number(entry.dev);
    strip.put(before);
    text.push_str(strip.text())
}

fn push_ksymbol(text: &mut String, symbol: &KSymbol) -> Result<(), AllocError>
    ensures { OnOk result (string_bytes text.new
        ≡ string_bytes text.old ++ with_spaces (lines.ksymbol_words (value.ksymbol_value symbol.now))) }
{
    let fields = [
        (" addr=", symbol.addr),
        (" len=", u64::from(symbol.len)),
        (" ksym_type=", u64::from(symbol.ksym_type.get())),
        (" flags=", u64::from(symbol.flags.bits())),
    ];
    push_fields(text, " KSymbol", &fields)?;
    push_hex(text, " name=", symbol.name.as_slice())
}

fn push_bpf_event(text: &mut String, event: &BpfEvent) -> Result<(), AllocError>
    ensures { OnOk result (string_bytes text.new
        ≡ string_bytes text.old
        ++ with_spaces (lines.bpf_event_words (value.bpf_event_value event.now))) }
{
    let fields = [
        (" ty=", u64::from(event.ty.get())),
        (" flags=", u64::from(event.flags)),
        (" id=", u64::from(event.id)),
    ];
    push_fields(text, " BpfEvent", &fields)?;
    push_hex(text, " tag=", &event.tag)
}

fn push_cgroup(text: &mut String, group: &CGroup) -> Result<(), AllocError>
    ensures { OnOk result (string_bytes text.new
        ≡ string_bytes text.old ++ with_spaces (lines.cgroup_words (value.cgroup_value group.now))) }
{
    push_fields(text, " CGroup", &[(" id=", group.id)])?;
    push_hex(text, " path=", group.path.as_slice())
}

fn push_text_poke(text: &mut String, poke: &TextPoke) -> Result<(), AllocError>
    ensures { OnOk result (string_bytes text.new
        ≡ string_bytes text.old
        ++ with_spaces (lines.text_poke_words (value.text_poke_value poke.now))) }
{
    push_fields(text, " TextPoke", &[(" addr=", poke.addr)])?;
    push_hex(text, " old_bytes=", poke.old_bytes.as_slice())?;
    push_hex(text, " new_bytes=", poke.new_bytes.as_slice())
}

fn push_aux_output_hw_id(text: &mut String, output: &AuxOutputHwId) -> Result<(), AllocError>
    ensures { OnOk result (string_bytes text.new
        ≡ string_bytes text.old ++ with_spaces (lines.aux_output_hw_id_words output.now)) }
{
    push_fields(text, " AuxOutputHwId", &[(" hw_id=", output.hw_id)])
}

fn push_unknown(text: &mut String, bytes: &[u8]) -> Result<(), AllocError>
    ensures { OnOk result (string_bytes text.new
        ≡ string_bytes text.old ++ with_spaces (lines.unknown_words bytes.now)) }
{
    push_hex(text, " Unknown data=", bytes)
}
