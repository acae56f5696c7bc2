//! The lines of records that are no samples.

ghost use Rattle.std.specs.Prelude.{◌≡◌, ◌++◌, ◌<◌, OnOk, List, ℕ, get_or};
ghost use Rattle.perf_base.specs.Dynamic.{order_of};
ghost use Rattle.perf_flat.specs.Arrays.{low_u32};
ghost use Rattle.perf_history.specs.Recorded.{IsHistory};
ghost use Rattle.perf_history.specs.declared.changes.Change.{Change};
ghost use Rattle.perf_words.specs.Bits.{has_bit};
ghost use Rattle.perf_script.specs.FlatLines as lines;
ghost use Rattle.perf_script.specs.Heads.{line_with};
ghost use Rattle.perf_script.specs.NamespaceText.{namespaces_text};
ghost use Rattle.perf_columns.specs.RecordText as records;

use crate::fields::Fields;
use crate::heads::{Head, is_chained, push_head};
use crate::namespaces::push_namespaces;
use perf_base::endian::Dynamic;
use perf_base::sys::{
    PERF_RECORD_BPF_EVENT, PERF_RECORD_CGROUP, PERF_RECORD_COMM, PERF_RECORD_EXIT,
    PERF_RECORD_FORK, PERF_RECORD_KSYMBOL, PERF_RECORD_LOST, PERF_RECORD_MMAP, PERF_RECORD_MMAP2,
    PERF_RECORD_NAMESPACES, PERF_RECORD_SWITCH, PERF_RECORD_SWITCH_CPU_WIDE,
};
use perf_columns::bits::has_bit;
use perf_columns::records::{
    push_bpf, push_build_id, push_cgroup, push_comm, push_inode, push_ksymbol, push_lost,
    push_path, push_range, push_rights, push_switch, push_switch_wide, push_task,
};
use perf_flat::frame::FlatFrame;
use perf_history::History;
use perf_walk::bytes_at;
use std::alloc::AllocError;

// A number of a frame.
fn number(frame: &FlatFrame, index: usize) -> u64
    requires { index < 24 }
    ensures { result ≡ get_or frame.now.numbers index 0 }
{
    frame.numbers[index]
}

// A number of a frame, of 32 bits.
fn short_number(frame: &FlatFrame, index: usize) -> u32
    requires { index < 24 }
    ensures { result ≡ low_u32 (get_or frame.now.numbers index 0) }
{
    (number(frame, index) % (1 << 32)) as u32
}

// A byte string of a frame.
fn string<'a>(bytes: &'a [u8], frame: &FlatFrame, index: usize) -> &'a [u8]
    requires { index < 8 }
    ensures { result.now ≡ lines.string_at bytes.now frame.now index }
{
    bytes_at(bytes, frame.spans[index])
}

// Whether a bit of the misc of a frame is set.
fn has_flag(frame: &FlatFrame, bit: u32) -> bool
    requires { bit < 16 }
    ensures { result ≡ has_bit frame.now.misc bit }
{
    has_bit(u64::from(frame.misc), bit)
}

// The thread whose name the line of a FORK has.
fn forked(tid: u32, ptid: u32) -> u32
    ensures { result ≡ records.forked tid ptid }
{
    if ptid == 0 { 0 } else { tid }
}

// The thread that the line of a frame names. None if it has no line.
pub(crate) fn named_in(frame: &FlatFrame) -> Option<u32>
    ensures { result ≡ lines.named_by frame.now.read frame.now.numbers frame.now.tid }
{
    match frame.read {
        PERF_RECORD_MMAP | PERF_RECORD_COMM | PERF_RECORD_MMAP2 | PERF_RECORD_NAMESPACES => {
            Some(short_number(frame, 1))
        }
        PERF_RECORD_EXIT => Some(short_number(frame, 2)),
        PERF_RECORD_FORK => Some(forked(short_number(frame, 2), short_number(frame, 3))),
        PERF_RECORD_LOST
        | PERF_RECORD_SWITCH
        | PERF_RECORD_SWITCH_CPU_WIDE
        | PERF_RECORD_KSYMBOL
        | PERF_RECORD_BPF_EVENT
        | PERF_RECORD_CGROUP => Some(frame.tid),
        _ => None,
    }
}

// Appends what was mapped.
fn push_range_in(text: &mut Vec<u8>, frame: &FlatFrame) -> Result<(), AllocError>
    ensures { OnOk result (text.new.items ≡ text.old.items ++ lines.range_by frame.now.numbers) }
{
    push_range(
        text,
        short_number(frame, 0),
        short_number(frame, 1),
        number(frame, 2),
        number(frame, 3),
        number(frame, 4),
    )
}

// Appends an MMAP.
fn push_mmap_in(text: &mut Vec<u8>, bytes: &[u8], frame: &FlatFrame) -> Result<(), AllocError>
    ensures { OnOk result (text.new.items ≡ text.old.items ++ lines.mmap_by
        frame.now.misc frame.now.numbers (lines.string_at bytes.now frame.now 0)) }
{
    let way: &[u8] = if has_flag(frame, 13) {
        b"]: r"
    } else {
        b"]: x"
    };
    text.extend_from_slice(b"MMAP")?;
    push_range_in(text, frame)?;
    text.extend_from_slice(way)?;
    push_path(text, string(bytes, frame, 0))
}

// Appends a COMM.
fn push_comm_in(text: &mut Vec<u8>, bytes: &[u8], frame: &FlatFrame) -> Result<(), AllocError>
    ensures { OnOk result (text.new.items ≡ text.old.items ++ records.comm_text
        (has_bit frame.now.misc 13) (lines.string_at bytes.now frame.now 0)
        (lines.short_number frame.now.numbers 0) (lines.short_number frame.now.numbers 1)) }
{
    push_comm(
        text,
        has_flag(frame, 13),
        string(bytes, frame, 0),
        short_number(frame, 0),
        short_number(frame, 1),
    )
}

// Appends an EXIT or a FORK, with its word.
fn push_task_in(text: &mut Vec<u8>, word: &[u8], frame: &FlatFrame) -> Result<(), AllocError>
    ensures { OnOk result (text.new.items ≡ text.old.items ++ (word.now ++ records.task_text
        (lines.short_number frame.now.numbers 0) (lines.short_number frame.now.numbers 2)
        (lines.short_number frame.now.numbers 1) (lines.short_number frame.now.numbers 3))) }
{
    push_task(
        text,
        word,
        short_number(frame, 0),
        short_number(frame, 2),
        short_number(frame, 1),
        short_number(frame, 3),
    )
}

// Appends which file was mapped.
fn push_identity_in(text: &mut Vec<u8>, bytes: &[u8], frame: &FlatFrame) -> Result<(), AllocError>
    ensures { OnOk result (text.new.items ≡ text.old.items ++ lines.identity_by
        frame.now.misc frame.now.numbers (lines.string_at bytes.now frame.now 1)) }
{
    if has_flag(frame, 14) {
        push_build_id(text, string(bytes, frame, 1))
    } else {
        push_inode(
            text,
            short_number(frame, 7),
            short_number(frame, 8),
            number(frame, 9),
            number(frame, 10),
        )
    }
}

// Appends what was mapped, and of which file.
fn push_mapped_in(text: &mut Vec<u8>, bytes: &[u8], frame: &FlatFrame) -> Result<(), AllocError>
    ensures { OnOk result (text.new.items ≡ text.old.items
        ++ (lines.range_by frame.now.numbers ++ lines.identity_by
        frame.now.misc frame.now.numbers (lines.string_at bytes.now frame.now 1))) }
{
    push_range_in(text, frame)?;
    push_identity_in(text, bytes, frame)
}

// Appends how the memory of an MMAP2 may be used, and its path.
fn push_use_in(text: &mut Vec<u8>, bytes: &[u8], frame: &FlatFrame) -> Result<(), AllocError>
    ensures { OnOk result (text.new.items ≡ text.old.items ++ records.use_text
        (lines.rights_by frame.now.numbers) (lines.string_at bytes.now frame.now 0)) }
{
    text.extend_from_slice(b"]: ")?;
    push_rights(text, short_number(frame, 5), short_number(frame, 6))?;
    push_path(text, string(bytes, frame, 0))
}

// Appends an MMAP2.
fn push_mmap2_in(text: &mut Vec<u8>, bytes: &[u8], frame: &FlatFrame) -> Result<(), AllocError>
    ensures { OnOk result (text.new.items ≡ text.old.items ++ lines.mmap2_by
        frame.now.misc frame.now.numbers (lines.string_at bytes.now frame.now 0)
        (lines.string_at bytes.now frame.now 1)) }
{
    text.extend_from_slice(b"MMAP2")?;
    push_mapped_in(text, bytes, frame)?;
    push_use_in(text, bytes, frame)
}

// Appends a NAMESPACES.
fn push_namespaces_in(
    text: &mut Vec<u8>,
    order: Dynamic,
    bytes: &[u8],
    frame: &FlatFrame,
) -> Result<(), AllocError>
    ensures { OnOk result (text.new.items ≡ text.old.items ++ namespaces_text
        (lines.short_number frame.now.numbers 0) (lines.short_number frame.now.numbers 1)
        (lines.namespaces_in (order_of order) (lines.string_at bytes.now frame.now 0))) }
{
    push_namespaces(
        text,
        short_number(frame, 0),
        short_number(frame, 1),
        order,
        string(bytes, frame, 0),
    )
}

// Appends a KSYMBOL.
fn push_ksymbol_in(text: &mut Vec<u8>, bytes: &[u8], frame: &FlatFrame) -> Result<(), AllocError>
    ensures { OnOk result (text.new.items ≡ text.old.items ++ records.ksymbol_text
        (lines.number frame.now.numbers 0) (lines.number frame.now.numbers 1)
        (lines.number frame.now.numbers 2) (lines.number frame.now.numbers 3)
        (lines.string_at bytes.now frame.now 0)) }
{
    push_ksymbol(
        text,
        number(frame, 0),
        number(frame, 1),
        number(frame, 2),
        number(frame, 3),
        string(bytes, frame, 0),
    )
}

// Appends the text of the record in a frame.
fn push_record_in(
    text: &mut Vec<u8>,
    order: Dynamic,
    bytes: &[u8],
    frame: &FlatFrame,
) -> Result<(), AllocError>
    ensures { OnOk result (text.new.items ≡ text.old.items
        ++ lines.record_in (order_of order) bytes.now frame.now) }
{
    match frame.read {
        PERF_RECORD_MMAP => push_mmap_in(text, bytes, frame),
        PERF_RECORD_LOST => push_lost(text, number(frame, 1)),
        PERF_RECORD_COMM => push_comm_in(text, bytes, frame),
        PERF_RECORD_EXIT => push_task_in(text, b"EXIT", frame),
        PERF_RECORD_FORK => push_task_in(text, b"FORK", frame),
        PERF_RECORD_MMAP2 => push_mmap2_in(text, bytes, frame),
        PERF_RECORD_SWITCH => push_switch(text, frame.misc),
        PERF_RECORD_SWITCH_CPU_WIDE => push_switch_wide(
            text,
            frame.misc,
            short_number(frame, 0),
            short_number(frame, 1),
        ),
        PERF_RECORD_NAMESPACES => push_namespaces_in(text, order, bytes, frame),
        PERF_RECORD_KSYMBOL => push_ksymbol_in(text, bytes, frame),
        PERF_RECORD_BPF_EVENT => push_bpf(
            text,
            number(frame, 0),
            number(frame, 1),
            number(frame, 2),
        ),
        PERF_RECORD_CGROUP => push_cgroup(text, number(frame, 0), string(bytes, frame, 0)),
        _ => Ok(()),
    }
}

// What the columns of the line of a frame are made of.
fn head_of(chosen: Fields, of_event: u64, named: u32, frame: &FlatFrame) -> Head
    ensures { result ≡ lines.head_by chosen of_event named frame.now }
{
    Head {
        chosen,
        fields: frame.present,
        chained: is_chained(chosen, of_event),
        named,
        pid: frame.pid,
        tid: frame.tid,
        cpu: frame.cpu,
        time: frame.time,
    }
}

// Appends the line of a frame that names a thread, of an event whose samples have these fields.
fn push_line(
    text: &mut Vec<u8>,
    history: &History<'_>,
    head: &Head,
    order: Dynamic,
    bytes: &[u8],
    frame: &FlatFrame,
) -> Result<(), AllocError>
    ensures { (changes : List Change) → IsHistory history.now changes →
        OnOk result (text.new.items ≡ text.old.items ++ line_with changes head.now
        (lines.record_in (order_of order) bytes.now frame.now)) }
{
    push_head(text, history, head)?;
    text.extend_from_slice(b"PERF_RECORD_")?;
    push_record_in(text, order, bytes, frame)
}

// Appends the line of a frame, if it has one, of an event whose samples have these fields.
pub(crate) fn push_side(
    text: &mut Vec<u8>,
    chosen: Fields,
    of_event: u64,
    history: &History<'_>,
    order: Dynamic,
    bytes: &[u8],
    frame: &FlatFrame,
) -> Result<(), AllocError>
    ensures { (changes : List Change) → IsHistory history.now changes →
        OnOk result (text.new.items ≡ text.old.items ++ lines.line_by chosen of_event changes
        (order_of order) bytes.now frame.now (lines.named_by frame.now.read frame.now.numbers frame.now.tid)) }
{
    match named_in(frame) {
        Some(named) => push_line(
            text,
            history,
            &head_of(chosen, of_event, named, frame),
            order,
            bytes,
            frame,
        ),
        None => Ok(()),
    }
}
