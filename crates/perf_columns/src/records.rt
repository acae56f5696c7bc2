//! The text of records that are no samples, after the columns of their lines and `PERF_RECORD_`.

ghost use Rattle.std.specs.Prelude.{◌≡◌, ◌+◌, ◌<◌, ◌≤◌, ◌++◌, OnOk, decimal, false, length};
ghost use Rattle.std.specs.Fmt.{digits};
ghost use Rattle.std.specs.List.{flat_map};
ghost use Rattle.perf_text.specs.Numbers.{hex_byte};
ghost use Rattle.perf_text.specs.Strips.{strip_text, room_of};
ghost use Rattle.perf_columns.specs.RecordText as records;

use crate::bits::has_bit;
use crate::columns::{push_pair, push_zeros, put_hex_number, put_signed};
use perf_text::strip::Strip;
use std::alloc::AllocError;

/// Writes two numbers with a mark between them before the text.
pub fn put_pair(strip: &mut Strip, mark: &str, first: u32, second: u32)
    requires mark { length mark.now ≤ 1 }
    requires room { 43 ≤ room_of strip.old }
    ensures text { strip_text strip.new
        ≡ records.pair mark.now first second ++ strip_text strip.old }
    ensures room { room_of strip.old ≤ room_of strip.new + 43 }
{
    put_signed(strip, second);
    strip.put(mark);
    put_signed(strip, first);
}

// Appends a thread at the end of a line.
fn push_thread(text: &mut Vec<u8>, pid: u32, tid: u32) -> Result<(), AllocError>
    ensures { OnOk result (text.new.items ≡ text.old.items ++ records.thread_text pid tid) }
{
    let mut strip = Strip::new();
    strip.put("\n");
    put_pair(&mut strip, "/", pid, tid);
    strip.put(":");
    text.extend_from_slice(strip.text().as_bytes())
}

/// Appends a COMM.
pub fn push_comm(
    text: &mut Vec<u8>,
    exec: bool,
    name: &[u8],
    pid: u32,
    tid: u32,
) -> Result<(), AllocError>
    ensures { OnOk result (text.new.items ≡ text.old.items
        ++ records.comm_text exec name.now pid tid) }
{
    let front: &[u8] = if exec { b"COMM exec: " } else { b"COMM: " };
    text.extend_from_slice(front)?;
    text.extend_from_slice(name)?;
    push_thread(text, pid, tid)
}

/// Appends a word, a thread and its parent.
pub fn push_task(
    text: &mut Vec<u8>,
    word: &[u8],
    pid: u32,
    tid: u32,
    ppid: u32,
    ptid: u32,
) -> Result<(), AllocError>
    ensures { OnOk result (text.new.items ≡ text.old.items
        ++ (word.now ++ records.task_text pid tid ppid ptid)) }
{
    let mut strip = Strip::new();
    strip.put(")\n");
    put_pair(&mut strip, ":", ppid, ptid);
    strip.put("):(");
    put_pair(&mut strip, ":", pid, tid);
    strip.put("(");
    text.extend_from_slice(word)?;
    text.extend_from_slice(strip.text().as_bytes())
}

/// Appends what was mapped by a thread, where, and from which offset on.
pub fn push_range(
    text: &mut Vec<u8>,
    pid: u32,
    tid: u32,
    start: u64,
    len: u64,
    offset: u64,
) -> Result<(), AllocError>
    ensures { OnOk result (text.new.items ≡ text.old.items
        ++ records.range_text pid tid start len offset) }
{
    let mut strip = Strip::new();
    put_hex_number(&mut strip, offset);
    strip.put(") @ ");
    put_hex_number(&mut strip, len);
    strip.put("(");
    put_hex_number(&mut strip, start);
    strip.put(": [");
    put_pair(&mut strip, "/", pid, tid);
    strip.put(" ");
    text.extend_from_slice(strip.text().as_bytes())
}

/// Appends a path at the end of a line.
pub fn push_path(text: &mut Vec<u8>, path: &[u8]) -> Result<(), AllocError>
    ensures { OnOk result (text.new.items ≡ text.old.items ++ records.path_text path.now) }
{
    text.extend_from_slice(b" ")?;
    text.extend_from_slice(path)?;
    text.extend_from_slice(b"\n")
}

// Appends a number in two hexadecimal digits or more.
fn push_device(text: &mut Vec<u8>, number: u32) -> Result<(), AllocError>
    ensures { OnOk result (text.new.items ≡ text.old.items ++ records.device_text number) }
{
    let mut strip = Strip::new();
    strip.put_hex(u64::from(number));
    push_zeros(text, 2, &strip.text().as_bytes()[2..])
}

/// Appends the inode of a file.
pub fn push_inode(
    text: &mut Vec<u8>,
    major: u32,
    minor: u32,
    number: u64,
    generation: u64,
) -> Result<(), AllocError>
    ensures { OnOk result (text.new.items ≡ text.old.items
        ++ records.inode_text major minor number generation) }
{
    let mut strip = Strip::new();
    strip.put_number(generation);
    strip.put(" ");
    strip.put_number(number);
    strip.put(" ");
    text.extend_from_slice(b" ")?;
    push_device(text, major)?;
    text.extend_from_slice(b":")?;
    push_device(text, minor)?;
    text.extend_from_slice(strip.text().as_bytes())
}

// Appends a byte in two hexadecimal digits.
fn push_hex_byte(text: &mut Vec<u8>, byte: u8) -> Result<(), AllocError>
    ensures { OnOk result (text.new.items ≡ text.old.items ++ hex_byte byte) }
{
    let mut strip = Strip::new();
    strip.put_hex_byte(byte);
    text.extend_from_slice(strip.text().as_bytes())
}

// Appends bytes, each in two hexadecimal digits.
fn push_hex_bytes(text: &mut Vec<u8>, bytes: &[u8]) -> Result<(), AllocError>
    ensures { OnOk result (text.new.items ≡ text.old.items ++ flat_map hex_byte bytes.now) }
{
    for byte in bytes {
        push_hex_byte(text, *byte)?;
    }
    Ok(())
}

/// Appends the build id of a file.
pub fn push_build_id(text: &mut Vec<u8>, id: &[u8]) -> Result<(), AllocError>
    ensures { OnOk result (text.new.items ≡ text.old.items ++ records.build_id_text id.now) }
{
    text.extend_from_slice(b" <")?;
    push_hex_bytes(text, id)?;
    text.extend_from_slice(b">")
}

/// Appends how memory may be used.
pub fn push_rights(text: &mut Vec<u8>, prot: u32, flags: u32) -> Result<(), AllocError>
    ensures { OnOk result (text.new.items ≡ text.old.items ++ records.rights_text prot flags) }
{
    let (prot, flags) = (u64::from(prot), u64::from(flags));
    text.extend_from_slice(if has_bit(prot, 0) { b"r" } else { b"-" })?;
    text.extend_from_slice(if has_bit(prot, 1) { b"w" } else { b"-" })?;
    text.extend_from_slice(if has_bit(prot, 2) { b"x" } else { b"-" })?;
    text.extend_from_slice(if has_bit(flags, 0) { b"s" } else { b"p" })
}

/// Appends a LOST.
pub fn push_lost(text: &mut Vec<u8>, lost: u64) -> Result<(), AllocError>
    ensures { OnOk result (text.new.items ≡ text.old.items ++ records.lost_text lost) }
{
    let mut strip = Strip::new();
    strip.put("\n");
    strip.put_number(lost);
    strip.put("LOST lost ");
    text.extend_from_slice(strip.text().as_bytes())
}

// Where a switch went.
fn direction(misc: u16) -> &'static [u8]
    ensures { result.now ≡ records.direction misc }
{
    let misc = u64::from(misc);
    if !has_bit(misc, 13) {
        b"IN         "
    } else if has_bit(misc, 14) {
        b"OUT preempt"
    } else {
        b"OUT        "
    }
}

/// Appends a SWITCH.
pub fn push_switch(text: &mut Vec<u8>, misc: u16) -> Result<(), AllocError>
    ensures { OnOk result (text.new.items ≡ text.old.items ++ records.switch_text misc) }
{
    text.extend_from_slice(b"SWITCH ")?;
    text.extend_from_slice(direction(misc))?;
    text.extend_from_slice(b"\n")
}

// What the other task of a switch is.
fn other(misc: u16) -> &'static [u8]
    ensures { result.now ≡ records.other_text misc }
{
    if has_bit(u64::from(misc), 13) {
        b"  next pid/tid: "
    } else {
        b"  prev pid/tid: "
    }
}

/// Appends a SWITCH_CPU_WIDE.
pub fn push_switch_wide(text: &mut Vec<u8>, misc: u16, pid: u32, tid: u32) -> Result<(), AllocError>
    ensures { OnOk result (text.new.items ≡ text.old.items
        ++ records.switch_wide_text misc pid tid) }
{
    text.extend_from_slice(b"SWITCH_CPU_WIDE ")?;
    text.extend_from_slice(direction(misc))?;
    text.extend_from_slice(other(misc))?;
    push_pair(text, pid, tid)?;
    text.extend_from_slice(b"\n")
}

// Appends a number in hexadecimal.
fn push_hex(text: &mut Vec<u8>, number: u64) -> Result<(), AllocError>
    ensures { OnOk result (text.new.items ≡ text.old.items ++ digits 16 false number) }
{
    let mut strip = Strip::new();
    strip.put_hex(number);
    text.extend_from_slice(&strip.text().as_bytes()[2..])
}

// Appends where a symbol is, how long it is, of which type, and its flags.
fn push_symbol_numbers(
    text: &mut Vec<u8>,
    start: u64,
    len: u64,
    ty: u64,
    flags: u64,
) -> Result<(), AllocError>
    ensures { OnOk result (text.new.items ≡ text.old.items
        ++ records.symbol_numbers start len ty flags) }
{
    let mut strip = Strip::new();
    strip.put_hex(flags);
    strip.put(" flags ");
    strip.put_number(ty);
    strip.put(" type ");
    strip.put_number(len);
    strip.put(" len ");
    text.extend_from_slice(b"KSYMBOL addr ")?;
    push_hex(text, start)?;
    text.extend_from_slice(strip.text().as_bytes())
}

/// Appends a KSYMBOL.
pub fn push_ksymbol(
    text: &mut Vec<u8>,
    start: u64,
    len: u64,
    ty: u64,
    flags: u64,
    name: &[u8],
) -> Result<(), AllocError>
    ensures { OnOk result (text.new.items ≡ text.old.items
        ++ records.ksymbol_text start len ty flags name.now) }
{
    push_symbol_numbers(text, start, len, ty, flags)?;
    text.extend_from_slice(b" name ")?;
    text.extend_from_slice(name)?;
    text.extend_from_slice(b"\n")
}

// Appends a number.
fn push_decimal(text: &mut Vec<u8>, number: u64) -> Result<(), AllocError>
    ensures { OnOk result (text.new.items ≡ text.old.items ++ decimal number) }
{
    let mut strip = Strip::new();
    strip.put_number(number);
    text.extend_from_slice(strip.text().as_bytes())
}

// Appends the flags of a BPF_EVENT, and which program it is.
fn push_program(text: &mut Vec<u8>, flags: u64, id: u64) -> Result<(), AllocError>
    ensures { OnOk result (text.new.items ≡ text.old.items ++ records.program_text flags id) }
{
    let mut strip = Strip::new();
    strip.put("\n");
    strip.put_number(id);
    strip.put(", id ");
    strip.put_number(flags);
    strip.put(", flags ");
    text.extend_from_slice(strip.text().as_bytes())
}

/// Appends a BPF_EVENT.
pub fn push_bpf(text: &mut Vec<u8>, ty: u64, flags: u64, id: u64) -> Result<(), AllocError>
    ensures { OnOk result (text.new.items ≡ text.old.items ++ records.bpf_text ty flags id) }
{
    text.extend_from_slice(b"BPF_EVENT type ")?;
    push_decimal(text, ty)?;
    push_program(text, flags, id)
}

/// Appends a CGROUP.
pub fn push_cgroup(text: &mut Vec<u8>, id: u64, path: &[u8]) -> Result<(), AllocError>
    ensures { OnOk result (text.new.items ≡ text.old.items ++ records.cgroup_text id path.now) }
{
    text.extend_from_slice(b"CGROUP cgroup: ")?;
    push_decimal(text, id)?;
    push_path(text, path)
}
