//! The line of a record about a task.

ghost use Rattle.std.specs.Prelude.{◌≡◌, ◌+◌, ◌≤◌, ◌++◌, length, option_map, unwrap_or, is_some};
ghost use Rattle.std.specs.Prelude.{string_bytes, Some, None, codes, IfOk, IfSome, IsOk, OnOk, []};
ghost use Rattle.std.specs.List.{flat_map, join_by};
ghost use Rattle.perf_records.specs.Records as values;
ghost use Rattle.perf_text.specs.Strips.{strip_text, room_of};
ghost use Rattle.perf_reports.specs.TaskLines as printed;

use crate::names::push_name;
use perf_records::record::Record;
use perf_text::hex_bytes::push_hex_bytes;
use perf_text::strip::Strip;
use perf_types::{Comm, Exit, Mmap, Mmap2, NamespaceEntry, Namespaces};
use std::alloc::{AllocError, Global};

// `PROT_READ` of mmap(2)
const READ: u32 = 1;

// `PROT_WRITE`
const WRITE: u32 = 2;

// `PROT_EXEC`
const EXECUTE: u32 = 4;

// `MAP_SHARED`
const SHARED: u32 = 1;

/// The line of a record about a task, without a line feed. Other records have no line, and need no
/// memory.
///
/// No name can add a line of its own, or reach a terminal as a command: in a name each byte that is
/// a control character, a backslash or not part of UTF-8 becomes `\x` and two hexadecimal digits.
pub fn line_of(alloc: Global, found: &Record) -> Result<Option<String>, AllocError>
    ensures line { IfOk result (λ line.
        option_map string_bytes line ≡ printed.task_line_of (values.record_value found.now)) }
    ensures no_memory { printed.task_line_of (values.record_value found.now) ≡ None → IsOk result }
    ensures no_control { IfOk result (λ line.
        IfSome line (λ text. printed.HasNoControl (string_bytes text))) }
{
    let mut line = String::new(alloc);
    if push_line(&mut line, found)? {
        Ok(Some(line))
    } else {
        Ok(None)
    }
}

// Appends the line of a record about a task, and returns whether it is one.
pub(crate) fn push_line(text: &mut String, found: &Record) -> Result<bool, AllocError>
    ensures line { OnOk result (string_bytes text.new
        ≡ string_bytes text.old ++ unwrap_or (printed.task_line_of (values.record_value found.now)) []) }
    ensures told { IfOk result (λ told.
        told ≡ is_some (printed.task_line_of (values.record_value found.now))) }
    ensures no_memory { printed.task_line_of (values.record_value found.now) ≡ None → IsOk result }
{
    let pushed = match found {
        Record::Comm(comm) => push_comm(text, comm),
        Record::Mmap(map) => push_mmap(text, map),
        Record::Mmap2(map) => push_mmap2(text, map),
        Record::Fork(fork) => push_task(text, "fork", fork),
        Record::Exit(exit) => push_task(text, "exit", exit),
        Record::Namespaces(namespaces) => push_namespaces(text, namespaces),
        _ => return Ok(false),
    };
    pushed?;
    Ok(true)
}

fn push_comm(text: &mut String, comm: &Comm) -> Result<(), AllocError>
    ensures { OnOk result (string_bytes text.new
        ≡ string_bytes text.old ++ printed.comm_line (values.comm_value comm.now)) }
{
    let mut strip = Strip::new();
    put_head(&mut strip, "comm", comm.pid, comm.tid);
    text.push_str(strip.text())?;
    push_name(text, comm.comm.as_slice())
}

fn push_mmap(text: &mut String, map: &Mmap) -> Result<(), AllocError>
    ensures { OnOk result (string_bytes text.new
        ≡ string_bytes text.old ++ printed.mmap_line (values.mmap_value map.now)) }
{
    let mut strip = Strip::new();
    strip.put(" ");
    put_place(&mut strip, map.addr, map.len, map.pgoff);
    put_head(&mut strip, "mmap", map.pid, map.tid);
    text.push_str(strip.text())?;
    push_name(text, map.filename.as_slice())
}

fn push_mmap2(text: &mut String, map: &Mmap2) -> Result<(), AllocError>
    ensures { OnOk result (string_bytes text.new
        ≡ string_bytes text.old ++ printed.mmap2_line (values.mmap2_value map.now)) }
{
    let mut strip = Strip::new();
    strip.put(" ");
    put_place(&mut strip, map.addr, map.len, map.pgoff);
    put_head(&mut strip, "mmap2", map.pid, map.tid);
    text.push_str(strip.text())?;
    push_file(text, &mut strip, map)?;
    push_protection(text, &mut strip, map.prot, map.flags)?;
    push_name(text, map.filename.as_slice())
}

// The start or the end of a task, and the task that made it or its parent.
fn push_task(text: &mut String, what: &str, task: &Exit) -> Result<(), AllocError>
    requires { length what.now ≤ 16 }
    ensures { OnOk result (string_bytes text.new
        ≡ string_bytes text.old ++ printed.task_line what.now task.now) }
{
    let mut strip = Strip::new();
    strip.put_number(u64::from(task.ptid));
    strip.put(" ");
    strip.put_number(u64::from(task.ppid));
    put_head(&mut strip, what, task.pid, task.tid);
    text.push_str(strip.text())
}

fn push_namespaces(text: &mut String, namespaces: &Namespaces) -> Result<(), AllocError>
    ensures { OnOk result (string_bytes text.new
        ≡ string_bytes text.old
        ++ printed.namespaces_line (values.namespaces_value namespaces.now)) }
{
    let mut strip = Strip::new();
    put_head(&mut strip, "namespaces", namespaces.pid, namespaces.tid);
    text.push_str(strip.text())?;
    push_namespace_list(text, &mut strip, namespaces.namespaces.as_slice())
}

// Writes the kind of the line and the task before the rest of the line.
fn put_head(strip: &mut Strip, what: &str, pid: u32, tid: u32)
    requires { (length what.now ≤ 16) × (59 ≤ room_of strip.old) }
    ensures text { strip_text strip.new ≡ printed.line_about what.now pid tid (strip_text strip.old) }
    ensures room { room_of strip.old ≤ room_of strip.new + 59 }
{
    strip.put(" ");
    strip.put_number(u64::from(tid));
    strip.put(" ");
    strip.put_number(u64::from(pid));
    strip.put(" ");
    strip.put(what);
}

// Writes the address of a mapping, its length, and its offset in the file.
fn put_place(strip: &mut Strip, addr: u64, len: u64, pgoff: u64)
    requires { 56 ≤ room_of strip.old }
    ensures text { strip_text strip.new ≡ printed.place_words addr len pgoff ++ strip_text strip.old }
    ensures room { room_of strip.old ≤ room_of strip.new + 56 }
{
    strip.put_hex(pgoff);
    strip.put(" ");
    strip.put_hex(len);
    strip.put(" ");
    strip.put_hex(addr);
}

// Appends the file of a mapping: its inode, or the digits of its build id.
fn push_file(text: &mut String, strip: &mut Strip, map: &Mmap2) -> Result<(), AllocError>
    ensures { OnOk result (string_bytes text.new
        ≡ string_bytes text.old ++ printed.file (values.mmap2_value map.now).detail) }
{
    if let (Some(maj), Some(min), Some(ino), Some(generation)) = (
        map.maj(),
        map.min(),
        map.ino(),
        map.ino_generation(),
    ) {
        strip.clear();
        put_inode(strip, maj, min, ino, generation);
        return text.push_str(strip.text());
    }
    push_hex_bytes(text, map.build_id().unwrap_or_default())
}

// Writes a file by its device, its inode and its generation.
fn put_inode(strip: &mut Strip, maj: u32, min: u32, ino: u64, generation: u64)
    requires { 79 ≤ room_of strip.old }
    ensures text { strip_text strip.new
        ≡ printed.inode_words maj min ino generation ++ strip_text strip.old }
    ensures room { room_of strip.old ≤ room_of strip.new + 79 }
{
    strip.put_number(generation);
    strip.put(" ");
    strip.put_number(ino);
    strip.put(" ");
    strip.put_hex(u64::from(min));
    strip.put(":");
    strip.put_hex(u64::from(maj));
}

// Appends how mapped memory may be used, with a space on either side.
fn push_protection(
    text: &mut String,
    strip: &mut Strip,
    prot: u32,
    flags: u32,
) -> Result<(), AllocError>
    ensures { OnOk result (string_bytes text.new
        ≡ string_bytes text.old ++ (codes " " ++ (printed.protection prot flags ++ codes " "))) }
{
    strip.clear();
    strip.put(" ");
    put_protection(strip, prot, flags);
    strip.put(" ");
    text.push_str(strip.text())
}

// Writes how mapped memory may be used: readable, writable, executable, and shared or private.
fn put_protection(strip: &mut Strip, prot: u32, flags: u32)
    requires { 4 ≤ room_of strip.old }
    ensures text { strip_text strip.new ≡ printed.protection prot flags ++ strip_text strip.old }
    ensures room { room_of strip.new + 4 ≡ room_of strip.old }
{
    put_letter(strip, flags, SHARED, "s", "p");
    put_letter(strip, prot, EXECUTE, "x", "-");
    put_letter(strip, prot, WRITE, "w", "-");
    put_letter(strip, prot, READ, "r", "-");
}

// Writes one letter if a bit is set in a word, and another if it is not.
fn put_letter(strip: &mut Strip, word: u32, bit: u32, set: &str, unset: &str)
    requires { ((length set.now ≡ 1) × (length unset.now ≡ 1)) × (1 ≤ room_of strip.old) }
    ensures text { strip_text strip.new
        ≡ printed.letter word bit set.now unset.now ++ strip_text strip.old }
    ensures room { room_of strip.new + 1 ≡ room_of strip.old }
{
    let letter = if word & bit == 0 { unset } else { set };
    strip.put(letter);
}

// Appends namespaces, separated by commas.
fn push_namespace_list(
    text: &mut String,
    strip: &mut Strip,
    namespaces: &[NamespaceEntry],
) -> Result<(), AllocError>
    ensures { OnOk result (string_bytes text.new
        ≡ string_bytes text.old ++ join_by printed.namespace (codes ",") namespaces.now) }
{
    let Some((first, others)) = namespaces.split_first() else {
        return Ok(());
    };
    push_namespace(text, strip, "", first)?;
    push_others(text, strip, others)
}

// Appends the namespaces after the first, each after a comma.
fn push_others(
    text: &mut String,
    strip: &mut Strip,
    others: &[NamespaceEntry],
) -> Result<(), AllocError>
    ensures { OnOk result (string_bytes text.new ≡ string_bytes text.old
        ++ flat_map (λ entry. codes "," ++ printed.namespace entry) others.now) }
{
    for entry in others {
        push_namespace(text, strip, ",", entry)?;
    }
    Ok(())
}

// Appends `before` and a namespace: the device and the inode of its file.
fn push_namespace(
    text: &mut String,
    strip: &mut Strip,
    before: &str,
    entry: &NamespaceEntry,
) -> Result<(), AllocError>
    requires { length before.now ≤ 1 }
    ensures { OnOk result (string_bytes text.new
        ≡ string_bytes text.old ++ (before.now ++ printed.namespace entry.now)) }
{
    strip.clear();
    strip.put_hex(entry.inode);
    strip.put(":");
    strip.put_number(entry.dev);
    strip.put(before);
    text.push_str(strip.text())
}
