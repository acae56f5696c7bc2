//! The text of a NAMESPACES record, after the columns of its line and `PERF_RECORD_`.

ghost use Rattle.std.specs.Prelude.{◌≡◌, ◌++◌, ◌≤◌, OnOk, length};
ghost use Rattle.perf_base.specs.Dynamic.{order_of};
ghost use Rattle.perf_script.specs.FlatLines.{namespaces_in};
ghost use Rattle.perf_script.specs.NamespaceText as spaces;

use crate::readings::{bytes_after, first_number};
use perf_base::endian::Dynamic;
use perf_columns::columns::put_hex_number;
use perf_columns::records::put_pair;
use perf_text::strip::Strip;
use std::alloc::AllocError;

// The name of a kind of namespace, by its index in the list.
fn kind_name(index: usize) -> &'static str
    ensures name { result.now ≡ spaces.kind_name index }
    ensures short { length result.now ≤ 7 }
{
    match index {
        0 => "net",
        1 => "uts",
        2 => "ipc",
        3 => "pid",
        4 => "user",
        5 => "mnt",
        6 => "cgroup",
        _ => "UNKNOWN",
    }
}

// What is before a namespace.
fn gap_before(index: usize) -> &'static [u8]
    ensures { result.now ≡ spaces.gap_before index }
{
    if index == 0 {
        b""
    } else if index % 4 == 0 {
        b", \n\t\t "
    } else {
        b", "
    }
}

// The end of a list of so many.
fn list_end(count: usize) -> &'static [u8]
    ensures { result.now ≡ spaces.list_end count }
{
    if count == 0 { b"" } else { b"]\n" }
}

// Appends a namespace.
fn push_namespace(
    text: &mut Vec<u8>,
    index: usize,
    device: u64,
    inode: u64,
) -> Result<(), AllocError>
    ensures { OnOk result (text.new.items ≡ text.old.items
        ++ spaces.namespace_text index device inode) }
{
    let mut strip = Strip::new();
    put_hex_number(&mut strip, inode);
    strip.put("/");
    strip.put_number(device);
    strip.put(": ");
    strip.put(kind_name(index));
    strip.put("/");
    strip.put_number(index as u64);
    text.extend_from_slice(strip.text().as_bytes())
}

// Appends the namespaces in bytes.
fn push_list(text: &mut Vec<u8>, order: Dynamic, bytes: &[u8]) -> Result<(), AllocError>
    ensures { OnOk result (text.new.items ≡ text.old.items
        ++ spaces.namespaces_from 0 (namespaces_in (order_of order) bytes.now)) }
{
    let mut left = bytes;
    let mut index = 0;
    while left.len() >= 16 {
        text.extend_from_slice(gap_before(index))?;
        push_namespace(
            text,
            index,
            first_number(order, left),
            first_number(order, bytes_after(left, 8)),
        )?;
        left = bytes_after(left, 16);
        index += 1;
    }
    Ok(())
}

// Appends a task that has so many namespaces, and the beginning of their list.
fn push_task(text: &mut Vec<u8>, pid: u32, tid: u32, count: usize) -> Result<(), AllocError>
    ensures { OnOk result (text.new.items ≡ text.old.items ++ spaces.task_text pid tid count) }
{
    let mut strip = Strip::new();
    strip.put("\n\t\t[");
    strip.put_number(count as u64);
    strip.put(" - nr_namespaces: ");
    put_pair(&mut strip, "/", pid, tid);
    strip.put("NAMESPACES ");
    text.extend_from_slice(strip.text().as_bytes())
}

// Appends a NAMESPACES, by the bytes of its list.
pub(crate) fn push_namespaces(
    text: &mut Vec<u8>,
    pid: u32,
    tid: u32,
    order: Dynamic,
    bytes: &[u8],
) -> Result<(), AllocError>
    ensures { OnOk result (text.new.items ≡ text.old.items
        ++ spaces.namespaces_text pid tid (namespaces_in (order_of order) bytes.now)) }
{
    let count = bytes.len() / 16;
    push_task(text, pid, tid, count)?;
    push_list(text, order, bytes)?;
    text.extend_from_slice(list_end(count))
}
