//! The names of threads and of frames.

ghost use Rattle.std.specs.Prelude.{◌≡◌, ◌++◌, ◌≤◌, OnOk, length};
ghost use Rattle.perf_flame.specs.Names as names;

use perf_history::{File, Name};
use perf_text::strip::Strip;
use std::alloc::AllocError;

/// What the frames of a program are named by. Those of the kernel are named by their addresses.
#[derive(Clone, Copy, Debug, PartialEq, Eq)]
pub enum Frames {
    /// The file that contains the code, and the offset in it.
    Offsets,
    /// That file alone.
    Files,
}

// Appends the name of a thread.
pub(crate) fn push_thread(text: &mut Vec<u8>, name: Name<'_>) -> Result<(), AllocError>
    ensures { OnOk result (text.new.items ≡ text.old.items ++ names.thread_name name.entry) }
{
    match name {
        Name::Given(name) => text.extend_from_slice(name),
        Name::Number(tid) => push_number(text, tid),
        Name::Swapper => text.extend_from_slice(b"swapper"),
    }
}

// Appends a colon and a number.
fn push_number(text: &mut Vec<u8>, number: u32) -> Result<(), AllocError>
    ensures { OnOk result (text.new.items ≡ text.old.items ++ names.number_name number) }
{
    let mut strip = Strip::new();
    strip.put_number(u64::from(number));
    strip.put(":");
    text.extend_from_slice(strip.text().as_bytes())
}

// The last part of a path.
fn last_part(path: &[u8]) -> &[u8]
    ensures { result.now ≡ names.last_part path.now }
{
    let start = last_at(path);
    &path[start..]
}

// Where the last part of a path begins: after its last slash, or at 0 if it has none.
fn last_at(path: &[u8]) -> usize
    ensures within { result ≤ length path.now }
    ensures at { result ≡ names.last_at path.now }
{
    let mut at = path.len();
    while at > 0 && path[at - 1] != b'/' {
        at -= 1;
    }
    at
}

// Appends the name of a file that lists the code which a process made.
fn push_perf_map(text: &mut Vec<u8>, pid: u32) -> Result<(), AllocError>
    ensures { OnOk result (text.new.items ≡ text.old.items ++ names.perf_map_name pid) }
{
    let mut strip = Strip::new();
    strip.put(".map");
    strip.put_number(u64::from(pid));
    strip.put("perf-");
    text.extend_from_slice(strip.text().as_bytes())
}

// Appends the name of a file.
pub(crate) fn push_file(text: &mut Vec<u8>, file: File<'_>) -> Result<(), AllocError>
    ensures { OnOk result (text.new.items ≡ text.old.items ++ names.file_name file.entry) }
{
    match file {
        File::Named(path) => text.extend_from_slice(last_part(path)),
        File::PerfMap(pid) => push_perf_map(text, pid),
        File::Symbol(name) => text.extend_from_slice(name),
    }
}

// Appends a plus and an offset.
pub(crate) fn push_offset(text: &mut Vec<u8>, offset: u64) -> Result<(), AllocError>
    ensures { OnOk result (text.new.items ≡ text.old.items ++ names.offset_text offset) }
{
    let mut strip = Strip::new();
    strip.put_hex(offset);
    strip.put("+");
    text.extend_from_slice(strip.text().as_bytes())
}

// Appends the name of an address of the kernel.
pub(crate) fn push_kernel(text: &mut Vec<u8>, address: u64) -> Result<(), AllocError>
    ensures { OnOk result (text.new.items ≡ text.old.items ++ names.kernel_name address) }
{
    let mut strip = Strip::new();
    strip.put("_[k]");
    strip.put_hex(address);
    text.extend_from_slice(strip.text().as_bytes())
}
