//! What is mapped at an address, as it is named.

ghost use Rattle.std.specs.Prelude.{◌≡◌, ◌++◌, OnOk};
ghost use Rattle.perf_columns.specs.Files as files;

use perf_history::{File, Mode, Place};
use perf_text::strip::Strip;
use std::alloc::AllocError;

// Appends the path of a file that lists the code which a process made.
fn push_perf_map(text: &mut Vec<u8>, pid: u32) -> Result<(), AllocError>
    ensures { OnOk result (text.new.items ≡ text.old.items ++ files.perf_map_path pid) }
{
    let mut strip = Strip::new();
    strip.put(".map");
    strip.put_number(u64::from(pid));
    strip.put("/tmp/perf-");
    text.extend_from_slice(strip.text().as_bytes())
}

// The name of what is mapped in the kernel under a path.
fn kernel_path(path: &[u8]) -> &[u8]
    ensures { result.now ≡ files.kernel_path path.now }
{
    if path.starts_with(b"[kernel.kallsyms") {
        b"[kernel.kallsyms]"
    } else {
        path
    }
}

// The name of what is mapped under a path.
fn path_name(mode: Mode, path: &[u8]) -> &[u8]
    ensures { result.now ≡ files.path_name mode path.now }
{
    match mode {
        Mode::Kernel => kernel_path(path),
        Mode::User | Mode::Other => path,
    }
}

// Appends the name of a file.
#[inline(always)]
fn push_file(text: &mut Vec<u8>, mode: Mode, file: File<'_>) -> Result<(), AllocError>
    ensures { OnOk result (text.new.items ≡ text.old.items ++ files.file_name mode file.entry) }
{
    match file {
        File::Named(path) => text.extend_from_slice(path_name(mode, path)),
        File::PerfMap(pid) => push_perf_map(text, pid),
        File::Symbol(name) => text.extend_from_slice(name),
    }
}

/// Appends the name of what is at an address.
#[inline(always)]
pub fn push_place(
    text: &mut Vec<u8>,
    mode: Mode,
    place: Option<Place<'_>>,
) -> Result<(), AllocError>
    ensures { OnOk result (text.new.items ≡ text.old.items ++ files.place_name mode place.entry) }
{
    match place {
        Some(place) => push_file(text, mode, place.file),
        None => text.extend_from_slice(b"[unknown]"),
    }
}

// Appends the same in brackets.
fn push_place_column(
    text: &mut Vec<u8>,
    mode: Mode,
    place: Option<Place<'_>>,
) -> Result<(), AllocError>
    ensures { OnOk result (text.new.items ≡ text.old.items ++ files.place_column mode place.entry) }
{
    text.extend_from_slice(b" (")?;
    push_place(text, mode, place)?;
    text.extend_from_slice(b")")
}

/// Appends the same, if it is chosen.
pub fn push_place_column_if(
    text: &mut Vec<u8>,
    chosen: bool,
    mode: Mode,
    place: Option<Place<'_>>,
) -> Result<(), AllocError>
    ensures { OnOk result (text.new.items ≡ text.old.items
        ++ files.place_column_if chosen mode place.entry) }
{
    if chosen {
        push_place_column(text, mode, place)
    } else {
        Ok(())
    }
}

/// The address that a chain shows.
pub fn shown_address(mode: Mode, address: u64, place: Option<Place<'_>>) -> u64
    ensures { result ≡ files.shown_address mode address place.entry }
{
    match (mode, place) {
        (Mode::Kernel, _) | (_, None) => address,
        (_, Some(place)) => place.offset,
    }
}
