//! The names of threads.

ghost use Rattle.std.specs.Prelude.{◌≡◌, ◌++◌, OnOk};
ghost use Rattle.perf_columns.specs.Columns.{right};
ghost use Rattle.perf_columns.specs.Threads as threads;

use crate::columns::{push_right, put_signed};
use perf_history::Name;
use perf_text::strip::Strip;
use std::alloc::AllocError;

// Appends the name of a thread without one, in a column of a width.
fn push_number(text: &mut Vec<u8>, width: usize, tid: u32) -> Result<(), AllocError>
    ensures { OnOk result (text.new.items ≡ text.old.items
        ++ right width (threads.number_name tid)) }
{
    let mut strip = Strip::new();
    put_signed(&mut strip, tid);
    strip.put(":");
    push_right(text, width, strip.text().as_bytes())
}

// Appends the name of a thread in a column of a width.
fn push_name(text: &mut Vec<u8>, width: usize, name: Name<'_>) -> Result<(), AllocError>
    ensures { OnOk result (text.new.items ≡ text.old.items
        ++ right width (threads.thread_name name.entry)) }
{
    match name {
        Name::Given(name) => push_right(text, width, name),
        Name::Number(tid) => push_number(text, width, tid),
        Name::Swapper => push_right(text, width, b"swapper"),
    }
}

// How wide the column of names is.
fn name_width(chained: bool) -> usize
    ensures { result ≡ threads.name_width chained }
{
    if chained { 0 } else { 16 }
}

/// Appends the column of a thread's name.
pub fn push_name_column(text: &mut Vec<u8>, chained: bool, name: Name<'_>) -> Result<(), AllocError>
    ensures { OnOk result (text.new.items ≡ text.old.items
        ++ threads.name_column chained name.entry) }
{
    push_name(text, name_width(chained), name)?;
    text.extend_from_slice(b" ")
}
