//! The columns at the front of a line.

ghost use Rattle.std.specs.Prelude.{◌≡◌, ◌++◌, OnOk, List, ℕ};
ghost use Rattle.perf_history.specs.Recorded.{IsHistory};
ghost use Rattle.perf_history.specs.declared.changes.Change.{Change};
ghost use Rattle.perf_script.specs.Heads as heads;

use crate::fields::Fields;
use perf_columns::bits::has_bit;
use perf_columns::columns::{push_cpu, push_task, push_time};
use perf_columns::threads::push_name_column;
use perf_history::History;
use std::alloc::AllocError;

/// What the columns at the front of a line are made of.
#[derive(Clone, Copy, Debug)]
pub struct Head {
    /// Which fields are chosen.
    pub chosen: Fields,
    /// Which fields there are, `PERF_SAMPLE_*`.
    pub fields: u64,
    /// Whether the lines of a chain follow samples of its event.
    pub chained: bool,
    /// The thread whose name is shown.
    pub named: u32,
    /// The process.
    pub pid: u32,
    /// The thread.
    pub tid: u32,
    /// The processor.
    pub cpu: u32,
    /// The time.
    pub time: u64,
}

// The flags of the fields that are shown.
const IP: u32 = 0;

const TID: u32 = 1;

const TIME: u32 = 2;

const CALLCHAIN: u32 = 5;

const CPU: u32 = 7;

// Whether lines of a chain follow a sample with these fields.
pub(crate) fn is_chained(chosen: Fields, fields: u64) -> bool
    ensures { result ≡ heads.is_chained chosen fields }
{
    chosen.ip && has_bit(fields, IP) && has_bit(fields, CALLCHAIN)
}

// Appends the name of the thread, if it is chosen.
fn push_comm_if(text: &mut Vec<u8>, history: &History<'_>, head: &Head) -> Result<(), AllocError>
    ensures { (changes : List Change) → IsHistory history.now changes →
        OnOk result (text.new.items ≡ text.old.items ++ heads.comm_column_if changes head.now) }
{
    if head.chosen.comm {
        push_name_column(text, head.chained, history.comm(head.named))
    } else {
        Ok(())
    }
}

// Appends the columns of the thread.
fn push_thread(text: &mut Vec<u8>, history: &History<'_>, head: &Head) -> Result<(), AllocError>
    ensures { (changes : List Change) → IsHistory history.now changes →
        OnOk result (text.new.items ≡ text.old.items ++ heads.thread_columns changes head.now) }
{
    push_comm_if(text, history, head)?;
    push_task(text, head.chosen.pid, head.chosen.tid, head.pid, head.tid)
}

// Appends the columns of the thread, if it is known.
fn push_thread_if(text: &mut Vec<u8>, history: &History<'_>, head: &Head) -> Result<(), AllocError>
    ensures { (changes : List Change) → IsHistory history.now changes →
        OnOk result (text.new.items ≡ text.old.items ++ heads.thread_columns_if changes head.now) }
{
    if has_bit(head.fields, TID) {
        push_thread(text, history, head)
    } else {
        Ok(())
    }
}

// Appends the column of the processor, if it is known and chosen.
fn push_cpu_if(text: &mut Vec<u8>, head: &Head) -> Result<(), AllocError>
    ensures { OnOk result (text.new.items ≡ text.old.items ++ heads.cpu_column_if head.now) }
{
    if head.chosen.cpu && has_bit(head.fields, CPU) {
        push_cpu(text, head.cpu)
    } else {
        Ok(())
    }
}

// Appends the column of the time, if it is known and chosen.
fn push_time_if(text: &mut Vec<u8>, head: &Head) -> Result<(), AllocError>
    ensures { OnOk result (text.new.items ≡ text.old.items ++ heads.time_column_if head.now) }
{
    if head.chosen.time && has_bit(head.fields, TIME) {
        push_time(text, head.time)
    } else {
        Ok(())
    }
}

// Appends all of these.
pub(crate) fn push_head(
    text: &mut Vec<u8>,
    history: &History<'_>,
    head: &Head,
) -> Result<(), AllocError>
    ensures { (changes : List Change) → IsHistory history.now changes →
        OnOk result (text.new.items ≡ text.old.items ++ heads.head_columns changes head.now) }
{
    push_thread_if(text, history, head)?;
    push_cpu_if(text, head)?;
    push_time_if(text, head)
}
