//! What each thread did, as a line of text and as JSON.

ghost use Rattle.std.specs.Prelude.{◌≡◌, ◌++◌, Some, IfOk, OnOk, map, string_bytes};
ghost use Rattle.serde_json.specs.View.{view as data_of};
ghost use Rattle.perf_summary.specs.ThreadText as texts;
ghost use Rattle.perf_summary.specs.Words.{time_text};

use crate::threads::{Thread, ThreadId};
use perf_file::EscapedBytes;
use perf_history::Name;
use serde_json::{Value, json};
use std::alloc::{AllocError, Global};
use std::collections::BTreeMap;
use std::fmt;

// A time, which may not be known.
#[derive(Copy, Clone)]
pub(crate) struct Time(pub(crate) Option<u64>);

impl fmt::Display for Time {
    ghost output = { λ t. Some (time_text t.0) };

    fn fmt<W: fmt::Write>(&self, f: &mut fmt::Formatter<W>) -> fmt::Result {
        match self.0 {
            Some(time) => write!(f, "{time}"),
            None => f.write_str("-"),
        }
    }
}

// The name of a thread.
#[derive(Copy, Clone)]
struct ThreadName<'p>(Name<'p>);

impl fmt::Display for ThreadName<'_> {
    ghost output = { λ n. Some (texts.thread_name n.0) };

    fn fmt<W: fmt::Write>(&self, f: &mut fmt::Formatter<W>) -> fmt::Result {
        match self.0 {
            Name::Given(name) => write!(f, "{}", EscapedBytes(name)),
            Name::Number(tid) => write!(f, ":{tid}"),
            Name::Swapper => f.write_str("swapper"),
        }
    }
}

/// Appends the lines of threads.
pub(crate) fn push_threads(
    text: &mut String,
    threads: &BTreeMap<ThreadId, Thread<'_>>,
) -> Result<(), AllocError>
    ensures { OnOk result (string_bytes text.new
        ≡ string_bytes text.old ++ texts.threads_text threads.now.entries) }
{
    for (who, thread) in threads.iter() {
        push_thread(text, *who, thread)?;
    }
    Ok(())
}

// Appends the line of a thread.
fn push_thread(text: &mut String, who: ThreadId, thread: &Thread<'_>) -> Result<(), AllocError>
    ensures { OnOk result (string_bytes text.new
        ≡ string_bytes text.old ++ texts.thread_line (who, thread.now)) }
{
    push_ids(text, who, thread.samples)?;
    push_times(text, thread)?;
    write!(text, " {}\n", ThreadName(thread.name))
}

// Appends the ids of a thread, and its samples.
fn push_ids(text: &mut String, who: ThreadId, samples: u64) -> Result<(), AllocError>
    ensures { OnOk result (string_bytes text.new
        ≡ string_bytes text.old ++ texts.ids_words who samples) }
{
    let (pid, tid) = who;
    write!(text, "thread {pid}/{tid} samples={samples}")
}

// Appends when a thread began and ended.
fn push_times(text: &mut String, thread: &Thread<'_>) -> Result<(), AllocError>
    ensures { OnOk result (string_bytes text.new
        ≡ string_bytes text.old ++ texts.times_words thread.now) }
{
    let start = Time(thread.start);
    let end = Time(thread.end);
    write!(text, " start={start} end={end}")
}

/// Threads as JSON.
pub(crate) fn thread_values(
    alloc: Global,
    threads: &BTreeMap<ThreadId, Thread<'_>>,
) -> Result<Vec<Value>, AllocError>
    ensures { IfOk result (λ values. map data_of values.items
        ≡ texts.threads_data threads.now.entries) }
{
    let mut values = Vec::new(alloc);
    for (who, thread) in threads.iter() {
        values.push(thread_value(alloc, *who, thread)?)?;
    }
    Ok(values)
}

// A thread as JSON.
fn thread_value(alloc: Global, who: ThreadId, thread: &Thread<'_>) -> Result<Value, AllocError>
    ensures { IfOk result (λ value. data_of value ≡ texts.thread_data (who, thread.now)) }
{
    let name = format!(in alloc; "{}", ThreadName(thread.name))?;
    named_value(alloc, who, thread, name.as_str())
}

// The same with this name.
fn named_value(
    alloc: Global,
    who: ThreadId,
    thread: &Thread<'_>,
    name: &str,
) -> Result<Value, AllocError>
    ensures { IfOk result (λ value. data_of value ≡ texts.named_data who thread.now name.now) }
{
    let (pid, tid) = who;
    json!(in alloc; {
        "end": thread.end,
        "name": name,
        "pid": pid,
        "samples": thread.samples,
        "start": thread.start,
        "tid": tid
    })
}
