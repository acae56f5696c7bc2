//! The summary of a file as lines of text.

ghost use Rattle.std.specs.Prelude.{◌≡◌, ◌<◌, ◌++◌, ◌||◌, ℕ, not, IfOk, OnOk, length, slice_index_or, string_bytes};
ghost use Rattle.perf_sections.specs.Names.{Name, name_view, name_text};
ghost use Rattle.perf_sections.specs.Opened.{FileEvent};
ghost use Rattle.perf_file.specs.Pieces.{pieces_of};
ghost use Rattle.perf_file.specs.Views.{view};
ghost use Rattle.perf_data_text.specs.OwnNames.{AreNamedBy};
ghost use Rattle.perf_summary.specs.Threads.{plain_threads};
ghost use Rattle.perf_summary.specs.Counts.{AreCounts};
ghost use Rattle.perf_summary.specs.OwnLines as own;
ghost use Rattle.perf_summary.specs.CountSteps.{no_count};
ghost use Rattle.perf_summary.specs.SummaryText as texts;

use crate::counting::counts_of;
use crate::counts::{Counts, EventCount};
use crate::thread_lines::{Time, push_threads};
use crate::threads::{Thread, ThreadId};
use crate::type_names::type_name;
use perf_data_text::header::{push_command_line, push_text};
use perf_file::{Event, Recording};
use std::alloc::{AllocError, Global};
use std::collections::BTreeMap;

/// The summary of a file with these threads as lines of text: the machine and the command, all frames, each
/// event, each type that a frame has, and each thread; and whether a frame or a feature in it is refused.
pub fn text_of_summary(
    alloc: Global,
    recording: &Recording<'_>,
    threads: &BTreeMap<ThreadId, Thread<'_>>,
) -> Result<(String, bool), AllocError>
    ensures text { (naming : ℕ → FileEvent → Name) → AreNamedBy recording.now naming →
        IfOk result (λ made. string_bytes made.0
        ≡ texts.summary_text (view recording.now) recording.now.bytes.now naming
        (plain_threads threads.now.entries)) }
    ensures refused { IfOk result (λ made. made.1
        ≡ texts.is_any_refused (view recording.now) recording.now.bytes.now) }
{
    let counts = counts_of(alloc, recording)?;
    let mut text = String::new(alloc);
    let is_refused = push_machine(&mut text, recording)?;
    push_counts(&mut text, recording.events(), &counts)?;
    push_threads(&mut text, threads)?;
    Ok((text, is_refused || counts.refused != 0))
}

// Appends the lines of the machine and the command, and returns whether one of them is refused.
fn push_machine(text: &mut String, recording: &Recording<'_>) -> Result<bool, AllocError>
    ensures text { OnOk result (string_bytes text.new ≡ string_bytes text.old
        ++ texts.machine_text recording.now.order recording.now.bytes.now) }
    ensures refused { IfOk result (λ refused. refused
        ≡ texts.is_machine_refused recording.now.order recording.now.bytes.now) }
{
    let host = push_text(text, "hostname", recording.hostname())?;
    let release = push_text(text, "os release", recording.os_release())?;
    let words = push_command_line(text, recording.command_line())?;
    Ok(host || release || words)
}

// Appends the lines of counts.
fn push_counts(text: &mut String, events: &[Event<'_>], counts: &Counts) -> Result<(), AllocError>
    requires { length counts.now.events.items ≡ length events.now }
    ensures { OnOk result (string_bytes text.new
        ≡ string_bytes text.old ++ own.own_text events.now counts.now) }
{
    push_frames(text, counts)?;
    push_events(text, events, &counts.events)?;
    push_types(text, &counts.types)?;
    push_others(text, counts.other_types)?;
    Ok(())
}

// Appends the line of all frames.
fn push_frames(text: &mut String, counts: &Counts) -> Result<(), AllocError>
    ensures { OnOk result (string_bytes text.new
        ≡ string_bytes text.old ++ texts.frames_line counts.now.frames counts.now.refused) }
{
    let frames = counts.frames;
    let refused = counts.refused;
    write!(text, "file frames={frames} refused={refused}\n")
}

// Appends the lines of events, numbered from 0.
fn push_events(
    text: &mut String,
    events: &[Event<'_>],
    counts: &[EventCount],
) -> Result<(), AllocError>
    requires { length counts.now ≡ length events.now }
    ensures { OnOk result (string_bytes text.new
        ≡ string_bytes text.old ++ own.own_event_lines counts.now 0 events.now) }
{
    for index in 0..events.len() {
        let count = count_at(counts, index);
        push_event(text, index, &events[index], &count)?;
    }
    Ok(())
}

// The counts at an index.
pub(crate) fn count_at(counts: &[EventCount], index: usize) -> EventCount
    requires { index < length counts.now }
    ensures { result ≡ slice_index_or counts.now index no_count }
{
    counts[index]
}

// Appends the line of an event.
fn push_event(
    text: &mut String,
    index: usize,
    event: &Event<'_>,
    count: &EventCount,
) -> Result<(), AllocError>
    ensures { OnOk result (string_bytes text.new ≡ string_bytes text.old
        ++ texts.event_line index count.now (name_text (name_view event.now.name))) }
{
    push_samples(text, index, count)?;
    push_losses(text, count)?;
    write!(text, " {}\n", event.name())
}

// Appends the number of an event, and the counts of its samples.
fn push_samples(text: &mut String, index: usize, count: &EventCount) -> Result<(), AllocError>
    ensures { OnOk result (string_bytes text.new
        ≡ string_bytes text.old ++ texts.samples_words index count.now) }
{
    let samples = count.samples;
    let period = count.period;
    let first = Time(count.first);
    let last = Time(count.last);
    write!(
        text,
        "event {index} samples={samples} period={period} first={first} last={last}"
    )
}

// Appends what was lost and refused of an event.
fn push_losses(text: &mut String, count: &EventCount) -> Result<(), AllocError>
    ensures { OnOk result (string_bytes text.new
        ≡ string_bytes text.old ++ texts.losses_words count.now) }
{
    let lost = count.lost;
    let refused = count.refused;
    write!(text, " lost={lost} refused={refused}")
}

// Appends the lines of types, numbered from 0.
fn push_types(text: &mut String, types: &[u64]) -> Result<(), AllocError>
    ensures { OnOk result (string_bytes text.new
        ≡ string_bytes text.old ++ own.own_type_lines types.now (length types.now)) }
{
    for ty in 0..types.len() {
        push_type(text, ty, types[ty])?;
    }
    Ok(())
}

// Appends the line of a type, if a frame has it.
fn push_type(text: &mut String, ty: usize, count: u64) -> Result<(), AllocError>
    ensures { OnOk result (string_bytes text.new
        ≡ string_bytes text.old ++ texts.type_line ty count) }
{
    if count == 0 {
        return Ok(());
    }
    write!(text, "type {ty} frames={count} {}\n", type_name(ty))
}

// Appends the line of the other types, if a frame has one.
fn push_others(text: &mut String, count: u64) -> Result<(), AllocError>
    ensures { OnOk result (string_bytes text.new
        ≡ string_bytes text.old ++ texts.other_line count) }
{
    if count == 0 {
        return Ok(());
    }
    write!(text, "type other frames={count}\n")
}
