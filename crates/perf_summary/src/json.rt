//! The summary of a file as JSON.

ghost use Rattle.std.specs.Prelude.{◌≡◌, ◌++◌, ℕ, [], IfOk, OnOk, is_err, length, map, string_bytes};
ghost use Rattle.serde_json.specs.View.{view as data_of};
ghost use Rattle.perf_file.specs.FeatureTable.{seen};
ghost use Rattle.perf_file.specs.FeatureTexts.{words_left};
ghost use Rattle.perf_sections.specs.Names.{Name, name_view, name_text};
ghost use Rattle.perf_sections.specs.Opened.{FileEvent};
ghost use Rattle.perf_file.specs.Views.{view};
ghost use Rattle.perf_data_text.specs.OwnNames.{AreNamedBy};
ghost use Rattle.perf_summary.specs.Threads.{plain_threads};
ghost use Rattle.perf_summary.specs.OwnData as own;
ghost use Rattle.perf_summary.specs.SummaryJson as jsons;
ghost use Rattle.perf_summary.specs.SummaryText.{is_any_refused, is_machine_refused};

use crate::counting::counts_of;
use crate::counts::{Counts, EventCount};
use crate::text::count_at;
use crate::thread_lines::thread_values;
use crate::threads::{Thread, ThreadId};
use crate::type_names::type_name;
use perf_file::{BadFeature, CommandLine, EscapedBytes, Event, Recording};
use serde_json::{Value, json};
use std::alloc::{AllocError, Global};
use std::collections::BTreeMap;

/// The summary of a file with these threads as one line of JSON, an object whose members are in the order of their names;
/// and whether a frame or a feature in it is refused.
pub fn json_of_summary(
    alloc: Global,
    recording: &Recording<'_>,
    threads: &BTreeMap<ThreadId, Thread<'_>>,
) -> Result<(String, bool), AllocError>
    ensures text { (naming : ℕ → FileEvent → Name) → AreNamedBy recording.now naming →
        IfOk result (λ made. string_bytes made.0
        ≡ jsons.json_text (view recording.now) recording.now.bytes.now naming
        (plain_threads threads.now.entries)) }
    ensures refused { IfOk result (λ made. made.1
        ≡ is_any_refused (view recording.now) recording.now.bytes.now) }
{
    let counts = counts_of(alloc, recording)?;
    let value = summary_value(alloc, recording, &counts, threads)?;
    let mut text = value.to_string(alloc)?;
    text.push_str("\n")?;
    let is_refused = is_refused(recording);
    Ok((text, is_refused || counts.refused != 0))
}

// Whether one of the features cannot be read.
fn is_refused(recording: &Recording<'_>) -> bool
    ensures { result ≡ is_machine_refused recording.now.order recording.now.bytes.now }
{
    let host = is_text_refused(recording.hostname());
    let release = is_text_refused(recording.os_release());
    let words = are_words_refused(recording.command_line());
    host || release || words
}

// Whether a text cannot be read.
fn is_text_refused(found: Result<Option<&[u8]>, BadFeature>) -> bool
    ensures { result ≡ is_err (seen (λ b. b.now) found.entry) }
{
    match found {
        Ok(Some(_)) => false,
        Ok(None) => false,
        Err(_) => true,
    }
}

// Whether the words of the command cannot be read.
fn are_words_refused(found: Result<Option<CommandLine<'_>>, BadFeature>) -> bool
    ensures { result ≡ is_err (seen words_left found.entry) }
{
    match found {
        Ok(Some(_)) => false,
        Ok(None) => false,
        Err(_) => true,
    }
}

// The summary by its counts, and with these threads.
fn summary_value(
    alloc: Global,
    recording: &Recording<'_>,
    counts: &Counts,
    threads: &BTreeMap<ThreadId, Thread<'_>>,
) -> Result<Value, AllocError>
    requires { length counts.now.events.items ≡ length recording.now.events.items }
    ensures { IfOk result (λ value. data_of value ≡ own.own_data recording.now.order
        recording.now.bytes.now recording.now.events.items counts.now threads.now.entries) }
{
    json!(in alloc; {
        "command_line": words_value(alloc, recording.command_line())?,
        "events": event_values(alloc, recording.events(), &counts.events)?,
        "frames": counts.frames,
        "hostname": text_value(alloc, recording.hostname())?,
        "os_release": text_value(alloc, recording.os_release())?,
        "refused": counts.refused,
        "threads": thread_values(alloc, threads)?,
        "types": type_values(alloc, &counts.types, counts.other_types)?
    })
}

// Bytes as they are printed.
fn printed_value(alloc: Global, bytes: &[u8]) -> Result<Value, AllocError>
    ensures { IfOk result (λ value. data_of value ≡ jsons.printed_data bytes.now) }
{
    let text = format!(in alloc; "{}", EscapedBytes(bytes))?;
    Ok(Value::from(text))
}

// A feature that cannot be read.
fn refused_value(alloc: Global) -> Result<Value, AllocError>
    ensures { IfOk result (λ value. data_of value ≡ jsons.refused_data) }
{
    json!(in alloc; {"refused": true})
}

// A text that a file may have.
fn text_value(alloc: Global, found: Result<Option<&[u8]>, BadFeature>) -> Result<Value, AllocError>
    ensures { IfOk result (λ value. data_of value
        ≡ jsons.feature_data jsons.printed_data (seen (λ b. b.now) found.entry)) }
{
    match found {
        Ok(Some(bytes)) => printed_value(alloc, bytes),
        Ok(None) => Ok(Value::Null),
        Err(_) => refused_value(alloc),
    }
}

// Words, one after another.
fn word_values(alloc: Global, line: CommandLine<'_>) -> Result<Vec<Value>, AllocError>
    ensures { IfOk result (λ values. map data_of values.items
        ≡ map jsons.printed_data (words_left line.entry)) }
{
    let mut values = Vec::new(alloc);
    for word in line {
        values.push(printed_value(alloc, word)?)?;
    }
    Ok(values)
}

// The words of the command, which a file may have.
fn words_value(
    alloc: Global,
    found: Result<Option<CommandLine<'_>>, BadFeature>,
) -> Result<Value, AllocError>
    ensures { IfOk result (λ value. data_of value
        ≡ jsons.feature_data jsons.words_data (seen words_left found.entry)) }
{
    match found {
        Ok(Some(line)) => Ok(Value::from(word_values(alloc, line)?)),
        Ok(None) => Ok(Value::Null),
        Err(_) => refused_value(alloc),
    }
}

// Events, numbered from 0.
fn event_values(
    alloc: Global,
    events: &[Event<'_>],
    counts: &[EventCount],
) -> Result<Vec<Value>, AllocError>
    requires { length counts.now ≡ length events.now }
    ensures { IfOk result (λ values. map data_of values.items
        ≡ own.own_events_data counts.now 0 events.now) }
{
    let mut values = Vec::new(alloc);
    for index in 0..events.len() {
        let count = count_at(counts, index);
        values.push(event_value(alloc, &events[index], &count)?)?;
    }
    Ok(values)
}

// An event.
fn event_value(alloc: Global, event: &Event<'_>, count: &EventCount) -> Result<Value, AllocError>
    ensures { IfOk result (λ value. data_of value
        ≡ jsons.event_data count.now (name_text (name_view event.now.name))) }
{
    let name = format!(in alloc; "{}", event.name())?;
    counts_value(alloc, count, name.as_str())
}

// The counts of an event, and its name.
fn counts_value(alloc: Global, count: &EventCount, name: &str) -> Result<Value, AllocError>
    ensures { IfOk result (λ value. data_of value ≡ jsons.event_data count.now name.now) }
{
    json!(in alloc; {
        "first": count.first,
        "last": count.last,
        "lost": count.lost,
        "name": name,
        "period": count.period,
        "refused": count.refused,
        "samples": count.samples
    })
}

// The types that a frame has, in the order of their numbers.
fn type_values(alloc: Global, types: &[u64], others: u64) -> Result<Vec<Value>, AllocError>
    ensures { IfOk result (λ values. map data_of values.items
        ≡ own.own_types_data types.now (length types.now) ++ jsons.other_data others) }
{
    let mut values = Vec::new(alloc);
    for ty in 0..types.len() {
        push_type(&mut values, alloc, ty, types[ty])?;
    }
    push_others(&mut values, alloc, others)?;
    Ok(values)
}

// A type that so many frames have, without a number for several others.
fn type_value(alloc: Global, ty: Option<usize>, count: u64, name: &str) -> Result<Value, AllocError>
    ensures { IfOk result (λ value. data_of value ≡ jsons.type_object count name.now ty) }
{
    json!(in alloc; {"frames": count, "name": name, "type": ty})
}

// Appends a type, if a frame has it.
fn push_type(
    values: &mut Vec<Value>,
    alloc: Global,
    ty: usize,
    count: u64,
) -> Result<(), AllocError>
    ensures { OnOk result (map data_of values.new.items
        ≡ map data_of values.old.items ++ jsons.type_data ty count) }
{
    if count == 0 {
        return Ok(());
    }
    values.push(type_value(alloc, Some(ty), count, type_name(ty))?)?;
    Ok(())
}

// Appends the other types, if a frame has one.
fn push_others(values: &mut Vec<Value>, alloc: Global, count: u64) -> Result<(), AllocError>
    ensures { OnOk result (map data_of values.new.items
        ≡ map data_of values.old.items ++ jsons.other_data count) }
{
    if count == 0 {
        return Ok(());
    }
    values.push(type_value(alloc, None, count, "other")?)?;
    Ok(())
}
