//! The text of a sample.

ghost use Rattle.std.specs.Prelude.{◌≡◌, ◌++◌, ◌<◌, OnOk, List, ℕ};
ghost use Rattle.perf_history.specs.Recorded.{IsHistory};
ghost use Rattle.perf_history.specs.declared.changes.Change.{Change};
ghost use Rattle.perf_columns.specs.Columns.{period_column};
ghost use Rattle.perf_script.specs.Headings.{heading_view};
ghost use Rattle.perf_script.specs.Heads.{text_if};
ghost use Rattle.perf_script.specs.SampleText as samples;
ghost use Rattle.perf_script.specs.Seen.{shown_in};

use crate::chains::push_calls;
use crate::fields::Fields;
use crate::heads::{Head, is_chained, push_head};
use perf_columns::bits::has_bit;
use perf_columns::columns::{push_address, push_period};
use perf_columns::files::push_place_column_if;
use perf_history::History;
use perf_walk::{Call, Sample};
use std::alloc::AllocError;

/// What is shown of a sample.
#[derive(Clone, Copy, Debug)]
pub struct Sampled<'a> {
    /// Which fields are chosen.
    pub chosen: Fields,
    /// Which fields it has, `PERF_SAMPLE_*`.
    pub fields: u64,
    /// Whether it has no text, as it was taken in a guest, or does not count.
    pub hidden: bool,
    /// Their values.
    pub sample: Sample,
    /// The calls of its chain, the innermost first.
    pub calls: &'a [Call],
}

// The flags of the fields that are shown.
const IP: u32 = 0;

const CALLCHAIN: u32 = 5;

// What the columns at the front of a sample's line are made of.
fn head_of(shown: &Sampled<'_>) -> Head
    ensures { result ≡ samples.head_of (shown_in shown.now) }
{
    Head {
        chosen: shown.chosen,
        fields: shown.fields,
        chained: is_chained(shown.chosen, shown.fields),
        named: shown.sample.tid,
        pid: shown.sample.pid,
        tid: shown.sample.tid,
        cpu: shown.sample.cpu,
        time: shown.sample.time,
    }
}

// Appends the columns before the period.
fn push_front(
    text: &mut Vec<u8>,
    history: &History<'_>,
    shown: &Sampled<'_>,
) -> Result<(), AllocError>
    ensures { (changes : List Change) → IsHistory history.now changes →
        OnOk result (text.new.items ≡ text.old.items
        ++ samples.front_columns changes (shown_in shown.now)) }
{
    push_head(text, history, &head_of(shown))
}

// Appends the address and, if that is chosen, what is mapped there.
fn push_place(
    text: &mut Vec<u8>,
    history: &History<'_>,
    shown: &Sampled<'_>,
) -> Result<(), AllocError>
    ensures { (changes : List Change) → IsHistory history.now changes →
        OnOk result (text.new.items ≡ text.old.items
        ++ samples.address_columns changes (shown_in shown.now)) }
{
    let (mode, ip) = (shown.sample.mode, shown.sample.ip);
    text.extend_from_slice(b" ")?;
    push_address(text, ip)?;
    push_place_column_if(
        text,
        shown.chosen.dso,
        mode,
        history.place(shown.sample.pid, mode, ip),
    )
}

// Appends the lines of the chain, after the end of the line before them.
fn push_chain(
    text: &mut Vec<u8>,
    history: &History<'_>,
    shown: &Sampled<'_>,
) -> Result<(), AllocError>
    ensures { (changes : List Change) → IsHistory history.now changes →
        OnOk result (text.new.items ≡ text.old.items
        ++ samples.chain_lines changes (shown_in shown.now)) }
{
    text.extend_from_slice(b"\n")?;
    push_calls(
        text,
        shown.chosen.dso,
        history,
        shown.sample.pid,
        shown.calls,
    )
}

// Appends the address, or the lines of the chain.
fn push_code(
    text: &mut Vec<u8>,
    history: &History<'_>,
    shown: &Sampled<'_>,
) -> Result<(), AllocError>
    ensures { (changes : List Change) → IsHistory history.now changes →
        OnOk result (text.new.items ≡ text.old.items
        ++ samples.code_columns changes (shown_in shown.now)) }
{
    if has_bit(shown.fields, CALLCHAIN) {
        push_chain(text, history, shown)
    } else {
        push_place(text, history, shown)
    }
}

// Appends the same, if there is an address, and it is chosen.
fn push_code_if(
    text: &mut Vec<u8>,
    history: &History<'_>,
    shown: &Sampled<'_>,
) -> Result<(), AllocError>
    ensures { (changes : List Change) → IsHistory history.now changes →
        OnOk result (text.new.items ≡ text.old.items
        ++ samples.code_columns_if changes (shown_in shown.now)) }
{
    if shown.chosen.ip && has_bit(shown.fields, IP) {
        push_code(text, history, shown)
    } else {
        Ok(())
    }
}

/// What is shown of the event of a sample.
#[derive(Clone, Copy, Debug)]
pub struct Heading<'a> {
    /// Its label: its name in a column, a colon and a space.
    pub label: &'a [u8],
    /// How many of its occurrences the sample stands for.
    pub period: u64,
    /// Which fields its samples have, `PERF_SAMPLE_*`.
    pub fields: u64,
    /// Whether its samples count.
    pub counts: bool,
}

// Appends the period, if it is chosen.
fn push_period_if(text: &mut Vec<u8>, chosen: Fields, period: u64) -> Result<(), AllocError>
    ensures { OnOk result (text.new.items ≡ text.old.items
        ++ text_if chosen.period (period_column period)) }
{
    if chosen.period {
        push_period(text, period)
    } else {
        Ok(())
    }
}

// Appends the period, and the label of the event, each if it is chosen.
fn push_event(text: &mut Vec<u8>, chosen: Fields, heading: Heading<'_>) -> Result<(), AllocError>
    ensures { OnOk result (text.new.items ≡ text.old.items ++ samples.event_columns
        chosen heading.entry.label.now heading.entry.period) }
{
    push_period_if(text, chosen, heading.period)?;
    if chosen.event {
        text.extend_from_slice(heading.label)
    } else {
        Ok(())
    }
}

// Appends the end of the text.
fn push_end(
    text: &mut Vec<u8>,
    history: &History<'_>,
    shown: &Sampled<'_>,
) -> Result<(), AllocError>
    ensures { (changes : List Change) → IsHistory history.now changes →
        OnOk result (text.new.items ≡ text.old.items
        ++ samples.end_columns changes (shown_in shown.now)) }
{
    push_code_if(text, history, shown)?;
    text.extend_from_slice(b"\n")
}

// Appends the text of a sample that is not hidden, with a heading.
fn push_own(
    text: &mut Vec<u8>,
    heading: Heading<'_>,
    history: &History<'_>,
    shown: &Sampled<'_>,
) -> Result<(), AllocError>
    ensures { (changes : List Change) → IsHistory history.now changes →
        OnOk result (text.new.items ≡ text.old.items ++ samples.own_text
        heading.entry.label.now heading.entry.period changes (shown_in shown.now)) }
{
    push_front(text, history, shown)?;
    push_event(text, shown.chosen, heading)?;
    push_end(text, history, shown)
}

/// Appends the text of a sample, with a heading. Those that are hidden have none, and those of events
/// whose samples do not count.
pub fn push_sample(
    text: &mut Vec<u8>,
    heading: Heading<'_>,
    history: &History<'_>,
    shown: &Sampled<'_>,
) -> Result<(), AllocError>
    ensures { (changes : List Change) → IsHistory history.now changes →
        OnOk result (text.new.items ≡ text.old.items ++ samples.sample_text
        (heading_view heading.entry) changes (shown_in shown.now)) }
{
    if shown.hidden || !heading.counts {
        return Ok(());
    }
    push_own(text, heading, history, shown)
}
