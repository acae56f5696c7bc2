//! How the events of a recording are labelled.

ghost use Rattle.std.specs.Prelude.{◌≡◌, ◌++◌, ◌≤◌, IfOk, OnOk, map, max, length, string_bytes};
ghost use Rattle.perf_script.specs.Labels as labels;

use perf_columns::columns::push_right;
use perf_file::{Event, Recording};
use perf_walk::Filter;
use std::alloc::{AllocError, Global};

/// How an event is labelled.
#[derive(Debug, Drop)]
pub struct Label {
    /// Its name in a column as wide as the longest name, a colon and a space.
    pub text: Vec<u8>,
    /// The period of its samples that contain none: that of its attribute.
    pub period: u64,
    /// Which fields its samples have, `PERF_SAMPLE_*`: those of its attribute.
    pub fields: u64,
    /// Whether its samples count.
    pub counts: bool,
}

// The name of an event.
fn name_of(alloc: Global, event: &Event<'_>) -> Result<String, AllocError>
    ensures { IfOk result (λ name. string_bytes name ≡ labels.own_name event.now) }
{
    let mut name = String::new(alloc);
    write!(name, "{}", event.name())?;
    Ok(name)
}

// The greater of a width and the length of an event's name.
fn wider(alloc: Global, event: &Event<'_>, width: usize) -> Result<usize, AllocError>
    ensures { IfOk result (λ w. w ≡ max (length (labels.own_name event.now)) width) }
{
    let name = name_of(alloc, event)?;
    Ok(name.len().max(width))
}

// The length of the longest name.
fn width_of(alloc: Global, events: &[Event<'_>]) -> Result<usize, AllocError>
    ensures { IfOk result (λ w. w ≡ labels.widest (map labels.own_name events.now)) }
{
    let mut width = 0;
    let mut left = events.len();
    while left > 0 {
        left -= 1;
        width = wider(alloc, &events[left], width)?;
    }
    Ok(width)
}

// The text of the label of an event with this name, with names in a column of a width.
fn label_text(alloc: Global, name: &str, width: usize) -> Result<Vec<u8>, AllocError>
    ensures { IfOk result (λ text. text.items ≡ labels.label width name.now) }
{
    let mut text = Vec::new(alloc);
    push_right(&mut text, width, name.as_bytes())?;
    text.extend_from_slice(b": ")?;
    Ok(text)
}

// The label of an event, with names in a column of a width.
fn label_of(
    alloc: Global,
    filter: &Filter<'_>,
    event: &Event<'_>,
    width: usize,
) -> Result<Label, AllocError>
    ensures { IfOk result (λ l. labels.label_view l ≡ labels.own_label filter.now width event.now) }
{
    let name = name_of(alloc, event)?;
    Ok(Label {
        text: label_text(alloc, &name, width)?,
        period: event.attr().sample_period,
        fields: event.attr().sample_type,
        counts: filter.takes_event(name.as_bytes()),
    })
}

// Those of events, with names in a column of a width.
fn labels_with(
    alloc: Global,
    filter: &Filter<'_>,
    events: &[Event<'_>],
    width: usize,
) -> Result<Vec<Label>, AllocError>
    ensures { IfOk result (λ v. map labels.label_view v.items
        ≡ map (labels.own_label filter.now width) events.now) }
{
    let mut list = Vec::new(alloc);
    for event in events {
        list.push(label_of(alloc, filter, event, width)?)?;
    }
    Ok(list)
}

/// The labels of the events of a recording, in their order, by a filter of their samples.
pub fn labels_of(
    alloc: Global,
    filter: &Filter<'_>,
    recording: &Recording<'_>,
) -> Result<Vec<Label>, AllocError>
    ensures { IfOk result (λ v. map labels.label_view v.items
        ≡ labels.own_labels filter.now recording.now.events.items) }
{
    let events = recording.events();
    let width = width_of(alloc, events)?;
    labels_with(alloc, filter, events, width)
}
