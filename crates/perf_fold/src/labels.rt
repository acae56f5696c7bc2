//! The events of a recording, as their samples need them.

ghost use Rattle.std.specs.Prelude.{◌≡◌, IfOk, string_bytes};
ghost use Rattle.std.specs.List.{list_any};
ghost use Rattle.perf_sections.specs.Names.{name_view, name_text};
ghost use Rattle.perf_fold.specs.EventLabels as labels;

use perf_file::{Event, Recording};
use perf_walk::Filter;
use std::alloc::{AllocError, Global};

/// An event.
#[derive(Debug, Drop)]
pub(crate) struct Label {
    /// Its name.
    pub name: String,
    /// The period of its samples that contain none: that of its attribute.
    pub period: u64,
    /// Whether its samples count.
    pub counts: bool,
}

// The name of an event.
fn name_of(alloc: Global, event: &Event<'_>) -> Result<String, AllocError>
    ensures { IfOk result (λ text. string_bytes text ≡ name_text (name_view event.now.name)) }
{
    let mut text = String::new(alloc);
    write!(text, "{}", event.name())?;
    Ok(text)
}

// The label of an event.
fn label_of(alloc: Global, filter: &Filter<'_>, event: &Event<'_>) -> Result<Label, AllocError>
    ensures { IfOk result (λ l. labels.label_view l ≡ labels.own_label filter.now event.now) }
{
    let name = name_of(alloc, event)?;
    let counts = filter.takes_event(name.as_bytes());
    Ok(Label {
        name,
        period: event.attr().sample_period,
        counts,
    })
}

// The labels of the events of a recording, in their order, by a filter of their samples.
pub(crate) fn labels_of(
    alloc: Global,
    filter: &Filter<'_>,
    recording: &Recording<'_>,
) -> Result<Vec<Label>, AllocError>
    ensures { IfOk result (λ v. labels.labels_view v.items
        ≡ labels.own_labels filter.now recording.now.events.items) }
{
    let events = recording.events();
    let mut list = Vec::new(alloc);
    for event in events {
        list.push(label_of(alloc, filter, event)?)?;
    }
    Ok(list)
}

// Whether samples of one of the events count.
pub(crate) fn any_counts(list: &[Label]) -> bool
    ensures { result ≡ list_any (λ label. label.counts) list.now }
{
    list.iter().any(|label| label.counts)
}

// Whether samples of the event with that number count.
pub(crate) fn counts_at(list: &[Label], event: usize) -> bool
    ensures { result ≡ (labels.label_at (labels.labels_view list.now) event).counts }
{
    match list.get(event) {
        Some(label) => label.counts,
        None => true,
    }
}

// The period of samples of that event that contain none.
pub(crate) fn period_at(list: &[Label], event: usize) -> u64
    ensures { result ≡ (labels.label_at (labels.labels_view list.now) event).period }
{
    match list.get(event) {
        Some(label) => label.period,
        None => 0,
    }
}

// The name of that event.
pub(crate) fn name_at(list: &[Label], event: usize) -> &[u8]
    ensures { result.now ≡ (labels.label_at (labels.labels_view list.now) event).name }
{
    match list.get(event) {
        Some(label) => label.name.as_bytes(),
        None => b"",
    }
}
