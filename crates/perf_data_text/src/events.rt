//! The events of a file, a line each.

ghost use Rattle.std.specs.Prelude.{◌≡◌, ◌++◌, ℕ, IfOk, OnOk, codes, decimal, string_bytes};
ghost use Rattle.perf_sections.specs.Names.{Name};
ghost use Rattle.perf_sections.specs.Opened.{FileEvent, event_view};
ghost use Rattle.perf_file.specs.Views.{view};
ghost use Rattle.perf_lines.specs.Fields.{with_spaces};
ghost use Rattle.perf_data_text.specs.EventText as events;
ghost use Rattle.perf_data_text.specs.OwnNames as own;

use perf_file::{Event, Recording};
use perf_text::strip::Strip;
use std::alloc::{AllocError, Global};

/// A line for each event: its number, its name, its type and its config, what its samples contain,
/// and how many ids it has.
pub fn text_of_events(alloc: Global, recording: &Recording<'_>) -> Result<String, AllocError>
    ensures { (naming : ℕ → FileEvent → Name) → own.AreNamedBy recording.now naming →
        IfOk result (λ text. string_bytes text
        ≡ events.events_text (view recording.now) naming) }
{
    let mut text = String::new(alloc);
    push_events(&mut text, recording.events())?;
    Ok(text)
}

// Appends the lines of events, numbered from 0.
fn push_events(text: &mut String, list: &[Event<'_>]) -> Result<(), AllocError>
    ensures { OnOk result (string_bytes text.new
        ≡ string_bytes text.old ++ own.own_lines 0 list.now) }
{
    for index in 0..list.len() {
        push_event(text, index, &list[index])?;
    }
    Ok(())
}

// Appends the line of an event.
fn push_event(text: &mut String, index: usize, event: &Event<'_>) -> Result<(), AllocError>
    ensures { OnOk result (string_bytes text.new
        ≡ string_bytes text.old ++ own.own_line index event.now) }
{
    push_index(text, index)?;
    push_name(text, event)?;
    push_fields(text, event)?;
    text.push_str("\n")
}

// Appends the number of an event.
fn push_index(text: &mut String, index: usize) -> Result<(), AllocError>
    ensures { OnOk result (string_bytes text.new
        ≡ string_bytes text.old ++ (decimal index ++ codes " ")) }
{
    let mut strip = Strip::new();
    strip.put(" ");
    strip.put_number(index as u64);
    text.push_str(strip.text())
}

// Appends the name of an event.
fn push_name(text: &mut String, event: &Event<'_>) -> Result<(), AllocError>
    ensures { OnOk result (string_bytes text.new
        ≡ string_bytes text.old ++ own.own_name event.now) }
{
    write!(text, "{}", event.name())
}

// Appends the fields of an event.
fn push_fields(text: &mut String, event: &Event<'_>) -> Result<(), AllocError>
    ensures { OnOk result (string_bytes text.new
        ≡ string_bytes text.old ++ with_spaces (events.event_fields (event_view event.now))) }
{
    let attr = event.attr();
    let mut strip = Strip::new();
    strip.put_number(event.ids().len() as u64);
    strip.put(" ids=");
    strip.put_hex(attr.sample_type);
    strip.put(" sample_type=");
    strip.put_hex(attr.config);
    strip.put(" config=");
    strip.put_number(u64::from(attr.type_));
    strip.put(" type=");
    text.push_str(strip.text())
}
