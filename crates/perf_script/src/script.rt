//! The text of a recording.

ghost use Rattle.std.specs.List.{list_any};
ghost use Rattle.std.specs.Prelude.{◌≡◌, ◌<◌, ◌≤◌, ◌++◌, ◌∷◌, ℕ, Bool, [], Some, IfOk, OnOk, List, MatchOption, length, map, slice_index_or};
ghost use Rattle.perf_base.specs.Configuration.{Configuration};
ghost use Rattle.perf_base.specs.Dynamic.{order_of};
ghost use Rattle.perf_sections.specs.Opened.{File, table_of};
ghost use Rattle.perf_file.specs.Views.{view};
ghost use Rattle.perf_history.specs.Recorded.{IsHistory};
ghost use Rattle.perf_history.specs.declared.changes.Change.{Change};
ghost use Rattle.perf_flat.specs.Flat.{IsFlat};
ghost use Rattle.perf_sample_types.specs.Sample.{SampleValue};
ghost use Rattle.perf_walk.specs.Moments.{Moment};
ghost use Rattle.perf_walk.specs.Plain.{IsPast};
ghost use Rattle.perf_walk.specs.Samples.{sample_of, sample_view};
ghost use Rattle.perf_walk.specs.Steps.{IsFrameOf};
ghost use Rattle.perf_script.specs.Counted.{IsCounted};
ghost use Rattle.perf_script.specs.Counters as counters;
ghost use Rattle.perf_script.specs.Headings.{heading_view};
ghost use Rattle.perf_script.specs.Heads.{text_if};
ghost use Rattle.perf_script.specs.Ids.{finds};
ghost use Rattle.perf_script.specs.Labels as labels;
ghost use Rattle.perf_script.specs.ScriptText as script;
ghost use Rattle.perf_script.specs.Seen.{shown_in};
ghost use Rattle.perf_script.specs.UnderWay.{AreChosen, AreEvents, IsUnderWay, IsBegun, HasParts, Pushes, shown_by};

use crate::fields::Style;
use crate::ids::Ids;
use crate::labels::{Label, labels_of};
use crate::readings::{Counters, Reading, push_readings};
use crate::samples::{Heading, Sampled, push_sample};
use crate::side_band::push_side;
use perf_base::endian::Dynamic;
use perf_columns::bits::has_bit;
use perf_file::{Entry, Recording};
use perf_flat::frame::FlatFrame;
use perf_history::History;
use perf_walk::{Call, Filter, Found, Sample, Walk, push_calls, sample_in};
use std::alloc::{AllocError, Global};

// The flags of fields.
const READ: u32 = 4;

const PERIOD: u32 = 8;

// The events of a recording, a filter of samples, and which lines a text has.
#[derive(Drop)]
pub struct Events<'a> {
    labels: Vec<Label>,
    ids: Ids,
    filter: Filter<'a>,
    style: Style,
}

impl<'a> Events<'a> {
    // The events of a recording.
    pub(crate) fn of(
        alloc: Global,
        style: Style,
        filter: Filter<'a>,
        recording: &Recording<'_>,
    ) -> Result<Events<'a>, AllocError>
        ensures events { IfOk result (AreEvents (view recording.now)
            (labels.own_labels filter.entry recording.now.events.items)) }
        ensures filter { IfOk result (λ events. events.filter ≡ filter.entry) }
        ensures style { IfOk result (λ events. events.style ≡ style) }
    {
        Ok(Events {
            labels: labels_of(alloc, &filter, recording)?,
            ids: Ids::of(alloc, recording)?,
            filter,
            style,
        })
    }

    // Whether samples of one of the events count.
    pub(crate) fn any_counts(&self) -> bool
        ensures { result ≡ list_any (λ label. label.counts) self.now.labels.items }
    {
        self.labels.iter().any(|label| label.counts)
    }
}

// The label of an event, if there is one with that number.
fn label_of(list: &[Label], event: usize) -> Option<&Label>
    ensures { MatchOption result (length list.now ≤ event) (λ l. (event < length list.now)
        × (l.now ≡ slice_index_or list.now event l.now)) }
{
    list.get(event)
}

// The heading of an event's samples that contain no period.
fn heading_of(list: &[Label], event: usize) -> Heading<'_>
    ensures { heading_view result ≡ labels.label_at (map labels.label_view list.now) event }
{
    match label_of(list, event) {
        Some(label) => Heading {
            label: &label.text,
            period: label.period,
            fields: label.fields,
            counts: label.counts,
        },
        None => Heading {
            label: &[],
            period: 0,
            fields: 0,
            counts: true,
        },
    }
}

// A heading with a period.
fn with_period(heading: Heading<'_>, period: u64) -> Heading<'_>
    ensures { heading_view result ≡ labels.with_period (heading_view heading.entry) period }
{
    Heading {
        label: heading.label,
        period,
        fields: heading.fields,
        counts: heading.counts,
    }
}

// The period of a sample with this heading.
fn period_of(heading: Heading<'_>, shown: &Sampled<'_>) -> u64
    ensures { result ≡ script.period_of (heading_view heading.entry) (shown_in shown.now) }
{
    if has_bit(shown.fields, PERIOD) {
        shown.sample.period
    } else {
        heading.period
    }
}

// Appends the text of a sample by itself.
fn push_plain(
    text: &mut Vec<u8>,
    list: &[Label],
    event: usize,
    history: &History<'_>,
    shown: &Sampled<'_>,
) -> Result<(), AllocError>
    ensures { (changes : List Change) → IsHistory history.now changes →
        OnOk result (text.new.items ≡ text.old.items ++ script.plain_text
        (map labels.label_view list.now) event changes (shown_in shown.now)) }
{
    let heading = heading_of(list, event);
    let period = period_of(heading, shown);
    push_sample(text, with_period(heading, period), history, shown)
}

// Appends the text of a counter of an event that moved so far, if it moved.
fn push_moved(
    text: &mut Vec<u8>,
    list: &[Label],
    event: usize,
    far: u64,
    history: &History<'_>,
    shown: &Sampled<'_>,
) -> Result<(), AllocError>
    ensures { (changes : List Change) → IsHistory history.now changes →
        OnOk result (text.new.items ≡ text.old.items ++ counters.moved_text
        (map labels.label_view list.now) changes (shown_in shown.now) (Some event) far) }
{
    if far == 0 {
        return Ok(());
    }
    let heading = heading_of(list, event);
    push_sample(text, with_period(heading, far), history, shown)
}

// Appends the text of a counter with an id that moved so far.
fn push_counter(
    text: &mut Vec<u8>,
    events: &Events<'_>,
    id: u64,
    far: u64,
    history: &History<'_>,
    shown: &Sampled<'_>,
) -> Result<(), AllocError>
    ensures { (changes : List Change) → IsHistory history.now changes →
        OnOk result (text.new.items ≡ text.old.items ++ counters.moved_text
        (map labels.label_view events.now.labels.items) changes (shown_in shown.now)
        (finds events.now.ids id) far) }
{
    match events.ids.event(id) {
        Some(event) => push_moved(text, &events.labels, event, far, history, shown),
        None => Ok(()),
    }
}

// Appends the texts of the counters that a sample has read.
fn push_counters(
    text: &mut Vec<u8>,
    events: &Events<'_>,
    known: &mut Counters,
    readings: &[Reading],
    history: &History<'_>,
    shown: &Sampled<'_>,
) -> Result<(), AllocError>
    ensures { (f : File) (all : List labels.EventLabel) (changes : List Change)
        (older : List Reading) → AreEvents f all events.now → IsHistory history.now changes →
        IsCounted known.old older → OnOk result (IsCounted known.new
        (counters.read_after older readings.now) × (text.new.items ≡ text.old.items
        ++ counters.counters_text all (table_of f.events) changes (shown_in shown.now) older readings.now)) }
{
    for reading in readings {
        let far = known.read(*reading)?;
        push_counter(text, events, reading.id, far, history, shown)?;
    }
    Ok(())
}

// What is known by the samples so far, and memory for the parts of one.
#[derive(Drop)]
pub struct State {
    known: Counters,
    readings: Vec<Reading>,
    calls: Vec<Call>,
}

// Appends the text of a sample whose calls and readings are found.
fn push_shown(
    text: &mut Vec<u8>,
    events: &Events<'_>,
    known: &mut Counters,
    event: usize,
    readings: &[Reading],
    history: &History<'_>,
    shown: &Sampled<'_>,
) -> Result<(), AllocError>
    ensures { (f : File) (all : List labels.EventLabel) (changes : List Change)
        (older : List Reading) → AreEvents f all events.now → IsHistory history.now changes →
        IsCounted known.old older → OnOk result (IsCounted known.new
        (script.read_by older readings.now shown.now.fields) × (text.new.items ≡ text.old.items
        ++ script.shown_text all (table_of f.events) older readings.now event changes (shown_in shown.now))) }
{
    if has_bit(shown.fields, READ) {
        push_counters(text, events, known, readings, history, shown)
    } else {
        push_plain(text, &events.labels, event, history, shown)
    }
}

// Finds the calls and the counters of the sample in a frame. Those of a sample without counters are of no
// use.
fn find_parts(
    state: &mut State,
    order: Dynamic,
    bytes: &[u8],
    frame: &FlatFrame,
) -> Result<(), AllocError>
    ensures parts { (c : Configuration) (s : SampleValue) →
        IsFlat c (order_of order) bytes.now frame.now →
        sample_of c (order_of order) bytes.now ≡ Some s → OnOk result (HasParts c.read_format s frame.now.present state.new) }
    ensures known { state.new.known ≡ state.old.known }
{
    state.calls.clear();
    push_calls(&mut state.calls, order, bytes, frame)?;
    state.readings.clear();
    if has_bit(frame.present, READ) {
        push_readings(&mut state.readings, order, bytes, frame)
    } else {
        Ok(())
    }
}

// Appends the text of a sample in a frame.
fn push_parts(
    text: &mut Vec<u8>,
    events: &Events<'_>,
    state: &mut State,
    event: usize,
    history: &History<'_>,
    fields: u64,
    hidden: bool,
    sample: Sample,
) -> Result<(), AllocError>
    ensures { (f : File) (all : List labels.EventLabel) (changes : List Change)
        (older : List Reading) → AreEvents f all events.now → IsHistory history.now changes →
        IsCounted state.old.known older → OnOk result (IsCounted state.new.known
        (script.read_by older state.old.readings.items fields)
        × (text.new.items ≡ text.old.items ++ script.shown_text all (table_of f.events) older
        state.old.readings.items event changes
        (shown_by state.old events.now.style.fields fields hidden sample))) }
{
    let shown = Sampled {
        chosen: events.style.fields,
        fields,
        hidden,
        sample,
        calls: &state.calls,
    };
    push_shown(
        text,
        events,
        &mut state.known,
        event,
        &state.readings,
        history,
        &shown,
    )
}

// Whether a frame with this `misc` was written in a guest: `PERF_RECORD_MISC_GUEST_KERNEL` or
// `PERF_RECORD_MISC_GUEST_USER`.
fn is_guest(misc: u16) -> bool
    ensures { result ≡ script.is_guest misc }
{
    misc % 8 == 4 || misc % 8 == 5
}

// Whether the sample of the frame that was found last has no text.
fn is_hidden(filter: &Filter<'_>, walk: &Walk<'_, '_>, sample: &Sample) -> bool
    ensures { (f : File) (m : Moment) (s : SampleValue) (found : Found) →
        IsFrameOf f m found walk.now.frame → IsPast walk.now.history m.known →
        sample_of m.config (order_of f.order) m.frame ≡ Some s →
        sample.now ≡ sample_view walk.now.frame.misc s →
        result ≡ script.is_hidden f filter.now m s }
{
    let taken = walk.takes(filter, sample);
    is_guest(walk.frame().misc) || !taken
}

// Appends the line of the record in the frame that was found last, which is no sample, if it has one.
fn push_record(
    text: &mut Vec<u8>,
    events: &Events<'_>,
    found: &Found<'_>,
    walk: &Walk<'_, '_>,
) -> Result<(), AllocError>
    ensures { (f : File) (c : script.Choice) (m : Moment) →
        view walk.now.recording.now ≡ f → AreChosen f c events.now →
        IsFrameOf f m found.now walk.now.frame → IsPast walk.now.history m.known →
        OnOk result (text.new.items ≡ text.old.items ++ script.side_at f c m) }
{
    let of_event = heading_of(&events.labels, found.event).fields;
    push_side(
        text,
        events.style.fields,
        of_event,
        walk.history(),
        walk.recording().order(),
        found.bytes,
        walk.frame(),
    )
}

// Appends the same, if it is chosen.
fn push_record_if(
    text: &mut Vec<u8>,
    events: &Events<'_>,
    found: &Found<'_>,
    walk: &Walk<'_, '_>,
) -> Result<(), AllocError>
    ensures { (f : File) (c : script.Choice) (m : Moment) →
        view walk.now.recording.now ≡ f → AreChosen f c events.now →
        IsFrameOf f m found.now walk.now.frame → IsPast walk.now.history m.known →
        OnOk result (text.new.items ≡ text.old.items
        ++ text_if c.style.side_band (script.side_at f c m)) }
{
    if events.style.side_band {
        push_record(text, events, found, walk)
    } else {
        Ok(())
    }
}

// Appends the text of the sample in the frame that was found last, or the line of another record, if
// it is chosen.
fn push_found(
    text: &mut Vec<u8>,
    events: &Events<'_>,
    state: &mut State,
    found: &Found<'_>,
    walk: &Walk<'_, '_>,
) -> Result<(), AllocError>
    ensures { (f : File) (c : script.Choice) (m : Moment) (older : List Reading) →
        view walk.now.recording.now ≡ f → AreChosen f c events.now →
        IsFrameOf f m found.now walk.now.frame → IsPast walk.now.history m.known →
        IsCounted state.old.known older → OnOk result (IsCounted state.new.known (script.read_at f older m)
        × (text.new.items ≡ text.old.items ++ script.text_at f c older m)) }
{
    let frame = walk.frame();
    let Some(sample) = sample_in(frame) else {
        return push_record_if(text, events, found, walk);
    };
    find_parts(state, walk.recording().order(), found.bytes, frame)?;
    let hidden = is_hidden(&events.filter, walk, &sample);
    let history = walk.history();
    push_parts(
        text,
        events,
        state,
        found.event,
        history,
        frame.present,
        hidden,
        sample,
    )
}

// A text that grows, and what is known by then.
#[derive(Drop)]
pub struct Script<'a, 'p> {
    walk: Walk<'a, 'p>,
    state: State,
    pub(crate) text: Vec<u8>,
    pub(crate) refused: bool,
}

// Nothing is known.
fn no_state(alloc: Global) -> State
    ensures { IsCounted result.known [] }
{
    State {
        known: Counters::new(alloc),
        readings: Vec::new(alloc),
        calls: Vec::new(alloc),
    }
}

impl<'a, 'p> Script<'a, 'p> {
    // No text.
    pub(crate) fn new(alloc: Global, recording: &'a Recording<'p>) -> Script<'a, 'p>
        ensures { IsBegun recording.now result }
    {
        Script {
            walk: Walk::new(alloc, recording),
            state: no_state(alloc),
            text: Vec::new(alloc),
            refused: false,
        }
    }

    // Appends the text of the frame that was found last.
    fn push(&mut self, events: &Events<'_>, found: &Found<'_>) -> Result<(), AllocError>
        ensures pushes { (f : File) (c : script.Choice) (m : Moment) (older : List Reading) →
            view self.old.walk.recording.now ≡ f → AreChosen f c events.now →
            IsFrameOf f m found.now self.old.walk.frame → IsPast self.old.walk.history m.known →
            IsCounted self.old.state.known older → OnOk result (Pushes f c m older self.old self.new) }
        ensures walk { self.new.walk ≡ self.old.walk }
    {
        self.refused |= self.walk.frame().refusal != 0;
        push_found(&mut self.text, events, &mut self.state, found, &self.walk)
    }

    // Goes on to the frame of an entry.
    pub(crate) fn step(&mut self, events: &Events<'_>, entry: &Entry) -> Result<(), AllocError>
        ensures { (f : File) (c : script.Choice) (left : List Entry) (any : Bool)
            (whole : List ℕ) → AreChosen f c events.now →
            IsUnderWay f c (entry.now ∷ left) any whole self.old →
            OnOk result (IsUnderWay f c left any whole self.new) }
    {
        let next = self.walk.step(entry)?;
        match next {
            Some(found) => self.push(events, &found),
            None => Ok(()),
        }
    }
}
