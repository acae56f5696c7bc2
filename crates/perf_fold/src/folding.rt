//! Folds a recording.

ghost use Rattle.std.specs.Prelude.{◌≡◌, [], IfOk, List, OnOk};
ghost use Rattle.perf_base.specs.Dynamic.{order_of};
ghost use Rattle.perf_file.specs.Views.{view};
ghost use Rattle.perf_flame.specs.FoldedLines.{folded_lines};
ghost use Rattle.perf_history.specs.declared.changes.Change.{Change};
ghost use Rattle.perf_walk.specs.Moments.{moments};
ghost use Rattle.perf_walk.specs.Plain.{IsPast};
ghost use Rattle.perf_words.specs.Bits.{has_bit};
ghost use Rattle.perf_fold.specs.EventLabels.{labels_view, own_labels};
ghost use Rattle.perf_fold.specs.Folds as folds;

use crate::labels::{Label, counts_at, labels_of, period_at};
use crate::stack::{put_calls, put_stack};
use perf_file::{Entry, Recording};
use perf_flame::folded::Folded;
use perf_flame::names::Frames;
use perf_flame::stacks::Stacks;
use perf_flame::tally::Tally;
use perf_walk::{Call, Filter, Found, Sample, Walk, sample_in};
use std::alloc::{AllocError, Global};

/// What a sample counts as.
#[derive(Clone, Copy, Debug, PartialEq, Eq)]
pub enum Weight {
    /// One.
    Samples,
    /// Its period: how many events happened since the sample before. A sample that contains none has
    /// that of its event.
    Period,
}

/// How a recording is folded.
#[derive(Clone, Copy, Debug)]
pub struct Choice<'a> {
    /// What frames are named by.
    pub frames: Frames,
    /// What a sample counts as.
    pub weight: Weight,
    /// Which samples count.
    pub filter: Filter<'a>,
}

// The flag of the period, as a bit of a sample type.
const PERIOD: u32 = 8;

// Whether a sample with these fields contains a period.
fn has_period(fields: u64) -> bool
    ensures { result ≡ has_bit fields PERIOD }
{
    (fields >> PERIOD) % 2 == 1
}

// What a sample with these fields counts as, whose event has that period.
fn weight_of(weight: Weight, period: u64, fields: u64, sample: &Sample) -> u64
    ensures { result ≡ folds.weight_of weight period fields sample.now }
{
    match weight {
        Weight::Samples => 1,
        Weight::Period => {
            if has_period(fields) {
                sample.period
            } else {
                period
            }
        }
    }
}

// The lines of the frames so far, and what is used again for each.
#[derive(Drop)]
struct Folder<'a, 'p> {
    how: Choice<'a>,
    labels: &'a [Label],
    stacks: Stacks<'p>,
    calls: Vec<Call>,
    tally: Tally,
}

impl<'a, 'p> Folder<'a, 'p> {
    ghost use Rattle.std.specs.Prelude.{Some, reverse};
    ghost use Rattle.perf_flame.specs.Lines.{add_count};
    ghost use Rattle.perf_flame.specs.Tallies.{tally_lines};
    ghost use Rattle.perf_fold.specs.EventLabels.{label_at};
    ghost use Rattle.perf_fold.specs.SampleStacks.{sample_calls, stack_text};
    ghost use Rattle.perf_sample_types.specs.Sample.{SampleValue};
    ghost use Rattle.perf_walk.specs.Samples.{sample_of, sample_view};
    ghost use Rattle.perf_walk.specs.Moments.{Moment, known_after, moment_at};
    ghost use Rattle.perf_walk.specs.Steps.{IsFrameOf};

    // No lines yet.
    fn new(alloc: Global, how: Choice<'a>, labels: &'a [Label]) -> Folder<'a, 'p>
        ensures how { result.how ≡ how.entry }
        ensures labels { result.labels.now ≡ labels.now }
        ensures lines { tally_lines result.tally ≡ [] }
    {
        Folder {
            how,
            labels,
            stacks: Stacks::new(alloc),
            calls: Vec::new(alloc),
            tally: Tally::new(alloc),
        }
    }

    // Adds a sample, that of a frame that was found.
    fn add_sample(
        &mut self,
        walk: &Walk<'_, 'p>,
        found: &Found<'_>,
        sample: &Sample,
    ) -> Result<(), AllocError>
        ensures added { (m : Moment) (s : SampleValue) →
            IsFrameOf (view walk.now.recording.now) m found.now walk.now.frame →
            IsPast walk.now.history m.known →
            sample_of m.config (order_of (view walk.now.recording.now).order) m.frame ≡ Some s →
            sample.now ≡ sample_view walk.now.frame.misc s →
            OnOk result (tally_lines self.new.tally ≡ add_count (tally_lines self.old.tally)
            (stack_text self.old.how.frames (labels_view self.old.labels.now) m.event m.known sample.now
            (reverse (sample_calls walk.now.frame.misc s)))
            (folds.weight_at self.old.how (labels_view self.old.labels.now) m sample.now)) }
        ensures how { self.new.how ≡ self.old.how }
        ensures labels { self.new.labels ≡ self.old.labels }
    {
        put_calls(&mut self.calls, walk, found, sample)?;
        let frames = self.how.frames;
        let labels = self.labels;
        let calls = &self.calls;
        put_stack(
            &mut self.stacks,
            walk,
            labels,
            found.event,
            frames,
            sample,
            calls,
        )?;
        let weight = self.weight(walk, found, sample);
        let number = self.stacks.number();
        self.tally.add(number, self.stacks.text(), weight)
    }

    // What a sample counts as, that of a frame that was found.
    fn weight(&self, walk: &Walk<'_, 'p>, found: &Found<'_>, sample: &Sample) -> u64
        ensures { (m : Moment) (s : SampleValue) →
            IsFrameOf (view walk.now.recording.now) m found.now walk.now.frame →
            sample_of m.config (order_of (view walk.now.recording.now).order) m.frame ≡ Some s →
            result ≡ folds.weight_at self.now.how (labels_view self.now.labels.now) m sample.now }
    {
        let period = period_at(self.labels, found.event);
        let fields = walk.frame().present;
        weight_of(self.how.weight, period, fields, sample)
    }

    // Whether a sample counts, that of a frame that was found.
    fn takes(&self, walk: &Walk<'_, 'p>, found: &Found<'_>, sample: &Sample) -> bool
        ensures { (m : Moment) (s : SampleValue) →
            IsFrameOf (view walk.now.recording.now) m found.now walk.now.frame →
            IsPast walk.now.history m.known →
            sample_of m.config (order_of (view walk.now.recording.now).order) m.frame ≡ Some s →
            sample.now ≡ sample_view walk.now.frame.misc s →
            result ≡ folds.takes self.now.how (labels_view self.now.labels.now) m walk.now.frame.misc s }
    {
        let counts = counts_at(self.labels, found.event);
        let taken = walk.takes(&self.how.filter, sample);
        counts && taken
    }

    // Adds a sample, that of a frame that was found, if it counts.
    fn add_if_taken(
        &mut self,
        walk: &Walk<'_, 'p>,
        found: &Found<'_>,
        sample: &Sample,
    ) -> Result<(), AllocError>
        ensures added { (m : Moment) (s : SampleValue) →
            IsFrameOf (view walk.now.recording.now) m found.now walk.now.frame →
            IsPast walk.now.history m.known →
            sample_of m.config (order_of (view walk.now.recording.now).order) m.frame ≡ Some s →
            sample.now ≡ sample_view walk.now.frame.misc s →
            OnOk result (tally_lines self.new.tally ≡ folds.add_taken self.old.how
            (labels_view self.old.labels.now) m walk.now.frame.misc (tally_lines self.old.tally) s) }
        ensures how { self.new.how ≡ self.old.how }
        ensures labels { self.new.labels ≡ self.old.labels }
    {
        if self.takes(walk, found, sample) {
            self.add_sample(walk, found, sample)
        } else {
            Ok(())
        }
    }

    // Adds the sample of a frame that was found, if it is one.
    fn add(&mut self, walk: &Walk<'_, 'p>, found: &Found<'_>) -> Result<(), AllocError>
        ensures added { (m : Moment) → IsFrameOf (view walk.now.recording.now) m found.now walk.now.frame →
            IsPast walk.now.history m.known →
            OnOk result (tally_lines self.new.tally ≡ folds.add_chosen self.old.how
            (labels_view self.old.labels.now) (order_of (view walk.now.recording.now).order)
            (tally_lines self.old.tally) m) }
        ensures how { self.new.how ≡ self.old.how }
        ensures labels { self.new.labels ≡ self.old.labels }
    {
        let frame = walk.frame();
        match sample_in(frame) {
            Some(sample) => self.add_if_taken(walk, found, &sample),
            None => Ok(()),
        }
    }

    // Goes on to the frame of an entry, and adds it.
    fn go_on(&mut self, walk: &mut Walk<'_, 'p>, entry: &Entry) -> Result<(), AllocError>
        ensures gone { (known : List Change) → IsPast walk.old.history known →
            OnOk result (IsPast walk.new.history (known_after (view walk.old.recording.now) entry.now known)
            × (tally_lines self.new.tally ≡ folds.add_if self.old.how (labels_view self.old.labels.now)
            (order_of (view walk.old.recording.now).order) (tally_lines self.old.tally)
            (moment_at (view walk.old.recording.now) entry.now known))) }
        ensures how { self.new.how ≡ self.old.how }
        ensures labels { self.new.labels ≡ self.old.labels }
        ensures recording { walk.new.recording.now ≡ walk.old.recording.now }
    {
        let found = walk.step(entry)?;
        match found {
            Some(found) => self.add(walk, &found),
            None => Ok(()),
        }
    }
}

/// The folded stacks of a recording: for each sample, in order of time, a stack, whose count is how
/// many samples have it, or the sum of their periods modulo 2^64. Samples that the filter does not
/// take do not count.
///
/// A stack is the name of the thread, the name of the event if the file has several, and the frames
/// of the call chain from the outermost to the innermost. Without addresses in the chain, the
/// address of the instruction is the one frame.
/// A sample of a group counts once, for the event of its frame.
pub fn fold(alloc: Global, recording: &Recording<'_>, how: Choice<'_>) -> Result<Folded, AllocError>
    ensures { IfOk result (λ folded. folds.IsFoldOf how.entry (own_labels how.entry.filter recording.now.events.items)
        (view recording.now) (folded_lines folded)) }
{
    let labels = labels_of(alloc, &how.filter, recording)?;
    fold_labelled(alloc, recording, how, &labels)
}

// The folded stacks of a recording whose events have these labels.
pub(crate) fn fold_labelled(
    alloc: Global,
    recording: &Recording<'_>,
    how: Choice<'_>,
    labels: &[Label],
) -> Result<Folded, AllocError>
    ensures { IfOk result (λ folded. folds.IsFoldOf how.entry (labels_view labels.now)
        (view recording.now) (folded_lines folded)) }
{
    let entries = recording.in_order(alloc)?;
    fold_entries(alloc, recording, how, labels, &entries)
}

// The folded stacks of the samples of entries.
fn fold_entries(
    alloc: Global,
    recording: &Recording<'_>,
    how: Choice<'_>,
    labels: &[Label],
    entries: &[Entry],
) -> Result<Folded, AllocError>
    ensures { IfOk result (λ folded. folded_lines folded ≡ folds.add_moments how.entry
        (labels_view labels.now) (order_of (view recording.now).order) []
        (moments (view recording.now) entries.now [])) }
{
    let mut walk = Walk::new(alloc, recording);
    let mut folder = Folder::new(alloc, how, labels);
    for entry in entries {
        folder.go_on(&mut walk, entry)?;
    }
    folder.tally.into_folded()
}
