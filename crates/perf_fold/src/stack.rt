//! The stack of a sample.

ghost use Rattle.std.specs.Prelude.{◌≡◌, ◌++◌, ℕ, List, OnOk, Some, map, reverse};
ghost use Rattle.perf_base.specs.Dynamic.{order_of};
ghost use Rattle.perf_file.specs.Views.{view};
ghost use Rattle.perf_flame.specs.Stacks.{clean};
ghost use Rattle.perf_flame.specs.Grown.{text_of};
ghost use Rattle.perf_flame.specs.Names.{frame_name, thread_name};
ghost use Rattle.perf_flame.specs.declared.names.Frames as named;
ghost use Rattle.perf_history.specs.Histories.{name_of, place_of};
ghost use Rattle.perf_history.specs.declared.changes.Change.{Change};
ghost use Rattle.perf_sample_types.specs.Sample.{SampleValue};
ghost use Rattle.perf_walk.specs.Plain.{IsPast};
ghost use Rattle.perf_walk.specs.Calls.{calls_of};
ghost use Rattle.perf_walk.specs.Moments.{Moment};
ghost use Rattle.perf_walk.specs.Samples.{sample_of, sample_view};
ghost use Rattle.perf_walk.specs.Steps.{IsFrameOf};
ghost use Rattle.perf_fold.specs.EventLabels.{labels_view};
ghost use Rattle.perf_fold.specs.Memories.{IsMemoryOf};
ghost use Rattle.perf_fold.specs.SampleStacks as stack;

use crate::labels::{Label, name_at};
use perf_flame::names::Frames;
use perf_flame::stacks::Stacks;
use perf_history::{Memory, Mode, Place};
use perf_walk::{Call, Found, Sample, Walk, push_calls};
use std::alloc::AllocError;

// Appends the calls of the chain of a sample, the innermost first, by the frame that was found.
fn push_found(
    calls: &mut Vec<Call>,
    walk: &Walk<'_, '_>,
    found: &Found<'_>,
) -> Result<(), AllocError>
    ensures { (m : Moment) (s : SampleValue) →
        IsFrameOf (view walk.now.recording.now) m found.now walk.now.frame →
        sample_of m.config (order_of (view walk.now.recording.now).order) m.frame ≡ Some s →
        OnOk result (calls.new.items ≡ calls.old.items ++ calls_of s) }
{
    push_calls(calls, walk.recording().order(), found.bytes, walk.frame())
}

// Appends a call, if there are none.
fn push_if_empty(calls: &mut Vec<Call>, call: Call) -> Result<(), AllocError>
    ensures { OnOk result (calls.new.items ≡ stack.or_call calls.old.items call) }
{
    if !calls.is_empty() {
        return Ok(());
    }
    calls.push(call)?;
    Ok(())
}

// Puts the calls of a sample in place of others, the innermost first, by the frame that was found.
pub(crate) fn put_calls(
    calls: &mut Vec<Call>,
    walk: &Walk<'_, '_>,
    found: &Found<'_>,
    sample: &Sample,
) -> Result<(), AllocError>
    ensures { (m : Moment) (s : SampleValue) →
        IsFrameOf (view walk.now.recording.now) m found.now walk.now.frame →
        sample_of m.config (order_of (view walk.now.recording.now).order) m.frame ≡ Some s →
        sample.now ≡ sample_view walk.now.frame.misc s →
        OnOk result (calls.new.items ≡ stack.sample_calls walk.now.frame.misc s) }
{
    calls.clear();
    push_found(calls, walk, found)?;
    let own = Call {
        mode: sample.mode,
        address: sample.ip,
    };
    push_if_empty(calls, own)
}

// Begins a stack by the name of a thread.
fn start(stacks: &mut Stacks<'_>, walk: &Walk<'_, '_>, tid: u32) -> Result<(), AllocError>
    ensures { (known : List Change) → IsPast walk.now.history known →
        OnOk result (text_of stacks.new ≡ map clean (thread_name (name_of known tid))) }
{
    stacks.start(walk.comm(tid))
}

// Appends the frame of an event, if there are several.
fn push_event(stacks: &mut Stacks<'_>, labels: &[Label], event: usize) -> Result<(), AllocError>
    ensures { OnOk result (text_of stacks.new
        ≡ text_of stacks.old ++ stack.event_text (labels_view labels.now) event) }
{
    if labels.len() < 2 {
        return Ok(());
    }
    stacks.push_named(name_at(labels, event))
}

// The memory in which a process runs code of its own, by what is known in a walk.
fn memory_of<'h, 'p>(walk: &'h Walk<'_, 'p>, pid: u32) -> Memory<'h, 'p>
    ensures { (known : List Change) → IsPast walk.now.history known → IsMemoryOf pid known result }
{
    walk.history().memory(pid, Mode::User)
}

// What is mapped at an address, unless the name of its frame does not depend on that.
fn place_at<'p>(memory: &Memory<'_, 'p>, mode: Mode, address: u64) -> Option<Place<'p>>
    ensures { (frames : named.Frames) (pid : ℕ) (known : List Change) → IsMemoryOf pid known memory.now →
        frame_name frames mode address result
        ≡ frame_name frames mode address (place_of known pid mode address) }
{
    match mode {
        Mode::User => memory.place(address),
        _ => None,
    }
}

// Appends the frame of a call in a process.
fn push_call<'p>(
    stacks: &mut Stacks<'p>,
    memory: &Memory<'_, 'p>,
    frames: Frames,
    call: Call,
) -> Result<(), AllocError>
    ensures { (pid : ℕ) (known : List Change) → IsMemoryOf pid known memory.now →
        OnOk result (text_of stacks.new
        ≡ text_of stacks.old ++ stack.call_text frames pid known call) }
{
    let place = place_at(memory, call.mode, call.address);
    stacks.push(frames, call.mode, call.address, place)
}

// Appends the frames of calls in a process, from the last to the first.
fn push_each<'p>(
    stacks: &mut Stacks<'p>,
    memory: &Memory<'_, 'p>,
    frames: Frames,
    calls: &[Call],
) -> Result<(), AllocError>
    ensures { (pid : ℕ) (known : List Change) → IsMemoryOf pid known memory.now →
        OnOk result (text_of stacks.new
        ≡ text_of stacks.old ++ stack.calls_text frames pid known (reverse calls.now)) }
{
    for index in 0..calls.len() {
        let call = calls[calls.len() - 1 - index];
        push_call(stacks, memory, frames, call)?;
    }
    Ok(())
}

// Makes the stack of a sample with these calls, the innermost first, of the event with that number, by
// what is known in a walk.
pub(crate) fn put_stack<'p>(
    stacks: &mut Stacks<'p>,
    walk: &Walk<'_, 'p>,
    labels: &[Label],
    event: usize,
    frames: Frames,
    sample: &Sample,
    calls: &[Call],
) -> Result<(), AllocError>
    ensures { (known : List Change) → IsPast walk.now.history known →
        OnOk result (text_of stacks.new
        ≡ stack.stack_text frames (labels_view labels.now) event known sample.now (reverse calls.now)) }
{
    start(stacks, walk, sample.tid)?;
    push_event(stacks, labels, event)?;
    let memory = memory_of(walk, sample.pid);
    push_each(stacks, &memory, frames, calls)
}
