//! The stacks of a flame graph, by keys whose order is that of their frames.

ghost use Rattle.std.specs.Prelude.{◌≡◌, ◌++◌, ◌==◌, IfOk, OnOk, map, reverse};
ghost use Rattle.std.specs.List.{flat_map, slice_split};
ghost use Rattle.perf_flame.specs.FoldedLines.{folded_lines};
ghost use Rattle.perf_flame.specs.Keys as keys;

use crate::folded::Folded;
use crate::stack::clean;
use std::alloc::{AllocError, Global};

// The sums of stacks by their keys.
pub(crate) fn by_frames(
    alloc: Global,
    folded: &Folded,
    inverted: bool,
) -> Result<Folded, AllocError>
    ensures { IfOk result (λ sums. folded_lines sums
        ≡ keys.by_frames inverted (folded_lines folded.now)) }
{
    let mut sums = Folded::new(alloc);
    let mut key = Vec::new(alloc);
    for (stack, count) in &folded.counts {
        key.clear();
        push_key(&mut key, alloc, stack, inverted)?;
        sums.add(&key, *count)?;
    }
    Ok(sums)
}

// Appends the key of a stack.
fn push_key(
    key: &mut Vec<u8>,
    alloc: Global,
    stack: &[u8],
    inverted: bool,
) -> Result<(), AllocError>
    ensures { OnOk result (key.new.items ≡ key.old.items ++ keys.key_of inverted stack.now) }
{
    let frames = frames_in(alloc, stack)?;
    if inverted {
        push_frames(key, &turned(frames))
    } else {
        push_frames(key, &frames)
    }
}

// The frames of a stack.
fn frames_in<'a>(alloc: Global, stack: &'a [u8]) -> Result<Vec<&'a [u8]>, AllocError>
    ensures { IfOk result (λ frames. map (λ x. x.now) frames.items
        ≡ slice_split (λ b. b == 59) stack.now) }
{
    stack.split(|byte| *byte == b';').collect(alloc)
}

// The same frames, from the last to the first.
fn turned<'a>(mut frames: Vec<&'a [u8]>) -> Vec<&'a [u8]>
    ensures { map (λ x. x.now) result.items ≡ reverse (map (λ x. x.now) frames.entry.items) }
{
    frames.reverse();
    frames
}

// Appends the keys of frames.
fn push_frames(key: &mut Vec<u8>, frames: &[&[u8]]) -> Result<(), AllocError>
    ensures { OnOk result (key.new.items
        ≡ key.old.items ++ flat_map keys.frame_key (map (λ x. x.now) frames.now)) }
{
    for frame in frames {
        push_frame(key, frame)?;
    }
    Ok(())
}

// Appends the key of a frame.
fn push_frame(key: &mut Vec<u8>, name: &[u8]) -> Result<(), AllocError>
    ensures { OnOk result (key.new.items ≡ key.old.items ++ keys.frame_key name.now) }
{
    for byte in name {
        key.push(clean(*byte))?;
    }
    key.push(0)?;
    Ok(())
}
