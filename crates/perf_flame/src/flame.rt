//! A flame graph of folded stacks.

ghost use Rattle.perf_flame.specs.FoldedLines.{folded_lines};
ghost use Rattle.perf_flame.specs.Flames.{IsFlame};

use crate::boxes::boxes_of;
use crate::error::FlameError;
use crate::folded::Folded;
use crate::keys::by_frames;
use crate::svg::text_of;
use std::alloc::Global;

/// Draws folded stacks as a flame graph: one SVG without a script or a link, 1200 pixels wide.
///
/// It has a box for all stacks, and one for each beginning of stacks that is at least 0.1 pixels wide.
/// A box is as wide as the counts of the stacks that begin so, and right of those of the stacks before
/// them: siblings are in the order of their names, and children are inside their parent. Its title is
/// its name, its count, and what part of all that is. In names control bytes are `_`, and a byte that is
/// not ASCII is `\x` and two hexadecimal digits. If `inverted`, the frames of each stack are turned
/// round before.
///
/// Refused are stacks whose counts have a sum of 2^64 or more.
pub fn flame(alloc: Global, folded: &Folded, inverted: bool) -> Result<Vec<u8>, FlameError>
    ensures { IsFlame inverted (folded_lines folded.now) result }
{
    let sums = by_frames(alloc, folded, inverted)?;
    let Some(total) = sums.total() else {
        return Err(FlameError::TooMany);
    };
    let stacks = sums.into_entries()?;
    let boxes = boxes_of(alloc, &stacks, total)?;
    Ok(text_of(alloc, &boxes, total)?)
}
