//! The boxes of a flame graph.

ghost use Rattle.std.specs.Prelude.{◌≡◌, ◌+◌, ◌++◌, ◌<◌, ◌≤◌, ◌^◌, IfOk, OnOk, [], map, nat_eq, length};
ghost use Rattle.std.specs.List.{common_prefix_len};
ghost use Rattle.perf_flame.specs.Boxes as defined;
ghost use Rattle.perf_flame.specs.BoxViews.{box_view};
ghost use Rattle.std.specs.List.Sorted.{IsStrictlySortedBy};
ghost use Rattle.std.specs.Map.{keys_of};
ghost use Rattle.perf_flame.specs.FoldedLines.{entry_line, key_cmp};
ghost use Rattle.perf_flame.specs.Lines.{total_of};
ghost use Rattle.perf_flame.specs.Scans as scans;

use std::alloc::{AllocError, Global};

/// A stack by its key, and its count.
pub(crate) type Entry = (Vec<u8>, u64);

// The narrowest box is this part of all.
const PARTS: u128 = 12000;

/// A box of a flame graph.
#[derive(Copy, Clone)]
pub(crate) struct FlameBox<'a> {
    /// The name of its frame.
    pub name: &'a [u8],
    /// How many frames are below it.
    pub depth: usize,
    /// The counts of the stacks before those that begin so.
    pub left: u64,
    /// Those of the stacks that begin so.
    pub worth: u64,
}

// How many first bytes two keys share.
fn shared_len(first: &[u8], second: &[u8]) -> usize
    ensures { result ≡ common_prefix_len nat_eq first.now second.now }
{
    let mut len = 0;
    while len < first.len() && len < second.len() && first[len] == second[len] {
        len += 1;
    }
    len
}

// How many first bytes each key shares with the one before it.
fn shares_of(alloc: Global, stacks: &[Entry]) -> Result<Vec<usize>, AllocError>
    ensures { IfOk result (λ found. found.items ≡ scans.shares [] (map entry_line stacks.now)) }
{
    let mut found = Vec::with_capacity(alloc, stacks.len())?;
    let mut last: &[u8] = &[];
    for (key, _) in stacks {
        found.push(shared_len(last, key))?;
        last = key;
    }
    Ok(found)
}

// The counts of the first stacks, as long as each shares the bytes up to a place with the one before.
fn run(stacks: &[Entry], shares: &[usize], place: usize) -> u64
    requires { total_of (map entry_line stacks.now) < 2 ^ 64 }
    ensures { result ≡ scans.run place shares.now (map entry_line stacks.now) }
{
    let mut sum = 0;
    let mut at = 0;
    while at < stacks.len() && at < shares.len() && place < shares[at] {
        sum += stacks[at].1;
        at += 1;
    }
    sum
}

// Appends a box, if it is wide enough.
fn push_if_wide<'a>(
    boxes: &mut Vec<FlameBox<'a>>,
    total: u64,
    found: FlameBox<'a>,
) -> Result<(), AllocError>
    ensures { OnOk result (map box_view boxes.new.items
        ≡ map box_view boxes.old.items ++ defined.if_wide total (box_view found.entry)) }
{
    if found.worth > 0 && u128::from(total) <= u128::from(found.worth) * PARTS {
        boxes.push(found)?;
    }
    Ok(())
}

// Appends the box of a frame that ends at a place, unless the stack before shares it. What it is worth
// of its first stack is given, and the stacks after that one are.
fn push_ending<'a>(
    boxes: &mut Vec<FlameBox<'a>>,
    total: u64,
    found: FlameBox<'a>,
    share: usize,
    place: usize,
    rest: &[Entry],
    shares: &[usize],
) -> Result<(), AllocError>
    requires { found.worth + total_of (map entry_line rest.now) < 2 ^ 64 }
    ensures { OnOk result (map box_view boxes.new.items ≡ map box_view boxes.old.items
        ++ scans.if_new total (box_view found.entry) share place shares.now (map entry_line rest.now)) }
{
    if share > place {
        return Ok(());
    }
    let worth = found.worth + run(rest, shares, place);
    push_if_wide(boxes, total, FlameBox { worth, ..found })
}

// Appends the boxes of a stack that the stack before it does not share.
fn push_new_boxes<'a>(
    boxes: &mut Vec<FlameBox<'a>>,
    total: u64,
    before: u64,
    stack: &'a Entry,
    share: usize,
    rest: &[Entry],
    shares: &[usize],
) -> Result<(), AllocError>
    requires { stack.now.1 + total_of (map entry_line rest.now) < 2 ^ 64 }
    ensures { OnOk result (map box_view boxes.new.items ≡ map box_view boxes.old.items
        ++ scans.scanned_boxes total before (entry_line stack.now) share shares.now (map entry_line rest.now)) }
{
    let key: &'a [u8] = &stack.0;
    let mut start = 0;
    let mut depth = 1;
    for place in 0..key.len() {
        if key[place] == 0 {
            let found = FlameBox {
                name: &key[start..place],
                depth,
                left: before,
                worth: stack.1,
            };
            push_ending(boxes, total, found, share, place, rest, shares)?;
            start = place + 1;
            depth += 1;
        }
    }
    Ok(())
}

/// The boxes of stacks whose keys ascend, and whose counts have that sum.
pub(crate) fn boxes_of<'a>(
    alloc: Global,
    stacks: &'a [Entry],
    total: u64,
) -> Result<Vec<FlameBox<'a>>, AllocError>
    requires ordered { IsStrictlySortedBy key_cmp (keys_of stacks.now) }
    requires total { total ≡ total_of (map entry_line stacks.now) }
    ensures { IfOk result (λ found. map box_view found.items ≡ defined.boxes_of (map entry_line stacks.now)) }
{
    let shares = shares_of(alloc, stacks)?;
    let mut found = Vec::new(alloc);
    let all = FlameBox {
        name: b"all",
        depth: 0,
        left: 0,
        worth: total,
    };
    push_if_wide(&mut found, total, all)?;
    let mut before = 0;
    for at in 0..stacks.len() {
        push_new_boxes(
            &mut found,
            total,
            before,
            &stacks[at],
            shares[at],
            &stacks[at + 1..],
            &shares[at + 1..],
        )?;
        before += stacks[at].1;
    }
    Ok(found)
}
