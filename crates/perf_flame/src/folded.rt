//! Stacks with their counts.

ghost use Rattle.std.specs.Prelude.{◌≡◌, ◌<◌, ◌^◌, ◌++◌, [], IfOk, OnOk, OnErr, map};
ghost use Rattle.std.specs.Cmp.Lexicographic.{slice_cmp};
ghost use Rattle.std.specs.List.Sorted.{IsStrictlySortedBy};
ghost use Rattle.std.specs.Map.{keys_of};
ghost use Rattle.std.specs.Option.{SomeIff};
ghost use Rattle.std.specs.Ordering.{nat_cmp};
ghost use Rattle.perf_flame.specs.Lines.{add_count, line_text, lines_text, stack_line, total_of};

use perf_text::strip::Strip;
use std::alloc::{AllocError, Global};
use std::collections::BTreeMap;

// The length of the longest count, with the space before it and the line feed after it.
const MOST_AFTER_STACK: usize = 22;

/// Stacks, each with the sum of the counts that were added for it.
///
/// A stack is any bytes. In the text of a line it stands before a space and its count, so a stack with
/// a line feed is not read back.
#[derive(Drop)]
pub struct Folded {
    pub(crate) alloc: Global,
    pub(crate) counts: BTreeMap<Vec<u8>, u64>,
}

impl Folded {
    ghost use Rattle.perf_flame.specs.FoldedLines.{entry_line, folded_lines, key_cmp};

    /// No stacks.
    pub fn new(alloc: Global) -> Folded
        ensures { folded_lines result ≡ [] }
    {
        Folded {
            alloc,
            counts: BTreeMap::new(alloc),
        }
    }

    /// Adds a count to that of a stack, modulo 2^64. It fails only if memory runs out, and then
    /// nothing is added.
    pub fn add(&mut self, stack: &[u8], count: u64) -> Result<(), AllocError>
        ensures added { OnOk result
            (folded_lines self.new ≡ add_count (folded_lines self.old) stack.now count) }
        ensures kept { OnErr result (folded_lines self.new ≡ folded_lines self.old) }
    {
        let owned = Vec::from_slice(self.alloc, stack)?;
        self.add_owned(owned, count)
    }

    // The same for a stack that is kept if it is new.
    pub(crate) fn add_owned(&mut self, stack: Vec<u8>, count: u64) -> Result<(), AllocError>
        ensures added { OnOk result
            (folded_lines self.new ≡ add_count (folded_lines self.old) stack.items count) }
        ensures kept { OnErr result (folded_lines self.new ≡ folded_lines self.old) }
    {
        let sum = self.counts.entry(stack)?.or_insert(0);
        *sum = sum.wrapping_add(count);
        Ok(())
    }

    /// The sum of all counts. `None` if it is 2^64 or more.
    pub fn total(&self) -> Option<u64>
        ensures { SomeIff result (total_of (folded_lines self.now) < 2 ^ 64)
            (total_of (folded_lines self.now)) }
    {
        let mut total = 0u64;
        for (_, count) in &self.counts {
            total = total.checked_add(*count)?;
        }
        Some(total)
    }

    /// A line for each stack, in the order of their bytes: the stack, a space, its count and a line feed.
    pub fn text(&self) -> Result<Vec<u8>, AllocError>
        ensures { IfOk result (λ text. text.items ≡ lines_text (folded_lines self.now)) }
    {
        let mut text = Vec::with_capacity(self.alloc, self.most_text_len())?;
        for (stack, count) in &self.counts {
            push_line(&mut text, stack, *count)?;
        }
        Ok(text)
    }

    // The stacks and their counts.
    pub(crate) fn into_entries(self) -> Result<Vec<(Vec<u8>, u64)>, AllocError>
        ensures entries { IfOk result (λ found. map entry_line found.items ≡ folded_lines self) }
        ensures ordered { IfOk result (λ found. IsStrictlySortedBy key_cmp (keys_of found.items)) }
    {
        let Folded { alloc, counts } = self;
        counts.into_iter().collect(alloc)
    }

    // A length that the text does not exceed.
    fn most_text_len(&self) -> usize {
        let mut len = 0usize;
        for stack in self.counts.keys() {
            len = len.saturating_add(stack.len());
            len = len.saturating_add(MOST_AFTER_STACK);
        }
        len
    }
}

// Appends the line of a stack and its count.
fn push_line(text: &mut Vec<u8>, stack: &[u8], count: u64) -> Result<(), AllocError>
    ensures { OnOk result (text.new.items
        ≡ text.old.items ++ line_text (stack_line stack.now count)) }
{
    let mut strip = Strip::new();
    strip.put("\n");
    strip.put_number(count);
    strip.put(" ");
    text.extend_from_slice(stack)?;
    text.extend_from_slice(strip.text().as_bytes())
}
