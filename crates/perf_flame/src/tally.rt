//! Counts of stacks that are added in any order, of which many are added again and again.

ghost use Rattle.std.specs.Prelude.{◌≡◌, ◌<◌, [], IfOk, IfSome, OnOk, OnErr, length, slice_index_or};
ghost use Rattle.perf_flame.specs.FoldedLines.{folded_lines};
ghost use Rattle.perf_flame.specs.Lines.{add_count};

use crate::folded::Folded;
use std::alloc::{AllocError, Global};

// How many slots there are at first.
const FIRST_SLOTS: usize = 1024;

// How many slots a stack may be in: a file can have any number of stacks with the same number.
const STEPS: usize = 32;

/// A stack, and its count so far.
#[derive(Drop)]
pub(crate) struct Counted {
    /// A number that differs for most stacks.
    pub number: u64,
    /// The stack.
    pub stack: Vec<u8>,
    /// Its count.
    pub count: u64,
}

/// Counts of stacks, which become [`Folded`] in the end. Adding to the count of a stack that was added
/// before is faster than there.
#[derive(Drop)]
pub struct Tally {
    alloc: Global,
    entries: Vec<Counted>,
    slots: Vec<usize>,
    // What was added for stacks without a slot.
    rest: Folded,
}

// A free slot for a stack with this number, if there is one.
fn free_slot(slots: &[usize], number: u64) -> Option<usize>
    ensures { IfSome result (λ slot. slot < length slots.now) }
{
    let first = (number >> 32) as usize;
    for step in 0..slots.len().min(STEPS) {
        let slot = first.wrapping_add(step) % slots.len();
        if slots[slot] == usize::MAX {
            return Some(slot);
        }
    }
    None
}

impl Tally {
    ghost use Rattle.perf_flame.specs.Tallies.{tally_lines};
    ghost use Rattle.perf_flame.specs.declared.tally.Counted.{Counted};

    /// No stacks.
    pub fn new(alloc: Global) -> Tally
        ensures { tally_lines result ≡ [] }
    {
        Tally {
            alloc,
            entries: Vec::new(alloc),
            slots: Vec::new(alloc),
            rest: Folded::new(alloc),
        }
    }

    /// Adds a count to that of a stack, modulo 2^64. The number is the same for the same stack, and
    /// differs for most stacks; whatever it is, the counts are right. It fails only if memory runs out,
    /// and then nothing is added.
    pub fn add(&mut self, number: u64, stack: &[u8], count: u64) -> Result<(), AllocError>
        ensures added { OnOk result
            (tally_lines self.new ≡ add_count (tally_lines self.old) stack.now count) }
        ensures kept { OnErr result (tally_lines self.new ≡ tally_lines self.old) }
    {
        match self.find(number, stack) {
            Some(index) => {
                self.add_at(index, count);
                Ok(())
            }
            None => self.push(number, stack, count),
        }
    }

    // The index of the entry of a stack, if there is one.
    fn find(&self, number: u64, stack: &[u8]) -> Option<usize>
        ensures within { IfSome result (λ index. index < length self.now.entries.items) }
        ensures found { IfSome result (λ index. (d : Counted) →
            (slice_index_or self.now.entries.items index d).stack.items ≡ stack.now) }
    {
        let first = (number >> 32) as usize;
        for step in 0..self.slots.len().min(STEPS) {
            let slot = first.wrapping_add(step) % self.slots.len();
            let index = self.slots[slot];
            let entry = self.entries.get(index)?;
            if entry.number == number && entry.stack.as_slice() == stack {
                return Some(index);
            }
        }
        None
    }

    // Adds a count to that of an entry.
    fn add_at(&mut self, index: usize, count: u64)
        requires { index < length self.old.entries.items }
        ensures { (d : Counted) → tally_lines self.new ≡ add_count (tally_lines self.old)
            (slice_index_or self.old.entries.items index d).stack.items count }
    {
        let entry = &mut self.entries[index];
        entry.count = entry.count.wrapping_add(count);
    }

    // Appends an entry, or adds to the rest.
    #[inline(never)]
    fn push(&mut self, number: u64, stack: &[u8], count: u64) -> Result<(), AllocError>
        ensures added { OnOk result
            (tally_lines self.new ≡ add_count (tally_lines self.old) stack.now count) }
        ensures kept { OnErr result (tally_lines self.new ≡ tally_lines self.old) }
    {
        self.make_slots()?;
        let slot = match free_slot(&self.slots, number) {
            Some(slot) => slot,
            None => return self.rest.add(stack, count),
        };
        let index = self.entries.len();
        let stack = Vec::from_slice(self.alloc, stack)?;
        self.entries.push(Counted {
            number,
            stack,
            count,
        })?;
        self.slots[slot] = index;
        Ok(())
    }

    // Makes more slots, if half of them are not enough.
    #[cold]
    #[inline(never)]
    fn make_slots(&mut self) -> Result<(), AllocError>
        ensures entries { self.new.entries ≡ self.old.entries }
        ensures rest { self.new.rest ≡ self.old.rest }
    {
        if self.entries.len() < self.slots.len() / 2 {
            return Ok(());
        }
        let len = self.slots.len().saturating_mul(2).max(FIRST_SLOTS);
        let mut slots = Vec::new(self.alloc);
        slots.resize(len, usize::MAX)?;
        for index in 0..self.entries.len() {
            if let Some(slot) = free_slot(&slots, self.entries[index].number) {
                slots[slot] = index;
            }
        }
        self.slots = slots;
        Ok(())
    }

    /// The stacks with their counts, in order.
    pub fn into_folded(self) -> Result<Folded, AllocError>
        ensures { IfOk result (λ folded. folded_lines folded ≡ tally_lines self) }
    {
        let Tally {
            alloc: _,
            entries,
            slots: _,
            rest: mut folded,
        } = self;
        for entry in entries {
            folded.add_owned(entry.stack, entry.count)?;
        }
        Ok(folded)
    }
}
