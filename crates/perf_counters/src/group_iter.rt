//! The entries of a group, from both ends.

ghost use Rattle.std.specs.Prelude.{◌≡◌, ◌*◌, length};
ghost use Rattle.perf_counters.specs.GroupEntry.{block_len, entries_of};

use crate::group_entry::{GroupEntry, block_len};
use std::alloc::AllocError;
use std::iter::FusedIterator;

/// The entries of a group, first to last, and also from the back. It reads the group's numbers in
/// place and needs no memory. Once nothing is left it always returns `None`.
#[derive(Drop)]
pub struct GroupIter<'a> {
    words: &'a [u64],
    left: usize,
    with_id: bool,
    with_lost: bool,
    ghost whole: { length words.now ≡ left * block_len with_id with_lost },
}

impl<'a> GroupIter<'a> {
    ghost use Rattle.perf_counters.specs.GroupIter.{entries_left};

    // The first `left` entries of a list that has no others.
    #[inline]
    pub(crate) fn new(
        words: &'a [u64],
        left: usize,
        with_id: bool,
        with_lost: bool,
    ) -> GroupIter<'a>
        requires { length words.now ≡ left * block_len with_id with_lost }
        ensures { entries_left result ≡ entries_of with_id with_lost left words.now }
    {
        GroupIter {
            words,
            left,
            with_id,
            with_lost,
        }
    }
}

/// A second iterator over the remaining entries. It needs no memory.
impl<'a> Clone for GroupIter<'a> {
    ghost use Rattle.std.specs.Prelude.{⊤};
    ghost use Rattle.perf_counters.specs.GroupIter.{entries_left};

    ghost is_clone = { λ it copy. entries_left copy ≡ entries_left it };

    ghost is_infallible = { λ _. ⊤ };

    fn clone(&self) -> Result<GroupIter<'a>, AllocError> {
        Ok(GroupIter {
            words: self.words,
            left: self.left,
            with_id: self.with_id,
            with_lost: self.with_lost,
        })
    }
}

impl<'a> Iterator for GroupIter<'a> {
    type Item = GroupEntry;

    ghost use Rattle.std.specs.Prelude.{Some, IfSome};
    ghost use Rattle.std.specs.Iterator.{YieldsFirst, item_count, UpTo};
    ghost use Rattle.std.specs.Iterator.SizeHint.{IsWithinCount};
    ghost use Rattle.perf_counters.specs.GroupIter.{entries_left};

    ghost next_gives = { YieldsFirst entries_left };

    ghost remaining = { item_count entries_left };

    #[inline]
    fn next(&mut self) -> Option<GroupEntry> {
        if self.left == 0 {
            return None;
        }
        let (block, after) = self.words.split_at(block_len(self.with_id, self.with_lost));
        self.words = after;
        self.left -= 1;
        Some(GroupEntry::of_block(block, self.with_id, self.with_lost))
    }

    #[inline]
    fn size_hint(&self) -> (usize, Option<usize>)
        ensures lower { IsWithinCount result.0 (item_count entries_left self.now) }
        ensures upper { IfSome result.1 (UpTo (item_count entries_left self.now)) }
        ensures exact { result.1 ≡ Some (length (entries_left self.now)) }
        ensures equal { result.1 ≡ Some result.0 }
    {
        (self.left, Some(self.left))
    }
}

impl<'a> DoubleEndedIterator for GroupIter<'a> {
    ghost use Rattle.std.specs.Iterator.{YieldsLast};
    ghost use Rattle.perf_counters.specs.GroupIter.{entries_left};

    ghost next_back_gives = { YieldsLast entries_left };

    #[inline]
    fn next_back(&mut self) -> Option<GroupEntry> {
        if self.left == 0 {
            return None;
        }
        let place = self.words.len() - block_len(self.with_id, self.with_lost);
        let (before, block) = self.words.split_at(place);
        self.words = before;
        self.left -= 1;
        Some(GroupEntry::of_block(block, self.with_id, self.with_lost))
    }
}

impl<'a> ExactSizeIterator for GroupIter<'a> {
    #[inline]
    fn len(&self) -> usize {
        self.left
    }
}

impl<'a> FusedIterator for GroupIter<'a> {}
