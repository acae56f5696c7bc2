//! A list that is borrowed from the input if possible, and owned otherwise.

ghost use Rattle.std.specs.Prelude.{◌≡◌, ◌≤◌, length, take, drop, IsTrue, ◌↔◌, [], IsOk, IfOk};
ghost use Rattle.std.specs.Prelude.{IfErr};
ghost use Rattle.perf_base.specs.Cow.{cow_items, is_borrowed, cow_form};
ghost use Rattle.perf_base.specs.Copies.{IsClone, IsOwnedCopy};
ghost use Rattle.perf_base.specs.Errors.{kind_of};

use crate::error::{ErrorKind, ParseResult};
use std::alloc::Global;

/// Items that are borrowed from the input, or owned. In contracts it is the list of its items,
/// either way.
#[derive(Debug, Drop)]
pub enum CowSlice<'a, T: Copy> {
    /// Borrowed from the input, and valid as long as the input.
    Borrowed(&'a [T]),
    /// Owned, because the input does not live long enough or was in pieces.
    Owned(Vec<T>),
}

impl<'a, T: Copy> CowSlice<'a, T> {
    /// The items.
    #[inline]
    pub fn as_slice(&self) -> &[T]
        ensures { result.now ≡ cow_items self.now }
    {
        match self {
            CowSlice::Borrowed(items) => items,
            CowSlice::Owned(items) => items.as_slice(),
        }
    }

    /// The number of items.
    #[inline]
    pub fn len(&self) -> usize
        ensures { result ≡ length (cow_items self.now) }
    {
        match self {
            CowSlice::Borrowed(items) => items.len(),
            CowSlice::Owned(items) => items.len(),
        }
    }

    /// Whether there are no items.
    #[inline]
    pub fn is_empty(&self) -> bool
        ensures { IsTrue result ↔ (cow_items self.now ≡ []) }
    {
        match self {
            CowSlice::Borrowed(items) => items.is_empty(),
            CowSlice::Owned(items) => items.is_empty(),
        }
    }

    /// The first `at` items, and those after them. Both are borrowed if the items are, and then no
    /// memory is needed.
    pub fn split_at(
        self,
        alloc: Global,
        at: usize,
    ) -> ParseResult<(CowSlice<'a, T>, CowSlice<'a, T>)>
        requires { at ≤ length (cow_items self) }
        ensures front { IfOk result (λ parts. cow_items parts.0 ≡ take at (cow_items self.entry)) }
        ensures back { IfOk result (λ parts. cow_items parts.1 ≡ drop at (cow_items self.entry)) }
        ensures front_form { IfOk result (λ parts. is_borrowed parts.0 ≡ is_borrowed self.entry) }
        ensures back_form { IfOk result (λ parts. is_borrowed parts.1 ≡ is_borrowed self.entry) }
        ensures refused { IfErr result (λ e. kind_of e ≡ ErrorKind.OutOfMemory) }
        ensures no_memory { IsTrue (is_borrowed self.entry) → IsOk result }
    {
        match self {
            CowSlice::Borrowed(items) => {
                let (front, back) = items.split_at(at);
                Ok((CowSlice::Borrowed(front), CowSlice::Borrowed(back)))
            }
            CowSlice::Owned(mut items) => {
                let back = Vec::from_slice(alloc, &items[at..])?;
                items.truncate(at);
                Ok((CowSlice::Owned(items), CowSlice::Owned(back)))
            }
        }
    }

    /// Keeps the first `len` items, or all if there are fewer. It needs no memory.
    pub fn truncate(&mut self, len: usize)
        ensures items { cow_items self.new ≡ take len (cow_items self.old) }
        ensures form { is_borrowed self.new ≡ is_borrowed self.old }
    {
        match self {
            CowSlice::Borrowed(items) => {
                if len < items.len() {
                    *items = &items[..len];
                }
            }
            CowSlice::Owned(items) => items.truncate(len),
        }
    }

    /// A copy of the items: borrowed if they are, and then no memory is needed; otherwise owned.
    pub fn clone(&self, alloc: Global) -> ParseResult<CowSlice<'a, T>>
        ensures { IsClone cow_items cow_form self.now result }
    {
        match self {
            CowSlice::Borrowed(items) => Ok(CowSlice::Borrowed(items)),
            CowSlice::Owned(items) => {
                let copy = Vec::from_slice(alloc, items.as_slice())?;
                Ok(CowSlice::Owned(copy))
            }
        }
    }

    /// Makes the items owned, so that they do not borrow from the input. It needs no memory if they
    /// are owned already. If out of memory, it returns `OutOfMemory` and the items are dropped.
    pub fn into_owned<'b>(self, alloc: Global) -> ParseResult<CowSlice<'b, T>>
        ensures { IsOwnedCopy cow_items cow_form self.entry result }
    {
        match self {
            CowSlice::Borrowed(items) => Ok(CowSlice::Owned(Vec::from_slice(alloc, items)?)),
            CowSlice::Owned(items) => Ok(CowSlice::Owned(items)),
        }
    }
}
