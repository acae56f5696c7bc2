//! The memory of lists that are not needed any more.

ghost use Rattle.perf_reader.specs.Spare.{IsSpareOf};

use perf_base::CowSlice;
use std::alloc::Global;

/// The list itself, with its items, if it is owned. Of a borrowed list, or of none, it is an empty
/// list, which takes no memory.
#[inline]
pub fn spare_of<T: Copy>(alloc: Global, old: Option<CowSlice<'_, T>>) -> Vec<T>
    ensures { IsSpareOf old.entry result }
{
    match old {
        Some(CowSlice::Owned(items)) => items,
        _ => Vec::new(alloc),
    }
}
