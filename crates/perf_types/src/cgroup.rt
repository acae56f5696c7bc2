//! CGROUP.
#![tactic(auto, using(perf_reader::proofs::Calls::chain))]

ghost use Rattle.std.specs.Prelude.{◌≡◌, option_map};
ghost use Rattle.perf_types.specs.CGroup.{cgroup, cgroup_value, IsBorrowedCGroup, cgroup_form};
ghost use Rattle.perf_types.specs.Prelude.{ReadsInPlace, cow_items, text_of, IsClone, IsOwnedCopy};

use crate::text::text;
use perf_base::{CowSlice, Endian, ParseResult, ReadResult};
use perf_buffers::input::Input;
use perf_reader::read::{HasTransition, ReadFrom};
use perf_reader::reader::Reader;
use std::alloc::Global;

/// A control group was created (`PERF_RECORD_CGROUP`).
#[derive(Debug, Drop)]
pub struct CGroup<'a> {
    /// The kernel's id of the group.
    pub id: u64,
    /// Its path relative to the root of all groups, without the trailing zero bytes.
    pub path: CowSlice<'a, u8>,
}

impl<'a> CGroup<'a> {
    /// The path as text, or `None` if it is not UTF-8.
    pub fn path_os(&self) -> Option<&str>
        ensures { option_map (λ text. text.now) result ≡ text_of (cow_items self.now.path) }
    {
        text(self.path.as_slice())
    }

    /// A copy of the record. It needs no memory if the path is borrowed.
    pub fn clone(&self, alloc: Global) -> ParseResult<CGroup<'a>>
        ensures { IsClone cgroup_value cgroup_form self.now result }
    {
        Ok(CGroup {
            id: self.id,
            path: self.path.clone(alloc)?,
        })
    }

    /// Makes the record own its path, so that it does not borrow from the input. It needs no memory
    /// if it owns the path already. If out of memory, it returns `OutOfMemory` and the record is
    /// dropped.
    pub fn into_owned<'b>(self, alloc: Global) -> ParseResult<CGroup<'b>>
        ensures { IsOwnedCopy cgroup_value cgroup_form self.entry result }
    {
        let CGroup { id, path } = self;
        Ok(CGroup {
            id,
            path: path.into_owned(alloc)?,
        })
    }
}

impl HasTransition for CGroup<'_> {
    ghost transition = { ReadsInPlace (λ _. cgroup) cgroup_value IsBorrowedCGroup };
}

impl<'p, I: Input<'p>> ReadFrom<'p, I> for CGroup<'p> {
    #[inline]
    fn read<E: Endian>(reader: &mut Reader<I, E>) -> ReadResult<Self> {
        Ok(CGroup {
            id: reader.read_u64()?,
            path: reader.read_rest_trim_nul()?,
        })
    }
}
