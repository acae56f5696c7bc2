//! NAMESPACES. Nothing is allocated from a claimed count of entries alone.
#![tactic(auto, using(perf_reader::proofs::Calls::chain))]

ghost use Rattle.std.specs.Prelude.{◌≡◌, ◌*◌, true, IfOk, slice_get};
ghost use Rattle.perf_buffers.specs.Room.{falls_short};
ghost use Rattle.perf_reader.specs.Prelude.{input_of};
ghost use Rattle.perf_types.specs.Namespaces as spaces;
ghost use Rattle.perf_types.specs.Prelude.{Call, Reads, ReadsOne, ReadsPlain, NeedsNoMemory, kinds, words};
ghost use Rattle.perf_types.specs.Prelude.{cow_items, IsClone, flat_map, option_copied};

use perf_base::{CowSlice, Endian, ParseResult, ReadResult, Refusal};
use perf_buffers::input::Input;
use perf_reader::read::{HasTransition, ReadFrom};
use perf_reader::reader::Reader;
use std::alloc::Global;

// The index of the network namespace in the list, `NET_NS_INDEX` of perf_event.h.
const NETWORK: usize = 0;

// `UTS_NS_INDEX`
const UTS: usize = 1;

// `IPC_NS_INDEX`
const IPC: usize = 2;

// `PID_NS_INDEX`
const PID: usize = 3;

// `USER_NS_INDEX`
const USER: usize = 4;

// `CGROUP_NS_INDEX`. The mount namespace, `MNT_NS_INDEX` at 5, has no method.
const CGROUP: usize = 6;

/// The namespaces of a task (`PERF_RECORD_NAMESPACES`), when it was created or changed one of them.
#[derive(Debug, Drop)]
pub struct Namespaces<'a> {
    /// The process id of the task.
    pub pid: u32,
    /// The thread id of the task.
    pub tid: u32,
    /// Its namespaces. Each kind of namespace has a fixed index, for which there are methods below.
    pub namespaces: CowSlice<'a, NamespaceEntry>,
}

/// A namespace, identified by the file in `/proc/PID/ns` that represents it.
#[derive(Copy, Clone, Debug, PartialEq, Eq, Hash)]
pub struct NamespaceEntry {
    /// The number of the device that contains the file.
    pub dev: u64,
    /// The file's inode.
    pub inode: u64,
}

impl<'a> Namespaces<'a> {
    /// The network namespace, if it is listed: `NET_NS_INDEX`.
    pub fn network(&self) -> Option<&NamespaceEntry>
        ensures { option_copied result ≡
            slice_get (cow_items self.now.namespaces) spaces.network_index }
    {
        self.namespaces.as_slice().get(NETWORK)
    }

    /// The host name namespace, if it is listed: `UTS_NS_INDEX`.
    pub fn uts(&self) -> Option<&NamespaceEntry>
        ensures { option_copied result ≡
            slice_get (cow_items self.now.namespaces) spaces.uts_index }
    {
        self.namespaces.as_slice().get(UTS)
    }

    /// The namespace of shared memory, semaphores and message queues, if it is listed:
    /// `IPC_NS_INDEX`.
    pub fn ipc(&self) -> Option<&NamespaceEntry>
        ensures { option_copied result ≡
            slice_get (cow_items self.now.namespaces) spaces.ipc_index }
    {
        self.namespaces.as_slice().get(IPC)
    }

    /// The namespace of process ids, if it is listed: `PID_NS_INDEX`.
    pub fn pid(&self) -> Option<&NamespaceEntry>
        ensures { option_copied result ≡
            slice_get (cow_items self.now.namespaces) spaces.pid_index }
    {
        self.namespaces.as_slice().get(PID)
    }

    /// The namespace of user ids, if it is listed: `USER_NS_INDEX`.
    pub fn user(&self) -> Option<&NamespaceEntry>
        ensures { option_copied result ≡
            slice_get (cow_items self.now.namespaces) spaces.user_index }
    {
        self.namespaces.as_slice().get(USER)
    }

    /// The namespace of control groups, if it is listed: `CGROUP_NS_INDEX`.
    pub fn cgroup(&self) -> Option<&NamespaceEntry>
        ensures { option_copied result ≡
            slice_get (cow_items self.now.namespaces) spaces.cgroup_index }
    {
        self.namespaces.as_slice().get(CGROUP)
    }

    /// A copy of the record. It needs no memory if the list is borrowed.
    pub fn clone(&self, alloc: Global) -> ParseResult<Namespaces<'a>>
        ensures { IsClone spaces.namespaces_value spaces.namespaces_form self.now result }
    {
        Ok(Namespaces {
            pid: self.pid,
            tid: self.tid,
            namespaces: self.namespaces.clone(alloc)?,
        })
    }
}

impl HasTransition for NamespaceEntry {
    ghost transition = { ReadsPlain (λ _. spaces.namespace_entry) (λ e. e) };
}

impl<'p, I: Input<'p>> ReadFrom<'p, I> for NamespaceEntry {
    #[inline]
    fn read<E: Endian>(reader: &mut Reader<I, E>) -> ReadResult<Self> {
        Ok(NamespaceEntry {
            dev: reader.read_u64()?,
            inode: reader.read_u64()?,
        })
    }
}

// How many numbers an entry has, and how many bytes.
const NUMBERS: usize = 2;

const SIZE: usize = 16;

// Reads `count` entries. A list that does not fit needs no memory if the input reports how much it
// has.
fn read_entries<'p, I: Input<'p>, E: Endian>(
    reader: &mut Reader<I, E>,
    count: usize,
) -> ReadResult<Vec<NamespaceEntry>>
    ensures short { falls_short (I.hint (input_of reader.old)) (16 * count) ≡ true →
        NeedsNoMemory (kinds result) × IfOk result (λ v. ⊥) }
    ensures call { Call I.source E.order
        (ReadsOne (words (2 * count)) (λ v. flat_map spaces.entry_numbers v.items))
        reader.old (kinds result) reader.new }
{
    if reader.has_items(count, SIZE) == Some(false) {
        return Err(reader.read_to_the_end(NUMBERS, count));
    }
    let mut entries = match reader.list_for(count) {
        Ok(entries) => entries,
        Err(refusal) => return Err(refusal),
    };
    for _ in 0..count {
        let dev = match reader.read_u64() {
            Ok(dev) => dev,
            Err(refusal) => return Err(refusal),
        };
        let inode = match reader.read_u64() {
            Ok(inode) => inode,
            Err(refusal) => return Err(refusal),
        };
        if entries.push(NamespaceEntry { dev, inode }).is_err() {
            return Err(Refusal::OutOfMemory);
        }
    }
    Ok(entries)
}

impl HasTransition for Namespaces<'_> {
    ghost transition = { Reads (λ _. spaces.namespaces) spaces.namespaces_value };
}

impl<'p, I: Input<'p>> ReadFrom<'p, I> for Namespaces<'p> {
    #[inline]
    #[tactic(auto, using(crate::proofs::Entries::entries_flat, perf_reader::proofs::Calls::chain))]
    fn read<E: Endian>(reader: &mut Reader<I, E>) -> ReadResult<Self> {
        let pid = reader.read_u32()?;
        let tid = reader.read_u32()?;
        let count = reader.read_u64()?;
        let entries = read_entries(reader, count as usize)?;
        Ok(Namespaces {
            pid,
            tid,
            namespaces: CowSlice::Owned(entries),
        })
    }
}
