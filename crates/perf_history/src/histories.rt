//! The history of a recording.
#![tactic(auto)]

ghost use Rattle.std.specs.Prelude.{◌≡◌, ◌<◌, ◌^◌, ℕ, Some, vec_len};
ghost use Rattle.perf_history.specs.Spaces.{number_at};

use crate::changes::{Change, Comm, Fork, KERNEL, Map, Mode, Symbol};
use crate::forests::Tree;
use crate::memories::Memory;
use crate::names::{Name, name_or_number};
use crate::places::{Mapping, Place};
use crate::spaces::Spaces;
use std::alloc::{AllocError, Global};
use std::collections::BTreeMap;

/// Who a thread is, and what is mapped where, after the changes that were applied.
#[derive(Debug, Drop)]
pub struct History<'p> {
    names: BTreeMap<u32, Option<&'p [u8]>>,
    pub(crate) spaces: Spaces,
    pub(crate) mappings: Vec<Mapping<'p>>,
    ghost known: { (space address index : ℕ) → address < 2 ^ 64 →
        number_at spaces space address ≡ Some index → index < vec_len mappings },
}

impl<'p> History<'p> {
    ghost use Rattle.std.specs.Prelude.{List, [], ◌∷◌, OnOk, OnErr, IsOk, IsSome, length};
    ghost use Rattle.std.specs.BTreeMap.{get};
    ghost use Rattle.std.specs.Ordering.{nat_cmp};
    ghost use Rattle.perf_history.specs.Histories.{name_of, place_of};
    ghost use Rattle.perf_history.specs.Recorded.{IsHistory, IsSame, Sets, Copies, Inherits, Forks, Names, name_in};
    ghost use Rattle.perf_history.specs.Memories.{IsMemory};
    ghost use Rattle.perf_history.specs.declared.changes.Change.{Change};

    /// The history before anything happened.
    pub fn new(alloc: Global) -> History<'p>
        ensures { IsHistory result [] }
    {
        History {
            names: BTreeMap::new(alloc),
            spaces: Spaces::new(alloc),
            mappings: Vec::new(alloc),
        }
    }

    // The name that a thread was given.
    fn name(&self, tid: u32) -> Option<&'p [u8]>
        ensures { result ≡ name_in self.now tid }
    {
        match self.names.get(&tid) {
            Some(name) => *name,
            None => None,
        }
    }

    // Gives a thread a name, or none. That of a thread which had one, or none, needs no memory.
    fn set_name(&mut self, tid: u32, name: Option<&'p [u8]>) -> Result<(), AllocError>
        ensures ok { OnOk result (Names tid name.entry self.old self.new) }
        ensures err { OnErr result (IsSame self.old self.new) }
        ensures present { OnOk result (IsSome (get nat_cmp self.new.names tid)) }
        ensures succeeds { IsSome (get nat_cmp self.old.names tid) → IsOk result }
    {
        self.names.insert(tid, name)?;
        Ok(())
    }

    // Puts a mapping in a range.
    fn map(
        &mut self,
        space: u32,
        start: u64,
        len: u64,
        mapping: Mapping<'p>,
    ) -> Result<(), AllocError>
        ensures ok { OnOk result (Sets space start len (Some mapping.entry) self.old self.new) }
        ensures err { OnErr result (IsSame self.old self.new) }
    {
        let Ok(index) = u32::try_from(self.mappings.len()) else {
            return Err(AllocError);
        };
        self.mappings.push(mapping)?;
        self.spaces.assign(space, start, len, Some(index))
    }

    // Puts nothing in a range.
    fn unmap(&mut self, space: u32, start: u64, len: u64) -> Result<(), AllocError>
        ensures ok { OnOk result (Sets space start len None self.old self.new) }
        ensures err { OnErr result (IsSame self.old self.new) }
    {
        self.spaces.assign(space, start, len, None)
    }

    // Makes an address space as another one is.
    fn copy_memory(&mut self, from: u32, to: u32) -> Result<(), AllocError>
        ensures ok { OnOk result (Copies from to self.old self.new) }
        ensures err { OnErr result (IsSame self.old self.new) }
        ensures names { self.new.names ≡ self.old.names }
    {
        self.spaces.copy(from, to)
    }

    /// The name of a thread.
    pub fn comm(&self, tid: u32) -> Name<'p>
        ensures { (changes : List Change) → IsHistory self.now changes → result ≡ name_of changes tid }
    {
        name_or_number(self.name(tid), tid)
    }

    /// The memory in which a process runs code in this mode; that of a hypervisor or a guest is not
    /// known.
    #[tactic(auto, using(crate::proofs::Trees::found_empty), unfolding(crate::specs::Memories::place_at))]
    pub fn memory(&self, pid: u32, mode: Mode) -> Memory<'_, 'p>
        ensures { (changes : List Change) → IsHistory self.now changes → IsMemory result changes pid mode }
    {
        let Some(space) = mode.space_at(pid) else {
            return Memory {
                history: self,
                tree: Tree::Empty,
            };
        };
        Memory {
            history: self,
            tree: self.spaces.tree(space),
        }
    }

    /// What is mapped at an address at which a process runs code in this mode.
    pub fn place(&self, pid: u32, mode: Mode, address: u64) -> Option<Place<'p>>
        ensures { (changes : List Change) → IsHistory self.now changes →
            result ≡ place_of changes pid mode address }
    {
        self.memory(pid, mode).place(address)
    }

    // A new process has the memory of its parent, if it is one that has.
    fn inherit(&mut self, fork: Fork) -> Result<(), AllocError>
        ensures ok { OnOk result (Inherits fork self.old self.new) }
        ensures err { OnErr result (IsSame self.old self.new) }
        ensures names { self.new.names ≡ self.old.names }
    {
        if fork.copies_memory() {
            self.copy_memory(fork.ppid, fork.pid)
        } else {
            Ok(())
        }
    }

    // A thread was made.
    fn fork(&mut self, fork: Fork) -> Result<(), AllocError>
        ensures ok { OnOk result (Forks fork self.old self.new) }
        ensures err { OnErr result (IsSame self.old self.new) }
    {
        let before = self.name(fork.tid);
        let name = self.name(fork.ptid);
        self.set_name(fork.tid, name)?;
        match self.inherit(fork) {
            Ok(()) => Ok(()),
            Err(error) => {
                // The thread has a name, or none, by then: this needs no memory.
                let _ = self.set_name(fork.tid, before);
                Err(error)
            }
        }
    }

    /// Applies a change. Out of memory it is as before.
    pub fn apply(&mut self, change: Change<'p>) -> Result<(), AllocError>
        ensures ok { OnOk result ((changes : List Change) → IsHistory self.old changes →
            IsHistory self.new (change.entry ∷ changes)) }
        ensures err { OnErr result ((changes : List Change) → IsHistory self.old changes →
            IsHistory self.new changes) }
    {
        match change {
            Change::Comm(comm) => self.set_name(comm.tid, Some(comm.name)),
            Change::Fork(fork) => self.fork(fork),
            Change::Map(map) => {
                let space = map.mode.space_of(map.pid);
                self.map(space, map.start, map.len, Mapping::of_map(map))
            }
            Change::Symbol(symbol) => {
                if symbol.removed {
                    self.unmap(KERNEL, symbol.start, symbol.len)
                } else {
                    self.map(KERNEL, symbol.start, symbol.len, Mapping::of_symbol(symbol))
                }
            }
        }
    }

    /// How many branches it has made, of 32 bytes each: besides them it needs 88 bytes a mapping. It
    /// keeps them all.
    pub fn branch_count(&self) -> usize
        ensures { result ≡ length self.now.spaces.forest }
    {
        self.spaces.branch_count()
    }
}
