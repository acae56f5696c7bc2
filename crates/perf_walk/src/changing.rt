//! What a frame states about threads and memory.

ghost use Rattle.std.specs.Prelude.{◌≡◌, ℕ, List, option_map};
ghost use Rattle.perf_base.specs.Configuration.{Configuration};
ghost use Rattle.perf_base.specs.Order.{Order};
ghost use Rattle.perf_flat.specs.Flat.{IsFlat};
ghost use Rattle.perf_records.specs.Records as records;
ghost use Rattle.perf_types.specs.Comm.{CommValue};
ghost use Rattle.perf_types.specs.KSymbol.{KSymbolValue};
ghost use Rattle.perf_types.specs.Mmap.{MmapValue};
ghost use Rattle.perf_types.specs.Mmap2.{Mmap2Value};
ghost use Rattle.perf_types.specs.declared.numbers.Exit as tasks;
ghost use Rattle.perf_history.specs.declared.changes.Change.TheVariants as change;
ghost use Rattle.perf_walk.specs.Changes as changes;
ghost use Rattle.perf_walk.specs.Contents.{HasContents};
ghost use Rattle.perf_walk.specs.Plain.{plain, plain_identity};

use crate::parts::{has_bit, number, short_number, string};
use perf_base::sys::{
    PERF_RECORD_COMM, PERF_RECORD_FORK, PERF_RECORD_KSYMBOL, PERF_RECORD_MMAP, PERF_RECORD_MMAP2,
};
use perf_flat::frame::FlatFrame;
use perf_history::{Change, Comm, Fork, Identity, Inode, Map, Mode, Symbol};

/// What a frame states about threads and memory, by its bytes and the flat frame that was read of
/// them: a COMM the name of a thread, a FORK a thread, an MMAP or MMAP2 a mapping, and a KSYMBOL a
/// symbol of the kernel. Another frame states nothing about them, and neither does a refused one.
pub fn change_in<'p>(bytes: &'p [u8], frame: &FlatFrame) -> Option<Change<'p>>
    ensures { (c : Configuration) (o : Order) → IsFlat c o bytes.now frame.now →
        option_map plain result ≡ changes.change_of c o bytes.now }
{
    if frame.read == PERF_RECORD_MMAP {
        return Some(Change::Map(mmap_in(bytes, frame)));
    }
    if frame.read == PERF_RECORD_COMM {
        return Some(Change::Comm(comm_in(bytes, frame)));
    }
    if frame.read == PERF_RECORD_FORK {
        return Some(Change::Fork(fork_in(frame)));
    }
    if frame.read == PERF_RECORD_MMAP2 {
        return Some(Change::Map(mmap2_in(bytes, frame)));
    }
    if frame.read == PERF_RECORD_KSYMBOL {
        return Some(Change::Symbol(symbol_in(bytes, frame)));
    }
    None
}

// The name of a thread, in a COMM.
fn comm_in<'p>(bytes: &'p [u8], frame: &FlatFrame) -> Comm<'p>
    ensures { (r : CommValue) → HasContents bytes.now frame.now (records.comm_is r) →
        plain (change.Comm result) ≡ changes.comm_change r }
{
    Comm {
        tid: short_number(frame, 1),
        name: string(bytes, frame, 0),
    }
}

// A thread, in a FORK.
fn fork_in(frame: &FlatFrame) -> Fork
    ensures { (bytes : List ℕ) (r : tasks.Exit) → HasContents bytes frame.now (records.fork_is r) →
        change.Fork result ≡ changes.fork_change frame.now.misc r }
{
    Fork {
        pid: short_number(frame, 0),
        ppid: short_number(frame, 1),
        tid: short_number(frame, 2),
        ptid: short_number(frame, 3),
        made_up: has_bit(u64::from(frame.misc), 13),
    }
}

// A mapping, in an MMAP.
fn mmap_in<'p>(bytes: &'p [u8], frame: &FlatFrame) -> Map<'p>
    ensures { (r : MmapValue) → HasContents bytes.now frame.now (records.mmap_is r) →
        plain (change.Map result) ≡ changes.mmap_change frame.now.misc r }
{
    Map {
        pid: short_number(frame, 0),
        mode: Mode::of_misc(frame.misc),
        start: number(frame, 2),
        len: number(frame, 3),
        offset: number(frame, 4),
        file: string(bytes, frame, 0),
        identity: Identity::Unknown,
        executable: !has_bit(u64::from(frame.misc), 13),
    }
}

// The inode of a file, in an MMAP2.
fn inode_in(frame: &FlatFrame) -> Inode
    ensures { (bytes : List ℕ) (r : Mmap2Value) → HasContents bytes frame.now (records.mmap2_is r) →
        result ≡ changes.inode_of r.detail }
{
    Inode {
        major: short_number(frame, 7),
        minor: short_number(frame, 8),
        number: number(frame, 9),
        generation: number(frame, 10),
    }
}

// Which file is mapped, in an MMAP2.
fn identity_in<'p>(bytes: &'p [u8], frame: &FlatFrame) -> Identity<'p>
    ensures { (r : Mmap2Value) → HasContents bytes.now frame.now (records.mmap2_is r) →
        plain_identity result ≡ changes.identity_of frame.now.misc r.detail }
{
    if has_bit(u64::from(frame.misc), 14) {
        Identity::BuildId(string(bytes, frame, 1))
    } else {
        Identity::Inode(inode_in(frame))
    }
}

// A mapping, in an MMAP2.
fn mmap2_in<'p>(bytes: &'p [u8], frame: &FlatFrame) -> Map<'p>
    ensures { (r : Mmap2Value) → HasContents bytes.now frame.now (records.mmap2_is r) →
        plain (change.Map result) ≡ changes.mmap2_change frame.now.misc r }
{
    Map {
        pid: short_number(frame, 0),
        mode: Mode::of_misc(frame.misc),
        start: number(frame, 2),
        len: number(frame, 3),
        offset: number(frame, 4),
        file: string(bytes, frame, 0),
        identity: identity_in(bytes, frame),
        executable: has_bit(number(frame, 5), 2),
    }
}

// A symbol of the kernel, in a KSYMBOL.
fn symbol_in<'p>(bytes: &'p [u8], frame: &FlatFrame) -> Symbol<'p>
    ensures { (r : KSymbolValue) → HasContents bytes.now frame.now (records.ksymbol_is r) →
        plain (change.Symbol result) ≡ changes.symbol_change r }
{
    Symbol {
        start: number(frame, 0),
        len: number(frame, 1),
        name: string(bytes, frame, 0),
        removed: has_bit(number(frame, 3), 0),
    }
}
