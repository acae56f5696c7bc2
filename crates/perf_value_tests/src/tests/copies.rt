//! Copies of records and of groups of counters, and the results of their calls. The text of a value
//! is all of its fields, and of each list whether it is borrowed.

use crate::tests::checks::{add, check_text, end_line};
use crate::tests::groups::{of_none, single_with_id, with_ids, without_ids};
use bitflags::Flags;
use perf_base::{CowSlice, ParseResult};
use perf_counters::ReadGroup;
use perf_sample_types::registers::Registers;
use perf_types::{
    CGroup, Comm, KSymbol, Mmap, Mmap2, MmapDetail, NamespaceEntry, Namespaces, TextPoke,
};
use perf_words::flags::KSymbolFlags;
use perf_words::named::KSymbolType;
use perf_words::{ReadFormat, SampleRegsAbi};
use std::alloc::Global;
use std::fmt::Debug;
use std::process::Abort;

// A value that is cloned.
trait CloneText: Debug + Sized + Drop {
    fn clone_copy(&self, alloc: Global) -> ParseResult<Self>;

    // Adds the results of its calls, if it has any.
    fn add_calls(&self, text: &mut String) {
        let _ = text;
    }
}

// A value with owned copies.
trait Owning: CloneText {
    fn into_owned_copy(self, alloc: Global) -> ParseResult<Self>;
}

impl CloneText for CowSlice<'_, u64> {
    fn clone_copy(&self, alloc: Global) -> ParseResult<Self> {
        self.clone(alloc)
    }

    fn add_calls(&self, text: &mut String) {
        add(text, &(self.as_slice(), self.len(), self.is_empty()));
    }
}

impl Owning for CowSlice<'_, u64> {
    fn into_owned_copy(self, alloc: Global) -> ParseResult<Self> {
        self.into_owned(alloc)
    }
}

impl CloneText for Comm<'_> {
    fn clone_copy(&self, alloc: Global) -> ParseResult<Self> {
        self.clone(alloc)
    }

    fn add_calls(&self, text: &mut String) {
        add(text, &self.comm_os());
    }
}

impl Owning for Comm<'_> {
    fn into_owned_copy(self, alloc: Global) -> ParseResult<Self> {
        self.into_owned(alloc)
    }
}

impl CloneText for CGroup<'_> {
    fn clone_copy(&self, alloc: Global) -> ParseResult<Self> {
        self.clone(alloc)
    }

    fn add_calls(&self, text: &mut String) {
        add(text, &self.path_os());
    }
}

impl Owning for CGroup<'_> {
    fn into_owned_copy(self, alloc: Global) -> ParseResult<Self> {
        self.into_owned(alloc)
    }
}

impl CloneText for KSymbol<'_> {
    fn clone_copy(&self, alloc: Global) -> ParseResult<Self> {
        self.clone(alloc)
    }
}

impl Owning for KSymbol<'_> {
    fn into_owned_copy(self, alloc: Global) -> ParseResult<Self> {
        self.into_owned(alloc)
    }
}

impl CloneText for Mmap<'_> {
    fn clone_copy(&self, alloc: Global) -> ParseResult<Self> {
        self.clone(alloc)
    }

    fn add_calls(&self, text: &mut String) {
        add(text, &self.filename_os());
    }
}

impl Owning for Mmap<'_> {
    fn into_owned_copy(self, alloc: Global) -> ParseResult<Self> {
        self.into_owned(alloc)
    }
}

impl CloneText for Mmap2<'_> {
    fn clone_copy(&self, alloc: Global) -> ParseResult<Self> {
        self.clone(alloc)
    }

    fn add_calls(&self, text: &mut String) {
        add(text, &(self.maj(), self.min()));
        add(text, &(self.ino(), self.ino_generation()));
        add(text, &self.build_id());
        add(text, &self.filename_os());
    }
}

impl Owning for Mmap2<'_> {
    fn into_owned_copy(self, alloc: Global) -> ParseResult<Self> {
        self.into_owned(alloc)
    }
}

impl CloneText for TextPoke<'_> {
    fn clone_copy(&self, alloc: Global) -> ParseResult<Self> {
        self.clone(alloc)
    }
}

impl Owning for TextPoke<'_> {
    fn into_owned_copy(self, alloc: Global) -> ParseResult<Self> {
        self.to_owned(alloc)
    }
}

impl CloneText for ReadGroup<'_> {
    fn clone_copy(&self, alloc: Global) -> ParseResult<Self> {
        self.clone(alloc)
    }

    // The last of its results is the entry of id 6.
    fn add_calls(&self, text: &mut String) {
        add(text, &(self.len(), self.is_empty()));
        add(text, &[self.time_enabled(), self.time_running()]);
        add(text, &self.get(0));
        add(text, &self.get_by_id(6));
    }
}

impl Owning for ReadGroup<'_> {
    fn into_owned_copy(self, alloc: Global) -> ParseResult<Self> {
        self.into_owned(alloc)
    }
}

impl CloneText for Registers<'_> {
    fn clone_copy(&self, alloc: Global) -> ParseResult<Self> {
        self.clone(alloc)
    }
}

impl CloneText for Namespaces<'_> {
    fn clone_copy(&self, alloc: Global) -> ParseResult<Self> {
        self.clone(alloc)
    }

    fn add_calls(&self, text: &mut String) {
        add(text, &[self.network(), self.uts(), self.ipc()]);
        add(text, &[self.pid(), self.user(), self.cgroup()]);
    }
}

// Adds a value and the results of its calls on a line.
fn add_value<T: CloneText>(text: &mut String, value: &T) {
    add(text, value);
    value.add_calls(text);
    end_line(text);
}

// Adds a value, and lets go of it.
fn add_last<T: CloneText>(text: &mut String, answer: ParseResult<T>) {
    match answer {
        Ok(value) => {
            add_value(text, &value);
            drop(value);
        }
        Err(error) => add(text, &error),
    }
}

// Adds a value and its clone.
fn add_with_clone<T: CloneText>(text: &mut String, alloc: Global, value: &T) {
    add_value(text, value);
    add_last(text, value.clone_copy(alloc));
}

// Adds a value and its clone, and makes its owned copy.
fn add_and_own<T: Owning>(
    text: &mut String,
    alloc: Global,
    answer: ParseResult<T>,
) -> ParseResult<T> {
    match answer {
        Ok(value) => {
            add_with_clone(text, alloc, &value);
            value.into_owned_copy(alloc)
        }
        Err(error) => Err(error),
    }
}

// Asserts the text of a value, its clone, its owned copy, and the clone and the owned copy of that.
fn check_copies<T: Owning>(rt: &(impl AllocGlobal + Abort), value: ParseResult<T>, want: &str) {
    let mut text = String::new(rt.alloc());
    let owned = add_and_own(&mut text, rt.alloc(), value);
    let again = add_and_own(&mut text, rt.alloc(), owned);
    add_last(&mut text, again);
    check_text(rt, text, want);
}

// Asserts the text of a value and of its clone.
fn check_clone<T: CloneText>(rt: &(impl AllocGlobal + Abort), value: ParseResult<T>, want: &str) {
    let mut text = String::new(rt.alloc());
    if let Ok(value) = &value {
        add_value(&mut text, value);
        add_last(&mut text, value.clone_copy(rt.alloc()));
    }
    drop(value);
    check_text(rt, text, want);
}

// The lines of a value whose lists, between the parts, are of this form, and of its clone.
macro_rules! clones {
    ($form:literal: $first:literal $(, $part:literal)+) => {
        concat!($first $(, $form, $part)+, " \n", $first $(, $form, $part)+, " \n")
    };
}

// The lines of a value with borrowed lists, and of its copies.
macro_rules! copies {
    ($first:literal $(, $part:literal)+) => {
        concat!(
            $first $(, "Borrowed", $part)+, " \n", $first $(, "Borrowed", $part)+, " \n",
            $first $(, "Owned", $part)+, " \n", $first $(, "Owned", $part)+, " \n",
            $first $(, "Owned", $part)+, " \n"
        )
    };
}

// The lines of a value with owned lists, and of its copies.
macro_rules! owned_copies {
    ($first:literal $(, $part:literal)+) => {
        concat!(
            $first $(, "Owned", $part)+, " \n", $first $(, "Owned", $part)+, " \n",
            $first $(, "Owned", $part)+, " \n", $first $(, "Owned", $part)+, " \n",
            $first $(, "Owned", $part)+, " \n"
        )
    };
}

// Owned records are made from a local copy of these bytes, which is gone when they are returned.
const ANONYMOUS: [u8; 6] = *b"//anon";

#[test]
fn items_keep_their_order(rt: HostRuntime) {
    let items = CowSlice::Borrowed(&[3u64, 2, 1]);
    let want = copies!("", "([3, 2, 1]) ([3, 2, 1], 3, false)");
    check_copies(&rt, Ok(items), want);
    let none: CowSlice<'_, u64> = CowSlice::Borrowed(&[]);
    let want = copies!("", "([]) ([], 0, true)");
    check_copies(&rt, Ok(none), want);
}

fn comm(pid: u32, tid: u32, name: &[u8]) -> Comm<'_> {
    Comm {
        pid,
        tid,
        comm: CowSlice::Borrowed(name),
    }
}

fn owned_comm(alloc: Global) -> ParseResult<Comm<'static>> {
    let bytes = ANONYMOUS;
    comm(0x1010, 0x500, &bytes).into_owned(alloc)
}

// Names of tasks, and their texts.
const NAMES: [(u32, u32, &[u8], &str); 3] = [
    (
        1,
        2,
        &[3, 4],
        copies!(
            "Comm { pid: 1, tid: 2, comm: ",
            "([3, 4]) } Some(\"\\u{3}\\u{4}\")"
        ),
    ),
    (
        0x1010,
        0x500,
        b"test",
        copies!(
            "Comm { pid: 4112, tid: 1280, comm: ",
            "([116, 101, 115, 116]) } Some(\"test\")"
        ),
    ),
    (
        1,
        2,
        &[97],
        copies!("Comm { pid: 1, tid: 2, comm: ", "([97]) } Some(\"a\")"),
    ),
];

#[test]
fn a_name_of_a_task(rt: HostRuntime) {
    for &(pid, tid, name, want) in &NAMES {
        let comm = comm(pid, tid, name);
        check_copies(&rt, Ok(comm), want);
    }
    let want = owned_copies!(
        "Comm { pid: 4112, tid: 1280, comm: ",
        "([47, 47, 97, 110, 111, 110]) } Some(\"//anon\")"
    );
    let comm = owned_comm(rt.alloc());
    check_copies(&rt, comm, want);
}

fn group_of_tasks(id: u64, path: &[u8]) -> CGroup<'_> {
    CGroup {
        id,
        path: CowSlice::Borrowed(path),
    }
}

fn owned_group_of_tasks(alloc: Global) -> ParseResult<CGroup<'static>> {
    let bytes = ANONYMOUS;
    group_of_tasks(7, &bytes).into_owned(alloc)
}

#[test]
fn a_control_group(rt: HostRuntime) {
    let want = copies!(
        "CGroup { id: 1, path: ",
        "([2, 3]) } Some(\"\\u{2}\\u{3}\")"
    );
    let group = group_of_tasks(1, &[2, 3]);
    check_copies(&rt, Ok(group), want);
    let want = copies!("CGroup { id: 7, path: ", "([47, 255]) } None");
    let group = group_of_tasks(7, &[0x2f, 0xff]);
    check_copies(&rt, Ok(group), want);
    let want = owned_copies!(
        "CGroup { id: 7, path: ",
        "([47, 47, 97, 110, 111, 110]) } Some(\"//anon\")"
    );
    let group = owned_group_of_tasks(rt.alloc());
    check_copies(&rt, group, want);
}

fn symbol(addr: u64, len: u32, name: &[u8]) -> KSymbol<'_> {
    KSymbol {
        addr,
        len,
        ksym_type: KSymbolType::BPF,
        flags: KSymbolFlags::UNREGISTER,
        name: CowSlice::Borrowed(name),
    }
}

fn owned_symbol(alloc: Global) -> ParseResult<KSymbol<'static>> {
    let bytes = ANONYMOUS;
    symbol(4096, 64, &bytes).into_owned(alloc)
}

#[test]
fn a_symbol_of_the_kernel(rt: HostRuntime) {
    let want = copies!(
        "KSymbol { addr: 1, len: 2, ksym_type: KSymbolType(1), flags: KSymbolFlags(1), name: ",
        "([3, 4]) }"
    );
    let bpf = symbol(1, 2, &[3, 4]);
    check_copies(&rt, Ok(bpf), want);
    let want = copies!(
        "KSymbol { addr: 4096, len: 64, ksym_type: KSymbolType(1), flags: KSymbolFlags(1), name: ",
        "([98, 112, 102]) }"
    );
    let bpf = symbol(4096, 64, b"bpf");
    check_copies(&rt, Ok(bpf), want);
    let want = owned_copies!(
        "KSymbol { addr: 4096, len: 64, ksym_type: KSymbolType(1), flags: KSymbolFlags(1), name: ",
        "([47, 47, 97, 110, 111, 110]) }"
    );
    let bpf = owned_symbol(rt.alloc());
    check_copies(&rt, bpf, want);
}

fn owned_mapping(alloc: Global) -> ParseResult<Mmap<'static>> {
    let bytes = ANONYMOUS;
    let mapping = Mmap {
        pid: 1,
        tid: 2,
        addr: 4096,
        len: 8192,
        pgoff: 512,
        filename: CowSlice::Borrowed(&bytes),
    };
    mapping.into_owned(alloc)
}

#[test]
fn a_mapping(rt: HostRuntime) {
    let mapping = Mmap {
        pid: 1,
        tid: 2,
        addr: 3,
        len: 4,
        pgoff: 5,
        filename: CowSlice::Borrowed(&[6, 7]),
    };
    let want = copies!(
        "Mmap { pid: 1, tid: 2, addr: 3, len: 4, pgoff: 5, filename: ",
        "([6, 7]) } Some(\"\\u{6}\\u{7}\")"
    );
    check_copies(&rt, Ok(mapping), want);
    let want = owned_copies!(
        "Mmap { pid: 1, tid: 2, addr: 4096, len: 8192, pgoff: 512, filename: ",
        "([47, 47, 97, 110, 111, 110]) } Some(\"//anon\")"
    );
    let mapping = owned_mapping(rt.alloc());
    check_copies(&rt, mapping, want);
}

// A mapping of a file by its inode.
fn by_inode() -> Mmap2<'static> {
    let detail = MmapDetail::Default {
        maj: 10,
        min: 11,
        ino: 12,
        ino_generation: 13,
    };
    Mmap2::from_parts(1, 2, 3, 4, 5, 6, 7, CowSlice::Borrowed(&[8, 9]), detail)
}

// Another one.
fn by_another_inode() -> Mmap2<'static> {
    let detail = MmapDetail::Default {
        maj: 8,
        min: 1,
        ino: 99,
        ino_generation: 3,
    };
    let filename = CowSlice::Borrowed(b"ab");
    Mmap2::from_parts(1, 2, 4096, 8192, 0, 5, 2, filename, detail)
}

#[test]
fn mappings_by_an_inode(rt: HostRuntime) {
    let want = copies!(
        "Mmap2 { pid: 1, tid: 2, addr: 3, len: 4, pgoff: 5, prot: 6, flags: 7, filename: ",
        "([8, 9]), detail: Default { maj: 10, min: 11, ino: 12, ino_generation: 13 } } \
            (Some(10), Some(11)) (Some(12), Some(13)) None Some(\"\\u{8}\\t\")"
    );
    check_copies(&rt, Ok(by_inode()), want);
    let want = copies!(
        "Mmap2 { pid: 1, tid: 2, addr: 4096, len: 8192, pgoff: 0, prot: 5, flags: 2, filename: ",
        "([97, 98]), detail: Default { maj: 8, min: 1, ino: 99, ino_generation: 3 } } \
            (Some(8), Some(1)) (Some(99), Some(3)) None Some(\"ab\")"
    );
    let mapping = by_another_inode();
    check_copies(&rt, Ok(mapping), want);
}

// A mapping of a program by its build id, followed by another byte.
fn by_build_id() -> Mmap2<'static> {
    let detail = MmapDetail::BuildId {
        build_id: [
            10, 11, 12, 0, 0, 0, 0, 0, 0, 0, 0, 0, 0, 0, 0, 0, 0, 0, 0, 13,
        ],
        len: 3,
    };
    Mmap2::from_parts(1, 2, 3, 4, 5, 6, 7, CowSlice::Borrowed(&[8, 9]), detail)
}

const TWENTY: [u8; 20] = [
    1, 2, 3, 4, 5, 6, 7, 8, 9, 10, 11, 12, 13, 14, 15, 16, 17, 18, 19, 20,
];

// One with a build id of all twenty bytes, which owns its path.
fn by_whole_build_id(alloc: Global) -> ParseResult<Mmap2<'static>> {
    let detail = MmapDetail::BuildId {
        build_id: TWENTY,
        len: 20,
    };
    let filename = CowSlice::Owned(Vec::from_slice(alloc, b"ab")?);
    Ok(Mmap2::from_parts(1, 2, 4096, 8192, 0, 5, 2, filename, detail))
}

// One with a build id of two bytes, from a clone of its detail.
fn by_short_build_id() -> ParseResult<Mmap2<'static>> {
    let detail = MmapDetail::BuildId {
        build_id: TWENTY,
        len: 2,
    };
    let filename = CowSlice::Borrowed(b"ab");
    let detail = detail.clone()?;
    Ok(Mmap2::from_parts(1, 2, 4096, 8192, 0, 5, 2, filename, detail))
}

fn owned_by_build_id(alloc: Global) -> ParseResult<Mmap2<'static>> {
    let bytes = ANONYMOUS;
    let detail = MmapDetail::BuildId {
        build_id: TWENTY,
        len: 2,
    };
    let filename = CowSlice::Borrowed(&bytes);
    Mmap2::from_parts(1, 2, 4096, 8192, 512, 5, 6, filename, detail).into_owned(alloc)
}

#[test]
fn mappings_by_a_build_id(rt: HostRuntime) {
    let want = copies!(
        "Mmap2 { pid: 1, tid: 2, addr: 3, len: 4, pgoff: 5, prot: 6, flags: 7, filename: ",
        "([8, 9]), detail: BuildId { build_id: 0a0b0c } } \
            (None, None) (None, None) Some([10, 11, 12]) Some(\"\\u{8}\\t\")"
    );
    check_copies(&rt, Ok(by_build_id()), want);
    let want = owned_copies!(
        "Mmap2 { pid: 1, tid: 2, addr: 4096, len: 8192, pgoff: 0, prot: 5, flags: 2, filename: ",
        "([97, 98]), detail: BuildId { build_id: 0102030405060708090a0b0c0d0e0f1011121314 } } \
            (None, None) (None, None) Some([1, 2, 3, 4, 5, 6, 7, 8, 9, 10, 11, 12, 13, 14, 15, \
            16, 17, 18, 19, 20]) Some(\"ab\")"
    );
    let whole = by_whole_build_id(rt.alloc());
    check_copies(&rt, whole, want);
    let want = copies!(
        "Mmap2 { pid: 1, tid: 2, addr: 4096, len: 8192, pgoff: 0, prot: 5, flags: 2, filename: ",
        "([97, 98]), detail: BuildId { build_id: 0102 } } \
            (None, None) (None, None) Some([1, 2]) Some(\"ab\")"
    );
    let short = by_short_build_id();
    check_copies(&rt, short, want);
    let want = owned_copies!(
        "Mmap2 { pid: 1, tid: 2, addr: 4096, len: 8192, pgoff: 512, prot: 5, flags: 6, filename: ",
        "([47, 47, 97, 110, 111, 110]), detail: BuildId { build_id: 0102 } } \
            (None, None) (None, None) Some([1, 2]) Some(\"//anon\")"
    );
    let owned = owned_by_build_id(rt.alloc());
    check_copies(&rt, owned, want);
}

// The shorter record of a mapping that owns its path.
fn shorter_owned_mapping(alloc: Global) -> ParseResult<Mmap<'static>> {
    match by_build_id().into_owned(alloc) {
        Ok(owned) => {
            let shorter = owned.to_mmap(alloc);
            drop(owned);
            shorter
        }
        Err(error) => Err(error),
    }
}

// That of a clone.
fn shorter_clone(alloc: Global) -> ParseResult<Mmap<'static>> {
    Ok(Mmap::from(by_another_inode().clone(alloc)?))
}

#[test]
fn shorter_mappings(rt: HostRuntime) {
    let alloc = rt.alloc();
    let want = copies!(
        "Mmap { pid: 1, tid: 2, addr: 3, len: 4, pgoff: 5, filename: ",
        "([8, 9]) } Some(\"\\u{8}\\t\")"
    );
    check_copies(&rt, by_inode().to_mmap(alloc), want);
    let want = owned_copies!(
        "Mmap { pid: 1, tid: 2, addr: 3, len: 4, pgoff: 5, filename: ",
        "([8, 9]) } Some(\"\\u{8}\\t\")"
    );
    check_copies(&rt, shorter_owned_mapping(alloc), want);
    let want = copies!(
        "Mmap { pid: 1, tid: 2, addr: 4096, len: 8192, pgoff: 0, filename: ",
        "([97, 98]) } Some(\"ab\")"
    );
    let mapping = by_another_inode().to_mmap(alloc);
    check_copies(&rt, mapping, want);
    check_copies(&rt, shorter_clone(alloc), want);
    let mapping = by_another_inode().into_mmap();
    check_copies(&rt, Ok(mapping), want);
}

fn poke<'a>(addr: u64, old: &'a [u8], new: &'a [u8]) -> TextPoke<'a> {
    TextPoke {
        addr,
        old_bytes: CowSlice::Borrowed(old),
        new_bytes: CowSlice::Borrowed(new),
    }
}

fn owned_poke(alloc: Global) -> ParseResult<TextPoke<'static>> {
    let bytes = [0xaa, 0xbb, 0xcc];
    poke(16, &bytes[..1], &bytes[1..]).to_owned(alloc)
}

#[test]
fn a_change_of_code(rt: HostRuntime) {
    let want = copies!(
        "TextPoke { addr: 1, old_bytes: ",
        "([2]), new_bytes: ",
        "([3, 4]) }"
    );
    let event = poke(1, &[2], &[3, 4]);
    check_copies(&rt, Ok(event), want);
    let want = copies!(
        "TextPoke { addr: 16, old_bytes: ",
        "([]), new_bytes: ",
        "([170]) }"
    );
    let event = poke(16, &[], &[0xaa]);
    check_copies(&rt, Ok(event), want);
    let want = owned_copies!(
        "TextPoke { addr: 16, old_bytes: ",
        "([170]), new_bytes: ",
        "([187, 204]) }"
    );
    let event = owned_poke(rt.alloc());
    check_copies(&rt, event, want);
}

fn group_of_counters() -> ReadGroup<'static> {
    let numbers = CowSlice::Borrowed(&[3, 4, 5, 6]);
    ReadGroup::from_parts(ReadFormat::from_bits_retain(0x0d), 1, 2, numbers)
}

#[test]
fn a_group_of_counters(rt: HostRuntime) {
    let alloc = rt.alloc();
    let want = copies!(
        "ReadGroup { time_enabled: Some(1), time_running: None, with_id: true, with_lost: false, \
            words: ",
        "([3, 4, 5, 6]) } (2, false) [Some(1), None] \
            Some(GroupEntry { value: 3, id: Some(4), lost: None }) \
            Some(GroupEntry { value: 5, id: Some(6), lost: None })"
    );
    check_copies(&rt, Ok(group_of_counters()), want);
    let want = copies!(
        "ReadGroup { time_enabled: None, time_running: None, with_id: true, with_lost: false, \
            words: ",
        "([10, 1, 20, 2, 30, 2]) } (3, false) [None, None] \
            Some(GroupEntry { value: 10, id: Some(1), lost: None }) None"
    );
    check_copies(&rt, Ok(with_ids()), want);
    let want = copies!(
        "ReadGroup { time_enabled: Some(7), time_running: Some(8), with_id: false, \
            with_lost: true, words: ",
        "([10, 1]) } (1, false) [Some(7), Some(8)] \
            Some(GroupEntry { value: 10, id: None, lost: Some(1) }) None"
    );
    check_copies(&rt, Ok(without_ids()), want);
    let want = copies!(
        "ReadGroup { time_enabled: None, time_running: None, with_id: false, with_lost: false, \
            words: ",
        "([]) } (0, true) [None, None] None None"
    );
    check_copies(&rt, Ok(of_none()), want);
}

#[test]
fn a_group_of_one_read(rt: HostRuntime) {
    let want = owned_copies!(
        "ReadGroup { time_enabled: None, time_running: None, with_id: true, with_lost: false, \
            words: ",
        "([3, 6]) } (1, false) [None, None] \
            Some(GroupEntry { value: 3, id: Some(6), lost: None }) \
            Some(GroupEntry { value: 3, id: Some(6), lost: None })"
    );
    let group = ReadGroup::from_value(rt.alloc(), single_with_id());
    check_copies(&rt, group, want);
}

fn registers(values: CowSlice<'_, u64>) -> Registers<'_> {
    Registers {
        abi: SampleRegsAbi::ABI_64,
        mask: 5,
        regs: values,
    }
}

// Registers that own their values.
fn owned_registers(alloc: Global) -> ParseResult<Registers<'static>> {
    Ok(registers(CowSlice::Borrowed(&[6, 7]).into_owned(alloc)?))
}

#[test]
fn registers_of_a_task(rt: HostRuntime) {
    let want =
        clones!("Borrowed": "Registers { abi: SampleRegsAbi(2), mask: 5, regs: ", "([6, 7]) }");
    let borrowed = registers(CowSlice::Borrowed(&[6, 7]));
    check_clone(&rt, Ok(borrowed), want);
    let want = clones!("Owned": "Registers { abi: SampleRegsAbi(2), mask: 5, regs: ", "([6, 7]) }");
    let owned = owned_registers(rt.alloc());
    check_clone(&rt, owned, want);
}

const NETWORK: [NamespaceEntry; 1] = [NamespaceEntry { dev: 3, inode: 4 }];

const NETWORK_AND_NAME: [NamespaceEntry; 2] = [
    NamespaceEntry { dev: 3, inode: 4 },
    NamespaceEntry { dev: 5, inode: 6 },
];

fn spaces(entries: CowSlice<'_, NamespaceEntry>) -> Namespaces<'_> {
    Namespaces {
        pid: 1,
        tid: 2,
        namespaces: entries,
    }
}

// Namespaces that own their list.
fn owned_spaces(alloc: Global) -> ParseResult<Namespaces<'static>> {
    Ok(spaces(CowSlice::Borrowed(&NETWORK).into_owned(alloc)?))
}

#[test]
fn namespaces_of_a_task(rt: HostRuntime) {
    let want = clones!("Borrowed":
        "Namespaces { pid: 1, tid: 2, namespaces: ",
        "([NamespaceEntry { dev: 3, inode: 4 }]) } \
            [Some(NamespaceEntry { dev: 3, inode: 4 }), None, None] [None, None, None]"
    );
    let borrowed = spaces(CowSlice::Borrowed(&NETWORK));
    check_clone(&rt, Ok(borrowed), want);
    let want = clones!("Owned":
        "Namespaces { pid: 1, tid: 2, namespaces: ",
        "([NamespaceEntry { dev: 3, inode: 4 }]) } \
            [Some(NamespaceEntry { dev: 3, inode: 4 }), None, None] [None, None, None]"
    );
    let owned = owned_spaces(rt.alloc());
    check_clone(&rt, owned, want);
    let want = clones!("Borrowed":
        "Namespaces { pid: 1, tid: 2, namespaces: ",
        "([NamespaceEntry { dev: 3, inode: 4 }, NamespaceEntry { dev: 5, inode: 6 }]) } \
            [Some(NamespaceEntry { dev: 3, inode: 4 }), Some(NamespaceEntry { dev: 5, \
            inode: 6 }), None] [None, None, None]"
    );
    let borrowed = spaces(CowSlice::Borrowed(&NETWORK_AND_NAME));
    check_clone(&rt, Ok(borrowed), want);
}
