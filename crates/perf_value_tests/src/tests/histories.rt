//! Names and places as perf finds them: `thread__fork`, `map__new` and
//! `machine__process_ksymbol` of its sources.

use crate::tests::checks::check_debug;
use crate::tests::using::{name_after_two, place_after_one};
use perf_history::{
    Change, Comm, File, Fork, History, Identity, Inode, Map, Mode, Name, Symbol, keeps_address,
};
use std::alloc::{AllocError, Global};
use std::process::Abort;

// A change, without what no test depends on.
#[derive(Clone, Copy)]
enum Step {
    // A thread and its name.
    Comm(u32, &'static [u8]),
    // A process, its parent, and whether perf made that up. Its only thread has its id.
    Process(u32, u32, bool),
    // A process, and a new thread of it.
    Thread(u32, u32),
    // A process, the mode, the first address of 0x1000 bytes of code, the offset and the file.
    Code(u32, Mode, u64, u64, &'static [u8]),
    // A symbol of 0x100 bytes: its address, its name, and whether it was removed.
    Symbol(u64, &'static [u8], bool),
}

fn change_of(step: Step) -> Change<'static> {
    match step {
        Step::Comm(tid, name) => Change::Comm(Comm { tid, name }),
        Step::Process(pid, ppid, made_up) => Change::Fork(Fork {
            pid,
            ppid,
            tid: pid,
            ptid: ppid,
            made_up,
        }),
        Step::Thread(pid, tid) => Change::Fork(Fork {
            pid,
            ppid: pid,
            tid,
            ptid: pid,
            made_up: false,
        }),
        Step::Code(pid, mode, start, offset, file) => Change::Map(Map {
            pid,
            mode,
            start,
            len: 0x1000,
            offset,
            file,
            identity: Identity::Unknown,
            executable: true,
        }),
        Step::Symbol(start, name, removed) => Change::Symbol(Symbol {
            start,
            len: 0x100,
            name,
            removed,
        }),
    }
}

fn apply_all(history: &mut History<'static>, steps: &[Step]) -> Result<(), AllocError> {
    for step in steps {
        history.apply(change_of(*step))?;
    }
    Ok(())
}

// A thread, and its name.
type NameRow = (u32, Name<'static>);

// A process, the mode, an address, and what is there: the file and the offset.
type PlaceRow = (u32, Mode, u64, Option<(File<'static>, u64)>);

// The first thread that has another name.
fn wrong_name(history: &History<'static>, rows: &[NameRow]) -> Option<u32> {
    for (tid, name) in rows {
        if history.comm(*tid) != *name {
            return Some(*tid);
        }
    }
    None
}

// The first address where something else is.
fn wrong_place(history: &History<'static>, rows: &[PlaceRow]) -> Option<u64> {
    for (pid, mode, address, place) in rows {
        if at(history, *pid, *mode, *address) != *place {
            return Some(*address);
        }
    }
    None
}

// The first thread that has another name after these steps, and the first address where something else is.
fn wrong_after(
    alloc: Global,
    steps: &[Step],
    names: &[NameRow],
    places: &[PlaceRow],
) -> Result<(Option<u32>, Option<u64>), AllocError> {
    let mut history = History::new(alloc);
    let applied = apply_all(&mut history, steps);
    let wrong = (wrong_name(&history, names), wrong_place(&history, places));
    drop(history);
    applied?;
    Ok(wrong)
}

// Asserts names and places after these steps.
fn check_after(
    rt: &(impl AllocGlobal + Abort),
    steps: &[Step],
    names: &[NameRow],
    places: &[PlaceRow],
) {
    let wrong = wrong_after(rt.alloc(), steps, names, places);
    check_debug(rt, wrong, "Ok((None, None))");
}

const NAMING: [Step; 9] = [
    Step::Comm(7, b"sh"),
    Step::Process(8, 7, false),
    Step::Thread(8, 9),
    Step::Comm(7, b"bash"),
    Step::Comm(8, b"ls"),
    Step::Thread(7, 10),
    Step::Process(6, 5, true),
    Step::Comm(12, b"old"),
    Step::Process(12, 5, false),
];

const NAMES: [NameRow; 9] = [
    (0, Name::Swapper),
    (5, Name::Number(5)),
    (6, Name::Number(6)),
    (7, Name::Given(b"bash")),
    (8, Name::Given(b"ls")),
    (9, Name::Given(b"sh")),
    (10, Name::Given(b"bash")),
    (12, Name::Number(12)),
    (u32::MAX, Name::Number(u32::MAX)),
];

#[test]
fn names(rt: HostRuntime) {
    check_after(&rt, &NAMING, &NAMES, &[]);
}

const MAPPING: [Step; 12] = [
    Step::Code(
        u32::MAX,
        Mode::User,
        0xffff_8000,
        0xffff_8000,
        b"[kernel.kallsyms]_text",
    ),
    Step::Code(3, Mode::Kernel, 0xffff_c000, 0, b"[xfs]"),
    Step::Code(7, Mode::User, 0x5000, 0x3000, b"/bin/sh"),
    Step::Code(7, Mode::User, 0x9000, 0, b"//anon"),
    Step::Process(8, 7, false),
    Step::Process(9, 7, true),
    Step::Thread(7, 10),
    Step::Code(7, Mode::User, 0x5800, 0, b"/bin/ls"),
    Step::Symbol(0xffff_f000, b"bpf_prog_1", false),
    Step::Symbol(0xffff_f200, b"bpf_prog_2", false),
    Step::Symbol(0xffff_f200, b"bpf_prog_2", true),
    Step::Code(
        7,
        Mode::User,
        u64::MAX - 0x7ff,
        0xffff_ffff_ffff_fff0,
        b"/bin/top",
    ),
];

const PLACES: [PlaceRow; 19] = [
    (
        7,
        Mode::User,
        0x57ff,
        Some((File::Named(b"/bin/sh"), 0x37ff)),
    ),
    (7, Mode::User, 0x5800, Some((File::Named(b"/bin/ls"), 0))),
    (
        7,
        Mode::User,
        0x67ff,
        Some((File::Named(b"/bin/ls"), 0xfff)),
    ),
    (7, Mode::User, 0x6800, None),
    (7, Mode::User, 0x4fff, None),
    (7, Mode::Other, 0x5000, None),
    (7, Mode::Kernel, 0x5000, None),
    (
        8,
        Mode::User,
        0x5fff,
        Some((File::Named(b"/bin/sh"), 0x3fff)),
    ),
    (9, Mode::User, 0x5fff, None),
    (10, Mode::User, 0x5fff, None),
    (7, Mode::User, 0x9abc, Some((File::PerfMap(7), 0x9abc))),
    (8, Mode::User, 0x9abc, Some((File::PerfMap(7), 0x9abc))),
    (
        7,
        Mode::User,
        u64::MAX,
        Some((File::Named(b"/bin/top"), 0x7ef)),
    ),
    (
        8,
        Mode::Kernel,
        0xffff_8010,
        Some((File::Named(b"[kernel.kallsyms]_text"), 0xffff_8010)),
    ),
    (
        8,
        Mode::Kernel,
        0xffff_c010,
        Some((File::Named(b"[xfs]"), 0x10)),
    ),
    (
        8,
        Mode::Kernel,
        0xffff_f0ff,
        Some((File::Symbol(b"bpf_prog_1"), 0xff)),
    ),
    (8, Mode::Kernel, 0xffff_f100, None),
    (8, Mode::Kernel, 0xffff_f200, None),
    (3, Mode::User, 0xffff_c010, None),
];

// The file and the offset that a history has at an address.
fn at(
    history: &History<'static>,
    pid: u32,
    mode: Mode,
    address: u64,
) -> Option<(File<'static>, u64)> {
    match history.memory(pid, mode).place(address) {
        Some(place) => Some((place.file, place.offset)),
        None => None,
    }
}

#[test]
fn files(rt: HostRuntime) {
    check_after(&rt, &MAPPING, &[], &PLACES);
}

const INODE: Identity<'static> = Identity::Inode(Inode {
    major: 8,
    minor: 1,
    number: 1234,
    generation: 5,
});

const HEAP: Map<'static> = Map {
    pid: 7,
    mode: Mode::User,
    start: 0x1000,
    len: 0x1000,
    offset: 0,
    file: b"[heap]",
    identity: INODE,
    executable: false,
};

#[test]
fn a_thread_of_another(rt: HostRuntime) {
    let named = change_of(Step::Comm(7, b"sh"));
    let made = change_of(Step::Thread(7, 8));
    let name = name_after_two(rt.alloc(), named, made, 8);
    check_debug(&rt, name, "Ok(Given([115, 104]))");
}

#[test]
fn a_whole_place(rt: HostRuntime) {
    check_debug(
        &rt,
        place_after_one(rt.alloc(), Change::Map(HEAP), 7, 0x1fff),
        "Ok(Some(Place { file: Named([91, 104, 101, 97, 112, 93]), offset: 8191, \
            identity: Inode(Inode { major: 8, minor: 1, number: 1234, generation: 5 }), \
            executable: false }))",
    );
}

const MODES: [(u16, Mode); 8] = [
    (0, Mode::Other),
    (1, Mode::Kernel),
    (2, Mode::User),
    (3, Mode::Other),
    (4, Mode::Other),
    (5, Mode::Other),
    (0x2002, Mode::User),
    (0xfff9, Mode::Kernel),
];

// The first of these numbers with another mode.
fn wrong_mode() -> Option<u16> {
    for (misc, mode) in &MODES {
        if Mode::of_misc(*misc) != *mode {
            return Some(*misc);
        }
    }
    None
}

#[test]
fn modes(rt: HostRuntime) {
    check_debug(&rt, wrong_mode(), "None");
}

// Names under which memory is mapped, and whether that is no file's.
const FILES: [(&[u8], bool); 17] = [
    (b"//anon", true),
    (b"//anon2", false),
    (b"//ano", false),
    (b"/dev/zero", true),
    (b"/dev/zero (deleted)", true),
    (b"/dev/zer", false),
    (b"/anon_hugepage (deleted)", true),
    (b"[stack]", true),
    (b"[stack:12]", true),
    (b"[stac", false),
    (b"/SYSV00000000 (deleted)", true),
    (b"/sysv", false),
    (b"[heap]", true),
    (b"[heap]2", false),
    (b"[vdso]", false),
    (b"/usr/bin/ls", false),
    (b"", false),
];

// The first of these names that keeps its address, or does not, against this table.
fn wrong_file() -> Option<&'static [u8]> {
    for (name, keeps) in &FILES {
        if keeps_address(name) != *keeps {
            return Some(*name);
        }
    }
    None
}

#[test]
fn names_without_a_file(rt: HostRuntime) {
    check_debug(&rt, wrong_file(), "None");
}
