//! A hostile history: many mappings, and then forks of forks, each with a mapping of its own.

use perf_history::{Change, Fork, History, Identity, Map, Mode};
use std::alloc::{AllocError, Global};

fn map<'p>(pid: u32, start: u64) -> Change<'p> {
    Change::Map(Map {
        pid,
        mode: Mode::User,
        start,
        len: 0x1000,
        offset: 0,
        file: b"/bin/sh",
        identity: Identity::Unknown,
        executable: true,
    })
}

fn fork<'p>(pid: u32) -> Change<'p> {
    Change::Fork(Fork {
        pid,
        ppid: pid.wrapping_sub(1),
        tid: pid,
        ptid: pid.wrapping_sub(1),
        made_up: false,
    })
}

// Applies so many mappings of process 1, and then as many forks of forks with a mapping each.
fn apply_hostile(history: &mut History<'static>, count: u32) -> Result<(), AllocError> {
    for n in 0..count {
        history.apply(map(1, u64::from(n).wrapping_mul(0x2000)))?;
    }
    for n in 0..count {
        let pid = n.wrapping_add(2);
        let start = u64::from(pid).wrapping_mul(0x2000).wrapping_add(0x1000);
        history.apply(fork(pid))?;
        history.apply(map(pid, start))?;
    }
    Ok(())
}

// A process, an address, and whether something is mapped there.
const PLACES: [(u32, u64, bool); 4] = [
    (1, 0x2000, true),
    (1, 0x5000, false),
    (4001, 0x2000, true),
    (4001, 0x5000, true),
];

// The first of these addresses where something else is mapped.
fn wrong_place(history: &History<'static>) -> Option<u64> {
    for (pid, address, is_mapped) in &PLACES {
        if history.place(*pid, Mode::User, *address).is_some() != *is_mapped {
            return Some(*address);
        }
    }
    None
}

// That address after so many changes, and how many branches there are then.
fn after(alloc: Global, count: u32) -> Result<(Option<u64>, usize), AllocError> {
    let mut history = History::new(alloc);
    let applied = apply_hostile(&mut history, count);
    let found = (wrong_place(&history), history.branch_count());
    drop(history);
    applied?;
    Ok(found)
}

#[test]
fn forks_of_forks(rt: HostRuntime) -> Result<(), AllocError> {
    let (wrong, branches) = after(rt.alloc(), 4000)?;
    let (_, half) = after(rt.alloc(), 2000)?;
    // 8 MB, of a recording of 1.1 MB. Twice as many changes make little more than twice as many branches.
    let are_few = branches < 250_000 && branches / 9 < half / 4;
    assert!(rt; wrong.is_none() && are_few, "{wrong:?} {branches} {half}");
    Ok(())
}
