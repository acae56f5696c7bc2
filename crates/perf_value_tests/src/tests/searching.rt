//! What a search back in time finds, through a list of changes.

use perf_history::{Change, File, Identity, Map, Mode, Name, Place, Symbol};

/// The name of a thread after the changes.
pub fn name_back<'p>(changes: &[Change<'p>], tid: u32) -> Name<'p> {
    let mut thread = tid;
    for change in changes.iter().rev() {
        match change {
            Change::Comm(comm) => {
                if comm.tid == thread {
                    return Name::Given(comm.name);
                }
            }
            Change::Fork(fork) => {
                if fork.tid == thread {
                    thread = fork.ptid;
                }
            }
            _ => {}
        }
    }
    if tid == 0 {
        Name::Swapper
    } else {
        Name::Number(tid)
    }
}

fn is_within(start: u64, len: u64, address: u64) -> bool {
    address >= start && address - start < len
}

// What is at an address of a mapping. Only these names are used.
fn place_of<'p>(map: &Map<'p>, address: u64) -> Place<'p> {
    let is_no_file = map.file.starts_with(b"//anon") || map.file.starts_with(b"[stack");
    let offset = address.wrapping_sub(map.start).wrapping_add(map.offset);
    Place {
        file: if is_no_file && map.executable {
            File::PerfMap(map.pid)
        } else {
            File::Named(map.file)
        },
        offset: if is_no_file { address } else { offset },
        identity: map.identity,
        executable: map.executable,
    }
}

fn place_of_symbol<'p>(symbol: &Symbol<'p>, address: u64) -> Option<Place<'p>> {
    if symbol.removed {
        return None;
    }
    Some(Place {
        file: File::Symbol(symbol.name),
        offset: address.wrapping_sub(symbol.start),
        identity: Identity::Unknown,
        executable: true,
    })
}

/// What is at an address where a process runs, after the changes.
pub fn place_back<'p>(
    changes: &[Change<'p>],
    pid: u32,
    mode: Mode,
    address: u64,
) -> Option<Place<'p>> {
    let mut owner = match mode {
        Mode::Kernel => u32::MAX,
        Mode::User => pid,
        Mode::Other => return None,
    };
    for change in changes.iter().rev() {
        match change {
            Change::Comm(_) => {}
            Change::Fork(fork) => {
                if fork.pid == owner && owner != u32::MAX && !fork.made_up {
                    owner = fork.ppid;
                }
            }
            Change::Map(map) => {
                let of_kernel = map.mode == Mode::Kernel || map.pid == u32::MAX;
                let owns = if owner == u32::MAX {
                    of_kernel
                } else {
                    !of_kernel && map.pid == owner
                };
                if owns && is_within(map.start, map.len, address) {
                    return Some(place_of(map, address));
                }
            }
            Change::Symbol(symbol) => {
                if owner == u32::MAX && is_within(symbol.start, symbol.len, address) {
                    return place_of_symbol(symbol, address);
                }
            }
        }
    }
    None
}
