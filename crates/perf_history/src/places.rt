//! What is mapped at an address.
#![tactic(auto)]

ghost use Rattle.std.specs.Prelude.{◌≡◌};
ghost use Rattle.perf_history.specs.FileNames as names;
ghost use Rattle.perf_history.specs.Places as places;

use crate::changes::{Identity, Map, Symbol};

/// In which file an address is.
#[derive(Clone, Copy, Debug, PartialEq, Eq)]
pub enum File<'p> {
    /// The file with this path, or what the kernel calls so, such as `[vdso]`.
    Named(&'p [u8]),
    /// `/tmp/perf-PID.map`, in which the process with this id lists the code that it made.
    PerfMap(u32),
    /// No file, but the symbol of the kernel with this name.
    Symbol(&'p [u8]),
}

/// What is mapped at an address.
#[derive(Clone, Copy, Debug, PartialEq, Eq)]
pub struct Place<'p> {
    /// In which file the address is.
    pub file: File<'p>,
    /// The offset there in bytes, modulo 2^64; of memory that is no file's the address itself.
    pub offset: u64,
    /// Which file it is.
    pub identity: Identity<'p>,
    /// Whether the memory contains code.
    pub executable: bool,
}

/// Whether memory that is mapped under this name is no file's, so that an address is known by itself
/// alone: `//anon`, `/dev/zero..`, `/anon_hugepage..`, `[stack..`, `/SYSV..` and `[heap]`, as for
/// perf.
pub fn keeps_address(file: &[u8]) -> bool
    ensures { result ≡ names.keeps_address file.now }
{
    file == b"//anon".as_slice()
        || file == b"[heap]".as_slice()
        || file.starts_with(b"/dev/zero")
        || file.starts_with(b"/anon_hugepage")
        || file.starts_with(b"[stack")
        || file.starts_with(b"/SYSV")
}

// What is kept of a mapping.
#[derive(Clone, Copy, Debug)]
pub struct Mapping<'p> {
    /// The first address.
    pub start: u64,
    /// The offset of the first byte.
    pub offset: u64,
    /// Whether offsets are the addresses.
    pub by_address: bool,
    /// In which file the addresses are.
    pub file: File<'p>,
    /// Which file it is.
    pub identity: Identity<'p>,
    /// Whether the memory contains code.
    pub executable: bool,
}

impl<'p> Mapping<'p> {
    // What is kept of a mapping.
    pub fn of_map(map: Map<'p>) -> Mapping<'p>
        ensures { result ≡ places.mapping_of map.entry }
    {
        let by_address = keeps_address(map.file);
        Mapping {
            start: map.start,
            offset: map.offset,
            by_address,
            file: if by_address && map.executable {
                File::PerfMap(map.pid)
            } else {
                File::Named(map.file)
            },
            identity: map.identity,
            executable: map.executable,
        }
    }

    // What is kept of a symbol.
    pub fn of_symbol(symbol: Symbol<'p>) -> Mapping<'p>
        ensures { result ≡ places.mapping_of_symbol symbol.entry }
    {
        Mapping {
            start: symbol.start,
            offset: 0,
            by_address: false,
            file: File::Symbol(symbol.name),
            identity: Identity::Unknown,
            executable: true,
        }
    }

    // What is at an address of it.
    pub fn place(&self, address: u64) -> Place<'p>
        ensures { result ≡ places.place_in self.now address }
    {
        Place {
            file: self.file,
            offset: if self.by_address {
                address
            } else {
                address.saturating_sub(self.start).wrapping_add(self.offset)
            },
            identity: self.identity,
            executable: self.executable,
        }
    }
}
