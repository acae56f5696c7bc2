//! What a recording states about threads and their memory.
#![tactic(auto)]

ghost use Rattle.std.specs.Prelude.{◌≡◌};
ghost use Rattle.perf_history.specs.Modes.{mode_of, space_of, space_at};
ghost use Rattle.perf_history.specs.Forks.{copies_memory};

/// The number of the address space of the kernel: that of process -1, as perf writes it.
pub(crate) const KERNEL: u32 = u32::MAX;

/// Where code runs, or where memory is: bits 0 to 2 of a header's `misc`
/// (`PERF_RECORD_MISC_CPUMODE_MASK`).
#[derive(Clone, Copy, Debug, PartialEq, Eq)]
pub enum Mode {
    /// In the kernel (`PERF_RECORD_MISC_KERNEL`).
    Kernel,
    /// In a process (`PERF_RECORD_MISC_USER`).
    User,
    /// In a hypervisor or a guest, or it is not known.
    Other,
}

impl Mode {
    /// The mode in a header's `misc`.
    pub fn of_misc(misc: u16) -> Mode
        ensures { result ≡ mode_of misc }
    {
        match misc % 8 {
            1 => Mode::Kernel,
            2 => Mode::User,
            _ => Mode::Other,
        }
    }

    // The address space that a mapping of a process is in.
    pub(crate) fn space_of(self, pid: u32) -> u32
        ensures { result ≡ space_of self pid }
    {
        match self {
            Mode::Kernel => KERNEL,
            _ => pid,
        }
    }

    // The address space in which a process runs code.
    pub(crate) fn space_at(self, pid: u32) -> Option<u32>
        ensures { result ≡ space_at self pid }
    {
        match self {
            Mode::Kernel => Some(KERNEL),
            Mode::User => Some(pid),
            Mode::Other => None,
        }
    }
}

/// What a recording states about threads and their memory. Byte strings stay borrowed; they have no
/// zero bytes at their end.
#[derive(Clone, Copy, Debug)]
pub enum Change<'p> {
    /// A thread has a new name.
    Comm(Comm<'p>),
    /// A thread, and perhaps a process, was made.
    Fork(Fork),
    /// Something was mapped.
    Map(Map<'p>),
    /// The kernel has a symbol more, or one less.
    Symbol(Symbol<'p>),
}

/// A thread has a new name (`PERF_RECORD_COMM`).
#[derive(Clone, Copy, Debug)]
pub struct Comm<'p> {
    /// The id of the thread.
    pub tid: u32,
    /// Its name.
    pub name: &'p [u8],
}

/// A thread was made (`PERF_RECORD_FORK`), and a process if it is of another one than its parent.
#[derive(Clone, Copy, Debug)]
pub struct Fork {
    /// The id of its process.
    pub pid: u32,
    /// The id of the process of its parent.
    pub ppid: u32,
    /// The id of the thread.
    pub tid: u32,
    /// The id of its parent, which is a thread.
    pub ptid: u32,
    /// Whether perf made the record up, for a thread that was there when the recording began: bit 13
    /// of `misc` (`PERF_RECORD_MISC_FORK_EXEC`). Then the parent's memory is not that of the thread.
    pub made_up: bool,
}

impl Fork {
    // Whether a new process, which is not the kernel, has the memory of its parent.
    pub(crate) fn copies_memory(self) -> bool
        ensures { result ≡ copies_memory self }
    {
        self.pid != self.ppid && !self.made_up && self.pid != KERNEL
    }
}

/// Something was mapped into the memory of a process or of the kernel (`PERF_RECORD_MMAP`,
/// `PERF_RECORD_MMAP2`).
#[derive(Clone, Copy, Debug)]
pub struct Map<'p> {
    /// The id of the process; -1, which is 2^32 - 1, is the kernel.
    pub pid: u32,
    /// Whose memory it is: with [`Mode::Kernel`] the kernel's, whatever the process.
    pub mode: Mode,
    /// The first address.
    pub start: u64,
    /// How many bytes. Addresses do not wrap: what would be past 2^64 - 1 is not mapped.
    pub len: u64,
    /// The offset of the first byte in the file.
    pub offset: u64,
    /// The path of the file, or the kernel's name for what is no file, such as `//anon`.
    pub file: &'p [u8],
    /// Which file it is.
    pub identity: Identity<'p>,
    /// Whether the memory contains code: `PROT_EXEC` in an MMAP2, and no
    /// `PERF_RECORD_MISC_MMAP_DATA` in the `misc` of an MMAP.
    pub executable: bool,
}

/// The kernel has a symbol more, or one less, as for a BPF program (`PERF_RECORD_KSYMBOL`).
#[derive(Clone, Copy, Debug)]
pub struct Symbol<'p> {
    /// Its address.
    pub start: u64,
    /// Its size in bytes. Addresses do not wrap: none is past 2^64 - 1.
    pub len: u64,
    /// Its name.
    pub name: &'p [u8],
    /// Whether it was removed (`PERF_RECORD_KSYMBOL_FLAGS_UNREGISTER`).
    pub removed: bool,
}

/// What identifies the file of a mapping.
#[derive(Clone, Copy, Debug, PartialEq, Eq)]
pub enum Identity<'p> {
    /// Nothing, as in an MMAP.
    Unknown,
    /// Its build id.
    BuildId(&'p [u8]),
    /// Its inode.
    Inode(Inode),
}

/// The inode of a file.
#[derive(Clone, Copy, Debug, PartialEq, Eq)]
pub struct Inode {
    /// The major number of the device that contains the file.
    pub major: u32,
    /// The minor number of that device.
    pub minor: u32,
    /// The number of the inode.
    pub number: u64,
    /// The generation of the inode, which distinguishes files that used its number one after
    /// another.
    pub generation: u64,
}
