//! Where sampled data came from, and what a memory transaction did.

ghost use Rattle.std.specs.Prelude.{◌≡◌, ⊤, ℕ};
ghost use Rattle.perf_words.specs.Bits.{bit_field};
ghost use Rattle.perf_words.specs.Sets as sets;
ghost use Rattle.perf_words.specs.SetBits as bits;
ghost use Rattle.perf_words.specs.DataSource as fields;

use crate::field::bit_field;
use crate::macros::flag_table;
use crate::named::MemLevelNum;
use bitflags::{Flag, Flags};
use std::fmt;
use std::marker::Model;

/// Where the data accessed by a memory instruction came from, `union perf_mem_data_src`. Every word
/// is a data source: bits and numbers without a name are kept.
#[derive(Copy, Clone)]
pub struct DataSource {
    word: u64,
}

impl Model for DataSource {
    ghost Value = { ℕ };

    ghost view = { λ s. s.word };

    ghost inverse = { λ n. record { word = n } };
}

/// The word 0, in which nothing is set.
impl Default for DataSource {
    ghost is_default = { λ source. source ≡ 0 };

    fn default() -> DataSource {
        DataSource { word: 0 }
    }
}

impl DataSource {
    /// Makes a data source from its word.
    #[inline]
    pub const fn from_word(word: u64) -> DataSource
        ensures { result ≡ word }
    {
        DataSource { word }
    }

    /// The whole word.
    #[inline]
    pub const fn bits(&self) -> u64
        ensures { result ≡ self.now }
    {
        self.word
    }

    /// What the instruction does: bits 0 to 4.
    #[inline]
    pub fn mem_op(&self) -> MemOp
        ensures { bits.mem_op_bits result ≡ fields.mem_op_of self.now }
    {
        MemOp(bit_field(self.word, 0, 5))
    }

    /// Where in the memory hierarchy the access ended: bits 5 to 18.
    #[inline]
    pub fn mem_lvl(&self) -> MemLevel
        ensures { bits.mem_level_bits result ≡ fields.mem_lvl_of self.now }
    {
        MemLevel(bit_field(self.word, 5, 14))
    }

    /// What was found in other caches: bits 19 to 23 and 38 to 39, kept at these positions.
    #[inline]
    pub fn mem_snoop(&self) -> MemSnoop
        ensures { bits.mem_snoop_bits result ≡ fields.mem_snoop_of self.now }
    {
        MemSnoop::new(bit_field(self.word, 19, 5), bit_field(self.word, 38, 2))
    }

    /// Whether the access held a lock: bits 24 and 25.
    #[inline]
    pub fn mem_lock(&self) -> MemLock
        ensures { bits.mem_lock_bits result ≡ fields.mem_lock_of self.now }
    {
        MemLock(bit_field(self.word, 24, 2))
    }

    /// How the address was translated: bits 26 to 32.
    #[inline]
    pub fn mem_dtlb(&self) -> MemDtlb
        ensures { bits.mem_dtlb_bits result ≡ fields.mem_dtlb_of self.now }
    {
        MemDtlb(bit_field(self.word, 26, 7))
    }

    /// The number of the memory level: bits 33 to 36.
    #[inline]
    pub fn mem_lvl_num(&self) -> MemLevelNum
        ensures { result ≡ fields.mem_lvl_num_of self.now }
    {
        MemLevelNum::new(bit_field(self.word, 33, 4) as u8)
    }

    /// Whether the access went to another node: bit 37.
    #[inline]
    pub fn mem_remote(&self) -> bool
        ensures { result ≡ fields.mem_remote_of self.now }
    {
        bit_field(self.word, 37, 1) == 1
    }

    /// Why the access was blocked: bits 40 to 42.
    #[inline]
    pub fn mem_blk(&self) -> MemBlk
        ensures { bits.mem_blk_bits result ≡ fields.mem_blk_of self.now }
    {
        MemBlk(bit_field(self.word, 40, 3))
    }

    /// How far the data came: bits 43 to 45. 0 is not given, 1 (`PERF_MEM_HOPS_0`) another core of
    /// the same node, 2 (`PERF_MEM_HOPS_1`) another node of the same socket, 3 (`PERF_MEM_HOPS_2`)
    /// another socket of the same board, 4 (`PERF_MEM_HOPS_3`) another board.
    #[inline]
    pub fn mem_hops(&self) -> u8
        ensures { result ≡ fields.mem_hops_of self.now }
    {
        bit_field(self.word, 43, 3) as u8
    }
}

impl fmt::Debug for DataSource {
    fn fmt<W: fmt::Write>(&self, f: &mut fmt::Formatter<W>) -> fmt::Result {
        f.debug_struct("DataSource")
            .field("mem_op", &self.mem_op())
            .field("mem_lvl", &self.mem_lvl())
            .field("mem_snoop", &self.mem_snoop())
            .field("mem_lock", &self.mem_lock())
            .field("mem_dtlb", &self.mem_dtlb())
            .field("mem_lvl_num", &self.mem_lvl_num())
            .field("mem_remote", &self.mem_remote())
            .field("mem_blk", &self.mem_blk())
            .field("mem_hops", &self.mem_hops())
            .finish()
    }
}

/// What a memory instruction did: `mem_op` of a data source, `PERF_MEM_OP_*`.
#[derive(Copy, Clone, Debug, PartialEq, Eq, Hash)]
pub struct MemOp(u64);

impl MemOp {
    /// Unknown, `PERF_MEM_OP_NA`.
    pub const NA: MemOp = MemOp(1);

    /// A load, `PERF_MEM_OP_LOAD`.
    pub const LOAD: MemOp = MemOp(2);

    /// A store, `PERF_MEM_OP_STORE`.
    pub const STORE: MemOp = MemOp(4);

    /// A prefetch, `PERF_MEM_OP_PFETCH`.
    pub const PFETCH: MemOp = MemOp(8);

    /// An execution of code, `PERF_MEM_OP_EXEC`.
    pub const EXEC: MemOp = MemOp(16);

    const FLAGS: &'static [Flag<MemOp>] = flag_table!(MemOp: NA, LOAD, STORE, PFETCH, EXEC);
}

/// No flag is set.
impl Default for MemOp {
    ghost is_default = { λ set. bits.mem_op_bits set ≡ 0 };

    fn default() -> MemOp {
        MemOp(0)
    }
}

impl Flags for MemOp {
    type Bits = u64;

    ghost exact = { ⊤ };

    ghost table = { sets.mem_op_table };

    ghost set_of = { λ set. set.0 };

    fn flags<'a>() -> &'a [Flag<MemOp>] {
        MemOp::FLAGS
    }

    #[inline]
    fn bits(&self) -> u64 {
        self.0
    }

    #[inline]
    fn from_bits_retain(bits: u64) -> MemOp {
        MemOp(bits)
    }
}

/// Where in the memory hierarchy an access ended: `mem_lvl` of a data source, `PERF_MEM_LVL_*`.
#[derive(Copy, Clone, Debug, PartialEq, Eq, Hash)]
pub struct MemLevel(u64);

impl MemLevel {
    /// Unknown, `PERF_MEM_LVL_NA`.
    pub const NA: MemLevel = MemLevel(1);

    /// A hit, `PERF_MEM_LVL_HIT`.
    pub const HIT: MemLevel = MemLevel(2);

    /// A miss, `PERF_MEM_LVL_MISS`.
    pub const MISS: MemLevel = MemLevel(4);

    /// The first cache level, `PERF_MEM_LVL_L1`.
    pub const L1: MemLevel = MemLevel(8);

    /// The line fill buffer, `PERF_MEM_LVL_LFB`.
    pub const LFB: MemLevel = MemLevel(0x10);

    /// The second cache level, `PERF_MEM_LVL_L2`.
    pub const L2: MemLevel = MemLevel(0x20);

    /// The third cache level, `PERF_MEM_LVL_L3`.
    pub const L3: MemLevel = MemLevel(0x40);

    /// Local memory, `PERF_MEM_LVL_LOC_RAM`.
    pub const LOC_RAM: MemLevel = MemLevel(0x80);

    /// Remote memory, one hop away, `PERF_MEM_LVL_REM_RAM1`.
    pub const REM_RAM1: MemLevel = MemLevel(0x100);

    /// Remote memory, two hops away, `PERF_MEM_LVL_REM_RAM2`.
    pub const REM_RAM2: MemLevel = MemLevel(0x200);

    /// A remote cache, one hop away, `PERF_MEM_LVL_REM_CCE1`.
    pub const REM_CCE1: MemLevel = MemLevel(0x400);

    /// A remote cache, two hops away, `PERF_MEM_LVL_REM_CCE2`.
    pub const REM_CCE2: MemLevel = MemLevel(0x800);

    /// Device memory, `PERF_MEM_LVL_IO`.
    pub const IO: MemLevel = MemLevel(0x1000);

    /// Uncached memory, `PERF_MEM_LVL_UNC`.
    pub const UNC: MemLevel = MemLevel(0x2000);

    const FLAGS: &'static [Flag<MemLevel>] = flag_table!(MemLevel:
        NA, HIT, MISS, L1, LFB, L2, L3, LOC_RAM, REM_RAM1, REM_RAM2, REM_CCE1, REM_CCE2, IO, UNC
    );
}

/// No flag is set.
impl Default for MemLevel {
    ghost is_default = { λ set. bits.mem_level_bits set ≡ 0 };

    fn default() -> MemLevel {
        MemLevel(0)
    }
}

impl Flags for MemLevel {
    type Bits = u64;

    ghost exact = { ⊤ };

    ghost table = { sets.mem_level_table };

    ghost set_of = { λ set. set.0 };

    fn flags<'a>() -> &'a [Flag<MemLevel>] {
        MemLevel::FLAGS
    }

    #[inline]
    fn bits(&self) -> u64 {
        self.0
    }

    #[inline]
    fn from_bits_retain(bits: u64) -> MemLevel {
        MemLevel(bits)
    }
}

/// Whether an access held a lock: `mem_lock` of a data source, `PERF_MEM_LOCK_*`.
#[derive(Copy, Clone, Debug, PartialEq, Eq, Hash)]
pub struct MemLock(u64);

impl MemLock {
    /// Unknown, `PERF_MEM_LOCK_NA`.
    pub const NA: MemLock = MemLock(1);

    /// Locked, `PERF_MEM_LOCK_LOCKED`.
    pub const LOCKED: MemLock = MemLock(2);

    const FLAGS: &'static [Flag<MemLock>] = flag_table!(MemLock: NA, LOCKED);
}

/// No flag is set.
impl Default for MemLock {
    ghost is_default = { λ set. bits.mem_lock_bits set ≡ 0 };

    fn default() -> MemLock {
        MemLock(0)
    }
}

impl Flags for MemLock {
    type Bits = u64;

    ghost exact = { ⊤ };

    ghost table = { sets.mem_lock_table };

    ghost set_of = { λ set. set.0 };

    fn flags<'a>() -> &'a [Flag<MemLock>] {
        MemLock::FLAGS
    }

    #[inline]
    fn bits(&self) -> u64 {
        self.0
    }

    #[inline]
    fn from_bits_retain(bits: u64) -> MemLock {
        MemLock(bits)
    }
}

/// How the address was translated: `mem_dtlb` of a data source, `PERF_MEM_TLB_*`.
#[derive(Copy, Clone, Debug, PartialEq, Eq, Hash)]
pub struct MemDtlb(u64);

impl MemDtlb {
    /// Unknown, `PERF_MEM_TLB_NA`.
    pub const NA: MemDtlb = MemDtlb(1);

    /// A hit, `PERF_MEM_TLB_HIT`.
    pub const HIT: MemDtlb = MemDtlb(2);

    /// A miss, `PERF_MEM_TLB_MISS`.
    pub const MISS: MemDtlb = MemDtlb(4);

    /// The first level, `PERF_MEM_TLB_L1`.
    pub const L1: MemDtlb = MemDtlb(8);

    /// The second level, `PERF_MEM_TLB_L2`.
    pub const L2: MemDtlb = MemDtlb(16);

    /// The hardware page walker, `PERF_MEM_TLB_WK`.
    pub const WK: MemDtlb = MemDtlb(32);

    /// The operating system's fault handler, `PERF_MEM_TLB_OS`.
    pub const OS: MemDtlb = MemDtlb(64);

    const FLAGS: &'static [Flag<MemDtlb>] = flag_table!(MemDtlb: NA, HIT, MISS, L1, L2, WK, OS);
}

/// No flag is set.
impl Default for MemDtlb {
    ghost is_default = { λ set. bits.mem_dtlb_bits set ≡ 0 };

    fn default() -> MemDtlb {
        MemDtlb(0)
    }
}

impl Flags for MemDtlb {
    type Bits = u64;

    ghost exact = { ⊤ };

    ghost table = { sets.mem_dtlb_table };

    ghost set_of = { λ set. set.0 };

    fn flags<'a>() -> &'a [Flag<MemDtlb>] {
        MemDtlb::FLAGS
    }

    #[inline]
    fn bits(&self) -> u64 {
        self.0
    }

    #[inline]
    fn from_bits_retain(bits: u64) -> MemDtlb {
        MemDtlb(bits)
    }
}

/// More of the snoop: `mem_snoopx` of a data source, as a field of its own, `PERF_MEM_SNOOPX_*`.
#[derive(Copy, Clone, Debug, PartialEq, Eq, Hash)]
pub struct MemSnoopX(u64);

impl MemSnoopX {
    /// The line was forwarded, `PERF_MEM_SNOOPX_FWD`.
    pub const FWD: MemSnoopX = MemSnoopX(1);

    /// It came from a peer, `PERF_MEM_SNOOPX_PEER`.
    pub const PEER: MemSnoopX = MemSnoopX(2);

    const FLAGS: &'static [Flag<MemSnoopX>] = flag_table!(MemSnoopX: FWD, PEER);
}

/// No flag is set.
impl Default for MemSnoopX {
    ghost is_default = { λ set. bits.mem_snoop_x_bits set ≡ 0 };

    fn default() -> MemSnoopX {
        MemSnoopX(0)
    }
}

impl Flags for MemSnoopX {
    type Bits = u64;

    ghost exact = { ⊤ };

    ghost table = { sets.mem_snoop_x_table };

    ghost set_of = { λ set. set.0 };

    fn flags<'a>() -> &'a [Flag<MemSnoopX>] {
        MemSnoopX::FLAGS
    }

    #[inline]
    fn bits(&self) -> u64 {
        self.0
    }

    #[inline]
    fn from_bits_retain(bits: u64) -> MemSnoopX {
        MemSnoopX(bits)
    }
}

/// Why an access was blocked: `mem_blk` of a data source, `PERF_MEM_BLK_*`.
#[derive(Copy, Clone, Debug, PartialEq, Eq, Hash)]
pub struct MemBlk(u64);

impl MemBlk {
    /// Unknown, `PERF_MEM_BLK_NA`.
    pub const NA: MemBlk = MemBlk(1);

    /// Data could not be forwarded, `PERF_MEM_BLK_DATA`.
    pub const DATA: MemBlk = MemBlk(2);

    /// An address conflict, `PERF_MEM_BLK_ADDR`.
    pub const ADDR: MemBlk = MemBlk(4);

    const FLAGS: &'static [Flag<MemBlk>] = flag_table!(MemBlk: NA, DATA, ADDR);
}

/// No flag is set.
impl Default for MemBlk {
    ghost is_default = { λ set. bits.mem_blk_bits set ≡ 0 };

    fn default() -> MemBlk {
        MemBlk(0)
    }
}

impl Flags for MemBlk {
    type Bits = u64;

    ghost exact = { ⊤ };

    ghost table = { sets.mem_blk_table };

    ghost set_of = { λ set. set.0 };

    fn flags<'a>() -> &'a [Flag<MemBlk>] {
        MemBlk::FLAGS
    }

    #[inline]
    fn bits(&self) -> u64 {
        self.0
    }

    #[inline]
    fn from_bits_retain(bits: u64) -> MemBlk {
        MemBlk(bits)
    }
}

/// What was found in other caches: both snoop fields of a data source, at their positions there,
/// `PERF_MEM_SNOOP_*` and `PERF_MEM_SNOOPX_*`.
#[derive(Copy, Clone, Debug, PartialEq, Eq, Hash)]
pub struct MemSnoop(u64);

impl MemSnoop {
    /// Unknown, `PERF_MEM_SNOOP_NA`.
    pub const NA: MemSnoop = MemSnoop(1 << 19);

    /// No snoop, `PERF_MEM_SNOOP_NONE`.
    pub const NONE: MemSnoop = MemSnoop(2 << 19);

    /// A snoop hit, `PERF_MEM_SNOOP_HIT`.
    pub const HIT: MemSnoop = MemSnoop(4 << 19);

    /// A snoop miss, `PERF_MEM_SNOOP_MISS`.
    pub const MISS: MemSnoop = MemSnoop(8 << 19);

    /// A hit on a modified line, `PERF_MEM_SNOOP_HITM`.
    pub const HITM: MemSnoop = MemSnoop(16 << 19);

    /// The line was forwarded, `PERF_MEM_SNOOPX_FWD`.
    pub const FWD: MemSnoop = MemSnoop(1 << 38);

    /// It came from a peer, `PERF_MEM_SNOOPX_PEER`.
    pub const PEER: MemSnoop = MemSnoop(2 << 38);

    const FLAGS: &'static [Flag<MemSnoop>] =
        flag_table!(MemSnoop: NA, NONE, HIT, MISS, HITM, FWD, PEER);
}

/// No flag is set.
impl Default for MemSnoop {
    ghost is_default = { λ set. bits.mem_snoop_bits set ≡ 0 };

    fn default() -> MemSnoop {
        MemSnoop(0)
    }
}

impl Flags for MemSnoop {
    type Bits = u64;

    ghost exact = { ⊤ };

    ghost table = { sets.mem_snoop_table };

    ghost set_of = { λ set. set.0 };

    fn flags<'a>() -> &'a [Flag<MemSnoop>] {
        MemSnoop::FLAGS
    }

    #[inline]
    fn bits(&self) -> u64 {
        self.0
    }

    #[inline]
    fn from_bits_retain(bits: u64) -> MemSnoop {
        MemSnoop(bits)
    }
}

impl MemSnoop {
    /// Both snoop fields, each at its position in a data source: the five bits of `mem_snoop` from
    /// bit 19 on, and the two of `mem_snoopx` from bit 38 on. Higher bits of either are dropped.
    #[inline]
    pub const fn new(mem_snoop: u64, mem_snoopx: u64) -> MemSnoop
        ensures { bits.mem_snoop_bits result ≡ fields.snoop_of mem_snoop mem_snoopx }
    {
        MemSnoop((mem_snoop % 32) * (1 << 19) + (mem_snoopx % 4) * (1 << 38))
    }
}

/// What a memory transaction did, and why it was aborted, `PERF_TXN_*`.
#[derive(Copy, Clone, Debug, PartialEq, Eq, Hash)]
pub struct Txn(u64);

impl Txn {
    /// It came from lock elision, `PERF_TXN_ELISION`.
    pub const ELISION: Txn = Txn(1);

    /// It came from a plain transaction, `PERF_TXN_TRANSACTION`.
    pub const TRANSACTION: Txn = Txn(2);

    /// The sampled instruction caused the abort, `PERF_TXN_SYNC`.
    pub const SYNC: Txn = Txn(4);

    /// The sampled instruction did not cause the abort, `PERF_TXN_ASYNC`.
    pub const ASYNC: Txn = Txn(8);

    /// The transaction may be retried, `PERF_TXN_RETRY`.
    pub const RETRY: Txn = Txn(16);

    /// A conflict with another thread over the same memory, `PERF_TXN_CONFLICT`.
    pub const CONFLICT: Txn = Txn(32);

    /// Too much was written, `PERF_TXN_CAPACITY_WRITE`.
    pub const CAPACITY_WRITE: Txn = Txn(64);

    /// Too much was read, `PERF_TXN_CAPACITY_READ`.
    pub const CAPACITY_READ: Txn = Txn(128);

    /// The mask of the abort code, `PERF_TXN_ABORT_MASK`.
    pub const ABORT_MASK: Txn = Txn(0xffff_ffff << 32);

    const FLAGS: &'static [Flag<Txn>] = flag_table!(Txn:
        ELISION, TRANSACTION, SYNC, ASYNC, RETRY, CONFLICT, CAPACITY_WRITE, CAPACITY_READ,
        ABORT_MASK
    );
}

/// No flag is set.
impl Default for Txn {
    ghost is_default = { λ set. bits.txn_bits set ≡ 0 };

    fn default() -> Txn {
        Txn(0)
    }
}

impl Flags for Txn {
    type Bits = u64;

    ghost exact = { ⊤ };

    ghost table = { sets.txn_table };

    ghost set_of = { λ set. set.0 };

    fn flags<'a>() -> &'a [Flag<Txn>] {
        Txn::FLAGS
    }

    #[inline]
    fn bits(&self) -> u64 {
        self.0
    }

    #[inline]
    fn from_bits_retain(bits: u64) -> Txn {
        Txn(bits)
    }
}

impl Txn {
    /// The code that the program gave for its abort: bits 32 to 63.
    #[inline]
    pub fn abort(&self) -> u32
        ensures { result ≡ bit_field (bits.txn_bits self.now) 32 32 }
    {
        bit_field(self.0, 32, 32) as u32
    }
}
