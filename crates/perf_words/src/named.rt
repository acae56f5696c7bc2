//! Numbers, some of which have names. Every number is a value: those without a name are kept.

ghost use Rattle.std.specs.Prelude.{◌≡◌, ℕ, map};
ghost use Rattle.perf_words.specs.Named.{branch_types, aux_pmu_format_types, mem_level_nums};
ghost use Rattle.perf_words.specs.Named.{bpf_event_types, ksymbol_types, sample_regs_abis};

use crate::macros::name_table;
use std::marker::Model;

/// The kind of branch of a branch entry, `PERF_BR_*`.
#[derive(Copy, Clone, Debug, PartialEq, Eq, Hash)]
pub struct BranchType(u8);

impl Model for BranchType {
    ghost Value = { ℕ };

    ghost view = { λ v. v.0 };

    ghost inverse = { λ n. record { 0 = n } };
}

impl BranchType {
    /// Unknown, `PERF_BR_UNKNOWN`.
    pub const UNKNOWN: BranchType = BranchType(0);

    /// A conditional branch, `PERF_BR_COND`.
    pub const COND: BranchType = BranchType(1);

    /// An unconditional branch, `PERF_BR_UNCOND`.
    pub const UNCOND: BranchType = BranchType(2);

    /// An indirect branch, `PERF_BR_IND`.
    pub const IND: BranchType = BranchType(3);

    /// A call, `PERF_BR_CALL`.
    pub const CALL: BranchType = BranchType(4);

    /// An indirect call, `PERF_BR_IND_CALL`.
    pub const IND_CALL: BranchType = BranchType(5);

    /// A return, `PERF_BR_RET`.
    pub const RET: BranchType = BranchType(6);

    /// A system call, `PERF_BR_SYSCALL`.
    pub const SYSCALL: BranchType = BranchType(7);

    /// A conditional call, `PERF_BR_COND_CALL`.
    pub const COND_CALL: BranchType = BranchType(9);

    /// A conditional return, `PERF_BR_COND_RET`.
    pub const COND_RET: BranchType = BranchType(10);

    /// Makes the value from its number.
    #[inline]
    pub const fn new(number: u8) -> BranchType
        ensures { result ≡ number }
    {
        BranchType(number)
    }

    /// The number.
    #[inline]
    pub const fn get(self) -> u8
        ensures { result ≡ self }
    {
        self.0
    }

    /// The values that have a name, each with its name.
    pub fn names() -> [(&'static str, BranchType); 10]
        ensures { map (λ row. (row.0.now, row.1)) result ≡ branch_types }
    {
        name_table!(BranchType:
            UNKNOWN, COND, UNCOND, IND, CALL, IND_CALL, RET, SYSCALL, COND_CALL, COND_RET
        )
    }
}

/// The format of a trace in the AUX buffer, `PERF_AUX_FLAG_CORESIGHT_FORMAT_*`.
#[derive(Copy, Clone, Debug, PartialEq, Eq, Hash)]
pub struct AuxPmuFormatType(u8);

impl Model for AuxPmuFormatType {
    ghost Value = { ℕ };

    ghost view = { λ v. v.0 };

    ghost inverse = { λ n. record { 0 = n } };
}

impl AuxPmuFormatType {
    /// CoreSight frames, `PERF_AUX_FLAG_CORESIGHT_FORMAT_CORESIGHT`.
    pub const CORESIGHT: AuxPmuFormatType = AuxPmuFormatType(0);

    /// The raw format of the source, `PERF_AUX_FLAG_CORESIGHT_FORMAT_RAW`.
    pub const CORESIGHT_RAW: AuxPmuFormatType = AuxPmuFormatType(1);

    /// Makes the value from its number.
    #[inline]
    pub const fn new(number: u8) -> AuxPmuFormatType
        ensures { result ≡ number }
    {
        AuxPmuFormatType(number)
    }

    /// The number.
    #[inline]
    pub const fn get(self) -> u8
        ensures { result ≡ self }
    {
        self.0
    }

    /// The values that have a name, each with its name.
    pub fn names() -> [(&'static str, AuxPmuFormatType); 2]
        ensures { map (λ row. (row.0.now, row.1)) result ≡ aux_pmu_format_types }
    {
        name_table!(AuxPmuFormatType: CORESIGHT, CORESIGHT_RAW)
    }
}

/// The number of the memory level at which an access ended: `mem_lvl_num` of a data source,
/// `PERF_MEM_LVLNUM_*`.
#[derive(Copy, Clone, Debug, PartialEq, Eq, Hash)]
pub struct MemLevelNum(u8);

impl Model for MemLevelNum {
    ghost Value = { ℕ };

    ghost view = { λ v. v.0 };

    ghost inverse = { λ n. record { 0 = n } };
}

impl MemLevelNum {
    /// The first cache level, `PERF_MEM_LVLNUM_L1`.
    pub const L1: MemLevelNum = MemLevelNum(1);

    /// The second cache level, `PERF_MEM_LVLNUM_L2`.
    pub const L2: MemLevelNum = MemLevelNum(2);

    /// The third cache level, `PERF_MEM_LVLNUM_L3`.
    pub const L3: MemLevelNum = MemLevelNum(3);

    /// The fourth cache level, `PERF_MEM_LVLNUM_L4`.
    pub const L4: MemLevelNum = MemLevelNum(4);

    /// Any cache, `PERF_MEM_LVLNUM_ANY_CACHE`.
    pub const ANY_CACHE: MemLevelNum = MemLevelNum(11);

    /// The line fill buffer, `PERF_MEM_LVLNUM_LFB`.
    pub const LFB: MemLevelNum = MemLevelNum(12);

    /// Memory, `PERF_MEM_LVLNUM_RAM`.
    pub const RAM: MemLevelNum = MemLevelNum(13);

    /// Persistent memory, `PERF_MEM_LVLNUM_PMEM`.
    pub const PMEM: MemLevelNum = MemLevelNum(14);

    /// Unknown, `PERF_MEM_LVLNUM_NA`.
    pub const NA: MemLevelNum = MemLevelNum(15);

    /// Makes the value from its number.
    #[inline]
    pub const fn new(number: u8) -> MemLevelNum
        ensures { result ≡ number }
    {
        MemLevelNum(number)
    }

    /// The number.
    #[inline]
    pub const fn get(self) -> u8
        ensures { result ≡ self }
    {
        self.0
    }

    /// The values that have a name, each with its name.
    pub fn names() -> [(&'static str, MemLevelNum); 9]
        ensures { map (λ row. (row.0.now, row.1)) result ≡ mem_level_nums }
    {
        name_table!(MemLevelNum: L1, L2, L3, L4, ANY_CACHE, LFB, RAM, PMEM, NA)
    }
}

/// What happened to a BPF program: the type of `PERF_RECORD_BPF_EVENT`, `PERF_BPF_EVENT_*`.
#[derive(Copy, Clone, Debug, PartialEq, Eq, Hash)]
pub struct BpfEventType(u16);

impl Model for BpfEventType {
    ghost Value = { ℕ };

    ghost view = { λ v. v.0 };

    ghost inverse = { λ n. record { 0 = n } };
}

impl BpfEventType {
    /// Unknown, `PERF_BPF_EVENT_UNKNOWN`.
    pub const UNKNOWN: BpfEventType = BpfEventType(0);

    /// It was loaded, `PERF_BPF_EVENT_PROG_LOAD`.
    pub const PROG_LOAD: BpfEventType = BpfEventType(1);

    /// It was unloaded, `PERF_BPF_EVENT_PROG_UNLOAD`.
    pub const PROG_UNLOAD: BpfEventType = BpfEventType(2);

    /// Makes the value from its number.
    #[inline]
    pub const fn new(number: u16) -> BpfEventType
        ensures { result ≡ number }
    {
        BpfEventType(number)
    }

    /// The number.
    #[inline]
    pub const fn get(self) -> u16
        ensures { result ≡ self }
    {
        self.0
    }

    /// The values that have a name, each with its name.
    pub fn names() -> [(&'static str, BpfEventType); 3]
        ensures { map (λ row. (row.0.now, row.1)) result ≡ bpf_event_types }
    {
        name_table!(BpfEventType: UNKNOWN, PROG_LOAD, PROG_UNLOAD)
    }
}

/// The kind of a kernel symbol: the type of `PERF_RECORD_KSYMBOL`, `PERF_RECORD_KSYMBOL_TYPE_*`.
#[derive(Copy, Clone, Debug, PartialEq, Eq, Hash)]
pub struct KSymbolType(u16);

impl Model for KSymbolType {
    ghost Value = { ℕ };

    ghost view = { λ v. v.0 };

    ghost inverse = { λ n. record { 0 = n } };
}

impl KSymbolType {
    /// Unknown, `PERF_RECORD_KSYMBOL_TYPE_UNKNOWN`.
    pub const UNKNOWN: KSymbolType = KSymbolType(0);

    /// A BPF function, `PERF_RECORD_KSYMBOL_TYPE_BPF`.
    pub const BPF: KSymbolType = KSymbolType(1);

    /// Out-of-line code, such as that of a probe, `PERF_RECORD_KSYMBOL_TYPE_OOL`.
    pub const OOL: KSymbolType = KSymbolType(2);

    /// Makes the value from its number.
    #[inline]
    pub const fn new(number: u16) -> KSymbolType
        ensures { result ≡ number }
    {
        KSymbolType(number)
    }

    /// The number.
    #[inline]
    pub const fn get(self) -> u16
        ensures { result ≡ self }
    {
        self.0
    }

    /// The values that have a name, each with its name.
    pub fn names() -> [(&'static str, KSymbolType); 3]
        ensures { map (λ row. (row.0.now, row.1)) result ≡ ksymbol_types }
    {
        name_table!(KSymbolType: UNKNOWN, BPF, OOL)
    }
}

/// The ABI of the registers of a sample, `PERF_SAMPLE_REGS_ABI_*`.
#[derive(Copy, Clone, Debug, PartialEq, Eq, Hash)]
pub struct SampleRegsAbi(u64);

impl Model for SampleRegsAbi {
    ghost Value = { ℕ };

    ghost view = { λ v. v.0 };

    ghost inverse = { λ n. record { 0 = n } };
}

impl SampleRegsAbi {
    /// No registers, `PERF_SAMPLE_REGS_ABI_NONE`.
    pub const NONE: SampleRegsAbi = SampleRegsAbi(0);

    /// The 32-bit ABI, `PERF_SAMPLE_REGS_ABI_32`.
    pub const ABI_32: SampleRegsAbi = SampleRegsAbi(1);

    /// The 64-bit ABI, `PERF_SAMPLE_REGS_ABI_64`.
    pub const ABI_64: SampleRegsAbi = SampleRegsAbi(2);

    /// Makes the value from its number.
    #[inline]
    pub const fn new(number: u64) -> SampleRegsAbi
        ensures { result ≡ number }
    {
        SampleRegsAbi(number)
    }

    /// The number.
    #[inline]
    pub const fn get(self) -> u64
        ensures { result ≡ self }
    {
        self.0
    }

    /// The values that have a name, each with its name.
    pub fn names() -> [(&'static str, SampleRegsAbi); 3]
        ensures { map (λ row. (row.0.now, row.1)) result ≡ sample_regs_abis }
    {
        name_table!(SampleRegsAbi: NONE, ABI_32, ABI_64)
    }
}
