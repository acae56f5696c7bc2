//! Sets of flags: of samples, of reads, and of the records AUX and KSYMBOL.

ghost use Rattle.std.specs.Prelude.{◌≡◌, ⊤};
ghost use Rattle.perf_words.specs.Bits.{bit_field};
ghost use Rattle.perf_words.specs.Sets.{sample_flags_table, read_format_table, aux_flags_table};
ghost use Rattle.perf_words.specs.Sets.{ksymbol_flags_table, element_len};
ghost use Rattle.perf_words.specs.SetBits.{sample_flags_bits, read_format_bits, aux_flags_bits};

use crate::field::bit_field;
use crate::macros::flag_table;
use crate::named::AuxPmuFormatType;
use bitflags::{Flag, Flags};

/// Which fields a sample has: the bits of `sample_type`, `PERF_SAMPLE_*`.
#[derive(Copy, Clone, Debug, PartialEq, Eq, Hash)]
pub struct SampleFlags(u64);

impl SampleFlags {
    /// The instruction pointer, `PERF_SAMPLE_IP`.
    pub const IP: SampleFlags = SampleFlags(1 << 0);

    /// The process and thread ids, `PERF_SAMPLE_TID`.
    pub const TID: SampleFlags = SampleFlags(1 << 1);

    /// A timestamp, `PERF_SAMPLE_TIME`.
    pub const TIME: SampleFlags = SampleFlags(1 << 2);

    /// An address, such as that of a memory access, `PERF_SAMPLE_ADDR`.
    pub const ADDR: SampleFlags = SampleFlags(1 << 3);

    /// Counter values, as `read(2)` returns them, `PERF_SAMPLE_READ`.
    pub const READ: SampleFlags = SampleFlags(1 << 4);

    /// The chain of callers, `PERF_SAMPLE_CALLCHAIN`.
    pub const CALLCHAIN: SampleFlags = SampleFlags(1 << 5);

    /// The id of the event's group leader, `PERF_SAMPLE_ID`.
    pub const ID: SampleFlags = SampleFlags(1 << 6);

    /// The CPU number, `PERF_SAMPLE_CPU`.
    pub const CPU: SampleFlags = SampleFlags(1 << 7);

    /// The sampling period, `PERF_SAMPLE_PERIOD`.
    pub const PERIOD: SampleFlags = SampleFlags(1 << 8);

    /// The id of the event itself, `PERF_SAMPLE_STREAM_ID`.
    pub const STREAM_ID: SampleFlags = SampleFlags(1 << 9);

    /// Raw data of the event's source, `PERF_SAMPLE_RAW`.
    pub const RAW: SampleFlags = SampleFlags(1 << 10);

    /// The last branches that were taken, `PERF_SAMPLE_BRANCH_STACK`.
    pub const BRANCH_STACK: SampleFlags = SampleFlags(1 << 11);

    /// Registers of the user program, `PERF_SAMPLE_REGS_USER`.
    pub const REGS_USER: SampleFlags = SampleFlags(1 << 12);

    /// Part of the user stack, `PERF_SAMPLE_STACK_USER`.
    pub const STACK_USER: SampleFlags = SampleFlags(1 << 13);

    /// A weight: how costly the sampled event was, `PERF_SAMPLE_WEIGHT`.
    pub const WEIGHT: SampleFlags = SampleFlags(1 << 14);

    /// Where accessed data came from, `PERF_SAMPLE_DATA_SRC`.
    pub const DATA_SRC: SampleFlags = SampleFlags(1 << 15);

    /// The id at a fixed position, `PERF_SAMPLE_IDENTIFIER`.
    pub const IDENTIFIER: SampleFlags = SampleFlags(1 << 16);

    /// Why a memory transaction was aborted, `PERF_SAMPLE_TRANSACTION`.
    pub const TRANSACTION: SampleFlags = SampleFlags(1 << 17);

    /// Registers at the interrupt, `PERF_SAMPLE_REGS_INTR`.
    pub const REGS_INTR: SampleFlags = SampleFlags(1 << 18);

    /// A physical address, `PERF_SAMPLE_PHYS_ADDR`.
    pub const PHYS_ADDR: SampleFlags = SampleFlags(1 << 19);

    /// Part of the AUX buffer, `PERF_SAMPLE_AUX`.
    pub const AUX: SampleFlags = SampleFlags(1 << 20);

    /// The id of the control group, `PERF_SAMPLE_CGROUP`.
    pub const CGROUP: SampleFlags = SampleFlags(1 << 21);

    /// The page size of the data, `PERF_SAMPLE_DATA_PAGE_SIZE`.
    pub const DATA_PAGE_SIZE: SampleFlags = SampleFlags(1 << 22);

    /// The page size of the code, `PERF_SAMPLE_CODE_PAGE_SIZE`.
    pub const CODE_PAGE_SIZE: SampleFlags = SampleFlags(1 << 23);

    /// A weight in several parts, `PERF_SAMPLE_WEIGHT_STRUCT`.
    pub const WEIGHT_STRUCT: SampleFlags = SampleFlags(1 << 24);

    const FLAGS: &'static [Flag<SampleFlags>] = flag_table!(SampleFlags:
        IP, TID, TIME, ADDR, READ, CALLCHAIN, ID, CPU, PERIOD, STREAM_ID, RAW, BRANCH_STACK,
        REGS_USER, STACK_USER, WEIGHT, DATA_SRC, IDENTIFIER, TRANSACTION, REGS_INTR, PHYS_ADDR,
        AUX, CGROUP, DATA_PAGE_SIZE, CODE_PAGE_SIZE, WEIGHT_STRUCT
    );
}

/// No flag is set.
impl Default for SampleFlags {
    ghost is_default = { λ set. sample_flags_bits set ≡ 0 };

    fn default() -> SampleFlags {
        SampleFlags(0)
    }
}

impl Flags for SampleFlags {
    type Bits = u64;

    ghost exact = { ⊤ };

    ghost table = { sample_flags_table };

    ghost set_of = { λ set. set.0 };

    fn flags<'a>() -> &'a [Flag<SampleFlags>] {
        SampleFlags::FLAGS
    }

    #[inline]
    fn bits(&self) -> u64 {
        self.0
    }

    #[inline]
    fn from_bits_retain(bits: u64) -> SampleFlags {
        SampleFlags(bits)
    }
}

/// What a read of a counter returns besides its value: the bits of `read_format`, `PERF_FORMAT_*`.
#[derive(Copy, Clone, Debug, PartialEq, Eq, Hash)]
pub struct ReadFormat(u64);

impl ReadFormat {
    /// How long the event was enabled, `PERF_FORMAT_TOTAL_TIME_ENABLED`.
    pub const TOTAL_TIME_ENABLED: ReadFormat = ReadFormat(1);

    /// How long the event ran on the CPU, `PERF_FORMAT_TOTAL_TIME_RUNNING`.
    pub const TOTAL_TIME_RUNNING: ReadFormat = ReadFormat(2);

    /// The id of each counter, `PERF_FORMAT_ID`.
    pub const ID: ReadFormat = ReadFormat(4);

    /// All counters of the group at once, `PERF_FORMAT_GROUP`.
    pub const GROUP: ReadFormat = ReadFormat(8);

    /// How many samples of each counter were lost, `PERF_FORMAT_LOST`.
    pub const LOST: ReadFormat = ReadFormat(16);

    const FLAGS: &'static [Flag<ReadFormat>] =
        flag_table!(ReadFormat: TOTAL_TIME_ENABLED, TOTAL_TIME_RUNNING, ID, GROUP, LOST);
}

/// No flag is set.
impl Default for ReadFormat {
    ghost is_default = { λ set. read_format_bits set ≡ 0 };

    fn default() -> ReadFormat {
        ReadFormat(0)
    }
}

impl Flags for ReadFormat {
    type Bits = u64;

    ghost exact = { ⊤ };

    ghost table = { read_format_table };

    ghost set_of = { λ set. set.0 };

    fn flags<'a>() -> &'a [Flag<ReadFormat>] {
        ReadFormat::FLAGS
    }

    #[inline]
    fn bits(&self) -> u64 {
        self.0
    }

    #[inline]
    fn from_bits_retain(bits: u64) -> ReadFormat {
        ReadFormat(bits)
    }
}

impl ReadFormat {
    /// How many eight-byte numbers each counter of a group has: its value, its id if
    /// [`ReadFormat::ID`] is set, and its lost samples if [`ReadFormat::LOST`] is set.
    #[inline]
    pub fn element_len(&self) -> usize
        ensures { result ≡ element_len (read_format_bits self.now) }
    {
        1 + usize::from(self.contains(ReadFormat::ID))
            + usize::from(self.contains(ReadFormat::LOST))
    }
}

/// What happened to data of the AUX buffer: the flags of `PERF_RECORD_AUX`, `PERF_AUX_FLAG_*`.
#[derive(Copy, Clone, Debug, PartialEq, Eq, Hash)]
pub struct AuxFlags(u64);

impl AuxFlags {
    /// The data was truncated to fit into the buffer, `PERF_AUX_FLAG_TRUNCATED`.
    pub const TRUNCATED: AuxFlags = AuxFlags(1);

    /// The data overwrote older data, `PERF_AUX_FLAG_OVERWRITE`.
    pub const OVERWRITE: AuxFlags = AuxFlags(2);

    /// The data has gaps, `PERF_AUX_FLAG_PARTIAL`.
    pub const PARTIAL: AuxFlags = AuxFlags(4);

    /// The sample collided with another, `PERF_AUX_FLAG_COLLISION`.
    pub const COLLISION: AuxFlags = AuxFlags(8);

    /// The mask of the trace format's number, `PERF_AUX_FLAG_PMU_FORMAT_TYPE_MASK`.
    pub const PMU_FORMAT_MASK: AuxFlags = AuxFlags(0xff00);

    const FLAGS: &'static [Flag<AuxFlags>] =
        flag_table!(AuxFlags: TRUNCATED, OVERWRITE, PARTIAL, COLLISION, PMU_FORMAT_MASK);
}

impl Flags for AuxFlags {
    type Bits = u64;

    ghost exact = { ⊤ };

    ghost table = { aux_flags_table };

    ghost set_of = { λ set. set.0 };

    fn flags<'a>() -> &'a [Flag<AuxFlags>] {
        AuxFlags::FLAGS
    }

    #[inline]
    fn bits(&self) -> u64 {
        self.0
    }

    #[inline]
    fn from_bits_retain(bits: u64) -> AuxFlags {
        AuxFlags(bits)
    }
}

impl AuxFlags {
    /// The format of the trace: bits 8 to 15.
    #[inline]
    pub fn pmu_format_type(&self) -> AuxPmuFormatType
        ensures { result ≡ bit_field (aux_flags_bits self.now) 8 8 }
    {
        AuxPmuFormatType::new(bit_field(self.0, 8, 8) as u8)
    }
}

/// Flags of `PERF_RECORD_KSYMBOL`, `PERF_RECORD_KSYMBOL_FLAGS_*`.
#[derive(Copy, Clone, Debug, PartialEq, Eq, Hash)]
pub struct KSymbolFlags(u16);

impl KSymbolFlags {
    /// The symbol was unregistered, `PERF_RECORD_KSYMBOL_FLAGS_UNREGISTER`.
    pub const UNREGISTER: KSymbolFlags = KSymbolFlags(1);

    const FLAGS: &'static [Flag<KSymbolFlags>] = flag_table!(KSymbolFlags: UNREGISTER);
}

impl Flags for KSymbolFlags {
    type Bits = u16;

    ghost exact = { ⊤ };

    ghost table = { ksymbol_flags_table };

    ghost set_of = { λ set. set.0 };

    fn flags<'a>() -> &'a [Flag<KSymbolFlags>] {
        KSymbolFlags::FLAGS
    }

    #[inline]
    fn bits(&self) -> u16 {
        self.0
    }

    #[inline]
    fn from_bits_retain(bits: u16) -> KSymbolFlags {
        KSymbolFlags(bits)
    }
}
