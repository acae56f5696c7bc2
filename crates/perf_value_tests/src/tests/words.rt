//! Flags, named numbers, branch entries and data sources.

use crate::tests::checks::{check_debug, check_numbers};
use bitflags::Flags;
use perf_words::{
    AuxFlags, AuxPmuFormatType, BranchEntry, BranchType, DataSource, KSymbolFlags, MemBlk, MemDtlb,
    MemLevel, MemLevelNum, MemLock, MemOp, MemSnoop, MemSnoopX, ReadFormat, SampleFlags,
    SampleRegsAbi, Txn,
};

// The results of the calls of a data source, as numbers.
fn numbers_of_source(source: DataSource) -> [u64; 10] {
    [
        source.mem_op().bits(),
        source.mem_lvl().bits(),
        source.mem_snoop().bits(),
        source.mem_lock().bits(),
        source.mem_dtlb().bits(),
        u64::from(source.mem_lvl_num().get()),
        u64::from(source.mem_remote()),
        source.mem_blk().bits(),
        u64::from(source.mem_hops()),
        source.bits(),
    ]
}

// The results for a load.
fn numbers_of_load() -> [u64; 10] {
    [
        MemOp::LOAD.bits(),
        MemLevel::HIT.union(MemLevel::L1).bits(),
        MemSnoop::NONE.union(MemSnoop::FWD).bits(),
        MemLock::empty().bits(),
        MemDtlb::default().bits(),
        u64::from(MemLevelNum::L1.get()),
        0,
        MemBlk::empty().bits(),
        3,
        0x1842_0010_0142,
    ]
}

#[test]
fn data_source_of_a_load(rt: HostRuntime) {
    let source = DataSource::from_word(0x1842_0010_0142);
    check_numbers(&rt, &numbers_of_source(source), &numbers_of_load());
    let numbers = [source.mem_snoop().bits(), DataSource::default().bits()];
    check_numbers(&rt, &numbers, &[0x40_0010_0000, 0]);
}

// The words of branches, and the results of their calls: the addresses, the marks, the cycles and the
// type, as text.
const BRANCHES: [([u64; 3], &str); 3] = [
    (
        [1, 2, 0x60_0051],
        "([1, 2], [true, false, false, false], 5, BranchType(6))",
    ),
    (
        [115, 116, 117 << 4],
        "([115, 116], [false, false, false, false], 117, BranchType(0))",
    ),
    (
        [0, 0, 0x51],
        "([0, 0], [true, false, false, false], 5, BranchType(0))",
    ),
];

#[test]
fn branch_words(rt: HostRuntime) {
    for &([from, to, word], want) in &BRANCHES {
        let branch = BranchEntry::from_words(from, to, word);
        let (mispredicted, predicted) = (branch.mispred(), branch.predicted());
        let marks = [mispredicted, predicted, branch.in_tx(), branch.abort()];
        let addresses = [branch.from(), branch.to()];
        check_debug(&rt, (addresses, marks, branch.cycles(), branch.ty()), want);
    }
    let types = [BranchType::UNKNOWN, BranchType::RET];
    check_debug(&rt, types, "[BranchType(0), BranchType(6)]");
}

// Mispredicted, 5 cycles, type 6; predicted and aborted, 32,769 cycles, type 1: as a compiler for a
// big-endian machine lays out these fields, from the highest bit.
#[test]
fn branch_words_of_a_big_endian_machine(rt: HostRuntime) {
    let first = BranchEntry::from_words(1, 2, 0x8000_5600_0000_0000).reversed();
    let second = BranchEntry::from_words(3, 4, 0x5800_1100_0000_0000).reversed();
    check_debug(
        &rt,
        [first, second],
        "[BranchEntry { from: 1, to: 2, word: 6291537 }, \
          BranchEntry { from: 3, to: 4, word: 1572890 }]",
    );
}

// How many numbers an entry has under read formats.
fn element_lens() -> [usize; 4] {
    [
        ReadFormat::default().element_len(),
        ReadFormat::ID.element_len(),
        ReadFormat::GROUP.union(ReadFormat::LOST).element_len(),
        ReadFormat::all().element_len(),
    ]
}

#[test]
fn numbers_inside_sets(rt: HostRuntime) {
    check_debug(&rt, element_lens(), "[1, 2, 2, 3]");
    let format = AuxFlags::from_bits_retain(0x0103).pmu_format_type();
    let abort = Txn::from_bits_retain(0xdead_beef_0000_0004).abort();
    let numbers = [
        u64::from(format.get()),
        MemSnoop::new(u64::MAX, u64::MAX).bits(),
        u64::from(abort),
    ];
    let want = [
        u64::from(AuxPmuFormatType::CORESIGHT_RAW.get()),
        MemSnoop::all().bits(),
        0xdead_beef,
    ];
    check_numbers(&rt, &numbers, &want);
}

// A bit or a number without a name is kept.
#[test]
fn unnamed_is_kept(rt: HostRuntime) {
    let numbers = [
        SampleFlags::from_bits_retain(1 << 63).bits(),
        u64::from(KSymbolFlags::from_bits_retain(0x8001).bits()),
        MemSnoopX::from_bits_retain(7).bits(),
        u64::from(BranchType::new(8).get()),
        SampleRegsAbi::new(u64::MAX).get(),
    ];
    check_numbers(&rt, &numbers, &[1 << 63, 0x8001, 7, 8, u64::MAX]);
}

// The bits of flags, if any have that name.
fn bits_named(name: &str) -> Option<u64> {
    match SampleFlags::from_name(name) {
        Some(flags) => Some(flags.bits()),
        None => None,
    }
}

#[test]
fn names(rt: HostRuntime) {
    let (name, level) = MemLevelNum::names()[8];
    let named = bits_named("CODE_PAGE_SIZE") == Some(SampleFlags::CODE_PAGE_SIZE.bits());
    let unnamed = bits_named("PERF_SAMPLE_IP");
    let numbers = [SampleFlags::all().bits(), u64::from(level.get())];
    let want = "(true, None, [33554431, 15], \"NA\")";
    check_debug(&rt, (named, unnamed, numbers, name), want);
}

#[test]
fn debug_texts(rt: HostRuntime) {
    let branch = BranchEntry::from_words(1, 2, 3);
    let words = (
        SampleFlags::TIME,
        BranchType::RET,
        branch,
        DataSource::from_word(2),
    );
    check_debug(
        &rt,
        words,
        "(SampleFlags(4), BranchType(6), BranchEntry { from: 1, to: 2, word: 3 }, DataSource { \
            mem_op: MemOp(2), mem_lvl: MemLevel(0), mem_snoop: MemSnoop(0), mem_lock: MemLock(0), \
            mem_dtlb: MemDtlb(0), mem_lvl_num: MemLevelNum(0), mem_remote: false, \
            mem_blk: MemBlk(0), mem_hops: 0 })",
    );
}
