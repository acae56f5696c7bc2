//! Laws of equality and hashing: sets and named numbers are equal if and only if their numbers are,
//! and hash as their numbers do, whatever the hash function. So equal ones have equal hashes.

ghost use Rattle.std.specs.Hash as fed;
ghost use Rattle.perf_words.specs.Alike.{IsByNumber, number_hash};
ghost use Rattle.perf_words.specs.SetBits as bits;

use crate::data_source::{MemBlk, MemDtlb, MemLevel, MemLock, MemOp, MemSnoop, MemSnoopX, Txn};
use crate::flags::{AuxFlags, KSymbolFlags, ReadFormat, SampleFlags};
use crate::named::{
    AuxPmuFormatType, BpfEventType, BranchType, KSymbolType, MemLevelNum, SampleRegsAbi,
};
use std::hash::BuildHasher;

/// The result of [`==`](PartialEq) for two values, and the hash of each.
#[derive(Copy, Clone, Debug)]
pub struct Compared {
    /// Whether they are equal.
    pub equal: bool,
    /// The hash of the first.
    pub first_hash: u64,
    /// The hash of the second.
    pub second_hash: u64,
}

/// How two values of [`SampleFlags`] compare and hash: by their numbers.
pub fn sample_flags_by_number<S: BuildHasher>(
    hashing: &S,
    first: SampleFlags,
    second: SampleFlags,
) -> Compared
    ensures { IsByNumber
        (number_hash S.Hasher.finish S.Hasher.write (S.build_hasher hashing.now) fed.u64)
        (bits.sample_flags_bits first) (bits.sample_flags_bits second)
        result.equal result.first_hash result.second_hash }
{
    Compared {
        equal: first == second,
        first_hash: hashing.hash_one(first),
        second_hash: hashing.hash_one(second),
    }
}

/// How two values of [`ReadFormat`] compare and hash: by their numbers.
pub fn read_format_by_number<S: BuildHasher>(
    hashing: &S,
    first: ReadFormat,
    second: ReadFormat,
) -> Compared
    ensures { IsByNumber
        (number_hash S.Hasher.finish S.Hasher.write (S.build_hasher hashing.now) fed.u64)
        (bits.read_format_bits first) (bits.read_format_bits second)
        result.equal result.first_hash result.second_hash }
{
    Compared {
        equal: first == second,
        first_hash: hashing.hash_one(first),
        second_hash: hashing.hash_one(second),
    }
}

/// How two values of [`AuxFlags`] compare and hash: by their numbers.
pub fn aux_flags_by_number<S: BuildHasher>(
    hashing: &S,
    first: AuxFlags,
    second: AuxFlags,
) -> Compared
    ensures { IsByNumber
        (number_hash S.Hasher.finish S.Hasher.write (S.build_hasher hashing.now) fed.u64)
        (bits.aux_flags_bits first) (bits.aux_flags_bits second)
        result.equal result.first_hash result.second_hash }
{
    Compared {
        equal: first == second,
        first_hash: hashing.hash_one(first),
        second_hash: hashing.hash_one(second),
    }
}

/// How two values of [`KSymbolFlags`] compare and hash: by their numbers.
pub fn ksymbol_flags_by_number<S: BuildHasher>(
    hashing: &S,
    first: KSymbolFlags,
    second: KSymbolFlags,
) -> Compared
    ensures { IsByNumber
        (number_hash S.Hasher.finish S.Hasher.write (S.build_hasher hashing.now) fed.u16)
        (bits.ksymbol_flags_bits first) (bits.ksymbol_flags_bits second)
        result.equal result.first_hash result.second_hash }
{
    Compared {
        equal: first == second,
        first_hash: hashing.hash_one(first),
        second_hash: hashing.hash_one(second),
    }
}

/// How two values of [`MemOp`] compare and hash: by their numbers.
pub fn mem_op_by_number<S: BuildHasher>(hashing: &S, first: MemOp, second: MemOp) -> Compared
    ensures { IsByNumber
        (number_hash S.Hasher.finish S.Hasher.write (S.build_hasher hashing.now) fed.u64)
        (bits.mem_op_bits first) (bits.mem_op_bits second)
        result.equal result.first_hash result.second_hash }
{
    Compared {
        equal: first == second,
        first_hash: hashing.hash_one(first),
        second_hash: hashing.hash_one(second),
    }
}

/// How two values of [`MemLevel`] compare and hash: by their numbers.
pub fn mem_level_by_number<S: BuildHasher>(
    hashing: &S,
    first: MemLevel,
    second: MemLevel,
) -> Compared
    ensures { IsByNumber
        (number_hash S.Hasher.finish S.Hasher.write (S.build_hasher hashing.now) fed.u64)
        (bits.mem_level_bits first) (bits.mem_level_bits second)
        result.equal result.first_hash result.second_hash }
{
    Compared {
        equal: first == second,
        first_hash: hashing.hash_one(first),
        second_hash: hashing.hash_one(second),
    }
}

/// How two values of [`MemLock`] compare and hash: by their numbers.
pub fn mem_lock_by_number<S: BuildHasher>(hashing: &S, first: MemLock, second: MemLock) -> Compared
    ensures { IsByNumber
        (number_hash S.Hasher.finish S.Hasher.write (S.build_hasher hashing.now) fed.u64)
        (bits.mem_lock_bits first) (bits.mem_lock_bits second)
        result.equal result.first_hash result.second_hash }
{
    Compared {
        equal: first == second,
        first_hash: hashing.hash_one(first),
        second_hash: hashing.hash_one(second),
    }
}

/// How two values of [`MemDtlb`] compare and hash: by their numbers.
pub fn mem_dtlb_by_number<S: BuildHasher>(hashing: &S, first: MemDtlb, second: MemDtlb) -> Compared
    ensures { IsByNumber
        (number_hash S.Hasher.finish S.Hasher.write (S.build_hasher hashing.now) fed.u64)
        (bits.mem_dtlb_bits first) (bits.mem_dtlb_bits second)
        result.equal result.first_hash result.second_hash }
{
    Compared {
        equal: first == second,
        first_hash: hashing.hash_one(first),
        second_hash: hashing.hash_one(second),
    }
}

/// How two values of [`MemSnoopX`] compare and hash: by their numbers.
pub fn mem_snoop_x_by_number<S: BuildHasher>(
    hashing: &S,
    first: MemSnoopX,
    second: MemSnoopX,
) -> Compared
    ensures { IsByNumber
        (number_hash S.Hasher.finish S.Hasher.write (S.build_hasher hashing.now) fed.u64)
        (bits.mem_snoop_x_bits first) (bits.mem_snoop_x_bits second)
        result.equal result.first_hash result.second_hash }
{
    Compared {
        equal: first == second,
        first_hash: hashing.hash_one(first),
        second_hash: hashing.hash_one(second),
    }
}

/// How two values of [`MemBlk`] compare and hash: by their numbers.
pub fn mem_blk_by_number<S: BuildHasher>(hashing: &S, first: MemBlk, second: MemBlk) -> Compared
    ensures { IsByNumber
        (number_hash S.Hasher.finish S.Hasher.write (S.build_hasher hashing.now) fed.u64)
        (bits.mem_blk_bits first) (bits.mem_blk_bits second)
        result.equal result.first_hash result.second_hash }
{
    Compared {
        equal: first == second,
        first_hash: hashing.hash_one(first),
        second_hash: hashing.hash_one(second),
    }
}

/// How two values of [`MemSnoop`] compare and hash: by their numbers.
pub fn mem_snoop_by_number<S: BuildHasher>(
    hashing: &S,
    first: MemSnoop,
    second: MemSnoop,
) -> Compared
    ensures { IsByNumber
        (number_hash S.Hasher.finish S.Hasher.write (S.build_hasher hashing.now) fed.u64)
        (bits.mem_snoop_bits first) (bits.mem_snoop_bits second)
        result.equal result.first_hash result.second_hash }
{
    Compared {
        equal: first == second,
        first_hash: hashing.hash_one(first),
        second_hash: hashing.hash_one(second),
    }
}

/// How two values of [`Txn`] compare and hash: by their numbers.
pub fn txn_by_number<S: BuildHasher>(hashing: &S, first: Txn, second: Txn) -> Compared
    ensures { IsByNumber
        (number_hash S.Hasher.finish S.Hasher.write (S.build_hasher hashing.now) fed.u64)
        (bits.txn_bits first) (bits.txn_bits second)
        result.equal result.first_hash result.second_hash }
{
    Compared {
        equal: first == second,
        first_hash: hashing.hash_one(first),
        second_hash: hashing.hash_one(second),
    }
}

/// How two values of [`BranchType`] compare and hash: by their numbers.
pub fn branch_type_by_number<S: BuildHasher>(
    hashing: &S,
    first: BranchType,
    second: BranchType,
) -> Compared
    ensures { IsByNumber
        (number_hash S.Hasher.finish S.Hasher.write (S.build_hasher hashing.now) fed.u8)
        first second result.equal result.first_hash result.second_hash }
{
    Compared {
        equal: first == second,
        first_hash: hashing.hash_one(first),
        second_hash: hashing.hash_one(second),
    }
}

/// How two values of [`AuxPmuFormatType`] compare and hash: by their numbers.
pub fn aux_pmu_format_type_by_number<S: BuildHasher>(
    hashing: &S,
    first: AuxPmuFormatType,
    second: AuxPmuFormatType,
) -> Compared
    ensures { IsByNumber
        (number_hash S.Hasher.finish S.Hasher.write (S.build_hasher hashing.now) fed.u8)
        first second result.equal result.first_hash result.second_hash }
{
    Compared {
        equal: first == second,
        first_hash: hashing.hash_one(first),
        second_hash: hashing.hash_one(second),
    }
}

/// How two values of [`MemLevelNum`] compare and hash: by their numbers.
pub fn mem_level_num_by_number<S: BuildHasher>(
    hashing: &S,
    first: MemLevelNum,
    second: MemLevelNum,
) -> Compared
    ensures { IsByNumber
        (number_hash S.Hasher.finish S.Hasher.write (S.build_hasher hashing.now) fed.u8)
        first second result.equal result.first_hash result.second_hash }
{
    Compared {
        equal: first == second,
        first_hash: hashing.hash_one(first),
        second_hash: hashing.hash_one(second),
    }
}

/// How two values of [`BpfEventType`] compare and hash: by their numbers.
pub fn bpf_event_type_by_number<S: BuildHasher>(
    hashing: &S,
    first: BpfEventType,
    second: BpfEventType,
) -> Compared
    ensures { IsByNumber
        (number_hash S.Hasher.finish S.Hasher.write (S.build_hasher hashing.now) fed.u16)
        first second result.equal result.first_hash result.second_hash }
{
    Compared {
        equal: first == second,
        first_hash: hashing.hash_one(first),
        second_hash: hashing.hash_one(second),
    }
}

/// How two values of [`KSymbolType`] compare and hash: by their numbers.
pub fn ksymbol_type_by_number<S: BuildHasher>(
    hashing: &S,
    first: KSymbolType,
    second: KSymbolType,
) -> Compared
    ensures { IsByNumber
        (number_hash S.Hasher.finish S.Hasher.write (S.build_hasher hashing.now) fed.u16)
        first second result.equal result.first_hash result.second_hash }
{
    Compared {
        equal: first == second,
        first_hash: hashing.hash_one(first),
        second_hash: hashing.hash_one(second),
    }
}

/// How two values of [`SampleRegsAbi`] compare and hash: by their numbers.
pub fn sample_regs_abi_by_number<S: BuildHasher>(
    hashing: &S,
    first: SampleRegsAbi,
    second: SampleRegsAbi,
) -> Compared
    ensures { IsByNumber
        (number_hash S.Hasher.finish S.Hasher.write (S.build_hasher hashing.now) fed.u64)
        first second result.equal result.first_hash result.second_hash }
{
    Compared {
        equal: first == second,
        first_hash: hashing.hash_one(first),
        second_hash: hashing.hash_one(second),
    }
}
