//! Laws of equality and hashing: two orders, or two kinds of refusal, are equal if and only if they
//! are the same one, and hash as its number does, whatever the hash function. And a law of the bits
//! that `sys` names.

ghost use Rattle.std.specs.Prelude.{◌≡◌, ◌^◌};
ghost use Rattle.std.specs.Hash as fed;
ghost use Rattle.perf_words.specs.Alike.{IsByNumber, number_hash};
ghost use Rattle.perf_base.specs.Alike.{order_number, kind_number};
ghost use Rattle.perf_base.specs.Misc.{switch_out_bit, build_id_bit};

use crate::endian::Dynamic;
use crate::error::ErrorKind;
use crate::sys::{PERF_RECORD_MISC_MMAP_BUILD_ID, PERF_RECORD_MISC_SWITCH_OUT};
use perf_words::laws::Compared;
use std::hash::BuildHasher;

/// How two values of [`Dynamic`] compare and hash: by their order.
pub fn dynamic_by_number<S: BuildHasher>(hashing: &S, first: Dynamic, second: Dynamic) -> Compared
    ensures { IsByNumber
        (number_hash S.Hasher.finish S.Hasher.write (S.build_hasher hashing.now) fed.u64)
        (order_number first) (order_number second)
        result.equal result.first_hash result.second_hash }
{
    Compared {
        equal: first == second,
        first_hash: hashing.hash_one(first),
        second_hash: hashing.hash_one(second),
    }
}

/// How two values of [`ErrorKind`] compare and hash: by their kind.
pub fn error_kind_by_number<S: BuildHasher>(
    hashing: &S,
    first: ErrorKind,
    second: ErrorKind,
) -> Compared
    ensures { IsByNumber
        (number_hash S.Hasher.finish S.Hasher.write (S.build_hasher hashing.now) fed.u64)
        (kind_number first) (kind_number second)
        result.equal result.first_hash result.second_hash }
{
    Compared {
        equal: first == second,
        first_hash: hashing.hash_one(first),
        second_hash: hashing.hash_one(second),
    }
}

/// The two bits of a header's `misc` that specify how its record is read: that of a switch away
/// from a task, and that of a mapping whose file is identified by a build id.
pub fn misc_bits() -> (u16, u16)
    ensures switch_out { result.0 ≡ 2 ^ switch_out_bit }
    ensures build_id { result.1 ≡ 2 ^ build_id_bit }
{
    (PERF_RECORD_MISC_SWITCH_OUT, PERF_RECORD_MISC_MMAP_BUILD_ID)
}
