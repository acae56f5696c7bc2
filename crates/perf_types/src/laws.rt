//! The law of equality and hashing of [`NamespaceEntry`]: entries are equal if and only if both of
//! their numbers are, and hash as these do, the device's first, whatever the hash function. So
//! equal ones have equal hashes.

ghost use Rattle.std.specs.Hash as fed;
ghost use Rattle.perf_types.specs.Alike.{IsByFields, entry_hash};

use crate::namespaces::NamespaceEntry;
use perf_words::laws::Compared;
use std::hash::BuildHasher;

/// How two values of [`NamespaceEntry`] compare and hash: by both of their numbers.
pub fn namespace_entry_by_numbers<S: BuildHasher>(
    hashing: &S,
    first: NamespaceEntry,
    second: NamespaceEntry,
) -> Compared
    ensures { IsByFields
        (entry_hash S.Hasher.finish S.Hasher.write (S.build_hasher hashing.now) fed.u64)
        first second result.equal result.first_hash result.second_hash }
{
    Compared {
        equal: first == second,
        first_hash: hashing.hash_one(first),
        second_hash: hashing.hash_one(second),
    }
}
