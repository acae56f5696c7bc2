//! Branches that the processor recorded.

ghost use Rattle.std.specs.Prelude.{◌≡◌};
ghost use Rattle.perf_words.specs.Branch.{Branch, mispred_of, predicted_of, in_tx_of, abort_of};
ghost use Rattle.perf_words.specs.Branch.{cycles_of, branch_type_of, reversed};

use crate::field::bit_field;
use crate::named::BranchType;
use std::marker::Model;

/// A branch that was taken, `struct perf_branch_entry`: two addresses and a word of bit fields.
#[derive(Copy, Clone, Debug)]
pub struct BranchEntry {
    from: u64,
    to: u64,
    word: u64,
}

impl Model for BranchEntry {
    ghost Value = { Branch };

    ghost view = { λ b. record { from = b.from; to = b.to; word = b.word } };

    ghost inverse = { λ b. record { from = b.from; to = b.to; word = b.word } };
}

impl BranchEntry {
    /// Makes a branch from its three words.
    #[inline]
    pub const fn from_words(from: u64, to: u64, word: u64) -> BranchEntry
        ensures { result ≡ record { from = from; to = to; word = word } }
    {
        BranchEntry { from, to, word }
    }

    /// The source address. The instruction there need not be a branch.
    #[inline]
    pub const fn from(&self) -> u64
        ensures { result ≡ self.now.from }
    {
        self.from
    }

    /// The target address.
    #[inline]
    pub const fn to(&self) -> u64
        ensures { result ≡ self.now.to }
    {
        self.to
    }

    /// Whether it was mispredicted: bit 0 of the word.
    #[inline]
    pub fn mispred(&self) -> bool
        ensures { result ≡ mispred_of self.now.word }
    {
        bit_field(self.word, 0, 1) == 1
    }

    /// Whether it was predicted correctly: bit 1.
    #[inline]
    pub fn predicted(&self) -> bool
        ensures { result ≡ predicted_of self.now.word }
    {
        bit_field(self.word, 1, 1) == 1
    }

    /// Whether it happened in a memory transaction: bit 2.
    #[inline]
    pub fn in_tx(&self) -> bool
        ensures { result ≡ in_tx_of self.now.word }
    {
        bit_field(self.word, 2, 1) == 1
    }

    /// Whether it was the abort of a memory transaction: bit 3.
    #[inline]
    pub fn abort(&self) -> bool
        ensures { result ≡ abort_of self.now.word }
    {
        bit_field(self.word, 3, 1) == 1
    }

    /// Cycles since the previous branch: bits 4 to 19.
    #[inline]
    pub fn cycles(&self) -> u16
        ensures { result ≡ cycles_of self.now.word }
    {
        bit_field(self.word, 4, 16) as u16
    }

    /// The kind of branch: bits 20 to 23.
    #[inline]
    pub fn ty(&self) -> BranchType
        ensures { result ≡ branch_type_of self.now.word }
    {
        BranchType::new(bit_field(self.word, 20, 4) as u8)
    }

    /// The branch of a word that a big-endian machine wrote, read as a number of its order. C lays
    /// out bit fields from the highest bit there, and here from the lowest: `mispred` is bit 63,
    /// and `cycles` bits 44 to 59. Each field keeps its number; bits without a field become 0.
    pub fn reversed(&self) -> BranchEntry
        ensures { result ≡ record {
          from = self.now.from;
          to = self.now.to;
          word = reversed self.now.word;
        } }
    {
        let flags = bit_field(self.word, 63, 1)
            + bit_field(self.word, 62, 1) * 2
            + bit_field(self.word, 61, 1) * 4
            + bit_field(self.word, 60, 1) * 8;
        let numbers = bit_field(self.word, 44, 16) * (1 << 4)
            + bit_field(self.word, 40, 4) * (1 << 20);
        BranchEntry::from_words(self.from, self.to, flags + numbers)
    }
}
