//! How words with names, and sets of flags, are read.
#![tactic(auto, using(crate::proofs::Calls::chain))]

ghost use Rattle.perf_base.specs.FieldWords.{u16, u64};
ghost use Rattle.perf_reader.specs.Prelude.{ReadsPlain};
ghost use Rattle.perf_reader.specs.BranchEntry.{branch};
ghost use Rattle.perf_words.specs.SetBits.{aux_flags_bits, ksymbol_flags_bits, txn_bits};

use crate::read::{HasTransition, ReadFrom};
use crate::reader::Reader;
use bitflags::Flags;
use perf_base::{Endian, ReadResult};
use perf_buffers::input::Input;
use perf_words::{
    AuxFlags, BpfEventType, BranchEntry, DataSource, KSymbolFlags, KSymbolType, SampleRegsAbi, Txn,
};

impl HasTransition for AuxFlags {
    ghost transition = { ReadsPlain (λ _. u64) aux_flags_bits };
}

impl<'p, I: Input<'p>> ReadFrom<'p, I> for AuxFlags {
    #[inline]
    fn read<E: Endian>(reader: &mut Reader<I, E>) -> ReadResult<Self> {
        Ok(AuxFlags::from_bits_retain(reader.read_u64()?))
    }
}

impl HasTransition for BpfEventType {
    ghost transition = { ReadsPlain (λ _. u16) (λ number. number) };
}

impl<'p, I: Input<'p>> ReadFrom<'p, I> for BpfEventType {
    #[inline]
    fn read<E: Endian>(reader: &mut Reader<I, E>) -> ReadResult<Self> {
        Ok(BpfEventType::new(reader.read_u16()?))
    }
}

impl HasTransition for KSymbolType {
    ghost transition = { ReadsPlain (λ _. u16) (λ number. number) };
}

impl<'p, I: Input<'p>> ReadFrom<'p, I> for KSymbolType {
    #[inline]
    fn read<E: Endian>(reader: &mut Reader<I, E>) -> ReadResult<Self> {
        Ok(KSymbolType::new(reader.read_u16()?))
    }
}

impl HasTransition for KSymbolFlags {
    ghost transition = { ReadsPlain (λ _. u16) ksymbol_flags_bits };
}

impl<'p, I: Input<'p>> ReadFrom<'p, I> for KSymbolFlags {
    #[inline]
    fn read<E: Endian>(reader: &mut Reader<I, E>) -> ReadResult<Self> {
        Ok(KSymbolFlags::from_bits_retain(reader.read_u16()?))
    }
}

impl HasTransition for BranchEntry {
    ghost transition = { ReadsPlain (λ _. branch) (λ entry. entry) };
}

impl<'p, I: Input<'p>> ReadFrom<'p, I> for BranchEntry {
    #[inline]
    fn read<E: Endian>(reader: &mut Reader<I, E>) -> ReadResult<Self> {
        let from = reader.read_u64()?;
        let to = reader.read_u64()?;
        let word = reader.read_u64()?;
        Ok(BranchEntry::from_words(from, to, word))
    }
}

impl HasTransition for DataSource {
    ghost transition = { ReadsPlain (λ _. u64) (λ word. word) };
}

impl<'p, I: Input<'p>> ReadFrom<'p, I> for DataSource {
    #[inline]
    fn read<E: Endian>(reader: &mut Reader<I, E>) -> ReadResult<Self> {
        Ok(DataSource::from_word(reader.read_u64()?))
    }
}

impl HasTransition for SampleRegsAbi {
    ghost transition = { ReadsPlain (λ _. u64) (λ number. number) };
}

impl<'p, I: Input<'p>> ReadFrom<'p, I> for SampleRegsAbi {
    #[inline]
    fn read<E: Endian>(reader: &mut Reader<I, E>) -> ReadResult<Self> {
        Ok(SampleRegsAbi::new(reader.read_u64()?))
    }
}

impl HasTransition for Txn {
    ghost transition = { ReadsPlain (λ _. u64) txn_bits };
}

impl<'p, I: Input<'p>> ReadFrom<'p, I> for Txn {
    #[inline]
    fn read<E: Endian>(reader: &mut Reader<I, E>) -> ReadResult<Self> {
        Ok(Txn::from_bits_retain(reader.read_u64()?))
    }
}
