//! KSYMBOL.
#![tactic(auto, using(perf_reader::proofs::Calls::chain))]

ghost use Rattle.perf_reader.specs.Prelude.{ReadsInPlace};
ghost use Rattle.perf_types.specs.KSymbol.{ksymbol, ksymbol_value, IsBorrowedKSymbol, ksymbol_form};
ghost use Rattle.perf_base.specs.Copies.{IsClone, IsOwnedCopy};

use perf_base::{CowSlice, Endian, ParseResult, ReadResult};
use perf_buffers::input::Input;
use perf_reader::read::{HasTransition, ReadFrom};
use perf_reader::reader::Reader;
use perf_words::flags::KSymbolFlags;
use perf_words::named::KSymbolType;
use std::alloc::Global;

/// A kernel symbol was registered or unregistered (`PERF_RECORD_KSYMBOL`).
#[derive(Debug, Drop)]
pub struct KSymbol<'a> {
    /// The address of the symbol in kernel memory.
    pub addr: u64,
    /// Its size there in bytes.
    pub len: u32,
    /// The kind of the symbol, `PERF_RECORD_KSYMBOL_TYPE_*`.
    pub ksym_type: KSymbolType,
    /// Whether it was unregistered, `PERF_RECORD_KSYMBOL_FLAGS_*`.
    pub flags: KSymbolFlags,
    /// Its name, without the trailing zero bytes.
    pub name: CowSlice<'a, u8>,
}

impl<'a> KSymbol<'a> {
    /// A copy of the record. It needs no memory if the name is borrowed.
    pub fn clone(&self, alloc: Global) -> ParseResult<KSymbol<'a>>
        ensures { IsClone ksymbol_value ksymbol_form self.now result }
    {
        Ok(KSymbol {
            addr: self.addr,
            len: self.len,
            ksym_type: self.ksym_type,
            flags: self.flags,
            name: self.name.clone(alloc)?,
        })
    }

    /// Makes the record own its name, so that it does not borrow from the input. It needs no memory
    /// if it owns the name already. If out of memory, it returns `OutOfMemory` and the record is
    /// dropped.
    pub fn into_owned<'b>(self, alloc: Global) -> ParseResult<KSymbol<'b>>
        ensures { IsOwnedCopy ksymbol_value ksymbol_form self.entry result }
    {
        let KSymbol {
            addr,
            len,
            ksym_type,
            flags,
            name,
        } = self;
        Ok(KSymbol {
            addr,
            len,
            ksym_type,
            flags,
            name: name.into_owned(alloc)?,
        })
    }
}

impl HasTransition for KSymbol<'_> {
    ghost transition = { ReadsInPlace (λ _. ksymbol) ksymbol_value IsBorrowedKSymbol };
}

impl<'p, I: Input<'p>> ReadFrom<'p, I> for KSymbol<'p> {
    #[inline]
    fn read<E: Endian>(reader: &mut Reader<I, E>) -> ReadResult<Self> {
        Ok(KSymbol {
            addr: reader.read_u64()?,
            len: reader.read_u32()?,
            ksym_type: reader.read()?,
            flags: reader.read()?,
            name: reader.read_rest_trim_nul()?,
        })
    }
}
