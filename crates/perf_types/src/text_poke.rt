//! TEXT_POKE.
#![tactic(auto, using(perf_reader::proofs::Calls::chain))]

ghost use Rattle.std.specs.Prelude.{◌≡◌, ◌<◌, ◌≤◌, ◌^◌};
ghost use Rattle.perf_reader.specs.Prelude.{ReadsInPlace};
ghost use Rattle.perf_types.specs.TextPoke.{text_poke, text_poke_value, poked_len};
ghost use Rattle.perf_types.specs.TextPoke.{IsBorrowedTextPoke, text_poke_form};
ghost use Rattle.perf_base.specs.Copies.{IsClone, IsOwnedCopy};

use perf_base::{CowSlice, Endian, ParseResult, ReadResult, Refusal};
use perf_buffers::input::Input;
use perf_reader::read::{HasTransition, ReadFrom};
use perf_reader::reader::Reader;
use std::alloc::Global;

/// The kernel changed its own code (`PERF_RECORD_TEXT_POKE`).
#[derive(Debug, Drop)]
pub struct TextPoke<'a> {
    /// The address of the change in kernel memory.
    pub addr: u64,
    /// The bytes that were there. There are none if the code is new.
    pub old_bytes: CowSlice<'a, u8>,
    /// The bytes that are there now. There are none if the code was removed.
    pub new_bytes: CowSlice<'a, u8>,
}

impl<'a> TextPoke<'a> {
    /// A copy of the record. It needs no memory if both byte strings are borrowed.
    pub fn clone(&self, alloc: Global) -> ParseResult<TextPoke<'a>>
        ensures { IsClone text_poke_value text_poke_form self.now result }
    {
        let old_bytes = self.old_bytes.clone(alloc)?;
        let new_bytes = self.new_bytes.clone(alloc)?;
        Ok(TextPoke {
            addr: self.addr,
            old_bytes,
            new_bytes,
        })
    }

    /// Makes the record own both byte strings, so that it does not borrow from the input. It needs
    /// no memory for those that it owns already. If out of memory, it returns `OutOfMemory` and the
    /// record is dropped.
    pub fn to_owned<'b>(self, alloc: Global) -> ParseResult<TextPoke<'b>>
        ensures { IsOwnedCopy text_poke_value text_poke_form self.entry result }
    {
        let TextPoke {
            addr,
            old_bytes,
            new_bytes,
        } = self;
        let old_bytes = old_bytes.into_owned(alloc)?;
        let new_bytes = new_bytes.into_owned(alloc)?;
        Ok(TextPoke {
            addr,
            old_bytes,
            new_bytes,
        })
    }
}

/// How many bytes follow both lengths, so that the record ends at a multiple of eight.
#[inline]
pub fn poked_len(both: u64) -> u64
    requires { both < 2 ^ 32 }
    ensures exact { result ≡ poked_len both }
    ensures enough { both ≤ result }
{
    both + (12 - both % 8) % 8
}

impl HasTransition for TextPoke<'_> {
    ghost transition = { ReadsInPlace (λ _. text_poke) text_poke_value IsBorrowedTextPoke };
}

impl<'p, I: Input<'p>> ReadFrom<'p, I> for TextPoke<'p> {
    #[inline]
    fn read<E: Endian>(reader: &mut Reader<I, E>) -> ReadResult<Self> {
        let addr = reader.read_u64()?;
        let old_len = reader.read_u16()? as usize;
        let new_len = reader.read_u16()? as usize;
        let len = poked_len((old_len + new_len) as u64);
        let run = reader.read_bytes(len as usize)?;
        match run.split_at(reader.alloc(), old_len) {
            Ok((old_bytes, mut new_bytes)) => {
                new_bytes.truncate(new_len);
                Ok(TextPoke {
                    addr,
                    old_bytes,
                    new_bytes,
                })
            }
            Err(_) => Err(Refusal::OutOfMemory),
        }
    }
}
