//! What the types of this library mean, and how they are read.

ghost use Rattle.perf_reader.specs.Prelude.{Call, Transition, ReadsNumber, ReadsOne, NeedsNoMemory};
ghost use Rattle.perf_reader.specs.Prelude.{kinds, byte_string, w1, w2, w4, w8};

use crate::reader::Reader;
use perf_base::{Endian, ReadResult};
use perf_buffers::input::Input;

/// A type whose reading has a meaning.
pub trait HasTransition: Sized {
    // what a call returns, from the state of the reader before it, and the state after it
    ghost transition: { Transition Self };
}

/// A type of this library that is read from an input.
pub trait ReadFrom<'p, I: Input<'p>>: HasTransition {
    /// Reads one value.
    fn read<E: Endian>(reader: &mut Reader<I, E>) -> ReadResult<Self>
        ensures call { Call I.source E.order Self.transition reader.old (kinds result) reader.new };
}

impl HasTransition for u8 {
    ghost transition = { ReadsNumber w1 };
}

impl<'p, I: Input<'p>> ReadFrom<'p, I> for u8 {
    #[inline]
    fn read<E: Endian>(reader: &mut Reader<I, E>) -> ReadResult<Self> {
        reader.read_u8()
    }
}

impl HasTransition for u16 {
    ghost transition = { ReadsNumber w2 };
}

impl<'p, I: Input<'p>> ReadFrom<'p, I> for u16 {
    #[inline]
    fn read<E: Endian>(reader: &mut Reader<I, E>) -> ReadResult<Self> {
        reader.read_u16()
    }
}

impl HasTransition for u32 {
    ghost transition = { ReadsNumber w4 };
}

impl<'p, I: Input<'p>> ReadFrom<'p, I> for u32 {
    #[inline]
    fn read<E: Endian>(reader: &mut Reader<I, E>) -> ReadResult<Self> {
        reader.read_u32()
    }
}

impl HasTransition for u64 {
    ghost transition = { ReadsNumber w8 };
}

impl<'p, I: Input<'p>> ReadFrom<'p, I> for u64 {
    #[inline]
    fn read<E: Endian>(reader: &mut Reader<I, E>) -> ReadResult<Self> {
        reader.read_u64()
    }
}

impl<const N: usize> HasTransition for [u8; N] {
    ghost transition = { λ old outcome new.
        ReadsOne (byte_string N) (λ bytes. bytes) old outcome new × NeedsNoMemory outcome };
}

impl<'p, I: Input<'p>, const N: usize> ReadFrom<'p, I> for [u8; N] {
    #[inline]
    #[tactic(auto, using(crate::proofs::Steps::run_none))]
    fn read<E: Endian>(reader: &mut Reader<I, E>) -> ReadResult<Self> {
        if N == 0 {
            return Ok([0; N]);
        }
        reader.read_array::<N>()
    }
}
