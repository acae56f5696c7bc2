//! Byte orders: how bytes become a number.
//!
//! Use [`Native`] for what this machine's kernel wrote, [`Dynamic`] for a file that specifies its
//! order itself, and [`Little`] or [`Big`] if the order is known in advance.

ghost use Rattle.std.specs.Prelude.{◌≡◌, Bool, true, false, IsTrue, IfOk, IfErr};
ghost use Rattle.perf_base.specs.Order.{Order, little, big};
ghost use Rattle.perf_base.specs.Dynamic.{order_of, is_little};
ghost use Rattle.perf_base.specs.Errors.{kind_of};

use crate::error::{ErrorKind, ParseResult};

/// Turns bytes of the source into numbers. The result of an order is its own stated function of the
/// bytes.
pub trait Endian: Drop {
    ghost order: { Self → Order };

    // whether `duplicate` can be refused
    ghost may_refuse: { Self → Bool };

    /// The number of two bytes.
    fn convert_u16(&self, bytes: [u8; 2]) -> u16
        ensures { result ≡ (order self.now).two bytes };

    /// The number of four bytes.
    fn convert_u32(&self, bytes: [u8; 4]) -> u32
        ensures { result ≡ (order self.now).four bytes };

    /// The number of eight bytes.
    fn convert_u64(&self, bytes: [u8; 8]) -> u64
        ensures { result ≡ (order self.now).eight bytes };

    /// Whether this is the machine's own order. No result of this library depends on it. An order
    /// that returns `true` converts like [`Little`]; one that does not know may return `false`.
    fn is_native(&self) -> bool
        ensures native { IsTrue result → order self.now ≡ little }
    {
        false
    }

    /// A second order that converts the same way. It fails only if out of memory.
    fn duplicate(&self) -> ParseResult<Self>
        ensures alike { IfOk result (λ e. (order e ≡ order self.now)
            × (may_refuse e ≡ may_refuse self.now)) }
        ensures refused { IfErr result (λ e. (kind_of e ≡ ErrorKind.OutOfMemory)
            × IsTrue (may_refuse self.now)) };
}

/// The machine's own order, which is little-endian on every machine this library is built for.
#[derive(Copy, Clone, Debug, Default)]
pub struct Native;

impl Endian for Native {
    ghost order = { λ _. little };

    ghost may_refuse = { λ _. false };

    #[inline]
    fn convert_u16(&self, bytes: [u8; 2]) -> u16 {
        u16::from_le_bytes(bytes)
    }

    #[inline]
    fn convert_u32(&self, bytes: [u8; 4]) -> u32 {
        u32::from_le_bytes(bytes)
    }

    #[inline]
    fn convert_u64(&self, bytes: [u8; 8]) -> u64 {
        u64::from_le_bytes(bytes)
    }

    fn is_native(&self) -> bool
        ensures { result ≡ true }
    {
        true
    }

    #[inline]
    fn duplicate(&self) -> ParseResult<Self> {
        Ok(*self)
    }
}

/// The lowest byte first.
#[derive(Copy, Clone, Debug, Default)]
pub struct Little;

impl Endian for Little {
    ghost order = { λ _. little };

    ghost may_refuse = { λ _. false };

    #[inline]
    fn convert_u16(&self, bytes: [u8; 2]) -> u16 {
        u16::from_le_bytes(bytes)
    }

    #[inline]
    fn convert_u32(&self, bytes: [u8; 4]) -> u32 {
        u32::from_le_bytes(bytes)
    }

    #[inline]
    fn convert_u64(&self, bytes: [u8; 8]) -> u64 {
        u64::from_le_bytes(bytes)
    }

    fn is_native(&self) -> bool
        ensures { result ≡ true }
    {
        true
    }

    #[inline]
    fn duplicate(&self) -> ParseResult<Self> {
        Ok(*self)
    }
}

/// The highest byte first.
#[derive(Copy, Clone, Debug, Default)]
pub struct Big;

impl Endian for Big {
    ghost order = { λ _. big };

    ghost may_refuse = { λ _. false };

    #[inline]
    fn convert_u16(&self, bytes: [u8; 2]) -> u16 {
        u16::from_be_bytes(bytes)
    }

    #[inline]
    fn convert_u32(&self, bytes: [u8; 4]) -> u32 {
        u32::from_be_bytes(bytes)
    }

    #[inline]
    fn convert_u64(&self, bytes: [u8; 8]) -> u64 {
        u64::from_be_bytes(bytes)
    }

    fn is_native(&self) -> bool
        ensures { result ≡ false }
    {
        false
    }

    #[inline]
    fn duplicate(&self) -> ParseResult<Self> {
        Ok(*self)
    }
}

/// A borrowed order, which converts the same way.
impl<E: Endian> Endian for &E {
    ghost order = { λ e. E.order e.now };

    ghost may_refuse = { λ _. false };

    #[inline]
    fn convert_u16(&self, bytes: [u8; 2]) -> u16 {
        (**self).convert_u16(bytes)
    }

    #[inline]
    fn convert_u32(&self, bytes: [u8; 4]) -> u32 {
        (**self).convert_u32(bytes)
    }

    #[inline]
    fn convert_u64(&self, bytes: [u8; 8]) -> u64 {
        (**self).convert_u64(bytes)
    }

    fn is_native(&self) -> bool {
        (**self).is_native()
    }

    #[inline]
    fn duplicate(&self) -> ParseResult<Self> {
        Ok(*self)
    }
}

/// One of the two orders, chosen when the program runs.
#[derive(Copy, Clone, Debug, PartialEq, Eq, Hash)]
pub enum Dynamic {
    /// The highest byte first.
    Big,
    /// The lowest byte first.
    Little,
}

impl Endian for Dynamic {
    ghost order = { order_of };

    ghost may_refuse = { λ _. false };

    #[inline]
    fn convert_u16(&self, bytes: [u8; 2]) -> u16 {
        match self {
            Dynamic::Big => u16::from_be_bytes(bytes),
            Dynamic::Little => u16::from_le_bytes(bytes),
        }
    }

    #[inline]
    fn convert_u32(&self, bytes: [u8; 4]) -> u32 {
        match self {
            Dynamic::Big => u32::from_be_bytes(bytes),
            Dynamic::Little => u32::from_le_bytes(bytes),
        }
    }

    #[inline]
    fn convert_u64(&self, bytes: [u8; 8]) -> u64 {
        match self {
            Dynamic::Big => u64::from_be_bytes(bytes),
            Dynamic::Little => u64::from_le_bytes(bytes),
        }
    }

    fn is_native(&self) -> bool
        ensures { result ≡ is_little self.now }
    {
        match self {
            Dynamic::Big => false,
            Dynamic::Little => true,
        }
    }

    #[inline]
    fn duplicate(&self) -> ParseResult<Self> {
        Ok(*self)
    }
}
