//! Lists that many frames share, as frames of a recording share call chains and file names.

ghost use Rattle.std.specs.Prelude.{◌<◌};

use crate::random::Random;
use crate::stream::ByteOrder;
use std::alloc::{AllocError, Global};

// The number of items of each kind.
const EACH: usize = 256;

const CONTEXT_KERNEL: u64 = u64::MAX - 127;

const CONTEXT_USER: u64 = u64::MAX - 511;

// The letters of names.
const LETTERS: &[u8; 16] = b"abcdefghilmnorst";

/// What a pool contains.
#[derive(Copy, Clone)]
pub enum Kind {
    /// Call chains of 10 to 60 entries, each after its count.
    Chains,
    /// Names of files, padded with zeros to a multiple of eight bytes.
    Files,
    /// Names of tasks, likewise.
    Tasks,
    /// Stacks of 32 branches, each after its count.
    Branches,
    /// Raw bytes of tracepoints, each after its length, padded.
    Raw,
    /// Twenty registers and 8 kB of stack.
    Stacks,
    /// Groups of 2 to 20 counters.
    Groups,
    /// Bodies of 60 kB of unknown type.
    Unknown,
}

/// Bytes to choose from.
#[derive(Drop)]
pub struct Pool {
    items: Vec<Vec<u8>>,
}

impl Pool {
    /// A pool of a kind.
    pub fn new(
        alloc: Global,
        kind: Kind,
        order: ByteOrder,
        random: &mut Random,
    ) -> Result<Pool, AllocError> {
        let mut items = Vec::new(alloc);
        for _ in 0..EACH {
            let mut item = Item {
                bytes: Vec::new(alloc),
                order,
                random: *random,
            };
            item.push(kind)?;
            *random = item.random;
            items.push(item.bytes)?;
        }
        Ok(Pool { items })
    }

    /// One of them.
    #[inline]
    pub fn pick(&self, random: &mut Random) -> &[u8] {
        match self.items.get(random.bits(8) as usize) {
            Some(bytes) => bytes,
            None => &[],
        }
    }
}

// An item, the byte order of its numbers, and where they come from.
#[derive(Drop)]
struct Item {
    bytes: Vec<u8>,
    order: ByteOrder,
    random: Random,
}

impl Item {
    fn push(&mut self, kind: Kind) -> Result<(), AllocError> {
        match kind {
            Kind::Chains => self.push_chain(),
            Kind::Files => self.push_name(b"/usr/lib/x86_64-linux-gnu/lib", 3, 60),
            Kind::Tasks => self.push_name(b"k", 2, 14),
            Kind::Branches => self.push_branches(),
            Kind::Raw => self.push_raw(),
            Kind::Stacks => self.push_stack(),
            Kind::Groups => self.push_group(),
            Kind::Unknown => self.push_numbers(7_600, 64),
        }
    }

    fn push_word(&mut self, word: u64) -> Result<(), AllocError> {
        self.bytes.extend_from_slice(&self.order.bytes(word))
    }

    // Appends `count` random numbers of `bits` bits.
    fn push_numbers(&mut self, count: u64, bits: u32) -> Result<(), AllocError> {
        for _ in 0..count {
            let number = self.random.number();
            self.push_word(number.checked_shr(64 - bits.min(64)).unwrap_or(0))?;
        }
        Ok(())
    }

    fn push_chain(&mut self) -> Result<(), AllocError> {
        let kernel = self.random.within(3, 20);
        let user = self.random.within(5, 38);
        self.push_word(kernel.wrapping_add(user).wrapping_add(2))?;
        self.push_word(CONTEXT_KERNEL)?;
        self.push_addresses(kernel, 0xFFFF_FFFF_8000_0000, 24)?;
        self.push_word(CONTEXT_USER)?;
        self.push_addresses(user, 0x7F00_0000_0000, 32)
    }

    // Appends `count` addresses, of which the last `bits` bits are random.
    fn push_addresses(&mut self, count: u64, first: u64, bits: u32) -> Result<(), AllocError>
        requires { bits < 64 }
    {
        for _ in 0..count {
            let place = self.random.bits(bits);
            self.push_word(first | place)?;
        }
        Ok(())
    }

    // A name with that many letters, padded with zeros.
    fn push_name(&mut self, front: &[u8], least: u64, most: u64) -> Result<(), AllocError> {
        self.bytes.extend_from_slice(front)?;
        for _ in 0..self.random.within(least, most) {
            match LETTERS.get(self.random.bits(4) as usize) {
                Some(letter) => self.bytes.push(*letter)?,
                None => {}
            }
        }
        for _ in 0..8 - self.bytes.len() % 8 {
            self.bytes.push(0)?;
        }
        Ok(())
    }

    fn push_branches(&mut self) -> Result<(), AllocError> {
        self.push_word(32)?;
        for _ in 0..32 {
            self.push_addresses(2, 0x5500_0000_0000, 32)?;
            self.push_addresses(1, 0, 24)?;
        }
        Ok(())
    }

    // A length of four bytes and as many bytes, which together are a multiple of eight.
    fn push_raw(&mut self) -> Result<(), AllocError> {
        let words = self.random.within(3, 12);
        let len = u32::try_from(words.wrapping_mul(8).wrapping_add(4)).unwrap_or(0);
        match self.order {
            ByteOrder::Little => self.bytes.extend_from_slice(&len.to_le_bytes())?,
            ByteOrder::Big => self.bytes.extend_from_slice(&len.to_be_bytes())?,
        }
        let first = self.random.short(32);
        self.bytes.extend_from_slice(&first.to_le_bytes())?;
        self.push_numbers(words, 40)
    }

    // The ABI of registers, twenty of them, the size of the stack, its bytes, and how many are used.
    fn push_stack(&mut self) -> Result<(), AllocError> {
        self.push_word(2)?;
        self.push_numbers(20, 47)?;
        self.push_word(8_192)?;
        self.push_numbers(1_024, 47)?;
        let used = self.random.within(1_000, 8_192);
        self.push_word(used)
    }

    // The number of counters, the times, and each counter with its id.
    fn push_group(&mut self) -> Result<(), AllocError> {
        let count = self.random.within(2, 20);
        self.push_word(count)?;
        self.push_numbers(2, 40)?;
        self.push_numbers(count.wrapping_mul(2), 36)
    }
}
