//! Numbers that look random, the same for the same seed (the mixing steps of SplitMix64).

ghost use Rattle.std.specs.Prelude.{◌<◌};

/// A sequence of numbers.
#[derive(Copy, Clone)]
pub struct Random {
    state: u64,
}

impl Random {
    /// The sequence of a seed.
    pub fn new(seed: u64) -> Random {
        Random { state: seed }
    }

    /// The next number.
    #[inline]
    pub fn number(&mut self) -> u64 {
        self.state = self.state.wrapping_add(0x9E37_79B9_7F4A_7C15);
        let mixed = (self.state ^ (self.state >> 30)).wrapping_mul(0xBF58_476D_1CE4_E5B9);
        let mixed = (mixed ^ (mixed >> 27)).wrapping_mul(0x94D0_49BB_1331_11EB);
        mixed ^ (mixed >> 31)
    }

    /// The next number of `count` bits, at most 63.
    #[inline]
    pub fn bits(&mut self, count: u32) -> u64
        requires { count < 64 }
    {
        self.number() % (1 << count)
    }

    /// The next number of `count` bits as a 32-bit number, or 0 if it has more.
    #[inline]
    pub fn short(&mut self, count: u32) -> u32
        requires { count < 64 }
    {
        u32::try_from(self.bits(count)).unwrap_or(0)
    }

    /// The next number of a range that includes both ends.
    #[inline]
    pub fn within(&mut self, least: u64, most: u64) -> u64 {
        let span = most.saturating_sub(least).saturating_add(1);
        least.wrapping_add((self.number() >> 32) % span.max(1))
    }
}
