//! Numbers made from a seed.
ghost use Rattle.std.specs.Prelude.{◌<◌};

/// A sequence of numbers, by xorshift64* (Marsaglia's generator with Vigna's multiplier).
#[derive(Drop)]
pub struct Random {
    state: u64,
}

impl Random {
    /// Returns the sequence of a seed.
    pub fn new(seed: u64) -> Random {
        Random {
            state: seed.wrapping_add(1).wrapping_mul(0x9e37_79b9_7f4a_7c15) | 1,
        }
    }

    /// Returns the next number.
    pub fn next(&mut self) -> u64 {
        let mut state = self.state;
        state ^= state >> 12;
        state ^= state << 25;
        state ^= state >> 27;
        self.state = state;
        state.wrapping_mul(0x2545_f491_4f6c_dd1d)
    }

    /// Returns eight random bytes.
    pub fn bytes(&mut self) -> [u8; 8] {
        self.next().to_be_bytes()
    }

    /// Returns a number below the limit.
    pub fn below(&mut self, limit: usize) -> usize
        requires { 0 < limit }
        ensures { result < limit }
    {
        (self.next() >> 11) as usize % limit
    }

    /// Returns true in so many of 100 cases.
    pub fn percent(&mut self, percent: usize) -> bool {
        self.below(100) < percent
    }
}

/// A Weyl sequence: numbers that differ from one another, at the cost of an addition.
#[derive(Drop)]
pub struct Weyl {
    state: u64,
}

impl Weyl {
    /// Returns the sequence of a seed.
    pub fn new(seed: u64) -> Weyl {
        Weyl {
            state: seed.wrapping_mul(0xd134_2543_de82_ef95),
        }
    }

    /// Returns the next number.
    #[inline(always)]
    pub fn next(&mut self) -> u64 {
        self.state = self.state.wrapping_add(0x9e37_79b9_7f4a_7c15);
        self.state ^ (self.state >> 29)
    }
}
