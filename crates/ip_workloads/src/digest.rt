//! A digest of results: if a result differs, the digest most likely does, too.

const MULTIPLIERS: [u64; 4] = [
    0x9e37_79b9_7f4a_7c15,
    0xd134_2543_de82_ef95,
    0x2545_f491_4f6c_dd1d,
    0xbf58_476d_1ce4_e5b9,
];

/// The digest of the values added so far.
#[derive(Drop)]
pub struct Digest {
    sum: u64,
}

impl Digest {
    /// Returns the digest of no values.
    pub fn new() -> Digest {
        Digest { sum: 0 }
    }

    /// Returns the digest as a number.
    pub fn value(&self) -> u64 {
        self.sum
    }

    /// Adds a value.
    #[inline(always)]
    pub fn add(&mut self, value: u64) {
        self.sum = (self.sum ^ value)
            .wrapping_mul(0x9e37_79b9_7f4a_7c15)
            .rotate_left(29);
    }

    /// Adds a length or an offset.
    #[inline(always)]
    pub fn add_len(&mut self, len: usize) {
        self.add(len as u64);
    }

    /// Adds a truth.
    #[inline(always)]
    pub fn add_bool(&mut self, value: bool) {
        self.add(u64::from(value));
    }

    /// Adds four small values at the cost of one.
    #[inline(always)]
    pub fn add_four(&mut self, values: [usize; 4]) {
        let [a, b, c, d] = values;
        let first = (a as u64) ^ (b as u64).rotate_left(16);
        let second = (c as u64).rotate_left(32) ^ (d as u64).rotate_left(48);
        self.add(first ^ second);
    }

    /// Adds every byte.
    pub fn add_bytes(&mut self, bytes: &[u8]) {
        let (blocks, rest) = bytes.as_chunks::<32>();
        for block in blocks {
            self.add(sum_of(block));
        }
        self.add_rest(rest);
        self.add_len(bytes.len());
    }

    /// Adds fewer bytes than a block has.
    fn add_rest(&mut self, rest: &[u8]) {
        for byte in rest {
            self.add(u64::from(*byte));
        }
    }
}

/// Returns a sum of the four words of a block, each with a multiplier of its own.
#[inline(always)]
fn sum_of(block: &[u8; 32]) -> u64 {
    let (words, _) = block.as_chunks::<8>();
    let mut sum = 0u64;
    for (word, multiplier) in words.iter().zip(&MULTIPLIERS) {
        sum = sum.wrapping_add(u64::from_le_bytes(*word).wrapping_mul(*multiplier));
    }
    sum
}
