//! Searches for a byte, 16 bytes at a time, and splits bytes there.
ghost use Rattle.std.specs.Prelude.{◌≡◌, ◌≢◌, ℕ, ◌+◌, ◌<◌, ◌≤◌, ◌==◌, [], ◌∷◌, length, map, slice_index, IfSome, IfNone};
ghost use Rattle.std.specs.List.{slice_split};
ghost use Rattle.std.specs.Simd.Lanes.{chunk, mask_l};

use std::simd::prelude::*;

/// How many bytes are compared at once.
const BLOCK_LEN: usize = 16;

/// Returns the index of the first `byte`.
pub fn first_index(text: &[u8], byte: u8) -> Option<usize>
    ensures inside { IfSome result (λ i. i < length text.now) }
    ensures here { IfSome result (λ i. slice_index text.now i ≡ byte) }
    ensures first { IfSome result (λ i. (k : ℕ) → k < i → slice_index text.now k ≢ byte) }
    ensures absent { IfNone result ((k : ℕ) → k < length text.now → slice_index text.now k ≢ byte) }
{
    let mut at = 0;
    'search: while text.len() - at >= BLOCK_LEN {
        let places = places_in_block(text, at, byte);
        if places != 0 {
            return Some(at + places.trailing_zeros() as usize);
        }
        at += BLOCK_LEN;
    }
    first_index_from(text, at, byte)
}

/// Returns the bytes before the first `separator`, and those after it.
pub fn split_once(text: &[u8], separator: u8) -> Option<(&[u8], &[u8])>
    ensures found { IfSome result (λ parts. slice_split (λ b. b == separator) text.now
        ≡ parts.0.now ∷ slice_split (λ b. b == separator) parts.1.now) }
    ensures shorter { IfSome result (λ parts. length parts.1.now < length text.now) }
    ensures absent { IfNone result (slice_split (λ b. b == separator) text.now ≡ text.now ∷ []) }
{
    let end = first_index(text, separator)?;
    Some((&text[..end], &text[end + 1..]))
}

/// Returns the index of the first `byte` from the index `from` on.
fn first_index_from(text: &[u8], from: usize, byte: u8) -> Option<usize>
    ensures inside { IfSome result (λ i. i < length text.now) }
    ensures here { IfSome result (λ i. slice_index text.now i ≡ byte) }
    ensures first { IfSome result (λ i. (k : ℕ) → from ≤ k → k < i → slice_index text.now k ≢ byte) }
    ensures absent { IfNone result
        ((k : ℕ) → from ≤ k → k < length text.now → slice_index text.now k ≢ byte) }
{
    for index in from..text.len() {
        if text[index] == byte {
            return Some(index);
        }
    }
    None
}

/// Returns a bit for each byte of the block from index `at` on, which is set if it is `byte`.
#[inline(always)]
fn places_in_block(text: &[u8], at: usize, byte: u8) -> u64
    requires { at + BLOCK_LEN ≤ length text.now }
    ensures { result ≡ mask_l (map (λ other. other == byte) (chunk at BLOCK_LEN text.now)) }
{
    let block = u8x16::from_slice(&text[at..]);
    block.simd_eq(u8x16::splat(byte)).to_bitmask()
}
