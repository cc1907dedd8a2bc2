//! Hexadecimal digits: blocks of 32 are decoded by vectors of 16 bytes, the last one where the text ends. The crate `hex`
//! decodes texts shorter than a block.
ghost use Rattle.std.specs.Prelude.{◌≡◌, ◌+◌, ◌*◌, ◌%◌, ◌≤◌, ◌++◌, length, take, map, slice_index, nat_lt};
ghost use Rattle.std.specs.List.{range_with_len, list_all};
ghost use Rattle.std.specs.Bool.{OnTrue, OnFalse};
ghost use Rattle.std.specs.Result.{result_ok};
ghost use Rattle.hex.specs.Hex.{decode_of};
ghost use Rattle.ipexts_tool.specs.HexDigits.{digit_value};

use std::simd::prelude::*;

/// The bytes of a block, which has twice as many digits.
const BLOCK_LEN: usize = 16;

/// Stores the bytes that the digits denote. Returns whether all are digits; if not, nothing is known of the bytes.
pub fn decode(text: &[u8], bytes: &mut [u8]) -> bool
    requires { length text.now ≡ 2 * length bytes.old }
    ensures digits { OnTrue result (decode_of text.now ≡ Ok bytes.new) }
    ensures other { OnFalse result (result_ok (decode_of text.now) ≡ None) }
{
    let len = bytes.len();
    if len < BLOCK_LEN {
        return hex::decode_to_slice(text, bytes).is_ok();
    }
    let mut at = 0;
    'blocks: while len - at > BLOCK_LEN {
        if !decode_block(text, at, bytes) {
            return false;
        }
        at += BLOCK_LEN;
    }
    decode_block(text, len - BLOCK_LEN, bytes)
}

/// Stores the bytes of the block that starts at byte `at`. Returns whether all its digits are digits. The bytes before
/// it are kept.
#[inline(always)]
fn decode_block(text: &[u8], at: usize, bytes: &mut [u8]) -> bool
    requires twice { length text.now ≡ 2 * length bytes.old }
    requires inside { at + BLOCK_LEN ≤ length bytes.old }
    ensures digits { OnTrue result (decode_of (take (2 * at) text.now) ≡ Ok (take at bytes.old)
        → decode_of (take (2 * (at + BLOCK_LEN)) text.now) ≡ Ok (take (at + BLOCK_LEN) bytes.new)) }
    ensures other { OnFalse result (result_ok (decode_of text.now) ≡ None) }
{
    let front = digit_values(u8x16::from_slice(&text[2 * at..]));
    let back = digit_values(u8x16::from_slice(&text[2 * at + BLOCK_LEN..]));
    joined(front, back).copy_to_slice(&mut bytes[at..]);
    are_values(front, back)
}

/// Returns the value of each digit, and 255 for any other byte.
#[inline(always)]
fn digit_values(digits: u8x16) -> u8x16
    ensures { result ≡ map digit_value digits }
{
    let decimal = digits - u8x16::splat(b'0');
    let letter = (digits | u8x16::splat(0x20)) - u8x16::splat(b'a');
    let letter_value = letter
        .simd_lt(u8x16::splat(6))
        .select(letter + u8x16::splat(10), u8x16::splat(255));
    decimal
        .simd_lt(u8x16::splat(10))
        .select(decimal, letter_value)
}

/// Joins the values of each pair of digits.
#[inline(always)]
fn joined(front: u8x16, back: u8x16) -> u8x16
    ensures { result ≡ map (λ k. (slice_index (front ++ back) (2 * k) * 16 % 256
        + slice_index (front ++ back) (2 * k + 1)) % 256) (range_with_len 0 BLOCK_LEN) }
{
    let high: u8x16 = front.shuffle(
        back,
        [0, 2, 4, 6, 8, 10, 12, 14, 16, 18, 20, 22, 24, 26, 28, 30],
    );
    let low: u8x16 = front.shuffle(
        back,
        [1, 3, 5, 7, 9, 11, 13, 15, 17, 19, 21, 23, 25, 27, 29, 31],
    );
    high * u8x16::splat(16) + low
}

/// Returns whether no lane is 128 or more.
#[inline(always)]
fn are_values(front: u8x16, back: u8x16) -> bool
    ensures { result ≡ list_all (λ v. nat_lt v 128) (front ++ back) }
{
    let larger = front.simd_max(back);
    larger.simd_ge(u8x16::splat(128)).to_bitmask() == 0
}
