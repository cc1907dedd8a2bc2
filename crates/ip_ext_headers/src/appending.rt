//! Bytes appended without comparing addresses (docs/DECISIONS.md, "Moves of large values").
ghost use Rattle.std.specs.Prelude.{◌≡◌, ◌≤◌, ◌<◌, ◌+◌, ◌++◌, length, take, drop};
ghost use Rattle.arrayvec.specs.ArrayVec.{array_vec_len};

use arrayvec::ArrayVec;
use std::simd::Simd;

/// Appends the bytes, for which there is room.
#[inline(never)]
pub(crate) fn append<const CAP: usize>(to: &mut ArrayVec<u8, CAP>, from: &[u8])
    requires small { CAP ≤ 4096 }
    requires room { array_vec_len to.old + length from.now ≤ CAP }
    ensures { to.new.items ≡ to.old.items ++ from.now }
{
    let done = append_blocks::<32, CAP>(to, from, 0);
    let done = append_blocks::<8, CAP>(to, from, done);
    let done = append_blocks::<4, CAP>(to, from, done);
    let _ = append_blocks::<1, CAP>(to, from, done);
}

/// Appends the bytes from index `start` on, as many as are whole blocks of N bytes. Returns the index after them.
#[inline(always)]
fn append_blocks<const N: usize, const CAP: usize>(
    to: &mut ArrayVec<u8, CAP>,
    from: &[u8],
    start: usize,
) -> usize
    requires some { 0 < N }
    requires small { CAP ≤ 4096 }
    requires inside { start ≤ length from.now }
    requires room { array_vec_len to.old + length from.now ≤ CAP + start }
    ensures appended { to.new.items ++ drop result from.now ≡ to.old.items ++ drop start from.now }
    ensures len { array_vec_len to.new + start ≡ array_vec_len to.old + result }
    ensures inside { result ≤ length from.now }
    ensures left { length from.now < result + N }
{
    let mut end = start;
    'blocks: while from.len() - end >= N {
        append_block::<N, CAP>(to, from, end);
        end += N;
    }
    end
}

/// Appends the block of N bytes that starts at index `start`.
#[inline(always)]
fn append_block<const N: usize, const CAP: usize>(
    to: &mut ArrayVec<u8, CAP>,
    from: &[u8],
    start: usize,
)
    requires small { CAP ≤ 4096 }
    requires inside { start + N ≤ length from.now }
    requires room { array_vec_len to.old + N ≤ CAP }
    ensures appended { to.new.items ≡ to.old.items ++ take N (drop start from.now) }
    ensures len { array_vec_len to.new ≡ array_vec_len to.old + N }
{
    // All bytes of a block are loaded before the first is stored, so the compiler stores them at once.
    let block = Simd::<u8, N>::from_slice(&from[start..]).to_array();
    for byte in block {
        to.push(byte);
    }
}
