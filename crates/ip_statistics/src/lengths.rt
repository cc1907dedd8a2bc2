//! Chains by their length.
ghost use Rattle.std.specs.Prelude.{◌≡◌, ◌==◌, ◌&&◌, ◌<◌, ℕ, length};
ghost use Rattle.ip_statistics.specs.Counts.{all_added, each_below, one_if};
ghost use Rattle.ip_statistics.specs.Lengths.{is_for_length};

use crate::counts::count_at;

/// Adds 1 to the count that is for chains of `len` bytes, if the condition holds.
#[inline(always)]
pub(crate) fn count_length(counts: &mut [u64], len: usize, condition: bool)
    requires { length counts.old ≡ 73 }
    ensures { counts.new ≡ all_added counts.old
        (each_below 73 (λ i. one_if (condition && is_for_length i len))) }
{
    count_at(counts, length_index(len), condition);
}

/// Returns the index of the count that is for chains of this length in bytes.
#[inline(always)]
fn length_index(len: usize) -> usize
    ensures index { result < 73 }
    ensures length { (i : ℕ) → i < 73 → is_for_length i len ≡ (result == i) }
{
    if len < 256 {
        return len / 4;
    }
    56 + (len as u64).ilog2().min(16) as usize
}
