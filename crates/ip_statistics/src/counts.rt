//! Counts that stop at 2^64 - 1.
ghost use Rattle.std.specs.Prelude.{◌≡◌, ◌==◌, ◌<◌, ◌&&◌, length, replicate, slice_index, slice_set};
ghost use Rattle.ip_statistics.specs.Counts.{added, all_added, each_below, one_if};

/// Adds a number to the count.
#[inline(always)]
pub(crate) fn add(count: &mut u64, number: u64)
    ensures sum { count.new ≡ added count.old number }
    ensures none { number ≡ 0 → count.new ≡ count.old }
{
    *count = count.saturating_add(number);
}

/// Adds 1 to the count if the condition holds.
#[inline(always)]
pub(crate) fn count_if(count: &mut u64, condition: bool)
    ensures { count.new ≡ added count.old (one_if condition) }
{
    let old = *count;
    if condition {
        *count = old.saturating_add(1);
    }
}

/// Adds 1 to the count at this index.
#[inline(always)]
fn increment(counts: &mut [u64], index: usize)
    requires { index < length counts.old }
    ensures { counts.new ≡ slice_set counts.old index (added (slice_index counts.old index) 1) }
{
    counts[index] = counts[index].saturating_add(1);
}

/// Adds 1 to the count at this index if the condition holds. An index past the end counts nothing.
#[inline(always)]
pub(crate) fn count_at(counts: &mut [u64], index: usize, condition: bool)
    ensures { counts.new ≡ all_added counts.old
        (each_below (length counts.old) (λ i. one_if (condition && (index == i)))) }
{
    if condition && index < counts.len() {
        increment(counts, index);
    }
}

/// Adds each count of `other` to the count at its index.
#[tactic(auto, using(crate::proofs::CountLemmas::is_all_added))]
pub(crate) fn add_all(counts: &mut [u64], other: &[u64])
    requires { length counts.old ≡ length other.now }
    ensures sums { counts.new ≡ all_added counts.old other.now }
    ensures none { other.now ≡ replicate (length counts.old) 0 → counts.new ≡ counts.old }
{
    'counts: for i in 0..counts.len() {
        counts[i] = counts[i].saturating_add(other[i]);
    }
}
