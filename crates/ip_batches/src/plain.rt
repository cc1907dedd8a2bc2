//! Counts of packets without extension headers, kept apart from the statistics: in a loop they are in registers.
ghost use Rattle.std.specs.Prelude.{◌≡◌, ◌==◌, ◌<◌, ◌&&◌, not, true, length, slice_index, slice_set};
ghost use Rattle.ip_dissect.specs.Dissection.{DissectedParts, dissected};
ghost use Rattle.ip_dissect.specs.Summary.{summary_of};
ghost use Rattle.ip_statistics.specs.Counts.{added, all_added, each_below, one_if};
ghost use Rattle.ip_batches.specs.Plain.{first_count, with_plain, IsPlain};

use ip_dissect::{Packet, Summary};
use ip_statistics::Statistics;

/// What packets without extension headers, at their payloads, count alike.
#[derive(Clone, Copy, Debug)]
pub(crate) struct PlainCounts {
    /// Those of IPv4.
    pub(crate) ipv4: u64,
    /// Those of IPv6.
    pub(crate) ipv6: u64,
    /// Those of which stated bytes are missing.
    pub(crate) incomplete: u64,
    /// The bytes of their payloads.
    pub(crate) payload_bytes: u64,
}

impl PlainCounts {
    /// Counts the packet with this summary, but not its payload's number.
    #[inline(always)]
    pub(crate) fn add(&mut self, summary: &Summary)
        ensures { (d : DissectedParts) → summary.now ≡ summary_of d → self.new ≡ record {
          ipv4 = added self.old.ipv4 (one_if (d.version == 4));
          ipv6 = added self.old.ipv6 (one_if (d.version == 6));
          incomplete = added self.old.incomplete (one_if (not (d.missing == 0)));
          payload_bytes = added self.old.payload_bytes (length d.payload);
        } }
    {
        count_if(&mut self.ipv4, summary.version == 4);
        count_if(&mut self.ipv6, summary.version == 6);
        count_if(&mut self.incomplete, summary.missing != 0);
        add(&mut self.payload_bytes, summary.payload_len as u64);
    }

    /// Adds these packets to the statistics, but for the numbers of their payloads.
    #[inline(always)]
    pub(crate) fn add_to(&self, statistics: &mut Statistics)
        ensures { statistics.new ≡ with_plain self.now statistics.old }
    {
        let packets = self.ipv4.saturating_add(self.ipv6);
        add(&mut statistics.packets, packets);
        add(&mut statistics.ipv4, self.ipv4);
        add(&mut statistics.ipv6, self.ipv6);
        add(&mut statistics.at_payload, packets);
        add(&mut statistics.incomplete, self.incomplete);
        add(&mut statistics.payload_bytes, self.payload_bytes);
        add_first(&mut statistics.chain_headers, packets);
        add_first(&mut statistics.chain_bytes, packets);
    }
}

/// Returns whether the packet has no extension headers and its headers end at its payload.
#[inline(always)]
pub(crate) fn is_plain(packet: &Packet<'_>) -> bool
    ensures { result ≡ true → IsPlain (dissected packet.now.bytes.now) }
{
    let summary = &packet.summary;
    (summary.version == 4 || summary.version == 6)
        && summary.header_count == 0
        && summary.fragment.is_none()
        && !summary.has_error
        && !summary.is_later_fragment
}

/// Adds a number to the count.
#[inline(always)]
fn add(count: &mut u64, number: u64)
    ensures { count.new ≡ added count.old number }
{
    *count = count.saturating_add(number);
}

/// Adds 1 to the count if the condition holds.
#[inline(always)]
fn count_if(count: &mut u64, condition: bool)
    ensures { count.new ≡ added count.old (one_if condition) }
{
    let old = *count;
    if condition {
        *count = old.saturating_add(1);
    }
}

/// Adds 1 to the count at this index. An index past the end counts nothing.
#[inline(always)]
pub(crate) fn count_at(counts: &mut [u64], index: usize)
    ensures { counts.new ≡ all_added counts.old
        (each_below (length counts.old) (λ i. one_if (index == i))) }
{
    if index < counts.len() {
        add_at(counts, index, 1);
    }
}

/// Adds a number to the first count.
#[inline(always)]
fn add_first(counts: &mut [u64], number: u64)
    ensures { counts.new ≡ all_added counts.old (first_count (length counts.old) number) }
{
    if 0 < counts.len() {
        add_at(counts, 0, number);
    }
}

/// Adds a number to the count at this index.
#[inline(always)]
fn add_at(counts: &mut [u64], index: usize, number: u64)
    requires { index < length counts.old }
    ensures { counts.new
        ≡ slice_set counts.old index (added (slice_index counts.old index) number) }
{
    counts[index] = counts[index].saturating_add(number);
}
