//! Counts the packets of a batch.
ghost use Rattle.std.specs.Prelude.{◌≡◌, ℕ, ◌++◌, length, replicate, IfSome, IfNone};
ghost use Rattle.ip_dissect.specs.Dissection.{dissected};
ghost use Rattle.ip_statistics.specs.Counts.{added, all_added};
ghost use Rattle.ip_statistics.specs.HeaderCounts.{AreCounts};
ghost use Rattle.ip_statistics.specs.Packet.{counts_of};
ghost use Rattle.ip_statistics.specs.Statistics.{nothing, merged};
ghost use Rattle.ip_statistics.specs.Lists.{statistics_of};
ghost use Rattle.ip_batches.specs.Packets.{batch_packets};
ghost use Rattle.ip_batches.specs.Plain.{with_plain};

use crate::Batch;
use crate::plain::{PlainCounts, count_at, is_plain};
use ip_dissect::{Packet, PacketStart, PacketVisitor, Visited, WalkVisitor};
use ip_statistics::Statistics;

impl Batch<'_> {
    /// Counts each packet, in order. What packets without extension headers count alike is added once, after the last one.
    #[inline(always)]
    pub fn count(&self, statistics: &mut Statistics)
        ensures counts { statistics.new ≡ merged statistics.old (statistics_of (batch_packets self.now)) }
        ensures packets { (xs : _) → statistics.old ≡ statistics_of xs
            → statistics.new ≡ statistics_of (batch_packets self.now ++ xs) }
    {
        add_nothing(statistics);
        let mut plain = PlainCounts {
            ipv4: 0,
            ipv6: 0,
            incomplete: 0,
            payload_bytes: 0,
        };
        let mut next = self.begins_as_ipv6(0);
        'packets: for index in 0..self.spans.len() {
            let begins_as_ipv6 = next;
            next = self.begins_as_ipv6(index + 1);
            count_either(self.packet(index), begins_as_ipv6, statistics, &mut plain);
        }
        plain.add_to(statistics);
    }
}

/// Counts the packet at the start of `bytes`, in one of two places.
#[inline(always)]
fn count_either(
    bytes: &[u8],
    begins_as_ipv6: bool,
    statistics: &mut Statistics,
    plain: &mut PlainCounts,
)
    ensures { with_plain plain.new statistics.new
        ≡ merged (with_plain plain.old statistics.old) (counts_of (dissected bytes.now)) }
{
    if begins_as_ipv6 {
        count_one::<true>(bytes, statistics, plain);
    } else {
        count_one::<false>(bytes, statistics, plain);
    }
}

/// Counts the packet at the start of `bytes`: one without extension headers in part in `plain`.
#[inline(always)]
fn count_one<const IPV6: bool>(bytes: &[u8], statistics: &mut Statistics, plain: &mut PlainCounts)
    ensures { with_plain plain.new statistics.new
        ≡ merged (with_plain plain.old statistics.old) (counts_of (dissected bytes.now)) }
{
    if let Some(packet) = plain_packet::<IPV6>(bytes, statistics) {
        count_plain(&packet, statistics, plain);
    }
}

/// Counts the packet: one without extension headers, at its payload, in part in `plain`.
#[inline(always)]
fn count_plain(packet: &Packet<'_>, statistics: &mut Statistics, plain: &mut PlainCounts)
    ensures { with_plain plain.new statistics.new ≡ merged (with_plain plain.old statistics.old)
        (counts_of (dissected packet.now.bytes.now)) }
{
    add_nothing(statistics);
    add_no_headers(&statistics.headers);
    if is_plain(packet) {
        let number = usize::from(packet.summary.next_header.0);
        count_at(&mut statistics.payload_numbers, number);
        plain.add(&packet.summary);
    } else {
        statistics.count_packet(packet.bytes);
    }
}

/// Returns the packet at the start of `bytes` if it is plain; counts any other packet.
#[inline(always)]
fn plain_packet<'a, const IPV6: bool>(
    bytes: &'a [u8],
    statistics: &mut Statistics,
) -> Option<Packet<'a>>
    ensures plain { IfSome result (λ packet. (packet.bytes.now ≡ bytes.now)
        × (statistics.new ≡ statistics.old)) }
    ensures other { IfNone result
        (statistics.new ≡ merged statistics.old (counts_of (dissected bytes.now))) }
{
    match Packet::visit(bytes, &mut CountingOthers::<IPV6> { statistics }) {
        Visited::Plain(packet) => Some(packet),
        Visited::Slow(()) => None,
    }
}

/// A visitor that counts packets which aren't plain.
#[derive(Debug, Drop)]
struct CountingOthers<'s, const IPV6: bool> {
    statistics: &'s mut Statistics,
}

impl<'a, const IPV6: bool> PacketVisitor<'a> for CountingOthers<'_, IPV6> {
    type Plain = Packet<'a>;

    type Slow = ();

    ghost plain = { λ old s new packet. (new.statistics.ghost_name ≡ old.statistics.ghost_name)
        × (new.statistics.now ≡ old.statistics.now) × (packet.bytes.now ≡ s) };

    ghost slow = { λ old s new _. (new.statistics.ghost_name ≡ old.statistics.ghost_name)
        × (new.statistics.now ≡ merged old.statistics.now (counts_of (dissected s))) };

    #[inline(always)]
    fn visit_plain(&mut self, packet: Packet<'a>) -> Packet<'a> {
        packet
    }

    #[inline(always)]
    fn visit_slow(&mut self, start: PacketStart<'a>) {
        count_from(start, self.statistics);
    }
}

/// Counts a packet whose base header is parsed, and walks its extension headers.
#[inline(always)]
fn count_from(start: PacketStart<'_>, statistics: &mut Statistics)
    ensures { statistics.new ≡ merged statistics.old (counts_of (dissected start.entry.bytes.now)) }
{
    add_no_headers(&statistics.headers);
    let packet = start.walk(statistics);
    statistics.end(&packet);
}

/// Adds no header: the counts are their sums with no counts.
#[inline(always)]
#[tactic(auto, using(crate::proofs::SumLemmas::no_headers_counted))]
fn add_no_headers(counts: &[u64])
    requires { length counts.now ≡ 256 }
    ensures { AreCounts counts.now }
{}

/// Adds no packets: the statistics are their sums with nothing.
#[inline(always)]
pub(crate) fn add_nothing(statistics: &Statistics)
    ensures { merged statistics.now nothing ≡ statistics.now }
{
    add_no_packets(statistics);
    add_no_ends(statistics);
    add_no_lists(statistics);
}

/// Adds no packets to the counts of packets, whatever their headers end at.
#[inline(always)]
fn add_no_packets(statistics: &Statistics)
    ensures { record statistics.now {
      packets = added statistics.now.packets 0;
      without_header = added statistics.now.without_header 0;
      ipv4 = added statistics.now.ipv4 0;
      ipv6 = added statistics.now.ipv6 0;
      incomplete = added statistics.now.incomplete 0;
      payload_bytes = added statistics.now.payload_bytes 0;
    } ≡ statistics.now }
{
    add_zero(statistics.packets);
    add_zero(statistics.without_header);
    add_zero(statistics.ipv4);
    add_zero(statistics.ipv6);
    add_zero(statistics.incomplete);
    add_zero(statistics.payload_bytes);
}

/// Adds no packets to the counts of ends and of fragments.
#[inline(always)]
fn add_no_ends(statistics: &Statistics)
    ensures { record statistics.now {
      at_payload = added statistics.now.at_payload 0;
      at_later_fragment = added statistics.now.at_later_fragment 0;
      at_truncated_header = added statistics.now.at_truncated_header 0;
      at_fault = added statistics.now.at_fault 0;
      atomic_fragments = added statistics.now.atomic_fragments 0;
      first_fragments = added statistics.now.first_fragments 0;
      middle_fragments = added statistics.now.middle_fragments 0;
      last_fragments = added statistics.now.last_fragments 0;
    } ≡ statistics.now }
{
    add_zero(statistics.at_payload);
    add_zero(statistics.at_later_fragment);
    add_zero(statistics.at_truncated_header);
    add_zero(statistics.at_fault);
    add_zero(statistics.atomic_fragments);
    add_zero(statistics.first_fragments);
    add_zero(statistics.middle_fragments);
    add_zero(statistics.last_fragments);
}

/// Adds no packets to the counts by number, length, kind or layer.
#[inline(always)]
fn add_no_lists(statistics: &Statistics)
    ensures { record statistics.now {
      chain_headers = all_added statistics.now.chain_headers (replicate 17 0);
      chain_bytes = all_added statistics.now.chain_bytes (replicate 73 0);
      headers = all_added statistics.now.headers (replicate 256 0);
      payload_numbers = all_added statistics.now.payload_numbers (replicate 256 0);
      later_fragment_numbers
          = all_added statistics.now.later_fragment_numbers (replicate 256 0);
      truncated_headers = all_added statistics.now.truncated_headers (replicate 16 0);
      faults = all_added statistics.now.faults (replicate 128 0);
    } ≡ statistics.now }
{
    add_zeros(&statistics.chain_headers);
    add_zeros(&statistics.chain_bytes);
    add_zeros(&statistics.headers);
    add_zeros(&statistics.payload_numbers);
    add_zeros(&statistics.later_fragment_numbers);
    add_zeros(&statistics.truncated_headers);
    add_zeros(&statistics.faults);
}

/// Adds 0: the count is its sum with 0.
#[inline(always)]
fn add_zero(count: u64)
    ensures { added count 0 ≡ count }
{}

/// Adds zeros: the counts are their sums with zeros.
#[inline(always)]
#[tactic(auto, using(crate::proofs::SumLemmas::zeros_add_nothing))]
fn add_zeros(counts: &[u64])
    ensures { (n : ℕ) → n ≡ length counts.now → all_added counts.now (replicate n 0) ≡ counts.now }
{}
