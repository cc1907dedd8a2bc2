//! Counts of the chains of packets.
ghost use Rattle.std.specs.Prelude.{◌≡◌, ◌↔◌, IsTrue, true, false, length, [], Some, None};
ghost use Rattle.ip_dissect.specs.Dissection.{dissected};
ghost use Rattle.ip_key_counts.specs.Counts.{nothing, counted, merged, keys_counted};
ghost use Rattle.ip_key_counts.specs.Table.{counts_in, room_of, HasBuckets, IsTable};
ghost use Rattle.ip_chain_counts.specs.Chain.{keys_of, keys_of_all};
ghost use Rattle.ip_statistics.specs.Packet.{counts_of};
ghost use Rattle.ip_statistics.specs.Statistics.{merged as statistics_merged};
ghost use Rattle.ip_statistics.specs.Lists.{statistics_of};
ghost use Rattle.ip_batches.specs.Batch.{packets_at, first_outside};

use crate::bytes::Bytes;
use ip_batches::{Batch, PacketSpan};
use ip_chain_counts::{count_chain, count_packet_and_chain};
use ip_key_counts::KeyCounts;
use ip_statistics::CaptureStatistics;

/// Calls `KeyCounts::clear`. Returns whether the table has buckets, and few enough entries.
#[unsafe(no_mangle)]
pub extern "C" fn wolfaren_chains_clear(chains: &mut KeyCounts<'_>) -> bool
    ensures buckets { IsTrue result ↔ HasBuckets chains.old }
    ensures cleared { result ≡ true → IsTable chains.new × (counts_in chains.new ≡ nothing) }
    ensures room { room_of chains.new ≡ room_of chains.old }
    ensures seed { chains.new.seed ≡ chains.old.seed }
    ensures same { result ≡ false → counts_in chains.new ≡ counts_in chains.old }
{
    chains.clear()
}

/// Calls `count_chain`.
#[unsafe(no_mangle)]
pub extern "C" fn wolfaren_chains_add(chains: &mut KeyCounts<'_>, path: Bytes<'_>, bytes: Bytes<'_>)
    ensures counts { IsTable chains.old → counts_in chains.new ≡ keys_counted (room_of chains.old) (counts_in chains.old)
        (keys_of path.entry.slice.now (dissected bytes.entry.slice.now)) }
    ensures table { IsTable chains.old → IsTable chains.new }
    ensures room { room_of chains.new ≡ room_of chains.old }
    ensures seed { chains.new.seed ≡ chains.old.seed }
{
    count_chain(chains, path.slice(), bytes.slice());
}

/// Calls `count_packet_and_chain`.
#[unsafe(no_mangle)]
pub extern "C" fn wolfaren_count_packet_and_chain(
    statistics: &mut CaptureStatistics,
    chains: &mut KeyCounts<'_>,
    path: Bytes<'_>,
    bytes: Bytes<'_>,
)
    ensures statistics { statistics.new ≡ record statistics.old {
      packets = statistics_merged statistics.old.packets (counts_of (dissected bytes.entry.slice.now));
    } }
    ensures counts { IsTable chains.old → counts_in chains.new ≡ keys_counted (room_of chains.old) (counts_in chains.old)
        (keys_of path.entry.slice.now (dissected bytes.entry.slice.now)) }
    ensures table { IsTable chains.old → IsTable chains.new }
    ensures room { room_of chains.new ≡ room_of chains.old }
    ensures seed { chains.new.seed ≡ chains.old.seed }
{
    count_packet_and_chain(&mut statistics.packets, chains, path.slice(), bytes.slice());
}

/// Calls `Batch::count_with_chains` with the packets at the spans. Returns whether each span lies within the bytes. If so,
/// `outside` is unchanged; otherwise stores the index of the first one that doesn't in `outside`, and both counts are unchanged.
#[unsafe(no_mangle)]
pub extern "C" fn wolfaren_count_packets_and_chains(
    statistics: &mut CaptureStatistics,
    chains: &mut KeyCounts<'_>,
    bytes: Bytes<'_>,
    spans: &[PacketSpan],
    outside: &mut usize,
) -> bool
    ensures statistics { IsTrue result → statistics.new ≡ record statistics.old {
      packets = statistics_merged statistics.old.packets
          (statistics_of (packets_at bytes.entry.slice.now spans.now));
    } }
    ensures chains { IsTrue result → IsTable chains.old → counts_in chains.new ≡ keys_counted (room_of chains.old)
        (counts_in chains.old) (keys_of_all [] (packets_at bytes.entry.slice.now spans.now)) }
    ensures table { IsTable chains.old → IsTable chains.new }
    ensures room { room_of chains.new ≡ room_of chains.old }
    ensures seed { chains.new.seed ≡ chains.old.seed }
    ensures within { IsTrue result → first_outside bytes.entry.slice.now spans.now ≡ None }
    ensures kept { IsTrue result → outside.new ≡ outside.old }
    ensures outside { result ≡ false
        → first_outside bytes.entry.slice.now spans.now ≡ Some outside.new }
    ensures same { result ≡ false → statistics.new ≡ statistics.old }
    ensures same_chains { result ≡ false → counts_in chains.new ≡ counts_in chains.old }
{
    match Batch::try_new(bytes.slice(), spans) {
        Ok(batch) => {
            batch.count_with_chains(&mut statistics.packets, chains);
            true
        }
        Err(index) => {
            *outside = index;
            false
        }
    }
}

/// Calls `KeyCounts::count`.
#[unsafe(no_mangle)]
pub extern "C" fn wolfaren_chains_add_key(chains: &mut KeyCounts<'_>, key: Bytes<'_>, count: u64)
    ensures counts { IsTable chains.old
        → counts_in chains.new ≡ counted (room_of chains.old) (counts_in chains.old) key.entry.slice.now count }
    ensures table { IsTable chains.old → IsTable chains.new }
    ensures room { room_of chains.new ≡ room_of chains.old }
    ensures seed { chains.new.seed ≡ chains.old.seed }
{
    chains.count(key.slice(), count);
}

/// Calls `KeyCounts::merge`.
#[unsafe(no_mangle)]
pub extern "C" fn wolfaren_chains_merge(into: &mut KeyCounts<'_>, from: &KeyCounts<'_>)
    ensures counts { IsTable into.old
        → counts_in into.new ≡ merged (room_of into.old) (counts_in into.old) (counts_in from.now) }
    ensures table { IsTable into.old → IsTable into.new }
    ensures room { room_of into.new ≡ room_of into.old }
    ensures seed { into.new.seed ≡ into.old.seed }
{
    into.merge(from);
}
