//! Counts the packets of a batch and their chains.
ghost use Rattle.std.specs.Prelude.{◌≡◌, []};
ghost use Rattle.ip_chain_counts.specs.Chain.{keys_of_all};
ghost use Rattle.ip_key_counts.specs.Counts.{keys_counted};
ghost use Rattle.ip_key_counts.specs.Table.{counts_in, room_of, IsTable};
ghost use Rattle.ip_statistics.specs.Lists.{statistics_of};
ghost use Rattle.ip_statistics.specs.Statistics.{merged};
ghost use Rattle.ip_batches.specs.Packets.{batch_packets};

use crate::Batch;
use crate::count::add_nothing;
use ip_chain_counts::count_packet_and_chain;
use ip_key_counts::KeyCounts;
use ip_statistics::Statistics;

impl Batch<'_> {
    /// Counts each packet, in order, and its chain, as `count_packet_and_chain` does with an empty path.
    pub fn count_with_chains(&self, statistics: &mut Statistics, chains: &mut KeyCounts<'_>)
        ensures statistics { statistics.new ≡ merged statistics.old (statistics_of (batch_packets self.now)) }
        ensures chains { IsTable chains.old → counts_in chains.new
            ≡ keys_counted (room_of chains.old) (counts_in chains.old) (keys_of_all [] (batch_packets self.now)) }
        ensures table { IsTable chains.old → IsTable chains.new }
        ensures room { room_of chains.new ≡ room_of chains.old }
        ensures seed { chains.new.seed ≡ chains.old.seed }
    {
        add_nothing(statistics);
        'packets: for index in 0..self.spans.len() {
            count_packet_and_chain(statistics, chains, &[], self.packet(index));
        }
    }
}
