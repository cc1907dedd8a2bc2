//! Tests the packets of a batch with a filter.
ghost use Rattle.std.specs.Prelude.{◌≡◌, ◌↔◌, IsTrue};
ghost use Rattle.std.specs.List.{All};
ghost use Rattle.ip_filter.specs.Program.{tests_of};
ghost use Rattle.ip_spans.specs.HeaderSpan.{filled};
ghost use Rattle.ip_statistics.specs.Counts.{one_if};
ghost use Rattle.ip_batches.specs.Packets.{batch_packets};
ghost use Rattle.ip_batches.specs.Batch.{matches_of};
ghost use Rattle.ip_batches.specs.Blocks.{AsksMetadata};

use crate::Batch;
use ip_filter::Filter;

impl Batch<'_> {
    /// Stores for each packet, in order, 1 if the filter matches it and 0 if it doesn't, at the front of `matches`, as
    /// many as fit; the other elements are unchanged.
    #[inline(always)]
    pub fn filter(&self, filter: &Filter, matches: &mut [u8])
        ensures { matches.new ≡ filled (matches_of filter.now (batch_packets self.now)) matches.old }
    {
        // one test alone is faster on its own path
        if filter.used_tests().len() > 1 && asks_metadata(filter) {
            self.filter_blocks(filter, matches);
        } else {
            self.filter_each(filter, matches);
        }
    }

    /// Stores which packets the filter matches, as `filter` does, one by one.
    #[inline(always)]
    #[tactic(auto, using(crate::proofs::BatchLemmas::all_stored))]
    fn filter_each(&self, filter: &Filter, matches: &mut [u8])
        ensures { matches.new ≡ filled (matches_of filter.now (batch_packets self.now)) matches.old }
    {
        let count = self.spans.len().min(matches.len());
        'packets: for index in 0..count {
            matches[index] = byte_of(filter.matches(self.packet(index)));
        }
    }
}

/// Returns whether all tests of the filter ask metadata.
fn asks_metadata(filter: &Filter) -> bool
    ensures { IsTrue result ↔ All AsksMetadata (tests_of filter.now) }
{
    filter.used_tests().iter().all(|test| test.asks_metadata())
}

/// Returns 1 for true and 0 for false.
#[inline(always)]
pub(crate) fn byte_of(is_match: bool) -> u8
    ensures { result ≡ one_if is_match }
{
    u8::from(is_match)
}
