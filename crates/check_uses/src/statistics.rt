//! Statistics of packets that are counted apart.
ghost use Rattle.std.specs.Prelude.{◌≡◌, [], ◌∷◌};
ghost use Rattle.ip_statistics.specs.Lists.{statistics_of};

use ip_statistics::Statistics;

/// Counts two packets apart, merges the statistics, and returns those of both packets.
pub fn counted_apart(first: &[u8], second: &[u8]) -> Statistics
    ensures { result ≡ statistics_of (first.now ∷ second.now ∷ []) }
{
    let mut statistics = Statistics::new();
    statistics.count_packet(first);
    let mut others = Statistics::new();
    others.count_packet(second);
    statistics.merge(&others);
    statistics
}
