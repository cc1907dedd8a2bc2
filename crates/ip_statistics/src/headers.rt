//! Extension headers counted by their numbers.
ghost use Rattle.std.specs.Prelude.{◌≡◌, length};
ghost use Rattle.std.proofs.Common.{rules};
ghost use Rattle.ip_statistics.specs.Counts.{all_added};
ghost use Rattle.ip_statistics.specs.HeaderCounts.{number_counts, AreCounts};

use crate::Statistics;
use crate::counts::count_at;
use ip_base::IpNumber;
use ip_dissect::HeaderVisitor;

/// Counts no header: the counts are their sums with no counts.
#[inline(always)]
#[tactic(auto, using(crate::proofs::HeaderLemmas::none_counted))]
pub(crate) fn count_none(counts: &[u64])
    requires { length counts.now ≡ 256 }
    ensures { AreCounts counts.now }
{}

impl HeaderVisitor for Statistics {
    ghost visited = { λ old k c new. AreCounts old.headers
        → new ≡ record old { headers = all_added old.headers (number_counts c) } };

    ghost none = { Prim.search rules };

    /// Counts the header by its number.
    #[inline(always)]
    fn visit(&mut self, number: IpNumber, _header: &[u8], _index: usize, _offset: usize) {
        count_at(&mut self.headers, usize::from(number.0), true);
    }
}
