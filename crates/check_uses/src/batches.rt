//! Packets at several places in one buffer.
ghost use Rattle.std.specs.Prelude.{◌≡◌, IfOk, IfErr, Some};
ghost use Rattle.ip_statistics.specs.Lists.{statistics_of};
ghost use Rattle.ip_batches.specs.Batch.{packets_at, first_outside};

use ip_batches::{Batch, PacketSpan};
use ip_statistics::Statistics;

/// Returns the statistics of the packets at these places, or the index of the first span that ends after the buffer.
pub fn counted_at(buffer: &[u8], spans: &[PacketSpan]) -> Result<Statistics, usize>
    ensures counted { IfOk result (λ x. x ≡ statistics_of (packets_at buffer.now spans.now)) }
    ensures outside { IfErr result (λ index. first_outside buffer.now spans.now ≡ Some index) }
{
    let batch = Batch::try_new(buffer, spans)?;
    let mut statistics = Statistics::new();
    batch.count(&mut statistics);
    Ok(statistics)
}
