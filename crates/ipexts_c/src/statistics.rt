//! Statistics of packets.
ghost use Rattle.std.specs.Prelude.{◌≡◌, ◌+◌, ◌&&◌, true, false, length, IsTrue, Some, None};
ghost use Rattle.ip_dissect.specs.Dissection.{dissected};
ghost use Rattle.ip_statistics.specs.Counts.{added};
ghost use Rattle.ip_statistics.specs.Packet.{counts_of};
ghost use Rattle.ip_statistics.specs.Statistics.{merged};
ghost use Rattle.ip_statistics.specs.Lists.{statistics_of};
ghost use Rattle.ip_statistics.specs.Capture.{no_frames, is_current, captures_merged};
ghost use Rattle.ip_spans.specs.HeaderSpan.{filled};
ghost use Rattle.ip_spans.specs.DissectionParts.{dissection_parts, dissected_spans};
ghost use Rattle.ip_batches.specs.Batch.{packets_at, first_outside};

use crate::bytes::Bytes;
use ip_batches::{Batch, PacketSpan};
use ip_spans::{DissectionParts, HeaderSpan, PartsAndSpans};
use ip_statistics::CaptureStatistics;

/// Calls `CaptureStatistics::clear`.
#[unsafe(no_mangle)]
pub extern "C" fn wolfaren_init_statistics(statistics: &mut CaptureStatistics)
    ensures { statistics.new ≡ no_frames }
{
    statistics.clear();
}

/// Calls `Statistics::count_packet`.
#[unsafe(no_mangle)]
pub extern "C" fn wolfaren_count_packet(statistics: &mut CaptureStatistics, bytes: Bytes<'_>)
    ensures { statistics.new ≡ record statistics.old {
      packets = merged statistics.old.packets (counts_of (dissected bytes.entry.slice.now));
    } }
{
    statistics.packets.count_packet(bytes.slice());
}

/// Calls `Batch::count` with the packets at the spans. Returns whether each span lies within the bytes. If so, `outside` is
/// unchanged; otherwise stores the index of the first one that doesn't in `outside`, and the statistics are unchanged.
#[unsafe(no_mangle)]
pub extern "C" fn wolfaren_count_packets(
    statistics: &mut CaptureStatistics,
    bytes: Bytes<'_>,
    spans: &[PacketSpan],
    outside: &mut usize,
) -> bool
    ensures counts { IsTrue result → statistics.new ≡ record statistics.old {
      packets = merged statistics.old.packets
          (statistics_of (packets_at bytes.entry.slice.now spans.now));
    } }
    ensures within { IsTrue result → first_outside bytes.entry.slice.now spans.now ≡ None }
    ensures kept { IsTrue result → outside.new ≡ outside.old }
    ensures outside { result ≡ false
        → first_outside bytes.entry.slice.now spans.now ≡ Some outside.new }
    ensures same { result ≡ false → statistics.new ≡ statistics.old }
{
    match Batch::try_new(bytes.slice(), spans) {
        Ok(batch) => {
            batch.count(&mut statistics.packets);
            true
        }
        Err(index) => {
            *outside = index;
            false
        }
    }
}

/// Calls `Statistics::count_and_visit` with the visitor of `dissect_packet`.
#[unsafe(no_mangle)]
pub extern "C" fn wolfaren_count_dissection(
    statistics: &mut CaptureStatistics,
    bytes: Bytes<'_>,
    spans: &mut [HeaderSpan],
    parts: &mut DissectionParts,
)
    ensures statistics { statistics.new ≡ record statistics.old {
      packets = merged statistics.old.packets (counts_of (dissected bytes.entry.slice.now));
    } }
    ensures parts { parts.new ≡ dissection_parts (dissected bytes.entry.slice.now) }
    ensures spans { spans.new
        ≡ filled (dissected_spans (dissected bytes.entry.slice.now)) spans.old }
    ensures within { parts.new.payload_offset + parts.new.payload_len + parts.new.padding
        ≡ length bytes.entry.slice.now }
{
    let mut visitor = PartsAndSpans { parts, spans };
    statistics
        .packets
        .count_and_visit(bytes.slice(), &mut visitor);
}

/// Calls `CaptureStatistics::count_other_frame`.
#[unsafe(no_mangle)]
pub extern "C" fn wolfaren_count_other_frame(statistics: &mut CaptureStatistics)
    ensures { statistics.new
        ≡ record statistics.old { other_frames = added statistics.old.other_frames 1 } }
{
    statistics.count_other_frame();
}

/// Calls `CaptureStatistics::count_truncated_frame`.
#[unsafe(no_mangle)]
pub extern "C" fn wolfaren_count_truncated_frame(statistics: &mut CaptureStatistics)
    ensures { statistics.new
        ≡ record statistics.old { truncated_frames = added statistics.old.truncated_frames 1 } }
{
    statistics.count_truncated_frame();
}

/// Calls `CaptureStatistics::merge`.
#[unsafe(no_mangle)]
pub extern "C" fn wolfaren_merge_statistics(
    into: &mut CaptureStatistics,
    from: &CaptureStatistics,
) -> bool
    ensures current { result ≡ (is_current into.old && is_current from.now) }
    ensures counts { result ≡ true → into.new ≡ captures_merged into.old from.now }
    ensures same { result ≡ false → into.new ≡ into.old }
{
    into.merge(from)
}
