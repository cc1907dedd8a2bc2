//! Headers linked and written.
ghost use Rattle.std.specs.Prelude.{◌≡◌, ◌≤◌, ◌<◌, ◌^◌, ℕ, length, false, IsTrue};
ghost use Rattle.ip_spec.specs.Chain.{IsChain};
ghost use Rattle.ip_spans.specs.LinkedSpans.{number_of_first_span, linked_spans};
ghost use Rattle.ip_spans.specs.Written.{AllLieIn, written_spans, written_chain, begun_with, AreChainSpans};

use ip_spans::{HeaderSpan, link_headers, write_headers};

/// Calls `link_headers`.
#[unsafe(no_mangle)]
pub extern "C" fn wolfaren_link_headers(spans: &mut [HeaderSpan], last: u8) -> u8
    ensures links { spans.new ≡ linked_spans last spans.old }
    ensures first { result ≡ number_of_first_span last spans.old }
{
    link_headers(spans, last)
}

/// Calls `write_headers`. Returns whether the headers were written, and stores their length in bytes in `len`, which
/// is 0 if a span doesn't refer to a header of its number.
#[unsafe(no_mangle)]
pub extern "C" fn wolfaren_write_headers(
    bytes: &[u8],
    spans: &[HeaderSpan],
    out: &mut [u8],
    len: &mut usize,
) -> bool
    ensures lie { IsTrue result → AllLieIn bytes.now spans.now }
    ensures len { IsTrue result → len.new ≡ length (written_spans bytes.now spans.now) }
    ensures written { IsTrue result
        → out.new ≡ begun_with (written_spans bytes.now spans.now) out.old }
    ensures chain { IsTrue result → (n : ℕ) → AreChainSpans n spans.now
        → IsChain n (written_chain bytes.now spans.now) }
    ensures same { result ≡ false → out.new ≡ out.old }
    ensures full { result ≡ false → 0 < len.new → (length out.old < len.new)
        × (len.new ≡ length (written_spans bytes.now spans.now)) }
    ensures none { result ≡ false → len.new ≡ 0 → AllLieIn bytes.now spans.now
        → length (written_spans bytes.now spans.now) < 2 ^ 64 → ⊥ }
{
    match write_headers(bytes, spans, out) {
        Some(needed) => {
            *len = needed;
            needed <= out.len()
        }
        None => {
            *len = 0;
            false
        }
    }
}
