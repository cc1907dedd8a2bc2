//! Writes of the headers that spans refer to.
ghost use Rattle.std.specs.Prelude.{◌≡◌, ◌≤◌, ◌<◌, ◌↔◌, ◌^◌, ℕ, length, IsTrue, IfSome, IfNone};
ghost use Rattle.ip_spec.specs.Header.{IsHeader};
ghost use Rattle.ip_spec.specs.Chain.{IsChain};
ghost use Rattle.ip_spans.specs.Written.{bytes_at, LiesIn, AllLieIn, written_header, written_spans, written_chain, begun_with, AreChainSpans};

use crate::header_span::HeaderSpan;
use ip_base::IpNumber;
use ip_ext_headers::clear_reserved_bits;
use ip_ext_slices::header_at;

/// Writes the headers that the spans refer to in `bytes`, one after the other in the order of the spans, to the front
/// of `out`: each with the next header of its span, and with its reserved bits zero. Returns their length in bytes. If
/// `out` is shorter, nothing is written. Returns `None` if a span doesn't refer to a header of its number; then
/// nothing is written either. If each span has the number that the one before it leads to, the headers written are a
/// chain.
pub fn write_headers(bytes: &[u8], spans: &[HeaderSpan], out: &mut [u8]) -> Option<usize>
    ensures lie { IfSome result (λ _. AllLieIn bytes.now spans.now) }
    ensures len { IfSome result (λ len. len ≡ length (written_spans bytes.now spans.now)) }
    ensures written { IfSome result (λ len. len ≤ length out.old
        → out.new ≡ begun_with (written_spans bytes.now spans.now) out.old) }
    ensures chain { IfSome result (λ _. (n : ℕ) → AreChainSpans n spans.now
        → IsChain n (written_chain bytes.now spans.now)) }
    ensures full { IfSome result (λ len. length out.old < len → out.new ≡ out.old) }
    ensures none { IfNone result (AllLieIn bytes.now spans.now
        → length (written_spans bytes.now spans.now) < 2 ^ 64 → ⊥) }
    ensures same { IfNone result (out.new ≡ out.old) }
{
    let len = written_len(bytes, spans)?;
    if len <= out.len() {
        put_headers(bytes, spans, out);
    }
    Some(len)
}

/// Returns the headers' length in bytes, or `None` if one is not a header.
fn written_len(bytes: &[u8], spans: &[HeaderSpan]) -> Option<usize>
    ensures lie { IfSome result (λ _. AllLieIn bytes.now spans.now) }
    ensures len { IfSome result (λ len. len ≡ length (written_spans bytes.now spans.now)) }
    ensures none { IfNone result (AllLieIn bytes.now spans.now
        → length (written_spans bytes.now spans.now) < 2 ^ 64 → ⊥) }
{
    let mut len: usize = 0;
    'headers: for span in spans {
        if !lies_in(bytes, span) {
            return None;
        }
        len = len.checked_add(span.len)?;
    }
    Some(len)
}

/// Returns whether the span refers to a header of its number.
fn lies_in(bytes: &[u8], span: &HeaderSpan) -> bool
    ensures { IsTrue result ↔ LiesIn bytes.now span.now }
{
    let Some(end) = span.offset.checked_add(span.len) else {
        return false;
    };
    if bytes.len() < end {
        return false;
    }
    is_header(IpNumber(span.number), &bytes[span.offset..end])
}

/// Returns whether the bytes are exactly one header of the number.
fn is_header(number: IpNumber, bytes: &[u8]) -> bool
    ensures { IsTrue result ↔ IsHeader number.0 bytes.now }
{
    match header_at(true, number, bytes) {
        Some(header) => header.slice().len() == bytes.len(),
        None => false,
    }
}

/// Writes the headers, all of which lie in `bytes`, to the front of `out`.
fn put_headers(bytes: &[u8], spans: &[HeaderSpan], out: &mut [u8])
    requires lie { AllLieIn bytes.now spans.now }
    requires room { length (written_spans bytes.now spans.now) ≤ length out.old }
    ensures { out.new ≡ begun_with (written_spans bytes.now spans.now) out.old }
{
    let mut at = 0;
    'headers: for span in spans {
        let end = at + span.len;
        put_header(bytes, span, &mut out[at..end]);
        at = end;
    }
}

/// Writes the header to `out`, which has its length.
fn put_header(bytes: &[u8], span: &HeaderSpan, out: &mut [u8])
    requires lies { LiesIn bytes.now span.now }
    requires room { length out.old ≡ span.now.len }
    ensures { out.new ≡ written_header span.now.number span.now.next_header (bytes_at bytes.now span.now) }
{
    out.copy_from_slice(&bytes[span.offset..span.offset + span.len]);
    clear_reserved_bits(IpNumber(span.number), out);
    out[0] = span.next_header;
}
