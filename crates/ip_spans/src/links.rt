//! The links between the headers that spans refer to.
ghost use Rattle.std.specs.Prelude.{◌≡◌};
ghost use Rattle.ip_spans.specs.LinkedSpans.{number_of_first_span, linked_spans};

use crate::header_span::HeaderSpan;

/// Links each header to the next in the array, and the last to `last`. Returns the number of the first, or `last` if
/// there is none. Only the headers' `next_header` changes.
pub fn link_headers(spans: &mut [HeaderSpan], last: u8) -> u8
    ensures links { spans.new ≡ linked_spans last spans.old }
    ensures first { result ≡ number_of_first_span last spans.old }
{
    let mut next = last;
    let mut left = spans.len();
    'headers: while 0 < left {
        left -= 1;
        spans[left].next_header = next;
        next = spans[left].number;
    }
    next
}
