//! The spans of extension headers, and how they are stored.
ghost use Rattle.std.specs.Prelude.{◌≡◌, ◌+◌, ◌<◌, ◌^◌, length};
ghost use Rattle.ip_spec.specs.Chain.{bytes_of};
ghost use Rattle.ip_ext_slices.specs.Ipv6ExtensionSlice.{header_of};
ghost use Rattle.ip_ext_slices.specs.Ipv6ExtensionsSlice.{bytes, headers_in};
ghost use Rattle.ip_ext_slices.specs.Ipv4Longest.{authentication_chain};
ghost use Rattle.ip_spans.specs.HeaderSpan.{header_span, spans_from, filled};

use crate::fields::Fields;
use ip_base::{IpNumber, ip_number};
use ip_ext_chains::HasNumber;
use ip_ext_headers::IpAuthHeaderSlice;
use ip_ext_slices::{Ipv6ExtensionSlice, Ipv6ExtensionsSlice};

/// The span of an extension header in the caller's bytes, its number and its next header.
#[repr(C)]
#[derive(Clone, Copy, Debug, PartialEq, Eq)]
pub struct HeaderSpan {
    /// The header's offset, in bytes from the start of the caller's bytes.
    pub offset: usize,
    /// The header's length in bytes.
    pub len: usize,
    /// The header's own number.
    pub number: u8,
    /// The next header field.
    pub next_header: u8,
}

impl HeaderSpan {
    /// Returns the span of a header at this offset.
    #[inline(always)]
    pub(crate) fn of(header: &Ipv6ExtensionSlice<'_>, offset: usize) -> HeaderSpan
        ensures { result ≡ header_span offset (header_of header.now) }
    {
        HeaderSpan {
            offset,
            len: header.slice().len(),
            number: header.number().0,
            next_header: header.next_header().0,
        }
    }
}

impl Fields for HeaderSpan {
    #[inline(always)]
    fn put(&mut self, fields: HeaderSpan) {
        self.offset = fields.offset;
        self.len = fields.len;
        self.number = fields.number;
        self.next_header = fields.next_header;
    }
}

impl HasNumber for HeaderSpan {
    ghost number_of = { λ span. span.number };

    #[inline(always)]
    fn number(&self) -> IpNumber {
        IpNumber(self.number)
    }
}

/// Stores the headers' spans at the front of `spans`, as many as fit; the first header is at the offset. Returns the
/// number of headers.
#[inline(always)]
pub(crate) fn put_spans(
    headers: &Ipv6ExtensionsSlice<'_>,
    offset: usize,
    spans: &mut [HeaderSpan],
) -> usize
    requires { offset + length (bytes headers.now) < 2 ^ 64 }
    ensures count { result ≡ length (headers_in headers.now) }
    ensures spans { spans.new ≡ filled (spans_from offset (headers_in headers.now)) spans.old }
{
    let mut at = offset;
    let mut count = 0;
    let Ok(headers) = headers.clone() else {
        unreachable!();
    };
    for header in headers {
        let span = HeaderSpan::of(&header, at);
        if count < spans.len() {
            spans[count].put(span);
        }
        count += 1;
        at += span.len;
    }
    count
}

/// Stores the span of an IPv4 packet's authentication header, if there is one. Returns the number of headers and their
/// length in bytes.
#[inline(always)]
pub(crate) fn put_ipv4_span(
    header: Option<IpAuthHeaderSlice<'_>>,
    offset: usize,
    spans: &mut [HeaderSpan],
) -> (usize, usize)
    ensures count { result.0 ≡ length (authentication_chain header.entry) }
    ensures len { result.1 ≡ length (bytes_of (authentication_chain header.entry)) }
    ensures spans { spans.new
        ≡ filled (spans_from offset (authentication_chain header.entry)) spans.old }
{
    let Some(header) = header else {
        return (0, 0);
    };
    let len = header.slice().len();
    if !spans.is_empty() {
        spans[0].put(HeaderSpan {
            offset,
            len,
            number: ip_number::AUTH.0,
            next_header: header.next_header().0,
        });
    }
    (1, len)
}
