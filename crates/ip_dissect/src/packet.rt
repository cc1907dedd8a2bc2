//! A packet whose headers have been walked.
ghost use Rattle.std.specs.Prelude.{◌≡◌, ◌+◌, true, length};
ghost use Rattle.ip_spec.specs.Chain.{bytes_of};
ghost use Rattle.ip_dissect.specs.End.{has_error};
ghost use Rattle.ip_dissect.specs.Dissection.{dissected, HasParts};
ghost use Rattle.ip_dissect.specs.Summary.{summary_of, IsBaseOf};

use crate::ends::{base_error, end_at_extension, ipv4_end};
use crate::{BaseHeader, Dissection, End, Summary};

/// The packet at the start of some bytes, after one walk over its headers. The bytes may be any bytes, and the packet
/// may be truncated, faulty or a fragment.
#[derive(Clone, Copy, Debug)]
pub struct Packet<'a> {
    /// All bytes. The base header, the extension headers, the payload and the padding follow one another and are these.
    pub bytes: &'a [u8],
    /// The base header, if the bytes start with a whole one.
    pub base: Option<BaseHeader<'a>>,
    /// The lengths and numbers of the parts.
    pub summary: Summary,
    pub ghost base_is: { IsBaseOf bytes.now base },
    pub ghost summary_is: { summary ≡ summary_of (dissected bytes.now) },
}

impl<'a> Packet<'a> {
    /// Returns the bytes of the extension headers.
    #[inline(always)]
    pub fn extensions(&self) -> &'a [u8]
        ensures { result.now ≡ bytes_of (dissected self.now.bytes.now).headers }
    {
        let start = self.summary.base_len;
        &self.bytes[start..start + self.summary.extensions_len]
    }

    /// Returns the packet's bytes after the headers.
    #[inline(always)]
    pub fn payload(&self) -> &'a [u8]
        ensures { result.now ≡ (dissected self.now.bytes.now).payload }
    {
        let start = self.summary.base_len + self.summary.extensions_len;
        &self.bytes[start..start + self.summary.payload_len]
    }

    /// Returns the bytes after the packet.
    #[inline(always)]
    pub fn padding(&self) -> &'a [u8]
        ensures { result.now ≡ (dissected self.now.bytes.now).padding }
    {
        &self.bytes[self.bytes.len() - self.summary.padding_len..]
    }

    /// Returns why the headers end where they do. An error is made here, from where the walk stopped.
    #[inline(always)]
    pub fn end(&self) -> End
        ensures { result ≡ (dissected self.now.bytes.now).end }
    {
        if self.summary.has_error {
            return self.error();
        }
        if self.summary.is_later_fragment {
            End::LaterFragment
        } else {
            End::Payload
        }
    }

    /// Returns the error at which the headers end.
    #[inline(always)]
    fn error(&self) -> End
        requires { has_error (dissected self.now.bytes.now).end ≡ true }
        ensures { result ≡ (dissected self.now.bytes.now).end }
    {
        match self.base {
            Some(BaseHeader::Ipv4(base)) => ipv4_end(base, self.bytes),
            Some(BaseHeader::Ipv6(_)) => end_at_extension(
                self.summary.next_header,
                self.payload(),
                self.summary.extensions_len,
                self.summary.stated_len,
            ),
            None => base_error(self.bytes),
        }
    }

    /// Returns all parts, with the error.
    #[inline(always)]
    pub fn dissection(&self) -> Dissection<'a>
        ensures { HasParts (dissected self.now.bytes.now) result }
    {
        Dissection {
            base: self.base,
            stated_len: self.summary.stated_len,
            extensions: self.extensions(),
            header_count: self.summary.header_count,
            fragment: self.summary.fragment,
            next_header: self.summary.next_header,
            payload: self.payload(),
            missing: self.summary.missing,
            padding: self.padding(),
            end: self.end(),
        }
    }
}
