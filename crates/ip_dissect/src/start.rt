//! The walk over a packet: its base header, and then its extension headers, if there are any.
ghost use Rattle.std.specs.Prelude.{◌≡◌, length};
ghost use Rattle.ip_dissect.specs.Dissection.{dissected};
ghost use Rattle.ip_dissect.specs.Summary.{summary_of, IsBaseOf};

use crate::base::base_header;
use crate::summary::{ipv4_summary, ipv6_summary, no_summary};
use crate::{BaseHeader, HeaderVisitor, Packet, Summary};

/// The start of a packet: its base header is parsed, and its extension headers haven't been walked.
#[derive(Clone, Copy, Debug)]
pub struct PacketStart<'a> {
    /// All bytes.
    pub bytes: &'a [u8],
    /// The base header, if the bytes start with a whole one.
    pub base: Option<BaseHeader<'a>>,
    pub ghost base_is: { IsBaseOf bytes.now base },
}

impl<'a> PacketStart<'a> {
    /// Parses the base header at the start of `bytes`, which may be any bytes.
    #[inline(always)]
    pub fn parse(bytes: &'a [u8]) -> PacketStart<'a>
        ensures { result.bytes.now ≡ bytes.now }
    {
        PacketStart {
            bytes,
            base: base_header(bytes),
        }
    }

    /// Walks the extension headers: passes each to the visitor once, and returns the packet.
    #[inline(always)]
    pub fn walk<V: HeaderVisitor>(self, visitor: &mut V) -> Packet<'a>
        ensures bytes { result.bytes.now ≡ self.entry.bytes.now }
        ensures visited { V.visited visitor.old (length (dissected self.entry.bytes.now).base)
            (dissected self.entry.bytes.now).headers visitor.new }
    {
        match self.base {
            Some(BaseHeader::Ipv4(base)) => self.with(ipv4_summary(base, self.bytes, visitor)),
            Some(BaseHeader::Ipv6(base)) => self.with(ipv6_summary(base, self.bytes, visitor)),
            None => self.with(no_summary(self.bytes)),
        }
    }

    /// Returns the packet with this summary.
    #[inline(always)]
    fn with(&self, summary: Summary) -> Packet<'a>
        requires { summary ≡ summary_of (dissected self.now.bytes.now) }
        ensures { result.bytes.now ≡ self.now.bytes.now }
    {
        Packet {
            bytes: self.bytes,
            base: self.base,
            summary,
        }
    }
}
