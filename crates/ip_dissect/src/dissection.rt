//! The parts of a packet, borrowed.
ghost use Rattle.std.specs.Prelude.{◌≡◌};
ghost use Rattle.ip_dissect.specs.Dissection.{version_in, base_bytes};

use crate::{End, Fragment};
use ip_base::{IpNumber, Ipv4HeaderSlice, Ipv6HeaderSlice};

/// The base header of a packet of either IP version.
#[derive(Clone, Copy, Debug)]
pub enum BaseHeader<'a> {
    /// An IPv4 header with its options.
    Ipv4(Ipv4HeaderSlice<'a>),
    /// An IPv6 header.
    Ipv6(Ipv6HeaderSlice<'a>),
}

impl<'a> BaseHeader<'a> {
    /// Returns the IP version, 4 or 6.
    #[inline(always)]
    pub fn version(&self) -> u8
        ensures { result ≡ version_in self.now }
    {
        match self {
            BaseHeader::Ipv4(_) => 4,
            BaseHeader::Ipv6(_) => 6,
        }
    }

    /// Returns the bytes of the header, an IPv4 header's options included.
    #[inline(always)]
    pub fn slice(&self) -> &'a [u8]
        ensures { result.now ≡ base_bytes self.now }
    {
        match self {
            BaseHeader::Ipv4(header) => header.slice(),
            BaseHeader::Ipv6(header) => header.slice(),
        }
    }
}

/// The packet at the start of some bytes, as far as it is there, borrowed from them. The base header, the extension
/// headers and the payload follow one another and are the packet's bytes; the padding follows the packet.
#[derive(Clone, Debug, Drop)]
pub struct Dissection<'a> {
    /// The base header, if the bytes start with a whole one.
    pub base: Option<BaseHeader<'a>>,
    /// The packet's length in bytes by its base header; `None` if the length field is 0, as in a jumbogram (RFC
    /// 2675) or a packet captured before segmentation offload.
    pub stated_len: Option<usize>,
    /// The bytes of the extension headers. No header follows a fragment header with a non-zero offset.
    pub extensions: &'a [u8],
    /// How many extension headers there are.
    pub header_count: usize,
    /// Which fragment the packet is; `None` if it isn't a fragment and has no fragment header.
    pub fragment: Option<Fragment>,
    /// The protocol number of what follows the headers.
    pub next_header: IpNumber,
    /// The packet's bytes after the headers.
    pub payload: &'a [u8],
    /// How many bytes of the stated length are not here.
    pub missing: usize,
    /// The bytes after the packet.
    pub padding: &'a [u8],
    /// Why the headers end where they do.
    pub end: End,
}
