//! Headers of frames.
ghost use Rattle.std.specs.Prelude.{◌≡◌, Some, None};
ghost use Rattle.ip_frames.specs.Reading.{header, typed, truncated, not_ip};

use crate::protocol_number::after_ethertype;
use crate::{FrameEnd, ProtocolNumber};

/// A kind of header before the IP packet in a frame. Those named after libpcap are described at
/// www.tcpdump.org/linktypes.html.
#[derive(Clone, Copy, Debug, PartialEq, Eq)]
pub enum HeaderKind {
    /// Addresses, and an EtherType or the length of an LLC frame (IEEE 802.3, section 3.1).
    Ethernet,
    /// A VLAN tag after its EtherType (IEEE 802.1Q, section 9.6).
    VlanTag,
    /// Service access points and a control byte (IEEE 802.2, section 3.2).
    Llc,
    /// An organization code and an EtherType (RFC 1042).
    Snap,
    /// Token Ring, with the route of the frame if it has one (IEEE 802.5, section 3.2).
    TokenRing,
    /// FDDI (ISO 9314-2).
    Fddi,
    /// A data frame of 802.11 that isn't protected, without padding after it (IEEE 802.11, section 9.3.2).
    Ieee80211,
    /// Radiotap (www.radiotap.org), before 802.11.
    Radiotap,
    /// Per-packet information of any link type (LINKTYPE_PPI).
    Ppi,
    /// IP over InfiniBand (RFC 4391, section 6), after a global routing header.
    Ipoib,
    /// Linux cooked capture (LINKTYPE_LINUX_SLL).
    Cooked,
    /// Linux cooked capture, version 2 (LINKTYPE_LINUX_SLL2).
    CookedV2,
    /// BSD loopback: an address family (LINKTYPE_NULL, LINKTYPE_LOOP).
    Loopback,
    /// Solaris ipnet (LINKTYPE_IPNET).
    Ipnet,
    /// Netfilter log (LINKTYPE_NFLOG).
    Nflog,
    /// An attribute of a netfilter log.
    NflogAttribute,
    /// The security tag of a frame that isn't encrypted, and the type or length after it (IEEE 802.1AE, section 9.3).
    MacSec,
    /// A network service header (RFC 8300, section 2).
    Nsh,
    /// An entry of the MPLS label stack (RFC 3032, section 2.1).
    Mpls,
    /// PPP over Ethernet (RFC 2516, section 4).
    Pppoe,
    /// PPP, possibly with the address and control bytes of HDLC framing (RFC 1662, section 3.1).
    Ppp,
    /// The protocol number of PPP (RFC 1661, section 2).
    PppProtocol,
    /// PPP or Cisco HDLC, by the first byte (LINKTYPE_PPP_HDLC).
    Serial,
    /// Cisco HDLC (RFC 1547, section 4.3.1).
    CiscoHdlc,
    /// An address of Frame Relay (RFC 2427, section 3).
    FrameRelay,
    /// A control byte, padding and a network layer protocol identifier (RFC 2427, section 3).
    Multiprotocol,
    /// The EtherType of Cisco's encapsulation after an address of Frame Relay.
    CiscoFrame,
    /// Multilink Frame Relay (FRF.16.1).
    MultilinkFrameRelay,
    /// The packet's direction before PPP (LINKTYPE_PPP_WITH_DIR).
    PppDirection,
    /// The packet's direction before Cisco HDLC (LINKTYPE_C_HDLC_WITH_DIR).
    CiscoHdlcDirection,
    /// The packet's direction before Frame Relay (LINKTYPE_FRELAY_WITH_DIR).
    FrameRelayDirection,
    /// The direction and a flag byte of pppd before PPP (LINKTYPE_PPP_PPPD).
    Pppd,
    /// Serial Line IP with a header of libpcap's (LINKTYPE_SLIP).
    Slip,
    /// Juniper's header before Ethernet (LINKTYPE_JUNIPER_ETHER).
    JuniperEthernet,
    /// Juniper's header before the cookie of an ATM card (LINKTYPE_JUNIPER_ATM1).
    JuniperAtm1,
    /// The cookie of the first ATM card of Juniper.
    JuniperCookie,
}

/// What follows in a frame, as the header before it says.
#[derive(Clone, Copy, Debug, PartialEq, Eq)]
pub enum Announced {
    /// Another header.
    Header(HeaderKind),
    /// An IP packet.
    Ip,
    /// An IP packet if its first four bits are 4 or 6, otherwise anything else.
    IpByVersion,
    /// Anything else.
    Other,
}

/// A header of a frame.
#[derive(Clone, Copy, Debug, PartialEq, Eq)]
pub struct FrameHeader {
    /// Which header it is.
    pub kind: HeaderKind,
    /// Its length in bytes.
    pub len: usize,
    /// The number that says what follows, if the header has one.
    pub number: Option<ProtocolNumber>,
    /// The identifier of a VLAN tag, of 12 bits; 0 names no VLAN.
    pub vlan: Option<u16>,
    /// What follows.
    pub announced: Announced,
}

/// What the rest of a frame begins with.
#[derive(Clone, Copy, Debug, PartialEq, Eq)]
pub enum HeaderReading {
    /// A whole header.
    Whole(FrameHeader),
    /// No header: the headers of the frame end here, with the number found, if there is one.
    End(FrameEnd, Option<ProtocolNumber>),
}

/// Returns a header of `len` bytes that isn't a VLAN tag.
#[inline(always)]
pub(crate) fn header(
    kind: HeaderKind,
    len: usize,
    number: Option<ProtocolNumber>,
    announced: Announced,
) -> HeaderReading
    ensures { result ≡ header kind len number announced }
{
    HeaderReading::Whole(FrameHeader {
        kind,
        len,
        number,
        vlan: None,
        announced,
    })
}

/// Returns a header of `len` bytes with an EtherType.
#[inline(always)]
pub(crate) fn typed(kind: HeaderKind, len: usize, number: u16) -> HeaderReading
    ensures { result ≡ typed kind len number }
{
    let announced = after_ethertype(number);
    header(
        kind,
        len,
        Some(ProtocolNumber::EtherType(number)),
        announced,
    )
}

/// Returns that the frame ends before the `needed` bytes of its last header.
#[inline(always)]
pub(crate) fn truncated(needed: usize) -> HeaderReading
    ensures { result ≡ truncated needed }
{
    HeaderReading::End(FrameEnd::Truncated { needed }, None)
}

/// Returns that no header begins here, and no IP packet.
#[inline(always)]
pub(crate) fn not_ip() -> HeaderReading
    ensures { result ≡ not_ip }
{
    HeaderReading::End(FrameEnd::NotIp, None)
}
