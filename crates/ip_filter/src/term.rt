//! The terms of a filter.
use crate::Network;
use ip_base::err::Layer;

/// How a count is compared with a number.
#[derive(Clone, Copy, Debug, PartialEq, Eq)]
pub enum Comparison {
    /// `=`: equal.
    Equal,
    /// `!=`: not equal.
    NotEqual,
    /// `<`: less.
    Less,
    /// `<=`: less or equal.
    AtMost,
    /// `>`: greater.
    Greater,
    /// `>=`: greater or equal.
    AtLeast,
}

/// A number that a packet has, which terms compare.
#[derive(Clone, Copy, Debug, PartialEq, Eq)]
pub enum Quantity {
    /// How many extension headers there are.
    Headers,
    /// The length of the extension headers in bytes.
    ChainBytes,
    /// The number of payload bytes that are present.
    Payload,
    /// The packet's length in bytes by its base header. If that states none, as in a jumbogram, the number of bytes that are
    /// there.
    Length,
    /// The hop limit, or the time to live of an IPv4 packet (RFC 8200, section 3; RFC 791, section 3.1).
    HopLimit,
    /// The differentiated services code point (RFC 2474, section 3).
    Dscp,
    /// The bits of explicit congestion notification (RFC 3168, section 5).
    Ecn,
    /// The flow label, of IPv6 packets alone (RFC 8200, section 3).
    FlowLabel,
}

/// A range of ports.
#[derive(Clone, Copy, Debug, PartialEq, Eq)]
pub struct Ports {
    /// The lowest.
    pub first: u16,
    /// The highest.
    pub last: u16,
}

/// Which flags of TCP are set, as bits of byte 13 of its header: `fin` 1, `syn` 2, `rst` 4, `psh` 8, `ack` 16, `urg` 32, `ece` 64,
/// `cwr` 128 (RFC 9293, section 3.1).
#[derive(Clone, Copy, Debug, PartialEq, Eq)]
pub struct TcpFlags {
    /// Those that are set.
    pub set: u8,
    /// Those that count: of these, all others are not set.
    pub mask: u8,
}

/// The header from which an access counts.
#[derive(Clone, Copy, Debug, PartialEq, Eq)]
pub enum AccessedHeader {
    /// The base header of this version.
    Base(u8),
    /// The header of the protocol with this number, after the extension headers: ICMP, 1, of an IPv4 packet, and ICMPv6, 58,
    /// of an IPv6 packet.
    Transport(u8),
}

/// The bytes that an access reads: a number in network byte order.
#[derive(Clone, Copy, Debug, PartialEq, Eq)]
pub struct AccessedBytes {
    /// The header from which the offset counts.
    pub header: AccessedHeader,
    /// Where the number starts.
    pub offset: u32,
    /// How many bytes it has: 1, 2 or 4. No packet has a number of another size.
    pub size: u8,
}

/// How the number that an access reads is compared.
#[derive(Clone, Copy, Debug, PartialEq, Eq)]
pub struct ComparedBits {
    /// Which of its bits count: the others are 0.
    pub mask: u32,
    /// How it is compared.
    pub comparison: Comparison,
    /// What it is compared with.
    pub number: u32,
}

/// What is wrong in a faulty header.
#[derive(Clone, Copy, Debug, PartialEq, Eq)]
pub enum FaultKind {
    /// The packet's length leaves too few bytes for the header.
    TooShort,
    /// Hop-by-hop options follow another header.
    HopByHopNotAtStart,
    /// The length field of an authentication header is 0.
    ZeroPayloadLen,
    /// The version is neither 4 nor 6.
    UnsupportedIpVersion,
    /// The header length of an IPv4 header is below 5.
    Ipv4HeaderLength,
}

/// A condition on one packet.
#[derive(Clone, Copy, Debug, PartialEq, Eq)]
pub enum Term {
    /// There is a base header of this version.
    Version(u8),
    /// An extension header has this number.
    Header(u8),
    /// This number follows the headers, whether or not there is an error.
    LeadsTo(u8),
    /// The packet is a fragment: the first, a middle or the last one. An atomic fragment is none of them. Of an IPv6
    /// packet, each fragment header is asked.
    Fragment,
    /// The packet is a first fragment.
    FirstFragment,
    /// The packet is a middle or last fragment.
    LaterFragment,
    /// A header is truncated.
    Truncated,
    /// A header of this layer is truncated.
    TruncatedAt(Layer),
    /// Bytes of the stated length are missing.
    Incomplete,
    /// A header is faulty.
    Fault,
    /// A header is faulty in this way.
    FaultOf(FaultKind),
    /// A header of this layer is faulty in this way. The layer is that of the header, or, if the error is in no header, the
    /// one that it names.
    FaultAt(FaultKind, Layer),
    /// The packet has this quantity, and it compares so.
    Compared(Quantity, Comparison, u64),
    /// An authentication header has this security parameters index (RFC 4302, section 2.4), or ESP, which the headers lead to
    /// (RFC 4303, section 2.1). A later fragment has no index of ESP.
    SecurityParameters(u32),
    /// A routing header has this type (RFC 8200, section 4.4).
    RoutingType(u8),
    /// The segments left field of a routing header compares so (RFC 8200, section 4.4).
    SegmentsLeft(Comparison, u64),
    /// A header of hop-by-hop or destination options has an option of this type, and well-formed options before it
    /// (RFC 8200, section 4.2).
    Option(u8),
    /// A fragment header of an IPv6 packet has this identification, or an IPv4 packet, which is a fragment.
    Identification(u32),
    /// The source address lies in the network.
    Source(Network),
    /// The destination address lies in the network.
    Destination(Network),
    /// The source or the destination address lies in the network.
    Either(Network),
    /// The source port is one of these. The headers end at the payload, which isn't that of a later fragment; it begins with
    /// a header of TCP, UDP, UDP-Lite, SCTP or DCCP, and the port is there.
    SourcePort(Ports),
    /// The destination port is one of these.
    DestinationPort(Ports),
    /// The source or the destination port is one of these.
    Port(Ports),
    /// The payload should begin with a header of TCP, UDP, UDP-Lite, SCTP, DCCP, or of IPv4's ICMP or IPv6's ICMPv6, but not all
    /// of it is there (RFC 7112, section 5). The data offset of TCP and of DCCP says how long theirs is; one that is too small
    /// counts as no header.
    NoTransport,
    /// The base header states the length 0, although bytes follow it: the payload length of IPv6 (RFC 8200, section 3), or the
    /// total length of IPv4 (RFC 791, section 3.1). A jumbo payload option (RFC 2675) is not asked.
    NoLength,
    /// The number of ICMP, 1, follows the headers of an IPv4 packet (RFC 792), whether or not there is an error.
    Icmp,
    /// The number of ICMPv6, 58, follows the headers of an IPv6 packet (RFC 4443, section 1), whether or not there is an error.
    Icmp6,
    /// The payload of an IPv4 packet is a message of ICMP of this type (RFC 792).
    IcmpType(u8),
    /// The payload of an IPv4 packet is a message of ICMP with this code.
    IcmpCode(u8),
    /// The payload of an IPv6 packet is a message of ICMPv6 of this type (RFC 4443, section 2.1).
    Icmp6Type(u8),
    /// The payload of an IPv6 packet is a message of ICMPv6 with this code.
    Icmp6Code(u8),
    /// The payload begins with a TCP header, of which these flags are set, and the others that count aren't. The headers
    /// end at the payload, as for ports, and the byte of the flags is there (RFC 9293, section 3.1).
    TcpFlags(TcpFlags),
    /// These bytes are there, and compare so. Those from a base header on may be any of the packet, its payload too; those from
    /// a transport header on need headers that end at the payload, as for ports.
    Access(AccessedBytes, ComparedBits),
    /// The frame's length on the wire compares so. Of a packet alone, the length is that of the packet.
    WireLength(Comparison, u64),
    /// The frame has a VLAN tag (IEEE 802.1Q, section 9.3). A packet alone has none.
    Vlan,
    /// A VLAN tag of the frame, the outer or the inner one, has this identifier (IEEE 802.1Q, section 9.6).
    VlanOf(u16),
    /// The frame's EtherType is that of ARP, 0x0806 (RFC 826). A packet alone has none.
    Arp,
    /// The frame announced one IP version, but the packet begins with the other. Of a packet alone, none was announced.
    Mismatched,
}
