//! Tests that terms stand for.
ghost use Rattle.std.specs.Prelude.{◌≡◌, ◌≤◌, ◌==◌, bit_and, ℕ, List, Some, None, false, if◌then◌else◌};
ghost use Rattle.ip_dissect.specs.Dissection.{DissectedParts, dissected};
ghost use Rattle.std.specs.List.{list_any};
ghost use Rattle.std.specs.Option.{option_map_or};
ghost use Rattle.ip_filter.specs.Truth.{holds, is_version, fault_in, kind_index, compares, quantity_of};
ghost use Rattle.ip_filter.specs.Access.{accessed};
ghost use Rattle.ip_codes.specs.Codes.{layer_code};
ghost use Rattle.ip_filter.specs.Flags.{any_flag};
ghost use Rattle.ip_filter.specs.Tests.{meets, comparison_in, network_in, compared};
ghost use Rattle.ip_filter.specs.Frames.{asks_frame, holds_of_frame, meets_by_frame};
ghost use Rattle.ip_filter.specs.declared.filter.Test.{Test as TheTest};
ghost use Rattle.ip_filter.specs.declared.frame.Frame.{Frame as TheFrame};

use crate::flags::{mask, place};
use crate::holds::kind_index;
use crate::meets::kind;
use crate::run::PASSED;
use crate::transport::protocol;
use crate::{
    AccessedBytes, AccessedHeader, ComparedBits, Comparison, FaultKind, Network, Ports, Quantity,
    TcpFlags, Term, Test,
};
use ip_base::err::Layer;
use ip_base::{IpNumber, ip_number};
use ip_codes::layer_code_of;

/// The EtherType of ARP (RFC 826).
const ARP: u64 = 0x0806;

/// The index after all tests at which a packet has not passed.
pub(crate) const REFUSED: usize = PASSED + 1;

impl Test {
    /// Returns a test that those packets meet of which the term holds. It is the last one.
    pub(crate) fn of(term: Term) -> Test
        ensures meets { (s : List ℕ) → meets result (dissected s) ≡ holds term (dissected s) }
        ensures framed { (f : TheFrame) (v : ℕ) → holds_of_frame f v term
            ≡ (if asks_frame result then Some (meets_by_frame f v result) else None) }
        ensures if_met { result.if_met ≡ 64 }
        ensures if_not { result.if_not ≡ 65 }
    {
        match term {
            Term::Version(version) => Test::of_flags(version_mask(version)),
            Term::Header(number) => Test::of_flags(header_mask(number)),
            Term::Fragment => Test::of_flags(mask::FIRST_FRAGMENT | mask::LATER_FRAGMENT),
            Term::FirstFragment => Test::of_flags(mask::FIRST_FRAGMENT),
            Term::LaterFragment => Test::of_flags(mask::LATER_FRAGMENT),
            Term::Truncated => Test::of_flags(mask::TRUNCATED),
            Term::TruncatedAt(layer) => Test::of_layer(mask::TRUNCATED, layer),
            Term::Incomplete => Test::of_flags(mask::INCOMPLETE),
            Term::Fault => Test::of_flags(mask::FAULTS),
            Term::FaultOf(kind) => Test::of_flags(fault_mask(kind)),
            Term::FaultAt(kind, layer) => Test::of_layer(fault_mask(kind), layer),
            Term::LeadsTo(number) => Test::of_number(kind::LEADS_TO, u64::from(number)),
            Term::Compared(quantity, comparison, number) => {
                Test::of_quantity(quantity, comparison, number)
            }
            Term::SecurityParameters(spi) => {
                Test::of_number(kind::SECURITY_PARAMETERS, u64::from(spi))
            }
            Term::Option(number) => Test::of_number(kind::OPTION, u64::from(number)),
            Term::RoutingType(number) => Test::of_number(kind::ROUTING_TYPE, u64::from(number)),
            Term::SegmentsLeft(comparison, number) => Test::of_segments_left(comparison, number),
            Term::Identification(identification) => {
                Test::of_number(kind::IDENTIFICATION, u64::from(identification))
            }
            Term::Source(network) => Test::of_network(kind::SOURCE, network),
            Term::Destination(network) => Test::of_network(kind::DESTINATION, network),
            Term::Either(network) => Test::of_network(kind::EITHER, network),
            Term::SourcePort(ports) => Test::of_ports(kind::SOURCE_PORT, ports),
            Term::DestinationPort(ports) => Test::of_ports(kind::DESTINATION_PORT, ports),
            Term::Port(ports) => Test::of_ports(kind::PORT, ports),
            Term::NoTransport => Test::of_number(kind::NO_TRANSPORT, 0),
            Term::NoLength => Test::of_number(kind::NO_LENGTH, 0),
            Term::Icmp => Test::of_version_leading_to(4, protocol::ICMP),
            Term::Icmp6 => Test::of_version_leading_to(6, protocol::ICMP6),
            Term::IcmpType(number) => Test::of_number(kind::ICMP_TYPE, u64::from(number)),
            Term::IcmpCode(number) => Test::of_number(kind::ICMP_CODE, u64::from(number)),
            Term::Icmp6Type(number) => Test::of_number(kind::ICMP6_TYPE, u64::from(number)),
            Term::Icmp6Code(number) => Test::of_number(kind::ICMP6_CODE, u64::from(number)),
            Term::TcpFlags(flags) => Test::of_tcp_flags(flags),
            Term::Access(bytes, bits) => Test::of_access(bytes, bits),
            Term::WireLength(comparison, len) => Test::of_wire_length(comparison, len),
            Term::Vlan => Test::of_number(kind::VLAN, 0),
            Term::VlanOf(identifier) => Test::of_number(kind::VLAN_OF, u64::from(identifier)),
            Term::Arp => Test::of_number(kind::ETHER_TYPE, ARP),
            Term::Mismatched => Test::of_number(kind::MISMATCHED, 0),
        }
    }

    /// Returns a test of this kind with a number.
    fn of_number(kind: u8, number: u64) -> Test
        ensures kind { result.kind ≡ kind }
        ensures number { result.number ≡ number }
        ensures if_met { result.if_met ≡ 64 }
        ensures if_not { result.if_not ≡ 65 }
    {
        Test {
            number,
            address_high: 0,
            address_low: 0,
            kind,
            comparison: 0,
            version: 0,
            prefix_len: 0,
            if_met: PASSED as u8,
            if_not: REFUSED as u8,
        }
    }

    /// Returns a test of the protocol number that follows the headers of a packet of this version.
    fn of_version_leading_to(version: u8, number: u8) -> Test
        ensures kind { result.kind ≡ 27 }
        ensures version { result.version ≡ version }
        ensures number { result.number ≡ number }
        ensures if_met { result.if_met ≡ 64 }
        ensures if_not { result.if_not ≡ 65 }
    {
        Test {
            version,
            ..Test::of_number(kind::VERSION_LEADS_TO, u64::from(number))
        }
    }

    /// Returns a test of flags, of which one has to be set.
    fn of_flags(flags: u64) -> Test
        ensures kind { result.kind ≡ 1 }
        ensures number { result.number ≡ flags }
        ensures if_met { result.if_met ≡ 64 }
        ensures if_not { result.if_not ≡ 65 }
    {
        Test::of_number(kind::FLAGS, flags)
    }

    /// Returns a test of flags, of which one has to be set by an error in this layer.
    fn of_layer(flags: u64, layer: Layer) -> Test
        ensures kind { result.kind ≡ 26 }
        ensures layer { result.number ≡ layer_code layer }
        ensures flags { result.address_low ≡ flags }
        ensures if_met { result.if_met ≡ 64 }
        ensures if_not { result.if_not ≡ 65 }
    {
        Test {
            address_low: flags,
            ..Test::of_number(kind::LAYER, u64::from(layer_code_of(layer)))
        }
    }

    /// Returns a test that compares a quantity.
    fn of_quantity(quantity: Quantity, comparison: Comparison, number: u64) -> Test
        ensures meets { (p : DissectedParts) → meets result p
            ≡ option_map_or (λ x. compares comparison x number) (quantity_of quantity p) false }
        ensures packet { asks_frame result ≡ false }
        ensures if_met { result.if_met ≡ 64 }
        ensures if_not { result.if_not ≡ 65 }
    {
        Test {
            comparison: comparison_code(comparison),
            ..Test::of_number(quantity_kind(quantity), number)
        }
    }

    /// Returns a test that compares the length on the wire.
    fn of_wire_length(comparison: Comparison, len: u64) -> Test
        ensures kind { result.kind ≡ 33 }
        ensures number { result.number ≡ len }
        ensures comparison { comparison_in result.comparison ≡ Some comparison }
        ensures if_met { result.if_met ≡ 64 }
        ensures if_not { result.if_not ≡ 65 }
    {
        Test {
            comparison: comparison_code(comparison),
            ..Test::of_number(kind::WIRE_LENGTH, len)
        }
    }

    /// Returns a test that compares the segments left of routing headers.
    fn of_segments_left(comparison: Comparison, number: u64) -> Test
        ensures kind { result.kind ≡ 24 }
        ensures number { result.number ≡ number }
        ensures comparison { comparison_in result.comparison ≡ Some comparison }
        ensures if_met { result.if_met ≡ 64 }
        ensures if_not { result.if_not ≡ 65 }
    {
        Test {
            comparison: comparison_code(comparison),
            ..Test::of_number(kind::SEGMENTS_LEFT, number)
        }
    }

    /// Returns a test of this kind with a range of ports.
    fn of_ports(kind: u8, ports: Ports) -> Test
        ensures kind { result.kind ≡ kind }
        ensures first { result.number ≡ ports.first }
        ensures last { result.address_low ≡ ports.last }
        ensures if_met { result.if_met ≡ 64 }
        ensures if_not { result.if_not ≡ 65 }
    {
        Test {
            address_low: u64::from(ports.last),
            ..Test::of_number(kind, u64::from(ports.first))
        }
    }

    /// Returns a test of flags of TCP.
    fn of_tcp_flags(flags: TcpFlags) -> Test
        ensures kind { result.kind ≡ 22 }
        ensures set { result.number ≡ flags.set }
        ensures mask { result.address_low ≡ flags.mask }
        ensures if_met { result.if_met ≡ 64 }
        ensures if_not { result.if_not ≡ 65 }
    {
        Test {
            address_low: u64::from(flags.mask),
            ..Test::of_number(kind::TCP_FLAGS, u64::from(flags.set))
        }
    }

    /// Returns a test of bytes of the packet.
    fn of_access(bytes: AccessedBytes, bits: ComparedBits) -> Test
        ensures meets { (p : DissectedParts) → meets result p
            ≡ option_map_or (λ n. compares bits.comparison (bit_and n bits.mask) bits.number) (accessed bytes p) false }
        ensures packet { asks_frame result ≡ false }
        ensures if_met { result.if_met ≡ 64 }
        ensures if_not { result.if_not ≡ 65 }
    {
        match bytes.header {
            AccessedHeader::Base(version) => {
                Test::of_bytes(kind::BASE_ACCESS, version, bytes, bits)
            }
            AccessedHeader::Transport(number) => {
                Test::of_bytes(kind::TRANSPORT_ACCESS, number, bytes, bits)
            }
        }
    }

    /// Returns a test of this kind of bytes from a header on, which has this version, or this number of a protocol.
    fn of_bytes(kind: u8, header: u8, bytes: AccessedBytes, bits: ComparedBits) -> Test
        ensures kind { result.kind ≡ kind }
        ensures header { result.version ≡ header }
        ensures offset { result.address_high ≡ bytes.offset }
        ensures size { result.prefix_len ≡ bytes.size }
        ensures mask { result.address_low ≡ bits.mask }
        ensures comparison { comparison_in result.comparison ≡ Some bits.comparison }
        ensures number { result.number ≡ bits.number }
        ensures if_met { result.if_met ≡ 64 }
        ensures if_not { result.if_not ≡ 65 }
    {
        Test {
            address_high: u64::from(bytes.offset),
            address_low: u64::from(bits.mask),
            comparison: comparison_code(bits.comparison),
            version: header,
            prefix_len: bytes.size,
            ..Test::of_number(kind, u64::from(bits.number))
        }
    }

    /// Returns a test of this kind with a network.
    fn of_network(kind: u8, network: Network) -> Test
        ensures kind { result.kind ≡ kind }
        ensures network { network_in result ≡ Some network }
        ensures if_met { result.if_met ≡ 64 }
        ensures if_not { result.if_not ≡ 65 }
    {
        let test = Test::of_number(kind, 0);
        match network {
            Network::Ipv4 { address, len } => Test {
                address_low: u64::from(address),
                version: 4,
                prefix_len: len,
                ..test
            },
            Network::Ipv6 { address, len } => Test {
                address_high: (address >> 64) as u64,
                address_low: (address % (1 << 64)) as u64,
                version: 6,
                prefix_len: len,
                ..test
            },
        }
    }
}

/// Returns the flag of a version.
fn version_mask(version: u8) -> u64
    ensures { (s : List ℕ) → any_flag 64 result (dissected s) ≡ is_version version (dissected s) }
{
    match version {
        4 => mask::IPV4,
        6 => mask::IPV6,
        _ => 0,
    }
}

/// Returns the flag of an extension header's number.
fn header_mask(number: u8) -> u64
    ensures { (s : List ℕ) → any_flag 64 result (dissected s)
        ≡ list_any (λ h. h.number == number) (dissected s).headers }
{
    match IpNumber(number) {
        ip_number::IPV6_HOP_BY_HOP
        | ip_number::IPV6_ROUTE
        | ip_number::IPV6_FRAG
        | ip_number::AUTH
        | ip_number::IPV6_DEST_OPTIONS => 1 << number,
        _ => 0,
    }
}

/// Returns the flag of a kind of fault.
fn fault_mask(kind: FaultKind) -> u64
    ensures { (s : List ℕ) → any_flag 64 result (dissected s)
        ≡ option_map_or (λ k. kind_index k == kind_index kind) (fault_in (dissected s).end) false }
{
    1 << (place::FAULT + kind_index(kind))
}

/// Returns the kind of test that compares a quantity.
fn quantity_kind(quantity: Quantity) -> u8
    ensures meets { (x : TheTest) (p : DissectedParts) → x.kind ≡ result → meets x p ≡ compared x quantity p }
    ensures packet { result ≤ 32 }
{
    match quantity {
        Quantity::Headers => kind::HEADERS,
        Quantity::ChainBytes => kind::CHAIN_BYTES,
        Quantity::Payload => kind::PAYLOAD,
        Quantity::Length => kind::LENGTH,
        Quantity::HopLimit => kind::HOP_LIMIT,
        Quantity::Dscp => kind::DSCP,
        Quantity::Ecn => kind::ECN,
        Quantity::FlowLabel => kind::FLOW_LABEL,
    }
}

/// Returns the code of a comparison.
fn comparison_code(comparison: Comparison) -> u8
    ensures { comparison_in result ≡ Some comparison }
{
    match comparison {
        Comparison::Equal => 1,
        Comparison::NotEqual => 2,
        Comparison::Less => 3,
        Comparison::AtMost => 4,
        Comparison::Greater => 5,
        Comparison::AtLeast => 6,
    }
}
