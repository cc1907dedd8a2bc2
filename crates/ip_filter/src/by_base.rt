//! Tests that the base header of a packet decides: those of its addresses, hop limit, traffic class and flow label. They need
//! no walk over extension headers.
ghost use Rattle.std.specs.Prelude.{◌≡◌, ◌||◌, false, if◌then◌else◌, IfSome};
ghost use Rattle.std.specs.Option.{option_map_or};
ghost use Rattle.ip_dissect.specs.Dissection.{dissected};
ghost use Rattle.ip_filter.specs.Tests.{meets, network_in};
ghost use Rattle.ip_filter.specs.Truth.{has_source, has_destination, quantity_of};
ghost use Rattle.ip_filter.specs.declared.term.Quantity.TheVariants.{HopLimit, Dscp, Ecn, FlowLabel};

use crate::meets::kind;
use crate::{Network, Test};
use ip_dissect::{BaseHeader, Packet, PacketStart};

/// Returns the start of a packet that has been walked.
#[inline(always)]
pub(crate) fn start_of<'a>(packet: &Packet<'a>) -> PacketStart<'a>
    ensures { result.bytes.now ≡ packet.now.bytes.now }
{
    PacketStart {
        bytes: packet.bytes,
        base: packet.base,
    }
}

impl Test {
    /// Returns whether the base header of a packet decides the test.
    pub(crate) fn is_of_base(&self) -> bool {
        matches!(
            self.kind,
            kind::SOURCE
                | kind::DESTINATION
                | kind::EITHER
                | kind::HOP_LIMIT
                | kind::DSCP
                | kind::ECN
                | kind::FLOW_LABEL
        )
    }

    /// Returns the index to which the test leads the packet, if its base header decides that.
    #[inline(always)]
    pub(crate) fn index_by_base(&self, start: &PacketStart<'_>) -> Option<usize>
        ensures { IfSome result (λ i. i ≡ (if meets self.now (dissected start.now.bytes.now)
            then self.now.if_met else self.now.if_not)) }
    {
        match self.kind {
            kind::SOURCE => Some(self.next_index(self.has_source(start))),
            kind::DESTINATION => Some(self.next_index(self.has_destination(start))),
            kind::EITHER => Some(self.next_index(self.has_either(start))),
            kind::HOP_LIMIT => Some(self.next_index(self.compares_number(hop_limit(start)))),
            kind::DSCP => Some(self.next_index(self.compares_number(dscp(start)))),
            kind::ECN => Some(self.next_index(self.compares_number(ecn(start)))),
            kind::FLOW_LABEL => Some(self.next_index(self.compares_number(flow_label(start)))),
            _ => None,
        }
    }

    /// Returns whether either address of the packet lies in the network of the test.
    #[inline(always)]
    pub(crate) fn has_either(&self, start: &PacketStart<'_>) -> bool
        ensures { result ≡ option_map_or (λ n. has_source n (dissected start.now.bytes.now)
            || has_destination n (dissected start.now.bytes.now)) (network_in self.now) false }
    {
        match self.network() {
            Some(network) => has_either(start, network),
            None => false,
        }
    }

    /// Returns whether the source address of the packet lies in the network of the test.
    #[inline(always)]
    pub(crate) fn has_source(&self, start: &PacketStart<'_>) -> bool
        ensures { result ≡ option_map_or (λ n. has_source n (dissected start.now.bytes.now))
            (network_in self.now) false }
    {
        match self.network() {
            Some(network) => has_source(start, network),
            None => false,
        }
    }

    /// Returns whether the destination address of the packet lies in the network of the test.
    #[inline(always)]
    pub(crate) fn has_destination(&self, start: &PacketStart<'_>) -> bool
        ensures { result ≡ option_map_or (λ n. has_destination n (dissected start.now.bytes.now))
            (network_in self.now) false }
    {
        match self.network() {
            Some(network) => has_destination(start, network),
            None => false,
        }
    }
}

/// Returns whether the source address of the packet lies in the network.
#[inline(always)]
fn has_source(start: &PacketStart<'_>, network: Network) -> bool
    ensures { result ≡ has_source network (dissected start.now.bytes.now) }
{
    match &start.base {
        Some(BaseHeader::Ipv4(header)) => network.has_ipv4(u32::from_be_bytes(header.source())),
        Some(BaseHeader::Ipv6(header)) => network.has_ipv6(u128::from_be_bytes(header.source())),
        None => false,
    }
}

/// Returns whether the destination address of the packet lies in the network.
#[inline(always)]
fn has_destination(start: &PacketStart<'_>, network: Network) -> bool
    ensures { result ≡ has_destination network (dissected start.now.bytes.now) }
{
    match &start.base {
        Some(BaseHeader::Ipv4(header)) => {
            network.has_ipv4(u32::from_be_bytes(header.destination()))
        }
        Some(BaseHeader::Ipv6(header)) => {
            network.has_ipv6(u128::from_be_bytes(header.destination()))
        }
        None => false,
    }
}

/// Returns whether either address of the packet lies in the network.
#[inline(always)]
fn has_either(start: &PacketStart<'_>, network: Network) -> bool
    ensures { result ≡ (has_source network (dissected start.now.bytes.now)
        || has_destination network (dissected start.now.bytes.now)) }
{
    match &start.base {
        Some(BaseHeader::Ipv4(header)) => {
            network.has_ipv4(u32::from_be_bytes(header.source()))
                || network.has_ipv4(u32::from_be_bytes(header.destination()))
        }
        // not `||`: which of the two lies there is often mispredicted. For IPv4 that gained nothing.
        Some(BaseHeader::Ipv6(header)) => {
            network.has_ipv6(u128::from_be_bytes(header.source()))
                | network.has_ipv6(u128::from_be_bytes(header.destination()))
        }
        None => false,
    }
}

/// Returns the hop limit, of IPv4 the time to live.
#[inline(always)]
pub(crate) fn hop_limit(start: &PacketStart<'_>) -> Option<u64>
    ensures { result ≡ quantity_of HopLimit (dissected start.now.bytes.now) }
{
    match &start.base {
        Some(BaseHeader::Ipv4(header)) => Some(u64::from(header.ttl())),
        Some(BaseHeader::Ipv6(header)) => Some(u64::from(header.hop_limit())),
        None => None,
    }
}

/// Returns the differentiated services code point.
#[inline(always)]
pub(crate) fn dscp(start: &PacketStart<'_>) -> Option<u64>
    ensures { result ≡ quantity_of Dscp (dissected start.now.bytes.now) }
{
    match &start.base {
        Some(BaseHeader::Ipv4(header)) => Some(u64::from(header.dcp())),
        Some(BaseHeader::Ipv6(header)) => Some(u64::from(header.traffic_class() / 4)),
        None => None,
    }
}

/// Returns the code point of explicit congestion notification.
#[inline(always)]
pub(crate) fn ecn(start: &PacketStart<'_>) -> Option<u64>
    ensures { result ≡ quantity_of Ecn (dissected start.now.bytes.now) }
{
    match &start.base {
        Some(BaseHeader::Ipv4(header)) => Some(u64::from(header.ecn())),
        Some(BaseHeader::Ipv6(header)) => Some(u64::from(header.traffic_class() % 4)),
        None => None,
    }
}

/// Returns the flow label of an IPv6 packet.
#[inline(always)]
pub(crate) fn flow_label(start: &PacketStart<'_>) -> Option<u64>
    ensures { result ≡ quantity_of FlowLabel (dissected start.now.bytes.now) }
{
    match &start.base {
        Some(BaseHeader::Ipv6(header)) => Some(u64::from(header.flow_label())),
        _ => None,
    }
}
