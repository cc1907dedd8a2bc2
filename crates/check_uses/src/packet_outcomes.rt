//! Callers that need the clause of one result of a call on a packet, like those of single headers
//! (`header_outcomes.rt`).
ghost use Rattle.std.specs.Prelude.{◌≡◌, ◌↔◌, Some, None, false, length, IsTrue, IfOk, IfErr, IfSome, IfNone};
ghost use Rattle.ip_base.specs.Ipv4Header.{version};
ghost use Rattle.etherparse_ip.specs.Packet.{IsIpv4Packet, IsIpv6Packet};
ghost use Rattle.etherparse_ip.specs.PacketFault.{ipv4_fault, ipv6_fault, ipv6_lax_fault, ip_fault};
ghost use Rattle.etherparse_ip.specs.Ipv4Slice.{ipv4_parts};
ghost use Rattle.etherparse_ip.specs.Ipv6Slice.{ipv6_parts};
ghost use Rattle.etherparse_ip.specs.IpSlice.{ip_parts, IsIpPacket, is_of_ipv4};

use etherparse_ip::err::{ip, ipv4, ipv6};
use etherparse_ip::{IpSlice, Ipv4Slice, Ipv6Slice};

/// Parses the IPv4 packet at the start of the bytes, or returns why there is none.
pub fn ipv4_packet(bytes: &[u8]) -> Result<Ipv4Slice<'_>, ipv4::SliceError>
    ensures packet { IfOk result (λ x. IsIpv4Packet bytes.now (ipv4_parts x)) }
    ensures faultless { IfOk result (λ _. ipv4_fault bytes.now ≡ None) }
    ensures fault { IfErr result (λ e. ipv4_fault bytes.now ≡ Some e) }
{
    Ipv4Slice::from_slice(bytes)
}

/// Parses the IPv6 packet at the start of the bytes, or returns why there is none.
pub fn ipv6_packet(bytes: &[u8]) -> Result<Ipv6Slice<'_>, ipv6::SliceError>
    ensures packet { IfOk result (λ x. IsIpv6Packet bytes.now (ipv6_parts x)) }
    ensures faultless { IfOk result (λ _. ipv6_fault bytes.now ≡ None) }
    ensures fault { IfErr result (λ e. ipv6_fault bytes.now ≡ Some e) }
{
    Ipv6Slice::from_slice(bytes)
}

/// Parses the IPv6 packet, truncated or not, at the start of the bytes, or returns why there is none.
pub fn truncated_ipv6_packet(bytes: &[u8]) -> Result<Ipv6Slice<'_>, ipv6::SliceError>
    ensures packet { IfOk result (λ x. IsIpv6Packet bytes.now (ipv6_parts x)) }
    ensures faultless { IfOk result (λ _. ipv6_lax_fault bytes.now ≡ None) }
    ensures fault { IfErr result (λ e. ipv6_lax_fault bytes.now ≡ Some e) }
{
    Ipv6Slice::from_slice_lax(bytes)
}

/// Parses the packet of either IP version at the start of the bytes, or returns why there is none.
pub fn ip_packet(bytes: &[u8]) -> Result<IpSlice<'_>, ip::SliceError>
    ensures packet { IfOk result (λ x. IsIpPacket bytes.now x) }
    ensures faultless { IfOk result (λ _. ip_fault bytes.now ≡ None) }
    ensures fault { IfErr result (λ e. ip_fault bytes.now ≡ Some e) }
{
    IpSlice::from_slice(bytes)
}

/// Returns whether the bytes start with a packet of the version in their first byte.
pub fn is_ip_packet(bytes: &[u8]) -> bool
    ensures ipv4 { version bytes.now ≡ 4 → (IsTrue result ↔ (ipv4_fault bytes.now ≡ None)) }
    ensures ipv6 { version bytes.now ≡ 6 → (IsTrue result ↔ (ipv6_fault bytes.now ≡ None)) }
{
    IpSlice::from_slice(bytes).is_ok()
}

/// Returns the length of the payload that the lax parse finds, if the strict one accepts the packet.
pub fn ipv6_payload_len(bytes: &[u8]) -> Option<usize>
    ensures { IfNone result (ipv6_fault bytes.now ≡ None → ⊥) }
{
    if Ipv6Slice::from_slice(bytes).is_err() {
        return None;
    }
    match Ipv6Slice::from_slice_lax(bytes) {
        Ok(packet) => Some(packet.payload().payload.len()),
        Err(_) => unreachable!(),
    }
}

/// Returns the length of an IPv4 packet's base header.
pub fn ipv4_base_len(packet: &IpSlice<'_>) -> Option<usize>
    ensures len { IfSome result (λ len. len ≡ length (ip_parts packet.now).base) }
    ensures some { IfSome result (λ _. IsTrue (is_of_ipv4 packet.now)) }
    ensures none { IfNone result (is_of_ipv4 packet.now ≡ false) }
{
    Some(packet.ipv4()?.header().slice().len())
}

/// Returns the payload of an IPv6 packet.
pub fn ipv6_payload<'a>(packet: &'a IpSlice<'_>) -> Option<&'a [u8]>
    ensures payload { IfSome result (λ payload. payload.now ≡ (ip_parts packet.now).payload) }
    ensures some { IfSome result (λ _. is_of_ipv4 packet.now ≡ false) }
    ensures none { IfNone result (IsTrue (is_of_ipv4 packet.now)) }
{
    Some(packet.ipv6()?.payload().payload)
}

/// Returns an IPv4 packet as one of either IP version.
pub fn of_ipv4<'a>(packet: Ipv4Slice<'a>) -> IpSlice<'a>
    ensures parts { ip_parts result ≡ ipv4_parts packet.entry }
    ensures version { IsTrue (is_of_ipv4 result) }
{
    packet.into()
}

/// Returns an IPv6 packet as one of either IP version.
pub fn of_ipv6<'a>(packet: Ipv6Slice<'a>) -> IpSlice<'a>
    ensures parts { ip_parts result ≡ ipv6_parts packet.entry }
    ensures version { is_of_ipv4 result ≡ false }
{
    packet.into()
}
