//! Callers of packets.
ghost use Rattle.std.specs.Prelude.{◌≡◌, ◌≤◌, ◌+◌, ◌↔◌, length, false, IsTrue};
ghost use Rattle.ip_spec.specs.Chain.{bytes_of};
ghost use Rattle.ip_ext_chains.specs.Ipv4ExtensionsSlice.{headers_in};
ghost use Rattle.etherparse_ip.specs.IpSlice.{ip_parts};

use etherparse_ip::{IpNumber, IpSlice, Ipv4ExtensionsSlice, ip_number};

/// Returns whether a packet's payload is UDP and not a fragment.
pub fn is_whole_udp(packet: &[u8]) -> bool {
    match IpSlice::from_slice(packet) {
        Ok(ip) => ip.payload_ip_number() == ip_number::UDP && !ip.is_fragmenting_payload(),
        Err(_) => false,
    }
}

/// Returns whether the packet has a whole payload, not a fragment, of this protocol.
pub fn reaches_whole(protocol: IpNumber, packet: &IpSlice<'_>) -> bool
    ensures { IsTrue result ↔ (((ip_parts packet.now).number ≡ protocol.0)
        × ((ip_parts packet.now).fragmented ≡ false)) }
{
    packet.payload_ip_number() == protocol && !packet.is_fragmenting_payload()
}

/// Returns how many bytes of the packet precede its payload: its base header and its extension headers.
pub fn len_before_payload(packet: &IpSlice<'_>) -> usize
    ensures { result ≡ length (ip_parts packet.now).base
        + length (bytes_of (ip_parts packet.now).headers) }
{
    match packet {
        IpSlice::Ipv4(packet) => packet.header().slice().len() + exts_len(packet.extensions()),
        IpSlice::Ipv6(packet) => {
            packet.header().slice().len() + packet.extensions().slice().len()
        }
    }
}

/// Returns the length of an IPv4 packet's extension headers in bytes.
fn exts_len(headers: Ipv4ExtensionsSlice<'_>) -> usize
    ensures len { result ≡ length (bytes_of (headers_in headers.entry)) }
    ensures few { result ≤ 1028 }
{
    match headers.auth {
        Some(header) => header.slice().len(),
        None => 0,
    }
}
