//! A parsed packet in plain fields, with the spans of its headers.
ghost use Rattle.std.specs.Prelude.{◌≡◌, ◌+◌, ◌≤◌, length, IfOk, IfErr};
ghost use Rattle.std.specs.Result.{result_err};
ghost use Rattle.etherparse_ip.specs.Ipv4Slice.{ipv4_parts};
ghost use Rattle.etherparse_ip.specs.Ipv6Slice.{ipv6_parts};
ghost use Rattle.ip_spans.specs.HeaderSpan.{filled};
ghost use Rattle.ip_spans.specs.ChainParts.{flag};
ghost use Rattle.ip_spans.specs.PacketParts.{IsPacketParts, packet_parts, packet_spans, ip_fault_fields, lax_ip_fault_fields};
ghost use Rattle.ip_codes.specs.Codes.{len_source_code};

use crate::fault_fields::FaultFields;
use crate::fields::Fields;
use crate::header_span::{HeaderSpan, put_ipv4_span, put_spans};
use etherparse_ip::{IpPayloadSlice, IpSlice, Ipv4Slice, Ipv6Slice};
use ip_codes::len_source_code_of;

/// A packet: its base header, its extension headers and its payload, one after the other.
#[repr(C)]
#[derive(Clone, Copy, Debug, PartialEq, Eq)]
pub struct PacketParts {
    /// The base header's length in bytes: the extension headers start at this offset.
    pub base_len: usize,
    /// The number of extension headers.
    pub headers: usize,
    /// The payload's offset, in bytes from the start of the packet.
    pub payload_offset: usize,
    /// The payload's length in bytes.
    pub payload_len: usize,
    /// The version, 4 or 6.
    pub version: u16,
    /// The payload's protocol number.
    pub payload_number: u16,
    /// 1 if the payload is a fragment, otherwise 0.
    pub fragmented: u16,
    /// The source of the payload's length, as in `FaultFields::len_source`.
    pub len_source: u16,
}

/// Parses the packet at the start of `bytes`, as `IpSlice::from_slice` does. Stores the `HeaderSpan` of each extension
/// header at the front of `spans`, as many as fit; the other elements are unchanged. `headers` counts all headers, and
/// their offsets count from the start of the packet. If there is no packet, returns the error and leaves `spans`
/// unchanged.
#[inline(always)]
pub fn parse_packet(bytes: &[u8], spans: &mut [HeaderSpan]) -> Result<PacketParts, FaultFields>
    ensures packet { IfOk result (λ parts. IsPacketParts bytes.now spans.old parts spans.new) }
    ensures within { IfOk result (λ parts. parts.payload_offset + parts.payload_len ≤ length bytes.now) }
    ensures fault { result_err result ≡ ip_fault_fields bytes.now }
    ensures same { IfErr result (λ _. spans.new ≡ spans.old) }
{
    match IpSlice::from_slice(bytes) {
        Ok(IpSlice::Ipv4(packet)) => Ok(PacketParts::of_ipv4(&packet, spans)),
        Ok(IpSlice::Ipv6(packet)) => Ok(PacketParts::of_ipv6(&packet, spans)),
        Err(error) => Err(FaultFields::of_packet(0, &error)),
    }
}

/// Parses the packet at the start of `bytes` as `parse_packet` does, but accepts a truncated IPv6 packet, as
/// `Ipv6Slice::from_slice_lax` does: if there are fewer bytes than the payload length states, all of them belong to
/// the packet, and `len_source` says so. An IPv4 packet must be complete.
#[inline(always)]
pub fn parse_packet_lax(bytes: &[u8], spans: &mut [HeaderSpan]) -> Result<PacketParts, FaultFields>
    ensures packet { IfOk result (λ parts. IsPacketParts bytes.now spans.old parts spans.new) }
    ensures within { IfOk result (λ parts. parts.payload_offset + parts.payload_len ≤ length bytes.now) }
    ensures fault { result_err result ≡ lax_ip_fault_fields bytes.now }
    ensures same { IfErr result (λ _. spans.new ≡ spans.old) }
{
    if bytes.is_empty() || bytes[0] >> 4 != 6 {
        return parse_packet(bytes, spans);
    }
    match Ipv6Slice::from_slice_lax(bytes) {
        Ok(packet) => Ok(PacketParts::of_ipv6(&packet, spans)),
        Err(error) => Err(FaultFields::of_ipv6_packet(&error)),
    }
}

impl Fields for PacketParts {
    #[inline(always)]
    fn put(&mut self, fields: PacketParts) {
        self.base_len = fields.base_len;
        self.headers = fields.headers;
        self.payload_offset = fields.payload_offset;
        self.payload_len = fields.payload_len;
        self.version = fields.version;
        self.payload_number = fields.payload_number;
        self.fragmented = fields.fragmented;
        self.len_source = fields.len_source;
    }
}

impl PacketParts {
    /// Returns the fields of an IPv4 packet.
    #[inline(always)]
    fn of_ipv4(packet: &Ipv4Slice<'_>, spans: &mut [HeaderSpan]) -> PacketParts
        ensures packet { result ≡ packet_parts 4 (ipv4_parts packet.now) }
        ensures spans { spans.new ≡ filled (packet_spans (ipv4_parts packet.now)) spans.old }
    {
        let base_len = packet.header().slice().len();
        let (headers, len) = put_ipv4_span(packet.extensions().auth, base_len, spans);
        Self::with_payload(4, base_len, headers, base_len + len, packet.payload())
    }

    /// Returns the fields of an IPv6 packet.
    #[inline(always)]
    fn of_ipv6(packet: &Ipv6Slice<'_>, spans: &mut [HeaderSpan]) -> PacketParts
        ensures packet { result ≡ packet_parts 6 (ipv6_parts packet.now) }
        ensures spans { spans.new ≡ filled (packet_spans (ipv6_parts packet.now)) spans.old }
    {
        let base_len = packet.header().slice().len();
        let len = packet.extensions().slice().len();
        let headers = put_spans(packet.extensions(), base_len, spans);
        Self::with_payload(6, base_len, headers, base_len + len, packet.payload())
    }

    /// Returns the fields of a packet with this payload.
    #[inline(always)]
    fn with_payload(
        version: u16,
        base_len: usize,
        headers: usize,
        payload_offset: usize,
        payload: &IpPayloadSlice<'_>,
    ) -> PacketParts
        ensures { result ≡ record {
          base_len = base_len;
          headers = headers;
          payload_offset = payload_offset;
          payload_len = length payload.now.payload.now;
          version = version;
          payload_number = payload.now.ip_number.0;
          fragmented = flag payload.now.fragmented;
          len_source = len_source_code payload.now.len_source;
        } }
    {
        PacketParts {
            base_len,
            headers,
            payload_offset,
            payload_len: payload.payload.len(),
            version,
            payload_number: u16::from(payload.ip_number.0),
            fragmented: u16::from(payload.fragmented),
            len_source: u16::from(len_source_code_of(payload.len_source)),
        }
    }
}
