//! The payload of a parsed packet.
ghost use Rattle.std.specs.Prelude.{◌≡◌, ◌+◌, ◌≤◌, length, IfOk};
ghost use Rattle.std.specs.Result.{result_err};
ghost use Rattle.ip_base.specs.Ipv4Header.{version};
ghost use Rattle.etherparse_ip.specs.Ipv4Slice.{ipv4_parts};
ghost use Rattle.etherparse_ip.specs.Ipv6Slice.{ipv6_parts};
ghost use Rattle.ip_spans.specs.ChainParts.{flag};
ghost use Rattle.ip_spans.specs.PacketParts.{payload_span, parts_in, ip_fault_fields, lax_ip_fault_fields};
ghost use Rattle.ip_codes.specs.Codes.{len_source_code};

use crate::fault_fields::FaultFields;
use crate::fields::Fields;
use etherparse_ip::{IpPayloadSlice, IpSlice, Ipv4Slice, Ipv6Slice};
use ip_codes::len_source_code_of;

/// The payload of a packet, and where the extension headers before it start.
#[repr(C)]
#[derive(Clone, Copy, Debug, PartialEq, Eq)]
pub struct PayloadSpan {
    /// The base header's length in bytes: the extension headers start at this offset.
    pub base_len: usize,
    /// The payload's offset, in bytes from the start of the packet.
    pub offset: usize,
    /// The payload's length in bytes.
    pub len: usize,
    /// The version, 4 or 6.
    pub version: u16,
    /// The payload's protocol number.
    pub number: u16,
    /// 1 if the payload is a fragment, otherwise 0.
    pub fragmented: u16,
    /// The source of the payload's length, as in `FaultFields::len_source`.
    pub len_source: u16,
}

/// Finds the payload of the packet at the start of `bytes`, as `parse_packet` does, with one pass over the extension
/// headers. Returns the error if there is no packet.
#[inline(always)]
pub fn find_payload(bytes: &[u8]) -> Result<PayloadSpan, FaultFields>
    ensures payload { IfOk result (λ span. span ≡ payload_span (version bytes.now) (parts_in bytes.now)) }
    ensures within { IfOk result (λ span. span.offset + span.len ≤ length bytes.now) }
    ensures fault { result_err result ≡ ip_fault_fields bytes.now }
{
    match IpSlice::from_slice(bytes) {
        Ok(IpSlice::Ipv4(packet)) => Ok(PayloadSpan::of_ipv4(&packet)),
        Ok(IpSlice::Ipv6(packet)) => Ok(PayloadSpan::of_ipv6(&packet)),
        Err(error) => Err(FaultFields::of_packet(0, &error)),
    }
}

/// Finds the payload of a packet that may be truncated, as in `parse_packet_lax`.
#[inline(always)]
pub fn find_payload_lax(bytes: &[u8]) -> Result<PayloadSpan, FaultFields>
    ensures payload { IfOk result (λ span. span ≡ payload_span (version bytes.now) (parts_in bytes.now)) }
    ensures within { IfOk result (λ span. span.offset + span.len ≤ length bytes.now) }
    ensures fault { result_err result ≡ lax_ip_fault_fields bytes.now }
{
    if bytes.is_empty() || bytes[0] >> 4 != 6 {
        return find_payload(bytes);
    }
    match Ipv6Slice::from_slice_lax(bytes) {
        Ok(packet) => Ok(PayloadSpan::of_ipv6(&packet)),
        Err(error) => Err(FaultFields::of_ipv6_packet(&error)),
    }
}

impl Fields for PayloadSpan {
    #[inline(always)]
    fn put(&mut self, fields: PayloadSpan) {
        self.base_len = fields.base_len;
        self.offset = fields.offset;
        self.len = fields.len;
        self.version = fields.version;
        self.number = fields.number;
        self.fragmented = fields.fragmented;
        self.len_source = fields.len_source;
    }
}

impl PayloadSpan {
    /// Returns the payload of an IPv4 packet.
    #[inline(always)]
    fn of_ipv4(packet: &Ipv4Slice<'_>) -> PayloadSpan
        ensures { result ≡ payload_span 4 (ipv4_parts packet.now) }
    {
        let base_len = packet.header().slice().len();
        let len = match &packet.extensions().auth {
            Some(header) => header.slice().len(),
            None => 0,
        };
        Self::new(4, base_len, base_len + len, packet.payload())
    }

    /// Returns the payload of an IPv6 packet.
    #[inline(always)]
    fn of_ipv6(packet: &Ipv6Slice<'_>) -> PayloadSpan
        ensures { result ≡ payload_span 6 (ipv6_parts packet.now) }
    {
        let base_len = packet.header().slice().len();
        let len = packet.extensions().slice().len();
        Self::new(6, base_len, base_len + len, packet.payload())
    }

    /// Returns the fields of this payload, which starts at the offset.
    #[inline(always)]
    fn new(
        version: u16,
        base_len: usize,
        offset: usize,
        payload: &IpPayloadSlice<'_>,
    ) -> PayloadSpan
        ensures { result ≡ record {
          base_len = base_len;
          offset = offset;
          len = length payload.now.payload.now;
          version = version;
          number = payload.now.ip_number.0;
          fragmented = flag payload.now.fragmented;
          len_source = len_source_code payload.now.len_source;
        } }
    {
        PayloadSpan {
            base_len,
            offset,
            len: payload.payload.len(),
            version,
            number: u16::from(payload.ip_number.0),
            fragmented: u16::from(payload.fragmented),
            len_source: u16::from(len_source_code_of(payload.len_source)),
        }
    }
}
