//! Ports, the types of ICMP and the index of ESP: what the payload begins with.
ghost use Rattle.std.specs.Prelude.{◌≡◌, ◌≤◌, ◌+◌};
ghost use Rattle.ip_dissect.specs.Dissection.{DissectedParts, dissected};
ghost use Rattle.ip_filter.specs.Transport.{is_at_payload, transport_of, has_ports, port_at, transport_byte, icmp_byte, icmp6_byte, esp_spi, tcp_flags, words_len, tcp_len, dccp_len, upper_layer_len, lacks_upper_layer, lacks_transport};

use crate::facts::Facts;

/// The numbers of protocols.
pub(crate) mod protocol {
    pub const ICMP: u8 = 1;

    pub const TCP: u8 = 6;

    pub const UDP: u8 = 17;

    pub const DCCP: u8 = 33;

    pub const ESP: u8 = 50;

    pub const ICMP6: u8 = 58;

    pub const SCTP: u8 = 132;

    pub const UDP_LITE: u8 = 136;
}

/// The offset of the source port.
pub(crate) const SOURCE_PORT: usize = 0;

/// The offset of the destination port.
pub(crate) const DESTINATION_PORT: usize = 2;

/// The offset of the type of an ICMP message.
pub(crate) const ICMP_TYPE: usize = 0;

/// The offset of the code of an ICMP message.
pub(crate) const ICMP_CODE: usize = 1;

/// The offset of the data offset in a TCP header: its high half.
const TCP_DATA_OFFSET: usize = 12;

/// The offset of the flags in a TCP header.
const TCP_FLAGS: usize = 13;

/// The offset of the data offset in a DCCP header.
const DCCP_DATA_OFFSET: usize = 4;

/// The offset of the extended sequence number bit in a DCCP header: the lowest bit.
const DCCP_EXTENDED: usize = 8;

impl<'a> Facts<'a> {
    /// Returns the port at an offset from the start of the payload, if the payload begins with ports and this one is there.
    #[inline(always)]
    pub(crate) fn port_at(&self, offset: usize) -> Option<u16>
        requires { offset ≤ 2 }
        ensures { result ≡ port_at offset (dissected self.now.packet.bytes.now) }
    {
        if !has_ports(self.packet.summary.next_header.0) {
            return None;
        }
        let transport = self.transport();
        if transport.len() < offset + 2 {
            return None;
        }
        Some(u16::from_be_bytes([transport[offset], transport[offset + 1]]))
    }

    /// Returns whether the payload should begin with an upper layer's header, but is too short for it.
    #[inline(always)]
    pub(crate) fn lacks_transport(&self) -> bool
        ensures { result ≡ lacks_transport (dissected self.now.packet.bytes.now) }
    {
        let summary = &self.packet.summary;
        self.is_at_payload()
            && lacks_upper_layer(summary.version, summary.next_header.0, self.transport())
    }

    /// Returns the byte at an offset from the start of an ICMP message, if the payload of an IPv4 packet is one and the byte
    /// is there.
    #[inline(always)]
    pub(crate) fn icmp_byte(&self, offset: usize) -> Option<u8>
        ensures { result ≡ icmp_byte offset (dissected self.now.packet.bytes.now) }
    {
        let summary = &self.packet.summary;
        if summary.version == 4 && summary.next_header.0 == protocol::ICMP {
            self.transport_byte(offset)
        } else {
            None
        }
    }

    /// Returns the byte at an offset from the start of an ICMPv6 message, if the payload of an IPv6 packet is one and the byte
    /// is there.
    #[inline(always)]
    pub(crate) fn icmp6_byte(&self, offset: usize) -> Option<u8>
        ensures { result ≡ icmp6_byte offset (dissected self.now.packet.bytes.now) }
    {
        let summary = &self.packet.summary;
        if summary.version == 6 && summary.next_header.0 == protocol::ICMP6 {
            self.transport_byte(offset)
        } else {
            None
        }
    }

    /// Returns the byte at an offset in the payload, if the headers end at it and the byte is there.
    #[inline(always)]
    fn transport_byte(&self, offset: usize) -> Option<u8>
        ensures { result ≡ transport_byte offset (dissected self.now.packet.bytes.now) }
    {
        let transport = self.transport();
        if offset < transport.len() {
            Some(transport[offset])
        } else {
            None
        }
    }

    /// Returns the payload, if the headers end at it.
    #[inline(always)]
    pub(crate) fn transport(&self) -> &'a [u8]
        ensures { result.now ≡ transport_of (dissected self.now.packet.bytes.now) }
    {
        if self.is_at_payload() {
            self.packet.payload()
        } else {
            &[]
        }
    }

    /// Returns whether the headers end at the payload, which isn't that of a later fragment.
    #[inline(always)]
    fn is_at_payload(&self) -> bool
        ensures { result ≡ is_at_payload (dissected self.now.packet.bytes.now).end }
    {
        !self.packet.summary.has_error && !self.packet.summary.is_later_fragment
    }
}

/// Returns the security parameters index at the start of a payload of ESP, if it is there.
#[inline(always)]
pub(crate) fn esp_spi(transport: &[u8]) -> Option<u32>
    ensures { (p : DissectedParts) → p.number ≡ 50 → transport_of p ≡ transport.now → result ≡ esp_spi p }
{
    if 4 <= transport.len() {
        Some(u32::from_be_bytes([transport[0], transport[1], transport[2], transport[3]]))
    } else {
        None
    }
}

/// Returns the flags of a TCP header, if the payload begins with one and they are there.
#[inline(always)]
pub(crate) fn tcp_flags(number: u8, transport: &[u8]) -> Option<u8>
    ensures { (p : DissectedParts) → p.number ≡ number → transport_of p ≡ transport.now → result ≡ tcp_flags p }
{
    if number == protocol::TCP && TCP_FLAGS < transport.len() {
        Some(transport[TCP_FLAGS])
    } else {
        None
    }
}

/// Returns whether the payload is too short for the upper layer's header that begins it. Not inlined, as the flags of TCP.
#[inline(never)]
fn lacks_upper_layer(version: u8, number: u8, payload: &[u8]) -> bool
    ensures { result ≡ lacks_upper_layer version number payload.now }
{
    match upper_layer_len(version, number, payload) {
        Some(len) => payload.len() < len,
        None => true,
    }
}

/// Returns how long the upper layer's header is that begins the payload, or `None` if that isn't known: the byte that states
/// it isn't there, or states too little. Returns 0 for a protocol of which nothing is asked.
fn upper_layer_len(version: u8, number: u8, payload: &[u8]) -> Option<usize>
    ensures { result ≡ upper_layer_len version number payload.now }
{
    match number {
        protocol::TCP => tcp_len(payload),
        protocol::DCCP => dccp_len(payload),
        protocol::UDP | protocol::UDP_LITE => Some(8),
        protocol::SCTP => Some(12),
        protocol::ICMP => Some(if version == 4 { 8 } else { 0 }),
        protocol::ICMP6 => Some(if version == 6 { 4 } else { 0 }),
        _ => Some(0),
    }
}

/// Returns the length of a TCP header by its data offset (RFC 9293, section 3.1).
fn tcp_len(header: &[u8]) -> Option<usize>
    ensures { result ≡ tcp_len header.now }
{
    if header.len() <= TCP_DATA_OFFSET {
        return None;
    }
    words_len(20, header[TCP_DATA_OFFSET] / 16)
}

/// Returns the length of a DCCP header by its data offset (RFC 4340, section 5.1).
fn dccp_len(header: &[u8]) -> Option<usize>
    ensures { result ≡ dccp_len header.now }
{
    if header.len() <= DCCP_EXTENDED {
        return None;
    }
    let fixed = if header[DCCP_EXTENDED] % 2 == 1 {
        16
    } else {
        12
    };
    words_len(fixed, header[DCCP_DATA_OFFSET])
}

/// Returns the length of a header in bytes from its length in words of 32 bits, if it has room for its fixed part.
fn words_len(fixed: usize, words: u8) -> Option<usize>
    ensures { result ≡ words_len fixed words }
{
    let len = 4 * usize::from(words);
    if fixed <= len { Some(len) } else { None }
}

/// Returns whether the headers of a protocol begin with ports.
#[inline(always)]
fn has_ports(number: u8) -> bool
    ensures { result ≡ has_ports number }
{
    matches!(
        number,
        protocol::TCP | protocol::UDP | protocol::DCCP | protocol::SCTP | protocol::UDP_LITE
    )
}
