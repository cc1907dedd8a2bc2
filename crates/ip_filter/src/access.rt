//! Accesses: numbers that are read at an offset from the start of a header.
ghost use Rattle.std.specs.Prelude.{◌≡◌};
ghost use Rattle.ip_dissect.specs.Dissection.{dissected};
ghost use Rattle.ip_filter.specs.declared.term.AccessedHeader.TheVariants as from;
ghost use Rattle.ip_filter.specs.Access.{bytes_of_packet, leads_to_protocol, bytes_from, byte_at, short_at, long_at, number_at};
ghost use Rattle.ip_filter.specs.Tests.{reads};

use crate::Test;
use crate::facts::Facts;
use crate::meets::comparison_of;
use crate::transport::protocol;

impl Test {
    /// Returns whether the number that the test reads of the bytes is there, and its bits compare as the test asks. Not inlined,
    /// as `has_tcp_flags`.
    #[inline(never)]
    pub(crate) fn reads(&self, bytes: &[u8]) -> bool
        ensures { result ≡ reads self.now bytes.now }
    {
        let Some(comparison) = comparison_of(self.comparison) else {
            return false;
        };
        match number_at(bytes, self.address_high, self.prefix_len) {
            Some(number) => comparison.holds(number & self.address_low, self.number),
            None => false,
        }
    }
}

impl<'a> Facts<'a> {
    /// Returns the bytes of the packet from its base header on, if that has this version.
    #[inline(always)]
    pub(crate) fn bytes_of_version(&self, version: u8) -> &'a [u8]
        ensures { result.now ≡ bytes_from (from.Base version) (dissected self.now.packet.bytes.now) }
    {
        if self.packet.summary.version == version {
            self.bytes_of_packet()
        } else {
            &[]
        }
    }

    /// Returns the bytes of the packet from its base header on.
    #[inline(always)]
    fn bytes_of_packet(&self) -> &'a [u8]
        ensures { result.now ≡ bytes_of_packet (dissected self.now.packet.bytes.now) }
    {
        let bytes = self.packet.bytes;
        &bytes[..bytes.len() - self.packet.summary.padding_len]
    }

    /// Returns the bytes from the header of the protocol with this number on, if the headers lead to it.
    #[inline(always)]
    pub(crate) fn bytes_of_protocol(&self, number: u8) -> &'a [u8]
        ensures { result.now ≡ bytes_from (from.Transport number) (dissected self.now.packet.bytes.now) }
    {
        if self.leads_to_protocol(number) {
            self.transport()
        } else {
            &[]
        }
    }

    /// Returns whether the headers lead to the protocol with this number: ICMP those of an IPv4 packet, and ICMPv6 those of an
    /// IPv6 packet.
    #[inline(always)]
    fn leads_to_protocol(&self, number: u8) -> bool
        ensures { result ≡ leads_to_protocol number (dissected self.now.packet.bytes.now) }
    {
        let summary = &self.packet.summary;
        match number {
            protocol::ICMP => summary.version == 4 && summary.next_header.0 == protocol::ICMP,
            protocol::ICMP6 => summary.version == 6 && summary.next_header.0 == protocol::ICMP6,
            _ => summary.next_header.0 == number,
        }
    }
}

/// Returns the number of this size at the offset, in network byte order, if all of its bytes are there.
fn number_at(bytes: &[u8], offset: u64, size: u8) -> Option<u64>
    ensures { result ≡ number_at offset size bytes.now }
{
    match size {
        1 => byte_at(bytes, offset),
        2 => short_at(bytes, offset),
        4 => long_at(bytes, offset),
        _ => None,
    }
}

/// Returns the byte at the offset.
fn byte_at(bytes: &[u8], offset: u64) -> Option<u64>
    ensures { result ≡ byte_at offset bytes.now }
{
    if bytes.len() as u64 <= offset {
        return None;
    }
    Some(u64::from(bytes[offset as usize]))
}

/// Returns the number of 16 bits at the offset.
fn short_at(bytes: &[u8], offset: u64) -> Option<u64>
    ensures { result ≡ short_at offset bytes.now }
{
    let len = bytes.len() as u64;
    if len < 2 || len - 2 < offset {
        return None;
    }
    let start = offset as usize;
    Some(u64::from(u16::from_be_bytes([bytes[start], bytes[start + 1]])))
}

/// Returns the number of 32 bits at the offset.
fn long_at(bytes: &[u8], offset: u64) -> Option<u64>
    ensures { result ≡ long_at offset bytes.now }
{
    let len = bytes.len() as u64;
    if len < 4 || len - 4 < offset {
        return None;
    }
    let start = offset as usize;
    Some(u64::from(u32::from_be_bytes([
        bytes[start],
        bytes[start + 1],
        bytes[start + 2],
        bytes[start + 3],
    ])))
}
