//! Which packets meet a test.
ghost use Rattle.std.specs.Prelude.{◌≡◌, ◌==◌, bit_and, false};
ghost use Rattle.std.specs.Option.{option_map_or};
ghost use Rattle.ip_dissect.specs.Dissection.{DissectedParts, dissected};
ghost use Rattle.ip_filter.specs.Transport.{transport_of, esp_spi, tcp_flags};
ghost use Rattle.ip_filter.specs.Tests.{comparison_in, network_in, compared, is_in_range, meets, meets_in_payload};
ghost use Rattle.ip_filter.specs.Truth.{compares};

use crate::by_base::start_of;
use crate::facts::Facts;
use crate::header_condition::HeaderCondition;
use crate::transport::{
    DESTINATION_PORT, ICMP_CODE, ICMP_TYPE, SOURCE_PORT, esp_spi, protocol, tcp_flags,
};
use crate::{Comparison, Network, Quantity, Test};

/// The kinds of tests.
pub(crate) mod kind {
    pub const FLAGS: u8 = 1;

    pub const LEADS_TO: u8 = 2;

    pub const HEADERS: u8 = 3;

    pub const CHAIN_BYTES: u8 = 4;

    pub const PAYLOAD: u8 = 5;

    pub const SECURITY_PARAMETERS: u8 = 6;

    pub const IDENTIFICATION: u8 = 7;

    pub const SOURCE: u8 = 8;

    pub const DESTINATION: u8 = 9;

    pub const EITHER: u8 = 10;

    pub const LENGTH: u8 = 11;

    pub const HOP_LIMIT: u8 = 12;

    pub const DSCP: u8 = 13;

    pub const ECN: u8 = 14;

    pub const FLOW_LABEL: u8 = 15;

    pub const SOURCE_PORT: u8 = 16;

    pub const DESTINATION_PORT: u8 = 17;

    pub const PORT: u8 = 18;

    pub const NO_TRANSPORT: u8 = 19;

    pub const ICMP_TYPE: u8 = 20;

    pub const ICMP_CODE: u8 = 21;

    pub const TCP_FLAGS: u8 = 22;

    pub const ROUTING_TYPE: u8 = 23;

    pub const SEGMENTS_LEFT: u8 = 24;

    pub const OPTION: u8 = 25;

    pub const LAYER: u8 = 26;

    pub const VERSION_LEADS_TO: u8 = 27;

    pub const ICMP6_TYPE: u8 = 28;

    pub const ICMP6_CODE: u8 = 29;

    pub const NO_LENGTH: u8 = 30;

    pub const BASE_ACCESS: u8 = 31;

    pub const TRANSPORT_ACCESS: u8 = 32;

    pub const WIRE_LENGTH: u8 = 33;

    pub const VLAN: u8 = 34;

    pub const VLAN_OF: u8 = 35;

    pub const ETHER_TYPE: u8 = 36;

    pub const MISMATCHED: u8 = 37;
}

impl Test {
    /// Returns whether the packet meets the test, which is none of an option.
    #[inline(always)]
    pub(crate) fn is_met(&self, facts: &Facts<'_>) -> bool
        requires { (self.now.kind == 25) ≡ false }
        ensures { result ≡ meets self.now (dissected facts.now.packet.bytes.now) }
    {
        match self.kind {
            kind::FLAGS => facts.has_one_of(self.number),
            kind::LEADS_TO => self.leads_to(&facts.packet),
            kind::HEADERS => self.compares(Quantity::Headers, facts),
            kind::CHAIN_BYTES => self.compares(Quantity::ChainBytes, facts),
            kind::PAYLOAD => self.compares(Quantity::Payload, facts),
            kind::LENGTH | kind::WIRE_LENGTH => self.compares(Quantity::Length, facts),
            kind::HOP_LIMIT => self.compares(Quantity::HopLimit, facts),
            kind::DSCP => self.compares(Quantity::Dscp, facts),
            kind::ECN => self.compares(Quantity::Ecn, facts),
            kind::FLOW_LABEL => self.compares(Quantity::FlowLabel, facts),
            kind::SECURITY_PARAMETERS => {
                facts.has_header(HeaderCondition::SecurityParameters(self.number))
                    || self.has_esp_spi(facts)
            }
            kind::ROUTING_TYPE => facts.has_header(HeaderCondition::RoutingType(self.number)),
            kind::SEGMENTS_LEFT => match comparison_of(self.comparison) {
                Some(comparison) => {
                    facts.has_header(HeaderCondition::SegmentsLeft(comparison, self.number))
                }
                None => false,
            },
            kind::IDENTIFICATION => facts.has_identification(self.number),
            kind::SOURCE => self.has_source(&start_of(&facts.packet)),
            kind::DESTINATION => self.has_destination(&start_of(&facts.packet)),
            kind::EITHER => self.has_either(&start_of(&facts.packet)),
            kind::LAYER => { facts.has_one_of(self.address_low) && facts.is_in_layer(self.number) }
            kind::VERSION_LEADS_TO => self.version_leads_to(&facts.packet),
            kind::NO_LENGTH => facts.lacks_length(),
            kind::BASE_ACCESS => self.reads(facts.bytes_of_version(self.version)),
            _ => self.is_met_in_payload(facts),
        }
    }

    /// Returns whether the first bytes of the packet's payload meet the test.
    #[inline(always)]
    pub(crate) fn is_met_in_payload(&self, facts: &Facts<'_>) -> bool
        ensures { result ≡ meets_in_payload self.now (dissected facts.now.packet.bytes.now) }
    {
        match self.kind {
            kind::SOURCE_PORT => self.has_in_range(facts.port_at(SOURCE_PORT)),
            kind::DESTINATION_PORT => self.has_in_range(facts.port_at(DESTINATION_PORT)),
            kind::PORT => {
                self.has_in_range(facts.port_at(SOURCE_PORT))
                    || self.has_in_range(facts.port_at(DESTINATION_PORT))
            }
            kind::NO_TRANSPORT => facts.lacks_transport(),
            kind::ICMP_TYPE => self.is_number(facts.icmp_byte(ICMP_TYPE)),
            kind::ICMP_CODE => self.is_number(facts.icmp_byte(ICMP_CODE)),
            kind::ICMP6_TYPE => self.is_number(facts.icmp6_byte(ICMP_TYPE)),
            kind::ICMP6_CODE => self.is_number(facts.icmp6_byte(ICMP_CODE)),
            kind::TCP_FLAGS => {
                self.has_tcp_flags(facts.packet.summary.next_header.0, facts.transport())
            },
            kind::TRANSPORT_ACCESS => self.reads(facts.bytes_of_protocol(self.version)),
            _ => false,
        }
    }

    /// Returns whether the packet has the quantity, and it compares as the test asks.
    #[inline(always)]
    pub(crate) fn compares(&self, quantity: Quantity, facts: &Facts<'_>) -> bool
        ensures { result ≡ compared self.now quantity (dissected facts.now.packet.bytes.now) }
    {
        self.compares_number(facts.quantity(quantity))
    }

    /// Returns whether the number is there, and compares as the test asks.
    #[inline(always)]
    pub(crate) fn compares_number(&self, number: Option<u64>) -> bool
        ensures { result ≡ option_map_or (λ c. option_map_or (λ n. compares c n self.now.number) number false)
            (comparison_in self.now.comparison) false }
    {
        let Some(comparison) = comparison_of(self.comparison) else {
            return false;
        };
        match number {
            Some(number) => comparison.holds(number, self.number),
            None => false,
        }
    }

    /// Returns whether the port is there, and in the range of the test.
    #[inline(always)]
    fn has_in_range(&self, port: Option<u16>) -> bool
        ensures { result ≡ is_in_range self.now port }
    {
        match port {
            Some(port) => self.number <= u64::from(port) && u64::from(port) <= self.address_low,
            None => false,
        }
    }

    /// Returns whether the byte is there, and is the number of the test.
    #[inline(always)]
    fn is_number(&self, byte: Option<u8>) -> bool
        ensures { result ≡ option_map_or (λ n. n == self.now.number) byte false }
    {
        match byte {
            Some(byte) => u64::from(byte) == self.number,
            None => false,
        }
    }

    /// Returns whether a TCP header follows whose flags meet the test. Not inlined, since the compiler would look for the flags
    /// before the first test of any filter.
    #[inline(never)]
    fn has_tcp_flags(&self, number: u8, transport: &[u8]) -> bool
        ensures { (p : DissectedParts) → p.number ≡ number → transport_of p ≡ transport.now
            → result ≡ option_map_or (λ n. bit_and n self.now.address_low == self.now.number)
            (tcp_flags p) false }
    {
        self.has_bits(tcp_flags(number, transport))
    }

    /// Returns whether ESP follows with the security parameters index of the test.
    #[inline(always)]
    pub(crate) fn has_esp_spi(&self, facts: &Facts<'_>) -> bool
        ensures { result ≡ option_map_or (λ n. n == self.now.number)
            (esp_spi (dissected facts.now.packet.bytes.now)) false }
    {
        facts.packet.summary.next_header.0 == protocol::ESP && self.is_esp_spi(facts.transport())
    }

    /// Returns whether a payload of ESP begins with the security parameters index of the test. Not inlined, as `has_tcp_flags`.
    #[inline(never)]
    fn is_esp_spi(&self, transport: &[u8]) -> bool
        ensures { (p : DissectedParts) → p.number ≡ 50 → transport_of p ≡ transport.now
            → result ≡ option_map_or (λ n. n == self.now.number) (esp_spi p) false }
    {
        match esp_spi(transport) {
            Some(spi) => u64::from(spi) == self.number,
            None => false,
        }
    }

    /// Returns whether the flags are there, and those that count are the number of the test.
    #[inline(always)]
    fn has_bits(&self, flags: Option<u8>) -> bool
        ensures { result ≡ option_map_or (λ n. bit_and n self.now.address_low == self.now.number) flags
            false }
    {
        match flags {
            Some(flags) => u64::from(flags) & self.address_low == self.number,
            None => false,
        }
    }

    /// Returns the network, if the version is 4 or 6 and the address fits it.
    #[inline(always)]
    pub(crate) fn network(&self) -> Option<Network>
        ensures { result ≡ network_in self.now }
    {
        match self.version {
            4 => match u32::try_from(self.address_low) {
                Ok(address) => Some(Network::Ipv4 {
                    address,
                    len: self.prefix_len,
                }),
                Err(_) => None,
            },
            6 => Some(Network::Ipv6 {
                address: (u128::from(self.address_high) << 64) + u128::from(self.address_low),
                len: self.prefix_len,
            }),
            _ => None,
        }
    }
}

/// Returns the comparison with this code.
#[inline(always)]
pub(crate) fn comparison_of(code: u8) -> Option<Comparison>
    ensures { result ≡ comparison_in code }
{
    match code {
        1 => Some(Comparison::Equal),
        2 => Some(Comparison::NotEqual),
        3 => Some(Comparison::Less),
        4 => Some(Comparison::AtMost),
        5 => Some(Comparison::Greater),
        6 => Some(Comparison::AtLeast),
        _ => None,
    }
}
