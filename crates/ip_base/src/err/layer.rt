//! The layers that errors name.
ghost use Rattle.std.specs.Prelude.{◌≡◌};

/// The header or packet that an error reports.
#[derive(Clone, Copy, Debug, PartialEq, Eq, Hash)]
pub enum Layer {
    /// An IP header, before its version is known.
    IpHeader,
    /// An IPv4 header.
    Ipv4Header,
    /// An IPv4 packet, with its payload.
    Ipv4Packet,
    /// An authentication header.
    IpAuthHeader,
    /// An IPv6 header.
    Ipv6Header,
    /// An IPv6 packet, with its payload.
    Ipv6Packet,
    /// An IPv6 extension header in the uniform format (RFC 6564), of any type.
    Ipv6ExtHeader,
    /// IPv6 hop-by-hop options.
    Ipv6HopByHopHeader,
    /// IPv6 destination options.
    Ipv6DestOptionsHeader,
    /// An IPv6 routing header.
    Ipv6RouteHeader,
    /// An IPv6 fragment header.
    Ipv6FragHeader,
    /// An ICMPv4 packet.
    Icmpv4,
}

impl Layer {
    ghost use Rattle.ip_base.specs.Names.{layer_name};

    /// Returns the variant's name.
    pub fn name(&self) -> &'static str
        ensures { result.now ≡ layer_name self.now }
    {
        match self {
            Layer::IpHeader => "IpHeader",
            Layer::Ipv4Header => "Ipv4Header",
            Layer::Ipv4Packet => "Ipv4Packet",
            Layer::IpAuthHeader => "IpAuthHeader",
            Layer::Ipv6Header => "Ipv6Header",
            Layer::Ipv6Packet => "Ipv6Packet",
            Layer::Ipv6ExtHeader => "Ipv6ExtHeader",
            Layer::Ipv6HopByHopHeader => "Ipv6HopByHopHeader",
            Layer::Ipv6DestOptionsHeader => "Ipv6DestOptionsHeader",
            Layer::Ipv6RouteHeader => "Ipv6RouteHeader",
            Layer::Ipv6FragHeader => "Ipv6FragHeader",
            Layer::Icmpv4 => "Icmpv4",
        }
    }
}
