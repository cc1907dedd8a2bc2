//! The codes of layers and of length sources.
ghost use Rattle.std.specs.Prelude.{◌≡◌};
ghost use Rattle.ip_codes.specs.Codes.{layer_code, header_code, len_source_code};

use ip_base::LenSource;
use ip_base::err::Layer;

/// Returns the code of a layer, as `specs/Codes.antt` lists them.
#[inline(always)]
pub fn layer_code_of(layer: Layer) -> u8
    ensures { result ≡ layer_code layer }
{
    match layer {
        Layer::IpHeader => 1,
        Layer::Ipv4Header => 2,
        Layer::Ipv4Packet => 3,
        Layer::IpAuthHeader => 4,
        Layer::Ipv6Header => 5,
        Layer::Ipv6Packet => 6,
        Layer::Ipv6ExtHeader => 7,
        Layer::Ipv6HopByHopHeader => 8,
        Layer::Ipv6DestOptionsHeader => 9,
        Layer::Ipv6RouteHeader => 10,
        Layer::Ipv6FragHeader => 11,
        Layer::Icmpv4 => 12,
    }
}

/// Returns the code of a layer, or 0.
#[inline(always)]
pub fn header_code_of(header: Option<Layer>) -> u8
    ensures { result ≡ header_code header }
{
    match header {
        Some(layer) => layer_code_of(layer),
        None => 0,
    }
}

/// Returns the code of a length source: 1 the slice, 2 the IPv4 total length, 3 the IPv6 payload length.
#[inline(always)]
pub fn len_source_code_of(source: LenSource) -> u8
    ensures { result ≡ len_source_code source }
{
    match source {
        LenSource::Slice => 1,
        LenSource::Ipv4HeaderTotalLen => 2,
        LenSource::Ipv6HeaderPayloadLen => 3,
    }
}
