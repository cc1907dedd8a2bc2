//! The layers of headers that are truncated or faulty.
ghost use Rattle.std.specs.Prelude.{◌≡◌};
ghost use Rattle.ip_filter.specs.Grammar.{layer_with};
ghost use Rattle.ip_filter.specs.Layers.{can_have, can_be_truncated, can_be_too_short};
ghost use Rattle.ip_filter.specs.Numbers.{layer_named};
ghost use Rattle.ip_filter.specs.Truth.{is_in_layer, stands_for, is_extension_layer};

use crate::FaultKind;
use ip_base::err::Layer;
use ip_codes::{end_layer, layer_code_of};
use ip_dissect::End;

/// The code of the layer that stands for any extension header of IPv6.
const IPV6_EXTENSION: u64 = 7;

/// An error of a header.
#[derive(Clone, Copy)]
pub(crate) enum LayerError {
    /// It is truncated.
    Truncated,
    /// It is faulty in this way.
    Fault(FaultKind),
}

impl LayerError {
    /// Returns whether a header of the layer can have the error, or one of those for which the layer stands.
    fn is_possible_in(self, layer: Layer) -> bool
        ensures { result ≡ can_have self layer }
    {
        match self {
            LayerError::Truncated => can_be_truncated(layer),
            LayerError::Fault(FaultKind::TooShort) => can_be_too_short(layer),
            LayerError::Fault(FaultKind::HopByHopNotAtStart) => {
                matches!(layer, Layer::Ipv6HopByHopHeader | Layer::Ipv6ExtHeader)
            }
            LayerError::Fault(FaultKind::ZeroPayloadLen) => {
                matches!(layer, Layer::IpAuthHeader | Layer::Ipv6ExtHeader)
            }
            LayerError::Fault(FaultKind::UnsupportedIpVersion) => {
                matches!(layer, Layer::IpHeader)
            }
            LayerError::Fault(FaultKind::Ipv4HeaderLength) => matches!(layer, Layer::Ipv4Header),
        }
    }
}

/// Returns whether a header of the layer can be truncated.
fn can_be_truncated(layer: Layer) -> bool
    ensures { result ≡ can_be_truncated layer }
{
    !matches!(layer, Layer::Ipv4Packet | Layer::Ipv6Packet | Layer::Icmpv4)
}

/// Returns whether the packet's length can leave too few bytes for a header of the layer.
fn can_be_too_short(layer: Layer) -> bool
    ensures { result ≡ can_be_too_short layer }
{
    !matches!(
        layer,
        Layer::IpHeader | Layer::Ipv4Header | Layer::Ipv6Header | Layer::Ipv6Packet | Layer::Icmpv4
    )
}

/// Returns the layer that the word names, if a header there can have the error.
pub(crate) fn parse_layer_with(error: LayerError, word: &[u8]) -> Option<Layer>
    ensures { result ≡ layer_with error word.now }
{
    match parse_layer(word) {
        Some(layer) if error.is_possible_in(layer) => Some(layer),
        _ => None,
    }
}

/// Returns the layer that the word names.
fn parse_layer(word: &[u8]) -> Option<Layer>
    ensures { result ≡ layer_named word.now }
{
    if word == b"IP-header".as_slice() {
        return Some(Layer::IpHeader);
    }
    if word == b"IPv4-header".as_slice() {
        return Some(Layer::Ipv4Header);
    }
    if word == b"IPv4-packet".as_slice() {
        return Some(Layer::Ipv4Packet);
    }
    if word == b"authentication".as_slice() {
        return Some(Layer::IpAuthHeader);
    }
    if word == b"IPv6-header".as_slice() {
        return Some(Layer::Ipv6Header);
    }
    if word == b"IPv6-extension".as_slice() {
        return Some(Layer::Ipv6ExtHeader);
    }
    if word == b"hop-by-hop".as_slice() {
        return Some(Layer::Ipv6HopByHopHeader);
    }
    if word == b"destination-options".as_slice() {
        return Some(Layer::Ipv6DestOptionsHeader);
    }
    if word == b"routing".as_slice() {
        return Some(Layer::Ipv6RouteHeader);
    }
    if word == b"fragment".as_slice() {
        return Some(Layer::Ipv6FragHeader);
    }
    None
}

/// Returns whether the headers of a packet of this version end with an error in the layer with this code.
pub(crate) fn is_in_layer(version: u8, end: &End, code: u64) -> bool
    ensures { result ≡ is_in_layer code version end.now }
{
    match end_layer(end) {
        Some(layer) => stands_for(code, version, layer),
        None => false,
    }
}

/// Returns whether the layer with the code is this one, or stands for it in a packet of this version.
fn stands_for(code: u64, version: u8, layer: Layer) -> bool
    ensures { result ≡ stands_for code version layer }
{
    u64::from(layer_code_of(layer)) == code
        || code == IPV6_EXTENSION && version == 6 && is_extension_layer(layer)
}

/// Returns whether the layer is that of an extension header.
fn is_extension_layer(layer: Layer) -> bool
    ensures { result ≡ is_extension_layer layer }
{
    matches!(
        layer,
        Layer::IpAuthHeader
            | Layer::Ipv6HopByHopHeader
            | Layer::Ipv6DestOptionsHeader
            | Layer::Ipv6RouteHeader
            | Layer::Ipv6FragHeader
    )
}
