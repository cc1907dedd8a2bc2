//! The texts of errors.
ghost use Rattle.std.specs.Prelude.{◌≡◌, ◌≤◌, ◌<◌, ◌+◌, drop, length, slice_index};

use crate::fault_fields::{FaultFields, layer_with_code, len_source_of};
use crate::filter_parse::expected_of;
use arrayvec::ArrayString;
use ip_base::LenSource;
use ip_base::err::Layer;
use ip_codes::kind;
use std::fmt::{Display, Write};

/// The maximum length of a text, in bytes.
const TEXT_LEN: usize = 255;

/// Formats the error as text at the front of `text`, followed by a 0 byte. Returns the text's length in bytes, at
/// most 255. If the text and the 0 don't fit, `text` is unchanged. The text is empty for an unknown kind, for too few
/// bytes with an unknown layer or length source, and for a version or header length above 255.
pub fn fault_text(fault: &FaultFields, text: &mut [u8]) -> usize
    ensures most { result ≤ 255 }
    ensures end { result < length text.old → slice_index text.new result ≡ 0 }
    ensures after { drop (result + 1) text.new ≡ drop (result + 1) text.old }
    ensures refused { length text.old ≤ result → text.new ≡ text.old }
    ensures len { length text.new ≡ length text.old }
{
    let mut words = ArrayString::<TEXT_LEN>::new();
    if push_words(fault, &mut words).is_err() {
        words.clear();
    }
    put_words(&words, text)
}

/// Formats what the text of a filter needs, by its code in `FilterError`, as text at the front of `text`, followed by a 0
/// byte. Returns the text's length in bytes, at most 255. If the text and the 0 don't fit, `text` is unchanged. An unknown
/// code has an empty text.
pub fn expected_text(expected: u8, text: &mut [u8]) -> usize
    ensures most { result ≤ 255 }
    ensures end { result < length text.old → slice_index text.new result ≡ 0 }
    ensures after { drop (result + 1) text.new ≡ drop (result + 1) text.old }
    ensures refused { length text.old ≤ result → text.new ≡ text.old }
    ensures len { length text.new ≡ length text.old }
{
    display_text(&expected_of(expected), text)
}

/// Formats a value, if there is one, as text at the front of `text`, followed by a 0 byte. Returns the text's length in bytes,
/// at most 255. If the text and the 0 don't fit, `text` is unchanged. The text is empty without a value, and if it would be
/// longer than 255 bytes.
pub fn display_text<T: Display>(value: &Option<T>, text: &mut [u8]) -> usize
    ensures most { result ≤ 255 }
    ensures end { result < length text.old → slice_index text.new result ≡ 0 }
    ensures after { drop (result + 1) text.new ≡ drop (result + 1) text.old }
    ensures refused { length text.old ≤ result → text.new ≡ text.old }
    ensures len { length text.new ≡ length text.old }
{
    let mut words = ArrayString::<TEXT_LEN>::new();
    if let Some(value) = value {
        if write!(words, "{value}").is_err() {
            words.clear();
        }
    }
    put_words(&words, text)
}

/// Writes the words at the front of `text`, followed by a 0 byte, if both fit. Returns the length of the words.
fn put_words(words: &ArrayString<TEXT_LEN>, text: &mut [u8]) -> usize
    ensures most { result ≤ 255 }
    ensures end { result < length text.old → slice_index text.new result ≡ 0 }
    ensures after { drop (result + 1) text.new ≡ drop (result + 1) text.old }
    ensures refused { length text.old ≤ result → text.new ≡ text.old }
    ensures len { length text.new ≡ length text.old }
{
    let len = words.len();
    if len < text.len() {
        text[..len].copy_from_slice(words.as_bytes());
        text[len] = 0;
    }
    len
}

/// Appends the error's text.
fn push_words(fault: &FaultFields, words: &mut ArrayString<TEXT_LEN>) -> std::fmt::Result {
    match fault.kind {
        kind::TOO_SHORT => push_len_words(fault, words),
        kind::HOP_BY_HOP_NOT_AT_START => {
            words.write_str("the hop-by-hop options header")?;
            push_place(fault, words)?;
            words.write_str(" doesn't follow the IPv6 header directly")
        }
        kind::ZERO_PAYLOAD_LEN => {
            words.write_str("the length field of the authentication header")?;
            push_place(fault, words)?;
            words.write_str(" is 0")
        }
        kind::UNSUPPORTED_IP_VERSION if fault.value <= 255 => write!(
            words,
            "the IP version is {}, where 4 or 6 is required",
            fault.value
        ),
        kind::IPV4_HEADER_LENGTH if fault.value <= 255 => write!(
            words,
            "the internet header length of the IPv4 header is {}, where at least 5 is required",
            fault.value
        ),
        _ => Ok(()),
    }
}

/// Appends where the faulty extension header is, unless the error is that of a parsed packet, which doesn't say so.
fn push_place(fault: &FaultFields, words: &mut ArrayString<TEXT_LEN>) -> std::fmt::Result {
    if fault.header == 0 && fault.offset == 0 {
        Ok(())
    } else {
        write!(words, " at offset {}", fault.offset)
    }
}

/// Appends the text of a length error. It names the faulty extension header, if there is one, and otherwise the layer.
fn push_len_words(fault: &FaultFields, words: &mut ArrayString<TEXT_LEN>) -> std::fmt::Result {
    let code = if fault.header == 0 {
        fault.layer
    } else {
        fault.header
    };
    let (Some(_), Some(layer), Some(source)) = (
        layer_with_code(fault.layer),
        layer_with_code(code),
        len_source_of(fault.len_source),
    ) else {
        return Ok(());
    };
    write!(
        words,
        "not enough bytes for {} at offset {}: {} needed, {} there{}",
        layer_words(layer),
        fault.offset,
        fault.required_len,
        fault.len,
        source_words(source)
    )
}

/// Returns what a text calls the layer.
fn layer_words(layer: Layer) -> &'static str {
    match layer {
        Layer::IpHeader => "the IP header",
        Layer::Ipv4Header => "the IPv4 header",
        Layer::Ipv4Packet => "the IPv4 packet",
        Layer::IpAuthHeader => "the authentication header",
        Layer::Ipv6Header => "the IPv6 header",
        Layer::Ipv6Packet => "the IPv6 packet",
        Layer::Ipv6ExtHeader => "the extension header",
        Layer::Ipv6HopByHopHeader => "the hop-by-hop options header",
        Layer::Ipv6DestOptionsHeader => "the destination options header",
        Layer::Ipv6RouteHeader => "the routing header",
        Layer::Ipv6FragHeader => "the fragment header",
        Layer::Icmpv4 => "the ICMP message",
    }
}

/// Returns what a text says about the source of the length; nothing if it is the bytes that were passed.
fn source_words(source: LenSource) -> &'static str {
    match source {
        LenSource::Slice => "",
        LenSource::Ipv4HeaderTotalLen => " by the total length",
        LenSource::Ipv6HeaderPayloadLen => " by the payload length",
    }
}
