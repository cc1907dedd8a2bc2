//! Which fragment a packet is, read byte by byte.
ghost use Rattle.std.specs.Prelude.{◌≡◌, ◌≤◌, map, slice_index};
ghost use Rattle.std.specs.List.{find};
ghost use Rattle.std.specs.Option.{option_map};
ghost use Rattle.ip_spec.specs.Fields.{fragment_fields, is_fragmenting};
ghost use Rattle.ip_dissect.specs.LaterDemand.{has_later, is_later};
ghost use Rattle.ip_dissect.specs.Fragment.{fragment_of, fragment_with, fragments, is_fragment_header};
ghost use Rattle.ip_dissect.specs.Fragment.{kind_of, ipv6_fragment};
ghost use Rattle.check_reference.specs.PlainHeader.{plain_header_of};

use crate::chain::PlainHeader;
use ip_dissect::{Fragment, FragmentKind};

/// Returns which fragment an IPv6 packet with these headers is.
pub(crate) fn plain_fragment(headers: &[PlainHeader<'_>]) -> Option<Fragment>
    ensures { result ≡ ipv6_fragment (map plain_header_of headers.now) }
{
    match first_fragmenting(headers) {
        Some(fragment) => Some(fragment),
        None => first_fragment(headers),
    }
}

/// Returns the fragment of the first fragment header that fragments the payload.
fn first_fragmenting(headers: &[PlainHeader<'_>]) -> Option<Fragment>
    ensures { result ≡ option_map fragment_of (find fragments (map plain_header_of headers.now)) }
{
    match headers {
        [] => None,
        [first, rest @ ..] => {
            if first.number == 44 && is_fragmenting(first.bytes) {
                Some(fragment_of(first.bytes))
            } else {
                first_fragmenting(rest)
            }
        }
    }
}

/// Returns the fragment of the first fragment header.
fn first_fragment(headers: &[PlainHeader<'_>]) -> Option<Fragment>
    ensures { result
        ≡ option_map fragment_of (find is_fragment_header (map plain_header_of headers.now)) }
{
    match headers {
        [] => None,
        [first, _rest @ ..] if first.number == 44 => Some(fragment_of(first.bytes)),
        [_, rest @ ..] => first_fragment(rest),
    }
}

/// Returns whether a header among these is a later fragment's.
pub(crate) fn has_later(headers: &[PlainHeader<'_>]) -> bool
    ensures { result ≡ has_later (map plain_header_of headers.now) }
{
    match headers {
        [] => false,
        [first, rest @ ..] => is_later(first.number, first.bytes) || has_later(rest),
    }
}

/// Returns whether the bytes are a fragment header with an offset other than 0 (RFC 8200, section 4.5).
pub(crate) fn is_later(number: u8, header: &[u8]) -> bool
    ensures { result ≡ is_later (record { number = number; bytes = header.now }) }
{
    number == 44 && fragment_offset(header) != 0
}

/// Returns the fragment of a fragment header (RFC 8200, section 4.5).
fn fragment_of(header: &[u8]) -> Fragment
    ensures { result ≡ fragment_with (fragment_fields header.now).identification
        (fragment_fields header.now).more_fragments (fragment_fields header.now).fragment_offset }
{
    let identification = u32::from_be_bytes([
        byte_at(header, 4),
        byte_at(header, 5),
        byte_at(header, 6),
        byte_at(header, 7),
    ]);
    let more_fragments = byte_at(header, 3) & 0x01 != 0;
    fragment_with(identification, more_fragments, fragment_offset(header))
}

/// Returns the fragment with this flag and this offset, in units of 8 bytes.
pub(crate) fn fragment_with(identification: u32, more_fragments: bool, offset: u16) -> Fragment
    requires { offset ≤ 8191 }
    ensures { result ≡ fragment_with identification more_fragments offset }
{
    Fragment {
        identification,
        offset: 8 * offset,
        kind: kind_of(more_fragments, offset),
    }
}

/// Returns the kind of the fragment.
fn kind_of(more_fragments: bool, offset: u16) -> FragmentKind
    ensures { result ≡ kind_of more_fragments offset }
{
    match (offset == 0, more_fragments) {
        (true, false) => FragmentKind::Atomic,
        (true, true) => FragmentKind::First,
        (false, true) => FragmentKind::Middle,
        (false, false) => FragmentKind::Last,
    }
}

/// Returns whether a fragment header's offset isn't 0 or its more fragments flag is set (RFC 8200, section 4.5).
pub(crate) fn is_fragmenting(header: &[u8]) -> bool
    ensures { result ≡ is_fragmenting header.now }
{
    byte_at(header, 3) & 0x01 != 0 || fragment_offset(header) != 0
}

/// Returns the fragment offset of a fragment header, in units of 8 bytes.
pub(crate) fn fragment_offset(header: &[u8]) -> u16
    ensures value { result ≡ (fragment_fields header.now).fragment_offset }
    ensures fits { result ≤ 8191 }
{
    32 * u16::from(byte_at(header, 2)) + u16::from(byte_at(header, 3) & 0xf8) / 8
}

/// Returns the byte at the index, or 0 after the end.
fn byte_at(bytes: &[u8], index: usize) -> u8
    ensures { result ≡ slice_index bytes.now index }
{
    if index < bytes.len() { bytes[index] } else { 0 }
}
