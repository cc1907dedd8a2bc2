//! Headers of radio networks.
ghost use Rattle.std.specs.Prelude.{◌≡◌, ◌≤◌, length};
ghost use Rattle.ip_frames.specs.Radio.{frame_type, is_plain_data, addresses_end, data_header_len, has_several, ieee80211, sized_header, radiotap, after_link_type, ppi};

use crate::header::{header, not_ip, truncated};
use crate::{Announced, FrameEnd, HeaderKind, HeaderReading, ProtocolNumber};

/// Returns the type of an 802.11 frame.
fn frame_type(bytes: &[u8]) -> Option<ProtocolNumber>
    requires { 2 ≤ length bytes.now }
    ensures { result ≡ frame_type bytes.now }
{
    let number = 16 * (bytes[0] / 4 % 4) + bytes[0] / 16;
    Some(ProtocolNumber::Ieee80211(number))
}

/// Returns whether a frame has data that isn't protected.
fn is_plain_data(bytes: &[u8]) -> bool
    requires { 2 ≤ length bytes.now }
    ensures { result ≡ is_plain_data bytes.now }
{
    bytes[0] & 0x4f == 8 && bytes[1] & 0x40 == 0
}

/// Returns where the addresses of a data frame end.
fn addresses_end(bytes: &[u8]) -> usize
    requires { 2 ≤ length bytes.now }
    ensures { result ≡ addresses_end bytes.now }
{
    if bytes[1] & 3 == 3 { 30 } else { 24 }
}

/// Returns the length of the header of a data frame.
fn data_header_len(bytes: &[u8]) -> usize
    requires { 2 ≤ length bytes.now }
    ensures { result ≡ data_header_len bytes.now }
{
    let end = addresses_end(bytes);
    if bytes[0] & 0x80 == 0 {
        end
    } else if bytes[1] & 0x80 != 0 {
        end + 6
    } else {
        end + 2
    }
}

/// Returns whether a data frame has several frames of other networks.
fn has_several(bytes: &[u8]) -> bool
    requires { data_header_len bytes.now ≤ length bytes.now }
    ensures { result ≡ has_several bytes.now }
{
    bytes[0] & 0x80 != 0 && bytes[addresses_end(bytes)] & 0x80 != 0
}

/// Returns the 802.11 header at the start of `bytes`, if an LLC frame follows it.
pub(crate) fn ieee80211(bytes: &[u8]) -> HeaderReading
    ensures { result ≡ ieee80211 bytes.now }
{
    if bytes.len() < 2 {
        return truncated(2);
    }
    let number = frame_type(bytes);
    if !is_plain_data(bytes) {
        return HeaderReading::End(FrameEnd::NotIp, number);
    }
    let len = data_header_len(bytes);
    if bytes.len() < len {
        return truncated(len);
    }
    if bytes[22] & 0x0f != 0 || has_several(bytes) {
        return HeaderReading::End(FrameEnd::NotIp, number);
    }
    header(
        HeaderKind::Ieee80211,
        len,
        number,
        Announced::Header(HeaderKind::Llc),
    )
}

/// Returns a header at the start of `bytes` that states its length.
fn sized_header(kind: HeaderKind, announced: Announced, bytes: &[u8]) -> HeaderReading
    requires { 8 ≤ length bytes.now }
    ensures { result ≡ sized_header kind announced bytes.now }
{
    let len = usize::from(u16::from_le_bytes([bytes[2], bytes[3]]));
    if bytes[0] != 0 || len < 8 {
        return not_ip();
    }
    if bytes.len() < len {
        return truncated(len);
    }
    header(kind, len, None, announced)
}

/// Returns the radiotap header at the start of `bytes`.
pub(crate) fn radiotap(bytes: &[u8]) -> HeaderReading
    ensures { result ≡ radiotap bytes.now }
{
    if bytes.len() < 8 {
        return truncated(8);
    }
    sized_header(
        HeaderKind::Radiotap,
        Announced::Header(HeaderKind::Ieee80211),
        bytes,
    )
}

/// Returns what follows a link type in per-packet information.
fn after_link_type(link_type: u32) -> Announced
    ensures { result ≡ after_link_type link_type }
{
    match link_type {
        105 => Announced::Header(HeaderKind::Ieee80211),
        1 => Announced::Header(HeaderKind::Ethernet),
        _ => Announced::Other,
    }
}

/// Returns the per-packet information at the start of `bytes`.
pub(crate) fn ppi(bytes: &[u8]) -> HeaderReading
    ensures { result ≡ ppi bytes.now }
{
    if bytes.len() < 8 {
        return truncated(8);
    }
    let link_type = u32::from_le_bytes([bytes[4], bytes[5], bytes[6], bytes[7]]);
    sized_header(HeaderKind::Ppi, after_link_type(link_type), bytes)
}
