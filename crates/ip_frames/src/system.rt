//! Headers that a capturing system writes.
ghost use Rattle.std.specs.Prelude.{◌≡◌};
ghost use Rattle.ip_frames.specs.System.{cooked, cooked_v2, loopback, ipnet, nflog, nflog_attribute, slip};

use crate::header::{header, not_ip, truncated, typed};
use crate::protocol_number::{after_family, after_nflog_family, after_solaris_family};
use crate::{Announced, HeaderKind, HeaderReading, ProtocolNumber};

/// The type of the attribute of a netfilter log that has the packet.
const PAYLOAD: u16 = 9;

/// Returns the header of a Linux cooked capture at the start of `bytes`.
pub(crate) fn cooked(bytes: &[u8]) -> HeaderReading
    ensures { result ≡ cooked bytes.now }
{
    if bytes.len() < 16 {
        return truncated(16);
    }
    typed(
        HeaderKind::Cooked,
        16,
        u16::from_be_bytes([bytes[14], bytes[15]]),
    )
}

/// Returns the header of version 2 of a Linux cooked capture at the start of `bytes`.
pub(crate) fn cooked_v2(bytes: &[u8]) -> HeaderReading
    ensures { result ≡ cooked_v2 bytes.now }
{
    if bytes.len() < 20 {
        return truncated(20);
    }
    typed(
        HeaderKind::CookedV2,
        20,
        u16::from_be_bytes([bytes[0], bytes[1]]),
    )
}

/// Returns the BSD loopback header at the start of `bytes`.
pub(crate) fn loopback(bytes: &[u8]) -> HeaderReading
    ensures { result ≡ loopback bytes.now }
{
    if bytes.len() < 4 {
        return truncated(4);
    }
    let field = [bytes[0], bytes[1], bytes[2], bytes[3]];
    let family = u32::from_be_bytes(field).min(u32::from_le_bytes(field));
    header(
        HeaderKind::Loopback,
        4,
        Some(ProtocolNumber::Family(family)),
        after_family(family),
    )
}

/// Returns the header of Solaris ipnet at the start of `bytes`.
pub(crate) fn ipnet(bytes: &[u8]) -> HeaderReading
    ensures { result ≡ ipnet bytes.now }
{
    if bytes.len() < 24 {
        return truncated(24);
    }
    let number = Some(ProtocolNumber::Family(u32::from(bytes[1])));
    header(
        HeaderKind::Ipnet,
        24,
        number,
        after_solaris_family(bytes[1]),
    )
}

/// Returns the header of a netfilter log at the start of `bytes`.
pub(crate) fn nflog(bytes: &[u8]) -> HeaderReading
    ensures { result ≡ nflog bytes.now }
{
    if bytes.len() < 4 {
        return truncated(4);
    }
    if bytes[1] != 0 {
        return header(HeaderKind::Nflog, 4, None, Announced::Other);
    }
    let number = Some(ProtocolNumber::Family(u32::from(bytes[0])));
    header(HeaderKind::Nflog, 4, number, after_nflog_family(bytes[0]))
}

/// Returns the attribute of a netfilter log at the start of `bytes`; of the packet's attribute only what precedes the packet.
pub(crate) fn nflog_attribute(bytes: &[u8]) -> HeaderReading
    ensures { result ≡ nflog_attribute bytes.now }
{
    if bytes.len() < 4 {
        return truncated(4);
    }
    let len = u16::from_le_bytes([bytes[0], bytes[1]]);
    if len < 4 {
        return not_ip();
    }
    if u16::from_le_bytes([bytes[2], bytes[3]]) == PAYLOAD {
        return header(HeaderKind::NflogAttribute, 4, None, Announced::Ip);
    }
    let padded_len = 4 * ((usize::from(len) + 3) / 4);
    if bytes.len() < padded_len {
        return truncated(padded_len);
    }
    header(
        HeaderKind::NflogAttribute,
        padded_len,
        None,
        Announced::Header(HeaderKind::NflogAttribute),
    )
}

/// Returns libpcap's header of Serial Line IP at the start of `bytes`.
pub(crate) fn slip(bytes: &[u8]) -> HeaderReading
    ensures { result ≡ slip bytes.now }
{
    if bytes.len() < 16 {
        return truncated(16);
    }
    header(HeaderKind::Slip, 16, None, Announced::Ip)
}
