//! Juniper's headers.
ghost use Rattle.std.specs.Prelude.{◌≡◌, ◌≤◌, ◌<◌, ◌^◌, length};
ghost use Rattle.ip_frames.specs.Juniper.{is_juniper, after_extensions, juniper, has_snap_at_4, juniper_cookie};

use crate::header::{header, not_ip, truncated};
use crate::{Announced, HeaderKind, HeaderReading, ProtocolNumber};

/// Returns the part of Juniper's header after the extensions, of which the header has `len` bytes so far.
fn after_extensions(kind: HeaderKind, len: usize, next: HeaderKind, bytes: &[u8]) -> HeaderReading
    requires flags { 4 ≤ length bytes.now }
    requires len { len < 2 ^ 32 }
    ensures { result ≡ after_extensions kind len next bytes.now }
{
    if bytes[3] & 2 != 0 {
        if bytes.len() < len + 4 {
            return truncated(len + 4);
        }
        return header(kind, len + 4, None, Announced::IpByVersion);
    }
    if bytes.len() < len {
        return truncated(len);
    }
    header(kind, len, None, Announced::Header(next))
}

/// Returns Juniper's header at the start of `bytes`, before a header of kind `next`.
pub(crate) fn juniper(kind: HeaderKind, next: HeaderKind, bytes: &[u8]) -> HeaderReading
    ensures { result ≡ juniper kind next bytes.now }
{
    if bytes.len() < 4 {
        return truncated(4);
    }
    if bytes[0] != b'M' || bytes[1] != b'G' || bytes[2] != b'C' {
        return not_ip();
    }
    if bytes[3] & 0x80 == 0 {
        return after_extensions(kind, 4, next, bytes);
    }
    if bytes.len() < 6 {
        return truncated(6);
    }
    let extensions_len = usize::from(u16::from_be_bytes([bytes[4], bytes[5]]));
    after_extensions(kind, 6 + extensions_len, next, bytes)
}

/// Returns whether bytes 4 to 6 are those of LLC before SNAP.
fn has_snap_at_4(bytes: &[u8]) -> bool
    ensures { result ≡ has_snap_at_4 bytes.now }
{
    bytes.len() >= 7 && bytes[4] == 0xaa && bytes[5] == 0xaa && bytes[6] == 3
}

/// Returns the cookie of Juniper's first ATM card at the start of `bytes`.
pub(crate) fn juniper_cookie(bytes: &[u8]) -> HeaderReading
    ensures { result ≡ juniper_cookie bytes.now }
{
    if bytes.len() < 4 {
        return truncated(4);
    }
    if bytes[0] == 0x80 {
        return header(HeaderKind::JuniperCookie, 4, None, Announced::Other);
    }
    if bytes.len() < 5 {
        return truncated(5);
    }
    let announced = if has_snap_at_4(bytes) {
        Announced::Header(HeaderKind::Llc)
    } else {
        Announced::IpByVersion
    };
    header(
        HeaderKind::JuniperCookie,
        4,
        Some(ProtocolNumber::Llc(bytes[4])),
        announced,
    )
}
