//! Headers of serial lines.
ghost use Rattle.std.specs.Prelude.{◌≡◌, ◌+◌, ◌≤◌, length};
ghost use Rattle.ip_frames.specs.Serial.{ppp_protocol, ppp, cisco_hdlc, serial, is_signalling, with_address, frame_relay, identified, multiprotocol, cisco_frame, multilink_frame_relay, direction};

use crate::header::{header, not_ip, truncated, typed};
use crate::protocol_number::{after_nlpid, after_ppp};
use crate::{Announced, HeaderKind, HeaderReading, ProtocolNumber};

/// Returns the protocol number of PPP at the start of `bytes`.
pub(crate) fn ppp_protocol(bytes: &[u8]) -> HeaderReading
    ensures { result ≡ ppp_protocol bytes.now }
{
    if bytes.is_empty() {
        return truncated(1);
    }
    if bytes[0] & 1 != 0 {
        let number = u16::from(bytes[0]);
        return header(
            HeaderKind::PppProtocol,
            1,
            Some(ProtocolNumber::Ppp(number)),
            after_ppp(number),
        );
    }
    if bytes.len() < 2 {
        return truncated(2);
    }
    let number = u16::from_be_bytes([bytes[0], bytes[1]]);
    header(
        HeaderKind::PppProtocol,
        2,
        Some(ProtocolNumber::Ppp(number)),
        after_ppp(number),
    )
}

/// Returns the framing of PPP at the start of `bytes`, or the protocol number if there is none.
pub(crate) fn ppp(bytes: &[u8]) -> HeaderReading
    ensures { result ≡ ppp bytes.now }
{
    if bytes.len() >= 2 && bytes[0] == 0xff && bytes[1] == 3 {
        header(
            HeaderKind::Ppp,
            2,
            None,
            Announced::Header(HeaderKind::PppProtocol),
        )
    } else {
        ppp_protocol(bytes)
    }
}

/// Returns the header of Cisco HDLC at the start of `bytes`.
pub(crate) fn cisco_hdlc(bytes: &[u8]) -> HeaderReading
    ensures { result ≡ cisco_hdlc bytes.now }
{
    if bytes.len() < 4 {
        return truncated(4);
    }
    typed(
        HeaderKind::CiscoHdlc,
        4,
        u16::from_be_bytes([bytes[2], bytes[3]]),
    )
}

/// Returns the header of Cisco HDLC or of PPP at the start of `bytes`.
pub(crate) fn serial(bytes: &[u8]) -> HeaderReading
    ensures { result ≡ serial bytes.now }
{
    if bytes.is_empty() {
        return truncated(1);
    }
    if bytes[0] == 0x0f || bytes[0] == 0x8f {
        cisco_hdlc(bytes)
    } else {
        ppp(bytes)
    }
}

/// Returns whether an address of Frame Relay is DLCI 0.
fn is_signalling(bytes: &[u8]) -> bool
    requires { 2 ≤ length bytes.now }
    ensures { result ≡ is_signalling bytes.now }
{
    bytes[0] & 0xfc == 0 && bytes[1] & 0xf0 == 0
}

/// Returns the address of Frame Relay in the first `len` bytes.
fn with_address(len: usize, bytes: &[u8]) -> HeaderReading
    requires some { 2 ≤ len }
    requires within { len ≤ length bytes.now }
    ensures { result ≡ with_address len bytes.now }
{
    if bytes.len() == len {
        return truncated(len + 1);
    }
    let announced = if bytes[len] == 3 {
        Announced::Header(HeaderKind::Multiprotocol)
    } else if is_signalling(bytes) {
        Announced::Other
    } else {
        Announced::Header(HeaderKind::CiscoFrame)
    };
    header(HeaderKind::FrameRelay, len, None, announced)
}

/// Returns the address of Frame Relay at the start of `bytes`.
pub(crate) fn frame_relay(bytes: &[u8]) -> HeaderReading
    ensures { result ≡ frame_relay bytes.now }
{
    if bytes.len() < 2 {
        return truncated(2);
    }
    if bytes[0] & 1 != 0 {
        return not_ip();
    }
    if bytes[1] & 1 != 0 {
        return with_address(2, bytes);
    }
    if bytes.len() < 3 {
        return truncated(3);
    }
    if bytes[2] & 1 != 0 {
        return with_address(3, bytes);
    }
    if bytes.len() < 4 {
        return truncated(4);
    }
    if bytes[3] & 1 != 0 {
        return with_address(4, bytes);
    }
    not_ip()
}

/// Returns a multiprotocol header of `len` bytes with this identifier.
fn identified(len: usize, nlpid: u8) -> HeaderReading
    ensures { result ≡ identified len nlpid }
{
    header(
        HeaderKind::Multiprotocol,
        len,
        Some(ProtocolNumber::Nlpid(nlpid)),
        after_nlpid(nlpid),
    )
}

/// Returns the multiprotocol header at the start of `bytes`.
pub(crate) fn multiprotocol(bytes: &[u8]) -> HeaderReading
    ensures { result ≡ multiprotocol bytes.now }
{
    if bytes.len() < 2 {
        return truncated(2);
    }
    if bytes[1] != 0 {
        return identified(2, bytes[1]);
    }
    if bytes.len() < 3 {
        return truncated(3);
    }
    identified(3, bytes[2])
}

/// Returns the EtherType of Cisco's Frame Relay at the start of `bytes`.
pub(crate) fn cisco_frame(bytes: &[u8]) -> HeaderReading
    ensures { result ≡ cisco_frame bytes.now }
{
    if bytes.len() < 2 {
        return truncated(2);
    }
    typed(
        HeaderKind::CiscoFrame,
        2,
        u16::from_be_bytes([bytes[0], bytes[1]]),
    )
}

/// Returns the header of multilink Frame Relay at the start of `bytes`.
pub(crate) fn multilink_frame_relay(bytes: &[u8]) -> HeaderReading
    ensures { result ≡ multilink_frame_relay bytes.now }
{
    if bytes.len() < 2 {
        return truncated(2);
    }
    let announced = if bytes[0] & 0xa0 == 0x80 {
        Announced::Header(HeaderKind::FrameRelay)
    } else {
        Announced::Other
    };
    header(HeaderKind::MultilinkFrameRelay, 2, None, announced)
}

/// Returns the `len` bytes before a header of kind `next`.
pub(crate) fn direction(
    kind: HeaderKind,
    len: usize,
    next: HeaderKind,
    bytes: &[u8],
) -> HeaderReading
    ensures { result ≡ direction kind len next bytes.now }
{
    if bytes.len() < len {
        return truncated(len);
    }
    header(kind, len, None, Announced::Header(next))
}
