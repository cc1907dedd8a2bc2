//! Whole packets from the headers of their first fragments.
ghost use Rattle.std.specs.Prelude.{nat_lt, ◌≡◌, ◌+◌, ◌-◌, ◌≤◌, ◌<◌, ◌^◌, ◌++◌, length, drop, None, Some, IfOk, OnOk, OnErr, true};
ghost use Rattle.std.specs.Result.{result_err};
ghost use Rattle.ip_base.specs.Ipv4Header.{version};
ghost use Rattle.ip_defragmenter.specs.Ecn.{with_congestion, marked};
ghost use Rattle.ip_defragmenter.specs.Whole.{ipv4_whole, ipv6_whole, whole_headers, whole_packet, whole_fault, are_headers, stated_by};

use crate::WholeError;
use ip_base::{IpNumber, internet_checksum, put_word};

/// Makes the base header of an IPv4 packet's first fragment that of the whole packet, whose payload has this length: sets
/// the total length, clears the more fragments flag and the offset, and computes the checksum (RFC 791, section 3.1).
fn complete_ipv4(header: &mut [u8], payload_len: usize)
    requires header { 20 ≤ length header.old }
    requires fits { length header.old + payload_len ≤ 65535 }
    ensures { header.new ≡ ipv4_whole header.old payload_len }
{
    let total_len = (header.len() + payload_len) as u16;
    put_word(header, 2, total_len);
    header[6] &= 0xc0;
    header[7] = 0;
    put_word(header, 10, 0);
    let sum = internet_checksum(header);
    put_word(header, 10, sum);
}

/// Makes the headers of an IPv6 packet's first fragment, up to its fragment header, those of the whole packet, whose
/// payload after them has this length: sets the payload length, and in the last of the headers the number of what follows
/// (RFC 8200, section 4.5).
fn complete_ipv6(headers: &mut [u8], link: usize, next_header: IpNumber, payload_len: usize)
    requires header { 40 ≤ length headers.old }
    requires link { link < length headers.old }
    requires fits { length headers.old - 40 + payload_len ≤ 65535 }
    ensures { headers.new ≡ ipv6_whole headers.old link next_header.0 payload_len }
{
    let payload_length = (headers.len() - 40 + payload_len) as u16;
    put_word(headers, 4, payload_length);
    headers[link] = next_header.0;
}

/// Returns the IP version of a header, 0 if there are no bytes.
#[inline(always)]
fn version_of(headers: &[u8]) -> u8
    ensures { result ≡ version headers.now }
{
    match headers.first() {
        Some(byte) => *byte / 16,
        None => 0,
    }
}

/// Returns whether headers begin with a base header, and in IPv6 have a byte at the offset `link`.
#[inline(always)]
pub(crate) fn are_headers(headers: &[u8], link: usize) -> bool
    ensures { result ≡ are_headers headers.now link }
{
    match version_of(headers) {
        4 => headers.len() >= 20,
        6 => headers.len() >= 40 && link < headers.len(),
        _ => false,
    }
}

/// Returns whether the length field can't state the length of a packet with these headers and a payload of this length.
#[inline(always)]
pub(crate) fn is_too_long(headers: &[u8], payload_len: usize) -> bool
    ensures { result ≡ nat_lt 65535 (stated_by headers.now payload_len) }
{
    let headers_len = if version_of(headers) == 4 {
        headers.len()
    } else {
        headers.len().saturating_sub(40)
    };
    headers_len.saturating_add(payload_len) > 65535
}

/// Returns why no whole packet can be made of these headers and a payload of this length, in a buffer of `room` bytes.
fn test(headers: &[u8], link: usize, payload_len: usize, room: usize) -> Result<(), WholeError>
    requires { length headers.now + payload_len < 2 ^ 64 }
    ensures fault { result_err result ≡ whole_fault headers.now link payload_len room }
    ensures headers { OnOk result (are_headers headers.now link ≡ true) }
    ensures fits { OnOk result (stated_by headers.now payload_len ≤ 65535) }
    ensures room { OnOk result (length headers.now + payload_len ≤ room) }
{
    if !are_headers(headers, link) {
        return Err(WholeError::Headers);
    }
    if is_too_long(headers, payload_len) {
        return Err(WholeError::TooLong);
    }
    if headers.len() + payload_len > room {
        return Err(WholeError::NoRoom);
    }
    Ok(())
}

/// Makes the headers of a packet's first fragment those of the whole packet.
fn complete(headers: &mut [u8], link: usize, next_header: IpNumber, payload_len: usize)
    requires headers { are_headers headers.old link ≡ true }
    requires fits { stated_by headers.old payload_len ≤ 65535 }
    ensures { headers.new ≡ whole_headers headers.old link next_header.0 payload_len }
{
    if version_of(headers) == 4 {
        complete_ipv4(headers, payload_len);
    } else {
        complete_ipv6(headers, link, next_header, payload_len);
    }
}

/// Sets the ECN code point of a base header to CE, which stands for congestion (RFC 3168, section 5).
#[inline(always)]
fn put_congestion(headers: &mut [u8])
    requires { 1 < length headers.old }
    ensures { headers.new ≡ with_congestion headers.old }
{
    headers[1] |= if version_of(headers) == 4 { 0x03 } else { 0x30 };
}

/// Copies bytes to the start of a buffer.
#[inline(always)]
pub(crate) fn put_front(buffer: &mut [u8], bytes: &[u8])
    requires { length bytes.now ≤ length buffer.old }
    ensures { buffer.new ≡ bytes.now ++ drop (length bytes.now) buffer.old }
{
    buffer[..bytes.len()].copy_from_slice(bytes);
}

/// Makes the headers of a packet's first fragment those of the whole packet, with the mark of congestion if a fragment had
/// it.
fn complete_marked(
    headers: &mut [u8],
    link: usize,
    next_header: IpNumber,
    congested: bool,
    payload_len: usize,
)
    requires headers { are_headers headers.old link ≡ true }
    requires fits { stated_by headers.old payload_len ≤ 65535 }
    ensures { headers.new ≡ whole_headers (marked congested headers.old) link next_header.0 payload_len }
{
    if congested {
        put_congestion(headers);
    }
    complete(headers, link, next_header, payload_len);
}

/// Writes a whole packet to the start of `out`, from its payload and the `headers`, `link` and `next_header` of its first
/// fragment. Returns its length in bytes.
///
/// The packet has the headers up to the fragment header, which name what the fragment header named, with the length of the
/// whole packet; in IPv4 also without the more fragments flag and with the header's checksum. If a fragment was
/// `congested`, the packet has the ECN code point CE (RFC 3168, section 5.3). Returns an error and leaves `out` as it is if
/// the headers are no headers of a fragment, the packet would be longer than its length field can state, or `out` is too
/// short.
pub fn write_packet(
    headers: &[u8],
    link: usize,
    next_header: IpNumber,
    congested: bool,
    payload: &[u8],
    out: &mut [u8],
) -> Result<usize, WholeError>
    ensures fault { result_err result
        ≡ whole_fault headers.now link (length payload.now) (length out.old) }
    ensures len { IfOk result (λ n. n ≡ length headers.now + length payload.now) }
    ensures within { IfOk result (λ n. n ≤ length out.old) }
    ensures written { IfOk result (λ n. out.new
        ≡ whole_packet (marked congested headers.now) link next_header.0 payload.now ++ drop n out.old) }
    ensures stays { OnErr result (out.new ≡ out.old) }
{
    match test(headers, link, payload.len(), out.len()) {
        Ok(()) => {
            let (front, rest) = out.split_at_mut(headers.len());
            front.copy_from_slice(headers);
            complete_marked(front, link, next_header, congested, payload.len());
            put_front(rest, payload);
            Ok(headers.len() + payload.len())
        }
        Err(error) => Err(error),
    }
}
