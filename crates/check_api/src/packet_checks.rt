//! Checks of base headers, of packets and of their errors, like those of extension headers (`checks.rt`).
ghost use Rattle.std.specs.Prelude.{◌≡◌, ◌↔◌, IsTrue, IsFalse, IfOk};
ghost use Rattle.ip_base.specs.Ipv4HeaderSlice as ipv4_header;
ghost use Rattle.ip_base.specs.Ipv6HeaderSlice as ipv6_header;
ghost use Rattle.etherparse_ip.specs.Ipv4Slice.{ipv4_parts};
ghost use Rattle.etherparse_ip.specs.Ipv6Slice.{ipv6_parts};
ghost use Rattle.etherparse_ip.specs.IpSlice.{ip_parts, AreSame};

use etherparse_ip::err::{LenError, ip, ip_auth, ipv4, ipv6, ipv6_exts};
use etherparse_ip::{
    IpPayloadSlice, IpSlice, Ipv4Header, Ipv4HeaderSlice, Ipv4Slice, Ipv6Header, Ipv6HeaderSlice,
    Ipv6Slice,
};
use std::alloc::AllocError;

const _: () = prove!(Ipv4Header::MIN_LEN == 20);

const _: () = prove!(Ipv6Header::LEN == 40);

/// Returns whether two content errors of an IPv4 base header are equal, and a copy of the first.
pub fn ipv4_header_error(
    a: &ipv4::HeaderError,
    b: &ipv4::HeaderError,
) -> Result<(bool, ipv4::HeaderError), AllocError>
    ensures same { IfOk result (λ r. IsTrue r.0 ↔ (a.now ≡ b.now)) }
    ensures copy { IfOk result (λ r. r.1 ≡ a.now) }
{
    Ok((a == b, a.clone()?))
}

/// Returns whether two content errors of an IPv6 base header are equal, and a copy of the first.
pub fn ipv6_header_error(
    a: &ipv6::HeaderError,
    b: &ipv6::HeaderError,
) -> Result<(bool, ipv6::HeaderError), AllocError>
    ensures same { IfOk result (λ r. IsTrue r.0 ↔ (a.now ≡ b.now)) }
    ensures copy { IfOk result (λ r. r.1 ≡ a.now) }
{
    Ok((a == b, a.clone()?))
}

/// Returns whether two content errors of a base header of either IP version are equal, and a copy of the first.
pub fn ip_header_error(
    a: &ip::HeaderError,
    b: &ip::HeaderError,
) -> Result<(bool, ip::HeaderError), AllocError>
    ensures same { IfOk result (λ r. IsTrue r.0 ↔ (a.now ≡ b.now)) }
    ensures copy { IfOk result (λ r. r.1 ≡ a.now) }
{
    Ok((a == b, a.clone()?))
}

/// Returns whether two content errors of a packet's headers are equal, and a copy of the first.
pub fn headers_error(
    a: &ip::HeadersError,
    b: &ip::HeadersError,
) -> Result<(bool, ip::HeadersError), AllocError>
    ensures same { IfOk result (λ r. IsTrue r.0 ↔ (a.now ≡ b.now)) }
    ensures copy { IfOk result (λ r. r.1 ≡ a.now) }
{
    Ok((a == b, a.clone()?))
}

/// Returns whether two length errors of an IPv4 base header are equal.
pub fn ipv4_header_slice_error_of_len(a: LenError, b: LenError) -> bool
    ensures { IsTrue result ↔ (a ≡ b) }
{
    ipv4::HeaderSliceError::Len(a) == ipv4::HeaderSliceError::Len(b)
}

/// Returns whether two content errors of an IPv4 base header are equal.
pub fn ipv4_header_slice_error_of_content(a: ipv4::HeaderError, b: ipv4::HeaderError) -> bool
    ensures { IsTrue result ↔ (a ≡ b) }
{
    ipv4::HeaderSliceError::Content(a) == ipv4::HeaderSliceError::Content(b)
}

/// Returns whether a length error of an IPv4 base header is equal to a content error.
pub fn ipv4_header_slice_errors_differ(a: LenError, b: ipv4::HeaderError) -> bool
    ensures { IsFalse result }
{
    ipv4::HeaderSliceError::Len(a) == ipv4::HeaderSliceError::Content(b)
}

/// Returns a copy of an error of an IPv4 base header.
pub fn ipv4_header_slice_error_copy(
    e: &ipv4::HeaderSliceError,
) -> Result<ipv4::HeaderSliceError, AllocError>
    ensures { IfOk result (λ copy. copy ≡ e.now) }
{
    e.clone()
}

/// Returns whether two length errors of an IPv6 base header are equal.
pub fn ipv6_header_slice_error_of_len(a: LenError, b: LenError) -> bool
    ensures { IsTrue result ↔ (a ≡ b) }
{
    ipv6::HeaderSliceError::Len(a) == ipv6::HeaderSliceError::Len(b)
}

/// Returns whether two content errors of an IPv6 base header are equal.
pub fn ipv6_header_slice_error_of_content(a: ipv6::HeaderError, b: ipv6::HeaderError) -> bool
    ensures { IsTrue result ↔ (a ≡ b) }
{
    ipv6::HeaderSliceError::Content(a) == ipv6::HeaderSliceError::Content(b)
}

/// Returns whether a length error of an IPv6 base header is equal to a content error.
pub fn ipv6_header_slice_errors_differ(a: LenError, b: ipv6::HeaderError) -> bool
    ensures { IsFalse result }
{
    ipv6::HeaderSliceError::Len(a) == ipv6::HeaderSliceError::Content(b)
}

/// Returns a copy of an error of an IPv6 base header.
pub fn ipv6_header_slice_error_copy(
    e: &ipv6::HeaderSliceError,
) -> Result<ipv6::HeaderSliceError, AllocError>
    ensures { IfOk result (λ copy. copy ≡ e.now) }
{
    e.clone()
}

/// Returns whether two length errors of an IPv4 packet are equal.
pub fn ipv4_slice_error_of_len(a: LenError, b: LenError) -> bool
    ensures { IsTrue result ↔ (a ≡ b) }
{
    ipv4::SliceError::Len(a) == ipv4::SliceError::Len(b)
}

/// Returns whether two errors of an IPv4 packet for the base header's bytes are equal.
pub fn ipv4_slice_error_of_header(a: ipv4::HeaderError, b: ipv4::HeaderError) -> bool
    ensures { IsTrue result ↔ (a ≡ b) }
{
    ipv4::SliceError::Header(a) == ipv4::SliceError::Header(b)
}

/// Returns whether two errors of an IPv4 packet for the extension headers' bytes are equal.
pub fn ipv4_slice_error_of_exts(a: ip_auth::HeaderError, b: ip_auth::HeaderError) -> bool
    ensures { IsTrue result ↔ (a ≡ b) }
{
    ipv4::SliceError::Exts(a) == ipv4::SliceError::Exts(b)
}

/// Returns whether errors of an IPv4 packet of different variants are equal.
pub fn ipv4_slice_errors_differ(a: LenError, b: ipv4::HeaderError, c: ip_auth::HeaderError) -> bool
    ensures { IsFalse result }
{
    let len = ipv4::SliceError::Len(a);
    let header = ipv4::SliceError::Header(b);
    let exts = ipv4::SliceError::Exts(c);
    len == header || len == exts || header == exts
}

/// Returns a copy of an error of an IPv4 packet.
pub fn ipv4_slice_error_copy(e: &ipv4::SliceError) -> Result<ipv4::SliceError, AllocError>
    ensures { IfOk result (λ copy. copy ≡ e.now) }
{
    e.clone()
}

/// Returns whether two length errors of an IPv6 packet are equal.
pub fn ipv6_slice_error_of_len(a: LenError, b: LenError) -> bool
    ensures { IsTrue result ↔ (a ≡ b) }
{
    ipv6::SliceError::Len(a) == ipv6::SliceError::Len(b)
}

/// Returns whether two errors of an IPv6 packet for the base header's bytes are equal.
pub fn ipv6_slice_error_of_header(a: ipv6::HeaderError, b: ipv6::HeaderError) -> bool
    ensures { IsTrue result ↔ (a ≡ b) }
{
    ipv6::SliceError::Header(a) == ipv6::SliceError::Header(b)
}

/// Returns whether two errors of an IPv6 packet for the extension headers' bytes are equal.
pub fn ipv6_slice_error_of_exts(a: ipv6_exts::HeaderError, b: ipv6_exts::HeaderError) -> bool
    ensures { IsTrue result ↔ (a ≡ b) }
{
    ipv6::SliceError::Exts(a) == ipv6::SliceError::Exts(b)
}

/// Returns whether errors of an IPv6 packet of different variants are equal.
pub fn ipv6_slice_errors_differ(
    a: LenError,
    b: ipv6::HeaderError,
    c: ipv6_exts::HeaderError,
) -> bool
    ensures { IsFalse result }
{
    let len = ipv6::SliceError::Len(a);
    let header = ipv6::SliceError::Header(b);
    let exts = ipv6::SliceError::Exts(c);
    len == header || len == exts || header == exts
}

/// Returns a copy of an error of an IPv6 packet.
pub fn ipv6_slice_error_copy(e: &ipv6::SliceError) -> Result<ipv6::SliceError, AllocError>
    ensures { IfOk result (λ copy. copy ≡ e.now) }
{
    e.clone()
}

/// Returns whether two length errors of a packet of either IP version are equal.
pub fn ip_slice_error_of_len(a: LenError, b: LenError) -> bool
    ensures { IsTrue result ↔ (a ≡ b) }
{
    ip::SliceError::Len(a) == ip::SliceError::Len(b)
}

/// Returns whether two errors of a packet of either IP version for its headers' bytes are equal.
pub fn ip_slice_error_of_content(a: ip::HeadersError, b: ip::HeadersError) -> bool
    ensures { IsTrue result ↔ (a ≡ b) }
{
    ip::SliceError::IpHeaders(a) == ip::SliceError::IpHeaders(b)
}

/// Returns whether a length error of a packet of either IP version is equal to one for its headers' bytes.
pub fn ip_slice_errors_differ(a: LenError, b: ip::HeadersError) -> bool
    ensures { IsFalse result }
{
    ip::SliceError::Len(a) == ip::SliceError::IpHeaders(b)
}

/// Returns a copy of an error of a packet of either IP version.
pub fn ip_slice_error_copy(e: &ip::SliceError) -> Result<ip::SliceError, AllocError>
    ensures { IfOk result (λ copy. copy ≡ e.now) }
{
    e.clone()
}

/// Returns whether two IPv4 base headers are equal, and a copy of the first.
pub fn ipv4_headers<'a>(
    a: &Ipv4HeaderSlice<'a>,
    b: &Ipv4HeaderSlice<'_>,
) -> Result<(bool, Ipv4HeaderSlice<'a>), AllocError>
    ensures same { IfOk result (λ r.
        IsTrue r.0 ↔ (ipv4_header.bytes a.now ≡ ipv4_header.bytes b.now)) }
    ensures copy { IfOk result (λ r. ipv4_header.bytes r.1 ≡ ipv4_header.bytes a.now) }
{
    Ok((a == b, a.clone()?))
}

/// Returns whether two IPv6 base headers are equal, and a copy of the first.
pub fn ipv6_headers<'a>(
    a: &Ipv6HeaderSlice<'a>,
    b: &Ipv6HeaderSlice<'_>,
) -> Result<(bool, Ipv6HeaderSlice<'a>), AllocError>
    ensures same { IfOk result (λ r.
        IsTrue r.0 ↔ (ipv6_header.bytes a.now ≡ ipv6_header.bytes b.now)) }
    ensures copy { IfOk result (λ r. ipv6_header.bytes r.1 ≡ ipv6_header.bytes a.now) }
{
    Ok((a == b, a.clone()?))
}

/// Returns whether two payloads are equal, and a copy of the first.
pub fn payloads<'a>(
    a: &IpPayloadSlice<'a>,
    b: &IpPayloadSlice<'_>,
) -> Result<(bool, IpPayloadSlice<'a>), AllocError>
    ensures same { IfOk result (λ r. IsTrue r.0 ↔ ((a.now.ip_number ≡ b.now.ip_number)
        × (a.now.fragmented ≡ b.now.fragmented) × (a.now.len_source ≡ b.now.len_source)
        × (a.now.payload.now ≡ b.now.payload.now))) }
    ensures copy { IfOk result (λ r. r.1 ≡ a.now) }
{
    Ok((a == b, a.clone()?))
}

/// Returns whether two IPv4 packets are equal, and a copy of the first.
pub fn ipv4_packets<'a>(
    a: &Ipv4Slice<'a>,
    b: &Ipv4Slice<'_>,
) -> Result<(bool, Ipv4Slice<'a>), AllocError>
    ensures same { IfOk result (λ r. IsTrue r.0 ↔ (ipv4_parts a.now ≡ ipv4_parts b.now)) }
    ensures copy { IfOk result (λ r. ipv4_parts r.1 ≡ ipv4_parts a.now) }
{
    Ok((a == b, a.clone()?))
}

/// Returns whether two IPv6 packets are equal, and a copy of the first.
pub fn ipv6_packets<'a>(
    a: &Ipv6Slice<'a>,
    b: &Ipv6Slice<'_>,
) -> Result<(bool, Ipv6Slice<'a>), AllocError>
    ensures same { IfOk result (λ r. IsTrue r.0 ↔ (ipv6_parts a.now ≡ ipv6_parts b.now)) }
    ensures copy { IfOk result (λ r. ipv6_parts r.1 ≡ ipv6_parts a.now) }
{
    Ok((a == b, a.clone()?))
}

/// Returns whether two packets of either IP version are equal, and a copy of the first.
pub fn ip_packets<'a>(a: &IpSlice<'a>, b: &IpSlice<'_>) -> Result<(bool, IpSlice<'a>), AllocError>
    ensures same { IfOk result (λ r. IsTrue r.0 ↔ AreSame a.now b.now) }
    ensures copy { IfOk result (λ r. ip_parts r.1 ≡ ip_parts a.now) }
{
    Ok((a == b, a.clone()?))
}

/// Checks that the bytes of base headers live as long as the caller's bytes, and not only as long as the header.
pub fn bytes_after_base_headers<'a>(
    ipv4: Ipv4HeaderSlice<'a>,
    ipv6: Ipv6HeaderSlice<'a>,
) -> (&'a [u8], &'a [u8])
    ensures ipv4 { result.0.now ≡ ipv4_header.bytes ipv4.entry }
    ensures ipv6 { result.1.now ≡ ipv6_header.bytes ipv6.entry }
{
    (ipv4.slice(), ipv6.slice())
}

/// Checks that the bytes of a payload live as long as the caller's bytes.
pub fn payload_after_the_packet<'a>(packet: IpSlice<'a>) -> &'a [u8]
    ensures { result.now ≡ (ip_parts packet.entry).payload }
{
    packet.payload().payload
}

/// Checks that the bytes of an IPv4 packet's payload live as long as the caller's bytes.
pub fn payload_after_the_ipv4_packet<'a>(packet: Ipv4Slice<'a>) -> &'a [u8]
    ensures { result.now ≡ (ipv4_parts packet.entry).payload }
{
    packet.payload().payload
}

/// Checks that the base header, the extension headers and the payload of an IPv6 packet live as long as the caller's
/// bytes.
pub fn parts_after_the_ipv6_packet<'a>(packet: Ipv6Slice<'a>) -> [&'a [u8]; 3] {
    [
        packet.header().slice(),
        packet.extensions().slice(),
        packet.payload().payload,
    ]
}
