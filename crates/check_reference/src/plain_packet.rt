//! A packet read in the simplest way: the base header byte by byte, then the chain by trying every length. No parser
//! of the library is called.
ghost use Rattle.std.specs.Prelude.{◌≡◌, ◌+◌, ◌≤◌, length, map, codes, IfOk};
ghost use Rattle.std.specs.Option.{option_map};
ghost use Rattle.std.specs.Result.{result_err};
ghost use Rattle.ip_base.specs.Ipv4Header.{version, is_ipv4_fragmenting};
ghost use Rattle.ip_base.specs.Ipv6Header.{payload_length};
ghost use Rattle.ip_base.specs.LenError.{too_short};
ghost use Rattle.ip_base.specs.declared.len_source.LenSource.TheVariants.{Ipv4HeaderTotalLen};
ghost use Rattle.ip_spec.specs.Chain.{leads_to, bytes_of, has_fragmenting};
ghost use Rattle.ip_ext_headers.specs.HeaderFault.{auth_fault, auth_in_packet};
ghost use Rattle.ip_ext_slices.specs.ChainFault.{chain_fault, exts_in_packet};
ghost use Rattle.ip_ext_slices.specs.Ipv4Fault.{ipv4_chain_fault};
ghost use Rattle.ip_ext_slices.specs.Ipv4Longest.{longest_ipv4_chain};
ghost use Rattle.ip_ext_slices.specs.Longest.{longest_chain};
ghost use Rattle.etherparse_ip.specs.LenSources.{front, ipv6_len_source};
ghost use Rattle.etherparse_ip.specs.PartsIn.{ipv4_parts_in, ipv6_parts_in};
ghost use Rattle.etherparse_ip.specs.PacketFault.{ip_fault_of_ipv4, ip_fault_of_ipv6, ip_fault, ip_of_ipv6};
ghost use Rattle.check_reference.specs.PlainHeader.{plain_header_of};
ghost use Rattle.check_reference.specs.PlainPacket.{HasLengthsOf, sourced};

use crate::chain::{PlainHeader, next_len, plain_longest_chain};
use crate::fault::plain_fault;
use crate::plain_fragment::is_fragmenting;
use etherparse_ip::err::ip::{HeaderError, HeadersError, SliceError};
use etherparse_ip::err::{ip_auth, ipv6_exts};
use ip_base::LenSource;
use ip_base::err::{Layer, LenError};
use std::alloc::{AllocError, Global};

/// The lengths of a packet's parts in bytes, and what is known of its payload.
#[derive(Drop)]
pub(crate) struct PlainPacket {
    pub(crate) header_len: usize,
    pub(crate) exts_len: usize,
    pub(crate) payload_len: usize,
    pub(crate) number: u8,
    pub(crate) fragmented: bool,
    pub(crate) len_source: LenSource,
}

/// The length of a chain in bytes, the number to which it leads, and whether it fragments the payload.
type PlainEnd = (usize, u8, bool);

/// Reads the packet at the start of the bytes, of the version in its first byte. Returns the name of the version with
/// the packet. Fails only if memory runs out.
pub(crate) fn plain_packet(
    alloc: Global,
    bytes: &[u8],
) -> Result<Result<(&'static str, PlainPacket), SliceError>, AllocError>
    ensures ipv4 { IfOk result (λ r. IfOk r (λ x. version bytes.now ≡ 4
        → (x.0.now ≡ codes "ipv4") × HasLengthsOf (ipv4_parts_in bytes.now) x.1)) }
    ensures ipv6 { IfOk result (λ r. IfOk r (λ x. (version bytes.now ≡ 4 → ⊥)
        → (x.0.now ≡ codes "ipv6") × HasLengthsOf (ipv6_parts_in bytes.now) x.1)) }
    ensures fault { IfOk result (λ r. result_err r ≡ ip_fault bytes.now) }
{
    if bytes.is_empty() {
        let error = packet_short(0, LenSource::Slice, Layer::IpHeader, 1);
        return Ok(Err(SliceError::Len(error)));
    }
    match bytes[0] / 16 {
        4 => match plain_ipv4(bytes) {
            Ok(packet) => Ok(Ok(("ipv4", packet))),
            Err(error) => Ok(Err(error)),
        },
        6 => match plain_ipv6(alloc, bytes)? {
            Ok(packet) => Ok(Ok(("ipv6", packet))),
            Err(error) => Ok(Err(error)),
        },
        version_number => {
            let error = HeaderError::UnsupportedIpVersion { version_number };
            Ok(Err(SliceError::IpHeaders(HeadersError::Ip(error))))
        }
    }
}

/// Returns the length error of a packet's layer at its start.
fn packet_short(len: usize, len_source: LenSource, layer: Layer, required_len: usize) -> LenError
    ensures { result ≡ too_short len_source len 0 layer required_len }
{
    LenError {
        required_len,
        len,
        len_source,
        layer,
        layer_start_offset: 0,
    }
}

/// Reads the IPv4 packet at the start of the bytes (RFC 791, section 3.1).
pub(crate) fn plain_ipv4(bytes: &[u8]) -> Result<PlainPacket, SliceError>
    requires { 1 ≤ length bytes.now }
    ensures parts { IfOk result (HasLengthsOf (ipv4_parts_in bytes.now)) }
    ensures fault { result_err result ≡ ip_fault_of_ipv4 bytes.now }
{
    let ihl = bytes[0] % 16;
    if ihl < 5 {
        let error = HeaderError::Ipv4HeaderLengthSmallerThanHeader { ihl };
        return Err(SliceError::IpHeaders(HeadersError::Ip(error)));
    }
    let header_len = 4 * usize::from(ihl);
    let len = bytes.len();
    if len < header_len {
        let error = packet_short(len, LenSource::Slice, Layer::Ipv4Header, header_len);
        return Err(SliceError::Len(error));
    }
    let total_len = usize::from(u16::from_be_bytes([bytes[2], bytes[3]]));
    if total_len < header_len {
        let source = LenSource::Ipv4HeaderTotalLen;
        let error = packet_short(total_len, source, Layer::Ipv4Packet, header_len);
        return Err(SliceError::Len(error));
    }
    if len < total_len {
        let error = packet_short(len, LenSource::Slice, Layer::Ipv4Packet, total_len);
        return Err(SliceError::Len(error));
    }
    let (packet, _) = bytes.split_at(total_len);
    let (_, after_base) = packet.split_at(header_len);
    match plain_ipv4_end(bytes[9], after_base, header_len) {
        Ok((exts_len, number)) => Ok(PlainPacket {
            header_len,
            exts_len,
            payload_len: after_base.len() - exts_len,
            number,
            fragmented: is_ipv4_fragment(bytes),
            len_source: LenSource::Ipv4HeaderTotalLen,
        }),
        Err(ip_auth::HeaderSliceError::Len(error)) => Err(SliceError::Len(error)),
        Err(ip_auth::HeaderSliceError::Content(error)) => {
            Err(SliceError::IpHeaders(HeadersError::Ipv4Ext(error)))
        }
    }
}

/// Returns whether an IPv4 packet is a fragment: the more fragments flag is set, or the fragment offset isn't 0.
fn is_ipv4_fragment(bytes: &[u8]) -> bool
    requires { 20 ≤ length bytes.now }
    ensures { result ≡ is_ipv4_fragmenting bytes.now }
{
    let offset = 256 * u16::from(bytes[6] & 0x1f) + u16::from(bytes[7]);
    bytes[6] & 0x20 != 0 || offset != 0
}

/// Returns the length of the authentication header that follows an IPv4 header of this length and protocol, or 0, and
/// the number of what follows.
#[tactic(auto, using(crate::proofs::Exts4Lemmas::one_len, crate::proofs::Exts4Lemmas::one_leads))]
fn plain_ipv4_end(
    protocol: u8,
    after_base: &[u8],
    header_len: usize,
) -> Result<(usize, u8), ip_auth::HeaderSliceError>
    ensures len { IfOk result (λ x.
        x.0 ≡ length (bytes_of (longest_ipv4_chain protocol after_base.now))) }
    ensures within { IfOk result (λ x. x.0 ≤ length after_base.now) }
    ensures number { IfOk result (λ x.
        x.1 ≡ leads_to protocol (longest_ipv4_chain protocol after_base.now)) }
    ensures fault { result_err result ≡ option_map (auth_in_packet Ipv4HeaderTotalLen header_len)
        (ipv4_chain_fault protocol after_base.now) }
{
    if protocol != 51 {
        return Ok((0, protocol));
    }
    match next_len(true, 51, after_base) {
        Some(len) => Ok((len, after_base[0])),
        None => match plain_auth_fault(after_base, LenSource::Ipv4HeaderTotalLen, header_len) {
            Some(error) => Err(error),
            None => Ok((0, 51)),
        },
    }
}

/// Returns the error of an authentication header at this offset in an IPv4 packet, the source of whose length is given.
pub(crate) fn plain_auth_fault(
    left: &[u8],
    len_source: LenSource,
    offset: usize,
) -> Option<ip_auth::HeaderSliceError>
    ensures { result ≡ auth_fault len_source (length left.now) offset left.now }
{
    let error = |required_len| LenError {
        required_len,
        len: left.len(),
        len_source,
        layer: Layer::IpAuthHeader,
        layer_start_offset: offset,
    };
    if left.len() < 12 {
        return Some(ip_auth::HeaderSliceError::Len(error(12)));
    }
    if left[1] == 0 {
        return Some(ip_auth::HeaderSliceError::Content(ip_auth::HeaderError::ZeroPayloadLen));
    }
    let required_len = 4 * (usize::from(left[1]) + 2);
    if left.len() < required_len {
        return Some(ip_auth::HeaderSliceError::Len(error(required_len)));
    }
    None
}

/// Reads the IPv6 packet at the start of the bytes (RFC 8200, section 3). Fails only if memory runs out.
#[tactic(auto, using(crate::proofs::PacketLemmas::ipv6_fault_is, crate::proofs::PacketLemmas::ipv6_lengths))]
pub(crate) fn plain_ipv6(
    alloc: Global,
    bytes: &[u8],
) -> Result<Result<PlainPacket, SliceError>, AllocError>
    ensures parts { IfOk result (λ r. IfOk r (HasLengthsOf (ipv6_parts_in bytes.now))) }
    ensures fault { IfOk result (λ r. result_err r ≡ ip_fault_of_ipv6 bytes.now) }
{
    let len = bytes.len();
    if len < 40 {
        let error = packet_short(len, LenSource::Slice, Layer::Ipv6Header, 40);
        return Ok(Err(SliceError::Len(error)));
    }
    let payload_length = ipv6_payload_length(bytes);
    let stated = 40 + usize::from(payload_length);
    if len < stated {
        let error = packet_short(len, LenSource::Slice, Layer::Ipv6Packet, stated);
        return Ok(Err(SliceError::Len(error)));
    }
    let (packet, len_source) = plain_front(bytes, payload_length);
    let (_, after_base) = packet.split_at(40);
    match plain_ipv6_end(alloc, bytes[6], after_base, len_source)? {
        Ok((exts_len, number, fragmented)) => Ok(Ok(PlainPacket {
            header_len: 40,
            exts_len,
            payload_len: after_base.len() - exts_len,
            number,
            fragmented,
            len_source,
        })),
        Err(error) => Ok(Err(error)),
    }
}

/// Returns the payload length field of an IPv6 header.
fn ipv6_payload_length(bytes: &[u8]) -> u16
    requires { 40 ≤ length bytes.now }
    ensures { result ≡ payload_length bytes.now }
{
    u16::from_be_bytes([bytes[4], bytes[5]])
}

/// Returns the bytes of the packet and the source of their length: all bytes if the payload length is 0 and bytes
/// follow the base header (a jumbogram, RFC 2675).
fn plain_front(bytes: &[u8], payload_length: u16) -> (&[u8], LenSource)
    requires { 40 + payload_length ≤ length bytes.now }
    ensures source { result.1 ≡ ipv6_len_source payload_length (length bytes.now) }
    ensures front { result.0.now ≡ front result.1 payload_length bytes.now }
    ensures base { 40 ≤ length result.0.now }
{
    if payload_length == 0 && bytes.len() > 40 {
        return (bytes, LenSource::Slice);
    }
    let (packet, _) = bytes.split_at(40 + usize::from(payload_length));
    (packet, LenSource::Ipv6HeaderPayloadLen)
}

/// Returns the end of the chain after an IPv6 header, or its error in the packet, the source of whose length is given.
/// Fails only if memory runs out.
#[tactic(auto, using(crate::proofs::PacketLemmas::end_len))]
fn plain_ipv6_end(
    alloc: Global,
    first: u8,
    after_base: &[u8],
    len_source: LenSource,
) -> Result<Result<PlainEnd, SliceError>, AllocError>
    ensures len { IfOk result (λ r. IfOk r (λ x.
        x.0 ≡ length (bytes_of (longest_chain first after_base.now)))) }
    ensures within { IfOk result (λ r. IfOk r (λ x. x.0 ≤ length after_base.now)) }
    ensures number { IfOk result (λ r. IfOk r (λ x.
        x.1 ≡ leads_to first (longest_chain first after_base.now))) }
    ensures fragmented { IfOk result (λ r. IfOk r (λ x.
        x.2 ≡ has_fragmenting (longest_chain first after_base.now))) }
    ensures fault { IfOk result (λ r. result_err r ≡ option_map ip_of_ipv6 (option_map
        (exts_in_packet len_source 40) (option_map (λ f. f.0) (chain_fault first after_base.now)))) }
{
    let chain = plain_longest_chain(alloc, first, after_base)?;
    let exts_len = after_base.len() - chain.rest.len();
    let is_first = chain.headers.is_empty();
    match plain_fault(is_first, chain.number, chain.rest, exts_len + 40) {
        Some((error, _)) => Ok(Err(in_ipv6_packet(error, len_source))),
        None => Ok(Ok((exts_len, chain.number, is_fragmented(&chain.headers)))),
    }
}

/// Returns a chain's error as one of a packet, the source of whose length is given.
fn in_ipv6_packet(error: ipv6_exts::HeaderSliceError, len_source: LenSource) -> SliceError
    ensures { result ≡ ip_of_ipv6 (sourced len_source error) }
{
    match error {
        ipv6_exts::HeaderSliceError::Len(e) => SliceError::Len(LenError { len_source, ..e }),
        ipv6_exts::HeaderSliceError::Content(e) => {
            SliceError::IpHeaders(HeadersError::Ipv6Ext(e))
        }
    }
}

/// Returns whether a fragment header among these fragments the payload.
fn is_fragmented(headers: &[PlainHeader<'_>]) -> bool
    ensures { result ≡ has_fragmenting (map plain_header_of headers.now) }
{
    match headers {
        [] => false,
        [first, rest @ ..] => {
            (first.number == 44 && is_fragmenting(first.bytes)) || is_fragmented(rest)
        }
    }
}
