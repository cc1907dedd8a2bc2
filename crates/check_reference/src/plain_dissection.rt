//! A dissection of the packet at the start of bytes, in the simplest way: the base header byte by byte, then the chain
//! by trying every length. No parser of the library is called.
ghost use Rattle.std.specs.Prelude.{◌≡◌, ◌+◌, ◌≤◌, ◌==◌, ◌&&◌, not, nat_lt, if◌then◌else◌, length, map, IfOk, None};
ghost use Rattle.std.specs.Option.{option_map, option_map_or};
ghost use Rattle.ip_spec.specs.Chain.{bytes_of, is_empty};
ghost use Rattle.ip_base.specs.Ipv4Header.{version, total_len, protocol, ipv4_fragment_offset};
ghost use Rattle.ip_base.specs.LenError.{too_short};
ghost use Rattle.ip_base.specs.declared.len_source.LenSource.TheVariants.{Slice, Ipv4HeaderTotalLen};
ghost use Rattle.ip_base.specs.declared.err.layer.Layer.TheVariants.{Ipv4Packet};
ghost use Rattle.ip_base.specs.declared.err.ip.slice_error.SliceError.TheVariants.{Len};
ghost use Rattle.ip_ext_headers.specs.HeaderFault.{auth_in_packet};
ghost use Rattle.ip_ext_slices.specs.ChainFault.{slice_fault};
ghost use Rattle.ip_ext_slices.specs.Ipv4Fault.{ipv4_chain_fault};
ghost use Rattle.ip_dissect.specs.LaterDemand.{has_later};
ghost use Rattle.ip_dissect.specs.End.{base_end, auth_end, exts_end};
ghost use Rattle.ip_dissect.specs.declared.end.End.TheVariants.{LaterFragment, Payload, Fault};
ghost use Rattle.ip_dissect.specs.Dissection.{dissected, without_base, ipv4_dissected, ipv6_dissected};
ghost use Rattle.check_reference.specs.PlainHeader.{plain_header_of};
ghost use Rattle.check_reference.specs.PlainDissection.{HasFieldsOf};

use crate::chain::{PlainChain, PlainHeader};
use crate::fault::plain_fault;
use crate::later::plain_chain_to_later;
use crate::plain_base::{
    ipv4_offset, ipv4_total_len, missing_of, packet_of, plain_base_end, plain_ipv4_fragment,
    plain_ipv4_stated, plain_ipv6_stated,
};
use crate::plain_end::{auth_end, exts_end, ipv4_fault};
use crate::plain_fragment::{has_later, plain_fragment};
use crate::plain_ipv4::plain_ipv4_chain;
use etherparse_ip::err::ip::SliceError;
use ip_base::LenSource;
use ip_base::err::{Layer, LenError};
use ip_dissect::{End, Fragment};
use std::alloc::{AllocError, Global};

/// The parts of a packet: the lengths of those that are bytes, and the headers.
#[derive(Drop)]
pub(crate) struct PlainDissection<'a> {
    pub(crate) version: u8,
    pub(crate) base_len: usize,
    pub(crate) stated: Option<usize>,
    pub(crate) headers: Vec<PlainHeader<'a>>,
    pub(crate) number: u8,
    pub(crate) payload_len: usize,
    pub(crate) fragment: Option<Fragment>,
    pub(crate) missing: usize,
    pub(crate) padding_len: usize,
    pub(crate) end: End,
}

/// Dissects the packet at the start of the bytes. Returns an error only if memory runs out.
#[tactic(auto, using(crate::proofs::FieldLemmas::dissected6))]
pub(crate) fn plain_dissection<'a>(
    alloc: Global,
    bytes: &'a [u8],
) -> Result<PlainDissection<'a>, AllocError>
    ensures fields { IfOk result (HasFieldsOf (dissected bytes.now)) }
    ensures within { IfOk result (λ x. x.base_len
        + length (bytes_of (map plain_header_of x.headers.items)) ≤ length bytes.now) }
{
    if let Some(end) = plain_base_end(bytes) {
        return Ok(without_base(alloc, bytes, end));
    }
    if bytes[0] / 16 == 4 {
        let (base, _) = bytes.split_at(4 * usize::from(bytes[0] % 16));
        return plain_ipv4(alloc, base, bytes);
    }
    let (base, _) = bytes.split_at(40);
    plain_ipv6(alloc, base, bytes)
}

/// Returns the parts of bytes without a base header, for this reason.
fn without_base<'a>(alloc: Global, bytes: &'a [u8], end: End) -> PlainDissection<'a>
    ensures fields { HasFieldsOf (without_base bytes.now end) result }
    ensures within { result.base_len
        + length (bytes_of (map plain_header_of result.headers.items)) ≤ length bytes.now }
{
    PlainDissection {
        version: 0,
        base_len: 0,
        stated: None,
        headers: Vec::new(alloc),
        number: 59,
        payload_len: 0,
        fragment: None,
        missing: 0,
        padding_len: bytes.len(),
        end,
    }
}

/// Dissects the IPv6 packet with this base header. Returns an error only if memory runs out.
fn plain_ipv6<'a>(
    alloc: Global,
    base: &[u8],
    bytes: &'a [u8],
) -> Result<PlainDissection<'a>, AllocError>
    requires len { length base.now ≡ 40 }
    requires within { 40 ≤ length bytes.now }
    ensures fields { IfOk result (HasFieldsOf (ipv6_dissected base.now bytes.now)) }
    ensures within { IfOk result (λ x. x.base_len
        + length (bytes_of (map plain_header_of x.headers.items)) ≤ length bytes.now) }
{
    let stated = plain_ipv6_stated(base);
    let packet = packet_of(base, stated, bytes);
    let (_, after) = packet.split_at(base.len());
    let chain = plain_chain_to_later(alloc, base[6], after)?;
    let offset = base.len() + (after.len() - chain.rest.len());
    let end = ipv6_end(&chain, offset, stated);
    let fragment = plain_fragment(&chain.headers);
    Ok(PlainDissection {
        version: 6,
        base_len: base.len(),
        stated,
        headers: chain.headers,
        number: chain.number,
        payload_len: chain.rest.len(),
        fragment,
        missing: missing_of(stated, bytes.len()),
        padding_len: bytes.len() - packet.len(),
        end,
    })
}

/// Returns the end of an IPv6 packet after this chain, which ends at the offset.
fn ipv6_end(chain: &PlainChain<'_>, offset: usize, stated: Option<usize>) -> End
    ensures { result ≡ (if has_later (map plain_header_of chain.now.headers.items) then LaterFragment
        else option_map_or (exts_end stated chain.now.rest.now) (slice_fault offset
        (is_empty (map plain_header_of chain.now.headers.items)) chain.now.number chain.now.rest.now)
        Payload) }
{
    if has_later(&chain.headers) {
        return End::LaterFragment;
    }
    let first = chain.headers.is_empty();
    let fault = plain_fault(first, chain.number, chain.rest, offset);
    exts_end(fault, chain.rest, stated)
}

/// Dissects the IPv4 packet with this base header. Returns an error only if memory runs out.
fn plain_ipv4<'a>(
    alloc: Global,
    base: &[u8],
    bytes: &'a [u8],
) -> Result<PlainDissection<'a>, AllocError>
    requires len { 20 ≤ length base.now }
    requires within { length base.now ≤ length bytes.now }
    ensures fields { IfOk result (HasFieldsOf (ipv4_dissected base.now bytes.now)) }
    ensures within { IfOk result (λ x. x.base_len
        + length (bytes_of (map plain_header_of x.headers.items)) ≤ length bytes.now) }
{
    let stated = plain_ipv4_stated(base);
    let packet = packet_of(base, stated, bytes);
    let (_, after) = packet.split_at(base.len());
    let chain = plain_ipv4_chain(alloc, base, after)?;
    Ok(PlainDissection {
        version: 4,
        base_len: base.len(),
        stated,
        headers: chain.headers,
        number: chain.number,
        payload_len: chain.rest.len(),
        fragment: plain_ipv4_fragment(base),
        missing: missing_of(stated, bytes.len()),
        padding_len: bytes.len() - packet.len(),
        end: ipv4_end(base, after, stated),
    })
}

/// Returns the end of an IPv4 packet with these bytes after its base header.
fn ipv4_end(base: &[u8], after: &[u8], stated: Option<usize>) -> End
    requires { 20 ≤ length base.now }
    ensures { result ≡ (if not (total_len base.now == 0) && nat_lt (total_len base.now) (length base.now)
        then Fault (Len (too_short Ipv4HeaderTotalLen (total_len base.now) 0 Ipv4Packet
        (length base.now))) None
        else if not (ipv4_fragment_offset base.now == 0) then LaterFragment
        else option_map_or (auth_end stated after.now) (option_map (auth_in_packet Slice (length base.now))
        (ipv4_chain_fault (protocol base.now) after.now)) Payload) }
{
    let total_len = usize::from(ipv4_total_len(base));
    if total_len != 0 && total_len < base.len() {
        let error = LenError {
            required_len: base.len(),
            len: total_len,
            len_source: LenSource::Ipv4HeaderTotalLen,
            layer: Layer::Ipv4Packet,
            layer_start_offset: 0,
        };
        return End::Fault {
            error: SliceError::Len(error),
            header: None,
        };
    }
    if ipv4_offset(base) != 0 {
        return End::LaterFragment;
    }
    auth_end(ipv4_fault(base[9], after, base.len()), after, stated)
}
