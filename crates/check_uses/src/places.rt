//! Callers of the parse into six places.
ghost use Rattle.std.specs.Prelude.{◌≡◌, ◌<◌, ◌++◌, ◌==◌, ℕ, List, length, take, drop, Some, None, IfSome, IfNone, IfOk, OnOk, OnErr, if◌then◌else◌};
ghost use Rattle.std.specs.Option.{option_map};
ghost use Rattle.ip_spec.specs.Header.{IsExtensionNumber};
ghost use Rattle.ip_spec.specs.Parse.{rest_after};
ghost use Rattle.ip_spec.specs.Fields.{fragment_fields};
ghost use Rattle.ip_spec.specs.Chain.{leads_to, bytes_of};
ghost use Rattle.ip_spec.specs.Encoding.{cleared_chain};
ghost use Rattle.ip_spec.specs.Places.{fragment, header_in};
ghost use Rattle.ip_ext_slices.specs.Ipv6ExtensionsSlice.{headers_in, bytes};
ghost use Rattle.ip_ext_chains.specs.Ipv6Extensions.{value_of};
ghost use Rattle.ip_ext_chains.specs.Fitting.{fitting_chain, fitting_fault, IsFittingAnswer};

use ip_base::IpNumber;
use ip_ext_chains::err::Layer;
use ip_ext_chains::err::ipv6_exts::{HeaderSliceError, HeaderWriteError};
use ip_ext_chains::{Ipv6Extensions, Ipv6ExtensionsSlice, clear_chain, fitting_headers};
use ip_ext_headers::Ipv6FragmentHeader;
use ip_spec::one_walk_answer;
use std::alloc::AllocError;

/// Returns the fragment header after an IPv6 header, if there is one: the first question of a defragmenter.
pub fn fragment_of(start: IpNumber, packet: &[u8]) -> Option<Ipv6FragmentHeader>
    ensures { result ≡ option_map (λ h. fragment_fields h.bytes)
        (header_in fragment (fitting_chain start.0 packet.now)) }
{
    let (exts, _, _, _) = Ipv6Extensions::from_slice_lax(start, packet);
    exts.fragment
}

/// Returns the headers after an IPv6 header in their places, with the payload and its number, if there is no error.
pub fn opened(start: IpNumber, packet: &[u8]) -> Option<(Ipv6Extensions, IpNumber, &[u8])>
    ensures value { IfSome result (λ x. x.0 ≡ value_of (fitting_chain start.0 packet.now)) }
    ensures number { IfSome result (λ x.
        x.1.0 ≡ leads_to start.0 (fitting_chain start.0 packet.now)) }
    ensures payload { IfSome result (λ x. x.2.now ≡ rest_after (fitting_chain start.0 packet.now) packet.now) }
    ensures whole { IfSome result (λ _. fitting_fault start.0 packet.now ≡ None) }
{
    match Ipv6Extensions::from_slice(start, packet) {
        Ok(found) => Some(found),
        Err(_) => None,
    }
}

/// Appends the headers in the order that RFC 8200 recommends, before a payload of the number `payload`. Returns the
/// number of the first, from which they parse again with the payload after them, whatever it is.
pub fn put_in_order(
    headers: &mut Ipv6Extensions,
    payload: IpNumber,
    out: &mut Vec<u8>,
) -> Result<IpNumber, AllocError>
    requires { IsExtensionNumber payload.0 → ⊥ }
    ensures read { IfOk result (λ first. (b r : List ℕ)
        → out.new.items ≡ out.old.items ++ b
        → IsFittingAnswer first.0 (b ++ r) headers.new payload.0 r None) }
    ensures err { OnErr result (out.new.items ≡ out.old.items) }
{
    let first = headers.set_next_headers(payload);
    one_walk_answer();
    match headers.write(out, first) {
        Ok(()) => Ok(first),
        Err(HeaderWriteError::Io(e)) => Err(e),
        Err(HeaderWriteError::Content(_)) => unreachable!(),
    }
}

/// Appends the headers after an IPv6 header that fit six places, with their reserved bits zero. Returns the number of
/// the first, if there is one, the number and the bytes after them, and the error there.
pub fn copy_fitting<'a>(
    start: IpNumber,
    packet: &'a [u8],
    out: &mut Vec<u8>,
) -> Result<
    (
        Option<IpNumber>,
        IpNumber,
        &'a [u8],
        Option<(HeaderSliceError, Layer)>,
    ),
    AllocError,
>
    ensures written { OnOk result (out.new.items
        ≡ out.old.items ++ bytes_of (cleared_chain (fitting_chain start.0 packet.now))) }
    ensures first { IfOk result (λ x. x.0
        ≡ (if length (bytes_of (fitting_chain start.0 packet.now)) == 0 then None else Some start)) }
    ensures number { IfOk result (λ x.
        x.1.0 ≡ leads_to start.0 (fitting_chain start.0 packet.now)) }
    ensures rest { IfOk result (λ x. x.2.now ≡ rest_after (fitting_chain start.0 packet.now) packet.now) }
    ensures fault { IfOk result (λ x. x.3 ≡ fitting_fault start.0 packet.now) }
    ensures err { OnErr result (out.new.items ≡ out.old.items) }
{
    let (headers, number, rest, fault) = fitting_headers(start, packet);
    append_cleared(&headers, out)?;
    Ok((headers.first_header(), number, rest, fault))
}

/// Appends borrowed headers with their reserved bits zero. Without memory for them the vector is unchanged.
pub fn append_cleared(
    headers: &Ipv6ExtensionsSlice<'_>,
    out: &mut Vec<u8>,
) -> Result<(), AllocError>
    ensures written { OnOk result (out.new.items
        ≡ out.old.items ++ bytes_of (cleared_chain (headers_in headers.now))) }
    ensures err { OnErr result (out.new.items ≡ out.old.items) }
{
    let start = out.len();
    out.extend_from_slice(headers.slice())?;
    clear_chain(headers, &mut out.as_mut_slice()[start..]);
    Ok(())
}

/// Copies borrowed headers to the start of `buffer` with their reserved bits zero, without memory. Returns their
/// length, or `None` if they don't fit; then the buffer is unchanged.
pub fn copy_cleared(headers: &Ipv6ExtensionsSlice<'_>, buffer: &mut [u8]) -> Option<usize>
    ensures len { IfSome result (λ len. len ≡ length (bytes headers.now)) }
    ensures written { IfSome result (λ len. take len buffer.new
        ≡ bytes_of (cleared_chain (headers_in headers.now))) }
    ensures rest { IfSome result (λ len. drop len buffer.new ≡ drop len buffer.old) }
    ensures none { IfNone result (length buffer.old < length (bytes headers.now)) }
    ensures same { IfNone result (buffer.new ≡ buffer.old) }
{
    let len = headers.slice().len();
    if buffer.len() < len {
        return None;
    }
    let copy = &mut buffer[..len];
    copy.copy_from_slice(headers.slice());
    clear_chain(headers, copy);
    Some(len)
}
