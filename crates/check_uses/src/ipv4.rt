//! Callers of IPv4 extension headers.
ghost use Rattle.std.specs.Prelude.{◌≡◌, ◌++◌, ℕ, List, [], None, length, IfOk, IfSome, IfNone, OnErr, IsTrue};
ghost use Rattle.std.specs.Option.{option_map};
ghost use Rattle.ip_spec.specs.Fields.{AuthFields};
ghost use Rattle.ip_spec.specs.Numbers.{AUTHENTICATION};
ghost use Rattle.ip_spec.specs.Chain.{bytes_of};
ghost use Rattle.ip_spec.specs.Demand.{AtMostOneOf};
ghost use Rattle.ip_spec.specs.Parse.{IsParsed};
ghost use Rattle.ip_ext_slices.specs.Ipv4Longest.{longest_ipv4_chain};
ghost use Rattle.ip_ext_slices.specs.Ipv4Fault.{ipv4_chain_fault};
ghost use Rattle.ip_ext_chains.specs.Ipv4Parse.{ipv4_value};

use ip_base::IpNumber;
use ip_ext_chains::err::ipv4_exts::HeaderWriteError;
use ip_ext_chains::{Ipv4Extensions, Ipv4ExtensionsSlice};
use ip_ext_slices::authentication_header_at;
use std::alloc::AllocError;

/// Appends the extension headers at the start of a packet's bytes, now before a payload of the number `last`. Returns
/// the packet's new protocol number, from which they are parsed again and lead to that number.
pub fn put_before(
    start: IpNumber,
    packet: &[u8],
    last: IpNumber,
    out: &mut Vec<u8>,
) -> Result<IpNumber, AllocError>
    ensures read { IfOk result (λ first. (b : List ℕ) → out.new.items ≡ out.old.items ++ b
        → IsParsed (AtMostOneOf AUTHENTICATION) (λ c. ipv4_value c
        ≡ option_map (λ (v : AuthFields). record v { next_header = last.0 })
        (ipv4_value (longest_ipv4_chain start.0 packet.now))) first.0 last.0 b) }
    ensures err { OnErr result (out.new.items ≡ out.old.items) }
{
    let (mut headers, _, _, _) = Ipv4Extensions::from_slice_lax(start, packet);
    let first = headers.set_next_headers(last);
    match headers.write(out, first) {
        Ok(()) => Ok(first),
        Err(HeaderWriteError::Io(e)) => Err(e),
        Err(HeaderWriteError::Content(_)) => unreachable!(),
    }
}

/// Returns whether both forms of a parse return the same headers, which they do.
pub fn forms_agree(start: IpNumber, packet: &[u8]) -> bool
    ensures { IsTrue result }
{
    let (slices, number, _, _) = Ipv4ExtensionsSlice::from_slice_lax(start, packet);
    let (headers, same_number, _, _) = Ipv4Extensions::from_slice_lax(start, packet);
    slices.to_header() == headers && number == same_number
}

/// Returns how many bytes the authentication header after an IPv4 base header takes, 0 if there is none, and `None` if
/// its number is there without it.
pub fn authentication_len(number: IpNumber, after_base: &[u8]) -> Option<usize>
    ensures len { IfSome result (λ n. n
        ≡ length (bytes_of (longest_ipv4_chain number.0 after_base.now))) }
    ensures whole { IfSome result (λ _. ipv4_chain_fault number.0 after_base.now ≡ None) }
    ensures none { IfNone result (longest_ipv4_chain number.0 after_base.now ≡ []) }
{
    match authentication_header_at(number, after_base) {
        Ok(Some(header)) => Some(header.slice().len()),
        Ok(None) => Some(0),
        Err(_) => None,
    }
}
