//! Callers that need the clause of one result of a call on a chain, like those of single headers
//! (`header_outcomes.rt`).
ghost use Rattle.std.specs.Prelude.{ℕ, Ok, ◌≡◌, ◌≢◌, ◌<◌, ◌+◌, ◌++◌, ◌==◌, ◌↔◌, Bool, List, [], ◌∷◌, None, Some, Err, IsOk, IsTrue, length, drop, IfOk, IfErr, IfSome, IfNone, vec_len, vec_capacity, if◌then◌else◌};
ghost use Rattle.std.specs.List.{AllByRecursion};
ghost use Rattle.std.specs.Option.{option_map, option_map_or};
ghost use Rattle.ip_spec.specs.Fields.{auth_len};
ghost use Rattle.ip_spec.specs.Encoding.{AppendsOne, AreBytes};
ghost use Rattle.ip_spec.specs.Chain.{ExtHeader, IsNext, is_empty, leads_to, bytes_of};
ghost use Rattle.ip_spec.specs.LongestOf.{IsLongestOf};
ghost use Rattle.ip_spec.specs.Walk.{IsSpelling, IsReachable, IsWalkAnswer};
ghost use Rattle.ip_spec.specs.Numbers.{AUTHENTICATION};
ghost use Rattle.ip_spec.specs.Demand.{AtMostOneOf, IsDemand, IsLongestUnder, Passes};
ghost use Rattle.ip_spec.specs.Fits.{FitsPlaces};
ghost use Rattle.ip_spec.specs.Parse.{IsParsed};
ghost use Rattle.ip_spec.specs.Runs.{how_many};
ghost use Rattle.ip_ext_slices.specs.Longest.{longest_chain};
ghost use Rattle.ip_ext_slices.specs.ChainFault.{chain_fault};
ghost use Rattle.ip_ext_chains.specs.Fitting.{fitting_chain, fitting_fault};
ghost use Rattle.ip_ext_slices.specs.Ipv4Fault.{ipv4_chain_fault};
ghost use Rattle.ip_ext_chains.specs.Ipv4Parse.{IsIpv4Answer, ipv4_value};
ghost use Rattle.ip_ext_chains.specs.Ipv4ExtensionsSlice.{headers_in};
ghost use Rattle.ip_ext_chains.specs.Ipv4Walk.{ipv4_walk, IsIpv4Encoding};
ghost use Rattle.ip_ext_chains.specs.Ipv6Extensions.{placed_fields, value_of, exts_len};
ghost use Rattle.ip_ext_chains.specs.Ipv6ExtensionsRuns.{start, input, values_left};

use ip_base::IpNumber;
use ip_base::err::Layer;
use ip_ext_chains::err::ipv6_exts::{ExtsWalkError, HeaderSliceError, HeaderWriteError};
use ip_ext_chains::err::{ip_auth, ipv4_exts};
use ip_ext_chains::{
    Ipv4Extensions, Ipv4ExtensionsSlice, Ipv6Extensions, Ipv6ExtensionsRuns, Ipv6ExtensionsSlice,
};
use std::alloc::AllocError;

/// Returns the number and the bytes of the headers if there is no error, otherwise the error.
pub fn first_and_bytes(
    start: IpNumber,
    packet: &[u8],
) -> Result<(Option<IpNumber>, &[u8]), HeaderSliceError>
    ensures first { IfOk result (λ x. x.0
        ≡ (if length (bytes_of (longest_chain start.0 packet.now)) == 0 then None else Some start)) }
    ensures bytes { IfOk result (λ x. x.1.now ≡ bytes_of (longest_chain start.0 packet.now)) }
    ensures fault { IfErr result (λ e.
        option_map (λ f. f.0) (chain_fault start.0 packet.now) ≡ Some e) }
{
    let (headers, _, _) = Ipv6ExtensionsSlice::from_slice(start, packet)?;
    Ok((headers.first_header(), headers.slice()))
}

/// Returns the error after all runs, from the last run on.
pub fn fault_after_runs(runs: &Ipv6ExtensionsRuns<'_>) -> Option<Option<(HeaderSliceError, Layer)>>
    ensures before { IfNone result (values_left runs.now ≢ []) }
    ensures last { IfSome result (λ _. values_left runs.now ≡ []) }
    ensures fault { IfSome result (λ fault.
        fault ≡ chain_fault (start runs.now) (input runs.now)) }
{
    let (_, _, fault) = runs.end()?;
    Some(fault)
}

/// Returns the error of the headers that fit six places, if the strict parse returns one.
pub fn fitting_fault_of(start: IpNumber, packet: &[u8]) -> Option<HeaderSliceError>
    ensures { IfSome result (λ e.
        option_map (λ f. f.0) (fitting_fault start.0 packet.now) ≡ Some e) }
{
    match Ipv6Extensions::from_slice(start, packet) {
        Ok(_) => None,
        Err(e) => Some(e),
    }
}

/// Returns the borrowed headers after an IPv4 header, if there is no error.
pub fn ipv4_opened(
    start: IpNumber,
    packet: &[u8],
) -> Result<(Ipv4ExtensionsSlice<'_>, IpNumber, &[u8]), ip_auth::HeaderSliceError>
    ensures answer { IfOk result (λ x. IsIpv4Answer (λ c. c) start.0 packet.now
        (headers_in x.0) x.1.0 x.2.now None) }
    ensures fault { IfErr result (λ e. ipv4_chain_fault start.0 packet.now ≡ Some e) }
{
    Ipv4ExtensionsSlice::from_slice(start, packet)
}

/// Returns the owned headers after an IPv4 header, if there is no error.
pub fn ipv4_opened_owned(
    start: IpNumber,
    packet: &[u8],
) -> Result<(Ipv4Extensions, IpNumber, &[u8]), ip_auth::HeaderSliceError>
    ensures answer { IfOk result (λ x. IsIpv4Answer ipv4_value start.0 packet.now
        x.0.auth x.1.0 x.2.now None) }
    ensures fault { IfErr result (λ e. ipv4_chain_fault start.0 packet.now ≡ Some e) }
{
    Ipv4Extensions::from_slice(start, packet)
}

/// Appends the headers after an IPv4 header. Returns the vector's new length, or `None` if the vector is unchanged.
pub fn append_ipv4(headers: &Ipv4Extensions, start: IpNumber, out: &mut Vec<u8>) -> Option<usize>
    ensures walk { IfSome result (λ _. IsOk (ipv4_walk headers.now.auth start.0)) }
    ensures ok { IfSome result (λ _. AppendsOne (IsIpv4Encoding start.0 headers.now.auth)
        out.old.items out.new.items) }
    ensures parsed_again { IfSome result (λ _. (b r : List ℕ) (m : IpNumber)
        → out.new.items ≡ out.old.items ++ b → ipv4_walk headers.now.auth start.0 ≡ Ok m
        → (headers.now.auth ≡ None → start.0 ≡ AUTHENTICATION → ⊥)
        → IsIpv4Answer ipv4_value start.0 (b ++ r) headers.now.auth m.0 r None) }
    ensures parsed_whole { IfSome result (λ _. (b : List ℕ) (m : IpNumber)
        → out.new.items ≡ out.old.items ++ b → ipv4_walk headers.now.auth start.0 ≡ Ok m
        → IsParsed (AtMostOneOf AUTHENTICATION) (λ c. ipv4_value c ≡ headers.now.auth)
        start.0 m.0 b) }
    ensures len { IfSome result (λ len.
        len ≡ vec_len out.old + option_map_or auth_len headers.now.auth 0) }
    ensures same { IfNone result (out.new.items ≡ out.old.items) }
{
    match headers.write(out, start) {
        Ok(()) => Some(out.len()),
        Err(_) => None,
    }
}

/// Returns the allocation error, if these headers aren't written because of it: there is a header, and no room for
/// it.
pub fn ipv4_want_of_memory(
    headers: &Ipv4Extensions,
    start: IpNumber,
    out: &mut Vec<u8>,
) -> Option<AllocError>
    ensures full { IfSome result (λ _.
        vec_capacity out.old < vec_len out.old + option_map_or auth_len headers.now.auth 0) }
    ensures some { IfSome result (λ _. 0 < option_map_or auth_len headers.now.auth 0) }
    ensures named { IfSome result (λ _. IsOk (ipv4_walk headers.now.auth start.0)) }
{
    match headers.write(out, start) {
        Err(ipv4_exts::HeaderWriteError::Io(e)) => Some(e),
        _ => None,
    }
}

/// Returns the error of the walk, if the headers aren't written because of it.
pub fn ipv4_walk_refused(
    headers: &Ipv4Extensions,
    start: IpNumber,
    out: &mut Vec<u8>,
) -> Option<ipv4_exts::ExtsWalkError>
    ensures { IfSome result (λ w. ipv4_walk headers.now.auth start.0 ≡ Err w) }
{
    match headers.write(out, start) {
        Err(ipv4_exts::HeaderWriteError::Content(e)) => Some(e),
        _ => None,
    }
}

/// Appends the headers in six places. Returns the vector's new length, or `None` after an error.
pub fn append_ipv6(headers: &Ipv6Extensions, first: IpNumber, out: &mut Vec<u8>) -> Option<usize>
    ensures spelled { IfSome result (λ _. (c : List ExtHeader)
        × IsSpelling (placed_fields headers.now) first.0 c
        × (out.new.items ≡ out.old.items ++ bytes_of c)) }
    ensures len { IfSome result (λ len. len ≡ vec_len out.old + exts_len headers.now) }
    ensures parsed_whole { IfSome result (λ _. (b : List ℕ) (m : IpNumber)
        → out.new.items ≡ out.old.items ++ b → IsWalkAnswer (placed_fields headers.now) first.0 (Ok m)
        → IsParsed FitsPlaces (λ c. value_of c ≡ headers.now) first.0 m.0 b) }
    ensures alike { IfSome result (λ _. (v : Ipv6Extensions) (c : List ExtHeader)
        → IsSpelling (placed_fields v) first.0 c
        → (out.new.items ≡ out.old.items ++ bytes_of c) ↔ (headers.now ≡ v)) }
{
    match headers.write(out, first) {
        Ok(()) => Some(out.len()),
        Err(_) => None,
    }
}

/// Returns the allocation error, if the headers aren't written because of it: nothing was appended, and there is no
/// room.
pub fn ipv6_want_of_memory(
    headers: &Ipv6Extensions,
    first: IpNumber,
    out: &mut Vec<u8>,
) -> Option<AllocError>
    ensures same { IfSome result (λ _. out.new.items ≡ out.old.items) }
    ensures full { IfSome result (λ _.
        vec_capacity out.old < vec_len out.old + exts_len headers.now) }
    ensures some { IfSome result (λ _. 0 < exts_len headers.now) }
{
    match headers.write(out, first) {
        Err(HeaderWriteError::Io(e)) => Some(e),
        _ => None,
    }
}

/// Returns the error of the walk, if the headers aren't written because of it: those that are reached were appended.
pub fn ipv6_walk_refused(
    headers: &Ipv6Extensions,
    first: IpNumber,
    out: &mut Vec<u8>,
) -> Option<ExtsWalkError>
    ensures answer { IfSome result (λ e.
        IsWalkAnswer (placed_fields headers.now) first.0 (Err e)) }
    ensures reached { IfSome result (λ _. (c : List ExtHeader)
        × IsLongestOf (IsReachable (placed_fields headers.now) first.0) c
        × (out.new.items ≡ out.old.items ++ bytes_of c)) }
    ensures unread { IfSome result (λ _. (s : List ℕ) → AreBytes s
        → value_of (fitting_chain first.0 s) ≡ headers.now → ⊥) }
{
    match headers.write(out, first) {
        Err(HeaderWriteError::Content(e)) => Some(e),
        _ => None,
    }
}

/// Proves that no header follows the longest chain under a demand, unless the chain with it doesn't meet the demand.
pub fn no_header_goes_on_under_a_demand()
    ensures { (q : List ExtHeader → Bool) → IsDemand (Passes q)
        → (n : ℕ) (s : List ℕ) (c : List ExtHeader) → IsLongestUnder (Passes q) n s c
        → (h : ExtHeader) → IsNext (is_empty c) (leads_to n c) (drop (length (bytes_of c)) s) h
        → IsTrue (q (c ++ h ∷ [])) → ⊥ }
{
    ip_spec::longest_chain_under_a_demand_ends();
}

/// Proves that `how_many` counts the pieces that have a header: all of them if none is empty.
#[tactic(auto, using(crate::proofs::FirstLemmas::pieces_counted))]
pub fn filled_pieces_are_counted()
    ensures filled { (ps : List (List ExtHeader)) → AllByRecursion (λ p. p ≢ []) ps
        → how_many ps ≡ length ps }
    ensures empty { (ps : List (List ExtHeader)) → how_many (ps ++ [] ∷ []) ≡ how_many ps }
{}
