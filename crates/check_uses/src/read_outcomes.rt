//! Callers that need the clause of one result of a read, from bytes in memory and from a window of them. Their own
//! clauses name the result in terms of std and of headers only, so none of them can be proved if such a clause, or
//! the term by which it names the result, says nothing.
ghost use Rattle.std.specs.Prelude.{◌≡◌, ◌≤◌, ◌<◌, ◌+◌, ◌++◌, ℕ, List, [], ◌∷◌, false, Some, length, IfSome};
ghost use Rattle.std.specs.Bool.{OnTrue};
ghost use Rattle.std.specs.Option.{option_map};
ghost use Rattle.std.specs.Io.KnownBytes.{Consumes};
ghost use Rattle.ip_base.specs.Prefix.{IsPrefix};
ghost use Rattle.ip_spec.specs.Header.{IsRawHeader};
ghost use Rattle.ip_spec.specs.Requests.{RawAsks, Asks};
ghost use Rattle.ip_spec.specs.Chain.{ExtHeader, IsChain, leads_to, bytes_of};
ghost use Rattle.ip_spec.specs.Fits.{FitsPlaces, IsOccupied};
ghost use Rattle.ip_base.specs.Limits.{left, limit_error};
ghost use Rattle.ip_base.specs.LimitedReader.{inner_of, limits_of};
ghost use Rattle.ip_base.specs.declared.err.len_error.LenError.{LenError as LengthError};
ghost use Rattle.ip_base.specs.declared.len_source.LenSource.TheVariants.{Slice};
ghost use Rattle.ip_ext_headers.specs.HeaderFault.{auth_fault};
ghost use Rattle.ip_ext_headers.specs.declared.err.ip_auth.header_slice_error.HeaderSliceError.TheVariants as auth;
ghost use Rattle.ip_base.specs.declared.err.ip_auth.header_error.HeaderError.TheVariants.{ZeroPayloadLen};
ghost use Rattle.ip_ext_slices.specs.Ipv4Fault.{ipv4_chain_fault};
ghost use Rattle.ip_ext_slices.specs.declared.err.ipv6_exts.header_slice_error.HeaderSliceError.TheVariants as chain;
ghost use Rattle.ip_ext_chains.specs.ChainReading.{layer_of};
ghost use Rattle.ip_ext_chains.specs.Fitting.{fitting_fault};

use ip_base::IpNumber;
use ip_base::err::LenError;
use ip_ext_chains::err::{ip_auth, ipv6_exts};
use ip_ext_chains::{Ipv4Extensions, Ipv6Extensions};
use ip_ext_headers::err::io::LimitedReadError;
use ip_ext_headers::io::{ExactRead, LimitedReader};
use ip_ext_headers::{IpAuthHeader, Ipv6RawExtHeader};

/// Returns whether the bytes don't start with a header in the uniform format (RFC 6564): then there are too few for a
/// request.
pub fn is_raw_truncated(bytes: &mut &[u8]) -> bool
    ensures asked { OnTrue result ((done : List ℕ) × (count : ℕ) × RawAsks done count
        × (length bytes.old.now < length done + count)) }
    ensures none { OnTrue result ((b : List ℕ) → IsRawHeader b
        → IsPrefix b bytes.old.now → ⊥) }
{
    Ipv6RawExtHeader::read(bytes).is_err()
}

/// Returns whether an authentication header is truncated: then `from_slice` returns a length error.
pub fn is_auth_truncated(bytes: &mut &[u8]) -> bool
    ensures { OnTrue result ((e : LengthError)
        × (auth_fault Slice (length bytes.old.now) 0 bytes.old.now ≡ Some (auth.Len e))) }
{
    match IpAuthHeader::read(bytes) {
        Err(ip_auth::HeaderReadError::Io(_)) => true,
        _ => false,
    }
}

/// Returns whether the length field of an authentication header is 0: then the bytes before a check value were
/// consumed.
pub fn is_auth_zero(bytes: &mut &[u8]) -> bool
    ensures fault { OnTrue result (auth_fault Slice (length bytes.old.now) 0 bytes.old.now
        ≡ Some (auth.Content ZeroPayloadLen)) }
    ensures consumed { OnTrue result ((done : List ℕ) × (length done ≡ 12)
        × (bytes.old.now ≡ done ++ bytes.new.now)) }
{
    match IpAuthHeader::read(bytes) {
        Err(ip_auth::HeaderReadError::Content(_)) => true,
        _ => false,
    }
}

/// Returns the error of a limit too small for a header in the uniform format (RFC 6564).
pub fn raw_past_limit(reader: &mut LimitedReader<&[u8]>) -> Option<LenError>
    ensures { IfSome result (λ e. (done : List ℕ) × (count : ℕ) × RawAsks done count
        × (left (limits_of reader.old) < length done + count)
        × (e ≡ limit_error count (limits_of reader.new))) }
{
    match Ipv6RawExtHeader::read_limited(reader) {
        Err(LimitedReadError::Len(e)) => Some(e),
        _ => None,
    }
}

/// Returns whether a header in the uniform format (RFC 6564) is within the limit but the inner reader has too few
/// bytes.
pub fn is_raw_truncated_within(reader: &mut LimitedReader<&[u8]>) -> bool
    ensures { OnTrue result ((done : List ℕ) × (count : ℕ) × RawAsks done count
        × (length done + count ≤ left (limits_of reader.old))
        × (length (inner_of reader.old).now < length done + count)) }
{
    match Ipv6RawExtHeader::read_limited(reader) {
        Err(LimitedReadError::Io(_)) => true,
        _ => false,
    }
}

/// Returns whether the bytes after an IPv4 header are truncated.
pub fn is_ipv4_truncated(bytes: &mut &[u8], start: IpNumber) -> bool
    ensures { OnTrue result ((e : LengthError)
        × (ipv4_chain_fault start.0 bytes.old.now ≡ Some (auth.Len e))) }
{
    match Ipv4Extensions::read(bytes, start) {
        Err(ip_auth::HeaderReadError::Io(_)) => true,
        _ => false,
    }
}

/// Returns the error in a header's bytes, for a chain that is read into six places.
pub fn chain_content(bytes: &mut &[u8], start: IpNumber) -> Option<ipv6_exts::HeaderError>
    ensures { IfSome result (λ e. option_map (λ f. f.0) (fitting_fault start.0 bytes.old.now)
        ≡ Some (chain.Content e)) }
{
    match Ipv6Extensions::read(bytes, start) {
        Err(ipv6_exts::HeaderReadError::Content(e)) => Some(e),
        _ => None,
    }
}

/// Returns whether a chain read into six places is truncated: then `from_slice` returns a length error, and after
/// headers that fit there are too few bytes for a request of the next one, whose place is free.
pub fn is_chain_truncated(bytes: &mut &[u8], start: IpNumber) -> bool
    ensures fault { OnTrue result ((e : LengthError)
        × (option_map (λ f. f.0) (fitting_fault start.0 bytes.old.now) ≡ Some (chain.Len e))) }
    ensures headers { OnTrue result ((c : List ExtHeader) × IsChain start.0 c × FitsPlaces c
        × (IsOccupied (leads_to start.0 c) c → ⊥) × ((done : List ℕ) × (count : ℕ)
        × Asks (leads_to start.0 c) done count
        × (length bytes.old.now < length (bytes_of c) + (length done + count)))) }
{
    match Ipv6Extensions::read(bytes, start) {
        Err(ipv6_exts::HeaderReadError::Io(_)) => true,
        _ => false,
    }
}

/// Returns the error of a limit too small for the next header of a chain.
pub fn chain_past_limit(reader: &mut LimitedReader<&[u8]>, start: IpNumber) -> Option<LenError>
    ensures { IfSome result (λ e. (count : ℕ) × (e ≡ limit_error count (limits_of reader.new))) }
{
    match Ipv6Extensions::read_limited(reader, start) {
        Err(ipv6_exts::HeaderLimitedReadError::Len(e)) => Some(e),
        _ => None,
    }
}

/// Returns whether a chain was read: then the reader has failed only if it had before, and its next bytes are those
/// after a chain from the start number.
pub fn is_chain_read<T: ExactRead>(reader: &mut T, start: IpNumber) -> bool
    ensures kept { OnTrue result (T.has_failed reader.new ≡ T.has_failed reader.old) }
    ensures consumed { OnTrue result ((c : List ExtHeader) × IsChain start.0 c
        × Consumes (T.bytes_left reader.old) (T.bytes_left reader.new) (bytes_of c)) }
{
    Ipv6Extensions::read(reader, start).is_ok()
}

/// Returns the position of a reader with a limit after a chain was read, as an offset in bytes: after the bytes of
/// the chain, in the layer of its last header.
pub fn offset_after_chain<T: ExactRead>(
    reader: &mut LimitedReader<T>,
    start: IpNumber,
) -> Option<usize>
    ensures limits { IfSome result (λ at. (c : List ExtHeader) × IsChain start.0 c
        × (at ≡ (limits_of reader.old).layer_offset + (limits_of reader.old).read_len
        + length (bytes_of c))
        × ((d : List ExtHeader) (h : ExtHeader) → c ≡ d ++ h ∷ []
        → (limits_of reader.new).layer ≡ layer_of h.number)) }
    ensures source { IfSome result (λ _.
        (limits_of reader.new).len_source ≡ (limits_of reader.old).len_source) }
    ensures kept { IfSome result (λ _.
        T.has_failed (inner_of reader.new) ≡ T.has_failed (inner_of reader.old)) }
{
    match Ipv6Extensions::read_limited(reader, start) {
        Ok(_) => {
            // The sum fits: the contract of `max_len` bounds the offset and the limit.
            let _ = reader.max_len();
            Some(reader.layer_offset() + reader.read_len())
        }
        Err(_) => None,
    }
}
