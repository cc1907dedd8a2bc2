//! Callers that need the clause of one result of a call: of a refusal, of an error of one kind, or of a success.
//! Their own clauses name the result in std's terms only, so none of them can be proved if such a clause, or the term
//! by which it names the result, says nothing.
ghost use Rattle.std.specs.Prelude.{◌≡◌, true, ◌≤◌, ◌<◌, ◌+◌, ◌-◌, ℕ, List, Some, length, take, drop, OnErr, IfOk, IfErr, IfSome, IfNone, vec_len, vec_capacity};
ghost use Rattle.ip_base.specs.Prefix.{IsPrefix};
ghost use Rattle.ip_spec.specs.Header.{IsRawHeader, IsFragmentHeader, IsAuthHeader};
ghost use Rattle.ip_base.specs.Fragment.{MAX_FRAGMENT_OFFSET};
ghost use Rattle.ip_spec.specs.Fields.{raw_len, auth_len};
ghost use Rattle.ip_spec.specs.Encoding.{AppendsOne, IsRawEncoding, IsFragmentEncoding, IsAuthEncoding};
ghost use Rattle.ip_spec.specs.Decoding.{IsRawDecoding, IsFragmentDecoding, IsAuthDecoding};
ghost use Rattle.ip_spec.specs.Chain.{IsNext, IsEnd};
ghost use Rattle.ip_ext_headers.specs.HeaderFault.{raw_fault, fragment_fault, auth_fault};
ghost use Rattle.ip_ext_headers.specs.LengthFault.{payload_len_fault, icv_len_fault};
ghost use Rattle.ip_ext_headers.specs.Ipv6RawExtHeaderSlice as raw;
ghost use Rattle.ip_ext_headers.specs.Ipv6FragmentHeaderSlice as fragment;
ghost use Rattle.ip_ext_headers.specs.IpAuthHeaderSlice as auth;
ghost use Rattle.ip_base.specs.declared.len_source.LenSource.TheVariants.{Slice};

use ip_base::err::{LenError, ValueTooBigError};
use ip_base::{IpFragOffset, IpNumber};
use ip_ext_headers::err::ip_auth::{HeaderSliceError, IcvLenError};
use ip_ext_headers::err::ipv6_exts::ExtPayloadLenError;
use ip_ext_headers::{
    IpAuthHeader, IpAuthHeaderSlice, Ipv6FragmentHeader, Ipv6FragmentHeaderSlice, Ipv6RawExtHeader,
    Ipv6RawExtHeaderSlice,
};
use std::alloc::AllocError;

/// Returns the value of the offset with this value, or the error that refuses it.
pub fn offset_value(value: u16) -> Result<u16, ValueTooBigError>
    ensures fits { IfOk result (λ offset. offset ≡ value) }
    ensures too_big { IfErr result (λ e.
        e ≡ record { actual = value; max_allowed = MAX_FRAGMENT_OFFSET }) }
{
    Ok(IpFragOffset::try_new(value)?.value())
}

/// Returns the value of the offset made by `try_into`, or the error that refuses it.
pub fn offset_value_by_try_into(value: u16) -> Result<u16, ValueTooBigError>
    ensures fits { IfOk result (λ offset. offset ≡ value) }
    ensures too_big { IfErr result (λ e.
        e ≡ record { actual = value; max_allowed = MAX_FRAGMENT_OFFSET }) }
{
    let offset: IpFragOffset = value.try_into()?;
    Ok(offset.value())
}

/// Returns the length of a header with this payload, or why there is none.
pub fn raw_len_with(payload: &[u8]) -> Result<usize, ExtPayloadLenError>
    ensures made { IfOk result (λ len. (next : ℕ)
        → len ≡ raw_len (record { next_header = next; payload = payload.now })) }
    ensures fault { IfErr result (λ e. payload_len_fault (length payload.now) ≡ Some e) }
{
    Ok(Ipv6RawExtHeader::new_raw(IpNumber(59), payload)?.header_len())
}

/// Sets the header's payload. If it is not allowed, returns why, and the header is unchanged.
pub fn with_payload(header: &mut Ipv6RawExtHeader, payload: &[u8]) -> Option<ExtPayloadLenError>
    ensures set { IfNone result (header.new ≡ record header.old { payload = payload.now }) }
    ensures kept { IfSome result (λ _. header.new ≡ header.old) }
    ensures fault { IfSome result (λ e. payload_len_fault (length payload.now) ≡ Some e) }
{
    header.set_payload(payload).err()
}

/// Returns the length of an authentication header with this check value, or why there is none.
pub fn auth_len_with(raw_icv: &[u8]) -> Result<usize, IcvLenError>
    ensures made { IfOk result (λ len. len ≡ auth_len (record {
      next_header = 59;
      spi = 1;
      sequence_number = 2;
      raw_icv = raw_icv.now;
    })) }
    ensures fault { IfErr result (λ e. icv_len_fault (length raw_icv.now) ≡ Some e) }
{
    Ok(IpAuthHeader::new(IpNumber(59), 1, 2, raw_icv)?.header_len())
}

/// Sets the header's check value. If it is not allowed, returns why, and the header is unchanged.
pub fn with_icv(header: &mut IpAuthHeader, raw_icv: &[u8]) -> Option<IcvLenError>
    ensures set { IfNone result (header.new ≡ record header.old { raw_icv = raw_icv.now }) }
    ensures kept { IfSome result (λ _. header.new ≡ header.old) }
    ensures fault { IfSome result (λ e. icv_len_fault (length raw_icv.now) ≡ Some e) }
{
    header.set_raw_icv(raw_icv).err()
}

/// Parses the header in the uniform format (RFC 6564) at an offset in a packet.
pub fn raw_at<'a>(packet: &'a [u8], at: usize) -> Result<Ipv6RawExtHeaderSlice<'a>, LenError>
    requires { at ≤ length packet.now }
    ensures prefix { IfOk result (λ h. IsPrefix (raw.bytes h) (drop at packet.now)) }
    ensures header { IfOk result (λ h. IsRawHeader (raw.bytes h)) }
    ensures none { IfErr result (λ _. (b : List ℕ) → IsRawHeader b
        → IsPrefix b (drop at packet.now) → ⊥) }
    ensures fault { IfErr result (λ e.
        raw_fault Slice (length packet.now - at) 0 (drop at packet.now) ≡ Some e) }
{
    Ipv6RawExtHeaderSlice::from_slice(&packet[at..])
}

/// Parses the fragment header at an offset in a packet.
pub fn fragment_at<'a>(packet: &'a [u8], at: usize) -> Result<Ipv6FragmentHeaderSlice<'a>, LenError>
    requires { at ≤ length packet.now }
    ensures prefix { IfOk result (λ h. IsPrefix (fragment.bytes h) (drop at packet.now)) }
    ensures header { IfOk result (λ h. IsFragmentHeader (fragment.bytes h)) }
    ensures none { IfErr result (λ _. (b : List ℕ) → IsFragmentHeader b
        → IsPrefix b (drop at packet.now) → ⊥) }
    ensures fault { IfErr result (λ e.
        fragment_fault Slice (length packet.now - at) 0 (drop at packet.now) ≡ Some e) }
{
    Ipv6FragmentHeaderSlice::from_slice(&packet[at..])
}

/// Parses the authentication header at an offset in a packet.
pub fn auth_at<'a>(packet: &'a [u8], at: usize) -> Result<IpAuthHeaderSlice<'a>, HeaderSliceError>
    requires { at ≤ length packet.now }
    ensures prefix { IfOk result (λ h. IsPrefix (auth.bytes h) (drop at packet.now)) }
    ensures header { IfOk result (λ h. IsAuthHeader (auth.bytes h)) }
    ensures none { IfErr result (λ _. (b : List ℕ) → IsAuthHeader b
        → IsPrefix b (drop at packet.now) → ⊥) }
    ensures fault { IfErr result (λ e.
        auth_fault Slice (length packet.now - at) 0 (drop at packet.now) ≡ Some e) }
{
    IpAuthHeaderSlice::from_slice(&packet[at..])
}

/// Parses the header in the uniform format (RFC 6564) at an offset in a packet, and returns it owned, with the bytes
/// after it.
pub fn owned_raw_at(packet: &[u8], at: usize) -> Result<(Ipv6RawExtHeader, &[u8]), LenError>
    requires { at ≤ length packet.now }
    ensures decoding { IfOk result (λ p. IsRawDecoding (drop at packet.now) p.0 p.1.now) }
    ensures none { IfErr result (λ _. (b : List ℕ) → IsRawHeader b
        → IsPrefix b (drop at packet.now) → ⊥) }
    ensures fault { IfErr result (λ e.
        raw_fault Slice (length packet.now - at) 0 (drop at packet.now) ≡ Some e) }
{
    Ipv6RawExtHeader::from_slice(&packet[at..])
}

/// Parses the fragment header at an offset in a packet, and returns it owned, with the bytes after it.
pub fn owned_fragment_at(packet: &[u8], at: usize) -> Result<(Ipv6FragmentHeader, &[u8]), LenError>
    requires { at ≤ length packet.now }
    ensures decoding { IfOk result (λ p. IsFragmentDecoding (drop at packet.now) p.0 p.1.now) }
    ensures none { IfErr result (λ _. (b : List ℕ) → IsFragmentHeader b
        → IsPrefix b (drop at packet.now) → ⊥) }
    ensures fault { IfErr result (λ e.
        fragment_fault Slice (length packet.now - at) 0 (drop at packet.now) ≡ Some e) }
{
    Ipv6FragmentHeader::from_slice(&packet[at..])
}

/// Parses the authentication header at an offset in a packet, and returns it owned, with the bytes after it.
pub fn owned_auth_at(packet: &[u8], at: usize) -> Result<(IpAuthHeader, &[u8]), HeaderSliceError>
    requires { at ≤ length packet.now }
    ensures decoding { IfOk result (λ p. IsAuthDecoding (drop at packet.now) p.0 p.1.now) }
    ensures none { IfErr result (λ _. (b : List ℕ) → IsAuthHeader b
        → IsPrefix b (drop at packet.now) → ⊥) }
    ensures fault { IfErr result (λ e.
        auth_fault Slice (length packet.now - at) 0 (drop at packet.now) ≡ Some e) }
{
    IpAuthHeader::from_slice(&packet[at..])
}

/// Appends a header in the uniform format (RFC 6564), and returns the vector's new length.
pub fn append_raw(header: &Ipv6RawExtHeader, out: &mut Vec<u8>) -> Result<usize, AllocError>
    ensures ok { IfOk result (λ _.
        AppendsOne (IsRawEncoding header.now) out.old.items out.new.items) }
    ensures len { IfOk result (λ len. len ≡ vec_len out.old + raw_len header.now) }
    ensures err { OnErr result (out.new.items ≡ out.old.items) }
    ensures full { OnErr result (vec_capacity out.old < vec_len out.old + raw_len header.now) }
{
    header.write(out)?;
    Ok(out.len())
}

/// Appends a fragment header, and returns the vector's new length.
pub fn append_fragment(header: &Ipv6FragmentHeader, out: &mut Vec<u8>) -> Result<usize, AllocError>
    ensures ok { IfOk result (λ _.
        AppendsOne (IsFragmentEncoding header.now) out.old.items out.new.items) }
    ensures len { IfOk result (λ len. len ≡ vec_len out.old + 8) }
    ensures err { OnErr result (out.new.items ≡ out.old.items) }
    ensures full { OnErr result (vec_capacity out.old < vec_len out.old + 8) }
{
    header.write(out)?;
    Ok(out.len())
}

/// Appends an authentication header, and returns the vector's new length.
pub fn append_auth(header: &IpAuthHeader, out: &mut Vec<u8>) -> Result<usize, AllocError>
    ensures ok { IfOk result (λ _.
        AppendsOne (IsAuthEncoding header.now) out.old.items out.new.items) }
    ensures len { IfOk result (λ len. len ≡ vec_len out.old + auth_len header.now) }
    ensures err { OnErr result (out.new.items ≡ out.old.items) }
    ensures full { OnErr result (vec_capacity out.old < vec_len out.old + auth_len header.now) }
{
    header.write(out)?;
    Ok(out.len())
}

/// Returns how many bytes of a packet lie after its first header of this number; none if it has no such header.
pub fn len_after_first(number: u8, packet: &[u8]) -> Option<usize>
    ensures next { IfSome result (λ left. (len : ℕ) × (len + left ≡ length packet.now)
        × IsNext true number packet.now (record { number = number; bytes = take len packet.now })) }
    ensures none { IfNone result (IsEnd true number packet.now) }
{
    let len = check_reference::next_len(true, number, packet)?;
    Some(packet.len() - len)
}
