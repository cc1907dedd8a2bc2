//! Proofs that headers can be written, from the ranges of their fields. The functions here do nothing at run time.
ghost use Rattle.std.specs.Prelude.{ℕ, length};
ghost use Rattle.ip_spec.specs.Header.{IsRawNumber};
ghost use Rattle.ip_spec.specs.Numbers.{FRAGMENT, AUTHENTICATION};
ghost use Rattle.ip_spec.specs.Lengths.{IsPayloadLen, IsIcvLen};
ghost use Rattle.ip_spec.specs.Chain.{ExtHeader};
ghost use Rattle.ip_spec.specs.Places.{raw_header, fragment_header, auth_header};
ghost use Rattle.ip_spec.specs.Encodable.{IsEncoded};

use ip_base::{IpFragOffset, IpNumber};

/// Proves that a header in the uniform format (RFC 6564) can be written.
#[inline(always)]
pub(crate) fn raw_encodable(next_header: IpNumber, payload: &[u8])
    requires { IsPayloadLen (length payload.now) }
    ensures { (n : ℕ) → IsRawNumber n → (h : ExtHeader) × IsEncoded n
        (raw_header (record { next_header = next_header.0; payload = payload.now })) h }
{}

/// Proves that a fragment header can be written.
#[inline(always)]
pub(crate) fn fragment_encodable(
    next_header: IpNumber,
    fragment_offset: IpFragOffset,
    more_fragments: bool,
    identification: u32,
)
    ensures { (h : ExtHeader) × IsEncoded FRAGMENT (fragment_header (record {
      next_header = next_header.0;
      fragment_offset = fragment_offset;
      more_fragments = more_fragments;
      identification = identification;
    })) h }
{
    let _offset = fragment_offset.value();
}

/// Proves that an authentication header can be written.
#[inline(always)]
pub(crate) fn auth_encodable(next_header: IpNumber, spi: u32, sequence_number: u32, raw_icv: &[u8])
    requires { IsIcvLen (length raw_icv.now) }
    ensures { (h : ExtHeader) × IsEncoded AUTHENTICATION (auth_header (record {
      next_header = next_header.0;
      spi = spi;
      sequence_number = sequence_number;
      raw_icv = raw_icv.now;
    })) h }
{}
