//! The chain after an IPv4 base header: an authentication header (RFC 4302, section 2), or none.
ghost use Rattle.std.specs.Prelude.{◌≡◌, [], IfOk, IfErr, OnOk, OnErr, Some, None};
ghost use Rattle.ip_spec.specs.Numbers.{AUTHENTICATION};
ghost use Rattle.ip_spec.specs.Demand.{IsLongestUnder, AtMostOneOf};
ghost use Rattle.ip_ext_slices.specs.Ipv4Longest.{longest_ipv4_chain, authentication_chain};
ghost use Rattle.ip_ext_slices.specs.Ipv4Fault.{ipv4_chain_fault};

use crate::err::ip_auth::HeaderSliceError;
use ip_base::{IpNumber, ip_number};
use ip_ext_headers::IpAuthHeaderSlice;

/// Parses the authentication header at the start of `bytes` if the number is 51; for any other number there is none.
/// Returns an error if the number is 51 and the bytes don't start with such a header. No header follows it, even if
/// its next header is 51 again.
#[inline(always)]
#[tactic(auto, using(crate::proofs::Ipv4Lemmas::one_longest, crate::proofs::Ipv4Lemmas::none_longest))]
pub fn authentication_header_at(
    number: IpNumber,
    bytes: &[u8],
) -> Result<Option<IpAuthHeaderSlice<'_>>, HeaderSliceError>
    ensures longest { IfOk result (λ h. IsLongestUnder (AtMostOneOf AUTHENTICATION) number.0
        bytes.now (authentication_chain h)) }
    ensures chain { IfOk result (λ h.
        authentication_chain h ≡ longest_ipv4_chain number.0 bytes.now) }
    ensures none { OnErr result (longest_ipv4_chain number.0 bytes.now ≡ []) }
    ensures ok { OnOk result (ipv4_chain_fault number.0 bytes.now ≡ None) }
    ensures fault { IfErr result (λ e. ipv4_chain_fault number.0 bytes.now ≡ Some e) }
{
    if number != ip_number::AUTH {
        return Ok(None);
    }
    match IpAuthHeaderSlice::from_slice(bytes) {
        Ok(header) => Ok(Some(header)),
        Err(error) => Err(error),
    }
}
