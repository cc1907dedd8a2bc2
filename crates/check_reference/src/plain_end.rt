//! Why the extension headers of a packet end, computed in the simplest way.
ghost use Rattle.std.specs.Prelude.{◌≡◌, ◌<◌, length};
ghost use Rattle.std.specs.Option.{option_map, option_map_or};
ghost use Rattle.ip_base.specs.declared.len_source.LenSource.TheVariants.{Slice};
ghost use Rattle.ip_ext_headers.specs.HeaderFault.{auth_in_packet};
ghost use Rattle.ip_ext_slices.specs.Ipv4Fault.{ipv4_chain_fault};
ghost use Rattle.ip_dissect.specs.End.{len_end, auth_end, exts_end, needing, states_zero};
ghost use Rattle.ip_dissect.specs.declared.end.End.TheVariants.{Payload};

use crate::chain::next_len;
use crate::plain_packet::plain_auth_fault;
use etherparse_ip::err::ip::{HeadersError, SliceError};
use etherparse_ip::err::{ip_auth, ipv6_exts};
use ip_base::LenSource;
use ip_base::err::{Layer, LenError};
use ip_dissect::End;

/// Returns the end at a length error: a fault if the stated length leaves too few bytes, otherwise truncated.
fn len_end(stated: Option<usize>, field: LenSource, e: LenError, header: Option<Layer>) -> End
    ensures { result ≡ len_end stated field e header }
{
    let Some(stated) = stated else {
        return End::Truncated { error: e, header };
    };
    let len = stated.saturating_sub(e.layer_start_offset);
    if e.required_len <= len {
        return End::Truncated { error: e, header };
    }
    let error = LenError {
        len,
        len_source: field,
        ..e
    };
    End::Fault {
        error: SliceError::Len(error),
        header,
    }
}

/// Returns the error with the length that the header states, if its second byte is there.
fn with_stated_len(header: Layer, e: LenError, rest: &[u8]) -> LenError
    ensures { result ≡ needing header rest.now e }
{
    let stated = match (header, rest.get(1)) {
        (Layer::Ipv6FragHeader, _) => None,
        (Layer::IpAuthHeader, Some(byte)) => Some(8 + 4 * usize::from(*byte)),
        (_, Some(byte)) => Some(8 + 8 * usize::from(*byte)),
        (_, None) => None,
    };
    match stated {
        Some(required_len) => LenError { required_len, ..e },
        None => e,
    }
}

/// Returns whether the header is an authentication header whose second byte is there, and is 0.
fn has_zero_len(header: Layer, rest: &[u8]) -> bool
    ensures { result ≡ states_zero header rest.now }
{
    match (header, rest.get(1)) {
        (Layer::IpAuthHeader, Some(byte)) => *byte == 0,
        (_, _) => false,
    }
}

/// Returns the end of an IPv6 packet with this error at the bytes `rest`, after its extension headers.
pub(crate) fn exts_end(
    fault: Option<(ipv6_exts::HeaderSliceError, Layer)>,
    rest: &[u8],
    stated: Option<usize>,
) -> End
    ensures { result ≡ option_map_or (exts_end stated rest.now) fault Payload }
{
    let (error, header) = match fault {
        None => return End::Payload,
        Some((ipv6_exts::HeaderSliceError::Len(e), header)) if !has_zero_len(header, rest) => {
            let e = with_stated_len(header, e, rest);
            return len_end(stated, LenSource::Ipv6HeaderPayloadLen, e, Some(header));
        }
        Some((ipv6_exts::HeaderSliceError::Len(_), header)) => {
            let zero = ip_auth::HeaderError::ZeroPayloadLen;
            (ipv6_exts::HeaderError::IpAuth(zero), header)
        }
        Some((ipv6_exts::HeaderSliceError::Content(e), header)) => (e, header),
    };
    End::Fault {
        error: SliceError::IpHeaders(HeadersError::Ipv6Ext(error)),
        header: Some(header),
    }
}

/// Returns the error after an IPv4 base header of this length and protocol.
pub(crate) fn ipv4_fault(
    protocol: u8,
    after: &[u8],
    base_len: usize,
) -> Option<ip_auth::HeaderSliceError>
    ensures { result
        ≡ option_map (auth_in_packet Slice base_len) (ipv4_chain_fault protocol after.now) }
{
    if protocol != 51 {
        return None;
    }
    match next_len(true, 51, after) {
        Some(_) => None,
        None => plain_auth_fault(after, LenSource::Slice, base_len),
    }
}

/// Returns the end of an IPv4 packet with this error at the bytes `rest`, after its base header.
pub(crate) fn auth_end(
    fault: Option<ip_auth::HeaderSliceError>,
    rest: &[u8],
    stated: Option<usize>,
) -> End
    ensures { result ≡ option_map_or (auth_end stated rest.now) fault Payload }
{
    let error = match fault {
        None => return End::Payload,
        Some(ip_auth::HeaderSliceError::Len(e)) if !has_zero_len(Layer::IpAuthHeader, rest) => {
            let e = with_stated_len(Layer::IpAuthHeader, e, rest);
            return len_end(stated, LenSource::Ipv4HeaderTotalLen, e, None);
        }
        Some(ip_auth::HeaderSliceError::Len(_)) => ip_auth::HeaderError::ZeroPayloadLen,
        Some(ip_auth::HeaderSliceError::Content(e)) => e,
    };
    End::Fault {
        error: SliceError::IpHeaders(HeadersError::Ipv4Ext(error)),
        header: None,
    }
}
