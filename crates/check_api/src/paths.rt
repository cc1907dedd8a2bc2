//! The paths of `etherparse_ip`. Each item of the original's layer of extension headers has the path that it has
//! there, and so do this library's own items. A path that is missing is an error here.
use std::alloc::AllocError;

/// Numbers, length sources, and the payload.
pub fn base(
    _number: etherparse_ip::IpNumber,
    _offset: etherparse_ip::IpFragOffset,
    _source: etherparse_ip::LenSource,
    _payload: &etherparse_ip::IpPayloadSlice<'_>,
    _ipv4: &etherparse_ip::Ipv4HeaderSlice<'_>,
    _ipv6: &etherparse_ip::Ipv6HeaderSlice<'_>,
) -> (usize, usize) {
    (
        etherparse_ip::Ipv4Header::MIN_LEN,
        etherparse_ip::Ipv6Header::LEN,
    )
}

/// The constants of `IpNumber` and of `ip_number`.
pub fn numbers() -> [etherparse_ip::IpNumber; 18] {
    [
        etherparse_ip::IpNumber::IPV6_HEADER_HOP_BY_HOP,
        etherparse_ip::IpNumber::UDP,
        etherparse_ip::IpNumber::IPV6_ROUTE_HEADER,
        etherparse_ip::IpNumber::IPV6_FRAGMENTATION_HEADER,
        etherparse_ip::IpNumber::AUTHENTICATION_HEADER,
        etherparse_ip::IpNumber::IPV6_NO_NEXT_HEADER,
        etherparse_ip::IpNumber::IPV6_DESTINATION_OPTIONS,
        etherparse_ip::ip_number::IPV6_HOP_BY_HOP,
        etherparse_ip::ip_number::UDP,
        etherparse_ip::ip_number::IPV6_ROUTE,
        etherparse_ip::ip_number::IPV6_FRAG,
        etherparse_ip::ip_number::AUTH,
        etherparse_ip::ip_number::AUTHENTICATION_HEADER,
        etherparse_ip::ip_number::IPV6_NO_NEXT_HEADER,
        etherparse_ip::ip_number::IPV6_DEST_OPTIONS,
        etherparse_ip::ip_number::MOBILITY,
        etherparse_ip::ip_number::HIP,
        etherparse_ip::ip_number::SHIM6,
    ]
}

/// Single headers, with their former names.
pub fn single_headers(
    _auth: &etherparse_ip::IpAuthHeader,
    _auth_of_old: &etherparse_ip::IpAuthenticationHeader,
    _auth_of_ipv6: &etherparse_ip::IPv6AuthenticationHeader,
    _raw: &etherparse_ip::Ipv6RawExtHeader,
    _raw_of_old: &etherparse_ip::Ipv6RawExtensionHeader,
    _fragment: &etherparse_ip::Ipv6FragmentHeader,
) {}

/// Borrowed single headers.
pub fn header_slices(
    _auth: &etherparse_ip::IpAuthHeaderSlice<'_>,
    _auth_of_old: &etherparse_ip::IpAuthenticationHeaderSlice<'_>,
    _raw: &etherparse_ip::Ipv6RawExtHeaderSlice<'_>,
    _raw_of_old: &etherparse_ip::Ipv6RawExtensionHeaderSlice<'_>,
    _fragment: &etherparse_ip::Ipv6FragmentHeaderSlice<'_>,
) {}

/// Owned chains.
pub fn chains(
    _ipv4: &etherparse_ip::Ipv4Extensions,
    _ipv6: &etherparse_ip::Ipv6Extensions,
    _routing: &etherparse_ip::Ipv6RoutingExtensions,
    _runs: &etherparse_ip::Ipv6ExtensionsRuns<'_>,
) {}

/// Borrowed chains.
pub fn chain_slices(
    _ipv4: &etherparse_ip::Ipv4ExtensionsSlice<'_>,
    _ipv6: &etherparse_ip::Ipv6ExtensionsSlice<'_>,
    _header: &etherparse_ip::Ipv6ExtensionSlice<'_>,
    _iterator: &etherparse_ip::Ipv6ExtensionSliceIter<'_>,
    _cursor: &etherparse_ip::Ipv6ExtensionsCursor<'_>,
) {}

/// Borrowed headers that fit six places, and a copy of them with reserved bits zero.
pub fn borrowed_headers(packet: &[u8], out: &mut Vec<u8>) -> Result<(), AllocError> {
    let (headers, _, _, _) = etherparse_ip::fitting_headers(etherparse_ip::IpNumber(0), packet);
    out.clear();
    out.extend_from_slice(headers.slice())?;
    etherparse_ip::clear_chain(&headers, out.as_mut_slice());
    Ok(())
}

/// Packets, and their law.
pub fn packets(
    _ipv4: &etherparse_ip::Ipv4Slice<'_>,
    _ipv6: &etherparse_ip::Ipv6Slice<'_>,
    _either: &etherparse_ip::IpSlice<'_>,
) {
    etherparse_ip::one_packet();
}

/// Readers.
pub fn readers<T: etherparse_ip::io::ExactRead>(
    _limited: &etherparse_ip::io::LimitedReader<T>,
    _over: &etherparse_ip::io::OverRead<AllocError>,
    _error: &etherparse_ip::err::io::LimitedReadError,
) {}

/// Errors of the base layer.
pub fn base_errors(
    _layer: etherparse_ip::err::Layer,
    _len: &etherparse_ip::err::LenError,
    _value: &etherparse_ip::err::ValueTooBigError,
    _ipv4: &etherparse_ip::err::ipv4::HeaderError,
    _ipv4_slice: &etherparse_ip::err::ipv4::HeaderSliceError,
    _ipv6: &etherparse_ip::err::ipv6::HeaderError,
    _ipv6_slice: &etherparse_ip::err::ipv6::HeaderSliceError,
) {}

/// Errors of single headers.
pub fn header_errors(
    _auth: &etherparse_ip::err::ip_auth::HeaderError,
    _slice: &etherparse_ip::err::ip_auth::HeaderSliceError,
    _read: &etherparse_ip::err::ip_auth::HeaderReadError,
    _limited: &etherparse_ip::err::ip_auth::HeaderLimitedReadError,
    _icv: &etherparse_ip::err::ip_auth::IcvLenError,
    _payload: &etherparse_ip::err::ipv6_exts::ExtPayloadLenError,
) {}

/// Errors of chains.
pub fn chain_errors(
    _header: &etherparse_ip::err::ipv6_exts::HeaderError,
    _slice: &etherparse_ip::err::ipv6_exts::HeaderSliceError,
    _read: &etherparse_ip::err::ipv6_exts::HeaderReadError,
    _limited: &etherparse_ip::err::ipv6_exts::HeaderLimitedReadError,
    _walk: &etherparse_ip::err::ipv6_exts::ExtsWalkError,
    _write: &etherparse_ip::err::ipv6_exts::HeaderWriteError,
    _ipv4_walk: &etherparse_ip::err::ipv4_exts::ExtsWalkError,
    _ipv4_write: &etherparse_ip::err::ipv4_exts::HeaderWriteError,
) {}

/// Errors of extension headers of either IP version.
pub fn either_version_errors(
    _walk: &etherparse_ip::err::ip_exts::ExtsWalkError,
    _header: &etherparse_ip::err::ip_exts::HeaderError,
    _slice: &etherparse_ip::err::ip_exts::HeadersSliceError,
) {}

/// Errors of packets.
pub fn packet_errors(
    _header: &etherparse_ip::err::ip::HeaderError,
    _headers: &etherparse_ip::err::ip::HeadersError,
    _headers_slice: &etherparse_ip::err::ip::HeadersSliceError,
    _slice: &etherparse_ip::err::ip::SliceError,
    _ipv4: &etherparse_ip::err::ipv4::SliceError,
    _ipv6: &etherparse_ip::err::ipv6::SliceError,
) {}

/// Causes of errors, also by the paths of the crates below.
pub fn sources<'a>(
    of_header: ip_ext_headers::err::Source<'a>,
    of_chain: ip_ext_chains::err::ChainSource<'a>,
    of_packet: etherparse_ip::err::PacketSource<'a>,
) -> (
    etherparse_ip::err::Source<'a>,
    etherparse_ip::err::ChainSource<'a>,
    etherparse_ip::err::PacketSource<'a>,
) {
    (of_header, of_chain, of_packet)
}
