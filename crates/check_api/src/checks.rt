//! What the types have besides their contracts: the values of constants, equality and clones of the errors, clones
//! that the type's own contracts don't cover, the impls of each type, and the lifetimes of borrowed bytes. A new type
//! must be added to each of these.
ghost use Rattle.std.specs.Prelude.{◌≡◌, ◌↔◌, IsTrue, IsFalse, IfOk};
ghost use Rattle.ip_ext_chains.specs.Ipv4ExtensionsSlice.{headers_in};
ghost use Rattle.ip_ext_slices.specs.Ipv6ExtensionSlice.{header_of};
ghost use Rattle.ip_ext_slices.specs.Ipv6ExtensionsSlice.{bytes};

use etherparse_ip::err::{io, ip, ipv4, ipv6};
use etherparse_ip::io::{LimitedReader, OverRead};
use etherparse_ip::{
    IpPayloadSlice, IpSlice, Ipv4HeaderSlice, Ipv4Slice, Ipv6HeaderSlice, Ipv6Slice,
};
use ip_base::err::{Layer, LenError, ValueTooBigError};
use ip_base::{IpFragOffset, IpNumber, LenSource, ip_number};
use ip_ext_chains::err::{ipv4_exts, ipv6_exts};
use ip_ext_chains::{
    Ipv4Extensions, Ipv4ExtensionsSlice, Ipv6ExtensionSlice, Ipv6ExtensionSliceIter,
    Ipv6Extensions, Ipv6ExtensionsCursor, Ipv6ExtensionsRuns, Ipv6ExtensionsSlice,
    Ipv6RoutingExtensions, fitting_headers,
};
use ip_ext_headers::err::ip_auth;
use ip_ext_headers::err::ipv6_exts::ExtPayloadLenError;
use ip_ext_headers::{
    IpAuthHeader, IpAuthHeaderSlice, Ipv6FragmentHeader, Ipv6FragmentHeaderSlice, Ipv6RawExtHeader,
    Ipv6RawExtHeaderSlice,
};
use std::alloc::AllocError;
use std::fmt::Debug;
use std::hash::Hash;

const _: () = prove!(IpNumber::IPV6_HEADER_HOP_BY_HOP.0 == 0);

const _: () = prove!(IpNumber::UDP.0 == 17);

const _: () = prove!(IpNumber::IPV6_ROUTE_HEADER.0 == 43);

const _: () = prove!(IpNumber::IPV6_FRAGMENTATION_HEADER.0 == 44);

const _: () = prove!(IpNumber::AUTHENTICATION_HEADER.0 == 51);

const _: () = prove!(IpNumber::IPV6_NO_NEXT_HEADER.0 == 59);

const _: () = prove!(IpNumber::IPV6_DESTINATION_OPTIONS.0 == 60);

const _: () = prove!(ip_number::IPV6_HOP_BY_HOP.0 == 0);

const _: () = prove!(ip_number::UDP.0 == 17);

const _: () = prove!(ip_number::IPV6_ROUTE.0 == 43);

const _: () = prove!(ip_number::IPV6_FRAG.0 == 44);

const _: () = prove!(ip_number::AUTH.0 == 51);

const _: () = prove!(ip_number::AUTHENTICATION_HEADER.0 == 51);

const _: () = prove!(ip_number::IPV6_NO_NEXT_HEADER.0 == 59);

const _: () = prove!(ip_number::IPV6_DEST_OPTIONS.0 == 60);

const _: () = prove!(ip_number::MOBILITY.0 == 135);

const _: () = prove!(ip_number::HIP.0 == 139);

const _: () = prove!(ip_number::SHIM6.0 == 140);

const _: () = prove!(IpFragOffset::MAX_U16 == 0x1fff);

const _: () = prove!(IpAuthHeader::MIN_LEN == 12);

const _: () = prove!(IpAuthHeader::MAX_LEN == 1028);

const _: () = prove!(IpAuthHeader::MAX_ICV_LEN == 1016);

const _: () = prove!(Ipv6RawExtHeader::MIN_LEN == 8);

const _: () = prove!(Ipv6RawExtHeader::MAX_LEN == 2048);

const _: () = prove!(Ipv6RawExtHeader::MIN_PAYLOAD_LEN == 6);

const _: () = prove!(Ipv6RawExtHeader::MAX_PAYLOAD_LEN == 2046);

const _: () = prove!(Ipv6FragmentHeader::LEN == 8);

const _: () = prove!(Ipv6RoutingExtensions::MIN_LEN == 8);

const _: () = prove!(Ipv6RoutingExtensions::MAX_LEN == 4096);

const _: () = prove!(Ipv6Extensions::MIN_LEN == 0);

const _: () = prove!(Ipv6Extensions::MAX_LEN == 9228);

const _: () = prove!(Ipv4Extensions::MIN_LEN == 0);

const _: () = prove!(Ipv4Extensions::MAX_LEN == 1028);

/// Returns whether two length errors are equal, and a copy of the first.
pub fn len_error(a: &LenError, b: &LenError) -> Result<(bool, LenError), AllocError>
    ensures same { IfOk result (λ r. IsTrue r.0 ↔ (a.now ≡ b.now)) }
    ensures copy { IfOk result (λ r. r.1 ≡ a.now) }
{
    Ok((a == b, a.clone()?))
}

/// Returns whether two value errors are equal, and a copy of the first.
pub fn value_too_big(
    a: &ValueTooBigError,
    b: &ValueTooBigError,
) -> Result<(bool, ValueTooBigError), AllocError>
    ensures same { IfOk result (λ r. IsTrue r.0 ↔ (a.now ≡ b.now)) }
    ensures copy { IfOk result (λ r. r.1 ≡ a.now) }
{
    Ok((a == b, a.clone()?))
}

/// Returns whether two content errors of an authentication header are equal, and a copy of the first.
pub fn zero_payload_len(
    a: &ip_auth::HeaderError,
    b: &ip_auth::HeaderError,
) -> Result<(bool, ip_auth::HeaderError), AllocError>
    ensures same { IfOk result (λ r. IsTrue r.0 ↔ (a.now ≡ b.now)) }
    ensures copy { IfOk result (λ r. r.1 ≡ a.now) }
{
    Ok((a == b, a.clone()?))
}

/// Returns whether two length errors of an authentication header are equal.
pub fn auth_slice_error(a: LenError, b: LenError) -> bool
    ensures { IsTrue result ↔ (a ≡ b) }
{
    ip_auth::HeaderSliceError::Len(a) == ip_auth::HeaderSliceError::Len(b)
}

/// Returns whether two content errors of an authentication header are equal.
pub fn auth_slice_error_of_content(a: ip_auth::HeaderError, b: ip_auth::HeaderError) -> bool
    ensures { IsTrue result ↔ (a ≡ b) }
{
    ip_auth::HeaderSliceError::Content(a) == ip_auth::HeaderSliceError::Content(b)
}

/// Returns whether a length error of an authentication header is equal to a content error.
pub fn auth_slice_errors_differ(a: LenError, b: ip_auth::HeaderError) -> bool
    ensures { IsFalse result }
{
    ip_auth::HeaderSliceError::Len(a) == ip_auth::HeaderSliceError::Content(b)
}

/// Returns a copy of an error of an authentication header.
pub fn auth_slice_error_copy(
    e: &ip_auth::HeaderSliceError,
) -> Result<ip_auth::HeaderSliceError, AllocError>
    ensures { IfOk result (λ copy. copy ≡ e.now) }
{
    e.clone()
}

/// Returns whether two errors of a check value are equal, and a copy of the first.
pub fn icv_len(
    a: &ip_auth::IcvLenError,
    b: &ip_auth::IcvLenError,
) -> Result<(bool, ip_auth::IcvLenError), AllocError>
    ensures same { IfOk result (λ r. IsTrue r.0 ↔ (a.now ≡ b.now)) }
    ensures copy { IfOk result (λ r. r.1 ≡ a.now) }
{
    Ok((a == b, a.clone()?))
}

/// Returns whether two errors of a payload are equal, and a copy of the first.
pub fn payload_len(
    a: &ExtPayloadLenError,
    b: &ExtPayloadLenError,
) -> Result<(bool, ExtPayloadLenError), AllocError>
    ensures same { IfOk result (λ r. IsTrue r.0 ↔ (a.now ≡ b.now)) }
    ensures copy { IfOk result (λ r. r.1 ≡ a.now) }
{
    Ok((a == b, a.clone()?))
}

/// Returns whether two content errors of a chain are equal, and a copy of the first.
pub fn exts_content(
    a: &ipv6_exts::HeaderError,
    b: &ipv6_exts::HeaderError,
) -> Result<(bool, ipv6_exts::HeaderError), AllocError>
    ensures same { IfOk result (λ r. IsTrue r.0 ↔ (a.now ≡ b.now)) }
    ensures copy { IfOk result (λ r. r.1 ≡ a.now) }
{
    Ok((a == b, a.clone()?))
}

/// Returns whether two length errors of a chain are equal.
pub fn exts_slice_error(a: LenError, b: LenError) -> bool
    ensures { IsTrue result ↔ (a ≡ b) }
{
    ipv6_exts::HeaderSliceError::Len(a) == ipv6_exts::HeaderSliceError::Len(b)
}

/// Returns whether two content errors of a chain are equal.
pub fn exts_slice_error_of_content(a: ipv6_exts::HeaderError, b: ipv6_exts::HeaderError) -> bool
    ensures { IsTrue result ↔ (a ≡ b) }
{
    ipv6_exts::HeaderSliceError::Content(a) == ipv6_exts::HeaderSliceError::Content(b)
}

/// Returns whether a length error of a chain is equal to a content error.
pub fn exts_slice_errors_differ(a: LenError, b: ipv6_exts::HeaderError) -> bool
    ensures { IsFalse result }
{
    ipv6_exts::HeaderSliceError::Len(a) == ipv6_exts::HeaderSliceError::Content(b)
}

/// Returns a copy of an error of a chain.
pub fn exts_slice_error_copy(
    e: &ipv6_exts::HeaderSliceError,
) -> Result<ipv6_exts::HeaderSliceError, AllocError>
    ensures { IfOk result (λ copy. copy ≡ e.now) }
{
    e.clone()
}

/// Returns whether two errors of a walk over IPv4 extension headers are equal, and a copy of the first.
pub fn ipv4_walk(
    a: &ipv4_exts::ExtsWalkError,
    b: &ipv4_exts::ExtsWalkError,
) -> Result<(bool, ipv4_exts::ExtsWalkError), AllocError>
    ensures same { IfOk result (λ r. IsTrue r.0 ↔ (a.now ≡ b.now)) }
    ensures copy { IfOk result (λ r. r.1 ≡ a.now) }
{
    Ok((a == b, a.clone()?))
}

/// Returns whether two errors of a walk over IPv6 extension headers are equal, and a copy of the first.
pub fn ipv6_walk(
    a: &ipv6_exts::ExtsWalkError,
    b: &ipv6_exts::ExtsWalkError,
) -> Result<(bool, ipv6_exts::ExtsWalkError), AllocError>
    ensures same { IfOk result (λ r. IsTrue r.0 ↔ (a.now ≡ b.now)) }
    ensures copy { IfOk result (λ r. r.1 ≡ a.now) }
{
    Ok((a == b, a.clone()?))
}

/// Returns a copy of a protocol number.
pub fn number_copy(number: &IpNumber) -> Result<IpNumber, AllocError>
    ensures { IfOk result (λ copy. copy ≡ number.now) }
{
    number.clone()
}

/// Returns a copy of a fragment offset.
pub fn offset_copy(offset: &IpFragOffset) -> Result<IpFragOffset, AllocError>
    ensures { IfOk result (λ copy. copy ≡ offset.now) }
{
    offset.clone()
}

/// Returns a copy of a length source.
pub fn source_copy(source: &LenSource) -> Result<LenSource, AllocError>
    ensures { IfOk result (λ copy. copy ≡ source.now) }
{
    source.clone()
}

/// Returns a copy of a layer.
pub fn layer_copy(layer: &Layer) -> Result<Layer, AllocError>
    ensures { IfOk result (λ copy. copy ≡ layer.now) }
{
    layer.clone()
}

/// Returns a copy of the headers of an IPv4 packet.
pub fn ipv4_headers_copy<'a>(
    headers: &Ipv4ExtensionsSlice<'a>,
) -> Result<Ipv4ExtensionsSlice<'a>, AllocError>
    ensures { IfOk result (λ copy. headers_in copy ≡ headers_in headers.now) }
{
    headers.clone()
}

/// Returns a copy of one header of an IPv6 chain.
pub fn ipv6_header_copy<'a>(
    header: &Ipv6ExtensionSlice<'a>,
) -> Result<Ipv6ExtensionSlice<'a>, AllocError>
    ensures { IfOk result (λ copy. header_of copy ≡ header_of header.now) }
{
    header.clone()
}

/// Checks that the bytes of a chain live as long as the packet, and not only as long as the chain.
pub fn bytes_after_the_chain<'a>(headers: Ipv6ExtensionsSlice<'a>) -> &'a [u8]
    ensures { result.now ≡ bytes headers.entry }
{
    headers.slice()
}

/// Checks that the bytes of one header of a chain live as long as the packet.
pub fn bytes_after_the_header<'a>(header: Ipv6ExtensionSlice<'a>) -> &'a [u8]
    ensures { result.now ≡ (header_of header.entry).bytes }
{
    header.slice()
}

/// Checks that the parts of single headers live as long as the packet.
pub fn parts_after_the_headers<'a>(
    raw: Ipv6RawExtHeaderSlice<'a>,
    fragment: Ipv6FragmentHeaderSlice<'a>,
    auth: IpAuthHeaderSlice<'a>,
) -> [&'a [u8]; 5] {
    [
        raw.slice(),
        raw.payload(),
        fragment.slice(),
        auth.slice(),
        auth.raw_icv(),
    ]
}

/// Checks that the bytes after the runs of a chain live as long as the packet.
pub fn rest_after_the_runs<'a>(runs: Ipv6ExtensionsRuns<'a>) -> Option<&'a [u8]> {
    match runs.end() {
        Some((_, rest, _)) => Some(rest),
        None => None,
    }
}

/// Checks that the headers that fit six places, and the bytes after them, live as long as the packet.
pub fn fitting_headers_of<'a>(packet: &'a [u8]) -> (Ipv6ExtensionsSlice<'a>, &'a [u8]) {
    let (headers, _, rest, _) = fitting_headers(IpNumber(0), packet);
    (headers, rest)
}

/// Checks that a cursor's headers, and the bytes after them, live as long as the packet.
pub fn next_and_rest_of_the_cursor<'a>(
    mut headers: Ipv6ExtensionsCursor<'a>,
) -> (Option<Ipv6ExtensionSlice<'a>>, &'a [u8], Option<&'a [u8]>) {
    let next = headers.next();
    let after = match headers.end() {
        Some((_, rest, _)) => Some(rest),
        None => None,
    };
    (next, headers.rest(), after)
}

/// Requires a type that can be copied.
fn needs_copy<T: Copy>(value: &T) -> T {
    *value
}

/// Requires a type that can be cloned, compared, hashed and printed.
fn needs_hash<T: Clone + Eq + Hash + Debug>(a: &T, b: &T) -> bool {
    a == b
}

/// Requires a type that can be cloned, compared and printed.
fn needs_eq<T: Clone + Eq + Debug>(a: &T, b: &T) -> bool {
    a == b
}

/// Requires a type that can be printed.
fn needs_debug<T: Debug>(_value: &T) {}

/// Requires a type with a default.
fn needs_default<T: Default>() -> T {
    T::default()
}

/// Checks that these types can be copied.
pub fn copies(
    number: IpNumber,
    offset: IpFragOffset,
    source: LenSource,
    layer: Layer,
    header: IpAuthHeaderSlice<'_>,
    headers: Ipv4ExtensionsSlice<'_>,
    ipv4: Ipv4HeaderSlice<'_>,
    ipv6: Ipv6HeaderSlice<'_>,
) {
    let _ = needs_copy(&number);
    let _ = needs_copy(&offset);
    let _ = needs_copy(&source);
    let _ = needs_copy(&layer);
    let _ = needs_copy(&header);
    let _ = needs_copy(&headers);
    let _ = needs_copy(&ipv4);
    let _ = needs_copy(&ipv6);
}

/// Checks that owned headers can be cloned, compared and printed.
pub fn owned_are_compared(
    raw: &Ipv6RawExtHeader,
    fragment: &Ipv6FragmentHeader,
    auth: &IpAuthHeader,
    routing: &Ipv6RoutingExtensions,
    ipv4: &Ipv4Extensions,
    ipv6: &Ipv6Extensions,
) -> bool {
    needs_eq(raw, raw)
        && needs_eq(fragment, fragment)
        && needs_eq(auth, auth)
        && needs_eq(routing, routing)
        && needs_eq(ipv4, ipv4)
        && needs_eq(ipv6, ipv6)
}

/// Checks that borrowed headers can be cloned, compared and printed.
pub fn borrowed_are_compared(
    raw: &Ipv6RawExtHeaderSlice<'_>,
    fragment: &Ipv6FragmentHeaderSlice<'_>,
    auth: &IpAuthHeaderSlice<'_>,
    header: &Ipv6ExtensionSlice<'_>,
    ipv4: &Ipv4ExtensionsSlice<'_>,
    ipv6: &Ipv6ExtensionsSlice<'_>,
    iterator: &Ipv6ExtensionSliceIter<'_>,
    cursor: &Ipv6ExtensionsCursor<'_>,
) -> bool {
    needs_eq(raw, raw)
        && needs_eq(fragment, fragment)
        && needs_eq(auth, auth)
        && needs_eq(header, header)
        && needs_eq(ipv4, ipv4)
        && needs_eq(ipv6, ipv6)
        && needs_eq(iterator, iterator)
        && needs_eq(cursor, cursor)
}

/// Checks that base headers, packets and their payloads can be cloned, compared and printed.
pub fn packets_are_compared(
    ipv4_header: &Ipv4HeaderSlice<'_>,
    ipv6_header: &Ipv6HeaderSlice<'_>,
    payload: &IpPayloadSlice<'_>,
    ipv4: &Ipv4Slice<'_>,
    ipv6: &Ipv6Slice<'_>,
    packet: &IpSlice<'_>,
) -> bool {
    needs_eq(ipv4_header, ipv4_header)
        && needs_eq(ipv6_header, ipv6_header)
        && needs_eq(payload, payload)
        && needs_eq(ipv4, ipv4)
        && needs_eq(ipv6, ipv6)
        && needs_eq(packet, packet)
}

/// Checks that the runs of a chain and the errors of writes can be printed. They can't be compared.
pub fn printed(
    runs: &Ipv6ExtensionsRuns<'_>,
    write: &ipv4_exts::HeaderWriteError,
    write6: &ipv6_exts::HeaderWriteError,
) {
    needs_debug(runs);
    needs_debug(write);
    needs_debug(write6);
}

/// Checks that the errors of reads can be printed.
pub fn read_errors_printed(
    limited: &io::LimitedReadError,
    auth: &ip_auth::HeaderReadError,
    auth_limited: &ip_auth::HeaderLimitedReadError,
    chain: &ipv6_exts::HeaderReadError,
    chain_limited: &ipv6_exts::HeaderLimitedReadError,
) {
    needs_debug(limited);
    needs_debug(auth);
    needs_debug(auth_limited);
    needs_debug(chain);
    needs_debug(chain_limited);
}

/// Checks that readers can be printed if their inner readers can.
pub fn readers_printed<T: Debug>(limited: &LimitedReader<T>, over: &OverRead<T>) {
    needs_debug(limited);
    needs_debug(over);
}

/// Returns the defaults of owned single headers.
pub fn header_defaults() -> (IpAuthHeader, Ipv6RawExtHeader) {
    (needs_default(), needs_default())
}

/// Returns the defaults of chains.
pub fn chain_defaults<'a>() -> (
    Ipv4Extensions,
    Ipv6Extensions,
    Ipv4ExtensionsSlice<'a>,
    Ipv6ExtensionsSlice<'a>,
    Ipv6ExtensionSliceIter<'a>,
    Ipv6ExtensionsCursor<'a>,
) {
    (
        needs_default(),
        needs_default(),
        needs_default(),
        needs_default(),
        needs_default(),
        needs_default(),
    )
}

/// Checks that these types can be hashed, besides the errors.
pub fn hashes(number: IpNumber, offset: IpFragOffset, source: LenSource, layer: Layer) -> bool {
    needs_hash(&number, &number)
        && needs_hash(&offset, &offset)
        && needs_hash(&source, &source)
        && needs_hash(&layer, &layer)
}

/// Checks that the errors can be hashed.
pub fn error_hashes(
    len: &LenError,
    value: &ValueTooBigError,
    auth: &ip_auth::HeaderSliceError,
    icv: &ip_auth::IcvLenError,
    payload: &ExtPayloadLenError,
    chain: &ipv6_exts::HeaderSliceError,
    walk: &ipv4_exts::ExtsWalkError,
    walk6: &ipv6_exts::ExtsWalkError,
) -> bool {
    needs_hash(len, len)
        && needs_hash(value, value)
        && needs_hash(auth, auth)
        && needs_hash(icv, icv)
        && needs_hash(payload, payload)
        && needs_hash(chain, chain)
        && needs_hash(walk, walk)
        && needs_hash(walk6, walk6)
}

/// Checks that the errors of base headers and of packets can be hashed.
pub fn packet_error_hashes(
    ipv4_header: &ipv4::HeaderSliceError,
    ipv6_header: &ipv6::HeaderSliceError,
    ipv4: &ipv4::SliceError,
    ipv6: &ipv6::SliceError,
    packet: &ip::SliceError,
) -> bool {
    needs_hash(ipv4_header, ipv4_header)
        && needs_hash(ipv6_header, ipv6_header)
        && needs_hash(ipv4, ipv4)
        && needs_hash(ipv6, ipv6)
        && needs_hash(packet, packet)
}
