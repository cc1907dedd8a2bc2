//! Callers for each result of an error's `source`: it is the value in the variant.
ghost use Rattle.std.specs.Prelude.{◌≡◌, IfOk};

use etherparse_ip::err::{
    ChainSource, LenError, PacketSource, Source, io, ip, ip_auth, ip_exts, ipv4, ipv4_exts, ipv6,
    ipv6_exts,
};
use std::alloc::AllocError;
use std::io::Error;

/// Returns a copy of the `source` of `io::LimitedReadError::Io`.
pub fn source_of_limited_read(inner: Error) -> Result<Error, AllocError>
    ensures { IfOk result (λ copy. copy ≡ inner) }
{
    let error = io::LimitedReadError::Io(inner);
    match error.source() {
        Some(Source::Io(e)) => e.clone(),
        _ => unreachable!(),
    }
}

/// Returns a copy of the `source` of `io::LimitedReadError::Len`.
pub fn source_of_limited_read_past_its_limit(inner: LenError) -> Result<LenError, AllocError>
    ensures { IfOk result (λ copy. copy ≡ inner) }
{
    let error = io::LimitedReadError::Len(inner);
    match error.source() {
        Some(Source::Len(e)) => e.clone(),
        _ => unreachable!(),
    }
}

/// Returns a copy of the `source` of `ip_auth::HeaderSliceError::Len`.
pub fn source_of_short_authentication(inner: LenError) -> Result<LenError, AllocError>
    ensures { IfOk result (λ copy. copy ≡ inner) }
{
    let error = ip_auth::HeaderSliceError::Len(inner);
    match error.source() {
        Some(Source::Len(e)) => e.clone(),
        _ => unreachable!(),
    }
}

/// Returns a copy of the `source` of `ip_auth::HeaderSliceError::Content`.
pub fn source_of_wrong_authentication(
    inner: ip_auth::HeaderError,
) -> Result<ip_auth::HeaderError, AllocError>
    ensures { IfOk result (λ copy. copy ≡ inner) }
{
    let error = ip_auth::HeaderSliceError::Content(inner);
    match error.source() {
        Some(Source::IpAuth(e)) => e.clone(),
        _ => unreachable!(),
    }
}

/// Returns a copy of the `source` of `ip_auth::HeaderReadError::Io`.
pub fn source_of_failed_authentication_read(inner: Error) -> Result<Error, AllocError>
    ensures { IfOk result (λ copy. copy ≡ inner) }
{
    let error = ip_auth::HeaderReadError::Io(inner);
    match error.source() {
        Some(Source::Io(e)) => e.clone(),
        _ => unreachable!(),
    }
}

/// Returns a copy of the `source` of `ip_auth::HeaderReadError::Content`.
pub fn source_of_wrong_authentication_read(
    inner: ip_auth::HeaderError,
) -> Result<ip_auth::HeaderError, AllocError>
    ensures { IfOk result (λ copy. copy ≡ inner) }
{
    let error = ip_auth::HeaderReadError::Content(inner);
    match error.source() {
        Some(Source::IpAuth(e)) => e.clone(),
        _ => unreachable!(),
    }
}

/// Returns a copy of the `source` of `ip_auth::HeaderLimitedReadError::Io`.
pub fn source_of_failed_limited_authentication_read(inner: Error) -> Result<Error, AllocError>
    ensures { IfOk result (λ copy. copy ≡ inner) }
{
    let error = ip_auth::HeaderLimitedReadError::Io(inner);
    match error.source() {
        Some(Source::Io(e)) => e.clone(),
        _ => unreachable!(),
    }
}

/// Returns a copy of the `source` of `ip_auth::HeaderLimitedReadError::Len`.
pub fn source_of_limited_authentication_read_past_its_limit(
    inner: LenError,
) -> Result<LenError, AllocError>
    ensures { IfOk result (λ copy. copy ≡ inner) }
{
    let error = ip_auth::HeaderLimitedReadError::Len(inner);
    match error.source() {
        Some(Source::Len(e)) => e.clone(),
        _ => unreachable!(),
    }
}

/// Returns a copy of the `source` of `ip_auth::HeaderLimitedReadError::Content`.
pub fn source_of_wrong_limited_authentication_read(
    inner: ip_auth::HeaderError,
) -> Result<ip_auth::HeaderError, AllocError>
    ensures { IfOk result (λ copy. copy ≡ inner) }
{
    let error = ip_auth::HeaderLimitedReadError::Content(inner);
    match error.source() {
        Some(Source::IpAuth(e)) => e.clone(),
        _ => unreachable!(),
    }
}

/// Returns a copy of the `source` of `ipv6_exts::HeaderError::IpAuth`.
pub fn source_of_wrong_header_in_a_chain(
    inner: ip_auth::HeaderError,
) -> Result<ip_auth::HeaderError, AllocError>
    ensures { IfOk result (λ copy. copy ≡ inner) }
{
    let error = ipv6_exts::HeaderError::IpAuth(inner);
    match error.source() {
        Some(ChainSource::IpAuth(e)) => e.clone(),
        _ => unreachable!(),
    }
}

/// Returns a copy of the `source` of `ipv6_exts::HeaderSliceError::Len`.
pub fn source_of_short_chain(inner: LenError) -> Result<LenError, AllocError>
    ensures { IfOk result (λ copy. copy ≡ inner) }
{
    let error = ipv6_exts::HeaderSliceError::Len(inner);
    match error.source() {
        Some(ChainSource::Len(e)) => e.clone(),
        _ => unreachable!(),
    }
}

/// Returns a copy of the `source` of `ipv6_exts::HeaderSliceError::Content`.
pub fn source_of_wrong_chain(
    inner: ipv6_exts::HeaderError,
) -> Result<ipv6_exts::HeaderError, AllocError>
    ensures { IfOk result (λ copy. copy ≡ inner) }
{
    let error = ipv6_exts::HeaderSliceError::Content(inner);
    match error.source() {
        Some(ChainSource::Ipv6Exts(e)) => e.clone(),
        _ => unreachable!(),
    }
}

/// Returns a copy of the `source` of `ipv6_exts::HeaderReadError::Io`.
pub fn source_of_failed_chain_read(inner: Error) -> Result<Error, AllocError>
    ensures { IfOk result (λ copy. copy ≡ inner) }
{
    let error = ipv6_exts::HeaderReadError::Io(inner);
    match error.source() {
        Some(ChainSource::Io(e)) => e.clone(),
        _ => unreachable!(),
    }
}

/// Returns a copy of the `source` of `ipv6_exts::HeaderReadError::Content`.
pub fn source_of_wrong_chain_read(
    inner: ipv6_exts::HeaderError,
) -> Result<ipv6_exts::HeaderError, AllocError>
    ensures { IfOk result (λ copy. copy ≡ inner) }
{
    let error = ipv6_exts::HeaderReadError::Content(inner);
    match error.source() {
        Some(ChainSource::Ipv6Exts(e)) => e.clone(),
        _ => unreachable!(),
    }
}

/// Returns a copy of the `source` of `ipv6_exts::HeaderLimitedReadError::Io`.
pub fn source_of_failed_limited_chain_read(inner: Error) -> Result<Error, AllocError>
    ensures { IfOk result (λ copy. copy ≡ inner) }
{
    let error = ipv6_exts::HeaderLimitedReadError::Io(inner);
    match error.source() {
        Some(ChainSource::Io(e)) => e.clone(),
        _ => unreachable!(),
    }
}

/// Returns a copy of the `source` of `ipv6_exts::HeaderLimitedReadError::Len`.
pub fn source_of_limited_chain_read_past_its_limit(inner: LenError) -> Result<LenError, AllocError>
    ensures { IfOk result (λ copy. copy ≡ inner) }
{
    let error = ipv6_exts::HeaderLimitedReadError::Len(inner);
    match error.source() {
        Some(ChainSource::Len(e)) => e.clone(),
        _ => unreachable!(),
    }
}

/// Returns a copy of the `source` of `ipv6_exts::HeaderLimitedReadError::Content`.
pub fn source_of_wrong_limited_chain_read(
    inner: ipv6_exts::HeaderError,
) -> Result<ipv6_exts::HeaderError, AllocError>
    ensures { IfOk result (λ copy. copy ≡ inner) }
{
    let error = ipv6_exts::HeaderLimitedReadError::Content(inner);
    match error.source() {
        Some(ChainSource::Ipv6Exts(e)) => e.clone(),
        _ => unreachable!(),
    }
}

/// Returns a copy of the `source` of `ipv4_exts::HeaderWriteError::Io`.
pub fn source_of_ipv4_write_without_memory(inner: AllocError) -> Result<AllocError, AllocError>
    ensures { IfOk result (λ copy. copy ≡ inner) }
{
    let error = ipv4_exts::HeaderWriteError::Io(inner);
    match error.source() {
        Some(ChainSource::Memory(e)) => e.clone(),
        _ => unreachable!(),
    }
}

/// Returns a copy of the `source` of `ipv4_exts::HeaderWriteError::Content`.
pub fn source_of_ipv4_write_of_unnamed_headers(
    inner: ipv4_exts::ExtsWalkError,
) -> Result<ipv4_exts::ExtsWalkError, AllocError>
    ensures { IfOk result (λ copy. copy ≡ inner) }
{
    let error = ipv4_exts::HeaderWriteError::Content(inner);
    match error.source() {
        Some(ChainSource::Ipv4Walk(e)) => e.clone(),
        _ => unreachable!(),
    }
}

/// Returns a copy of the `source` of `ipv6_exts::HeaderWriteError::Io`.
pub fn source_of_ipv6_write_without_memory(inner: AllocError) -> Result<AllocError, AllocError>
    ensures { IfOk result (λ copy. copy ≡ inner) }
{
    let error = ipv6_exts::HeaderWriteError::Io(inner);
    match error.source() {
        Some(ChainSource::Memory(e)) => e.clone(),
        _ => unreachable!(),
    }
}

/// Returns a copy of the `source` of `ipv6_exts::HeaderWriteError::Content`.
pub fn source_of_ipv6_write_of_unnamed_headers(
    inner: ipv6_exts::ExtsWalkError,
) -> Result<ipv6_exts::ExtsWalkError, AllocError>
    ensures { IfOk result (λ copy. copy ≡ inner) }
{
    let error = ipv6_exts::HeaderWriteError::Content(inner);
    match error.source() {
        Some(ChainSource::Ipv6Walk(e)) => e.clone(),
        _ => unreachable!(),
    }
}

/// Returns a copy of the `source` of `ip_exts::ExtsWalkError::Ipv4Exts`.
pub fn source_of_ipv4_walk(
    inner: ipv4_exts::ExtsWalkError,
) -> Result<ipv4_exts::ExtsWalkError, AllocError>
    ensures { IfOk result (λ copy. copy ≡ inner) }
{
    let error = ip_exts::ExtsWalkError::Ipv4Exts(inner);
    match error.source() {
        Some(ChainSource::Ipv4Walk(e)) => e.clone(),
        _ => unreachable!(),
    }
}

/// Returns a copy of the `source` of `ip_exts::ExtsWalkError::Ipv6Exts`.
pub fn source_of_ipv6_walk(
    inner: ipv6_exts::ExtsWalkError,
) -> Result<ipv6_exts::ExtsWalkError, AllocError>
    ensures { IfOk result (λ copy. copy ≡ inner) }
{
    let error = ip_exts::ExtsWalkError::Ipv6Exts(inner);
    match error.source() {
        Some(ChainSource::Ipv6Walk(e)) => e.clone(),
        _ => unreachable!(),
    }
}

/// Returns a copy of the `source` of `ip_exts::HeaderError::Ipv4Ext`.
pub fn source_of_wrong_ipv4_headers(
    inner: ip_auth::HeaderError,
) -> Result<ip_auth::HeaderError, AllocError>
    ensures { IfOk result (λ copy. copy ≡ inner) }
{
    let error = ip_exts::HeaderError::Ipv4Ext(inner);
    match error.source() {
        Some(ChainSource::IpAuth(e)) => e.clone(),
        _ => unreachable!(),
    }
}

/// Returns a copy of the `source` of `ip_exts::HeaderError::Ipv6Ext`.
pub fn source_of_wrong_ipv6_headers(
    inner: ipv6_exts::HeaderError,
) -> Result<ipv6_exts::HeaderError, AllocError>
    ensures { IfOk result (λ copy. copy ≡ inner) }
{
    let error = ip_exts::HeaderError::Ipv6Ext(inner);
    match error.source() {
        Some(ChainSource::Ipv6Exts(e)) => e.clone(),
        _ => unreachable!(),
    }
}

/// Returns a copy of the `source` of `ip_exts::HeadersSliceError::Len`.
pub fn source_of_short_headers(inner: LenError) -> Result<LenError, AllocError>
    ensures { IfOk result (λ copy. copy ≡ inner) }
{
    let error = ip_exts::HeadersSliceError::Len(inner);
    match error.source() {
        Some(ChainSource::Len(e)) => e.clone(),
        _ => unreachable!(),
    }
}

/// Returns a copy of the `source` of `ip_exts::HeadersSliceError::Content`.
pub fn source_of_wrong_headers(
    inner: ip_exts::HeaderError,
) -> Result<ip_exts::HeaderError, AllocError>
    ensures { IfOk result (λ copy. copy ≡ inner) }
{
    let error = ip_exts::HeadersSliceError::Content(inner);
    match error.source() {
        Some(ChainSource::IpExts(e)) => e.clone(),
        _ => unreachable!(),
    }
}

/// Returns a copy of the `source` of `ip::HeadersError::Ip`.
pub fn source_of_packet_of_another_version(
    inner: ip::HeaderError,
) -> Result<ip::HeaderError, AllocError>
    ensures { IfOk result (λ copy. copy ≡ inner) }
{
    let error = ip::HeadersError::Ip(inner);
    match error.source() {
        Some(PacketSource::Ip(e)) => e.clone(),
        _ => unreachable!(),
    }
}

/// Returns a copy of the `source` of `ip::HeadersError::Ipv4Ext`.
pub fn source_of_packet_with_wrong_authentication(
    inner: ip_auth::HeaderError,
) -> Result<ip_auth::HeaderError, AllocError>
    ensures { IfOk result (λ copy. copy ≡ inner) }
{
    let error = ip::HeadersError::Ipv4Ext(inner);
    match error.source() {
        Some(PacketSource::IpAuth(e)) => e.clone(),
        _ => unreachable!(),
    }
}

/// Returns a copy of the `source` of `ip::HeadersError::Ipv6Ext`.
pub fn source_of_packet_with_wrong_chain(
    inner: ipv6_exts::HeaderError,
) -> Result<ipv6_exts::HeaderError, AllocError>
    ensures { IfOk result (λ copy. copy ≡ inner) }
{
    let error = ip::HeadersError::Ipv6Ext(inner);
    match error.source() {
        Some(PacketSource::Ipv6Exts(e)) => e.clone(),
        _ => unreachable!(),
    }
}

/// Returns a copy of the `source` of `ip::HeadersSliceError::Len`.
pub fn source_of_short_headers_of_packet(inner: LenError) -> Result<LenError, AllocError>
    ensures { IfOk result (λ copy. copy ≡ inner) }
{
    let error = ip::HeadersSliceError::Len(inner);
    match error.source() {
        Some(PacketSource::Len(e)) => e.clone(),
        _ => unreachable!(),
    }
}

/// Returns a copy of the `source` of `ip::HeadersSliceError::Content`.
pub fn source_of_wrong_headers_of_packet(
    inner: ip::HeadersError,
) -> Result<ip::HeadersError, AllocError>
    ensures { IfOk result (λ copy. copy ≡ inner) }
{
    let error = ip::HeadersSliceError::Content(inner);
    match error.source() {
        Some(PacketSource::IpHeaders(e)) => e.clone(),
        _ => unreachable!(),
    }
}

/// Returns a copy of the `source` of `ip::SliceError::Len`.
pub fn source_of_short_packet(inner: LenError) -> Result<LenError, AllocError>
    ensures { IfOk result (λ copy. copy ≡ inner) }
{
    let error = ip::SliceError::Len(inner);
    match error.source() {
        Some(PacketSource::Len(e)) => e.clone(),
        _ => unreachable!(),
    }
}

/// Returns a copy of the `source` of `ip::SliceError::IpHeaders`.
pub fn source_of_wrong_packet(inner: ip::HeadersError) -> Result<ip::HeadersError, AllocError>
    ensures { IfOk result (λ copy. copy ≡ inner) }
{
    let error = ip::SliceError::IpHeaders(inner);
    match error.source() {
        Some(PacketSource::IpHeaders(e)) => e.clone(),
        _ => unreachable!(),
    }
}

/// Returns a copy of the `source` of `ipv4::SliceError::Len`.
pub fn source_of_short_ipv4_packet(inner: LenError) -> Result<LenError, AllocError>
    ensures { IfOk result (λ copy. copy ≡ inner) }
{
    let error = ipv4::SliceError::Len(inner);
    match error.source() {
        Some(PacketSource::Len(e)) => e.clone(),
        _ => unreachable!(),
    }
}

/// Returns a copy of the `source` of `ipv4::SliceError::Header`.
pub fn source_of_wrong_ipv4_header(
    inner: ipv4::HeaderError,
) -> Result<ipv4::HeaderError, AllocError>
    ensures { IfOk result (λ copy. copy ≡ inner) }
{
    let error = ipv4::SliceError::Header(inner);
    match error.source() {
        Some(PacketSource::Ipv4Header(e)) => e.clone(),
        _ => unreachable!(),
    }
}

/// Returns a copy of the `source` of `ipv4::SliceError::Exts`.
pub fn source_of_wrong_ipv4_extensions(
    inner: ip_auth::HeaderError,
) -> Result<ip_auth::HeaderError, AllocError>
    ensures { IfOk result (λ copy. copy ≡ inner) }
{
    let error = ipv4::SliceError::Exts(inner);
    match error.source() {
        Some(PacketSource::IpAuth(e)) => e.clone(),
        _ => unreachable!(),
    }
}

/// Returns a copy of the `source` of `ipv6::SliceError::Len`.
pub fn source_of_short_ipv6_packet(inner: LenError) -> Result<LenError, AllocError>
    ensures { IfOk result (λ copy. copy ≡ inner) }
{
    let error = ipv6::SliceError::Len(inner);
    match error.source() {
        Some(PacketSource::Len(e)) => e.clone(),
        _ => unreachable!(),
    }
}

/// Returns a copy of the `source` of `ipv6::SliceError::Header`.
pub fn source_of_wrong_ipv6_header(
    inner: ipv6::HeaderError,
) -> Result<ipv6::HeaderError, AllocError>
    ensures { IfOk result (λ copy. copy ≡ inner) }
{
    let error = ipv6::SliceError::Header(inner);
    match error.source() {
        Some(PacketSource::Ipv6Header(e)) => e.clone(),
        _ => unreachable!(),
    }
}

/// Returns a copy of the `source` of `ipv6::SliceError::Exts`.
pub fn source_of_wrong_ipv6_extensions(
    inner: ipv6_exts::HeaderError,
) -> Result<ipv6_exts::HeaderError, AllocError>
    ensures { IfOk result (λ copy. copy ≡ inner) }
{
    let error = ipv6::SliceError::Exts(inner);
    match error.source() {
        Some(PacketSource::Ipv6Exts(e)) => e.clone(),
        _ => unreachable!(),
    }
}
