//! Causes of errors: the value in their variant, or none.
use crate::samples::{denied, short, zero};
use etherparse_ip::IpNumber;
use etherparse_ip::err::{
    PacketSource, io, ip, ip_auth, ip_exts, ipv4, ipv4_exts, ipv6, ipv6_exts,
};
use ip_ext_chains::err::ChainSource;
use ip_ext_headers::err::Source;
use std::alloc::AllocError;
use std::io::ErrorKind;

fn is_of_reader(source: Option<Source<'_>>) -> bool {
    matches!(source, Some(Source::Io(e)) if e.kind() == ErrorKind::PermissionDenied)
}

fn is_of_len(source: Option<Source<'_>>) -> bool {
    matches!(source, Some(Source::Len(e)) if *e == short())
}

fn is_of_auth(source: Option<Source<'_>>) -> bool {
    matches!(source, Some(Source::IpAuth(e)) if *e == zero())
}

#[test]
fn single_headers(rt: HostRuntime) {
    assert!(rt; is_of_reader(io::LimitedReadError::Io(denied()).source()));
    assert!(rt; is_of_len(io::LimitedReadError::Len(short()).source()));
    assert!(rt; zero().source().is_none());
    assert!(rt; is_of_len(ip_auth::HeaderSliceError::Len(short()).source()));
    assert!(rt; is_of_auth(ip_auth::HeaderSliceError::Content(zero()).source()));
    assert!(rt; is_of_reader(ip_auth::HeaderReadError::Io(denied()).source()));
    assert!(rt; is_of_auth(ip_auth::HeaderReadError::Content(zero()).source()));
    assert!(rt; is_of_reader(ip_auth::HeaderLimitedReadError::Io(denied()).source()));
    assert!(rt; is_of_len(ip_auth::HeaderLimitedReadError::Len(short()).source()));
    assert!(rt; is_of_auth(ip_auth::HeaderLimitedReadError::Content(zero()).source()));
}

#[test]
fn lengths_of_values(rt: HostRuntime) {
    assert!(rt; ip_auth::IcvLenError::TooBig(4000).source().is_none());
    assert!(rt; ip_auth::IcvLenError::Unaligned(12).source().is_none());
    assert!(rt;
        ipv6_exts::ExtPayloadLenError::TooSmall(2)
            .source()
            .is_none()
    );
    assert!(rt;
        ipv6_exts::ExtPayloadLenError::TooBig(4000)
            .source()
            .is_none()
    );
    assert!(rt;
        ipv6_exts::ExtPayloadLenError::Unaligned(12)
            .source()
            .is_none()
    );
}

fn not_at_start() -> ipv6_exts::HeaderError {
    ipv6_exts::HeaderError::HopByHopNotAtStart
}

fn comes_of_reader(source: Option<ChainSource<'_>>) -> bool {
    matches!(source, Some(ChainSource::Io(e)) if e.kind() == ErrorKind::PermissionDenied)
}

fn comes_of_len(source: Option<ChainSource<'_>>) -> bool {
    matches!(source, Some(ChainSource::Len(e)) if *e == short())
}

fn comes_of_auth(source: Option<ChainSource<'_>>) -> bool {
    matches!(source, Some(ChainSource::IpAuth(e)) if *e == zero())
}

fn comes_of_chain(source: Option<ChainSource<'_>>) -> bool {
    matches!(source, Some(ChainSource::Ipv6Exts(e)) if *e == not_at_start())
}

#[test]
fn chains(rt: HostRuntime) {
    assert!(rt; not_at_start().source().is_none());
    assert!(rt; comes_of_auth(ipv6_exts::HeaderError::IpAuth(zero()).source()));
    assert!(rt; comes_of_len(ipv6_exts::HeaderSliceError::Len(short()).source()));
    assert!(rt; comes_of_chain(ipv6_exts::HeaderSliceError::Content(not_at_start()).source()));
    assert!(rt; comes_of_reader(ipv6_exts::HeaderReadError::Io(denied()).source()));
    assert!(rt; comes_of_chain(ipv6_exts::HeaderReadError::Content(not_at_start()).source()));
    assert!(rt; comes_of_reader(ipv6_exts::HeaderLimitedReadError::Io(denied()).source()));
    assert!(rt; comes_of_len(ipv6_exts::HeaderLimitedReadError::Len(short()).source()));
    let content = ipv6_exts::HeaderLimitedReadError::Content(not_at_start());
    assert!(rt; comes_of_chain(content.source()));
}

#[test]
fn either_version(rt: HostRuntime) {
    assert!(rt; comes_of_auth(ip_exts::HeaderError::Ipv4Ext(zero()).source()));
    assert!(rt; comes_of_chain(ip_exts::HeaderError::Ipv6Ext(not_at_start()).source()));
    assert!(rt; comes_of_len(ip_exts::HeadersSliceError::Len(short()).source()));
    let content = ip_exts::HeadersSliceError::Content(ip_exts::HeaderError::Ipv4Ext(zero()));
    let inner = ip_exts::HeaderError::Ipv4Ext(zero());
    assert!(rt; matches!(content.source(), Some(ChainSource::IpExts(e)) if *e == inner));
}

/// Returns the error of an IPv4 header that no number refers to.
fn unnamed() -> ipv4_exts::ExtsWalkError {
    ipv4_exts::ExtsWalkError::ExtNotReferenced {
        missing_ext: IpNumber(51),
    }
}

/// Returns the error of an IPv6 header that no number refers to.
fn unnamed6() -> ipv6_exts::ExtsWalkError {
    ipv6_exts::ExtsWalkError::ExtNotReferenced {
        missing_ext: IpNumber(44),
    }
}

fn comes_of_walk(source: Option<ChainSource<'_>>) -> bool {
    matches!(source, Some(ChainSource::Ipv4Walk(e)) if *e == unnamed())
}

fn comes_of_walk6(source: Option<ChainSource<'_>>) -> bool {
    matches!(source, Some(ChainSource::Ipv6Walk(e)) if *e == unnamed6())
}

fn comes_of_memory(source: Option<ChainSource<'_>>) -> bool {
    matches!(source, Some(ChainSource::Memory(_)))
}

#[test]
fn walks_and_writes(rt: HostRuntime) {
    assert!(rt; unnamed().source().is_none());
    assert!(rt; unnamed6().source().is_none());
    assert!(rt;
        ipv6_exts::ExtsWalkError::HopByHopNotAtStart
            .source()
            .is_none()
    );
    assert!(rt; comes_of_walk(ip_exts::ExtsWalkError::Ipv4Exts(unnamed()).source()));
    assert!(rt; comes_of_walk6(ip_exts::ExtsWalkError::Ipv6Exts(unnamed6()).source()));
    assert!(rt; comes_of_memory(ipv4_exts::HeaderWriteError::Io(AllocError).source()));
    assert!(rt; comes_of_walk(ipv4_exts::HeaderWriteError::Content(unnamed()).source()));
    assert!(rt; comes_of_memory(ipv6_exts::HeaderWriteError::Io(AllocError).source()));
    assert!(rt; comes_of_walk6(ipv6_exts::HeaderWriteError::Content(unnamed6()).source()));
}

fn is_packet_len(source: Option<PacketSource<'_>>) -> bool {
    matches!(source, Some(PacketSource::Len(e)) if *e == short())
}

fn is_packet_auth(source: Option<PacketSource<'_>>) -> bool {
    matches!(source, Some(PacketSource::IpAuth(e)) if *e == zero())
}

fn is_packet_chain(source: Option<PacketSource<'_>>) -> bool {
    matches!(source, Some(PacketSource::Ipv6Exts(e)) if *e == not_at_start())
}

fn is_packet_headers(source: Option<PacketSource<'_>>) -> bool {
    matches!(source, Some(PacketSource::IpHeaders(e)) if *e == ip::HeadersError::Ipv4Ext(zero()))
}

#[test]
fn packets_of_either_version(rt: HostRuntime) {
    let version = ip::HeaderError::UnsupportedIpVersion { version_number: 1 };
    assert!(rt; version.source().is_none());
    let ihl = ip::HeaderError::Ipv4HeaderLengthSmallerThanHeader { ihl: 2 };
    assert!(rt; ihl.source().is_none());
    let headers = ip::HeadersError::Ip(ihl);
    let ihl = ip::HeaderError::Ipv4HeaderLengthSmallerThanHeader { ihl: 2 };
    assert!(rt; matches!(headers.source(), Some(PacketSource::Ip(e)) if *e == ihl));
    assert!(rt; is_packet_auth(ip::HeadersError::Ipv4Ext(zero()).source()));
    assert!(rt; is_packet_chain(ip::HeadersError::Ipv6Ext(not_at_start()).source()));
    assert!(rt; is_packet_len(ip::HeadersSliceError::Len(short()).source()));
    let content = ip::HeadersSliceError::Content(ip::HeadersError::Ipv4Ext(zero()));
    assert!(rt; is_packet_headers(content.source()));
    assert!(rt; is_packet_len(ip::SliceError::Len(short()).source()));
    let headers = ip::SliceError::IpHeaders(ip::HeadersError::Ipv4Ext(zero()));
    assert!(rt; is_packet_headers(headers.source()));
}

#[test]
fn packets_of_one_version(rt: HostRuntime) {
    assert!(rt; is_packet_len(ipv4::SliceError::Len(short()).source()));
    let header = ipv4::SliceError::Header(ipv4::HeaderError::UnexpectedVersion {
        version_number: 5,
    });
    let inner = ipv4::HeaderError::UnexpectedVersion { version_number: 5 };
    assert!(rt; matches!(header.source(), Some(PacketSource::Ipv4Header(e)) if *e == inner));
    assert!(rt; is_packet_auth(ipv4::SliceError::Exts(zero()).source()));
    assert!(rt; is_packet_len(ipv6::SliceError::Len(short()).source()));
    let header = ipv6::SliceError::Header(ipv6::HeaderError::UnexpectedVersion {
        version_number: 5,
    });
    let inner = ipv6::HeaderError::UnexpectedVersion { version_number: 5 };
    assert!(rt; matches!(header.source(), Some(PacketSource::Ipv6Header(e)) if *e == inner));
    assert!(rt; is_packet_chain(ipv6::SliceError::Exts(not_at_start()).source()));
}
