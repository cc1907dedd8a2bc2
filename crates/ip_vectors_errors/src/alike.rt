//! Equality and hashes of errors: each is equal to its copy, and to none that differs in a single field.
use crate::samples::{short, zero};
use etherparse_ip::err::{
    Layer, LenError, ValueTooBigError, ip, ip_auth, ip_exts, ipv4, ipv4_exts, ipv6, ipv6_exts,
};
use etherparse_ip::{IpFragOffset, IpNumber, LenSource};
use std::fmt::Debug;
use std::hash::{DefaultHasher, Hash, Hasher};
use std::process::Abort;
use std::test::Fail;

fn hash_of<T: Hash>(value: &T) -> u64 {
    let mut state = DefaultHasher::new();
    value.hash(&mut state);
    state.finish()
}

/// Checks that each value is equal to its copy and has its hash, and that no two values are equal or have the same
/// hash.
fn are_told_apart<T: Clone + Eq + Hash + Debug + Drop>(
    rt: &impl Abort,
    values: &[T],
) -> Result<(), Fail> {
    for (at, value) in values.iter().enumerate() {
        let copy = value.clone()?;
        assert!(rt;
            copy == *value && hash_of(&copy) == hash_of(value),
            "{value:?}"
        );
        for other in values.iter().take(at) {
            assert!(rt;
                *value != *other && hash_of(value) != hash_of(other),
                "{value:?}"
            );
        }
    }
    Ok(())
}

fn lengths() -> [LenError; 6] {
    [
        short(),
        LenError {
            required_len: 12,
            ..short()
        },
        LenError { len: 1, ..short() },
        LenError {
            len_source: LenSource::Ipv4HeaderTotalLen,
            ..short()
        },
        LenError {
            layer: Layer::IpAuthHeader,
            ..short()
        },
        LenError {
            layer_start_offset: 9,
            ..short()
        },
    ]
}

fn not_at_start() -> ipv6_exts::HeaderError {
    ipv6_exts::HeaderError::HopByHopNotAtStart
}

#[test]
fn base(rt: HostRuntime) -> Result<(), Fail> {
    are_told_apart(&rt, &lengths())?;
    let values = [(1, 0), (2, 0), (1, 2)];
    are_told_apart(
        &rt,
        &values.map(|(actual, max_allowed)| ValueTooBigError {
            actual,
            max_allowed,
        }),
    )?;
    are_told_apart(&rt, &[IpNumber(0), IpNumber(1), IpNumber(255)])?;
    are_told_apart(
        &rt,
        &[IpFragOffset::try_new(0)?, IpFragOffset::try_new(8191)?],
    )
}

#[test]
fn sources_and_layers(rt: HostRuntime) -> Result<(), Fail> {
    are_told_apart(
        &rt,
        &[
            LenSource::Slice,
            LenSource::Ipv4HeaderTotalLen,
            LenSource::Ipv6HeaderPayloadLen,
        ],
    )?;
    are_told_apart(
        &rt,
        &[
            Layer::IpHeader,
            Layer::Ipv4Header,
            Layer::Ipv4Packet,
            Layer::IpAuthHeader,
            Layer::Ipv6Header,
            Layer::Ipv6Packet,
            Layer::Ipv6ExtHeader,
            Layer::Ipv6HopByHopHeader,
            Layer::Ipv6DestOptionsHeader,
            Layer::Ipv6RouteHeader,
            Layer::Ipv6FragHeader,
            Layer::Icmpv4,
        ],
    )
}

#[test]
fn base_headers(rt: HostRuntime) -> Result<(), Fail> {
    let ipv4 = || [
        ipv4::HeaderError::UnexpectedVersion { version_number: 5 },
        ipv4::HeaderError::UnexpectedVersion { version_number: 6 },
        ipv4::HeaderError::HeaderLengthSmallerThanHeader { ihl: 5 },
    ];
    are_told_apart(&rt, &ipv4())?;
    are_told_apart(&rt, &ipv4().map(ipv4::HeaderSliceError::Content))?;
    are_told_apart(&rt, &lengths().map(ipv4::HeaderSliceError::Len))?;
    are_told_apart(&rt, &ipv4().map(ipv4::SliceError::Header))?;
    are_told_apart(&rt, &lengths().map(ipv4::SliceError::Len))?;
    let ipv6 = || [
        ipv6::HeaderError::UnexpectedVersion { version_number: 5 },
        ipv6::HeaderError::UnexpectedVersion { version_number: 4 },
    ];
    are_told_apart(&rt, &ipv6())?;
    are_told_apart(&rt, &ipv6().map(ipv6::HeaderSliceError::Content))?;
    are_told_apart(&rt, &lengths().map(ipv6::HeaderSliceError::Len))?;
    are_told_apart(&rt, &ipv6().map(ipv6::SliceError::Header))?;
    are_told_apart(&rt, &lengths().map(ipv6::SliceError::Len))
}

#[test]
fn single_headers(rt: HostRuntime) -> Result<(), Fail> {
    are_told_apart(&rt, &[zero()])?;
    are_told_apart(&rt, &lengths().map(ip_auth::HeaderSliceError::Len))?;
    are_told_apart(
        &rt,
        &[
            ip_auth::HeaderSliceError::Content(zero()),
            ip_auth::HeaderSliceError::Len(short()),
        ],
    )?;
    are_told_apart(
        &rt,
        &[
            ip_auth::IcvLenError::TooBig(1017),
            ip_auth::IcvLenError::TooBig(1018),
            ip_auth::IcvLenError::Unaligned(1017),
        ],
    )?;
    are_told_apart(
        &rt,
        &[
            ipv6_exts::ExtPayloadLenError::TooSmall(5),
            ipv6_exts::ExtPayloadLenError::TooSmall(4),
            ipv6_exts::ExtPayloadLenError::TooBig(5),
            ipv6_exts::ExtPayloadLenError::Unaligned(5),
        ],
    )
}

fn walks() -> [ipv6_exts::ExtsWalkError; 3] {
    [
        ipv6_exts::ExtsWalkError::HopByHopNotAtStart,
        ipv6_exts::ExtsWalkError::ExtNotReferenced {
            missing_ext: IpNumber(44),
        },
        ipv6_exts::ExtsWalkError::ExtNotReferenced {
            missing_ext: IpNumber(51),
        },
    ]
}

fn walks4() -> [ipv4_exts::ExtsWalkError; 2] {
    [
        ipv4_exts::ExtsWalkError::ExtNotReferenced {
            missing_ext: IpNumber(51),
        },
        ipv4_exts::ExtsWalkError::ExtNotReferenced {
            missing_ext: IpNumber(44),
        },
    ]
}

fn contents() -> [ipv6_exts::HeaderError; 2] {
    [not_at_start(), ipv6_exts::HeaderError::IpAuth(zero())]
}

#[test]
fn chains(rt: HostRuntime) -> Result<(), Fail> {
    are_told_apart(&rt, &walks())?;
    are_told_apart(&rt, &walks4())?;
    are_told_apart(&rt, &walks().map(ip_exts::ExtsWalkError::Ipv6Exts))?;
    are_told_apart(&rt, &walks4().map(ip_exts::ExtsWalkError::Ipv4Exts))?;
    are_told_apart(&rt, &contents())?;
    are_told_apart(&rt, &contents().map(ipv6_exts::HeaderSliceError::Content))?;
    are_told_apart(&rt, &lengths().map(ipv6_exts::HeaderSliceError::Len))?;
    are_told_apart(&rt, &contents().map(ip_exts::HeaderError::Ipv6Ext))?;
    are_told_apart(&rt, &lengths().map(ip_exts::HeadersSliceError::Len))?;
    are_told_apart(
        &rt,
        &[
            ip_exts::HeadersSliceError::Content(ip_exts::HeaderError::Ipv4Ext(zero())),
            ip_exts::HeadersSliceError::Content(ip_exts::HeaderError::Ipv6Ext(not_at_start())),
        ],
    )
}

fn headers() -> [ip::HeadersError; 5] {
    [
        ip::HeadersError::Ip(ip::HeaderError::UnsupportedIpVersion { version_number: 5 }),
        ip::HeadersError::Ip(ip::HeaderError::UnsupportedIpVersion { version_number: 7 }),
        ip::HeadersError::Ip(ip::HeaderError::Ipv4HeaderLengthSmallerThanHeader { ihl: 5 }),
        ip::HeadersError::Ipv4Ext(zero()),
        ip::HeadersError::Ipv6Ext(not_at_start()),
    ]
}

#[test]
fn packets(rt: HostRuntime) -> Result<(), Fail> {
    are_told_apart(
        &rt,
        &[
            ip::HeaderError::UnsupportedIpVersion { version_number: 5 },
            ip::HeaderError::UnsupportedIpVersion { version_number: 7 },
            ip::HeaderError::Ipv4HeaderLengthSmallerThanHeader { ihl: 5 },
        ],
    )?;
    are_told_apart(&rt, &headers())?;
    are_told_apart(&rt, &headers().map(ip::HeadersSliceError::Content))?;
    are_told_apart(&rt, &lengths().map(ip::HeadersSliceError::Len))?;
    are_told_apart(&rt, &headers().map(ip::SliceError::IpHeaders))?;
    are_told_apart(&rt, &lengths().map(ip::SliceError::Len))?;
    are_told_apart(&rt, &contents().map(ipv6::SliceError::Exts))?;
    are_told_apart(
        &rt,
        &[
            ipv4::SliceError::Exts(zero()),
            ipv4::SliceError::Len(short()),
        ],
    )
}
