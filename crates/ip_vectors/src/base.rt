//! Numbers, fragment offsets and the length error.
use crate::checks::assert_same;
use ip_base::err::{Layer, LenError, ValueTooBigError};
use ip_base::{IpFragOffset, IpNumber, LenSource, internet_checksum, ip_number};
use std::test::Fail;

#[test]
fn numbers_by_name(rt: HostRuntime) {
    let named = [
        (
            IpNumber::IPV6_HEADER_HOP_BY_HOP,
            ip_number::IPV6_HOP_BY_HOP,
            0,
        ),
        (IpNumber::UDP, ip_number::UDP, 17),
        (IpNumber::IPV6_ROUTE_HEADER, ip_number::IPV6_ROUTE, 43),
        (
            IpNumber::IPV6_FRAGMENTATION_HEADER,
            ip_number::IPV6_FRAG,
            44,
        ),
        (IpNumber::AUTHENTICATION_HEADER, ip_number::AUTH, 51),
        (
            IpNumber::AUTHENTICATION_HEADER,
            ip_number::AUTHENTICATION_HEADER,
            51,
        ),
        (
            IpNumber::IPV6_NO_NEXT_HEADER,
            ip_number::IPV6_NO_NEXT_HEADER,
            59,
        ),
        (
            IpNumber::IPV6_DESTINATION_OPTIONS,
            ip_number::IPV6_DEST_OPTIONS,
            60,
        ),
        (IpNumber(135), ip_number::MOBILITY, 135),
        (IpNumber(139), ip_number::HIP, 139),
        (IpNumber(140), ip_number::SHIM6, 140),
    ];
    for (associated, listed, value) in named {
        assert_same(&rt, value, associated, listed);
        assert_same(&rt, value, listed, IpNumber::from(value));
    }
}

#[test]
fn fragment_offsets(rt: HostRuntime) -> Result<(), Fail> {
    for value in [0u16, 1, 0x1000, 0x1fff] {
        assert_same(&rt, value, IpFragOffset::try_new(value)?.value(), value);
        assert_same(&rt, value, IpFragOffset::try_from(value)?.value(), value);
    }
    for value in [0x2000u16, 0xffff] {
        let refused = Err(ValueTooBigError {
            actual: value,
            max_allowed: 8191,
        });
        assert_same(&rt, value, &IpFragOffset::try_new(value), &refused);
        assert_same(&rt, value, &IpFragOffset::try_from(value), &refused);
    }
    Ok(())
}

#[test]
fn checksum_of_a_worked_example(rt: HostRuntime) {
    // RFC 1071, section 3: the words of these bytes have the one's complement sum 0xddf2
    let bytes = [0x00u8, 0x01, 0xf2, 0x03, 0xf4, 0xf5, 0xf6, 0xf7];
    assert_same(&rt, "RFC 1071", internet_checksum(&bytes), 0x220d);
}

#[test]
fn offset_is_added_to_the_layer(rt: HostRuntime) {
    let error = LenError {
        required_len: 1,
        len: 2,
        len_source: LenSource::Slice,
        layer: Layer::Icmpv4,
        layer_start_offset: 3,
    };
    let moved = LenError {
        required_len: 1,
        len: 2,
        len_source: LenSource::Slice,
        layer: Layer::Icmpv4,
        layer_start_offset: 203,
    };
    assert_same(&rt, "moved", error.add_offset(200), moved);
}

#[test]
fn names_are_the_variants(rt: HostRuntime) {
    let route = Layer::Ipv6RouteHeader;
    assert_same(&rt, "route", route.name(), "Ipv6RouteHeader");
    assert_same(&rt, "ICMPv4", Layer::Icmpv4.name(), "Icmpv4");
    let source = LenSource::Ipv4HeaderTotalLen;
    assert_same(&rt, "source", source.name(), "Ipv4HeaderTotalLen");
}
