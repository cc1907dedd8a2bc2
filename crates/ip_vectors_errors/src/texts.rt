//! The text of each error, and of each number of an extension header.
use crate::samples::{SHORT, ZERO, denied, short, zero};
use etherparse_ip::err::{
    Layer, LenError, ValueTooBigError, io, ip, ip_auth, ip_exts, ipv4, ipv4_exts, ipv6, ipv6_exts,
};
use etherparse_ip::{IpNumber, LenSource};
use std::alloc::{AllocError, Global};
use std::error::Error;
use std::process::Abort;
use std::test::Fail;

/// Checks the text of an error.
fn says<E: Error>(rt: &impl Abort, alloc: Global, error: &E, text: &str) -> Result<(), Fail> {
    let said = format!(in alloc; "{error}")?;
    assert_eq!(rt; said.as_str(), text);
    Ok(())
}

/// Checks that the text of an error is `text` followed by the reader's.
fn says_of_reader<E: Error>(
    rt: &impl Abort,
    alloc: Global,
    error: &E,
    words: &str,
) -> Result<(), Fail> {
    let denied = denied();
    let text = format!(in alloc; "{words}{denied}")?;
    says(rt, alloc, error, text.as_str())
}

#[test]
fn numbers_by_name(rt: HostRuntime) -> Result<(), Fail> {
    let alloc = rt.alloc();
    for number in 0..=255u8 {
        let said = format!(in alloc; "{:?}", IpNumber(number))?;
        let digits = format!(in alloc; "{number}")?;
        let text = match number {
            0 => "0 (HOPOPT - IPv6 Hop-by-Hop Option)",
            43 => "43 (IPv6-Route - Routing Header for IPv6)",
            44 => "44 (IPv6-Frag - Fragment Header for IPv6)",
            51 => "51 (AH - Authentication Header)",
            60 => "60 (IPv6-Opts - Destination Options for IPv6)",
            _ => digits.as_str(),
        };
        assert_eq!(rt; said.as_str(), text);
    }
    Ok(())
}

#[test]
fn lengths(rt: HostRuntime) -> Result<(), Fail> {
    let alloc = rt.alloc();
    says(&rt, alloc, &short(), SHORT)?;
    let nothing = LenError {
        required_len: 0,
        len: 0,
        len_source: LenSource::Ipv4HeaderTotalLen,
        layer: Layer::IpHeader,
        layer_start_offset: 0,
    };
    says(
        &rt,
        alloc,
        &nothing,
        "not enough bytes for IpHeader at offset 0: 0 needed, 0 there by Ipv4HeaderTotalLen",
    )?;
    // Each number is different.
    let counted = LenError {
        required_len: 1,
        len: 2,
        len_source: LenSource::Slice,
        layer: Layer::Icmpv4,
        layer_start_offset: 3,
    };
    says(
        &rt,
        alloc,
        &counted,
        "not enough bytes for Icmpv4 at offset 3: 1 needed, 2 there by Slice",
    )
}

#[test]
fn lengths_at_their_largest(rt: HostRuntime) -> Result<(), Fail> {
    let largest = LenError {
        required_len: usize::MAX,
        len: usize::MAX,
        len_source: LenSource::Ipv6HeaderPayloadLen,
        layer: Layer::Ipv6HopByHopHeader,
        layer_start_offset: usize::MAX,
    };
    says(
        &rt,
        rt.alloc(),
        &largest,
        "not enough bytes for Ipv6HopByHopHeader at offset 18446744073709551615: 18446744073709551615 needed, 18446744073709551615 there by Ipv6HeaderPayloadLen",
    )
}

#[test]
fn base_headers(rt: HostRuntime) -> Result<(), Fail> {
    let alloc = rt.alloc();
    for (version_number, text) in [
        (0, "IPv4 header: version number 0 where 4 is required"),
        (255, "IPv4 header: version number 255 where 4 is required"),
    ] {
        let error = ipv4::HeaderError::UnexpectedVersion { version_number };
        says(&rt, alloc, &error, text)?;
        says(&rt, alloc, &ipv4::HeaderSliceError::Content(error), text)?;
    }
    for (ihl, text) in [
        (0, "IPv4 header: length 0 where at least 5 is required"),
        (255, "IPv4 header: length 255 where at least 5 is required"),
    ] {
        let error = ipv4::HeaderError::HeaderLengthSmallerThanHeader { ihl };
        says(&rt, alloc, &error, text)?;
        says(&rt, alloc, &ipv4::SliceError::Header(error), text)?;
    }
    for (version_number, text) in [
        (0, "IPv6 header: version number 0 where 6 is required"),
        (255, "IPv6 header: version number 255 where 6 is required"),
    ] {
        let error = ipv6::HeaderError::UnexpectedVersion { version_number };
        says(&rt, alloc, &error, text)?;
        says(
            &rt,
            alloc,
            &ipv6::HeaderSliceError::Content(error.clone()?),
            text,
        )?;
        says(&rt, alloc, &ipv6::SliceError::Header(error), text)?;
    }
    says(&rt, alloc, &ipv4::HeaderSliceError::Len(short()), SHORT)?;
    says(&rt, alloc, &ipv6::HeaderSliceError::Len(short()), SHORT)
}

#[test]
fn values(rt: HostRuntime) -> Result<(), Fail> {
    let alloc = rt.alloc();
    for (actual, max_allowed, text) in [
        (0, 0, "value 0 is above 0"),
        (8192, 8191, "value 8192 is above 8191"),
        (u16::MAX, u16::MAX, "value 65535 is above 65535"),
    ] {
        let error = ValueTooBigError {
            actual,
            max_allowed,
        };
        says(&rt, alloc, &error, text)?;
    }
    Ok(())
}

#[test]
fn check_values(rt: HostRuntime) -> Result<(), Fail> {
    let alloc = rt.alloc();
    for (bytes, text) in [
        (
            0,
            "Error the IP authentication header ICV length is too large. The ICV size (0 bytes) is larger then what can be be represented by the 'payload len' field in an IP authentication header.",
        ),
        (
            4000,
            "Error the IP authentication header ICV length is too large. The ICV size (4000 bytes) is larger then what can be be represented by the 'payload len' field in an IP authentication header.",
        ),
        (
            usize::MAX,
            "Error the IP authentication header ICV length is too large. The ICV size (18446744073709551615 bytes) is larger then what can be be represented by the 'payload len' field in an IP authentication header.",
        ),
    ] {
        says(&rt, alloc, &ip_auth::IcvLenError::TooBig(bytes), text)?;
    }
    for (bytes, text) in [
        (
            0,
            "Error the IP authentication header ICV length of 0 bytes is not a multiple of 4. This is required as the payload length field can only express lengths in multiple of 4 bytes.",
        ),
        (
            12,
            "Error the IP authentication header ICV length of 12 bytes is not a multiple of 4. This is required as the payload length field can only express lengths in multiple of 4 bytes.",
        ),
        (
            usize::MAX,
            "Error the IP authentication header ICV length of 18446744073709551615 bytes is not a multiple of 4. This is required as the payload length field can only express lengths in multiple of 4 bytes.",
        ),
    ] {
        says(&rt, alloc, &ip_auth::IcvLenError::Unaligned(bytes), text)?;
    }
    Ok(())
}

#[test]
fn small_payloads(rt: HostRuntime) -> Result<(), Fail> {
    let alloc = rt.alloc();
    for (bytes, text) in [
        (
            0,
            "IPv6 extensions header payload length is too small. The payload size (0 bytes) is less then 6 octets which is the minimum IPv6 extension header payload size.",
        ),
        (
            2,
            "IPv6 extensions header payload length is too small. The payload size (2 bytes) is less then 6 octets which is the minimum IPv6 extension header payload size.",
        ),
        (
            usize::MAX,
            "IPv6 extensions header payload length is too small. The payload size (18446744073709551615 bytes) is less then 6 octets which is the minimum IPv6 extension header payload size.",
        ),
    ] {
        says(
            &rt,
            alloc,
            &ipv6_exts::ExtPayloadLenError::TooSmall(bytes),
            text,
        )?;
    }
    Ok(())
}

#[test]
fn large_payloads(rt: HostRuntime) -> Result<(), Fail> {
    let alloc = rt.alloc();
    for (bytes, text) in [
        (
            0,
            "IPv6 extensions header payload length is too large. The payload size (0 bytes) is larger then what can be be represented by the 'extended header size' field in an IPv6 extension header.",
        ),
        (
            4000,
            "IPv6 extensions header payload length is too large. The payload size (4000 bytes) is larger then what can be be represented by the 'extended header size' field in an IPv6 extension header.",
        ),
        (
            usize::MAX,
            "IPv6 extensions header payload length is too large. The payload size (18446744073709551615 bytes) is larger then what can be be represented by the 'extended header size' field in an IPv6 extension header.",
        ),
    ] {
        says(
            &rt,
            alloc,
            &ipv6_exts::ExtPayloadLenError::TooBig(bytes),
            text,
        )?;
    }
    Ok(())
}

#[test]
fn unaligned_payloads(rt: HostRuntime) -> Result<(), Fail> {
    let alloc = rt.alloc();
    for (bytes, text) in [
        (
            0,
            "IPv6 extensions header 'payload length (0 bytes) + 2' is not multiple of 8 (+ 2 for the `next_header` and `header_length` fields). This is required as the header length field can only express lengths in multiple of 8 bytes.",
        ),
        (
            12,
            "IPv6 extensions header 'payload length (12 bytes) + 2' is not multiple of 8 (+ 2 for the `next_header` and `header_length` fields). This is required as the header length field can only express lengths in multiple of 8 bytes.",
        ),
        (
            usize::MAX,
            "IPv6 extensions header 'payload length (18446744073709551615 bytes) + 2' is not multiple of 8 (+ 2 for the `next_header` and `header_length` fields). This is required as the header length field can only express lengths in multiple of 8 bytes.",
        ),
    ] {
        says(
            &rt,
            alloc,
            &ipv6_exts::ExtPayloadLenError::Unaligned(bytes),
            text,
        )?;
    }
    Ok(())
}

#[test]
fn authentication_headers(rt: HostRuntime) -> Result<(), Fail> {
    let alloc = rt.alloc();
    says(&rt, alloc, &zero(), ZERO)?;
    says(&rt, alloc, &ip_auth::HeaderSliceError::Len(short()), SHORT)?;
    says(
        &rt,
        alloc,
        &ip_auth::HeaderSliceError::Content(zero()),
        ZERO,
    )?;
    let words = "IP Authentication Header IO Error: ";
    says_of_reader(&rt, alloc, &ip_auth::HeaderReadError::Io(denied()), words)?;
    says(&rt, alloc, &ip_auth::HeaderReadError::Content(zero()), ZERO)?;
    says_of_reader(
        &rt,
        alloc,
        &ip_auth::HeaderLimitedReadError::Io(denied()),
        words,
    )?;
    says(
        &rt,
        alloc,
        &ip_auth::HeaderLimitedReadError::Len(short()),
        SHORT,
    )?;
    says(
        &rt,
        alloc,
        &ip_auth::HeaderLimitedReadError::Content(zero()),
        ZERO,
    )?;
    says_of_reader(&rt, alloc, &io::LimitedReadError::Io(denied()), "")?;
    says(&rt, alloc, &io::LimitedReadError::Len(short()), SHORT)
}

const NOT_AT_START: &str =
    "IPv6 Extension Header Error: Encountered an IPv6 hop-by-hop header not directly after the IPv6 header. This is not allowed according to RFC 8200.";

#[test]
fn ipv6_chains(rt: HostRuntime) -> Result<(), Fail> {
    let alloc = rt.alloc();
    let not_at_start = ipv6_exts::HeaderError::HopByHopNotAtStart;
    says(&rt, alloc, &not_at_start, NOT_AT_START)?;
    says(&rt, alloc, &ipv6_exts::HeaderError::IpAuth(zero()), ZERO)?;
    says(
        &rt,
        alloc,
        &ipv6_exts::HeaderSliceError::Len(short()),
        SHORT,
    )?;
    let content = ipv6_exts::HeaderSliceError::Content(not_at_start.clone()?);
    says(&rt, alloc, &content, NOT_AT_START)?;
    let words = "IPv6 Extension Header IO Error: ";
    says_of_reader(&rt, alloc, &ipv6_exts::HeaderReadError::Io(denied()), words)?;
    let content = ipv6_exts::HeaderReadError::Content(not_at_start.clone()?);
    says(&rt, alloc, &content, NOT_AT_START)?;
    says_of_reader(
        &rt,
        alloc,
        &ipv6_exts::HeaderLimitedReadError::Io(denied()),
        words,
    )?;
    says(
        &rt,
        alloc,
        &ipv6_exts::HeaderLimitedReadError::Len(short()),
        SHORT,
    )?;
    let content = ipv6_exts::HeaderLimitedReadError::Content(not_at_start);
    says(&rt, alloc, &content, NOT_AT_START)
}

#[test]
fn either_version(rt: HostRuntime) -> Result<(), Fail> {
    let alloc = rt.alloc();
    says(&rt, alloc, &ip_exts::HeaderError::Ipv4Ext(zero()), ZERO)?;
    let not_at_start = ipv6_exts::HeaderError::HopByHopNotAtStart;
    says(
        &rt,
        alloc,
        &ip_exts::HeaderError::Ipv6Ext(not_at_start),
        NOT_AT_START,
    )?;
    says(&rt, alloc, &ip_exts::HeadersSliceError::Len(short()), SHORT)?;
    let content = ip_exts::HeadersSliceError::Content(ip_exts::HeaderError::Ipv4Ext(zero()));
    says(&rt, alloc, &content, ZERO)
}

#[test]
fn ipv4_walks(rt: HostRuntime) -> Result<(), Fail> {
    let alloc = rt.alloc();
    for (number, text) in [
        (
            51,
            "IPv4 extensions '51 (AH - Authentication Header)' is defined but is not referenced by the 'protocol' the IPv4 header.",
        ),
        (
            0,
            "IPv4 extensions '0 (HOPOPT - IPv6 Hop-by-Hop Option)' is defined but is not referenced by the 'protocol' the IPv4 header.",
        ),
        (
            255,
            "IPv4 extensions '255' is defined but is not referenced by the 'protocol' the IPv4 header.",
        ),
    ] {
        let missing_ext = IpNumber(number);
        let error = ipv4_exts::ExtsWalkError::ExtNotReferenced { missing_ext };
        says(&rt, alloc, &error, text)?;
        says(
            &rt,
            alloc,
            &ip_exts::ExtsWalkError::Ipv4Exts(error.clone()?),
            text,
        )?;
        says(
            &rt,
            alloc,
            &ipv4_exts::HeaderWriteError::Content(error),
            text,
        )?;
    }
    says(
        &rt,
        alloc,
        &ipv4_exts::HeaderWriteError::Io(AllocError),
        "out of memory",
    )
}

#[test]
fn ipv6_walks(rt: HostRuntime) -> Result<(), Fail> {
    let alloc = rt.alloc();
    for (number, text) in [
        (
            44,
            "IPv6 extensions '44 (IPv6-Frag - Fragment Header for IPv6)' is defined but is not referenced by any of the 'next_header' of the other extension headers or the IPv6 header.",
        ),
        (
            0,
            "IPv6 extensions '0 (HOPOPT - IPv6 Hop-by-Hop Option)' is defined but is not referenced by any of the 'next_header' of the other extension headers or the IPv6 header.",
        ),
        (
            255,
            "IPv6 extensions '255' is defined but is not referenced by any of the 'next_header' of the other extension headers or the IPv6 header.",
        ),
    ] {
        let missing_ext = IpNumber(number);
        let error = ipv6_exts::ExtsWalkError::ExtNotReferenced { missing_ext };
        says(&rt, alloc, &error, text)?;
        says(
            &rt,
            alloc,
            &ip_exts::ExtsWalkError::Ipv6Exts(error.clone()?),
            text,
        )?;
        says(
            &rt,
            alloc,
            &ipv6_exts::HeaderWriteError::Content(error),
            text,
        )?;
    }
    Ok(())
}

#[test]
fn ipv6_walks_and_writes(rt: HostRuntime) -> Result<(), Fail> {
    let alloc = rt.alloc();
    says(
        &rt,
        alloc,
        &ipv6_exts::ExtsWalkError::HopByHopNotAtStart,
        "IPv6 extensions hop-by-hop is not located directly after the IPv6 header (required by IPv6).",
    )?;
    says(
        &rt,
        alloc,
        &ipv6_exts::HeaderWriteError::Io(AllocError),
        "out of memory",
    )
}

#[test]
fn versions_and_lengths_of_packets(rt: HostRuntime) -> Result<(), Fail> {
    let alloc = rt.alloc();
    for (version_number, text) in [
        (
            0,
            "IP Header Error: Encountered '0' as IP version number in the IP header (only '4' or '6' are supported).",
        ),
        (
            1,
            "IP Header Error: Encountered '1' as IP version number in the IP header (only '4' or '6' are supported).",
        ),
        (
            255,
            "IP Header Error: Encountered '255' as IP version number in the IP header (only '4' or '6' are supported).",
        ),
    ] {
        let error = ip::HeaderError::UnsupportedIpVersion { version_number };
        says(&rt, alloc, &error, text)?;
        says(&rt, alloc, &ip::HeadersError::Ip(error), text)?;
    }
    for (ihl, text) in [
        (
            0,
            "IPv4 Header Error: The 'internet header length' value '0' present in the IPv4 header is smaller than the minimum size of an IPv4 header. The minimum allowed value is '5'.",
        ),
        (
            2,
            "IPv4 Header Error: The 'internet header length' value '2' present in the IPv4 header is smaller than the minimum size of an IPv4 header. The minimum allowed value is '5'.",
        ),
        (
            255,
            "IPv4 Header Error: The 'internet header length' value '255' present in the IPv4 header is smaller than the minimum size of an IPv4 header. The minimum allowed value is '5'.",
        ),
    ] {
        let error = ip::HeaderError::Ipv4HeaderLengthSmallerThanHeader { ihl };
        says(&rt, alloc, &error, text)?;
        says(&rt, alloc, &ip::HeadersError::Ip(error), text)?;
    }
    Ok(())
}

#[test]
fn packets(rt: HostRuntime) -> Result<(), Fail> {
    let alloc = rt.alloc();
    says(&rt, alloc, &ip::HeadersError::Ipv4Ext(zero()), ZERO)?;
    let not_at_start = ipv6_exts::HeaderError::HopByHopNotAtStart;
    let headers = ip::HeadersError::Ipv6Ext(not_at_start.clone()?);
    says(&rt, alloc, &headers, NOT_AT_START)?;
    says(&rt, alloc, &ip::HeadersSliceError::Len(short()), SHORT)?;
    says(
        &rt,
        alloc,
        &ip::HeadersSliceError::Content(headers.clone()?),
        NOT_AT_START,
    )?;
    says(&rt, alloc, &ip::SliceError::Len(short()), SHORT)?;
    says(
        &rt,
        alloc,
        &ip::SliceError::IpHeaders(headers),
        NOT_AT_START,
    )?;
    says(&rt, alloc, &ipv4::SliceError::Len(short()), SHORT)?;
    says(&rt, alloc, &ipv4::SliceError::Exts(zero()), ZERO)?;
    says(&rt, alloc, &ipv6::SliceError::Len(short()), SHORT)?;
    says(
        &rt,
        alloc,
        &ipv6::SliceError::Exts(not_at_start),
        NOT_AT_START,
    )
}
