//! Long chains, and chains truncated at each byte.
use crate::checks::{assert_same, assert_that};
use check_reference::{plain_longest_chain, whole_within};
use ip_base::IpNumber;
use ip_ext_chains::{
    Ipv6Extensions, Ipv6ExtensionsCursor, Ipv6ExtensionsRuns, Ipv6ExtensionsSlice,
};
use std::alloc::{AllocError, Global};
use std::test::Fail;

/// Returns fragment headers, each leading to the next, the last to 17.
fn fragment_headers(alloc: Global, count: u32) -> Result<Vec<u8>, AllocError> {
    let mut bytes = Vec::new(alloc);
    for header in 1..=count {
        let next = if header == count { 17 } else { 44 };
        bytes.extend_from_slice(&[next, 0, 0, 0, 0, 0, 0, 0])?;
    }
    Ok(bytes)
}

#[test]
fn four_thousand_headers(rt: HostRuntime) -> Result<(), Fail> {
    let bytes = fragment_headers(rt.alloc(), 4096)?;
    let (chain, number, rest, fault) = Ipv6ExtensionsSlice::from_slice_lax(IpNumber(44), &bytes);
    assert_same(&rt, "length", chain.slice().len(), 32_768);
    assert_same(&rt, "number", number.0, 17);
    assert!(rt; rest.is_empty() && fault.is_none());
    let mut headers = chain.into_iter();
    let mut cursor = Ipv6ExtensionsCursor::new(IpNumber(44), &bytes);
    for count in 0..4096u32 {
        assert_that(&rt, count, headers.next().is_some());
        assert_that(&rt, count, cursor.next().is_some());
    }
    for _ in 0..3 {
        assert!(rt; headers.next().is_none() && cursor.next().is_none());
    }
    Ok(())
}

/// Hop-by-hop options, destination options, routing, fragment, authentication and destination options.
pub(crate) const SIX: [u8; 52] = [
    60, 0, 0, 0, 0, 0, 0, 0, 43, 0, 0, 0, 0, 0, 0, 0, 44, 0, 0, 0, 0, 0, 0, 0, 51, 0, 0, 0, 0, 0,
    0, 0, 60, 1, 0, 0, 0, 0, 0, 0, 0, 0, 0, 0, 17, 0, 0, 0, 0, 0, 0, 0,
];

/// Returns how many of the first bytes are whole headers, and how many headers they are.
fn whole_headers(kept: usize) -> (usize, usize) {
    match kept {
        0..8 => (0, 0),
        8..16 => (8, 1),
        16..24 => (16, 2),
        24..32 => (24, 3),
        32..44 => (32, 4),
        44..52 => (44, 5),
        _ => (52, 6),
    }
}

#[test]
fn truncated_chains_are_written_as_their_whole_headers(rt: HostRuntime) -> Result<(), Fail> {
    for kept in 0..=52usize {
        let (len, _) = whole_headers(kept);
        let (exts, _, _, _) = Ipv6Extensions::from_slice_lax(IpNumber(0), &SIX[..kept]);
        let mut out = Vec::new(rt.alloc());
        exts.write(&mut out, IpNumber(0))?;
        assert_same(&rt, kept, Some(out.as_slice()), SIX.get(..len));
    }
    Ok(())
}

#[test]
fn the_headers_of_a_front_are_those_within_it(rt: HostRuntime) -> Result<(), Fail> {
    let whole = plain_longest_chain(rt.alloc(), 0, &SIX)?;
    for kept in 0..=60usize {
        let (_, count) = whole_headers(kept);
        let within = whole_within(kept, whole.headers.as_slice());
        assert_same(&rt, kept, within, count);
        let front = SIX.get(..kept).unwrap_or(&SIX);
        let (chain, _, _, _) = Ipv6ExtensionsSlice::from_slice_lax(IpNumber(0), front);
        assert_same(&rt, kept, chain.into_iter().count(), count);
    }
    Ok(())
}

#[test]
fn nothing_comes_after_the_last(rt: HostRuntime) {
    for kept in 0..=52usize {
        let (_, count) = whole_headers(kept);
        let (chain, _, _, _) = Ipv6ExtensionsSlice::from_slice_lax(IpNumber(0), &SIX[..kept]);
        let mut headers = chain.into_iter();
        let mut cursor = Ipv6ExtensionsCursor::new(IpNumber(0), &SIX[..kept]);
        for _ in 0..count {
            assert_that(&rt, kept, headers.next().is_some());
            assert_that(&rt, kept, cursor.next().is_some());
        }
        let mut runs = Ipv6ExtensionsRuns::new(IpNumber(0), &SIX[..kept]);
        assert_that(&rt, kept, runs.next().is_some());
        for _ in 0..3 {
            assert_that(&rt, kept, headers.next().is_none());
            assert_that(&rt, kept, cursor.next().is_none());
            assert_that(&rt, kept, runs.next().is_none());
        }
    }
}
