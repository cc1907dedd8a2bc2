//! The measured ways to parse a chain. Each returns a digest of the parts read.
use crate::digests::chains::{
    of_end, of_header, of_kind, of_lax, of_strict, of_strict_fault, with,
};
use ip_ext_chains::{IpNumber, Ipv6ExtensionSlice, Ipv6ExtensionsCursor, Ipv6ExtensionsSlice};

/// A way to parse a chain.
pub trait Parse {
    /// Returns a digest of the chain from the number `start` at the start of the bytes.
    fn digest(start: IpNumber, bytes: &[u8]) -> u64;
}

/// The lax parse, with all of its result read.
pub struct Lax;

/// The lax parse and its iterator, with all of each header read.
pub struct LaxHeaders;

/// The strict parse, with all of its result read.
pub struct Strict;

/// The lax parse; a filter reads the payload's place and whether it is a fragment.
pub struct LaxFilter;

/// The lax parse and its iterator; a filter reads whether there is a routing header.
pub struct LaxHeadersFilter;

/// The strict parse; a filter reads the payload's place and whether it is a fragment.
pub struct StrictFilter;

/// A cursor's headers, by kind and length, and its end.
pub struct CursorKinds;

/// The headers of the lax parse and its iterator, by kind and length, and their end.
pub struct LaxKinds;

/// A cursor's headers up to the first fragment header, or its end if there is none.
pub struct CursorFragment;

/// The headers of the lax parse and its iterator up to the first fragment header, or their end if there is none.
pub struct LaxFragment;

impl Parse for Lax {
    fn digest(start: IpNumber, bytes: &[u8]) -> u64 {
        let (headers, number, rest, fault) = Ipv6ExtensionsSlice::from_slice_lax(start, bytes);
        of_lax(&headers, number, rest, &fault)
    }
}

impl Parse for LaxHeaders {
    fn digest(start: IpNumber, bytes: &[u8]) -> u64 {
        let (headers, number, rest, fault) = Ipv6ExtensionsSlice::from_slice_lax(start, bytes);
        let mut sum = of_lax(&headers, number, rest, &fault);
        for header in headers {
            sum = with(sum, of_header(&header));
        }
        sum
    }
}

impl Parse for Strict {
    fn digest(start: IpNumber, bytes: &[u8]) -> u64 {
        match Ipv6ExtensionsSlice::from_slice(start, bytes) {
            Ok((headers, number, rest)) => of_strict(&headers, number, rest),
            Err(fault) => of_strict_fault(&fault),
        }
    }
}

impl Parse for LaxFilter {
    fn digest(start: IpNumber, bytes: &[u8]) -> u64 {
        let (headers, number, rest, fault) = Ipv6ExtensionsSlice::from_slice_lax(start, bytes);
        let whole = fault.is_none() && !headers.is_fragmenting_payload();
        with(
            with(u64::from(whole), u64::from(number.0)),
            rest.len() as u64,
        )
    }
}

impl Parse for LaxHeadersFilter {
    fn digest(start: IpNumber, bytes: &[u8]) -> u64 {
        let (headers, number, rest, _) = Ipv6ExtensionsSlice::from_slice_lax(start, bytes);
        let mut routed = false;
        for header in headers {
            routed = routed || matches!(header, Ipv6ExtensionSlice::Routing(_));
        }
        with(
            with(u64::from(routed), u64::from(number.0)),
            rest.len() as u64,
        )
    }
}

impl Parse for StrictFilter {
    fn digest(start: IpNumber, bytes: &[u8]) -> u64 {
        match Ipv6ExtensionsSlice::from_slice(start, bytes) {
            Ok((headers, number, rest)) => {
                let whole = !headers.is_fragmenting_payload();
                with(
                    with(u64::from(whole), u64::from(number.0)),
                    rest.len() as u64,
                )
            }
            Err(_) => 2,
        }
    }
}

impl Parse for CursorKinds {
    #[inline(always)]
    fn digest(start: IpNumber, bytes: &[u8]) -> u64 {
        let mut headers = Ipv6ExtensionsCursor::new(start, bytes);
        let mut sum: u64 = 0;
        'headers: while let Some(header) = headers.next() {
            sum = sum.wrapping_add(of_kind(&header));
        }
        match headers.end() {
            Some((number, rest, fault)) => of_end(sum, number, rest, fault.is_some()),
            None => unreachable!(),
        }
    }
}

impl Parse for LaxKinds {
    #[inline(always)]
    fn digest(start: IpNumber, bytes: &[u8]) -> u64 {
        let (headers, number, rest, fault) = Ipv6ExtensionsSlice::from_slice_lax(start, bytes);
        let mut sum: u64 = 0;
        for header in headers {
            sum = sum.wrapping_add(of_kind(&header));
        }
        of_end(sum, number, rest, fault.is_some())
    }
}

impl Parse for CursorFragment {
    #[inline(always)]
    fn digest(start: IpNumber, bytes: &[u8]) -> u64 {
        let mut headers = Ipv6ExtensionsCursor::new(start, bytes);
        let mut sum: u64 = 0;
        'headers: while let Some(header) = headers.next() {
            if let Ipv6ExtensionSlice::Fragment(fragment) = &header {
                return with(sum, u64::from(fragment.identification()));
            }
            sum = sum.wrapping_add(of_kind(&header));
        }
        match headers.end() {
            Some((number, rest, fault)) => of_end(sum, number, rest, fault.is_some()),
            None => unreachable!(),
        }
    }
}

impl Parse for LaxFragment {
    #[inline(always)]
    fn digest(start: IpNumber, bytes: &[u8]) -> u64 {
        let (headers, number, rest, fault) = Ipv6ExtensionsSlice::from_slice_lax(start, bytes);
        let mut sum: u64 = 0;
        for header in headers {
            if let Ipv6ExtensionSlice::Fragment(fragment) = &header {
                return with(sum, u64::from(fragment.identification()));
            }
            sum = sum.wrapping_add(of_kind(&header));
        }
        of_end(sum, number, rest, fault.is_some())
    }
}
