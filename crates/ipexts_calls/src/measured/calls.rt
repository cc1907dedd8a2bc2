//! A call for each way to parse a chain. Each returns a digest.
use crate::measured::parses::{
    CursorFragment, CursorKinds, Lax, LaxFilter, LaxFragment, LaxHeaders, LaxHeadersFilter,
    LaxKinds, Parse, Strict, StrictFilter,
};
use crate::measured::structs::{LaxStruct, StrictStruct};
use ip_ext_chains::IpNumber;

/// Runs the lax parse; reads all of its result.
#[unsafe(no_mangle)]
pub extern "C" fn ipexts_lax(start: u8, bytes: &[u8]) -> u64 {
    Lax::digest(IpNumber(start), bytes)
}

/// Runs the lax parse and its iterator; reads every header.
#[unsafe(no_mangle)]
pub extern "C" fn ipexts_lax_headers(start: u8, bytes: &[u8]) -> u64 {
    LaxHeaders::digest(IpNumber(start), bytes)
}

/// Runs the strict parse; reads all of its result.
#[unsafe(no_mangle)]
pub extern "C" fn ipexts_strict(start: u8, bytes: &[u8]) -> u64 {
    Strict::digest(IpNumber(start), bytes)
}

/// Runs the lax parse; reads the parts that a filter needs.
#[unsafe(no_mangle)]
pub extern "C" fn ipexts_lax_filter(start: u8, bytes: &[u8]) -> u64 {
    LaxFilter::digest(IpNumber(start), bytes)
}

/// Runs the lax parse and its iterator; reads the parts that a filter needs.
#[unsafe(no_mangle)]
pub extern "C" fn ipexts_lax_headers_filter(start: u8, bytes: &[u8]) -> u64 {
    LaxHeadersFilter::digest(IpNumber(start), bytes)
}

/// Runs the strict parse; reads the parts that a filter needs.
#[unsafe(no_mangle)]
pub extern "C" fn ipexts_strict_filter(start: u8, bytes: &[u8]) -> u64 {
    StrictFilter::digest(IpNumber(start), bytes)
}

/// Runs the lax parse into a struct; reads all of it.
#[unsafe(no_mangle)]
pub extern "C" fn ipexts_lax_struct(start: u8, bytes: &[u8]) -> u64 {
    LaxStruct::digest(IpNumber(start), bytes)
}

/// Runs the strict parse into a struct; reads all of it.
#[unsafe(no_mangle)]
pub extern "C" fn ipexts_strict_struct(start: u8, bytes: &[u8]) -> u64 {
    StrictStruct::digest(IpNumber(start), bytes)
}

/// Runs a cursor; reads its headers by kind.
#[unsafe(no_mangle)]
pub extern "C" fn ipexts_cursor_kinds(start: u8, bytes: &[u8]) -> u64 {
    CursorKinds::digest(IpNumber(start), bytes)
}

/// Runs the lax parse and its iterator; reads the headers by kind.
#[unsafe(no_mangle)]
pub extern "C" fn ipexts_lax_kinds(start: u8, bytes: &[u8]) -> u64 {
    LaxKinds::digest(IpNumber(start), bytes)
}

/// Runs a cursor up to the first fragment header.
#[unsafe(no_mangle)]
pub extern "C" fn ipexts_cursor_fragment(start: u8, bytes: &[u8]) -> u64 {
    CursorFragment::digest(IpNumber(start), bytes)
}

/// Runs the lax parse and its iterator up to the first fragment header.
#[unsafe(no_mangle)]
pub extern "C" fn ipexts_lax_fragment(start: u8, bytes: &[u8]) -> u64 {
    LaxFragment::digest(IpNumber(start), bytes)
}
