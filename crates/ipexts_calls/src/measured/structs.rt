//! The parses into a struct of six places, and calls on one.
use crate::compared::every_byte::{with_bytes, with_held};
use crate::digests::chains::{layer_code, of_bytes, of_fault, of_strict_fault, with};
use crate::digests::owned::of_written;
use crate::digests::structs::{of_answer, of_exts};
use crate::measured::parses::Parse;
use ip_ext_chains::{IpNumber, Ipv6Extensions, Ipv6ExtensionsRuns};
use std::alloc::Global;

/// The lax parse into a struct, with all of it read.
pub struct LaxStruct;

/// The strict parse into a struct, with all of it read.
pub struct StrictStruct;

impl Parse for LaxStruct {
    fn digest(start: IpNumber, bytes: &[u8]) -> u64 {
        let (exts, number, rest, fault) = Ipv6Extensions::from_slice_lax(start, bytes);
        let sum = of_answer(&exts, number, rest);
        match &fault {
            None => sum,
            Some((fault, layer)) => with(with(sum, of_fault(fault)), u64::from(layer_code(layer))),
        }
    }
}

impl Parse for StrictStruct {
    fn digest(start: IpNumber, bytes: &[u8]) -> u64 {
        let (exts, number, rest) = match Ipv6Extensions::from_slice(start, bytes) {
            Ok(found) => found,
            Err(fault) => return of_strict_fault(&fault),
        };
        of_answer(&exts, number, rest)
    }
}

/// Sets the next header of the last header, the final destination options, to another number each time.
fn relink(exts: &mut Ipv6Extensions, time: u32) {
    if let Some(routing) = &mut exts.routing
        && let Some(options) = &mut routing.final_destination_options
    {
        options.next_header = IpNumber((time % 2) as u8 + 16);
    }
}

/// Walks the headers from a number, and returns the number after them, or 256 if the walk fails. It is kept out of
/// line, so that its checks aren't hoisted out of the loop. No other function calls `next_header`, so that it is
/// inlined here.
#[inline(never)]
pub fn walk(exts: &Ipv6Extensions, start: IpNumber) -> u64 {
    match exts.next_header(start) {
        Ok(number) => u64::from(number.0),
        Err(_) => 256,
    }
}

/// Links the headers to one another and to `last`, and returns the number of the first. It is kept out of line, as
/// `walk` is.
#[inline(never)]
fn link(exts: &mut Ipv6Extensions, last: u8) -> u64 {
    u64::from(exts.set_next_headers(IpNumber(last)).0)
}

/// Walks a struct parsed from number 0 `times` times, each time to another number.
#[unsafe(no_mangle)]
pub extern "C" fn ipexts_struct_next_header(bytes: &[u8], _at: usize, times: u32) -> u64 {
    let (mut exts, _, _, _) = Ipv6Extensions::from_slice_lax(IpNumber(0), bytes);
    let mut sum = 0;
    for time in 0..times {
        relink(&mut exts, time);
        sum = with(sum, walk(&exts, IpNumber(0)));
    }
    sum
}

/// Links a struct parsed from number 0 `times` times, each time to another number.
#[unsafe(no_mangle)]
pub extern "C" fn ipexts_struct_set_next_headers(bytes: &[u8], _at: usize, times: u32) -> u64 {
    let (mut exts, _, _, _) = Ipv6Extensions::from_slice_lax(IpNumber(0), bytes);
    let mut sum = 0;
    for time in 0..times {
        sum = with(sum, link(&mut exts, (time % 256) as u8));
    }
    with(sum, of_exts(&exts))
}

/// Writes the struct `times` times into an emptied vector.
#[unsafe(no_mangle)]
pub extern "C" fn ipexts_struct_write(alloc: Global, bytes: &[u8], at: usize, times: u32) -> u64 {
    let (mut exts, _, _, _) = Ipv6Extensions::from_slice_lax(IpNumber(0), bytes);
    let mut out = Vec::new(alloc);
    let mut sum = 0;
    for time in 0..times {
        relink(&mut exts, time);
        out.clear();
        if exts.write(&mut out, IpNumber(0)).is_err() {
            return 0;
        }
        sum = with(sum, of_written(out.as_slice(), at));
    }
    sum
}

/// Writes the struct `times` times, each time into a new vector.
#[unsafe(no_mangle)]
pub extern "C" fn ipexts_struct_write_new(
    alloc: Global,
    bytes: &[u8],
    at: usize,
    times: u32,
) -> u64 {
    let (mut exts, _, _, _) = Ipv6Extensions::from_slice_lax(IpNumber(0), bytes);
    let mut sum = 0;
    for time in 0..times {
        relink(&mut exts, time);
        let mut out = Vec::new(alloc);
        if exts.write(&mut out, IpNumber(0)).is_err() {
            return 0;
        }
        sum = with(sum, of_written(out.as_slice(), at));
    }
    sum
}

/// Runs over a chain; reads all of each run, and what follows the last.
#[unsafe(no_mangle)]
pub extern "C" fn ipexts_runs(start: u8, bytes: &[u8]) -> u64 {
    over_runs(IpNumber(start), bytes, false)
}

/// Runs over a chain, and returns the digest of each run and of what follows the last: of every part, or of every byte.
/// No other function makes runs, so that the calls for them are inlined here.
#[inline(never)]
pub fn over_runs(start: IpNumber, bytes: &[u8], is_every_byte: bool) -> u64 {
    let mut runs = Ipv6ExtensionsRuns::new(start, bytes);
    let mut sum = 0;
    while let Some(exts) = runs.next() {
        sum = with_run(sum, &exts, is_every_byte);
    }
    let Some((number, rest, fault)) = runs.end() else {
        return sum;
    };
    if is_every_byte {
        return with_bytes(with(sum, u64::from(number.0)), rest);
    }
    let end = with(u64::from(number.0), of_bytes(rest));
    with(with(sum, end), u64::from(fault.is_some()))
}

/// Returns the digest `sum` extended by a run: by every part, or by every byte.
#[inline(never)]
fn with_run(sum: u64, exts: &Ipv6Extensions, is_every_byte: bool) -> u64 {
    if is_every_byte {
        with_held(sum, exts)
    } else {
        with(sum, of_exts(exts))
    }
}
