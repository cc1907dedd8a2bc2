//! The number of headers that fit one struct of six places.
use crate::checks::assert_same;
use crate::spans::samples::{STAYS, span};
use ip_ext_chains::run_len;
use ip_spans::{HeaderSpan, parse_chain};
use std::process::Abort;

/// Returns the length of the first run of headers with these numbers, at most 8.
fn run_of(numbers: &[u8]) -> Option<usize> {
    let mut spans = [span(0, 8, 59, 59); 8];
    for (span, number) in spans.iter_mut().zip(numbers) {
        span.number = *number;
    }
    Some(run_len(spans.get(..numbers.len())?))
}

/// Checks the length of the first run of headers with these numbers, at most 8.
fn check_run(rt: &impl Abort, numbers: &[u8], len: usize) {
    assert_same(rt, numbers, run_of(numbers), Some(len));
}

#[test]
fn runs_that_end_with_the_array(rt: HostRuntime) {
    check_run(&rt, &[], 0);
    check_run(&rt, &[44], 1);
    check_run(&rt, &[0], 1);
    check_run(&rt, &[60, 43, 60], 3);
    check_run(&rt, &[43, 60], 2);
    check_run(&rt, &[51, 44, 43, 0], 4);
    check_run(&rt, &[0, 60, 43, 44, 51, 60], 6);
}

#[test]
fn runs_that_end_before_a_filled_place(rt: HostRuntime) {
    check_run(&rt, &[0, 0], 1);
    check_run(&rt, &[43, 43], 1);
    check_run(&rt, &[44, 51, 44], 2);
    check_run(&rt, &[51, 44, 51], 2);
    check_run(&rt, &[60, 60], 1);
    check_run(&rt, &[60, 44, 60, 43], 2);
    check_run(&rt, &[60, 43, 60, 60], 3);
    check_run(&rt, &[43, 60, 44, 60], 3);
    check_run(&rt, &[0, 60, 43, 44, 51, 60, 60], 6);
    check_run(&rt, &[0, 60, 43, 44, 51, 60, 43], 6);
}

#[test]
fn runs_that_end_before_what_is_no_extension_header(rt: HostRuntime) {
    check_run(&rt, &[17], 0);
    check_run(&rt, &[59, 60], 0);
    check_run(&rt, &[60, 135, 43], 1);
}

/// Checks the runs of a routing header and two destination options: the second of these starts the second run.
#[test]
fn runs_of_a_chain_one_after_the_other(rt: HostRuntime) {
    let bytes: [u8; 24] = [
        60, 0, 0, 0, 0, 0, 0, 0, 60, 0, 0, 0, 0, 0, 0, 0, 17, 0, 0, 0, 0, 0, 0, 0,
    ];
    let mut spans: [HeaderSpan; 3] = [STAYS; 3];
    let chain = parse_chain(43, &bytes, &mut spans);
    assert_same(&rt, "headers", chain.headers, 3);
    assert_same(&rt, "first run", run_len(&spans), 2);
    assert_same(&rt, "second run", run_len(&spans[2..]), 1);
    assert_same(&rt, "no headers", run_len(&spans[3..]), 0);
}
