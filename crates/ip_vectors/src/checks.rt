//! Comparisons of results with expected values.
use std::fmt::Debug;
use std::process::Abort;

/// Checks that a result is as expected. A failure reports the row.
///
/// `assert_eq!` at the same place takes the prover some ten times as long.
pub(crate) fn assert_same<T: PartialEq + Debug + Drop>(
    rt: &impl Abort,
    row: impl Debug + Drop,
    got: T,
    expected: T,
) {
    assert_eq!(rt; got, expected, "{row:?}");
}

/// Checks that a condition holds. A failure reports the row.
pub(crate) fn assert_that(rt: &impl Abort, row: impl Debug + Drop, holds: bool) {
    assert!(rt; holds, "{row:?}");
}

/// Checks that bytes are as expected. A failure reports the row.
pub(crate) fn assert_bytes(rt: &impl Abort, row: impl Debug + Drop, got: &[u8], expected: &[u8]) {
    assert_same(rt, row, got, expected);
}
