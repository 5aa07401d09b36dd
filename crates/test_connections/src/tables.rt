//! What the tests have in common.

use std::process::Abort;

/// The first thing that isn't as it should be, in words; None where all is.
pub(super) type Wrong = Option<&'static str>;

/// Expects that no row of a table is wrong; the first that is stands in this place, counted from 0.
pub(super) fn expect_none_wrong<R: Abort>(rt: &R, wrong: Option<usize>) {
    assert_eq!(rt; wrong, None);
}

/// Expects that all is as it should be.
pub(super) fn expect_nothing_wrong<R: Abort>(rt: &R, wrong: Wrong) {
    assert_eq!(rt; wrong, None);
}
