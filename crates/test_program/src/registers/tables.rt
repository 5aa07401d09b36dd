//! What the tests of tables have in common.

use std::process::Abort;

/// Expects that no row of a table is wrong; the first that is stands in this place, counted from 0.
pub(super) fn expect_none_wrong<R: Abort>(rt: &R, wrong: Option<usize>) {
    assert_eq!(rt; wrong, None);
}
