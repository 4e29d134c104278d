//! The assertions of the tests, one function each: an assertion is expanded and proved anew at each place where it is
//! used.

use std::process::Abort;

/// A text is the wanted one.
pub fn expect_text(rt: &impl Abort, shown: &str, want: &str) {
    assert_eq!(rt; shown, want);
}

/// The row of this number holds.
pub fn expect_row(rt: &impl Abort, holds: bool, row: usize) {
    assert!(rt; holds, "row {row}");
}
