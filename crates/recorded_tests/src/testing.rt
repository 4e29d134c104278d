//! The assertions of the tests, one function each: an assertion is expanded and proved anew at each place where it is
//! used.

use std::process::Abort;

/// A text is the wanted one.
pub fn expect_text(rt: &impl Abort, shown: &str, want: &str) {
    assert_eq!(rt; shown, want);
}

/// Bytes are the wanted ones, in this row.
pub fn expect_bytes(rt: &impl Abort, shown: &[u8], want: &[u8], row: &str) {
    assert_eq!(rt; shown, want, "of {row}");
}

/// A number is the wanted one, in this row.
pub fn expect_count(rt: &impl Abort, count: u64, want: u64, row: &str) {
    assert_eq!(rt; count, want, "of {row}");
}

/// The row of this name holds.
pub fn expect_row(rt: &impl Abort, holds: bool, row: &str) {
    assert!(rt; holds, "of {row}");
}
