//! The assertions of the tests, one function each: an assertion is expanded and proved anew at each place where it is
//! used.

use command_line::args::Options;
use run_model::level::StatusLevel;
use std::process::Abort;

/// The options without any, over a file.
pub const OPTIONS: Options<'static> = Options {
    should_colorize: false,
    show_counter: false,
    is_replay: false,
    unload_skipped: false,
    status_level: StatusLevel::Pass,
    store: None,
    file: "FILE",
    is_last: false,
};

/// A text is the wanted one.
pub fn expect_text(rt: &impl Abort, shown: &str, want: &str) {
    assert_eq!(rt; shown, want);
}

/// The row of this name holds.
pub fn expect_row(rt: &impl Abort, holds: bool, row: &str) {
    assert!(rt; holds, "{row}");
}
