//! Words, numbers, durations and names as a report shows them: the modules of this crate and of `report_words`.
//!
//! Each type with a text has `write_to`, which allocates nothing and has one clause: the text that was written, or a
//! prefix of it after a fault. Its `Display` shows the same text.
//!
//! ```
//! let counter = Some(DisplayCounterIndex::new_counter(1, 2));
//! write_test_instance(&mut out, &styles.list_styles, &None, &counter, test.as_ref())?;
//! assert_eq!(out.as_str(), "(1/2) alpha t1");
//! ```

pub mod failure;
pub mod instance;
pub mod interceptor;
mod max_width;
pub mod quoting;
pub mod script;

pub use failure::{ExitDescription, display_abort_status, display_exited_with, write_nt_status};
pub use instance::{
    DisplayCounterIndex, DisplayStressIndex, DisplayTestInstance, DisplayTestName,
    write_test_instance, write_test_name,
};
pub use interceptor::format_interceptor_too_many_tests;
pub use quoting::{QuotedDisplay, shell_join};
pub use report_words::durations::{
    DurationRounding, FormattedDuration, FormattedHhMmSs, FormattedRelativeDuration,
};
pub use report_words::paths::{
    convert_rel_path_to_forward_slash, convert_rel_path_to_main_sep, dylib_path, dylib_path_envvar,
    rel_path_join,
};
pub use report_words::run_id::force_or_new_run_id;
pub use report_words::theme::ThemeCharacters;
pub use report_words::{durations, paths, plural, run_id, theme};
pub use script::{DisplayScriptInstance, write_script_instance};
pub use styled_text::decimal::{Unsigned, decimal_char_width};
pub use styled_text::style::RESET_COLOR;
