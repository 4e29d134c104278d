//! What the texts of events share, and the settings of a reporter.
//!
//! `settings` has the settings, and `finish` says when a finished test is shown. `instance` and `script` name the
//! test or setup script that a line is about. `attempt_output` and `info_result` write the output of an attempt,
//! `result_words` and `abort_line` how it ended. `bar` and `stats_text` are parts of the texts of runs and responses.
//!
//! The texts of the events of tests are in the crate `test_text`, those of runs in `run_text`, and those of responses
//! in `info_text`.
#![tactic(auto)]

pub mod abort_line;
pub mod attempt_output;
pub mod bar;
pub mod finish;
pub mod info_result;
pub mod instance;
pub mod laws;
pub mod result_words;
pub mod script;
pub mod settings;
pub mod stats_text;
