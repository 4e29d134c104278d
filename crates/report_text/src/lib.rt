//! The values of a run as a report shows them: tests with their counters, setup scripts, commands, and how a process
//! ended. Words that need none of these, as plurals and durations, are in the crate `report_words`; captured output
//! is in `unit_report`.
//!
//! Each function that writes takes a [`writers::write_str::WriteStr`] and has one clause: what was written, or a prefix
//! of it after a fault. No function here allocates while it writes.
#![tactic(auto)]

pub mod helpers;

pub use styled_text::{escapes, indenter, reporter_helpers, style, write_str};
