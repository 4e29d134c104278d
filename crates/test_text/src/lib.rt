//! The texts of the events of tests, each from the event and from the reporter's settings.
//!
//! They are in `test_started`, `test_slow`, `test_retry`, `test_finished` and `test_skipped`, each with its event.
//! `status_line` is the line of a finished test, which the summary repeats.
#![tactic(auto)]

mod attempt;
pub mod status_line;
pub mod test_finished;
pub mod test_retry;
pub mod test_skipped;
pub mod test_slow;
pub mod test_started;
