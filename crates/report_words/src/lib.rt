//! Words that need no value of a run but its times, ids and names: plurals, durations, paths, run ids, and the
//! characters of bars. What shows a test, a script, a command or how a process ended is in the crate `report_text`.
//!
//! Each function that writes takes a [`writers::write_str::WriteStr`] and has one clause: what was written, or a
//! prefix of it after a fault. No function here allocates while it writes.
//!
//! ```
//! use report_words::{durations::FormattedDuration, plural::setup_scripts_str};
//! let shown = FormattedDuration(Nanos::from_millis(1_500));
//! assert_eq!(shown.to_string(alloc)?.as_str(), "1.50s");
//! assert_eq!(setup_scripts_str(1), "setup script");
//! ```
#![tactic(auto)]

pub mod durations;
pub mod paths;
pub mod plural;
pub mod run_id;
pub mod theme;
