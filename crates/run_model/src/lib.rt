//! The values of a test run: names, results, statistics, levels and events.
//!
//! These are the lower layers of nextest-runner as far as a console report needs them, under nextest's names. They
//! hold no text of a report and write nothing: a reporter gets a [`event::TestEvent`] and decides what to show.
#![tactic(auto)]

pub mod call;
mod decode;
pub mod event;
pub mod info;
mod load;
pub mod output;
pub mod output_event;
pub mod replay;
pub mod stats;
pub mod status;

pub use run_names::{
    abort, boxed, command, config, level, memory, name, not_seen, run_id, stress, time, unit,
};
