//! What a reporter knows of the calls before, and what it decides about the next one.
//!
//! - `decider`: whether an event is refused, and whether its output is needed, from its metadata.
//! - `faults`: how a call fails.
//! - `state`: what is known of the calls before, and what an event changes in it.
//! - `finished_attempts`: a finished test with its attempts.
//! - `kept`: the entries of the summary in their order. `final_output` is such an entry, `loaded_output` the output
//!   in it, `kept_test` its test with names of its own, `binary_ids` the binary ids that these tests share,
//!   `entry_key` the key that orders it, and `kept_output` a short form that takes less memory.
//! - `laws`: that the order of the summary is the only one.
#![tactic(auto)]

pub mod binary_ids;
pub mod decider;
pub mod entry_key;
pub mod faults;
pub mod final_output;
pub mod finished_attempts;
pub mod kept;
pub mod kept_output;
pub mod kept_test;
pub mod laws;
pub mod loaded_output;
pub mod state;
