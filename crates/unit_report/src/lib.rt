//! What a report shows of a unit, which is a test or a setup script: the settings, the durations and the captured
//! output.
#![tactic(auto)]

pub mod config;
pub mod formatters;
pub mod unit_output;
