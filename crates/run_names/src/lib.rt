//! Names, levels, times, iterations, and what went wrong: the small values that a run is made of.
//!
//! [`run_model`](../run_model) depends on it and passes it on under its own name.
#![tactic(auto)]

pub mod abort;
pub mod boxed;
pub mod command;
pub mod config;
pub mod level;
pub mod memory;
pub mod name;
pub mod not_seen;
pub mod run_id;
pub mod stress;
pub mod time;
pub mod unit;
