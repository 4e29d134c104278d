//! The texts of the responses of units that are asked for their state.
//!
//! `start` writes that the units are asked, and later that no further responses are waited for. `response` writes the
//! response of a unit, and `state` the state in it. The other texts of a run are in the crate `run_text`, those of
//! tests in `test_text`.
#![tactic(auto)]

pub mod response;
pub mod start;
pub mod state;
