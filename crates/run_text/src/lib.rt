//! The texts of the events of a whole run, each from the event and from the reporter's settings.
//!
//! `start` writes which tests will run, `setup_script` the setup scripts before them, `stress` the iterations of a
//! stress run, and `input` the state of a run when a key asks for it. `cancel` and `pause` write that the run ends
//! early or is stopped for a while, with `running` for what still runs. `summary` writes the result of the run, and
//! `not_seen` the tests that a rerun has left out. `header` is the header of a replay, and `run_id` the id in it and
//! in the start.
//!
//! The texts of the events of tests are in the crate `test_text`.
#![tactic(auto)]

pub mod cancel;
pub mod header;
pub mod input;
pub mod not_seen;
pub mod pause;
pub mod run_id;
pub mod running;
pub mod setup_script;
pub mod start;
pub mod stress;
pub mod summary;
