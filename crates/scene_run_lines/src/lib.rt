//! The lines of a scene that are of its run as a whole.
//!
//! `lines` reads the fields of each kind, and `parts` values that are in one field in parts. Of units, tests and setup
//! scripts, nothing is known here.
#![tactic(auto)]

pub mod config;
pub mod lines;
pub mod parts;
