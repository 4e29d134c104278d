//! What the programs `report`, `follow` and `replay` share besides their reporter.
//!
//! `args` parses their command lines, `pieces` reads a file some lines at a time, and `fault` has the errors of the
//! programs, with the message and the exit status of each.
#![tactic(auto)]

pub mod args;
pub mod fault;
pub mod pieces;
