//! Reads the text of a scene: a run written as text, one event a line.
//!
//! `reader` reads a scene's lines into calls of a reporter. What a field spells is in the crate `scene_fields`; no text
//! of a report is known here.
#![tactic(auto)]

pub mod reader;
pub mod usual;

pub use scene_fields::fault;
pub use scene_run_lines::config;
