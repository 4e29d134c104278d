//! Scenes: runs written as text, one event a line. They are read, checked and reported as a whole.
//!
//! One module a concern:
//!
//! - `report` is the whole way from a file's bytes to those of its report and its records.
//! - `laws` states what the other contracts imply, such as what can still stop a report without a wrong line.
//! - `gathering` reports calls into memory, and `judge` asks whether a reporter would refuse them.
//! - `keeping` keeps the text of a scene while it is judged.
//! - `process` is what a program does with its words.
//! - `scene` is a run of the library, which owns its text.
//!
//! How lines are read and followed one by one is in the crate `scene_follower`.
#![tactic(auto)]

mod gathering;
mod judge;
mod keeping;
pub mod laws;
pub mod process;
pub mod report;
pub mod scene;
