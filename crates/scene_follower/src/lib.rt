//! Following a scene: the lines of a run are read one after the other, and each call is reported.
//!
//! One module a concern:
//!
//! - `follow` is the whole way, from the lines of a source to the bytes of their report and their records.
//! - `read` reads the lines of a source, and passes their calls to a sink.
//! - `scene_reporter` is the sink that reports them, and `reporter` builds its reporter. `outcome` is how
//!   the run ended.
//! - `devices` puts a buffer before each device.
//! - `process` is what the programs have in common: standard descriptors, the file of records, the line and the status
//!   of a fault.
//!
//! A run that counts only as a whole is in the crate `scenes`. How a text is read is in `scene_reader`; the words of a
//! command line, pieces of a file and faults are in `command_line`.
#![tactic(auto)]

mod devices;
pub mod follow;
mod outcome;
pub mod process;
pub mod read;
pub mod reporter;
pub mod scene_reporter;
