//! Recorded runs. A replay reads only those outputs that the report shows.
//!
//! A recorded run is a scene in which a field of a captured stream may be a reference to its bytes in a second file.
//! `read_at` reads that file, and `outputs` loads exactly the bytes that a reference names. `events` asks the decider
//! about an event, and puts the outputs that it needs into it. `loading` does so before a sink takes the call of a
//! line. `runs` is the run as a source of lines, which `scene_follower` follows like a scene.
#![tactic(auto)]

mod events;
mod loading;
mod outputs;
mod read_at;
mod runs;

pub use events::{LoadEventFault, load_outputs};
pub use outputs::{LoadFault, RecordedOutputs, StreamFault};
pub use read_at::{Metered, ReadAt, Source};
pub use runs::RecordedRun;
