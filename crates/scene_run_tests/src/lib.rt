//! The tests of whole runs of scenes: by `run_report`, and call by call. They are not in `scene_tests`, so that the two
//! crates can be proved in parallel, at the end of the gate.
#![tactic(auto)]

#[cfg(test)]
mod plain;
#[cfg(test)]
mod testing;
#[cfg(test)]
mod worked;
