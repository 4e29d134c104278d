//! The tests of the crates `scene_reader`, `scene_follower` and `scenes`: what the programs do, over scenes and writers
//! in memory. They have their own crate because a crate with tests is proved twice.
#![tactic(auto)]

#[cfg(test)]
mod testing;
#[cfg(test)]
mod tests;
