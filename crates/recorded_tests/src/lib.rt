//! The tests of the outputs of a recorded run, and of the lines that refer to them. They have their own crate because a
//! crate with tests is proved twice.
#![tactic(auto)]

#[cfg(test)]
mod lines;
#[cfg(test)]
mod testing;
#[cfg(test)]
mod tests;
