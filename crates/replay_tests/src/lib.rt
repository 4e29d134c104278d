//! The tests of replayed runs. They are not in `recorded_tests`, so that the two crates can be proved in parallel.
#![tactic(auto)]

#[cfg(test)]
mod runs;
#[cfg(test)]
mod testing;
