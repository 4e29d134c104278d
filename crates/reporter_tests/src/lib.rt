//! Tests of the crate `console_reporter` for what no scene leads to: devices that fail, memory that is refused, a
//! refused event between others, the recorded forms of events, and what the decider returns for these. What a
//! reporter prints is covered by `cases/printed`, `cases/program` and `cases/fields`. The tests have their own crate
//! because a crate with tests is proved twice.
#![tactic(auto)]

#[cfg(test)]
mod events;
#[cfg(test)]
mod loads;
#[cfg(test)]
mod recorded;
#[cfg(test)]
mod runs;
#[cfg(test)]
mod testing;
