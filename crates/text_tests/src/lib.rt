//! Tests of the events of a run and of parts of its lines that no scene leads to: a scene cannot spell them, or the
//! program never prints them. All others are cases of `cases/printed`, with the bytes that nextest printed. The tests
//! are of the crates `run_model` (in `model`), `styled_text` and `report_text` (in `text`) and `unit_report` (in
//! `unit`), one file for each of their modules. They have their own crate because a crate with tests is proved twice.
#![tactic(auto)]

#[cfg(test)]
mod model;
#[cfg(test)]
mod testing;
#[cfg(test)]
mod text;
#[cfg(test)]
mod unit;
