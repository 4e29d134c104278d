//! Tests of lines that no scene leads to: a scene cannot spell them, or the program never prints them. All other
//! lines are cases of `cases/printed`, with the bytes that nextest printed. The tests are of the crates `text_parts`
//! and `test_text` (in `event`), `info_text` (in `info`) and `run_text` (in `run`), one file for each of their
//! modules. They have their own crate because a crate with tests is proved twice.
#![tactic(auto)]

#[cfg(test)]
mod event;
#[cfg(test)]
mod info;
#[cfg(test)]
mod run;
#[cfg(test)]
mod testing;
