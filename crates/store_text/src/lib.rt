//! The records of finished tests: what a store keeps of a run beside its report.
//!
//! A record is a line of four netstrings, which a program can read back whatever the texts hold: the binary's id, the
//! test's name, how its last attempt ended in a short word, and the output that is kept of that attempt.
//!
//! ```text
//! 5:alpha,2:t1,4:PASS,0:,
//! 5:alpha,7:mod::t2,4:FAIL,5:boom
//! ,
//! ```
//!
//! `config` says what a store is asked to keep, `netstring` how a text is written so that its end is known,
//! `stored_output` what is kept of captured output, and `record` puts them together. The short words are those of the
//! lines of tests, in the crate `text_parts`.
#![tactic(auto)]

pub mod config;
pub mod netstring;
pub mod record;
pub mod stored_output;
