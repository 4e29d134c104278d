//! The fields of a scene's lines: how a line is taken apart, what each kind of field spells, and what can be wrong.
//! Which fields the line of an event has is defined in the crates above.
//!
//! - `fields` takes a line apart from left to right; `owned_text` is a text in memory of its own, as the fields of a
//!   large line are.
//! - `values`, `numbers`, `names`, `counts`, `results` (how an attempt ended), `lists` (of words) and `texts` read the
//!   fields of these kinds.
//! - `stored` is an output of a recorded run, and `reference` is where its bytes are.
//! - `marks` finds a byte, `split` cuts a text at a byte, `usual_stats` reads the counts of most lines, and `unescape`
//!   decodes a text in place.
//! - `fault` is what can be wrong with a line.
#![tactic(auto)]

pub mod counts;
pub mod fault;
pub mod fields;
pub mod lists;
mod marks;
pub mod names;
pub mod numbers;
pub mod owned_text;
pub mod reference;
pub mod results;
pub mod split;
pub mod stored;
pub mod texts;
pub mod unescape;
mod usual_stats;
pub mod values;
