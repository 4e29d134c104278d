//! The lines of a scene that are of its units: tests and setup scripts.
//!
//! `lines` reads the fields of each kind, and `parts` values that are in one field in parts. Which word a kind of line
//! begins with is not known here.
#![tactic(auto)]

pub mod lines;
pub mod parts;

use run_model::memory::OutOfMemory;

// What a field spells, where it spells something.
type Field<T> = Result<Option<T>, OutOfMemory>;
