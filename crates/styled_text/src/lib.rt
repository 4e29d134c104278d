//! Texts that do not depend on a run: styles, escape sequences, lines, indentation, columns, numbers.
//!
//! Each function that writes takes a [`writers::write_str::WriteStr`] and has one clause: the text was
//! written, or a prefix of it if the writer had a fault. No function here allocates while it writes.
#![tactic(auto)]

mod blocks;
pub mod decimal;
pub mod escapes;
pub mod fitting;
pub mod indenter;
pub mod laws;
pub mod lines;
pub mod numbers;
pub mod repeated;
pub mod reporter_helpers;
pub mod stripped;
pub mod style;
pub mod text;
pub mod trailing_newline;

pub use writers::write_str;
