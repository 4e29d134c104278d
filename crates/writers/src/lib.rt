//! Writers, and texts as values that are written to them.
//!
//! A writer is a [`write_str::WriteStr`]. Each function that writes has one clause: the text was
//! written, or a prefix of it if the writer had a fault. A text is a value ([`text::WriteText`]),
//! and parts in sequence are a tuple. No function here allocates while it writes, except `String`,
//! which grows.
#![tactic(auto)]

pub mod laws;
pub mod text;
pub mod write_str;
