//! Tests of the lines of a whole run.

mod header;
mod not_seen;
