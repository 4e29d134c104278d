//! Captured output, settings, skip counts and warnings.

mod child_output;
mod config;
mod skip_counts;
mod warnings;
