//! The results of runs.

mod stats;
mod stress;
