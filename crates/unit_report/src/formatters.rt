//! Durations, counts and warnings as the lines of a report show them.

mod durations;
mod skip_counts;
mod unit_kind;
mod warnings;

pub use durations::{
    DisplayBracketedDuration, DisplayBracketedHhMmSs, DisplayDurationBy, DisplaySlowDuration,
};
pub use skip_counts::write_skip_counts;
pub use unit_kind::DisplayUnitKind;
pub use warnings::write_final_warnings;
