//! The output of a test, as a report shows it.

mod captured;
mod error_chain;
mod fmt_style;
mod header;
mod highlighted_lines;
mod overrides;
mod reporter;

pub use error_chain::DisplayErrorChain;
pub use fmt_style::{FmtPrefix, FmtSuffix};
pub use header::{OutputHeader, OutputName};
pub use overrides::OutputDisplayOverrides;
pub use reporter::{ChildOutputSpec, UnitOutputReporter};
pub use run_model::config::TestOutputDisplay;

/// Whether a report is made during the run or from its record.
#[derive(Clone, Copy, Debug, PartialEq, Eq)]
pub enum DisplayerKind {
    /// During the run.
    Live,
    /// From a record. It says which streams were not captured.
    Replay,
}
