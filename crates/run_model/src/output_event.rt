//! Events whose captured output a replay loads only if the report shows it.

use crate::output::OutputSpec;
use crate::stats::RunStats;
use crate::status::{ExecuteStatus, ExecutionStatuses, SetupScriptExecuteStatus};
use run_names::config::TestOutputDisplay;
use run_names::stress::StressIndex;
use run_names::time::Nanos;

/// An event with captured output, without the names of its unit: what a replay knows before it loads the output.
///
/// ```
/// let kind = event.recorded(alloc)?;
/// assert!(matches!(kind, Some(OutputEventKind::TestFinished { .. })));
/// ```
#[derive(Debug, Drop)]
pub enum OutputEventKind<S: OutputSpec> {
    /// A setup script has finished.
    SetupScriptFinished {
        /// Which iteration of a stress run it belongs to.
        stress_index: Option<StressIndex>,
        /// How it ended, and its output.
        run_status: SetupScriptExecuteStatus<S>,
    },
    /// An attempt of a test has failed, and another one follows.
    TestAttemptFailedWillRetry {
        /// Which iteration of a stress run it belongs to.
        stress_index: Option<StressIndex>,
        /// The attempt.
        run_status: ExecuteStatus<S>,
        /// How long the next attempt waits.
        delay_before_next_attempt: Nanos,
        /// When its output is to be shown.
        failure_output: TestOutputDisplay,
    },
    /// A test has finished.
    TestFinished {
        /// Which iteration of a stress run it belongs to.
        stress_index: Option<StressIndex>,
        /// When its output is to be shown if it succeeded.
        success_output: TestOutputDisplay,
        /// When its output is to be shown if it failed.
        failure_output: TestOutputDisplay,
        /// Its attempts.
        run_statuses: ExecutionStatuses<S>,
        /// The counts of the run, this test among them.
        current_stats: RunStats,
    },
}

/// Whether a replay needs an event's captured output.
#[derive(Clone, Copy, Debug, PartialEq, Eq)]
pub enum LoadOutput {
    /// It is shown, at once or in the summary.
    Load,
    /// No report shows it.
    Skip,
}
