//! The outcome of a run whose events are reported, and the status for it.

ghost use Rattle.std.specs.Prelude.{◌≡◌};
ghost use Rattle.scene_follower.specs.Outcomes.{outcome_after, outcome_of, status_of_outcome};

use console_reporter::imp::ReportCall;
use run_model::event::TestEventKind;
use run_model::stats::{FinalRunStats, RunFinishedStats, StressFinalRunStats};

/// The outcome of a followed run.
#[derive(Clone, Copy, PartialEq, Eq)]
pub enum RunOutcome {
    /// It has not ended: there was no end line after the last start line.
    NotEnded,
    /// The run ended: all tests ran, and none failed.
    Success,
    /// The run ended, and there was no test to run.
    NoTestsRun,
    /// The run ended: a test or a setup script failed, or it was cancelled.
    Failed,
}

impl RunOutcome {
    /// The status that a program ends with: that of `cargo nextest run`, and 3 for a run that has not ended.
    ///
    /// ```
    /// assert_eq!(RunOutcome::Failed.status(), 100);
    /// ```
    pub fn status(self) -> u8
        ensures { result ≡ status_of_outcome self }
    {
        match self {
            RunOutcome::NotEnded => 3,
            RunOutcome::Success => 0,
            RunOutcome::NoTestsRun => 4,
            RunOutcome::Failed => 100,
        }
    }

    /// The outcome after a call.
    pub(crate) fn after(self, call: &ReportCall<'_>) -> RunOutcome
        ensures { result ≡ outcome_after self call.now }
    {
        match call {
            ReportCall::Event(event) => match &event.kind {
                TestEventKind::RunStarted { .. } => RunOutcome::NotEnded,
                TestEventKind::RunFinished { run_stats, .. } => RunOutcome::of_stats(run_stats),
                _ => self,
            },
            ReportCall::Header(_) | ReportCall::Prefix(_) => self,
        }
    }

    // The outcome of a run that ended with these statistics.
    fn of_stats(stats: &RunFinishedStats) -> RunOutcome
        ensures { result ≡ outcome_of stats.now }
    {
        match stats {
            RunFinishedStats::Single(stats) => match stats.summarize_final() {
                FinalRunStats::Success => RunOutcome::Success,
                FinalRunStats::NoTestsRun => RunOutcome::NoTestsRun,
                FinalRunStats::Cancelled { .. } | FinalRunStats::Failed { .. } =>
                    RunOutcome::Failed,
            },
            RunFinishedStats::Stress(stats) => match stats.summarize_final() {
                StressFinalRunStats::Success => RunOutcome::Success,
                StressFinalRunStats::NoTestsRun => RunOutcome::NoTestsRun,
                StressFinalRunStats::Cancelled | StressFinalRunStats::Failed => RunOutcome::Failed,
            },
        }
    }
}
