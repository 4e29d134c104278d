//! How many tests of a run passed, failed and so on, and the outcome of the run.

ghost use Rattle.std.specs.Prelude.{◌≡◌};
ghost use Rattle.run_model.specs.Stats.{has_failures, failure_kind, final_stats_of, final_stats_of_run, planned_stats};
ghost use Rattle.run_model.specs.Stats.{stress_stats_of};

use run_names::level::CancelReason;
use run_names::stress::StressIndex;

/// The counts of a run so far. By default all are 0, and nothing has cancelled the run.
///
/// ```
/// let stats = RunStats { finished_count: 1, passed: 1, ..RunStats::new(2) };
/// assert!(!stats.has_failures()); // of two tests one has passed
/// ```
#[derive(Clone, Copy, Debug, Default, PartialEq, Eq)]
pub struct RunStats {
    /// How many tests were to run at first.
    pub initial_run_count: usize,
    /// How many tests have finished.
    pub finished_count: usize,
    /// Tests that passed, those below among them.
    pub passed: usize,
    /// Tests that passed and were slow.
    pub passed_slow: usize,
    /// Tests that passed after earlier attempts.
    pub flaky: usize,
    /// Tests that passed and leaked handles.
    pub leaky: usize,
    /// Tests that failed.
    pub failed: usize,
    /// Tests that failed since they leaked handles.
    pub leaky_failed: usize,
    /// Tests that could not be started.
    pub exec_failed: usize,
    /// Tests that timed out.
    pub timed_out: usize,
    /// Tests that were skipped.
    pub skipped: usize,
    /// Setup scripts that failed.
    pub setup_scripts_failed: usize,
    /// Setup scripts that could not be started.
    pub setup_scripts_exec_failed: usize,
    /// Setup scripts that timed out.
    pub setup_scripts_timed_out: usize,
    /// Why the run was cancelled, if it was.
    pub cancel_reason: Option<CancelReason>,
}

impl RunStats {
    /// What a run of this many tests begins with: nothing has finished, and nothing has cancelled it.
    ///
    /// ```
    /// assert_eq!(RunStats::new(2), RunStats { initial_run_count: 2, ..RunStats::default() });
    /// ```
    pub fn new(initial_run_count: usize) -> Self
        ensures { result ≡ planned_stats initial_run_count }
    {
        RunStats {
            initial_run_count,
            ..RunStats::default()
        }
    }

    /// Whether a test or a setup script failed, could not be started or timed out.
    ///
    /// ```
    /// assert!(RunStats { finished_count: 1, failed: 1, ..RunStats::new(2) }.has_failures());
    /// ```
    pub fn has_failures(&self) -> bool
        ensures { result ≡ has_failures self.now }
    {
        self.failed > 0
            || self.exec_failed > 0
            || self.timed_out > 0
            || self.setup_scripts_failed > 0
            || self.setup_scripts_exec_failed > 0
            || self.setup_scripts_timed_out > 0
    }

    /// The outcome of the run, the first that applies: cancelled for a reason, failed, without
    /// tests, cut short, a success.
    ///
    /// ```
    /// assert_eq!(RunStats::new(0).summarize_final(), FinalRunStats::NoTestsRun);
    /// ```
    pub fn summarize_final(&self) -> FinalRunStats
        ensures { result ≡ final_stats_of self.now }
    {
        if self.cancel_reason.is_some() {
            FinalRunStats::Cancelled {
                reason: self.cancel_reason,
                kind: self.failure_kind(),
            }
        } else if self.has_failures() {
            FinalRunStats::Failed {
                kind: self.failure_kind(),
            }
        } else if self.initial_run_count == 0 {
            FinalRunStats::NoTestsRun
        } else if self.finished_count < self.initial_run_count {
            FinalRunStats::Cancelled {
                reason: None,
                kind: self.failure_kind(),
            }
        } else {
            FinalRunStats::Success
        }
    }

    // A setup script that failed comes first; otherwise how many tests did not run.
    fn failure_kind(&self) -> RunStatsFailureKind
        ensures { result ≡ failure_kind self.now }
    {
        if self.setup_scripts_failed > 0
            || self.setup_scripts_exec_failed > 0
            || self.setup_scripts_timed_out > 0
        {
            RunStatsFailureKind::SetupScript
        } else {
            RunStatsFailureKind::Test {
                initial_run_count: self.initial_run_count,
                not_run: self.initial_run_count.saturating_sub(self.finished_count),
            }
        }
    }
}

/// The outcome of a run.
///
/// ```
/// let stats = RunStats { finished_count: 1, passed: 1, ..RunStats::new(1) };
/// assert_eq!(stats.summarize_final(), FinalRunStats::Success);
/// ```
#[derive(Clone, Copy, Debug, PartialEq, Eq)]
pub enum FinalRunStats {
    /// All tests ran, and none failed.
    Success,
    /// There was no test to run.
    NoTestsRun,
    /// The run was cancelled, or fewer tests finished than were to run.
    Cancelled {
        /// The reason, if it is known.
        reason: Option<CancelReason>,
        /// What was left undone.
        kind: RunStatsFailureKind,
    },
    /// A test or a setup script failed.
    Failed {
        /// What was left undone.
        kind: RunStatsFailureKind,
    },
}

/// Where a run failed.
#[derive(Clone, Copy, Debug, PartialEq, Eq)]
pub enum RunStatsFailureKind {
    /// In a setup script.
    SetupScript,
    /// In a test.
    Test {
        /// How many tests were to run.
        initial_run_count: usize,
        /// How many of them did not finish.
        not_run: usize,
    },
}

/// The counts of a stress run.
///
/// ```
/// let completed = run_model::stress::StressIndex { current: 3, total: None };
/// let last_final_stats = FinalRunStats::Success;
/// let stress = StressRunStats { completed, success_count: 2, failed_count: 1, last_final_stats };
/// assert_eq!(stress.summarize_final(), StressFinalRunStats::Failed);
/// ```
#[derive(Clone, Copy, Debug, PartialEq, Eq)]
pub struct StressRunStats {
    /// How many iterations have finished, and how many there were to be.
    pub completed: StressIndex,
    /// Iterations that succeeded.
    pub success_count: u32,
    /// Iterations that failed.
    pub failed_count: u32,
    /// The outcome of the last iteration.
    pub last_final_stats: FinalRunStats,
}

impl StressRunStats {
    /// The outcome of the stress run, the first that applies: cancelled, failed, without tests, a success.
    pub fn summarize_final(&self) -> StressFinalRunStats
        ensures { result ≡ stress_stats_of self.now }
    {
        match self.last_final_stats {
            FinalRunStats::Cancelled { .. } => StressFinalRunStats::Cancelled,
            _ if self.failed_count > 0 => StressFinalRunStats::Failed,
            FinalRunStats::NoTestsRun => StressFinalRunStats::NoTestsRun,
            FinalRunStats::Success | FinalRunStats::Failed { .. } => StressFinalRunStats::Success,
        }
    }
}

/// The outcome of a stress run.
#[derive(Clone, Copy, Debug, PartialEq, Eq)]
pub enum StressFinalRunStats {
    /// No iteration failed.
    Success,
    /// There was no test to run.
    NoTestsRun,
    /// The last iteration was cancelled, or did not run all its tests.
    Cancelled,
    /// An iteration failed.
    Failed,
}

/// The statistics that end a run.
///
/// ```
/// assert_eq!(RunFinishedStats::Single(stats).final_stats(), FinalRunStats::Success);
/// ```
#[derive(Clone, Copy, Debug, PartialEq, Eq)]
pub enum RunFinishedStats {
    /// A single run.
    Single(RunStats),
    /// A stress run.
    Stress(StressRunStats),
}

impl RunFinishedStats {
    /// The outcome of the run; for a stress run, that of its last iteration.
    ///
    /// ```
    /// assert_eq!(RunFinishedStats::Single(RunStats::new(0)).final_stats(), FinalRunStats::NoTestsRun);
    /// ```
    pub fn final_stats(&self) -> FinalRunStats
        ensures { result ≡ final_stats_of_run self.now }
    {
        match self {
            RunFinishedStats::Single(stats) => stats.summarize_final(),
            RunFinishedStats::Stress(stats) => stats.last_final_stats,
        }
    }
}
