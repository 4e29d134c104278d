//! What happens in a run.

ghost use Rattle.std.specs.Prelude.{◌≡◌, IfOk};
ghost use Rattle.run_model.specs.Names.{run_finished, run_started, test_attempt_failed_will_retry, test_finished};
ghost use Rattle.run_model.specs.Names.{test_skipped, recorded_kind, unloaded_event};

use crate::info::InfoResponse;
use crate::output::{LiveSpec, RecordingSpec};
use crate::output_event::OutputEventKind;
use crate::stats::{RunFinishedStats, RunStats};
use crate::status::{ExecuteStatus, ExecutionStatuses, RetryData, SetupScriptExecuteStatus};
use run_names::command::CommandLine;
use run_names::config::TestOutputDisplay;
use run_names::memory::OutOfMemory;
use run_names::name::{ProfileName, ProgramName, ScriptId, TestInstanceId};
use run_names::not_seen::NotSeen;
use run_names::stress::{StressIndex, StressProgress};
use run_names::time::Nanos;
use std::alloc::Global;
use uuid::Uuid;

/// An event of a run.
///
/// ```
/// let kind = TestEventKind::TestSkipped { stress_index: None, test_instance: test.as_ref() };
/// let event = TestEvent { elapsed: time, kind };
/// ```
#[derive(Debug, Drop)]
pub struct TestEvent<'a> {
    /// How long the run has taken.
    pub elapsed: Nanos,
    /// What happened.
    pub kind: TestEventKind<'a>,
}

impl<'a> TestEvent<'a> {
    /// The run has started.
    ///
    /// ```
    /// let test_list = TestCounts { run_count: 2, listed_binary_count: 1, skip_counts: SkipCounts::default() };
    /// let id = uuid::Uuid::from_u128(0x4000_8000_0000_0000_0001);
    /// let profile = run_model::name::ProfileName::new(alloc, "default")?;
    /// let event = TestEvent::run_started(Nanos(0), test_list, id, profile);
    /// ```
    pub fn run_started(
        elapsed: Nanos,
        test_list: TestCounts,
        run_id: Uuid,
        profile_name: ProfileName,
    ) -> Self
        ensures { result ≡ run_started elapsed test_list run_id profile_name }
    {
        TestEvent {
            elapsed,
            kind: TestEventKind::RunStarted {
                test_list,
                run_id,
                profile_name,
            },
        }
    }

    /// A test is skipped.
    ///
    /// ```
    /// let event = TestEvent::test_skipped(time, test.as_ref());
    /// assert!(matches!(event.kind, TestEventKind::TestSkipped { stress_index: None, .. }));
    /// ```
    pub fn test_skipped(elapsed: Nanos, test_instance: TestInstanceId<'a>) -> Self
        ensures { result ≡ test_skipped elapsed test_instance.entry }
    {
        TestEvent {
            elapsed,
            kind: TestEventKind::TestSkipped {
                stress_index: None,
                test_instance,
            },
        }
    }

    /// An attempt of a test has failed, and after the delay another one follows. Its output is shown at once.
    ///
    /// ```
    /// let retry_data = RetryData { attempt: 1, total_attempts: 2 };
    /// let failed = ExecuteStatus::failed(101, time).with_retry_data(retry_data);
    /// let event = TestEvent::test_attempt_failed_will_retry(time, test.as_ref(), failed, Nanos::from_secs(1));
    /// ```
    pub fn test_attempt_failed_will_retry(
        elapsed: Nanos,
        test_instance: TestInstanceId<'a>,
        run_status: ExecuteStatus<LiveSpec>,
        delay_before_next_attempt: Nanos,
    ) -> Self
        ensures { result
            ≡ test_attempt_failed_will_retry elapsed test_instance.entry run_status delay_before_next_attempt }
    {
        TestEvent {
            elapsed,
            kind: TestEventKind::TestAttemptFailedWillRetry {
                stress_index: None,
                test_instance,
                run_status,
                delay_before_next_attempt,
                failure_output: TestOutputDisplay::Immediate,
            },
        }
    }

    /// A test has finished, `elapsed` after the run began. Its output is shown by nextest's defaults: immediately if
    /// the test failed, and never if it passed.
    ///
    /// ```
    /// let statuses = ExecutionStatuses::single(alloc, ExecuteStatus::passed(time));
    /// let event = TestEvent::test_finished(time, test.as_ref(), statuses, stats);
    /// assert_eq!(event.elapsed, time);
    /// ```
    pub fn test_finished(
        elapsed: Nanos,
        test_instance: TestInstanceId<'a>,
        run_statuses: ExecutionStatuses<LiveSpec>,
        current_stats: RunStats,
    ) -> Self
        ensures { result ≡ test_finished elapsed test_instance.entry run_statuses current_stats }
    {
        TestEvent {
            elapsed,
            kind: TestEventKind::TestFinished {
                stress_index: None,
                test_instance,
                success_output: TestOutputDisplay::Never,
                failure_output: TestOutputDisplay::Immediate,
                run_statuses,
                current_stats,
            },
        }
    }

    /// The run has finished after this time, with these statistics.
    ///
    /// ```
    /// let event = TestEvent::run_finished(time, stats);
    /// assert!(matches!(event.kind, TestEventKind::RunFinished { .. }));
    /// ```
    pub fn run_finished(elapsed: Nanos, run_stats: RunStats) -> Self
        ensures { result ≡ run_finished elapsed run_stats }
    {
        TestEvent {
            elapsed,
            kind: TestEventKind::RunFinished {
                elapsed,
                run_stats: RunFinishedStats::Single(run_stats),
                outstanding_not_seen: None,
            },
        }
    }

    /// Replaces the captured output of every attempt by `NotLoaded`, in an event of a kind that
    /// [`OutputEventKind`] has. Other events do not change. It allocates nothing.
    ///
    /// ```
    /// let mut event = TestEvent::test_finished(time, test.as_ref(), statuses, stats);
    /// event.unload();
    /// if let TestEventKind::TestFinished { run_statuses, .. } = &event.kind {
    ///     assert!(!run_statuses.last_status().output.has_loaded_output());
    /// }
    /// ```
    pub fn unload(&mut self)
        ensures { self.new ≡ unloaded_event self.old }
    {
        match &mut self.kind {
            TestEventKind::SetupScriptFinished { run_status, .. } => run_status.unload(),
            TestEventKind::TestAttemptFailedWillRetry { run_status, .. } => run_status.unload(),
            TestEventKind::TestFinished { run_statuses, .. } => run_statuses.unload(),
            _ => {}
        }
    }

    /// The event in the form of a recorded run, with the same metadata and empty names of the
    /// archive's members. It copies the texts. `None` for kinds without captured output.
    ///
    /// ```
    /// assert!(event.recorded(alloc)?.is_some());
    /// assert!(TestEvent::run_finished(time, stats).recorded(alloc)?.is_none());
    /// ```
    ///
    /// # Errors
    ///
    /// Memory was refused.
    pub fn recorded(
        &self,
        alloc: Global,
    ) -> Result<Option<OutputEventKind<RecordingSpec>>, OutOfMemory>
        ensures { IfOk result (λ kind. kind ≡ recorded_kind self.now.kind) }
    {
        Ok(match &self.kind {
            TestEventKind::SetupScriptFinished {
                stress_index,
                run_status,
                ..
            } => Some(OutputEventKind::SetupScriptFinished {
                stress_index: *stress_index,
                run_status: run_status.recorded(alloc)?,
            }),
            TestEventKind::TestAttemptFailedWillRetry {
                stress_index,
                run_status,
                delay_before_next_attempt,
                failure_output,
                ..
            } => Some(OutputEventKind::TestAttemptFailedWillRetry {
                stress_index: *stress_index,
                run_status: run_status.recorded(alloc)?,
                delay_before_next_attempt: *delay_before_next_attempt,
                failure_output: *failure_output,
            }),
            TestEventKind::TestFinished {
                stress_index,
                success_output,
                failure_output,
                run_statuses,
                current_stats,
                ..
            } => Some(OutputEventKind::TestFinished {
                stress_index: *stress_index,
                success_output: *success_output,
                failure_output: *failure_output,
                run_statuses: run_statuses.recorded(alloc)?,
                current_stats: *current_stats,
            }),
            _ => None,
        })
    }
}

/// What happened.
#[derive(Debug, Drop)]
pub enum TestEventKind<'a> {
    /// The run has started.
    RunStarted {
        /// How many tests and binaries there are.
        test_list: TestCounts,
        /// The run's id.
        run_id: Uuid,
        /// The profile's name.
        profile_name: ProfileName,
    },
    /// An iteration of a stress run has started.
    StressSubRunStarted {
        /// How far the stress run has come.
        progress: StressProgress,
    },
    /// A setup script has started.
    SetupScriptStarted {
        /// Which iteration of a stress run it belongs to.
        stress_index: Option<StressIndex>,
        /// Its index among the setup scripts, from 0.
        index: usize,
        /// How many setup scripts there are.
        total: usize,
        /// The script's id.
        script_id: ScriptId,
        /// The program that it runs.
        program: ProgramName,
        /// The program's arguments.
        args: CommandLine,
    },
    /// A setup script runs longer than it should.
    SetupScriptSlow {
        /// Which iteration of a stress run it belongs to.
        stress_index: Option<StressIndex>,
        /// The script's id.
        script_id: ScriptId,
        /// The program that it runs.
        program: ProgramName,
        /// The program's arguments.
        args: CommandLine,
        /// How long it has taken.
        elapsed: Nanos,
        /// Whether it is terminated for being slow.
        will_terminate: bool,
    },
    /// A setup script has finished.
    SetupScriptFinished {
        /// Which iteration of a stress run it belongs to.
        stress_index: Option<StressIndex>,
        /// The script's id.
        script_id: ScriptId,
        /// The program that it ran.
        program: ProgramName,
        /// The program's arguments.
        args: CommandLine,
        /// How it ended, and its output.
        run_status: SetupScriptExecuteStatus<LiveSpec>,
    },
    /// A test has started.
    TestStarted {
        /// Which iteration of a stress run it belongs to.
        stress_index: Option<StressIndex>,
        /// The test.
        test_instance: TestInstanceId<'a>,
        /// The counts of the run.
        current_stats: RunStats,
        /// The command that runs it.
        command_line: CommandLine,
    },
    /// A test runs longer than it should.
    TestSlow {
        /// Which iteration of a stress run it belongs to.
        stress_index: Option<StressIndex>,
        /// The test.
        test_instance: TestInstanceId<'a>,
        /// Which attempt it is.
        retry_data: RetryData,
        /// How long the attempt has taken.
        elapsed: Nanos,
        /// Whether the attempt is terminated for that.
        will_terminate: bool,
    },
    /// An attempt of a test has failed, and another one follows.
    TestAttemptFailedWillRetry {
        /// Which iteration of a stress run it belongs to.
        stress_index: Option<StressIndex>,
        /// The test.
        test_instance: TestInstanceId<'a>,
        /// The attempt.
        run_status: ExecuteStatus<LiveSpec>,
        /// How long the next attempt waits.
        delay_before_next_attempt: Nanos,
        /// When its output is to be shown.
        failure_output: TestOutputDisplay,
    },
    /// Another attempt of a test has started.
    TestRetryStarted {
        /// Which iteration of a stress run it belongs to.
        stress_index: Option<StressIndex>,
        /// The test.
        test_instance: TestInstanceId<'a>,
        /// Which attempt it is.
        retry_data: RetryData,
        /// The command that runs it.
        command_line: CommandLine,
    },
    /// A test has finished.
    TestFinished {
        /// Which iteration of a stress run it belongs to.
        stress_index: Option<StressIndex>,
        /// The test.
        test_instance: TestInstanceId<'a>,
        /// When its output is to be shown if it succeeded.
        success_output: TestOutputDisplay,
        /// When its output is to be shown if it failed.
        failure_output: TestOutputDisplay,
        /// Its attempts.
        run_statuses: ExecutionStatuses<LiveSpec>,
        /// The counts of the run, this test among them.
        current_stats: RunStats,
    },
    /// A test is skipped.
    TestSkipped {
        /// Which iteration of a stress run it belongs to.
        stress_index: Option<StressIndex>,
        /// The test.
        test_instance: TestInstanceId<'a>,
    },
    /// The run is about to be cancelled: running units are waited for or terminated.
    RunBeginCancel {
        /// How many setup scripts run.
        setup_scripts_running: usize,
        /// The counts of the run, with the reason.
        current_stats: RunStats,
        /// How many tests run.
        running: usize,
    },
    /// The run is about to be killed: running units are ended at once.
    RunBeginKill {
        /// How many setup scripts run.
        setup_scripts_running: usize,
        /// The counts of the run, with the reason.
        current_stats: RunStats,
        /// How many tests run.
        running: usize,
    },
    /// The run was paused by a signal.
    RunPaused {
        /// How many setup scripts run.
        setup_scripts_running: usize,
        /// How many tests run.
        running: usize,
    },
    /// The run continues after a pause.
    RunContinued {
        /// How many setup scripts run.
        setup_scripts_running: usize,
        /// How many tests run.
        running: usize,
    },
    /// All units were asked for their state.
    InfoStarted {
        /// How many units were asked.
        total: usize,
        /// The counts of the run.
        run_stats: RunStats,
    },
    /// A unit reports its state.
    InfoResponse {
        /// The index of this response, from 0.
        index: usize,
        /// How many units were asked.
        total: usize,
        /// The response.
        response: InfoResponse<'a>,
    },
    /// No more responses are expected.
    InfoFinished {
        /// How many units have not responded.
        missing: usize,
    },
    /// The user pressed Enter, to see the state of the run.
    InputEnter {
        /// The counts of the run.
        current_stats: RunStats,
        /// How many units run.
        running: usize,
    },
    /// An iteration of a stress run has finished.
    StressSubRunFinished {
        /// How far the stress run has come.
        progress: StressProgress,
        /// How long the iteration took.
        sub_elapsed: Nanos,
        /// The counts of the iteration.
        sub_stats: RunStats,
    },
    /// The run has finished.
    RunFinished {
        /// How long it took.
        elapsed: Nanos,
        /// The final statistics.
        run_stats: RunFinishedStats,
        /// The outstanding tests that a rerun has not seen.
        outstanding_not_seen: Option<NotSeen>,
    },
}

/// How many tests and binaries a run has.
///
/// ```
/// let skip_counts = SkipCounts { skipped_tests: 1, ..SkipCounts::default() };
/// let test_list = TestCounts { run_count: 2, listed_binary_count: 1, skip_counts };
/// ```
#[derive(Clone, Copy, Debug, PartialEq, Eq)]
pub struct TestCounts {
    /// The tests that are to run.
    pub run_count: usize,
    /// The binaries that were listed.
    pub listed_binary_count: usize,
    /// What is skipped.
    pub skip_counts: SkipCounts,
}

/// How many tests and binaries a run skips, and why.
///
/// ```
/// let skipped = SkipCounts { skipped_tests: 3, skipped_tests_default_filter: 2, ..SkipCounts::default() };
/// assert_eq!(skipped.skipped_binaries, 0);
/// ```
#[derive(Clone, Copy, Debug, Default, PartialEq, Eq)]
pub struct SkipCounts {
    /// Tests that are skipped, those below among them.
    pub skipped_tests: usize,
    /// Tests that passed in a run before.
    pub skipped_tests_rerun: usize,
    /// Tests that are no benchmarks.
    pub skipped_tests_non_benchmark: usize,
    /// Tests that the default filter leaves out.
    pub skipped_tests_default_filter: usize,
    /// Binaries that are skipped, those below among them.
    pub skipped_binaries: usize,
    /// Binaries that the default filter leaves out.
    pub skipped_binaries_default_filter: usize,
}
