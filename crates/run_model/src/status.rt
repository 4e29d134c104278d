//! How the attempts of a test ended.

ghost use Rattle.std.specs.Prelude.{◌≡◌, ◌≤◌, IfSome, IfNone, IfOk, IsOk, false, [], ◌∷◌, ◌++◌, IsTrue, ◌↔◌};
ghost use Rattle.run_model.specs.Names.{attempt_with_output, attempt_with_retry_data, code_failure, only_attempt};
ghost use Rattle.run_model.specs.Names.{silent_attempt, is_aborted, is_abort, is_success, is_leaky_success};
ghost use Rattle.run_model.specs.Names.{is_success_case};
ghost use Rattle.run_model.specs.Names.{case_of, summary_of, described_case, described_last, described_prior};
ghost use Rattle.run_model.specs.Names.{described_summary, final_level_of, final_level_by, status_level_of};
ghost use Rattle.run_model.specs.Names.{status_level_by};

mod load;
mod recorded;

use crate::output::{
    ChildExecutionOutputDescription, ChildOutputDescription, LiveSpec, OutputSpec, RecordingSpec,
};
use run_names::abort::AbortDescription;
use run_names::boxed::Boxed;
use run_names::level::{FinalStatusLevel, StatusLevel};
use run_names::memory::OutOfMemory;
use run_names::time::Nanos;
use std::alloc::Global;
use std::marker::Model;

/// Which attempt of a test this is.
///
/// ```
/// let second = RetryData { attempt: 2, total_attempts: 3 };
/// assert!(!second.is_last_attempt());
/// ```
#[derive(Clone, Copy, Debug, PartialEq, Eq)]
pub struct RetryData {
    /// The attempt, from 1.
    pub attempt: u32,
    /// How many attempts there can be.
    pub total_attempts: u32,
}

impl RetryData {
    /// An attempt that is the only one there can be.
    ///
    /// ```
    /// assert!(RetryData::only().is_last_attempt());
    /// ```
    pub fn only() -> Self
        ensures { result ≡ only_attempt }
    {
        RetryData {
            attempt: 1,
            total_attempts: 1,
        }
    }

    /// Whether no attempt follows this one.
    pub fn is_last_attempt(&self) -> bool
        ensures { IsTrue result ↔ (self.now.total_attempts ≤ self.now.attempt) }
    {
        self.attempt >= self.total_attempts
    }
}

/// How an attempt ended.
///
/// ```
/// let leaky = ExecutionResultDescription::Leak { result: LeakTimeoutResult::Pass };
/// assert!(leaky.is_success());
/// ```
#[derive(Debug, Drop, PartialEq, Eq)]
pub enum ExecutionResultDescription {
    /// It passed.
    Pass,
    /// It passed, but left handles open.
    Leak {
        /// What that counts as.
        result: LeakTimeoutResult,
    },
    /// It failed.
    Fail {
        /// How.
        failure: FailureDescription,
        /// Whether it left handles open.
        leaked: bool,
    },
    /// Its process could not be started.
    ExecFail,
    /// It ran for too long, and was ended.
    Timeout {
        /// What that counts as.
        result: SlowTimeoutResult,
    },
}

impl ExecutionResultDescription {
    /// A failure with this exit code that left no handle open. Rust's test harness exits with 101.
    ///
    /// ```
    /// assert!(!ExecutionResultDescription::failed(101).is_success());
    /// ```
    pub fn failed(exit_code: i32) -> Self
        ensures { result ≡ code_failure exit_code }
    {
        ExecutionResultDescription::Fail {
            failure: FailureDescription::ExitCode { code: exit_code },
            leaked: false,
        }
    }

    /// Whether it counts as a success.
    ///
    /// ```
    /// let timeout = ExecutionResultDescription::Timeout { result: SlowTimeoutResult::Fail };
    /// assert!(!timeout.is_success());
    /// ```
    pub fn is_success(&self) -> bool
        ensures { result ≡ is_success self.now }
    {
        match self {
            ExecutionResultDescription::Pass => true,
            ExecutionResultDescription::Leak { result } => matches!(
                result,
                LeakTimeoutResult::Pass
            ),
            ExecutionResultDescription::Timeout { result } => matches!(
                result,
                SlowTimeoutResult::Pass
            ),
            ExecutionResultDescription::Fail { .. } | ExecutionResultDescription::ExecFail => false,
        }
    }

    // Whether it is a success that left handles open.
    fn is_leaky_success(&self) -> bool
        ensures { result ≡ is_leaky_success self.now }
    {
        matches!(
            self,
            ExecutionResultDescription::Leak {
                result: LeakTimeoutResult::Pass,
            }
        )
    }

    /// A copy, which allocates only if there is a text.
    ///
    /// # Errors
    ///
    /// Memory was refused. Without text there is no error.
    pub fn try_clone(&self, alloc: Global) -> Result<Self, OutOfMemory>
        ensures same { IfOk result (λ r. r ≡ self.now) }
        ensures free { is_aborted self.now ≡ false → IsOk result }
    {
        Ok(match self {
            ExecutionResultDescription::Pass => ExecutionResultDescription::Pass,
            ExecutionResultDescription::Leak { result } => ExecutionResultDescription::Leak {
                result: *result,
            },
            ExecutionResultDescription::Fail { failure, leaked } =>
                ExecutionResultDescription::Fail {
                    failure: failure.try_clone(alloc)?,
                    leaked: *leaked,
                },
            ExecutionResultDescription::ExecFail => ExecutionResultDescription::ExecFail,
            ExecutionResultDescription::Timeout { result } => ExecutionResultDescription::Timeout {
                result: *result,
            },
        })
    }
}

/// What a test that passed but left handles open counts as.
#[derive(Clone, Copy, Debug, PartialEq, Eq)]
pub enum LeakTimeoutResult {
    /// A success.
    Pass,
    /// A failure.
    Fail,
}

/// What a test that ran for too long counts as.
#[derive(Clone, Copy, Debug, PartialEq, Eq)]
pub enum SlowTimeoutResult {
    /// A success.
    Pass,
    /// A failure.
    Fail,
}

/// How an attempt failed.
///
/// ```
/// use run_model::abort::AbortDescription;
/// use run_model::boxed::Boxed;
/// let abort = Boxed::new(alloc, AbortDescription::UnixSignal { signal: 6, name: None })?;
/// let ended = ExecutionResultDescription::Fail { failure: FailureDescription::Abort { abort }, leaked: false };
/// assert!(!ended.is_success());
/// ```
#[derive(Debug, Drop, PartialEq, Eq)]
pub enum FailureDescription {
    /// Its process ended with a code other than 0.
    ExitCode {
        /// The code.
        code: i32,
    },
    /// Its process was terminated by a signal, or by its equivalent on Windows.
    Abort {
        /// How.
        abort: Boxed<AbortDescription>,
    },
}

impl FailureDescription {
    /// A copy, which allocates only if there is a text.
    ///
    /// # Errors
    ///
    /// Memory was refused. For an exit code there is no error.
    pub fn try_clone(&self, alloc: Global) -> Result<Self, OutOfMemory>
        ensures same { IfOk result (λ f. f ≡ self.now) }
        ensures free { is_abort self.now ≡ false → IsOk result }
    {
        Ok(match self {
            FailureDescription::ExitCode { code } => FailureDescription::ExitCode { code: *code },
            FailureDescription::Abort { abort } => FailureDescription::Abort {
                abort: Boxed::new(alloc, abort.get().try_clone(alloc)?)?,
            },
        })
    }
}

/// An attempt of a test.
///
/// ```
/// let slow = ExecuteStatus { is_slow: true, ..ExecuteStatus::passed(Nanos::from_secs(90)) };
/// assert!(slow.retry_data.is_last_attempt());
/// ```
#[derive(Debug, Drop)]
pub struct ExecuteStatus<S: OutputSpec> {
    /// How long it ran.
    pub time_taken: Nanos,
    /// Which attempt it is.
    pub retry_data: RetryData,
    /// How it ended.
    pub result: ExecutionResultDescription,
    /// What it wrote.
    pub output: ChildExecutionOutputDescription<S>,
    /// Whether it was marked as slow.
    pub is_slow: bool,
}

impl ExecuteStatus<LiveSpec> {
    /// The only attempt of a test, with this result and duration, not slow and without output. It
    /// allocates if the result holds text.
    ///
    /// ```
    /// let timeout = ExecutionResultDescription::Timeout { result: SlowTimeoutResult::Fail };
    /// let status = ExecuteStatus::new(alloc, timeout, Nanos::from_secs(60))?;
    /// assert!(!status.result.is_success());
    /// ```
    ///
    /// # Errors
    ///
    /// Memory was refused. For a result without text there is no error.
    pub fn new(
        alloc: Global,
        outcome: ExecutionResultDescription,
        time_taken: Nanos,
    ) -> Result<Self, OutOfMemory>
        ensures attempt { IfOk result (λ status. status ≡ silent_attempt outcome time_taken) }
        ensures free { is_aborted outcome ≡ false → IsOk result }
    {
        Ok(ExecuteStatus {
            time_taken,
            retry_data: RetryData::only(),
            output: ChildExecutionOutputDescription::silent(outcome.try_clone(alloc)?),
            result: outcome,
            is_slow: false,
        })
    }

    /// The only attempt of a test, which passed in this time, was not slow and wrote nothing.
    ///
    /// ```
    /// let status = ExecuteStatus::passed(Nanos::from_millis(20));
    /// assert!(status.result.is_success());
    /// ```
    pub fn passed(time_taken: Nanos) -> Self
        ensures { result ≡ silent_attempt ExecutionResultDescription.Pass time_taken }
    {
        ExecuteStatus {
            time_taken,
            retry_data: RetryData::only(),
            output: ChildExecutionOutputDescription::silent(ExecutionResultDescription::Pass),
            result: ExecutionResultDescription::Pass,
            is_slow: false,
        }
    }

    /// The only attempt of a test, which failed with this exit code, was not slow and wrote nothing.
    ///
    /// ```
    /// let stderr = Bytes::from_static(b"a bracket is missing\n");
    /// let output = ChildOutputDescription::split(alloc, Bytes::new(), stderr)?;
    /// let panicked = ExecuteStatus::failed(101, Nanos::from_secs(3)).with_output(output);
    /// assert!(!panicked.result.is_success());
    /// ```
    pub fn failed(exit_code: i32, time_taken: Nanos) -> Self
        ensures { result ≡ silent_attempt (code_failure exit_code) time_taken }
    {
        ExecuteStatus {
            time_taken,
            retry_data: RetryData::only(),
            output: ChildExecutionOutputDescription::silent(ExecutionResultDescription::failed(
                exit_code,
            )),
            result: ExecutionResultDescription::failed(exit_code),
            is_slow: false,
        }
    }

    /// Sets what the attempt wrote. One that could not be started wrote nothing, and does not change.
    ///
    /// ```
    /// let output = ChildOutputDescription::combined(alloc, Bytes::from_static(b"warning\n"))?;
    /// assert!(ExecuteStatus::passed(time).with_output(output).output.has_loaded_output());
    /// ```
    pub fn with_output(self, output: ChildOutputDescription) -> Self
        ensures { result ≡ attempt_with_output self output }
    {
        ExecuteStatus {
            output: self.output.with_output(output),
            ..self
        }
    }

    /// This attempt as one of several.
    ///
    /// ```
    /// let first = RetryData { attempt: 1, total_attempts: 3 };
    /// let status = ExecuteStatus::failed(1, time).with_retry_data(first);
    /// assert!(!status.retry_data.is_last_attempt());
    /// ```
    ///
    /// Attempts count from 1, as nextest's do. The total is not checked.
    pub fn with_retry_data(self, retry_data: RetryData) -> Self
        ensures { result ≡ attempt_with_retry_data self retry_data }
    {
        ExecuteStatus { retry_data, ..self }
    }

    /// Copies its texts, which allocates. The copy shares the bytes of the output.
    ///
    /// # Errors
    ///
    /// Memory was refused, or shared bytes have as many owners as their counter can hold.
    pub fn try_clone(&self, alloc: Global) -> Result<Self, OutOfMemory>
        ensures { IfOk result (λ status. status ≡ self.now) }
    {
        Ok(ExecuteStatus {
            retry_data: self.retry_data,
            output: self.output.try_clone(alloc)?,
            result: self.result.try_clone(alloc)?,
            time_taken: self.time_taken,
            is_slow: self.is_slow,
        })
    }
}

/// The execution of a setup script.
///
/// ```
/// use run_model::output::ChildExecutionOutputDescription;
/// let output = ChildExecutionOutputDescription::silent(ExecutionResultDescription::Pass);
/// let (time_taken, result) = (time, ExecutionResultDescription::Pass);
/// let status = SetupScriptExecuteStatus { time_taken, result, output, is_slow: false };
/// assert!(status.result.is_success());
/// ```
#[derive(Debug, Drop)]
pub struct SetupScriptExecuteStatus<S: OutputSpec> {
    /// How long it ran.
    pub time_taken: Nanos,
    /// How the attempt ended.
    pub result: ExecutionResultDescription,
    /// What the attempt wrote.
    pub output: ChildExecutionOutputDescription<S>,
    /// Whether the attempt was marked as slow.
    pub is_slow: bool,
}

/// What a test that passed after earlier attempts counts as.
#[derive(Clone, Copy, Debug, PartialEq, Eq)]
pub enum FlakyResult {
    /// A success.
    Pass,
    /// A failure.
    Fail,
}

/// The outcome of a test, without its output.
#[derive(Debug, Drop, PartialEq, Eq)]
pub struct StatusSummary {
    /// The outcome of the attempts.
    pub case: StatusCase,
    /// The number of the last attempt, and how many are allowed.
    pub retry_data: RetryData,
    /// How the last attempt ended.
    pub result: ExecutionResultDescription,
    /// How long the last attempt ran.
    pub time_taken: Nanos,
    /// Whether the last attempt was marked as slow.
    pub is_slow: bool,
}

/// The outcome of a test's attempts.
#[derive(Clone, Copy, Debug, PartialEq, Eq)]
pub enum StatusCase {
    /// One attempt, which passed.
    Success,
    /// A success after earlier attempts.
    Flaky {
        /// Whether the flaky test counts as passed or as failed.
        result: FlakyResult,
    },
    /// The last attempt failed.
    Failure,
}

impl StatusCase {
    // The lowest level that shows the status line, by how the last attempt ended.
    fn status_level(self, last: &ExecutionResultDescription) -> StatusLevel
        ensures { result ≡ status_level_by self last.now }
    {
        match self {
            StatusCase::Success => {
                if last.is_leaky_success() {
                    StatusLevel::Leak
                } else {
                    StatusLevel::Pass
                }
            }
            StatusCase::Flaky {
                result: FlakyResult::Pass,
            } => StatusLevel::Retry,
            StatusCase::Flaky {
                result: FlakyResult::Fail,
            } => StatusLevel::Fail,
            StatusCase::Failure => StatusLevel::Fail,
        }
    }

    // The lowest level at which the summary lists the test, by how the last attempt ended and whether it was slow.
    fn final_status_level(
        self,
        last: &ExecutionResultDescription,
        is_slow: bool,
    ) -> FinalStatusLevel
        ensures { result ≡ final_level_by self last.now is_slow }
    {
        match self {
            StatusCase::Success => {
                if is_slow {
                    FinalStatusLevel::Slow
                } else if last.is_leaky_success() {
                    FinalStatusLevel::Leak
                } else {
                    FinalStatusLevel::Pass
                }
            }
            StatusCase::Flaky {
                result: FlakyResult::Pass,
            } => FinalStatusLevel::Flaky,
            StatusCase::Flaky {
                result: FlakyResult::Fail,
            } => FinalStatusLevel::Fail,
            StatusCase::Failure => FinalStatusLevel::Fail,
        }
    }
}

impl StatusSummary {
    /// The lowest level that shows the status line.
    pub fn status_level(&self) -> StatusLevel
        ensures { result ≡ status_level_of self.now }
    {
        self.case.status_level(&self.result)
    }

    /// The lowest level at which the final summary lists the test.
    pub fn final_status_level(&self) -> FinalStatusLevel
        ensures { result ≡ final_level_of self.now }
    {
        self.case.final_status_level(&self.result, self.is_slow)
    }
}

/// The outcome of a test's attempts, with the attempts.
///
/// ```
/// let is_success = matches!(statuses.describe(), ExecutionDescription::Success { .. });
/// assert!(is_success);
/// ```
#[derive(Clone, Copy, Debug)]
pub enum ExecutionDescription<'a, S: OutputSpec> {
    /// One attempt, which passed.
    Success {
        /// The attempt.
        single_status: &'a ExecuteStatus<S>,
    },
    /// A success after earlier attempts.
    Flaky {
        /// The attempt that succeeded.
        last_status: &'a ExecuteStatus<S>,
        /// The attempts before it, in order.
        prior_statuses: &'a [ExecuteStatus<S>],
        /// Whether the flaky test counts as passed or as failed.
        result: FlakyResult,
    },
    /// The last attempt failed.
    Failure {
        /// The attempts before the last one, in order.
        prior_statuses: &'a [ExecuteStatus<S>],
        /// The last attempt.
        last_status: &'a ExecuteStatus<S>,
    },
}

impl<'a, S: OutputSpec> ExecutionDescription<'a, S> {
    /// The lowest level that shows the status line, as in [`StatusSummary`].
    pub fn status_level(&self) -> StatusLevel
        ensures { result ≡ status_level_of (described_summary self.now) }
    {
        self.case().status_level(&self.last_status().result)
    }

    /// The lowest level at which the final summary lists the test, as in [`StatusSummary`].
    pub fn final_status_level(&self) -> FinalStatusLevel
        ensures { result ≡ final_level_of (described_summary self.now) }
    {
        let last = self.last_status();
        self.case().final_status_level(&last.result, last.is_slow)
    }

    /// Whether the output is shown by the setting for tests that succeed. It is for every flaky test, also for one that
    /// counts as a failure.
    pub fn is_success_for_output(&self) -> bool
        ensures { result ≡ is_success_case (described_case self.now) }
    {
        match self {
            ExecutionDescription::Success { .. } | ExecutionDescription::Flaky { .. } => true,
            ExecutionDescription::Failure { .. } => false,
        }
    }

    /// The last attempt.
    pub fn last_status(&self) -> &'a ExecuteStatus<S>
        ensures { result.now ≡ described_last self.now }
    {
        match self {
            ExecutionDescription::Success { single_status } => single_status,
            ExecutionDescription::Flaky { last_status, .. } => last_status,
            ExecutionDescription::Failure { last_status, .. } => last_status,
        }
    }

    /// Whether it passed at once, is flaky, or failed.
    pub fn case(&self) -> StatusCase
        ensures { result ≡ described_case self.now }
    {
        match self {
            ExecutionDescription::Success { .. } => StatusCase::Success,
            ExecutionDescription::Flaky { result, .. } => StatusCase::Flaky { result: *result },
            ExecutionDescription::Failure { .. } => StatusCase::Failure,
        }
    }
}

/// The attempts of a test, in order. There is at least one.
///
/// ```
/// let attempts = vec![in alloc; ExecuteStatus::failed(1, time), ExecuteStatus::passed(time)]?;
/// let statuses = ExecutionStatuses::new(attempts, FlakyResult::Pass);
/// assert!(statuses.is_some_and(|statuses| statuses.last_status().result.is_success()));
/// ```
#[derive(Debug, Drop)]
pub struct ExecutionStatuses<S: OutputSpec> {
    last: ExecuteStatus<S>,
    earlier: Vec<ExecuteStatus<S>>,
    flaky_result: FlakyResult,
}

impl<S: OutputSpec> Model for ExecutionStatuses<S> {
    ghost use Rattle.run_model.specs.Attempts.{Attempts};

    ghost Value = { Attempts S S.ChildOutput };

    ghost view = { λ s. record { earlier = s.earlier.items; last = s.last; flaky_result = s.flaky_result } };
}

impl ExecutionStatuses<LiveSpec> {
    /// Copies the attempts and their texts, which allocates. The copies share the bytes of their outputs.
    ///
    /// # Errors
    ///
    /// Memory was refused, or shared bytes have as many owners as their counter can hold.
    pub fn try_clone(&self, alloc: Global) -> Result<Self, OutOfMemory>
        ensures { IfOk result (λ statuses. statuses ≡ self.now) }
    {
        Ok(ExecutionStatuses {
            earlier: copy_attempts(alloc, &self.earlier)?,
            last: self.last.try_clone(alloc)?,
            flaky_result: self.flaky_result,
        })
    }
}

// Copies the attempts. Without attempts it allocates nothing.
fn copy_attempts(
    alloc: Global,
    attempts: &[ExecuteStatus<LiveSpec>],
) -> Result<Vec<ExecuteStatus<LiveSpec>>, OutOfMemory>
    ensures { IfOk result (λ copies. copies.items ≡ attempts.now) }
{
    let mut copies = Vec::with_capacity(alloc, attempts.len())?;
    for attempt in attempts {
        copies.push(attempt.try_clone(alloc)?)?;
    }
    Ok(copies)
}

impl<S: OutputSpec> ExecutionStatuses<S> {
    /// The attempts, in order, and what a success after earlier attempts counts as. `None` without attempts.
    ///
    /// ```
    /// let attempts = vec![in alloc; ExecuteStatus::failed(1, time), ExecuteStatus::passed(time)]?;
    /// assert!(ExecutionStatuses::new(attempts, FlakyResult::Pass).is_some());
    /// ```
    pub fn new(statuses: Vec<ExecuteStatus<S>>, flaky_result: FlakyResult) -> Option<Self>
        ensures attempts { IfSome result (λ s. statuses.items ≡ s.earlier ++ s.last ∷ []) }
        ensures flaky { IfSome result (λ s. s.flaky_result ≡ flaky_result) }
        ensures none { IfNone result (statuses.items ≡ []) }
    {
        let mut earlier = statuses;
        let last = earlier.pop()?;
        Some(ExecutionStatuses {
            earlier,
            last,
            flaky_result,
        })
    }

    /// The one attempt of a test that was not tried again.
    ///
    /// ```
    /// let statuses = ExecutionStatuses::single(alloc, ExecuteStatus::passed(Nanos::from_millis(20)));
    /// assert!(statuses.last_status().result.is_success());
    /// ```
    ///
    /// It allocates nothing. The flaky result does not matter, as no attempt came before.
    pub fn single(alloc: Global, status: ExecuteStatus<S>) -> Self
        ensures earlier { result.earlier ≡ [] }
        ensures last { result.last ≡ status }
        ensures flaky { result.flaky_result ≡ FlakyResult.Pass }
    {
        ExecutionStatuses::with_last(Vec::new(alloc), status, FlakyResult::Pass)
    }

    /// The attempts before the last one, in order, the last one, and what a success after earlier attempts counts as.
    ///
    /// ```
    /// let earlier = vec![in alloc; ExecuteStatus::failed(1, time)]?;
    /// let flaky = ExecutionStatuses::with_last(earlier, ExecuteStatus::passed(time), FlakyResult::Pass);
    /// assert_eq!(flaky.describe().final_status_level(), FinalStatusLevel::Flaky);
    /// ```
    pub fn with_last(
        earlier: Vec<ExecuteStatus<S>>,
        last: ExecuteStatus<S>,
        flaky_result: FlakyResult,
    ) -> Self
        ensures earlier { result.earlier ≡ earlier.items }
        ensures last { result.last ≡ last }
        ensures flaky { result.flaky_result ≡ flaky_result }
    {
        ExecutionStatuses {
            earlier,
            last,
            flaky_result,
        }
    }

    /// The last attempt.
    pub fn last_status(&self) -> &ExecuteStatus<S>
        ensures { result.now ≡ self.now.last }
    {
        &self.last
    }

    /// The outcome of the attempts, with the attempts.
    pub fn describe(&self) -> ExecutionDescription<'_, S>
        ensures case { described_case result ≡ case_of self.now }
        ensures last { described_last result ≡ self.now.last }
        ensures prior { described_prior result ≡ self.now.earlier }
    {
        if !self.last.result.is_success() {
            ExecutionDescription::Failure {
                prior_statuses: self.earlier.as_slice(),
                last_status: &self.last,
            }
        } else if self.earlier.is_empty() {
            ExecutionDescription::Success {
                single_status: &self.last,
            }
        } else {
            ExecutionDescription::Flaky {
                last_status: &self.last,
                prior_statuses: self.earlier.as_slice(),
                result: self.flaky_result,
            }
        }
    }

    /// The outcome of the attempts, without their output. It allocates only if the last result holds text.
    ///
    /// ```
    /// let summary = statuses.summary(alloc)?;
    /// assert_eq!(summary.case, StatusCase::Success);
    /// ```
    ///
    /// # Errors
    ///
    /// Memory was refused. For a last result without text there is no error.
    pub fn summary(&self, alloc: Global) -> Result<StatusSummary, OutOfMemory>
        ensures summary { IfOk result (λ s. s ≡ summary_of self.now) }
        ensures free { is_aborted self.now.last.result ≡ false → IsOk result }
    {
        Ok(StatusSummary {
            case: self.describe().case(),
            retry_data: self.last.retry_data,
            result: self.last.result.try_clone(alloc)?,
            time_taken: self.last.time_taken,
            is_slow: self.last.is_slow,
        })
    }
}
