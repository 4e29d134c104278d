//! What each unit responds when it is asked for its state.

ghost use Rattle.std.specs.Prelude.{◌≡◌, Some};
ghost use Rattle.run_model.specs.Infos.{has_valid_output, terminate_reason_text};

use crate::output::{ChildExecutionOutputDescription, LiveSpec};
use crate::status::{ExecutionResultDescription, RetryData};
use run_names::abort::DescriptionText;
use run_names::boxed::{Boxed, Shared};
use run_names::command::CommandLine;
use run_names::name::{ProgramName, ScriptId, TestInstanceId};
use run_names::stress::StressIndex;
use run_names::time::Nanos;
use std::fmt;
use std::fmt::Formatter;

/// The response of a unit.
///
/// Its state and output have memory of their own, since responses are rare and events should stay small.
#[derive(Debug, Drop)]
pub enum InfoResponse<'a> {
    /// The response of a setup script.
    SetupScript(SetupScriptInfoResponse),
    /// The response of a test.
    Test(TestInfoResponse<'a>),
}

/// The response of a setup script.
#[derive(Debug, Drop)]
pub struct SetupScriptInfoResponse {
    /// Which iteration of a stress run it belongs to.
    pub stress_index: Option<StressIndex>,
    /// The script's id.
    pub script_id: ScriptId,
    /// The program that it runs.
    pub program: ProgramName,
    /// The program's arguments.
    pub args: CommandLine,
    /// What it is doing.
    pub state: Shared<UnitState>,
    /// What it has written so far.
    pub output: Boxed<ChildExecutionOutputDescription<LiveSpec>>,
}

/// The response of a test.
///
/// ```
/// use run_model::{boxed::{Boxed, Shared}, output::ChildExecutionOutputDescription};
/// let state = Shared::new(alloc, UnitState::Running { pid: 42, time_taken: time, slow_after: None })?;
/// let output = Boxed::new(alloc, ChildExecutionOutputDescription::silent(ExecutionResultDescription::Pass))?;
/// let (test_instance, retry_data) = (test.as_ref(), RetryData::only());
/// let response = TestInfoResponse { stress_index: None, test_instance, retry_data, state, output };
/// assert!(response.state.get().has_valid_output());
/// ```
#[derive(Debug, Drop)]
pub struct TestInfoResponse<'a> {
    /// Which iteration of a stress run it belongs to.
    pub stress_index: Option<StressIndex>,
    /// The test.
    pub test_instance: TestInstanceId<'a>,
    /// Which attempt it is.
    pub retry_data: RetryData,
    /// What it is doing.
    pub state: Shared<UnitState>,
    /// What the attempt has written so far.
    pub output: Boxed<ChildExecutionOutputDescription<LiveSpec>>,
}

/// What a unit is doing.
///
/// ```
/// let state = UnitState::Running { pid: 42, time_taken: Nanos::from_secs(1), slow_after: None };
/// assert!(state.has_valid_output());
/// ```
#[derive(Debug, Drop)]
pub enum UnitState {
    /// Its process is running.
    Running {
        /// The process's id.
        pid: u32,
        /// How long it has run.
        time_taken: Nanos,
        /// When it was marked as slow, if it was.
        slow_after: Option<Nanos>,
    },
    /// Its process has exited, and the runner waits for handles that it left open.
    Exiting {
        /// The process's id.
        pid: u32,
        /// How long it ran.
        time_taken: Nanos,
        /// When it was marked as slow, if it was.
        slow_after: Option<Nanos>,
        /// How it ended, if that is known.
        tentative_result: Option<ExecutionResultDescription>,
        /// How long its handles have been waited for.
        waiting_duration: Nanos,
        /// How much longer they are waited for.
        remaining: Nanos,
    },
    /// Its process is being terminated.
    Terminating(UnitTerminatingState),
    /// Its process has exited.
    Exited {
        /// How it ended.
        result: ExecutionResultDescription,
        /// How long it ran.
        time_taken: Nanos,
        /// When it was marked as slow, if it was.
        slow_after: Option<Nanos>,
    },
    /// The next attempt waits.
    DelayBeforeNextAttempt {
        /// How the attempt before ended.
        previous_result: ExecutionResultDescription,
        /// Whether that was slow.
        previous_slow: bool,
        /// How long the next attempt has waited.
        waiting_duration: Nanos,
        /// How much longer it waits.
        remaining: Nanos,
    },
}

impl UnitState {
    /// Whether the response's output is that of the current attempt: between two attempts there is none.
    pub fn has_valid_output(&self) -> bool
        ensures { result ≡ has_valid_output self.now }
    {
        match self {
            UnitState::Running { .. }
            | UnitState::Exiting { .. }
            | UnitState::Terminating(_)
            | UnitState::Exited { .. } => true,
            UnitState::DelayBeforeNextAttempt { .. } => false,
        }
    }
}

/// A process that is being ended.
#[derive(Debug, Drop)]
pub struct UnitTerminatingState {
    /// The process's id.
    pub pid: u32,
    /// How long it has run.
    pub time_taken: Nanos,
    /// Why it is ended.
    pub reason: UnitTerminateReason,
    /// The way in which it is terminated.
    pub method: UnitTerminateMethod,
    /// How long its end has been waited for.
    pub waiting_duration: Nanos,
    /// How much longer it is waited for before it is killed.
    pub remaining: Nanos,
}

/// Why a process is ended. It is displayed as its name in lower case.
///
/// ```
/// assert_eq!(UnitTerminateReason::Timeout.to_string(alloc)?.as_str(), "timeout");
/// ```
#[derive(Clone, Copy, Debug, PartialEq, Eq)]
pub enum UnitTerminateReason {
    /// It has timed out.
    Timeout,
    /// The run was ended by a signal.
    Signal,
    /// The run was interrupted.
    Interrupt,
}

impl UnitTerminateReason {
    /// The name in lower case.
    pub fn as_str(self) -> &'static str
        ensures { result.now ≡ terminate_reason_text self }
    {
        match self {
            UnitTerminateReason::Timeout => "timeout",
            UnitTerminateReason::Signal => "signal",
            UnitTerminateReason::Interrupt => "interrupt",
        }
    }
}

impl fmt::Display for UnitTerminateReason {
    ghost output = { λ reason. Some (terminate_reason_text reason) };

    fn fmt<W: fmt::Write>(&self, f: &mut Formatter<W>) -> fmt::Result {
        f.write_str(self.as_str())
    }
}

/// How a process is ended.
#[derive(Debug, Drop)]
pub enum UnitTerminateMethod {
    /// By the signal of this name, as `SIGTERM`.
    Signal(DescriptionText),
}
