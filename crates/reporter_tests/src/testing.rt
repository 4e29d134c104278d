//! What the tests share: events, and calls of a reporter without contracts, so that the proof of a test with several
//! calls does not have to carry the reporter's contract for each. The tests drop neither events nor reporters, whose
//! drop would be proved once more here: they turn reporters into their writers, and forget events.

use console_reporter::prelude::*;
use run_model::name::{ProgramName, ScriptId};
use run_model::output::ChildExecutionOutputDescription;
use run_model::status::SetupScriptExecuteStatus;
use std::alloc::Global;

/// A reporter of a run of two tests that shows a line of each from this level on, and in the summary those that failed.
pub fn line_builder(
    alloc: Global,
    status_level: StatusLevel,
) -> Result<DisplayReporterBuilder, OutOfMemory> {
    let mut builder = DisplayReporterBuilder::new(alloc, 2)?;
    builder.display_config = DisplayConfig::with_overrides(
        ShowProgress::None,
        false,
        status_level,
        FinalStatusLevel::Fail,
    );
    Ok(builder)
}

/// The end of a test of one attempt; `display` says when its output is shown.
pub fn ended<'a>(
    alloc: Global,
    test_instance: TestInstanceId<'a>,
    display: TestOutputDisplay,
    status: ExecuteStatus<LiveSpec>,
) -> TestEvent<'a> {
    finished(
        test_instance,
        [display, display],
        ExecutionStatuses::single(alloc, status),
    )
}

/// The end of a test, with when its output is shown if it succeeded and if it failed.
pub fn finished<'a>(
    test_instance: TestInstanceId<'a>,
    displays: [TestOutputDisplay; 2],
    run_statuses: ExecutionStatuses<LiveSpec>,
) -> TestEvent<'a> {
    let [success_output, failure_output] = displays;
    TestEvent {
        elapsed: Nanos(0),
        kind: TestEventKind::TestFinished {
            stress_index: None,
            test_instance,
            success_output,
            failure_output,
            run_statuses,
            current_stats: RunStats::new(2),
        },
    }
}

/// An attempt after which another one follows. Its output is shown at once.
pub fn retried<'a>(
    test_instance: TestInstanceId<'a>,
    run_status: ExecuteStatus<LiveSpec>,
) -> TestEvent<'a> {
    TestEvent {
        elapsed: Nanos(0),
        kind: TestEventKind::TestAttemptFailedWillRetry {
            stress_index: None,
            test_instance,
            run_status,
            delay_before_next_attempt: Nanos(0),
            failure_output: TestOutputDisplay::Immediate,
        },
    }
}

/// An attempt that succeeded and is retried, which a reporter refuses.
pub fn retried_success<'a>(test_instance: TestInstanceId<'a>) -> TestEvent<'a> {
    retried(test_instance, ExecuteStatus::passed(Nanos::from_secs(1)))
}

/// The end of a setup script.
pub fn script_finished<'a>(
    alloc: Global,
    outcome: ExecutionResultDescription,
    output: ChildExecutionOutputDescription<LiveSpec>,
) -> Result<TestEvent<'a>, OutOfMemory> {
    Ok(TestEvent {
        elapsed: Nanos(0),
        kind: TestEventKind::SetupScriptFinished {
            stress_index: None,
            script_id: ScriptId::new(alloc, "s1")?,
            program: ProgramName::new(alloc, "cmd")?,
            args: CommandLine::from_words(alloc, &[])?,
            run_status: SetupScriptExecuteStatus {
                time_taken: Nanos::from_secs(1),
                result: outcome,
                output,
                is_slow: false,
            },
        },
    })
}

/// Reports an event.
pub fn write_event<W: WriteStr, S: WriteStr>(
    reporter: &mut DisplayReporter<'_, W, S>,
    event: &TestEvent<'_>,
) -> Result<(), WriteEventError> {
    reporter.write_event(event)
}

/// Makes a call of a reporter.
pub fn make_call<W: WriteStr, S: WriteStr>(
    alloc: Global,
    reporter: &mut DisplayReporter<'_, W, S>,
    call: &ReportCall<'_>,
) -> Result<(), WriteEventError> {
    match call {
        ReportCall::Event(event) => write_event(reporter, event),
        _ => reporter.make_call(alloc, call),
    }
}

/// The results of a reporter's calls.
#[derive(Clone, Copy)]
pub struct CallResults {
    /// The index of the first call that failed, if one did.
    pub outcome: Result<(), RunFault>,
    /// Whether all after that one returned that the report has failed.
    pub are_silent: bool,
}

impl CallResults {
    /// The result of a run, which stops at the first fault.
    pub fn to_run(outcome: Result<(), RunFault>) -> CallResults {
        CallResults {
            outcome,
            are_silent: true,
        }
    }

    // With the result of the call at this index.
    fn and(self, position: usize, returned: Result<(), WriteEventError>) -> CallResults {
        match (self.outcome, returned) {
            (Ok(()), Err(fault)) => CallResults {
                outcome: Err(RunFault { position, fault }),
                ..self
            },
            (Err(_), returned) => CallResults {
                are_silent: self.are_silent && returned == Err(WriteEventError::Failed),
                ..self
            },
            (Ok(()), Ok(())) => self,
        }
    }
}

/// Makes all these calls, even after one that failed, and ends the report.
pub fn make_calls<W: WriteStr, S: WriteStr>(
    alloc: Global,
    reporter: &mut DisplayReporter<'_, W, S>,
    calls: &[ReportCall<'_>],
) -> CallResults {
    let mut results = CallResults::to_run(Ok(()));
    for (position, call) in calls.iter().enumerate() {
        results = results.and(position, make_call(alloc, reporter, call));
    }
    results.and(calls.len(), reporter.finish())
}
