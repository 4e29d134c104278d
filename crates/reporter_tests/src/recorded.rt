//! Copies of events in their recorded form. They allocate: `scripts/check-faults` runs these tests once for each
//! allocation, which it refuses.

use crate::runs::run_started;
use crate::testing::{finished, retried, script_finished};
use console_reporter::prelude::*;
use run_model::abort::AbortDescription;
use run_model::boxed::Boxed;
use run_model::output::ChildExecutionOutputDescription;
use run_model::status::FailureDescription;
use std::alloc::Global;
use std::mem;
use std::test::Fail;

// An error with its cause.
fn errors(alloc: Global) -> Result<ErrorChain, OutOfMemory> {
    let causes = vec![in alloc; DescriptionText::new(alloc, "no such file")?]?;
    ErrorChain::new(alloc, DescriptionText::new(alloc, "cannot spawn")?, causes)
}

// An attempt that a signal ended, with an error beside its output.
fn aborted(alloc: Global) -> Result<ExecuteStatus<LiveSpec>, OutOfMemory> {
    let abort = AbortDescription::UnixSignal {
        signal: 11,
        name: Some(DescriptionText::new(alloc, "SEGV")?),
    };
    let outcome = ExecutionResultDescription::Fail {
        failure: FailureDescription::Abort {
            abort: Boxed::new(alloc, abort)?,
        },
        leaked: false,
    };
    let status = ExecuteStatus::new(alloc, outcome, Nanos::from_secs(1))?;
    Ok(ExecuteStatus {
        output: ChildExecutionOutputDescription::Output {
            result: None,
            output: ChildOutputDescription::NotLoaded,
            errors: Some(errors(alloc)?),
            highlight: None,
        },
        ..status
    })
}

// Whether an event has a recorded form.
fn is_recorded(alloc: Global, event: TestEvent<'_>) -> Result<bool, OutOfMemory> {
    let recorded = event.recorded(alloc);
    mem::forget(event);
    let kind = recorded?;
    let is_recorded = kind.is_some();
    mem::forget(kind);
    Ok(is_recorded)
}

#[test]
fn recorded_forms_of_tests(rt: HostRuntime) -> Result<(), Fail> {
    let test = OwnedTestInstanceId::new(rt.alloc(), "a", "t1")?;
    let retry = retried(test.as_ref(), aborted(rt.alloc())?);
    assert!(rt; is_recorded(rt.alloc(), retry)?);
    let end = finished(
        test.as_ref(),
        [TestOutputDisplay::Never; 2],
        two_attempts(rt.alloc())?,
    );
    assert!(rt; is_recorded(rt.alloc(), end)?);
    Ok(())
}

// A test whose two attempts were both ended by a signal.
fn two_attempts(alloc: Global) -> Result<ExecutionStatuses<LiveSpec>, OutOfMemory> {
    let earlier = vec![in alloc; aborted(alloc)?]?;
    Ok(ExecutionStatuses::with_last(earlier, aborted(alloc)?, FlakyResult::Pass))
}

#[test]
fn recorded_forms_of_scripts(rt: HostRuntime) -> Result<(), Fail> {
    let not_started = ChildExecutionOutputDescription::StartError(errors(rt.alloc())?);
    let outcome = ExecutionResultDescription::ExecFail;
    let script = script_finished(rt.alloc(), outcome, not_started)?;
    assert!(rt; is_recorded(rt.alloc(), script)?);
    assert!(rt; !is_recorded(rt.alloc(), run_started(rt.alloc())?)?);
    Ok(())
}
