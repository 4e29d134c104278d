//! Which outputs a replay loads: what the decider returns for recorded events, and for live events, which a
//! reporter refuses if it needs an output that is not loaded.

use crate::testing::{finished, line_builder, retried, retried_success, script_finished};
use console_reporter::prelude::*;
use run_model::output::ChildExecutionOutputDescription;
use run_model::status::LeakTimeoutResult;
use std::alloc::Global;
use std::mem;
use std::test::Fail;

const LOAD: LoadOutput = LoadOutput::Load;

const SKIP: LoadOutput = LoadOutput::Skip;

const NEVER: TestOutputDisplay = TestOutputDisplay::Never;

const IMMEDIATE: TestOutputDisplay = TestOutputDisplay::Immediate;

// A store that keeps the output of tests that fail.
const FAILURES: StoreConfig = StoreConfig {
    store_success_output: false,
    store_failure_output: true,
};

// The result of a test.
#[derive(Clone, Copy)]
enum Outcome {
    Passed,
    // Its second attempt passed, which counts as a failure.
    FlakyFailed,
    Failed,
    ExecFailed,
}

impl Outcome {
    fn statuses(self, alloc: Global) -> Result<ExecutionStatuses<LiveSpec>, OutOfMemory> {
        let second = Nanos::from_secs(1);
        match self {
            Outcome::Passed => Ok(ExecutionStatuses::single(alloc, ExecuteStatus::passed(second))),
            Outcome::FlakyFailed => Ok(ExecutionStatuses::with_last(
                vec![in alloc; ExecuteStatus::failed(1, second)]?,
                ExecuteStatus::passed(second),
                FlakyResult::Fail,
            )),
            Outcome::Failed => Ok(ExecutionStatuses::single(
                alloc,
                ExecuteStatus::failed(1, second),
            )),
            Outcome::ExecFailed => Ok(ExecutionStatuses::single(
                alloc,
                ExecuteStatus::new(alloc, ExecutionResultDescription::ExecFail, second)?,
            )),
        }
    }
}

// A setup script that left handles open has finished.
fn leaky_script<'a>(alloc: Global, leak: LeakTimeoutResult) -> Result<TestEvent<'a>, OutOfMemory> {
    let outcome = ExecutionResultDescription::Leak { result: leak };
    let output = ChildExecutionOutputDescription::silent(outcome.try_clone(alloc)?);
    script_finished(alloc, outcome, output)
}

// The decision for an event's recorded form, and the error of a reporter for the event with its output and without.
type Decision = (LoadOutput, [Option<WriteEventError>; 2]);

// None for an event that has no output.
fn decision_of(
    alloc: Global,
    decider: &OutputLoadDecider,
    event: TestEvent<'_>,
) -> Result<Option<Decision>, OutOfMemory> {
    let recorded = event.recorded(alloc);
    let as_it_is = decider.refusal_of(&event);
    let mut event = event;
    event.unload();
    let unread = decider.refusal_of(&event);
    mem::forget(event);
    let Some(kind) = recorded? else {
        return Ok(None);
    };
    let decision = decider.should_load_output(&kind);
    mem::forget(kind);
    Ok(Some((decision, [as_it_is, unread])))
}

// The same decision for a live event. If its output has to be loaded, the event is refused without it.
fn both(decision: LoadOutput) -> Option<Decision> {
    match decision {
        LoadOutput::Load => Some((LOAD, [None, Some(WriteEventError::OutputNotLoaded)])),
        LoadOutput::Skip => Some((SKIP, [None, None])),
    }
}

// What a reporter with this level and store decides by.
fn decider_of(
    alloc: Global,
    status_level: StatusLevel,
    store: Option<StoreConfig>,
) -> Result<OutputLoadDecider, OutOfMemory> {
    let builder = line_builder(alloc, status_level)?;
    Ok(builder.output_load_decider(Surroundings::default(), store))
}

// Whether the decider makes this decision.
fn decides(
    alloc: Global,
    decider: &OutputLoadDecider,
    event: TestEvent<'_>,
    want: LoadOutput,
) -> Result<bool, OutOfMemory> {
    Ok(decision_of(alloc, decider, event)? == both(want))
}

#[test]
fn tests_that_finished(rt: HostRuntime) -> Result<(), Fail> {
    let test = OwnedTestInstanceId::new(rt.alloc(), "a", "t1")?;
    let (last, both_times) = (TestOutputDisplay::Final, TestOutputDisplay::ImmediateFinal);
    let (alone, beside_store) = (None, Some(FAILURES));
    for (store, outcome, displays, want) in [
        (alone, Outcome::Passed, [NEVER, IMMEDIATE], SKIP),
        (alone, Outcome::Passed, [last, NEVER], LOAD),
        (alone, Outcome::FlakyFailed, [NEVER, IMMEDIATE], SKIP),
        (alone, Outcome::Failed, [NEVER, both_times], LOAD),
        (alone, Outcome::ExecFailed, [NEVER, NEVER], SKIP),
        (beside_store, Outcome::Passed, [NEVER, NEVER], SKIP),
        (beside_store, Outcome::FlakyFailed, [NEVER, NEVER], SKIP),
        (beside_store, Outcome::Failed, [NEVER, NEVER], LOAD),
        (beside_store, Outcome::ExecFailed, [NEVER, NEVER], LOAD),
    ] {
        let decider = decider_of(rt.alloc(), StatusLevel::Pass, store)?;
        let event = finished(test.as_ref(), displays, outcome.statuses(rt.alloc())?);
        assert!(rt; decides(rt.alloc(), &decider, event, want)?);
    }
    Ok(())
}

#[test]
fn attempts_that_are_retried(rt: HostRuntime) -> Result<(), Fail> {
    let test = OwnedTestInstanceId::new(rt.alloc(), "a", "t1")?;
    for (status_level, want) in [(StatusLevel::Fail, SKIP), (StatusLevel::Retry, LOAD)] {
        let decider = decider_of(rt.alloc(), status_level, None)?;
        let failed = ExecuteStatus::failed(1, Nanos::from_secs(1));
        let event = retried(test.as_ref(), failed);
        assert!(rt; decides(rt.alloc(), &decider, event, want)?);
    }
    Ok(())
}

#[test]
fn setup_scripts(rt: HostRuntime) -> Result<(), Fail> {
    for (leak, want) in [
        (LeakTimeoutResult::Pass, SKIP),
        (LeakTimeoutResult::Fail, LOAD),
    ] {
        let decider = decider_of(rt.alloc(), StatusLevel::Pass, None)?;
        let event = leaky_script(rt.alloc(), leak)?;
        assert!(rt; decides(rt.alloc(), &decider, event, want)?);
    }
    Ok(())
}

// A test that failed, that test without its output, and an attempt that succeeded and is retried.
fn calls_to_refuse<'a>(
    alloc: Global,
    test: TestInstanceId<'a>,
) -> Result<[ReportCall<'a>; 3], OutOfMemory> {
    let (first, second) = (
        Outcome::Failed.statuses(alloc)?,
        Outcome::Failed.statuses(alloc)?,
    );
    let displays = [NEVER, IMMEDIATE];
    let accepted = finished(test, displays, first);
    let mut unread = finished(test, displays, second);
    unread.unload();
    Ok([
        ReportCall::Event(accepted),
        ReportCall::Event(unread),
        ReportCall::Event(retried_success(test)),
    ])
}

#[test]
fn the_first_call_that_is_refused(rt: HostRuntime) -> Result<(), Fail> {
    let test = OwnedTestInstanceId::new(rt.alloc(), "a", "t1")?;
    let decider = decider_of(rt.alloc(), StatusLevel::Pass, None)?;
    let calls = calls_to_refuse(rt.alloc(), test.as_ref())?;
    let all = &calls[..];
    let found = [
        first_refused(&decider, &all[..1]),
        first_refused(&decider, all),
        first_refused(&decider, &all[2..]),
    ];
    mem::forget(calls);
    let [of_accepted, of_all, of_retried] = found;
    assert!(rt; of_accepted.is_none());
    assert!(rt; of_all == Some(1));
    assert!(rt; of_retried == Some(0));
    Ok(())
}
