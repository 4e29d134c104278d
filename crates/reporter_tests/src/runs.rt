//! Three runs, with what each of their calls adds to the report and the records: two tests from their start to their
//! summary, a run that is cancelled twice, and a test that responds. The tests run them with devices that fail and with
//! memory that is refused. The functions here own little across a `?`, which keeps their proofs short.

#[cfg(test)]
mod faults;
#[cfg(test)]
mod growths;

use crate::testing::{ended, line_builder};
use console_reporter::prelude::*;
use run_model::boxed::{Boxed, Shared};
use run_model::info::{InfoResponse, TestInfoResponse, UnitState};
use run_model::output::ChildExecutionOutputDescription;
use std::alloc::Global;
use std::mem;
use std::test::Fail;

/// What is tried with each run.
#[derive(Clone, Copy)]
pub enum Trial {
    /// Each call of a device fails once.
    Faults,
    /// The report and the records grow.
    Strings,
    /// The report and the records are buffered for devices.
    Buffers,
    /// The prefix of the run's id comes first.
    Prefix,
}

/// A store that keeps the output of all tests.
pub const ALL_OUTPUT: StoreConfig = StoreConfig {
    store_success_output: true,
    store_failure_output: true,
};

/// The text of each call of a run in the report, and its record.
#[derive(Clone, Copy)]
pub struct Texts {
    /// What the report has of each call.
    pub report: &'static [&'static str],
    /// The record of each call. Only the end of a test has one.
    pub records: &'static [&'static str],
}

/// The texts of `two_tests`.
pub const TWO_TESTS: Texts = Texts {
    report: &[
        "------------
 Nextest run ID 00000000-0000-4000-8000-000000000001 with nextest profile: default
    Starting 2 tests across 1 binary
",
        "        PASS [   0.005s] alpha t1\n",
        "        FAIL [   1.500s] alpha mod::t2\n",
        "------------
     Summary [   1.520s] 2 tests run: 1 passed, 1 failed, 0 skipped
        FAIL [   1.500s] alpha mod::t2
",
    ],
    records: &[
        "",
        "5:alpha,2:t1,4:PASS,0:,\n",
        "5:alpha,7:mod::t2,4:FAIL,0:,\n",
        "",
    ],
};

// The texts of `cancelled`.
const CANCELLED: Texts = Texts {
    report: &[
        "  Cancelling due to interrupt\n",
        "  Cancelling due to signal\n",
        "        FAIL [   1.000s] a t1\n",
        "------------
     Summary [   2.000s] 1/2 tests run: 0 passed, 1 failed, 0 skipped
warning: 1/2 tests were not run due to signal
",
    ],
    records: &["", "", "1:a,2:t1,4:FAIL,5:boom\n,\n", ""],
};

// The texts of `response`.
const RESPONSE: Texts = Texts {
    report: &[
        "
* 1/1:    a t1
  status: test running for 1.500s as PID 42
  stdout:
    hi


",
    ],
    records: &[""],
};

/// Tries each run.
pub fn try_runs(alloc: Global, trial: Trial) -> Result<(), Fail> {
    try_two_tests(alloc, trial)?;
    let test = OwnedTestInstanceId::new(alloc, "a", "t1")?;
    try_one_test(alloc, trial, test.as_ref())
}

fn try_two_tests(alloc: Global, trial: Trial) -> Result<(), Fail> {
    let tests = names(alloc)?;
    let [first, second] = &tests;
    try_both(alloc, trial, first.as_ref(), second.as_ref())
}

fn names(alloc: Global) -> Result<[OwnedTestInstanceId; 2], OutOfMemory> {
    Ok([
        OwnedTestInstanceId::new(alloc, "alpha", "t1")?,
        OwnedTestInstanceId::new(alloc, "alpha", "mod::t2")?,
    ])
}

fn try_both<'a>(
    alloc: Global,
    trial: Trial,
    first: TestInstanceId<'a>,
    second: TestInstanceId<'a>,
) -> Result<(), Fail> {
    let started = run_started(alloc)?;
    let calls = two_tests(alloc, started, first, second);
    let tried = try_run(alloc, trial, first, &calls, TWO_TESTS);
    mem::forget(calls);
    tried
}

fn try_one_test(alloc: Global, trial: Trial, test: TestInstanceId<'_>) -> Result<(), Fail> {
    try_cancelled(alloc, trial, test)?;
    try_response(alloc, trial, test)
}

fn try_cancelled(alloc: Global, trial: Trial, test: TestInstanceId<'_>) -> Result<(), Fail> {
    let output = written(alloc, b"boom\n")?;
    let calls = cancelled(alloc, test, output);
    let tried = try_run(alloc, trial, test, &calls, CANCELLED);
    mem::forget(calls);
    tried
}

fn try_response(alloc: Global, trial: Trial, test: TestInstanceId<'_>) -> Result<(), Fail> {
    let output = Boxed::new(alloc, written_so_far(alloc)?)?;
    let calls = [response(alloc, test, output)?];
    let tried = try_run(alloc, trial, test, &calls, RESPONSE);
    mem::forget(calls);
    tried
}

// Tries a run; `test` is one of its tests.
fn try_run(
    alloc: Global,
    trial: Trial,
    test: TestInstanceId<'_>,
    calls: &[ReportCall<'_>],
    texts: Texts,
) -> Result<(), Fail> {
    match trial {
        Trial::Faults => faults::try_run(alloc, test, calls, texts),
        Trial::Strings => growths::run_over_strings(alloc, calls, texts),
        Trial::Buffers => growths::run_over_buffers(alloc, calls, texts),
        Trial::Prefix => growths::run_after_prefix(alloc, calls, texts),
    }
}

// A run of two tests, of which one passes and one fails.
fn two_tests<'a>(
    alloc: Global,
    started: TestEvent<'a>,
    first: TestInstanceId<'a>,
    second: TestInstanceId<'a>,
) -> [ReportCall<'a>; 4] {
    let never = TestOutputDisplay::Never;
    let passed = ExecuteStatus::passed(Nanos::from_millis(5));
    let failed = ExecuteStatus::failed(1, Nanos::from_millis(1500));
    let stats = RunStats {
        finished_count: 2,
        passed: 1,
        failed: 1,
        ..RunStats::new(2)
    };
    [
        ReportCall::Event(started),
        ReportCall::Event(ended(alloc, first, never, passed)),
        ReportCall::Event(ended(alloc, second, never, failed)),
        ReportCall::Event(TestEvent::run_finished(Nanos::from_millis(1520), stats)),
    ]
}

// A run that is cancelled by an interrupt and then by a signal. Then a test with this output fails.
fn cancelled<'a>(
    alloc: Global,
    test: TestInstanceId<'a>,
    output: ChildOutputDescription,
) -> [ReportCall<'a>; 4] {
    let failed = ExecuteStatus::failed(1, Nanos::from_secs(1)).with_output(output);
    let stats = RunStats {
        finished_count: 1,
        failed: 1,
        cancel_reason: Some(CancelReason::Signal),
        ..RunStats::new(2)
    };
    [
        ReportCall::Event(cancels(CancelReason::Interrupt)),
        ReportCall::Event(cancels(CancelReason::Signal)),
        ReportCall::Event(ended(alloc, test, TestOutputDisplay::Immediate, failed)),
        ReportCall::Event(TestEvent::run_finished(Nanos::from_secs(2), stats)),
    ]
}

// The response of a test with this output when it is asked for its state.
fn response<'a>(
    alloc: Global,
    test: TestInstanceId<'a>,
    output: Boxed<ChildExecutionOutputDescription<LiveSpec>>,
) -> Result<ReportCall<'a>, OutOfMemory> {
    let state = UnitState::Running {
        pid: 42,
        time_taken: Nanos::from_millis(1500),
        slow_after: None,
    };
    Ok(ReportCall::Event(TestEvent {
        elapsed: Nanos(0),
        kind: TestEventKind::InfoResponse {
            index: 0,
            total: 1,
            response: InfoResponse::Test(TestInfoResponse {
                stress_index: None,
                test_instance: test,
                retry_data: RetryData::only(),
                state: Shared::new(alloc, state)?,
                output,
            }),
        },
    }))
}

/// The start of a run of two tests.
pub fn run_started<'a>(alloc: Global) -> Result<TestEvent<'a>, OutOfMemory> {
    let profile_name = ProfileName::new(alloc, "default")?;
    Ok(TestEvent {
        elapsed: Nanos(0),
        kind: TestEventKind::RunStarted {
            test_list: TestCounts {
                run_count: 2,
                listed_binary_count: 1,
                skip_counts: SkipCounts::default(),
            },
            run_id: Uuid::from_u128(0x4000_8000_0000_0000_0001),
            profile_name,
        },
    })
}

// The run is cancelled for this reason. Nothing runs.
fn cancels<'a>(reason: CancelReason) -> TestEvent<'a> {
    TestEvent {
        elapsed: Nanos(0),
        kind: TestEventKind::RunBeginCancel {
            setup_scripts_running: 0,
            current_stats: RunStats {
                cancel_reason: Some(reason),
                ..RunStats::new(2)
            },
            running: 0,
        },
    }
}

// A test wrote this to its standard output.
fn written(alloc: Global, text: &'static [u8]) -> Result<ChildOutputDescription, OutOfMemory> {
    ChildOutputDescription::split(alloc, Bytes::from_static(text), Bytes::new())
}

// What a test that runs has written.
fn written_so_far(alloc: Global) -> Result<ChildExecutionOutputDescription<LiveSpec>, OutOfMemory> {
    Ok(ChildExecutionOutputDescription::Output {
        result: None,
        output: written(alloc, b"hi\n")?,
        errors: None,
        highlight: None,
    })
}

/// Makes calls on a reporter without a store. It has no contract, like the functions of `testing`.
pub fn run_alone<W: WriteStr>(
    alloc: Global,
    report: &mut W,
    calls: &[ReportCall<'_>],
) -> Result<Result<(), RunFault>, OutOfMemory> {
    let builder = line_builder(alloc, StatusLevel::Pass)?;
    Ok(run_report(alloc, builder, report, false, false, false, false, calls))
}

/// Makes calls on a reporter that stores all output.
pub fn run_with_store<W: WriteStr, S: WriteStr>(
    alloc: Global,
    report: &mut W,
    records: &mut S,
    calls: &[ReportCall<'_>],
) -> Result<Result<(), RunFault>, OutOfMemory> {
    let builder = line_builder(alloc, StatusLevel::Pass)?;
    Ok(run_report_with_store(
        alloc, builder, report, records, ALL_OUTPUT, false, false, false, false, calls,
    ))
}

/// The length of the first n of these texts, in bytes.
pub fn front_len(texts: &[&str], number: usize) -> usize {
    let mut len = 0usize;
    for text in texts.iter().take(number) {
        len = len.saturating_add(text.len());
    }
    len
}

/// Whether these bytes are a prefix of these texts, joined.
pub fn is_prefix(bytes: &[u8], texts: &[&str]) -> bool {
    let mut rest = bytes;
    for text in texts {
        match rest.strip_prefix(text.as_bytes()) {
            Some(after) => rest = after,
            None => return text.as_bytes().starts_with(rest),
        }
    }
    rest.is_empty()
}
