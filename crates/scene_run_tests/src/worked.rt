//! Short runs through `run_report`, each with its whole report, and the calls that it refuses.

use crate::testing::OPTIONS;
use command_line::args::Options;
use command_line::fault::Fault;
use console_reporter::imp::{RunFault, WriteEventError, run_report};
use run_model::level::StatusLevel;
use scene_follower::reporter::builder_of;
use scenes::report::read_whole;
use std::alloc::Global;
use std::mem;
use std::test::Fail;
use test_devices::scenes::{
    ASKED, CANCELLED, END, OF_ASKED, OF_CANCELLED, OF_TWO_TESTS, TWO_TESTS,
};

const AT_NONE: Options<'static> = Options {
    status_level: StatusLevel::None,
    ..OPTIONS
};

const AT_FAIL: Options<'static> = Options {
    status_level: StatusLevel::Fail,
    ..OPTIONS
};

const AT_RETRY: Options<'static> = Options {
    status_level: StatusLevel::Retry,
    ..OPTIONS
};

const AT_SLOW: Options<'static> = Options {
    status_level: StatusLevel::Slow,
    ..OPTIONS
};

const IN_COLOUR: Options<'static> = Options {
    should_colorize: true,
    ..OPTIONS
};

const COUNTED: Options<'static> = Options {
    show_counter: true,
    ..OPTIONS
};

// A failed, a skipped and a passed test, which the summary lists.
const FAILED: &str =
    "done\t-\ta\tt1\tnever\tnever\tpass\t-\t1\tfail:1\t1000000000\t0\tsplit\t\t\t-\t-\n";

const SKIPPED: &str = "skip\t-\ta\tt2\n";

const PASSED: &str =
    "done\t-\ta\tt3\tnever\tnever\tpass\t-\t1\tpass\t1000000000\t0\tsplit\t\t\t-\t-\n";

const LIST_ALL: &str = "config\tfinal\tall\n";

const LISTED: &str = "end\t1000000000\tinitial=2 finished=2 passed=1 failed=1 skipped=1\t0\t-\n";

// The summary of these three tests, in whatever order they finished.
const OF_LISTED: &str = "------------
     Summary [   1.000s] 2 tests run: 1 passed, 1 failed, 1 skipped
        PASS [   1.000s] a t3
        SKIP [         ] a t2
        FAIL [   1.000s] a t1
";

const ORDERS: &[[&str; 3]] = &[
    [FAILED, SKIPPED, PASSED],
    [FAILED, PASSED, SKIPPED],
    [SKIPPED, FAILED, PASSED],
    [SKIPPED, PASSED, FAILED],
    [PASSED, FAILED, SKIPPED],
    [PASSED, SKIPPED, FAILED],
];

// The summary of two tests, reported twice.
const OF_END: &str = "------------
     Summary [   1.520s] 2 tests run: 1 passed, 1 failed, 0 skipped
        FAIL [   1.500s] alpha mod::t2
";

// Two tests that fail, the second one first by name.
const TWO_FAIL: &str = "done\t-\tb\tt1\tnever\tnever\tpass\tinitial=2 finished=1 failed=1\t1\t\
fail:1\t1000000000\t0\tsplit\t\t\t-\t-\n\
done\t-\ta\tt1\tnever\tnever\tpass\tinitial=2 finished=2 failed=2\t1\t\
fail:1\t1000000000\t0\tsplit\t\t\t-\t-\n\
end\t2000000000\tinitial=2 finished=2 failed=2\t0\t-\n";

// A slow test that will be terminated.
const TERMINATED: &str = "slow\t-\tbin\tt\t1\t2\t60000000000\t1\n";

const WORKED: &[(Options<'static>, &str, &str)] = &[
    (OPTIONS, TWO_TESTS, OF_TWO_TESTS),
    (OPTIONS, CANCELLED, OF_CANCELLED),
    (OPTIONS, ASKED, OF_ASKED),
    (OPTIONS, "", ""),
    (AT_RETRY, TERMINATED, " TERMINATING [> 60.000s] bin t\n"),
    (AT_SLOW, TERMINATED, "TRY 1 TRMNTG [> 60.000s] bin t\n"),
    (AT_FAIL, TERMINATED, ""),
    // An output that is not loaded and not shown.
    (
        OPTIONS,
        "config\tnocapture\t1\n\
        done\t-\ta\tt1\tnever\tnever\tpass\t-\t1\tpass\t1000000000\t0\tunloaded\t-\t-\t-\t-\n",
        "        PASS [   1.000s] a t1\n",
    ),
    (
        OPTIONS,
        "setup\t-\t18446744073709551615\t18446744073709551615\ts1\tcmd\t-\n",
        "       SETUP [18446744073709551616/18446744073709551615] s1: cmd\n",
    ),
    (
        AT_RETRY,
        "retry\t-\ta\tt1\t1\t3\t1000000000\tnever\tfail:1\t500000000\t0\tsplit\t\t\t-\t-\n",
        "  TRY 1 FAIL [   0.500s] a t1\n   DELAY 2/3 by   1.000s a t1\n",
    ),
    (
        OPTIONS,
        "config\tfinal\tnone\n\
        done\t-\ta\tt1\tnever\timmediate\tpass\t-\t1\tfail:1\t2000000000\t0\tsplit\tone\\n\ttwo\t-\t-\n",
        "        FAIL [   2.000s] a t1
  stdout ---
    one
  stderr ---
    two

    (test failed with exit code 1)

",
    ),
    // A panic has no line that says how the test ended.
    (
        OPTIONS,
        "config\tfinal\tnone\n\
        done\t-\ta\tt1\tnever\timmediate\tpass\t-\t1\tfail:101\t2000000000\t0\tsplit\tone\\n\ttwo\t-\t-\n",
        "        FAIL [   2.000s] a t1
  stdout ---
    one
  stderr ---
    two

",
    ),
    (
        OPTIONS,
        "config\tfinal\tnone\n\
        done\t-\ta\tt1\tnever\timmediate\tpass\t-\t1\texec\t2000000000\t0\
        \tstart\tcannot spawn\\,no file\\,line one\\nline two\t-\t-\t-\n",
        "       XFAIL [   2.000s] a t1
  execfail -
    cannot spawn
      caused by:
      - no file
      - line one
        line two

",
    ),
    (
        OPTIONS,
        "cancel\t0\t3\ttest-failure-immediate\n",
        "  Cancelling due to test failure: immediately terminating 3 tests still running\n",
    ),
    (
        OPTIONS,
        "kill\t1\t0\tinterrupt\n",
        "     Killing due to interrupt: 1 setup script still running\n",
    ),
    (
        OPTIONS,
        "pause\t0\t2\n",
        "     Pausing due to signal: 2 tests running\n",
    ),
    (
        OPTIONS,
        "substart\tcount:3:5000000000:0\n",
        "------------
 Stress test iteration 1/3 (00:00:05 elapsed so far, 3 iterations remaining)
",
    ),
    (
        OPTIONS,
        "substart\ttime:1800000000000:125400000000:1\n",
        "------------
 Stress test iteration 2 (00:02:05/00:30:00 elapsed so far, 00:27:55 remaining)
",
    ),
    (
        OPTIONS,
        "input\t12000000000\tinitial=5 finished=2 passed=2\t1\n",
        "     Running [ 00:00:12] 2/5: 1 running, 2 passed, 0 skipped\n",
    ),
    (
        OPTIONS,
        "info\t3500000000\t1\tinitial=2 finished=1 passed=1\n",
        "------------\ninfo: 1 running, 1 passed, 0 skipped in 3.500s\n",
    ),
    (
        OPTIONS,
        "infoend\t2\n",
        "info: missing 2 responses\n------------\n",
    ),
    (OPTIONS, "infoend\t0\n", "------------\n"),
    (
        OPTIONS,
        "answer-test\t0\t1\t-\ta\tt1\t1\t3\tdelay:0:200000000:800000000\tfail:1\tsplit\t\t\t-\t-\n",
        "
* 1/1:    a t1
  status: (attempt 1/3) test failed with exit code 1, currently waiting before next attempt
  note:   waited 0.200s so far, will wait another 0.800s before retrying test

",
    ),
    (
        OPTIONS,
        "header\t00000000-0000-4000-8000-000000000001\t-\t-\t2024,2,29,7,5,9\tok\n",
        "   Replaying recorded run 00000000-0000-4000-8000-000000000001
     Started 2024-02-29 07:05:09  status: ok
",
    ),
    (
        OPTIONS,
        "header\t00000000-0000-4000-8000-000000000001\t-\t-\t-5,2,28,7,5,9\tok\n",
        "   Replaying recorded run 00000000-0000-4000-8000-000000000001
     Started -0005-02-28 07:05:09  status: ok
",
    ),
    (
        IN_COLOUR,
        "prefix\t000\t00000-0000-4000-8000-000000000001\n\
        run\t00000000-0000-4000-8000-000000000001\tdefault\t2\t1\t-\n",
        "------------
\x1b[32;1m Nextest run\x1b[0m ID \x1b[35;1m000\x1b[0m\x1b[90m00000-0000-4000-8000-000000000001\x1b[0m \
with nextest profile: \x1b[1mdefault\x1b[0m
\x1b[32;1m    Starting\x1b[0m \x1b[1m2\x1b[0m tests across \x1b[1m1\x1b[0m binary
",
    ),
    // With a counter the summary is in the order of the counts, and else in that of the names.
    (
        COUNTED,
        TWO_FAIL,
        "        FAIL [   1.000s] (1/2) b t1
        FAIL [   1.000s] (2/2) a t1
------------
     Summary [   2.000s] 2 tests run: 0 passed, 2 failed, 0 skipped
        FAIL [   1.000s] (1/2) b t1
        FAIL [   1.000s] (2/2) a t1
",
    ),
    (
        OPTIONS,
        TWO_FAIL,
        "        FAIL [   1.000s] b t1
        FAIL [   1.000s] a t1
------------
     Summary [   2.000s] 2 tests run: 0 passed, 2 failed, 0 skipped
        FAIL [   1.000s] a t1
        FAIL [   1.000s] b t1
",
    ),
    (
        COUNTED,
        "config\tnocapture\t1\n\
        run\t00000000-0000-4000-8000-000000000001\tdefault\t1\t1\t-\n\
        start\t-\ta\tt1\tinitial=18446744073709551615 finished=18446744073709551615\t-\n",
        "------------
 Nextest run ID 00000000-0000-4000-8000-000000000001 with nextest profile: default
    Starting 1 test across 1 binary
       START [         ] (18446744073709551616/18446744073709551615) a t1
",
    ),
    (
        OPTIONS,
        "config\tnocapture\t1\nstart\t4294967295\ta\tt1\tinitial=1\t-\n",
        "       START [         ] [4294967296] a t1\n",
    ),
    (
        OPTIONS,
        "done\t-\ta\tt1\tnever\tnever\tpass\t-\t1\tsig:2147483647\t1000000000\t0\tsplit\t\t\t-\t-\n",
        "ABORT SIG 2147483647 [   1.000s] a t1\n",
    ),
];

// Runs that are refused at a call, and what was printed before it.
const REFUSED: &[(Options<'static>, &str, &str, RunFault)] = &[
    // The output of a test that could not be started is shown at once, and is not loaded.
    (
        OPTIONS,
        "config\tnocapture\t1\n\
        done\t-\ta\tt1\tnever\tnever\tpass\t-\t1\texec\t1000000000\t0\tunloaded\t-\t-\t-\t-\n",
        "",
        RunFault {
            position: 0,
            fault: WriteEventError::OutputNotLoaded,
        },
    ),
    // An attempt that succeeded and is retried.
    (
        AT_NONE,
        "pause\t0\t2\n\
        retry\t-\ta\tt1\t1\t3\t0\tnever\tpass\t500000000\t0\tsplit\t\t\t-\t-\n",
        "     Pausing due to signal: 2 tests running\n",
        RunFault {
            position: 1,
            fault: WriteEventError::RetriedSuccess,
        },
    ),
];

// Reports all calls of a scene by `run_report`. It has no contract, so that the proof of a test does not have to carry
// it for each call. The scene is not dropped: its drop would be proved once more here.
fn run(
    alloc: Global,
    options: &Options<'static>,
    text: &str,
    report: &mut String,
) -> Result<Result<(), RunFault>, Fault<'static>> {
    let scene = read_whole(alloc, options, text.as_bytes())?;
    let calls = scene.calls(alloc, options)?;
    let builder = builder_of(alloc, options, scene.config())?;
    let ran = run_report(
        alloc,
        builder,
        report,
        scene.config().use_unicode,
        false,
        false,
        scene.config().display_empty_outputs,
        calls.as_slice(),
    );
    mem::forget(calls);
    mem::forget(scene);
    Ok(ran)
}

// Whether a scene has this report and this outcome.
fn ends(
    alloc: Global,
    options: &Options<'static>,
    text: &str,
    report: &str,
    outcome: Result<(), RunFault>,
) -> bool {
    let mut printed = String::new(alloc);
    match run(alloc, options, text, &mut printed) {
        Ok(ran) => ran == outcome && printed.as_str() == report,
        Err(_) => false,
    }
}

#[test]
fn worked_runs_by_all_their_calls(rt: HostRuntime) -> Result<(), Fail> {
    let alloc = rt.alloc();
    for &(options, text, report) in WORKED {
        assert!(rt; ends(alloc, &options, text, report, Ok(())));
    }
    for &(options, text, report, fault) in REFUSED {
        assert!(rt; ends(alloc, &options, text, report, Err(fault)));
    }
    Ok(())
}

#[test]
fn one_summary_whatever_the_order_of_the_tests(rt: HostRuntime) -> Result<(), Fail> {
    let alloc = rt.alloc();
    for &tests in ORDERS {
        let mut text = String::from_str(alloc, LIST_ALL)?;
        for test in tests {
            text.push_str(test)?;
        }
        text.push_str(LISTED)?;
        assert!(rt; ends(alloc, &AT_NONE, text.as_str(), OF_LISTED, Ok(())));
    }
    Ok(())
}

#[test]
fn an_end_that_comes_twice(rt: HostRuntime) -> Result<(), Fail> {
    let alloc = rt.alloc();
    let mut text = String::from_str(alloc, TWO_TESTS)?;
    text.push_str(END)?;
    let mut report = String::from_str(alloc, OF_TWO_TESTS)?;
    report.push_str(OF_END)?;
    assert!(rt; ends(alloc, &OPTIONS, text.as_str(), report.as_str(), Ok(())));
    Ok(())
}
