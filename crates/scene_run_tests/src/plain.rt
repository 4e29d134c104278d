//! The two ways to report a scene: by all its calls and `run_report`, and call by call as the programs do it.

use crate::testing::{OPTIONS, expect_row, expect_text};
use command_line::args::{Options, StoreOptions};
use command_line::fault::Fault;
use run_model::level::StatusLevel;
use scenes::report::{read_whole, report_scene, write_scene};
use std::alloc::{AllocError, Global};
use std::mem;
use std::test::Fail;
use store_text::config::StoreConfig;
use test_devices::scenes::{ASKED, CANCELLED, TWO_TESTS};

const IN_COLOUR: Options<'static> = Options {
    should_colorize: true,
    ..OPTIONS
};

const ALL: Options<'static> = Options {
    show_counter: true,
    status_level: StatusLevel::All,
    ..OPTIONS
};

const UNLOADING: Options<'static> = Options {
    unload_skipped: true,
    status_level: StatusLevel::Retry,
    ..OPTIONS
};

// Records with the outputs of tests that failed, of which the report need not show all.
const STORING_FAILURES: Options<'static> = Options {
    unload_skipped: true,
    store: Some(StoreOptions {
        file: "out",
        config: StoreConfig {
            store_success_output: false,
            store_failure_output: true,
        },
    }),
    ..OPTIONS
};

// Scenes with every kind of line, and the error of each that is not accepted.
const SCENES: &[(&str, &str)] = &[
    ("", ""),
    (TWO_TESTS, ""),
    (CANCELLED, ""),
    (ASKED, ""),
    // A failed, a skipped and a passed test, all listed in the summary, which is reported twice.
    (
        "config\tfinal\tall\n\
        done\t-\ta\tt1\tnever\tnever\tpass\t-\t1\tfail:1\t1000000000\t0\tsplit\t\t\t-\t-\n\
        skip\t-\ta\tt2\n\
        done\t-\ta\tt3\tnever\tnever\tpass\t-\t1\tpass\t1000000000\t0\tsplit\t\t\t-\t-\n\
        end\t1000000000\tinitial=3 finished=2 passed=1 failed=1 skipped=1\t0\t-\n\
        end\t1000000000\tinitial=3 finished=2 passed=1 failed=1 skipped=1\t0\t-\n",
        "",
    ),
    (
        "slow\t-\tbin\tt\t1\t2\t60000000000\t1\nslow\t-\tbin\tt\t2\t2\t60000000000\t0\n",
        "",
    ),
    // Output that is not loaded: refused, and accepted.
    (
        "config\tnocapture\t1\n\
        start\t-\ta\tt1\t-\t-\n\
        done\t-\ta\tt1\tnever\tnever\tpass\t-\t1\texec\t1000000000\t0\tunloaded\t-\t-\t-\t-\n",
        "report: line 3: output not loaded",
    ),
    (
        "config\tnocapture\t1\n\
        done\t-\ta\tt1\tnever\tnever\tpass\t-\t1\tpass\t1000000000\t0\tunloaded\t-\t-\t-\t-\n",
        "",
    ),
    (
        "setup\t-\t18446744073709551615\t18446744073709551615\ts1\tcmd\t-\n\
        setupslow\t-\ts1\tcmd\ta\\,b\t60000000000\t0\n\
        setupdone\t-\ts1\tcmd\t-\tfail:2\t1000000000\t0\tsplit\tout\\n\terr\\n\t-\t-\n",
        "",
    ),
    // An attempt that failed and is retried; and one that succeeded and is retried, which is refused.
    (
        "retry\t-\ta\tt1\t1\t3\t1000000000\tnever\tfail:1\t500000000\t0\tsplit\t\t\t-\t-\n\
        retry\t-\ta\tt1\t2\t3\t0\timmediate\tfail:1\t500000000\t0\tcomb\tboom\\n\t-\t-\t-\n",
        "",
    ),
    (
        "retry\t-\ta\tt1\t1\t3\t0\tnever\tfail:1\t500000000\t0\tsplit\t\t\t-\t-\n\
        retry\t-\ta\tt1\t1\t3\t1000000000\tnever\tpass\t500000000\t0\tsplit\t\t\t-\t-\n",
        "report: line 2: a retried attempt succeeded",
    ),
    // Outputs that are shown at once, at the end, or both, and that of an attempt that was retried.
    (
        "config\tfinal\tfail\n\
        done\t-\ta\tt1\timmediate\tnever\tpass\t-\t1\tpass\t1000000000\t0\tcomb\tfine\\n\t-\t-\t-\n\
        done\t-\ta\tt2\tnever\timmediate-final\tpass\t-\t1\tsig:11:SEGV\t1000000000\t0\t\
        split\tone\\n\ttwo\\n\t-\terr:0:two\n\
        done\t-\ta\tt3\tfinal\tfinal\tfail\t-\t2\tfail:1\t1\t0\tsplit\tred\\n\t\t-\t-\t\
        pass\t2\t0\tsplit\tgreen\\n\t\t-\t-\n\
        done\t-\ta\tt4\tnever\tnever\tpass\t-\t1\texec\t1\t0\tstart\tcannot spawn\\,no file\t-\t-\t-\n\
        end\t4000000000\tinitial=4 finished=4 passed=2 flaky=1 failed=1 exec=1\t0\t-\n",
        "",
    ),
    (
        "prefix\t000\t00000-0000-4000-8000-000000000001\n\
        header\t00000000-0000-4000-8000-000000000001\t000\t00000-0000-4000-8000-000000000001\t2024,2,29,7,5,9\tok\n\
        run\t00000000-0000-4000-8000-000000000001\tdefault\t2\t1\ttests=1\n",
        "",
    ),
    (
        "info\t3500000000\t1\tinitial=2 finished=1 passed=1\n\
        answer-script\t0\t2\t-\ts1\tcmd\t-\trunning:42:1500000000:-\t-\tsplit\t\t\t-\t-\n\
        answer-test\t1\t2\t-\ta\tt1\t1\t3\tdelay:0:200000000:800000000\tfail:1\tunloaded\t-\t-\t-\t-\n\
        infoend\t1\n",
        "",
    ),
    // A response whose output is not loaded.
    (
        "answer-test\t0\t1\t-\ta\tt1\t1\t1\trunning:42:1500000000:-\t-\tunloaded\t-\t-\t-\t-\n",
        "report: line 1: output not loaded",
    ),
    (
        "substart\tcount:3:5000000000:0\n\
        done\t0/3\ta\tt1\tnever\tnever\tpass\t-\t1\tfail:1\t1000000000\t0\tsplit\t\t\t-\t-\n\
        subend\tcount:3:5000000000:0\t5000000000\tinitial=1 finished=1 failed=1\n\
        endstress\t9000000000\t2/3\t1\t1\tinitial=1 finished=1 passed=1\t0\t-\n",
        "",
    ),
    (
        "config\tverbose\t1\n\
        start\t-\ta\tt1\tinitial=2\tprogram\\,an argument\n\
        retrystart\t-\ta\tt1\t2\t3\tprogram\n\
        pause\t0\t2\ncontinue\t1\t2\nkill\t1\t0\tinterrupt\ninput\t12000000000\tinitial=5 finished=2 passed=2\t1\n",
        "",
    ),
    (
        "end\t1000000000\tinitial=3 finished=1 passed=1 cancel=signal\t3\ta\\,t1\\,a\\,t2\n",
        "",
    ),
    // A line that is wrong.
    ("skip\t-\ta\tt2\nbogus\n", "report: line 2: unknown event"),
];

// The line of the error, or nothing for a complete report.
fn line_of(alloc: Global, outcome: Result<(), Fault<'static>>) -> Result<String, AllocError> {
    match outcome {
        Ok(()) => Ok(String::new(alloc)),
        Err(fault) => fault.to_string(alloc),
    }
}

// Reports a scene call by call. It has no contract, so that the proof of the test does not have to carry that of
// `report_scene` for each call.
fn call_by_call(
    alloc: Global,
    options: &Options<'static>,
    text: &str,
    report: &mut Vec<u8>,
    records: &mut Vec<u8>,
) -> Result<(), Fault<'static>> {
    report_scene(alloc, options, text.as_bytes(), report, |_| Ok(records)).0
}

// Reports a scene by all its calls at once. The scene is not dropped: its drop would be proved once more here.
fn by_all_calls(
    alloc: Global,
    options: &Options<'static>,
    text: &str,
    report: &mut Vec<u8>,
    records: &mut Vec<u8>,
) -> Result<(), Fault<'static>> {
    let scene = read_whole(alloc, options, text.as_bytes())?;
    let (outcome, _, _) = write_scene(alloc, options, &scene, report, records);
    mem::forget(scene);
    outcome
}

// The line that both ways end with, or None if they differ in it, in the report or in the records.
fn both_ways(
    alloc: Global,
    options: &Options<'static>,
    text: &str,
) -> Result<Option<String>, AllocError> {
    let (mut report, mut records) = (Vec::new(alloc), Vec::new(alloc));
    let outcome = call_by_call(alloc, options, text, &mut report, &mut records);
    let line = line_of(alloc, outcome)?;
    let (mut plain_report, mut plain_records) = (Vec::new(alloc), Vec::new(alloc));
    let outcome = by_all_calls(alloc, options, text, &mut plain_report, &mut plain_records);
    let is_same = line_of(alloc, outcome)?.as_str() == line.as_str()
        && report.as_slice() == plain_report.as_slice()
        && records.as_slice() == plain_records.as_slice();
    Ok(is_same.then_some(line))
}

#[test]
fn both_ways_print_and_refuse_the_same(rt: HostRuntime) -> Result<(), Fail> {
    let alloc = rt.alloc();
    for &(text, refusal) in SCENES {
        let Some(line) = both_ways(alloc, &OPTIONS, text)? else {
            return Err(Fail::from("the two ways differ"));
        };
        expect_text(&rt, line.as_str(), refusal);
        for options in [&IN_COLOUR, &ALL, &UNLOADING, &STORING_FAILURES] {
            expect_row(&rt, both_ways(alloc, options, text)?.is_some(), text);
        }
    }
    Ok(())
}
