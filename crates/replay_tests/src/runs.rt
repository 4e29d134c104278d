//! Replayed runs, and how many bytes of their outputs are read.

use crate::testing::{expect_bytes, expect_row, expect_text};
use command_line::args::{Options, StoreOptions};
use command_line::fault::{Fault, LineFault};
use recorded::{Metered, RecordedOutputs, RecordedRun, Source};
use run_model::level::StatusLevel;
use scene_follower::follow::{RunOutcome, follow_scene};
use std::alloc::{AllocError, Global};
use std::io;
use std::io::ErrorKind;
use std::test::Fail;
use store_text::config::StoreConfig;

// Two streams.
const OUTPUTS: &[u8] = b"passed\nfailed\n";

// In the lines below, PASSED stands for a reference to the first stream, and FAILED for one to the second.
const PASSED: &str = "\\@0:7:62cd0a585dc2fe91";

const FAILED: &str = "\\@7:7:ee2a98c236301c76";

const RUN: &str = "config\tfinal\tfail\n\
run\t00000000-0000-4000-8000-000000000001\tdefault\t2\t1\t-\n\
done\t-\talpha\tt1\tnever\tnever\tpass\tinitial=2 finished=1 passed=1\t1\tpass\t5000000\t0\tsplit\tPASSED\t\t-\t-\n\
done\t-\talpha\tt2\tnever\timmediate\tpass\tinitial=2 finished=2 passed=1 failed=1\t1\t\
fail:1\t1500000000\t0\tsplit\t\tFAILED\t-\t-\n\
end\t1520000000\tinitial=2 finished=2 passed=1 failed=1\t0\t-\n";

const OPTIONS: Options<'static> = Options {
    should_colorize: false,
    show_counter: false,
    is_replay: true,
    unload_skipped: false,
    status_level: StatusLevel::Pass,
    store: None,
    file: "DIR",
    is_last: false,
};

// Records with these outputs.
const fn storing(store_success_output: bool, store_failure_output: bool) -> Options<'static> {
    Options {
        store: Some(StoreOptions {
            file: "out",
            config: StoreConfig {
                store_success_output,
                store_failure_output,
            },
        }),
        ..OPTIONS
    }
}

// The outcome of a replay, what it printed and stored, and how many bytes of outputs it read.
#[derive(Drop)]
struct Replayed<'a> {
    outcome: Result<RunOutcome, Fault<'a>>,
    printed: Vec<u8>,
    stored: Vec<u8>,
    bytes_read: u64,
}

fn replay<'a, O: Source + Drop>(
    alloc: Global,
    options: &Options<'a>,
    lines: &str,
    outputs: O,
) -> Result<Replayed<'a>, Fail> {
    let outputs = RecordedOutputs::new(Metered::new(outputs))?;
    let mut run = RecordedRun::new(alloc, *options, lines.as_bytes(), outputs)?;
    let (outcome, printed, stored) = run.replay(alloc, Vec::new(alloc), Vec::new(alloc));
    Ok(Replayed {
        outcome,
        printed,
        stored,
        bytes_read: run.bytes_read(),
    })
}

// The run with these texts in place of PASSED and FAILED.
fn lines_with(alloc: Global, passed: &str, failed: &str) -> Result<String, AllocError> {
    RUN.replace(alloc, "PASSED", passed)?
        .replace(alloc, "FAILED", failed)
}

#[test]
fn reads_what_is_shown_or_stored(rt: HostRuntime) -> Result<(), Fail> {
    let alloc = rt.alloc();
    let live = Options {
        is_replay: false,
        ..OPTIONS
    };
    let retries = Options {
        status_level: StatusLevel::None,
        ..OPTIONS
    };
    let rows = [
        (OPTIONS, 7),
        (live, 7),
        (retries, 7),
        (storing(false, false), 7),
        (storing(true, false), 14),
        (storing(true, true), 14),
    ];
    let lines = lines_with(alloc, PASSED, FAILED)?;
    let inline = lines_with(alloc, "passed\\n", "failed\\n")?;
    for (row, (options, bytes_read)) in rows.into_iter().enumerate() {
        let replayed = replay(alloc, &options, lines.as_str(), OUTPUTS)?;
        expect_row(&rt, replayed.bytes_read == bytes_read, row);
        let shown = Options {
            is_replay: true,
            ..options
        };
        let (outcome, printed, stored) = follow_scene(
            alloc,
            &shown,
            inline.as_bytes(),
            Vec::new(alloc),
            Vec::new(alloc),
        );
        let is_failed = outcome? == RunOutcome::Failed && replayed.outcome? == RunOutcome::Failed;
        expect_row(&rt, is_failed, row);
        expect_bytes(&rt, replayed.printed.as_slice(), printed.as_slice());
        expect_bytes(&rt, replayed.stored.as_slice(), stored.as_slice());
    }
    Ok(())
}

#[test]
fn reports_damaged_outputs_by_line_and_field(rt: HostRuntime) -> Result<(), Fail> {
    let alloc = rt.alloc();
    let past = "\\@8:7:ee2a98c236301c76";
    let other = "\\@0:7:ee2a98c236301c76";
    let empty = "\\@14:0:d1fba762150c532c";
    let rows = [
        (PASSED, FAILED, None),
        (empty, empty, None),
        // The sum of an output that is not shown is not checked, but its bytes must be there.
        (other, FAILED, None),
        (past, FAILED, Some((3, 14))),
        (PASSED, other, Some((4, 15))),
        (PASSED, past, Some((4, 15))),
        (other, other, Some((4, 15))),
        ("\\@0:7", FAILED, Some((3, 14))),
    ];
    let whole = lines_with(alloc, PASSED, FAILED)?;
    let report = replay(alloc, &OPTIONS, whole.as_str(), OUTPUTS)?.printed;
    for (row, (passed, failed, bad)) in rows.into_iter().enumerate() {
        let lines = lines_with(alloc, passed, failed)?;
        let replayed = replay(alloc, &OPTIONS, lines.as_str(), OUTPUTS)?;
        let fault = match replayed.outcome {
            Ok(_) => None,
            Err(
                Fault::Line {
                    line,
                    fault: LineFault::BadField(field),
                },
            ) => Some((line, field)),
            Err(_) => return Err(Fail::from("another fault")),
        };
        let is_front = report.as_slice().starts_with(replayed.printed.as_slice());
        expect_row(&rt, fault == bad && (is_front || bad.is_none()), row);
    }
    Ok(())
}

#[test]
fn takes_a_line_that_was_cut_for_none(rt: HostRuntime) -> Result<(), Fail> {
    let alloc = rt.alloc();
    let lines = lines_with(alloc, PASSED, FAILED)?;
    let whole = replay(alloc, &OPTIONS, lines.as_str(), OUTPUTS)?;
    assert!(rt; whole.outcome? == RunOutcome::Failed);
    for end in 0..lines.len() {
        let cut = lines.as_str().get(..end).ok_or("a beginning")?;
        let kept = match cut.rsplit_once('\n') {
            Some((before, _)) => &cut[..before.len() + 1],
            None => "",
        };
        let replayed = replay(alloc, &OPTIONS, cut, OUTPUTS)?;
        let of_whole_lines = replay(alloc, &OPTIONS, kept, OUTPUTS)?;
        let printed = replayed.printed.as_slice();
        let is_front = whole.printed.as_slice().starts_with(printed);
        expect_bytes(&rt, printed, of_whole_lines.printed.as_slice());
        expect_row(
            &rt,
            is_front && replayed.outcome? == RunOutcome::NotEnded,
            end,
        );
    }
    Ok(())
}

// Outputs with a known length whose bytes cannot be read.
#[derive(Drop)]
struct Unreadable {
    kind: ErrorKind,
}

impl Source for Unreadable {
    fn len(&mut self) -> io::Result<u64> {
        Ok(OUTPUTS.len() as u64)
    }

    fn read_at(&mut self, _offset: u64, _buffer: &mut [u8]) -> io::Result<()> {
        Err(self.kind.into())
    }
}

#[test]
fn reports_that_outputs_cannot_be_read(rt: HostRuntime) -> Result<(), Fail> {
    let alloc = rt.alloc();
    let lines = lines_with(alloc, PASSED, FAILED)?;
    let report = replay(alloc, &OPTIONS, lines.as_str(), OUTPUTS)?.printed;
    let kinds = [
        (ErrorKind::Other, "report: cannot read DIR", 2),
        (ErrorKind::Interrupted, "report: cannot read DIR", 2),
        (ErrorKind::PermissionDenied, "report: cannot read DIR", 2),
        (ErrorKind::UnexpectedEof, "report: cannot read DIR", 2),
        (ErrorKind::OutOfMemory, "report: out of memory", 3),
    ];
    for (row, (kind, line, status)) in kinds.into_iter().enumerate() {
        let replayed = replay(alloc, &OPTIONS, lines.as_str(), Unreadable { kind })?;
        let Err(fault) = replayed.outcome else {
            return Err(Fail::from("the read fails"));
        };
        let is_front = report.as_slice().starts_with(replayed.printed.as_slice());
        expect_text(&rt, fault.to_string(alloc)?.as_str(), line);
        expect_row(
            &rt,
            fault.status() == status && is_front && replayed.bytes_read == 0,
            row,
        );
    }
    Ok(())
}

// A line with backslashes and no reference, and a line of 89 fields. Of its ten attempts the first, the fifth and the
// last have stored outputs, some of them empty. A stream of the first has another sum, which is not checked.
const MUCH: &str = "config\tfinal\tfail\n\
setup\t-\t0\t1\tdb\t./start\\\\db\t\\x2d\n\
done\t-\talpha\tt1\tnever\timmediate-final\tpass\tinitial=1 finished=1 failed=1\t10\
\tfail:1\t5000000\t0\tsplit\tDAMAGED\tPASSED\t-\t-\
\tfail:1\t5000000\t0\tsplit\t-\t-\t-\t-\
\tfail:1\t5000000\t0\tsplit\t-\t-\t-\t-\
\tfail:1\t5000000\t0\tsplit\t-\t-\t-\t-\
\tfail:1\t5000000\t0\tsplit\tPASSED\tEMPTY\t-\t-\
\tfail:1\t5000000\t0\tsplit\t-\t-\t-\t-\
\tfail:1\t5000000\t0\tsplit\t-\t-\t-\t-\
\tfail:1\t5000000\t0\tsplit\t-\t-\t-\t-\
\tfail:1\t5000000\t0\tsplit\t-\t-\t-\t-\
\tfail:1\t5000000\t0\tsplit\tEMPTY\tFAILED\t-\t-\
\nend\t1520000000\tinitial=1 finished=1 failed=1\t0\t-\n";

#[test]
fn replays_lines_of_much_of_everything(rt: HostRuntime) -> Result<(), Fail> {
    let alloc = rt.alloc();
    let lines = MUCH
        .replace(alloc, "PASSED", PASSED)?
        .replace(alloc, "FAILED", FAILED)?
        .replace(alloc, "DAMAGED", "\\@0:7:ee2a98c236301c76")?
        .replace(alloc, "EMPTY", "\\@14:0:d1fba762150c532c")?;
    let inline = MUCH
        .replace(alloc, "PASSED", "passed\\n")?
        .replace(alloc, "FAILED", "failed\\n")?
        .replace(alloc, "DAMAGED", "passed\\n")?
        .replace(alloc, "EMPTY", "")?;
    let replayed = replay(alloc, &OPTIONS, lines.as_str(), OUTPUTS)?;
    let (outcome, printed, _stored) = follow_scene(
        alloc,
        &OPTIONS,
        inline.as_bytes(),
        Vec::new(alloc),
        Vec::new(alloc),
    );
    assert!(rt; outcome? == RunOutcome::Failed && replayed.outcome? == RunOutcome::Failed);
    expect_bytes(&rt, replayed.printed.as_slice(), printed.as_slice());
    assert!(rt; replayed.bytes_read == 7);
    Ok(())
}
