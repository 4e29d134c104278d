//! Lines of a recorded run, their stored outputs, and how these are loaded.

ghost use Rattle.std.specs.Prelude.{⊤};

use crate::testing::{expect_bytes, expect_count, expect_row, expect_text};
use command_line::fault::{Fault, LineFault};
use recorded::{LoadFault, Metered, RecordedOutputs, StreamFault};
use run_model::call::ReportCall;
use run_model::output::{ChildOutputDescription, ChildSingleOutput};
use scene_fields::stored::{PlacedOutput, StoredOutput, StreamField};
use scene_reader::reader::{CallSink, LinesRead};
use std::alloc::Global;
use std::process::Abort;
use std::test::Fail;

// Two streams.
const OUTPUTS: &[u8] = b"passed\nfailed\n";

// In the lines below, PASSED stands for a reference to the first stream, and FAILED for one to the second.
const PASSED: &str = "\\@0:7:62cd0a585dc2fe91";

const FAILED: &str = "\\@7:7:ee2a98c236301c76";

// Lines, and for each stored output the index of its attempt and the field of its first stream.
const STORED: &[(&str, &[(usize, usize)])] = &[
    (
        "done\t-\ta\tt\tnever\tfinal\tpass\t-\t1\tfail:1\t5\t0\tsplit\tPASSED\tFAILED\t-\t-",
        &[(0, 14)],
    ),
    (
        "done\t-\ta\tt\tnever\tfinal\tpass\t-\t3\tfail:1\t5\t0\tsplit\t\tFAILED\tx\t-\t\
         fail:1\t6\t1\tsplit\t\t\t-\t-\tpass\t7\t0\tcomb\tPASSED\t-\t-\tcomb:0:p",
        &[(0, 14), (2, 30)],
    ),
    (
        "retry\t-\ta\tt\t1\t2\t5\tfinal\tfail:1\t5\t0\tsplit\tPASSED\t-\t-\t-",
        &[(0, 13)],
    ),
    (
        "setupdone\t-\tdb\tinit\t\tpass\t5\t0\tcomb\tPASSED\t-\t-\t-",
        &[(0, 10)],
    ),
    (
        "answer-test\t0\t2\t-\ta\tt\t1\t1\trunning:4:5:-\t-\tsplit\t-\tFAILED\t-\t-",
        &[(0, 12)],
    ),
    (
        "answer-script\t0\t2\t-\tdb\tinit\t\trunning:4:5:-\t-\tsplit\tFAILED\t\t-\t-",
        &[(0, 11)],
    ),
    // Other texts of the line may have escapes.
    (
        "retry\t-\ta\t\\x2d\t1\t2\t5\tfinal\tfail:1\t5\t0\tsplit\tPASSED\t\tc\\td\t-",
        &[(0, 13)],
    ),
];

// Lines that store nothing, or are wrong.
const KEPT: &[&str] = &[
    "",
    "end\t0\t-\t-",
    "skip\t-\ta\tPASSED",
    "start\t-\ta\tt\t-\tPASSED",
    "info\tPASSED\tFAILED\tPASSED\tsplit\tPASSED\tFAILED\t-\t-\tsplit\tPASSED\tFAILED\t-\t-",
    "retry\t-\ta\tt\t1\t2\t5\tfinal\tfail:1\t5\t0\tsplit\t\t-\t-\t-",
    "retry\t-\ta\tt\t1\t2\t5\tfinal\tfail:1\t5\t0\tsplit\tPASSED\ttext\t-\t-",
    "retry\t-\ta\tt\t1\t2\t5\tfinal\tfail:1\t5\t0\tsplit\tPASSEDx\t-\t-\t-",
    "retry\t-\ta\tt\t1\t2\t5\tfinal\tfail:1\t5\t0\tcomb\tPASSED\t\t-\t-",
    "retry\t-\ta\tt\t1\t2\t5\tfinal\tfail:1\t5\t0\tunloaded\tPASSED\t-\t-\t-",
    "retry\t-\ta\tt\t1\t2\t5\tfinal\tfail:1\t5\t0\tstart\tPASSED\t-\t-\t-",
    "retry\t-\ta\tt\t1\t2\t5\tfinal\tfail:1\t5\t0\tsplit\tPASSED\t-\t-",
    "retry\t-\ta\tt\t1\t2\t5\tfinal\tfail:1\t5\t0\tsplit\tPASSED\t-\t-\t-\tx",
];

// What was passed to a sink: how many calls, and the place and the field of each stored output of theirs.
#[derive(Drop)]
struct Passed {
    calls: u64,
    stored: Vec<(usize, usize)>,
}

impl CallSink for Passed {
    ghost takes = { λ old file number stored call result new. ⊤ };

    fn take<'a>(
        &mut self,
        _alloc: Global,
        _file: &'a str,
        _number: u64,
        stored: &[PlacedOutput],
        _call: &mut ReportCall<'_>,
    ) -> Result<(), Fault<'a>> {
        self.calls = self.calls.saturating_add(1);
        for output in stored {
            self.stored
                .push((output.place, output.field))
                .map_err(|_| Fault::OutOfMemory)?;
        }
        Ok(())
    }
}

// Reads a line where outputs are stored, or where none is. It returns what was passed on, and the fault of the line.
fn pass(
    alloc: Global,
    line: &[u8],
    is_recorded: bool,
) -> Result<(Passed, Option<(u64, LineFault)>), Fail> {
    let mut read = LinesRead::new(alloc);
    let mut texts = Vec::new(alloc);
    let mut passed = Passed {
        calls: 0,
        stored: Vec::new(alloc),
    };
    let outcome = if is_recorded {
        read.pass_recorded_line(alloc, "", line, &mut texts, &mut passed)
    } else {
        read.pass_line(alloc, "", line, &mut texts, &mut passed)
    };
    match outcome {
        Ok(()) => Ok((passed, None)),
        Err(Fault::Line { line, fault }) => Ok((passed, Some((line, fault)))),
        Err(_) => Err(Fail::from("memory")),
    }
}

#[test]
fn notes_references_of_lines(rt: HostRuntime) -> Result<(), Fail> {
    let alloc = rt.alloc();
    for &(short, places) in STORED {
        let line = short
            .replace(alloc, "PASSED", PASSED)?
            .replace(alloc, "FAILED", FAILED)?;
        let (passed, fault) = pass(alloc, line.as_str().as_bytes(), true)?;
        let is_passed = fault.is_none() && passed.calls == 1;
        expect_row(&rt, is_passed && passed.stored.as_slice() == places, short);
    }
    Ok(())
}

#[test]
fn reads_other_lines_as_those_of_a_scene(rt: HostRuntime) -> Result<(), Fail> {
    let alloc = rt.alloc();
    for &short in KEPT {
        let line = short
            .replace(alloc, "PASSED", PASSED)?
            .replace(alloc, "FAILED", FAILED)?;
        let (recorded, fault) = pass(alloc, line.as_str().as_bytes(), true)?;
        let (plain, plain_fault) = pass(alloc, line.as_str().as_bytes(), false)?;
        let is_same = fault == plain_fault && recorded.calls == plain.calls;
        expect_row(&rt, is_same && recorded.stored.is_empty(), short);
    }
    Ok(())
}

// A captured stream with these bytes; None if it was not captured.
fn assert_stream(rt: &impl Abort, stream: &Option<ChildSingleOutput>, want: Option<&[u8]>) {
    assert_eq!(rt; stream.as_ref().map(|it| it.as_bytes()), want);
}

#[test]
fn loads_outputs(rt: HostRuntime) -> Result<(), Fail> {
    let alloc = rt.alloc();
    let split: [(&str, &str, Option<&[u8]>, Option<&[u8]>, u64); 4] = [
        (PASSED, FAILED, Some(b"passed\n"), Some(b"failed\n"), 14),
        (FAILED, FAILED, Some(b"failed\n"), Some(b"failed\n"), 14),
        (FAILED, "-", Some(b"failed\n"), None, 7),
        ("", PASSED, Some(b""), Some(b"passed\n"), 7),
    ];
    for (first, second, want_stdout, want_stderr, count) in split {
        let stored = StoredOutput::read("split", first, second).ok_or("an output")?;
        let mut outputs = RecordedOutputs::new(Metered::new(OUTPUTS))?;
        match outputs.load_output(alloc, &stored) {
            Ok(ChildOutputDescription::Split { stdout, stderr }) => {
                assert_stream(&rt, &stdout, want_stdout);
                assert_stream(&rt, &stderr, want_stderr);
            }
            _ => return Err(Fail::from("two streams")),
        }
        expect_count(&rt, outputs.bytes_read(), count, first);
    }
    let stored = StoredOutput::read("comb", FAILED, "-").ok_or("an output")?;
    match RecordedOutputs::new(Metered::new(OUTPUTS))?.load_output(alloc, &stored) {
        Ok(ChildOutputDescription::Combined { output }) => {
            expect_bytes(&rt, output.as_bytes(), b"failed\n", FAILED);
        }
        _ => return Err(Fail::from("one stream")),
    }
    Ok(())
}

// References past the end of the outputs, and to bytes with another sum.
const PAST: &str = "\\@8:7:ee2a98c236301c76";

const OTHER: &str = "\\@0:7:ee2a98c236301c76";

// The form of an output and its two fields, which stream is damaged and how, and how many bytes are read.
const DAMAGED: &[(&str, &str, &str, StreamField, LoadFault, u64)] = &[
    (
        "split",
        PAST,
        PASSED,
        StreamField::First,
        LoadFault::PastEnd,
        0,
    ),
    (
        "split",
        PASSED,
        PAST,
        StreamField::Second,
        LoadFault::PastEnd,
        7,
    ),
    (
        "split",
        OTHER,
        PAST,
        StreamField::First,
        LoadFault::WrongSum,
        7,
    ),
    (
        "split",
        "-",
        OTHER,
        StreamField::Second,
        LoadFault::WrongSum,
        7,
    ),
    (
        "comb",
        OTHER,
        "-",
        StreamField::First,
        LoadFault::WrongSum,
        7,
    ),
];

#[test]
fn reports_which_stream_is_damaged(rt: HostRuntime) -> Result<(), Fail> {
    for &(form, first, second, stream, fault, count) in DAMAGED {
        let output = StoredOutput::read(form, first, second).ok_or("an output")?;
        let mut outputs = RecordedOutputs::new(Metered::new(OUTPUTS))?;
        let loaded = outputs.load_output(rt.alloc(), &output);
        expect_row(
            &rt,
            loaded.err() == Some(StreamFault { stream, fault }),
            first,
        );
        expect_count(&rt, outputs.bytes_read(), count, first);
        let placed = PlacedOutput {
            place: 0,
            field: 14,
            output,
        };
        let field = if stream == StreamField::First { 14 } else { 15 };
        expect_row(&rt, placed.field_of(stream) == field, first);
    }
    Ok(())
}

#[test]
fn a_fault_of_a_stream_has_the_words_of_its_fault(rt: HostRuntime) -> Result<(), Fail> {
    let faults = [
        (LoadFault::PastEnd, "the output lies past the end"),
        (LoadFault::WrongSum, "the output has another sum"),
        (LoadFault::OutOfMemory, "out of memory"),
    ];
    for (fault, words) in faults {
        for stream in [StreamField::First, StreamField::Second] {
            let fault = StreamFault { stream, fault };
            expect_text(&rt, fault.to_string(rt.alloc())?.as_str(), words);
        }
    }
    Ok(())
}
