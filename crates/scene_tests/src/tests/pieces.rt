//! Scenes that are longer than one read of a file.

use super::{OPTIONS, report_and_store};
use command_line::args::Options;
use command_line::fault::{Fault, LineFault};
use run_model::level::StatusLevel;
use scene_reader::reader::LARGE;
use std::alloc::{AllocError, Global};
use std::test::Fail;

// The number of lines before the long line, and of those after it: enough for a read to end among each.
const LINES: usize = 1500;

const SHOWING_SKIPS: Options<'static> = Options {
    status_level: StatusLevel::Skip,
    ..OPTIONS
};

/// Pushes a text `count` times.
pub fn push_often(to: &mut String, text: &str, count: usize) -> Result<(), AllocError> {
    for _ in 0..count {
        to.push_str(text)?;
    }
    Ok(())
}

// The text LINES times, then `inner`, then the text LINES times again.
fn enclosed(alloc: Global, text: &str, inner: &str) -> Result<String, AllocError> {
    let mut whole = String::new(alloc);
    push_often(&mut whole, text, LINES)?;
    whole.push_str(inner)?;
    push_often(&mut whole, text, LINES)?;
    Ok(whole)
}

// The report of a scene, or the number and the fault of its wrong line.
fn report_or_fault(
    alloc: Global,
    options: &Options<'static>,
    text: &str,
) -> Result<Result<Vec<u8>, (u64, LineFault)>, Fail> {
    let writers = (Vec::new(alloc), Vec::new(alloc));
    let (outcome, printed, _) = report_and_store(
        alloc,
        options,
        text.as_bytes(),
        writers.0,
        writers.1,
    );
    match outcome {
        Ok(()) => Ok(Ok(printed)),
        Err(Fault::Line { line, fault }) => Ok(Err((line, fault))),
        Err(fault) => Err(Fail::from(fault)),
    }
}

// Whether a scene has this report.
fn has_report(
    alloc: Global,
    options: &Options<'static>,
    text: &str,
    report: &str,
) -> Result<bool, Fail> {
    match report_or_fault(alloc, options, text)? {
        Ok(printed) => Ok(printed.as_slice() == report.as_bytes()),
        Err(_) => Ok(false),
    }
}

// A test whose output spans several reads, between skipped tests.
fn long_scene(alloc: Global) -> Result<String, AllocError> {
    let mut done = String::from_str(
        alloc,
        "\ndone\t-\ta\tt1\tnever\tnever\tpass\t-\t1\tpass\t5000000\t0\tsplit\t",
    )?;
    push_often(&mut done, "y", 40_000)?;
    done.push_str("\t\t-\t-")?;
    enclosed(alloc, "\nskip\t-\ta\tt1", done.as_str())
}

#[test]
fn each_line_is_read_once(rt: HostRuntime) -> Result<(), Fail> {
    let alloc = rt.alloc();
    let (skip, pass) = (
        "        SKIP [         ] a t1\n",
        "        PASS [   0.005s] a t1\n",
    );
    let report = enclosed(alloc, skip, pass)?;
    let lines = long_scene(alloc)?;
    let mut comment = String::from_str(alloc, "#")?;
    // The comment shifts where each read ends.
    for _ in 0..14 {
        comment.push('x')?;
        let mut text = String::from_str(alloc, comment.as_str())?;
        text.push_str(lines.as_str())?;
        text.push('\n')?;
        assert!(rt; has_report(alloc, &SHOWING_SKIPS, text.as_str(), report.as_str())?);
        text.push_str("wrong")?;
        let outcome = report_or_fault(alloc, &SHOWING_SKIPS, text.as_str())?;
        assert!(rt; outcome.err() == Some((2 * LINES as u64 + 3, LineFault::UnknownEvent)));
    }
    Ok(())
}

// The line of a failed test, up to its output.
const FAILED: &str =
    "done\t-\ta\tt1\tnever\timmediate\tpass\tinitial=1 finished=1 failed=1\t1\tfail:1\t5000000\t0\t";

// The fields before a large text and those after it, and the header above it in the report. The text is standard
// output, standard error, both together, an error, or why the test did not start.
const PLACES: &[(&str, &str, &str)] = &[
    ("split\t", "\t\t-\t-", "-- stdout --"),
    ("split\t-\t", "\t-\t-", "-- stderr --"),
    ("comb\t", "\t-\t-\t-", "-- output --"),
    ("split\t\t\t", "\t-", "- execfail -"),
    ("start\t", "\t-\t-\t-", "- execfail -"),
];

/// The line of a failed test with a large text between these fields: `repeated`, LARGE times. Before it is a line of
/// `config` that turns indentation off.
pub fn large_line(
    alloc: Global,
    before: &str,
    repeated: &str,
    after: &str,
) -> Result<String, AllocError> {
    let mut line = String::from_str(alloc, "config\tnoindent\t1\n")?;
    line.push_str(FAILED)?;
    line.push_str(before)?;
    push_often(&mut line, repeated, LARGE)?;
    line.push_str(after)?;
    Ok(line)
}

// The report of a line of `large_line`: its text is `shown`, LARGE times, below this header.
fn report_of_large(alloc: Global, header: &str, shown: &str) -> Result<String, AllocError> {
    let mut report = String::from_str(alloc, "        FAIL [   0.005s] a t1\n")?;
    report.push_str(header)?;
    report.push_str("\n")?;
    push_often(&mut report, shown, LARGE)?;
    report.push_str("\n\n    (test failed with exit code 1)\n\n")?;
    Ok(report)
}

// Texts as a scene writes them, and as the report shows them.
const TEXTS: &[(&str, &str)] = &[
    ("y", "y"),
    ("some \\x77ords, ", "some words, "),
    ("a\\t\\\\\u{fc}", "a\t\\\u{fc}"),
];

#[test]
fn a_large_output_is_read_whole(rt: HostRuntime) -> Result<(), Fail> {
    let alloc = rt.alloc();
    for &(before, after, header) in PLACES {
        for &(repeated, shown) in TEXTS {
            let line = large_line(alloc, before, repeated, after)?;
            let report = report_of_large(alloc, header, shown)?;
            assert!(rt; has_report(alloc, &OPTIONS, line.as_str(), report.as_str())?);
        }
        for wrong in ["y\\q", "y\\x4"] {
            let line = large_line(alloc, before, wrong, after)?;
            assert!(rt; report_or_fault(alloc, &OPTIONS, line.as_str())?.is_err());
        }
    }
    Ok(())
}
