//! The output of processes, by direct calls: with a highlighted part, in colour and without, and with streams that were
//! not captured.

ghost use Rattle.std.specs.Prelude.{◌≡◌, IfOk, true};
ghost use Rattle.run_model.specs.Outputs.{has_loaded_output, is_loaded};

use crate::testing::expect_text;
use bytes::Bytes;
use report_words::theme::ThemeCharacters;
use run_model::memory::OutOfMemory;
use run_model::output::{
    ChildExecutionOutputDescription, ChildOutputDescription, ChildSingleOutput, Highlight,
    HighlightStream, LiveSpec,
};
use run_model::status::ExecutionResultDescription;
use run_model::unit::UnitKind;
use std::alloc::Global;
use std::test::Fail;
use styled_text::escapes::strip;
use styled_text::style::{Style, Styles};
use unit_report::unit_output::{
    ChildOutputSpec, DisplayerKind, OutputDisplayOverrides, OutputHeader, OutputName,
    UnitOutputReporter,
};

const LIVE: DisplayerKind = DisplayerKind::Live;

const REPLAY: DisplayerKind = DisplayerKind::Replay;

// The header of a stream, as a finished test has it.
fn header(name: OutputName) -> OutputHeader {
    OutputHeader::Bars {
        style: Style::Plain,
        theme_characters: ThemeCharacters::default(),
        left: None,
        name,
        right: 3,
    }
}

// The layout of a finished test's output, with this indentation.
fn layout(output_indent: &'static str) -> ChildOutputSpec {
    ChildOutputSpec {
        kind: UnitKind::Test,
        stdout_header: header(OutputName::Stdout),
        stderr_header: header(OutputName::Stderr),
        combined_header: header(OutputName::Output),
        exec_fail_header: header(OutputName::ExecFail),
        output_indent,
    }
}

fn reporter(displayer_kind: DisplayerKind) -> UnitOutputReporter {
    UnitOutputReporter::new(OutputDisplayOverrides::default(), displayer_kind, false)
}

// Both streams of a process, captured together.
fn combined(alloc: Global, bytes: &'static [u8]) -> Result<ChildOutputDescription, OutOfMemory>
    ensures { IfOk result (λ output. is_loaded output ≡ true) }
{
    Ok(ChildOutputDescription::Combined {
        output: ChildSingleOutput::new(alloc, Bytes::from_static(bytes))?,
    })
}

// Two streams of a process; None is one that was not captured.
fn split(
    alloc: Global,
    stdout: Option<&'static [u8]>,
    stderr: Option<&'static [u8]>,
) -> Result<ChildOutputDescription, OutOfMemory>
    ensures { IfOk result (λ output. is_loaded output ≡ true) }
{
    Ok(ChildOutputDescription::Split {
        stdout: captured(alloc, stdout)?,
        stderr: captured(alloc, stderr)?,
    })
}

fn captured(
    alloc: Global,
    bytes: Option<&'static [u8]>,
) -> Result<Option<ChildSingleOutput>, OutOfMemory> {
    match bytes {
        Some(bytes) => Ok(Some(ChildSingleOutput::new(alloc, Bytes::from_static(bytes))?)),
        None => Ok(None),
    }
}

// The text of an output below its header.
fn shown(
    alloc: Global,
    is_colorized: bool,
    output_indent: &'static str,
    bytes: &'static [u8],
    highlight: Option<&Highlight>,
) -> Result<String, Fail> {
    let mut styles = Styles::default();
    if is_colorized {
        styles.colorize();
    }
    let output = combined(alloc, bytes)?;
    let spec = layout(output_indent);
    let mut out = String::new(alloc);
    reporter(LIVE).write_child_output(&styles, &spec, &output, highlight, &mut out)?;
    match out.as_str().strip_prefix("  output ---\n") {
        Some(below) => Ok(String::from_str(alloc, below)?),
        None => Err(Fail::from("the header is another one")),
    }
}

// An output, its indentation, the start of the highlighted part, that part, and the text in colour.
type Row = (
    &'static [u8],
    &'static str,
    usize,
    &'static [u8],
    &'static str,
);

// The whole output is highlighted.
const WHOLE: Row = (
    b"\np\nq\n",
    "    ",
    0,
    b"\np\nq\n",
    "    \x1b[0m\x1b[31;1m\x1b[0m\n    \x1b[31;1mp\x1b[0m\n    q\x1b[0m\n",
);

// An empty part is highlighted, at the end of the output.
const AT_THE_END: Row = (b"a\n", "", 2, b"", "a\n\x1b[0m\x1b[0m\n");

const LINES: &[u8] = b"output\nhighlight 1\nhighlight 2\nnot highlighted";

// A part of a line, a part of several lines, one that begins within a character, and bytes that are not UTF-8. A part
// that begins beyond the output is left out.
const PARTS: &[Row] = &[
    (
        b"output",
        "",
        1,
        b"utpu",
        "o\x1b[0m\x1b[31;1mutpu\x1b[0mt\x1b[0m\n",
    ),
    (b"ab\xf0\x9f\x98\x80c", "", 3, b"c", "ab\u{1f600}c\x1b[0m\n"),
    (
        LINES,
        "",
        7,
        b"highlight 1\nhighlight 2\nnot highlighted",
        "output\n\x1b[0m\x1b[31;1mhighlight 1\x1b[0m\n\x1b[31;1mhighlight 2\x1b[0m\nnot highlighted\x1b[0m\n",
    ),
    (b"\xffA", "", 1, b"A", "\u{fffd}A\x1b[0m\n"),
    (
        b"\xffA",
        "",
        3,
        b"A",
        "\u{fffd}\x1b[0m\x1b[31;1mA\x1b[0m\x1b[0m\n",
    ),
    (b"A", "", usize::MAX, b"A", "A\x1b[0m\n"),
];

fn shown_of_row(alloc: Global, is_colorized: bool, row: Row) -> Result<String, Fail> {
    let (bytes, output_indent, start, slice, _) = row;
    let highlight = Highlight {
        stream: HighlightStream::Combined,
        start,
        slice: Bytes::from_static(slice),
    };
    shown(alloc, is_colorized, output_indent, bytes, Some(&highlight))
}

#[test]
fn a_part_pointed_out_in_colour(rt: HostRuntime) -> Result<(), Fail> {
    for row in [WHOLE, AT_THE_END] {
        expect_text(&rt, shown_of_row(rt.alloc(), true, row)?.as_str(), row.4);
    }
    for &row in PARTS {
        expect_text(&rt, shown_of_row(rt.alloc(), true, row)?.as_str(), row.4);
    }
    Ok(())
}

// The text of a row in colour, without its sequences.
fn visible(alloc: Global, row: Row) -> Result<String, Fail> {
    let coloured = shown_of_row(alloc, true, row)?;
    Ok(strip(alloc, coloured.as_str())?)
}

// Whether two texts are equal but for spaces at the ends of their lines.
fn is_equal_but_end_spaces(left: &str, right: &str) -> bool {
    let mut others = right.split('\n');
    for line in left.split('\n') {
        let Some(other) = others.next() else {
            return false;
        };
        if line.trim_end_matches(' ') != other.trim_end_matches(' ') {
            return false;
        }
    }
    others.next().is_none()
}

#[test]
fn what_is_visible_in_colour(rt: HostRuntime) -> Result<(), Fail> {
    let plain = shown_of_row(rt.alloc(), false, WHOLE)?;
    let visible_one = visible(rt.alloc(), WHOLE)?;
    expect_text(&rt, plain.as_str(), "\n    p\n    q\n");
    expect_text(&rt, visible_one.as_str(), "    \n    p\n    q\n");
    assert!(rt; is_equal_but_end_spaces(visible_one.as_str(), plain.as_str()));
    Ok(())
}

// A part that ends the output adds a line in colour.
#[test]
fn what_is_visible_after_a_part_at_the_end(rt: HostRuntime) -> Result<(), Fail> {
    let plain = shown_of_row(rt.alloc(), false, AT_THE_END)?;
    let visible_one = visible(rt.alloc(), AT_THE_END)?;
    expect_text(&rt, plain.as_str(), "a\n");
    expect_text(&rt, visible_one.as_str(), "a\n\n");
    assert!(rt; !is_equal_but_end_spaces(visible_one.as_str(), plain.as_str()));
    Ok(())
}

// Without colour there are no escape sequences, not even one that does not end in its line.
#[test]
fn an_unfinished_sequence(rt: HostRuntime) -> Result<(), Fail> {
    let plain = shown(rt.alloc(), false, "", b"x\x1b]8;;\ny", None)?;
    expect_text(&rt, plain.as_str(), "x\ny\n");
    Ok(())
}

#[test]
fn streams_that_were_not_captured(rt: HostRuntime) -> Result<(), Fail> {
    let written: Option<&'static [u8]> = Some(b"stdout output\n");
    for (displayer_kind, stdout, want) in [
        (LIVE, None, ""),
        (REPLAY, None, "    (output not captured)\n"),
        (LIVE, written, "  stdout ---\n    stdout output\n"),
        (
            REPLAY,
            written,
            "  stdout ---\n    stdout output\n    (stderr not captured)\n",
        ),
    ] {
        let (styles, spec) = (Styles::default(), layout("    "));
        let output = split(rt.alloc(), stdout, None)?;
        let mut out = String::new(rt.alloc());
        reporter(displayer_kind).write_child_output(&styles, &spec, &output, None, &mut out)?;
        expect_text(&rt, out.as_str(), want);
    }
    Ok(())
}

// The output of a test that passed, with nothing captured of standard output.
fn passed_without_stdout(
    alloc: Global,
) -> Result<ChildExecutionOutputDescription<LiveSpec>, OutOfMemory>
    ensures { IfOk result (λ output. has_loaded_output output ≡ true) }
{
    Ok(ChildExecutionOutputDescription::Output {
        result: Some(ExecutionResultDescription::Pass),
        output: split(alloc, None, Some(b"stderr output\n"))?,
        errors: None,
        highlight: None,
    })
}

#[test]
fn an_attempt_without_its_standard_output(rt: HostRuntime) -> Result<(), Fail> {
    for (displayer_kind, want) in [
        (LIVE, "  stderr ---\n    stderr output\n\n"),
        (
            REPLAY,
            "    (stdout not captured)\n  stderr ---\n    stderr output\n\n",
        ),
    ] {
        let (styles, spec) = (Styles::default(), layout("    "));
        let output = passed_without_stdout(rt.alloc())?;
        let mut out = String::new(rt.alloc());
        reporter(displayer_kind).write_child_execution_output(&styles, &spec, &output, &mut out)?;
        expect_text(&rt, out.as_str(), want);
    }
    Ok(())
}
