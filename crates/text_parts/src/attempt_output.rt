//! The output of a finished attempt or of a setup script, and how it ended.

ghost use Rattle.std.specs.Prelude.{◌≡◌, true};
ghost use Rattle.{run_model.specs.Outputs.has_loaded_output, writers.specs.Writer.Puts, report_words.specs.Parts.paint};
ghost use Rattle.text_parts.specs.Names.{layout_of, attempt_output, exec_fail_header, finished_layout};
ghost use Rattle.text_parts.specs.Names.{has_info_after_failure, has_info_line, info_line_start, layout_in};
ghost use Rattle.text_parts.specs.Names.{output_margin, result_style, script_output, stream_header, unit_output};

use crate::info_result::InfoResult;
use crate::settings::Settings;
use report_text::helpers::ThemeCharacters;
use run_model::output::{ChildExecutionOutputDescription, LiveSpec};
use run_model::status::{
    ExecutionResultDescription, FailureDescription, LeakTimeoutResult, SlowTimeoutResult,
};
use run_model::unit::UnitKind;
use styled_text::style::{Style, Styles};
use unit_report::unit_output::{ChildOutputSpec, OutputHeader, OutputName};
use writers::text::{When, WriteText};
use writers::write_str::{WriteFault, WriteStr};

/// Writes the output of an attempt with this result, and how it ended if nextest has a line for that.
///
/// `is_retry` says that another attempt follows. The output must be loaded.
///
/// ```
/// let failed = ExecuteStatus::failed(1, time);
/// write_test_execute_status(&mut out, &settings, false, &failed.result, &failed.output)?;
/// assert!(out.as_str().ends_with("    (test failed with exit code 1)\n\n"));
/// ```
///
/// # Errors
///
/// The writer's fault. It has accepted a prefix of the text.
pub fn write_test_execute_status<W: WriteStr>(
    w: &mut W,
    settings: &Settings,
    is_retry: bool,
    outcome: &ExecutionResultDescription,
    output: &ChildExecutionOutputDescription<LiveSpec>,
) -> Result<(), WriteFault>
    requires { has_loaded_output output.now ≡ true }
    ensures { Puts W.meaning w.old
        (paint settings.now.styles (attempt_output settings.now is_retry outcome.now output.now)) result w.new }
{
    let kind = UnitKind::Test;
    write_unit_execute_status(w, settings, kind, is_retry, outcome, output)
}

/// Writes the output of a setup script with this result, and how it ended if nextest has a line for that. The output
/// must be loaded.
///
/// # Errors
///
/// The writer's fault. It has accepted a prefix of the text.
pub fn write_setup_script_execute_status<W: WriteStr>(
    w: &mut W,
    settings: &Settings,
    outcome: &ExecutionResultDescription,
    output: &ChildExecutionOutputDescription<LiveSpec>,
) -> Result<(), WriteFault>
    requires { has_loaded_output output.now ≡ true }
    ensures { Puts W.meaning w.old (paint settings.now.styles (script_output settings.now outcome.now output.now))
        result w.new }
{
    let kind = UnitKind::Script;
    write_unit_execute_status(w, settings, kind, false, outcome, output)
}

// Writes the output of a unit, either an attempt of a test or a setup script.
#[tactic(auto, unfolding(crate::specs::AttemptOutput::unit_output, crate::specs::AttemptOutput::info_line, crate::specs::AttemptOutput::shown_info_line))]
fn write_unit_execute_status<W: WriteStr>(
    w: &mut W,
    settings: &Settings,
    kind: UnitKind,
    is_retry: bool,
    outcome: &ExecutionResultDescription,
    output: &ChildExecutionOutputDescription<LiveSpec>,
) -> Result<(), WriteFault>
    requires { has_loaded_output output.now ≡ true }
    ensures { Puts W.meaning w.old
        (paint settings.now.styles (unit_output settings.now kind is_retry outcome.now output.now)) result w.new }
{
    let spec = output_spec_for_finished(settings, kind, outcome, is_retry);
    settings
        .unit_output
        .write_child_execution_output(&settings.styles, &spec, output, w)?;
    let info = InfoResult {
        styles: &settings.styles,
        // A pass has no such line, so none was slow.
        is_slow: false,
        outcome,
    };
    let line = (info_line_start(kind), info, ")\n\n");
    When(show_finished_status_info_line(outcome), line).write_to(w)
}

// The start of the line that repeats the result. It calls a benchmark a test, too.
#[tactic(auto, unfolding(crate::specs::Words::info_line_start))]
fn info_line_start(kind: UnitKind) -> &'static str
    ensures { result.now ≡ info_line_start kind }
{
    match kind {
        UnitKind::Test => "    (test ",
        UnitKind::Script => "    (script ",
    }
}

// Whether the result is repeated after the output.
fn show_finished_status_info_line(outcome: &ExecutionResultDescription) -> bool
    ensures { result ≡ has_info_line outcome.now }
{
    match outcome {
        ExecutionResultDescription::Leak { .. } | ExecutionResultDescription::Timeout { .. } =>
            true,
        ExecutionResultDescription::Fail { failure, leaked } => shows_failure(failure, *leaked),
        ExecutionResultDescription::Pass | ExecutionResultDescription::ExecFail => false,
    }
}

// Whether a failure is repeated: not that of a panic, which exits with code 101, nor a code if handles were left open.
fn shows_failure(failure: &FailureDescription, leaked: bool) -> bool
    ensures { result ≡ has_info_after_failure failure.now leaked }
{
    match failure {
        FailureDescription::ExitCode { code } => *code != 101 && !leaked,
        FailureDescription::Abort { .. } => true,
    }
}

fn output_spec_for_finished(
    settings: &Settings,
    kind: UnitKind,
    outcome: &ExecutionResultDescription,
    is_retry: bool,
) -> ChildOutputSpec
    ensures { layout_of result ≡ finished_layout settings.now kind outcome.now is_retry }
{
    let style = if is_retry {
        settings.styles.retry
    } else {
        result_style(&settings.styles, outcome)
    };
    spec_in(
        kind,
        settings.no_output_indent,
        settings.theme_characters,
        style,
    )
}

// The layout with headers in this style. With `no_output_indent` output has no margin.
fn spec_in(
    kind: UnitKind,
    no_output_indent: bool,
    theme_characters: ThemeCharacters,
    style: Style,
) -> ChildOutputSpec
    ensures { layout_of result ≡ layout_in kind no_output_indent theme_characters style }
{
    let stdout = OutputName::Stdout;
    let stderr = OutputName::Stderr;
    let combined = OutputName::Output;
    ChildOutputSpec {
        kind,
        stdout_header: stream_header(no_output_indent, theme_characters, style, stdout),
        stderr_header: stream_header(no_output_indent, theme_characters, style, stderr),
        combined_header: stream_header(no_output_indent, theme_characters, style, combined),
        exec_fail_header: exec_fail_header(no_output_indent, theme_characters, style),
        output_indent: output_margin(no_output_indent),
    }
}

fn output_margin(no_output_indent: bool) -> &'static str
    ensures { result.now ≡ output_margin no_output_indent }
{
    if no_output_indent { "" } else { "    " }
}

// The header of a stream: between bars, or a space and a longer bar.
fn stream_header(
    no_output_indent: bool,
    theme_characters: ThemeCharacters,
    style: Style,
    name: OutputName,
) -> OutputHeader
    ensures { result ≡ stream_header no_output_indent theme_characters style name }
{
    let (left, right) = if no_output_indent {
        (Some(2), 2)
    } else {
        (None, 3)
    };
    OutputHeader::Bars {
        style,
        theme_characters,
        left,
        name,
        right,
    }
}

// The header of errors, whose name is longer.
fn exec_fail_header(
    no_output_indent: bool,
    theme_characters: ThemeCharacters,
    style: Style,
) -> OutputHeader
    ensures { result ≡ exec_fail_header no_output_indent theme_characters style }
{
    let left = if no_output_indent { Some(1) } else { None };
    OutputHeader::Bars {
        style,
        theme_characters,
        left,
        name: OutputName::ExecFail,
        right: 1,
    }
}

fn result_style(styles: &Styles, outcome: &ExecutionResultDescription) -> Style
    ensures { result ≡ result_style styles.now outcome.now }
{
    match outcome {
        ExecutionResultDescription::Pass => styles.pass,
        ExecutionResultDescription::Leak {
            result: LeakTimeoutResult::Pass,
        }
        | ExecutionResultDescription::Timeout {
            result: SlowTimeoutResult::Pass,
        } => styles.skip,
        ExecutionResultDescription::Leak {
            result: LeakTimeoutResult::Fail,
        }
        | ExecutionResultDescription::Fail { .. }
        | ExecutionResultDescription::ExecFail
        | ExecutionResultDescription::Timeout {
            result: SlowTimeoutResult::Fail,
        } => styles.fail,
    }
}
