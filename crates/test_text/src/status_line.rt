//! The line of a finished test, as it is shown during the run and in the summary.

ghost use Rattle.std.specs.Prelude.{◌≡◌, ◌++◌, codes};
ghost use Rattle.styled_text.specs.Names.{OnTrue, Puts, plain, styled, right_in};
ghost use Rattle.{run_model.specs.Statuses.described_summary, text_parts.specs.ResultWords.long_failure_word};
ghost use Rattle.{text_parts.specs.ResultWords.long_word};
ghost use Rattle.report_words.specs.Parts.{paint, style_of};
ghost use Rattle.test_text.specs.StatusLine.{is_final_line, shown_summary, flaky_tone, failure_words};
ghost use Rattle.test_text.specs.Words.{flaky_words};
ghost use Rattle.test_text.specs.StatusLine.{success_text, is_flaky_failure, status_prefix, flaky_note};
ghost use Rattle.test_text.specs.StatusLine.{flaky_failure_line, status_line};

use crate::attempt::Try;
use itoa::Buffer;
use run_model::output::OutputSpec;
use run_model::status::{
    ExecutionDescription, ExecutionResultDescription, FailureDescription, FlakyResult, RetryData,
    StatusCase, StatusSummary,
};
use run_model::time::Nanos;
use styled_text::style::{Style, Styles};
use styled_text::text::{Aligned, Painted, Toned};
use text_parts::abort_line::write_abort_line;
use text_parts::instance::{CountedInstance, write_instance};
use text_parts::result_words::{
    is_plain_success, spaced_short_status_str, status_str, success_str,
};
use unit_report::formatters::DisplayBracketedDuration;
use writers::text::{Decimal, WriteText};
use writers::write_str::{WriteFault, WriteStr};

/// Where the line of a finished test is shown.
#[derive(Clone, Copy, Debug, PartialEq, Eq)]
pub enum StatusLineKind {
    /// During the run.
    Intermediate,
    /// In the summary.
    Final,
}

impl StatusLineKind {
    /// Whether it is a line of the summary.
    pub fn is_final_line(self) -> bool
        ensures { result ≡ is_final_line self }
    {
        match self {
            StatusLineKind::Intermediate => false,
            StatusLineKind::Final => true,
        }
    }
}

/// What the line of a finished test shows of its attempts.
#[derive(Clone, Copy)]
pub struct StatusLine<'b> {
    /// The outcome of the attempts.
    pub case: StatusCase,
    /// Which attempt was the last.
    pub retry_data: RetryData,
    /// How the last attempt ended.
    pub result: &'b ExecutionResultDescription,
    /// How long the last attempt ran.
    pub time_taken: Nanos,
    /// Whether the last attempt was marked as slow.
    pub is_slow: bool,
}

impl<'b> StatusLine<'b> {
    /// The line of a summary.
    pub fn of_summary(summary: &'b StatusSummary) -> StatusLine<'b>
        ensures { shown_summary result ≡ summary.now }
    {
        StatusLine {
            case: summary.case,
            retry_data: summary.retry_data,
            result: &summary.result,
            time_taken: summary.time_taken,
            is_slow: summary.is_slow,
        }
    }

    /// The line of described attempts, which is that of their summary.
    pub fn of_description<S: OutputSpec>(describe: &ExecutionDescription<'b, S>) -> StatusLine<'b>
        ensures { shown_summary result ≡ described_summary describe.now }
    {
        let last = describe.last_status();
        StatusLine {
            case: describe.case(),
            retry_data: last.retry_data,
            result: &last.result,
            time_taken: last.time_taken,
            is_slow: last.is_slow,
        }
    }
}

/// Writes the line of a finished test.
///
/// ```
/// let line = StatusLine::of_description(&statuses.describe());
/// let shown = settings.padded_instance(None, test.as_ref());
/// write_status_line(&mut out, &styles, StatusLineKind::Final, &shown, line)?;
/// assert_eq!(out.as_str(), "        PASS [   0.020s] alpha t1\n");
/// ```
///
/// # Errors
///
/// The writer's fault. It has accepted a prefix of the text.
#[inline(always)]
pub fn write_status_line<W: WriteStr>(
    w: &mut W,
    styles: &Styles,
    kind: StatusLineKind,
    test: &CountedInstance<'_>,
    line: StatusLine<'_>,
) -> Result<(), WriteFault>
    ensures { Puts W.meaning w.old (paint styles.now (status_line kind test.now (shown_summary line.entry))) result
        w.new }
{
    write_line(w, styles, kind, test, &line)
}

// Like `write_status_line`, with the line by reference.
#[tactic(auto, unfolding(crate::specs::StatusLine::status_line))]
fn write_line<W: WriteStr>(
    w: &mut W,
    styles: &Styles,
    kind: StatusLineKind,
    test: &CountedInstance<'_>,
    line: &StatusLine<'_>,
) -> Result<(), WriteFault>
    ensures { Puts W.meaning w.old (paint styles.now (status_line kind test.now (shown_summary line.now))) result
        w.new }
{
    write_status_prefix(w, styles, kind, line)?;
    DisplayBracketedDuration(line.time_taken).write_to(w)?;
    write_instance(w, styles, test)?;
    "\n".write_to(w)?;
    write_abort_line(w, styles, line.result)?;
    write_flaky_failure_line(w, styles, kind, line.case)
}

#[tactic(auto, unfolding(crate::specs::StatusLine::status_prefix))]
fn write_status_prefix<W: WriteStr>(
    w: &mut W,
    styles: &Styles,
    kind: StatusLineKind,
    line: &StatusLine<'_>,
) -> Result<(), WriteFault>
    ensures { Puts W.meaning w.old (paint styles.now (status_prefix kind (shown_summary line.now))) result w.new }
{
    match line.case {
        StatusCase::Success => {
            write_success_word(w, styles, kind.is_final_line() && line.is_slow, line.result)
        }
        StatusCase::Flaky { result } => {
            write_flaky_word(w, styles, kind, result, line.retry_data)?;
            " ".write_to(w)
        }
        StatusCase::Failure => {
            write_failure_word(w, styles, line.retry_data.attempt, line.result)
        }
    }
}

fn write_success_word<W: WriteStr>(
    w: &mut W,
    styles: &Styles,
    is_slow: bool,
    outcome: &ExecutionResultDescription,
) -> Result<(), WriteFault>
    ensures { Puts W.meaning w.old (paint styles.now (success_text is_slow outcome.now) ++ plain (codes " ")) result
        w.new }
{
    match outcome {
        // Most tests pass: their word is a constant, with its padding.
        ExecutionResultDescription::Pass if !is_slow => {
            write_word(w, styles.pass, "        PASS", "        PASS ")
        }
        _ => {
            let word = success_str(is_slow, outcome);
            if is_plain_success(is_slow, outcome) {
                Painted(styles.pass, Aligned(12, word)).write_to(w)?;
            } else {
                Painted(styles.skip, Aligned(12, word)).write_to(w)?;
            }
            " ".write_to(w)
        }
    }
}

// Writes a constant word with its padding, and a space. Without colour they are one text.
#[inline(always)]
#[tactic(auto, unfolding(styled_text::specs::Style::styled, styled_text::specs::Style::plain))]
fn write_word<W: WriteStr>(
    w: &mut W,
    style: Style,
    word: &str,
    spaced_word: &str,
) -> Result<(), WriteFault>
    requires { spaced_word.now ≡ word.now ++ codes " " }
    ensures { Puts W.meaning w.old (styled style word.now ++ plain (codes " ")) result w.new }
{
    if style == Style::Plain {
        return w.write_str(spaced_word);
    }
    style.write(w, word)?;
    " ".write_to(w)
}

fn write_flaky_word<W: WriteStr>(
    w: &mut W,
    styles: &Styles,
    kind: StatusLineKind,
    flaky_result: FlakyResult,
    retry_data: RetryData,
) -> Result<(), WriteFault>
    ensures { Puts W.meaning w.old
        (styled (style_of styles.now (flaky_tone flaky_result))
        (right_in 12 (flaky_words kind flaky_result retry_data)))
        result w.new }
{
    let (style, label) = match flaky_result {
        FlakyResult::Pass => (styles.skip, "FLAKY "),
        FlakyResult::Fail => (styles.fail, "FLKY-FL "),
    };
    match kind {
        StatusLineKind::Intermediate => Try {
            style,
            attempt: retry_data.attempt,
            word: "PASS",
        }
        .write_to(w),
        StatusLineKind::Final => {
            let attempt = Decimal(retry_data.attempt as u128);
            let total = Decimal(retry_data.total_attempts as u128);
            Painted(style, Aligned(12, (label, attempt, "/", total))).write_to(w)
        }
    }
}

fn write_failure_word<W: WriteStr>(
    w: &mut W,
    styles: &Styles,
    attempt: u32,
    failed: &ExecutionResultDescription,
) -> Result<(), WriteFault>
    ensures { Puts W.meaning w.old
        (styled styles.now.fail (right_in 12 (failure_words attempt failed.now)) ++ plain (codes " ")) result w.new }
{
    if is_plain_failure(attempt, failed) {
        return write_word(w, styles.fail, "        FAIL", "        FAIL ");
    }
    write_other_failure(w, styles, attempt, failed)?;
    " ".write_to(w)
}

// Whether the word is plain `FAIL`, which is a constant.
fn is_plain_failure(attempt: u32, failed: &ExecutionResultDescription) -> bool
    ensures { OnTrue result (failure_words attempt failed.now ≡ codes "FAIL") }
{
    attempt == 1 && is_plain_fail(failed)
}

#[tactic(auto, unfolding(text_parts::specs::ResultWords::long_word))]
fn is_plain_fail(failed: &ExecutionResultDescription) -> bool
    ensures { OnTrue result (long_word failed.now ≡ codes "FAIL") }
{
    match failed {
        ExecutionResultDescription::Fail { failure, leaked } => is_plain_exit(failure, *leaked),
        _ => false,
    }
}

fn is_plain_exit(failure: &FailureDescription, leaked: bool) -> bool
    ensures { OnTrue result (long_failure_word failure.now leaked ≡ codes "FAIL") }
{
    match failure {
        FailureDescription::ExitCode { .. } => !leaked,
        FailureDescription::Abort { .. } => false,
    }
}

fn write_other_failure<W: WriteStr>(
    w: &mut W,
    styles: &Styles,
    attempt: u32,
    failed: &ExecutionResultDescription,
) -> Result<(), WriteFault>
    ensures { Puts W.meaning w.old (styled styles.now.fail (right_in 12 (failure_words attempt failed.now))) result
        w.new }
{
    let mut signal = Buffer::new();
    if attempt == 1 {
        let word = status_str(failed, &mut signal);
        return Painted(styles.fail, Aligned(12, (word.front, word.back))).write_to(w);
    }
    let word = spaced_short_status_str(failed, &mut signal);
    let words = ("TRY ", Decimal(attempt as u128), word.front, word.back);
    Painted(styles.fail, Aligned(12, words)).write_to(w)
}

#[tactic(auto, unfolding(crate::specs::StatusLine::flaky_failure_line))]
#[inline(always)]
fn write_flaky_failure_line<W: WriteStr>(
    w: &mut W,
    styles: &Styles,
    kind: StatusLineKind,
    case: StatusCase,
) -> Result<(), WriteFault>
    ensures { Puts W.meaning w.old (paint styles.now (flaky_failure_line kind case)) result w.new }
{
    match kind {
        StatusLineKind::Intermediate => {
            if is_flaky_failure(case) {
                write_flaky_note(w, styles)
            } else {
                Ok(())
            }
        }
        StatusLineKind::Final => Ok(()),
    }
}

#[tactic(auto, unfolding(crate::specs::StatusLine::flaky_note))]
fn write_flaky_note<W: WriteStr>(w: &mut W, styles: &Styles) -> Result<(), WriteFault>
    ensures { Puts W.meaning w.old (paint styles.now flaky_note) result w.new }
{
    let configured = "           - test configured to ";
    (configured, Toned(styles.fail, "fail"), " if flaky\n").write_to(w)
}

// Whether a success counts as a failure because it came after earlier attempts.
#[inline(always)]
fn is_flaky_failure(case: StatusCase) -> bool
    ensures { result ≡ is_flaky_failure case }
{
    match case {
        StatusCase::Success => false,
        StatusCase::Flaky { result } => result == FlakyResult::Fail,
        StatusCase::Failure => false,
    }
}
