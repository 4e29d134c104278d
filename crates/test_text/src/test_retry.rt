//! A failed attempt that is retried.

ghost use Rattle.std.specs.Prelude.{◌≡◌, true};
ghost use Rattle.styled_text.specs.Names.{styled, right_in, Puts};
ghost use Rattle.{report_words.specs.Parts.paint, test_text.specs.Words.attempt_words};
ghost use Rattle.test_text.specs.TestRetry.{HasFailedAttemptOutput, attempt_failed_text, failed_output};
ghost use Rattle.test_text.specs.Words.{delay_words};
ghost use Rattle.test_text.specs.TestRetry.{is_failed_output_shown};
ghost use Rattle.{text_parts.specs.Names.is_level_shown, text_parts.specs.Names.short_word};
ghost use Rattle.{run_names.specs.declared.level.StatusLevel.TheVariants.Retry};

use itoa::Buffer;
use run_model::config::TestOutputDisplay;
use run_model::level::StatusLevel;
use run_model::name::TestInstanceId;
use run_model::output::LiveSpec;
use run_model::status::{ExecuteStatus, ExecutionResultDescription, RetryData};
use run_model::stress::StressIndex;
use run_model::time::Nanos;
use styled_text::style::Style;
use styled_text::text::{Aligned, Painted};
use text_parts::attempt_output::write_test_execute_status;
use text_parts::instance::InstanceEnd;
use text_parts::result_words::spaced_short_status_str;
use text_parts::settings::Settings;
use unit_report::formatters::{DisplayBracketedDuration, DisplayDurationBy};
use writers::text::{Decimal, When, WriteText};
use writers::write_str::{WriteFault, WriteStr};

/// Writes that an attempt has failed and is retried, if such attempts are shown: its line, its output if
/// that is shown immediately, and how long the next attempt waits. Output that is shown must be loaded.
///
/// ```
/// let first = RetryData { attempt: 1, total_attempts: 3 };
/// let attempt = ExecuteStatus::failed(1, Nanos::from_millis(500)).with_retry_data(first);
/// let (delay, display) = (Nanos::from_secs(1), TestOutputDisplay::Never);
/// write_attempt_failed(&mut out, &settings, None, test.as_ref(), &attempt, delay, display)?;
/// assert_eq!(out.as_str(), "  TRY 1 FAIL [   0.500s] alpha t1\n   DELAY 2/3 by   1.000s alpha t1\n");
/// ```
///
/// # Errors
///
/// The writer's fault. It has accepted a prefix of the text.
#[tactic(auto, unfolding(crate::specs::TestRetry::attempt_failed_text, crate::specs::TestRetry::attempt_failed_line, crate::specs::TestRetry::delay_line))]
pub fn write_attempt_failed<W: WriteStr>(
    w: &mut W,
    settings: &Settings,
    stress_index: Option<StressIndex>,
    instance: TestInstanceId<'_>,
    run_status: &ExecuteStatus<LiveSpec>,
    delay_before_next_attempt: Nanos,
    failure_output: TestOutputDisplay,
) -> Result<(), WriteFault>
    requires { is_level_shown settings.now Retry ≡ true
        → HasFailedAttemptOutput settings.now run_status.now failure_output }
    ensures { Puts W.meaning w.old
        (paint settings.now.styles
        (attempt_failed_text settings.now stress_index instance.entry run_status.now
        delay_before_next_attempt.0 failure_output))
        result w.new }
{
    if !settings.is_level_shown(StatusLevel::Retry) {
        return Ok(());
    }
    let test = settings.padded_instance(stress_index, instance);
    let styles = &settings.styles;
    let end = InstanceEnd(styles, &test);
    let retry_data = run_status.retry_data;
    let word = AttemptWord {
        style: styles.retry,
        attempt: retry_data.attempt,
        failed: &run_status.result,
    };
    let line = (
        word,
        " ",
        DisplayBracketedDuration(run_status.time_taken),
        end,
    );
    line.write_to(w)?;
    write_failed_output(w, settings, run_status, failure_output)?;
    let delay = (
        DelayWord(styles.retry, retry_data),
        " ",
        DisplayDurationBy(delay_before_next_attempt),
        end,
    );
    When(delay_before_next_attempt.0 != 0, delay).write_to(w)
}

// How an attempt ended, after its number.
#[derive(Clone, Copy)]
struct AttemptWord<'a> {
    style: Style,
    attempt: u32,
    failed: &'a ExecutionResultDescription,
}

impl WriteText for AttemptWord<'_> {
    ghost text = { λ a. styled a.style (right_in 12 (attempt_words a.attempt (short_word a.failed.now))) };

    fn write_to<W: WriteStr>(&self, w: &mut W) -> Result<(), WriteFault> {
        let mut signal = Buffer::new();
        let word = spaced_short_status_str(self.failed, &mut signal);
        let words = ("TRY ", Decimal(self.attempt as u128), word.front, word.back);
        Painted(self.style, Aligned(12, words)).write_to(w)
    }
}

#[tactic(auto, unfolding(crate::specs::TestRetry::failed_output))]
fn write_failed_output<W: WriteStr>(
    w: &mut W,
    settings: &Settings,
    run_status: &ExecuteStatus<LiveSpec>,
    failure_output: TestOutputDisplay,
) -> Result<(), WriteFault>
    requires { HasFailedAttemptOutput settings.now run_status.now failure_output }
    ensures { Puts W.meaning w.old
        (paint settings.now.styles (failed_output settings.now run_status.now failure_output)) result w.new }
{
    if !shows_failed_output(settings, failure_output) {
        return Ok(());
    }
    write_test_execute_status(w, settings, true, &run_status.result, &run_status.output)
}

// Whether the output of a failed attempt is shown immediately: by the setting for failures, also if the test could
// not be started.
#[tactic(auto, unfolding(crate::specs::TestRetry::is_failed_output_shown))]
fn shows_failed_output(settings: &Settings, failure_output: TestOutputDisplay) -> bool
    ensures { result ≡ is_failed_output_shown settings.now failure_output }
{
    settings
        .unit_output
        .overrides()
        .failure_output(failure_output)
        .is_immediate()
}

// The number of the next attempt.
#[derive(Clone, Copy)]
struct DelayWord(Style, RetryData);

impl WriteText for DelayWord {
    ghost text = { λ d. styled d.0 (right_in 12 (delay_words d.1)) };

    fn write_to<W: WriteStr>(&self, w: &mut W) -> Result<(), WriteFault> {
        let DelayWord(style, retry_data) = *self;
        let next = Decimal(retry_data.attempt as u128 + 1);
        let total = Decimal(retry_data.total_attempts as u128);
        Painted(style, Aligned(12, ("DELAY ", next, "/", total))).write_to(w)
    }
}
