//! A test that runs longer than it should.

ghost use Rattle.std.specs.Prelude.{◌≡◌};
ghost use Rattle.styled_text.specs.Names.{styled, right_in, Puts};
ghost use Rattle.report_words.specs.Parts.{paint, style_of};
ghost use Rattle.test_text.specs.Words.{has_number, is_last_attempt, is_level_exceeded, slow_word, terminating_level};
ghost use Rattle.test_text.specs.Words.{terminating_word};
ghost use Rattle.test_text.specs.TestSlow.{terminating_tone, test_slow_text};

use crate::attempt::Try;
use run_model::level::StatusLevel;
use run_model::name::TestInstanceId;
use run_model::status::RetryData;
use run_model::stress::StressIndex;
use run_model::time::Nanos;
use styled_text::style::{Style, Styles};
use styled_text::text::{Aligned, Painted};
use text_parts::instance::InstanceEnd;
use text_parts::settings::Settings;
use unit_report::formatters::DisplaySlowDuration;
use writers::text::{When, WriteText};
use writers::write_str::{WriteFault, WriteStr};

/// Writes that an attempt of a test is slow, or that it is terminated for that, if its level is shown.
///
/// ```
/// write_test_slow(&mut out, &settings, None, test.as_ref(), RetryData::only(), Nanos::from_secs(60), false)?;
/// assert_eq!(out.as_str(), "        SLOW [> 60.000s] alpha t1\n");
/// ```
///
/// # Errors
///
/// The writer's fault. It has accepted a prefix of the text.
#[tactic(auto, unfolding(crate::specs::TestSlow::test_slow_text, crate::specs::TestSlow::slow_text, crate::specs::TestSlow::terminating_text, crate::specs::TestSlow::slow_end))]
pub fn write_test_slow<W: WriteStr>(
    w: &mut W,
    settings: &Settings,
    stress_index: Option<StressIndex>,
    instance: TestInstanceId<'_>,
    retry_data: RetryData,
    elapsed: Nanos,
    will_terminate: bool,
) -> Result<(), WriteFault>
    ensures { Puts W.meaning w.old
        (paint settings.now.styles
        (test_slow_text settings.now stress_index instance.entry retry_data elapsed.0 will_terminate))
        result w.new }
{
    let test = settings.padded_instance(stress_index, instance);
    let styles = &settings.styles;
    let end = (
        " ",
        DisplaySlowDuration(elapsed),
        InstanceEnd(styles, &test),
    );
    if will_terminate {
        let line = (TerminatingWord(settings, retry_data), end);
        When(settings.is_level_shown(terminating_level(retry_data)), line).write_to(w)
    } else {
        let line = (SlowWord(styles.skip, retry_data.attempt), end);
        When(settings.is_level_shown(StatusLevel::Slow), line).write_to(w)
    }
}

// The word of a slow attempt, with its number unless it is the first.
#[derive(Clone, Copy)]
struct SlowWord(Style, u32);

impl WriteText for SlowWord {
    ghost text = { λ s. styled s.0 (right_in 12 (slow_word s.1)) };

    #[tactic(auto, unfolding(crate::specs::Words::slow_word))]
    fn write_to<W: WriteStr>(&self, w: &mut W) -> Result<(), WriteFault> {
        let SlowWord(style, attempt) = *self;
        if attempt > 1 {
            Try {
                style,
                attempt,
                word: "SLOW",
            }
            .write_to(w)
        } else {
            Painted(style, Aligned(12, "SLOW")).write_to(w)
        }
    }
}

// The word of a terminated attempt, with its number if `has_number`.
#[derive(Clone, Copy)]
struct TerminatingWord<'a>(&'a Settings, RetryData);

impl WriteText for TerminatingWord<'_> {
    ghost text = { λ t. styled (style_of t.0.now.styles (terminating_tone t.1))
        (right_in 12 (terminating_word t.0.now t.1)) };

    #[tactic(auto, unfolding(crate::specs::Words::terminating_word))]
    fn write_to<W: WriteStr>(&self, w: &mut W) -> Result<(), WriteFault> {
        let TerminatingWord(settings, retry_data) = *self;
        let style = terminating_style(&settings.styles, retry_data);
        if has_number(settings, retry_data) {
            Try {
                style,
                attempt: retry_data.attempt,
                word: "TRMNTG",
            }
            .write_to(w)
        } else {
            Painted(style, Aligned(12, "TERMINATING")).write_to(w)
        }
    }
}

// The level of a terminated attempt: it is a failure, unless it is retried.
#[tactic(auto, unfolding(crate::specs::Words::is_last_attempt))]
fn terminating_level(retry_data: RetryData) -> StatusLevel
    ensures { result ≡ terminating_level retry_data }
{
    if retry_data.is_last_attempt() {
        StatusLevel::Fail
    } else {
        StatusLevel::Retry
    }
}

// The style of a terminated attempt.
#[tactic(auto, unfolding(crate::specs::Words::is_last_attempt))]
fn terminating_style(styles: &Styles, retry_data: RetryData) -> Style
    ensures { result ≡ style_of styles.now (terminating_tone retry_data) }
{
    if retry_data.is_last_attempt() {
        styles.fail
    } else {
        styles.retry
    }
}

// Whether the number of a terminated attempt is shown: it is not the only attempt, and lines of lower levels are shown.
#[tactic(auto, unfolding(crate::specs::Words::has_number))]
fn has_number(settings: &Settings, retry_data: RetryData) -> bool
    ensures { result ≡ has_number settings.now retry_data }
{
    retry_data.total_attempts > 1 && shows_more_than(settings, terminating_level(retry_data))
}

// Whether the run shows more than this level.
#[tactic(auto, unfolding(crate::specs::Words::is_level_exceeded))]
fn shows_more_than(settings: &Settings, level: StatusLevel) -> bool
    ensures { result ≡ is_level_exceeded settings.now level }
{
    settings.status_levels.status_level > level
}
