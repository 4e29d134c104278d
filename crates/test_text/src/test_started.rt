//! A test that starts, and a retry: shown if output is not captured, or with commands.

ghost use Rattle.{writers.specs.Writer.Puts, text_parts.specs.Instance.padded_instance, report_words.specs.Parts.paint};
ghost use Rattle.test_text.specs.TestStarted.{command_text, test_retry_started_text, test_started_text};

use crate::attempt::Try;
use report_text::helpers::quoting::write_shell_words;
use run_model::command::CommandLine;
use run_model::name::TestInstanceId;
use run_model::stats::RunStats;
use run_model::status::RetryData;
use run_model::stress::StressIndex;
use styled_text::text::{Aligned, Painted};
use text_parts::instance::{CountedInstance, UntimedEnd};
use text_parts::settings::Settings;
use writers::text::{When, WriteText};
use writers::write_str::{WriteFault, WriteStr};

/// Writes that a test has started, and the command that runs it.
///
/// ```
/// let command = CommandLine::from_words(alloc, &["cargo", "test", "t1"])?;
/// write_test_started(&mut out, &settings, None, test.as_ref(), &stats, &command)?;
/// assert_eq!(out.as_str(), "       START [         ] alpha t1\n             command: cargo test t1\n");
/// ```
///
/// # Errors
///
/// The writer's fault. It has accepted a prefix of the text.
#[tactic(auto, unfolding(crate::specs::TestStarted::test_started_text, crate::specs::TestStarted::start_line))]
pub fn write_test_started<W: WriteStr>(
    w: &mut W,
    settings: &Settings,
    stress_index: Option<StressIndex>,
    instance: TestInstanceId<'_>,
    stats: &RunStats,
    command_line: &CommandLine,
) -> Result<(), WriteFault>
    ensures { Puts W.meaning w.old
        (paint settings.now.styles
        (test_started_text settings.now stress_index instance.entry stats.now command_line.now))
        result w.new }
{
    let test = CountedInstance {
        stress_index,
        counter: settings.started_counter(stats),
        instance,
    };
    let styles = &settings.styles;
    let line = (
        Painted(styles.pass, Aligned(12, "START")),
        UntimedEnd(styles, &test),
    );
    When(settings.shows_starts(), line).write_to(w)?;
    write_command_line(w, settings, command_line)
}

/// Writes that another attempt of a test has started, and the command that runs it.
///
/// # Errors
///
/// The writer's fault. It has accepted a prefix of the text.
#[tactic(auto, unfolding(crate::specs::TestStarted::test_retry_started_text, crate::specs::TestStarted::retry_start_line))]
pub fn write_test_retry_started<W: WriteStr>(
    w: &mut W,
    settings: &Settings,
    stress_index: Option<StressIndex>,
    instance: TestInstanceId<'_>,
    retry_data: RetryData,
    command_line: &CommandLine,
) -> Result<(), WriteFault>
    ensures { Puts W.meaning w.old
        (paint settings.now.styles
        (test_retry_started_text settings.now stress_index instance.entry retry_data command_line.now))
        result w.new }
{
    let test = settings.padded_instance(stress_index, instance);
    let styles = &settings.styles;
    let word = Try {
        style: styles.retry,
        attempt: retry_data.attempt,
        word: "START",
    };
    When(settings.shows_starts(), (word, UntimedEnd(styles, &test))).write_to(w)?;
    write_command_line(w, settings, command_line)
}

#[tactic(auto, unfolding(crate::specs::TestStarted::command_text))]
#[inline(always)]
fn write_command_line<W: WriteStr>(
    w: &mut W,
    settings: &Settings,
    command_line: &CommandLine,
) -> Result<(), WriteFault>
    ensures { Puts W.meaning w.old (paint settings.now.styles (command_text settings.now command_line.now)) result
        w.new }
{
    if !settings.verbose {
        return Ok(());
    }
    (Painted(settings.styles.count, Aligned(20, "command")), ": ").write_to(w)?;
    write_shell_words(w, command_line)?;
    "\n".write_to(w)
}
