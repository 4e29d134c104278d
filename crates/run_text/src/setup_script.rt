//! Setup scripts: one has started, runs for long or has finished.

ghost use Rattle.std.specs.Prelude.{◌≡◌};
ghost use Rattle.styled_text.specs.Names.{styled, right_in, Puts};
ghost use Rattle.{text_parts.specs.Script.script_of, report_words.specs.Parts.paint, report_words.specs.Parts.style_of};
ghost use Rattle.run_text.specs.SetupScript.{HasFailedScriptOutput, failed_script_output, script_counter};
ghost use Rattle.run_text.specs.SetupScript.{script_status_tone, script_status_words, setup_script_finished_text};
ghost use Rattle.run_text.specs.SetupScript.{setup_script_slow_text, setup_script_started_text, slow_script_level};
ghost use Rattle.run_text.specs.SetupScript.{slow_script_words};

use itoa::Buffer;
use run_model::level::StatusLevel;
use run_model::output::LiveSpec;
use run_model::status::{ExecutionResultDescription, LeakTimeoutResult, SetupScriptExecuteStatus};
use run_model::time::Nanos;
use styled_text::style::{Style, Styles};
use styled_text::text::{Aligned, Painted};
use text_parts::attempt_output::write_setup_script_execute_status;
use text_parts::result_words::spaced_short_status_str;
use text_parts::script::{ScriptInstance, ShownScript};
use text_parts::settings::Settings;
use unit_report::formatters::{DisplayBracketedDuration, DisplaySlowDuration};
use writers::text::{Decimal, When, WriteText};
use writers::write_str::{WriteFault, WriteStr};

/// Writes that a setup script has started. `index` is its index among all, from 0.
///
/// ```
/// use run_model::name::{ProgramName, ScriptId};
/// use text_parts::script::ScriptInstance;
/// let (script_id, program) = (ScriptId::new(alloc, "s1")?, ProgramName::new(alloc, "cmd")?);
/// let args = CommandLine::from_words(alloc, &["x"])?;
/// let script = ScriptInstance { stress_index: None, script_id: &script_id, program: &program, args: &args };
/// write_setup_script_started(&mut out, &styles, 0, 1, script)?;
/// assert_eq!(out.as_str(), "       SETUP [      1/1] s1: cmd x\n");
/// ```
///
/// # Errors
///
/// The writer's fault. It has accepted a prefix of the text.
#[tactic(auto, unfolding(crate::specs::SetupScript::setup_script_started_text))]
pub fn write_setup_script_started<W: WriteStr>(
    w: &mut W,
    styles: &Styles,
    index: usize,
    total: usize,
    script: ScriptInstance<'_>,
) -> Result<(), WriteFault>
    ensures { Puts W.meaning w.old (paint styles.now (setup_script_started_text index total (script_of script.entry)))
        result w.new }
{
    let counter = ScriptCounter(index, total);
    let word = Painted(styles.pass, Aligned(12, "SETUP"));
    (word, " ", counter, ShownScript(styles, &script), "\n").write_to(w)
}

// The number of the script, from 1. It may be one more than the greatest of its type.
#[derive(Clone, Copy)]
struct ScriptCounter(usize, usize);

impl WriteText for ScriptCounter {
    ghost text = { λ c. script_counter c.0 c.1 };

    #[tactic(auto, unfolding(crate::specs::SetupScript::script_counter))]
    fn write_to<W: WriteStr>(&self, w: &mut W) -> Result<(), WriteFault> {
        let (number, count) = (Decimal(self.0 as u128 + 1), Decimal(self.1 as u128));
        ("[", Aligned(9, (number, "/", count)), "] ").write_to(w)
    }
}

/// Writes that a setup script has run for long, if its level is shown.
///
/// # Errors
///
/// The writer's fault. It has accepted a prefix of the text.
#[tactic(auto, unfolding(crate::specs::SetupScript::setup_script_slow_text, crate::specs::SetupScript::shown_slow_script))]
pub fn write_setup_script_slow<W: WriteStr>(
    w: &mut W,
    settings: &Settings,
    script: ScriptInstance<'_>,
    elapsed: Nanos,
    will_terminate: bool,
) -> Result<(), WriteFault>
    ensures { Puts W.meaning w.old
        (paint settings.now.styles
        (setup_script_slow_text settings.now (script_of script.entry) elapsed.0 will_terminate))
        result w.new }
{
    let styles = &settings.styles;
    let line = (
        SlowScriptWord(styles, will_terminate),
        " ",
        DisplaySlowDuration(elapsed),
        ShownScript(styles, &script),
        "\n",
    );
    When(
        settings.is_level_shown(slow_script_level(will_terminate)),
        line,
    )
    .write_to(w)
}

// The level from which a slow script is shown.
fn slow_script_level(will_terminate: bool) -> StatusLevel
    ensures { result ≡ slow_script_level will_terminate }
{
    if will_terminate {
        StatusLevel::Fail
    } else {
        StatusLevel::Slow
    }
}

// The word of a script that is slow; the flag says that it is terminated for it.
#[derive(Clone, Copy)]
struct SlowScriptWord<'a>(&'a Styles, bool);

impl WriteText for SlowScriptWord<'_> {
    ghost text = { λ s. paint s.0.now (slow_script_words s.1) };

    #[tactic(auto, unfolding(crate::specs::SetupScript::slow_script_words))]
    fn write_to<W: WriteStr>(&self, w: &mut W) -> Result<(), WriteFault> {
        if self.1 {
            Painted(self.0.fail, Aligned(12, "TERMINATING")).write_to(w)
        } else {
            Painted(self.0.skip, Aligned(12, "SETUP SLOW")).write_to(w)
        }
    }
}

/// Writes that a setup script has finished, and its output unless it succeeded. Output that is shown must be
/// loaded.
///
/// # Errors
///
/// The writer's fault. It has accepted a prefix of the text.
#[tactic(auto, unfolding(crate::specs::SetupScript::setup_script_finished_text, crate::specs::SetupScript::setup_script_line))]
pub fn write_setup_script_finished<W: WriteStr>(
    w: &mut W,
    settings: &Settings,
    script: ScriptInstance<'_>,
    run_status: &SetupScriptExecuteStatus<LiveSpec>,
) -> Result<(), WriteFault>
    requires { HasFailedScriptOutput run_status.now }
    ensures { Puts W.meaning w.old
        (paint settings.now.styles (setup_script_finished_text settings.now (script_of script.entry) run_status.now))
        result w.new }
{
    let styles = &settings.styles;
    let line = (
        ScriptStatus(styles, &run_status.result),
        " ",
        DisplayBracketedDuration(run_status.time_taken),
        ShownScript(styles, &script),
        "\n",
    );
    line.write_to(w)?;
    write_failed_script_output(w, settings, run_status)
}

// How a setup script ended, right in twelve columns.
#[derive(Clone, Copy)]
struct ScriptStatus<'a>(&'a Styles, &'a ExecutionResultDescription);

impl WriteText for ScriptStatus<'_> {
    ghost text = { λ s. styled (style_of s.0.now (script_status_tone s.1.now))
        (right_in 12 (script_status_words s.1.now)) };

    fn write_to<W: WriteStr>(&self, w: &mut W) -> Result<(), WriteFault> {
        let ScriptStatus(styles, outcome) = *self;
        let mut signal = Buffer::new();
        let word = spaced_short_status_str(outcome, &mut signal);
        let style = script_status_style(styles, outcome);
        Painted(style, Aligned(12, ("SETUP", word.front, word.back))).write_to(w)
    }
}

// The style of a script's result. A timeout that counts as a success has that of a failure.
fn script_status_style(styles: &Styles, outcome: &ExecutionResultDescription) -> Style
    ensures { result ≡ style_of styles.now (script_status_tone outcome.now) }
{
    match outcome {
        ExecutionResultDescription::Pass => styles.pass,
        ExecutionResultDescription::Leak {
            result: LeakTimeoutResult::Pass,
        } => styles.skip,
        ExecutionResultDescription::Leak {
            result: LeakTimeoutResult::Fail,
        }
        | ExecutionResultDescription::Fail { .. }
        | ExecutionResultDescription::ExecFail
        | ExecutionResultDescription::Timeout { .. } => styles.fail,
    }
}

#[tactic(auto, unfolding(crate::specs::SetupScript::failed_script_output))]
fn write_failed_script_output<W: WriteStr>(
    w: &mut W,
    settings: &Settings,
    run_status: &SetupScriptExecuteStatus<LiveSpec>,
) -> Result<(), WriteFault>
    requires { HasFailedScriptOutput run_status.now }
    ensures { Puts W.meaning w.old (paint settings.now.styles (failed_script_output settings.now run_status.now))
        result w.new }
{
    let outcome = &run_status.result;
    if outcome.is_success() {
        return Ok(());
    }
    write_setup_script_execute_status(w, settings, outcome, &run_status.output)
}
