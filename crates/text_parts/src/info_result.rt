//! The result of an attempt, in words.

ghost use Rattle.text_parts.specs.InfoResult.{abort_info, failure_info, info_text, signal_name};
ghost use Rattle.text_parts.specs.Words.{leaked_note};
ghost use Rattle.{report_words.specs.Parts.paint, writers.specs.Writer.Puts};

use itoa::Buffer;
use run_model::abort::{AbortDescription, DescriptionText};
use run_model::status::{
    ExecutionResultDescription, FailureDescription, LeakTimeoutResult, SlowTimeoutResult,
};
use styled_text::style::Styles;
use styled_text::text::Toned;
use writers::text::WriteText;
use writers::write_str::{WriteFault, WriteStr};

/// How an attempt ended, as in `failed with exit code 1`.
///
/// ```
/// let outcome = ExecutionResultDescription::ExecFail;
/// InfoResult { styles: &styles, is_slow: false, outcome: &outcome }.write_to(&mut out)?;
/// assert_eq!(out.as_str(), "failed to execute");
/// ```
#[derive(Clone, Copy)]
pub struct InfoResult<'a> {
    /// The styles of the words.
    pub styles: &'a Styles,
    /// Whether it was slow.
    pub is_slow: bool,
    /// How the attempt ended.
    pub outcome: &'a ExecutionResultDescription,
}

impl WriteText for InfoResult<'_> {
    ghost text = { λ r. paint r.styles.now (info_text r.is_slow r.outcome.now) };

    #[tactic(auto, unfolding(crate::specs::InfoResult::passed_info, crate::specs::InfoResult::leak_failed_info, crate::specs::InfoResult::exec_fail_info, crate::specs::InfoResult::timeout_info))]
    fn write_to<W: WriteStr>(&self, w: &mut W) -> Result<(), WriteFault> {
        let InfoResult {
            styles,
            is_slow,
            outcome,
        } = *self;
        match outcome {
            ExecutionResultDescription::Pass if is_slow => styles.skip.write(w, "passed"),
            ExecutionResultDescription::Pass => styles.pass.write(w, "passed"),
            ExecutionResultDescription::Leak {
                result: LeakTimeoutResult::Pass,
            } => { styles.skip.write(w, "passed with leaked handles") }
            ExecutionResultDescription::Leak {
                result: LeakTimeoutResult::Fail,
            } => {
                (
                    Toned(styles.fail, "failed"),
                    ": exited with code 0, but leaked handles",
                )
                    .write_to(w)
            }
            ExecutionResultDescription::Fail { failure, leaked } => {
                write_failure_info(w, styles, failure, *leaked)
            }
            ExecutionResultDescription::ExecFail => styles.fail.write(w, "failed to execute"),
            ExecutionResultDescription::Timeout {
                result: SlowTimeoutResult::Pass,
            } => { styles.skip.write(w, "passed with timeout") }
            ExecutionResultDescription::Timeout {
                result: SlowTimeoutResult::Fail,
            } => { styles.fail.write(w, "timed out") }
        }
    }
}

#[tactic(auto, unfolding(crate::specs::InfoResult::exit_code_info))]
fn write_failure_info<W: WriteStr>(
    w: &mut W,
    styles: &Styles,
    failure: &FailureDescription,
    leaked: bool,
) -> Result<(), WriteFault>
    ensures { Puts W.meaning w.old (paint styles.now (failure_info failure.now leaked)) result w.new }
{
    let failed = Toned(styles.fail, "failed");
    match failure {
        FailureDescription::ExitCode { code } => {
            let mut number = Buffer::new();
            let code = Toned(styles.count, number.format(*code));
            (failed, " with exit code ", code, LeakedNote(leaked)).write_to(w)
        }
        FailureDescription::Abort { abort } => write_abort_info(w, styles, abort.get(), leaked),
    }
}

// Only a signal is named; what ended a process on Windows is in the line after the test's.
#[tactic(auto, unfolding(crate::specs::InfoResult::signal_info, crate::specs::InfoResult::aborted_info))]
fn write_abort_info<W: WriteStr>(
    w: &mut W,
    styles: &Styles,
    abort: &AbortDescription,
    leaked: bool,
) -> Result<(), WriteFault>
    ensures { Puts W.meaning w.old (paint styles.now (abort_info abort.now leaked)) result w.new }
{
    let aborted = Toned(styles.fail, "aborted");
    match abort {
        AbortDescription::UnixSignal { signal, name } => {
            let mut number = Buffer::new();
            let signal = Toned(styles.count, number.format(*signal));
            (
                aborted,
                " with signal ",
                signal,
                SignalName(name),
                LeakedNote(leaked),
            )
                .write_to(w)
        }
        AbortDescription::WindowsNtStatus { .. } | AbortDescription::WindowsJobObject => {
            (aborted, LeakedNote(leaked)).write_to(w)
        }
    }
}

// The name of a signal, if it has one.
#[derive(Clone, Copy)]
struct SignalName<'a>(&'a Option<DescriptionText>);

impl WriteText for SignalName<'_> {
    ghost text = { λ n. signal_name n.0.now };

    #[tactic(auto, unfolding(crate::specs::InfoResult::signal_name))]
    fn write_to<W: WriteStr>(&self, w: &mut W) -> Result<(), WriteFault> {
        match self.0 {
            None => Ok(()),
            Some(name) => (": SIG", name.as_str()).write_to(w),
        }
    }
}

// Says that handles were left open, if they were.
#[derive(Clone, Copy)]
struct LeakedNote(bool);

impl WriteText for LeakedNote {
    ghost text = { λ n. leaked_note n.0 };

    #[tactic(auto, unfolding(crate::specs::Words::leaked_note))]
    fn write_to<W: WriteStr>(&self, w: &mut W) -> Result<(), WriteFault> {
        if self.0 {
            " (leaked handles)".write_to(w)
        } else {
            Ok(())
        }
    }
}
