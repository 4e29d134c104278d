//! Warnings of tests that a run left out.

ghost use Rattle.{writers.specs.Writer.Puts, report_words.specs.Parts.paint};
ghost use Rattle.unit_report.specs.Warnings.{due_to, final_warnings, hint_after, not_run_warning, options_hint};
ghost use Rattle.unit_report.specs.Warnings.{warning_of};

use report_words::plural::{tests_plural_if, were_plural_if};
use run_model::config::NextestRunMode;
use run_model::level::CancelReason;
use run_model::stats::{FinalRunStats, RunStatsFailureKind};
use styled_text::style::Styles;
use styled_text::text::{Number, Toned};
use writers::text::{When, WriteText};
use writers::write_str::{WriteFault, WriteStr};

/// Writes a warning line about tests that were not run; nothing if all ran, or if a setup script failed.
///
/// ```
/// use run_model::stats::{FinalRunStats, RunStatsFailureKind};
/// let kind = RunStatsFailureKind::Test { initial_run_count: 1, not_run: 1 };
/// let cancelled = FinalRunStats::Cancelled { reason: Some(CancelReason::Interrupt), kind };
/// write_final_warnings(NextestRunMode::Test, cancelled, &styles, &mut out)?;
/// assert_eq!(out.as_str(), "warning: 1/1 test was not run due to interrupt\n");
/// ```
///
/// # Errors
///
/// The writer's fault. It has accepted a prefix of the text.
#[tactic(auto, unfolding(crate::specs::Warnings::final_warnings))]
pub fn write_final_warnings<W: WriteStr>(
    mode: NextestRunMode,
    final_stats: FinalRunStats,
    styles: &Styles,
    w: &mut W,
) -> Result<(), WriteFault>
    ensures { Puts W.meaning w.old (paint styles.now (final_warnings mode final_stats)) result w.new }
{
    match final_stats {
        FinalRunStats::Success => Ok(()),
        FinalRunStats::NoTestsRun => Ok(()),
        FinalRunStats::Cancelled { reason, kind } => write_warning(w, styles, mode, reason, kind),
        FinalRunStats::Failed { kind } => {
            write_warning(w, styles, mode, Some(CancelReason::TestFailure), kind)
        }
    }
}

fn write_warning<W: WriteStr>(
    w: &mut W,
    styles: &Styles,
    mode: NextestRunMode,
    reason: Option<CancelReason>,
    kind: RunStatsFailureKind,
) -> Result<(), WriteFault>
    ensures { Puts W.meaning w.old (paint styles.now (warning_of mode reason kind)) result w.new }
{
    match kind {
        RunStatsFailureKind::SetupScript => Ok(()),
        RunStatsFailureKind::Test {
            initial_run_count,
            not_run,
        } => write_not_run_warning(w, styles, mode, reason, initial_run_count, not_run),
    }
}

#[tactic(auto, unfolding(crate::specs::Warnings::not_run_warning, crate::specs::Warnings::not_run_count))]
fn write_not_run_warning<W: WriteStr>(
    w: &mut W,
    styles: &Styles,
    mode: NextestRunMode,
    reason: Option<CancelReason>,
    initial: usize,
    not_run: usize,
) -> Result<(), WriteFault>
    ensures { Puts W.meaning w.old (paint styles.now (not_run_warning mode reason initial not_run)) result w.new }
{
    let plural = !(not_run == 1 && initial == 1);
    let (tests, were) = (tests_plural_if(mode, plural), were_plural_if(plural));
    let (not_run_count, initial) = (
        Number(styles.count, not_run as u128),
        Number(styles.count, initial as u128),
    );
    let count = (
        not_run_count,
        "/",
        initial,
        " ",
        tests,
        (" ", were, " not run"),
    );
    let warning = (
        Toned(styles.skip, "warning"),
        ": ",
        count,
        DueTo { styles, reason },
        Hint { styles, reason },
        "\n",
    );
    When(not_run != 0, warning).write_to(w)
}

#[derive(Clone, Copy)]
struct DueTo<'a> {
    styles: &'a Styles,
    reason: Option<CancelReason>,
}

impl WriteText for DueTo<'_> {
    ghost text = { λ d. paint d.styles.now (due_to d.reason) };

    #[tactic(auto, unfolding(crate::specs::Warnings::due_to))]
    fn write_to<W: WriteStr>(&self, w: &mut W) -> Result<(), WriteFault> {
        match self.reason {
            None => Ok(()),
            Some(reason) => (" due to ", Toned(self.styles.skip, reason.as_str())).write_to(w),
        }
    }
}

// The options that would run all tests, if a test's failure ended the run.
#[derive(Clone, Copy)]
struct Hint<'a> {
    styles: &'a Styles,
    reason: Option<CancelReason>,
}

impl WriteText for Hint<'_> {
    ghost text = { λ h. paint h.styles.now (hint_after h.reason) };

    #[tactic(auto, unfolding(crate::specs::Warnings::hint_after))]
    fn write_to<W: WriteStr>(&self, w: &mut W) -> Result<(), WriteFault> {
        match self.reason {
            Some(CancelReason::TestFailure | CancelReason::TestFailureImmediate) => {
                write_options_hint(w, self.styles)
            }
            _ => Ok(()),
        }
    }
}

#[tactic(auto, unfolding(crate::specs::Warnings::options_hint))]
fn write_options_hint<W: WriteStr>(w: &mut W, styles: &Styles) -> Result<(), WriteFault>
    ensures { Puts W.meaning w.old (paint styles.now options_hint) result w.new }
{
    (
        " (run with ",
        Toned(styles.count, "--no-fail-fast"),
        " to run all tests, or run with ",
        Toned(styles.count, "--max-fail"),
        ")",
    )
        .write_to(w)
}
