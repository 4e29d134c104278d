//! The end of a run before its entries: how long it took, and its counts.

ghost use Rattle.std.specs.Prelude.{◌≡◌};
ghost use Rattle.{writers.specs.Writer.Puts, report_words.specs.Parts.paint, report_words.specs.Parts.style_of};
ghost use Rattle.run_text.specs.Summary.{cancelled_due_to, last_number, of_total, outcome_tone, run_counts_text};
ghost use Rattle.run_text.specs.Summary.{run_finished_text, stress_counts_text, stress_outcome_tone, summary_tone};

use report_text::helpers::plural::{iterations_str, tests_plural_if};
use run_model::config::NextestRunMode;
use run_model::stats::{
    FinalRunStats, RunFinishedStats, RunStats, StressFinalRunStats, StressRunStats,
};
use run_model::stress::StressIndex;
use run_model::time::Nanos;
use std::num::NonZeroU32;
use styled_text::style::{Style, Styles};
use styled_text::text::{Aligned, Number, Painted, Toned};
use text_parts::bar::BarLine;
use text_parts::settings::Settings;
use text_parts::stats_text::{Counted, Counts};
use unit_report::formatters::DisplayBracketedDuration;
use writers::text::{When, WriteText};
use writers::write_str::{WriteFault, WriteStr};

/// Writes the end of a run before its entries: how long it took and its counts.
///
/// # Errors
///
/// The writer's fault. It has accepted a prefix of the text.
#[tactic(auto, unfolding(crate::specs::Summary::run_finished_text, crate::specs::Summary::summary_line))]
pub fn write_run_finished<W: WriteStr>(
    w: &mut W,
    settings: &Settings,
    elapsed: Nanos,
    run_stats: &RunFinishedStats,
) -> Result<(), WriteFault>
    ensures { Puts W.meaning w.old
        (paint settings.now.styles
        (run_finished_text settings.now.theme_characters settings.now.mode elapsed.0 run_stats.now))
        result w.new }
{
    let styles = &settings.styles;
    let bar = BarLine(settings.theme_characters);
    let word = Painted(summary_style(styles, run_stats), Aligned(12, "Summary"));
    let duration = DisplayBracketedDuration(elapsed);
    match run_stats {
        RunFinishedStats::Single(stats) => {
            let counts = RunCounts {
                styles,
                mode: settings.mode,
                stats,
            };
            (bar, word, " ", duration, counts).write_to(w)
        }
        RunFinishedStats::Stress(stats) => {
            (bar, word, " ", duration, StressCounts(styles, stats)).write_to(w)
        }
    }
}

// The iterations of a stress run, and how they ended.
#[derive(Clone, Copy)]
struct StressCounts<'a>(&'a Styles, &'a StressRunStats);

impl WriteText for StressCounts<'_> {
    ghost text = { λ c. paint c.0.now (stress_counts_text c.1.now) };

    #[tactic(auto, unfolding(crate::specs::Summary::stress_counts_text, crate::specs::Summary::iterations_run_text, crate::specs::Summary::failed_iterations))]
    fn write_to<W: WriteStr>(&self, w: &mut W) -> Result<(), WriteFault> {
        let StressCounts(styles, stats) = *self;
        let run = (
            Number(styles.count, stats.completed.current as u128),
            OfTotal(styles, stats.completed.total),
            " stress run ",
            iterations_str(last_number(&stats.completed)),
            ": ",
        );
        let passed = Counted::new(styles, styles.pass, stats.success_count as usize, "passed");
        let failed = Counted::new(styles, styles.fail, stats.failed_count as usize, "failed");
        let failed = When(stats.failed_count != 0, (", ", failed));
        let cancelled = CancelledDueTo(styles, stats.last_final_stats);
        (run, passed, failed, cancelled, "\n").write_to(w)
    }
}

/// How many tests ran, and the counts.
///
/// ```
/// RunCounts { styles: &styles, mode: NextestRunMode::Test, stats: &stats }.write_to(&mut out)?;
/// assert_eq!(out.as_str(), "1 test run: 1 passed, 0 skipped\n");
/// ```
#[derive(Clone, Copy)]
pub struct RunCounts<'a> {
    /// The styles of the counts.
    pub styles: &'a Styles,
    /// Whether tests are benchmarks.
    pub mode: NextestRunMode,
    /// The counts.
    pub stats: &'a RunStats,
}

impl WriteText for RunCounts<'_> {
    ghost text = { λ c. paint c.styles.now (run_counts_text c.mode c.stats.now) };

    #[tactic(auto, unfolding(crate::specs::Summary::run_counts_text, crate::specs::Summary::initial_count_text))]
    fn write_to<W: WriteStr>(&self, w: &mut W) -> Result<(), WriteFault> {
        let RunCounts {
            styles,
            mode,
            stats,
        } = *self;
        let is_plural = !(stats.finished_count == 1 && stats.initial_run_count == 1);
        let initial = ("/", Number(styles.count, stats.initial_run_count as u128));
        (
            Number(styles.count, stats.finished_count as u128),
            When(stats.finished_count != stats.initial_run_count, initial),
            " ",
            tests_plural_if(mode, is_plural),
            " run: ",
            (Counts(styles, stats), "\n"),
        )
            .write_to(w)
    }
}

// The total number of iterations, if that is known.
#[derive(Clone, Copy)]
struct OfTotal<'a>(&'a Styles, Option<NonZeroU32>);

impl WriteText for OfTotal<'_> {
    ghost text = { λ t. paint t.0.now (of_total t.1) };

    #[tactic(auto, unfolding(crate::specs::Summary::of_total))]
    fn write_to<W: WriteStr>(&self, w: &mut W) -> Result<(), WriteFault> {
        match self.1 {
            None => Ok(()),
            Some(total) => ("/", Number(self.0.count, total.get() as u128)).write_to(w),
        }
    }
}

// Why the last iteration was cancelled, if that is known.
#[derive(Clone, Copy)]
struct CancelledDueTo<'a>(&'a Styles, FinalRunStats);

impl WriteText for CancelledDueTo<'_> {
    ghost text = { λ t. paint t.0.now (cancelled_due_to t.1) };

    #[tactic(auto, unfolding(crate::specs::Summary::cancel_reason_text))]
    fn write_to<W: WriteStr>(&self, w: &mut W) -> Result<(), WriteFault> {
        match self.1 {
            FinalRunStats::Cancelled {
                reason: Some(reason),
                ..
            } => ("; cancelled due to ", Toned(self.0.fail, reason.as_str())).write_to(w),
            _ => Ok(()),
        }
    }
}

// The style of a summary, by the outcome of the run.
fn summary_style(styles: &Styles, run_stats: &RunFinishedStats) -> Style
    ensures { result ≡ style_of styles.now (summary_tone run_stats.now) }
{
    match run_stats {
        RunFinishedStats::Single(stats) => outcome_style(styles, stats.summarize_final()),
        RunFinishedStats::Stress(stats) => stress_outcome_style(styles, stats.summarize_final()),
    }
}

// The style of the outcome of a stress run.
fn stress_outcome_style(styles: &Styles, outcome: StressFinalRunStats) -> Style
    ensures { result ≡ style_of styles.now (stress_outcome_tone outcome) }
{
    match outcome {
        StressFinalRunStats::Success => styles.pass,
        StressFinalRunStats::NoTestsRun => styles.skip,
        StressFinalRunStats::Cancelled | StressFinalRunStats::Failed => styles.fail,
    }
}

// How many iterations were planned, or if that is not known how many have finished.
fn last_number(completed: &StressIndex) -> u32
    ensures { result ≡ last_number completed.now }
{
    match completed.total {
        None => completed.current,
        Some(total) => total.get(),
    }
}

/// The style of the outcome of a run.
pub fn outcome_style(styles: &Styles, outcome: FinalRunStats) -> Style
    ensures { result ≡ style_of styles.now (outcome_tone outcome) }
{
    match outcome {
        FinalRunStats::Success => styles.pass,
        FinalRunStats::NoTestsRun => styles.skip,
        FinalRunStats::Cancelled { .. } => styles.fail,
        FinalRunStats::Failed { .. } => styles.fail,
    }
}
