//! The iterations of a stress run: one has started or has finished.

ghost use Rattle.styled_text.specs.Names.{styled, non_zero_u32_get, option_map, Puts};
ghost use Rattle.{run_names.specs.Stress.remaining_value, report_words.specs.Names.paint};
ghost use Rattle.{report_words.specs.Names.clock_text, report_words.specs.Names.whole_seconds};
ghost use Rattle.run_text.specs.Stress.{count_left_text, iteration_text, of_iterations, of_time, remaining_text};
ghost use Rattle.run_text.specs.Stress.{stress_sub_run_finished_text, stress_sub_run_started_text};

use crate::summary::{RunCounts, outcome_style};
use report_text::helpers::plural::iterations_str;
use report_text::helpers::{DurationRounding, FormattedHhMmSs};
use run_model::stats::RunStats;
use run_model::stress::{StressCount, StressProgress, StressRemaining};
use run_model::time::Nanos;
use std::num::NonZeroU32;
use styled_text::style::Styles;
use styled_text::text::{Aligned, Number, Painted};
use text_parts::bar::BarLine;
use text_parts::settings::Settings;
use unit_report::formatters::DisplayBracketedDuration;
use writers::text::WriteText;
use writers::write_str::{WriteFault, WriteStr};

/// Writes that an iteration of a stress run has started, and how much of the run has passed and remains.
///
/// ```
/// use run_model::stress::{StressCount, StressProgress};
/// let progress = StressProgress::Count { total: StressCount::Infinite, elapsed: time, completed: 0 };
/// write_stress_sub_run_started(&mut out, &settings, &progress)?;
/// assert_eq!(out.as_str(), "------------\n Stress test iteration 1 (00:00:00 elapsed so far)\n");
/// ```
///
/// # Errors
///
/// The writer's fault. It has accepted a prefix of the text.
#[tactic(auto, unfolding(crate::specs::Stress::stress_sub_run_started_text, crate::specs::Stress::stress_sub_run_line, crate::specs::Stress::elapsed_text))]
pub fn write_stress_sub_run_started<W: WriteStr>(
    w: &mut W,
    settings: &Settings,
    progress: &StressProgress,
) -> Result<(), WriteFault>
    ensures { Puts W.meaning w.old
        (paint settings.now.styles (stress_sub_run_started_text settings.now.theme_characters progress.now)) result
        w.new }
{
    let styles = &settings.styles;
    let elapsed = (
        " (",
        Clock {
            styles,
            duration: progress.elapsed(),
            rounding: DurationRounding::Floor,
        },
        OfTime(styles, progress),
        " elapsed so far",
    );
    let line = (
        Painted(styles.pass, Aligned(12, "Stress test")),
        " ",
        Iteration {
            styles,
            progress,
            number: progress.completed() as u128 + 1,
        },
        elapsed,
        Remaining(styles, progress.remaining()),
        ")\n",
    );
    (BarLine(settings.theme_characters), line).write_to(w)
}

// The number of an iteration, and the planned number if that is known.
#[derive(Clone, Copy)]
struct Iteration<'a> {
    styles: &'a Styles,
    progress: &'a StressProgress,
    number: u128,
}

impl WriteText for Iteration<'_> {
    ghost text = { λ i. paint i.styles.now (iteration_text i.progress.now i.number) };

    #[tactic(auto, unfolding(crate::specs::Stress::iteration_text))]
    fn write_to<W: WriteStr>(&self, w: &mut W) -> Result<(), WriteFault> {
        let Iteration {
            styles,
            progress,
            number,
        } = *self;
        (
            "iteration ",
            Number(styles.count, number),
            OfIterations(styles, progress),
        )
            .write_to(w)
    }
}

// How many iterations are planned, if that is known.
#[derive(Clone, Copy)]
struct OfIterations<'a>(&'a Styles, &'a StressProgress);

impl WriteText for OfIterations<'_> {
    ghost text = { λ i. paint i.0.now (of_iterations i.1.now) };

    #[tactic(auto, unfolding(crate::specs::Stress::of_iterations))]
    fn write_to<W: WriteStr>(&self, w: &mut W) -> Result<(), WriteFault> {
        match self.1 {
            StressProgress::Count {
                total: StressCount::Count { count },
                ..
            } => { ("/", Number(self.0.count, count.get() as u128)).write_to(w) }
            StressProgress::Count {
                total: StressCount::Infinite,
                ..
            }
            | StressProgress::Time { .. } => Ok(()),
        }
    }
}

// How long the run should take, if that is known.
#[derive(Clone, Copy)]
struct OfTime<'a>(&'a Styles, &'a StressProgress);

impl WriteText for OfTime<'_> {
    ghost text = { λ t. paint t.0.now (of_time t.1.now) };

    #[tactic(auto, unfolding(crate::specs::Stress::of_time))]
    fn write_to<W: WriteStr>(&self, w: &mut W) -> Result<(), WriteFault> {
        match self.1 {
            StressProgress::Time { total, .. } => {
                let clock = Clock {
                    styles: self.0,
                    duration: *total,
                    rounding: DurationRounding::Floor,
                };
                ("/", clock).write_to(w)
            }
            StressProgress::Count { .. } => Ok(()),
        }
    }
}

// Hours, minutes and seconds as a number.
#[derive(Clone, Copy)]
struct Clock<'a> {
    styles: &'a Styles,
    duration: Nanos,
    rounding: DurationRounding,
}

impl WriteText for Clock<'_> {
    ghost text = { λ c. styled c.styles.now.count (clock_text (whole_seconds c.rounding c.duration.0)) };

    fn write_to<W: WriteStr>(&self, w: &mut W) -> Result<(), WriteFault> {
        let Clock {
            styles,
            duration,
            rounding,
        } = *self;
        Painted(styles.count, FormattedHhMmSs { duration, rounding }).write_to(w)
    }
}

// What remains, if that is known. The time is rounded up to whole seconds, since the time that has passed is rounded
// down: so the two add up to the whole.
#[derive(Clone, Copy)]
struct Remaining<'a>(&'a Styles, Option<StressRemaining>);

impl WriteText for Remaining<'_> {
    ghost text = { λ r. paint r.0.now (remaining_text (option_map remaining_value r.1)) };

    #[tactic(auto, unfolding(crate::specs::Stress::time_left_text))]
    fn write_to<W: WriteStr>(&self, w: &mut W) -> Result<(), WriteFault> {
        let styles = self.0;
        match self.1 {
            None | Some(StressRemaining::Infinite) => Ok(()),
            Some(StressRemaining::Count(count)) => write_count_left(w, styles, count),
            Some(StressRemaining::Time(time)) => {
                let clock = Clock {
                    styles,
                    duration: time,
                    rounding: DurationRounding::Ceiling,
                };
                (", ", clock, " remaining").write_to(w)
            }
        }
    }
}

#[tactic(auto, unfolding(crate::specs::Stress::count_left_text))]
fn write_count_left<W: WriteStr>(
    w: &mut W,
    styles: &Styles,
    count: NonZeroU32,
) -> Result<(), WriteFault>
    ensures { Puts W.meaning w.old (paint styles.now (count_left_text (non_zero_u32_get count))) result w.new }
{
    let number = Number(styles.count, count.get() as u128);
    (", ", number, " ", iterations_str(count.get()), " remaining").write_to(w)
}

/// Writes that an iteration of a stress run has finished, how long it took, and its counts.
///
/// # Errors
///
/// The writer's fault. It has accepted a prefix of the text.
#[tactic(auto, unfolding(crate::specs::Stress::stress_sub_run_finished_text))]
pub fn write_stress_sub_run_finished<W: WriteStr>(
    w: &mut W,
    settings: &Settings,
    progress: &StressProgress,
    sub_elapsed: Nanos,
    sub_stats: &RunStats,
) -> Result<(), WriteFault>
    ensures { Puts W.meaning w.old
        (paint settings.now.styles
        (stress_sub_run_finished_text settings.now.mode progress.now sub_elapsed.0 sub_stats.now))
        result w.new }
{
    let styles = &settings.styles;
    let mode = settings.mode;
    let style = outcome_style(styles, sub_stats.summarize_final());
    (
        Painted(style, Aligned(12, "Stress test")),
        " ",
        DisplayBracketedDuration(sub_elapsed),
        Iteration {
            styles,
            progress,
            number: progress.completed() as u128,
        },
        ": ",
        RunCounts {
            styles,
            mode,
            stats: sub_stats,
        },
    )
        .write_to(w)
}
