//! The state of a run, when it is requested by a key.

ghost use Rattle.{writers.specs.Writer.Puts, report_words.specs.Parts.paint, run_text.specs.Input.input_enter_text};

use run_model::stats::RunStats;
use run_model::time::Nanos;
use styled_text::style::Styles;
use styled_text::text::{Aligned, Number, Painted};
use text_parts::stats_text::{Progress, failure_style};
use unit_report::formatters::DisplayBracketedHhMmSs;
use writers::text::WriteText;
use writers::write_str::{WriteFault, WriteStr};

/// Writes how long a run has taken, how many of its tests have finished, and its counts.
///
/// ```
/// write_input_enter(&mut out, &styles, time, &stats, 0)?;
/// assert_eq!(out.as_str(), "     Running [ 00:00:00] 1/1: 0 running, 1 passed, 0 skipped\n");
/// ```
///
/// # Errors
///
/// The writer's fault. It has accepted a prefix of the text.
#[tactic(auto, unfolding(crate::specs::Input::input_enter_text, crate::specs::Input::finished_of_initial))]
pub fn write_input_enter<W: WriteStr>(
    w: &mut W,
    styles: &Styles,
    elapsed: Nanos,
    stats: &RunStats,
    running: usize,
) -> Result<(), WriteFault>
    ensures { Puts W.meaning w.old (paint styles.now (input_enter_text elapsed.0 stats.now running)) result w.new }
{
    let finished = (
        Number(styles.count, stats.finished_count as u128),
        "/",
        Number(styles.count, stats.initial_run_count as u128),
        ": ",
    );
    (
        Painted(failure_style(styles, stats), Aligned(12, "Running")),
        " ",
        DisplayBracketedHhMmSs(elapsed),
        finished,
        Progress {
            styles,
            stats,
            running,
        },
        "\n",
    )
        .write_to(w)
}
