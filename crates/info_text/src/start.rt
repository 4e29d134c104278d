//! The first and the last line of the responses of units that are asked for their state.

ghost use Rattle.{writers.specs.Writer.Puts, report_words.specs.Parts.paint, info_text.specs.Start.info_finished_text};
ghost use Rattle.{info_text.specs.Start.info_started_text};

use run_model::stats::RunStats;
use run_model::time::Nanos;
use styled_text::text::{Number, Seconds, Toned};
use text_parts::bar::BarLine;
use text_parts::settings::Settings;
use text_parts::stats_text::{Progress, failure_style};
use writers::text::{When, WriteText};
use writers::write_str::{WriteFault, WriteStr};

/// Writes how many units are asked, which are those that run, with the counts of the run.
///
/// # Errors
///
/// The writer's fault. It has accepted a prefix of the text.
#[tactic(auto, unfolding(crate::specs::Start::info_started_text))]
pub fn write_info_started<W: WriteStr>(
    w: &mut W,
    settings: &Settings,
    elapsed: Nanos,
    total: usize,
    stats: &RunStats,
) -> Result<(), WriteFault>
    ensures { Puts W.meaning w.old
        (paint settings.now.styles (info_started_text settings.now.theme_characters elapsed.0 total stats.now)) result
        w.new }
{
    let styles = &settings.styles;
    let word = Toned(failure_style(styles, stats), "info");
    let progress = Progress {
        styles,
        stats,
        running: total,
    };
    (
        BarLine(settings.theme_characters),
        word,
        ": ",
        progress,
        (" in ", Seconds(elapsed.0), "s\n"),
    )
        .write_to(w)
}

/// Writes that no further responses are waited for, and how many are missing.
///
/// ```
/// write_info_finished(&mut out, &settings, 1)?;
/// assert_eq!(out.as_str(), "info: missing 1 responses\n------------\n");
/// ```
///
/// # Errors
///
/// The writer's fault. It has accepted a prefix of the text.
#[tactic(auto, unfolding(crate::specs::Start::info_finished_text, crate::specs::Start::missing_note, crate::specs::Start::missing_line))]
pub fn write_info_finished<W: WriteStr>(
    w: &mut W,
    settings: &Settings,
    missing: usize,
) -> Result<(), WriteFault>
    ensures { Puts W.meaning w.old
        (paint settings.now.styles (info_finished_text settings.now.theme_characters missing)) result w.new }
{
    let styles = &settings.styles;
    let note = (
        Toned(styles.skip, "info"),
        ": missing ",
        Number(styles.count, missing as u128),
        " responses\n",
    );
    let note = When(missing != 0, note);
    (note, BarLine(settings.theme_characters)).write_to(w)
}
