//! The counts of a run in words, and their style.

ghost use Rattle.std.specs.Prelude.{◌≡◌, ◌==◌, ◌++◌, [], if◌then◌else◌};
ghost use Rattle.{styled_text.specs.Style.styled, report_words.specs.Parts.paint, report_words.specs.Parts.style_of};
ghost use Rattle.text_parts.specs.StatsText.{counted_front, failed_count, failed_counts, failure_tone, passed_front};
ghost use Rattle.text_parts.specs.StatsText.{passed_notes, progress_message, summary_text};

use run_model::stats::RunStats;
use styled_text::style::{Style, Styles};
use styled_text::text::{Number, Toned};
use writers::text::{When, WriteText};
use writers::write_str::{WriteFault, WriteStr};

/// The style of a run, by whether something in it has failed.
pub fn failure_style(styles: &Styles, stats: &RunStats) -> Style
    ensures { result ≡ style_of styles.now (failure_tone stats.now) }
{
    if stats.has_failures() {
        styles.fail
    } else {
        styles.pass
    }
}

/// All counts: passed and skipped always, the others if they are not 0.
///
/// ```
/// Counts(&styles, &stats).write_to(&mut out)?;
/// assert_eq!(out.as_str(), "1 passed, 0 skipped");
/// ```
#[derive(Clone, Copy)]
pub struct Counts<'a>(pub &'a Styles, pub &'a RunStats);

impl WriteText for Counts<'_> {
    ghost text = { λ c. paint c.0.now (summary_text c.1.now) };

    #[tactic(auto, unfolding(crate::specs::StatsText::summary_text))]
    fn write_to<W: WriteStr>(&self, w: &mut W) -> Result<(), WriteFault> {
        let Counts(styles, stats) = *self;
        let passed = Counted::new(styles, styles.pass, stats.passed, "passed");
        let skipped = Counted::new(styles, styles.skip, stats.skipped, "skipped");
        let notes = PassedNotes(styles, stats);
        (passed, notes, ", ", FailedCounts(styles, stats), skipped).write_to(w)
    }
}

/// How many units run, and all counts.
#[derive(Clone, Copy)]
pub struct Progress<'a> {
    /// The styles of the counts.
    pub styles: &'a Styles,
    /// The counts.
    pub stats: &'a RunStats,
    /// How many units run.
    pub running: usize,
}

impl WriteText for Progress<'_> {
    ghost text = { λ p. paint p.styles.now (progress_message p.stats.now p.running) };

    #[tactic(auto, unfolding(crate::specs::StatsText::progress_message))]
    fn write_to<W: WriteStr>(&self, w: &mut W) -> Result<(), WriteFault> {
        let styles = self.styles;
        let running = Counted::new(styles, styles.pass, self.running, "running");
        (running, ", ", Counts(styles, self.stats)).write_to(w)
    }
}

/// How many there are, and of what.
#[derive(Clone, Copy)]
pub struct Counted<'a> {
    styles: &'a Styles,
    style: Style,
    count: usize,
    word: &'a str,
}

impl<'a> Counted<'a> {
    /// This many, and their word in a style.
    pub fn new(styles: &'a Styles, style: Style, count: usize, word: &'a str) -> Counted<'a>
        ensures { result ≡ record { styles = styles.entry; style = style; count = count; word = word.entry } }
    {
        Counted {
            styles,
            style,
            count,
            word,
        }
    }
}

impl WriteText for Counted<'_> {
    ghost text = { λ c. paint c.styles.now (counted_front c.count) ++ styled c.style c.word.now };

    #[tactic(auto, unfolding(crate::specs::StatsText::counted_front))]
    fn write_to<W: WriteStr>(&self, w: &mut W) -> Result<(), WriteFault> {
        let number = Number(self.styles.count, self.count as u128);
        ((number, " "), Toned(self.style, self.word)).write_to(w)
    }
}

// Which of the tests that passed were slow, flaky or leaked handles.
#[derive(Clone, Copy)]
struct PassedNotes<'a>(&'a Styles, &'a RunStats);

impl WriteText for PassedNotes<'_> {
    ghost text = { λ n. paint n.0.now (passed_notes n.1.now) };

    #[tactic(auto, unfolding(crate::specs::StatsText::passed_notes))]
    fn write_to<W: WriteStr>(&self, w: &mut W) -> Result<(), WriteFault> {
        let PassedNotes(styles, stats) = *self;
        let has_no_slow = stats.passed_slow == 0;
        let has_no_flaky = stats.flaky == 0;
        let has_no_leaky = stats.leaky == 0;
        let is_first = has_no_slow & has_no_flaky;
        let is_empty = has_no_slow & (has_no_flaky & has_no_leaky);
        (
            PassedNote::new(styles, true, stats.passed_slow, "slow"),
            PassedNote::new(styles, has_no_slow, stats.flaky, "flaky"),
            PassedNote::new(styles, is_first, stats.leaky, "leaky"),
            When(!is_empty, ")"),
        )
            .write_to(w)
    }
}

// How many of the tests that passed are of a kind, if any: the first note begins with a parenthesis.
#[derive(Clone, Copy)]
struct PassedNote<'a> {
    styles: &'a Styles,
    is_first: bool,
    count: usize,
    word: &'a str,
}

impl<'a> PassedNote<'a> {
    fn new(styles: &'a Styles, is_first: bool, count: usize, word: &'a str) -> PassedNote<'a>
        ensures { result ≡ record { styles = styles.entry; is_first = is_first; count = count; word = word.entry } }
    {
        PassedNote {
            styles,
            is_first,
            count,
            word,
        }
    }
}

impl WriteText for PassedNote<'_> {
    ghost text = { λ n. if n.count == 0 then []
        else paint n.styles.now (passed_front n.is_first n.count) ++ styled n.styles.now.skip n.word.now };

    #[tactic(auto, unfolding(crate::specs::StatsText::passed_front, crate::specs::StatsText::counted_front))]
    fn write_to<W: WriteStr>(&self, w: &mut W) -> Result<(), WriteFault> {
        let styles = self.styles;
        let number = Number(styles.count, self.count as u128);
        let front = (if self.is_first { " (" } else { ", " }, (number, " "));
        When(self.count != 0, (front, Toned(styles.skip, self.word))).write_to(w)
    }
}

// How many tests did not succeed.
#[derive(Clone, Copy)]
struct FailedCounts<'a>(&'a Styles, &'a RunStats);

impl WriteText for FailedCounts<'_> {
    ghost text = { λ f. paint f.0.now (failed_counts f.1.now) };

    #[tactic(auto, unfolding(crate::specs::StatsText::failed_counts, crate::specs::StatsText::failed_count, crate::specs::StatsText::leaky_failed_note, crate::specs::StatsText::exec_failed_count, crate::specs::StatsText::timed_out_count))]
    fn write_to<W: WriteStr>(&self, w: &mut W) -> Result<(), WriteFault> {
        let FailedCounts(styles, stats) = *self;
        let leaky = (
            " (",
            Number(styles.count, stats.leaky_failed as u128),
            " due to being ",
            Toned(styles.skip, "leaky"),
            ")",
        );
        let failed = Counted::new(styles, styles.fail, stats.failed, "failed");
        let exec_failed = Counted::new(styles, styles.fail, stats.exec_failed, "exec failed");
        let timed_out = Counted::new(styles, styles.fail, stats.timed_out, "timed out");
        (
            When(
                stats.failed != 0,
                (failed, When(stats.leaky_failed != 0, leaky), ", "),
            ),
            When(stats.exec_failed != 0, (exec_failed, ", ")),
            When(stats.timed_out != 0, (timed_out, ", ")),
        )
            .write_to(w)
    }
}
