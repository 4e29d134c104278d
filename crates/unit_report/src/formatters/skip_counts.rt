//! How many tests and binaries a run skips, and why.

ghost use Rattle.std.specs.Prelude.{◌≡◌};
ghost use Rattle.{writers.specs.Writer.Puts, report_words.specs.Parts.paint};
ghost use Rattle.unit_report.specs.SkipCounts.{filter_name, included_text, skip_counts_text, skip_reason};
ghost use Rattle.unit_report.specs.SkipCounts.{skipped_tests_in, tests_and_binaries, tests_text, via_filter};

use report_words::plural::{binaries_str, tests_str};
use run_model::config::{CompiledDefaultFilter, CompiledDefaultFilterSection, NextestRunMode};
use run_model::event::SkipCounts;
use styled_text::style::Styles;
use styled_text::text::{Number, Painted, Toned};
use writers::text::{When, WriteText};
use writers::write_str::{WriteFault, WriteStr};

/// Writes what a run skips, between parentheses and after a space; nothing where it skips nothing.
///
/// ```
/// use run_model::config::CompiledDefaultFilter;
/// use run_model::event::SkipCounts;
/// let filter = CompiledDefaultFilter::for_default_config(alloc)?;
/// let skipped = SkipCounts { skipped_tests: 2, skipped_tests_rerun: 1, skipped_binaries: 1, ..SkipCounts::default() };
/// write_skip_counts(NextestRunMode::Test, &skipped, &filter, &styles, &mut out)?;
/// assert_eq!(out.as_str(), " (2 tests and 1 binary skipped, including 1 test that already passed)");
/// ```
///
/// # Errors
///
/// The writer's fault. It has accepted a prefix of the text.
#[tactic(auto, unfolding(crate::specs::SkipCounts::skip_note))]
pub fn write_skip_counts<W: WriteStr>(
    mode: NextestRunMode,
    skip_counts: &SkipCounts,
    default_filter: &CompiledDefaultFilter,
    styles: &Styles,
    w: &mut W,
) -> Result<(), WriteFault>
    ensures { Puts W.meaning w.old (paint styles.now (skip_counts_text mode skip_counts.now default_filter.now))
        result w.new }
{
    let tests = skipped_tests(mode, skip_counts);
    let binaries = skip_counts.skipped_binaries;
    let skipped = Skipped {
        styles,
        mode,
        tests,
        binaries,
    };
    let reason = SkipReason {
        styles,
        mode,
        tests,
        counts: skip_counts,
        filter: default_filter,
    };
    let word = Toned(styles.skip, "skipped");
    When(
        tests != 0 || binaries != 0,
        (" (", skipped, " ", word, reason, ")"),
    )
    .write_to(w)
}

// The tests that are skipped, in benchmark mode without those that are no benchmarks.
fn skipped_tests(mode: NextestRunMode, skip_counts: &SkipCounts) -> usize
    ensures { result ≡ skipped_tests_in mode skip_counts.now }
{
    match mode {
        NextestRunMode::Test => skip_counts.skipped_tests,
        NextestRunMode::Benchmark => skip_counts
            .skipped_tests
            .saturating_sub(skip_counts.skipped_tests_non_benchmark),
    }
}

// Why tests and binaries are skipped: one reason for all, or how many have which reason.
#[derive(Clone, Copy)]
struct SkipReason<'a> {
    styles: &'a Styles,
    mode: NextestRunMode,
    tests: usize,
    counts: &'a SkipCounts,
    filter: &'a CompiledDefaultFilter,
}

impl WriteText for SkipReason<'_> {
    ghost text = { λ r. paint r.styles.now (skip_reason r.mode r.tests r.counts.now r.filter.now) };

    #[tactic(auto, unfolding(crate::specs::SkipCounts::skip_reason))]
    fn write_to<W: WriteStr>(&self, w: &mut W) -> Result<(), WriteFault> {
        let SkipReason { styles, counts, .. } = *self;
        if self.tests == counts.skipped_tests_rerun && counts.skipped_binaries == 0 {
            " that already passed".write_to(w)
        } else if self.tests == counts.skipped_tests_default_filter
            && counts.skipped_binaries == counts.skipped_binaries_default_filter
        {
            ViaFilter(styles, self.filter).write_to(w)
        } else {
            write_included(w, self)
        }
    }
}

// Writes how many of the skipped tests passed before, and how many tests and binaries the default filter leaves out.
#[tactic(auto, unfolding(crate::specs::SkipCounts::included_text, crate::specs::SkipCounts::rerun_text, crate::specs::SkipCounts::filtered_text))]
fn write_included<W: WriteStr>(w: &mut W, reason: &SkipReason<'_>) -> Result<(), WriteFault>
    ensures { Puts W.meaning w.old
        (paint reason.now.styles.now (included_text reason.now.mode reason.now.counts.now reason.now.filter.now))
        result w.new }
{
    let SkipReason {
        styles,
        mode,
        counts,
        filter,
        ..
    } = *reason;
    let tests = counts.skipped_tests_default_filter;
    let binaries = counts.skipped_binaries_default_filter;
    let has_rerun = counts.skipped_tests_rerun != 0;
    let has_filtered = (tests != 0) | (binaries != 0);
    let rerun = Tests {
        styles,
        mode,
        count: counts.skipped_tests_rerun,
    };
    let filtered = Skipped {
        styles,
        mode,
        tests,
        binaries,
    };
    let included = (
        ", including ",
        When(has_rerun, (rerun, " that already passed")),
        When(has_rerun & has_filtered, ", and "),
        When(has_filtered, (filtered, ViaFilter(styles, filter))),
    );
    When(has_rerun | has_filtered, included).write_to(w)
}

// The name of the default filter after " via ".
#[derive(Clone, Copy)]
struct ViaFilter<'a>(&'a Styles, &'a CompiledDefaultFilter);

impl WriteText for ViaFilter<'_> {
    ghost text = { λ v. paint v.0.now (via_filter v.1.now) };

    #[tactic(auto, unfolding(crate::specs::SkipCounts::via_filter))]
    fn write_to<W: WriteStr>(&self, w: &mut W) -> Result<(), WriteFault> {
        " via ".write_to(w)?;
        write_filter_name(w, self.0, self.1.profile.as_str(), self.1.section)
    }
}

#[tactic(auto, unfolding(crate::specs::SkipCounts::override_name, styled_text::specs::Style::plain))]
fn write_filter_name<W: WriteStr>(
    w: &mut W,
    styles: &Styles,
    profile: &str,
    section: CompiledDefaultFilterSection,
) -> Result<(), WriteFault>
    ensures { Puts W.meaning w.old (paint styles.now (filter_name profile.now section)) result w.new }
{
    let overrides = Painted(styles.count, ("profile.", profile, ".overrides"));
    match section {
        CompiledDefaultFilterSection::Profile => {
            Painted(styles.count, ("profile.", profile, ".default-filter")).write_to(w)
        }
        CompiledDefaultFilterSection::Override(_) => {
            (Toned(styles.count, "default-filter"), " in ", overrides).write_to(w)
        }
    }
}

// The numbers of tests and binaries. A number that is 0 is left out.
#[derive(Clone, Copy)]
struct Skipped<'a> {
    styles: &'a Styles,
    mode: NextestRunMode,
    tests: usize,
    binaries: usize,
}

impl WriteText for Skipped<'_> {
    ghost text = { λ s. paint s.styles.now (tests_and_binaries s.mode s.tests s.binaries) };

    #[tactic(auto, unfolding(crate::specs::SkipCounts::tests_and_binaries, crate::specs::SkipCounts::binaries_text))]
    fn write_to<W: WriteStr>(&self, w: &mut W) -> Result<(), WriteFault> {
        let Skipped {
            styles,
            mode,
            tests,
            binaries,
        } = *self;
        let number = Number(styles.count, binaries as u128);
        let counted = (number, " ", binaries_str(binaries));
        let first = Tests {
            styles,
            mode,
            count: tests,
        };
        (
            first,
            When(tests != 0 && binaries != 0, " and "),
            When(binaries != 0, counted),
        )
            .write_to(w)
    }
}

// The number of tests, unless it is 0.
#[derive(Clone, Copy)]
struct Tests<'a> {
    styles: &'a Styles,
    mode: NextestRunMode,
    count: usize,
}

impl WriteText for Tests<'_> {
    ghost text = { λ t. paint t.styles.now (tests_text t.mode t.count) };

    #[tactic(auto, unfolding(crate::specs::SkipCounts::tests_text))]
    fn write_to<W: WriteStr>(&self, w: &mut W) -> Result<(), WriteFault> {
        let number = Number(self.styles.count, self.count as u128);
        let words = tests_str(self.mode, self.count);
        When(self.count != 0, (number, " ", words)).write_to(w)
    }
}
