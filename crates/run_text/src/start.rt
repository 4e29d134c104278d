//! The start of a run: its id and profile, and the tests that will run.

ghost use Rattle.{writers.specs.Writer.Puts, report_words.specs.Parts.paint};
ghost use Rattle.{unit_report.specs.SkipCounts.skip_counts_text, run_text.specs.Start.run_started_text};
ghost use Rattle.{run_text.specs.Start.test_counts_text};

use crate::run_id::ShownRunId;
use report_text::helpers::plural::{binaries_str, tests_str};
use run_model::config::NextestRunMode;
use run_model::event::TestCounts;
use run_model::name::ProfileName;
use run_model::run_id::ShortestRunIdPrefix;
use styled_text::style::Styles;
use styled_text::text::{Aligned, Number, Painted, Toned};
use text_parts::bar::BarLine;
use text_parts::settings::Settings;
use unit_report::formatters::write_skip_counts;
use uuid::Uuid;
use writers::text::WriteText;
use writers::write_str::{WriteFault, WriteStr};

/// Writes the start of a run: its id and profile, and how many tests and binaries there are.
///
/// ```
/// let tests = TestCounts { run_count: 1, listed_binary_count: 1, skip_counts: SkipCounts::default() };
/// let profile = ProfileName::new(alloc, "default")?;
/// write_run_started(&mut out, &settings, &None, &tests, &Uuid::from_u128(1), &profile)?;
/// assert!(out.as_str().ends_with(" with nextest profile: default\n    Starting 1 test across 1 binary\n"));
/// ```
///
/// # Errors
///
/// The writer's fault. It has accepted a prefix of the text.
#[tactic(auto, unfolding(crate::specs::Start::run_started_text, crate::specs::Start::run_id_line, crate::specs::Start::profile_text, crate::specs::Start::starting_line))]
pub fn write_run_started<W: WriteStr>(
    w: &mut W,
    settings: &Settings,
    unique_prefix: &Option<ShortestRunIdPrefix>,
    test_list: &TestCounts,
    run_id: &Uuid,
    profile_name: &ProfileName,
) -> Result<(), WriteFault>
    ensures { Puts W.meaning w.old
        (paint settings.now.styles
        (run_started_text settings.now unique_prefix.now test_list.now run_id.now profile_name.now))
        result w.new }
{
    let (mode, styles) = (settings.mode, &settings.styles);
    let run_id = (
        Painted(styles.pass, Aligned(12, "Nextest run")),
        " ID ",
        ShownRunId {
            styles,
            unique_prefix,
            run_id,
        },
        " with nextest profile: ",
        Toned(styles.count, profile_name.as_str()),
        "\n",
    );
    let counted = TestsAndBinaries {
        styles,
        mode,
        counts: test_list,
    };
    let starting = Painted(styles.pass, Aligned(12, "Starting"));
    let starting = (starting, " ", counted, Skipped(settings, test_list), "\n");
    (BarLine(settings.theme_characters), run_id, starting).write_to(w)
}

// How many tests and binaries there are.
#[derive(Clone, Copy)]
struct TestsAndBinaries<'a> {
    styles: &'a Styles,
    mode: NextestRunMode,
    counts: &'a TestCounts,
}

impl WriteText for TestsAndBinaries<'_> {
    ghost text = { λ c. paint c.styles.now (test_counts_text c.mode c.counts.now) };

    #[tactic(auto, unfolding(crate::specs::Start::test_counts_text))]
    fn write_to<W: WriteStr>(&self, w: &mut W) -> Result<(), WriteFault> {
        let TestsAndBinaries {
            styles,
            mode,
            counts,
        } = *self;
        let binaries = Number(styles.count, counts.listed_binary_count as u128);
        (
            Number(styles.count, counts.run_count as u128),
            " ",
            tests_str(mode, counts.run_count),
            " across ",
            (binaries, " ", binaries_str(counts.listed_binary_count)),
        )
            .write_to(w)
    }
}

// How many tests and binaries are skipped.
#[derive(Clone, Copy)]
struct Skipped<'a>(&'a Settings, &'a TestCounts);

impl WriteText for Skipped<'_> {
    ghost text = { λ s. paint s.0.now.styles
        (skip_counts_text s.0.now.mode s.1.now.skip_counts s.0.now.default_filter) };

    fn write_to<W: WriteStr>(&self, w: &mut W) -> Result<(), WriteFault> {
        let Skipped(settings, counts) = *self;
        let filter = &settings.default_filter;
        write_skip_counts(
            settings.mode,
            &counts.skip_counts,
            filter,
            &settings.styles,
            w,
        )
    }
}
