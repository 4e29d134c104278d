//! The counts of skipped tests, also for filters that no scene has: those of a profile other than the default, and of
//! its overrides.

use crate::testing::expect_text;
use run_model::config::{CompiledDefaultFilter, CompiledDefaultFilterSection, NextestRunMode};
use run_model::event::SkipCounts;
use run_model::name::ProfileName;
use std::alloc::Global;
use std::test::Fail;
use styled_text::style::Styles;
use unit_report::formatters::write_skip_counts;

const PROFILE: CompiledDefaultFilterSection = CompiledDefaultFilterSection::Profile;

const OVERRIDE: CompiledDefaultFilterSection = CompiledDefaultFilterSection::Override(0);

// How many tests passed before, are skipped and are filtered, and how many binaries are skipped and filtered; of which
// filter; whether the text is in colour, and what it has between its brackets.
type Row = (
    [usize; 3],
    [usize; 2],
    CompiledDefaultFilterSection,
    bool,
    &'static str,
);

// The rows of nextest-runner's test `test_write_skip_counts`, and two in colour.
const ROWS: &[Row] = &[
    (
        [0, 1, 1],
        [0, 0],
        PROFILE,
        false,
        "1 test skipped via profile.my-profile.default-filter",
    ),
    (
        [0, 2, 2],
        [0, 0],
        PROFILE,
        false,
        "2 tests skipped via profile.my-profile.default-filter",
    ),
    ([0, 1, 0], [0, 0], PROFILE, false, "1 test skipped"),
    ([0, 2, 0], [0, 0], PROFILE, false, "2 tests skipped"),
    (
        [0, 0, 0],
        [1, 1],
        PROFILE,
        false,
        "1 binary skipped via profile.my-profile.default-filter",
    ),
    (
        [0, 0, 0],
        [2, 2],
        OVERRIDE,
        false,
        "2 binaries skipped via default-filter in profile.my-profile.overrides",
    ),
    ([0, 0, 0], [1, 0], PROFILE, false, "1 binary skipped"),
    ([0, 0, 0], [2, 0], PROFILE, false, "2 binaries skipped"),
    (
        [0, 1, 1],
        [1, 1],
        OVERRIDE,
        false,
        "1 test and 1 binary skipped via default-filter in profile.my-profile.overrides",
    ),
    (
        [0, 2, 2],
        [3, 3],
        PROFILE,
        false,
        "2 tests and 3 binaries skipped via profile.my-profile.default-filter",
    ),
    (
        [0, 1, 0],
        [1, 0],
        PROFILE,
        false,
        "1 test and 1 binary skipped",
    ),
    (
        [0, 2, 0],
        [3, 0],
        PROFILE,
        false,
        "2 tests and 3 binaries skipped",
    ),
    (
        [0, 1, 0],
        [1, 1],
        OVERRIDE,
        false,
        "1 test and 1 binary skipped, including 1 binary via default-filter in profile.my-profile.overrides",
    ),
    (
        [0, 3, 2],
        [1, 0],
        PROFILE,
        false,
        "3 tests and 1 binary skipped, including 2 tests via profile.my-profile.default-filter",
    ),
    (
        [1, 1, 0],
        [0, 0],
        PROFILE,
        false,
        "1 test skipped that already passed",
    ),
    (
        [5, 5, 0],
        [0, 0],
        PROFILE,
        false,
        "5 tests skipped that already passed",
    ),
    (
        [3, 5, 0],
        [0, 0],
        PROFILE,
        false,
        "5 tests skipped, including 3 tests that already passed",
    ),
    (
        [2, 2, 0],
        [1, 0],
        PROFILE,
        false,
        "2 tests and 1 binary skipped, including 2 tests that already passed",
    ),
    (
        [2, 2, 0],
        [1, 1],
        PROFILE,
        false,
        "2 tests and 1 binary skipped, including 2 tests that already passed, \
        and 1 binary via profile.my-profile.default-filter",
    ),
    (
        [2, 5, 3],
        [0, 0],
        PROFILE,
        false,
        "5 tests skipped, including 2 tests that already passed, and 3 tests via profile.my-profile.default-filter",
    ),
    (
        [2, 6, 3],
        [2, 1],
        OVERRIDE,
        false,
        "6 tests and 2 binaries skipped, including 2 tests that already passed, \
        and 3 tests and 1 binary via default-filter in profile.my-profile.overrides",
    ),
    (
        [0, 2, 2],
        [0, 0],
        PROFILE,
        true,
        "\x1b[1m2\x1b[0m tests \x1b[33;1mskipped\x1b[0m via \x1b[1mprofile.my-profile.default-filter\x1b[0m",
    ),
    (
        [2, 6, 3],
        [2, 1],
        OVERRIDE,
        true,
        "\x1b[1m6\x1b[0m tests and \x1b[1m2\x1b[0m binaries \x1b[33;1mskipped\x1b[0m, \
        including \x1b[1m2\x1b[0m tests that already passed, \
        and \x1b[1m3\x1b[0m tests and \x1b[1m1\x1b[0m binary \
        via \x1b[1mdefault-filter\x1b[0m in \x1b[1mprofile.my-profile.overrides\x1b[0m",
    ),
];

// The text of a row.
fn written(alloc: Global, row: Row) -> Result<String, Fail> {
    let ([rerun, tests, filtered], [binaries, filtered_binaries], section, is_coloured, _) = row;
    let skip_counts = SkipCounts {
        skipped_tests: tests,
        skipped_tests_rerun: rerun,
        skipped_tests_non_benchmark: 0,
        skipped_tests_default_filter: filtered,
        skipped_binaries: binaries,
        skipped_binaries_default_filter: filtered_binaries,
    };
    let mut styles = Styles::default();
    if is_coloured {
        styles.colorize();
    }
    let profile = ProfileName::new(alloc, "my-profile")?;
    let default_filter = CompiledDefaultFilter { profile, section };
    let mut text = String::new(alloc);
    write_skip_counts(
        NextestRunMode::Test,
        &skip_counts,
        &default_filter,
        &styles,
        &mut text,
    )?;
    Ok(text)
}

#[test]
fn each_count_has_its_words(rt: HostRuntime) -> Result<(), Fail> {
    let none = written(rt.alloc(), ([0; 3], [0; 2], PROFILE, false, ""))?;
    expect_text(&rt, none.as_str(), "");
    for &row in ROWS {
        let text = written(rt.alloc(), row)?;
        let between = text
            .as_str()
            .strip_prefix(" (")
            .and_then(|it| it.strip_suffix(")"));
        expect_text(&rt, between.unwrap_or(""), row.4);
    }
    Ok(())
}
