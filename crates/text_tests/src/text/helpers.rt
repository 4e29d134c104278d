//! Texts that no scene leads to, as nextest prints them, and the greatest numbers.

use crate::testing::expect_text;
use report_text::helpers::paths::is_relative;
use report_text::helpers::plural::*;
use report_text::helpers::*;
use run_model::abort::{AbortDescription, DescriptionText};
use run_model::command::CommandLine;
use run_model::config::NextestRunMode;
use run_model::name::{OwnedTestInstanceId, ScriptId, TestCaseName};
use run_model::stress::StressIndex;
use run_model::time::Nanos;
use std::alloc::Global;
use std::process::Abort;
use std::test::Fail;
use styled_text::style::{ListStyles, Style};

#[test]
fn words_are_singular_for_one_alone(rt: HostRuntime) {
    for (shown, want) in [
        (
            [setup_scripts_str(1), setup_scripts_str(0)],
            ["setup script", "setup scripts"],
        ),
        ([paths_str(1), paths_str(2)], ["path", "paths"]),
        ([files_str(1), files_str(2)], ["file", "files"]),
        (
            [directories_str(1), directories_str(2)],
            ["directory", "directories"],
        ),
        (
            [this_crate_str(1), this_crate_str(2)],
            ["this crate", "these crates"],
        ),
        (
            [libraries_str(1), libraries_str(2)],
            ["library", "libraries"],
        ),
        ([filters_str(1), filters_str(2)], ["filter", "filters"]),
        ([sections_str(1), sections_str(2)], ["section", "sections"]),
        ([runs_str(1), runs_str(2)], ["run", "runs"]),
        ([orphans_str(1), orphans_str(2)], ["orphan", "orphans"]),
        ([errors_str(1), errors_str(2)], ["error", "errors"]),
        ([exist_str(1), exist_str(2)], ["exists", "exist"]),
        ([end_str(1), end_str(2)], ["ends", "end"]),
        ([remain_str(1), remain_str(2)], ["remains", "remain"]),
        (
            [
                tests_plural(NextestRunMode::Test),
                tests_plural(NextestRunMode::Benchmark),
            ],
            ["tests", "benchmarks"],
        ),
    ] {
        assert!(rt; shown == want);
    }
}

fn expect_width(rt: &impl Abort, n: u64, width: usize) {
    assert_eq!(rt; decimal_char_width(n), width, "of {n}");
}

#[test]
fn widths_of_numbers(rt: HostRuntime) {
    // The numbers of nextest-runner's test `test_decimal_char_width`, which has them for three types.
    for (n, width) in [
        (0, 1),
        (1, 1),
        (5, 1),
        (9, 1),
        (10, 2),
        (11, 2),
        (99, 2),
        (100, 3),
        (999, 3),
        (999_999, 6),
        (1_000_000, 7),
        (10_000_000, 8),
        (11_000_000, 8),
    ] {
        expect_width(&rt, n, width);
    }
    let greatest = [
        decimal_char_width(u8::MAX),
        decimal_char_width(u16::MAX),
        decimal_char_width(u32::MAX),
        decimal_char_width(u64::MAX),
        decimal_char_width(usize::MAX),
        decimal_char_width(u128::MAX),
    ];
    assert!(rt; greatest == [3, 5, 10, 20, 20, 39]);
}

#[test]
fn durations(rt: HostRuntime) -> Result<(), Fail> {
    for (nanos, text) in [
        (0, "0.00s"),
        (60_000_000_000, "60.00s"),
        (60_001_000_000, "1m 0.00s"),
        (119_999_000_000, "1m 60.00s"),
        (u128::MAX, "5671372782015641057722910123m 51.77s"),
    ] {
        let shown = FormattedDuration(Nanos(nanos)).to_string(rt.alloc())?;
        expect_text(&rt, shown.as_str(), text);
    }
    // Each unit of time, at its first value and at the last one before the next unit.
    for (nanos, text) in [
        (0, "0s"),
        (1, "1ns"),
        (999, "999ns"),
        (1_000, "1us"),
        (999_999, "999us"),
        (1_000_000, "1ms"),
        (999_999_999, "999ms"),
        (1_000_000_000, "1s"),
        (59_999_999_999, "59s"),
        (60_000_000_000, "1m"),
        (3_599_999_999_999, "59m"),
        (3_600_000_000_000, "1h"),
        (86_399_999_999_999, "23h"),
        (86_400_000_000_000, "1d"),
        (2_630_015_999_999_999, "30d"),
        (2_630_016_000_000_000, "1mo"),
        (31_557_599_999_999_999, "11mo"),
        (31_557_600_000_000_000, "1y"),
        (u128::MAX, "10782897524556318080696y"),
    ] {
        let shown = FormattedRelativeDuration(Nanos(nanos)).to_string(rt.alloc())?;
        expect_text(&rt, shown.as_str(), text);
    }
    Ok(())
}

#[test]
fn commands(rt: HostRuntime) -> Result<(), Fail> {
    let command = CommandLine::from_words(rt.alloc(), &["cargo", "", "it's", "a=b"])?;
    let joined = shell_join(rt.alloc(), &command)?;
    expect_text(&rt, joined.as_str(), "cargo '' 'it'\\''s' a=b");
    let args = [String::from_str(rt.alloc(), "an argument")?];
    let script_id = ScriptId::new(rt.alloc(), "s1")?;
    let first = StressIndex {
        current: 0,
        total: None,
    };
    let shown = DisplayScriptInstance::new(
        rt.alloc(),
        Some(first),
        script_id,
        "cmd",
        &args,
        Style::BoldBlue,
        Style::Plain,
    )?;
    expect_text(
        &rt,
        shown.to_string(rt.alloc())?.as_str(),
        "[1] \x1b[34;1ms1\x1b[0m: cmd 'an argument'",
    );
    expect_text(
        &rt,
        QuotedDisplay(&"it's").to_string(rt.alloc())?.as_str(),
        "'it's'",
    );
    Ok(())
}

const RANDOM: &str = "00000000-0000-4000-8000-000000000000";

const FORCED: &str = "12345678-1234-5678-9abc-123456789abc";

const REFUSED: Option<&str> = Some(
    "__NEXTEST_FORCE_RUN_ID is set but invalid (expected UUID), generating random ID",
);

#[test]
fn ids_of_runs(rt: HostRuntime) -> Result<(), Fail> {
    for (value, want, refused) in [
        (None, RANDOM, None),
        (Some(""), RANDOM, REFUSED),
        (Some("x"), RANDOM, REFUSED),
        (Some("12345678-1234-5678-9abc-123456789ab"), RANDOM, REFUSED),
        (Some(FORCED), FORCED, None),
        (Some("12345678123456789ABC123456789ABC"), FORCED, None),
        (Some("{12345678-1234-5678-9abc-123456789abc}"), FORCED, None),
        (
            Some("URN:UUID:12345678-1234-5678-9abc-123456789abc"),
            FORCED,
            None,
        ),
    ] {
        let (id, warning) = force_or_new_run_id(value, [0; 16]);
        expect_text(&rt, id.to_string(rt.alloc())?.as_str(), want);
        assert!(rt; warning == refused);
    }
    Ok(())
}

// A process that was ended by a signal.
fn ended_by(alloc: Global, signal: i32, name: Option<&str>) -> Result<AbortDescription, Fail> {
    let name = match name {
        Some(name) => Some(DescriptionText::new(alloc, name)?),
        None => None,
    };
    Ok(AbortDescription::UnixSignal { signal, name })
}

// The texts for how a process exits and for how it aborts.
fn expect_exit(
    rt: &impl Abort,
    alloc: Global,
    exit: &ExitDescription,
    want: &str,
) -> Result<(), Fail> {
    expect_text(rt, display_exited_with(alloc, exit)?.as_str(), want);
    if let ExitDescription::Abort(abort) = exit {
        expect_text(rt, display_abort_status(alloc, abort)?.as_str(), want);
    }
    Ok(())
}

#[test]
fn how_a_process_exits(rt: HostRuntime) -> Result<(), Fail> {
    let alloc = rt.alloc();
    let code = ExitDescription::Code(3);
    expect_exit(&rt, alloc, &code, "exited with exit code 3")?;
    let unknown = ExitDescription::Unknown;
    expect_exit(&rt, alloc, &unknown, "exited with an unknown error")
}

#[test]
fn how_a_process_aborts(rt: HostRuntime) -> Result<(), Fail> {
    let alloc = rt.alloc();
    let greatest = ExitDescription::Abort(ended_by(alloc, i32::MAX, None)?);
    expect_exit(&rt, alloc, &greatest, "aborted with signal 2147483647")?;
    let named = ExitDescription::Abort(ended_by(alloc, 11, Some("SEGV"))?);
    expect_exit(&rt, alloc, &named, "aborted with signal 11 (SIGSEGV)")
}

#[test]
fn how_a_process_of_windows_aborts(rt: HostRuntime) -> Result<(), Fail> {
    let alloc = rt.alloc();
    let job = ExitDescription::Abort(AbortDescription::WindowsJobObject);
    expect_exit(&rt, alloc, &job, "terminated via job object")?;
    let violation = ExitDescription::Abort(AbortDescription::WindowsNtStatus {
        code: -1073741819,
        message: Some(DescriptionText::new(alloc, "Access violation")?),
    });
    expect_exit(
        &rt,
        alloc,
        &violation,
        "aborted with code 0xc0000005: Access violation",
    )
}

#[test]
fn names_of_tests(rt: HostRuntime) -> Result<(), Fail> {
    for text in ["mod::t2", "t1"] {
        let name = TestCaseName::new(rt.alloc(), text)?;
        let mut out = String::new(rt.alloc());
        write_test_name(&name, &ListStyles::default(), &mut out)?;
        expect_text(&rt, out.as_str(), text);
    }
    Ok(())
}

#[test]
fn an_interceptor_takes_one_test(rt: HostRuntime) -> Result<(), Fail> {
    let listed = [OwnedTestInstanceId::new(rt.alloc(), "a", "t1")?];
    let text = format_interceptor_too_many_tests(
        rt.alloc(),
        "debugger",
        NextestRunMode::Test,
        3,
        &listed,
        &ListStyles::default(),
        Style::Plain,
    )?;
    expect_text(
        &rt,
        text.as_str(),
        "--debugger requires exactly one test, but 3 tests were selected:\n  a t1\n  ... and 2 more tests",
    );
    Ok(())
}

// How many paths a variable has, and the last of them.
fn expect_paths(
    rt: &impl Abort,
    alloc: Global,
    value: Option<&str>,
    count: usize,
    last: &str,
) -> Result<(), Fail> {
    let paths = dylib_path(alloc, value)?;
    assert!(rt; paths.len() == count);
    expect_text(rt, paths.last().copied().unwrap_or(""), last);
    Ok(())
}

#[test]
fn paths_of_a_variable(rt: HostRuntime) -> Result<(), Fail> {
    let alloc = rt.alloc();
    expect_text(&rt, dylib_path_envvar(), "LD_LIBRARY_PATH");
    expect_paths(&rt, alloc, None, 0, "")?;
    expect_paths(&rt, alloc, Some(""), 1, "")?;
    expect_paths(&rt, alloc, Some("a"), 1, "a")?;
    expect_paths(&rt, alloc, Some("a::b"), 3, "b")?;
    expect_paths(&rt, alloc, Some(":a:"), 3, "")
}

#[test]
fn paths(rt: HostRuntime) -> Result<(), Fail> {
    let alloc = rt.alloc();
    assert!(rt; is_relative("a/b") && is_relative("") && !is_relative("/a"));
    let joined = rel_path_join(alloc, "a", "b/c")?;
    expect_text(&rt, joined.as_str(), "a/b/c");
    let forward = convert_rel_path_to_forward_slash(alloc, "a/b/c")?;
    expect_text(&rt, forward.as_str(), "a/b/c");
    let main = convert_rel_path_to_main_sep(alloc, "a/b/c")?;
    expect_text(&rt, main.as_str(), "a/b/c");
    Ok(())
}

// Whether a theme has these characters; the first is that of its bars.
fn has_characters(theme: &ThemeCharacters, bar: char, texts: [&str; 5]) -> bool {
    theme.hbar_char() == bar
        && texts
            == [
                theme.progress_chars(),
                theme.tree_branch(),
                theme.tree_last(),
                theme.tree_continuation(),
                theme.tree_space(),
            ]
}

#[test]
fn characters_of_a_theme(rt: HostRuntime) -> Result<(), Fail> {
    let mut theme = ThemeCharacters::default();
    expect_text(&rt, theme.hbar(rt.alloc(), 3)?.as_str(), "---");
    assert!(rt; has_characters(&theme, '-', ["=> ", "|-", "\\-", "| ", "  "]));
    theme.use_unicode();
    expect_text(&rt, theme.hbar(rt.alloc(), 3)?.as_str(), "───");
    assert!(rt; has_characters(&theme, '─', ["█▉▊▋▌▍▎▏ ", "├─", "└─", "│ ", "  "]));
    Ok(())
}
