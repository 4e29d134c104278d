//! The settings that a reporter ends up with, for every terminal, CI, capture and pair of levels that a user can ask
//! for.

use run_model::level::{FinalStatusLevel, StatusLevel};
use unit_report::config::{
    DisplayConfig, ProgressDisplay, ResolvedDisplay, ShowProgress, StatusLevels,
};

fn resolved(
    progress_display: ProgressDisplay,
    status_level: StatusLevel,
    final_status_level: FinalStatusLevel,
) -> ResolvedDisplay {
    ResolvedDisplay {
        progress_display,
        status_levels: StatusLevels {
            status_level,
            final_status_level,
        },
    }
}

// The settings, and what each results in with a progress bar and without. The profile's levels are Retry and Flaky.
fn settings() -> [(ShowProgress, ResolvedDisplay, ResolvedDisplay); 5] {
    let (retry, flaky) = (StatusLevel::Retry, FinalStatusLevel::Flaky);
    let bar = resolved(ProgressDisplay::Bar, retry, flaky);
    let suppressed = resolved(
        ProgressDisplay::Bar,
        StatusLevel::Slow,
        FinalStatusLevel::None,
    );
    let counter = resolved(ProgressDisplay::Counter, retry, flaky);
    let nothing = resolved(ProgressDisplay::None, retry, flaky);
    let auto = ShowProgress::Auto {
        suppress_success: false,
    };
    let auto_suppressing = ShowProgress::Auto {
        suppress_success: true,
    };
    [
        (auto, bar, counter),
        (auto_suppressing, suppressed, counter),
        (ShowProgress::Running, bar, nothing),
        (ShowProgress::Counter, counter, counter),
        (ShowProgress::None, nothing, nothing),
    ]
}

// Without capture, on a terminal, in CI: and whether there can be a bar.
const SURROUNDINGS: &[(bool, bool, bool, bool)] = &[
    (false, true, false, true),
    (false, true, true, false),
    (false, false, false, false),
    (false, false, true, false),
    (true, true, false, false),
    (true, true, true, false),
    (true, false, false, false),
    (true, false, true, false),
];

// The levels that are asked for, the status level that results with capture and without, and the final level.
type LevelRow = (
    Option<StatusLevel>,
    Option<FinalStatusLevel>,
    StatusLevel,
    StatusLevel,
    FinalStatusLevel,
);

// The rows for a setting that has these levels by itself.
fn level_rows(levels: StatusLevels) -> [LevelRow; 4] {
    let (fail, pass, all) = (StatusLevel::Fail, StatusLevel::Pass, StatusLevel::All);
    let (final_slow, final_fail) = (FinalStatusLevel::Slow, FinalStatusLevel::Fail);
    let (status_level, final_status_level) = (levels.status_level, levels.final_status_level);
    [
        (None, None, status_level, pass, final_status_level),
        (Some(fail), None, fail, pass, final_status_level),
        (None, Some(final_slow), status_level, pass, final_slow),
        (Some(all), Some(final_fail), all, all, final_fail),
    ]
}

#[test]
fn every_setting_comes_to_its_row(rt: HostRuntime) {
    for (show_progress, with_bar, without_bar) in settings() {
        for &(no_capture, is_terminal, is_ci, can_bar) in SURROUNDINGS {
            let expected = if can_bar { with_bar } else { without_bar };
            for row in level_rows(expected.status_levels) {
                let (status_level, final_status_level, captured, uncaptured, at_end) = row;
                let config = DisplayConfig {
                    show_progress,
                    no_capture,
                    status_level,
                    final_status_level,
                    profile_status_level: StatusLevel::Retry,
                    profile_final_status_level: FinalStatusLevel::Flaky,
                };
                let while_running = if no_capture { uncaptured } else { captured };
                let want = resolved(expected.progress_display, while_running, at_end);
                assert!(rt; config.resolve(is_terminal, is_ci) == want);
            }
        }
    }
}

const SHOW_PROGRESS: ShowProgress = ShowProgress::Auto {
    suppress_success: true,
};

const SUPPRESSING: DisplayConfig = DisplayConfig {
    show_progress: SHOW_PROGRESS,
    no_capture: false,
    status_level: None,
    final_status_level: None,
    profile_status_level: StatusLevel::Pass,
    profile_final_status_level: FinalStatusLevel::Flaky,
};

#[test]
fn overrides_are_the_levels_of_the_profile_too(rt: HostRuntime) {
    let (leak, final_pass) = (StatusLevel::Leak, FinalStatusLevel::Pass);
    let overridden = DisplayConfig::with_overrides(SHOW_PROGRESS, false, leak, final_pass);
    let expected = DisplayConfig {
        status_level: Some(leak),
        final_status_level: Some(final_pass),
        profile_status_level: leak,
        profile_final_status_level: final_pass,
        ..SUPPRESSING
    };
    assert!(rt; overridden == expected);
    let want = resolved(ProgressDisplay::Bar, leak, final_pass);
    assert!(rt; overridden.resolve(true, false) == want);
}

#[test]
fn levels_that_are_asked_for_win(rt: HostRuntime) {
    let asking_for_all = DisplayConfig {
        status_level: Some(StatusLevel::All),
        ..SUPPRESSING
    };
    let uncaptured = DisplayConfig {
        show_progress: ShowProgress::Running,
        no_capture: true,
        status_level: Some(StatusLevel::Fail),
        ..SUPPRESSING
    };
    let (bar, nothing) = (ProgressDisplay::Bar, FinalStatusLevel::None);
    let (pass, flaky) = (StatusLevel::Pass, FinalStatusLevel::Flaky);
    let slow = resolved(bar, StatusLevel::Slow, nothing);
    let all = resolved(bar, StatusLevel::All, nothing);
    for (config, is_ci, want) in [
        (SUPPRESSING, false, slow),
        (
            SUPPRESSING,
            true,
            resolved(ProgressDisplay::Counter, pass, flaky),
        ),
        (asking_for_all, false, all),
        (
            uncaptured,
            false,
            resolved(ProgressDisplay::None, pass, flaky),
        ),
    ] {
        assert!(rt; config.resolve(true, is_ci) == want);
    }
}
