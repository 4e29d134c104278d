//! The progress display and the levels of a report: what a user and a profile ask for, and what the report gets.

ghost use Rattle.std.specs.Prelude.{◌≡◌, ◌≤◌, true, false};
ghost use Rattle.unit_report.specs.Levels.{progress_display_of, suppresses, raised, resolved_levels, resolved_display};
ghost use Rattle.unit_report.specs.Levels.{overridden};
ghost use Rattle.run_names.specs.Levels.{status_rank};

use run_model::level::{FinalStatusLevel, StatusLevel};

/// How a user asks for progress to be shown.
#[derive(Clone, Copy, Debug, PartialEq, Eq)]
pub enum ShowProgress {
    /// A bar where one can be drawn, else a counter.
    Auto {
        /// Whether a bar replaces the lines of tests that passed.
        suppress_success: bool,
    },
    /// None.
    None,
    /// A counter on each line.
    Counter,
    /// A bar with the running tests, where one can be drawn.
    Running,
}

/// How the progress of a run is shown.
#[derive(Clone, Copy, Debug, PartialEq, Eq)]
pub enum ProgressDisplay {
    /// A bar. A report to a writer draws none.
    Bar,
    /// A counter on each line.
    Counter,
    /// None.
    None,
}

/// The levels of a report.
#[derive(Clone, Copy, Debug, PartialEq, Eq)]
pub struct StatusLevels {
    /// The level during the run.
    pub status_level: StatusLevel,
    /// The level of the final summary.
    pub final_status_level: FinalStatusLevel,
}

/// The progress display and the levels of a report.
#[derive(Clone, Copy, Debug, PartialEq, Eq)]
pub struct ResolvedDisplay {
    /// How progress is shown.
    pub progress_display: ProgressDisplay,
    /// The levels.
    pub status_levels: StatusLevels,
}

/// What a user and a profile ask of a report.
#[derive(Clone, Copy, Debug, PartialEq, Eq)]
pub struct DisplayConfig {
    /// How progress should be shown.
    pub show_progress: ShowProgress,
    /// Whether the tests' output is not captured.
    pub no_capture: bool,
    /// The level that a user asks for. It overrides the profile's.
    pub status_level: Option<StatusLevel>,
    /// The final level that a user asks for. It overrides the profile's.
    pub final_status_level: Option<FinalStatusLevel>,
    /// The profile's level.
    pub profile_status_level: StatusLevel,
    /// The profile's final level.
    pub profile_final_status_level: FinalStatusLevel,
}

impl DisplayConfig {
    /// A configuration with these levels, as the user's and as the profile's.
    ///
    /// ```
    /// let (level, final_level) = (StatusLevel::Fail, FinalStatusLevel::Fail);
    /// let config = DisplayConfig::with_overrides(ShowProgress::Counter, false, level, final_level);
    /// assert_eq!(config.resolve(false, false).progress_display, ProgressDisplay::Counter);
    /// ```
    pub fn with_overrides(
        show_progress: ShowProgress,
        no_capture: bool,
        status_level: StatusLevel,
        final_status_level: FinalStatusLevel,
    ) -> DisplayConfig
        ensures { result ≡ overridden show_progress no_capture status_level final_status_level }
    {
        DisplayConfig {
            show_progress,
            no_capture,
            status_level: Some(status_level),
            final_status_level: Some(final_status_level),
            profile_status_level: status_level,
            profile_final_status_level: final_status_level,
        }
    }

    /// The progress display and the levels that the report gets. A bar needs captured output, a terminal and no CI.
    /// Without capture the status level is at least Pass: the tests' own output then comes between the lines.
    ///
    /// ```
    /// let (level, final_level) = (StatusLevel::Fail, FinalStatusLevel::Fail);
    /// let config = DisplayConfig::with_overrides(ShowProgress::Running, true, level, final_level);
    /// let resolved = config.resolve(true, false);
    /// assert_eq!(resolved.progress_display, ProgressDisplay::None);
    /// assert_eq!(resolved.status_levels.status_level, StatusLevel::Pass);
    /// ```
    #[tactic(auto, unfolding(crate::specs::Levels::resolved_display))]
    pub fn resolve(&self, is_terminal: bool, is_ci: bool) -> ResolvedDisplay
        ensures table { result ≡ resolved_display self.now is_terminal is_ci }
        ensures bar { result.progress_display ≡ ProgressDisplay.Bar
            → (self.now.no_capture ≡ false) × (is_terminal ≡ true) × (is_ci ≡ false) }
        ensures no_capture { self.now.no_capture ≡ true
            → status_rank StatusLevel.Pass ≤ status_rank result.status_levels.status_level }
    {
        let can_bar = !self.no_capture && (is_terminal && !is_ci);
        ResolvedDisplay {
            progress_display: self.show_progress.display(can_bar),
            status_levels: self.levels(self.show_progress.suppresses(can_bar)),
        }
    }

    fn levels(&self, is_suppressed: bool) -> StatusLevels
        ensures { result ≡ resolved_levels self.now is_suppressed }
    {
        let status_level = if is_suppressed {
            StatusLevel::Slow
        } else {
            self.profile_status_level
        };
        let final_status_level = if is_suppressed {
            FinalStatusLevel::None
        } else {
            self.profile_final_status_level
        };
        StatusLevels {
            status_level: raised_level(self.no_capture, self.status_level.unwrap_or(status_level)),
            final_status_level: self.final_status_level.unwrap_or(final_status_level),
        }
    }
}

// Without capture the level is at least Pass.
fn raised_level(no_capture: bool, level: StatusLevel) -> StatusLevel
    ensures { result ≡ raised no_capture level }
{
    if no_capture && level < StatusLevel::Pass {
        StatusLevel::Pass
    } else {
        level
    }
}

impl ShowProgress {
    fn display(self, can_bar: bool) -> ProgressDisplay
        ensures { result ≡ progress_display_of self can_bar }
    {
        match self {
            ShowProgress::Auto { .. } => {
                if can_bar {
                    ProgressDisplay::Bar
                } else {
                    ProgressDisplay::Counter
                }
            }
            ShowProgress::Running => {
                if can_bar {
                    ProgressDisplay::Bar
                } else {
                    ProgressDisplay::None
                }
            }
            ShowProgress::Counter => ProgressDisplay::Counter,
            ShowProgress::None => ProgressDisplay::None,
        }
    }

    fn suppresses(self, can_bar: bool) -> bool
        ensures { result ≡ suppresses self can_bar }
    {
        match self {
            ShowProgress::Auto { suppress_success } => can_bar && suppress_success,
            ShowProgress::Running | ShowProgress::Counter | ShowProgress::None => false,
        }
    }
}
