//! The settings of a reporter, from its configuration.

ghost use Rattle.std.specs.Prelude.{◌≡◌};
ghost use Rattle.styled_text.specs.Style.{styles_of};
ghost use Rattle.text_parts.specs.Settings.{counter_width_of, finished_counter, is_level_shown, overrides_by};
ghost use Rattle.text_parts.specs.Settings.{padded_counter, shows_starts, started_counter, theme_of};

use report_text::helpers::{DisplayCounterIndex, ThemeCharacters, decimal_char_width};
use run_model::config::{CompiledDefaultFilter, NextestRunMode, TestOutputDisplay};
use run_model::level::StatusLevel;
use run_model::stats::RunStats;
use styled_text::style::Styles;
use unit_report::config::{ProgressDisplay, StatusLevels};
use unit_report::unit_output::{OutputDisplayOverrides, UnitOutputReporter};

/// The settings of a reporter. They never change.
#[derive(Drop)]
pub struct Settings {
    /// Whether the run runs tests or benchmarks.
    pub mode: NextestRunMode,
    /// What is shown.
    pub status_levels: StatusLevels,
    /// The styles of the report.
    pub styles: Styles,
    /// How wide a counter's numbers are, where counters are shown.
    pub counter_width: Option<usize>,
    /// Where the default filter comes from, which the start of a run names.
    pub default_filter: CompiledDefaultFilter,
    /// The characters of bars.
    pub theme_characters: ThemeCharacters,
    /// What shows the output of tests, and whose setting decides when.
    pub unit_output: UnitOutputReporter,
    /// Whether output has no margin.
    pub no_output_indent: bool,
    /// Whether the output of tests is not captured. The output of a test then follows the line that says that it
    /// started.
    pub no_capture: bool,
    /// Whether the command lines of tests are shown.
    pub verbose: bool,
}

impl Settings {
    /// The counter of a finished test, if counters are shown: how many tests have finished.
    pub fn finished_counter(&self, stats: &RunStats) -> Option<DisplayCounterIndex>
        ensures { result ≡ finished_counter self.now stats.now }
    {
        match self.counter_width {
            None => None,
            Some(_) => Some(DisplayCounterIndex::new_counter(
                stats.finished_count,
                stats.initial_run_count,
            )),
        }
    }

    /// The counter of a test that starts, if counters are shown: one more than the tests that have finished.
    pub fn started_counter(&self, stats: &RunStats) -> Option<DisplayCounterIndex>
        ensures { result ≡ started_counter self.now stats.now }
    {
        match self.counter_width {
            None => None,
            Some(_) => Some(DisplayCounterIndex::Counter {
                current: stats.finished_count as u128 + 1,
                total: stats.initial_run_count as u128,
            }),
        }
    }

    /// The replacement of a counter, if counters are shown, in the lines of tests that have none.
    pub fn padded_counter(&self) -> Option<DisplayCounterIndex>
        ensures { result ≡ padded_counter self.now }
    {
        match self.counter_width {
            None => None,
            Some(width) => Some(DisplayCounterIndex::new_padded(
                self.theme_characters.hbar_char(),
                width,
            )),
        }
    }

    /// Whether a line of this level is shown during the run.
    #[tactic(auto, unfolding(crate::specs::Settings::is_level_shown))]
    pub fn is_level_shown(&self, level: StatusLevel) -> bool
        ensures { result ≡ is_level_shown self.now level }
    {
        level.is_shown_at(self.status_levels.status_level)
    }

    /// Whether the start of a test is shown.
    #[tactic(auto, unfolding(crate::specs::Settings::shows_starts))]
    pub fn shows_starts(&self) -> bool
        ensures { result ≡ shows_starts self.now }
    {
        self.no_capture || self.verbose
    }
}

/// The width of the numbers of a counter, if counters are shown: that of the number of tests.
///
/// ```
/// use unit_report::config::ProgressDisplay;
/// assert_eq!(counter_width_for(ProgressDisplay::Counter, 120), Some(3));
/// ```
pub fn counter_width_for(progress_display: ProgressDisplay, run_count: usize) -> Option<usize>
    ensures { result ≡ counter_width_of progress_display run_count }
{
    match progress_display {
        ProgressDisplay::Counter => Some(decimal_char_width(run_count)),
        ProgressDisplay::Bar | ProgressDisplay::None => None,
    }
}

/// The styles of a report with colours or without.
pub fn styles_for(should_colorize: bool) -> Styles
    ensures { result ≡ styles_of should_colorize }
{
    let mut styles = Styles::default();
    if should_colorize {
        styles.colorize();
    }
    styles
}

/// The characters of a report in Unicode or in ASCII.
pub fn theme_for(use_unicode: bool) -> ThemeCharacters
    ensures { result ≡ theme_of use_unicode }
{
    let mut theme_characters = ThemeCharacters::default();
    if use_unicode {
        theme_characters.use_unicode();
    }
    theme_characters
}

/// The overrides of the tests' own display settings. Without capture there is no output to show, only why a test could
/// not be started.
pub fn overrides_for(
    no_capture: bool,
    success_output: Option<TestOutputDisplay>,
    failure_output: Option<TestOutputDisplay>,
) -> OutputDisplayOverrides
    ensures { result ≡ overrides_by no_capture success_output failure_output }
{
    if no_capture {
        OutputDisplayOverrides {
            force_success_output: Some(TestOutputDisplay::Never),
            force_failure_output: Some(TestOutputDisplay::Never),
            force_exec_fail_output: Some(TestOutputDisplay::Immediate),
        }
    } else {
        OutputDisplayOverrides {
            force_success_output: success_output,
            force_failure_output: failure_output,
            force_exec_fail_output: failure_output,
        }
    }
}
