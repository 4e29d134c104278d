//! How a reporter is configured.

ghost use Rattle.std.specs.Prelude.{◌≡◌, IfOk, [], None, Some};
ghost use Rattle.text_parts.specs.Settings.{overrides_by};
ghost use Rattle.console_reporter.specs.Names.{decider_of, configured, configured_in, configured_with_store};
ghost use Rattle.console_reporter.specs.Names.{default_builder, settings_of, StandsAfter, config_of};

use super::reporter::DisplayReporter;
use super::store::Store;
use reporter_state::decider::OutputLoadDecider;
use run_model::config::{
    CompiledDefaultFilter, CompiledDefaultFilterSection, NextestRunMode, TestOutputDisplay,
};
use run_model::level::{FinalStatusLevel, StatusLevel};
use run_model::memory::OutOfMemory;
use run_model::name::ProfileName;
use std::alloc::Global;
use store_text::config::StoreConfig;
use text_parts::settings::{Settings, counter_width_for, overrides_for, styles_for, theme_for};
use unit_report::config::{DisplayConfig, ShowProgress};
use unit_report::unit_output::{DisplayerKind, OutputDisplayOverrides, UnitOutputReporter};
use writers::write_str::WriteStr;

/// Where a report goes. nextest detects this itself; a caller of this library sets it. The default is a file: no
/// terminal, no build machine, ASCII characters, and empty outputs are not shown.
///
/// ```
/// let surroundings = Surroundings { use_unicode: true, ..Surroundings::default() };
/// assert!(!surroundings.is_terminal);
/// ```
#[derive(Clone, Copy, Debug, Default, PartialEq, Eq)]
pub struct Surroundings {
    /// Whether bars are drawn with characters beyond ASCII.
    pub use_unicode: bool,
    /// Whether the report goes to a terminal.
    pub is_terminal: bool,
    /// Whether the run is on a build machine.
    pub is_ci: bool,
    /// Whether an empty stream is shown with its header.
    pub display_empty_outputs: bool,
}

/// What a reporter is built from. [`DisplayReporterBuilder::new`] has nextest's defaults.
///
/// ```
/// builder.should_colorize = true;
/// builder.failure_output = Some(TestOutputDisplay::Final);
/// let mut reporter = builder.build_for(alloc, &mut out, Surroundings::default());
/// reporter.write_event(&event)?;
/// drop(reporter);
/// assert!(out.as_str().ends_with("alpha\x1b[0m \x1b[34;1mt1\x1b[0m\n"));
/// ```
#[derive(Debug, Drop)]
pub struct DisplayReporterBuilder {
    /// Whether the run runs tests or benchmarks.
    pub mode: NextestRunMode,
    /// The default filter that skips binaries and tests.
    pub default_filter: CompiledDefaultFilter,
    /// The levels and the progress display.
    pub display_config: DisplayConfig,
    /// How many tests will run, which decides the width of padded counters.
    pub run_count: usize,
    /// When the output of successful tests is shown. It overrides the setting of each test.
    pub success_output: Option<TestOutputDisplay>,
    /// When the output of failed tests is shown. It overrides the setting of each test.
    pub failure_output: Option<TestOutputDisplay>,
    /// Whether the report has colours.
    pub should_colorize: bool,
    /// Whether the command lines of tests are shown.
    pub verbose: bool,
    /// Whether captured output is written without an indent.
    pub no_output_indent: bool,
    /// Whether the report is made during the run or from its record.
    pub displayer_kind: DisplayerKind,
}

impl DisplayReporterBuilder {
    /// nextest's defaults for a run of this many tests: tests that pass, fail or are retried have a line, failed and
    /// flaky tests are listed in the summary, and there are counters and no colours. It allocates the name of the
    /// default profile.
    ///
    /// ```
    /// let mut builder = DisplayReporterBuilder::new(alloc, 2)?;
    /// builder.should_colorize = true;
    /// builder.display_config.status_level = Some(StatusLevel::Fail);
    /// ```
    ///
    /// # Errors
    ///
    /// Memory was refused.
    pub fn new(alloc: Global, run_count: usize) -> Result<Self, OutOfMemory>
        ensures { IfOk result (λ builder. builder ≡ default_builder run_count) }
    {
        Ok(DisplayReporterBuilder {
            mode: NextestRunMode::Test,
            default_filter: CompiledDefaultFilter::for_default_config(alloc)?,
            display_config: DisplayConfig {
                show_progress: ShowProgress::Auto {
                    suppress_success: false,
                },
                no_capture: false,
                status_level: None,
                final_status_level: None,
                profile_status_level: StatusLevel::Pass,
                profile_final_status_level: FinalStatusLevel::Flaky,
            },
            run_count,
            success_output: None,
            failure_output: None,
            should_colorize: false,
            verbose: false,
            no_output_indent: false,
            displayer_kind: DisplayerKind::Live,
        })
    }

    /// A reporter to a writer in these surroundings. Nothing is written yet.
    ///
    /// ```
    /// let mut reporter = builder.build_for(alloc, &mut out, Surroundings::default());
    /// reporter.write_event(&event)?;
    /// drop(reporter);
    /// assert_eq!(out.as_str(), "        PASS [   0.020s] (1/1) alpha t1\n");
    /// ```
    ///
    /// [`DisplayReporterBuilder::build`] makes the same reporter from nextest's four flags. Neither allocates: the
    /// reporter keeps `alloc` for the tests that the summary will list.
    pub fn build_for<'a, W: WriteStr>(
        self,
        alloc: Global,
        writer: &'a mut W,
        surroundings: Surroundings,
    ) -> DisplayReporter<'a, W, String>
        ensures same_reference { result.writer.ghost_name ≡ writer.entry.ghost_name }
        ensures untouched { result.writer.now ≡ writer.old }
        ensures no_store { result.store ≡ None }
        ensures stands { StandsAfter
            (configured self surroundings.use_unicode surroundings.is_terminal surroundings.is_ci
            surroundings.display_empty_outputs)
            [] result }
    {
        self.build_in(alloc, writer, None, surroundings)
    }

    /// A reporter to a writer. Nothing is written yet. It allocates nothing.
    ///
    /// ```
    /// let (use_unicode, is_terminal, is_ci, display_empty_outputs) = (true, false, false, false);
    /// let mut reporter = builder.build(alloc, &mut out, use_unicode, is_terminal, is_ci, display_empty_outputs);
    /// reporter.write_event(&event)?;
    /// ```
    pub fn build<'a, W: WriteStr>(
        self,
        alloc: Global,
        writer: &'a mut W,
        use_unicode: bool,
        is_terminal: bool,
        is_ci: bool,
        display_empty_outputs: bool,
    ) -> DisplayReporter<'a, W, String>
        ensures same_reference { result.writer.ghost_name ≡ writer.entry.ghost_name }
        ensures untouched { result.writer.now ≡ writer.old }
        ensures no_store { result.store ≡ None }
        ensures stands { StandsAfter (configured self use_unicode is_terminal is_ci display_empty_outputs) [] result }
    {
        let surroundings = Surroundings {
            use_unicode,
            is_terminal,
            is_ci,
            display_empty_outputs,
        };
        self.build_for(alloc, writer, surroundings)
    }

    /// A reporter to a writer that also writes a record of each finished test to a second one. Nothing is written yet.
    /// It allocates nothing.
    ///
    /// ```
    /// let mut records = String::new(alloc);
    /// let mut reporter = builder.build_with_store(alloc, &mut out, &mut records, store, true, false, false, false);
    /// reporter.write_event(&event)?;
    /// drop(reporter);
    /// assert_eq!(records.as_str(), "5:alpha,2:t1,4:PASS,0:,\n");
    /// ```
    pub fn build_with_store<'a, W: WriteStr, S: WriteStr>(
        self,
        alloc: Global,
        writer: &'a mut W,
        store_writer: &'a mut S,
        store: StoreConfig,
        use_unicode: bool,
        is_terminal: bool,
        is_ci: bool,
        display_empty_outputs: bool,
    ) -> DisplayReporter<'a, W, S>
        ensures same_reference { result.writer.ghost_name ≡ writer.entry.ghost_name }
        ensures untouched { result.writer.now ≡ writer.old }
        ensures store { result.store ≡ Some (record { writer = store_writer.entry; config = store }) }
        ensures stands { StandsAfter
            (configured_with_store store self use_unicode is_terminal is_ci display_empty_outputs) [] result }
    {
        let surroundings = Surroundings {
            use_unicode,
            is_terminal,
            is_ci,
            display_empty_outputs,
        };
        let store = Store::new(store_writer, store);
        self.build_in(alloc, writer, Some(store), surroundings)
    }

    /// A reporter to a writer, and to a store if there is one, in these surroundings. Nothing is written yet. It
    /// allocates nothing.
    ///
    /// ```
    /// use console_reporter::imp::Store;
    /// let mut records = String::new(alloc);
    /// let store = Some(Store::new(&mut records, store));
    /// let mut reporter = builder.build_in(alloc, &mut out, store, Surroundings::default());
    /// reporter.write_event(&event)?;
    /// drop(reporter);
    /// assert_eq!(records.as_str(), "5:alpha,2:t1,4:PASS,0:,\n");
    /// ```
    pub fn build_in<'a, W: WriteStr, S: WriteStr>(
        self,
        alloc: Global,
        writer: &'a mut W,
        store: Option<Store<'a, S>>,
        surroundings: Surroundings,
    ) -> DisplayReporter<'a, W, S>
        ensures same_reference { result.writer.ghost_name ≡ writer.entry.ghost_name }
        ensures untouched { result.writer.now ≡ writer.old }
        ensures store { result.store ≡ store.entry }
        ensures stands { StandsAfter (configured_in self surroundings (config_of store.entry)) [] result }
    {
        let settings = self.settings(surroundings);
        DisplayReporter::new(alloc, writer, store, settings)
    }

    /// Returns the decider, which says from an event's metadata whether the reporter refuses it and whether it needs
    /// its output. It is the decider of the reporter that this builder builds in these surroundings, with this store.
    /// It allocates nothing.
    ///
    /// ```
    /// let decider = builder.output_load_decider(Surroundings::default(), None);
    /// assert_eq!(decider.refusal(&ReportCall::Event(event)), None);
    /// ```
    pub fn output_load_decider(
        &self,
        surroundings: Surroundings,
        store: Option<StoreConfig>,
    ) -> OutputLoadDecider
        ensures { result ≡ decider_of (configured_in self.now surroundings store) }
    {
        let resolved = self
            .display_config
            .resolve(surroundings.is_terminal, surroundings.is_ci);
        OutputLoadDecider::new(resolved.status_levels.status_level, self.overrides(), store)
    }

    fn overrides(&self) -> OutputDisplayOverrides
        ensures { result
            ≡ overrides_by self.now.display_config.no_capture self.now.success_output self.now.failure_output }
    {
        overrides_for(
            self.display_config.no_capture,
            self.success_output,
            self.failure_output,
        )
    }

    fn settings(self, surroundings: Surroundings) -> Settings
        ensures { result ≡ settings_of (configured_in self surroundings None) }
    {
        let Surroundings {
            use_unicode,
            is_terminal,
            is_ci,
            display_empty_outputs,
        } = surroundings;
        let resolved = self.display_config.resolve(is_terminal, is_ci);
        let overrides = self.overrides();
        Settings {
            mode: self.mode,
            status_levels: resolved.status_levels,
            styles: styles_for(self.should_colorize),
            counter_width: counter_width_for(resolved.progress_display, self.run_count),
            default_filter: self.default_filter,
            theme_characters: theme_for(use_unicode),
            unit_output: UnitOutputReporter::new(
                overrides,
                self.displayer_kind,
                display_empty_outputs,
            ),
            no_output_indent: self.no_output_indent,
            no_capture: self.display_config.no_capture,
            verbose: self.verbose,
        }
    }
}
