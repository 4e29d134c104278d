//! How a run is reported, as the `config` lines of a scene say.

ghost use Rattle.std.specs.Prelude.{◌≡◌};

use run_model::config::{NextestRunMode, TestOutputDisplay};
use run_model::level::FinalStatusLevel;

/// How a run is reported.
#[derive(Clone, Copy)]
pub struct SceneConfig {
    /// The level from which on the summary lists a test.
    pub final_status_level: FinalStatusLevel,
    /// How many tests the run has, which decides the width of a counter that is not known.
    pub run_count: usize,
    /// Whether the run runs tests or benchmarks.
    pub mode: NextestRunMode,
    /// When the output of tests that succeed is shown, whatever their events say.
    pub success_output: Option<TestOutputDisplay>,
    /// When the output of tests that fail is shown, whatever their events say.
    pub failure_output: Option<TestOutputDisplay>,
    /// Whether tests write to the terminal themselves, so that nothing is captured.
    pub no_capture: bool,
    /// Whether a test that starts is shown by its command.
    pub verbose: bool,
    /// Whether output has no margin.
    pub no_output_indent: bool,
    /// Whether the report has characters beyond ASCII.
    pub use_unicode: bool,
    /// Whether streams that were captured empty are shown.
    pub display_empty_outputs: bool,
}

impl SceneConfig {
    ghost use Rattle.scene_run_lines.specs.Configs.{unconfigured};

    /// The defaults.
    pub fn new() -> SceneConfig
        ensures { result ≡ unconfigured }
    {
        SceneConfig {
            final_status_level: FinalStatusLevel::Flaky,
            run_count: 0,
            mode: NextestRunMode::Test,
            success_output: None,
            failure_output: None,
            no_capture: false,
            verbose: false,
            no_output_indent: false,
            use_unicode: false,
            display_empty_outputs: false,
        }
    }
}
