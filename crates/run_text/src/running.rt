//! What runs while a run is cancelled, killed or paused.

ghost use Rattle.std.specs.Prelude.{◌≡◌};
ghost use Rattle.{report_words.specs.Parts.paint, run_text.specs.Running.is_none_running};
ghost use Rattle.{run_text.specs.Running.running_text};

use report_text::helpers::plural::{setup_scripts_str, tests_str};
use run_model::config::NextestRunMode;
use styled_text::style::Styles;
use styled_text::text::Number;
use writers::text::WriteText;
use writers::write_str::{WriteFault, WriteStr};

/// How many units are running. Setup scripts and tests never run at the same time; if both are counted, the scripts are
/// shown.
#[derive(Clone, Copy)]
pub struct Running {
    /// How many setup scripts run.
    pub setup_scripts: usize,
    /// How many tests run.
    pub tests: usize,
}

impl Running {
    /// Whether nothing runs.
    #[tactic(auto, unfolding(crate::specs::Running::is_none_running))]
    pub fn is_none(self) -> bool
        ensures { result ≡ is_none_running self }
    {
        self.setup_scripts == 0 && self.tests == 0
    }
}

/// The number of running setup scripts, or else of running tests, with its word.
/// ```
/// let running = Running { setup_scripts: 0, tests: 3 };
/// ShownRunning { styles: &styles, mode: NextestRunMode::Test, running }.write_to(&mut out)?;
/// assert_eq!(out.as_str(), "3 tests");
/// ```
#[derive(Clone, Copy)]
pub struct ShownRunning<'a> {
    /// The styles of the numbers.
    pub styles: &'a Styles,
    /// Whether tests are benchmarks.
    pub mode: NextestRunMode,
    /// How many run.
    pub running: Running,
}

impl WriteText for ShownRunning<'_> {
    ghost text = { λ r. paint r.styles.now (running_text r.mode r.running) };

    #[tactic(auto, unfolding(crate::specs::Running::running_text, crate::specs::Running::number_running))]
    fn write_to<W: WriteStr>(&self, w: &mut W) -> Result<(), WriteFault> {
        let style = self.styles.count;
        let Running {
            setup_scripts,
            tests,
        } = self.running;
        if setup_scripts == 0 {
            let number = Number(style, tests as u128);
            ((number, " "), tests_str(self.mode, tests)).write_to(w)
        } else {
            let number = Number(style, setup_scripts as u128);
            ((number, " "), setup_scripts_str(setup_scripts)).write_to(w)
        }
    }
}
