//! Overrides of the display settings that tests have for their output.

ghost use Rattle.std.specs.Prelude.{◌≡◌, unwrap_or};
ghost use Rattle.{run_model.specs.Statuses.described_summary, unit_report.specs.Overrides.display_for};
ghost use Rattle.{unit_report.specs.Overrides.display_when};

use run_model::config::TestOutputDisplay;
use run_model::output::OutputSpec;
use run_model::status::{ExecutionDescription, ExecutionResultDescription};

/// Overrides of the display settings that each test has. Where an override is absent, the setting of the test counts.
///
/// ```
/// let force_success_output = Some(TestOutputDisplay::Final);
/// let overrides = OutputDisplayOverrides { force_success_output, ..OutputDisplayOverrides::default() };
/// assert_eq!(overrides.success_output(TestOutputDisplay::Never), TestOutputDisplay::Final);
/// assert_eq!(overrides.failure_output(TestOutputDisplay::Never), TestOutputDisplay::Never);
/// ```
#[derive(Clone, Copy, Debug, Default, PartialEq, Eq)]
pub struct OutputDisplayOverrides {
    /// For tests that succeed.
    pub force_success_output: Option<TestOutputDisplay>,
    /// For tests that fail.
    pub force_failure_output: Option<TestOutputDisplay>,
    /// For tests that could not be started.
    pub force_exec_fail_output: Option<TestOutputDisplay>,
}

impl OutputDisplayOverrides {
    /// When the output of a successful test is shown.
    pub fn success_output(&self, event_setting: TestOutputDisplay) -> TestOutputDisplay
        ensures { result ≡ unwrap_or self.now.force_success_output event_setting }
    {
        self.force_success_output.unwrap_or(event_setting)
    }

    /// When the output of a failed test is shown.
    pub fn failure_output(&self, event_setting: TestOutputDisplay) -> TestOutputDisplay
        ensures { result ≡ unwrap_or self.now.force_failure_output event_setting }
    {
        self.force_failure_output.unwrap_or(event_setting)
    }

    /// When the error of a test that could not be started is shown.
    pub fn exec_fail_output(&self, event_setting: TestOutputDisplay) -> TestOutputDisplay
        ensures { result ≡ unwrap_or self.now.force_exec_fail_output event_setting }
    {
        self.force_exec_fail_output.unwrap_or(event_setting)
    }

    /// When the output of a finished test is shown, given its settings for a success and for a failure.
    ///
    /// A test whose last attempt succeeded has the setting of successes, also if it is flaky and counts as failed.
    pub fn resolve_for_describe<S: OutputSpec>(
        &self,
        success_output: TestOutputDisplay,
        failure_output: TestOutputDisplay,
        describe: &ExecutionDescription<'_, S>,
    ) -> TestOutputDisplay
        ensures { result ≡ display_for self.now success_output failure_output (described_summary describe.now) }
    {
        self.resolve(
            describe.is_success_for_output(),
            success_output,
            failure_output,
            &describe.last_status().result,
        )
    }

    /// When the output of a test is shown, from whether its last attempt succeeded and from its last result. A replay
    /// that has not loaded the attempts of a test knows no more.
    ///
    /// ```
    /// let overrides = OutputDisplayOverrides::default();
    /// let (success, failure) = (TestOutputDisplay::Never, TestOutputDisplay::Immediate);
    /// let shown = overrides.resolve(false, success, failure, &ExecutionResultDescription::ExecFail);
    /// assert_eq!(shown, TestOutputDisplay::Immediate);
    /// ```
    pub fn resolve(
        &self,
        is_success: bool,
        success_output: TestOutputDisplay,
        failure_output: TestOutputDisplay,
        last_result: &ExecutionResultDescription,
    ) -> TestOutputDisplay
        ensures { result ≡ display_when self.now is_success success_output failure_output last_result.now }
    {
        if is_success {
            return self.success_output(success_output);
        }
        match last_result {
            ExecutionResultDescription::ExecFail => self.exec_fail_output(failure_output),
            ExecutionResultDescription::Pass
            | ExecutionResultDescription::Leak { .. }
            | ExecutionResultDescription::Fail { .. }
            | ExecutionResultDescription::Timeout { .. } => self.failure_output(failure_output),
        }
    }
}
