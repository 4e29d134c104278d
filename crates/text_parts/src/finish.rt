//! When a finished test is shown: immediately, and at the end of the run.

ghost use Rattle.std.specs.Prelude.{◌≡◌, true};
ghost use Rattle.run_model.specs.Names.{reason_rank, described_summary};
ghost use Rattle.text_parts.specs.Finish.{display_of, output_timing, is_ever_shown, is_final_wanted, is_line_shown};
ghost use Rattle.text_parts.specs.Finish.{is_terminated, is_terminated_abort, is_terminated_failure, timed_at_end};
ghost use Rattle.text_parts.specs.Finish.{timed_at_once, timed_listed};

use crate::settings::Settings;
use run_model::abort::AbortDescription;
use run_model::config::TestOutputDisplay;
use run_model::level::CancelReason;
use run_model::output::LiveSpec;
use run_model::status::{ExecutionDescription, ExecutionResultDescription, FailureDescription};

/// How a finished test is shown.
///
/// ```
/// let timing = OutputTiming::of_test(Some(CancelReason::Interrupt), &ExecutionResultDescription::Pass);
/// assert!(!timing.is_shown_at_once(TestOutputDisplay::Immediate));
/// ```
#[derive(Clone, Copy, PartialEq, Eq)]
pub enum OutputTiming {
    /// Its output is not shown, and it is not kept.
    Hidden,
    /// Its output is shown where its display says: at once, at the end or both times.
    Shown,
    /// Like `Shown`, but not a second time at the end if it was shown at once.
    ShownOnce,
}

impl OutputTiming {
    /// When the output of a test with this result is shown, in a run that was cancelled for this reason before.
    #[tactic(auto, unfolding(crate::specs::Finish::output_timing))]
    pub fn of_test(
        reason: Option<CancelReason>,
        outcome: &ExecutionResultDescription,
    ) -> OutputTiming
        ensures { result ≡ output_timing (reason_rank reason) outcome.now }
    {
        match reason {
            None
            | Some(
                CancelReason::SetupScriptFailure
                | CancelReason::TestFailure
                | CancelReason::ReportError
                | CancelReason::GlobalTimeout,
            ) => OutputTiming::Shown,
            Some(CancelReason::TestFailureImmediate) => {
                if is_terminated(outcome) {
                    OutputTiming::Hidden
                } else {
                    OutputTiming::Shown
                }
            }
            Some(CancelReason::Signal) => OutputTiming::ShownOnce,
            Some(CancelReason::Interrupt | CancelReason::SecondSignal) => OutputTiming::Hidden,
        }
    }

    /// Whether output with this display is shown immediately.
    #[tactic(auto, unfolding(crate::specs::Finish::timed_at_once))]
    pub fn is_shown_at_once(self, display: TestOutputDisplay) -> bool
        ensures row { result ≡ timed_at_once self display }
        ensures shown { result ≡ true → is_ever_shown display ≡ true }
    {
        match self {
            OutputTiming::Hidden => false,
            OutputTiming::Shown => display.is_immediate(),
            OutputTiming::ShownOnce => display.is_immediate(),
        }
    }

    /// Whether output with this display is shown at the end of the run.
    #[tactic(auto, unfolding(crate::specs::Finish::timed_at_end))]
    pub fn is_shown_at_end(self, display: TestOutputDisplay) -> bool
        ensures row { result ≡ timed_at_end self display }
        ensures shown { result ≡ true → is_ever_shown display ≡ true }
    {
        match self {
            OutputTiming::Hidden => false,
            OutputTiming::Shown => display.is_final(),
            OutputTiming::ShownOnce => display.is_final() && !display.is_immediate(),
        }
    }

    /// Whether the summary lists a test whose level or output asks for it.
    #[tactic(auto, unfolding(crate::specs::Finish::timed_listed))]
    pub fn is_listed(self, is_wanted: bool) -> bool
        ensures { result ≡ timed_listed self is_wanted }
    {
        match self {
            OutputTiming::Hidden => false,
            OutputTiming::Shown => is_wanted,
            OutputTiming::ShownOnce => is_wanted,
        }
    }
}

fn is_terminated(outcome: &ExecutionResultDescription) -> bool
    ensures { result ≡ is_terminated outcome.now }
{
    match outcome {
        ExecutionResultDescription::Fail { failure, .. } => is_terminated_failure(failure),
        ExecutionResultDescription::Pass
        | ExecutionResultDescription::Leak { .. }
        | ExecutionResultDescription::ExecFail
        | ExecutionResultDescription::Timeout { .. } => false,
    }
}

fn is_terminated_failure(failure: &FailureDescription) -> bool
    ensures { result ≡ is_terminated_failure failure.now }
{
    match failure {
        FailureDescription::ExitCode { .. } => false,
        FailureDescription::Abort { abort } => is_terminated_abort(abort.get()),
    }
}

// Whether it was ended by SIGTERM or with its job object, as nextest ends processes.
fn is_terminated_abort(abort: &AbortDescription) -> bool
    ensures { result ≡ is_terminated_abort abort.now }
{
    match abort {
        AbortDescription::UnixSignal { signal, .. } => *signal == 15,
        AbortDescription::WindowsNtStatus { .. } => false,
        AbortDescription::WindowsJobObject => true,
    }
}

impl Settings {
    /// When the output of a finished test is shown, given its settings for a success and for a failure.
    #[tactic(auto, unfolding(crate::specs::Finish::display_of))]
    pub fn display_of(
        &self,
        success_output: TestOutputDisplay,
        failure_output: TestOutputDisplay,
        describe: &ExecutionDescription<'_, LiveSpec>,
    ) -> TestOutputDisplay
        ensures { result ≡ display_of self.now success_output failure_output (described_summary describe.now) }
    {
        self.unit_output
            .overrides()
            .resolve_for_describe(success_output, failure_output, describe)
    }

    /// Whether the line of a finished test is shown immediately.
    #[tactic(auto, unfolding(crate::specs::Finish::is_line_shown))]
    pub fn is_line_shown(&self, describe: &ExecutionDescription<'_, LiveSpec>) -> bool
        ensures { result ≡ is_line_shown self.now (described_summary describe.now) }
    {
        describe
            .status_level()
            .is_shown_at(self.status_levels.status_level)
    }

    /// Whether the summary lists a finished test: for its output, or for its level.
    #[tactic(auto, unfolding(crate::specs::Finish::is_final_wanted))]
    #[inline(always)]
    pub fn is_final_wanted(
        &self,
        display: TestOutputDisplay,
        describe: &ExecutionDescription<'_, LiveSpec>,
    ) -> bool
        ensures { result ≡ is_final_wanted self.now display (described_summary describe.now) }
    {
        display.is_final()
            || describe
                .final_status_level()
                .is_shown_at(self.status_levels.final_status_level)
    }
}
