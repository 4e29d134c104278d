//! What a reporter decides about an event from its metadata alone.

ghost use Rattle.reporter_state.specs.Names.{decider_by, event_refusal, first_refused, is_retried_success, refusal_by};
ghost use Rattle.reporter_state.specs.Names.{refusal_in, HasMetadata, loads_by_metadata, loads_last, decision};
ghost use Rattle.reporter_state.specs.Names.{is_asked_of, lacks_output, load_if, loads, loads_attempt, loads_finish};
ghost use Rattle.reporter_state.specs.Names.{loads_script, needed_answer};
ghost use Rattle.text_parts.specs.Names.{RecordedOutput, RecordingSpec, OutputEventKind, TestEventKind};
ghost use Rattle.{run_model.specs.Names.recorded_kind, run_model.specs.Names.summary_of};
ghost use Rattle.{reporter_state.specs.Names.unread_call, run_model.specs.Names.has_loaded_output};
ghost use Rattle.std.specs.Prelude.{◌≡◌, IfSome, None, Some, false, not};
ghost use Rattle.std.specs.{Option.is_some, Option.option_map_or};

use crate::faults::WriteEventError;
use run_model::call::ReportCall;
use run_model::config::TestOutputDisplay;
use run_model::event::{TestEvent, TestEventKind};
use run_model::info::InfoResponse;
use run_model::level::StatusLevel;
use run_model::output::{OutputSpec, RecordingSpec};
use run_model::output_event::{LoadOutput, OutputEventKind};
use run_model::status::{ExecutionResultDescription, ExecutionStatuses};
use store_text::config::StoreConfig;
use text_parts::settings::Settings;
use unit_report::unit_output::OutputDisplayOverrides;

/// Decides from an event's metadata what a reporter of one configuration does with it, independent of the calls before.
///
/// A replay asks it before it loads recorded output. A reporter has a decider, and a builder has that of the reporter
/// that it will build.
///
/// ```
/// let decider = builder.output_load_decider(Surroundings::default(), None);
/// assert_eq!(decider.refusal(&ReportCall::Event(event)), None);
/// ```
#[derive(Clone, Copy, Debug)]
pub struct OutputLoadDecider {
    status_level: StatusLevel,
    overrides: OutputDisplayOverrides,
    store: Option<StoreConfig>,
}

/// The metadata of an event that may have captured output.
#[derive(Clone, Copy)]
pub enum OutputMetadata<'a> {
    /// A setup script has finished.
    SetupScriptFinished {
        /// Its result.
        result: &'a ExecutionResultDescription,
    },
    /// An attempt of a test has failed, and another one follows.
    TestAttemptFailedWillRetry {
        /// When the output of a failure should be shown.
        failure_output: TestOutputDisplay,
    },
    /// A test has finished.
    TestFinished {
        /// When its output should be shown if it succeeded.
        success_output: TestOutputDisplay,
        /// When its output should be shown if it failed.
        failure_output: TestOutputDisplay,
        /// The result of its last attempt.
        last_result: &'a ExecutionResultDescription,
    },
}

impl OutputLoadDecider {
    /// A decider for this status level, these overrides, and what a store keeps.
    pub fn new(
        status_level: StatusLevel,
        overrides: OutputDisplayOverrides,
        store: Option<StoreConfig>,
    ) -> OutputLoadDecider
        ensures { result ≡ (record { status_level = status_level; overrides = overrides; store = store }) }
    {
        OutputLoadDecider {
            status_level,
            overrides,
            store,
        }
    }

    /// A decider for these settings, and what a store keeps. Hidden: only a reporter has `Settings`. Callers ask a
    /// builder or a reporter for its decider, or use [`OutputLoadDecider::new`].
    #[doc(hidden)]
    pub fn of_settings(settings: &Settings, store: Option<StoreConfig>) -> OutputLoadDecider
        ensures { result ≡ decider_by settings.now store }
    {
        let overrides = settings.unit_output.overrides();
        OutputLoadDecider::new(settings.status_levels.status_level, overrides, store)
    }

    /// Whether a replay has to load the captured output of a recorded event: a report shows it, immediately or at the
    /// end of the run, unless a cancel reason hides it, or a store keeps it. It allocates nothing.
    ///
    /// A live event has the same decision as its recorded form.
    ///
    /// ```
    /// if let Some(recorded) = event.recorded(alloc)? {
    ///     assert_eq!(decider.should_load_output(&recorded), LoadOutput::Skip); // the test passed
    /// }
    /// ```
    pub fn should_load_output(&self, event: &OutputEventKind<RecordingSpec>) -> LoadOutput
        ensures loads { result ≡ load_if (loads self.now event.now) }
        ensures live { (kind : TestEventKind) → recorded_kind kind ≡ Some event.now
            → decision self.now kind ≡ Some result }
    {
        load_if(match event {
            OutputEventKind::SetupScriptFinished { run_status, .. } => {
                loads_script(&run_status.result)
            }
            OutputEventKind::TestAttemptFailedWillRetry { failure_output, .. } => {
                self.loads_attempt(*failure_output)
            }
            OutputEventKind::TestFinished {
                success_output,
                failure_output,
                run_statuses,
                ..
            } => self.loads_finish(*success_output, *failure_output, run_statuses),
        })
    }

    /// Whether the captured output of an event with this metadata has to be loaded: what `should_load_output` returns
    /// for such an event, without the event. It allocates nothing.
    ///
    /// ```
    /// let failed = ExecutionResultDescription::ExecFail;
    /// let metadata = OutputMetadata::SetupScriptFinished { result: &failed };
    /// assert_eq!(decider.should_load(metadata), LoadOutput::Load);
    /// ```
    #[tactic(auto, using(crate::proofs::lemmas::Metadata::loads_alike))]
    pub fn should_load(&self, metadata: OutputMetadata<'_>) -> LoadOutput
        ensures loads { result ≡ load_if (loads_by_metadata self.now metadata.entry) }
        ensures alike { (event : OutputEventKind RecordingSpec RecordedOutput) → HasMetadata event metadata.entry
            → result ≡ load_if (loads self.now event) }
    {
        load_if(match metadata {
            OutputMetadata::SetupScriptFinished { result } => loads_script(result),
            OutputMetadata::TestAttemptFailedWillRetry { failure_output } => {
                self.loads_attempt(failure_output)
            }
            OutputMetadata::TestFinished {
                success_output,
                failure_output,
                last_result,
            } => self.loads_last(success_output, failure_output, last_result),
        })
    }

    // `None` for kinds without captured output.
    fn decision(&self, kind: &TestEventKind<'_>) -> Option<LoadOutput>
        ensures { result ≡ decision self.now kind.now }
    {
        Some(load_if(match kind {
            TestEventKind::SetupScriptFinished { run_status, .. } => {
                loads_script(&run_status.result)
            }
            TestEventKind::TestAttemptFailedWillRetry { failure_output, .. } => {
                self.loads_attempt(*failure_output)
            }
            TestEventKind::TestFinished {
                success_output,
                failure_output,
                run_statuses,
                ..
            } => self.loads_finish(*success_output, *failure_output, run_statuses),
            _ => return None,
        }))
    }

    fn loads_attempt(&self, failure_output: TestOutputDisplay) -> bool
        ensures { result ≡ loads_attempt self.now failure_output }
    {
        StatusLevel::Retry.is_shown_at(self.status_level)
            && self.overrides.failure_output(failure_output).is_immediate()
    }

    // Whether the output of a finished test is shown, immediately or at the end of the run, or stored.
    fn loads_finish<S: OutputSpec>(
        &self,
        success_output: TestOutputDisplay,
        failure_output: TestOutputDisplay,
        run_statuses: &ExecutionStatuses<S>,
    ) -> bool
        ensures { result ≡ loads_finish self.now success_output failure_output (summary_of run_statuses.now) }
    {
        let describe = run_statuses.describe();
        let display = self
            .overrides
            .resolve_for_describe(success_output, failure_output, &describe);
        display.is_immediate()
            || display.is_final()
            || self.stores_output(describe.is_success_for_output())
    }

    fn loads_last(
        &self,
        success_output: TestOutputDisplay,
        failure_output: TestOutputDisplay,
        last_result: &ExecutionResultDescription,
    ) -> bool
        ensures { result ≡ loads_last self.now success_output failure_output last_result.now }
    {
        let is_success = last_result.is_success();
        let display = self
            .overrides
            .resolve(is_success, success_output, failure_output, last_result);
        display.is_immediate() || display.is_final() || self.stores_output(is_success)
    }

    fn stores_output(&self, is_success: bool) -> bool
        ensures { result ≡ is_asked_of self.now.store is_success }
    {
        match self.store {
            Some(store) => store.stores_output(is_success),
            None => false,
        }
    }

    // Whether the event needs output that is not loaded. Almost all output is loaded, so that is asked first.
    fn lacks_output(&self, kind: &TestEventKind<'_>) -> bool
        ensures { result ≡ lacks_output self.now kind.now }
    {
        match kind {
            TestEventKind::SetupScriptFinished { run_status, .. } => {
                !run_status.output.has_loaded_output() && loads_script(&run_status.result)
            }
            TestEventKind::TestAttemptFailedWillRetry {
                run_status,
                failure_output,
                ..
            } => !run_status.output.has_loaded_output() && self.loads_attempt(*failure_output),
            TestEventKind::TestFinished {
                success_output,
                failure_output,
                run_statuses,
                ..
            } => {
                !run_statuses.last_status().output.has_loaded_output()
                    && self.loads_finish(*success_output, *failure_output, run_statuses)
            }
            TestEventKind::InfoResponse { response, .. } => lacks_answer(response),
            _ => false,
        }
    }

    /// Why the reporter refuses the event, if it does.
    ///
    /// ```
    /// assert_eq!(decider.refusal_of(&event), None);
    /// ```
    pub fn refusal_of(&self, event: &TestEvent<'_>) -> Option<WriteEventError>
        ensures refusal { result ≡ event_refusal self.now event.now.kind }
        ensures told { IfSome result (λ e. refusal_in e ≡ Some e) }
        ensures accepted { result ≡ None → lacks_output self.now event.now.kind ≡ false }
    {
        if is_retried_success(&event.kind) {
            Some(WriteEventError::RetriedSuccess)
        } else if self.lacks_output(&event.kind) {
            Some(WriteEventError::OutputNotLoaded)
        } else {
            None
        }
    }

    /// Why a reporter of this configuration refuses a call, `RetriedSuccess` or `OutputNotLoaded`, or `None` if it
    /// accepts it. It allocates nothing.
    ///
    /// ```
    /// let failed = ExecutionStatuses::single(alloc, ExecuteStatus::failed(101, time));
    /// let mut event = TestEvent::test_finished(time, test.as_ref(), failed, stats);
    /// event.unload();
    /// let call = ReportCall::Event(event);
    /// assert_eq!(decider.refusal(&call), Some(WriteEventError::OutputNotLoaded));
    /// ```
    pub fn refusal(&self, call: &ReportCall<'_>) -> Option<WriteEventError>
        ensures { result ≡ refusal_by self.now call.now }
    {
        match call {
            ReportCall::Event(event) => self.refusal_of(event),
            ReportCall::Header(_) | ReportCall::Prefix(_) => None,
        }
    }

    /// Unloads the output of a call if it is not needed.
    ///
    /// ```
    /// let mut call = ReportCall::Event(event);
    /// decider.unload(&mut call);
    /// assert_eq!(decider.refusal(&call), None);
    /// ```
    pub fn unload(&self, call: &mut ReportCall<'_>)
        ensures { call.new ≡ unread_call self.now call.old }
    {
        if let ReportCall::Event(event) = call {
            if self.decision(&event.kind) == Some(LoadOutput::Skip) {
                event.unload();
            }
        }
    }
}

/// The index of the first call that a reporter of this configuration refuses, or `None` if it accepts all.
/// [`OutputLoadDecider::refusal`] says why. It allocates nothing.
///
/// ```
/// assert_eq!(first_refused(&decider, &calls), None);
/// ```
pub fn first_refused(decider: &OutputLoadDecider, calls: &[ReportCall<'_>]) -> Option<usize>
    ensures { result ≡ first_refused decider.now calls.now }
{
    calls
        .iter()
        .position(|call| decider.refusal(call).is_some())
}

fn load_if(is_shown: bool) -> LoadOutput
    ensures { result ≡ load_if is_shown }
{
    if is_shown {
        LoadOutput::Load
    } else {
        LoadOutput::Skip
    }
}

fn loads_script(outcome: &ExecutionResultDescription) -> bool
    ensures { result ≡ loads_script outcome.now }
{
    !outcome.is_success()
}

// Whether the response needs output that is not loaded.
fn lacks_answer(response: &InfoResponse<'_>) -> bool
    ensures { result ≡ option_map_or (λ o. not (has_loaded_output o)) (needed_answer response.now) false }
{
    let (state, output) = match response {
        InfoResponse::SetupScript(response) => (response.state.get(), response.output.get()),
        InfoResponse::Test(response) => (response.state.get(), response.output.get()),
    };
    !output.has_loaded_output() && state.has_valid_output()
}

// Only a failed attempt is retried: an event that says that a successful one will be retried is an error.
fn is_retried_success(event: &TestEventKind<'_>) -> bool
    ensures { result ≡ is_retried_success event.now }
{
    match event {
        TestEventKind::TestAttemptFailedWillRetry { run_status, .. } => run_status
            .result
            .is_success(),
        _ => false,
    }
}
