//! What a reporter knows of the calls before, and how an event changes it.

ghost use Rattle.std.specs.Prelude.{◌≡◌, ◌++◌, ◌∷◌, List, [], OnOk, OnErr, None, max, true, false};
ghost use Rattle.{std.specs.Option.is_some, std.specs.Option.option_to_list, run_names.specs.Levels.reason_rank};
ghost use Rattle.reporter_state.specs.Names.{HasShownOutput, finish_of, FinalOutputEntry, IsFinishOf, TestEnd};
ghost use Rattle.reporter_state.specs.Names.{effect_of, entry_of, finished_entry, kept_entry, may_grow_for};
ghost use Rattle.reporter_state.specs.Names.{lacks_output, decider_by, final_order};

use crate::binary_ids::KeptBinaryIds;
use crate::faults::WriteEventError;
use crate::final_output::FinalOutputEntry;
use crate::finished_attempts::FinishedAttempts;
use crate::kept::KeptEntries;
use run_model::event::{TestEvent, TestEventKind};
use run_model::level::{CancelReason, FinalStatusLevel};
use run_model::memory::OutOfMemory;
use run_model::run_id::ShortestRunIdPrefix;
use std::alloc::Global;
use text_parts::instance::CountedInstance;
use text_parts::settings::Settings;

/// What a reporter knows of the calls before.
///
/// ```
/// let mut state = ReporterState::new(alloc, settings);
/// let error = state.fail(WriteEventError::Io);
/// assert_eq!(error, WriteEventError::Io);
/// assert!(state.has_failed);
/// ```
#[derive(Drop)]
pub struct ReporterState {
    /// Where memory comes from.
    pub alloc: Global,
    /// The entries for the summary.
    pub kept: KeptEntries,
    /// The binary ids that kept tests share.
    pub ids: KeptBinaryIds,
    /// The last unique prefix of the run's id.
    pub unique_prefix: Option<ShortestRunIdPrefix>,
    /// The greatest reason for which the run was cancelled.
    pub cancel_status: Option<CancelReason>,
    /// The reporter's settings.
    pub settings: Settings,
    /// Whether a call failed by its device or for lack of memory.
    pub has_failed: bool,
}

impl ReporterState {
    /// The state of a reporter with these settings before its first call.
    pub fn new(alloc: Global, settings: Settings) -> ReporterState
        ensures settings { result.settings ≡ settings }
        ensures prefix { result.unique_prefix ≡ None }
        ensures reason { result.cancel_status ≡ None }
        ensures kept { result.kept ≡ final_order [] }
        ensures works { result.has_failed ≡ false }
    {
        ReporterState {
            alloc,
            kept: KeptEntries::new(alloc),
            ids: KeptBinaryIds::new(alloc),
            unique_prefix: None,
            cancel_status: None,
            settings,
            has_failed: false,
        }
    }

    /// Marks the reporter as failed, and returns the error.
    pub fn fail(&mut self, error: WriteEventError) -> WriteEventError
        ensures error { result ≡ error }
        ensures failed { self.new ≡ record self.old { has_failed = true } }
    {
        self.has_failed = true;
        error
    }

    /// Changes the state by an event that cancels the run or ends a test. `finished` is the test that it finishes,
    /// with its output loaded if that is shown.
    ///
    /// # Errors
    ///
    /// Memory was refused, for an event with an entry in the summary. Settings and prefix are as they were.
    #[inline(always)]
    pub fn apply(
        &mut self,
        event: &TestEvent<'_>,
        finished: Option<&FinishedAttempts<'_, '_>>,
    ) -> Result<(), OutOfMemory>
        requires finished { IsFinishOf self.old.settings (reason_rank self.old.cancel_status) event.now.kind finished }
        requires accepted { lacks_output (decider_by self.old.settings None) event.now.kind ≡ false }
        ensures settings { self.new.settings ≡ self.old.settings }
        ensures prefix { self.new.unique_prefix ≡ self.old.unique_prefix }
        ensures reason { OnOk result
            (reason_rank self.new.cancel_status
            ≡ max (effect_of event.now.kind).reason (reason_rank self.old.cancel_status)) }
        ensures works { self.new.has_failed ≡ self.old.has_failed }
        ensures kept { OnOk result
            ((before : List FinalOutputEntry) → self.old.kept ≡ final_order before
            → self.new.kept ≡ final_order (before
            ++ option_to_list (entry_of self.old.settings (reason_rank self.old.cancel_status)
            event.now.kind))) }
        ensures needed { OnErr result
            (may_grow_for self.old.settings (reason_rank self.old.cancel_status) event.now.kind ≡ true) }
    {
        match &event.kind {
            TestEventKind::TestFinished { .. } => match finished {
                Some(attempts) => self.keep_finished(attempts),
                None => Ok(()),
            },
            TestEventKind::TestSkipped {
                stress_index,
                test_instance,
            } => {
                let settings = &self.settings;
                let test = settings.padded_instance(*stress_index, *test_instance);
                self.keep_skipped(test)
            }
            TestEventKind::RunBeginCancel { current_stats, .. }
            | TestEventKind::RunBeginKill { current_stats, .. } => {
                let reason = greater_reason(self.cancel_status, current_stats.cancel_reason);
                self.cancel_status = reason;
                Ok(())
            }
            _ => Ok(()),
        }
    }

    #[inline(always)]
    fn keep_finished(&mut self, attempts: &FinishedAttempts<'_, '_>) -> Result<(), OutOfMemory>
        requires { HasShownOutput (finish_of attempts.now.finished) }
        ensures settings { self.new.settings ≡ self.old.settings }
        ensures prefix { self.new.unique_prefix ≡ self.old.unique_prefix }
        ensures reason { self.new.cancel_status ≡ self.old.cancel_status }
        ensures works { self.new.has_failed ≡ self.old.has_failed }
        ensures kept { OnOk result
            ((before : List FinalOutputEntry) → self.old.kept ≡ final_order before
            → self.new.kept ≡ final_order (before
            ++ option_to_list (kept_entry self.old.settings
            (TestEnd.Finished (finish_of attempts.now.finished))))) }
        ensures needed { OnErr result
            (is_some (kept_entry self.old.settings (TestEnd.Finished (finish_of attempts.now.finished))) ≡ true) }
    {
        let finished = &attempts.finished;
        let is_wanted = self
            .settings
            .is_final_wanted(finished.display, &finished.describe);
        if !finished.row.is_listed(is_wanted) {
            return Ok(());
        }
        self.keep_listed(attempts)
    }

    // Not inlined: the compiler zeroes all locals of a function at its entry, and most tests are
    // not listed.
    #[inline(never)]
    fn keep_listed(&mut self, attempts: &FinishedAttempts<'_, '_>) -> Result<(), OutOfMemory>
        requires { HasShownOutput (finish_of attempts.now.finished) }
        ensures settings { self.new.settings ≡ self.old.settings }
        ensures prefix { self.new.unique_prefix ≡ self.old.unique_prefix }
        ensures reason { self.new.cancel_status ≡ self.old.cancel_status }
        ensures works { self.new.has_failed ≡ self.old.has_failed }
        ensures kept { OnOk result ((before : List FinalOutputEntry) → self.old.kept ≡ final_order before →
            self.new.kept ≡ final_order (before ++ finished_entry (finish_of attempts.now.finished) ∷ [])) }
    {
        let entry = FinalOutputEntry::of_test(self.alloc, &mut self.ids, attempts)?;
        self.kept.keep(self.alloc, entry)?;
        Ok(())
    }

    fn keep_skipped(&mut self, test: CountedInstance<'_>) -> Result<(), OutOfMemory>
        ensures settings { self.new.settings ≡ self.old.settings }
        ensures prefix { self.new.unique_prefix ≡ self.old.unique_prefix }
        ensures reason { self.new.cancel_status ≡ self.old.cancel_status }
        ensures works { self.new.has_failed ≡ self.old.has_failed }
        ensures kept { OnOk result
            ((before : List FinalOutputEntry) → self.old.kept ≡ final_order before
            → self.new.kept ≡ final_order (before
            ++ option_to_list (kept_entry self.old.settings (TestEnd.Skipped test.entry)))) }
        ensures needed { OnErr result (is_some (kept_entry self.old.settings (TestEnd.Skipped test.entry)) ≡ true) }
    {
        let shown = self.settings.status_levels.final_status_level;
        if !FinalStatusLevel::Skip.is_shown_at(shown) {
            return Ok(());
        }
        let entry = FinalOutputEntry::skipped(self.alloc, &mut self.ids, test)?;
        self.kept.keep(self.alloc, entry)?;
        Ok(())
    }
}

fn greater_reason(old: Option<CancelReason>, new: Option<CancelReason>) -> Option<CancelReason>
    ensures { reason_rank result ≡ max (reason_rank new) (reason_rank old) }
{
    match (old, new) {
        (Some(old), Some(new)) => Some(if new.is_above(old) { new } else { old }),
        (Some(old), None) => Some(old),
        (None, new) => new,
    }
}
