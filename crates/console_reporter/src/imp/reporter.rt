//! The calls of a reporter.

ghost use Rattle.console_reporter.specs.Names.{replay_header_text, Configuration, settings_of, AreAccepted, decider_of};
ghost use Rattle.console_reporter.specs.Names.{IsExact, IsOfConsole, Stops, error_for, Report, Records, event_text};
ghost use Rattle.console_reporter.specs.Names.{past_at, text, config_of, store_accepts, store_delivered, store_meaning};
ghost use Rattle.console_reporter.specs.Names.{record_of, AreDelivered};
ghost use Rattle.std.specs.Prelude.{◌≡◌, ◌≤◌, ◌⊎◌, List, [], ◌∷◌, OnOk, IfErr, IfSome, IsErrOf, Err, None, Some};
ghost use Rattle.std.specs.Prelude.{length, reverse, slice_get, take, false};
ghost use Rattle.{run_names.specs.Levels.reason_rank, run_model.specs.declared.call.ReportCall.ReportCall};
ghost use Rattle.{report_words.specs.Parts.paint, reporter_state.specs.declared.faults.WriteEventError.WriteEventError};
ghost use Rattle.{writers.specs.Writer.Puts, writers.specs.Writer.successor};
ghost use Rattle.console_reporter.specs.Names.{IsSameReporter, Breaks, Promises, Tells, TellsRun, StandsAfter};
ghost use Rattle.console_reporter.specs.Names.{HasFailed, IsSameWriter, MayGrow, known_by};
ghost use Rattle.reporter_state.specs.Names.{decider_by, event_refusal, refusal_in, IsFinishOf, lacks_output};

use super::event_text::write_event_text;
use super::store::Store;
use reporter_state::decider::OutputLoadDecider;
use reporter_state::faults::{RunFault, WriteEventError};
use reporter_state::finished_attempts::FinishedAttempts;
use reporter_state::state::ReporterState;
use run_model::call::ReportCall;
use run_model::event::{TestEvent, TestEventKind};
use run_model::memory::OutOfMemory;
use run_model::replay::ReplayHeader;
use run_model::run_id::ShortestRunIdPrefix;
use run_text::header::write_replay_header;
use std::alloc::Global;
use std::mem;
use store_text::config::StoreConfig;
use test_text::test_finished::FinishedTest;
use text_parts::settings::Settings;
use writers::write_str::{WriteFault, WriteStr};

/// Reports events to a writer, and writes a record of each finished test to a store, if it has one.
///
/// Each call writes and delivers the text, then writes the record and has the store deliver it.
///
/// After a call that returned `Io`, `StoreIo` or `Memory` the reporter has failed: every later call returns `Failed`
/// and changes nothing. What each call promises is one record, `Promises` in specs/Telling.antt.
///
/// ```
/// let mut reporter = builder.build_for(alloc, &mut out, Surroundings::default());
/// reporter.write_event(&event)?;
/// reporter.finish()?;
/// drop(reporter);
/// assert_eq!(out.as_str(), "        PASS [   0.020s] (1/1) alpha t1\n");
/// ```
#[derive(Drop)]
pub struct DisplayReporter<'a, W, S> {
    pub(super) writer: &'a mut W,
    pub(super) store: Option<Store<'a, S>>,
    pub(super) state: ReporterState,
}

/// A reporter without a store, which [`DisplayReporterBuilder::build_for`](super::DisplayReporterBuilder::build_for)
/// makes.
pub type ConsoleReporter<'a, W> = DisplayReporter<'a, W, String>;

impl<'a, W: WriteStr, S: WriteStr> DisplayReporter<'a, W, S> {
    // It allocates nothing.
    pub(super) fn new(
        alloc: Global,
        writer: &'a mut W,
        store: Option<Store<'a, S>>,
        settings: Settings,
    ) -> DisplayReporter<'a, W, S>
        ensures same_reference { result.writer.ghost_name ≡ writer.entry.ghost_name }
        ensures untouched { result.writer.now ≡ writer.old }
        ensures store { result.store ≡ store.entry }
        ensures stands { (config : Configuration) → settings ≡ settings_of config
            → config_of store.entry ≡ config.store → StandsAfter config [] result }
    {
        DisplayReporter {
            writer,
            store,
            state: ReporterState::new(alloc, settings),
        }
    }

    /// Returns the decider, which says from an event's metadata whether the reporter refuses it and whether it needs
    /// its output. It depends on the reporter's configuration only: no call changes it, not even one that failed.
    ///
    /// No output that it skips changes a report or what is stored. In a run that ends, and is not cancelled
    /// immediately, every output that it loads does.
    ///
    /// ```
    /// let decider = reporter.output_load_decider();
    /// assert_eq!(first_refused(&decider, &calls), None);
    /// ```
    pub fn output_load_decider(&self) -> OutputLoadDecider
        ensures decider { result ≡ decider_by self.now.state.settings (config_of self.now.store) }
        ensures stands { (config : Configuration) (past : List ReportCall) → StandsAfter config past self.now
            → result ≡ decider_of config }
        ensures exactness { (config : Configuration) → decider_of config ≡ result → IsExact config result }
    {
        let store = self.store_config();
        OutputLoadDecider::of_settings(&self.state.settings, store)
    }

    fn store_config(&self) -> Option<StoreConfig>
        ensures { result ≡ config_of self.now.store }
    {
        match &self.store {
            Some(store) => Some(store.config),
            None => None,
        }
    }

    /// Writes the text of an event, and delivers it. An event that is refused changes nothing.
    ///
    /// ```
    /// let mut reporter = builder.build_for(alloc, &mut out, Surroundings::default());
    /// reporter.write_event(&event)?;
    /// reporter.finish()?;
    /// drop(reporter);
    /// assert_eq!(out.as_str(), "        PASS [   0.020s] (1/1) alpha t1\n");
    /// ```
    ///
    /// # Errors
    ///
    /// A refused event (`RetriedSuccess`, `OutputNotLoaded`) changes nothing. After `Io` or `Memory` a prefix of the
    /// text was accepted, after `StoreIo` the text and a prefix of the record; every later call then returns
    /// `Failed`.
    pub fn write_event(&mut self, event: &TestEvent<'_>) -> Result<(), WriteEventError>
        ensures { Promises W.meaning S.meaning self.old (Some (ReportCall.Event event.now)) result self.new }
    {
        if let Some(error) = self.early_error(event) {
            return Err(error);
        }
        match self.report_and_store(event) {
            Ok(()) => Ok(()),
            Err(error) => Err(self.state.fail(error)),
        }
    }

    // The error of a call that does nothing: the reporter has failed, or the event is refused.
    #[inline(always)]
    fn early_error(&self, event: &TestEvent<'_>) -> Option<WriteEventError>
        ensures kept { IfSome result
            (λ e. Promises W.meaning S.meaning self.now (Some (ReportCall.Event event.now)) (Err e) self.now) }
        ensures works { result ≡ None → self.now.state.has_failed ≡ false }
        ensures accepted { result ≡ None
            → event_refusal (decider_by self.now.state.settings (config_of self.now.store)) event.now.kind ≡ None }
        ensures loaded { result ≡ None
            → lacks_output (decider_by self.now.state.settings (config_of self.now.store)) event.now.kind ≡ false }
    {
        if self.state.has_failed {
            return Some(WriteEventError::Failed);
        }
        self.refusal_of(event)
    }

    #[inline(always)]
    fn refusal_of(&self, event: &TestEvent<'_>) -> Option<WriteEventError>
        ensures refusal { result
            ≡ event_refusal (decider_by self.now.state.settings (config_of self.now.store)) event.now.kind }
        ensures told { IfSome result (λ e. refusal_in e ≡ Some e) }
        ensures accepted { result ≡ None
            → lacks_output (decider_by self.now.state.settings (config_of self.now.store)) event.now.kind ≡ false }
    {
        let decider = self.output_load_decider();
        decider.refusal_of(event)
    }

    fn report_and_store(&mut self, event: &TestEvent<'_>) -> Result<(), WriteEventError>
        requires { lacks_output (decider_by self.old.state.settings None) event.now.kind ≡ false }
        ensures same { IsSameReporter self.old self.new }
        ensures ok { OnOk result (Tells W.meaning S.meaning self.old (Some (ReportCall.Event event.now)) self.new) }
        ensures delivered { OnOk result (AreDelivered W.meaning S.meaning self.new) }
        ensures err { IfErr result
            (λ e. Breaks W.meaning S.meaning self.old (Some (ReportCall.Event event.now)) e self.new) }
        ensures unrefused { IfErr result (λ e. refusal_in e ≡ None) }
    {
        if let Err(error) = self.report(event) {
            return Err(error);
        }
        match self.deliver_record(event) {
            Ok(()) => Ok(()),
            Err(fault) => Err(store_error_of(fault)),
        }
    }

    // Prepares a finished test once, for its text and for its entry in the summary.
    #[inline(always)]
    fn report(&mut self, event: &TestEvent<'_>) -> Result<(), WriteEventError>
        requires { lacks_output (decider_by self.old.state.settings None) event.now.kind ≡ false }
        ensures same_writer { IsSameWriter self.old self.new }
        ensures store { self.new.store ≡ self.old.store }
        ensures settings { self.new.state.settings ≡ self.old.state.settings }
        ensures accepted { OnOk result
            ((config : Configuration) (past : List ReportCall) → StandsAfter config past self.old
            → W.meaning.accepts self.old.writer.now (text config past (ReportCall.Event event.now))
            self.new.writer.now) }
        ensures stands { OnOk result
            ((config : Configuration) (past : List ReportCall) → StandsAfter config past self.old
            → StandsAfter config (ReportCall.Event event.now ∷ past) self.new) }
        ensures delivered { OnOk result (W.meaning.is_delivered self.new.writer.now) }
        ensures err { IfErr result
            (λ e. Breaks W.meaning S.meaning self.old (Some (ReportCall.Event event.now)) e self.new) }
        ensures unrefused { IfErr result (λ e. refusal_in e ≡ None) }
    {
        match &event.kind {
            TestEventKind::TestFinished {
                stress_index,
                test_instance: test,
                success_output: success,
                failure_output: failure,
                run_statuses: statuses,
                current_stats: stats,
            } => {
                let (settings, reason) = (&self.state.settings, self.state.cancel_status);
                let stress = *stress_index;
                let test = FinishedTest::new(
                    settings, reason, stress, *test, *success, *failure, statuses, stats,
                );
                let finished = FinishedAttempts::new(test, statuses);
                self.report_event(event, Some(&finished))
            }
            _ => self.report_event(event, None),
        }
    }

    // `finished` is the test that the event finishes. Inlined, so that for most events only their own arm runs.
    #[inline(always)]
    fn report_event(
        &mut self,
        event: &TestEvent<'_>,
        finished: Option<&FinishedAttempts<'_, '_>>,
    ) -> Result<(), WriteEventError>
        requires finished { IsFinishOf self.old.state.settings (reason_rank self.old.state.cancel_status)
            event.now.kind finished }
        requires accepted { lacks_output (decider_by self.old.state.settings None) event.now.kind ≡ false }
        ensures same_writer { IsSameWriter self.old self.new }
        ensures store { self.new.store ≡ self.old.store }
        ensures settings { self.new.state.settings ≡ self.old.state.settings }
        ensures accepted { OnOk result
            ((config : Configuration) (past : List ReportCall) → StandsAfter config past self.old
            → W.meaning.accepts self.old.writer.now (text config past (ReportCall.Event event.now))
            self.new.writer.now) }
        ensures stands { OnOk result
            ((config : Configuration) (past : List ReportCall) → StandsAfter config past self.old
            → StandsAfter config (ReportCall.Event event.now ∷ past) self.new) }
        ensures delivered { OnOk result (W.meaning.is_delivered self.new.writer.now) }
        ensures err { IfErr result
            (λ e. (config : Configuration) (past : List ReportCall) → StandsAfter config past self.old
            → Stops Report W.meaning self.old.writer.now (text config past (ReportCall.Event event.now)) e
            self.new.writer.now) }
        ensures io { IsErrOf result WriteEventError.Io
            → W.meaning.failures self.new.writer.now ≡ successor (W.meaning.failures self.old.writer.now) }
        ensures memory { IsErrOf result WriteEventError.Memory
            → W.meaning.may_refuse self.old.writer.now ⊎ MayGrow self.old event.now }
        ensures of_console { IfErr result IsOfConsole }
        ensures unrefused { IfErr result (λ e. refusal_in e ≡ None) }
    {
        if let Err(fault) = write_delivered(self.writer, &self.state, event, finished) {
            return Err(error_of(fault));
        }
        match self.state.apply(event, finished) {
            Ok(()) => Ok(()),
            Err(OutOfMemory) => Err(WriteEventError::Memory),
        }
    }

    fn deliver_record(&mut self, event: &TestEvent<'_>) -> Result<(), WriteFault>
        ensures same { IsSameReporter self.old self.new }
        ensures writer { self.new.writer.now ≡ self.old.writer.now }
        ensures state { self.new.state ≡ self.old.state }
        ensures text { Puts (store_meaning S.meaning) self.old.store
            (record_of (config_of self.old.store) event.now.kind) result self.new.store }
        ensures delivered { OnOk result (store_delivered S.meaning self.new.store) }
    {
        match &mut self.store {
            Some(store) => store.deliver_record(event),
            None => Ok(()),
        }
    }

    fn flush_store(&mut self) -> Result<(), WriteFault>
        ensures same { IsSameReporter self.old self.new }
        ensures writer { self.new.writer.now ≡ self.old.writer.now }
        ensures state { self.new.state ≡ self.old.state }
        ensures text { Puts (store_meaning S.meaning) self.old.store [] result self.new.store }
        ensures delivered { OnOk result (store_delivered S.meaning self.new.store) }
    {
        match &mut self.store {
            Some(store) => store.writer.write_str_flush(),
            None => Ok(()),
        }
    }

    /// Writes and delivers the header of a replay: which recorded run it shows, when that started and how it ended.
    /// The run's id is shown with the header's own prefix.
    ///
    /// ```
    /// reporter.write_replay_header(&header)?;
    /// drop(reporter);
    /// assert!(out.as_str().starts_with("   Replaying recorded run 00000000-0000-4000-8000-000000000001\n"));
    /// ```
    ///
    /// # Errors
    ///
    /// `Io`, `Memory` or `StoreIo` if a writer fails: a prefix of the text was accepted, and every later call returns
    /// `Failed`.
    pub fn write_replay_header(&mut self, header: &ReplayHeader) -> Result<(), WriteEventError>
        ensures { Promises W.meaning S.meaning self.old (Some (ReportCall.Header header.now)) result self.new }
    {
        if self.state.has_failed {
            return Err(WriteEventError::Failed);
        }
        if let Err(fault) = deliver_header(self.writer, &self.state.settings, header) {
            return Err(self.state.fail(error_of(fault)));
        }
        match self.flush_store() {
            Ok(()) => Ok(()),
            Err(fault) => Err(self.state.fail(store_error_of(fault))),
        }
    }

    /// Takes the unique prefix of the run's id, which later starts of a run show. It allocates nothing and writes
    /// nothing, and a reporter that has failed does not change.
    ///
    /// ```
    /// use console_reporter::model::run_id::ShortestRunIdPrefix;
    /// let prefix = ShortestRunIdPrefix::new(alloc, "0", "0000000-0000-4000-8000-000000000001")?;
    /// reporter.set_run_id_unique_prefix(prefix);
    /// ```
    pub fn set_run_id_unique_prefix(&mut self, prefix: ShortestRunIdPrefix)
        ensures same { IsSameReporter self.old self.new }
        ensures ok { Tells W.meaning S.meaning self.old (Some (ReportCall.Prefix prefix)) self.new }
        ensures untouched { (self.new.writer.now ≡ self.old.writer.now) × (self.new.store ≡ self.old.store) }
        ensures works { self.new.state.has_failed ≡ self.old.state.has_failed }
        ensures failed { HasFailed self.old → self.new ≡ self.old }
    {
        if self.state.has_failed {
            return;
        }
        self.state.unique_prefix = Some(prefix);
    }

    // If its memory is refused, the reporter has failed.
    fn copy_prefix(
        &mut self,
        alloc: Global,
        prefix: &ShortestRunIdPrefix,
    ) -> Result<(), WriteEventError>
        ensures { Promises W.meaning S.meaning self.old (Some (ReportCall.Prefix prefix.now)) result self.new }
    {
        if self.state.has_failed {
            return Err(WriteEventError::Failed);
        }
        match prefix.try_clone(alloc) {
            Ok(prefix) => {
                self.set_run_id_unique_prefix(prefix);
                Ok(())
            }
            Err(OutOfMemory) => Err(self.state.fail(WriteEventError::Memory)),
        }
    }

    /// Ends the report: both writers deliver what they hold, and no text is added.
    ///
    /// ```
    /// reporter.write_event(&event)?;
    /// reporter.finish()?;
    /// ```
    ///
    /// # Errors
    ///
    /// `Io`, `Memory` or `StoreIo` if a writer does not deliver what it holds: every later call returns `Failed`.
    pub fn finish(&mut self) -> Result<(), WriteEventError>
        ensures call { Promises W.meaning S.meaning self.old None result self.new }
        ensures told_nothing { OnOk result (W.meaning.accepts self.old.writer.now [] self.new.writer.now) }
        ensures stored_nothing { OnOk result (store_accepts S.meaning self.old.store [] self.new.store) }
    {
        if self.state.has_failed {
            return Err(WriteEventError::Failed);
        }
        if let Err(fault) = self.writer.write_str_flush() {
            return Err(self.state.fail(error_of(fault)));
        }
        match self.flush_store() {
            Ok(()) => Ok(()),
            Err(fault) => Err(self.state.fail(store_error_of(fault))),
        }
    }

    /// Returns the writer and the store.
    /// ```
    /// let (writer, store) = reporter.into_parts();
    /// writer.write_str("done\n")?;
    /// assert!(store.is_none());
    /// ```
    pub fn into_parts(self) -> (&'a mut W, Option<Store<'a, S>>)
        ensures writer { result.0 ≡ self.entry.writer }
        ensures store { result.1 ≡ self.entry.store }
    {
        let DisplayReporter {
            writer,
            store,
            state,
        } = self;
        drop(state);
        (writer, store)
    }

    /// Returns the writer and the store as [`into_parts`](DisplayReporter::into_parts) does, and frees nothing: for a
    /// program that ends then. Hidden: only the programs of this repository need it.
    ///
    /// ```
    /// let (writer, _) = reporter.into_parts_unfreed();
    /// assert_eq!(writer.as_str(), "");
    /// ```
    #[doc(hidden)]
    pub fn into_parts_unfreed(self) -> (&'a mut W, Option<Store<'a, S>>)
        ensures writer { result.0 ≡ self.entry.writer }
        ensures store { result.1 ≡ self.entry.store }
    {
        let DisplayReporter {
            writer,
            store,
            state,
        } = self;
        mem::forget(state);
        (writer, store)
    }

    // Stops at the first fault.
    pub(super) fn make_calls(
        &mut self,
        alloc: Global,
        calls: &[ReportCall<'_>],
    ) -> Result<(), RunFault>
        ensures same { IsSameReporter self.old self.new }
        ensures ok { OnOk result (TellsRun W.meaning S.meaning self.old (reverse calls.now) self.new) }
        ensures delivered { OnOk result (AreDelivered W.meaning S.meaning self.new) }
        ensures accepted { OnOk result
            ((config : Configuration) → StandsAfter config [] self.old → AreAccepted config calls.now) }
        ensures position { IfErr result (λ stop. stop.position ≤ length calls.now) }
        ensures accepted_before { IfErr result
            (λ stop. (config : Configuration) → StandsAfter config [] self.old
            → AreAccepted config (take stop.position calls.now)) }
        // The calls before the position succeeded, and the call at it, or past the last one the end, did not.
        ensures err { IfErr result
            (λ stop. (mid : DisplayReporter W S)
            × TellsRun W.meaning S.meaning self.old (past_at calls.now stop.position) mid
            × Promises W.meaning S.meaning mid (slice_get calls.now stop.position) (Err stop.fault) self.new
            × (AreDelivered W.meaning S.meaning self.old → AreDelivered W.meaning S.meaning mid)) }
    {
        for position in 0..calls.len() {
            match self.make_call(alloc, &calls[position]) {
                Ok(()) => {}
                Err(fault) => return Err(RunFault { position, fault }),
            }
        }
        match self.finish() {
            Ok(()) => Ok(()),
            Err(fault) => Err(RunFault {
                position: calls.len(),
                fault,
            }),
        }
    }

    /// Makes one call: it writes and delivers an event or the header of a replay, or copies a prefix. A call that is
    /// refused changes nothing; after any other error, `Memory` for the copy too, the reporter has failed.
    ///
    /// ```
    /// reporter.make_call(alloc, &ReportCall::Event(event))?;
    /// drop(reporter);
    /// assert_eq!(out.as_str(), "        PASS [   0.020s] (1/1) alpha t1\n");
    /// ```
    ///
    /// # Errors
    ///
    /// Those of [`write_event`](DisplayReporter::write_event), and `Memory` if the memory for a copied prefix is
    /// refused.
    pub fn make_call(&mut self, alloc: Global, call: &ReportCall<'_>) -> Result<(), WriteEventError>
        ensures { Promises W.meaning S.meaning self.old (Some call.now) result self.new }
    {
        match call {
            ReportCall::Event(event) => self.write_event(event),
            ReportCall::Header(header) => self.write_replay_header(header),
            ReportCall::Prefix(prefix) => self.copy_prefix(alloc, prefix),
        }
    }
}

// A fault of the writer as the caller sees it.
fn error_of(fault: WriteFault) -> WriteEventError
    ensures error { result ≡ error_for Report fault }
    ensures of_console { IsOfConsole result }
    ensures unrefused { refusal_in result ≡ None }
{
    match fault {
        WriteFault::Device => WriteEventError::Io,
        WriteFault::Memory => WriteEventError::Memory,
    }
}

// A fault of the store as the caller sees it.
fn store_error_of(fault: WriteFault) -> WriteEventError
    ensures error { result ≡ error_for Records fault }
    ensures unrefused { refusal_in result ≡ None }
{
    match fault {
        WriteFault::Device => WriteEventError::StoreIo,
        WriteFault::Memory => WriteEventError::Memory,
    }
}

fn deliver_header<W: WriteStr>(
    w: &mut W,
    settings: &Settings,
    header: &ReplayHeader,
) -> Result<(), WriteFault>
    ensures text { Puts W.meaning w.old (paint settings.now.styles (replay_header_text header.now)) result w.new }
    ensures delivered { OnOk result (W.meaning.is_delivered w.new) }
{
    write_replay_header(w, &settings.styles, header)?;
    deliver(w)
}

fn write_delivered<W: WriteStr>(
    w: &mut W,
    state: &ReporterState,
    event: &TestEvent<'_>,
    finished: Option<&FinishedAttempts<'_, '_>>,
) -> Result<(), WriteFault>
    requires finished { IsFinishOf state.now.settings (reason_rank state.now.cancel_status) event.now.kind finished }
    requires accepted { lacks_output (decider_by state.now.settings None) event.now.kind ≡ false }
    ensures text { Puts W.meaning w.old
        (event_text state.now.settings (known_by state.now) event.now.elapsed.0 event.now.kind) result w.new }
    ensures delivered { OnOk result (W.meaning.is_delivered w.new) }
{
    write_event_text(w, state, event, finished)?;
    deliver(w)
}

fn deliver<W: WriteStr>(w: &mut W) -> Result<(), WriteFault>
    ensures text { Puts W.meaning w.old [] result w.new }
    ensures delivered { OnOk result (W.meaning.is_delivered w.new) }
{
    w.write_str_flush()
}
