//! The reporter of a scene, as the sink that takes the calls of its lines. Each program reports through it.

ghost use Rattle.std.specs.Prelude.{◌≡◌, []};
ghost use Rattle.console_reporter.specs.Names.{config_of, store_delivered};
ghost use Rattle.scene_follower.specs.Names.{builder_for, ready_if, store_for, Follows, IsSetFor, ReportsCall};
ghost use Rattle.scene_follower.specs.Names.{writers};

use crate::outcome::RunOutcome;
use crate::reporter::{fault_at_call, surroundings_of};
use command_line::args::Options;
use command_line::fault::Fault;
use console_reporter::imp::{
    DisplayReporter, DisplayReporterBuilder, OutputLoadDecider, ReportCall, Store,
};
use console_reporter::write_str::WriteStr;
use scene_fields::stored::PlacedOutput;
use scene_reader::reader::CallSink;
use scene_run_lines::config::SceneConfig;
use std::alloc::Global;

/// A reporter of a scene's calls, and the outcome of their run.
#[derive(Drop)]
pub struct SceneReporter<'a, W, S> {
    pub(crate) outcome: RunOutcome,
    pub reporter: DisplayReporter<'a, W, S>,
    /// The decider: which output the reporter shows, and which calls it refuses.
    pub decider: OutputLoadDecider,
    // Whether output that is not shown is left unread.
    unloads: bool,
}

impl<'a, W: WriteStr, S: WriteStr> SceneReporter<'a, W, S> {
    /// Builds the reporter of a scene with this configuration. It has made no call yet.
    pub fn build(
        alloc: Global,
        options: &Options<'_>,
        builder: DisplayReporterBuilder,
        config: &SceneConfig,
        writer: &'a mut W,
        store: Option<Store<'a, S>>,
    ) -> SceneReporter<'a, W, S>
        ensures same_reference { result.reporter.writer.ghost_name ≡ writer.entry.ghost_name }
        ensures writers { writers result ≡ (writer.old, store.entry) }
        ensures set { builder ≡ builder_for options.now config.now → config_of store.entry ≡ store_for options.now
            → IsSetFor options.now config.now result }
        ensures start { builder ≡ builder_for options.now config.now → config_of store.entry ≡ store_for options.now
            → W.meaning.is_delivered writer.old → store_delivered S.meaning store.entry
            → Follows W.meaning S.meaning options.now (writer.old, store.entry) result
            (record { config = config.now; events = [] }) }
    {
        let reporter = builder.build_in(alloc, writer, store, surroundings_of(config));
        SceneReporter {
            outcome: RunOutcome::NotEnded,
            decider: reporter.output_load_decider(),
            reporter,
            unloads: options.unload_skipped,
        }
    }

    /// Gives the writer and the store back. What the reporter kept is freed, unless the process ends.
    pub fn into_parts(self, options: &Options<'_>) -> (&'a mut W, Option<Store<'a, S>>)
        ensures writer { result.0 ≡ self.entry.reporter.writer }
        ensures store { result.1 ≡ self.entry.reporter.store }
    {
        if options.is_last {
            self.reporter.into_parts_unfreed()
        } else {
            self.reporter.into_parts()
        }
    }
}

impl<'a, W: WriteStr, S: WriteStr> CallSink for SceneReporter<'a, W, S> {
    ghost takes = { λ old file. ReportsCall W.meaning S.meaning old };

    // Its text is written and delivered, and then its record. A call that is refused is the fault of its line.
    #[inline(always)]
    fn take<'f>(
        &mut self,
        alloc: Global,
        _file: &'f str,
        number: u64,
        _stored: &[PlacedOutput],
        call: &mut ReportCall<'_>,
    ) -> Result<(), Fault<'f>> {
        make_ready(self.unloads, &self.decider, call);
        match self.reporter.make_call(alloc, call) {
            Ok(()) => {
                self.outcome = self.outcome.after(call);
                Ok(())
            }
            Err(error) => Err(fault_at_call(number, error)),
        }
    }
}

// Leaves the output of a call unread, if the options ask for that and the report does not show it.
fn make_ready(unloads: bool, decider: &OutputLoadDecider, call: &mut ReportCall<'_>)
    ensures { call.new ≡ ready_if unloads decider.now call.old }
{
    if unloads {
        decider.unload(call);
    }
}
