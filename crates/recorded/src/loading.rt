//! The outputs of a line of a recorded run: those that the report shows are loaded into its call.

ghost use Rattle.std.specs.Prelude.{◌≡◌, ℕ, List, Some, IfErr, Ok, OnOk};
ghost use Rattle.scene_follower.specs.Names.{decider_for};
ghost use Rattle.recorded.specs.Names.{CountsMore, IsUnloaded, LoadsCall, event_replayed, fault_of_load, needed_of};
ghost use Rattle.{scene_reader.specs.Names.call_by_names};

use super::events::{LoadEventFault, load_outputs};
use super::outputs::{LoadFault, RecordedOutputs};
use super::read_at::ReadAt;
use command_line::args::Options;
use command_line::fault::{Fault, LineFault};
use run_model::call::ReportCall;
use run_model::memory::OutOfMemory;
use scene_fields::stored::PlacedOutput;
use scene_follower::reporter::decider_of;
use scene_reader::reader::CallSink;
use scene_run_lines::config::SceneConfig;
use std::alloc::Global;

/// A sink that loads those outputs of a call that the report shows, before another sink takes the call.
#[derive(Drop)]
pub(crate) struct Loading<'r, 's, 'o, O: ReadAt, K> {
    pub(crate) options: &'r Options<'o>,
    pub(crate) config: SceneConfig,
    pub(crate) outputs: &'r mut RecordedOutputs<O>,
    pub(crate) sink: &'s mut K,
}

impl<'r, 's, 'o, O: ReadAt + Drop, K> Loading<'r, 's, 'o, O, K> {
    // Puts those outputs into a call that the report shows.
    fn load<'a>(
        &mut self,
        alloc: Global,
        file: &'a str,
        number: u64,
        stored: &[PlacedOutput],
        call: &mut ReportCall<'_>,
    ) -> Result<(), Fault<'a>>
        ensures same { self.new.sink.now ≡ self.old.sink.now }
        ensures same_references { (self.new.outputs.ghost_name ≡ self.old.outputs.ghost_name)
            × (self.new.sink.ghost_name ≡ self.old.sink.ghost_name) }
        ensures kept { O.recorded self.new.outputs.now.source ≡ O.recorded self.old.outputs.now.source }
        ensures loaded { OnOk result
            ((all : List ℕ) → O.recorded self.old.outputs.now.source ≡ Some all
            → event_replayed all (decider_for self.old.options.now self.old.config) stored.now
            (call_by_names call.old)
            ≡ Ok (call_by_names call.new)) }
        ensures left { IfErr result
            (λ fault. (all : List ℕ) → O.recorded self.old.outputs.now.source ≡ Some all
            → IsUnloaded file.now number
            (event_replayed all (decider_for self.old.options.now self.old.config) stored.now
            (call_by_names call.old))
            fault) }
        ensures count { OnOk result
            (CountsMore
            (needed_of (decider_for self.old.options.now self.old.config) (call_by_names call.old) stored.now)
            (O.count self.old.outputs.now.source) (O.count self.new.outputs.now.source)) }
    {
        if stored.is_empty() {
            return Ok(());
        }
        let decider = decider_of(self.options, &self.config);
        match load_outputs(alloc, &decider, stored, self.outputs, call) {
            Ok(()) => Ok(()),
            Err(fault) => Err(fault_of_load(file, number, fault)),
        }
    }
}

impl<'r, 's, 'o, O: ReadAt + Drop, K: CallSink> CallSink for Loading<'r, 's, 'o, O, K> {
    ghost takes = { λ old file number stored call result new. LoadsCall O.recorded O.count K.takes old.options.now
        old.config old.outputs.now.source old.sink.now file number stored call result new.outputs.now.source
        new.sink.now
        × ((new.outputs.ghost_name ≡ old.outputs.ghost_name) × (new.sink.ghost_name ≡ old.sink.ghost_name)) };

    fn take<'a>(
        &mut self,
        alloc: Global,
        file: &'a str,
        number: u64,
        stored: &[PlacedOutput],
        call: &mut ReportCall<'_>,
    ) -> Result<(), Fault<'a>> {
        self.load(alloc, file, number, stored, call)?;
        self.sink.take(alloc, file, number, stored, call)
    }
}

// The fault of the line of this number, if an output of its event was not loaded.
fn fault_of_load<'a>(file: &'a str, line: u64, fault: LoadEventFault) -> Fault<'a>
    ensures { result ≡ fault_of_load file.entry line fault.field fault.fault }
{
    match fault.fault {
        LoadFault::PastEnd | LoadFault::WrongSum => Fault::Line {
            line,
            fault: LineFault::BadField(fault.field),
        },
        LoadFault::CannotRead(kind) => Fault::CannotRead { file }.by_kind(kind),
        LoadFault::OutOfMemory => Fault::OutOfMemory,
    }
}
