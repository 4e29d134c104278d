//! The stored outputs of an event, loaded where the report shows them.

ghost use Rattle.recorded.specs.Names.{counted, IsFirstBad, IsReplayed, event_inline, field_not, first_field_not};
ghost use Rattle.recorded.specs.Names.{is_there, is_undamaged, is_wanted, needed_of, only_place, output_inline};
ghost use Rattle.recorded.specs.Names.{output_len};
ghost use Rattle.std.specs.Prelude.{◌≡◌, ◌≤◌, ◌-◌, ◌^◌, IfOk, IfSome, OnOk};
ghost use Rattle.recorded.specs.Names.{outputs_len, stream_field_not, wanted, skips};
ghost use Rattle.{recorded.specs.Names.event_with, scene_reader.specs.Names.call_by_names};

use super::outputs::{LoadFault, RecordedOutputs, StreamFault};
use super::read_at::ReadAt;
use reporter_state::decider::{OutputLoadDecider, OutputMetadata};
use run_model::call::ReportCall;
use run_model::event::TestEventKind;
use run_model::output_event::LoadOutput;
use run_model::status::ExecutionDescription;
use scene_fields::stored::{PlacedOutput, StoredStream, StreamField};
use std::alloc::Global;
use std::io;

/// Why the outputs of an event were not loaded.
#[derive(Clone, Copy)]
pub struct LoadEventFault {
    /// The field of a stream in the event's line, from 1 for its name.
    pub field: usize,
    /// Why the stream in that field was not loaded, or its output not put into the event.
    pub fault: LoadFault,
}

/// Puts the stored outputs of an event into it, if its report shows them. The decider decides that from the result of
/// the unit and the settings, and reads no output for it. Of a finished test only the output of the last attempt is
/// loaded, since nothing shows that of earlier attempts. The output in a response of a unit is always loaded: it is not
/// the decider's concern. If the decider skips the outputs, the event stays as it is, and nothing is read.
///
/// Every output must be there, even one that is not loaded.
///
/// ```
/// use run_model::call::ReportCall;
/// use run_model::event::{TestEvent, TestEventKind};
/// use run_model::time::Nanos;
/// let mut event = ReportCall::Event(TestEvent {
///     elapsed: Nanos(0),
///     kind: TestEventKind::InfoFinished { missing: 0 },
/// });
/// let mut outputs = RecordedOutputs::new(Metered::new(b"passed\nfailed\n".as_slice()))?;
/// assert!(load_outputs(alloc, &decider, &[], &mut outputs, &mut event).is_ok());
/// assert_eq!(outputs.bytes_read(), 0); // the event has no output
/// ```
///
/// # Errors
///
/// The first stored stream that is not there, cannot be read, has another sum, or finds no memory, with its field. The
/// event may then have some of its outputs.
#[tactic(auto, unfolding(crate::specs::Events::event_replayed))]
pub fn load_outputs<O: ReadAt + Drop>(
    alloc: Global,
    decider: &OutputLoadDecider,
    stored: &[PlacedOutput],
    outputs: &mut RecordedOutputs<O>,
    event: &mut ReportCall<'_>,
) -> Result<(), LoadEventFault>
    ensures loaded { IfSome (O.recorded outputs.old.source)
        (λ all. IsReplayed all decider.now stored.now (call_by_names event.old) result (call_by_names event.new)) }
    ensures kept { O.recorded outputs.new.source ≡ O.recorded outputs.old.source }
    ensures count { OnOk result
        (O.count outputs.new.source
        ≡ counted (O.count outputs.old.source) (needed_of decider.now (call_by_names event.old) stored.now)) }
    ensures most { O.count outputs.new.source
        ≤ counted (O.count outputs.old.source) (needed_of decider.now (call_by_names event.old) stored.now) }
{
    let _count = outputs.bytes_read(); // it is a `u64`, which a proof learns by reading it
    check_all_there(stored, outputs)?;
    if skips(decider, event) {
        return Ok(());
    }
    let only = only_place(event);
    load_wanted(alloc, stored, only, outputs, event)
}

// The place of the only output that is loaded, that of a finished test's last attempt. `None` for other events, of
// which every output is loaded. `None` for other events, of which every output is loaded.
fn only_place(event: &ReportCall<'_>) -> Option<usize>
    ensures { result ≡ only_place (call_by_names event.now) }
{
    let ReportCall::Event(event) = event else {
        return None;
    };
    let TestEventKind::TestFinished { run_statuses, .. } = &event.kind else {
        return None;
    };
    match run_statuses.describe() {
        ExecutionDescription::Success { .. } => Some(0),
        ExecutionDescription::Flaky { prior_statuses, .. }
        | ExecutionDescription::Failure { prior_statuses, .. } => Some(prior_statuses.len()),
    }
}

// Whether the decider skips the outputs of an event, from its metadata. It is not asked about others, such as the
// response of a unit.
#[tactic(auto, using(crate::proofs::lemmas::Skips::loads_by_last, crate::proofs::lemmas::Named::named_skips))]
fn skips(decider: &OutputLoadDecider, event: &ReportCall<'_>) -> bool
    ensures { result ≡ skips decider.now (call_by_names event.now) }
{
    let ReportCall::Event(event) = event else {
        return false;
    };
    let metadata = match &event.kind {
        TestEventKind::SetupScriptFinished { run_status, .. } => {
            OutputMetadata::SetupScriptFinished {
                result: &run_status.result,
            }
        }
        TestEventKind::TestAttemptFailedWillRetry { failure_output, .. } => {
            OutputMetadata::TestAttemptFailedWillRetry {
                failure_output: *failure_output,
            }
        }
        TestEventKind::TestFinished {
            success_output,
            failure_output,
            run_statuses,
            ..
        } => OutputMetadata::TestFinished {
            success_output: *success_output,
            failure_output: *failure_output,
            last_result: &run_statuses.last_status().result,
        },
        _ => return false,
    };
    decider.should_load(metadata) == LoadOutput::Skip
}

// Checks that all stored outputs are there. It reads none of them.
fn check_all_there<O: ReadAt + Drop>(
    stored: &[PlacedOutput],
    outputs: &mut RecordedOutputs<O>,
) -> Result<(), LoadEventFault>
    ensures there { IfSome (O.recorded outputs.old.source)
        (λ all. IsFirstBad (first_field_not (is_there all) stored.now) result) }
    ensures kept { O.recorded outputs.new.source ≡ O.recorded outputs.old.source }
    ensures count { O.count outputs.new.source ≡ O.count outputs.old.source }
{
    for placed in stored {
        check_output_there(placed, outputs)?;
    }
    Ok(())
}

// Checks that one output is there, standard output first. Standard output comes first.
fn check_output_there<O: ReadAt + Drop>(
    placed: &PlacedOutput,
    outputs: &mut RecordedOutputs<O>,
) -> Result<(), LoadEventFault>
    ensures there { IfSome (O.recorded outputs.old.source)
        (λ all. IsFirstBad (field_not (is_there all) placed.now) result) }
    ensures kept { O.recorded outputs.new.source ≡ O.recorded outputs.old.source }
    ensures count { O.count outputs.new.source ≡ O.count outputs.old.source }
{
    check_stream_there(placed, StreamField::First, outputs)?;
    check_stream_there(placed, StreamField::Second, outputs)
}

// Checks that one stream is there.
fn check_stream_there<O: ReadAt + Drop>(
    placed: &PlacedOutput,
    stream: StreamField,
    outputs: &mut RecordedOutputs<O>,
) -> Result<(), LoadEventFault>
    ensures there { IfSome (O.recorded outputs.old.source)
        (λ all. IsFirstBad (stream_field_not (is_there all) placed.now stream) result) }
    ensures kept { O.recorded outputs.new.source ≡ O.recorded outputs.old.source }
    ensures count { O.count outputs.new.source ≡ O.count outputs.old.source }
{
    let fault = match is_there(placed.output.stream(stream), outputs) {
        Ok(true) => return Ok(()),
        Ok(false) => LoadFault::PastEnd,
        Err(error) => LoadFault::from(error),
    };
    let field = placed.field_of(stream);
    Err(LoadEventFault { field, fault })
}

// Whether all bytes of a stream are there.
fn is_there<O: ReadAt + Drop>(
    stream: StoredStream,
    outputs: &mut RecordedOutputs<O>,
) -> io::Result<bool>
    ensures there { IfSome (O.recorded outputs.old.source) (λ all. IfOk result (λ is. is ≡ is_there all stream)) }
    ensures kept { O.recorded outputs.new.source ≡ O.recorded outputs.old.source }
    ensures count { O.count outputs.new.source ≡ O.count outputs.old.source }
{
    match stream {
        StoredStream::NotCaptured | StoredStream::Empty => Ok(true),
        StoredStream::At(reference) => outputs.holds(&reference),
    }
}

// Puts stored outputs into an event: all, or only the one at this place.
fn load_wanted<O: ReadAt + Drop>(
    alloc: Global,
    stored: &[PlacedOutput],
    only: Option<usize>,
    outputs: &mut RecordedOutputs<O>,
    event: &mut ReportCall<'_>,
) -> Result<(), LoadEventFault>
    requires { O.count outputs.old.source ≤ 2 ^ 64 - 1 }
    ensures undamaged { IfSome (O.recorded outputs.old.source)
        (λ all. IsFirstBad (first_field_not (is_undamaged all) (wanted only stored.now)) result) }
    ensures loaded { IfSome (O.recorded outputs.old.source)
        (λ all. OnOk result
        (call_by_names event.new ≡ event_inline all (wanted only stored.now) (call_by_names event.old))) }
    ensures kept { O.recorded outputs.new.source ≡ O.recorded outputs.old.source }
    ensures count { OnOk result
        (O.count outputs.new.source ≡ counted (O.count outputs.old.source) (outputs_len (wanted only stored.now))) }
    ensures most { O.count outputs.new.source
        ≤ counted (O.count outputs.old.source) (outputs_len (wanted only stored.now)) }
{
    for placed in stored {
        if is_wanted(only, placed) {
            load_into_event(alloc, placed, outputs, event)?;
        }
    }
    Ok(())
}

// Whether an output is loaded: every output, or only the one at this place.
fn is_wanted(only: Option<usize>, placed: &PlacedOutput) -> bool
    ensures { result ≡ is_wanted only placed.now }
{
    match only {
        Some(place) => placed.place == place,
        None => true,
    }
}

// Loads one output and puts it into the event.
fn load_into_event<O: ReadAt + Drop>(
    alloc: Global,
    placed: &PlacedOutput,
    outputs: &mut RecordedOutputs<O>,
    event: &mut ReportCall<'_>,
) -> Result<(), LoadEventFault>
    requires { O.count outputs.old.source ≤ 2 ^ 64 - 1 }
    ensures undamaged { IfSome (O.recorded outputs.old.source)
        (λ all. IsFirstBad (field_not (is_undamaged all) placed.now) result) }
    ensures loaded { IfSome (O.recorded outputs.old.source)
        (λ all. OnOk result
        (call_by_names event.new
        ≡ event_with placed.now.place (output_inline all placed.now.output) (call_by_names event.old))) }
    ensures kept { O.recorded outputs.new.source ≡ O.recorded outputs.old.source }
    ensures count { OnOk result
        (O.count outputs.new.source ≡ counted (O.count outputs.old.source) (output_len placed.now.output)) }
    ensures most { O.count outputs.new.source ≤ counted (O.count outputs.old.source) (output_len placed.now.output) }
{
    match outputs.load_output(alloc, &placed.output) {
        Ok(captured) => {
            event.load(placed.place, captured);
            Ok(())
        }
        Err(StreamFault { stream, fault }) => Err(LoadEventFault {
            field: placed.field_of(stream),
            fault,
        }),
    }
}
