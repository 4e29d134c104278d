//! A run as a scene holds it, and the calls that it makes of its reporter.

ghost use Rattle.std.specs.Prelude.{◌≡◌, IfOk, IfErr, get_or};
ghost use Rattle.std.specs.List.{AllZip};
ghost use Rattle.scene_reader.specs.Names.{IsCallOf, event_lines, no_lines, text_lines};
ghost use Rattle.scene_follower.specs.Names.{AreReadyCallsOf, IsJudgeFault, OfText};
ghost use Rattle.scenes.specs.Names.{IsFaultOfLines};
ghost use Rattle.scenes.specs.{SceneNotes.NotesEvent};

use command_line::args::Options;
use command_line::fault::Fault;
use console_reporter::imp::{ReportCall, unload_skipped};
use run_model::event::TestEventKind;
use run_model::info::InfoResponse;
use run_model::memory::OutOfMemory;
use run_model::name::{OwnedTestInstanceId, TestInstanceId};
use scene_fields::fault::LineError;
use scene_fields::split::first_line;
use scene_fields::stored::PlacedOutput;
use scene_follower::read::{Reading, SceneSource};
use scene_follower::reporter::decider_of;
use scene_reader::reader::{CallSink, read_call};
use scene_run_lines::config::SceneConfig;
use scene_unit_lines::lines::no_names;
use std::alloc::Global;
use std::marker::Model;

/// A run of which all lines were read. It owns their text, and the names of their tests.
#[derive(Drop)]
pub struct Scene {
    config: SceneConfig,
    text: Vec<u8>,
    events: Vec<ReadEvent>,
}

// The line of an event: its number, from 1, and the names of its test, or empty ones.
#[derive(Drop)]
struct ReadEvent {
    number: u64,
    names: OwnedTestInstanceId,
}

impl Model for Scene {
    ghost use Rattle.std.specs.Prelude.{map};
    ghost use Rattle.scene_follower.specs.ParsedScenes.{IsOfText, SceneText};

    ghost Value = { SceneText };

    ghost view = { λ s. record { text = s.text.items; config = s.config } };

    ghost invariant = { λ s. IsOfText s.text.items s.config (map (λ e. e.number) s.events.items) };
}

impl Scene {
    // Reads the lines of a text, of a scene in this file.
    pub(crate) fn read<'a>(alloc: Global, file: &'a str, text: Vec<u8>) -> Result<Scene, Fault<'a>>
        ensures scene { IfOk result (λ scene. scene.text ≡ text.items) }
        ensures fault { IfErr result (IsFaultOfLines (text_lines text.items)) }
        ensures of_judge { IfErr result (IsJudgeFault file.now) }
    {
        let mut source = SceneSource::new(alloc, text.as_slice())?;
        let mut reading = Reading::begin(alloc, file, &mut source)?;
        let mut events = Events {
            lines: Vec::new(alloc),
        };
        let config = reading.read.config;
        reading.pass_to(alloc, file, &mut source, &mut events)?;
        drop(source);
        Ok(Scene {
            config,
            text,
            events: events.lines,
        })
    }

    /// The configuration of its report.
    pub fn config(&self) -> &SceneConfig
        ensures config { result.now ≡ self.now.config }
        ensures of_text { OfText self.now.text (λ run. run.config ≡ self.now.config) }
    {
        &self.config
    }

    /// Its text.
    pub fn text(&self) -> &[u8]
        ensures text { result.now ≡ self.now.text }
        ensures of_text { OfText self.now.text (λ run. run.config ≡ self.now.config) }
    {
        self.text.as_slice()
    }

    /// The line of the event with this index, from 1; 0 if there is no such event.
    pub fn line_of(&self, index: usize) -> u64
        ensures { result ≡ get_or (event_lines 1 no_lines (text_lines self.now.text)) index 0 }
    {
        match self.events.get(index) {
            Some(event) => event.number,
            None => 0,
        }
    }

    /// The calls that the scene makes of a reporter, in order. They borrow its names. Where the options ask for it, the
    /// output that the reporter does not show is left unread, which changes neither its report nor what it refuses.
    ///
    /// # Errors
    ///
    /// `OutOfMemory`.
    pub fn calls(
        &self,
        alloc: Global,
        options: &Options<'_>,
    ) -> Result<Vec<ReportCall<'_>>, Fault<'static>>
        ensures calls { IfOk result
            (λ calls. OfText self.now.text (λ run. AreReadyCallsOf options.now run calls.items)) }
        ensures err { IfErr result (λ fault. fault ≡ Fault.OutOfMemory) }
    {
        let mut calls = self.whole_calls(alloc)?;
        if !options.unload_skipped {
            return Ok(calls);
        }
        let decider = decider_of(options, &self.config);
        unload_skipped(&decider, calls.as_mut_slice());
        Ok(calls)
    }

    // The calls, each with its output. The lines are read again, and each was read before, so none is malformed.
    fn whole_calls(&self, alloc: Global) -> Result<Vec<ReportCall<'_>>, OutOfMemory>
        ensures { IfOk result (λ calls. OfText self.now.text (λ run. AllZip IsCallOf run.events calls.items)) }
    {
        let mut calls = Vec::with_capacity(alloc, self.events.len())?;
        let mut rest = Some(self.text.as_slice());
        for _turn in 0..u64::MAX {
            let Some(left) = rest else {
                return Ok(calls);
            };
            let (line, after) = first_line(left);
            let names = self.events.get(calls.len()).map(|event| &event.names);
            let call = match read_call(alloc, names, line) {
                Ok(call) => call,
                Err(LineError::OutOfMemory) => return Err(OutOfMemory),
                Err(LineError::Fault(_)) => unreachable!(),
            };
            if let Some(call) = call {
                calls.push(call)?;
            }
            rest = after;
        }
        Err(OutOfMemory)
    }
}

// The lines of the events that were read.
#[derive(Drop)]
struct Events {
    lines: Vec<ReadEvent>,
}

impl CallSink for Events {
    ghost takes = { λ old file. NotesEvent old };

    fn take<'a>(
        &mut self,
        alloc: Global,
        _file: &'a str,
        number: u64,
        _stored: &[PlacedOutput],
        call: &mut ReportCall<'_>,
    ) -> Result<(), Fault<'a>> {
        let names = match test_of(call) {
            Some(test) => {
                let (binary_id, test_name) = (test.binary_id.as_str(), test.test_name.as_str());
                OwnedTestInstanceId::new(alloc, binary_id, test_name)?
            }
            None => no_names(alloc),
        };
        match self.lines.push(ReadEvent { number, names }) {
            Ok(()) => Ok(()),
            Err(_) => Err(Fault::OutOfMemory),
        }
    }
}

// The test of a call, if the call is about one.
fn test_of<'c>(call: &'c ReportCall<'_>) -> Option<&'c TestInstanceId<'c>> {
    let ReportCall::Event(event) = call else {
        return None;
    };
    match &event.kind {
        TestEventKind::TestStarted { test_instance, .. }
        | TestEventKind::TestSlow { test_instance, .. }
        | TestEventKind::TestAttemptFailedWillRetry { test_instance, .. }
        | TestEventKind::TestRetryStarted { test_instance, .. }
        | TestEventKind::TestFinished { test_instance, .. }
        | TestEventKind::TestSkipped { test_instance, .. } => Some(test_instance),
        TestEventKind::InfoResponse {
            response: InfoResponse::Test(response),
            ..
        } => Some(&response.test_instance),
        _ => None,
    }
}
