//! The reader of scenes.
//!
//! A scene is lines of fields separated by tabs. The first field names an event, and what follows it is read by the
//! kind of the event. `lines` knows which kinds there are; what fields each has is in the crates `scene_unit_lines` and
//! `scene_run_lines`.

ghost use Rattle.std.specs.Prelude.{◌≡◌, ◌+◌, ℕ, List, false, true, IfErr, Result, None, Ok, OnOk, Some};
ghost use Rattle.{scene_fields.specs.Fields.none_noted, scene_fields.specs.Fields.answered};
ghost use Rattle.{scene_run_lines.specs.Configs.unconfigured};
ghost use Rattle.{run_model.specs.declared.call.ReportCall.ReportCall};
ghost use Rattle.{scene_fields.specs.declared.stored.PlacedOutput.PlacedOutput};
ghost use Rattle.{command_line.specs.declared.fault.Fault.Fault};
ghost use Rattle.scene_reader.specs.SceneTexts.{PassesValue, before_next, event_word, config_words, with_config};
ghost use Rattle.scene_reader.specs.SceneTexts.{fault_at, is_configuration, is_passed_over, line_from, line_place};
ghost use Rattle.scene_reader.specs.SceneTexts.{line_words};
ghost use Rattle.scene_reader.specs.SceneTexts.{IsReadAgain, LinesBefore, parsed_line, value_of, with_stored};

pub mod lines;

use crate::usual::{read_usual, read_usual_start};
use command_line::fault::Fault;
use lines::read_event;
use run_model::call::ReportCall;
use run_model::memory::OutOfMemory;
use run_model::name::OwnedTestInstanceId;
use scene_fields::fault::{LineError, LineFault};
pub use scene_fields::fields::LARGE;
use scene_fields::fields::{Fields, split_fields};
use scene_fields::owned_text::OwnedText;
use scene_fields::split::strip_front;
use scene_fields::stored::PlacedOutput;
use scene_run_lines::config::SceneConfig;
use scene_run_lines::lines::read_config;
use scene_unit_lines::lines::no_names;
use std::alloc::Global;

/// What takes the calls of lines, one at a time.
pub trait CallSink {
    // what it does with the call of a line, by its file, number and stored outputs
    ghost takes: { Self → List ℕ → ℕ → List PlacedOutput → ReportCall → Result (Unit {0}) Fault → Self → Type 0 };

    /// Takes the call of the line of this number, of a run in this file. The outputs of the line that are stored are
    /// not loaded in the call.
    fn take<'a>(
        &mut self,
        alloc: Global,
        file: &'a str,
        number: u64,
        stored: &[PlacedOutput],
        call: &mut ReportCall<'_>,
    ) -> Result<(), Fault<'a>>
        ensures { takes self.old file.now number stored.now call.old result self.new };
}

/// What is known of the lines of a scene that were read so far. Their calls are not kept.
#[derive(Drop)]
pub struct LinesRead {
    /// How the run is reported.
    pub config: SceneConfig,
    /// Whether one of these lines is an event. After an event no line configures the run.
    pub is_begun: bool,
    /// The number of the next line.
    pub next: u64,
    // The names of the last test. Those of the next one reuse their memory.
    names: OwnedTestInstanceId,
}

impl LinesRead {
    /// No line.
    pub fn new(alloc: Global) -> LinesRead
        ensures config { result.config ≡ unconfigured }
        ensures begun { result.is_begun ≡ false }
        ensures next { result.next ≡ 1 }
    {
        LinesRead {
            config: SceneConfig::new(),
            is_begun: false,
            next: 1,
            names: no_names(alloc),
        }
    }

    /// Reads the next line, and has the sink take its call, if it has one. What is wrong with the line leaves
    /// the sink as it was. The list is for its fields.
    #[inline(always)]
    pub fn pass_line<'a, 't, K: CallSink>(
        &mut self,
        alloc: Global,
        file: &'a str,
        line: &'t [u8],
        texts: &mut Vec<&'t str>,
        sink: &mut K,
    ) -> Result<(), Fault<'a>>
        ensures { PassesValue K.takes file.now (with_stored (line_from None (before_next self.old) line.now)) self.old
            sink.old result self.new sink.new }
    {
        if is_passed_over(line) {
            return self.pass_over();
        }
        let Ok(line) = str::from_utf8(line) else {
            return Err(self.fault(LineFault::NotUtf8));
        };
        if strip_front(line, b"done\t").is_some() {
            return self.pass_done(alloc, file, line, texts, sink);
        }
        if strip_front(line, b"start\t").is_some() {
            return self.pass_start(alloc, file, line, texts, sink);
        }
        self.pass_split(alloc, file, line, texts, sink)
    }

    /// Reads the next line as `pass_line` does. The line owns its memory, and a large output keeps it. Each
    /// field costs more than in `pass_line`.
    pub fn pass_owned_line<'a, K: CallSink>(
        &mut self,
        alloc: Global,
        file: &'a str,
        line: Vec<u8>,
        sink: &mut K,
    ) -> Result<(), Fault<'a>>
        ensures { PassesValue K.takes file.now (with_stored (line_from None (before_next self.old) line.items))
            self.old sink.old result self.new sink.new }
    {
        if is_passed_over(line.as_slice()) {
            return self.pass_over();
        }
        let Some(line) = OwnedText::new(line) else {
            return Err(self.fault(LineFault::NotUtf8));
        };
        let mut fields = line.split_fields(alloc)?;
        self.pass_fields(
            alloc,
            file,
            Fields::of_large_line(fields.as_mut_slice()),
            sink,
        )
    }

    /// Reads the next line as `pass_line` does, where outputs may be stored: the sink gets those that are.
    pub fn pass_recorded_line<'a, 't, K: CallSink>(
        &mut self,
        alloc: Global,
        file: &'a str,
        line: &'t [u8],
        texts: &mut Vec<&'t str>,
        sink: &mut K,
    ) -> Result<(), Fault<'a>>
        ensures { PassesValue K.takes file.now
            (with_stored (line_from (Some none_noted) (before_next self.old) line.now)) self.old sink.old result
            self.new sink.new }
    {
        if is_passed_over(line) {
            return self.pass_over();
        }
        let Ok(line) = str::from_utf8(line) else {
            return Err(self.fault(LineFault::NotUtf8));
        };
        split_fields(line, texts)?;
        let fields = Fields::recorded(texts.as_slice(), Vec::new(alloc));
        self.pass_fields(alloc, file, fields, sink)
    }

    // Reads the fields of the next line.
    #[inline(always)]
    fn pass_fields<'a, K: CallSink>(
        &mut self,
        alloc: Global,
        file: &'a str,
        fields: Fields<'_>,
        sink: &mut K,
    ) -> Result<(), Fault<'a>>
        ensures { PassesValue K.takes file.now (with_stored (line_words (before_next self.old) fields.entry)) self.old
            sink.old result self.new sink.new }
    {
        let mut fields = fields;
        let word = match fields.take() {
            Ok(word) => word,
            Err(fault) => return Err(self.fault(fault)),
        };
        match word {
            "config" => match self.read_config_line(&mut fields) {
                Ok(()) => self.pass_over(),
                Err(fault) => Err(self.fault(fault)),
            },
            word => self.pass_call(alloc, file, word, fields, sink),
        }
    }

    // Reads how the run is reported, which no event may precede.
    fn read_config_line(&mut self, fields: &mut Fields<'_>) -> Result<(), LineFault>
        ensures config { config_words (before_next self.old) fields.old
            ≡ answered (with_config self.new.config result) fields.new }
        ensures begun { self.new.is_begun ≡ self.old.is_begun }
        ensures next { self.new.next ≡ self.old.next }
    {
        if self.is_begun {
            return Err(LineFault::ConfigAfterEvent);
        }
        fields.exactly(2)?;
        self.config = read_config(fields, self.config)?;
        Ok(())
    }

    // Reads a `done` line. Not inlined, like the next ones: the compiler zeroes all locals of a function at its entry,
    // used or not.
    #[inline(never)]
    fn pass_done<'a, 't, K: CallSink>(
        &mut self,
        alloc: Global,
        file: &'a str,
        line: &'t str,
        texts: &mut Vec<&'t str>,
        sink: &mut K,
    ) -> Result<(), Fault<'a>>
        ensures { PassesValue K.takes file.now
            (with_stored (line_words (before_next self.old) (line_place None line.now))) self.old sink.old result
            self.new sink.new }
    {
        match read_usual(alloc, line, &mut self.names)? {
            Some(usual) => {
                let number = self.next;
                // No text has that many lines.
                let next = number.checked_add(1).ok_or(Fault::OutOfMemory)?;
                let call = usual.into_call(alloc, &self.names);
                lend(alloc, file, number, &[], call, sink)?;
                self.count_event(next);
                Ok(())
            }
            None => self.pass_split(alloc, file, line, texts, sink),
        }
    }

    // Reads a `start` line.
    #[inline(never)]
    fn pass_start<'a, 't, K: CallSink>(
        &mut self,
        alloc: Global,
        file: &'a str,
        line: &'t str,
        texts: &mut Vec<&'t str>,
        sink: &mut K,
    ) -> Result<(), Fault<'a>>
        ensures { PassesValue K.takes file.now
            (with_stored (line_words (before_next self.old) (line_place None line.now))) self.old sink.old result
            self.new sink.new }
    {
        match read_usual_start(alloc, line, &mut self.names)? {
            Some(usual) => {
                let number = self.next;
                // No text has that many lines.
                let next = number.checked_add(1).ok_or(Fault::OutOfMemory)?;
                let call = usual.into_call(&self.names);
                lend(alloc, file, number, &[], call, sink)?;
                self.count_event(next);
                Ok(())
            }
            None => self.pass_split(alloc, file, line, texts, sink),
        }
    }

    // Splits a line into its fields, and reads them.
    #[inline(never)]
    fn pass_split<'a, 't, K: CallSink>(
        &mut self,
        alloc: Global,
        file: &'a str,
        line: &'t str,
        texts: &mut Vec<&'t str>,
        sink: &mut K,
    ) -> Result<(), Fault<'a>>
        ensures { PassesValue K.takes file.now
            (with_stored (line_words (before_next self.old) (line_place None line.now))) self.old sink.old result
            self.new sink.new }
    {
        split_fields(line, texts)?;
        self.pass_fields(alloc, file, Fields::new(texts.as_slice()), sink)
    }

    // Reads the fields behind the word of an event. Its call is large: it is made here, and lent.
    #[inline(never)]
    fn pass_call<'a, K: CallSink>(
        &mut self,
        alloc: Global,
        file: &'a str,
        word: &str,
        fields: Fields<'_>,
        sink: &mut K,
    ) -> Result<(), Fault<'a>>
        ensures { PassesValue K.takes file.now (with_stored (event_word word.now fields.entry)) self.old sink.old
            result self.new sink.new }
    {
        let mut fields = fields;
        let number = self.next;
        // No text has that many lines.
        let next = number.checked_add(1).ok_or(Fault::OutOfMemory)?;
        match read_event(alloc, &mut self.names, word, &mut fields) {
            Ok(call) => {
                let stored = fields.into_stored(alloc);
                lend(alloc, file, number, stored.as_slice(), call, sink)?;
            }
            Err(error) => return Err(fault_at(number, error)),
        }
        self.count_event(next);
        Ok(())
    }

    // The line of an event was read, and the next one has this number.
    #[inline(always)]
    fn count_event(&mut self, next: u64)
        ensures { self.new ≡ record self.old { is_begun = true; next = next } }
    {
        self.is_begun = true;
        self.next = next;
    }

    // One more line was read; its number cannot overflow.
    #[inline(always)]
    fn pass_over(&mut self) -> Result<(), Fault<'static>>
        ensures before { before_next self.new ≡ before_next self.old }
        ensures next { OnOk result (self.new.next ≡ self.old.next + 1) }
        ensures err { IfErr result (λ fault. fault ≡ Fault.OutOfMemory) }
    {
        self.next = self.next.checked_add(1).ok_or(Fault::OutOfMemory)?;
        Ok(())
    }

    // The fault of the next line.
    fn fault(&self, fault: LineFault) -> Fault<'static>
        ensures { result ≡ Fault.Line self.now.next fault }
    {
        Fault::Line {
            line: self.next,
            fault,
        }
    }
}

/// The call of a line that is read again, if it has one; `names` are those of its test.
///
/// # Errors
///
/// What is wrong with the line, or refused memory.
pub fn read_call<'n>(
    alloc: Global,
    names: Option<&'n OwnedTestInstanceId>,
    line: &[u8],
) -> Result<Option<ReportCall<'n>>, LineError>
    ensures { (before : LinesBefore) → IsReadAgain (parsed_line before line.now) result }
{
    if is_passed_over(line) {
        return Ok(None);
    }
    let Ok(line) = str::from_utf8(line) else {
        return Err(LineError::Fault(LineFault::NotUtf8));
    };
    let mut texts = Vec::new(alloc);
    split_fields(line, &mut texts)?;
    read_words(alloc, names, Fields::new(texts.as_slice()))
}

// The call of a line from all its fields, if it has one.
fn read_words<'n>(
    alloc: Global,
    names: Option<&'n OwnedTestInstanceId>,
    fields: Fields<'_>,
) -> Result<Option<ReportCall<'n>>, LineError>
    ensures { (before : LinesBefore) → IsReadAgain (value_of (line_words before fields.entry)) result }
{
    let mut fields = fields;
    match fields.take()? {
        "config" => Ok(None),
        word => Ok(Some(read_event(alloc, names, word, &mut fields)?)),
    }
}

// Lends a call to the sink and drops it: here alone, since dropping has a branch for each kind.
#[inline(always)]
fn lend<'a, K: CallSink>(
    alloc: Global,
    file: &'a str,
    number: u64,
    stored: &[PlacedOutput],
    mut call: ReportCall<'_>,
    sink: &mut K,
) -> Result<(), Fault<'a>>
    ensures { K.takes sink.old file.now number stored.now call.entry result sink.new }
{
    sink.take(alloc, file, number, stored, &mut call)
}

// The fault of a scene whose line of this number cannot be read.
fn fault_at(line: u64, error: LineError) -> Fault<'static>
    ensures { result ≡ fault_at line error }
{
    match error {
        LineError::Fault(fault) => Fault::Line { line, fault },
        LineError::OutOfMemory => Fault::OutOfMemory,
    }
}

// Whether a line is empty, or begins with `#`.
fn is_passed_over(line: &[u8]) -> bool
    ensures { result ≡ is_passed_over line.now }
{
    matches!(line, [] | [b'#', ..])
}

/// Whether a line configures the report, or is empty or a comment.
pub fn is_configuration(line: &[u8]) -> bool
    ensures { result ≡ is_configuration line.now }
{
    is_passed_over(line) || line == b"config".as_slice() || line.starts_with(b"config\t")
}
