//! A live run: each line of a scene is reported as soon as it was read.
//!
//! The lines up to the first event configure the report. From there on the buffered lines are read, the text of each
//! event is written and delivered, and then the next are read. Only what the summary will list is kept, and those
//! lines.

ghost use Rattle.std.specs.Prelude.{◌≡◌, ℕ, List, [], Option, None, Some, IfOk, IfErr, OnOk};
ghost use Rattle.console_reporter.specs.Names.{IsSameStore, config_of, store_delivered, store_meaning};
ghost use Rattle.scene_reader.specs.SceneTexts.{RunLine, no_lines, text_lines};
ghost use Rattle.scene_follower.specs.Names.{Followed, StopsBy, OfLines, OfText, Begins, Prints, PrintsFollowed};
ghost use Rattle.scene_follower.specs.Names.{device, store_for};
ghost use Rattle.scene_follower.specs.Follow.{with_outcome};

use crate::devices::{RecordDevice, buffered};
pub use crate::outcome::RunOutcome;
use crate::read::{Reading, RunSource, SceneSource};
use crate::reporter::builder_of;
use crate::scene_reporter::SceneReporter;
use command_line::args::Options;
use command_line::fault::Fault;
use console_reporter::imp::{Store, give_back};
use console_reporter::write_str::WriteStr;
use run_model::memory::OutOfMemory;
use std::alloc::Global;
use std::io::{Read, Write};

/// Follows the lines of a reader: the buffered ones are read, the text of each event is written and delivered, and then
/// the next ones are read. The records go to a second device, if the options ask for them. Both devices are returned.
///
/// On `Ok` the device has what `report_scene` prints for the same bytes, and the result is the outcome of the run.
///
/// # Errors
///
/// The fault of the first line that is wrong or whose event is refused, or a failed reader: the report of the lines
/// before it is complete. Or a failed device, or refused memory: each device then has a prefix.
pub fn follow_scene<'a, R: Read + Drop, W: Write, S: Write>(
    alloc: Global,
    options: &Options<'a>,
    reader: R,
    writer: W,
    store_writer: S,
) -> (Result<RunOutcome, Fault<'a>>, W, S)
    ensures ok { (text : List ℕ) → R.remaining reader ≡ Some text
        → IfOk result.0 (λ come_to. OfText text
        (PrintsFollowed device device options.now (W.contents writer, S.contents store_writer)
        (W.contents result.1, S.contents result.2) come_to)) }
    ensures err { (text : List ℕ) → R.remaining reader ≡ Some text
        → IfErr result.0 (StopsBy options.now (text_lines text)
        (Prints device device options.now (W.contents writer, S.contents store_writer)
        (W.contents result.1, S.contents result.2))
        (Begins device device options.now (W.contents writer, S.contents store_writer)
        (W.contents result.1, S.contents result.2))) }
    ensures no_store { options.now.store ≡ None → result.2 ≡ store_writer }
{
    match SceneSource::new(alloc, reader) {
        Ok(mut source) => follow_source(alloc, options, &mut source, writer, store_writer),
        Err(OutOfMemory) => (Err(Fault::OutOfMemory), writer, store_writer),
    }
}

/// Follows the lines of a source as [`follow_scene`] does those of a reader. On `Ok` the source has none left.
///
/// # Errors
///
/// The errors of [`follow_scene`].
pub fn follow_source<'a, L: RunSource, W: Write, S: Write>(
    alloc: Global,
    options: &Options<'a>,
    source: &mut L,
    writer: W,
    store_writer: S,
) -> (Result<RunOutcome, Fault<'a>>, W, S)
    ensures ok { (total : ℕ) (all : List RunLine) → L.left total source.old [] no_lines all
        → IfOk result.0 (λ come_to. OfLines all
        (PrintsFollowed device device options.now (W.contents writer, S.contents store_writer)
        (W.contents result.1, S.contents result.2) come_to)) }
    ensures rest { (total : ℕ) (all : List RunLine) → L.left total source.old [] no_lines all
        → OnOk result.0 (OfLines all (λ run. L.left total source.new [] run [])) }
    ensures err { (total : ℕ) (all : List RunLine) → L.left total source.old [] no_lines all
        → IfErr result.0 (StopsBy options.now all
        (Prints device device options.now (W.contents writer, S.contents store_writer)
        (W.contents result.1, S.contents result.2))
        (Begins device device options.now (W.contents writer, S.contents store_writer)
        (W.contents result.1, S.contents result.2))) }
    ensures no_store { options.now.store ≡ None → result.2 ≡ store_writer }
{
    let (mut out, records) = match buffered(alloc, options, writer, store_writer) {
        Ok(devices) => devices,
        Err((writer, store_writer)) => return (Err(Fault::OutOfMemory), writer, store_writer),
    };
    match records {
        RecordDevice::Unused(store_writer) => {
            let no_store = None::<Store<'_, String>>;
            let (outcome, _lent, _) = follow_to(alloc, options, source, &mut out, no_store);
            let (writer, _pending) = out.into_inner();
            (outcome, writer, store_writer)
        }
        RecordDevice::Buffered(mut records, config) => {
            let store = Store::new(&mut records, config);
            let (outcome, lent, store) = follow_to(alloc, options, source, &mut out, Some(store));
            if let Some(Store { writer: held, .. }) = store {
                give_back(lent, held);
            }
            let (writer, _pending) = out.into_inner();
            let (store_writer, _unstored) = records.into_inner();
            (outcome, writer, store_writer)
        }
    }
}

// Follows the lines of a source to a writer, and to a store if there is one, and returns both.
fn follow_to<'a, 'w, L: RunSource, W: WriteStr, S: WriteStr>(
    alloc: Global,
    options: &Options<'a>,
    source: &mut L,
    writer: &'w mut W,
    store: Option<Store<'w, S>>,
) -> (
    Result<RunOutcome, Fault<'a>>,
    &'w mut W,
    Option<Store<'w, S>>,
)
    requires store_asked { config_of store ≡ store_for options.now }
    requires delivered { W.meaning.is_delivered writer.old }
    requires store_delivered { store_delivered S.meaning store }
    ensures same_reference { (total : ℕ) (all : List RunLine) → L.left total source.old [] no_lines all
        → result.1.ghost_name ≡ writer.entry.ghost_name }
    ensures same_store { (total : ℕ) (all : List RunLine) → L.left total source.old [] no_lines all
        → IsSameStore store.entry result.2 }
    ensures ends { (total : ℕ) (all : List RunLine) → L.left total source.old [] no_lines all
        → Followed W.meaning (store_meaning S.meaning) options.now all (writer.old, store.entry)
        (result.1.now, result.2) (λ run. L.left total source.new [] run []) result.0 }
{
    let mut reading = match Reading::begin(alloc, options.file, source) {
        Ok(reading) => reading,
        Err(fault) => return (Err(fault), writer, store),
    };
    let config = reading.read.config;
    let builder = match builder_of(alloc, options, &config) {
        Ok(builder) => builder,
        Err(fault) => return (Err(fault), writer, store),
    };
    let mut reporter = SceneReporter::build(alloc, options, builder, &config, writer, store);
    let passed = reading.pass_to(alloc, options.file, source, &mut reporter);
    end(options, reporter, passed)
}

// The outcome of the lines, and the reporter's writers.
fn end<'a, 'w, W: WriteStr, S: WriteStr>(
    options: &Options<'_>,
    reporter: SceneReporter<'w, W, S>,
    passed: Result<(), Fault<'a>>,
) -> (
    Result<RunOutcome, Fault<'a>>,
    &'w mut W,
    Option<Store<'w, S>>,
)
    ensures outcome { result.0 ≡ with_outcome reporter.entry.outcome passed.entry }
    ensures writer { result.1 ≡ reporter.entry.reporter.writer }
    ensures store { result.2 ≡ reporter.entry.reporter.store }
{
    let outcome = match passed {
        Ok(()) => Ok(reporter.outcome),
        Err(fault) => Err(fault),
    };
    let (writer, store) = reporter.into_parts(options);
    (outcome, writer, store)
}
