//! What the program does with a scene, over any reader and any two writers.
//!
//! The report is gathered in memory while the lines are read, so no byte is written before a scene is accepted, and
//! none of a scene that is refused.

ghost use Rattle.std.specs.Prelude.{◌≡◌, ◌⊎◌, ℕ, List, None, Option, Some, IfErr, IfOk, Ok, OnOk, [], string_bytes};
ghost use Rattle.{scenes.specs.Created.MayCreate, scenes.specs.Judged.fault_in_memory};
ghost use Rattle.scene_follower.specs.Names.{Begins, IsJudgeFault, IsUnread, OfText, Prints, device};
ghost use Rattle.scene_follower.specs.Names.{store_for};
ghost use Rattle.scenes.specs.Names.{IsFaultOfLines, IsRefusal, IsRefusedText, IsRejected, IsRunAccepted, OfStore};
ghost use Rattle.scenes.specs.Names.{SceneFails};
ghost use Rattle.command_line.specs.declared.fault.Fault.TheVariants.{OutOfMemory, WriteFailed};
ghost use Rattle.styled_text.specs.Names.{Appends, AppendsFront};
ghost use Rattle.scene_follower.specs.Names.{OfLines};
ghost use Rattle.scene_reader.specs.Names.{ParsedLines, RunLine, no_lines, text_lines};
ghost use Rattle.{scene_reader.specs.SceneTexts.text_read};
ghost use Rattle.writers.specs.Writer.{Puts};

use crate::gathering::Gathering;
use crate::judge::Judge;
use crate::keeping::KeepingSource;
use crate::scene::Scene;
use command_line::args::Options;
use command_line::fault::Fault;
use console_reporter::imp::Store;
use console_reporter::write_str::{TextBuffer, WriteFault, WriteStr};
use scene_follower::follow::follow_scene;
use scene_follower::read::{Reading, RunSource, SceneSource};
use scene_follower::reporter::{builder_of, decider_of};
use scene_follower::scene_reporter::SceneReporter;
use std::alloc::{AllocError, Global};
use std::io::{Read, Write};
use std::mem;

/// Reads a scene to its end, judges it, and writes its report to a device. If the options ask for records, these go to
/// a second device, which is created for their path once the scene is accepted, and before a byte is written. Both
/// devices are returned: the whole way from a file's bytes to those of both texts. A scene that has a fault creates no
/// device, and leaves the first one as it was.
pub fn report_scene<
    'a,
    R: Read + Drop,
    W: Write,
    S: Write,
    F: FnOnce(&'a str) -> Result<S, Fault<'a>>,
>(
    alloc: Global,
    options: &Options<'a>,
    reader: R,
    writer: W,
    create_store: F,
) -> (Result<(), Fault<'a>>, W, Option<S>)
    requires create_store { MayCreate (F.pre create_store) options.now (R.remaining reader) }
    ensures no_store { options.now.store ≡ None → result.2 ≡ None }
    ensures ok { (text : List ℕ) → R.remaining reader ≡ Some text
        → OnOk result.0 (OfStore S.contents (F.post create_store) options.now.store result.2
        (λ store_old store_new. OfText text
        (Prints device device options.now (W.contents writer, store_old) (W.contents result.1, store_new)))) }
    ensures err { (text : List ℕ) → R.remaining reader ≡ Some text
        → IfErr result.0
        (SceneFails W.contents S.contents (F.post create_store) options.now text writer (result.1, result.2)) }
{
    let Some(store) = options.store else {
        let (outcome, writer) = report_gathered(alloc, options, reader, writer);
        return (outcome, writer, None);
    };
    let text = match read_judged(alloc, options, reader) {
        Ok(text) => text,
        Err(fault) => return (Err(fault), writer, None),
    };
    match create_store(store.file) {
        Ok(store_writer) => {
            let (outcome, writer, store_writer) = report_judged(
                alloc,
                options,
                text.as_slice(),
                writer,
                store_writer,
            );
            (outcome, writer, Some(store_writer))
        }
        Err(fault) => (Err(fault), writer, None),
    }
}

/// Reports a scene as [`report_scene`] does, without records: the text is gathered in memory while the lines are read,
/// and no event is kept but those that the summary will list.
fn report_gathered<'a, R: Read + Drop, W: Write>(
    alloc: Global,
    options: &Options<'a>,
    reader: R,
    writer: W,
) -> (Result<(), Fault<'a>>, W)
    requires no_store { store_for options.now ≡ None }
    ensures ok { (text : List ℕ) (held : Option (List ℕ)) → R.remaining reader ≡ Some text
        → OnOk result.0 (OfText text
        (Prints device device options.now (W.contents writer, held) (W.contents result.1, held))) }
    ensures err { (text : List ℕ) (held : Option (List ℕ)) → R.remaining reader ≡ Some text
        → IfErr result.0 (λ fault. IsRejected options.now text fault (writer, held) (result.1, held)
        ⊎ OfText text (λ run. Begins device device options.now (W.contents writer, held)
        (W.contents result.1, held) run fault)) }
{
    match report_to_string(alloc, options, reader) {
        Ok(text) => deliver(alloc, text.as_str(), writer),
        Err(fault) => (Err(fault), writer),
    }
}

// Writes a text to a device.
fn deliver<W: Write>(alloc: Global, text: &str, writer: W) -> (Result<(), Fault<'static>>, W)
    ensures ok { OnOk result.0 (Appends (W.contents writer) (W.contents result.1) text.now) }
    ensures err { IfErr result.0
        (λ fault. ((fault ≡ WriteFailed) ⊎ (fault ≡ OutOfMemory))
        × AppendsFront (W.contents writer) (W.contents result.1) text.now) }
{
    let mut out = match TextBuffer::new(alloc, writer) {
        Ok(out) => out,
        Err((AllocError, writer)) => return (Err(Fault::OutOfMemory), writer),
    };
    let delivered = deliver_to(&mut out, text);
    let (writer, _pending) = out.into_inner();
    match delivered {
        Ok(()) => (Ok(()), writer),
        Err(_) => (Err(Fault::WriteFailed), writer),
    }
}

fn deliver_to<W: WriteStr>(w: &mut W, text: &str) -> Result<(), WriteFault>
    ensures text { Puts W.meaning w.old text.now result w.new }
    ensures delivered { OnOk result (W.meaning.is_delivered w.new) }
{
    w.write_str(text)?;
    w.write_str_flush()
}

/// The report of a scene as a text in memory, as [`report_scene`] prints it.
///
/// # Errors
///
/// The fault of the first line that has one, the line of the first call that is refused, that the file cannot be read,
/// or that memory is refused.
pub fn report_to_string<'a, R: Read + Drop>(
    alloc: Global,
    options: &Options<'a>,
    reader: R,
) -> Result<String, Fault<'a>>
    requires no_store { store_for options.now ≡ None }
    ensures report { (text : List ℕ) → R.remaining reader ≡ Some text
        → IfOk result (λ report. OfText text
        (Prints device device options.now (Some [], None) (Some (string_bytes report), None))) }
    ensures fault { (text : List ℕ) → R.remaining reader ≡ Some text
        → IfErr result (IsRefusal options.now (text_lines text)) }
{
    let Ok(mut source) = SceneSource::new(alloc, reader) else {
        return Err(Fault::OutOfMemory);
    };
    let mut reading = match Reading::begin(alloc, options.file, &mut source) {
        Ok(reading) => reading,
        Err(fault) => return Err(fault),
    };
    let config = reading.read.config;
    let builder = match builder_of(alloc, options, &config) {
        Ok(builder) => builder,
        Err(fault) => return Err(fault),
    };
    let mut text = String::new(alloc);
    let no_store = None::<Store<'_, String>>;
    let reporter = SceneReporter::build(alloc, options, builder, &config, &mut text, no_store);
    let mut gathering = Gathering::new(reporter);
    match reading.pass_to(alloc, options.file, &mut source, &mut gathering) {
        Ok(()) => {}
        Err(fault) => return Err(fault),
    }
    let Gathering { reporter, refused } = gathering;
    match refused {
        None => {}
        Some(fault) => return Err(fault),
    }
    let (report, _store) = reporter.into_parts(options);
    Ok(mem::replace(report, String::new(alloc)))
}

/// Reads a scene to its end, and judges each line as it is read, and then whether its reporter would refuse a call. It
/// returns the text of the lines.
///
/// # Errors
///
/// The fault of the first line that has one, the line of the first call that is refused, that the file cannot be read,
/// or that memory is refused.
fn read_judged<'a, R: Read + Drop>(
    alloc: Global,
    options: &Options<'a>,
    reader: R,
) -> Result<Vec<u8>, Fault<'a>>
    ensures accepted { (text : List ℕ) → R.remaining reader ≡ Some text → IfOk result
        (λ kept. OfText text (λ run. IsRunAccepted options.now run × (text_read kept.items ≡ Ok run))) }
    ensures fault { (text : List ℕ) → R.remaining reader ≡ Some text
        → IfErr result (IsRefusal options.now (text_lines text)) }
{
    let Ok(mut source) = KeepingSource::new(alloc, reader) else {
        return Err(Fault::OutOfMemory);
    };
    match judge_source(alloc, options, &mut source) {
        Ok(()) => {}
        Err(fault) => return Err(fault),
    }
    let KeepingSource { kept, .. } = source;
    Ok(kept)
}

// Judges a text.
fn judge_text<'a>(alloc: Global, options: &Options<'a>, text: &[u8]) -> Result<(), Fault<'a>>
    ensures accepted { OnOk result (OfText text.now (IsRunAccepted options.now)) }
    ensures fault { IfErr result (IsRefusal options.now (text_lines text.now)) }
{
    let Ok(mut source) = SceneSource::new(alloc, text) else {
        return Err(Fault::OutOfMemory);
    };
    judge_source(alloc, options, &mut source)
}

// Judges the lines of a source: each of them, and then whether their reporter would refuse a call.
fn judge_source<'a, L: RunSource>(
    alloc: Global,
    options: &Options<'a>,
    source: &mut L,
) -> Result<(), Fault<'a>>
    ensures accepted { (total : ℕ) (all : List RunLine) → L.left total source.old [] no_lines all → OnOk result
        (OfLines all (λ run. IsRunAccepted options.now run × L.left total source.new [] run [])) }
    ensures fault { (total : ℕ) (all : List RunLine) → L.left total source.old [] no_lines all
        → IfErr result (IsRefusal options.now all) }
{
    let mut reading = match Reading::begin(alloc, options.file, source) {
        Ok(reading) => reading,
        Err(fault) => return Err(fault),
    };
    let mut judge = Judge::new(decider_of(options, &reading.read.config));
    match reading.pass_to(alloc, options.file, source, &mut judge) {
        Ok(()) => {}
        Err(fault) => return Err(fault),
    }
    match judge.refused {
        None => Ok(()),
        Some(fault) => Err(fault),
    }
}

/// Writes the report of a text that was judged.
fn report_judged<W: Write, S: Write>(
    alloc: Global,
    options: &Options<'_>,
    text: &[u8],
    writer: W,
    store_writer: S,
) -> (Result<(), Fault<'static>>, W, S)
    ensures ok { OnOk result.0
        (OfText text.now
        (Prints device device options.now (W.contents writer, S.contents store_writer)
        (W.contents result.1, S.contents result.2))) }
    ensures err { OfText text.now (IsRunAccepted options.now) → IfErr result.0
        (λ fault. OfText text.now
        (λ run. Begins device device options.now (W.contents writer, S.contents store_writer)
        (W.contents result.1, S.contents result.2) run fault)) }
    ensures no_store { options.now.store ≡ None → result.2 ≡ store_writer }
{
    let (outcome, writer, store_writer) = follow_scene(alloc, options, text, writer, store_writer);
    match outcome {
        Ok(_) => (Ok(()), writer, store_writer),
        Err(fault) => (Err(in_memory(fault)), writer, store_writer),
    }
}

// The fault of a text in memory, which names no file. Reading it fails only if memory is refused.
fn in_memory(fault: Fault<'_>) -> Fault<'static>
    ensures { result ≡ fault_in_memory fault.entry }
{
    match fault {
        Fault::Usage => Fault::Usage,
        Fault::CannotRead { .. } | Fault::CannotWrite { .. } => Fault::OutOfMemory,
        Fault::Line { line, fault } => Fault::Line { line, fault },
        Fault::WriteFailed => Fault::WriteFailed,
        Fault::StoreFailed => Fault::StoreFailed,
        Fault::OutOfMemory => Fault::OutOfMemory,
    }
}

/// Reads a scene to its end, and each line by itself.
///
/// # Errors
///
/// The fault of the first line that is wrong, `CannotRead` with the file of the options, or `OutOfMemory`.
pub fn read_whole<'a, R: Read + Drop>(
    alloc: Global,
    options: &Options<'a>,
    reader: R,
) -> Result<Scene, Fault<'a>>
    ensures fault { IfErr result (IsJudgeFault options.now.file.now) }
    ensures scene { (text : List ℕ) → R.remaining reader ≡ Some text → IfOk result (λ scene. scene.text ≡ text) }
    ensures first_fault { (text : List ℕ) → R.remaining reader ≡ Some text
        → IfErr result (IsFaultOfLines (text_lines text)) }
{
    Scene::read(alloc, options.file, read_text(alloc, options, reader)?)
}

// The bytes of a reader, to its end.
fn read_text<'a, R: Read + Drop>(
    alloc: Global,
    options: &Options<'a>,
    reader: R,
) -> Result<Vec<u8>, Fault<'a>>
    ensures text { (text : List ℕ) → R.remaining reader ≡ Some text → IfOk result (λ read. read.items ≡ text) }
    ensures fault { IfErr result (IsUnread options.now.file.now) }
{
    let mut reader = reader;
    let mut text = Vec::new(alloc);
    match reader.read_to_end(&mut text) {
        Ok(_) => Ok(text),
        Err(error) => Err(Fault::CannotRead { file: options.file }.by_kind(error.kind())),
    }
}

/// Reads a scene to its end and judges it: each line by itself, and then whether its reporter would refuse a call.
///
/// # Errors
///
/// The fault of the first line that is wrong, that of the line of the first call that is refused, `CannotRead`, or
/// `OutOfMemory`.
pub fn judge<'a, R: Read + Drop>(
    alloc: Global,
    options: &Options<'a>,
    reader: R,
) -> Result<Scene, Fault<'a>>
    ensures fault { IfErr result (IsJudgeFault options.now.file.now) }
    ensures scene { (text : List ℕ) → R.remaining reader ≡ Some text → IfOk result (λ scene. scene.text ≡ text) }
    ensures first_fault { (text : List ℕ) → R.remaining reader ≡ Some text
        → IfErr result (λ fault. IsFaultOfLines (text_lines text) fault ⊎ IsRefusedText options.now text fault) }
    // No call of the scene is refused.
    ensures accepted { IfOk result (λ scene. OfText scene.text (IsRunAccepted options.now)) }
{
    let scene = read_whole(alloc, options, reader)?;
    match judge_text(alloc, options, scene.text()) {
        Ok(()) => Ok(scene),
        Err(fault) => Err(fault),
    }
}

/// Writes the report of a scene to a device, and its records to a second one if the options ask for them, and returns
/// both. Its text is judged first: if the reporter refuses a call, both devices are as they were.
///
/// # Errors
///
/// The fault of the line of the first call that is refused; or a failed device, or refused memory, after which each
/// device has a prefix.
pub fn write_scene<W: Write, S: Write>(
    alloc: Global,
    options: &Options<'_>,
    scene: &Scene,
    writer: W,
    store_writer: S,
) -> (Result<(), Fault<'static>>, W, S)
    ensures ok { OnOk result.0
        (OfText scene.now.text
        (Prints device device options.now (W.contents writer, S.contents store_writer)
        (W.contents result.1, S.contents result.2))) }
    ensures err { IfErr result.0
        (λ fault. (IsRefusedText options.now scene.now.text fault
        × (result.1 ≡ writer) × (result.2 ≡ store_writer))
        ⊎ OfText scene.now.text
        (λ run. Begins device device options.now (W.contents writer, S.contents store_writer)
        (W.contents result.1, S.contents result.2) run fault)) }
    ensures no_store { options.now.store ≡ None → result.2 ≡ store_writer }
{
    match judge_text(alloc, options, scene.text()) {
        Ok(()) => {}
        Err(fault) => return (Err(in_memory(fault)), writer, store_writer),
    }
    report_judged(alloc, options, scene.text(), writer, store_writer)
}

/// Writes the report of a scene as [`write_scene`] does, and drops both devices.
///
/// # Errors
///
/// Those of [`write_scene`].
pub fn write_report<W: Write + Drop, S: Write + Drop>(
    alloc: Global,
    options: &Options<'_>,
    scene: &Scene,
    writer: W,
    store_writer: S,
) -> Result<(), Fault<'static>>
    ensures ok { OnOk result
        (OfText scene.now.text (λ run. (last : W) × (store_last : S)
        × Prints device device options.now (W.contents writer, S.contents store_writer)
        (W.contents last, S.contents store_last) run)) }
    ensures err { IfErr result
        (λ fault. IsRefusedText options.now scene.now.text fault
        ⊎ OfText scene.now.text (λ run. (last : W) × (store_last : S)
        × Begins device device options.now (W.contents writer, S.contents store_writer)
        (W.contents last, S.contents store_last) run fault)) }
{
    let (outcome, _writer, _store_writer) = write_scene(
        alloc,
        options,
        scene,
        writer,
        store_writer,
    );
    outcome
}
