//! A recorded run. Only the output that the report shows is read.

ghost use Rattle.std.specs.Prelude.{◌≡◌, Err, None};
ghost use Rattle.command_line.specs.Args.{options_of, texts};
ghost use Rattle.command_line.specs.declared.fault.Fault.TheVariants.{Usage};

use command_line::args::{Options, words};
use command_line::fault::Fault;
use recorded::{Metered, RecordedOutputs, RecordedRun};
use scene_follower::follow::RunOutcome;
use scene_follower::process::create_store;
use std::fs::{self, File, Metadata};
use std::io::{self, ErrorKind};
use std::path::Path;
use writers::write_str::RetryInterrupted;

/// Replays the run in the folder that the words name last. Both its files are opened before the file of the records is
/// created or emptied.
pub(crate) fn replay_folder<'a>(
    rt: &HostRuntime,
    args: &'a [String],
) -> Result<RunOutcome, Fault<'a>>
    ensures usage { options_of (texts args.now) ≡ None → result ≡ Err Usage }
{
    let Some(options) = words(args) else {
        return Err(Fault::Usage);
    };
    let options = Options {
        is_last: true,
        ..options
    };
    match open(rt, options.file) {
        Ok(files) => replay(rt, options, files),
        Err(error) => Err(Fault::CannotRead { file: options.file }.by_kind(error.kind())),
    }
}

// The files of a recorded run, and the metadata that identifies each.
struct RunFiles {
    lines: File,
    outputs: RecordedOutputs<Metered<File>>,
    inputs: [Metadata; 2],
}

// Opens the lines and the outputs of the run in this folder.
fn open(rt: &HostRuntime, folder: &str) -> io::Result<RunFiles> {
    let lines = open_file(rt, folder, "run.scene")?;
    let outputs = open_file(rt, folder, "outputs")?;
    let inputs = [lines.metadata()?, outputs.metadata()?];
    Ok(RunFiles {
        lines,
        outputs: RecordedOutputs::new(Metered::new(outputs))?,
        inputs,
    })
}

// Opens a regular file of a folder. Anything else is refused before it is opened: opening a pipe would block.
fn open_file(rt: &HostRuntime, folder: &str, name: &str) -> io::Result<File> {
    let path = Path::new(folder).join(rt.alloc(), name)?;
    if !fs::metadata(rt, &path)?.is_file() {
        return Err(ErrorKind::InvalidInput.into());
    }
    File::open(rt, &path)
}

// Replays the run. The file of the records is created or emptied before a line is read. It must not be a file of the
// run.
fn replay<'a>(
    rt: &HostRuntime,
    options: Options<'a>,
    files: RunFiles,
) -> Result<RunOutcome, Fault<'a>> {
    let alloc = rt.alloc();
    let RunFiles {
        lines,
        outputs,
        inputs,
    } = files;
    let mut run = RecordedRun::new(alloc, options, lines, outputs)?;
    // A write that a signal interrupts is repeated.
    let output = RetryInterrupted::new(io::writer(rt));
    let Some(store) = options.store else {
        return run.replay(alloc, output, io::sink()).0;
    };
    match create_store(rt, store.file, &inputs) {
        Ok(records) => run.replay(alloc, output, RetryInterrupted::new(records)).0,
        Err(fault) => Err(fault),
    }
}
