//! The lines of a scene, reported as they come: each before more is read.

ghost use Rattle.std.specs.Prelude.{◌≡◌, ◌⊎◌, Err, None};
ghost use Rattle.command_line.specs.Args.{options_or_input, texts};
ghost use Rattle.command_line.specs.declared.fault.Fault.TheVariants.{OutOfMemory, Usage};

use command_line::args::{Options, args_or_input};
use command_line::fault::Fault;
use scene_follower::follow::{RunOutcome, follow_scene};
use scene_follower::process::create_store;
use std::fs::{self, File, Metadata};
use std::io::{self, Read};
use writers::write_str::RetryInterrupted;

/// Follows the scene that the words name, or standard input.
pub(crate) fn follow_file<'a>(
    rt: &HostRuntime,
    args: &'a mut Vec<String>,
) -> Result<RunOutcome, Fault<'a>>
    ensures usage { options_or_input (texts args.old.items) ≡ None
        → (result ≡ Err Usage) ⊎ (result ≡ Err OutOfMemory) }
{
    let Some(options) = args_or_input(rt.alloc(), args)? else {
        return Err(Fault::Usage);
    };
    let options = Options {
        is_last: true,
        ..options
    };
    if options.file == "-" {
        // Without `/dev/stdin` there is no way to see which file standard input is.
        let input = fs::metadata(rt, "/dev/stdin").ok();
        return follow(rt, &options, rt.stdin(), input);
    }
    match open(rt, options.file) {
        Ok((file, input)) => follow(rt, &options, file, Some(input)),
        Err(error) => Err(Fault::CannotRead { file: options.file }.by_kind(error.kind())),
    }
}

// Opens a file, with the metadata that identifies it.
fn open(rt: &HostRuntime, path: &str) -> io::Result<(File, Metadata)> {
    let file = File::open(rt, path)?;
    let input = file.metadata()?;
    Ok((file, input))
}

// Follows the lines of a reader. The file of the records is created or emptied before a line is read. It must not be
// the input.
fn follow<'a, R: Read + Drop>(
    rt: &HostRuntime,
    options: &Options<'a>,
    reader: R,
    input: Option<Metadata>,
) -> Result<RunOutcome, Fault<'a>> {
    let alloc = rt.alloc();
    // A write that a signal interrupts is repeated.
    let output = RetryInterrupted::new(io::writer(rt));
    let Some(store) = options.store else {
        return follow_scene(alloc, options, reader, output, io::sink()).0;
    };
    match create_store(rt, store.file, input.as_slice()) {
        Ok(file) => {
            let records = RetryInterrupted::new(file);
            follow_scene(alloc, options, reader, output, records).0
        }
        Err(fault) => Err(fault),
    }
}
