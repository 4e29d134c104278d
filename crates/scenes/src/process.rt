//! What a program does with the words of a scene's report.

ghost use Rattle.std.specs.Prelude.{◌≡◌, Err, None};
ghost use Rattle.command_line.specs.Args.{options_of, texts};
ghost use Rattle.command_line.specs.declared.fault.Fault.TheVariants.{Usage};

use crate::report::report_scene;
use command_line::args::{Options, words};
use command_line::fault::Fault;
use scene_follower::process::create_store;
use std::fs::File;
use std::io;
use writers::write_str::RetryInterrupted;

/// Prints the report of the scene in the file that the words name last, as `report` does. The file of the records is
/// created or emptied once the scene is accepted, and before a byte is written.
///
/// # Errors
///
/// `Usage` if the words are wrong, `CannotRead` if the file cannot be opened, and those of [`report_scene`].
pub fn report_file<'a>(rt: &HostRuntime, args: &'a [String]) -> Result<(), Fault<'a>>
    ensures usage { options_of (texts args.now) ≡ None → result ≡ Err Usage }
{
    let Some(options) = words(args) else {
        return Err(Fault::Usage);
    };
    let options = Options {
        is_last: true,
        ..options
    };
    let file = match File::open(rt, options.file) {
        Ok(file) => file,
        Err(error) => return Err(Fault::CannotRead { file: options.file }.by_kind(error.kind())),
    };
    let alloc = rt.alloc();
    // A write that a signal interrupts is repeated.
    let output = RetryInterrupted::new(io::writer(rt));
    // The lines of the scene were all read, so the file of the records may be the same.
    let create_records = |path| Ok(RetryInterrupted::new(create_store(rt, path, &[])?));
    report_scene(alloc, &options, file, output, create_records).0
}
