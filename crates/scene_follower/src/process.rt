//! What the programs do with their process: the command line, the standard descriptors, the file of the records, and
//! the line and the exit status of a fault.

ghost use Rattle.std.specs.Fd.{file_raw_fd};
ghost use Rattle.{std.specs.Io.KnownBytes.Appends, command_line.specs.Faults.fault_line};
ghost use Rattle.scene_follower.specs.Names.{status_of, store_refusal, Fault};
ghost use Rattle.std.specs.Prelude.{◌≡◌, ◌⊎◌, ◌↔◌, ◌≤ℤ◌, ◌<ℤ◌, ◌++◌, ◌∷◌, [], pos, IfErr, IfOk, OnOk, IsTrue, is_ok};

use command_line::fault::{Fault, FaultLine, ReportProgram};
use std::fmt::Display;
use std::fs::{File, Metadata};
use std::io::{self, ErrorKind, Write};
use std::os::fd::AsRawFd;
use std::os::unix::fs::MetadataExt;
use std::{env, fs, mem};
use writers::write_str::RetryInterrupted;

// The last of the descriptors that every process is given: input, output and error.
const STANDARD_ERROR: i32 = 2;

/// The words that follow the program's name. The kit's `env::args` has no contract, so no clause says which they are;
/// the stored runs test it.
///
/// # Errors
///
/// `Usage` if a word is not UTF-8, or `OutOfMemory`.
pub fn arguments(rt: &HostRuntime) -> Result<Vec<String>, Fault<'static>>
    ensures err { IfErr result (λ fault. (fault ≡ Fault.Usage) ⊎ (fault ≡ Fault.OutOfMemory)) }
{
    match env::args(rt) {
        Ok(args) => args
            .skip(1)
            .collect(rt.alloc())
            .map_err(|_| Fault::OutOfMemory),
        Err(e) if e.kind() == ErrorKind::OutOfMemory => Err(Fault::OutOfMemory),
        Err(_) => Err(Fault::Usage),
    }
}

/// Opens the folder `/` in the place of each standard descriptor that is closed, and leaves it open.
///
/// A file that is opened gets the lowest free number. Without this, if standard output is closed, the file of the
/// records would become standard output and get the report. No byte can be written to a folder or read from one, and
/// this folder exists even without `/dev`.
pub fn fill_standard_descriptors(rt: &HostRuntime) {
    for _descriptor in 0..=STANDARD_ERROR {
        match File::open(rt, "/") {
            Ok(folder) if is_standard(&folder) => mem::forget(folder),
            _ => return,
        }
    }
}

// Whether a file has the number of a standard descriptor.
fn is_standard(file: &File) -> bool
    ensures { IsTrue result ↔ file_raw_fd file.now ≤ℤ pos 2 }
{
    file.as_raw_fd() <= STANDARD_ERROR
}

/// Creates or empties the file of the records. It is refused if it is one of the files that are read, which would then
/// be empty, and if it would be a standard descriptor, which gets what is printed.
///
/// # Errors
///
/// `CannotWrite` with this path if the file cannot be created or is refused, or `OutOfMemory`. Files that are read stay
/// as they were.
pub fn create_store<'a>(
    rt: &HostRuntime,
    path: &'a str,
    inputs: &[Metadata],
) -> Result<File, Fault<'a>>
    ensures ok { IfOk result (λ file. pos 2 <ℤ file_raw_fd file) }
    ensures err { IfErr result (λ fault. (fault ≡ Fault.CannotWrite path.entry) ⊎ (fault ≡ Fault.OutOfMemory)) }
{
    let fault = Fault::CannotWrite { file: path };
    let is_input = match fs::metadata(rt, path) {
        Ok(there) => Ok(inputs.iter().any(|input| is_same_file(&there, input))),
        Err(error) => Err(error.kind()),
    };
    if let Some(refusal) = store_refusal(fault, is_input) {
        return Err(refusal);
    }
    match File::create(rt, path) {
        Ok(file) => unless_standard(file, fault),
        Err(error) => Err(fault.by_kind(error.kind())),
    }
}

// Why a file is not created or emptied: it is one that is read, or its metadata cannot be read.
fn store_refusal<'a>(fault: Fault<'a>, is_input: Result<bool, ErrorKind>) -> Option<Fault<'a>>
    ensures { result ≡ store_refusal fault.entry is_input }
{
    match is_input {
        Ok(true) => Some(fault),
        Ok(false) | Err(ErrorKind::NotFound) => None,
        Err(kind) => Some(fault.by_kind(kind)),
    }
}

// The file, or this fault if it would be a standard descriptor.
fn unless_standard<'a>(file: File, fault: Fault<'a>) -> Result<File, Fault<'a>>
    ensures file { IfOk result (λ kept. kept ≡ file) }
    ensures ok { IsTrue (is_ok result) ↔ pos 2 <ℤ file_raw_fd file }
    ensures err { IfErr result (λ f. f ≡ fault.entry) }
{
    if is_standard(&file) {
        return Err(fault);
    }
    Ok(file)
}

// Whether both are the same regular file, by whatever path. A pipe or a device has nothing to empty.
fn is_same_file(one: &Metadata, other: &Metadata) -> bool {
    one.is_file() && one.dev() == other.dev() && one.ino() == other.ino()
}

/// Prints the line of a fault on standard error, and returns the exit status.
pub fn report_fault(rt: &HostRuntime, program: ReportProgram, fault: Fault<'_>) -> u8
    ensures { result ≡ status_of fault.entry }
{
    let line = FaultLine { program, fault };
    write_fault(&mut RetryInterrupted::new(rt.stderr()), line).1
}

// Writes the line of a fault to a device, and returns the exit status, which shows the fault if the device fails.
fn write_fault<W: Write>(writer: &mut W, line: FaultLine<'_>) -> (io::Result<()>, u8)
    ensures line { OnOk result.0
        (Appends (W.contents writer.old) (W.contents writer.new) (fault_line line.entry ++ 10 ∷ [])) }
    ensures status { result.1 ≡ status_of line.entry.fault }
{
    (writeln!(writer, "{line}"), line.fault.status())
}

/// Prints a line on standard error. It does not allocate, since there may be no memory left, and repeats a write that
/// is interrupted.
pub fn print_error<D: Display + Drop>(rt: &HostRuntime, line: D) {
    let _ = writeln!(RetryInterrupted::new(rt.stderr()), "{line}");
}
