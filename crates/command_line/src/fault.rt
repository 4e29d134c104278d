//! The errors of the programs, with the message and the exit status of each.

ghost use Rattle.std.specs.Prelude.{◌≡◌, Some};
ghost use Rattle.command_line.specs.Faults.{fault_by_kind, fault_line, line_of, program_words, status_of};
ghost use Rattle.command_line.specs.declared.fault.Fault.TheVariants.{OutOfMemory};

use run_model::memory::OutOfMemory;
pub use scene_fields::fault::LineFault;
use std::error::Error;
use std::fmt;
use std::fmt::Formatter;
use std::io::ErrorKind;

/// An error of a program. It displays as the line that `report` prints; [`FaultLine`] displays that of any program.
///
/// ```
/// use scene_fields::fault::LineFault;
/// let fault = Fault::Line { line: 2, fault: LineFault::UnknownEvent };
/// assert_eq!(fault.to_string(alloc)?.as_str(), "report: line 2: unknown event");
/// ```
#[derive(Clone, Copy, Debug)]
pub enum Fault<'a> {
    /// The command line is wrong.
    Usage,
    /// The file, or a file of the folder, cannot be read.
    CannotRead {
        /// The file or the folder, as the command line names it.
        file: &'a str,
    },
    /// The file of the records cannot be created or emptied.
    CannotWrite {
        /// The file, as the command line names it.
        file: &'a str,
    },
    /// A line of the scene is wrong.
    Line {
        /// Its number, from 1.
        line: u64,
        /// What is wrong with it.
        fault: LineFault,
    },
    /// A write to standard output failed. It has a prefix of the report.
    WriteFailed,
    /// A write to the file of the records failed. It has a prefix of them.
    StoreFailed,
    /// Memory was refused.
    OutOfMemory,
}

impl<'a> Fault<'a> {
    /// The exit status of a program with this error.
    pub fn status(&self) -> u8
        ensures { result ≡ status_of self.now }
    {
        match self {
            Fault::Usage
            | Fault::CannotRead { .. }
            | Fault::CannotWrite { .. }
            | Fault::Line { .. } => 2,
            Fault::WriteFailed | Fault::StoreFailed | Fault::OutOfMemory => 3,
        }
    }

    /// This fault, or `OutOfMemory` if the I/O error that led to it is of that kind.
    pub fn by_kind(self, kind: ErrorKind) -> Fault<'a>
        ensures { result ≡ fault_by_kind kind self.entry }
    {
        match kind {
            ErrorKind::OutOfMemory => Fault::OutOfMemory,
            _ => self,
        }
    }
}

impl fmt::Display for Fault<'_> {
    ghost output = { λ fault. Some (fault_line (line_of fault)) };

    fn fmt<W: fmt::Write>(&self, f: &mut Formatter<W>) -> fmt::Result {
        let line = FaultLine {
            program: ReportProgram::Report,
            fault: *self,
        };
        line.fmt(f)
    }
}

impl Error for Fault<'_> {}

/// The line that a program prints on standard error: its name and the fault. For a wrong command line it shows the
/// usage.
///
/// ```
/// let line = FaultLine { program: ReportProgram::Report, fault: Fault::WriteFailed };
/// assert_eq!(line.to_string(alloc)?.as_str(), "report: write failed");
/// ```
#[derive(Clone, Copy)]
pub struct FaultLine<'a> {
    /// The program that prints the line.
    pub program: ReportProgram,
    /// What went wrong.
    pub fault: Fault<'a>,
}

/// A program that reports scenes or recorded runs.
#[derive(Clone, Copy, PartialEq, Eq)]
pub enum ReportProgram {
    /// Reads a scene to its end and then reports it.
    Report,
    /// Reports each line of a scene as it is read.
    Follow,
    /// Reports a recorded run, and reads only the outputs that it shows.
    Replay,
}

impl ReportProgram {
    // Its name, and the last word of its usage, which names its input.
    fn words(self) -> (&'static str, &'static str)
        ensures { (result.0.now, result.1.now) ≡ program_words self }
    {
        match self {
            ReportProgram::Report => ("report", "FILE"),
            ReportProgram::Follow => ("follow", "[FILE]"),
            ReportProgram::Replay => ("replay", "DIR"),
        }
    }
}

impl fmt::Display for FaultLine<'_> {
    ghost output = { λ line. Some (fault_line line) };

    fn fmt<W: fmt::Write>(&self, f: &mut Formatter<W>) -> fmt::Result {
        let (name, operand) = self.program.words();
        match self.fault {
            Fault::Usage => write!(
                f,
                "{name}: usage: {name} [--color] [--counter] [--replay] [--unload] \
                [--level L] [--store PATH] [--store-success] [--store-failure] {operand}"
            ),
            Fault::CannotRead { file } => write!(f, "{name}: cannot read {file}"),
            Fault::CannotWrite { file } => write!(f, "{name}: cannot write {file}"),
            Fault::Line { line, fault } => write!(f, "{name}: line {line}: {fault}"),
            Fault::WriteFailed => write!(f, "{name}: write failed"),
            Fault::StoreFailed => write!(f, "{name}: store write failed"),
            Fault::OutOfMemory => write!(f, "{name}: out of memory"),
        }
    }
}

impl From<OutOfMemory> for Fault<'_> {
    ghost from_gives = { λ _ fault. fault ≡ OutOfMemory };

    fn from(_refused: OutOfMemory) -> Self {
        Fault::OutOfMemory
    }
}
