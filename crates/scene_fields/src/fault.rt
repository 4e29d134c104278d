//! What can be wrong with a line of a scene.

ghost use Rattle.std.specs.Prelude.{◌≡◌, Some};
ghost use Rattle.scene_fields.specs.{declared.fault.LineError.LineError, Faults.line_fault_text};

use run_model::memory::OutOfMemory;
use std::alloc::AllocFailed;
use std::error::Error;
use std::fmt;
use std::fmt::Formatter;

/// What is wrong with a line of a scene. If there are several faults, the first of this list is reported.
#[derive(Clone, Copy, Debug, PartialEq, Eq)]
pub enum LineFault {
    /// Its bytes are not UTF-8.
    NotUtf8,
    /// Its first field names no event.
    UnknownEvent,
    /// It is a `config` line after an event.
    ConfigAfterEvent,
    /// It has too few fields or too many.
    WrongNumberOfFields,
    /// It retries an attempt that succeeded.
    RetriedSuccess,
    /// The report needs the output of this line, which is not loaded.
    OutputNotLoaded,
    /// This field, counted from 1 for the event's name, is not valid for its event. It is the first such field.
    BadField(usize),
}

impl fmt::Display for LineFault {
    ghost output = { λ fault. Some (line_fault_text fault) };

    fn fmt<W: fmt::Write>(&self, f: &mut Formatter<W>) -> fmt::Result {
        match self {
            LineFault::NotUtf8 => f.write_str("not UTF-8"),
            LineFault::UnknownEvent => f.write_str("unknown event"),
            LineFault::ConfigAfterEvent => f.write_str("config after an event"),
            LineFault::WrongNumberOfFields => f.write_str("wrong number of fields"),
            LineFault::RetriedSuccess => f.write_str("a retried attempt succeeded"),
            LineFault::OutputNotLoaded => f.write_str("output not loaded"),
            LineFault::BadField(field) => write!(f, "bad field {field}"),
        }
    }
}

impl Error for LineFault {}

/// Why a line could not be read.
#[derive(Clone, Copy, PartialEq, Eq)]
pub enum LineError {
    /// The line is wrong.
    Fault(LineFault),
    /// A growth of memory was refused.
    OutOfMemory,
}

impl From<LineFault> for LineError {
    ghost from_gives = { λ fault error. error ≡ LineError.Fault fault };

    fn from(fault: LineFault) -> LineError {
        LineError::Fault(fault)
    }
}

impl From<OutOfMemory> for LineError {
    ghost from_gives = { λ _ error. error ≡ LineError.OutOfMemory };

    fn from(_refused: OutOfMemory) -> LineError {
        LineError::OutOfMemory
    }
}

impl<T: Drop> From<AllocFailed<T>> for LineError {
    ghost from_gives = { λ _ error. error ≡ LineError.OutOfMemory };

    fn from(_refused: AllocFailed<T>) -> LineError {
        LineError::OutOfMemory
    }
}
