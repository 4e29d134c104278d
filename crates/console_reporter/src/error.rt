//! One error for a program that makes reports.

ghost use Rattle.std.specs.{Prelude.◌≡◌, IoError.error_kind};
ghost use Rattle.console_reporter.specs.Names.{error_of_io, error_of_run, error_of_write, ReportError};

use crate::imp::{RunFault, WriteEventError};
use run_model::memory::OutOfMemory;
use std::alloc::{AllocError, AllocFailed};
use std::io;
use thiserror::Error;
use writers::write_str::WriteFault;

/// Why a program could not make its report. Each fault of this library converts into it with `?`, so a `main` can have
/// it as its error.
///
/// ```
/// use std::io;
/// fn main(rt: HostRuntime) -> Result<(), ReportError> {
///     let mut out = TextBuffer::new(rt.alloc(), io::writer(&rt))?;
///     let builder = DisplayReporterBuilder::new(rt.alloc(), 2)?;
///     let mut reporter = builder.build_for(rt.alloc(), &mut out, Surroundings::default());
///     Ok(reporter.finish()?)
/// }
/// ```
///
/// Its text is that of the fault, after the index of the call if there is one.
///
/// ```
/// let fault = WriteEventError::StoreIo;
/// let of_a_call = ReportError::Run { position: 3, fault };
/// assert_eq!(ReportError::OutOfMemory.to_string(alloc)?.as_str(), "out of memory");
/// assert_eq!(ReportError::Io.to_string(alloc)?.as_str(), "input or output failed");
/// assert_eq!(ReportError::WriteEvent(fault).to_string(alloc)?.as_str(), "the store could not be written");
/// assert_eq!(of_a_call.to_string(alloc)?.as_str(), "call 3: the store could not be written");
/// ```
#[derive(Clone, Copy, Debug, PartialEq, Eq, Error)]
pub enum ReportError {
    /// A growth of memory was refused.
    #[error("out of memory")]
    OutOfMemory,
    /// A device failed outside a reporter's call, while a text was written or a file was read.
    #[error("input or output failed")]
    Io,
    /// A call of a reporter failed.
    #[error("{0}")]
    WriteEvent(WriteEventError),
    /// A call of a list failed.
    #[error("call {position}: {fault}")]
    Run {
        /// The index of the call, or the number of calls if the end of the report failed.
        position: usize,
        /// Why it failed.
        fault: WriteEventError,
    },
}

impl From<OutOfMemory> for ReportError {
    ghost from_gives = { λ _ error. error ≡ ReportError.OutOfMemory };

    fn from(_refused: OutOfMemory) -> Self {
        ReportError::OutOfMemory
    }
}

impl From<AllocError> for ReportError {
    ghost from_gives = { λ _ error. error ≡ ReportError.OutOfMemory };

    fn from(_refused: AllocError) -> Self {
        ReportError::OutOfMemory
    }
}

impl<T: Drop> From<AllocFailed<T>> for ReportError {
    ghost from_gives = { λ _ error. error ≡ ReportError.OutOfMemory };

    fn from(_refused: AllocFailed<T>) -> Self {
        ReportError::OutOfMemory
    }
}

// A buffer that cannot be made returns the writer with the error; it is dropped.
impl<W: Drop> From<(AllocError, W)> for ReportError {
    ghost from_gives = { λ _ error. error ≡ ReportError.OutOfMemory };

    fn from(_refused: (AllocError, W)) -> Self {
        ReportError::OutOfMemory
    }
}

impl From<WriteFault> for ReportError {
    ghost from_gives = { λ fault error. error ≡ error_of_write fault };

    fn from(fault: WriteFault) -> Self {
        match fault {
            WriteFault::Device => ReportError::Io,
            WriteFault::Memory => ReportError::OutOfMemory,
        }
    }
}

impl From<WriteEventError> for ReportError {
    ghost from_gives = { λ fault error. error ≡ ReportError.WriteEvent fault };

    fn from(fault: WriteEventError) -> Self {
        ReportError::WriteEvent(fault)
    }
}

impl From<RunFault> for ReportError {
    ghost from_gives = { λ stop error. error ≡ error_of_run stop };

    fn from(stop: RunFault) -> Self {
        ReportError::Run {
            position: stop.position,
            fault: stop.fault,
        }
    }
}

impl From<io::Error> for ReportError {
    ghost from_gives = { λ refused error. error ≡ error_of_io (error_kind refused) };

    fn from(error: io::Error) -> Self {
        match error.kind() {
            io::ErrorKind::OutOfMemory => ReportError::OutOfMemory,
            _ => ReportError::Io,
        }
    }
}
