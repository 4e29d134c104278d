//! A device for tests, which fails at a given call. All crates of tests share it.
#![tactic(auto)]

pub mod scenes;

ghost use Rattle.std.specs.Prelude.{◌≤◌, IfOk, length};

use std::alloc::{AllocError, Global};
use std::io;
use std::io::{ErrorKind, Write};

/// How many bytes a device takes at once. That is less than most texts, so that a device can fail within one.
pub const BYTES_AT_ONCE: usize = 7;

/// Which calls of a device fail, and how. The others are not counted.
#[derive(Clone, Copy, Debug, PartialEq, Eq)]
pub enum Failure {
    /// Writes and flushes return an error.
    Error,
    /// Writes take no byte.
    NothingTaken,
    /// Flushes return an error.
    FlushError,
}

/// A device for tests: it takes at most [`BYTES_AT_ONCE`] a call, and from a given call on it fails.
#[derive(Debug, Drop)]
pub struct Device {
    taken: Vec<u8>,
    room: usize,
    calls_left: usize,
    failure: Failure,
    kind: ErrorKind,
    interrupts: usize,
    interrupts_left: usize,
}

impl Device {
    /// One whose calls fail after this many of them succeeded. Only calls that `failure` names count.
    ///
    /// ```
    /// use std::io::Write;
    /// let mut device = Device::failing_at(alloc, 1, Failure::Error);
    /// assert_eq!(device.write(b"passed")?, 6);
    /// assert!(device.write(b"failed").is_err());
    /// ```
    pub fn failing_at(alloc: Global, call: usize, failure: Failure) -> Device {
        Device {
            taken: Vec::new(alloc),
            room: usize::MAX,
            calls_left: call,
            failure,
            kind: ErrorKind::Other,
            interrupts: 0,
            interrupts_left: 0,
        }
    }

    /// One that works, but whose every write and every flush is interrupted this many times first.
    ///
    /// ```
    /// use std::io::Write;
    /// let mut device = Device::interrupted(alloc, 1);
    /// assert!(device.write(b"passed").is_err());
    /// assert_eq!(device.write(b"passed")?, 6);
    /// ```
    pub fn interrupted(alloc: Global, times: usize) -> Device {
        Device {
            interrupts: times,
            interrupts_left: times,
            ..Device::failing_at(alloc, usize::MAX, Failure::Error)
        }
    }

    /// One that takes this many bytes, and whose writes then fail. The memory is reserved here, and no write allocates.
    ///
    /// ```
    /// use std::io::Write;
    /// let mut device = Device::with_room(alloc, 10)?;
    /// assert!(device.write_all(b"passed, failed").is_err());
    /// assert_eq!(device.taken(), b"passed, fa".as_slice());
    /// ```
    ///
    /// # Errors
    ///
    /// The memory was refused.
    pub fn with_room(alloc: Global, room: usize) -> Result<Device, AllocError> {
        Ok(Device {
            taken: Vec::with_capacity(alloc, room)?,
            room,
            calls_left: usize::MAX,
            failure: Failure::Error,
            kind: ErrorKind::Other,
            interrupts: 0,
            interrupts_left: 0,
        })
    }

    /// Sets the kind of its errors, which is `Other` at first.
    ///
    /// ```
    /// use std::io::{ErrorKind, Write};
    /// let mut device = Device::failing_at(alloc, 0, Failure::Error).with_kind(ErrorKind::BrokenPipe);
    /// assert!(device.flush().is_err_and(|error| error.kind() == ErrorKind::BrokenPipe));
    /// ```
    pub fn with_kind(self, kind: ErrorKind) -> Device {
        Device { kind, ..self }
    }

    /// What it took.
    pub fn taken(&self) -> &[u8] {
        self.taken.as_slice()
    }

    // Counts a call, which fails where none is left.
    fn call(&mut self) -> io::Result<()> {
        if self.calls_left == 0 {
            return Err(io::Error::from(self.kind));
        }
        self.calls_left -= 1;
        Ok(())
    }

    // Interrupts a call, `interrupts` times before one works.
    fn interrupt(&mut self) -> io::Result<()> {
        if self.interrupts_left > 0 {
            self.interrupts_left -= 1;
            return Err(io::Error::from(ErrorKind::Interrupted));
        }
        self.interrupts_left = self.interrupts;
        Ok(())
    }

    // Takes the first of these bytes, as many as there is room for.
    fn take(&mut self, buf: &[u8]) -> io::Result<usize>
        ensures { IfOk result (λ n. n ≤ length buf.now) }
    {
        if self.room == 0 {
            return Err(io::Error::from(self.kind));
        }
        let (front, _) = buf.split_at(buf.len().min(BYTES_AT_ONCE).min(self.room));
        self.taken.extend_from_slice(front)?;
        self.room -= front.len();
        Ok(front.len())
    }
}

impl Write for Device {
    fn write(&mut self, buf: &[u8]) -> io::Result<usize> {
        self.interrupt()?;
        match self.failure {
            Failure::Error => self.call()?,
            Failure::NothingTaken => {
                if self.call().is_err() {
                    return Ok(0);
                }
            }
            Failure::FlushError => {}
        }
        self.take(buf)
    }

    fn flush(&mut self) -> io::Result<()> {
        self.interrupt()?;
        match self.failure {
            Failure::NothingTaken => Ok(()),
            Failure::Error | Failure::FlushError => self.call(),
        }
    }
}
