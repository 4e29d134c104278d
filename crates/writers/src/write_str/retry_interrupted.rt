//! A device whose interrupted calls are repeated.

ghost use Rattle.std.specs.{Prelude.◌≡◌, Prelude.◌≢◌, Prelude.IfErr, IoError.error_kind, Io.WritesAtMost};
ghost use Rattle.std.specs.{Io.KnownBytes.Keeps, Io.KnownBytes.WriteAppends};

use std::io;
use std::io::{ErrorKind, Write};

/// Repeats a write or a flush that a signal interrupted, like Rust's `write_all`.
///
/// To a [`TextBuffer`](super::TextBuffer) every error is a failure of the device, so a device that signals can
/// interrupt, such as standard output, is wrapped in this. Its contents are the device's, and it allocates nothing.
///
/// ```
/// use std::io::Write;
/// let mut device = RetryInterrupted::new(Vec::new(alloc));
/// device.write_all(b"done\n")?;
/// device.flush()?;
/// assert_eq!(device.into_inner().as_slice(), b"done\n".as_slice());
/// ```
#[derive(Debug, Drop)]
pub struct RetryInterrupted<W> {
    device: W,
}

impl<W> RetryInterrupted<W> {
    /// Wraps a device.
    pub fn new(device: W) -> RetryInterrupted<W>
        ensures { result.device ≡ device }
    {
        RetryInterrupted { device }
    }

    /// The device.
    pub fn into_inner(self) -> W
        ensures { result ≡ self.device }
    {
        self.device
    }
}

impl<W: Write> Write for RetryInterrupted<W> {
    ghost contents = { λ it. W.contents it.device };

    fn write(&mut self, buf: &[u8]) -> io::Result<usize>
        ensures bound { WritesAtMost result buf.now }
        ensures bytes { WriteAppends (W.contents self.old.device) (W.contents self.new.device) result buf.now }
        ensures retried { IfErr result (λ e. error_kind e ≢ ErrorKind.Interrupted) }
    {
        for _turn in 0..u64::MAX {
            match self.device.write(buf) {
                Err(error) if error.kind() == ErrorKind::Interrupted => continue,
                answer => return answer,
            }
        }
        Err(ErrorKind::TimedOut.into())
    }

    fn flush(&mut self) -> io::Result<()>
        ensures bytes { Keeps (W.contents self.old.device) (W.contents self.new.device) }
        ensures retried { IfErr result (λ e. error_kind e ≢ ErrorKind.Interrupted) }
    {
        for _turn in 0..u64::MAX {
            match self.device.flush() {
                Err(error) if error.kind() == ErrorKind::Interrupted => continue,
                answer => return answer,
            }
        }
        Err(ErrorKind::TimedOut.into())
    }
}
