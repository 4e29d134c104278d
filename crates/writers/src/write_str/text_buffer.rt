//! Text that is gathered for a device.
//!
//! Reports consist of short texts, and a system call for each would cost more than the texts do.
//! The memory is reserved once, and no later call allocates.

ghost use Rattle.std.specs.Prelude.{◌≡◌, ◌≤◌, length, take};
ghost use Rattle.std.specs.{Bool.OnTrue, Io.KnownBytes.Appends};

use super::pending_bytes::{CAPACITY, PendingBytes};
use super::{WriteFault, WriteStr};
use std::alloc::{AllocError, Global};
use std::io::Write;

/// Gathers text and delivers it to a device, such as a file or standard output.
///
/// Its accepted text is what was delivered followed by what is pending. A device fails if it returns an error of any
/// kind, or takes none of the given bytes; what was not delivered then stays pending. If signals can interrupt the
/// device, wrap it in a [`RetryInterrupted`](super::RetryInterrupted).
///
/// ```
/// use std::io;
/// let mut out = TextBuffer::new(alloc, io::writer(&rt))?;
/// out.write_str("done\n")?;
/// out.write_str_flush()?;
/// ```
#[derive(Debug, Drop)]
pub struct TextBuffer<W> {
    writer: W,
    pending: PendingBytes,
    failures: u64,
}

impl<W: Write> TextBuffer<W> {
    ghost use Rattle.std.specs.Prelude.{◌≡◌, ◌≤◌, [], IfErr, IfOk, OnOk, length};
    ghost use Rattle.writers.specs.{TextBuffer.buffer_meaning, Writer.Puts};

    /// Reserves the memory, 8,192 bytes, once. If that is refused, the device is returned.
    ///
    /// # Errors
    ///
    /// The memory was refused. The device comes back with the error.
    pub fn new(alloc: Global, writer: W) -> Result<TextBuffer<W>, (AllocError, W)>
        ensures ok { IfOk result (λ b. (b.writer ≡ writer) × (b.pending ≡ []) × (b.failures ≡ 0)) }
        ensures err { IfErr result (λ refused. refused.1 ≡ writer) }
    {
        match PendingBytes::new(alloc) {
            Ok(pending) => Ok(TextBuffer {
                writer,
                pending,
                failures: 0,
            }),
            Err(e) => Err((e, writer)),
        }
    }

    /// The device, and the bytes that it has not taken.
    ///
    /// ```
    /// let mut buffer = TextBuffer::new(alloc, Vec::new(alloc))?;
    /// buffer.write_str("done\n")?;
    /// let (device, pending) = buffer.into_inner();
    /// assert!(device.is_empty());
    /// assert_eq!(pending.as_slice(), b"done\n".as_slice());
    /// ```
    pub fn into_inner(self) -> (W, Vec<u8>)
        ensures writer { result.0 ≡ self.writer }
        ensures pending { result.1.items ≡ self.pending }
    {
        (self.writer, self.pending.into_vec())
    }

    // After a failure, what was not delivered stays pending.
    fn deliver(&mut self) -> Result<(), WriteFault>
        ensures text { Puts (buffer_meaning W.contents) self.old [] result self.new }
        ensures empty { OnOk result (self.new.pending ≡ []) }
    {
        let (sent, is_all) = send(self.pending.as_slice(), &mut self.writer);
        self.pending.remove_front(sent);
        if !is_all {
            self.failures = self.failures.wrapping_add(1);
            return Err(WriteFault::Device);
        }
        Ok(())
    }

    // Gathers bytes.
    #[inline]
    fn write_bytes(&mut self, bytes: &[u8]) -> Result<(), WriteFault>
        ensures { Puts (buffer_meaning W.contents) self.old bytes.now result self.new }
    {
        if bytes.len() <= self.pending.room() {
            self.pending.push(bytes);
            return Ok(());
        }
        self.write_long(bytes)
    }

    // Gathers bytes that do not fit, a piece at a time.
    #[cold]
    #[inline(never)]
    fn write_long(&mut self, bytes: &[u8]) -> Result<(), WriteFault>
        ensures { Puts (buffer_meaning W.contents) self.old bytes.now result self.new }
    {
        let mut rest = bytes;
        while !rest.is_empty() {
            let n = rest.len().min(CAPACITY);
            let (piece, more) = rest.split_at(n);
            self.write_piece(piece)?;
            rest = more;
        }
        Ok(())
    }

    // Gathers a piece, after a delivery if it does not fit.
    fn write_piece(&mut self, piece: &[u8]) -> Result<(), WriteFault>
        requires { length piece.now ≤ 8192 }
        ensures { Puts (buffer_meaning W.contents) self.old piece.now result self.new }
    {
        if piece.len() > self.pending.room() {
            self.deliver()?;
        }
        self.pending.push(piece);
        Ok(())
    }
}

impl<W: Write> WriteStr for TextBuffer<W> {
    ghost use Rattle.writers.specs.TextBuffer.{buffer_meaning};
    ghost use Rattle.writers.specs.TextBufferLaws.{buffer_laws};

    ghost meaning = { buffer_meaning W.contents };

    ghost laws = { buffer_laws W.contents };

    #[inline]
    fn write_str(&mut self, s: &str) -> Result<(), WriteFault> {
        self.write_bytes(s.as_bytes())
    }

    fn write_str_flush(&mut self) -> Result<(), WriteFault> {
        self.deliver()?;
        if self.writer.flush().is_err() {
            self.failures = self.failures.wrapping_add(1);
            return Err(WriteFault::Device);
        }
        Ok(())
    }
}

// Writes until all is taken or a write fails, and returns how many bytes were taken and whether all were.
fn send<W: Write>(bytes: &[u8], to: &mut W) -> (usize, bool)
    ensures bound { result.0 ≤ length bytes.now }
    ensures all { OnTrue result.1 (result.0 ≡ length bytes.now) }
    ensures bytes { Appends (W.contents to.old) (W.contents to.new) (take result.0 bytes.now) }
{
    let mut sent = 0;
    while sent < bytes.len() {
        match to.write(&bytes[sent..]) {
            Ok(0) => return (sent, false),
            Ok(n) => sent += n,
            Err(_) => return (sent, false),
        }
    }
    (sent, true)
}
