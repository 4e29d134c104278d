//! Bytes that are read at their position, and a meter that counts them.
//!
//! The kit's `Read` and `Seek` do not say that what is read after a seek is at the position that was sought; [`Source`]
//! says so. What is read through [`ReadAt`] is counted as well: [`Metered`] is the meter, and wraps any source.

ghost use Rattle.std.specs.Prelude.{◌≡◌, ℕ, List, Option, None, Some, IfErr, IfOk};
ghost use Rattle.std.specs.Prelude.{IfSome, OnOk, ⊤, if◌then◌else◌, is_ok};
ghost use Rattle.std.specs.Prelude.{length};
ghost use Rattle.std.specs.declared.io.Error.{Error};
ghost use Rattle.{std.specs.Io.Cursor.cursor_inner, recorded.specs.Names.counted, recorded.specs.Names.HasRead};

use std::fs::File;
use std::io;
use std::io::{AsBytes, Cursor, ErrorKind, Read, Seek, SeekFrom};
use std::os::unix::fs::FileExt;

/// Bytes that are read at their place, as those of a file are.
///
/// Contracts know the bytes of a slice and of a cursor, but not those of a file.
pub trait Source {
    // All the bytes, where they are known.
    ghost recorded: { Self → Option (List ℕ) } = { λ _. None };
    // The length was requested once.
    ghost asked: { Self → Self → Type 0 } = { λ _ _. ⊤ };
    // The length could not be found, and this is the error.
    ghost len_failed: { Self → Error → Type 0 } = { λ _ _. ⊤ };
    // One read of this many bytes from this position was tried.
    ghost read_once: { ℕ → ℕ → Self → Self → Type 0 } = { λ _ _ _ _. ⊤ };

    /// How many bytes there are now. A file may grow between two calls.
    ///
    /// # Errors
    ///
    /// The length cannot be found.
    fn len(&mut self) -> io::Result<u64>
        ensures once { asked self.old self.new }
        ensures failed { IfErr result (len_failed self.old) }
        ensures kept { recorded self.new ≡ recorded self.old }
        ensures len { IfOk result (λ n. IfSome (recorded self.old) (λ all. n ≡ length all)) };

    /// Fills the buffer with the bytes from this offset on.
    ///
    /// ```
    /// let mut outputs = b"passed failed".as_slice();
    /// let mut buffer = [0; 6];
    /// outputs.read_at(7, &mut buffer)?;
    /// assert_eq!(&buffer, b"failed");
    /// assert!(outputs.read_at(8, &mut buffer).is_err());
    /// ```
    ///
    /// # Errors
    ///
    /// There are fewer bytes, or a read failed. The contents of the buffer are then unspecified.
    fn read_at(&mut self, offset: u64, buffer: &mut [u8]) -> io::Result<()>
        ensures once { read_once offset (length buffer.old) self.old self.new }
        ensures kept { recorded self.new ≡ recorded self.old }
        ensures read { OnOk result (IfSome (recorded self.old) (HasRead offset buffer.new)) };
}

/// Bytes in memory.
impl Source for &[u8] {
    ghost recorded = { λ s. Some s.now };

    fn len(&mut self) -> io::Result<u64> {
        let all: &[u8] = *self;
        Ok(all.len() as u64)
    }

    fn read_at(&mut self, offset: u64, buffer: &mut [u8]) -> io::Result<()> {
        Cursor::new(*self).read_at(offset, buffer)
    }
}

/// The bytes under a cursor, wherever it is. Both calls move it.
impl<T: AsBytes> Source for Cursor<T> {
    ghost recorded = { λ c. T.bytes (cursor_inner c) };

    fn len(&mut self) -> io::Result<u64> {
        self.seek(SeekFrom::End(0))
    }

    fn read_at(&mut self, offset: u64, buffer: &mut [u8]) -> io::Result<()> {
        self.seek(SeekFrom::Start(offset))?;
        let len = buffer.len();
        // All the bytes are in memory, so one read returns as many as there are.
        if self.read(buffer)? < len {
            return Err(ErrorKind::UnexpectedEof.into());
        }
        Ok(())
    }
}

/// The bytes of a file, from any offset. Calls do not use or move its position.
impl Source for File {
    fn len(&mut self) -> io::Result<u64> {
        // A seek to the end of a folder would return a number that no file has.
        Ok(self.metadata()?.len())
    }

    fn read_at(&mut self, offset: u64, buffer: &mut [u8]) -> io::Result<()> {
        self.read_exact_at(buffer, offset)
    }
}

/// Bytes that are read at an offset, with a count of those that were read.
///
/// There is no other way to the bytes, so what a contract says of [`bytes_read`](ReadAt::bytes_read) covers every read.
pub trait ReadAt {
    // All the bytes, where they are known.
    ghost recorded: { Self → Option (List ℕ) } = { λ _. None };
    // How many bytes were read.
    ghost count: { Self → ℕ };
    // Exactly the counted bytes were read from the source behind the meter, once.
    ghost asked: { Self → Self → Type 0 } = { λ _ _. ⊤ };
    // The length could not be found, and this is the error.
    ghost len_failed: { Self → Error → Type 0 } = { λ _ _. ⊤ };

    ghost read_once: { ℕ → ℕ → Self → Self → Type 0 } = { λ _ _ _ _. ⊤ };

    /// How many bytes there are now, as [`Source::len`] returns it. None is read.
    ///
    /// # Errors
    ///
    /// The errors of [`Source::len`].
    fn len(&mut self) -> io::Result<u64>
        ensures once { asked self.old self.new }
        ensures failed { IfErr result (len_failed self.old) }
        ensures kept { recorded self.new ≡ recorded self.old }
        ensures len { IfOk result (λ n. IfSome (recorded self.old) (λ all. n ≡ length all)) }
        ensures count { count self.new ≡ count self.old };

    /// Fills the buffer like [`Source::read_at`], and counts the bytes.
    ///
    /// # Errors
    ///
    /// The errors of [`Source::read_at`]. Nothing is counted.
    fn read_at(&mut self, offset: u64, buffer: &mut [u8]) -> io::Result<()>
        ensures once { read_once offset (length buffer.old) self.old self.new }
        ensures kept { recorded self.new ≡ recorded self.old }
        ensures read { OnOk result (IfSome (recorded self.old) (HasRead offset buffer.new)) }
        ensures count { count self.new
            ≡ (if is_ok result then counted (count self.old) (length buffer.old) else count self.old) };

    /// How many bytes were read. The count saturates at `u64::MAX`.
    fn bytes_read(&self) -> u64
        ensures { result ≡ count self.now };
}

/// A source with a meter in front of it.
///
/// ```
/// let mut outputs = Metered::new(b"passed failed".as_slice());
/// outputs.read_at(7, &mut [0; 6])?;
/// assert!(outputs.read_at(8, &mut [0; 6]).is_err());
/// assert_eq!(outputs.bytes_read(), 6);
/// ```
#[derive(Drop)]
pub struct Metered<S> {
    source: S,
    bytes_read: u64,
}

impl<S: Source> Metered<S> {
    /// A meter before this source, with the count 0.
    pub fn new(source: S) -> Metered<S>
        ensures source { S.recorded result.source ≡ S.recorded source }
        ensures count { result.bytes_read ≡ 0 }
    {
        Metered {
            source,
            bytes_read: 0,
        }
    }
}

impl<S: Source> ReadAt for Metered<S> {
    ghost recorded = { λ metered. S.recorded metered.source };

    ghost count = { λ metered. metered.bytes_read };

    // One length was requested of the source, or one read made, and nothing else changed.
    ghost asked = { λ old new. S.asked old.source new.source };

    ghost len_failed = { λ old error. S.len_failed old.source error };

    ghost read_once = { λ offset len old new. S.read_once offset len old.source new.source };

    fn len(&mut self) -> io::Result<u64> {
        self.source.len()
    }

    fn read_at(&mut self, offset: u64, buffer: &mut [u8]) -> io::Result<()> {
        self.source.read_at(offset, buffer)?;
        self.bytes_read = self.bytes_read.saturating_add(buffer.len() as u64);
        Ok(())
    }

    fn bytes_read(&self) -> u64 {
        self.bytes_read
    }
}
