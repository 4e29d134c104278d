//! Reads a file in pieces of whole lines, so that only one piece is in memory at a time.

ghost use Rattle.std.specs.Prelude.{◌≡◌, ℕ, List, Some, IfOk, IfErr, true, false};
ghost use Rattle.std.specs.Io.Buffered.{reader_buffer, reader_remaining};
ghost use Rattle.memchr.specs.Find.{IsFirstByte, IsLastByte, is_byte};
ghost use Rattle.command_line.specs.Faults.{fault_of_error};
ghost use Rattle.command_line.specs.Pieces.{IsBehind, IsFeed, IsNextPiece, IsUnread};

use crate::fault::Fault;
use memchr::{memchr, memrchr};
use run_model::memory::OutOfMemory;
use std::io::{BufRead, BufReader, ErrorKind, Read};

/// Replaces `piece` by the next lines: all whole lines that the reader has buffered, or one line that is longer than
/// its buffer. The last line feed is left out. At the end of the file it returns false, and the piece is what follows
/// the last line feed.
///
/// # Errors
///
/// `CannotRead` with this file if the reader failed, or `OutOfMemory`.
pub fn next_piece<'a, R: Read>(
    file: &'a str,
    reader: &mut BufReader<R>,
    piece: &mut Vec<u8>,
) -> Result<bool, Fault<'a>>
    ensures piece { IfOk result
        (λ is_ended. (text : List ℕ) → reader_remaining R.remaining reader.old ≡ Some text
        → IsNextPiece text is_ended piece.new.items (reader_remaining R.remaining reader.new)) }
    ensures err { IfErr result (IsUnread file.now) }
{
    piece.clear();
    for _turn in 0..u64::MAX {
        match reader.fill_buf() {
            Ok(_) => {}
            Err(error) => match fault_of_error(file, error.kind()) {
                None => continue,
                Some(fault) => return Err(fault),
            },
        }
        match take_buffered(reader, piece)? {
            Chunk::Lines => return Ok(true),
            Chunk::Part => {}
            // The end of the file.
            Chunk::Nothing => return Ok(false),
        }
    }
    Err(Fault::CannotRead { file })
}

// The fault of a file in which a read had this error; None if the read was interrupted, and is made again.
fn fault_of_error<'a>(file: &'a str, kind: ErrorKind) -> Option<Fault<'a>>
    ensures { result ≡ fault_of_error file.entry kind }
{
    match kind {
        ErrorKind::Interrupted => None,
        _ => Some(Fault::CannotRead { file }.by_kind(kind)),
    }
}

// What was taken from a reader's buffer.
#[derive(Clone, Copy)]
enum Chunk {
    // Whole lines, with the line feed after the last one.
    Lines,
    // The whole buffer, which is part of a line.
    Part,
    // Nothing: the buffer was empty.
    Nothing,
}

// Takes the whole lines that the reader has buffered, or else its whole buffer.
fn take_buffered<R: Read>(
    reader: &mut BufReader<R>,
    piece: &mut Vec<u8>,
) -> Result<Chunk, OutOfMemory>
    ensures { IfOk result
        (λ taken. (text : List ℕ) → reader_remaining R.remaining reader.old ≡ Some text
        → IsBehind taken (reader_buffer reader.old) text piece.old.items piece.new.items (reader_remaining
        R.remaining reader.new)) }
{
    let buffered = reader.buffer();
    match end_of_lines(!piece.is_empty(), buffered) {
        Some(at) => {
            piece.extend_from_slice(&buffered[..at])?;
            reader.consume(at + 1);
            Ok(Chunk::Lines)
        }
        None if buffered.is_empty() => Ok(Chunk::Nothing),
        None => {
            let count = buffered.len();
            piece.extend_from_slice(buffered)?;
            reader.consume(count);
            Ok(Chunk::Part)
        }
    }
}

// The line feed that a piece ends before: the last buffered one, or the first if the piece is the beginning of a line.
// So a line that is longer than the buffer is a piece by itself.
fn end_of_lines(is_begun: bool, buffered: &[u8]) -> Option<usize>
    ensures feed { IsFeed buffered.now result }
    ensures begun { is_begun ≡ true → IsFirstByte (is_byte 10) buffered.now result }
    ensures whole { is_begun ≡ false → IsLastByte (is_byte 10) buffered.now result }
{
    if is_begun {
        memchr(b'\n', buffered)
    } else {
        memrchr(b'\n', buffered)
    }
}
