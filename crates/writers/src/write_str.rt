//! Writers of text.
//!
//! If a device fails in the middle of a text, the writer has accepted a prefix of it. So what
//! reaches a terminal or a file is always a prefix of the intended text.

ghost use Rattle.std.specs.Prelude.{◌≡◌, [], OnOk, encode_utf8};
ghost use Rattle.writers.specs.{StringWriter.string_meaning, StringWriterLaws.string_laws, Texts.strs, Writer.Meaning};
ghost use Rattle.writers.specs.{Writer.WriterLaws, Writer.Puts};

mod on_formatter;
mod pending_bytes;
mod retry_interrupted;
mod text_buffer;

pub use on_formatter::OnFormatter;
pub use pending_bytes::CAPACITY;
pub use retry_interrupted::RetryInterrupted;
use std::alloc::AllocError;
pub use text_buffer::TextBuffer;
use thiserror::Error;

/// Why a text could not be written whole. A prefix of it was accepted.
///
/// ```
/// assert_eq!(WriteFault::Memory.to_string(alloc)?.as_str(), "out of memory");
/// ```
#[derive(Clone, Copy, Debug, PartialEq, Eq, Error)]
pub enum WriteFault {
    /// The device failed.
    #[error("the device failed")]
    Device,
    /// A growth of memory was refused.
    #[error("out of memory")]
    Memory,
}

/// A writer of text.
///
/// `meaning` defines what it is to accept a text, and `laws` hold for every writer: two texts in
/// sequence are accepted as one, a fault leaves a prefix, and `Device` and `Memory` occur only if a
/// device failed or memory may be refused.
///
/// ```
/// out.write_str("2 tests")?;
/// out.write_char('\n')?;
/// out.write_str_flush()?;
/// assert_eq!(out.as_str(), "2 tests\n");
/// ```
pub trait WriteStr {
    /// What a text does to the writer.
    ghost meaning: { Meaning Self };

    /// Writes a text.
    ///
    /// # Errors
    ///
    /// Why the writer stopped. It has accepted a prefix of the text.
    fn write_str(&mut self, s: &str) -> Result<(), WriteFault>
        ensures { Puts meaning self.old s.now result self.new };

    /// Writes a character.
    ///
    /// # Errors
    ///
    /// Why the writer stopped. It has accepted a prefix of the character's UTF-8.
    fn write_char(&mut self, c: char) -> Result<(), WriteFault>
        ensures { Puts meaning self.old (encode_utf8 c) result self.new }
    {
        let mut bytes = [0u8; 4];
        self.write_str(c.encode_utf8(&mut bytes))
    }

    /// Delivers all that was accepted to the writer's destination.
    ///
    /// # Errors
    ///
    /// Why the writer stopped. What the destination has not taken stays accepted.
    fn write_str_flush(&mut self) -> Result<(), WriteFault>
        ensures text { Puts meaning self.old [] result self.new }
        ensures delivered { OnOk result (meaning.is_delivered self.new) };

    /// The laws of acceptance, for any writer.
    ghost laws: { WriterLaws meaning };
}

/// Accepts by growing; memory may be refused.
impl WriteStr for String {
    ghost meaning = { string_meaning };

    ghost laws = { string_laws };

    fn write_str(&mut self, s: &str) -> Result<(), WriteFault> {
        match self.push_str(s) {
            Ok(()) => Ok(()),
            Err(AllocError) => Err(WriteFault::Memory),
        }
    }

    // It has nothing to deliver, and does not allocate for that.
    fn write_str_flush(&mut self) -> Result<(), WriteFault>
        ensures text { Puts string_meaning self.old [] result self.new }
        ensures delivered { OnOk result (string_meaning.is_delivered self.new) }
        ensures answer { result ≡ Ok tt }
        ensures same { self.new ≡ self.old }
    {
        Ok(())
    }
}

/// Writes the texts in sequence.
///
/// ```
/// write_strs(&mut out, &["(", "1", "/", "2", ") "])?;
/// assert_eq!(out.as_str(), "(1/2) ");
/// ```
///
/// # Errors
///
/// The writer's fault. It has accepted a prefix of the joined texts.
pub fn write_strs<W: WriteStr>(w: &mut W, texts: &[&str]) -> Result<(), WriteFault>
    ensures { Puts W.meaning w.old (strs texts.now) result w.new }
{
    for text in texts {
        w.write_str(text)?;
    }
    Ok(())
}
