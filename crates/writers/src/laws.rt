//! Laws of the definitions of writers.
//!
//! A law is a function that does nothing. Its clauses say what holds of the definitions in `specs/`, for every text and
//! writer; the prover has proved them.
//!
//! ```
//! let mut buffer = TextBuffer::new(alloc, Vec::new(alloc))?;
//! buffer.write_str("done\n")?;
//! let (device, pending) = buffer.into_inner();
//! assert_eq!(device.len() + pending.len(), 5); // by `delivery_law`
//! ```

ghost use Rattle.std.specs.Prelude.{◌≡◌, ℕ, [], List, Some};
ghost use Rattle.writers.specs.TextBuffer.{buffer_meaning, Delivers, DeliversWithin, GrowsWithin};
ghost use Rattle.writers.specs.{declared.write_str.WriteFault.WriteFault};
ghost use Rattle.writers.specs.{declared.write_str.text_buffer.TextBuffer.TextBuffer};

use std::io::Write;

/// What a device holds of the text that a `TextBuffer` accepted, if the device's bytes are known.
///
/// What the device took, followed by what is now pending, is what was pending before, followed by
/// the text; after a fault, by a prefix of the text. So if nothing was pending before a fault, the
/// device took a prefix of the text.
#[tactic(auto, using(crate::proofs::lemmas::Deliveries::accepted_delivers))]
pub fn delivery_law<W: Write>()
    ensures accepted { (a b : TextBuffer W) (old new text : List ℕ) → W.contents a.writer ≡ Some old
        → W.contents b.writer ≡ Some new → (buffer_meaning W.contents).accepts a text b
        → Delivers old a.pending new b.pending text }
    ensures stopped { (a b : TextBuffer W) (old new text : List ℕ) (fault : WriteFault)
        → W.contents a.writer ≡ Some old → W.contents b.writer ≡ Some new
        → (buffer_meaning W.contents).stops a text fault b → DeliversWithin old a.pending new b.pending text }
    ensures begins { (a b : TextBuffer W) (old new text : List ℕ) (fault : WriteFault)
        → W.contents a.writer ≡ Some old → W.contents b.writer ≡ Some new → a.pending ≡ []
        → (buffer_meaning W.contents).stops a text fault b → GrowsWithin old new text }
{}
