//! A text that owns its memory.
//!
//! The fields of a large line are cut out of its memory without a copy, and its outputs keep that memory. So a scene
//! with one large output takes hardly more memory than its file has bytes.

ghost use Rattle.std.specs.Prelude.{◌≡◌, ◌<◌, ◌+◌, true, false, IfOk, MatchOption, drop, length, slice_index, take};
ghost use Rattle.{std.specs.Str.is_utf8, scene_fields.specs.Split.split_on};

use bytes::BytesMut;
use memchr::memchr;
use run_model::memory::OutOfMemory;
use std::alloc::Global;
use std::marker::Model;
use std::mem;

/// A text that owns its memory. Contracts see its bytes.
#[derive(Drop)]
pub struct OwnedText {
    memory: BytesMut,
    ghost valid: { is_utf8 memory.items ≡ true },
}

impl Model for OwnedText {
    ghost use Rattle.std.specs.Prelude.{List, ℕ};

    ghost Value = { List ℕ };

    ghost view = { λ t. t.memory.items };
}

impl OwnedText {
    /// These bytes as a text, if they are valid UTF-8. It copies nothing.
    #[tactic(auto, using(crate::proofs::lemmas::Utf8::utf8_passes, crate::proofs::lemmas::Utf8::utf8_fails))]
    pub fn new(bytes: Vec<u8>) -> Option<OwnedText>
        ensures { MatchOption result (is_utf8 bytes.items ≡ false)
            (λ text. (text ≡ bytes.items) × (is_utf8 bytes.items ≡ true)) }
    {
        str::from_utf8(bytes.as_slice()).ok()?;
        Some(OwnedText {
            memory: BytesMut::from_vec(bytes),
        })
    }

    /// How many bytes it has.
    pub fn len(&self) -> usize
        ensures { result ≡ length self.now }
    {
        self.memory.len()
    }

    /// The text.
    pub fn as_str(&self) -> &str
        ensures { result.now ≡ self.now }
    {
        match str::from_utf8(self.memory.as_slice()) {
            Ok(text) => text,
            Err(_) => unreachable!(),
        }
    }

    /// Takes its memory and leaves an empty text. It does not allocate.
    pub fn take_memory(&mut self, alloc: Global) -> BytesMut
        ensures { result.items ≡ self.old }
    {
        mem::replace(&mut self.memory, BytesMut::new(alloc))
    }

    /// Splits a line at its tabs. It copies nothing.
    ///
    /// # Errors
    ///
    /// Memory was refused. The line is dropped.
    pub fn split_fields(self, alloc: Global) -> Result<Vec<OwnedText>, OutOfMemory>
        ensures { IfOk result (λ fields. fields.items ≡ split_on 9 self) }
    {
        let mut fields = Vec::new(alloc);
        let mut rest = self;
        while let Some(tab) = memchr(b'\t', rest.memory.as_slice()) {
            let (field, after) = rest.cut(tab)?;
            fields.push(field)?;
            rest = after;
        }
        fields.push(rest)?;
        Ok(fields)
    }

    // The text before an ASCII character, and the text after it.
    fn cut(self, at: usize) -> Result<(OwnedText, OwnedText), OutOfMemory>
        requires within { at < length self }
        requires ascii { slice_index self at < 128 }
        ensures front { IfOk result (λ parts. parts.0 ≡ take at self) }
        ensures rest { IfOk result (λ parts. parts.1 ≡ drop (at + 1) self) }
    {
        let OwnedText { mut memory } = self;
        let front = memory.split_to(at)?;
        memory.advance(1);
        Ok((OwnedText { memory: front }, OwnedText { memory }))
    }
}
