//! Room for a few pieces of a text.

ghost use Rattle.std.specs.Prelude.{◌≡◌, ◌↔◌, ◌+◌, ◌≤◌, ◌++◌, [], length, take, IsTrue};
ghost use Rattle.styled_text.specs.Names.{MatchBool, IsCharBoundary};

use std::marker::Model;
use std::simd::prelude::*;
use std::str;

// How many bytes of pieces are gathered.
const CAPACITY: usize = 1024;

/// Pieces of a text that are gathered, joined.
///
/// They are in the value itself, which allocates nothing.
#[derive(Drop)]
pub(super) struct PieceBuffer {
    bytes: [u8; CAPACITY],
    len: usize,
}

impl Model for PieceBuffer {
    ghost use Rattle.std.specs.Prelude.{ℕ, List, ◌≤◌, take};
    ghost use Rattle.std.specs.Str.{IsUtf8};

    ghost Value = { List ℕ };

    ghost view = { λ b. take b.len b.bytes };

    ghost invariant = { λ b. (b.len ≤ 1024) × IsUtf8 (take b.len b.bytes) };
}

impl PieceBuffer {
    /// Creates an empty buffer.
    pub(super) fn new() -> PieceBuffer
        ensures { result ≡ [] }
    {
        PieceBuffer {
            bytes: [0; CAPACITY],
            len: 0,
        }
    }

    /// The pieces, joined.
    pub(super) fn as_str(&self) -> &str
        ensures { result.now ≡ self.now }
    {
        // Only whole pieces are gathered.
        unsafe { str::from_utf8_unchecked(&self.bytes[..self.len]) }
    }

    /// Whether a piece fits.
    pub(super) fn has_room(&self, piece: &str) -> bool
        ensures { IsTrue result ↔ (length self.now + length piece.now ≤ 1024) }
    {
        piece.len() <= CAPACITY - self.len
    }

    /// Gathers a piece.
    pub(super) fn push(&mut self, piece: &str)
        requires { length self.old + length piece.now ≤ 1024 }
        ensures { self.new ≡ self.old ++ piece.now }
    {
        let end = self.len + piece.len();
        self.bytes[self.len..end].copy_from_slice(piece.as_bytes());
        self.len = end;
    }

    /// Gathers the first bytes of a text as a block of 16, and returns whether it did: they must
    /// fit into a block, and the text and the buffer must hold one. Stripping a coloured line costs
    /// a tenth less than with a copy of exactly these bytes.
    #[inline(always)]
    pub(super) fn push_in_block(&mut self, text: &str, count: usize) -> bool
        requires { IsCharBoundary text.now count }
        ensures { MatchBool result (self.new ≡ self.old ++ take count text.now) (self.new ≡ self.old) }
    {
        if 16 < count || text.len() < 16 || CAPACITY - self.len < 16 {
            return false;
        }
        u8x16::from_slice(text.as_bytes()).copy_to_slice(&mut self.bytes[self.len..]);
        self.len += count;
        true
    }

    /// Forgets the pieces.
    pub(super) fn clear(&mut self)
        ensures { self.new ≡ [] }
    {
        self.len = 0;
    }
}
