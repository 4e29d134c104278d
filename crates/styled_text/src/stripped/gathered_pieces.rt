//! Pieces of a text that are written together, without a trailing line feed.

ghost use Rattle.std.specs.Prelude.{◌≡◌, [], false, take, OnOk};
ghost use Rattle.styled_text.specs.Names.{IsCharBoundary, unwritten, Carries};

use super::piece_buffer::PieceBuffer;
use crate::trailing_newline::TrailingNewline;
use writers::write_str::{WriteFault, WriteStr};

/// Gathers pieces of a text, so that a writer gets few and long ones.
#[derive(Drop)]
pub(super) struct GatheredPieces {
    trailing_newline: TrailingNewline,
    pending: PieceBuffer,
}

impl GatheredPieces {
    /// Creates one that has gathered nothing.
    pub(super) fn new() -> GatheredPieces
        ensures held { result.trailing_newline.is_held ≡ false }
        ensures pending { result.pending ≡ [] }
    {
        GatheredPieces {
            trailing_newline: TrailingNewline::new(),
            pending: PieceBuffer::new(),
        }
    }

    /// Gathers the first bytes of a text, and writes if they do not fit.
    #[inline(always)]
    pub(super) fn write_front<W: WriteStr>(
        &mut self,
        w: &mut W,
        text: &str,
        count: usize,
    ) -> Result<(), WriteFault>
        requires { IsCharBoundary text.now count }
        ensures { Carries W.meaning w.old (unwritten self.old) (take count text.now) result w.new (unwritten self.new) }
    {
        if self.pending.push_in_block(text, count) {
            return Ok(());
        }
        let (piece, _) = text.split_at(count);
        self.write(w, piece)
    }

    // Gathers the next piece, and writes if it does not fit.
    fn write<W: WriteStr>(&mut self, w: &mut W, piece: &str) -> Result<(), WriteFault>
        ensures { Carries W.meaning w.old (unwritten self.old) piece.now result w.new (unwritten self.new) }
    {
        if self.pending.has_room(piece) {
            self.pending.push(piece);
            return Ok(());
        }
        self.flush(w)?;
        self.begin(w, piece)
    }

    /// Writes what is gathered.
    pub(super) fn flush<W: WriteStr>(&mut self, w: &mut W) -> Result<(), WriteFault>
        ensures text { Carries W.meaning w.old (unwritten self.old) [] result w.new (unwritten self.new) }
        ensures empty { OnOk result (self.new.pending ≡ []) }
    {
        self.trailing_newline.write(w, self.pending.as_str())?;
        self.pending.clear();
        Ok(())
    }

    // Gathers a first piece, or writes one that is longer than the buffer.
    fn begin<W: WriteStr>(&mut self, w: &mut W, piece: &str) -> Result<(), WriteFault>
        requires { self.old.pending ≡ [] }
        ensures { Carries W.meaning w.old (unwritten self.old) piece.now result w.new (unwritten self.new) }
    {
        if self.pending.has_room(piece) {
            self.pending.push(piece);
            return Ok(());
        }
        self.trailing_newline.write(w, piece)
    }
}
