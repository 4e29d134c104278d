//! A scene whose text is kept while its lines are read.

ghost use Rattle.std.specs.Prelude.{◌≡◌, ◌∷◌, ◌++◌, [], IfOk, OnOk, false, map, refl, true};
ghost use Rattle.scene_reader.specs.Names.{plain_line};
ghost use Rattle.scene_follower.specs.Sources.{AreLeftIn, IsWholeScene};
ghost use Rattle.scenes.specs.Kept.{AreKept};

use command_line::fault::Fault;
use run_model::memory::OutOfMemory;
use scene_follower::read::{RunSource, SceneSource};
use scene_reader::reader::{CallSink, LinesRead};
use std::alloc::Global;
use std::io::Read;

/// The text of a scene. The lines that were read of it are kept.
#[derive(Drop)]
pub(crate) struct KeepingSource<R> {
    pub(crate) source: SceneSource<R>,
    /// The lines, each with a line feed after it.
    pub(crate) kept: Vec<u8>,
}

impl<R: Read + Drop> KeepingSource<R> {
    /// The scene in this reader, before its first line.
    pub(crate) fn new(alloc: Global, reader: R) -> Result<KeepingSource<R>, OutOfMemory>
        ensures whole { IfOk result (λ s. IsWholeScene R.remaining reader s.source) }
        ensures kept { IfOk result (λ s. s.kept.items ≡ []) }
    {
        Ok(KeepingSource {
            source: SceneSource::new(alloc, reader)?,
            kept: Vec::new(alloc),
        })
    }
}

// Appends these lines to others, and a line feed, if there are any.
fn keep(kept: &mut Vec<u8>, piece: &[u8], is_more: bool) -> Result<(), OutOfMemory>
    ensures more { is_more ≡ true → OnOk result (kept.new.items ≡ kept.old.items ++ (piece.now ++ 10 ∷ [])) }
    ensures none { is_more ≡ false → kept.new.items ≡ kept.old.items }
{
    if is_more {
        kept.extend_from_slice(piece)?;
        kept.push(b'\n')?;
    }
    Ok(())
}

impl<R: Read> RunSource for KeepingSource<R> {
    // The lines before these texts are the run.
    ghost left = { λ total s texts before lines. AreLeftIn R.remaining s.source texts lines
        × AreKept s.kept.items texts before };

    ghost texts = { λ total s text others before lines h.
        (plain_line text, map plain_line others ++ h.0.0.0, h.0.0.1, refl) };

    fn next_piece<'a>(&mut self, file: &'a str, piece: &mut Vec<u8>) -> Result<bool, Fault<'a>> {
        let is_more = self.source.next_piece(file, piece)?;
        keep(&mut self.kept, piece.as_slice(), is_more)?;
        Ok(is_more)
    }

    #[inline(always)]
    fn pass_line<'a, 't, K: CallSink>(
        &mut self,
        alloc: Global,
        file: &'a str,
        read: &mut LinesRead,
        line: &'t [u8],
        texts: &mut Vec<&'t str>,
        sink: &mut K,
    ) -> Result<(), Fault<'a>> {
        self.source.pass_line(alloc, file, read, line, texts, sink)
    }

    fn pass_large_line<'a, K: CallSink>(
        &mut self,
        alloc: Global,
        file: &'a str,
        read: &mut LinesRead,
        line: Vec<u8>,
        sink: &mut K,
    ) -> Result<(), Fault<'a>> {
        self.source.pass_large_line(alloc, file, read, line, sink)
    }
}
