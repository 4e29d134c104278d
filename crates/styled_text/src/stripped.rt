//! A text without its escape sequences.

ghost use Rattle.std.specs.Prelude.{◌≡◌, ◌<◌, ◌++◌, length, take, drop};
ghost use Rattle.styled_text.specs.Names.{without_trailing_newline, front_len, is_visible, visible, Puts};

mod gathered_pieces;
mod piece_buffer;

use crate::escapes::{sequence_len, stretch_len};
use crate::trailing_newline::TrailingNewline;
use gathered_pieces::GatheredPieces;
use writers::write_str::{WriteFault, WriteStr};

/// Writes a text without its escape sequences, and then without a trailing line feed.
///
/// A sequence is scanned as a whole, and stretches between sequences are written together. It allocates nothing.
///
/// ```
/// write_stripped_text(&mut out, "\x1b[31mred\x1b[0m\n")?;
/// assert_eq!(out.as_str(), "red");
/// ```
///
/// # Errors
///
/// The writer's fault. It has accepted a prefix of the text.
#[tactic(auto, using(crate::proofs::lemmas::Pieces::fronts))]
pub fn write_stripped_text<W: WriteStr>(w: &mut W, text: &str) -> Result<(), WriteFault>
    ensures { Puts W.meaning w.old (without_trailing_newline (visible text.now)) result w.new }
{
    let (_, from_escape) = split_escape(text);
    if from_escape.is_empty() {
        let mut trailing_newline = TrailingNewline::new();
        return trailing_newline.write(w, text);
    }
    write_gathered(w, text)
}

// For a text that has a sequence.
fn write_gathered<W: WriteStr>(w: &mut W, text: &str) -> Result<(), WriteFault>
    ensures { Puts W.meaning w.old (without_trailing_newline (visible text.now)) result w.new }
{
    let mut gathered = GatheredPieces::new();
    let mut rest = text;
    while !rest.is_empty() {
        let stretch = stretch_len(rest.as_bytes());
        gathered.write_front(w, rest, stretch)?;
        rest = after_sequence(rest, stretch);
    }
    gathered.flush(w)
}

// The text after its first sequence, which begins at byte `stretch`.
#[inline(always)]
#[tactic(auto, using(crate::proofs::lemmas::Pieces::fronts))]
fn after_sequence(text: &str, stretch: usize) -> &str
    requires { stretch ≡ front_len is_visible text.now }
    ensures visible { visible text.now ≡ take stretch text.now ++ visible result.now }
    ensures shorter { 0 < length text.now → length result.now < length text.now }
{
    let (_, from_escape) = text.split_at(stretch);
    let Some((_, after)) = from_escape.as_bytes().split_first() else {
        return "";
    };
    let (_, rest) = from_escape.split_at(sequence_len(after) + 1);
    rest
}

// The text before its first escape character, and the rest.
#[tactic(auto, using(crate::proofs::lemmas::Pieces::front_boundary))]
fn split_escape(text: &str) -> (&str, &str)
    ensures front { result.0.now ≡ take (front_len is_visible text.now) text.now }
    ensures back { result.1.now ≡ drop (front_len is_visible text.now) text.now }
{
    text.split_at(stretch_len(text.as_bytes()))
}
