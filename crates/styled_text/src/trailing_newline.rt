//! A text that is written in pieces, without its trailing line feed.

ghost use Rattle.std.specs.Prelude.{◌≡◌, ◌++◌, false, OnOk};
ghost use Rattle.styled_text.specs.Names.{without_trailing_newline, ends_in_line_feed, held, Puts};

use writers::write_str::{WriteFault, WriteStr};

/// Writes a text in pieces, without its trailing line feed.
///
/// A line feed at the end of a piece is held back until more follows. It allocates nothing.
///
/// ```
/// let mut trailing_newline = TrailingNewline::new();
/// trailing_newline.write(&mut out, "a\n")?;
/// assert_eq!(out.as_str(), "a");
/// trailing_newline.write(&mut out, "b\n")?;
/// assert_eq!(out.as_str(), "a\nb");
/// ```
#[derive(Clone, Copy, Debug, Default, PartialEq, Eq)]
pub struct TrailingNewline {
    is_held: bool,
}

impl TrailingNewline {
    /// Creates one that holds no line feed back.
    pub fn new() -> TrailingNewline
        ensures { result.is_held ≡ false }
    {
        TrailingNewline { is_held: false }
    }

    /// Writes the next piece.
    ///
    /// # Errors
    ///
    /// The writer's fault. It has accepted a prefix of the text.
    #[tactic(auto, using(crate::proofs::lemmas::TrailingNewlines::held_laws))]
    pub fn write<W: WriteStr>(&mut self, w: &mut W, piece: &str) -> Result<(), WriteFault>
        ensures text { Puts W.meaning w.old (without_trailing_newline (held self.old.is_held ++ piece.now)) result
            w.new }
        ensures held { OnOk result (self.new.is_held ≡ ends_in_line_feed (held self.old.is_held ++ piece.now)) }
    {
        if piece.is_empty() {
            return Ok(());
        }
        write_held(w, self.is_held)?;
        let (front, is_held) = split_trailing_newline(piece);
        self.is_held = is_held;
        w.write_str(front)
    }
}

fn write_held<W: WriteStr>(w: &mut W, is_held: bool) -> Result<(), WriteFault>
    ensures { Puts W.meaning w.old (held is_held) result w.new }
{
    if is_held {
        return w.write_str("\n");
    }
    Ok(())
}

/// A text without one trailing line feed, and whether it had one.
///
/// ```
/// assert_eq!(split_trailing_newline("a\n\n"), ("a\n", true));
/// ```
pub fn split_trailing_newline(text: &str) -> (&str, bool)
    ensures front { result.0.now ≡ without_trailing_newline text.now }
    ensures held { result.1 ≡ ends_in_line_feed text.now }
{
    match text.strip_suffix('\n') {
        Some(front) => (front, true),
        None => (text, false),
    }
}
