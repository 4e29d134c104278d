//! Laws of the definitions of texts.
//!
//! A law is a function that does nothing. Its clauses say what holds of the definitions in
//! `specs/`, for every text; the prover has proved them.
//!
//! ```
//! use styled_text::escapes::{Piece, pieces};
//! for piece in pieces("\x1b[1mhi\x1b[0m") {
//!     match piece {
//!         Piece::Sequence(text) | Piece::Stretch(text) => out.write_str(text)?,
//!     }
//! }
//! assert_eq!(out.as_str(), "\x1b[1mhi\x1b[0m"); // by `piece_laws`
//! ```

ghost use Rattle.std.specs.Prelude.{◌≡◌, ℕ, ◌-◌, ◌≤◌, ◌++◌, List};
ghost use Rattle.styled_text.specs.Names.{IsUtf8, HasNoEscape, pieces, visible, joined, stretches, sequences};
ghost use Rattle.styled_text.specs.Names.{part_sequences};
ghost use Rattle.styled_text.specs.Names.{columns, fit, shrunk_parts, IsPainted, ArePainted, IndentsInPieces};
ghost use Rattle.styled_text.specs.Names.{IndentsByBytes};

/// Pieces of a text: joined they are the text, and the stretches joined are the text without its sequences.
#[tactic(auto, using(crate::proofs::lemmas::Pieces::piece_laws))]
pub fn piece_laws()
    ensures joined { (t : List ℕ) → joined (pieces t) ≡ t }
    ensures visible { (t : List ℕ) → stretches (pieces t) ≡ visible t }
{}

/// Indented texts: a text may be cut anywhere, and a scan with one flag indents it.
#[tactic(auto, using(crate::proofs::lemmas::Indents::onward))]
pub fn indent_laws()
    ensures pieces { IndentsInPieces }
    ensures bytes { IndentsByBytes }
{}

/// Cut texts: how wide they are, and that they keep every sequence. Each sequence must be complete.
#[tactic(auto, using(crate::proofs::lemmas::Widths::width_laws))]
pub fn width_laws()
    ensures columns { (t : List ℕ) (start end : ℕ) → IsPainted t → columns (fit t start end) ≤ end - start }
    ensures sequences { (t : List ℕ) (start end : ℕ) → IsPainted t
        → sequences (pieces (fit t start end)) ≡ sequences (pieces t) }
    ensures part_columns { (ts : List (List ℕ)) (name : List ℕ) (width : ℕ) → ArePainted ts → IsPainted name
        → columns (shrunk_parts ts name width) ≤ width }
    ensures part_sequences { (ts : List (List ℕ)) (name : List ℕ) (width : ℕ) → ArePainted ts → IsPainted name
        → sequences (pieces (shrunk_parts ts name width)) ≡ part_sequences ts ++ sequences (pieces name) }
    ensures plain { (t : List ℕ) → IsUtf8 t → HasNoEscape t → IsPainted t }
    ensures joined { (a b : List ℕ) → IsPainted a → IsPainted b → IsPainted (a ++ b) }
{}
