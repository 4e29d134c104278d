//! The number of an attempt.

ghost use Rattle.{styled_text.specs.Names.styled, styled_text.specs.Names.right_in};
ghost use Rattle.{test_text.specs.Words.attempt_words};

use styled_text::style::Style;
use styled_text::text::{Aligned, Painted};
use writers::text::{Decimal, WriteText};
use writers::write_str::{WriteFault, WriteStr};

/// `TRY`, the number of an attempt and a word, right in twelve columns.
#[derive(Clone, Copy)]
pub(crate) struct Try<'a> {
    pub(crate) style: Style,
    pub(crate) attempt: u32,
    pub(crate) word: &'a str,
}

impl WriteText for Try<'_> {
    ghost text = { λ t. styled t.style (right_in 12 (attempt_words t.attempt t.word.now)) };

    fn write_to<W: WriteStr>(&self, w: &mut W) -> Result<(), WriteFault> {
        let words = ("TRY ", Decimal(self.attempt as u128), " ", self.word);
        Painted(self.style, Aligned(12, words)).write_to(w)
    }
}
