//! Texts in styles, right-aligned and indented, as values.

ghost use Rattle.std.specs.Prelude.{◌≡◌, ◌++◌, ◌-◌, ℕ, List, chars, length, true, false};
ghost use Rattle.styled_text.specs.Names.{IsUtf8, decimal, indent, seconds, plain, styled, right_in, Puts};

use crate::indenter::indented;
use crate::numbers::{char_count, decimal_char_count, write_seconds, write_spaces};
use crate::style::Style;
use writers::text::{Decimal, WriteText};
use writers::write_str::{WriteFault, WriteStr};

/// A text in a style.
///
/// ```
/// use styled_text::style::Style;
/// Toned(Style::Bold, "3").write_to(&mut out)?;
/// assert_eq!(out.as_str(), "\x1b[1m3\x1b[0m");
/// ```
#[derive(Clone, Copy, Debug)]
pub struct Toned<'a>(pub Style, pub &'a str);

impl WriteText for Toned<'_> {
    ghost text = { λ t. styled t.0 t.1.now };

    #[inline(always)]
    fn write_to<W: WriteStr>(&self, w: &mut W) -> Result<(), WriteFault> {
        self.0.write(w, self.1)
    }
}

/// A text of several parts in a style.
#[derive(Clone, Copy, Debug, Drop)]
pub struct Painted<T>(pub Style, pub T);

impl<T: WriteText> WriteText for Painted<T> {
    ghost text = { λ p. styled p.0 (T.text p.1) };

    #[inline(always)]
    #[tactic(auto, unfolding(crate::specs::Style::styled))]
    fn write_to<W: WriteStr>(&self, w: &mut W) -> Result<(), WriteFault> {
        if self.0 == Style::Plain {
            return self.1.write_to(w);
        }
        w.write_str(self.0.prefix())?;
        self.1.write_to(w)?;
        w.write_str(self.0.suffix())
    }
}

/// A number in a style.
#[derive(Clone, Copy, Debug)]
pub struct Number(pub Style, pub u128);

impl WriteText for Number {
    ghost text = { λ n. styled n.0 (decimal n.1) };

    fn write_to<W: WriteStr>(&self, w: &mut W) -> Result<(), WriteFault> {
        self.0.write_number(w, self.1)
    }
}

/// A text whose characters are counted before it is written.
pub trait CountedText: WriteText {
    /// Its characters.
    ghost words: { Self → List ℕ };

    /// What its characters leave of this number of columns.
    fn columns_left(&self, columns: usize) -> usize
        ensures text { Self.text self.now ≡ words self.now }
        ensures utf8 { IsUtf8 (words self.now) }
        ensures left { result ≡ columns - length (chars (words self.now)) };
}

impl CountedText for &str {
    ghost words = { λ t. t.now };

    #[tactic(auto, unfolding(writers::specs::Texts::plain))]
    fn columns_left(&self, columns: usize) -> usize {
        columns.saturating_sub(char_count(self))
    }
}

impl CountedText for Decimal {
    ghost words = { λ d. decimal d.0 };

    #[tactic(auto, unfolding(writers::specs::Texts::plain))]
    fn columns_left(&self, columns: usize) -> usize {
        columns.saturating_sub(decimal_char_count(self.0))
    }
}

impl<A: CountedText, B: CountedText> CountedText for (A, B) {
    ghost words = { λ t. A.words t.0 ++ B.words t.1 };

    #[tactic(auto, using(crate::proofs::lemmas::Decimals::both_laws))]
    fn columns_left(&self, columns: usize) -> usize {
        self.1.columns_left(self.0.columns_left(columns))
    }
}

impl<A: CountedText, B: CountedText, C: CountedText> CountedText for (A, B, C) {
    ghost words = { λ t. A.words t.0 ++ (B.words t.1 ++ C.words t.2) };

    #[tactic(auto, using(crate::proofs::lemmas::Decimals::both_laws))]
    fn columns_left(&self, columns: usize) -> usize {
        let left = self.1.columns_left(self.0.columns_left(columns));
        self.2.columns_left(left)
    }
}

impl<A: CountedText, B: CountedText, C: CountedText, D: CountedText> CountedText for (A, B, C, D) {
    ghost words = { λ t. A.words t.0 ++ (B.words t.1 ++ (C.words t.2 ++ D.words t.3)) };

    #[tactic(auto, using(crate::proofs::lemmas::Decimals::both_laws))]
    fn columns_left(&self, columns: usize) -> usize {
        let left = self.1.columns_left(self.0.columns_left(columns));
        self.3.columns_left(self.2.columns_left(left))
    }
}

/// A text right-aligned in the given number of columns, one for each character.
///
/// ```
/// Aligned(12, ("TRY ", Decimal(2), " ", "FAIL")).write_to(&mut out)?;
/// assert_eq!(out.as_str(), "  TRY 2 FAIL");
/// ```
#[derive(Clone, Copy, Debug, Drop)]
pub struct Aligned<T>(pub usize, pub T);

impl<T: CountedText> WriteText for Aligned<T> {
    ghost text = { λ a. right_in a.0 (T.words a.1) };

    #[tactic(auto, unfolding(crate::specs::Texts::right_in))]
    fn write_to<W: WriteStr>(&self, w: &mut W) -> Result<(), WriteFault> {
        write_spaces(w, self.1.columns_left(self.0))?;
        self.1.write_to(w)
    }
}

/// Nanoseconds as seconds with three decimals.
#[derive(Clone, Copy, Debug)]
pub struct Seconds(pub u128);

impl WriteText for Seconds {
    ghost text = { λ s. plain (seconds 3 s.0) };

    #[inline(always)]
    fn write_to<W: WriteStr>(&self, w: &mut W) -> Result<(), WriteFault> {
        write_seconds(w, self.0)
    }
}

/// A text with a margin before each line that is not empty.
///
/// ```
/// Indent("  ", ("a\n", "b")).write_to(&mut out)?;
/// assert_eq!(out.as_str(), "  a\n  b");
/// ```
#[derive(Clone, Copy, Debug, Drop)]
pub struct Indent<'a, T>(pub &'a str, pub T);

impl<T: WriteText> WriteText for Indent<'_, T> {
    ghost text = { λ i. indent i.0.now true (T.text i.1) };

    fn write_to<W: WriteStr>(&self, w: &mut W) -> Result<(), WriteFault> {
        let mut out = indented(w).with_str(self.0);
        let result = self.1.write_to(&mut out);
        let back = out.into_inner();
        let _ = &*back;
        result
    }
}

/// A text with a margin before each line but the first.
#[derive(Clone, Copy, Debug, Drop)]
pub struct IndentLater<'a, T>(pub &'a str, pub T);

impl<T: WriteText> WriteText for IndentLater<'_, T> {
    ghost text = { λ i. indent i.0.now false (T.text i.1) };

    fn write_to<W: WriteStr>(&self, w: &mut W) -> Result<(), WriteFault> {
        let mut out = indented(w).with_str(self.0).skip_initial();
        let result = self.1.write_to(&mut out);
        let back = out.into_inner();
        let _ = &*back;
        result
    }
}
