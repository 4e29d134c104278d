//! Texts as values. Parts in sequence are a tuple.

ghost use Rattle.std.specs.Prelude.{◌≡◌, ◌++◌, [], List, ℕ, if◌then◌else◌};
ghost use Rattle.{std.specs.Option.option_map_or, std.specs.Fmt.decimal, writers.specs.Texts.plain};
ghost use Rattle.{writers.specs.Writer.Puts};

use crate::write_str::{WriteFault, WriteStr};
use itoa::Buffer;

/// A value that is written as a text, the same each time.
///
/// ```
/// (Decimal(2), " tests", When(is_verbose, ", of which none failed")).write_to(&mut out)?;
/// assert_eq!(out.as_str(), "2 tests, of which none failed");
/// ```
pub trait WriteText {
    /// The text.
    ghost text: { Self → List ℕ };

    /// Writes the text.
    ///
    /// # Errors
    ///
    /// The writer's fault. It has accepted a prefix of the text.
    fn write_to<W: WriteStr>(&self, w: &mut W) -> Result<(), WriteFault>
        ensures { Puts W.meaning w.old (text self.now) result w.new };
}

impl WriteText for &str {
    ghost text = { λ t. plain t.now };

    #[inline(always)]
    #[tactic(auto, unfolding(crate::specs::Texts::plain))]
    fn write_to<W: WriteStr>(&self, w: &mut W) -> Result<(), WriteFault> {
        w.write_str(self)
    }
}

/// No text.
impl WriteText for () {
    ghost text = { λ _. [] };

    #[inline(always)]
    fn write_to<W: WriteStr>(&self, w: &mut W) -> Result<(), WriteFault> {
        Ok(())
    }
}

impl<A: WriteText> WriteText for Option<A> {
    ghost text = { λ o. option_map_or A.text o [] };

    #[inline(always)]
    fn write_to<W: WriteStr>(&self, w: &mut W) -> Result<(), WriteFault> {
        match self {
            Some(text) => text.write_to(w),
            None => Ok(()),
        }
    }
}

impl<A: WriteText, B: WriteText> WriteText for (A, B) {
    ghost text = { λ p. A.text p.0 ++ B.text p.1 };

    #[inline(always)]
    fn write_to<W: WriteStr>(&self, w: &mut W) -> Result<(), WriteFault> {
        self.0.write_to(w)?;
        self.1.write_to(w)
    }
}

impl<A: WriteText, B: WriteText, C: WriteText> WriteText for (A, B, C) {
    ghost text = { λ p. A.text p.0 ++ (B.text p.1 ++ C.text p.2) };

    #[inline(always)]
    fn write_to<W: WriteStr>(&self, w: &mut W) -> Result<(), WriteFault> {
        self.0.write_to(w)?;
        self.1.write_to(w)?;
        self.2.write_to(w)
    }
}

impl<A: WriteText, B: WriteText, C: WriteText, D: WriteText> WriteText for (A, B, C, D) {
    ghost text = { λ p. A.text p.0 ++ (B.text p.1 ++ (C.text p.2 ++ D.text p.3)) };

    #[inline(always)]
    fn write_to<W: WriteStr>(&self, w: &mut W) -> Result<(), WriteFault> {
        self.0.write_to(w)?;
        self.1.write_to(w)?;
        self.2.write_to(w)?;
        self.3.write_to(w)
    }
}

impl<A: WriteText, B: WriteText, C: WriteText, D: WriteText, E: WriteText> WriteText
    for (A, B, C, D, E) {
    ghost text = { λ p. A.text p.0 ++ (B.text p.1 ++ (C.text p.2 ++ (D.text p.3 ++ E.text p.4))) };

    #[inline(always)]
    fn write_to<W: WriteStr>(&self, w: &mut W) -> Result<(), WriteFault> {
        self.0.write_to(w)?;
        self.1.write_to(w)?;
        self.2.write_to(w)?;
        self.3.write_to(w)?;
        self.4.write_to(w)
    }
}

impl<A: WriteText, B: WriteText, C: WriteText, D: WriteText, E: WriteText, F: WriteText> WriteText
    for (A, B, C, D, E, F) {
    ghost text = { λ p. A.text p.0 ++ (B.text p.1 ++ (C.text p.2 ++ (D.text p.3 ++ (E.text p.4 ++ F.text p.5)))) };

    #[inline(always)]
    fn write_to<W: WriteStr>(&self, w: &mut W) -> Result<(), WriteFault> {
        self.0.write_to(w)?;
        self.1.write_to(w)?;
        self.2.write_to(w)?;
        self.3.write_to(w)?;
        self.4.write_to(w)?;
        self.5.write_to(w)
    }
}

/// A text, if this is true.
#[derive(Clone, Copy, Debug, Drop)]
pub struct When<T>(pub bool, pub T);

impl<T: WriteText> WriteText for When<T> {
    ghost text = { λ p. if p.0 then T.text p.1 else [] };

    #[inline(always)]
    fn write_to<W: WriteStr>(&self, w: &mut W) -> Result<(), WriteFault> {
        if self.0 { self.1.write_to(w) } else { Ok(()) }
    }
}

/// A number in decimal.
#[derive(Clone, Copy, Debug)]
pub struct Decimal(pub u128);

impl WriteText for Decimal {
    ghost text = { λ n. plain (decimal n.0) };

    fn write_to<W: WriteStr>(&self, w: &mut W) -> Result<(), WriteFault> {
        Buffer::new().format(self.0).write_to(w)
    }
}
