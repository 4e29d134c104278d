//! The writer that indents.
//!
//! It has its own module, since its name and that of the function `indented` differ only in case.

ghost use Rattle.std.specs.Prelude.{◌≡◌, false, OnOk};
ghost use Rattle.styled_text.specs.Names.{PutsMargin, TakesMargin, IndentedTakes, indented_meaning, indented_laws};
ghost use Rattle.styled_text.specs.Names.{IsOneLine, Puts};

use crate::lines::split_line;
use std::fmt;
use writers::write_str::{WriteFault, WriteStr};

/// Indents each line of what is written to the writer below.
///
/// A line that is not empty gets the indentation before its first character, an empty one gets
/// none. It allocates nothing: slices of the source are passed on.
#[derive(Debug, Drop)]
pub struct Indented<'a, W> {
    pub(super) inner: &'a mut W,
    pub(super) needs_indent: bool,
    pub(super) indentation: &'a str,
}

impl<'a, W> Indented<'a, W> {
    /// Sets the indentation.
    ///
    /// ```
    /// indented(&mut out).with_str("> ").write_str("a\nb")?;
    /// assert_eq!(out.as_str(), "> a\n> b");
    /// ```
    pub fn with_str(mut self, indentation: &'a str) -> Indented<'a, W>
        ensures now { result.inner.now ≡ self.entry.inner.now }
        ensures same { result.inner.ghost_name ≡ self.entry.inner.ghost_name }
        ensures first { result.needs_indent ≡ self.entry.needs_indent }
        ensures spaces { result.indentation.now ≡ indentation.now }
    {
        self.indentation = indentation;
        self
    }

    /// Does not indent the first line, if something precedes it.
    ///
    /// ```
    /// indented(&mut out).skip_initial().write_str("a\nb")?;
    /// assert_eq!(out.as_str(), "a\n    b");
    /// ```
    pub fn skip_initial(mut self) -> Indented<'a, W>
        ensures now { result.inner.now ≡ self.entry.inner.now }
        ensures same { result.inner.ghost_name ≡ self.entry.inner.ghost_name }
        ensures first { result.needs_indent ≡ false }
        ensures spaces { result.indentation.now ≡ self.entry.indentation.now }
    {
        self.needs_indent = false;
        self
    }

    /// The writer below.
    pub fn into_inner(self) -> &'a mut W
        ensures now { result.now ≡ self.entry.inner.now }
        ensures same { result.ghost_name ≡ self.entry.inner.ghost_name }
    {
        self.inner
    }
}

impl<W: WriteStr> Indented<'_, W> {
    #[tactic(auto, using(crate::proofs::lemmas::Indents::first_margin))]
    fn write_margin(&mut self, line: &str) -> Result<(), WriteFault>
        requires { IsOneLine line.now }
        ensures { PutsMargin W.meaning self.old line.now result self.new }
    {
        if !self.needs_indent || line == "\n" {
            return Ok(());
        }
        self.inner.write_str(self.indentation)
    }

    fn write_line(&mut self, line: &str) -> Result<(), WriteFault>
        requires { IsOneLine line.now }
        ensures { Puts (indented_meaning W.meaning) self.old line.now result self.new }
    {
        self.write_margin(line)?;
        self.inner.write_str(line)?;
        self.needs_indent = line.ends_with('\n');
        Ok(())
    }
}

impl<W: WriteStr> WriteStr for Indented<'_, W> {
    ghost meaning = { indented_meaning W.meaning };

    ghost laws = { indented_laws W.meaning W.laws };

    fn write_str(&mut self, s: &str) -> Result<(), WriteFault> {
        let mut rest = s;
        while !rest.is_empty() {
            let (line, more) = split_line(rest);
            self.write_line(line)?;
            rest = more;
        }
        Ok(())
    }

    #[tactic(auto, using(crate::proofs::lemmas::Indents::flush_put))]
    fn write_str_flush(&mut self) -> Result<(), WriteFault> {
        self.inner.write_str_flush()
    }
}

impl<W: fmt::Write> Indented<'_, W> {
    // `write_margin` for a destination of `fmt`.
    #[tactic(auto, using(crate::proofs::lemmas::IndentedCalls::margin_laws))]
    fn fmt_margin(&mut self, line: &str) -> fmt::Result
        requires { IsOneLine line.now }
        ensures { OnOk result (TakesMargin W.write_str_gives self.old line.now self.new) }
    {
        if line == "\n" || !self.needs_indent {
            return Ok(());
        }
        self.inner.write_str(self.indentation)
    }

    // `write_line` for a destination of `fmt`.
    fn fmt_line(&mut self, line: &str) -> fmt::Result
        requires { IsOneLine line.now }
        ensures { OnOk result (IndentedTakes W.write_str_gives self.old line.now self.new) }
    {
        self.fmt_margin(line)?;
        self.inner.write_str(line)?;
        self.needs_indent = line.ends_with('\n');
        Ok(())
    }
}

/// For a destination of `fmt`. What a failure leaves is unspecified, as it is by `fmt`.
impl<W: fmt::Write> fmt::Write for Indented<'_, W> {
    ghost write_str_gives = { IndentedTakes W.write_str_gives };

    fn write_str(&mut self, s: &str) -> fmt::Result {
        let mut rest = s;
        while !rest.is_empty() {
            let (line, more) = split_line(rest);
            self.fmt_line(line)?;
            rest = more;
        }
        Ok(())
    }
}
