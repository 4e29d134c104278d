//! The writer that cuts.

ghost use Rattle.std.specs.Prelude.{◌≡◌, ◌<◌, ◌^◌, false};

use super::scan_state::ScanState;
use crate::escapes::Mode;
use writers::write_str::{WriteFault, WriteStr};

/// Keeps what lies between two columns of what is written, and every sequence.
#[derive(Drop)]
pub(super) struct Fitted<'a, W> {
    inner: &'a mut W,
    start: u128,
    end: u128,
    scan: ScanState,
    ghost bounded: { end < 2 ^ 127 },
}

impl<'a, W> Fitted<'a, W> {
    /// Cuts to the columns from `start` to `end`, of what is written from now on.
    pub(super) fn new(inner: &'a mut W, start: u128, end: u128) -> Fitted<'a, W>
        requires { end < 2 ^ 127 }
        ensures same { result.inner.ghost_name ≡ inner.entry.ghost_name }
        ensures now { result.inner.now ≡ inner.old }
        ensures start { result.start ≡ start }
        ensures end { result.end ≡ end }
        ensures mode { result.scan.mode ≡ Mode.Text }
        ensures place { result.scan.place ≡ 0 }
        ensures closed { result.scan.is_open ≡ false }
    {
        let scan = ScanState {
            mode: Mode::Text,
            place: 0,
            is_open: false,
        };
        Fitted {
            inner,
            start,
            end,
            scan,
        }
    }

    /// The writer below.
    pub(super) fn into_inner(self) -> &'a mut W
        ensures now { result.now ≡ self.entry.inner.now }
        ensures same { result.ghost_name ≡ self.entry.inner.ghost_name }
    {
        self.inner
    }
}

impl<W: WriteStr> Fitted<'_, W> {
    ghost use Rattle.styled_text.specs.Fitted.{PutsChar};

    fn put(&mut self, c: char) -> Result<(), WriteFault>
        ensures { PutsChar W.meaning self.old c result self.new }
    {
        let (next, is_kept) = self.scan.step(self.start, self.end, c);
        self.scan = next;
        if !is_kept {
            return Ok(());
        }
        self.inner.write_char(c)
    }
}

impl<W: WriteStr> WriteStr for Fitted<'_, W> {
    ghost use Rattle.styled_text.specs.Fitted.{fitted_meaning};
    ghost use Rattle.styled_text.specs.FittedLaws.{fitted_laws};

    ghost meaning = { fitted_meaning W.meaning };

    ghost laws = { fitted_laws W.meaning W.laws };

    fn write_str(&mut self, s: &str) -> Result<(), WriteFault> {
        for c in s.chars() {
            self.put(c)?;
        }
        Ok(())
    }

    #[tactic(auto, using(crate::proofs::lemmas::FittedPuts::nothing_put))]
    fn write_str_flush(&mut self) -> Result<(), WriteFault> {
        self.inner.write_str_flush()
    }
}
