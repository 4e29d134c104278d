//! The writer that counts columns.

ghost use Rattle.std.specs.Prelude.{◌≡◌, ◌<◌, ◌^◌};

use super::scan_state::char_columns;
use crate::escapes::{Mode, advance};
use writers::write_str::{WriteFault, WriteStr};

/// Counts the columns of what is written to it, up to `u128::MAX`. It keeps nothing else, and no write fails.
#[derive(Drop)]
pub(super) struct ColumnCounter {
    columns: u128,
    mode: Mode,
    ghost bounded: { columns < 2 ^ 128 },
}

impl ColumnCounter {
    ghost use Rattle.std.specs.Prelude.{◌≡◌, ◌+◌};
    ghost use Rattle.styled_text.specs.Names.{saturated, columns_counted, advanced, mode_after};

    /// Starts to count.
    pub(super) fn new() -> ColumnCounter
        ensures columns { result.columns ≡ 0 }
        ensures mode { result.mode ≡ Mode.Text }
    {
        ColumnCounter {
            columns: 0,
            mode: Mode::Text,
        }
    }

    /// The columns so far.
    pub(super) fn columns(&self) -> u128
        ensures { result ≡ self.now.columns }
    {
        self.columns
    }

    fn count(&mut self, c: char)
        ensures mode { self.new.mode ≡ mode_after self.old.mode c }
        ensures columns { self.new.columns
            ≡ saturated (self.old.columns + columns_counted c (advanced self.old.mode c)) }
    {
        let columns = self.columns;
        match advance(self.mode, c) {
            Some(mode) => self.mode = mode,
            None => {
                self.mode = Mode::Text;
                self.columns = columns.saturating_add(char_columns(c));
            }
        }
    }
}

impl WriteStr for ColumnCounter {
    ghost use Rattle.styled_text.specs.ColumnCounter.{counter_meaning};
    ghost use Rattle.styled_text.specs.ColumnCounterLaws.{counter_laws};

    ghost meaning = { counter_meaning };

    ghost laws = { counter_laws };

    fn write_str(&mut self, s: &str) -> Result<(), WriteFault> {
        for c in s.chars() {
            self.count(c);
        }
        Ok(())
    }

    fn write_str_flush(&mut self) -> Result<(), WriteFault> {
        Ok(())
    }
}
