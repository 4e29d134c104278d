//! The state of a scan of a text that is cut, and the columns of a character.

ghost use Rattle.std.specs.Prelude.{◌≡◌, ◌≤◌, ◌<◌, ◌^◌};
ghost use Rattle.styled_text.specs.Names.{char_columns, moved, is_char_kept};

use crate::escapes::{Mode, advance};
use unicode_width::UnicodeWidthChar;

/// The state of a scan between two characters.
#[derive(Clone, Copy)]
pub(super) struct ScanState {
    /// Inside or outside sequences.
    pub(super) mode: Mode,
    /// The columns before this position, or some position past the end.
    pub(super) place: u128,
    /// Whether it is in a stretch that began before the end.
    pub(super) is_open: bool,
}

impl ScanState {
    /// The state after a character, and whether that is kept between these two columns.
    pub(super) fn step(self, start: u128, end: u128, c: char) -> (ScanState, bool)
        requires { end < 2 ^ 127 }
        ensures moved { result.0 ≡ moved end self c }
        ensures kept { result.1 ≡ is_char_kept start end self c }
    {
        if let Some(mode) = advance(self.mode, c) {
            let next = ScanState {
                mode,
                place: self.place,
                is_open: false,
            };
            return (next, true);
        }
        let mut next = ScanState {
            mode: Mode::Text,
            place: self.place,
            is_open: self.is_open || self.place < end,
        };
        if end < self.place {
            return (next, false);
        }
        next.place = self.place + char_columns(c);
        (
            next,
            next.is_open && start <= self.place && next.place <= end,
        )
    }
}

/// The columns of a character. A control character has none.
#[tactic(auto, unfolding(crate::specs::Fitting::char_columns))]
pub(super) fn char_columns(c: char) -> u128
    ensures value { result ≡ char_columns c }
    ensures bound { result ≤ 3 }
{
    c.width().unwrap_or(0) as u128
}
