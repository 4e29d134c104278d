//! The width of a text in columns, and texts that are cut to a width.
//!
//! `unicode_width` gives the columns of each character; a control character and an escape sequence
//! have none. A cut text keeps every sequence. A text is cut while it is written, character by
//! character, so that nothing is allocated and it does not matter how the text is split into
//! writes.

ghost use Rattle.std.specs.Prelude.{◌≡◌, ◌^◌, ◌<◌, false, true};
ghost use Rattle.styled_text.specs.Names.{IsUtf8, saturated, columns, fit, shrunk, Puts};

mod column_counter;
mod fitted;
mod scan_state;

use column_counter::ColumnCounter;
use fitted::Fitted;
use writers::text::WriteText;
use writers::write_str::{WriteFault, WriteStr};

/// The columns of a text, up to `u128::MAX`. It is written once, to be counted.
///
/// ```
/// assert_eq!(count_columns(&"\x1b[1mhi\x1b[0m"), 2);
/// ```
pub fn count_columns<T: WriteText>(part: &T) -> u128
    ensures utf8 { IsUtf8 (T.text part.now) }
    ensures value { result ≡ saturated (columns (T.text part.now)) }
{
    let mut counter = ColumnCounter::new();
    match part.write_to(&mut counter) {
        Ok(()) => counter.columns(),
        Err(_) => unreachable!(),
    }
}

/// Writes the part of a text from column `start` to column `end`, with every escape sequence of the text.
///
/// ```
/// write_fitted(&mut out, &"abcdef", 1, 4)?;
/// assert_eq!(out.as_str(), "bcd");
/// ```
///
/// # Errors
///
/// The writer's fault. It has accepted a prefix of the text.
pub fn write_fitted<T: WriteText, W: WriteStr>(
    w: &mut W,
    part: &T,
    start: u128,
    end: u128,
) -> Result<(), WriteFault>
    requires utf8 { IsUtf8 (T.text part.now) }
    requires bounded { end < 2 ^ 127 }
    ensures { Puts W.meaning w.old (fit (T.text part.now) start end) result w.new }
{
    let mut out = Fitted::new(w, start, end);
    let result = part.write_to(&mut out);
    let back = out.into_inner();
    let _ = &*back;
    result
}

/// Writes a text of this width, or its first `room` columns if it is wider.
///
/// # Errors
///
/// The writer's fault. It has accepted a prefix of the text.
#[tactic(auto, using(std::proofs::lemmas::Bool::Decides::nat_tests))]
pub fn write_front<T: WriteText, W: WriteStr>(
    w: &mut W,
    part: &T,
    width: u128,
    room: u128,
) -> Result<(), WriteFault>
    requires utf8 { IsUtf8 (T.text part.now) }
    requires width { width ≡ saturated (columns (T.text part.now)) }
    requires bounded { room < 2 ^ 127 }
    ensures { Puts W.meaning w.old (shrunk false (T.text part.now) room) result w.new }
{
    if width <= room {
        return part.write_to(w);
    }
    write_fitted(w, part, 0, room)
}

/// Writes a text of this width, or its last `room` columns if it is wider.
///
/// # Errors
///
/// The writer's fault. It has accepted a prefix of the text.
#[tactic(auto, using(std::proofs::lemmas::Bool::Decides::nat_tests))]
pub fn write_back<T: WriteText, W: WriteStr>(
    w: &mut W,
    part: &T,
    width: u128,
    room: u128,
) -> Result<(), WriteFault>
    requires utf8 { IsUtf8 (T.text part.now) }
    requires width { width ≡ columns (T.text part.now) }
    requires bounded { width < 2 ^ 127 }
    ensures { Puts W.meaning w.old (shrunk true (T.text part.now) room) result w.new }
{
    if width <= room {
        return part.write_to(w);
    }
    write_fitted(w, part, width - room, width)
}
