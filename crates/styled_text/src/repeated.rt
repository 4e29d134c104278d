//! A repeated character, as in a bar.

ghost use Rattle.{std.specs.Prelude.encode_utf8, styled_text.specs.Names.repeat, styled_text.specs.Names.Puts};

use writers::write_str::{WriteFault, WriteStr};

/// Writes the character the given number of times.
///
/// ```
/// write_repeated(&mut out, 3, '-')?;
/// assert_eq!(out.as_str(), "---");
/// ```
///
/// # Errors
///
/// The writer's fault. It has accepted a prefix of the text.
pub fn write_repeated<W: WriteStr>(
    w: &mut W,
    count: usize,
    character: char,
) -> Result<(), WriteFault>
    ensures { Puts W.meaning w.old (repeat count (encode_utf8 character)) result w.new }
{
    let mut left = count;
    while left > 0 {
        w.write_char(character)?;
        left -= 1;
    }
    Ok(())
}
