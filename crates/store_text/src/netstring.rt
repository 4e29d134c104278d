//! Netstrings: a text after the number of its bytes, so that it may hold any byte.

ghost use Rattle.std.specs.Prelude.{◌++◌};
ghost use Rattle.{writers.specs.Writer.Puts, store_text.specs.Netstring.netstring};

use itoa::Buffer;
use writers::write_str::{WriteFault, WriteStr, write_strs};

/// Writes a text as a netstring: the number of its bytes in decimal, a colon, the text, and a comma. It allocates
/// nothing.
///
/// ```
/// write_netstring(&mut out, "t1")?;
/// write_netstring(&mut out, "é")?;
/// assert_eq!(out.as_str(), "2:t1,2:é,");
/// ```
///
/// # Errors
///
/// The writer's fault. It has accepted a prefix of the text.
#[tactic(auto, unfolding(crate::specs::Netstring::netstring, crate::specs::Netstring::netstring_head))]
pub fn write_netstring<W: WriteStr>(w: &mut W, text: &str) -> Result<(), WriteFault>
    ensures { Puts W.meaning w.old (netstring text.now) result w.new }
{
    let mut length = Buffer::new();
    write_strs(w, &[length.format(text.len()), ":", text, ","])
}

/// Writes a text that is in two parts as a single netstring. It allocates nothing.
///
/// ```
/// write_joined_netstring(&mut out, "SIG ", "6")?;
/// assert_eq!(out.as_str(), "5:SIG 6,");
/// ```
///
/// # Errors
///
/// The writer's fault. It has accepted a prefix of the text.
#[tactic(auto, unfolding(crate::specs::Netstring::netstring, crate::specs::Netstring::netstring_head))]
pub fn write_joined_netstring<W: WriteStr>(
    w: &mut W,
    front: &str,
    back: &str,
) -> Result<(), WriteFault>
    ensures { Puts W.meaning w.old (netstring (front.now ++ back.now)) result w.new }
{
    let mut length = Buffer::new();
    let total = front.len() as u128 + back.len() as u128;
    write_strs(w, &[length.format(total), ":", front, back, ","])
}
