//! Texts as a scene writes them.
//!
//! A backslash begins an escape: `\n`, `\t`, `\r`, `\e`, `\\`, and `\x` with two hexadecimal digits, which gives a
//! byte. In a text that byte is at most 7f; in the bytes that a test wrote it is any.

ghost use Rattle.std.specs.Prelude.{◌≡◌, ◌≤◌, ◌<◌, ◌-◌, ◌+◌, ◌*◌, ◌==◌, Some, None, length, slice_index, string_bytes};
ghost use Rattle.std.specs.Prelude.{IfOk, IfSome, MatchOption};
ghost use Rattle.std.specs.{Char.digit_value, Option.option_map, Option.SomeIff};
ghost use Rattle.scene_fields.specs.Texts.{cow_text, AddsStretch, bytes_in, escape_byte, escape_len, text_in};

use super::marks::find_byte;
use super::unescape::{unescape_in_place, unescape_text_in_place};
use run_model::memory::OutOfMemory;
use std::alloc::Global;
use std::borrow::CowStr;

/// The greatest byte that an escape may give in a text.
pub(crate) const ASCII: u8 = 0x7f;

/// Reads a text. It allocates only if there is an escape; `None` means a bad field.
///
/// ```
/// let text = read_text(alloc, r"a\tb")?;
/// assert_eq!(text.map(|text| text.as_str() == "a\tb"), Some(true));
/// ```
///
/// # Errors
///
/// Memory was refused. A bad field is no error but `None`.
#[inline(always)]
pub fn read_text(alloc: Global, field: &str) -> Result<Option<CowStr<'_, Global>>, OutOfMemory>
    ensures { IfOk result (λ text. option_map cow_text text ≡ text_in field.now) }
{
    let Some(_) = find_byte(b'\\', field.as_bytes()) else {
        return Ok(Some(CowStr::Borrowed(field)));
    };
    read_escaped(alloc, field)
}

// Reads a text that has an escape: the field is copied, and decoded in the memory of the copy.
#[inline(never)]
fn read_escaped<'a>(
    alloc: Global,
    field: &'a str,
) -> Result<Option<CowStr<'a, Global>>, OutOfMemory>
    ensures { IfOk result (λ text. option_map cow_text text ≡ text_in field.now) }
{
    let mut bytes = Vec::from_slice(alloc, field.as_bytes())?;
    let Some(len) = unescape_text_in_place(bytes.as_mut_slice()) else {
        return Ok(None);
    };
    bytes.truncate(len);
    match String::from_utf8(bytes) {
        Ok(text) => Ok(Some(CowStr::Owned(text))),
        // A byte of ASCII keeps the text valid UTF-8.
        Err(_) => Err(OutOfMemory),
    }
}

/// Adds the text before an escape, and the byte that the escape gives. It returns the text after the escape; `None`
/// means a bad one.
pub(crate) fn push_stretch<'a>(
    text: &mut String,
    plain: &str,
    escape: &'a str,
) -> Result<Option<&'a str>, OutOfMemory>
    ensures { IfOk result
        (λ after. MatchOption after (escape_byte 127 escape.now ≡ None)
        (AddsStretch (string_bytes text.old) plain.now escape.now (string_bytes text.new))) }
{
    text.push_str(plain)?;
    let Some((byte, len)) = escape_at(escape.as_bytes(), ASCII) else {
        return Ok(None);
    };
    text.push(char::from(byte))?;
    Ok(Some(&escape[len..]))
}

/// Reads the bytes that a test wrote: the field is copied, and decoded in the memory of the copy. `None` means a bad
/// field.
///
/// # Errors
///
/// Memory was refused. A bad field is no error but `None`.
pub fn read_bytes(alloc: Global, field: &str) -> Result<Option<Vec<u8>>, OutOfMemory>
    ensures { IfOk result (λ bytes. option_map (λ v. v.items) bytes ≡ bytes_in field.now) }
{
    let mut bytes = Vec::from_slice(alloc, field.as_bytes())?;
    let Some(len) = unescape_in_place(bytes.as_mut_slice()) else {
        return Ok(None);
    };
    bytes.truncate(len);
    Ok(Some(bytes))
}

/// The byte that an escape gives, and how many bytes the escape has after its backslash; `escape` begins after that. An
/// `x` escape gives at most `most`. None if the escape is not valid. Those that most outputs have are tested first.
#[inline(always)]
pub(crate) fn escape_at(escape: &[u8], most: u8) -> Option<(u8, usize)>
    ensures byte { option_map (λ x. x.0) result ≡ escape_byte most escape.now }
    ensures len { IfSome result
        (λ x. (x.1 ≡ escape_len escape.now) × (1 ≤ x.1) × (x.1 ≤ 3) × (x.1 ≤ length escape.now)
        × (slice_index escape.now (x.1 - 1) < 128)) }
{
    match escape {
        [b'e', ..] => Some((b'\x1b', 1)),
        [b'n', ..] => Some((b'\n', 1)),
        [b'x', high, low, ..] => {
            let byte = hex_byte(*high, *low)?;
            if byte <= most { Some((byte, 3)) } else { None }
        }
        [b't', ..] => Some((b'\t', 1)),
        [b'r', ..] => Some((b'\r', 1)),
        [b'\\', ..] => Some((b'\\', 1)),
        _ => None,
    }
}

// The byte that two hexadecimal digits write.
#[inline(always)]
fn hex_byte(high: u8, low: u8) -> Option<u8>
    ensures { SomeIff result ((digit_value high < 16) × (digit_value low < 16))
        (16 * digit_value high + digit_value low) }
{
    let (high, low) = (digit_value(high), digit_value(low));
    if high < 16 && low < 16 {
        Some(16 * high + low)
    } else {
        None
    }
}

// The value of each byte as a hexadecimal digit, and 16 for any other byte.
static VALUES: [u8; 256] = *b"\
    \x10\x10\x10\x10\x10\x10\x10\x10\x10\x10\x10\x10\x10\x10\x10\x10\
    \x10\x10\x10\x10\x10\x10\x10\x10\x10\x10\x10\x10\x10\x10\x10\x10\
    \x10\x10\x10\x10\x10\x10\x10\x10\x10\x10\x10\x10\x10\x10\x10\x10\
    \x00\x01\x02\x03\x04\x05\x06\x07\x08\x09\x10\x10\x10\x10\x10\x10\
    \x10\x0a\x0b\x0c\x0d\x0e\x0f\x10\x10\x10\x10\x10\x10\x10\x10\x10\
    \x10\x10\x10\x10\x10\x10\x10\x10\x10\x10\x10\x10\x10\x10\x10\x10\
    \x10\x0a\x0b\x0c\x0d\x0e\x0f\x10\x10\x10\x10\x10\x10\x10\x10\x10\
    \x10\x10\x10\x10\x10\x10\x10\x10\x10\x10\x10\x10\x10\x10\x10\x10\
    \x10\x10\x10\x10\x10\x10\x10\x10\x10\x10\x10\x10\x10\x10\x10\x10\
    \x10\x10\x10\x10\x10\x10\x10\x10\x10\x10\x10\x10\x10\x10\x10\x10\
    \x10\x10\x10\x10\x10\x10\x10\x10\x10\x10\x10\x10\x10\x10\x10\x10\
    \x10\x10\x10\x10\x10\x10\x10\x10\x10\x10\x10\x10\x10\x10\x10\x10\
    \x10\x10\x10\x10\x10\x10\x10\x10\x10\x10\x10\x10\x10\x10\x10\x10\
    \x10\x10\x10\x10\x10\x10\x10\x10\x10\x10\x10\x10\x10\x10\x10\x10\
    \x10\x10\x10\x10\x10\x10\x10\x10\x10\x10\x10\x10\x10\x10\x10\x10\
    \x10\x10\x10\x10\x10\x10\x10\x10\x10\x10\x10\x10\x10\x10\x10\x10";

// The value of a hexadecimal digit, and 16 for any other byte. It does not branch, since the digits of a random text
// cannot be predicted.
#[inline(always)]
fn digit_value(byte: u8) -> u8
    ensures digit { digit_value byte < 16 → result ≡ digit_value byte }
    ensures other { 16 ≤ digit_value byte → result ≡ 16 }
{
    VALUES[byte as usize]
}
