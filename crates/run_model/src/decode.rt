//! Bytes as the text that is shown of them.
//!
//! What is not UTF-8 is mostly text but for a few bytes, so its valid front is decoded at once. It may be no text at
//! all, so the next characters are decoded one by one.

ghost use Rattle.std.specs.Prelude.{◌≡◌, ◌++◌, ◌<◌, ◌≤◌, ◌-◌, length, IfOk, OnOk, string_bytes};
ghost use Rattle.std.specs.Prelude.{encode_utf8};
ghost use Rattle.run_model.specs.{Decoded.decoded_text, Decoded.IsPushed};

use run_names::memory::OutOfMemory;
use std::str;

/// How many characters are decoded one by one.
const ONE_BY_ONE: usize = 32;

/// Appends the text of bytes, with U+FFFD in place of what is not UTF-8.
pub(crate) fn push_lossy(bytes: &[u8], text: &mut String) -> Result<(), OutOfMemory>
    ensures { OnOk result (string_bytes text.new ≡ string_bytes text.old ++ decoded_text bytes.now) }
{
    let mut rest = bytes;
    while !rest.is_empty() {
        rest = push_some(rest, text)?;
    }
    Ok(())
}

// Appends the text of the first bytes, and returns the bytes after them.
fn push_some<'b>(bytes: &'b [u8], text: &mut String) -> Result<&'b [u8], OutOfMemory>
    requires { 0 < length bytes.now }
    ensures pushed { IfOk result (λ rest. IsPushed text.old bytes.now text.new rest.now) }
    ensures fewer { IfOk result (λ rest. length rest.now < length bytes.now) }
{
    let mut rest = push_valid(bytes, text)?;
    rest = push_char(rest, text)?;
    for _turn in 1..ONE_BY_ONE {
        rest = push_char(rest, text)?;
    }
    Ok(rest)
}

// Appends what is UTF-8 at the front.
fn push_valid<'b>(bytes: &'b [u8], text: &mut String) -> Result<&'b [u8], OutOfMemory>
    ensures pushed { IfOk result (λ rest. IsPushed text.old bytes.now text.new rest.now) }
    ensures no_more { IfOk result (λ rest. length rest.now ≤ length bytes.now) }
{
    let len = match str::from_utf8(bytes) {
        Ok(valid) => valid.len(),
        Err(error) => error.valid_up_to(),
    };
    let (front, rest) = bytes.split_at(len);
    match str::from_utf8(front) {
        Ok(valid) => text.push_str(valid)?,
        Err(_) => unreachable!(),
    }
    Ok(rest)
}

// Appends the first character.
#[inline(always)]
fn push_char<'b>(bytes: &'b [u8], text: &mut String) -> Result<&'b [u8], OutOfMemory>
    ensures pushed { IfOk result (λ rest. IsPushed text.old bytes.now text.new rest.now) }
    ensures fewer { IfOk result (λ rest. length rest.now ≤ length bytes.now - 1) }
{
    if bytes.is_empty() {
        return Ok(bytes);
    }
    let (character, len) = bstr::decode_lossy(bytes);
    let (_, rest) = bytes.split_at(len);
    push_decoded(character, text)?;
    Ok(rest)
}

// Appends a character. Of bytes that are no text most are U+FFFD.
#[inline(always)]
fn push_decoded(character: char, text: &mut String) -> Result<(), OutOfMemory>
    ensures { OnOk result (string_bytes text.new ≡ string_bytes text.old ++ encode_utf8 character) }
{
    if character == '\u{FFFD}' {
        text.push_str("\u{FFFD}")?;
    } else {
        text.push(character)?;
    }
    Ok(())
}
