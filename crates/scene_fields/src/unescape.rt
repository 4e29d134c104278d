//! A text decoded in its own memory.
//!
//! What a text spells is never longer than the text, so a large output is decoded in place, without a second buffer of
//! its size. It is moved in blocks, since most of an output is between escapes.

ghost use Rattle.std.specs.Prelude.{◌≡◌, ◌≢◌, ◌<◌, ◌≤◌, ◌-◌, length, slice_index, take};
ghost use Rattle.std.specs.Option.{option_map};
ghost use Rattle.scene_fields.specs.Texts.{LacksEscapes, MovesPlain, bytes_in, text_in, unescaped};

use super::marks::{first_place, load_block, match_mask};
use super::texts::{ASCII, escape_at};
use std::simd::prelude::*;

/// How many bytes a block has.
const BLOCK: usize = 32;

/// Overwrites the front of an output with the bytes that it spells, and returns how many these are. `None` means a bad
/// escape.
pub fn unescape_in_place(bytes: &mut [u8]) -> Option<usize>
    ensures { option_map (λ len. take len bytes.new) result ≡ bytes_in bytes.old }
{
    unescape_up_to(bytes, u8::MAX)
}

/// Like [`unescape_in_place`], for a text, whose escapes give ASCII alone.
pub(crate) fn unescape_text_in_place(bytes: &mut [u8]) -> Option<usize>
    ensures { option_map (λ len. take len bytes.new) result ≡ text_in bytes.old }
{
    unescape_up_to(bytes, ASCII)
}

// The same for escapes that give at most `most`.
#[inline(always)]
fn unescape_up_to(bytes: &mut [u8], most: u8) -> Option<usize>
    ensures { option_map (λ len. take len bytes.new) result ≡ unescaped most bytes.old }
{
    let mut from = 0;
    let mut to = 0;
    while from < bytes.len() {
        if bytes[from] == b'\\' {
            let (byte, len) = escape_at(&bytes[from + 1..], most)?;
            bytes[to] = byte;
            to += 1;
            from += 1 + len;
        } else if from + 1 < bytes.len() && bytes[from + 1] == b'\\' {
            // a single byte between two escapes needs no block
            bytes[to] = bytes[from];
            to += 1;
            from += 1;
        } else {
            let count = move_plain(bytes, from, to);
            from += count;
            to += count;
        }
    }
    Some(to)
}

// Moves the bytes before the next escape down to `to`, at most a block of them, and returns how many it moved.
#[inline(always)]
fn move_plain(bytes: &mut [u8], from: usize, to: usize) -> usize
    requires low { to ≤ from }
    requires within { from < length bytes.old }
    requires begins { slice_index bytes.old from ≢ 92 }
    ensures some { 1 ≤ result }
    ensures moved { MovesPlain bytes.old bytes.new from to result }
{
    let block = load_block(bytes, from);
    let count = plain_len(block, bytes.len() - from);
    if from + count - to >= BLOCK {
        // The whole block may be overwritten: unread bytes begin at its end, or later.
        block.copy_to_slice(&mut bytes[to..]);
        return count;
    }
    bytes.copy_within(from..from + count, to);
    count
}

// How many bytes of a block come before its first escape.
#[inline(always)]
fn plain_len(block: u8x32, most: usize) -> usize
    ensures block { result ≤ 32 }
    ensures most { result ≤ most }
    ensures some { 1 ≤ most → slice_index block 0 ≢ 92 → 1 ≤ result }
    ensures plain { LacksEscapes (take result block) }
{
    let marks = match_mask(b'\\', block);
    let count = if marks == 0 {
        BLOCK
    } else {
        first_place(marks)
    };
    count.min(most)
}
