//! The positions of a byte in a text, found 32 bytes at a time.
//!
//! Tabs in a line and escapes in an output are close together, so calls of memchr would mostly be overhead.

ghost use Rattle.std.specs.Prelude.{◌≡◌, ◌≢◌, ◌++◌, ◌+◌, ◌-◌, ◌/◌, ◌^◌, ◌<◌, ◌≤◌, drop, length, min, replicate, take};
ghost use Rattle.{std.specs.Int.trailing_zeros, std.specs.Int.w64, memchr.specs.Find.IsFirstByte};
ghost use Rattle.{memchr.specs.Find.is_byte, scene_fields.specs.Marks.marks, scene_fields.specs.Marks.marks_between};

use std::simd::prelude::*;

/// The positions of a byte among the next 32 bytes, or fewer at the end, each as a bit of the mask.
#[inline(always)]
pub fn marks_from(byte: u8, bytes: &[u8], from: usize) -> u64
    requires within { from ≤ length bytes.now }
    requires byte { byte ≢ 0 }
    ensures { result ≡ marks_between byte bytes.now from (min (from + 32) (length bytes.now)) }
{
    let left = bytes.len() - from;
    if left >= 32 || bytes.len() < 32 {
        return match_mask(byte, load_block(bytes, from));
    }
    // The last 32 bytes of the text, with the bits of those before `from` shifted out. This saves a copy.
    let last = u8x32::from_slice(&bytes[bytes.len() - 32..]);
    match_mask(byte, last) >> (32 - left)
}

/// The next 32 bytes. At the end of the text, zeros fill the block.
#[inline(always)]
pub fn load_block(bytes: &[u8], from: usize) -> u8x32
    requires { from ≤ length bytes.now }
    ensures { result ≡ take 32 (drop from bytes.now) ++ replicate (32 - (length bytes.now - from)) 0 }
{
    let rest = &bytes[from..];
    if rest.len() >= 32 {
        return u8x32::from_slice(rest);
    }
    let mut block = [0; 32];
    block[..rest.len()].copy_from_slice(rest);
    u8x32::from_array(block)
}

/// The first position of the byte. It is for short texts, which are searched 32 bytes at a time: a call of memchr costs
/// more than that.
#[inline(always)]
#[tactic(auto, using(crate::proofs::lemmas::Marks::all_left, crate::proofs::lemmas::Marks::none_left))]
pub fn find_byte(byte: u8, bytes: &[u8]) -> Option<usize>
    requires { byte ≢ 0 }
    ensures { IsFirstByte (is_byte byte) bytes.now result }
{
    let mut from = 0;
    while from < bytes.len() {
        let marks = marks_from(byte, bytes, from);
        if marks != 0 {
            return Some(from + first_place(marks));
        }
        from += 32;
    }
    None
}

/// The first position of the byte, like [`find_byte`], for texts that mostly have it among their first 64 bytes. No
/// more is inlined: where several such searches follow one another, the compiler would mix them.
#[inline(always)]
pub fn find_near(byte: u8, bytes: &[u8]) -> Option<usize>
    requires { byte ≢ 0 }
    ensures { IsFirstByte (is_byte byte) bytes.now result }
{
    if bytes.len() > 32 {
        let marks = marks_from(byte, bytes, 0);
        if marks != 0 {
            return Some(first_place(marks));
        }
        let marks = marks_from(byte, bytes, 32);
        if marks != 0 {
            return Some(32 + first_place(marks));
        }
    }
    find_far(byte, bytes)
}

#[inline(never)]
fn find_far(byte: u8, bytes: &[u8]) -> Option<usize>
    requires { byte ≢ 0 }
    ensures { IsFirstByte (is_byte byte) bytes.now result }
{
    find_byte(byte, bytes)
}

/// The positions of a byte in a block, counted in bytes from 0: the mask has the bit of each.
#[inline(always)]
pub fn match_mask(byte: u8, block: u8x32) -> u64
    ensures { result ≡ marks byte block }
{
    block.simd_eq(u8x32::splat(byte)).to_bitmask()
}

/// The first position whose bit is set.
#[inline(always)]
pub fn first_place(mask: u64) -> usize
    requires { mask ≢ 0 }
    ensures bound { result < 64 }
    ensures first { result ≡ trailing_zeros w64 mask }
{
    mask.trailing_zeros() as usize
}

/// The mask shifted so that its bit `place + count` becomes bit 0.
#[inline(always)]
pub fn shift_past(mask: u64, place: usize, count: usize) -> u64
    requires some { mask ≢ 0 }
    requires within { place < 64 }
    requires on { 1 ≤ count }
    requires few { count < 64 }
    ensures smaller { result < mask }
    ensures behind { result ≡ mask / 2 ^ (place + count) }
{
    mask >> place >> count
}
