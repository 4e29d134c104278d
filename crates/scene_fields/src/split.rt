//! A text cut at a byte.
//!
//! Like `str::split_once`, but it searches a long text with memchr, since outputs are searched for backslashes from end
//! to end.

ghost use Rattle.std.specs.Prelude.{◌≡◌, ◌<◌, ◌≤◌, ◌+◌, ◌-◌, [], ◌∷◌, ◌++◌, length, slice_index, IfSome, MatchOption};
ghost use Rattle.scene_fields.specs.Split.{Lacks, cut, cut_texts, split_on, pieces_left, size_left};
ghost use Rattle.{memchr.specs.Find.IsFirstByte, memchr.specs.Find.is_byte};

use super::marks::{find_byte, find_near};
use memchr::memchr;

/// How many bytes at the front of a text are searched before memchr is called: most separators are there.
const NEAR: usize = 16;

// The first position of the byte.
#[inline(always)]
fn first_place(byte: u8, text: &[u8]) -> Option<usize>
    ensures { IsFirstByte (is_byte byte) text.now result }
{
    if text.len() < NEAR {
        return text.iter().position(|other| *other == byte);
    }
    // zeros fill a block after the text
    if byte != 0 {
        if let Some(place) = find_byte(byte, &text[..NEAR]) {
            return Some(place);
        }
    }
    first_far_place(byte, text)
}

// The search with memchr, whose code is too long to be inlined in each caller.
#[inline(never)]
fn first_far_place(byte: u8, text: &[u8]) -> Option<usize>
    ensures { IsFirstByte (is_byte byte) text.now result }
{
    memchr(byte, text)
}

/// The text before the first of these bytes, and the text after it. The byte is ASCII.
///
/// ```
/// assert_eq!(split_at_byte("a=b=c", b'='), Some(("a", "b=c")));
/// ```
#[inline(always)]
pub fn split_at_byte(text: &str, byte: u8) -> Option<(&str, &str)>
    requires { byte < 128 }
    ensures parts { MatchOption result (Lacks byte text.now)
        (λ x. Lacks byte x.0.now × (text.now ≡ x.0.now ++ (byte ∷ x.1.now))) }
    ensures cut { cut_texts result ≡ cut byte text.now }
    ensures split_on { MatchOption result (split_on byte text.now ≡ text.now ∷ [])
        (λ x. split_on byte text.now ≡ x.0.now ∷ split_on byte x.1.now) }
    ensures shorter { IfSome result (λ x. length x.1.now + 1 ≤ length text.now) }
{
    let Some(at) = first_place(byte, text.as_bytes()) else {
        return None;
    };
    Some((&text[..at], &text[at + 1..]))
}

/// The first field of a line, and the text after its tab.
///
/// ```
/// assert_eq!(cut_field("alpha\tt1\tpass"), Some(("alpha", "t1\tpass")));
/// ```
#[inline(always)]
pub fn cut_field(line: &str) -> Option<(&str, &str)>
    ensures { IfSome result (λ x. split_on 9 line.now ≡ x.0.now ∷ split_on 9 x.1.now) }
{
    let tab = find_near(b'\t', line.as_bytes())?;
    Some((&line[..tab], &line[tab + 1..]))
}

/// The text after this prefix, or None if a line does not begin with it. They are ASCII, and an array, so that their
/// number is known and at most eight of them are compared in one or two instructions.
///
/// ```
/// assert_eq!(strip_front("done\t-", b"done\t"), Some("-"));
/// ```
#[inline(always)]
pub fn strip_front<'t, const N: usize>(line: &'t str, front: &[u8; N]) -> Option<&'t str>
    requires some { 1 ≤ N }
    requires ascii { slice_index front.now (N - 1) < 128 }
    ensures { IfSome result (λ rest. line.now ≡ front.now ++ rest.now) }
{
    let (begin, _) = line.as_bytes().split_first_chunk::<N>()?;
    if *begin == *front {
        return Some(&line[N..]);
    }
    None
}

/// The first two fields of a line, the text of both, and the text after the second one's tab.
///
/// ```
/// assert_eq!(cut_two_fields("alpha\tt1\tpass"), Some(("alpha\tt1", "alpha", "t1", "pass")));
/// ```
#[inline(always)]
pub fn cut_two_fields(line: &str) -> Option<(&str, &str, &str, &str)>
    ensures both { IfSome result (λ x. x.0.now ≡ x.1.now ++ 9 ∷ x.2.now) }
    ensures split { IfSome result (λ x. split_on 9 line.now ≡ x.1.now ∷ x.2.now ∷ split_on 9 x.3.now) }
{
    let first = find_near(b'\t', line.as_bytes())?;
    let behind = &line[first + 1..];
    let second = find_near(b'\t', behind.as_bytes())?;
    Some((
        &line[..first + 1 + second],
        &line[..first],
        &behind[..second],
        &behind[second + 1..],
    ))
}

/// The text before the first of these bytes, and the text after it, if it has one. The byte is ASCII.
#[inline(always)]
pub(crate) fn first_piece(text: &str, byte: u8) -> (&str, Option<&str>)
    requires { byte < 128 }
    ensures pieces { split_on byte text.now ≡ result.0.now ∷ pieces_left byte result.1 }
    ensures shorter { size_left result.1 ≤ length text.now }
{
    match split_at_byte(text, byte) {
        Some((piece, after)) => (piece, Some(after)),
        None => (text, None),
    }
}

/// The first line of a text, and the text after its line feed, if it has one.
pub fn first_line(text: &[u8]) -> (&[u8], Option<&[u8]>)
    ensures lines { split_on 10 text.now ≡ result.0.now ∷ pieces_left 10 result.1 }
    ensures shorter { size_left result.1 ≤ length text.now }
{
    match memchr(b'\n', text) {
        Some(at) => (&text[..at], Some(&text[at + 1..])),
        None => (text, None),
    }
}
