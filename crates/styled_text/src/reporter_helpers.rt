//! Help for a reporter that shows captured output: text in chunks of whole lines, and the end of a highlight.

ghost use Rattle.std.specs.Prelude.{◌≡◌, ◌<◌, ◌≤◌, ◌++◌, ◌==◌, length, take, count_by, slice_index};
ghost use Rattle.styled_text.specs.Names.{IsChunkEnd, IsChunk, VisitsChunks, highlight_end};

pub use crate::style::Styles;
use bstr::ByteSlice;

/// The end of the highlight of a slice: before its second line feed, or with the slice.
///
/// ```
/// assert_eq!(highlight_end(b"foo\nbar\nbaz\n"), 7);
/// ```
#[tactic(auto, using(crate::proofs::lemmas::Feeds::highlight_laws))]
pub fn highlight_end(slice: &[u8]) -> usize
    ensures value { result ≡ highlight_end slice.now }
    ensures within { result ≤ length slice.now }
    ensures second { result < length slice.now
        → (slice_index slice.now result ≡ 10) × (count_by (λ b. b == 10) (take result slice.now) ≡ 1) }
{
    let Some(first) = slice.find_byte(b'\n') else {
        return slice.len();
    };
    let (_, after) = slice.split_at(first + 1);
    match after.find_byte(b'\n') {
        Some(second) => first + 1 + second,
        None => slice.len(),
    }
}

/// Calls `print` with each chunk of a text, in order.
///
/// Each chunk is the longest run of whole lines that has at most `limit` bytes, or else one whole line. An unterminated
/// last line is a chunk of its own. Joined, the chunks are the text, and none is empty. They are slices of the text.
///
/// ```
/// let mut is_full = false;
/// print_lines_in_chunks("ab\ncd\ne", 6, |chunk| {
///     is_full = is_full || out.push_str(chunk).is_err() || out.push_str("|").is_err();
/// });
/// assert_eq!(out.as_str(), "ab\ncd\n|e|");
/// ```
pub fn print_lines_in_chunks<F: FnMut(&str)>(text: &str, limit: usize, mut print: F)
    requires { F.IsAlwaysCallable print }
    ensures { (last : F) × VisitsChunks (λ p x q. F.step p x tt q) limit text.now print last }
{
    visit_chunks(text, limit, &mut print);
}

// Calls `print` with each chunk, and nothing else.
fn visit_chunks<F: FnMut(&str)>(text: &str, limit: usize, print: &mut F)
    requires { F.IsAlwaysCallable print.old }
    ensures { VisitsChunks (λ p x q. F.step p x tt q) limit text.now print.old print.new }
{
    let mut rest = text;
    while !rest.is_empty() {
        let (chunk, after) = split_chunk(rest, limit);
        print(chunk);
        rest = after;
    }
}

// The first chunk of a text, and the rest.
#[tactic(auto, using(crate::proofs::lemmas::Chunked::chunk_from_end))]
fn split_chunk(text: &str, limit: usize) -> (&str, &str)
    requires { 0 < length text.now }
    ensures whole { text.now ≡ result.0.now ++ result.1.now }
    ensures chunk { IsChunk limit result.0.now result.1.now }
{
    text.split_at(chunk_len(text.as_bytes(), limit))
}

#[tactic(auto, using(crate::proofs::lemmas::Chunked::ends_far))]
fn chunk_len(bytes: &[u8], limit: usize) -> usize
    ensures { IsChunkEnd limit bytes.now result }
{
    let near = limit.min(bytes.len());
    let (front, back) = bytes.split_at(near);
    match front.rfind_byte(b'\n') {
        Some(last) => last + 1,
        None => match back.find_byte(b'\n') {
            Some(next) => near + next + 1,
            None => bytes.len(),
        },
    }
}
