//! Chunks of lines, and where a highlight ends.

use crate::testing::expect_text;
use std::alloc::Global;
use std::process::Abort;
use std::test::Fail;
use styled_text::reporter_helpers::{highlight_end, print_lines_in_chunks};

// The chunks of a text, each followed by a bar.
fn chunks(alloc: Global, text: &str, limit: usize) -> Result<String, Fail> {
    let mut chunks = String::new(alloc);
    let mut is_full = false;
    print_lines_in_chunks(text, limit, |chunk| {
        is_full = is_full || chunks.push_str(chunk).is_err() || chunks.push_str("|").is_err();
    });
    if is_full {
        return Err(Fail::from("memory was refused"));
    }
    Ok(chunks)
}

// Texts, limits and chunks. The rows up to the one of mixed lengths are those of nextest-runner's test
// `test_print_lines_in_chunks`, save the two of long lines.
const CHUNKS: &[(&str, usize, &str)] = &[
    ("", 1024, ""),
    ("hello", 1024, "hello|"),
    ("hello\n", 1024, "hello\n|"),
    ("line1\nline2\nline3\n", 1024, "line1\nline2\nline3\n|"),
    ("line1\nline2\nline3\n", 10, "line1\n|line2\n|line3\n|"),
    ("line1\nline2\nline3\n", 13, "line1\nline2\n|line3\n|"),
    ("123456789\n", 10, "123456789\n|"),
    ("12345678\nabcdefgh\n", 10, "12345678\n|abcdefgh\n|"),
    ("hello😀\nworld\n", 10, "hello😀\n|world\n|"),
    ("1234😀\nabcd\n", 7, "1234😀\n|abcd\n|"),
    ("line1\n\n\nline2\n", 10, "line1\n\n\n|line2\n|"),
    ("line1\nline2\nline3", 10, "line1\n|line2\n|line3|"),
    (
        "short\nvery_long_line_that_exceeds_chunk_size\nmedium_line\nok\n",
        20,
        "short\n|very_long_line_that_exceeds_chunk_size\n|medium_line\nok\n|",
    ),
    ("a\nb", 0, "a\n|b|"),
    ("ab\nc", 10, "ab\n|c|"),
    ("a\nb\nc", usize::MAX, "a\nb\n|c|"),
];

#[test]
fn prints_chunks(rt: HostRuntime) -> Result<(), Fail> {
    for &(text, limit, want) in CHUNKS {
        expect_text(&rt, chunks(rt.alloc(), text, limit)?.as_str(), want);
    }
    // The two rows of long lines of the same test.
    let mut line = "a".repeat(rt.alloc(), 2000)?;
    for end in ["", "\n"] {
        line.push_str(end)?;
        let chunks = chunks(rt.alloc(), line.as_str(), 1024)?;
        expect_text(
            &rt,
            chunks.as_str().strip_suffix("|").unwrap_or(""),
            line.as_str(),
        );
    }
    Ok(())
}

fn expect_end(rt: &impl Abort, text: &str, end: usize) {
    assert_eq!(rt; highlight_end(text.as_bytes()), end, "of {text}");
}

#[test]
fn a_highlight_ends_with_its_second_line(rt: HostRuntime) {
    // The rows of nextest-runner's test `test_highlight_end`.
    for (text, end) in [
        ("", 0),
        ("\n", 1),
        ("foo", 3),
        ("foo\n", 4),
        ("foo\nbar", 7),
        ("foo\nbar\n", 7),
        ("foo\nbar\nbaz", 7),
        ("foo\nbar\nbaz\n", 7),
        ("\nfoo\nbar\nbaz", 4),
    ] {
        expect_end(&rt, text, end);
    }
}
