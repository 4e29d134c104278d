//! Texts without their sequences, and line feeds at the end of a piece.

use crate::testing::expect_text;
use std::test::Fail;
use styled_text::stripped::write_stripped_text;
use styled_text::trailing_newline::TrailingNewline;
use writers::write_str::{WriteFault, WriteStr};

// Writes the pieces without the line feed that closes them.
fn write_without_trailing_newline<W: WriteStr>(
    w: &mut W,
    pieces: &[&str],
) -> Result<(), WriteFault> {
    let mut trailing_newline = TrailingNewline::new();
    for piece in pieces {
        trailing_newline.write(w, piece)?;
    }
    Ok(())
}

// Two pieces of a text, the text without sequences, and the text without the closing line feed alone.
const PIECES: &[(&str, &str, &str, &str)] = &[
    ("a\n\x1b[0m", "", "a", "a\n\x1b[0m"),
    ("\x1b]8;;", "x\u{7}b\n", "b", "\x1b]8;;x\u{7}b"),
    ("a\n", "\n", "a\n", "a\n"),
    ("\x1b", "[31mq", "q", "\x1b[31mq"),
    ("é\x1b]0;\x1b", "\\日", "é日", "é\x1b]0;\x1b\\日"),
    ("a\x1b[3", "\nb", "a\nb", "a\x1b[3\nb"),
    ("a\n", "", "a", "a"),
    ("a\n", "b", "a\nb", "a\nb"),
    ("\n", "", "", ""),
    ("", "", "", ""),
    ("\x1b[0m\r", "\n", "\r", "\x1b[0m\r"),
];

#[test]
fn pieces_are_written_as_one_text(rt: HostRuntime) -> Result<(), Fail> {
    for &(first, second, stripped, held_back) in PIECES {
        let mut written = String::new(rt.alloc());
        write_stripped_text(&mut written, [first, second].join(rt.alloc(), "")?.as_str())?;
        expect_text(&rt, written.as_str(), stripped);
        let mut written = String::new(rt.alloc());
        write_without_trailing_newline(&mut written, &[first, second])?;
        expect_text(&rt, written.as_str(), held_back);
    }
    let mut written = String::new(rt.alloc());
    write_stripped_text(&mut written, "")?;
    expect_text(&rt, written.as_str(), "");
    Ok(())
}
