//! Indented texts: whole, character by character, and in two levels.

use crate::testing::expect_text;
use std::test::Fail;
use styled_text::indenter::{DisplayIndented, indented};
use writers::write_str::{WriteFault, WriteStr};

// Writes a text indented, character by character.
fn write_by_characters<W: WriteStr>(w: &mut W, text: &str) -> Result<(), WriteFault> {
    let mut out = indented(w);
    for c in text.chars() {
        out.write_char(c)?;
    }
    Ok(())
}

// Writes these pieces with two levels of indentation. The outer level begins within its first line.
fn write_in_two_levels<W: WriteStr>(w: &mut W, pieces: &[&str]) -> Result<(), WriteFault> {
    let mut outer = indented(w).skip_initial();
    let mut inner = indented(&mut outer).with_str("> ");
    for piece in pieces {
        inner.write_str(piece)?;
    }
    Ok(())
}

#[test]
fn indents(rt: HostRuntime) -> Result<(), Fail> {
    for (text, want) in [
        ("ac\n\nb", "    ac\n\n    b"),
        ("\r\n", "    \r\n"),
        ("\x1b[1m\x1b[0m\nx\n", "    \x1b[1m\x1b[0m\n    x\n"),
        ("\n", "\n"),
        ("", ""),
    ] {
        let mut whole = String::new(rt.alloc());
        indented(&mut whole).write_str(text)?;
        expect_text(&rt, whole.as_str(), want);
        let mut pieces = String::new(rt.alloc());
        write_by_characters(&mut pieces, text)?;
        expect_text(&rt, pieces.as_str(), want);
    }
    let mut two_levels = String::new(rt.alloc());
    write_in_two_levels(&mut two_levels, &["a\n\nb", "c\n"])?;
    expect_text(&rt, two_levels.as_str(), "> a\n\n    > bc\n");
    Ok(())
}

#[test]
fn displays_indented(rt: HostRuntime) -> Result<(), Fail> {
    let shown = DisplayIndented {
        item: "one\n\ntwo\n",
        indent: "  ",
    };
    let shown = format!(in rt.alloc(); "{shown}")?;
    expect_text(&rt, shown.as_str(), "  one\n\n  two\n");
    Ok(())
}
