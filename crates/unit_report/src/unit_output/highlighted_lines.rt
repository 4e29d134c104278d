//! The lines of a highlight. Each is styled separately, since some viewers end a style with the line.

ghost use Rattle.std.specs.Prelude.{◌≡◌, take, drop};
ghost use Rattle.unit_report.specs.HighlightedLines.{body_len, closes_line, highlighted_line, highlighted_lines};
ghost use Rattle.writers.specs.Writer.{Puts};

use styled_text::escapes::write_stripped;
use styled_text::lines::split_line;
use styled_text::style::Style;
use writers::write_str::{WriteFault, WriteStr};

/// Writes a text line by line in this style, without its escape sequences.
pub(super) fn write_highlighted_lines<W: WriteStr>(
    w: &mut W,
    style: Style,
    text: &str,
) -> Result<(), WriteFault>
    ensures { Puts W.meaning w.old (highlighted_lines style text.now) result w.new }
{
    let mut rest = text;
    while !rest.is_empty() {
        let (line, after) = split_line(rest);
        write_highlighted_line(w, style, line)?;
        rest = after;
    }
    Ok(())
}

// Writes a line in this style. The line feeds and carriage returns at its end come after the suffix of the style.
#[tactic(auto, unfolding(crate::specs::HighlightedLines::highlighted_line))]
fn write_highlighted_line<W: WriteStr>(
    w: &mut W,
    style: Style,
    line: &str,
) -> Result<(), WriteFault>
    ensures { Puts W.meaning w.old (highlighted_line style line.now) result w.new }
{
    let (body, line_end) = split_body(line);
    w.write_str(style.prefix())?;
    write_stripped(w, body)?;
    w.write_str(style.suffix())?;
    w.write_str(line_end)
}

fn split_body(line: &str) -> (&str, &str)
    ensures body { result.0.now ≡ take (body_len line.now) line.now }
    ensures end { result.1.now ≡ drop (body_len line.now) line.now }
{
    line.split_at(body_len(line.as_bytes()))
}

fn body_len(line: &[u8]) -> usize
    ensures { result ≡ body_len line.now }
{
    let mut len = line.len();
    while len > 0 && closes_line(line[len - 1]) {
        len -= 1;
    }
    len
}

fn closes_line(byte: u8) -> bool
    ensures { result ≡ closes_line byte }
{
    byte == b'\n' || byte == b'\r'
}
