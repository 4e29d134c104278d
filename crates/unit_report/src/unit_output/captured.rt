//! Captured output as a report shows it.
//!
//! Without colours the output's escape sequences are left out. With colours they stay, and a reset at the end keeps
//! them from going on after it. Nothing is copied: what is written are slices of the text.

ghost use Rattle.std.specs.Prelude.{◌≡◌, true, false, take, drop, MatchOption};
ghost use Rattle.{run_model.specs.Outputs.subslice_value, styled_text.specs.Names.highlight_end};
ghost use Rattle.{styled_text.specs.Names.Puts};
ghost use Rattle.unit_report.specs.Captured.{captured, coloured_output, highlight_stop, is_valid, highlight_value};
ghost use Rattle.unit_report.specs.Captured.{reset_output};

use super::highlighted_lines::write_highlighted_lines;
use run_model::output::ByteSubslice;
use styled_text::reporter_helpers::highlight_end;
use styled_text::stripped::write_stripped_text;
use styled_text::style::{RESET_COLOR, Style, Styles};
use styled_text::trailing_newline::split_trailing_newline;
use writers::text::WriteText;
use writers::write_str::{WriteFault, WriteStr};

/// A text with a part of it highlighted. A highlight that is not valid is left out.
#[derive(Clone, Copy)]
pub(super) struct Captured<'a> {
    pub styles: &'a Styles,
    pub text: &'a str,
    pub highlight: Option<ByteSubslice<'a>>,
}

impl WriteText for Captured<'_> {
    ghost text = { λ c. captured c.styles.now c.text.now (subslice_value c.highlight) };

    #[tactic(auto, unfolding(crate::specs::Captured::captured, crate::specs::Captured::plain_output))]
    fn write_to<W: WriteStr>(&self, w: &mut W) -> Result<(), WriteFault> {
        if self.styles.is_colorized {
            return write_coloured_output(w, self.styles.fail, self.text, self.highlight);
        }
        write_stripped_text(w, self.text)?;
        w.write_str("\n")
    }
}

#[tactic(auto, unfolding(crate::specs::Captured::coloured_output, crate::specs::Captured::highlighted_output))]
fn write_coloured_output<W: WriteStr>(
    w: &mut W,
    style: Style,
    text: &str,
    highlight: Option<ByteSubslice<'_>>,
) -> Result<(), WriteFault>
    ensures { Puts W.meaning w.old (coloured_output style text.now (subslice_value highlight.entry)) result w.new }
{
    let Some(highlight) = highlight else {
        return write_reset_output(w, text);
    };
    let Some((front, lit, back)) = split_highlight(text, highlight) else {
        return write_reset_output(w, text);
    };
    w.write_str(front)?;
    RESET_COLOR.write_to(w)?;
    write_highlighted_lines(w, style, lit)?;
    write_reset_output(w, back)
}

// Cuts a text before and after a highlight, if that is valid.
fn split_highlight<'a>(
    text: &'a str,
    highlight: ByteSubslice<'_>,
) -> Option<(&'a str, &'a str, &'a str)>
    ensures { MatchOption result (is_valid text.now (highlight_value highlight.entry) ≡ false)
        (λ x. (is_valid text.now (highlight_value highlight.entry) ≡ true)
        × (x.0.now ≡ take highlight.entry.start text.now)
        × (x.1.now ≡ take (highlight_end highlight.entry.slice.now) (drop highlight.entry.start text.now))
        × (x.2.now ≡ drop (highlight_stop (highlight_value highlight.entry)) text.now)) }
{
    let (front, from) = text.split_at_checked(highlight.start)?;
    if !from.as_bytes().starts_with(highlight.slice) {
        return None;
    }
    let (lit, back) = from.split_at_checked(highlight_end(highlight.slice))?;
    Some((front, lit, back))
}

// Writes a text and a reset, which comes before the line feed at the end of the text.
#[tactic(auto, unfolding(crate::specs::Captured::reset_output))]
fn write_reset_output<W: WriteStr>(w: &mut W, text: &str) -> Result<(), WriteFault>
    ensures { Puts W.meaning w.old (reset_output text.now) result w.new }
{
    let (body, _) = split_trailing_newline(text);
    w.write_str(body)?;
    w.write_str("\x1b[0m\n")
}
