//! The line before a stream.

ghost use Rattle.std.specs.Prelude.{◌≡◌};
ghost use Rattle.unit_report.specs.Header.{bar_text, header_text, output_name_text};

use report_words::theme::ThemeCharacters;
use styled_text::style::Style;
use styled_text::text::{Painted, Toned};
use writers::text::WriteText;
use writers::write_str::{WriteFault, WriteStr};

/// What a header calls what follows it.
#[derive(Clone, Copy, Debug, PartialEq, Eq)]
pub enum OutputName {
    /// Standard output.
    Stdout,
    /// Standard error.
    Stderr,
    /// Both, captured together.
    Output,
    /// Why a process could not be started, after a finished unit.
    ExecFail,
    /// Errors in the response to a request for information.
    Errors,
}

impl OutputName {
    /// The name as the header shows it.
    ///
    /// ```
    /// assert_eq!(OutputName::Stdout.as_str(), "stdout");
    /// ```
    pub fn as_str(self) -> &'static str
        ensures { result.now ≡ output_name_text self }
    {
        match self {
            OutputName::Stdout => "stdout",
            OutputName::Stderr => "stderr",
            OutputName::Output => "output",
            OutputName::ExecFail => "execfail",
            OutputName::Errors => "errors",
        }
    }
}

/// The line before a stream, without its line feed.
///
/// ```
/// use styled_text::style::Style;
/// let header = OutputHeader::Label { style: Style::Plain, name: OutputName::Stdout };
/// header.write_to(&mut out)?;
/// assert_eq!(out.as_str(), "stdout:");
/// ```
#[derive(Clone, Copy, Debug, PartialEq, Eq)]
pub enum OutputHeader {
    /// The name between bars, as `  stdout ---`.
    Bars {
        /// The style of the bars and of the name.
        style: Style,
        /// The characters of the bars.
        theme_characters: ThemeCharacters,
        /// How many characters the bar on the left has, a space where it is absent.
        left: Option<usize>,
        /// The name.
        name: OutputName,
        /// How many characters the bar on the right has.
        right: usize,
    },
    /// The name and a colon, as `stdout:`.
    Label {
        /// The style of the name.
        style: Style,
        /// The name.
        name: OutputName,
    },
}

impl WriteText for OutputHeader {
    ghost text = { header_text };

    #[tactic(auto, unfolding(crate::specs::Header::header_text))]
    #[inline(always)]
    fn write_to<W: WriteStr>(&self, w: &mut W) -> Result<(), WriteFault> {
        match *self {
            OutputHeader::Bars {
                style,
                theme_characters,
                left,
                name,
                right,
            } => (
                Painted(style, Bar(theme_characters, left)),
                " ",
                Toned(style, name.as_str()),
                " ",
                Painted(style, Bar(theme_characters, Some(right))),
            )
                .write_to(w),
            OutputHeader::Label { style, name } => (Toned(style, name.as_str()), ":").write_to(w),
        }
    }
}

// A bar of the given number of characters, or a space.
#[derive(Clone, Copy)]
struct Bar(ThemeCharacters, Option<usize>);

impl WriteText for Bar {
    ghost text = { λ b. bar_text b.0 b.1 };

    #[inline(always)]
    fn write_to<W: WriteStr>(&self, w: &mut W) -> Result<(), WriteFault> {
        match *self {
            Bar(_, None) => w.write_str(" "),
            Bar(theme, Some(width)) => theme.write_hbar(w, width),
        }
    }
}
