//! The bar that separates the sections of a report.

ghost use Rattle.std.specs.Prelude.{◌++◌, codes};
ghost use Rattle.{styled_text.specs.Style.plain, report_words.specs.Theme.hbar_text};

use report_text::helpers::ThemeCharacters;
use writers::text::WriteText;
use writers::write_str::{WriteFault, WriteStr};

/// The line of a bar of twelve characters.
///
/// ```
/// BarLine(settings.theme_characters).write_to(&mut out)?;
/// assert_eq!(out.as_str(), "------------\n");
/// ```
#[derive(Clone, Copy)]
pub struct BarLine(pub ThemeCharacters);

impl WriteText for BarLine {
    ghost text = { λ b. hbar_text b.0.is_unicode 12 ++ plain (codes "\n") };

    fn write_to<W: WriteStr>(&self, w: &mut W) -> Result<(), WriteFault> {
        self.0.write_hbar(w, 12)?;
        "\n".write_to(w)
    }
}
