//! What begins and what ends a style, for formatting.

ghost use Rattle.{std.specs.Prelude.Some, styled_text.specs.Style.style_prefix, styled_text.specs.Style.style_suffix};

use std::fmt;
use std::fmt::Formatter;
use styled_text::style::Style;

/// Displays the prefix of a style: ESC `[` code `m`, or nothing.
///
/// ```
/// use styled_text::style::Style;
/// assert_eq!(FmtPrefix(Style::BoldRed).to_string(alloc)?.as_str(), "\x1b[31;1m");
/// ```
#[derive(Clone, Copy, Debug, PartialEq, Eq)]
pub struct FmtPrefix(pub Style);

impl fmt::Display for FmtPrefix {
    ghost output = { λ p. Some (style_prefix p.0) };

    fn fmt<W: fmt::Write>(&self, f: &mut Formatter<W>) -> fmt::Result {
        f.write_str(self.0.prefix())
    }
}

/// Displays the suffix of a style: ESC `[0m`, or nothing.
///
/// ```
/// use styled_text::style::Style;
/// assert_eq!(FmtSuffix(Style::BoldRed).to_string(alloc)?.as_str(), "\x1b[0m");
/// ```
#[derive(Clone, Copy, Debug, PartialEq, Eq)]
pub struct FmtSuffix(pub Style);

impl fmt::Display for FmtSuffix {
    ghost output = { λ s. Some (style_suffix s.0) };

    fn fmt<W: fmt::Write>(&self, f: &mut Formatter<W>) -> fmt::Result {
        f.write_str(self.0.suffix())
    }
}
