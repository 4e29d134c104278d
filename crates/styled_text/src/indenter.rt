//! Indentation of each line of a text, as it is written.
//!
//! The main type is [`Indented`], which wraps a writer. It does not matter how a text is split into
//! calls.

ghost use Rattle.std.specs.Prelude.{◌≡◌, true, codes};
ghost use Rattle.styled_text.specs.Names.{option_map, indent};

use std::fmt;
use std::fmt::{Formatter, Write};

mod indentation;

pub use indentation::Indented;

/// Indents by four spaces, from the first line on.
///
/// ```
/// indented(&mut out).write_str("a\n\nb")?;
/// assert_eq!(out.as_str(), "    a\n\n    b");
/// ```
pub fn indented<W>(inner: &mut W) -> Indented<'_, W>
    ensures same { result.inner.ghost_name ≡ inner.entry.ghost_name }
    ensures now { result.inner.now ≡ inner.old }
    ensures first { result.needs_indent ≡ true }
    ensures spaces { result.indentation.now ≡ codes "    " }
{
    Indented {
        inner,
        needs_indent: true,
        indentation: "    ",
    }
}

/// An item whose lines are indented when it is displayed, such as an error of several lines.
///
/// ```
/// let shown = DisplayIndented { item: "a\nb", indent: "> " };
/// assert_eq!(shown.to_string(alloc)?.as_str(), "> a\n> b");
/// ```
#[derive(Clone, Copy, Debug, Drop)]
pub struct DisplayIndented<T> {
    /// What is displayed.
    pub item: T,
    /// The prefix of each line that is not empty.
    pub indent: &'static str,
}

impl<T: fmt::Display> fmt::Display for DisplayIndented<T> {
    ghost output = { λ d. option_map (indent d.indent.now true) (T.output d.item) };

    fn fmt<W: fmt::Write>(&self, f: &mut Formatter<W>) -> fmt::Result {
        let mut out = indented(f).with_str(self.indent);
        let result = out.write(&self.item);
        let back = out.into_inner();
        let _ = &*back;
        result
    }
}
