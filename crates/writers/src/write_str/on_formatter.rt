//! A formatter as a writer, so that `Display` and a report have one text.

ghost use Rattle.std.specs.Prelude.{◌≡◌};
ghost use Rattle.writers.specs.OnFormatter.{formatter_meaning};
ghost use Rattle.writers.specs.OnFormatterLaws.{formatter_laws};

use super::{WriteFault, WriteStr};
use std::fmt;
use std::fmt::Formatter;

/// Shows in a formatter what a value's `write_to` writes: the body of its `Display`.
///
/// ```
/// use writers::show_written;
/// use std::fmt::{self, Formatter};
/// # struct Word;
/// # impl Word {
/// #     fn write_to<W: WriteStr>(&self, w: &mut W) -> Result<(), WriteFault> {
/// #         w.write_str("word")
/// #     }
/// # }
/// impl fmt::Display for Word {
///     fn fmt<W: fmt::Write>(&self, f: &mut Formatter<W>) -> fmt::Result {
///         show_written!(self, f)
///     }
/// }
/// assert_eq!(Word.to_string(alloc)?.as_str(), "word");
/// ```
#[macro_export]
macro_rules! show_written {
    ($value:expr, $formatter:expr) => {{
        let mut out = $crate::write_str::OnFormatter::new($formatter);
        let result = $value.write_to(&mut out);
        // The formatter is returned, so that what it shows is known.
        let back = out.into_inner();
        let _ = &*back;
        match result {
            Ok(()) => Ok(()),
            Err(_) => Err(std::fmt::Error),
        }
    }};
}

/// A formatter, as a writer: what a text function writes to it is what `Display` shows.
#[derive(Drop)]
pub struct OnFormatter<'a, W> {
    formatter: &'a mut Formatter<W>,
    failures: u64,
}

impl<'a, W> OnFormatter<'a, W> {
    /// Borrows the formatter.
    pub fn new(formatter: &'a mut Formatter<W>) -> OnFormatter<'a, W>
        ensures same { result.formatter.ghost_name ≡ formatter.entry.ghost_name }
        ensures now { result.formatter.now ≡ formatter.old }
    {
        OnFormatter {
            formatter,
            failures: 0,
        }
    }

    /// Returns the formatter.
    pub fn into_inner(self) -> &'a mut Formatter<W>
        ensures now { result.now ≡ self.entry.formatter.now }
        ensures same { result.ghost_name ≡ self.entry.formatter.ghost_name }
    {
        self.formatter
    }
}

impl<W: fmt::Write> WriteStr for OnFormatter<'_, W> {
    ghost meaning = { formatter_meaning W.write_str_gives };

    ghost laws = { formatter_laws W.write_str_gives };

    fn write_str(&mut self, s: &str) -> Result<(), WriteFault> {
        match self.formatter.write_str(s) {
            Ok(()) => Ok(()),
            Err(_) => {
                self.failures = self.failures.wrapping_add(1);
                Err(WriteFault::Device)
            }
        }
    }

    fn write_str_flush(&mut self) -> Result<(), WriteFault> {
        self.failures = self.failures.wrapping_add(1);
        Err(WriteFault::Device)
    }
}
