//! How a process was ended from outside.

ghost use Rattle.std.specs.Prelude.{◌≡◌, IfOk, IsOk, false, nat_eq};
ghost use Rattle.std.specs.{Cmp.partial_equiv_from_equiv, Option.is_some, Cmp.Lexicographic.pointwise};
ghost use Rattle.std.specs.{Cmp.Lexicographic.nat_list_eq_equiv};
ghost use Rattle.run_names.specs.Aborts.{abort_has_text};

use crate::memory::OutOfMemory;
use std::alloc::Global;
use std::marker::Model;

/// How a process was ended from outside.
///
/// ```
/// let name = Some(DescriptionText::new(alloc, "SEGV")?);
/// let abort = AbortDescription::UnixSignal { signal: 11, name };
/// ```
#[derive(Debug, Drop, PartialEq, Eq)]
pub enum AbortDescription {
    /// By a signal, on Unix.
    UnixSignal {
        /// The signal's number.
        signal: i32,
        /// Its name without the prefix `SIG`, if it is known.
        name: Option<DescriptionText>,
    },
    /// By an NT status that reports a fault, on Windows.
    WindowsNtStatus {
        /// The status.
        code: i32,
        /// The system's message for it, if it is known.
        message: Option<DescriptionText>,
    },
    /// Together with its job object, on Windows.
    WindowsJobObject,
}

impl AbortDescription {
    /// A copy, which allocates only if there is a text.
    ///
    /// ```
    /// let abort = AbortDescription::UnixSignal { signal: 6, name: None };
    /// assert_eq!(abort.try_clone(alloc)?, abort);
    /// ```
    ///
    /// # Errors
    ///
    /// Memory was refused. Without text there is no error.
    pub fn try_clone(&self, alloc: Global) -> Result<Self, OutOfMemory>
        ensures same { IfOk result (λ a. a ≡ self.now) }
        ensures free { abort_has_text self.now ≡ false → IsOk result }
    {
        Ok(match self {
            AbortDescription::UnixSignal { signal, name } => AbortDescription::UnixSignal {
                signal: *signal,
                name: copy_text(alloc, name)?,
            },
            AbortDescription::WindowsNtStatus { code, message } =>
                AbortDescription::WindowsNtStatus {
                    code: *code,
                    message: copy_text(alloc, message)?,
                },
            AbortDescription::WindowsJobObject => AbortDescription::WindowsJobObject,
        })
    }
}

// A copy of the text, if there is one, which allocates.
fn copy_text(
    alloc: Global,
    text: &Option<DescriptionText>,
) -> Result<Option<DescriptionText>, OutOfMemory>
    ensures same { IfOk result (λ t. t ≡ text.now) }
    ensures free { is_some text.now ≡ false → IsOk result }
{
    match text {
        Some(text) => Ok(Some(text.try_clone(alloc)?)),
        None => Ok(None),
    }
}

/// A text of a description, which contracts see as its bytes.
///
/// ```
/// let text = DescriptionText::new(alloc, "no such file")?;
/// assert_eq!(text.as_str(), "no such file");
/// ```
#[derive(Debug, Drop)]
pub struct DescriptionText {
    text: String,
}

impl Model for DescriptionText {
    ghost use Rattle.std.specs.Prelude.{List, ℕ, string_bytes};

    ghost Value = { List ℕ };

    ghost view = { λ description. string_bytes description.text };
}

impl DescriptionText {
    /// Copies the text.
    ///
    /// # Errors
    ///
    /// Memory was refused.
    pub fn new(alloc: Global, text: &str) -> Result<Self, OutOfMemory>
        ensures { IfOk result (λ description. description ≡ text.now) }
    {
        Ok(DescriptionText {
            text: String::from_str(alloc, text)?,
        })
    }

    /// The text.
    pub fn as_str(&self) -> &str
        ensures { result.now ≡ self.now }
    {
        self.text.as_str()
    }

    /// A copy, which allocates.
    ///
    /// # Errors
    ///
    /// Memory was refused.
    pub fn try_clone(&self, alloc: Global) -> Result<Self, OutOfMemory>
        ensures { IfOk result (λ description. description ≡ self.now) }
    {
        DescriptionText::new(alloc, self.as_str())
    }
}

impl PartialEq for DescriptionText {
    ghost eq = { pointwise nat_eq };

    ghost laws = { partial_equiv_from_equiv nat_list_eq_equiv };

    fn eq(&self, other: &Self) -> bool {
        self.as_str() == other.as_str()
    }
}

impl Eq for DescriptionText {
    ghost laws = { nat_list_eq_equiv };
}
