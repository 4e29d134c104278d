//! The prefix that distinguishes a run's id from those of other runs.

ghost use Rattle.std.specs.Prelude.{◌≡◌, IfOk};
ghost use Rattle.run_names.specs.UniquePrefixes.{UniquePrefix};

use crate::memory::OutOfMemory;
use std::alloc::Global;
use std::marker::Model;

/// The shortest part of a run's id that no other recorded run has, and the rest of the id.
///
/// ```
/// let id = ShortestRunIdPrefix::new(alloc, "4f", "000000-0000-4000-8000-000000000001")?;
/// assert_eq!(id.prefix(), "4f");
/// ```
#[derive(Debug, Drop)]
pub struct ShortestRunIdPrefix {
    prefix: String,
    rest: String,
}

impl Model for ShortestRunIdPrefix {
    ghost use Rattle.{std.specs.Prelude.string_bytes, run_names.specs.UniquePrefixes.UniquePrefix};

    ghost Value = { UniquePrefix };

    ghost view = { λ p. record { prefix = string_bytes p.prefix; rest = string_bytes p.rest } };
}

impl ShortestRunIdPrefix {
    /// Copies the texts.
    ///
    /// ```
    /// let id = ShortestRunIdPrefix::new(alloc, "01", "890a5d")?;
    /// assert_eq!((id.prefix(), id.rest()), ("01", "890a5d"));
    /// ```
    ///
    /// # Errors
    ///
    /// Memory was refused.
    pub fn new(alloc: Global, prefix: &str, rest: &str) -> Result<Self, OutOfMemory>
        ensures prefix { IfOk result (λ p. p.prefix ≡ prefix.now) }
        ensures rest { IfOk result (λ p. p.rest ≡ rest.now) }
    {
        Ok(ShortestRunIdPrefix {
            prefix: String::from_str(alloc, prefix)?,
            rest: String::from_str(alloc, rest)?,
        })
    }

    /// The part that no other run has.
    pub fn prefix(&self) -> &str
        ensures { result.now ≡ self.now.prefix }
    {
        self.prefix.as_str()
    }

    /// What follows it.
    pub fn rest(&self) -> &str
        ensures { result.now ≡ self.now.rest }
    {
        self.rest.as_str()
    }

    /// A copy, which allocates.
    ///
    /// # Errors
    ///
    /// Memory was refused.
    pub fn try_clone(&self, alloc: Global) -> Result<Self, OutOfMemory>
        ensures { IfOk result (λ p. p ≡ self.now) }
    {
        ShortestRunIdPrefix::new(alloc, self.prefix(), self.rest())
    }
}
