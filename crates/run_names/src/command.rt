//! The commands that a run starts.

ghost use Rattle.std.specs.Prelude.{◌≡◌, ◌∷◌, ◌++◌, [], IfOk, OnErr, OnOk, map, string_bytes};
ghost use Rattle.std.specs.Iterator.{YieldsFirstRef, item_count};

use crate::memory::OutOfMemory;
use std::alloc::Global;
use std::marker::Model;

/// The words of a command, or the arguments of one, in one memory. Contracts see them as a list of texts.
///
/// ```
/// let command = CommandLine::from_words(alloc, &["cargo", "build", "--release"])?;
/// assert_eq!(command.words().len(), 3);
/// assert_eq!(command.words().next(), Some("cargo"));
/// ```
#[derive(Debug, Drop)]
pub struct CommandLine {
    // The words, one after another.
    text: String,
    // How many bytes each has.
    lens: Vec<usize>,
}

impl Model for CommandLine {
    ghost use Rattle.std.specs.Prelude.{List, ℕ, string_bytes};
    ghost use Rattle.run_names.specs.Commands.{AreParts, parts_of};

    ghost Value = { List (List ℕ) };

    ghost view = { λ command. parts_of command.lens.items (string_bytes command.text) };

    ghost invariant = { λ command. AreParts command.lens.items (string_bytes command.text) };
}

impl CommandLine {
    /// A command without words, which holds no memory.
    pub fn new(alloc: Global) -> Self
        ensures { result ≡ [] }
    {
        CommandLine {
            text: String::new(alloc),
            lens: Vec::new(alloc),
        }
    }

    /// A command without words, with room for texts of that many bytes.
    ///
    /// # Errors
    ///
    /// Memory was refused.
    pub fn with_capacity(alloc: Global, len: usize) -> Result<Self, OutOfMemory>
        ensures { IfOk result (λ command. command ≡ []) }
    {
        Ok(CommandLine {
            text: String::with_capacity(alloc, len)?,
            lens: Vec::new(alloc),
        })
    }

    /// A command of these words, which it copies.
    ///
    /// # Errors
    ///
    /// Memory was refused.
    pub fn from_words(alloc: Global, words: &[&str]) -> Result<Self, OutOfMemory>
        ensures { IfOk result (λ command. command ≡ map (λ word. word.now) words.now) }
    {
        let mut command = CommandLine::new(alloc);
        for word in words {
            command.push(word)?;
        }
        Ok(command)
    }

    /// A command of these words, which it copies.
    ///
    /// # Errors
    ///
    /// Memory was refused.
    pub fn from_strings(alloc: Global, words: &[String]) -> Result<Self, OutOfMemory>
        ensures { IfOk result (λ command. command ≡ map string_bytes words.now) }
    {
        let mut command = CommandLine::new(alloc);
        for word in words {
            command.push(word.as_str())?;
        }
        Ok(command)
    }

    /// A copy of its words.
    ///
    /// # Errors
    ///
    /// Memory was refused.
    pub fn to_strings(&self, alloc: Global) -> Result<Vec<String>, OutOfMemory>
        ensures { IfOk result (λ words. map string_bytes words.items ≡ self.now) }
    {
        let mut owned = Vec::with_capacity(alloc, self.lens.len())?;
        for word in self.words() {
            owned.push(String::from_str(alloc, word)?)?;
        }
        Ok(owned)
    }

    /// Adds a word, which it copies.
    ///
    /// # Errors
    ///
    /// Memory was refused. The words are then as before.
    pub fn push(&mut self, word: &str) -> Result<(), OutOfMemory>
        ensures pushed { OnOk result (self.new ≡ self.old ++ word.now ∷ []) }
        ensures kept { OnErr result (self.new ≡ self.old) }
    {
        self.lens.reserve(1)?;
        self.text.push_str(word)?;
        self.lens.push(word.len())?;
        Ok(())
    }

    /// Its words.
    pub fn words(&self) -> Words<'_>
        ensures { result ≡ self.now }
    {
        Words {
            text: self.text.as_str(),
            lens: self.lens.as_slice(),
        }
    }
}

/// The words of a command that are left.
#[derive(Debug, Drop)]
pub struct Words<'a> {
    text: &'a str,
    lens: &'a [usize],
}

impl<'a> Model for Words<'a> {
    ghost use Rattle.std.specs.Prelude.{List, ℕ};
    ghost use Rattle.run_names.specs.Commands.{AreParts, parts_of};

    ghost Value = { List (List ℕ) };

    ghost view = { λ words. parts_of words.lens.now words.text.now };

    ghost invariant = { λ words. AreParts words.lens.now words.text.now };
}

impl<'a> Iterator for Words<'a> {
    type Item = &'a str;

    ghost next_gives = { YieldsFirstRef (λ rest. rest) };

    ghost remaining = { item_count (λ rest. rest) };

    fn next(&mut self) -> Option<&'a str> {
        let (len, lens) = self.lens.split_first()?;
        let (word, text) = self.text.split_at(*len);
        *self = Words { text, lens };
        Some(word)
    }

    #[tactic(auto, using(crate::proofs::lemmas::Parts::part_count))]
    fn size_hint(&self) -> (usize, Option<usize>) {
        (self.lens.len(), Some(self.lens.len()))
    }
}

impl<'a> ExactSizeIterator for Words<'a> {
    #[tactic(auto, using(crate::proofs::lemmas::Parts::part_count))]
    fn len(&self) -> usize {
        self.lens.len()
    }
}
