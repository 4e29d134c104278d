//! The characters of bars and trees, in Unicode if the terminal has it, else in ASCII.

ghost use Rattle.std.specs.Prelude.{◌≡◌, IfOk, codes, string_bytes, true};
ghost use Rattle.report_words.specs.Theme.{hbar_character, hbar_text, progress_text, tree_branch_text};
ghost use Rattle.report_words.specs.Theme.{tree_continuation_text, tree_last_text};
ghost use Rattle.writers.specs.Writer.{Puts};

use run_names::memory::OutOfMemory;
use std::alloc::Global;
use styled_text::repeated::write_repeated;
use writers::write_str::{WriteFault, WriteStr};

/// The characters of bars and trees. By default they are ASCII.
///
/// ```
/// let mut theme = ThemeCharacters::default();
/// assert_eq!(theme.tree_branch(), "|-");
/// theme.use_unicode();
/// assert_eq!(theme.tree_branch(), "├─");
/// ```
#[derive(Clone, Copy, Debug, Default, PartialEq, Eq)]
pub struct ThemeCharacters {
    is_unicode: bool,
}

impl ThemeCharacters {
    /// Changes to Unicode.
    pub fn use_unicode(&mut self)
        ensures { self.new.is_unicode ≡ true }
    {
        self.is_unicode = true;
    }

    /// The character of a bar: `─` or `-`.
    pub fn hbar_char(&self) -> char
        ensures { result ≡ hbar_character self.now.is_unicode }
    {
        if self.is_unicode { '─' } else { '-' }
    }

    /// A bar of the given number of characters.
    ///
    /// ```
    /// assert_eq!(ThemeCharacters::default().hbar(alloc, 4)?.as_str(), "----");
    /// ```
    ///
    /// # Errors
    ///
    /// Memory was refused. [`ThemeCharacters::write_hbar`] writes the bar without allocating.
    pub fn hbar(&self, alloc: Global, width: usize) -> Result<String, OutOfMemory>
        ensures { IfOk result (λ bar. string_bytes bar ≡ hbar_text self.now.is_unicode width) }
    {
        let mut bar = String::new(alloc);
        match self.write_hbar(&mut bar, width) {
            Ok(()) => Ok(bar),
            Err(_) => Err(OutOfMemory),
        }
    }

    /// Writes a bar of the given number of characters.
    ///
    /// ```
    /// ThemeCharacters::default().write_hbar(&mut out, 3)?;
    /// assert_eq!(out.as_str(), "---");
    /// ```
    ///
    /// # Errors
    ///
    /// The writer's fault. It has accepted a prefix of the text.
    #[tactic(auto, unfolding(crate::specs::Theme::hbar_text))]
    pub fn write_hbar<W: WriteStr>(&self, w: &mut W, width: usize) -> Result<(), WriteFault>
        ensures { Puts W.meaning w.old (hbar_text self.now.is_unicode width) result w.new }
    {
        // The bars of headers have three characters.
        if width == 3 {
            return w.write_str(self.short_bar());
        }
        write_repeated(w, width, self.hbar_char())
    }

    #[tactic(auto, unfolding(crate::specs::Theme::hbar_text))]
    fn short_bar(&self) -> &'static str
        ensures { result.now ≡ hbar_text self.now.is_unicode 3 }
    {
        if self.is_unicode { "───" } else { "---" }
    }

    /// The characters of a progress bar, from done to not begun: `█▉▊▋▌▍▎▏ ` or `=> `.
    ///
    /// ```
    /// assert_eq!(ThemeCharacters::default().progress_chars(), "=> ");
    /// ```
    pub fn progress_chars(&self) -> &'static str
        ensures { result.now ≡ progress_text self.now.is_unicode }
    {
        if self.is_unicode { "█▉▊▋▌▍▎▏ " } else { "=> " }
    }

    /// The branch to a child that is not the last one: `├─` or `|-`.
    pub fn tree_branch(&self) -> &'static str
        ensures { result.now ≡ tree_branch_text self.now.is_unicode }
    {
        if self.is_unicode { "├─" } else { "|-" }
    }

    /// The branch to the last child: `└─` or `\-`.
    pub fn tree_last(&self) -> &'static str
        ensures { result.now ≡ tree_last_text self.now.is_unicode }
    {
        if self.is_unicode { "└─" } else { "\\-" }
    }

    /// The line below a child that is not the last one: `│ ` or `| `.
    pub fn tree_continuation(&self) -> &'static str
        ensures { result.now ≡ tree_continuation_text self.now.is_unicode }
    {
        if self.is_unicode { "│ " } else { "| " }
    }

    /// The space below the last child: two spaces.
    pub fn tree_space(&self) -> &'static str
        ensures { result.now ≡ codes "  " }
    {
        "  "
    }
}
