//! Words between quotes, as a shell reads them or as a message shows them.

ghost use Rattle.std.specs.Prelude.{◌≡◌, ◌∷◌, ◌++◌, ◌<◌, IfOk, IfSome, MatchOption, codes, length};
ghost use Rattle.std.specs.Prelude.{string_bytes};
ghost use Rattle.styled_text.specs.Names.{flat_map, option_map, Puts};
ghost use Rattle.report_text.specs.Quoting.{in_single_quotes, is_unquoted, is_unquoted_byte, quoted_text, shell_word};
ghost use Rattle.report_text.specs.Quoting.{shell_words};

use run_names::command::{CommandLine, Words};
use run_names::memory::OutOfMemory;
use std::alloc::Global;
use std::fmt;
use std::fmt::Formatter;
use writers::write_str::{WriteFault, WriteStr, write_strs};

/// The words as a shell reads them, separated by single spaces.
///
/// ```
/// let command = CommandLine::from_words(alloc, &["cargo", "", "it's", "a=b"])?;
/// let joined = shell_join(alloc, &command)?;
/// assert_eq!(joined.as_str(), r"cargo '' 'it'\''s' a=b");
/// ```
///
/// # Errors
///
/// Memory was refused. [`write_shell_words`] writes the same without allocating.
pub fn shell_join(alloc: Global, command: &CommandLine) -> Result<String, OutOfMemory>
    ensures { IfOk result (λ joined. string_bytes joined ≡ shell_words command.now) }
{
    let mut joined = String::new(alloc);
    match write_shell_words(&mut joined, command) {
        Ok(()) => Ok(joined),
        Err(_) => Err(OutOfMemory),
    }
}

/// Writes the words of a command as a shell reads them, separated by single spaces.
///
/// ```
/// write_shell_words(&mut out, &CommandLine::from_words(alloc, &["echo", "a b"])?)?;
/// assert_eq!(out.as_str(), "echo 'a b'");
/// ```
///
/// # Errors
///
/// The writer's fault. It has accepted a prefix of the text.
#[tactic(auto, unfolding(crate::specs::Quoting::shell_words))]
pub fn write_shell_words<W: WriteStr>(w: &mut W, command: &CommandLine) -> Result<(), WriteFault>
    ensures { Puts W.meaning w.old (shell_words command.now) result w.new }
{
    let mut words = command.words();
    match words.next() {
        None => Ok(()),
        Some(word) => {
            write_shell_word(w, word)?;
            write_words_after(w, " ", words)
        }
    }
}

/// Writes a program and its arguments as a shell reads them, separated by single spaces.
///
/// ```
/// write_shell_command(&mut out, "echo", &CommandLine::from_words(alloc, &["a b"])?)?;
/// assert_eq!(out.as_str(), "echo 'a b'");
/// ```
///
/// # Errors
///
/// The writer's fault. It has accepted a prefix of the text.
#[tactic(auto, unfolding(crate::specs::Quoting::shell_words))]
pub fn write_shell_command<W: WriteStr>(
    w: &mut W,
    program: &str,
    args: &CommandLine,
) -> Result<(), WriteFault>
    ensures { Puts W.meaning w.old (shell_words (program.now ∷ args.now)) result w.new }
{
    write_shell_word(w, program)?;
    write_words_after(w, " ", args.words())
}

fn write_words_after<W: WriteStr>(
    w: &mut W,
    separator: &str,
    words: Words<'_>,
) -> Result<(), WriteFault>
    ensures { Puts W.meaning w.old (flat_map (λ word. separator.now ++ shell_word word) words.entry) result w.new }
{
    for word in words {
        write_word_after(w, separator, word)?;
    }
    Ok(())
}

fn write_word_after<W: WriteStr>(w: &mut W, separator: &str, word: &str) -> Result<(), WriteFault>
    ensures { Puts W.meaning w.old (separator.now ++ shell_word word.now) result w.new }
{
    w.write_str(separator)?;
    write_shell_word(w, word)
}

/// Writes a word as a shell reads it.
///
/// A word of ASCII letters, digits and `_-=/,.+:@` is not quoted. Every other one is in single quotes, also the
/// empty word, and a quote in it is written `'\''`.
///
/// ```
/// write_shell_word(&mut out, "it's")?;
/// assert_eq!(out.as_str(), r"'it'\''s'");
/// ```
///
/// # Errors
///
/// The writer's fault. It has accepted a prefix of the text.
#[tactic(auto, unfolding(crate::specs::Quoting::shell_word))]
pub fn write_shell_word<W: WriteStr>(w: &mut W, word: &str) -> Result<(), WriteFault>
    ensures { Puts W.meaning w.old (shell_word word.now) result w.new }
{
    if is_unquoted(word) {
        return w.write_str(word);
    }
    write_between_quotes(w, "'", word)
}

fn write_between_quotes<W: WriteStr>(w: &mut W, quote: &str, word: &str) -> Result<(), WriteFault>
    ensures { Puts W.meaning w.old (quote.now ++ (quoted_text word.now ++ quote.now)) result w.new }
{
    w.write_str(quote)?;
    write_quoted(w, word)?;
    w.write_str(quote)
}

fn is_unquoted(word: &str) -> bool
    ensures { result ≡ is_unquoted word.now }
{
    !word.is_empty() && word.as_bytes().iter().all(|byte| is_unquoted_byte(*byte))
}

fn is_unquoted_byte(byte: u8) -> bool
    ensures { result ≡ is_unquoted_byte byte }
{
    byte.is_ascii_alphanumeric() || b"_-=/,.+:@".contains(&byte)
}

fn write_quoted<W: WriteStr>(w: &mut W, text: &str) -> Result<(), WriteFault>
    ensures { Puts W.meaning w.old (quoted_text text.now) result w.new }
{
    let mut rest = text;
    while let Some((front, after)) = split_quote(rest) {
        write_strs(w, &[front, "'\\''"])?;
        rest = after;
    }
    w.write_str(rest)
}

fn split_quote(text: &str) -> Option<(&str, &str)>
    ensures parts { MatchOption result (quoted_text text.now ≡ text.now)
        (λ parts. quoted_text text.now ≡ (parts.0.now ++ codes "'\\''") ++ quoted_text parts.1.now) }
    ensures shorter { IfSome result (λ parts. length parts.1.now < length text.now) }
{
    text.split_once('\'')
}

/// A value between single quotes, which are not escaped in it.
///
/// ```
/// assert_eq!(QuotedDisplay(&"s1").to_string(alloc)?.as_str(), "'s1'");
/// ```
#[derive(Clone, Copy, Debug)]
pub struct QuotedDisplay<'a, T>(pub &'a T);

impl<T: fmt::Display> fmt::Display for QuotedDisplay<'_, T> {
    ghost output = { λ quoted. option_map in_single_quotes (T.output quoted.0.now) };

    fn fmt<W: fmt::Write>(&self, f: &mut Formatter<W>) -> fmt::Result {
        f.write_str("'")?;
        fmt::Display::fmt(self.0, f)?;
        f.write_str("'")
    }
}
