//! Lists of words, which a scene writes with `\,` between them.
//!
//! A word is a text. A comma without a backslash is part of a word, and the empty field is one empty word.

ghost use Rattle.std.specs.Prelude.{◌≡◌, ◌∷◌, ◌++◌, [], string_bytes, IfOk, OnOk};
ghost use Rattle.scene_fields.specs.Lists.{chain_in, instances_in, words_of};

use super::split::split_at_byte;
use super::texts::push_stretch;
use run_model::abort::DescriptionText;
use run_model::command::CommandLine;
use run_model::memory::OutOfMemory;
use run_model::name::{OwnedTestInstanceId, RustBinaryId, TestCaseName};
use run_model::not_seen::TestInstanceList;
use run_model::output::ErrorChain;
use std::alloc::Global;

/// Reads the words of a command. `None` means a bad field.
///
/// ```
/// let command = read_command_line(alloc, r"cargo\,nextest")?;
/// assert_eq!(command.map(|command| command.words().len()), Some(2));
/// ```
///
/// # Errors
///
/// Memory was refused. A bad field is no error but `None`.
pub fn read_command_line(alloc: Global, field: &str) -> Result<Option<CommandLine>, OutOfMemory>
    ensures { IfOk result (λ command. command ≡ words_of field.now) }
{
    if field == "-" {
        return Ok(Some(CommandLine::new(alloc)));
    }
    let mut words = CommandLine::with_capacity(alloc, field.len())?;
    let mut word = String::new(alloc);
    let mut rest = field;
    while let Some((plain, escape)) = split_at_byte(rest, b'\\') {
        if let Some(after) = escape.strip_prefix(',') {
            push_word(&mut words, &mut word, plain)?;
            rest = after;
            continue;
        }
        let Some(after) = push_stretch(&mut word, plain, escape)? else {
            return Ok(None);
        };
        rest = after;
    }
    push_word(&mut words, &mut word, rest)?;
    Ok(Some(words))
}

// Adds a word with this end. Its beginning, if it had an escape, is taken from the buffer.
fn push_word(words: &mut CommandLine, beginning: &mut String, end: &str) -> Result<(), OutOfMemory>
    ensures word { OnOk result (words.new ≡ words.old ++ (string_bytes beginning.old ++ end.now) ∷ []) }
    ensures taken { OnOk result (string_bytes beginning.new ≡ []) }
{
    if beginning.is_empty() {
        return words.push(end);
    }
    beginning.push_str(end)?;
    words.push(beginning.as_str())?;
    beginning.clear();
    Ok(())
}

/// Reads an error and its causes, which are the words of a list. `None` means a bad field, as a list without words is.
///
/// ```
/// let chain = read_chain(alloc, r"cannot spawn\,no file")?;
/// assert_eq!(chain.map(|chain| chain.causes().len()), Some(1));
/// ```
///
/// # Errors
///
/// Memory was refused. A bad field is no error but `None`.
pub fn read_chain(alloc: Global, field: &str) -> Result<Option<ErrorChain>, OutOfMemory>
    ensures { IfOk result (λ chain. chain ≡ chain_in field.now) }
{
    let Some(words) = read_command_line(alloc, field)? else {
        return Ok(None);
    };
    let mut rest = words.words();
    let Some(word) = rest.next() else {
        return Ok(None);
    };
    let message = DescriptionText::new(alloc, word)?;
    let mut causes = Vec::with_capacity(alloc, rest.len())?;
    while let Some(word) = rest.next() {
        causes.push(DescriptionText::new(alloc, word)?)?;
    }
    Ok(Some(ErrorChain::new(alloc, message, causes)?))
}

/// Reads a list of tests: the id of the first test's binary, its name, the id of the next test's binary, and so on.
/// `None` means a bad field.
///
/// ```
/// let tests = read_instances(alloc, r"alpha\,t1\,beta\,t2")?;
/// assert_eq!(tests.map(|tests| tests.as_slice().len()), Some(2));
/// ```
///
/// # Errors
///
/// Memory was refused. A bad field is no error but `None`.
pub fn read_instances(alloc: Global, field: &str) -> Result<Option<TestInstanceList>, OutOfMemory>
    ensures { IfOk result (λ list. list ≡ instances_in field.now) }
{
    let Some(words) = read_command_line(alloc, field)? else {
        return Ok(None);
    };
    let mut instances = Vec::new(alloc);
    let mut rest = words.words();
    while let Some(binary_id) = rest.next() {
        let Some(test_name) = rest.next() else {
            return Ok(None);
        };
        instances.push(OwnedTestInstanceId {
            binary_id: RustBinaryId::new(alloc, binary_id)?,
            test_name: TestCaseName::new(alloc, test_name)?,
        })?;
    }
    Ok(Some(TestInstanceList::new(alloc, instances)?))
}
