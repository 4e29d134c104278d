//! Names as a scene writes them, which are texts.

ghost use Rattle.std.specs.Prelude.{◌≡◌, ◌∷◌, ◌++◌, IfOk, IfSome, Some};
ghost use Rattle.std.specs.Option.{option_map};
ghost use Rattle.scene_fields.specs.Texts.{text_in};

use super::marks::find_byte;
use super::texts::read_text;
use run_model::memory::OutOfMemory;
use run_model::name::{Name, OwnedTestInstanceId};
use std::alloc::Global;

/// Reads a name. None is a bad field.
pub fn read_name<K>(alloc: Global, field: &str) -> Result<Option<Name<K>>, OutOfMemory>
    ensures { IfOk result (λ name. name ≡ text_in field.now) }
{
    match read_text(alloc, field)? {
        Some(text) => Ok(Some(Name::new(alloc, text.as_str())?)),
        None => Ok(None),
    }
}

/// Reads the names of a test in place of others, whose memory they take. Both fields are in one text, which is searched
/// once for escapes: most names have none. None is a bad field.
#[inline(always)]
pub fn replace_names(
    alloc: Global,
    both: &str,
    binary_id: &str,
    test_name: &str,
    names: &mut OwnedTestInstanceId,
) -> Result<Option<()>, OutOfMemory>
    requires { both.now ≡ binary_id.now ++ 9 ∷ test_name.now }
    ensures { IfOk result (λ read. IfSome read (λ _. (text_in binary_id.now ≡ Some names.new.binary_id)
        × (text_in test_name.now ≡ Some names.new.test_name))) }
{
    if find_byte(b'\\', both.as_bytes()).is_some() {
        return replace_spelled_names(alloc, binary_id, test_name, names);
    }
    names.binary_id.replace(binary_id)?;
    names.test_name.replace(test_name)?;
    Ok(Some(()))
}

// Names that may have escapes.
#[inline(never)]
fn replace_spelled_names(
    alloc: Global,
    binary_id: &str,
    test_name: &str,
    names: &mut OwnedTestInstanceId,
) -> Result<Option<()>, OutOfMemory>
    ensures { IfOk result (λ read. IfSome read (λ _. (text_in binary_id.now ≡ Some names.new.binary_id)
        × (text_in test_name.now ≡ Some names.new.test_name))) }
{
    let Some(()) = replace_name(alloc, binary_id, &mut names.binary_id)? else {
        return Ok(None);
    };
    replace_name(alloc, test_name, &mut names.test_name)
}

/// Reads a name in place of another one, whose memory it takes. None is a bad field.
#[inline(always)]
pub fn replace_name<K>(
    alloc: Global,
    field: &str,
    name: &mut Name<K>,
) -> Result<Option<()>, OutOfMemory>
    ensures { IfOk result (λ read. option_map (λ _. name.new) read ≡ text_in field.now) }
{
    match read_text(alloc, field)? {
        Some(text) => {
            name.replace(text.as_str())?;
            Ok(Some(()))
        }
        None => Ok(None),
    }
}
