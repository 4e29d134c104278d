//! The id of a run, which can be forced for tests.

ghost use Rattle.std.specs.Prelude.{◌≡◌};
ghost use Rattle.{run_names.specs.Names.optional_text, uuid.specs.Text.parsed};
ghost use Rattle.report_words.specs.RunId.{random_id, run_id, run_id_warning};

use uuid::{Builder, Uuid};

// The warning if the value is no id.
const INVALID_RUN_ID: &str =
    "__NEXTEST_FORCE_RUN_ID is set but invalid (expected UUID), generating random ID";

/// The id that the value forces, or the version 4 id of sixteen random bytes; and a warning if there is a value that
/// is no id.
///
/// The value is that of the environment's variable `__NEXTEST_FORCE_RUN_ID`, in any form that `uuid` parses.
///
/// ```
/// let (id, refused) = force_or_new_run_id(None, [0; 16]);
/// assert_eq!(id.to_string(alloc)?.as_str(), "00000000-0000-4000-8000-000000000000");
/// assert_eq!(refused, None);
/// ```
pub fn force_or_new_run_id(value: Option<&str>, random: [u8; 16]) -> (Uuid, Option<&'static str>)
    ensures id { result.0 ≡ run_id (optional_text value.entry) random }
    ensures warning { optional_text result.1 ≡ run_id_warning (optional_text value.entry) }
{
    match value {
        None => (random_id(random), None),
        Some(text) => match parsed_id(text) {
            Some(id) => (id, None),
            None => (random_id(random), Some(INVALID_RUN_ID)),
        },
    }
}

fn parsed_id(text: &str) -> Option<Uuid>
    ensures { result ≡ parsed text.now }
{
    Uuid::parse_str(text).ok()
}

fn random_id(random: [u8; 16]) -> Uuid
    ensures { result ≡ random_id random }
{
    Builder::from_random_bytes(random).into_uuid()
}
