//! Paths of files and of the directories that dynamic libraries are searched in.

ghost use Rattle.std.specs.Prelude.{◌≡◌, ◌<◌, ◌∷◌, [], IfOk, IfSome, MatchOption, codes, false, length, map, not};
ghost use Rattle.std.specs.Prelude.{string_bytes};
ghost use Rattle.run_names.specs.Names.{optional_text};
ghost use Rattle.report_words.specs.Paths.{between_colons, is_absolute, joined_path, search_paths};

use run_names::memory::OutOfMemory;
use std::alloc::Global;

/// The name of the environment's variable that lists the directories that dynamic libraries are searched in.
pub fn dylib_path_envvar() -> &'static str
    ensures { result.now ≡ codes "LD_LIBRARY_PATH" }
{
    "LD_LIBRARY_PATH"
}

/// The directories that dynamic libraries are searched in, from the value of [`dylib_path_envvar`].
///
/// The value is cut at each `:`, and empty parts are kept. Without a value the list is empty.
///
/// ```
/// assert_eq!(dylib_path(alloc, Some("a::b"))?.as_slice(), ["a", "", "b"].as_slice());
/// ```
///
/// # Errors
///
/// Memory was refused.
pub fn dylib_path(alloc: Global, value: Option<&str>) -> Result<Vec<&str>, OutOfMemory>
    ensures { IfOk result (λ paths. map (λ path. path.now) paths.items ≡ search_paths (optional_text value.entry)) }
{
    match value {
        None => Ok(Vec::new(alloc)),
        Some(list) => paths_between_colons(alloc, list),
    }
}

fn paths_between_colons(alloc: Global, list: &str) -> Result<Vec<&str>, OutOfMemory>
    ensures { IfOk result (λ paths. map (λ path. path.now) paths.items ≡ between_colons list.now) }
{
    let mut paths = Vec::new(alloc);
    let mut rest = list;
    while let Some((path, after)) = split_colon(rest) {
        paths.push(path)?;
        rest = after;
    }
    paths.push(rest)?;
    Ok(paths)
}

// The list cut at its first colon.
fn split_colon(list: &str) -> Option<(&str, &str)>
    ensures parts { MatchOption result (between_colons list.now ≡ list.now ∷ [])
        (λ parts. between_colons list.now ≡ parts.0.now ∷ between_colons parts.1.now) }
    ensures shorter { IfSome result (λ parts. length parts.1.now < length list.now) }
{
    list.split_once(':')
}

/// Whether the path is relative: it does not begin with `/`.
///
/// ```
/// assert!(is_relative("a/b"));
/// assert!(!is_relative("/a"));
/// ```
pub fn is_relative(path: &str) -> bool
    ensures { result ≡ not (is_absolute path.now) }
{
    !path.starts_with('/')
}

/// A path below another, both relative ([`is_relative`]), with `/` between them.
///
/// ```
/// assert_eq!(rel_path_join(alloc, "a", "b/c")?.as_str(), "a/b/c");
/// ```
///
/// # Errors
///
/// Memory was refused.
pub fn rel_path_join(alloc: Global, rel_path: &str, path: &str) -> Result<String, OutOfMemory>
    requires rel_path { is_absolute rel_path.now ≡ false }
    requires path { is_absolute path.now ≡ false }
    ensures { IfOk result (λ joined. string_bytes joined ≡ joined_path rel_path.now path.now) }
{
    let mut joined = String::from_str(alloc, rel_path)?;
    joined.push_str("/")?;
    joined.push_str(path)?;
    Ok(joined)
}

/// A relative path with `/` between its parts: on Unix a copy.
///
/// # Errors
///
/// Memory was refused.
pub fn convert_rel_path_to_forward_slash(
    alloc: Global,
    rel_path: &str,
) -> Result<String, OutOfMemory>
    ensures { IfOk result (λ converted. string_bytes converted ≡ rel_path.now) }
{
    Ok(String::from_str(alloc, rel_path)?)
}

/// A relative path with the system's separator between its parts: on Unix a copy.
///
/// # Errors
///
/// Memory was refused.
pub fn convert_rel_path_to_main_sep(alloc: Global, rel_path: &str) -> Result<String, OutOfMemory>
    ensures { IfOk result (λ converted. string_bytes converted ≡ rel_path.now) }
{
    Ok(String::from_str(alloc, rel_path)?)
}
