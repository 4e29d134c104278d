//! Words in the singular or the plural.
//!
//! Each row of the table has one function, which returns its first word for 1 and its second for every other number,
//! including 0, as nextest does. The words are written once, in the contracts' table `Plural`.

ghost use Rattle.std.specs.Prelude.{◌≡◌, true};
ghost use Rattle.report_words.specs.Plural.{were_word, tests_word, tests_word_if, setup_scripts_word, binaries_word};
ghost use Rattle.report_words.specs.Plural.{paths_word, files_word, directories_word, this_crate_word, libraries_word};
ghost use Rattle.report_words.specs.Plural.{filters_word, sections_word, iterations_word, runs_word, orphans_word};
ghost use Rattle.report_words.specs.Plural.{errors_word, exist_word, end_word, remain_word};

use run_names::config::NextestRunMode;

/// "were" for several, "was" for one.
///
/// ```
/// assert_eq!(were_plural_if(true), "were");
/// ```
#[tactic(auto, unfolding(crate::specs::Plural::were_word))]
pub fn were_plural_if(plural: bool) -> &'static str
    ensures { result.now ≡ were_word plural }
{
    if plural { "were" } else { "was" }
}

/// "test" or "tests", in benchmark mode "benchmark" or "benchmarks".
///
/// ```
/// assert_eq!(tests_str(NextestRunMode::Test, 1), "test");
/// assert_eq!(tests_str(NextestRunMode::Benchmark, 0), "benchmarks");
/// ```
pub fn tests_str(mode: NextestRunMode, count: usize) -> &'static str
    ensures { result.now ≡ tests_word mode count }
{
    tests_plural_if(mode, count != 1)
}

/// "tests" for several and "test" for one, in benchmark mode "benchmarks" and "benchmark".
///
/// ```
/// assert_eq!(tests_plural_if(NextestRunMode::Test, false), "test");
/// ```
#[tactic(auto, unfolding(crate::specs::Plural::tests_word_if))]
pub fn tests_plural_if(mode: NextestRunMode, plural: bool) -> &'static str
    ensures { result.now ≡ tests_word_if mode plural }
{
    match (mode, plural) {
        (NextestRunMode::Test, true) => "tests",
        (NextestRunMode::Test, false) => "test",
        (NextestRunMode::Benchmark, true) => "benchmarks",
        (NextestRunMode::Benchmark, false) => "benchmark",
    }
}

/// "tests", in benchmark mode "benchmarks".
pub fn tests_plural(mode: NextestRunMode) -> &'static str
    ensures { result.now ≡ tests_word_if mode true }
{
    tests_plural_if(mode, true)
}

/// "setup script" for 1, "setup scripts" for any other number.
///
/// ```
/// assert_eq!(setup_scripts_str(2), "setup scripts");
/// ```
#[tactic(auto, unfolding(crate::specs::Plural::setup_scripts_word))]
pub fn setup_scripts_str(count: usize) -> &'static str
    ensures { result.now ≡ setup_scripts_word count }
{
    if count == 1 {
        "setup script"
    } else {
        "setup scripts"
    }
}

/// "binary" for 1, "binaries" for any other number.
///
/// ```
/// assert_eq!(binaries_str(1), "binary");
/// assert_eq!(binaries_str(0), "binaries");
/// ```
#[tactic(auto, unfolding(crate::specs::Plural::binaries_word))]
pub fn binaries_str(count: usize) -> &'static str
    ensures { result.now ≡ binaries_word count }
{
    if count == 1 { "binary" } else { "binaries" }
}

/// "path" for 1, "paths" for any other number.
#[tactic(auto, unfolding(crate::specs::Plural::paths_word))]
pub fn paths_str(count: usize) -> &'static str
    ensures { result.now ≡ paths_word count }
{
    if count == 1 { "path" } else { "paths" }
}

/// "file" for 1, "files" for any other number.
#[tactic(auto, unfolding(crate::specs::Plural::files_word))]
pub fn files_str(count: usize) -> &'static str
    ensures { result.now ≡ files_word count }
{
    if count == 1 { "file" } else { "files" }
}

/// "directory" for 1, "directories" for any other number.
#[tactic(auto, unfolding(crate::specs::Plural::directories_word))]
pub fn directories_str(count: usize) -> &'static str
    ensures { result.now ≡ directories_word count }
{
    if count == 1 {
        "directory"
    } else {
        "directories"
    }
}

/// "this crate" for 1, "these crates" for any other number.
#[tactic(auto, unfolding(crate::specs::Plural::this_crate_word))]
pub fn this_crate_str(count: usize) -> &'static str
    ensures { result.now ≡ this_crate_word count }
{
    if count == 1 {
        "this crate"
    } else {
        "these crates"
    }
}

/// "library" for 1, "libraries" for any other number.
#[tactic(auto, unfolding(crate::specs::Plural::libraries_word))]
pub fn libraries_str(count: usize) -> &'static str
    ensures { result.now ≡ libraries_word count }
{
    if count == 1 { "library" } else { "libraries" }
}

/// "filter" for 1, "filters" for any other number.
#[tactic(auto, unfolding(crate::specs::Plural::filters_word))]
pub fn filters_str(count: usize) -> &'static str
    ensures { result.now ≡ filters_word count }
{
    if count == 1 { "filter" } else { "filters" }
}

/// "section" for 1, "sections" for any other number.
#[tactic(auto, unfolding(crate::specs::Plural::sections_word))]
pub fn sections_str(count: usize) -> &'static str
    ensures { result.now ≡ sections_word count }
{
    if count == 1 { "section" } else { "sections" }
}

/// "iteration" for 1, "iterations" for any other number.
///
/// ```
/// assert_eq!(iterations_str(1), "iteration");
/// ```
#[tactic(auto, unfolding(crate::specs::Plural::iterations_word))]
pub fn iterations_str(count: u32) -> &'static str
    ensures { result.now ≡ iterations_word count }
{
    if count == 1 {
        "iteration"
    } else {
        "iterations"
    }
}

/// "run" for 1, "runs" for any other number.
#[tactic(auto, unfolding(crate::specs::Plural::runs_word))]
pub fn runs_str(count: usize) -> &'static str
    ensures { result.now ≡ runs_word count }
{
    if count == 1 { "run" } else { "runs" }
}

/// "orphan" for 1, "orphans" for any other number.
#[tactic(auto, unfolding(crate::specs::Plural::orphans_word))]
pub fn orphans_str(count: usize) -> &'static str
    ensures { result.now ≡ orphans_word count }
{
    if count == 1 { "orphan" } else { "orphans" }
}

/// "error" for 1, "errors" for any other number.
#[tactic(auto, unfolding(crate::specs::Plural::errors_word))]
pub fn errors_str(count: usize) -> &'static str
    ensures { result.now ≡ errors_word count }
{
    if count == 1 { "error" } else { "errors" }
}

/// "exists" for 1, "exist" for any other number.
#[tactic(auto, unfolding(crate::specs::Plural::exist_word))]
pub fn exist_str(count: usize) -> &'static str
    ensures { result.now ≡ exist_word count }
{
    if count == 1 { "exists" } else { "exist" }
}

/// "ends" for 1, "end" for any other number.
#[tactic(auto, unfolding(crate::specs::Plural::end_word))]
pub fn end_str(count: usize) -> &'static str
    ensures { result.now ≡ end_word count }
{
    if count == 1 { "ends" } else { "end" }
}

/// "remains" for 1, "remain" for any other number.
#[tactic(auto, unfolding(crate::specs::Plural::remain_word))]
pub fn remain_str(count: usize) -> &'static str
    ensures { result.now ≡ remain_word count }
{
    if count == 1 { "remains" } else { "remain" }
}
