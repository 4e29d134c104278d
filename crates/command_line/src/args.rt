//! The command line of a program.
//!
//! Options come before the file. The last word is the file, even if it looks like an option.

ghost use Rattle.std.specs.Prelude.{◌≡◌, true, if◌then◌else◌, Some, None, IfOk};
ghost use Rattle.std.specs.Option.{option_map};
ghost use Rattle.command_line.specs.Args.{options_after, options_of, options_or_input, asked, asked_of, texts};
ghost use Rattle.command_line.specs.Args.{with_flag, with_level, level_of};

use run_model::level::StatusLevel;
use run_model::memory::OutOfMemory;
use std::alloc::Global;
use store_text::config::StoreConfig;

/// The options of a command line. It borrows the words.
#[derive(Clone, Copy, Debug, PartialEq, Eq)]
pub struct Options<'a> {
    /// Whether the report has colours.
    pub should_colorize: bool,
    /// Whether each line of a test has a counter.
    pub show_counter: bool,
    /// Whether the report is one of a recorded run that is replayed.
    pub is_replay: bool,
    /// Whether output that the report does not show is not read.
    pub unload_skipped: bool,
    /// The status level from which on the lines of tests are shown.
    pub status_level: StatusLevel,
    /// Where records of finished tests go, if they are asked for.
    pub store: Option<StoreOptions<'a>>,
    /// The file that holds the scene, or the folder that holds the recorded run.
    pub file: &'a str,
    /// Whether the process exits right after the report. Its memory is then not freed. The programs set this, not the
    /// command line.
    pub is_last: bool,
}

/// Where records go, and what they hold.
#[derive(Clone, Copy, Debug, PartialEq, Eq)]
pub struct StoreOptions<'a> {
    /// The file. It is created, or emptied if it exists.
    pub file: &'a str,
    /// Which outputs are kept.
    pub config: StoreConfig,
}

/// Parses the words after the program's name. They are wrong, and the result None, if there is no file, if an option is
/// unknown or occurs twice, if no status level follows `--level`, or if outputs are to be stored without `--store`.
/// Without `--level` the status level is `pass`.
///
/// ```
/// let level = String::from_str(alloc, "--level")?;
/// let given = [level, String::from_str(alloc, "fail")?, String::from_str(alloc, "first.scene")?];
/// assert_eq!(words(&given).map(|options| options.status_level), Some(StatusLevel::Fail));
/// let given = [String::from_str(alloc, "--store-failure")?, String::from_str(alloc, "first.scene")?];
/// assert_eq!(words(&given), None); // there are no records
/// ```
pub fn words(words: &[String]) -> Option<Options<'_>>
    ensures { asked result ≡ options_of (texts words.now) }
{
    ArgsSoFar::default().followed_by(None, words)
}

/// Like [`words`], for a program that reads standard input if no file is named. It pushes the word `-`, the name of
/// standard input. That word is the file if all words before it are options, and is otherwise ignored.
///
/// ```
/// let mut given = Vec::new(alloc);
/// given.push(String::from_str(alloc, "--color")?)?;
/// assert_eq!(args_or_input(alloc, &mut given)?.map(|options| options.file), Some("-"));
/// ```
///
/// # Errors
///
/// Memory was refused. A wrong command line is no error but `None`.
pub fn args_or_input<'a>(
    alloc: Global,
    given: &'a mut Vec<String>,
) -> Result<Option<Options<'a>>, OutOfMemory>
    ensures { IfOk result (λ options. asked options ≡ options_or_input (texts given.old.items)) }
{
    let input = String::from_str(alloc, "-")?;
    given.push(input)?;
    Ok(words(given.as_slice()).or(words(&given[..given.len() - 1])))
}

// The options parsed so far, except the file of the records.
#[derive(Clone, Copy, Default)]
struct ArgsSoFar {
    color: bool,
    counter: bool,
    replay: bool,
    unload: bool,
    level: Option<StatusLevel>,
    store_success: bool,
    store_failure: bool,
}

impl ArgsSoFar {
    // Parses the remaining words; `store` is the file of the records so far. No option occurs twice, so the recursion
    // is shallow.
    #[tactic(auto, unfolding(crate::specs::Args::options_after))]
    fn followed_by<'a>(self, store: Option<&'a str>, words: &'a [String]) -> Option<Options<'a>>
        ensures { asked result ≡ options_after self (option_map (λ path. path.now) store.entry) (texts words.now) }
    {
        let (first, after) = words.split_first()?;
        let Some((second, others)) = after.split_first() else {
            return self.options(store, first.as_str());
        };
        match first.as_str() {
            "--level" => self.with_level(second.as_str())?.followed_by(store, others),
            "--store" => match store {
                Some(_) => None,
                None => self.followed_by(Some(second.as_str()), others),
            },
            flag => self.with_flag(flag)?.followed_by(store, after),
        }
    }

    // Adds a flag, an option of one word. None if it is unknown or was already given.
    fn with_flag(mut self, flag: &str) -> Option<ArgsSoFar>
        ensures { result ≡ with_flag self flag.now }
    {
        match flag {
            "--color" => set_first(&mut self.color)?,
            "--counter" => set_first(&mut self.counter)?,
            "--replay" => set_first(&mut self.replay)?,
            "--unload" => set_first(&mut self.unload)?,
            "--store-success" => set_first(&mut self.store_success)?,
            "--store-failure" => set_first(&mut self.store_failure)?,
            _ => return None,
        }
        Some(self)
    }

    // Adds a status level. None if the word names none, or if a level was already given.
    fn with_level(self, word: &str) -> Option<ArgsSoFar>
        ensures { result ≡ with_level self word.now }
    {
        if self.level.is_some() {
            return None;
        }
        let level = read_level(word)?;
        Some(ArgsSoFar {
            level: Some(level),
            ..self
        })
    }

    // The parsed options with the file of the scene and that of the records. None if outputs are to be stored and
    // there is no file of records.
    fn options<'a>(self, store: Option<&'a str>, file: &'a str) -> Option<Options<'a>>
        ensures { asked result ≡ asked_of self (option_map (λ path. path.now) store.entry) file.now }
    {
        let store = match store {
            Some(path) => Some(StoreOptions {
                file: path,
                config: StoreConfig {
                    store_success_output: self.store_success,
                    store_failure_output: self.store_failure,
                },
            }),
            None if self.store_success || self.store_failure => return None,
            None => None,
        };
        Some(Options {
            should_colorize: self.color,
            show_counter: self.counter,
            is_replay: self.replay,
            unload_skipped: self.unload,
            status_level: self.level.unwrap_or(StatusLevel::Pass),
            store,
            file,
            is_last: false,
        })
    }
}

// Sets a flag. None if it was already set.
fn set_first(flag: &mut bool) -> Option<()>
    ensures { option_map (λ _. flag.new) result ≡ if flag.old then None else Some true }
{
    if *flag {
        return None;
    }
    *flag = true;
    Some(())
}

// The status level with this name.
fn read_level(word: &str) -> Option<StatusLevel>
    ensures { result ≡ level_of word.now }
{
    match word {
        "none" => Some(StatusLevel::None),
        "fail" => Some(StatusLevel::Fail),
        "retry" => Some(StatusLevel::Retry),
        "slow" => Some(StatusLevel::Slow),
        "leak" => Some(StatusLevel::Leak),
        "pass" => Some(StatusLevel::Pass),
        "skip" => Some(StatusLevel::Skip),
        "all" => Some(StatusLevel::All),
        _ => None,
    }
}
