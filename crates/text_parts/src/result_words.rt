//! The words of results in the lines of tests.

ghost use Rattle.std.specs.Prelude.{◌≡◌, ◌++◌, codes};
ghost use Rattle.text_parts.specs.ResultWords.{long_word, long_failure_word, long_abort_word, short_word};
ghost use Rattle.text_parts.specs.ResultWords.{short_failure_word, short_abort_word, shown_word, success_word};
ghost use Rattle.text_parts.specs.ResultWords.{is_plain_success};

use itoa::Buffer;
use run_model::abort::AbortDescription;
use run_model::status::{
    ExecutionResultDescription, FailureDescription, LeakTimeoutResult, SlowTimeoutResult,
};

/// A word in two pieces. The second may be empty.
#[derive(Clone, Copy)]
pub struct Word<'b> {
    /// The first piece.
    pub front: &'b str,
    /// What follows it.
    pub back: &'b str,
}

impl<'b> Word<'b> {
    fn whole(front: &'b str) -> Word<'b>
        ensures front { result.front.now ≡ front.now }
        ensures back { result.back.now ≡ codes "" }
    {
        Word { front, back: "" }
    }
}

/// The word of a result at a first attempt. A signal's number is written into the buffer.
#[tactic(auto, unfolding(crate::specs::ResultWords::long_word))]
pub fn status_str<'b>(outcome: &'b ExecutionResultDescription, number: &'b mut Buffer) -> Word<'b>
    ensures { result.front.now ++ result.back.now ≡ long_word outcome.now }
{
    match outcome {
        ExecutionResultDescription::Pass => Word::whole("PASS"),
        ExecutionResultDescription::Leak { result } => match result {
            LeakTimeoutResult::Pass => Word::whole("LEAK"),
            LeakTimeoutResult::Fail => Word::whole("LEAK-FAIL"),
        },
        ExecutionResultDescription::Fail { failure, leaked } => failure_str(
            failure, *leaked, number,
        ),
        ExecutionResultDescription::ExecFail => Word::whole("XFAIL"),
        ExecutionResultDescription::Timeout { result } => match result {
            SlowTimeoutResult::Pass => Word::whole("TIMEOUT-PASS"),
            SlowTimeoutResult::Fail => Word::whole("TIMEOUT"),
        },
    }
}

fn failure_str<'b>(
    failure: &'b FailureDescription,
    leaked: bool,
    number: &'b mut Buffer,
) -> Word<'b>
    ensures { result.front.now ++ result.back.now ≡ long_failure_word failure.now leaked }
{
    match failure {
        FailureDescription::ExitCode { .. } => {
            if leaked {
                Word::whole("FAIL + LEAK")
            } else {
                Word::whole("FAIL")
            }
        }
        FailureDescription::Abort { abort } => abort_str(abort.get(), number),
    }
}

fn abort_str<'b>(abort: &'b AbortDescription, number: &'b mut Buffer) -> Word<'b>
    ensures { result.front.now ++ result.back.now ≡ long_abort_word abort.now }
{
    match abort {
        AbortDescription::UnixSignal { signal, name } => match name {
            Some(name) => Word {
                front: "SIG",
                back: name.as_str(),
            },
            None => Word {
                front: "ABORT SIG ",
                back: number.format(*signal),
            },
        },
        AbortDescription::WindowsNtStatus { .. } | AbortDescription::WindowsJobObject =>
            Word::whole("ABORT"),
    }
}

/// The word of a result after the number of an attempt, and in a record. A signal's number is written into the
/// buffer.
///
/// ```
/// use itoa::Buffer;
/// let mut number = Buffer::new();
/// let word = short_status_str(&ExecutionResultDescription::ExecFail, &mut number);
/// assert_eq!((word.front, word.back), ("XFAIL", ""));
/// ```
pub fn short_status_str<'b>(
    outcome: &'b ExecutionResultDescription,
    number: &'b mut Buffer,
) -> Word<'b>
    ensures { result.front.now ++ result.back.now ≡ short_word outcome.now }
{
    match ShortWord::of_result(outcome) {
        ShortWord::Text(word) => Word::whole(word),
        ShortWord::Signal(signal) => Word {
            front: "SIG ",
            back: number.format(signal),
        },
    }
}

/// A space, and the word that [`short_status_str`] returns.
pub fn spaced_short_status_str<'b>(
    outcome: &'b ExecutionResultDescription,
    number: &'b mut Buffer,
) -> Word<'b>
    ensures { result.front.now ++ result.back.now ≡ codes " " ++ short_word outcome.now }
{
    match ShortWord::of_result(outcome) {
        ShortWord::Text(word) => Word {
            front: " ",
            back: word,
        },
        ShortWord::Signal(signal) => Word {
            front: " SIG ",
            back: number.format(signal),
        },
    }
}

// The word of a result after the number of an attempt: a text, or that of a signal without a name.
#[derive(Clone, Copy)]
enum ShortWord<'b> {
    Text(&'b str),
    Signal(i32),
}

impl<'b> ShortWord<'b> {
    #[tactic(auto, unfolding(crate::specs::ResultWords::short_word))]
    fn of_result(outcome: &'b ExecutionResultDescription) -> ShortWord<'b>
        ensures { shown_word result ≡ short_word outcome.now }
    {
        match outcome {
            ExecutionResultDescription::Pass => ShortWord::Text("PASS"),
            ExecutionResultDescription::Leak { result } => match result {
                LeakTimeoutResult::Pass => ShortWord::Text("LEAK"),
                LeakTimeoutResult::Fail => ShortWord::Text("LKFAIL"),
            },
            ExecutionResultDescription::Fail { failure, leaked } => {
                ShortWord::of_failure(failure, *leaked)
            }
            ExecutionResultDescription::ExecFail => ShortWord::Text("XFAIL"),
            ExecutionResultDescription::Timeout { result } => match result {
                SlowTimeoutResult::Pass => ShortWord::Text("TMPASS"),
                SlowTimeoutResult::Fail => ShortWord::Text("TMT"),
            },
        }
    }

    fn of_failure(failure: &'b FailureDescription, leaked: bool) -> ShortWord<'b>
        ensures { shown_word result ≡ short_failure_word failure.now leaked }
    {
        match failure {
            FailureDescription::ExitCode { .. } => {
                if leaked {
                    ShortWord::Text("FL+LK")
                } else {
                    ShortWord::Text("FAIL")
                }
            }
            FailureDescription::Abort { abort } => ShortWord::of_abort(abort.get()),
        }
    }

    fn of_abort(abort: &'b AbortDescription) -> ShortWord<'b>
        ensures { shown_word result ≡ short_abort_word abort.now }
    {
        match abort {
            AbortDescription::UnixSignal { signal, name } => match name {
                Some(name) => ShortWord::Text(name.as_str()),
                None => ShortWord::Signal(*signal),
            },
            AbortDescription::WindowsNtStatus { .. } | AbortDescription::WindowsJobObject => {
                ShortWord::Text("ABORT")
            }
        }
    }
}

/// The word of a success; the flag says that it is called slow.
#[tactic(auto, unfolding(crate::specs::ResultWords::success_word))]
pub fn success_str(is_slow: bool, outcome: &ExecutionResultDescription) -> &'static str
    ensures { result.now ≡ success_word is_slow outcome.now }
{
    if is_slow {
        match outcome {
            ExecutionResultDescription::Leak { .. } => "SLOW + LEAK",
            ExecutionResultDescription::Timeout { .. } => "SLOW+TMPASS",
            ExecutionResultDescription::Pass
            | ExecutionResultDescription::Fail { .. }
            | ExecutionResultDescription::ExecFail => "SLOW",
        }
    } else {
        match outcome {
            ExecutionResultDescription::Leak { .. } => "LEAK",
            ExecutionResultDescription::Timeout { .. } => "TIMEOUT-PASS",
            ExecutionResultDescription::Pass
            | ExecutionResultDescription::Fail { .. }
            | ExecutionResultDescription::ExecFail => "PASS",
        }
    }
}

/// Whether a success is plain: neither called slow, nor leaky, nor timed out.
pub fn is_plain_success(is_slow: bool, outcome: &ExecutionResultDescription) -> bool
    ensures { result ≡ is_plain_success is_slow outcome.now }
{
    !is_slow
        && !matches!(
            outcome,
            ExecutionResultDescription::Leak { .. } | ExecutionResultDescription::Timeout { .. }
        )
}
