//! How an attempt ended, as a scene writes it.
//!
//! It is a word, as `pass`, or a word and its detail after a colon, as `fail:1`. A name or a message is a text, which
//! extends to the end of the field.

ghost use Rattle.std.specs.{Prelude.◌≡◌, Prelude.Some, Prelude.IfOk, Option.option_map};
ghost use Rattle.scene_fields.specs.Results.{aborted, exit_code, nameless_signal, plain_in, result_in, signal_cut};
ghost use Rattle.scene_fields.specs.Results.{status_cut, result_with_details};
ghost use Rattle.scene_fields.specs.{Split.cut, Numbers.code_in};

use super::numbers::read_code;
use super::split::split_at_byte;
use super::texts::read_text;
use run_model::abort::{AbortDescription, DescriptionText};
use run_model::boxed::Boxed;
use run_model::memory::OutOfMemory;
use run_model::status::{
    ExecutionResultDescription, FailureDescription, LeakTimeoutResult, SlowTimeoutResult,
};
use std::alloc::Global;

/// A result that was read: `None` means a bad field.
pub type ReadResult = Result<Option<ExecutionResultDescription>, OutOfMemory>;

/// Reads how an attempt ended. `None` means a bad field.
///
/// ```
/// let outcome = read_result(alloc, "sig:11:SEGV")?;
/// assert!(matches!(outcome, Some(ExecutionResultDescription::Fail { leaked: false, .. })));
/// ```
///
/// # Errors
///
/// Memory was refused. A bad field is no error but `None`.
#[inline(always)]
#[tactic(auto, unfolding(crate::specs::Results::result_in))]
pub fn read_result(alloc: Global, field: &str) -> ReadResult
    ensures { IfOk result (λ outcome. outcome ≡ result_in field.now) }
{
    match split_at_byte(field, b':') {
        None => read_plain(alloc, field),
        Some((word, rest)) => read_with_details(alloc, word, rest),
    }
}

// Reads a result that is one word.
fn read_plain(alloc: Global, field: &str) -> ReadResult
    ensures { IfOk result (λ outcome. outcome ≡ plain_in field.now) }
{
    Ok(match field {
        "pass" => Some(ExecutionResultDescription::Pass),
        "leak" => Some(ExecutionResultDescription::Leak {
            result: LeakTimeoutResult::Pass,
        }),
        "leakfail" => Some(ExecutionResultDescription::Leak {
            result: LeakTimeoutResult::Fail,
        }),
        "job" => return aborted(alloc, AbortDescription::WindowsJobObject, false),
        "exec" => Some(ExecutionResultDescription::ExecFail),
        "tmpass" => Some(ExecutionResultDescription::Timeout {
            result: SlowTimeoutResult::Pass,
        }),
        "tmout" => Some(ExecutionResultDescription::Timeout {
            result: SlowTimeoutResult::Fail,
        }),
        _ => None,
    })
}

// Reads a result whose word has details.
fn read_with_details(alloc: Global, word: &str, rest: &str) -> ReadResult
    ensures { IfOk result (λ outcome. outcome ≡ result_with_details word.now rest.now) }
{
    match word {
        "fail" => Ok(read_exit_code(rest, false)),
        "fail+leak" => Ok(read_exit_code(rest, true)),
        "sig" => read_signal(alloc, rest),
        "sig+leak" => read_nameless_signal(alloc, rest, true),
        "nt" => read_status(alloc, rest),
        _ => Ok(None),
    }
}

// Reads a failure by an exit code.
fn read_exit_code(code: &str, leaked: bool) -> Option<ExecutionResultDescription>
    ensures { result ≡ option_map (exit_code leaked) (code_in code.now) }
{
    Some(ExecutionResultDescription::Fail {
        failure: FailureDescription::ExitCode {
            code: read_code(code)?,
        },
        leaked,
    })
}

// Reads a signal by its number, which its name may follow.
fn read_signal(alloc: Global, text: &str) -> ReadResult
    ensures { IfOk result (λ outcome. outcome ≡ signal_cut text.now (cut 58 text.now)) }
{
    let Some((number, name)) = split_at_byte(text, b':') else {
        return read_nameless_signal(alloc, text, false);
    };
    let Some(signal) = read_code(number) else {
        return Ok(None);
    };
    let Some(name) = read_text(alloc, name)? else {
        return Ok(None);
    };
    let name = Some(DescriptionText::new(alloc, name.as_str())?);
    aborted(alloc, AbortDescription::UnixSignal { signal, name }, false)
}

// Reads a signal by its number alone.
fn read_nameless_signal(alloc: Global, number: &str, leaked: bool) -> ReadResult
    ensures { IfOk result (λ outcome. outcome ≡ option_map (nameless_signal leaked) (code_in number.now)) }
{
    let Some(signal) = read_code(number) else {
        return Ok(None);
    };
    let abort = AbortDescription::UnixSignal { signal, name: None };
    aborted(alloc, abort, leaked)
}

// Reads a Windows status: its number, and the system's message for it.
fn read_status(alloc: Global, text: &str) -> ReadResult
    ensures { IfOk result (λ outcome. outcome ≡ status_cut (cut 58 text.now)) }
{
    let Some((number, message)) = split_at_byte(text, b':') else {
        return Ok(None);
    };
    let Some(code) = read_code(number) else {
        return Ok(None);
    };
    let Some(message) = read_text(alloc, message)? else {
        return Ok(None);
    };
    let message = Some(DescriptionText::new(alloc, message.as_str())?);
    aborted(
        alloc,
        AbortDescription::WindowsNtStatus { code, message },
        false,
    )
}

// A failure by an abort.
fn aborted(alloc: Global, abort: AbortDescription, leaked: bool) -> ReadResult
    ensures { IfOk result (λ outcome. outcome ≡ Some (aborted leaked abort)) }
{
    let abort = Boxed::new(alloc, abort)?;
    Ok(Some(ExecutionResultDescription::Fail {
        failure: FailureDescription::Abort { abort },
        leaked,
    }))
}
