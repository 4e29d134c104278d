//! Values in one field with parts, separated by colons: the state of a unit, and a highlight.
//!
//! The state of a unit is a word, as `running`, and its parts. How the attempt ended is in the next field.

ghost use Rattle.scene_unit_lines.specs.Parts.{delay_in, exited_in, exiting_in, highlight_in, highlight_stream_in};
ghost use Rattle.scene_unit_lines.specs.Parts.{result_or_none_in, running_in, slow_after_in, state_in, state_with};
ghost use Rattle.{scene_unit_lines.specs.Parts.terminate_reason_in, scene_unit_lines.specs.Parts.terminating_in};
ghost use Rattle.{scene_unit_lines.specs.Parts.timing_in, scene_unit_lines.specs.Parts.wait_in};
ghost use Rattle.std.specs.Prelude.{◌≡◌, IfOk};

use super::Field;
use bytes::Bytes;
use run_model::abort::DescriptionText;
use run_model::boxed::Boxed;
use run_model::info::{UnitState, UnitTerminateMethod, UnitTerminateReason, UnitTerminatingState};
use run_model::memory::OutOfMemory;
use run_model::output::{Highlight, HighlightStream};
use run_model::status::ExecutionResultDescription;
use run_model::time::Nanos;
use scene_fields::numbers::{read_count, read_nanos, read_small_count};
use scene_fields::results::read_result;
use scene_fields::split::split_at_byte;
use scene_fields::texts::{read_bytes, read_text};
use scene_fields::values::read_flag;
use std::alloc::Global;

/// Reads the state of a unit. How its attempt ended is in the next field: until `state_with` it has passed, if it has
/// ended. `None` means a bad field.
///
/// ```
/// use run_model::info::UnitState;
/// let state = read_state(alloc, "running:42:1500000000:-")?; // for 1.5 s, as the process 42
/// assert!(matches!(state, Some(UnitState::Running { .. })));
/// ```
///
/// # Errors
///
/// Memory was refused. A bad field is no error but `None`.
#[tactic(auto, unfolding(crate::specs::Parts::state_in))]
pub fn read_state(alloc: Global, field: &str) -> Field<UnitState>
    ensures { IfOk result (λ state. state ≡ state_in field.now) }
{
    let Some((word, rest)) = split_at_byte(field, b':') else {
        return Ok(None);
    };
    match word {
        "running" => Ok(read_running(rest)),
        "exiting" => Ok(read_exiting(rest)),
        "terminating" => read_terminating(alloc, rest),
        "exited" => Ok(read_exited(rest)),
        "delay" => Ok(read_delay(rest)),
        _ => Ok(None),
    }
}

// Reads the parts after `running`: the process's id, and how long it has run.
#[tactic(auto, unfolding(crate::specs::Parts::running_in))]
fn read_running(text: &str) -> Option<UnitState>
    ensures { result ≡ running_in text.now }
{
    let (pid, timing) = split_at_byte(text, b':')?;
    let (time_taken, slow_after) = read_timing(timing)?;
    Some(UnitState::Running {
        pid: read_small_count(pid)?,
        time_taken,
        slow_after,
    })
}

// Reads the parts after `exiting`: those of `running`, and the wait for the process's handles.
#[tactic(auto, unfolding(crate::specs::Parts::exiting_in))]
fn read_exiting(text: &str) -> Option<UnitState>
    ensures { result ≡ exiting_in text.now }
{
    let (pid, rest) = split_at_byte(text, b':')?;
    let (time_taken, rest) = split_at_byte(rest, b':')?;
    let (slow_after, wait) = split_at_byte(rest, b':')?;
    let (waiting_duration, remaining) = read_wait(wait)?;
    Some(UnitState::Exiting {
        pid: read_small_count(pid)?,
        time_taken: read_nanos(time_taken)?,
        slow_after: read_slow_after(slow_after)?,
        tentative_result: None,
        waiting_duration,
        remaining,
    })
}

// Reads the parts after `terminating`: the process's id, how long it has run, why it is ended and by which signal, and
// the wait for its end. A colon in the signal's name would part it.
#[tactic(auto, unfolding(crate::specs::Parts::terminating_in))]
fn read_terminating(alloc: Global, text: &str) -> Field<UnitState>
    ensures { IfOk result (λ state. state ≡ terminating_in text.now) }
{
    let Some((pid, rest)) = split_at_byte(text, b':') else {
        return Ok(None);
    };
    let Some((time_taken, rest)) = split_at_byte(rest, b':') else {
        return Ok(None);
    };
    let Some((reason, rest)) = split_at_byte(rest, b':') else {
        return Ok(None);
    };
    let Some((signal, wait)) = split_at_byte(rest, b':') else {
        return Ok(None);
    };
    let (Some(pid), Some(time_taken), Some(reason), Some((waiting_duration, remaining))) = (
        read_small_count(pid),
        read_nanos(time_taken),
        read_terminate_reason(reason),
        read_wait(wait),
    ) else {
        return Ok(None);
    };
    let Some(signal) = read_text(alloc, signal)? else {
        return Ok(None);
    };
    Ok(Some(UnitState::Terminating(UnitTerminatingState {
        pid,
        time_taken,
        reason,
        method: UnitTerminateMethod::Signal(DescriptionText::new(alloc, signal.as_str())?),
        waiting_duration,
        remaining,
    })))
}

// Reads the parts after `exited`: how long the process ran.
fn read_exited(text: &str) -> Option<UnitState>
    ensures { result ≡ exited_in text.now }
{
    let (time_taken, slow_after) = read_timing(text)?;
    Some(UnitState::Exited {
        result: ExecutionResultDescription::Pass,
        time_taken,
        slow_after,
    })
}

// Reads the parts after `delay`: whether the attempt before was slow, and the wait for the next one.
#[tactic(auto, unfolding(crate::specs::Parts::delay_in))]
fn read_delay(text: &str) -> Option<UnitState>
    ensures { result ≡ delay_in text.now }
{
    let (previous_slow, wait) = split_at_byte(text, b':')?;
    let (waiting_duration, remaining) = read_wait(wait)?;
    Some(UnitState::DelayBeforeNextAttempt {
        previous_result: ExecutionResultDescription::Pass,
        previous_slow: read_flag(previous_slow)?,
        waiting_duration,
        remaining,
    })
}

/// Adds the result to a state of a unit that has ended; the field after the state holds it.
pub fn state_with(
    state: UnitState,
    outcome: Option<ExecutionResultDescription>,
) -> Option<UnitState>
    ensures { result ≡ state_with outcome state }
{
    let mut state = state;
    match &mut state {
        UnitState::Exiting {
            tentative_result,
            ..
        } => *tentative_result = outcome,
        UnitState::Exited { result, .. } => *result = outcome?,
        UnitState::DelayBeforeNextAttempt {
            previous_result,
            ..
        } => *previous_result = outcome?,
        UnitState::Running { .. } | UnitState::Terminating(_) => {}
    }
    Some(state)
}

/// Reads how an attempt ended, or `-`.
///
/// # Errors
///
/// Memory was refused. A bad field is no error but `None`.
pub fn read_result_or_none(alloc: Global, field: &str) -> Field<Option<ExecutionResultDescription>>
    ensures { IfOk result (λ outcome. outcome ≡ result_or_none_in field.now) }
{
    match field {
        "-" => Ok(Some(None)),
        _ => Ok(read_result(alloc, field)?.map(Some)),
    }
}

/// Copies how an attempt ended, if that is known.
///
/// # Errors
///
/// Memory was refused.
pub fn copy_outcome(
    alloc: Global,
    outcome: &Option<ExecutionResultDescription>,
) -> Result<Option<ExecutionResultDescription>, OutOfMemory>
    ensures { IfOk result (λ copy. copy ≡ outcome.now) }
{
    match outcome {
        Some(outcome) => Ok(Some(outcome.try_clone(alloc)?)),
        None => Ok(None),
    }
}

// Reads how long a process has run, and when its unit was marked as slow.
#[tactic(auto, unfolding(crate::specs::Parts::timing_in))]
fn read_timing(text: &str) -> Option<(Nanos, Option<Nanos>)>
    ensures { result ≡ timing_in text.now }
{
    let (time_taken, slow_after) = split_at_byte(text, b':')?;
    Some((read_nanos(time_taken)?, read_slow_after(slow_after)?))
}

// Reads how long something has been waited for, and how much longer it is.
#[tactic(auto, unfolding(crate::specs::Parts::wait_in))]
fn read_wait(text: &str) -> Option<(Nanos, Nanos)>
    ensures { result ≡ wait_in text.now }
{
    let (waited, remaining) = split_at_byte(text, b':')?;
    Some((read_nanos(waited)?, read_nanos(remaining)?))
}

// Reads when a unit was marked as slow, or `-`.
fn read_slow_after(text: &str) -> Option<Option<Nanos>>
    ensures { result ≡ slow_after_in text.now }
{
    match text {
        "-" => Some(None),
        _ => Some(Some(read_nanos(text)?)),
    }
}

// Reads why a process is ended.
fn read_terminate_reason(text: &str) -> Option<UnitTerminateReason>
    ensures { result ≡ terminate_reason_in text.now }
{
    match text {
        "timeout" => Some(UnitTerminateReason::Timeout),
        "signal" => Some(UnitTerminateReason::Signal),
        "interrupt" => Some(UnitTerminateReason::Interrupt),
        _ => None,
    }
}

/// Reads the part of the output to point out: its stream, the place of its first byte, and its bytes; or `-`.
///
/// # Errors
///
/// Memory was refused. A bad field is no error but `None`.
pub fn read_highlight(alloc: Global, field: &str) -> Field<Option<Boxed<Highlight>>>
    ensures { IfOk result (λ highlight. highlight ≡ highlight_in field.now) }
{
    if field == "-" {
        return Ok(Some(None));
    }
    let Some((stream, rest)) = split_at_byte(field, b':') else {
        return Ok(None);
    };
    let Some((start, slice)) = split_at_byte(rest, b':') else {
        return Ok(None);
    };
    let (Some(stream), Some(start)) = (read_highlight_stream(stream), read_count(start)) else {
        return Ok(None);
    };
    let Some(slice) = read_bytes(alloc, slice)? else {
        return Ok(None);
    };
    let highlight = Highlight {
        stream,
        start,
        slice: Bytes::from_vec(slice)?,
    };
    Ok(Some(Some(Boxed::new(alloc, highlight)?)))
}

// Reads the stream of a highlight.
fn read_highlight_stream(field: &str) -> Option<HighlightStream>
    ensures { result ≡ highlight_stream_in field.now }
{
    match field {
        "out" => Some(HighlightStream::Stdout),
        "err" => Some(HighlightStream::Stderr),
        "comb" => Some(HighlightStream::Combined),
        _ => None,
    }
}
