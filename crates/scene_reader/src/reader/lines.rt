//! The kinds of line that a scene has.

ghost use Rattle.scene_reader.specs.Names.{Gives, by_row, call_by_names, event_line_fields, other_event_rows};
ghost use Rattle.scene_reader.specs.Names.{run_event_rows, unknown};

use run_model::call::ReportCall;
use scene_fields::fault::{LineError, LineFault};
use scene_fields::fields::Fields;
use scene_run_lines::lines::{
    read_cancel, read_continue, read_end, read_end_stress, read_header, read_info, read_info_end,
    read_input, read_kill, read_pause, read_prefix, read_run, read_sub_end, read_sub_start,
};
use scene_unit_lines::lines::{
    TestNames, read_answer_script, read_answer_test, read_done, read_retry, read_retry_start,
    read_setup, read_setup_done, read_setup_slow, read_skip, read_slow, read_start,
};
use std::alloc::Global;

/// Reads the fields after a word, which names the kind of event, into the call that they spell. These are the names of
/// its test. The words of tests come first, since most lines are theirs, but usual `done` and `start` lines are read
/// elsewhere.
#[inline(always)]
#[tactic(auto, unfolding(crate::specs::EventLines::event_rows))]
pub fn read_event<'n, N: TestNames<'n>>(
    alloc: Global,
    names: N,
    word: &str,
    fields: &mut Fields<'_>,
) -> Result<ReportCall<'n>, LineError>
    ensures { Gives call_by_names fields.old result fields.new (event_line_fields word.now) }
{
    match word {
        "retry" => {
            fields.exactly(15)?;
            read_retry(alloc, names, fields)
        }
        "retrystart" => {
            fields.exactly(6)?;
            read_retry_start(alloc, names, fields)
        }
        "slow" => {
            fields.exactly(7)?;
            read_slow(alloc, names, fields)
        }
        "done" => {
            fields.with_attempts()?;
            read_done(alloc, names, fields)
        }
        "start" => {
            fields.exactly(5)?;
            read_start(alloc, names, fields)
        }
        "skip" => {
            fields.exactly(3)?;
            read_skip(alloc, names, fields)
        }
        word => read_other_event(alloc, names, word, fields),
    }
}

// Reads the fields after a word that names no event of a test. Not inlined: the compiler zeroes all locals of a
// function at its entry, used or not.
#[inline(never)]
#[tactic(auto, unfolding(crate::specs::EventLines::other_event_rows))]
fn read_other_event<'n, N: TestNames<'n>>(
    alloc: Global,
    names: N,
    word: &str,
    fields: &mut Fields<'_>,
) -> Result<ReportCall<'n>, LineError>
    ensures { Gives call_by_names fields.old result fields.new (by_row unknown other_event_rows word.now) }
{
    match word {
        "prefix" => {
            fields.exactly(2)?;
            read_prefix(alloc, fields)
        }
        "header" => {
            fields.exactly(5)?;
            read_header(alloc, fields)
        }
        "run" => {
            fields.exactly(5)?;
            read_run(alloc, fields)
        }
        "setup" => {
            fields.exactly(6)?;
            read_setup(alloc, fields)
        }
        "setupslow" => {
            fields.exactly(6)?;
            read_setup_slow(alloc, fields)
        }
        "setupdone" => {
            fields.exactly(12)?;
            read_setup_done(alloc, fields)
        }
        "answer-script" => {
            fields.exactly(13)?;
            read_answer_script(alloc, fields)
        }
        "answer-test" => {
            fields.exactly(14)?;
            read_answer_test(alloc, names, fields)
        }
        "end" => {
            fields.exactly(4)?;
            read_end(alloc, fields)
        }
        "endstress" => {
            fields.exactly(7)?;
            read_end_stress(alloc, fields)
        }
        word => read_run_event(word, fields),
    }
}

// Reads the fields after a word that names an event of the run as it goes on. They hold no text, so none allocates.
#[inline(never)]
#[tactic(auto, unfolding(crate::specs::EventLines::run_event_rows))]
fn read_run_event<'n>(word: &str, fields: &mut Fields<'_>) -> Result<ReportCall<'n>, LineError>
    ensures { Gives call_by_names fields.old result fields.new (by_row unknown run_event_rows word.now) }
{
    match word {
        "substart" => {
            fields.exactly(1)?;
            read_sub_start(fields)
        }
        "cancel" => {
            fields.exactly(3)?;
            read_cancel(fields)
        }
        "kill" => {
            fields.exactly(3)?;
            read_kill(fields)
        }
        "pause" => {
            fields.exactly(2)?;
            read_pause(fields)
        }
        "continue" => {
            fields.exactly(2)?;
            read_continue(fields)
        }
        "info" => {
            fields.exactly(3)?;
            read_info(fields)
        }
        "infoend" => {
            fields.exactly(1)?;
            read_info_end(fields)
        }
        "input" => {
            fields.exactly(3)?;
            read_input(fields)
        }
        "subend" => {
            fields.exactly(3)?;
            read_sub_end(fields)
        }
        _ => Err(LineError::Fault(LineFault::UnknownEvent)),
    }
}
