//! The lines of tests and of setup scripts, their output, and the responses of both when they are asked for their
//! state.

ghost use Rattle.scene_fields.specs.Calls.{by_names, call_by_names, event_call};
ghost use Rattle.scene_fields.specs.Fields.{Gives, answered, field};
ghost use Rattle.{scene_fields.specs.Lists.errors_in, scene_fields.specs.Split.field_texts};
ghost use Rattle.scene_fields.specs.Texts.{bytes_in, text_in};
ghost use Rattle.scene_unit_lines.specs.Lines.{TakesEmptyOutput, TakesStoredOutput, after_streams, all_attempts};
ghost use Rattle.scene_unit_lines.specs.Lines.{answer_fields, answer_script_line_fields, answer_test_line_fields};
ghost use Rattle.scene_unit_lines.specs.Lines.{attempt_fields};
ghost use Rattle.scene_unit_lines.specs.Lines.{attempts_behind, done_line_fields, empty_output_fields, instance_fields};
ghost use Rattle.scene_unit_lines.specs.Lines.{output_fields, retry_fields, retry_line_fields, retry_start_line_fields};
ghost use Rattle.scene_unit_lines.specs.Lines.{script_fields, setup_done_line_fields};
ghost use Rattle.scene_unit_lines.specs.Lines.{setup_line_fields, setup_slow_line_fields, skip_line_fields};
ghost use Rattle.scene_unit_lines.specs.Lines.{slow_line_fields, spelled_output_fields, start_line_fields};
ghost use Rattle.scene_unit_lines.specs.Lines.{state_fields, stream_in};
ghost use Rattle.std.specs.Prelude.{drop, IfOk, IsTrue, ◌++◌, ◌≡◌};

use super::Field;
use super::parts::{copy_outcome, read_highlight, read_result_or_none, read_state, state_with};
use bytes::BytesMut;
use run_model::boxed::{Boxed, Shared};
use run_model::call::ReportCall;
use run_model::command::CommandLine;
use run_model::event::{TestEvent, TestEventKind};
use run_model::info::{InfoResponse, SetupScriptInfoResponse, TestInfoResponse, UnitState};
use run_model::memory::OutOfMemory;
use run_model::name::{
    Name, OwnedTestInstanceId, ProgramName, RustBinaryId, ScriptId, TestCaseName, TestInstanceId,
};
use run_model::output::{
    ChildExecutionOutputDescription, ChildOutputDescription, ChildSingleOutput, ErrorChain,
    LiveSpec,
};
use run_model::status::{
    ExecuteStatus, ExecutionResultDescription, ExecutionStatuses, FlakyResult, RetryData,
    SetupScriptExecuteStatus,
};
use run_model::time::Nanos;
use scene_fields::counts::read_stats;
use scene_fields::fault::{LineError, LineFault};
use scene_fields::fields::Fields;
use scene_fields::lists::{read_chain, read_command_line};
use scene_fields::names::{read_name, replace_name};
use scene_fields::numbers::{read_count, read_nanos, read_small_count};
use scene_fields::results::read_result;
use scene_fields::texts::read_bytes;
use scene_fields::unescape::unescape_in_place;
use scene_fields::values::{
    read_absent, read_display, read_flag, read_flaky_result, read_stress_index,
};
use std::alloc::Global;
use std::mem;

// What fields spell, or what is wrong with their line.
type Line<T> = Result<T, LineError>;

// The call of a line, whose test has names in a buffer.
type CallResult<'n> = Line<ReportCall<'n>>;

/// Names of no test, for the names of lines to take their memory.
pub fn no_names(alloc: Global) -> OwnedTestInstanceId {
    OwnedTestInstanceId {
        binary_id: RustBinaryId::empty(alloc),
        test_name: TestCaseName::empty(alloc),
    }
}

// An event whose time a scene does not have.
#[inline(always)]
fn event(kind: TestEventKind<'_>) -> ReportCall<'_>
    ensures { result ≡ event_call 0 kind.entry }
{
    let elapsed = Nanos(0);
    ReportCall::Event(TestEvent { elapsed, kind })
}

/// Where a line's test has its names.
pub trait TestNames<'n>: Drop {
    /// Reads which test it is: binary id and name.
    ///
    /// # Errors
    ///
    /// Those of the two fields, or refused memory.
    fn read(self, alloc: Global, fields: &mut Fields<'_>) -> Line<TestInstanceId<'n>>
        ensures { Gives by_names fields.old result fields.new instance_fields };
}

/// Names of another test. The line's take their place.
impl<'n> TestNames<'n> for &'n mut OwnedTestInstanceId {
    #[inline(always)]
    #[tactic(auto, unfolding(crate::specs::Lines::instance_fields))]
    fn read(self, alloc: Global, fields: &mut Fields<'_>) -> Line<TestInstanceId<'n>> {
        let OwnedTestInstanceId {
            binary_id,
            test_name,
        } = self;
        read_name_over(alloc, fields, binary_id)?;
        read_name_over(alloc, fields, test_name)?;
        Ok(TestInstanceId {
            binary_id,
            test_name,
        })
    }
}

/// Names that were read of the same line before. Those of another line, or none, count as refused memory.
impl<'n> TestNames<'n> for Option<&'n OwnedTestInstanceId> {
    fn read(self, alloc: Global, fields: &mut Fields<'_>) -> Line<TestInstanceId<'n>> {
        let mut spelled = no_names(alloc);
        let test = (&mut spelled).read(alloc, fields)?;
        match self {
            Some(names)
                if *test.binary_id == names.binary_id && *test.test_name == names.test_name => {
                Ok(TestInstanceId {
                    binary_id: &names.binary_id,
                    test_name: &names.test_name,
                })
            }
            _ => Err(LineError::OutOfMemory),
        }
    }
}

// Reads a name into the place of another one.
#[inline(always)]
fn read_name_over<K>(alloc: Global, fields: &mut Fields<'_>, name: &mut Name<K>) -> Line<()>
    ensures { Gives (λ _. name.new) fields.old result fields.new (field text_in) }
{
    let field = fields.take()?;
    match replace_name(alloc, field, name)? {
        Some(()) => Ok(()),
        None => Err(LineError::Fault(fields.bad_field())),
    }
}

/// Reads a `start` line: the test, the statistics, and the command.
pub fn read_start<'n, N: TestNames<'n>>(
    alloc: Global,
    names: N,
    fields: &mut Fields<'_>,
) -> CallResult<'n>
    ensures { Gives call_by_names fields.old result fields.new start_line_fields }
{
    Ok(event(TestEventKind::TestStarted {
        stress_index: fields.read(read_stress_index)?,
        test_instance: names.read(alloc, fields)?,
        current_stats: fields.read(read_stats)?,
        command_line: fields.try_read(|field| read_command_line(alloc, field))?,
    }))
}

/// Reads a `retrystart` line: the test, the attempt, and the command.
pub fn read_retry_start<'n, N: TestNames<'n>>(
    alloc: Global,
    names: N,
    fields: &mut Fields<'_>,
) -> CallResult<'n>
    ensures { Gives call_by_names fields.old result fields.new retry_start_line_fields }
{
    Ok(event(TestEventKind::TestRetryStarted {
        stress_index: fields.read(read_stress_index)?,
        test_instance: names.read(alloc, fields)?,
        retry_data: read_retry_data(fields)?,
        command_line: fields.try_read(|field| read_command_line(alloc, field))?,
    }))
}

/// Reads a `slow` line: the test, the attempt, how long it has taken, and whether it is ended.
pub fn read_slow<'n, N: TestNames<'n>>(
    alloc: Global,
    names: N,
    fields: &mut Fields<'_>,
) -> CallResult<'n>
    ensures { Gives call_by_names fields.old result fields.new slow_line_fields }
{
    Ok(event(TestEventKind::TestSlow {
        stress_index: fields.read(read_stress_index)?,
        test_instance: names.read(alloc, fields)?,
        retry_data: read_retry_data(fields)?,
        elapsed: fields.read(read_nanos)?,
        will_terminate: fields.read(read_flag)?,
    }))
}

/// Reads a `retry` line: the test, which attempt failed, how long the next one waits, when the output is shown, and the
/// attempt.
pub fn read_retry<'n, N: TestNames<'n>>(
    alloc: Global,
    names: N,
    fields: &mut Fields<'_>,
) -> CallResult<'n>
    ensures { Gives call_by_names fields.old result fields.new retry_line_fields }
{
    let stress_index = fields.read(read_stress_index)?;
    let test_instance = names.read(alloc, fields)?;
    let retry_data = read_retry_data(fields)?;
    let delay_before_next_attempt = fields.read(read_nanos)?;
    let failure_output = fields.read(read_display)?;
    let run_status = read_attempt(alloc, fields, retry_data)?;
    Ok(event(TestEventKind::TestAttemptFailedWillRetry {
        stress_index,
        test_instance,
        run_status,
        delay_before_next_attempt,
        failure_output,
    }))
}

/// Reads a `skip` line: the test.
pub fn read_skip<'n, N: TestNames<'n>>(
    alloc: Global,
    names: N,
    fields: &mut Fields<'_>,
) -> CallResult<'n>
    ensures { Gives call_by_names fields.old result fields.new skip_line_fields }
{
    Ok(event(TestEventKind::TestSkipped {
        stress_index: fields.read(read_stress_index)?,
        test_instance: names.read(alloc, fields)?,
    }))
}

/// Reads a `done` line: the test, when the output of a success and of a failure is shown, what a flaky test counts as,
/// the statistics, how many attempts there can be, and the attempts. Inlined: its call is large, and need not be moved.
#[inline(always)]
pub fn read_done<'n, N: TestNames<'n>>(
    alloc: Global,
    names: N,
    fields: &mut Fields<'_>,
) -> CallResult<'n>
    ensures { Gives call_by_names fields.old result fields.new done_line_fields }
{
    let stress_index = fields.read(read_stress_index)?;
    let test_instance = names.read(alloc, fields)?;
    let success_output = fields.read(read_display)?;
    let failure_output = fields.read(read_display)?;
    let flaky_result = fields.read(read_flaky_result)?;
    let current_stats = fields.read(read_stats)?;
    let total_attempts = fields.read(read_small_count)?;
    Ok(event(TestEventKind::TestFinished {
        stress_index,
        test_instance,
        success_output,
        failure_output,
        run_statuses: read_attempts(alloc, fields, flaky_result, total_attempts)?,
        current_stats,
    }))
}

// Reads which attempt it is, and how many there can be.
#[tactic(auto, unfolding(crate::specs::Lines::retry_fields))]
fn read_retry_data(fields: &mut Fields<'_>) -> Result<RetryData, LineFault>
    ensures { retry_fields fields.old ≡ answered result fields.new }
{
    Ok(RetryData {
        attempt: fields.read(read_small_count)?,
        total_attempts: fields.read(read_small_count)?,
    })
}

// Reads attempts up to the end of the line, which has at least one. Most lines have no more.
#[inline(always)]
#[tactic(auto, unfolding(crate::specs::Lines::all_attempts))]
fn read_attempts(
    alloc: Global,
    fields: &mut Fields<'_>,
    flaky_result: FlakyResult,
    total_attempts: u32,
) -> Line<ExecutionStatuses<LiveSpec>>
    ensures { Gives (λ s. s) fields.old result fields.new (all_attempts flaky_result total_attempts) }
{
    let first = RetryData {
        attempt: 1,
        total_attempts,
    };
    let first = read_attempt(alloc, fields, first)?;
    if fields.len() < 8 {
        return Ok(ExecutionStatuses::with_last(Vec::new(alloc), first, flaky_result));
    }
    read_more_attempts(alloc, fields, flaky_result, total_attempts, first)
}

// Reads attempts that follow the first one, up to the end of the line. Not inlined: the compiler zeroes all locals of a
// function at its entry.
#[inline(never)]
fn read_more_attempts(
    alloc: Global,
    fields: &mut Fields<'_>,
    flaky_result: FlakyResult,
    total_attempts: u32,
    first: ExecuteStatus<LiveSpec>,
) -> Line<ExecutionStatuses<LiveSpec>>
    ensures { Gives (λ s. s) fields.old result fields.new (attempts_behind flaky_result total_attempts first) }
{
    let mut last = first;
    let mut earlier = Vec::new(alloc);
    for number in 2..fields.len() / 8 + 2 {
        let Ok(attempt) = u32::try_from(number) else {
            return Err(LineError::Fault(LineFault::WrongNumberOfFields));
        };
        let retry_data = RetryData {
            attempt,
            total_attempts,
        };
        let next = read_attempt(alloc, fields, retry_data)?;
        earlier.push(mem::replace(&mut last, next))?;
    }
    Ok(ExecutionStatuses::with_last(earlier, last, flaky_result))
}

// Reads an attempt: result, duration, whether it was slow, and its output.
#[inline(always)]
#[tactic(auto, unfolding(crate::specs::Lines::attempt_fields))]
fn read_attempt(
    alloc: Global,
    fields: &mut Fields<'_>,
    retry_data: RetryData,
) -> Line<ExecuteStatus<LiveSpec>>
    ensures { Gives (λ s. s) fields.old result fields.new (attempt_fields retry_data) }
{
    let result = fields.try_read(|field| read_result(alloc, field))?;
    let time_taken = fields.read(read_nanos)?;
    let is_slow = fields.read(read_flag)?;
    let outcome = result.try_clone(alloc)?;
    Ok(ExecuteStatus {
        time_taken,
        retry_data,
        result,
        output: read_attempt_output(alloc, fields, outcome)?,
        is_slow,
    })
}

// Reads what an attempt wrote that ended so. Most wrote nothing, and then it allocates nothing.
#[inline(always)]
fn read_attempt_output(
    alloc: Global,
    fields: &mut Fields<'_>,
    outcome: ExecutionResultDescription,
) -> OutputResult
    ensures { Gives (λ o. o) fields.old result fields.new (output_fields (Some outcome)) }
{
    if take_empty_output(fields)? {
        return Ok(ChildExecutionOutputDescription::silent(outcome));
    }
    read_output(alloc, fields, Some(outcome))
}

/// Reads a `setup` line: the iteration, which script it is of how many, and the script.
pub fn read_setup<'n>(alloc: Global, fields: &mut Fields<'_>) -> CallResult<'n>
    ensures { Gives call_by_names fields.old result fields.new setup_line_fields }
{
    let stress_index = fields.read(read_stress_index)?;
    let index = fields.read(read_count)?;
    let total = fields.read(read_count)?;
    let script = read_script(alloc, fields)?;
    Ok(event(TestEventKind::SetupScriptStarted {
        stress_index,
        index,
        total,
        script_id: script.script_id,
        program: script.program,
        args: script.args,
    }))
}

/// Reads a `setupslow` line: the iteration, the script, how long it has taken, and whether it is ended.
pub fn read_setup_slow<'n>(alloc: Global, fields: &mut Fields<'_>) -> CallResult<'n>
    ensures { Gives call_by_names fields.old result fields.new setup_slow_line_fields }
{
    let stress_index = fields.read(read_stress_index)?;
    let script = read_script(alloc, fields)?;
    let elapsed = fields.read(read_nanos)?;
    let will_terminate = fields.read(read_flag)?;
    Ok(event(TestEventKind::SetupScriptSlow {
        stress_index,
        script_id: script.script_id,
        program: script.program,
        args: script.args,
        elapsed,
        will_terminate,
    }))
}

/// Reads a `setupdone` line: the iteration, the script, and its only attempt.
pub fn read_setup_done<'n>(alloc: Global, fields: &mut Fields<'_>) -> CallResult<'n>
    ensures { Gives call_by_names fields.old result fields.new setup_done_line_fields }
{
    let stress_index = fields.read(read_stress_index)?;
    let script = read_script(alloc, fields)?;
    let attempt = read_attempt(alloc, fields, RetryData::only())?;
    Ok(event(TestEventKind::SetupScriptFinished {
        stress_index,
        script_id: script.script_id,
        program: script.program,
        args: script.args,
        run_status: SetupScriptExecuteStatus {
            time_taken: attempt.time_taken,
            result: attempt.result,
            output: attempt.output,
            is_slow: attempt.is_slow,
        },
    }))
}

// The index of the script, and how many there are.
#[derive(Drop)]
struct ScriptFields {
    script_id: ScriptId,
    program: ProgramName,
    args: CommandLine,
}

// Reads which script it is: its id, the program, and the program's arguments.
#[tactic(auto, unfolding(crate::specs::Lines::script_fields))]
fn read_script(alloc: Global, fields: &mut Fields<'_>) -> Line<ScriptFields>
    ensures { Gives (λ s. s) fields.old result fields.new script_fields }
{
    Ok(ScriptFields {
        script_id: fields.try_read(|field| read_name(alloc, field))?,
        program: fields.try_read(|field| read_name(alloc, field))?,
        args: fields.try_read(|field| read_command_line(alloc, field))?,
    })
}

/// Reads an `answer-script` line: which response it is of how many, the iteration, the script, and its response.
pub fn read_answer_script<'n>(alloc: Global, fields: &mut Fields<'_>) -> CallResult<'n>
    ensures { Gives call_by_names fields.old result fields.new answer_script_line_fields }
{
    let index = fields.read(read_count)?;
    let total = fields.read(read_count)?;
    let stress_index = fields.read(read_stress_index)?;
    let script = read_script(alloc, fields)?;
    let answer = read_answer(alloc, fields)?;
    Ok(event(TestEventKind::InfoResponse {
        index,
        total,
        response: InfoResponse::SetupScript(SetupScriptInfoResponse {
            stress_index,
            script_id: script.script_id,
            program: script.program,
            args: script.args,
            state: answer.state,
            output: answer.output,
        }),
    }))
}

/// Reads an `answer-test` line: which response it is of how many, the test, the attempt, and its response.
pub fn read_answer_test<'n, N: TestNames<'n>>(
    alloc: Global,
    names: N,
    fields: &mut Fields<'_>,
) -> CallResult<'n>
    ensures { Gives call_by_names fields.old result fields.new answer_test_line_fields }
{
    let index = fields.read(read_count)?;
    let total = fields.read(read_count)?;
    let stress_index = fields.read(read_stress_index)?;
    let test_instance = names.read(alloc, fields)?;
    let retry_data = read_retry_data(fields)?;
    let answer = read_answer(alloc, fields)?;
    Ok(event(TestEventKind::InfoResponse {
        index,
        total,
        response: InfoResponse::Test(TestInfoResponse {
            stress_index,
            test_instance,
            retry_data,
            state: answer.state,
            output: answer.output,
        }),
    }))
}

// What a unit that is asked for its state is doing, and what it has written.
#[derive(Drop)]
struct Answer {
    state: Shared<UnitState>,
    output: Boxed<ChildExecutionOutputDescription<LiveSpec>>,
}

// Reads what a unit is doing, how the attempt ended, and what it has written so far.
#[tactic(auto, unfolding(crate::specs::Lines::answer_fields))]
fn read_answer(alloc: Global, fields: &mut Fields<'_>) -> Line<Answer>
    ensures { Gives (λ a. a) fields.old result fields.new answer_fields }
{
    let (state, outcome) = read_unit_state(alloc, fields)?;
    let state = Shared::new(alloc, state)?;
    let output = Boxed::new(alloc, read_output(alloc, fields, outcome)?)?;
    Ok(Answer { state, output })
}

// Reads what a unit is doing, and how the attempt ended.
#[tactic(auto, unfolding(crate::specs::Lines::state_fields))]
fn read_unit_state(
    alloc: Global,
    fields: &mut Fields<'_>,
) -> Line<(UnitState, Option<ExecutionResultDescription>)>
    ensures { Gives (λ s. s) fields.old result fields.new state_fields }
{
    let begun = fields.try_read(|field| read_state(alloc, field))?;
    let outcome = fields.try_read(|field| read_result_or_none(alloc, field))?;
    let copy = copy_outcome(alloc, &outcome)?;
    let state = state_with(begun, copy).ok_or(fields.bad_field())?;
    Ok((state, outcome))
}

// What a unit wrote.
type OutputResult = Line<ChildExecutionOutputDescription<LiveSpec>>;

// Reads what a unit wrote, which ended so if that is known. A stored output is noted, and left unread. Not inlined,
// like `read_more_attempts`.
#[inline(never)]
fn read_output(
    alloc: Global,
    fields: &mut Fields<'_>,
    outcome: Option<ExecutionResultDescription>,
) -> OutputResult
    ensures { Gives (λ o. o) fields.old result fields.new (output_fields outcome) }
{
    if fields.notes_outputs() {
        return read_noted_output(alloc, fields, outcome);
    }
    read_spelled_output(alloc, fields, outcome)
}

// Reads such an output where streams may be stored.
fn read_noted_output(
    alloc: Global,
    fields: &mut Fields<'_>,
    outcome: Option<ExecutionResultDescription>,
) -> OutputResult
    ensures { Gives (λ o. o) fields.old result fields.new (output_fields outcome) }
{
    if take_stored_output(fields)? {
        return read_after_streams(alloc, fields, outcome, ChildOutputDescription::NotLoaded);
    }
    read_spelled_output(alloc, fields, outcome)
}

// Notes the output that comes next, and takes its form and its streams if it is stored.
fn take_stored_output(fields: &mut Fields<'_>) -> Result<bool, OutOfMemory>
    ensures { IfOk result (λ taken. TakesStoredOutput taken fields.old fields.new) }
{
    let stored = fields.next_stored();
    fields.note(stored)?;
    match stored {
        Some(_) => {
            fields.pass(3);
            Ok(true)
        }
        None => Ok(false),
    }
}

// Reads an output as its fields spell it.
#[tactic(auto, unfolding(crate::specs::Lines::spelled_output_fields))]
fn read_spelled_output(
    alloc: Global,
    fields: &mut Fields<'_>,
    outcome: Option<ExecutionResultDescription>,
) -> OutputResult
    ensures { Gives (λ o. o) fields.old result fields.new (spelled_output_fields outcome) }
{
    match fields.take()? {
        "split" => {
            let stdout = take_stream(alloc, fields)?;
            let stderr = take_stream(alloc, fields)?;
            let output = ChildOutputDescription::Split { stdout, stderr };
            read_after_streams(alloc, fields, outcome, output)
        }
        "comb" => {
            let output = take_single(alloc, fields)?;
            fields.read(read_absent)?;
            let output = ChildOutputDescription::Combined { output };
            read_after_streams(alloc, fields, outcome, output)
        }
        "unloaded" => {
            fields.read(read_absent)?;
            fields.read(read_absent)?;
            read_after_streams(alloc, fields, outcome, ChildOutputDescription::NotLoaded)
        }
        "start" => {
            let error = fields.try_read(|field| read_chain(alloc, field))?;
            fields.read(read_absent)?;
            fields.read(read_absent)?;
            fields.read(read_absent)?;
            Ok(ChildExecutionOutputDescription::StartError(error))
        }
        _ => Err(LineError::Fault(fields.bad_field())),
    }
}

// Takes the five fields of an empty output, if they come next, and counts it.
#[inline(always)]
fn take_empty_output(fields: &mut Fields<'_>) -> Result<bool, OutOfMemory>
    ensures { IfOk result (λ taken. TakesEmptyOutput taken fields.old fields.new) }
{
    if !is_empty_output(fields.borrowed()) {
        return Ok(false);
    }
    fields.note(None)?;
    fields.pass(5);
    Ok(true)
}

// Whether the next fields are those of an empty output.
fn is_empty_output(fields: &[&str]) -> bool
    ensures { IsTrue result → field_texts fields.now ≡ empty_output_fields ++ drop 5 (field_texts fields.now) }
{
    match fields {
        [form, stdout, stderr, errors, highlight, ..] => {
            stdout.is_empty()
                && stderr.is_empty()
                && matches!((*form, *errors, *highlight), ("split", "-", "-"))
        }
        _ => false,
    }
}

// Reads the errors and the highlight that follow the streams.
#[tactic(auto, unfolding(crate::specs::Lines::after_streams))]
fn read_after_streams(
    alloc: Global,
    fields: &mut Fields<'_>,
    outcome: Option<ExecutionResultDescription>,
    output: ChildOutputDescription,
) -> OutputResult
    ensures { Gives (λ o. o) fields.old result fields.new (after_streams outcome output) }
{
    Ok(ChildExecutionOutputDescription::Output {
        result: outcome,
        output,
        errors: fields.try_read(|field| read_errors(alloc, field))?,
        highlight: fields.try_read(|field| read_highlight(alloc, field))?,
    })
}

// Takes a stream's bytes, or `-` where it was not captured.
fn take_stream(alloc: Global, fields: &mut Fields<'_>) -> Line<Option<ChildSingleOutput>>
    ensures { Gives (λ stream. stream) fields.old result fields.new (field stream_in) }
{
    match fields.take_memory(alloc) {
        Some(memory) => Ok(Some(decode(alloc, memory)?.ok_or(fields.bad_field())?)),
        None => fields.try_read(|text| read_stream(alloc, text)),
    }
}

// Takes the bytes of both streams together.
fn take_single(alloc: Global, fields: &mut Fields<'_>) -> Line<ChildSingleOutput>
    ensures { Gives (λ output. output) fields.old result fields.new (field bytes_in) }
{
    match fields.take_memory(alloc) {
        Some(memory) => Ok(decode(alloc, memory)?.ok_or(fields.bad_field())?),
        None => fields.try_read(|text| read_single(alloc, text)),
    }
}

// Decodes the bytes of one stream, or of both together, in the memory of their field unless it is much larger.
fn decode(alloc: Global, field: BytesMut) -> Field<ChildSingleOutput>
    ensures { IfOk result (λ output. output ≡ bytes_in field.items) }
{
    let mut bytes = field;
    let most = bytes.len() / 2;
    let Some(len) = unescape_in_place(bytes.as_mut_slice()) else {
        return Ok(None);
    };
    bytes.truncate(len);
    if len < most {
        // A copy: the field is up to four times as large.
        let bytes = Vec::from_slice(alloc, bytes.as_slice())?;
        return Ok(Some(ChildSingleOutput::from_vec(alloc, bytes)?));
    }
    Ok(Some(ChildSingleOutput::new(alloc, bytes.freeze()?)?))
}

// Reads a stream's bytes, or `-` where it was not captured.
#[tactic(auto, unfolding(scene_fields::specs::Texts::unescaped_after))]
fn read_stream(alloc: Global, field: &str) -> Field<Option<ChildSingleOutput>>
    ensures { IfOk result (λ stream. stream ≡ stream_in field.now) }
{
    match field {
        "-" => Ok(Some(None)),
        "" => Ok(Some(Some(ChildSingleOutput::empty()))),
        _ => Ok(read_single(alloc, field)?.map(Some)),
    }
}

// Reads the bytes of one stream, or of both together.
fn read_single(alloc: Global, field: &str) -> Field<ChildSingleOutput>
    ensures { IfOk result (λ output. output ≡ bytes_in field.now) }
{
    match read_bytes(alloc, field)? {
        Some(bytes) => Ok(Some(ChildSingleOutput::from_vec(alloc, bytes)?)),
        None => Ok(None),
    }
}

// Reads what went wrong while an attempt was run, or `-`.
fn read_errors(alloc: Global, field: &str) -> Field<Option<ErrorChain>>
    ensures { IfOk result (λ errors. errors ≡ errors_in field.now) }
{
    match field {
        "-" => Ok(Some(None)),
        _ => Ok(read_chain(alloc, field)?.map(Some)),
    }
}
