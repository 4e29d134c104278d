//! The usual lines, and the calls that they say.
//!
//! Most lines of most scenes are the `done` and `start` lines of tests in no stress run that passed or ended with an
//! exit code at their first attempt, and were not slow. Such a line is read in place. Any other line, and any with a
//! fault, is split into fields, which are read one by one.

ghost use Rattle.std.specs.Prelude.{◌≡◌, ◌∷◌, ◌++◌, [], IfOk, IfSome, codes};
ghost use Rattle.scene_fields.specs.{Calls.call_by_names, Results.result_in, Split.BeginsWith, Split.split_on};
ghost use Rattle.scene_fields.specs.Values.{display_in, flaky_in};
ghost use Rattle.scene_unit_lines.specs.Lines.{stream_in};
ghost use Rattle.scene_reader.specs.Usual.{BeginsWithOutcome, SaysEvent, SaysFields, start_event};
ghost use Rattle.scene_reader.specs.Usual.{usual_event, usual_result};

use run_model::call::ReportCall;
use run_model::command::CommandLine;
use run_model::config::TestOutputDisplay;
use run_model::event::{TestEvent, TestEventKind};
use run_model::memory::OutOfMemory;
use run_model::name::OwnedTestInstanceId;
use run_model::output::{
    ChildExecutionOutputDescription, ChildOutputDescription, ChildSingleOutput,
};
use run_model::stats::RunStats;
use run_model::status::{
    ExecuteStatus, ExecutionResultDescription, ExecutionStatuses, FailureDescription, FlakyResult,
    RetryData,
};
use run_model::time::Nanos;
use scene_fields::counts::read_stats;
use scene_fields::lists::read_command_line;
use scene_fields::names::replace_names;
use scene_fields::numbers::{cut_nanos, read_code, read_small_count};
use scene_fields::split::{cut_field, cut_two_fields, split_at_byte, strip_front};
use scene_fields::texts::read_bytes;
use scene_fields::values::{read_display, read_flaky_result};
use std::alloc::Global;

// The value of a field, if it has one.
type Field<T> = Result<Option<T>, OutOfMemory>;

/// The values of a usual `done` line, except the names.
#[derive(Drop)]
pub struct UsualDone {
    values: UsualValues,
    current_stats: RunStats,
    stdout: Option<ChildSingleOutput>,
    stderr: Option<ChildSingleOutput>,
}

// The values of its other fields.
#[derive(Clone, Copy)]
struct UsualValues {
    success_output: TestOutputDisplay,
    failure_output: TestOutputDisplay,
    flaky_result: FlakyResult,
    total_attempts: u32,
    exit_code: Option<i32>,
    time_taken: Nanos,
}

// The fields of a usual `done` line, of which these values are read.
#[derive(Clone, Copy)]
struct UsualFields<'t> {
    values: UsualValues,
    names: &'t str,
    binary_id: &'t str,
    test_name: &'t str,
    stats: &'t str,
    stdout: &'t str,
    stderr: &'t str,
}

/// What a usual `start` line says. Its names are read beside it.
#[derive(Drop)]
pub struct UsualStart {
    current_stats: RunStats,
    command_line: CommandLine,
}

// The fields of a usual `start` line.
#[derive(Clone, Copy)]
struct StartFields<'t> {
    names: &'t str,
    binary_id: &'t str,
    test_name: &'t str,
    stats: &'t str,
    command_line: &'t str,
}

/// Reads a usual `done` line, and replaces the names. None for any other line; the names are then unspecified.
///
/// # Errors
///
/// Memory was refused.
#[inline(always)]
pub fn read_usual(alloc: Global, line: &str, names: &mut OwnedTestInstanceId) -> Field<UsualDone>
    ensures { IfOk result (λ usual. IfSome usual (λ u. SaysEvent line.now (usual_event names.new u))) }
{
    let Some(usual) = cut_fields(line) else {
        return Ok(None);
    };
    let Some(()) = replace_names(alloc, usual.names, usual.binary_id, usual.test_name, names)?
    else {
        return Ok(None);
    };
    let Some(stdout) = read_stream(alloc, usual.stdout)? else {
        return Ok(None);
    };
    let Some(stderr) = read_stream(alloc, usual.stderr)? else {
        return Ok(None);
    };
    let Some(current_stats) = read_stats(usual.stats) else {
        return Ok(None);
    };
    Ok(Some(UsualDone {
        values: usual.values,
        current_stats,
        stdout,
        stderr,
    }))
}

// Cuts a usual `done` line into its fields, and reads those that allocate nothing. The line is read in place, from left
// to right: what is the same in all usual lines is compared, and other fields are searched for their tabs.
#[inline(always)]
fn cut_fields(line: &str) -> Option<UsualFields<'_>>
    ensures fields { IfSome result (SaysFields (split_on 9 line.now)) }
    ensures names { IfSome result (λ u. u.names.now ≡ u.binary_id.now ++ 9 ∷ u.test_name.now) }
{
    let (names, binary_id, test_name, rest) = cut_two_fields(strip_front(line, b"done\t-\t")?)?;
    let (success_output, rest) = cut_display(rest)?;
    let (failure_output, rest) = cut_display(rest)?;
    let (flaky_result, rest) = cut_flaky_result(rest)?;
    let (stats, rest) = cut_field(rest)?;
    let (total_attempts, exit_code, rest) = cut_outcome(rest)?;
    let (time_taken, rest) = cut_nanos(rest)?;
    let (stdout, stderr) = cut_streams(rest)?;
    Some(UsualFields {
        values: UsualValues {
            success_output,
            failure_output,
            flaky_result,
            total_attempts,
            exit_code,
            time_taken,
        },
        names,
        binary_id,
        test_name,
        stats,
        stdout,
        stderr,
    })
}

// Reads when an output is shown, which is mostly never, and cuts it off.
#[inline(always)]
#[tactic(auto, unfolding(scene_fields::specs::Split::split_on))]
fn cut_display(line: &str) -> Option<(TestOutputDisplay, &str)>
    ensures { IfSome result (λ x. BeginsWith display_in line.now x.0 x.1.now) }
{
    if let Some(rest) = strip_front(line, b"never\t") {
        return Some((TestOutputDisplay::Never, rest));
    }
    let (field, rest) = cut_field(line)?;
    Some((read_display(field)?, rest))
}

// Reads what a flaky test counts as, which is mostly a pass, and cuts it off.
#[inline(always)]
#[tactic(auto, unfolding(scene_fields::specs::Split::split_on))]
fn cut_flaky_result(line: &str) -> Option<(FlakyResult, &str)>
    ensures { IfSome result (λ x. BeginsWith flaky_in line.now x.0 x.1.now) }
{
    if let Some(rest) = strip_front(line, b"pass\t") {
        return Some((FlakyResult::Pass, rest));
    }
    let (field, rest) = cut_field(line)?;
    Some((read_flaky_result(field)?, rest))
}

// Reads how many attempts there can be, and the exit code of a failure, and cuts both off. A pass has no code.
#[inline(always)]
#[tactic(auto, using(crate::proofs::lemmas::Usual::one_passed))]
fn cut_outcome(line: &str) -> Option<(u32, Option<i32>, &str)>
    ensures { IfSome result (λ x. BeginsWithOutcome line.now x.0 x.1 x.2.now) }
{
    if let Some(rest) = strip_front(line, b"1\tpass\t") {
        return Some((1, None, rest));
    }
    let (total, rest) = cut_field(line)?;
    let (outcome, rest) = cut_field(rest)?;
    Some((read_small_count(total)?, read_outcome(outcome)?, rest))
}

// Reads the exit code of a failure. A pass has none.
#[inline(always)]
#[tactic(auto, unfolding(scene_fields::specs::Results::result_in, scene_fields::specs::Split::cut))]
fn read_outcome(field: &str) -> Option<Option<i32>>
    ensures { IfSome result (λ code. result_in field.now ≡ Some (usual_result code)) }
{
    match field {
        "pass" => Some(None),
        _ => Some(Some(read_code(field.strip_prefix("fail:")?)?)),
    }
}

// Cuts off what follows the time of an attempt that was not slow: mostly two empty streams, and no error.
#[inline(always)]
#[tactic(auto, unfolding(scene_fields::specs::Split::split_on))]
fn cut_streams(line: &str) -> Option<(&str, &str)>
    ensures { IfSome result (λ x. split_on 9 line.now
        ≡ codes "0" ∷ codes "split" ∷ x.0.now ∷ x.1.now ∷ codes "-" ∷ codes "-" ∷ []) }
{
    let streams = strip_front(line, b"0\tsplit\t")?;
    if matches!(strip_front(streams, b"\t\t-\t-"), Some(rest) if rest.is_empty()) {
        return Some(("", ""));
    }
    let (stdout, rest) = split_at_byte(streams, b'\t')?;
    let (stderr, rest) = split_at_byte(rest, b'\t')?;
    if !matches!(rest, "-\t-") {
        return None;
    }
    Some((stdout, stderr))
}

// Reads a stream's bytes, or `-` if it was not captured. None is a bad field. Most streams are empty.
#[inline(always)]
#[tactic(auto, unfolding(scene_fields::specs::Texts::unescaped_after))]
fn read_stream(alloc: Global, field: &str) -> Field<Option<ChildSingleOutput>>
    ensures { IfOk result (λ stream. stream ≡ stream_in field.now) }
{
    if field.is_empty() {
        return Ok(Some(Some(ChildSingleOutput::empty())));
    }
    read_written(alloc, field)
}

// Reads a stream that is not empty.
#[inline(never)]
fn read_written(alloc: Global, field: &str) -> Field<Option<ChildSingleOutput>>
    ensures { IfOk result (λ stream. stream ≡ stream_in field.now) }
{
    if field == "-" {
        return Ok(Some(None));
    }
    match read_bytes(alloc, field)? {
        Some(bytes) => Ok(Some(Some(ChildSingleOutput::from_vec(alloc, bytes)?))),
        None => Ok(None),
    }
}

/// Reads a usual `start` line, and replaces the names. None for any other line; the names are then unspecified.
///
/// # Errors
///
/// Memory was refused.
#[inline(always)]
pub fn read_usual_start(
    alloc: Global,
    line: &str,
    names: &mut OwnedTestInstanceId,
) -> Field<UsualStart>
    ensures { IfOk result (λ usual. IfSome usual (λ u. SaysEvent line.now (start_event names.new u))) }
{
    let Some(start) = cut_start(line) else {
        return Ok(None);
    };
    let Some(()) = replace_names(alloc, start.names, start.binary_id, start.test_name, names)?
    else {
        return Ok(None);
    };
    let Some(command_line) = read_command_line(alloc, start.command_line)? else {
        return Ok(None);
    };
    let Some(current_stats) = read_stats(start.stats) else {
        return Ok(None);
    };
    Ok(Some(UsualStart {
        current_stats,
        command_line,
    }))
}

// Cuts a usual `start` line into its fields.
#[inline(always)]
fn cut_start(line: &str) -> Option<StartFields<'_>>
    ensures fields { IfSome result (λ u. split_on 9 line.now
        ≡ codes "start" ∷ codes "-" ∷ u.binary_id.now ∷ u.test_name.now ∷ u.stats.now ∷ u.command_line.now
        ∷ []) }
    ensures names { IfSome result (λ u. u.names.now ≡ u.binary_id.now ++ 9 ∷ u.test_name.now) }
{
    let (names, binary_id, test_name, rest) = cut_two_fields(strip_front(line, b"start\t-\t")?)?;
    let (stats, command_line) = cut_field(rest)?;
    match split_at_byte(command_line, b'\t') {
        Some(_) => None,
        None => Some(StartFields {
            names,
            binary_id,
            test_name,
            stats,
            command_line,
        }),
    }
}

impl UsualStart {
    /// The call of the line.
    #[inline(always)]
    pub fn into_call(self, names: &OwnedTestInstanceId) -> ReportCall<'_>
        ensures { call_by_names result ≡ start_event names.now self }
    {
        ReportCall::Event(TestEvent {
            elapsed: Nanos(0),
            kind: TestEventKind::TestStarted {
                stress_index: None,
                test_instance: names.as_ref(),
                current_stats: self.current_stats,
                command_line: self.command_line,
            },
        })
    }
}

impl UsualDone {
    /// The call of the line.
    #[inline(always)]
    pub fn into_call(self, alloc: Global, names: &OwnedTestInstanceId) -> ReportCall<'_>
        ensures { call_by_names result ≡ usual_event names.now self }
    {
        let UsualDone {
            values,
            current_stats,
            stdout,
            stderr,
        } = self;
        ReportCall::Event(TestEvent {
            elapsed: Nanos(0),
            kind: TestEventKind::TestFinished {
                stress_index: None,
                test_instance: names.as_ref(),
                success_output: values.success_output,
                failure_output: values.failure_output,
                run_statuses: ExecutionStatuses::with_last(
                    Vec::new(alloc),
                    ExecuteStatus {
                        time_taken: values.time_taken,
                        retry_data: RetryData {
                            attempt: 1,
                            total_attempts: values.total_attempts,
                        },
                        result: outcome(values.exit_code),
                        output: ChildExecutionOutputDescription::Output {
                            result: Some(outcome(values.exit_code)),
                            output: ChildOutputDescription::Split { stdout, stderr },
                            errors: None,
                            highlight: None,
                        },
                        is_slow: false,
                    },
                    values.flaky_result,
                ),
                current_stats,
            },
        })
    }
}

// How the attempt ended.
#[inline(always)]
fn outcome(exit_code: Option<i32>) -> ExecutionResultDescription
    ensures { result ≡ usual_result exit_code }
{
    match exit_code {
        None => ExecutionResultDescription::Pass,
        Some(code) => ExecutionResultDescription::Fail {
            failure: FailureDescription::ExitCode { code },
            leaked: false,
        },
    }
}
