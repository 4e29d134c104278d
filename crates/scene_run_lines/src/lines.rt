//! The lines of a run, of the iterations of a stress run, and of a replay, and of how the run is reported.

ghost use Rattle.std.specs.Prelude.{◌≡◌, IfOk, Ok};
ghost use Rattle.scene_fields.specs.{Calls.call_by_names, Calls.event_call, Fields.Gives, Fields.answered};
ghost use Rattle.scene_fields.specs.Texts.{text_in};
ghost use Rattle.scene_run_lines.specs.Lines.{cancel_line_fields, config_line_fields, end_line_fields};
ghost use Rattle.scene_run_lines.specs.Lines.{end_stress_line_fields, header_line_fields, info_line_fields};
ghost use Rattle.scene_run_lines.specs.Lines.{input_line_fields, kill_line_fields, not_seen_fields};
ghost use Rattle.scene_run_lines.specs.Lines.{continue_line_fields, info_end_line_fields, nothing_counted};
ghost use Rattle.scene_run_lines.specs.Lines.{pause_line_fields, prefix_line_fields, run_line_fields, some_text_in};
ghost use Rattle.scene_run_lines.specs.Lines.{sub_end_line_fields, sub_start_line_fields, unique_prefix_fields};

use super::config::SceneConfig;
use super::parts::{read_moment, read_progress};
use run_model::abort::DescriptionText;
use run_model::call::ReportCall;
use run_model::event::{TestCounts, TestEvent, TestEventKind};
use run_model::level::CancelReason;
use run_model::memory::OutOfMemory;
use run_model::not_seen::NotSeen;
use run_model::replay::ReplayHeader;
use run_model::run_id::ShortestRunIdPrefix;
use run_model::stats::{RunFinishedStats, RunStats, StressRunStats};
use run_model::time::Nanos;
use scene_fields::counts::{read_skips, read_stats};
use scene_fields::fault::{LineError, LineFault};
use scene_fields::fields::Fields;
use scene_fields::lists::read_instances;
use scene_fields::names::read_name;
use scene_fields::numbers::{read_count, read_nanos, read_small_count};
use scene_fields::texts::read_text;
use scene_fields::values::{
    ConfigKey, read_absent, read_config_key, read_display, read_final_level, read_flag, read_mode,
    read_reason_or_none, read_run_id, read_stress_index,
};
use std::alloc::Global;

// What fields spell, or what is wrong with their line.
type Line<T> = Result<T, LineError>;

// The call of a line without a test.
type CallResult<'n> = Line<ReportCall<'n>>;

/// Reads a `config` line: a key and its value. The last line of a key counts.
#[tactic(auto, unfolding(crate::specs::Lines::config_line_fields))]
pub fn read_config(fields: &mut Fields<'_>, config: SceneConfig) -> Result<SceneConfig, LineFault>
    ensures { config_line_fields config fields.old ≡ answered result fields.new }
{
    let mut config = config;
    match fields.read(read_config_key)? {
        ConfigKey::Final => config.final_status_level = fields.read(read_final_level)?,
        ConfigKey::Runs => config.run_count = fields.read(read_count)?,
        ConfigKey::Bench => config.mode = fields.read(read_mode)?,
        ConfigKey::Success => config.success_output = Some(fields.read(read_display)?),
        ConfigKey::Failure => config.failure_output = Some(fields.read(read_display)?),
        ConfigKey::NoCapture => config.no_capture = fields.read(read_flag)?,
        ConfigKey::Verbose => config.verbose = fields.read(read_flag)?,
        ConfigKey::NoIndent => config.no_output_indent = fields.read(read_flag)?,
        ConfigKey::Unicode => config.use_unicode = fields.read(read_flag)?,
        ConfigKey::Empty => config.display_empty_outputs = fields.read(read_flag)?,
    }
    Ok(config)
}

// An event whose time a scene does not have.
#[inline(always)]
fn event<'n>(kind: TestEventKind<'n>) -> CallResult<'n>
    ensures { result ≡ Ok (event_call 0 kind.entry) }
{
    event_at(Nanos(0), kind)
}

// An event at this time.
#[inline(always)]
fn event_at<'n>(elapsed: Nanos, kind: TestEventKind<'n>) -> CallResult<'n>
    ensures { result ≡ Ok (event_call elapsed.0 kind.entry) }
{
    Ok(ReportCall::Event(TestEvent { elapsed, kind }))
}

/// Reads a `run` line: run id, profile, how many tests and binaries, and what is skipped.
pub fn read_run<'n>(alloc: Global, fields: &mut Fields<'_>) -> CallResult<'n>
    ensures { Gives call_by_names fields.old result fields.new run_line_fields }
{
    let run_id = fields.read(read_run_id)?;
    let profile_name = fields.try_read(|field| read_name(alloc, field))?;
    let test_list = TestCounts {
        run_count: fields.read(read_count)?,
        listed_binary_count: fields.read(read_count)?,
        skip_counts: fields.read(read_skips)?,
    };
    event(TestEventKind::RunStarted {
        test_list,
        run_id,
        profile_name,
    })
}

/// Reads an `end` line: how long the run took, its statistics, and the tests that were not seen.
pub fn read_end<'n>(alloc: Global, fields: &mut Fields<'_>) -> CallResult<'n>
    ensures { Gives call_by_names fields.old result fields.new end_line_fields }
{
    let elapsed = fields.read(read_nanos)?;
    let run_stats = RunFinishedStats::Single(fields.read(read_stats)?);
    let outstanding_not_seen = read_not_seen(alloc, fields)?;
    event(TestEventKind::RunFinished {
        elapsed,
        run_stats,
        outstanding_not_seen,
    })
}

/// Reads an `endstress` line: how long the run took, how many iterations have finished, succeeded and failed, the
/// statistics of the last one, and the tests that were not seen.
pub fn read_end_stress<'n>(alloc: Global, fields: &mut Fields<'_>) -> CallResult<'n>
    ensures { Gives call_by_names fields.old result fields.new end_stress_line_fields }
{
    let elapsed = fields.read(read_nanos)?;
    let stats = StressRunStats {
        completed: fields.read(|field| read_stress_index(field).flatten())?,
        success_count: fields.read(read_small_count)?,
        failed_count: fields.read(read_small_count)?,
        last_final_stats: fields.read(read_stats)?.summarize_final(),
    };
    let outstanding_not_seen = read_not_seen(alloc, fields)?;
    event(TestEventKind::RunFinished {
        elapsed,
        run_stats: RunFinishedStats::Stress(stats),
        outstanding_not_seen,
    })
}

// Reads how many tests were not seen, and those of them that are listed.
fn read_not_seen(alloc: Global, fields: &mut Fields<'_>) -> Line<Option<NotSeen>>
    ensures { Gives (λ o. o) fields.old result fields.new not_seen_fields }
{
    let total_not_seen = fields.read(read_count)?;
    let not_seen = fields.try_read(|field| read_instances(alloc, field))?;
    if total_not_seen == 0 && not_seen.as_slice().is_empty() {
        return Ok(None);
    }
    Ok(Some(NotSeen {
        not_seen,
        total_not_seen,
    }))
}

/// Reads a `prefix` line: the part of the run's id that no other run has, and the rest.
pub fn read_prefix<'n>(alloc: Global, fields: &mut Fields<'_>) -> CallResult<'n>
    ensures { Gives call_by_names fields.old result fields.new prefix_line_fields }
{
    let prefix = fields.try_read(|field| read_description(alloc, field))?;
    let rest = fields.try_read(|field| read_description(alloc, field))?;
    let prefix = ShortestRunIdPrefix::new(alloc, prefix.as_str(), rest.as_str())?;
    Ok(ReportCall::Prefix(prefix))
}

/// Reads a `header` line: the run's id, its prefix and the rest, when it started, and how it ended.
pub fn read_header<'n>(alloc: Global, fields: &mut Fields<'_>) -> CallResult<'n>
    ensures { Gives call_by_names fields.old result fields.new header_line_fields }
{
    Ok(ReportCall::Header(ReplayHeader {
        run_id: fields.read(read_run_id)?,
        unique_prefix: read_unique_prefix(alloc, fields)?,
        started_at: fields.read(read_moment)?,
        status: fields.try_read(|field| read_description(alloc, field))?,
    }))
}

// Reads a prefix and the rest of the id, or twice `-`.
fn read_unique_prefix(alloc: Global, fields: &mut Fields<'_>) -> Line<Option<ShortestRunIdPrefix>>
    ensures { Gives (λ p. p) fields.old result fields.new unique_prefix_fields }
{
    let prefix = fields.take()?;
    if prefix == "-" {
        fields.read(read_absent)?; // nor is there a rest
        return Ok(None);
    }
    let prefix = read_description(alloc, prefix)?.ok_or(fields.bad_field())?;
    let rest = fields.try_read(|field| read_some_text(alloc, field))?;
    Ok(Some(ShortestRunIdPrefix::new(alloc, prefix.as_str(), rest.as_str())?))
}

// Reads a text, where `-` is a bad field.
fn read_some_text(alloc: Global, field: &str) -> Result<Option<DescriptionText>, OutOfMemory>
    ensures { IfOk result (λ text. text ≡ some_text_in field.now) }
{
    match field {
        "-" => Ok(None),
        _ => read_description(alloc, field),
    }
}

// Reads a text.
fn read_description(alloc: Global, field: &str) -> Result<Option<DescriptionText>, OutOfMemory>
    ensures { IfOk result (λ text. text ≡ text_in field.now) }
{
    match read_text(alloc, field)? {
        Some(text) => Ok(Some(DescriptionText::new(alloc, text.as_str())?)),
        None => Ok(None),
    }
}

/// Reads a `substart` line: how far the stress run has come.
pub fn read_sub_start<'n>(fields: &mut Fields<'_>) -> CallResult<'n>
    ensures { Gives call_by_names fields.old result fields.new sub_start_line_fields }
{
    let progress = fields.read(read_progress)?;
    event(TestEventKind::StressSubRunStarted { progress })
}

/// Reads a `cancel` line: how many setup scripts and tests run, and the reason. A scene has no counts there.
pub fn read_cancel<'n>(fields: &mut Fields<'_>) -> CallResult<'n>
    ensures { Gives call_by_names fields.old result fields.new cancel_line_fields }
{
    let setup_scripts_running = fields.read(read_count)?;
    let running = fields.read(read_count)?;
    let current_stats = nothing_counted(fields.read(read_reason_or_none)?);
    event(TestEventKind::RunBeginCancel {
        setup_scripts_running,
        current_stats,
        running,
    })
}

/// Reads a `kill` line, as a `cancel` line.
pub fn read_kill<'n>(fields: &mut Fields<'_>) -> CallResult<'n>
    ensures { Gives call_by_names fields.old result fields.new kill_line_fields }
{
    let setup_scripts_running = fields.read(read_count)?;
    let running = fields.read(read_count)?;
    let current_stats = nothing_counted(fields.read(read_reason_or_none)?);
    event(TestEventKind::RunBeginKill {
        setup_scripts_running,
        current_stats,
        running,
    })
}

// Statistics that count nothing, with this reason.
fn nothing_counted(reason: Option<CancelReason>) -> RunStats
    ensures { result ≡ nothing_counted reason }
{
    RunStats {
        cancel_reason: reason,
        ..RunStats::new(0)
    }
}

/// Reads a `pause` line: how many setup scripts and tests run.
pub fn read_pause<'n>(fields: &mut Fields<'_>) -> CallResult<'n>
    ensures { Gives call_by_names fields.old result fields.new pause_line_fields }
{
    let setup_scripts_running = fields.read(read_count)?;
    let running = fields.read(read_count)?;
    event(TestEventKind::RunPaused {
        setup_scripts_running,
        running,
    })
}

/// Reads a `continue` line, as a `pause` line.
pub fn read_continue<'n>(fields: &mut Fields<'_>) -> CallResult<'n>
    ensures { Gives call_by_names fields.old result fields.new continue_line_fields }
{
    let setup_scripts_running = fields.read(read_count)?;
    let running = fields.read(read_count)?;
    event(TestEventKind::RunContinued {
        setup_scripts_running,
        running,
    })
}

/// Reads an `info` line: how long the run has taken, how many units were asked, and its statistics.
pub fn read_info<'n>(fields: &mut Fields<'_>) -> CallResult<'n>
    ensures { Gives call_by_names fields.old result fields.new info_line_fields }
{
    let elapsed = fields.read(read_nanos)?;
    let total = fields.read(read_count)?;
    let run_stats = fields.read(read_stats)?;
    event_at(elapsed, TestEventKind::InfoStarted { total, run_stats })
}

/// Reads an `infoend` line: how many units have not responded.
pub fn read_info_end<'n>(fields: &mut Fields<'_>) -> CallResult<'n>
    ensures { Gives call_by_names fields.old result fields.new info_end_line_fields }
{
    let missing = fields.read(read_count)?;
    event(TestEventKind::InfoFinished { missing })
}

/// Reads an `input` line: how long the run has taken, its statistics, and how many units run.
pub fn read_input<'n>(fields: &mut Fields<'_>) -> CallResult<'n>
    ensures { Gives call_by_names fields.old result fields.new input_line_fields }
{
    let elapsed = fields.read(read_nanos)?;
    let current_stats = fields.read(read_stats)?;
    let running = fields.read(read_count)?;
    let kind = TestEventKind::InputEnter {
        current_stats,
        running,
    };
    event_at(elapsed, kind)
}

/// Reads a `subend` line: how far the stress run has come, how long the iteration took, and its statistics.
pub fn read_sub_end<'n>(fields: &mut Fields<'_>) -> CallResult<'n>
    ensures { Gives call_by_names fields.old result fields.new sub_end_line_fields }
{
    let progress = fields.read(read_progress)?;
    let sub_elapsed = fields.read(read_nanos)?;
    let sub_stats = fields.read(read_stats)?;
    event(TestEventKind::StressSubRunFinished {
        progress,
        sub_elapsed,
        sub_stats,
    })
}
