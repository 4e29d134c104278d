//! The text of an event. Each event's own text is in the crates `test_text`, `run_text` or `info_text`.

ghost use Rattle.std.specs.Prelude.{◌≡◌, None, false, nat_lt};
ghost use Rattle.{writers.specs.Writer.Puts, run_names.specs.Levels.reason_rank, report_words.specs.Parts.paint};
ghost use Rattle.{text_parts.specs.Script.script_of};
ghost use Rattle.reporter_state.specs.Names.{IsFinishOf, hiding_rank, lacks_output, decider_by};
ghost use Rattle.console_reporter.specs.Names.{known_by, end_of_run_text, event_text, listed_text, script_by};

use info_text::response::write_info_response;
use info_text::start::{write_info_finished, write_info_started};
use reporter_state::finished_attempts::FinishedAttempts;
use reporter_state::state::ReporterState;
use run_model::command::CommandLine;
use run_model::event::{TestEvent, TestEventKind};
use run_model::level::CancelReason;
use run_model::name::{ProgramName, ScriptId};
use run_model::not_seen::NotSeen;
use run_model::stats::RunFinishedStats;
use run_model::stress::StressIndex;
use run_model::time::Nanos;
use run_text::cancel::{write_begin_cancel, write_begin_kill};
use run_text::input::write_input_enter;
use run_text::not_seen::write_not_seen;
use run_text::pause::{write_run_continued, write_run_paused};
use run_text::setup_script::{
    write_setup_script_finished, write_setup_script_slow, write_setup_script_started,
};
use run_text::start::write_run_started;
use run_text::stress::{write_stress_sub_run_finished, write_stress_sub_run_started};
use run_text::summary::write_run_finished;
use test_text::test_finished::write_test_finished;
use test_text::test_retry::write_attempt_failed;
use test_text::test_skipped::write_test_skipped;
use test_text::test_slow::write_test_slow;
use test_text::test_started::{write_test_retry_started, write_test_started};
use text_parts::script::ScriptInstance;
use text_parts::settings::Settings;
use unit_report::formatters::write_final_warnings;
use writers::write_str::{WriteFault, WriteStr};

/// Writes the text of an event: one arm for each kind, in the order of the definition `event_text`. `finished` is the
/// test that the event finishes, if it does.
///
/// # Errors
///
/// The writer's fault. It has accepted a prefix of the text.
#[tactic(auto, unfolding(crate::specs::Report::event_text))]
pub fn write_event_text<W: WriteStr>(
    w: &mut W,
    state: &ReporterState,
    event: &TestEvent<'_>,
    finished: Option<&FinishedAttempts<'_, '_>>,
) -> Result<(), WriteFault>
    requires finished { IsFinishOf state.now.settings (reason_rank state.now.cancel_status) event.now.kind finished }
    requires accepted { lacks_output (decider_by state.now.settings None) event.now.kind ≡ false }
    ensures { Puts W.meaning w.old
        (event_text state.now.settings (known_by state.now) event.now.elapsed.0 event.now.kind) result w.new }
{
    let settings = &state.settings;
    match &event.kind {
        TestEventKind::RunStarted {
            test_list,
            run_id,
            profile_name,
        } => {
            let prefix = &state.unique_prefix;
            write_run_started(w, settings, prefix, test_list, run_id, profile_name)
        }
        TestEventKind::StressSubRunStarted { progress } => {
            write_stress_sub_run_started(w, settings, progress)
        }
        TestEventKind::SetupScriptStarted {
            stress_index,
            index,
            total,
            script_id,
            program,
            args,
        } => {
            let script = script_of_event(*stress_index, script_id, program, args);
            write_setup_script_started(w, &settings.styles, *index, *total, script)
        }
        TestEventKind::SetupScriptSlow {
            stress_index,
            script_id,
            program,
            args,
            elapsed,
            will_terminate,
        } => {
            let script = script_of_event(*stress_index, script_id, program, args);
            write_setup_script_slow(w, settings, script, *elapsed, *will_terminate)
        }
        TestEventKind::SetupScriptFinished {
            stress_index,
            script_id,
            program,
            args,
            run_status,
        } => {
            let script = script_of_event(*stress_index, script_id, program, args);
            write_setup_script_finished(w, settings, script, run_status)
        }
        TestEventKind::TestStarted {
            stress_index,
            test_instance: test,
            current_stats: stats,
            command_line: command,
        } => write_test_started(w, settings, *stress_index, *test, stats, command),
        TestEventKind::TestSlow {
            stress_index,
            test_instance: test,
            retry_data: retry,
            elapsed,
            will_terminate: ends,
        } => write_test_slow(w, settings, *stress_index, *test, *retry, *elapsed, *ends),
        TestEventKind::TestAttemptFailedWillRetry {
            stress_index,
            test_instance: test,
            run_status: status,
            delay_before_next_attempt: delay,
            failure_output: display,
        } => write_attempt_failed(w, settings, *stress_index, *test, status, *delay, *display),
        TestEventKind::TestRetryStarted {
            stress_index,
            test_instance: test,
            retry_data: retry,
            command_line: command,
        } => write_test_retry_started(w, settings, *stress_index, *test, *retry, command),
        TestEventKind::TestFinished { .. } => match finished {
            Some(attempts) => write_test_finished(w, settings, &attempts.finished),
            None => Ok(()),
        },
        TestEventKind::TestSkipped {
            stress_index,
            test_instance,
        } => write_test_skipped(w, settings, *stress_index, *test_instance),
        TestEventKind::RunBeginCancel {
            setup_scripts_running: scripts,
            current_stats: stats,
            running,
        } => write_begin_cancel(w, settings, *scripts, stats.cancel_reason, *running),
        TestEventKind::RunBeginKill {
            setup_scripts_running: scripts,
            current_stats: stats,
            running,
        } => write_begin_kill(w, settings, *scripts, stats.cancel_reason, *running),
        TestEventKind::RunPaused {
            setup_scripts_running,
            running,
        } => write_run_paused(w, settings, *setup_scripts_running, *running),
        TestEventKind::RunContinued {
            setup_scripts_running,
            running,
        } => write_run_continued(w, settings, *setup_scripts_running, *running),
        TestEventKind::InfoStarted { total, run_stats } => {
            write_info_started(w, settings, event.elapsed, *total, run_stats)
        }
        TestEventKind::InfoResponse {
            index,
            total,
            response,
        } => write_info_response(w, settings, *index, *total, response),
        TestEventKind::InfoFinished { missing } => write_info_finished(w, settings, *missing),
        TestEventKind::InputEnter {
            current_stats,
            running,
        } => write_input_enter(w, &settings.styles, event.elapsed, current_stats, *running),
        TestEventKind::StressSubRunFinished {
            progress,
            sub_elapsed,
            sub_stats,
        } => write_stress_sub_run_finished(w, settings, progress, *sub_elapsed, sub_stats),
        TestEventKind::RunFinished {
            elapsed,
            run_stats,
            outstanding_not_seen,
        } => write_end_of_run(w, state, *elapsed, run_stats, outstanding_not_seen),
    }
}

fn script_of_event<'e>(
    stress_index: Option<StressIndex>,
    script_id: &'e ScriptId,
    program: &'e ProgramName,
    args: &'e CommandLine,
) -> ScriptInstance<'e>
    ensures { script_of result ≡ script_by stress_index script_id.now program.now args.now }
{
    ScriptInstance {
        stress_index,
        script_id,
        program,
        args,
    }
}

// The summary, the entries, the tests that were not seen, and the warnings.
fn write_end_of_run<W: WriteStr>(
    w: &mut W,
    state: &ReporterState,
    elapsed: Nanos,
    run_stats: &RunFinishedStats,
    outstanding_not_seen: &Option<NotSeen>,
) -> Result<(), WriteFault>
    ensures { Puts W.meaning w.old
        (paint state.now.settings.styles
        (end_of_run_text state.now.settings (known_by state.now) elapsed.0 run_stats.now
        outstanding_not_seen.now))
        result w.new }
{
    let settings = &state.settings;
    write_run_finished(w, settings, elapsed, run_stats)?;
    write_listed(w, state)?;
    write_not_seen(w, settings, outstanding_not_seen)?;
    write_final_warnings(settings.mode, run_stats.final_stats(), &settings.styles, w)
}

#[tactic(auto, unfolding(crate::specs::Report::listed_text))]
fn write_listed<W: WriteStr>(w: &mut W, state: &ReporterState) -> Result<(), WriteFault>
    ensures { Puts W.meaning w.old
        (paint state.now.settings.styles (listed_text state.now.settings (known_by state.now))) result w.new }
{
    if shows_entries(state.cancel_status) {
        state.kept.write(w, &state.settings)
    } else {
        Ok(())
    }
}

fn shows_entries(reason: Option<CancelReason>) -> bool
    ensures { result ≡ nat_lt (reason_rank reason) hiding_rank }
{
    match reason {
        None => true,
        Some(reason) => CancelReason::Interrupt.is_above(reason),
    }
}
