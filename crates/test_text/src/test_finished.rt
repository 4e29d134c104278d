//! A finished test, and its text during the run.

ghost use Rattle.std.specs.Prelude.{◌≡◌};
ghost use Rattle.{run_names.specs.Levels.reason_rank, writers.specs.Writer.Puts, report_words.specs.Parts.paint};
ghost use Rattle.test_text.specs.TestFinished.{HasShownOutput, finish_of, line_at_once, output_at_once, test_finish};
ghost use Rattle.test_text.specs.TestFinished.{test_finished_text};

use crate::status_line::{StatusLine, StatusLineKind, write_status_line};
use run_model::config::TestOutputDisplay;
use run_model::level::CancelReason;
use run_model::name::TestInstanceId;
use run_model::output::LiveSpec;
use run_model::stats::RunStats;
use run_model::status::{ExecutionDescription, ExecutionStatuses};
use run_model::stress::StressIndex;
use text_parts::attempt_output::write_test_execute_status;
use text_parts::finish::OutputTiming;
use text_parts::instance::CountedInstance;
use text_parts::settings::Settings;
use writers::write_str::{WriteFault, WriteStr};

/// A finished test: what its line, its output and its entry in the summary need.
#[derive(Clone, Copy)]
pub struct FinishedTest<'e, 'a> {
    /// The test.
    pub test: CountedInstance<'a>,
    /// Its attempts.
    pub describe: ExecutionDescription<'e, LiveSpec>,
    /// When the output of the last attempt should be shown.
    pub display: TestOutputDisplay,
    /// When that output is shown, since a cancel reason can hide it.
    pub row: OutputTiming,
}

impl<'e, 'a> FinishedTest<'e, 'a> {
    /// The test that finished, in a run that was cancelled for this reason before.
    #[inline(always)]
    pub fn new(
        settings: &Settings,
        reason: Option<CancelReason>,
        stress_index: Option<StressIndex>,
        instance: TestInstanceId<'a>,
        success_output: TestOutputDisplay,
        failure_output: TestOutputDisplay,
        run_statuses: &'e ExecutionStatuses<LiveSpec>,
        stats: &RunStats,
    ) -> FinishedTest<'e, 'a>
        ensures { finish_of result
            ≡ test_finish settings.now (reason_rank reason) stress_index instance.entry success_output failure_output
            run_statuses.now stats.now }
    {
        let describe = run_statuses.describe();
        FinishedTest {
            test: CountedInstance {
                stress_index,
                counter: settings.finished_counter(stats),
                instance,
            },
            describe,
            display: settings.display_of(success_output, failure_output, &describe),
            row: OutputTiming::of_test(reason, &describe.last_status().result),
        }
    }
}

/// Writes the line of a finished test if its level is shown, and the output of its last attempt if that is
/// shown immediately. That output must be loaded.
///
/// ```
/// let never = TestOutputDisplay::Never;
/// let finished = FinishedTest::new(&settings, None, None, test.as_ref(), never, never, &statuses, &stats);
/// write_test_finished(&mut out, &settings, &finished)?;
/// assert_eq!(out.as_str(), "        PASS [   0.020s] alpha t1\n");
/// ```
///
/// # Errors
///
/// The writer's fault. It has accepted a prefix of the text.
#[inline(always)]
#[tactic(auto, unfolding(crate::specs::TestFinished::test_finished_text))]
pub fn write_test_finished<W: WriteStr>(
    w: &mut W,
    settings: &Settings,
    finished: &FinishedTest<'_, '_>,
) -> Result<(), WriteFault>
    requires { HasShownOutput (finish_of finished.now) }
    ensures { Puts W.meaning w.old
        (paint settings.now.styles (test_finished_text settings.now (finish_of finished.now))) result w.new }
{
    write_line_at_once(w, settings, finished)?;
    write_output_at_once(w, settings, finished)
}

#[tactic(auto, unfolding(crate::specs::TestFinished::line_at_once))]
fn write_line_at_once<W: WriteStr>(
    w: &mut W,
    settings: &Settings,
    finished: &FinishedTest<'_, '_>,
) -> Result<(), WriteFault>
    ensures { Puts W.meaning w.old (paint settings.now.styles (line_at_once settings.now (finish_of finished.now)))
        result w.new }
{
    if settings.is_line_shown(&finished.describe) {
        let line = StatusLine::of_description(&finished.describe);
        write_status_line(
            w,
            &settings.styles,
            StatusLineKind::Intermediate,
            &finished.test,
            line,
        )
    } else {
        Ok(())
    }
}

// Failed tests show their output even if the status level hides their line.
#[tactic(auto, unfolding(crate::specs::TestFinished::output_at_once))]
#[inline(always)]
fn write_output_at_once<W: WriteStr>(
    w: &mut W,
    settings: &Settings,
    finished: &FinishedTest<'_, '_>,
) -> Result<(), WriteFault>
    requires { HasShownOutput (finish_of finished.now) }
    ensures { Puts W.meaning w.old (paint settings.now.styles (output_at_once settings.now (finish_of finished.now)))
        result w.new }
{
    if finished.row.is_shown_at_once(finished.display) {
        let last = finished.describe.last_status();
        write_test_execute_status(w, settings, false, &last.result, &last.output)
    } else {
        Ok(())
    }
}
