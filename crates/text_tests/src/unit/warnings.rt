//! The warnings at the end of a run.

use crate::testing::expect_text;
use run_model::config::NextestRunMode;
use run_model::level::CancelReason;
use run_model::stats::{FinalRunStats, RunStatsFailureKind};
use std::test::Fail;
use styled_text::style::Styles;
use unit_report::formatters::write_final_warnings;

// A run of n tests, of which m did not run.
fn of_tests(initial_run_count: usize, not_run: usize) -> RunStatsFailureKind {
    RunStatsFailureKind::Test {
        initial_run_count,
        not_run,
    }
}

fn cancelled(reason: Option<CancelReason>, kind: RunStatsFailureKind) -> FinalRunStats {
    FinalRunStats::Cancelled { reason, kind }
}

const SCRIPT: RunStatsFailureKind = RunStatsFailureKind::SetupScript;

// The rows of nextest-runner's test `test_final_warnings`, and a setup script that failed without a reason, which no
// statistics lead to.
fn rows() -> [(FinalRunStats, &'static str); 8] {
    [
        (
            FinalRunStats::Failed {
                kind: of_tests(3, 1),
            },
            "warning: 1/3 tests were not run due to test failure \
             (run with --no-fail-fast to run all tests, or run with --max-fail)\n",
        ),
        (
            cancelled(Some(CancelReason::Signal), of_tests(8, 5)),
            "warning: 5/8 tests were not run due to signal\n",
        ),
        (
            cancelled(Some(CancelReason::Interrupt), of_tests(1, 1)),
            "warning: 1/1 test was not run due to interrupt\n",
        ),
        (FinalRunStats::NoTestsRun, ""),
        (FinalRunStats::Success, ""),
        (FinalRunStats::Failed { kind: SCRIPT }, ""),
        (cancelled(Some(CancelReason::Interrupt), SCRIPT), ""),
        (cancelled(None, SCRIPT), ""),
    ]
}

#[test]
fn each_end_has_its_warning(rt: HostRuntime) -> Result<(), Fail> {
    for (final_stats, want) in rows() {
        let mut text = String::new(rt.alloc());
        let styles = Styles::default();
        write_final_warnings(NextestRunMode::Test, final_stats, &styles, &mut text)?;
        expect_text(&rt, text.as_str(), want);
    }
    Ok(())
}
