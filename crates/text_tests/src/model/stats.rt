//! The result of a stress run.

use run_model::stats::{
    FinalRunStats, RunFinishedStats, RunStatsFailureKind, StressFinalRunStats, StressRunStats,
};
use run_model::stress::StressIndex;

const KIND: RunStatsFailureKind = RunStatsFailureKind::SetupScript;

// A stress run with this many failed iterations, and this outcome of the last one.
fn stress(failed_count: u32, last_final_stats: FinalRunStats) -> StressRunStats {
    StressRunStats {
        completed: StressIndex {
            current: 3,
            total: None,
        },
        success_count: 1,
        failed_count,
        last_final_stats,
    }
}

#[test]
fn a_cancelled_stress_run_is_no_failed_one(rt: HostRuntime) {
    let cancelled = FinalRunStats::Cancelled {
        reason: None,
        kind: KIND,
    };
    let failed = FinalRunStats::Failed { kind: KIND };
    for (failed_count, last, outcome) in [
        (1, cancelled, StressFinalRunStats::Cancelled),
        (0, cancelled, StressFinalRunStats::Cancelled),
        (1, FinalRunStats::NoTestsRun, StressFinalRunStats::Failed),
        (
            0,
            FinalRunStats::NoTestsRun,
            StressFinalRunStats::NoTestsRun,
        ),
        (1, FinalRunStats::Success, StressFinalRunStats::Failed),
        (0, FinalRunStats::Success, StressFinalRunStats::Success),
        (0, failed, StressFinalRunStats::Success),
    ] {
        let stats = stress(failed_count, last);
        assert!(rt; stats.summarize_final() == outcome);
        assert!(rt; RunFinishedStats::Stress(stats).final_stats() == last);
    }
}
