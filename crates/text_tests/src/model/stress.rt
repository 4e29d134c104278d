//! How much remains of a stress run without end, which no report shows.

use run_model::stress::{StressCount, StressProgress, StressRemaining};
use run_model::time::Nanos;

#[test]
fn a_run_without_end_always_goes_on(rt: HostRuntime) {
    let progress = StressProgress::Count {
        total: StressCount::Infinite,
        elapsed: Nanos(5),
        completed: u32::MAX,
    };
    assert!(rt; progress.remaining() == Some(StressRemaining::Infinite));
}
