//! A list of calls without the outputs that the decider skips.

ghost use Rattle.std.specs.Prelude.{◌≡◌};
ghost use Rattle.{reporter_state.specs.Unread.unread, console_reporter.specs.Isolation.IsIsolated};

use reporter_state::decider::OutputLoadDecider;
use run_model::call::ReportCall;

/// Unloads the captured output of every attempt of each event whose output the decider skips, as in a replay that
/// does not load it. It allocates nothing.
///
/// This changes no byte that a reporter with the decider's configuration writes, and no call that it accepts.
///
/// ```
/// unload_skipped(&decider, &mut calls);
/// assert_eq!(first_refused(&decider, &calls), None);
/// ```
pub fn unload_skipped(decider: &OutputLoadDecider, calls: &mut [ReportCall<'_>])
    ensures unread { calls.new ≡ unread decider.now calls.old }
    ensures isolation { IsIsolated decider.now calls.old calls.new }
{
    for call in calls.iter_mut() {
        decider.unload(call);
    }
}
