//! The calls of a reporter, as values.

use crate::event::TestEvent;
use crate::replay::ReplayHeader;
use run_names::run_id::ShortestRunIdPrefix;

/// A call of a reporter.
///
/// ```
/// let calls = [ReportCall::Event(event), ReportCall::Event(TestEvent::run_finished(time, stats))];
/// assert_eq!(calls.len(), 2);
/// ```
#[derive(Debug, Drop)]
pub enum ReportCall<'a> {
    /// Writes the text of an event.
    Event(TestEvent<'a>),
    /// Writes the header of a replay.
    Header(ReplayHeader),
    /// Takes the unique prefix of the run's id, which later starts of a run show. It writes nothing.
    Prefix(ShortestRunIdPrefix),
}
