//! Why a call of a reporter fails.

use thiserror::Error;

/// Why a call of a reporter failed. The output so far is a prefix of the report.
///
/// A refused call changes neither the reporter nor the writer, and later calls may succeed. After any other error the
/// reporter has failed.
///
/// ```
/// let mut statuses = ExecutionStatuses::single(alloc, ExecuteStatus::failed(101, time));
/// statuses.unload();
/// let event = TestEvent::test_finished(time, test.as_ref(), statuses, stats);
/// assert_eq!(reporter.write_event(&event), Err(WriteEventError::OutputNotLoaded));
/// ```
#[derive(Clone, Copy, Debug, PartialEq, Eq, Error)]
pub enum WriteEventError {
    /// The event is refused: a successful attempt is followed by another one. Nothing was written.
    #[error("a retried attempt succeeded")]
    RetriedSuccess,
    /// The event is refused: output that it needs is not loaded. Nothing was written.
    #[error("output not loaded")]
    OutputNotLoaded,
    /// The writer's device failed in this call. A prefix of the call's text was accepted.
    #[error("the report could not be written")]
    Io,
    /// Memory was refused in this call. A prefix of the call's text was accepted.
    #[error("out of memory")]
    Memory,
    /// The store's device failed in this call. The call's whole text was accepted, and a prefix of its record.
    #[error("the store could not be written")]
    StoreIo,
    /// An earlier call failed by its device or for lack of memory. Nothing was written.
    #[error("the report has failed before")]
    Failed,
}

/// Where a run of calls stopped, and why.
///
/// ```
/// let mut statuses = ExecutionStatuses::single(alloc, ExecuteStatus::failed(101, time));
/// statuses.unload();
/// let calls = [ReportCall::Event(TestEvent::test_finished(time, test.as_ref(), statuses, stats))];
/// let stopped = run_report(alloc, builder, &mut out, false, false, false, false, &calls);
/// assert_eq!(stopped, Err(RunFault { position: 0, fault: WriteEventError::OutputNotLoaded }));
/// ```
#[derive(Clone, Copy, Debug, PartialEq, Eq, Error)]
#[error("call {position}: {fault}")]
pub struct RunFault {
    /// The index of the call, or the number of calls if the end of the report failed.
    pub position: usize,
    /// Why it stopped.
    pub fault: WriteEventError,
}
