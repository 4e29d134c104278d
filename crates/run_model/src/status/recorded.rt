//! Attempts in the form of a recorded run.

ghost use Rattle.std.specs.Prelude.{◌≡◌, map, IfOk};
ghost use Rattle.run_model.specs.Names.{recorded_attempt, recorded_attempts, recorded_script};

use super::{ExecuteStatus, ExecutionStatuses, SetupScriptExecuteStatus};
use crate::output::{LiveSpec, RecordingSpec};
use run_names::memory::OutOfMemory;
use std::alloc::Global;

impl ExecuteStatus<LiveSpec> {
    /// The status in the form of a recorded run, with empty names of the archive's members. It copies the texts.
    ///
    /// # Errors
    ///
    /// Memory was refused.
    pub fn recorded(&self, alloc: Global) -> Result<ExecuteStatus<RecordingSpec>, OutOfMemory>
        ensures { IfOk result (λ status. status ≡ recorded_attempt self.now) }
    {
        Ok(ExecuteStatus {
            retry_data: self.retry_data,
            output: self.output.recorded(alloc)?,
            result: self.result.try_clone(alloc)?,
            time_taken: self.time_taken,
            is_slow: self.is_slow,
        })
    }
}

impl SetupScriptExecuteStatus<LiveSpec> {
    /// The status in the form of a recorded run, with empty names of the archive's members. It copies the texts.
    ///
    /// # Errors
    ///
    /// Memory was refused.
    pub fn recorded(
        &self,
        alloc: Global,
    ) -> Result<SetupScriptExecuteStatus<RecordingSpec>, OutOfMemory>
        ensures { IfOk result (λ status. status ≡ recorded_script self.now) }
    {
        Ok(SetupScriptExecuteStatus {
            output: self.output.recorded(alloc)?,
            result: self.result.try_clone(alloc)?,
            time_taken: self.time_taken,
            is_slow: self.is_slow,
        })
    }
}

impl ExecutionStatuses<LiveSpec> {
    /// The attempts in the form of a recorded run, with empty names of the archive's members. It copies the texts.
    ///
    /// # Errors
    ///
    /// Memory was refused.
    pub fn recorded(&self, alloc: Global) -> Result<ExecutionStatuses<RecordingSpec>, OutOfMemory>
        ensures { IfOk result (λ statuses. statuses ≡ recorded_attempts self.now) }
    {
        Ok(ExecutionStatuses {
            earlier: recorded_earlier(alloc, &self.earlier)?,
            last: self.last.recorded(alloc)?,
            flaky_result: self.flaky_result,
        })
    }
}

// Copies the attempts in the form of a recorded run, which allocates.
fn recorded_earlier(
    alloc: Global,
    attempts: &[ExecuteStatus<LiveSpec>],
) -> Result<Vec<ExecuteStatus<RecordingSpec>>, OutOfMemory>
    ensures { IfOk result (λ recorded. recorded.items ≡ map recorded_attempt attempts.now) }
{
    let mut recorded = Vec::with_capacity(alloc, attempts.len())?;
    for attempt in attempts {
        recorded.push(attempt.recorded(alloc)?)?;
    }
    Ok(recorded)
}
