//! Captured output that is put into an attempt, or left unread.

ghost use Rattle.std.specs.Prelude.{◌≡◌, map};
ghost use Rattle.run_model.specs.Loads.{attempts_with};
ghost use Rattle.run_model.specs.Names.{unloaded_attempt, unloaded_attempts, unloaded_script};

use super::{ExecuteStatus, ExecutionStatuses, SetupScriptExecuteStatus};
use crate::output::{ChildOutputDescription, LiveSpec};

impl ExecuteStatus<LiveSpec> {
    /// Replaces the captured output by `NotLoaded`.
    pub fn unload(&mut self)
        ensures { self.new ≡ unloaded_attempt self.old }
    {
        self.output.unload();
    }
}

impl SetupScriptExecuteStatus<LiveSpec> {
    /// Replaces the captured output by `NotLoaded`.
    pub fn unload(&mut self)
        ensures { self.new ≡ unloaded_script self.old }
    {
        self.output.unload();
    }
}

impl ExecutionStatuses<LiveSpec> {
    /// Replaces the captured output of the attempt at this index, from 0; errors and highlight do not change. An
    /// attempt that could not be started does not change, and an index after the last attempt changes nothing.
    pub fn load(&mut self, place: usize, captured: ChildOutputDescription)
        ensures { self.new ≡ attempts_with place captured self.old }
    {
        if place == self.earlier.len() {
            self.last.output.load(captured);
        } else if let Some(attempt) = self.earlier.get_mut(place) {
            attempt.output.load(captured);
        }
    }

    /// Replaces the captured output of every attempt by `NotLoaded`.
    pub fn unload(&mut self)
        ensures { self.new ≡ unloaded_attempts self.old }
    {
        unload_attempts(self.earlier.as_mut_slice());
        self.last.unload();
    }
}

// Replaces the captured output of every attempt by `NotLoaded`.
fn unload_attempts(attempts: &mut [ExecuteStatus<LiveSpec>])
    ensures { attempts.new ≡ map unloaded_attempt attempts.old }
{
    for attempt in attempts.iter_mut() {
        attempt.unload();
    }
}
