//! Captured output that is put into a call.

ghost use Rattle.std.specs.Prelude.{◌≡◌};
ghost use Rattle.run_model.specs.Attempts.{execution_with_output};
ghost use Rattle.run_model.specs.Loads.{call_with, kind_with, kind_with_only, response_with};

use crate::call::ReportCall;
use crate::event::TestEventKind;
use crate::info::InfoResponse;
use crate::output::{ChildExecutionOutputDescription, ChildOutputDescription, LiveSpec};

impl ChildExecutionOutputDescription<LiveSpec> {
    /// Replaces the captured output; errors and highlight do not change. A unit that could not be started captured
    /// nothing, and does not change.
    pub fn load(&mut self, captured: ChildOutputDescription)
        ensures { self.new ≡ execution_with_output self.old captured }
    {
        if let ChildExecutionOutputDescription::Output { output, .. } = self {
            *output = captured;
        }
    }
}

impl InfoResponse<'_> {
    // Replaces the captured output of a response.
    fn load(&mut self, captured: ChildOutputDescription)
        ensures { self.new ≡ response_with captured self.old }
    {
        match self {
            InfoResponse::SetupScript(response) => response.output.get_mut().load(captured),
            InfoResponse::Test(response) => response.output.get_mut().load(captured),
        }
    }
}

impl TestEventKind<'_> {
    // Replaces the captured output at this index: that of an attempt of a finished test, from 0, or the only output of
    // another event, at 0.
    fn load(&mut self, place: usize, captured: ChildOutputDescription)
        ensures { self.new ≡ kind_with place captured self.old }
    {
        if let TestEventKind::TestFinished { run_statuses, .. } = self {
            run_statuses.load(place, captured);
        } else if place == 0 {
            self.load_only(captured);
        }
    }

    // For an event with only one output.
    fn load_only(&mut self, captured: ChildOutputDescription)
        ensures { self.new ≡ kind_with_only captured self.old }
    {
        match self {
            TestEventKind::TestAttemptFailedWillRetry { run_status, .. } => {
                run_status.output.load(captured)
            }
            TestEventKind::SetupScriptFinished { run_status, .. } => {
                run_status.output.load(captured)
            }
            TestEventKind::InfoResponse { response, .. } => response.load(captured),
            _ => {}
        }
    }
}

impl ReportCall<'_> {
    /// Replaces the captured output at this index: that of an attempt of a finished test, from 0, or the only output of
    /// another event, at 0. Errors and highlight do not change. If the call has no output there, or the unit could not
    /// be started, nothing changes.
    pub fn load(&mut self, place: usize, captured: ChildOutputDescription)
        ensures { self.new ≡ call_with place captured self.old }
    {
        if let ReportCall::Event(event) = self {
            event.kind.load(place, captured);
        }
    }
}
