//! Whether a reporter would refuse a call of a run.

ghost use Rattle.std.specs.Prelude.{◌≡◌, None};
ghost use Rattle.scenes.specs.Judged.{JudgesCall};

use command_line::fault::Fault;
use console_reporter::imp::{OutputLoadDecider, ReportCall};
use scene_fields::stored::PlacedOutput;
use scene_follower::reporter::fault_at_call;
use scene_reader::reader::CallSink;
use std::alloc::Global;

/// A sink that judges each call. The lines after a refused call are still read: a line that cannot be read is reported
/// first, wherever it is.
#[derive(Drop)]
pub(crate) struct Judge {
    pub(crate) decider: OutputLoadDecider,
    /// The fault of the first line whose call is refused.
    pub(crate) refused: Option<Fault<'static>>,
}

impl Judge {
    /// A judge before its first call.
    pub(crate) fn new(decider: OutputLoadDecider) -> Judge
        ensures decider { result.decider ≡ decider }
        ensures refused { result.refused ≡ None }
    {
        Judge {
            decider,
            refused: None,
        }
    }
}

impl CallSink for Judge {
    ghost takes = { λ old file. JudgesCall old };

    fn take<'a>(
        &mut self,
        _alloc: Global,
        _file: &'a str,
        number: u64,
        _stored: &[PlacedOutput],
        call: &mut ReportCall<'_>,
    ) -> Result<(), Fault<'a>> {
        if self.refused.is_none() {
            self.refused = self
                .decider
                .refusal(call)
                .map(|error| fault_at_call(number, error));
        }
        Ok(())
    }
}
