//! A reporter that writes to memory, for a report that is printed whole or not at all.

ghost use Rattle.std.specs.Prelude.{◌≡◌, None};
ghost use Rattle.scenes.specs.Gathered.{GathersCall, HoldsFault};

use command_line::fault::Fault;
use console_reporter::imp::ReportCall;
use console_reporter::write_str::WriteStr;
use scene_fields::stored::PlacedOutput;
use scene_follower::scene_reporter::SceneReporter;
use scene_reader::reader::CallSink;
use std::alloc::Global;

/// A reporter that writes to memory. After a refused call it makes no other, but the lines after it are still read: a
/// line that cannot be read is reported first, wherever it is.
#[derive(Drop)]
pub(crate) struct Gathering<'a, W, S> {
    pub(crate) reporter: SceneReporter<'a, W, S>,
    /// The fault of the first line whose call is refused.
    pub(crate) refused: Option<Fault<'static>>,
}

impl<'a, W: WriteStr, S: WriteStr> Gathering<'a, W, S> {
    /// Gathers the report of this reporter, before its first call.
    pub(crate) fn new(reporter: SceneReporter<'a, W, S>) -> Gathering<'a, W, S>
        ensures reporter { result.reporter ≡ reporter.entry }
        ensures refused { result.refused ≡ None }
    {
        Gathering {
            reporter,
            refused: None,
        }
    }

    // Holds the fault if it is that of a line, else returns it.
    fn hold<'f>(&mut self, fault: Fault<'f>) -> Result<(), Fault<'f>>
        ensures { HoldsFault self.old fault.entry result self.new }
    {
        match fault {
            Fault::Line { line, fault } => {
                self.refused = Some(Fault::Line { line, fault });
                Ok(())
            }
            Fault::Usage => Err(Fault::Usage),
            Fault::CannotRead { file } => Err(Fault::CannotRead { file }),
            Fault::CannotWrite { file } => Err(Fault::CannotWrite { file }),
            Fault::WriteFailed => Err(Fault::WriteFailed),
            Fault::StoreFailed => Err(Fault::StoreFailed),
            Fault::OutOfMemory => Err(Fault::OutOfMemory),
        }
    }
}

impl<'a, W: WriteStr, S: WriteStr> CallSink for Gathering<'a, W, S> {
    ghost takes = { λ old file. GathersCall W.meaning S.meaning old };

    #[inline(always)]
    fn take<'f>(
        &mut self,
        alloc: Global,
        file: &'f str,
        number: u64,
        stored: &[PlacedOutput],
        call: &mut ReportCall<'_>,
    ) -> Result<(), Fault<'f>> {
        if self.refused.is_some() {
            return Ok(());
        }
        match self.reporter.take(alloc, file, number, stored, call) {
            Ok(()) => Ok(()),
            Err(fault) => self.hold(fault),
        }
    }
}
