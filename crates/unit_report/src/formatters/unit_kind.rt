//! The word for a unit.

ghost use Rattle.std.specs.Prelude.{◌≡◌, Some};
ghost use Rattle.{unit_report.specs.UnitKind.unit_word};

use run_model::config::NextestRunMode;
use run_model::unit::UnitKind;
use std::fmt;
use std::fmt::Formatter;
use writers::show_written;
use writers::text::WriteText;
use writers::write_str::{WriteFault, WriteStr};

/// The word for a unit: "test", in benchmark mode "benchmark", or "script".
///
/// ```
/// use run_model::unit::UnitKind;
/// let kind = DisplayUnitKind::new(NextestRunMode::Benchmark, UnitKind::Test);
/// assert_eq!(kind.to_string(alloc)?.as_str(), "benchmark");
/// ```
#[derive(Clone, Copy, Debug)]
pub struct DisplayUnitKind {
    mode: NextestRunMode,
    kind: UnitKind,
}

impl DisplayUnitKind {
    /// The word for a unit in a run of this mode.
    pub fn new(mode: NextestRunMode, kind: UnitKind) -> DisplayUnitKind
        ensures { result ≡ record { mode = mode; kind = kind } }
    {
        DisplayUnitKind { mode, kind }
    }

    #[tactic(auto, unfolding(crate::specs::UnitKind::unit_word))]
    fn word(&self) -> &'static str
        ensures { result.now ≡ unit_word self.now.mode self.now.kind }
    {
        match (self.kind, self.mode) {
            (UnitKind::Script, _) => "script",
            (UnitKind::Test, NextestRunMode::Test) => "test",
            (UnitKind::Test, NextestRunMode::Benchmark) => "benchmark",
        }
    }
}

impl WriteText for DisplayUnitKind {
    ghost text = { λ d. unit_word d.mode d.kind };

    fn write_to<W: WriteStr>(&self, w: &mut W) -> Result<(), WriteFault> {
        w.write_str(self.word())
    }
}

impl fmt::Display for DisplayUnitKind {
    ghost output = { λ d. Some (unit_word d.mode d.kind) };

    fn fmt<W: fmt::Write>(&self, f: &mut Formatter<W>) -> fmt::Result {
        show_written!(self, f)
    }
}
