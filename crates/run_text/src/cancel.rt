//! A run that is about to be cancelled or killed.

ghost use Rattle.std.specs.Prelude.{◌≡◌};
ghost use Rattle.run_text.specs.Cancel.{begin_cancel_text, begin_kill_text, ends_at_once, reason_text, still_running};
ghost use Rattle.{writers.specs.Writer.Puts, report_words.specs.Parts.paint};

use crate::running::{Running, ShownRunning};
use run_model::level::CancelReason;
use styled_text::style::Styles;
use styled_text::text::{Aligned, Painted, Toned};
use text_parts::settings::Settings;
use writers::text::{When, WriteText};
use writers::write_str::{WriteFault, WriteStr};

/// Writes that the run is about to be cancelled, why, and how many setup scripts or tests still run.
///
/// ```
/// write_begin_cancel(&mut out, &settings, 0, Some(CancelReason::Interrupt), 2)?;
/// assert_eq!(out.as_str(), "  Cancelling due to interrupt: 2 tests still running\n");
/// ```
///
/// # Errors
///
/// The writer's fault. It has accepted a prefix of the text.
#[tactic(auto, unfolding(crate::specs::Cancel::begin_cancel_text))]
pub fn write_begin_cancel<W: WriteStr>(
    w: &mut W,
    settings: &Settings,
    setup_scripts_running: usize,
    reason: Option<CancelReason>,
    running: usize,
) -> Result<(), WriteFault>
    ensures { Puts W.meaning w.old
        (paint settings.now.styles (begin_cancel_text settings.now.mode setup_scripts_running reason running)) result
        w.new }
{
    let running = Running {
        setup_scripts: setup_scripts_running,
        tests: running,
    };
    let word = Painted(settings.styles.fail, Aligned(12, "Cancelling"));
    let still = StillRunning {
        settings,
        is_terminating: ends_at_once(reason),
        running,
    };
    (word, Reason(&settings.styles, reason), still, "\n").write_to(w)
}

/// Writes that the run is about to be killed, why, and how many setup scripts or tests still run.
///
/// # Errors
///
/// The writer's fault. It has accepted a prefix of the text.
#[tactic(auto, unfolding(crate::specs::Cancel::begin_kill_text))]
pub fn write_begin_kill<W: WriteStr>(
    w: &mut W,
    settings: &Settings,
    setup_scripts_running: usize,
    reason: Option<CancelReason>,
    running: usize,
) -> Result<(), WriteFault>
    ensures { Puts W.meaning w.old
        (paint settings.now.styles (begin_kill_text settings.now.mode setup_scripts_running reason running)) result
        w.new }
{
    let running = Running {
        setup_scripts: setup_scripts_running,
        tests: running,
    };
    let word = Painted(settings.styles.fail, Aligned(12, "Killing"));
    let still = StillRunning {
        settings,
        is_terminating: false,
        running,
    };
    (word, Reason(&settings.styles, reason), still, "\n").write_to(w)
}

// Whether a run that is cancelled for this reason also terminates the units that are running.
fn ends_at_once(reason: Option<CancelReason>) -> bool
    ensures { result ≡ ends_at_once reason }
{
    match reason {
        Some(CancelReason::TestFailureImmediate) => true,
        _ => false,
    }
}

// The reason, if it is known.
#[derive(Clone, Copy)]
struct Reason<'a>(&'a Styles, Option<CancelReason>);

impl WriteText for Reason<'_> {
    ghost text = { λ r. paint r.0.now (reason_text r.1) };

    #[tactic(auto, unfolding(crate::specs::Cancel::reason_text))]
    fn write_to<W: WriteStr>(&self, w: &mut W) -> Result<(), WriteFault> {
        match self.1 {
            None => Ok(()),
            Some(reason) => (" due to ", Toned(self.0.fail, reason.as_str())).write_to(w),
        }
    }
}

// How many still run, if any, and whether they are terminated.
#[derive(Clone, Copy)]
struct StillRunning<'a> {
    settings: &'a Settings,
    is_terminating: bool,
    running: Running,
}

impl WriteText for StillRunning<'_> {
    ghost text = { λ s. paint s.settings.now.styles (still_running s.settings.now.mode s.is_terminating s.running) };

    #[tactic(auto, unfolding(crate::specs::Cancel::still_running, crate::specs::Cancel::terminating_at_once, crate::specs::Cancel::terminating_words))]
    fn write_to<W: WriteStr>(&self, w: &mut W) -> Result<(), WriteFault> {
        let styles = &self.settings.styles;
        let terminating = ("immediately ", Toned(styles.fail, "terminating"), " ");
        let running = ShownRunning {
            styles,
            mode: self.settings.mode,
            running: self.running,
        };
        let still = (
            ": ",
            When(self.is_terminating, terminating),
            running,
            " still running",
        );
        When(!self.running.is_none(), still).write_to(w)
    }
}
