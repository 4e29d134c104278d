//! The state of a unit, in the lines of its response.

ghost use Rattle.{styled_text.specs.Names.is_some, styled_text.specs.Names.Puts, report_words.specs.Parts.paint};
ghost use Rattle.{report_words.specs.Parts.style_of};
ghost use Rattle.std.specs.Prelude.{◌≡◌, ◌++◌};
ghost use Rattle.info_text.specs.Words.{attempt_text, marked_slow_end, nanos_of, taken_end};
ghost use Rattle.info_text.specs.State.{delay_note, exited_text, exiting_line, exiting_note, running_line};
ghost use Rattle.info_text.specs.State.{running_tone, signal_of, state_text, status_start, tentative_info};
ghost use Rattle.info_text.specs.State.{terminating_line, terminating_note, unit_start, waiting_line};

use run_model::info::{UnitState, UnitTerminateMethod, UnitTerminatingState};
use run_model::status::{ExecutionResultDescription, RetryData};
use run_model::time::Nanos;
use run_model::unit::UnitKind;
use styled_text::style::{Style, Styles};
use styled_text::text::{Number, Seconds, Toned};
use text_parts::info_result::InfoResult;
use text_parts::settings::Settings;
use unit_report::formatters::DisplayUnitKind;
use writers::text::{Decimal, When, WriteText};
use writers::write_str::{WriteFault, WriteStr};

/// What the lines of a state need to know of its unit.
#[derive(Clone, Copy)]
pub struct InfoUnit {
    /// Whether it is a test or a setup script.
    pub kind: UnitKind,
    /// The attempt, if its number is shown.
    pub attempt: Option<RetryData>,
    /// Whether its output has errors.
    pub has_errors: bool,
}

/// Writes the state of a unit: a line, and a note below it if something is waited for.
///
/// ```
/// use run_model::info::UnitState;
/// use run_model::unit::UnitKind;
/// let unit = InfoUnit { kind: UnitKind::Test, attempt: None, has_errors: false };
/// let state = UnitState::Running { pid: 7, time_taken: time, slow_after: None };
/// write_state(&mut out, &settings, unit, &state)?;
/// assert_eq!(out.as_str(), "status: test running for 0.020s as PID 7\n");
/// ```
///
/// # Errors
///
/// The writer's fault. It has accepted a prefix of the text.
#[tactic(auto, unfolding(crate::specs::State::state_text, crate::specs::State::state_line, crate::specs::State::state_note))]
pub fn write_state<W: WriteStr>(
    w: &mut W,
    settings: &Settings,
    unit: InfoUnit,
    state: &UnitState,
) -> Result<(), WriteFault>
    ensures { Puts W.meaning w.old (paint settings.now.styles (state_text settings.now.mode unit state.now)) result
        w.new }
{
    let start = UnitStart { settings, unit };
    match state {
        UnitState::Running {
            pid,
            time_taken,
            slow_after,
        } => start.write_running(w, *pid, *time_taken, *slow_after),
        UnitState::Exiting {
            pid,
            time_taken,
            slow_after,
            tentative_result,
            waiting_duration,
            remaining,
        } => {
            start.write_exiting(w, tentative_result, *time_taken, *slow_after)?;
            start.write_exiting_note(w, *pid, *waiting_duration, *remaining)
        }
        UnitState::Terminating(state) => start.write_terminating(w, state),
        UnitState::Exited {
            result,
            time_taken,
            slow_after,
        } => start.write_exited(w, result, *time_taken, *slow_after),
        UnitState::DelayBeforeNextAttempt {
            previous_result,
            previous_slow,
            waiting_duration,
            remaining,
        } => {
            start.write_waiting(w, previous_result, *previous_slow)?;
            start.write_delay_note(w, *waiting_duration, *remaining)
        }
    }
}

// How the line of a state begins: with the word for the unit. Its functions write these lines and the notes below them.
#[derive(Clone, Copy)]
struct UnitStart<'a> {
    settings: &'a Settings,
    unit: InfoUnit,
}

impl WriteText for UnitStart<'_> {
    ghost text = { λ s. paint s.settings.now.styles (unit_start s.settings.now.mode s.unit) };

    #[tactic(auto, unfolding(crate::specs::State::unit_start))]
    fn write_to<W: WriteStr>(&self, w: &mut W) -> Result<(), WriteFault> {
        let status = StatusStart {
            styles: &self.settings.styles,
            unit: self.unit,
        };
        (status, self.word(), " ").write_to(w)
    }
}

impl UnitStart<'_> {
    fn word(&self) -> DisplayUnitKind
        ensures { result ≡ record { mode = self.now.settings.now.mode; kind = self.now.unit.kind } }
    {
        DisplayUnitKind::new(self.settings.mode, self.unit.kind)
    }

    #[tactic(auto, unfolding(crate::specs::State::running_line))]
    fn write_running<W: WriteStr>(
        &self,
        w: &mut W,
        pid: u32,
        time_taken: Nanos,
        slow_after: Option<Nanos>,
    ) -> Result<(), WriteFault>
        ensures { Puts W.meaning w.old
            (paint self.now.settings.now.styles
            (running_line self.now.settings.now.mode self.now.unit pid time_taken.0 slow_after))
            result w.new }
    {
        let styles = &self.settings.styles;
        let running = running_style(styles, self.unit.has_errors, slow_after.is_some());
        (
            *self,
            Toned(running, "running"),
            (" for ", Seconds(time_taken.0), "s as PID "),
            Number(styles.count, pid as u128),
            MarkedSlowEnd(slow_after),
        )
            .write_to(w)
    }

    #[tactic(auto, unfolding(crate::specs::State::exiting_line))]
    fn write_exiting<W: WriteStr>(
        &self,
        w: &mut W,
        outcome: &Option<ExecutionResultDescription>,
        time_taken: Nanos,
        slow_after: Option<Nanos>,
    ) -> Result<(), WriteFault>
        ensures { Puts W.meaning w.old
            (paint self.now.settings.now.styles
            (exiting_line self.now.settings.now.mode self.now.unit outcome.now time_taken.0 slow_after))
            result w.new }
    {
        let info = TentativeInfo {
            styles: &self.settings.styles,
            is_slow: slow_after.is_some(),
            outcome,
        };
        (*self, info, TakenEnd(time_taken, slow_after)).write_to(w)
    }

    #[tactic(auto, unfolding(crate::specs::State::exiting_note, crate::specs::State::leak_note, crate::specs::State::note_start, crate::specs::State::process_of))]
    fn write_exiting_note<W: WriteStr>(
        &self,
        w: &mut W,
        pid: u32,
        waited: Nanos,
        remaining: Nanos,
    ) -> Result<(), WriteFault>
        ensures { Puts W.meaning w.old
            (paint self.now.settings.now.styles
            (exiting_note self.now.settings.now.mode self.now.unit pid waited.0 remaining.0))
            result w.new }
    {
        let count = self.settings.styles.count;
        let note = (
            Toned(count, "note"),
            (":   spent ", Seconds(waited.0), "s waiting for "),
            (self.word(), " PID ", Number(count, pid as u128)),
            " to shut down, will mark as leaky after another ",
            Seconds(remaining.0),
            "s\n",
        );
        When(waited.0 >= 1_000_000_000, note).write_to(w)
    }

    // Why a process is terminated, and how.
    #[tactic(auto, unfolding(crate::specs::State::terminating_line, crate::specs::State::terminating_note, crate::specs::State::process_of, crate::specs::State::note_start))]
    fn write_terminating<W: WriteStr>(
        &self,
        w: &mut W,
        state: &UnitTerminatingState,
    ) -> Result<(), WriteFault>
        ensures { Puts W.meaning w.old
            (paint self.now.settings.now.styles (terminating_line self.now.settings.now.mode self.now.unit
            state.now)
            ++ paint self.now.settings.now.styles (terminating_note self.now.settings.now.mode self.now.unit
            state.now))
            result w.new }
    {
        let UnitStart { settings, unit } = *self;
        let styles = &settings.styles;
        let word = self.word();
        let line = (
            StatusStart { styles, unit },
            Toned(styles.fail, "terminating"),
            " ",
            (word, " PID ", Number(styles.count, state.pid as u128)),
            " due to ",
            (
                Toned(styles.count, state.reason.as_str()),
                " (",
                word,
                " ran for ",
                Seconds(state.time_taken.0),
                "s)\n",
            ),
        );
        let spent = Seconds(state.waiting_duration.0);
        let note = (
            Toned(styles.count, "note"),
            ":   sent ",
            signal_of(&state.method),
            (" to process group; spent ", spent, "s waiting for "),
            word,
            (
                " to exit, will SIGKILL after another ",
                Seconds(state.remaining.0),
                "s\n",
            ),
        );
        (line, note).write_to(w)
    }

    #[tactic(auto, unfolding(crate::specs::State::exited_text))]
    fn write_exited<W: WriteStr>(
        &self,
        w: &mut W,
        outcome: &ExecutionResultDescription,
        time_taken: Nanos,
        slow_after: Option<Nanos>,
    ) -> Result<(), WriteFault>
        ensures { Puts W.meaning w.old
            (paint self.now.settings.now.styles
            (exited_text self.now.settings.now.mode self.now.unit outcome.now time_taken.0 slow_after))
            result w.new }
    {
        let is_slow = slow_after.is_some();
        let info = InfoResult {
            styles: &self.settings.styles,
            is_slow,
            outcome,
        };
        (*self, info, TakenEnd(time_taken, slow_after)).write_to(w)
    }

    #[tactic(auto, unfolding(crate::specs::State::waiting_line))]
    fn write_waiting<W: WriteStr>(
        &self,
        w: &mut W,
        previous: &ExecutionResultDescription,
        was_slow: bool,
    ) -> Result<(), WriteFault>
        ensures { Puts W.meaning w.old
            (paint self.now.settings.now.styles
            (waiting_line self.now.settings.now.mode self.now.unit previous.now was_slow))
            result w.new }
    {
        let styles = &self.settings.styles;
        let info = InfoResult {
            styles,
            is_slow: was_slow,
            outcome: previous,
        };
        let waits = Toned(styles.count, "waiting");
        (*self, info, ", currently ", waits, " before next attempt\n").write_to(w)
    }

    #[tactic(auto, unfolding(crate::specs::State::delay_note, crate::specs::State::note_start))]
    fn write_delay_note<W: WriteStr>(
        &self,
        w: &mut W,
        waited: Nanos,
        remaining: Nanos,
    ) -> Result<(), WriteFault>
        ensures { Puts W.meaning w.old
            (paint self.now.settings.now.styles
            (delay_note self.now.settings.now.mode self.now.unit waited.0 remaining.0))
            result w.new }
    {
        let left = Seconds(remaining.0);
        (
            Toned(self.settings.styles.count, "note"),
            (":   waited ", Seconds(waited.0), "s so far"),
            (", will wait another ", left, "s before retrying "),
            self.word(),
            "\n",
        )
            .write_to(w)
    }
}

// The name of the signal that was sent.
fn signal_of(method: &UnitTerminateMethod) -> &str
    ensures { result.now ≡ signal_of method.now }
{
    match method {
        UnitTerminateMethod::Signal(signal) => signal.as_str(),
    }
}

// The style of a running unit: one with errors has that of failures, a slow one that of skipped tests.
fn running_style(styles: &Styles, has_errors: bool, is_slow: bool) -> Style
    ensures { result ≡ style_of styles.now (running_tone has_errors is_slow) }
{
    if has_errors {
        styles.fail
    } else if is_slow {
        styles.skip
    } else {
        styles.pass
    }
}

// How the line of a state begins.
#[derive(Clone, Copy)]
struct StatusStart<'a> {
    styles: &'a Styles,
    unit: InfoUnit,
}

impl WriteText for StatusStart<'_> {
    ghost text = { λ s. paint s.styles.now (status_start s.unit) };

    #[tactic(auto, unfolding(crate::specs::State::status_start))]
    fn write_to<W: WriteStr>(&self, w: &mut W) -> Result<(), WriteFault> {
        (
            Toned(self.styles.count, "status"),
            ": ",
            Attempt(self.unit.attempt),
        )
            .write_to(w)
    }
}

// The attempt, if its number is shown.
#[derive(Clone, Copy)]
struct Attempt(Option<RetryData>);

impl WriteText for Attempt {
    ghost text = { λ a. attempt_text a.0 };

    #[tactic(auto, unfolding(crate::specs::Words::attempt_text))]
    fn write_to<W: WriteStr>(&self, w: &mut W) -> Result<(), WriteFault> {
        match self.0 {
            None => Ok(()),
            Some(retry) => (
                "(attempt ",
                Decimal(u128::from(retry.attempt)),
                "/",
                Decimal(u128::from(retry.total_attempts)),
                ") ",
            )
                .write_to(w),
        }
    }
}

// How a unit ended, if that is known.
#[derive(Clone, Copy)]
struct TentativeInfo<'a> {
    styles: &'a Styles,
    is_slow: bool,
    outcome: &'a Option<ExecutionResultDescription>,
}

impl WriteText for TentativeInfo<'_> {
    ghost text = { λ t. paint t.styles.now (tentative_info t.is_slow t.outcome.now) };

    #[tactic(auto, unfolding(crate::specs::State::unknown_info))]
    fn write_to<W: WriteStr>(&self, w: &mut W) -> Result<(), WriteFault> {
        match self.outcome {
            None => (Toned(self.styles.fail, "failed"), " with unknown status").write_to(w),
            Some(outcome) => InfoResult {
                styles: self.styles,
                is_slow: self.is_slow,
                outcome,
            }
            .write_to(w),
        }
    }
}

// How long a unit took, and the end of the line.
#[derive(Clone, Copy)]
struct TakenEnd(Nanos, Option<Nanos>);

impl WriteText for TakenEnd {
    ghost text = { λ t. taken_end t.0.0 t.1 };

    #[tactic(auto, unfolding(crate::specs::Words::taken_end))]
    fn write_to<W: WriteStr>(&self, w: &mut W) -> Result<(), WriteFault> {
        ((" after ", Seconds(self.0.0), "s"), MarkedSlowEnd(self.1)).write_to(w)
    }
}

// When a unit was marked as slow, if it was, and the end of the line.
#[derive(Clone, Copy)]
struct MarkedSlowEnd(Option<Nanos>);

impl WriteText for MarkedSlowEnd {
    ghost text = { λ m. marked_slow_end (nanos_of m.0) };

    #[tactic(auto, unfolding(crate::specs::Words::marked_slow_end))]
    fn write_to<W: WriteStr>(&self, w: &mut W) -> Result<(), WriteFault> {
        match self.0 {
            None => "\n".write_to(w),
            Some(slow_after) => (" (marked slow after ", Seconds(slow_after.0), "s)\n").write_to(w),
        }
    }
}
