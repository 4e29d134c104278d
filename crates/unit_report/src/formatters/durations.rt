//! Durations as the lines of a report show them.

ghost use Rattle.unit_report.specs.Durations.{bracketed_clock, bracketed_duration, duration_by, slow_duration};
ghost use Rattle.{std.specs.Prelude.Some, styled_text.specs.Names.seconds};

use report_words::durations::write_clock_between;
use run_model::time::Nanos;
use std::fmt;
use std::fmt::Formatter;
use styled_text::numbers::{write_bracketed_seconds, write_seconds_between};
use writers::show_written;
use writers::text::WriteText;
use writers::write_str::{WriteFault, WriteStr};

/// A duration between brackets, and a space: seconds with three decimals, right-aligned in eight columns.
///
/// The nearest thousandth is shown, ties go up.
///
/// ```
/// assert_eq!(DisplayBracketedDuration(Nanos(5_000_000)).to_string(alloc)?.as_str(), "[   0.005s] ");
/// ```
#[derive(Clone, Copy, Debug)]
pub struct DisplayBracketedDuration(pub Nanos);

impl WriteText for DisplayBracketedDuration {
    ghost text = { λ d. bracketed_duration d.0.0 };

    #[inline(always)]
    #[tactic(auto, unfolding(crate::specs::Durations::bracketed_duration))]
    fn write_to<W: WriteStr>(&self, w: &mut W) -> Result<(), WriteFault> {
        let Nanos(nanos) = self.0;
        write_bracketed_seconds(w, nanos)
    }
}

impl fmt::Display for DisplayBracketedDuration {
    ghost output = { λ d. Some (bracketed_duration d.0.0) };

    fn fmt<W: fmt::Write>(&self, f: &mut Formatter<W>) -> fmt::Result {
        show_written!(self, f)
    }
}

/// How long a run has taken, between brackets and a space: hours, minutes and seconds, right-aligned in nine columns.
/// Fractions of a second are cut off.
///
/// ```
/// assert_eq!(DisplayBracketedHhMmSs(Nanos(12_000_000_000)).to_string(alloc)?.as_str(), "[ 00:00:12] ");
/// ```
#[derive(Clone, Copy, Debug)]
pub struct DisplayBracketedHhMmSs(pub Nanos);

impl WriteText for DisplayBracketedHhMmSs {
    ghost text = { λ d. bracketed_clock d.0.0 };

    #[tactic(auto, unfolding(crate::specs::Durations::bracketed_clock))]
    fn write_to<W: WriteStr>(&self, w: &mut W) -> Result<(), WriteFault> {
        let Nanos(nanos) = self.0;
        write_clock_between(w, "[", 9, nanos / 1_000_000_000, "] ")
    }
}

impl fmt::Display for DisplayBracketedHhMmSs {
    ghost output = { λ d. Some (bracketed_clock d.0.0) };

    fn fmt<W: fmt::Write>(&self, f: &mut Formatter<W>) -> fmt::Result {
        show_written!(self, f)
    }
}

/// The delay before something happens: seconds with three decimals, right-aligned in seven columns.
///
/// ```
/// assert_eq!(DisplayDurationBy(Nanos(1_000_000_000)).to_string(alloc)?.as_str(), "by   1.000s ");
/// ```
#[derive(Clone, Copy, Debug)]
pub struct DisplayDurationBy(pub Nanos);

impl WriteText for DisplayDurationBy {
    ghost text = { λ d. duration_by d.0.0 };

    #[tactic(auto, unfolding(crate::specs::Durations::duration_by))]
    fn write_to<W: WriteStr>(&self, w: &mut W) -> Result<(), WriteFault> {
        let Nanos(nanos) = self.0;
        write_seconds_between(w, "by ", 7, nanos, "s ")
    }
}

impl fmt::Display for DisplayDurationBy {
    ghost output = { λ d. Some (duration_by d.0.0) };

    fn fmt<W: fmt::Write>(&self, f: &mut Formatter<W>) -> fmt::Result {
        show_written!(self, f)
    }
}

/// A duration that was exceeded, between brackets and a space: seconds with three decimals, right-aligned in seven
/// columns.
///
/// ```
/// assert_eq!(DisplaySlowDuration(Nanos(60_000_000_000)).to_string(alloc)?.as_str(), "[> 60.000s] ");
/// ```
#[derive(Clone, Copy, Debug)]
pub struct DisplaySlowDuration(pub Nanos);

impl WriteText for DisplaySlowDuration {
    ghost text = { λ d. slow_duration d.0.0 };

    #[tactic(auto, unfolding(crate::specs::Durations::slow_duration))]
    fn write_to<W: WriteStr>(&self, w: &mut W) -> Result<(), WriteFault> {
        let Nanos(nanos) = self.0;
        write_seconds_between(w, "[>", 7, nanos, "s] ")
    }
}

impl fmt::Display for DisplaySlowDuration {
    ghost output = { λ d. Some (slow_duration d.0.0) };

    fn fmt<W: fmt::Write>(&self, f: &mut Formatter<W>) -> fmt::Result {
        show_written!(self, f)
    }
}
