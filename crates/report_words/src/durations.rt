//! Durations as text, from any number of nanoseconds.

ghost use Rattle.std.specs.Prelude.{◌≡◌, ◌≤◌, ◌++◌, Some, chars, length};
ghost use Rattle.report_words.specs.Durations.{clock_text, duration_text, leading_zero, relative_text, time_units};
ghost use Rattle.report_words.specs.Durations.{unit_name, unit_nanos, unit_within, whole_seconds};
ghost use Rattle.styled_text.specs.Names.{seconds, right_in, Puts};

use itoa::Buffer;
use run_names::time::Nanos;
use std::fmt;
use std::fmt::Formatter;
use styled_text::numbers::{digit_str, round_to, spaces_str};
use writers::show_written;
use writers::text::WriteText;
use writers::write_str::{WriteFault, WriteStr, write_strs};

/// Nanoseconds of a minute.
const MINUTE: u128 = 60_000_000_000;

/// Nanoseconds of a second.
const SECOND: u128 = 1_000_000_000;

/// Nanoseconds of a millisecond.
const MILLISECOND: u128 = 1_000_000;

/// A duration in seconds with two decimals, and above a minute in minutes and seconds.
///
/// Rounds to the nearest hundredth, ties up; as in nextest, the seconds after the
/// minutes can then be shown as 60.00.
///
/// ```
/// assert_eq!(FormattedDuration(Nanos(60_000_000_000)).to_string(alloc)?.as_str(), "60.00s");
/// assert_eq!(FormattedDuration(Nanos(60_001_000_000)).to_string(alloc)?.as_str(), "1m 0.00s");
/// ```
#[derive(Clone, Copy, Debug, PartialEq, Eq)]
pub struct FormattedDuration(pub Nanos);

impl WriteText for FormattedDuration {
    ghost text = { λ d. duration_text d.0.0 };

    #[tactic(auto, using(std::proofs::lemmas::Bool::Decides::nat_tests), unfolding(crate::specs::Durations::duration_text))]
    fn write_to<W: WriteStr>(&self, w: &mut W) -> Result<(), WriteFault> {
        let Nanos(nanos) = self.0;
        if nanos <= MINUTE {
            write_seconds(w, nanos)?;
            return w.write_str("s");
        }
        let mut buffer = Buffer::new();
        write_strs(w, &[buffer.format(nanos / MINUTE), "m "])?;
        write_seconds(w, nanos % MINUTE)?;
        w.write_str("s")
    }
}

impl fmt::Display for FormattedDuration {
    ghost output = { λ d. Some (duration_text d.0.0) };

    fn fmt<W: fmt::Write>(&self, f: &mut Formatter<W>) -> fmt::Result {
        show_written!(self, f)
    }
}

// Writes nanoseconds as seconds with two decimals.
#[tactic(auto, unfolding(styled_text::specs::Numbers::seconds, styled_text::specs::Numbers::with_point))]
fn write_seconds<W: WriteStr>(w: &mut W, nanos: u128) -> Result<(), WriteFault>
    ensures { Puts W.meaning w.old (seconds 2 nanos) result w.new }
{
    let hundredths = round_to(10_000_000, nanos);
    let mut buffer = Buffer::new();
    write_strs(
        w,
        &[
            buffer.format(hundredths / 100),
            ".",
            digit_str(hundredths / 10 % 10),
            digit_str(hundredths % 10),
        ],
    )
}

/// How a part of a second is rounded.
#[derive(Clone, Copy, Debug, PartialEq, Eq)]
pub enum DurationRounding {
    /// Down, as for a time that has passed.
    Floor,
    /// Up, as for a time that remains, if it has a whole millisecond: so the time that has passed and the time that
    /// remains add up to the whole.
    Ceiling,
}

/// A duration in hours, minutes and seconds, each in at least two digits.
///
/// ```
/// let duration = Nanos::from_millis(3_725_001);
/// let shown = FormattedHhMmSs { duration, rounding: DurationRounding::Ceiling };
/// assert_eq!(shown.to_string(alloc)?.as_str(), "01:02:06");
/// ```
#[derive(Clone, Copy, Debug, PartialEq, Eq)]
pub struct FormattedHhMmSs {
    /// The duration.
    pub duration: Nanos,
    /// How a part of a second is rounded.
    pub rounding: DurationRounding,
}

impl WriteText for FormattedHhMmSs {
    ghost text = { λ d. clock_text (whole_seconds d.rounding d.duration.0) };

    fn write_to<W: WriteStr>(&self, w: &mut W) -> Result<(), WriteFault> {
        let Nanos(nanos) = self.duration;
        write_clock(w, self.rounding.seconds(nanos))
    }
}

impl fmt::Display for FormattedHhMmSs {
    ghost output = { λ d. Some (clock_text (whole_seconds d.rounding d.duration.0)) };

    fn fmt<W: fmt::Write>(&self, f: &mut Formatter<W>) -> fmt::Result {
        show_written!(self, f)
    }
}

impl DurationRounding {
    // The whole seconds of this many nanoseconds.
    #[tactic(auto, using(std::proofs::lemmas::Bool::Decides::nat_tests))]
    fn seconds(self, nanos: u128) -> u128
        ensures { result ≡ whole_seconds self nanos }
    {
        let seconds = nanos / SECOND;
        match self {
            DurationRounding::Ceiling if nanos / MILLISECOND % 1000 > 0 => seconds + 1,
            _ => seconds,
        }
    }
}

/// Writes seconds as hours, minutes and seconds, each in at least two digits.
///
/// ```
/// write_clock(&mut out, 3_725)?;
/// assert_eq!(out.as_str(), "01:02:05");
/// ```
///
/// # Errors
///
/// The writer's fault. It has accepted a prefix of the text.
#[tactic(auto, unfolding(crate::specs::Durations::clock_text))]
pub fn write_clock<W: WriteStr>(w: &mut W, seconds: u128) -> Result<(), WriteFault>
    ensures { Puts W.meaning w.old (clock_text seconds) result w.new }
{
    let minutes = seconds / 60;
    let hours = minutes / 60;
    let mut buffer = Buffer::new();
    write_strs(
        w,
        &[
            leading_zero(hours),
            buffer.format(hours),
            ":",
            digit_str(minutes % 60 / 10 % 10),
            digit_str(minutes % 60 % 10),
            ":",
            digit_str(seconds % 60 / 10 % 10),
            digit_str(seconds % 60 % 10),
        ],
    )
}

/// Writes seconds as hours, minutes and seconds, right-aligned in the given number of columns, between two texts.
///
/// ```
/// write_clock_between(&mut out, "[", 9, 12, "] ")?;
/// assert_eq!(out.as_str(), "[ 00:00:12] ");
/// ```
///
/// # Errors
///
/// The writer's fault. It has accepted a prefix of the text.
pub fn write_clock_between<W: WriteStr>(
    w: &mut W,
    before: &str,
    columns: usize,
    seconds: u128,
    after: &str,
) -> Result<(), WriteFault>
    requires { columns ≤ 12 }
    ensures { Puts W.meaning w.old (before.now ++ (right_in columns (clock_text seconds) ++ after.now)) result w.new }
{
    w.write_str(before)?;
    write_clock_right(w, columns, seconds)?;
    w.write_str(after)
}

#[tactic(auto, unfolding(styled_text::specs::Texts::right_in))]
fn write_clock_right<W: WriteStr>(
    w: &mut W,
    columns: usize,
    seconds: u128,
) -> Result<(), WriteFault>
    requires { columns ≤ 12 }
    ensures { Puts W.meaning w.old (right_in columns (clock_text seconds)) result w.new }
{
    w.write_str(spaces_str(columns.saturating_sub(clock_width(seconds))))?;
    write_clock(w, seconds)
}

// How many columns hours, minutes and seconds take.
#[tactic(auto, using(crate::proofs::lemmas::Clocks::clock_columns))]
fn clock_width(seconds: u128) -> usize
    ensures { result ≡ length (chars (clock_text seconds)) }
{
    let hours = seconds / 60 / 60;
    leading_zero(hours).len() + Buffer::new().format(hours).len() + 6
}

// A zero before a number of one digit.
#[tactic(auto, using(std::proofs::lemmas::Bool::Decides::nat_tests))]
fn leading_zero(n: u128) -> &'static str
    ensures { result.now ≡ leading_zero n }
{
    if n < 10 { "0" } else { "" }
}

/// A duration as a whole number of the longest unit that it reaches: years, months, days, hours, minutes, seconds,
/// milliseconds, microseconds or nanoseconds.
///
/// A year has 365.25 days and a month 30.44.
///
/// ```
/// assert_eq!(FormattedRelativeDuration(Nanos(1_500_000)).to_string(alloc)?.as_str(), "1ms");
/// assert_eq!(FormattedRelativeDuration(Nanos(0)).to_string(alloc)?.as_str(), "0s");
/// ```
#[derive(Clone, Copy, Debug, PartialEq, Eq)]
pub struct FormattedRelativeDuration(pub Nanos);

impl WriteText for FormattedRelativeDuration {
    ghost text = { λ d. relative_text d.0.0 };

    #[tactic(auto, unfolding(crate::specs::Durations::relative_text))]
    fn write_to<W: WriteStr>(&self, w: &mut W) -> Result<(), WriteFault> {
        let Nanos(nanos) = self.0;
        match TimeUnit::longest_within(nanos) {
            None => w.write_str("0s"),
            Some(unit) => {
                let mut buffer = Buffer::new();
                write_strs(w, &[buffer.format(nanos / unit.nanos()), unit.name()])
            }
        }
    }
}

impl fmt::Display for FormattedRelativeDuration {
    ghost output = { λ d. Some (relative_text d.0.0) };

    fn fmt<W: fmt::Write>(&self, f: &mut Formatter<W>) -> fmt::Result {
        show_written!(self, f)
    }
}

/// A unit of time.
#[derive(Clone, Copy, PartialEq, Eq)]
enum TimeUnit {
    Year,
    Month,
    Day,
    Hour,
    Minute,
    Second,
    Millisecond,
    Microsecond,
    Nanosecond,
}

impl TimeUnit {
    // The longest unit that is no longer than this, if there is one.
    fn longest_within(nanos: u128) -> Option<TimeUnit>
        ensures { result ≡ unit_within nanos time_units }
    {
        for unit in [
            TimeUnit::Year,
            TimeUnit::Month,
            TimeUnit::Day,
            TimeUnit::Hour,
            TimeUnit::Minute,
            TimeUnit::Second,
            TimeUnit::Millisecond,
            TimeUnit::Microsecond,
            TimeUnit::Nanosecond,
        ] {
            if unit.nanos() <= nanos {
                return Some(unit);
            }
        }
        None
    }

    fn nanos(self) -> u128
        ensures { result ≡ unit_nanos self }
    {
        match self {
            TimeUnit::Year => 31_557_600_000_000_000,
            TimeUnit::Month => 2_630_016_000_000_000,
            TimeUnit::Day => 86_400_000_000_000,
            TimeUnit::Hour => 3_600_000_000_000,
            TimeUnit::Minute => MINUTE,
            TimeUnit::Second => SECOND,
            TimeUnit::Millisecond => MILLISECOND,
            TimeUnit::Microsecond => 1000,
            TimeUnit::Nanosecond => 1,
        }
    }

    fn name(self) -> &'static str
        ensures { result.now ≡ unit_name self }
    {
        match self {
            TimeUnit::Year => "y",
            TimeUnit::Month => "mo",
            TimeUnit::Day => "d",
            TimeUnit::Hour => "h",
            TimeUnit::Minute => "m",
            TimeUnit::Second => "s",
            TimeUnit::Millisecond => "ms",
            TimeUnit::Microsecond => "us",
            TimeUnit::Nanosecond => "ns",
        }
    }
}
