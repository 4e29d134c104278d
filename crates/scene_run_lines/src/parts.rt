//! Values in one field with parts, separated by colons or commas: the progress of a stress run, and a date with a time
//! of day.

ghost use Rattle.scene_run_lines.specs.Parts.{checked_clock, checked_day, clock_of, day_of, moment_in, progress_in};
ghost use Rattle.scene_run_lines.specs.Parts.{stress_count_in};
ghost use Rattle.std.specs.Prelude.{◌≡◌};
ghost use Rattle.{std.specs.Option.option_map, scene_fields.specs.Calls.moment_of};

use jiff::civil::{Date, DateTime, Time};
use run_model::stress::{StressCount, StressProgress};
use scene_fields::numbers::{read_code, read_nanos, read_small_count};
use scene_fields::split::split_at_byte;
use scene_fields::values::read_total;

/// Reads how far a stress run has come, by iterations or by time: the total, the time that was taken, and the
/// iterations that have finished. One of endless iterations has finished after 5 ns in `count:inf:5:1`.
pub fn read_progress(field: &str) -> Option<StressProgress>
    ensures { result ≡ progress_in field.now }
{
    let (word, rest) = split_at_byte(field, b':')?;
    let (total, rest) = split_at_byte(rest, b':')?;
    let (elapsed, completed) = split_at_byte(rest, b':')?;
    let elapsed = read_nanos(elapsed)?;
    let completed = read_small_count(completed)?;
    match word {
        "count" => Some(StressProgress::Count {
            total: read_stress_count(total)?,
            elapsed,
            completed,
        }),
        "time" => Some(StressProgress::Time {
            total: read_nanos(total)?,
            elapsed,
            completed,
        }),
        _ => None,
    }
}

// Reads how many iterations there are to be.
fn read_stress_count(text: &str) -> Option<StressCount>
    ensures { result ≡ stress_count_in text.now }
{
    match text {
        "inf" => Some(StressCount::Infinite),
        _ => Some(StressCount::Count {
            count: read_total(text)?,
        }),
    }
}

/// Reads a date with a time of day. The years go from -9999 to 9999, the hours to 23, the minutes and seconds to 59.
/// None is a bad field.
///
/// ```
/// assert!(read_moment("-5,2,28,7,5,9").is_some());
/// assert!(read_moment("2023,2,29,7,5,9").is_none()); // there is no such day
/// ```
pub fn read_moment(field: &str) -> Option<DateTime>
    ensures { option_map moment_of result ≡ moment_in field.now }
{
    let (year, rest) = split_at_byte(field, b',')?;
    let (month, rest) = split_at_byte(rest, b',')?;
    let (day, rest) = split_at_byte(rest, b',')?;
    let (hour, rest) = split_at_byte(rest, b',')?;
    let (minute, second) = split_at_byte(rest, b',')?;
    let date = new_day(
        read_code(year)?,
        read_small_count(month)?,
        read_small_count(day)?,
    )?;
    let time = new_time(
        read_small_count(hour)?,
        read_small_count(minute)?,
        read_small_count(second)?,
    )?;
    Some(DateTime::from_parts(date, time))
}

// The day that has these numbers.
fn new_day(year: i32, month: u32, day: u32) -> Option<Date>
    ensures { option_map day_of result ≡ checked_day (record { year = year; month = month; day = day }) }
{
    let year = i16::try_from(year).ok()?;
    let month = i8::try_from(month).ok()?;
    let day = i8::try_from(day).ok()?;
    Date::new(year, month, day).ok()
}

// The time of day that has these numbers.
fn new_time(hour: u32, minute: u32, second: u32) -> Option<Time>
    ensures { option_map clock_of result ≡ checked_clock (record { hour = hour; minute = minute; second = second }) }
{
    let hour = i8::try_from(hour).ok()?;
    let minute = i8::try_from(minute).ok()?;
    let second = i8::try_from(second).ok()?;
    Time::new(hour, minute, second, 0).ok()
}
