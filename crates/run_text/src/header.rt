//! The header of a replay: which recorded run it shows, when that started, and how it ended.

ghost use Rattle.std.specs.Prelude.{◌≡◌};
ghost use Rattle.run_text.specs.Header.{date_text, replay_header_text, started_text, time_text, year_sign};
ghost use Rattle.{writers.specs.Writer.Puts, report_words.specs.Parts.paint};

use crate::run_id::ShownRunId;
use jiff::civil::{Date, DateTime, Time};
use run_model::replay::ReplayHeader;
use styled_text::numbers::digit_str;
use styled_text::style::Styles;
use styled_text::text::{Aligned, Painted, Toned};
use writers::text::WriteText;
use writers::write_str::{WriteFault, WriteStr, write_strs};

/// Writes the header of a replay.
///
/// ```
/// write_replay_header(&mut out, &styles, &header)?;
/// let replaying = "   Replaying recorded run 00000000-0000-4000-8000-000000000001\n";
/// let started = "     Started 2024-02-29 07:05:09  status: ok\n";
/// assert_eq!(out.as_str(), format!(in alloc; "{replaying}{started}")?.as_str());
/// ```
///
/// # Errors
///
/// The writer's fault. It has accepted a prefix of the text.
#[tactic(auto, unfolding(crate::specs::Header::replay_header_text, crate::specs::Header::replaying_line, crate::specs::Header::started_line))]
pub fn write_replay_header<W: WriteStr>(
    w: &mut W,
    styles: &Styles,
    header: &ReplayHeader,
) -> Result<(), WriteFault>
    ensures { Puts W.meaning w.old (paint styles.now (replay_header_text header.now)) result w.new }
{
    let run_id = ShownRunId {
        styles,
        unique_prefix: &header.unique_prefix,
        run_id: &header.run_id,
    };
    let replaying = Painted(styles.pass, Aligned(12, "Replaying"));
    let replaying = (replaying, " recorded run ", run_id, "\n");
    let started = (
        Painted(styles.pass, Aligned(12, "Started")),
        " ",
        StartedAt(header.started_at),
        "  status: ",
        Toned(styles.count, header.status.as_str()),
        "\n",
    );
    (replaying, started).write_to(w)
}

// A date and a time of day. Fractions of a second are cut off.
#[derive(Clone, Copy)]
struct StartedAt(DateTime);

impl WriteText for StartedAt {
    ghost text = { λ s. started_text s.0 };

    #[tactic(auto, unfolding(crate::specs::Header::started_text))]
    fn write_to<W: WriteStr>(&self, w: &mut W) -> Result<(), WriteFault> {
        write_date(w, self.0.date())?;
        " ".write_to(w)?;
        write_time(w, self.0.time())
    }
}

#[tactic(auto, unfolding(crate::specs::Header::date_text))]
fn write_date<W: WriteStr>(w: &mut W, date: Date) -> Result<(), WriteFault>
    ensures { Puts W.meaning w.old (date_text date) result w.new }
{
    let year = date.year().unsigned_abs() as u128;
    let month = date.month().unsigned_abs() as u128;
    let day = date.day().unsigned_abs() as u128;
    write_strs(
        w,
        &[
            year_sign(date.year()),
            digit_str(year / 10 / 10 / 10 % 10),
            digit_str(year / 10 / 10 % 10),
            digit_str(year / 10 % 10),
            digit_str(year % 10),
            "-",
            digit_str(month / 10 % 10),
            digit_str(month % 10),
            "-",
            digit_str(day / 10 % 10),
            digit_str(day % 10),
        ],
    )
}

// A minus before the year, if that is before the year 0.
fn year_sign(year: i16) -> &'static str
    ensures { result.now ≡ year_sign year }
{
    if year < 0 { "-" } else { "" }
}

#[tactic(auto, unfolding(crate::specs::Header::time_text))]
fn write_time<W: WriteStr>(w: &mut W, time: Time) -> Result<(), WriteFault>
    ensures { Puts W.meaning w.old (time_text time) result w.new }
{
    let hour = time.hour().unsigned_abs() as u128;
    let minute = time.minute().unsigned_abs() as u128;
    let second = time.second().unsigned_abs() as u128;
    write_strs(
        w,
        &[
            digit_str(hour / 10 % 10),
            digit_str(hour % 10),
            ":",
            digit_str(minute / 10 % 10),
            digit_str(minute % 10),
            ":",
            digit_str(second / 10 % 10),
            digit_str(second % 10),
        ],
    )
}
