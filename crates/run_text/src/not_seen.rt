//! The outstanding tests that a rerun has not seen.

ghost use Rattle.run_text.specs.NotSeen.{listed_line, not_seen_line, not_seen_note, not_seen_text};
ghost use Rattle.{styled_text.specs.Names.flat_map, styled_text.specs.Names.Puts, report_words.specs.Parts.paint};

use report_text::helpers::DisplayTestInstance;
use report_text::helpers::plural::tests_str;
use run_model::name::OwnedTestInstanceId;
use run_model::not_seen::NotSeen;
use styled_text::style::Styles;
use styled_text::text::{Aligned, Number, Painted};
use text_parts::settings::Settings;
use writers::text::{When, WriteText};
use writers::write_str::{WriteFault, WriteStr};

/// Writes how many outstanding tests were not seen, if any, and those that are listed.
///
/// ```
/// use run_model::not_seen::{NotSeen, TestInstanceList};
/// let not_seen = TestInstanceList::new(alloc, vec![in alloc; test]?)?;
/// write_not_seen(&mut out, &settings, &Some(NotSeen { not_seen, total_not_seen: 1 }))?;
/// let note = "        Note 1 outstanding test not seen during this rerun:\n             alpha t1\n";
/// assert_eq!(out.as_str(), note);
/// ```
///
/// # Errors
///
/// The writer's fault. It has accepted a prefix of the text.
pub fn write_not_seen<W: WriteStr>(
    w: &mut W,
    settings: &Settings,
    outstanding: &Option<NotSeen>,
) -> Result<(), WriteFault>
    ensures { Puts W.meaning w.old (paint settings.now.styles (not_seen_text settings.now.mode outstanding.now))
        result w.new }
{
    match outstanding {
        None => Ok(()),
        Some(outstanding) => write_note(
            w,
            settings,
            outstanding.total_not_seen,
            outstanding.not_seen.as_slice(),
        ),
    }
}

#[tactic(auto, unfolding(crate::specs::NotSeen::not_seen_note, crate::specs::NotSeen::not_seen_start, crate::specs::NotSeen::more_not_seen, crate::specs::NotSeen::more_line))]
fn write_note<W: WriteStr>(
    w: &mut W,
    settings: &Settings,
    total: usize,
    listed: &[OwnedTestInstanceId],
) -> Result<(), WriteFault>
    ensures { Puts W.meaning w.old (paint settings.now.styles (not_seen_note settings.now.mode total listed.now))
        result w.new }
{
    if total == 0 {
        return Ok(());
    }
    let (mode, styles) = (settings.mode, &settings.styles);
    let start = (
        Painted(styles.skip, Aligned(12, "Note")),
        " ",
        Number(styles.count, total as u128),
        " outstanding ",
        tests_str(mode, total),
        " not seen during this rerun:\n",
    );
    let remaining = total.saturating_sub(listed.len());
    let number = Number(styles.count, remaining as u128);
    let more = (
        "             ... and ",
        number,
        " more ",
        tests_str(mode, remaining),
        "\n",
    );
    start.write_to(w)?;
    write_listed(w, styles, listed)?;
    When(remaining != 0, more).write_to(w)
}

fn write_listed<W: WriteStr>(
    w: &mut W,
    styles: &Styles,
    listed: &[OwnedTestInstanceId],
) -> Result<(), WriteFault>
    ensures { Puts W.meaning w.old (flat_map (listed_line styles.now) listed.now) result w.new }
{
    for instance in listed {
        write_listed_test(w, styles, instance)?;
    }
    Ok(())
}

// A test on its own line, without a counter or an iteration.
#[tactic(auto, unfolding(crate::specs::NotSeen::not_seen_line))]
fn write_listed_test<W: WriteStr>(
    w: &mut W,
    styles: &Styles,
    instance: &OwnedTestInstanceId,
) -> Result<(), WriteFault>
    ensures { Puts W.meaning w.old (paint styles.now (not_seen_line instance.now)) result w.new }
{
    "             ".write_to(w)?;
    DisplayTestInstance::new(None, None, instance.as_ref(), &styles.list_styles).write_to(w)?;
    "\n".write_to(w)
}
