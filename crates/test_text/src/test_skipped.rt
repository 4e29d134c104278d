//! A skipped test.

ghost use Rattle.{writers.specs.Writer.Puts, report_words.specs.Parts.paint, test_text.specs.TestSkipped.skip_line};
ghost use Rattle.{test_text.specs.TestSkipped.test_skipped_text};

use run_model::level::StatusLevel;
use run_model::name::TestInstanceId;
use run_model::stress::StressIndex;
use styled_text::text::{Aligned, Painted};
use text_parts::instance::{CountedInstance, UntimedEnd};
use text_parts::settings::Settings;
use writers::text::WriteText;
use writers::write_str::{WriteFault, WriteStr};

/// Writes that a test is skipped, if skipped tests are shown.
///
/// # Errors
///
/// The writer's fault. It has accepted a prefix of the text.
#[tactic(auto, unfolding(crate::specs::TestSkipped::test_skipped_text))]
pub fn write_test_skipped<W: WriteStr>(
    w: &mut W,
    settings: &Settings,
    stress_index: Option<StressIndex>,
    instance: TestInstanceId<'_>,
) -> Result<(), WriteFault>
    ensures { Puts W.meaning w.old
        (paint settings.now.styles (test_skipped_text settings.now stress_index instance.entry)) result w.new }
{
    if !settings.is_level_shown(StatusLevel::Skip) {
        return Ok(());
    }
    let test = settings.padded_instance(stress_index, instance);
    write_skip_line(w, settings, test)
}

/// Writes the line of a skipped test, which the summary repeats.
///
/// ```
/// write_skip_line(&mut out, &settings, settings.padded_instance(None, test.as_ref()))?;
/// assert_eq!(out.as_str(), "        SKIP [         ] alpha t1\n");
/// ```
///
/// # Errors
///
/// The writer's fault. It has accepted a prefix of the text.
#[tactic(auto, unfolding(crate::specs::TestSkipped::skip_line))]
pub fn write_skip_line<W: WriteStr>(
    w: &mut W,
    settings: &Settings,
    test: CountedInstance<'_>,
) -> Result<(), WriteFault>
    ensures { Puts W.meaning w.old (paint settings.now.styles (skip_line test.entry)) result w.new }
{
    let styles = &settings.styles;
    let word = Painted(styles.skip, Aligned(12, "SKIP"));
    (word, UntimedEnd(styles, &test)).write_to(w)
}
