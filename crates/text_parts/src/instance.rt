//! The test that a line is about.

ghost use Rattle.std.specs.Prelude.{◌≡◌};
ghost use Rattle.text_parts.specs.Names.{instance_text, instance_end, padded_instance, untimed_end};
ghost use Rattle.{writers.specs.Writer.Puts, report_words.specs.Parts.paint};

use crate::settings::Settings;
use report_text::helpers::{DisplayCounterIndex, write_test_instance};
use run_model::name::TestInstanceId;
use run_model::stress::StressIndex;
use styled_text::style::Styles;
use writers::text::WriteText;
use writers::write_str::{WriteFault, WriteStr};

/// A test as its lines name it.
#[derive(Clone, Copy)]
pub struct CountedInstance<'a> {
    /// Which iteration of a stress run it belongs to.
    pub stress_index: Option<StressIndex>,
    /// Its counter, where counters are shown.
    pub counter: Option<DisplayCounterIndex>,
    /// The test.
    pub instance: TestInstanceId<'a>,
}

impl Settings {
    /// A test in a line that counts nothing: a bar replaces its counter, if counters are shown.
    pub fn padded_instance<'a>(
        &self,
        stress_index: Option<StressIndex>,
        instance: TestInstanceId<'a>,
    ) -> CountedInstance<'a>
        ensures { result ≡ padded_instance self.now stress_index instance.entry }
    {
        CountedInstance {
            stress_index,
            counter: self.padded_counter(),
            instance,
        }
    }
}

/// Writes a test as its lines name it.
///
/// ```
/// write_instance(&mut out, &styles, &settings.padded_instance(None, test.as_ref()))?;
/// assert_eq!(out.as_str(), "alpha t1");
/// ```
///
/// # Errors
///
/// The writer's fault. It has accepted a prefix of the text.
#[inline(always)]
pub fn write_instance<W: WriteStr>(
    w: &mut W,
    styles: &Styles,
    test: &CountedInstance<'_>,
) -> Result<(), WriteFault>
    ensures { Puts W.meaning w.old
        (instance_text styles.now.list_styles test.now.stress_index test.now.counter test.now.instance) result w.new }
{
    write_test_instance(
        w,
        &styles.list_styles,
        &test.stress_index,
        &test.counter,
        test.instance,
    )
}

/// The end of a test's line: the test and a line feed.
#[derive(Clone, Copy)]
pub struct InstanceEnd<'s, 'a>(pub &'s Styles, pub &'s CountedInstance<'a>);

impl WriteText for InstanceEnd<'_, '_> {
    ghost text = { λ i. paint i.0.now (instance_end i.1.now) };

    #[tactic(auto, unfolding(crate::specs::Instance::instance_end))]
    fn write_to<W: WriteStr>(&self, w: &mut W) -> Result<(), WriteFault> {
        write_instance(w, self.0, self.1)?;
        "\n".write_to(w)
    }
}

/// The end of a test's line without a duration: its columns are empty.
#[derive(Clone, Copy)]
pub struct UntimedEnd<'s, 'a>(pub &'s Styles, pub &'s CountedInstance<'a>);

impl WriteText for UntimedEnd<'_, '_> {
    ghost text = { λ i. paint i.0.now (untimed_end i.1.now) };

    #[tactic(auto, unfolding(crate::specs::Instance::untimed_end))]
    fn write_to<W: WriteStr>(&self, w: &mut W) -> Result<(), WriteFault> {
        (" [         ] ", InstanceEnd(self.0, self.1)).write_to(w)
    }
}
