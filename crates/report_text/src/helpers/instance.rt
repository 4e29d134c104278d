//! Tests as a report shows them.

ghost use Rattle.std.specs.Prelude.{◌≡◌, ℕ, None, Some};
ghost use Rattle.styled_text.specs.Names.{DisplaysOnOk, DisplaysStyledOnOk, FitsWidth, Puts};
ghost use Rattle.report_text.specs.Instance.{HasPlainWords, counter_prefix, counter_text, front_parts, id_prefix};
ghost use Rattle.report_text.specs.Instance.{instance_text, test_name_text, shown_instance, stress_prefix, stress_text};

use crate::helpers::max_width::write_within;
use itoa::Buffer;
use run_names::name::{RustBinaryId, TestCaseName, TestInstanceId};
use run_names::stress::StressIndex;
use std::fmt;
use std::fmt::Formatter;
use styled_text::repeated::write_repeated;
use styled_text::style::{ListStyles, Style};
use styled_text::text::{Aligned, Painted, Toned};
use writers::show_written;
use writers::text::WriteText;
use writers::write_str::{WriteFault, WriteStr};

/// A test as a report shows it: its iteration of a stress run and its counter, where there are any, its binary's id and
/// its name.
///
/// ```
/// let counter = DisplayCounterIndex::new_counter(1, 2);
/// let shown = DisplayTestInstance::new(None, Some(counter), test.as_ref(), &styles.list_styles);
/// assert_eq!(shown.to_string(alloc)?.as_str(), "(1/2) alpha t1");
/// ```
#[derive(Clone, Copy, Debug)]
pub struct DisplayTestInstance<'a> {
    stress_index: Option<StressIndex>,
    counter_index: Option<DisplayCounterIndex>,
    instance: TestInstanceId<'a>,
    styles: ListStyles,
    max_width: Option<usize>,
}

impl<'a> DisplayTestInstance<'a> {
    /// Shows the test in these styles, however wide it is.
    pub fn new(
        stress_index: Option<StressIndex>,
        counter_index: Option<DisplayCounterIndex>,
        instance: TestInstanceId<'a>,
        styles: &ListStyles,
    ) -> DisplayTestInstance<'a>
        ensures stress_index { result.stress_index ≡ stress_index }
        ensures counter_index { result.counter_index ≡ counter_index }
        ensures instance { result.instance ≡ instance.entry }
        ensures styles { result.styles ≡ styles.now }
        ensures whole { result.max_width ≡ None }
    {
        DisplayTestInstance {
            stress_index,
            counter_index,
            instance,
            styles: *styles,
            max_width: None,
        }
    }

    /// Shows at most the given number of columns. The iteration, the counter and the binary's id come first, in this
    /// order, and are cut at their ends. The name gets the columns that are left, and is cut at its beginning.
    ///
    /// ```
    /// let shown = DisplayTestInstance::new(None, None, test.as_ref(), &styles.list_styles);
    /// assert_eq!(shown.with_max_width(7).to_string(alloc)?.as_str(), "alpha 1");
    /// ```
    pub fn with_max_width(mut self, max_width: usize) -> DisplayTestInstance<'a>
        ensures width { result.max_width ≡ Some max_width }
        ensures stress_index { result.stress_index ≡ self.entry.stress_index }
        ensures counter_index { result.counter_index ≡ self.entry.counter_index }
        ensures instance { result.instance ≡ self.entry.instance }
        ensures styles { result.styles ≡ self.entry.styles }
    {
        self.max_width = Some(max_width);
        self
    }

    fn write_within<W: WriteStr>(&self, w: &mut W, width: usize) -> Result<(), WriteFault>
        ensures text { Puts W.meaning w.old
            (shown_instance (Some width) self.now.styles self.now.stress_index self.now.counter_index
            self.now.instance)
            result w.new }
        ensures law { HasPlainWords self.now.counter_index self.now.instance.binary_id.now
            self.now.instance.test_name.now
            → FitsWidth width
            (front_parts self.now.styles self.now.stress_index self.now.counter_index self.now.instance.binary_id.now)
            (test_name_text self.now.styles self.now.instance.test_name.now) }
    {
        let stress = StressPart(&self.styles.count, &self.stress_index);
        let counter = CounterPart(&self.counter_index);
        let id = IdPart(&self.styles.binary_id, self.instance.binary_id);
        let name = DisplayTestName::new(self.instance.test_name, &self.styles);
        // The name fits in memory, so its columns are far from the greatest number.
        let _bytes = self.instance.test_name.as_str().len();
        write_within(w, &stress, &counter, &id, &name, width)
    }

    fn write_whole<W: WriteStr>(&self, w: &mut W) -> Result<(), WriteFault>
        ensures { Puts W.meaning w.old
            (instance_text self.now.styles self.now.stress_index self.now.counter_index self.now.instance) result
            w.new }
    {
        write_test_instance(
            w,
            &self.styles,
            &self.stress_index,
            &self.counter_index,
            self.instance,
        )
    }
}

impl WriteText for DisplayTestInstance<'_> {
    ghost text = { λ t. shown_instance t.max_width t.styles t.stress_index t.counter_index t.instance };

    fn write_to<W: WriteStr>(&self, w: &mut W) -> Result<(), WriteFault>
        ensures text { Puts W.meaning w.old
            (shown_instance self.now.max_width self.now.styles self.now.stress_index self.now.counter_index
            self.now.instance)
            result w.new }
        ensures law { (width : ℕ) → self.now.max_width ≡ Some width
            → HasPlainWords self.now.counter_index self.now.instance.binary_id.now self.now.instance.test_name.now
            → FitsWidth width
            (front_parts self.now.styles self.now.stress_index self.now.counter_index self.now.instance.binary_id.now)
            (test_name_text self.now.styles self.now.instance.test_name.now) }
    {
        match self.max_width {
            None => self.write_whole(w),
            Some(width) => self.write_within(w, width),
        }
    }
}

/// Writes all of a test, as [`DisplayTestInstance`] shows it.
///
/// ```
/// let counter = Some(DisplayCounterIndex::new_counter(1, 2));
/// write_test_instance(&mut out, &styles.list_styles, &None, &counter, test.as_ref())?;
/// assert_eq!(out.as_str(), "(1/2) alpha t1");
/// ```
///
/// # Errors
///
/// The writer's fault. It has accepted a prefix of the text.
#[inline(always)]
#[tactic(auto, unfolding(crate::specs::Instance::test_text))]
pub fn write_test_instance<W: WriteStr>(
    w: &mut W,
    styles: &ListStyles,
    stress_index: &Option<StressIndex>,
    counter_index: &Option<DisplayCounterIndex>,
    instance: TestInstanceId<'_>,
) -> Result<(), WriteFault>
    ensures { Puts W.meaning w.old (instance_text styles.now stress_index.now counter_index.now instance.entry) result
        w.new }
{
    StressPart(&styles.count, stress_index).write_to(w)?;
    CounterPart(counter_index).write_to(w)?;
    IdPart(&styles.binary_id, instance.binary_id).write_to(w)?;
    write_test_name(instance.test_name, styles, w)
}

impl fmt::Display for DisplayTestInstance<'_> {
    ghost output = { λ t. Some (shown_instance t.max_width t.styles t.stress_index t.counter_index t.instance) };

    // If the names have no escape character, the text is at most that wide.
    fn fmt<W: fmt::Write>(&self, f: &mut Formatter<W>) -> fmt::Result
        ensures writes { DisplaysOnOk W.write_str_gives f.old result
            (Some
            (shown_instance self.now.max_width self.now.styles self.now.stress_index self.now.counter_index
            self.now.instance))
            f.new }
        ensures styled { DisplaysStyledOnOk W.write_str_gives f.old result None f.new }
        ensures law { (width : ℕ) → self.now.max_width ≡ Some width
            → HasPlainWords self.now.counter_index self.now.instance.binary_id.now self.now.instance.test_name.now
            → FitsWidth width
            (front_parts self.now.styles self.now.stress_index self.now.counter_index self.now.instance.binary_id.now)
            (test_name_text self.now.styles self.now.instance.test_name.now) }
    {
        show_written!(self, f)
    }
}

/// An iteration of a stress run: its number from 1, and its total if there is one.
///
/// ```
/// use run_names::stress::StressIndex;
/// use std::num::NonZeroU32;
/// let stress_index = StressIndex { current: 2, total: NonZeroU32::new(10) };
/// let shown = DisplayStressIndex { stress_index, count_style: styles.count };
/// assert_eq!(shown.to_string(alloc)?.as_str(), " 3/10");
/// ```
#[derive(Clone, Copy, Debug)]
pub struct DisplayStressIndex {
    /// The iteration.
    pub stress_index: StressIndex,
    /// The style of its numbers; the padding of the first is inside it.
    pub count_style: Style,
}

impl WriteText for DisplayStressIndex {
    ghost text = { λ t. stress_text t.count_style t.stress_index };

    #[tactic(auto, unfolding(crate::specs::Instance::stress_text))]
    fn write_to<W: WriteStr>(&self, w: &mut W) -> Result<(), WriteFault> {
        let style = self.count_style;
        let mut current = Buffer::new();
        let number = current.format(self.stress_index.current as u64 + 1);
        match self.stress_index.total {
            None => style.write(w, number),
            Some(total) => {
                let mut buffer = Buffer::new();
                let total = buffer.format(total.get());
                (
                    Painted(style, Aligned(total.len(), number)),
                    "/",
                    Toned(style, total),
                )
                    .write_to(w)
            }
        }
    }
}

impl fmt::Display for DisplayStressIndex {
    ghost output = { λ t. Some (stress_text t.count_style t.stress_index) };

    fn fmt<W: fmt::Write>(&self, f: &mut Formatter<W>) -> fmt::Result {
        show_written!(self, f)
    }
}

/// The iteration of a stress run between brackets and a space, if there is one, and the style of its numbers.
#[derive(Clone, Copy)]
pub(super) struct StressPart<'a>(pub(super) &'a Style, pub(super) &'a Option<StressIndex>);

impl WriteText for StressPart<'_> {
    ghost text = { λ p. stress_prefix p.0.now p.1.now };

    #[tactic(auto, unfolding(crate::specs::Instance::stress_prefix))]
    #[inline(always)]
    fn write_to<W: WriteStr>(&self, w: &mut W) -> Result<(), WriteFault> {
        match *self.1 {
            None => Ok(()),
            Some(stress_index) => write_iteration(w, *self.0, stress_index),
        }
    }
}

#[tactic(auto, unfolding(crate::specs::Instance::stress_prefix))]
fn write_iteration<W: WriteStr>(
    w: &mut W,
    count_style: Style,
    stress_index: StressIndex,
) -> Result<(), WriteFault>
    ensures { Puts W.meaning w.old (stress_prefix count_style (Some stress_index)) result w.new }
{
    let iteration = DisplayStressIndex {
        stress_index,
        count_style,
    };
    ("[", iteration, "] ").write_to(w)
}

/// A binary's id and a space, and the style of the id.
#[derive(Clone, Copy)]
pub(super) struct IdPart<'a>(pub(super) &'a Style, pub(super) &'a RustBinaryId);

impl WriteText for IdPart<'_> {
    ghost text = { λ p. id_prefix p.0.now p.1.now };

    #[inline(always)]
    fn write_to<W: WriteStr>(&self, w: &mut W) -> Result<(), WriteFault> {
        write_id(w, *self.0, self.1.as_str())
    }
}

// A function, so that the parts around it stay inlined.
fn write_id<W: WriteStr>(w: &mut W, style: Style, binary_id: &str) -> Result<(), WriteFault>
    ensures { Puts W.meaning w.old (id_prefix style binary_id.now) result w.new }
{
    (Toned(style, binary_id), " ").write_to(w)
}

/// The progress of a run, before a test.
///
/// ```
/// assert_eq!(DisplayCounterIndex::new_counter(20, 5000).to_string(alloc)?.as_str(), "(  20/5000)");
/// assert_eq!(DisplayCounterIndex::new_padded('-', 4).to_string(alloc)?.as_str(), "(---------)");
/// ```
#[derive(Clone, Copy, Debug, PartialEq, Eq)]
pub enum DisplayCounterIndex {
    /// A number and its total.
    Counter {
        /// The number. It is wider than a count, so that it can be one more than any count.
        current: u128,
        /// The total.
        total: u128,
    },
    /// A line of one character, as wide as a counter.
    Padded {
        /// The character.
        character: char,
        /// How many digits the total of that counter has.
        width: usize,
    },
}

impl DisplayCounterIndex {
    /// A number and its total.
    pub fn new_counter(current: usize, total: usize) -> DisplayCounterIndex
        ensures { result ≡ DisplayCounterIndex.Counter current total }
    {
        DisplayCounterIndex::Counter {
            current: current as u128,
            total: total as u128,
        }
    }

    /// A line as wide as a counter whose total has this many digits.
    pub fn new_padded(character: char, width: usize) -> DisplayCounterIndex
        ensures { result ≡ DisplayCounterIndex.Padded character width }
    {
        DisplayCounterIndex::Padded { character, width }
    }
}

impl WriteText for DisplayCounterIndex {
    ghost text = { λ c. counter_text c };

    #[tactic(auto, unfolding(crate::specs::Instance::counter_text))]
    fn write_to<W: WriteStr>(&self, w: &mut W) -> Result<(), WriteFault> {
        match *self {
            DisplayCounterIndex::Counter { current, total } => {
                let mut current_buffer = Buffer::new();
                let current = current_buffer.format(current);
                let mut total_buffer = Buffer::new();
                let total = total_buffer.format(total);
                ("(", Aligned(total.len(), current), "/", total, ")").write_to(w)
            }
            DisplayCounterIndex::Padded { character, width } => {
                "(".write_to(w)?;
                write_repeated(w, width, character)?;
                write_repeated(w, width, character)?;
                w.write_char(character)?;
                ")".write_to(w)
            }
        }
    }
}

impl fmt::Display for DisplayCounterIndex {
    ghost output = { λ c. Some (counter_text c) };

    fn fmt<W: fmt::Write>(&self, f: &mut Formatter<W>) -> fmt::Result {
        show_written!(self, f)
    }
}

/// The counter and a space, if there is one.
#[derive(Clone, Copy)]
pub(super) struct CounterPart<'a>(pub(super) &'a Option<DisplayCounterIndex>);

impl WriteText for CounterPart<'_> {
    ghost text = { λ p. counter_prefix p.0.now };

    #[tactic(auto, unfolding(crate::specs::Instance::counter_prefix))]
    #[inline(always)]
    fn write_to<W: WriteStr>(&self, w: &mut W) -> Result<(), WriteFault> {
        match self.0 {
            None => Ok(()),
            Some(counter_index) => write_counter(w, counter_index),
        }
    }
}

#[tactic(auto, unfolding(crate::specs::Instance::counter_prefix))]
fn write_counter<W: WriteStr>(
    w: &mut W,
    counter_index: &DisplayCounterIndex,
) -> Result<(), WriteFault>
    ensures { Puts W.meaning w.old (counter_prefix (Some counter_index.now)) result w.new }
{
    counter_index.write_to(w)?;
    " ".write_to(w)
}

/// A test's name in these styles.
///
/// ```
/// let name = TestCaseName::new(alloc, "mod::t2")?;
/// let shown = DisplayTestName::new(&name, &styles.list_styles);
/// assert_eq!(shown.to_string(alloc)?.as_str(), "mod::t2");
/// ```
#[derive(Clone, Copy, Debug)]
pub struct DisplayTestName<'a> {
    name: &'a TestCaseName,
    styles: ListStyles,
}

impl<'a> DisplayTestName<'a> {
    /// Shows the name in these styles.
    pub fn new(name: &'a TestCaseName, styles: &ListStyles) -> DisplayTestName<'a>
        ensures name { result.name.now ≡ name.now }
        ensures styles { result.styles ≡ styles.now }
    {
        DisplayTestName {
            name,
            styles: *styles,
        }
    }
}

impl WriteText for DisplayTestName<'_> {
    ghost text = { λ t. test_name_text t.styles t.name.now };

    fn write_to<W: WriteStr>(&self, w: &mut W) -> Result<(), WriteFault> {
        write_test_name(self.name, &self.styles, w)
    }
}

impl fmt::Display for DisplayTestName<'_> {
    ghost output = { λ t. Some (test_name_text t.styles t.name.now) };

    fn fmt<W: fmt::Write>(&self, f: &mut Formatter<W>) -> fmt::Result {
        show_written!(self, f)
    }
}

/// Writes a test's name: the module path and its `::`, if there is one, and the name in it.
///
/// ```
/// let name = TestCaseName::new(alloc, "mod::t2")?;
/// write_test_name(&name, &styles.list_styles, &mut out)?;
/// assert_eq!(out.as_str(), "mod::t2");
/// ```
///
/// # Errors
///
/// The writer's fault. It has accepted a prefix of the text.
#[tactic(auto, unfolding(crate::specs::Instance::test_name_text))]
#[inline(always)]
pub fn write_test_name<W: WriteStr>(
    name: &TestCaseName,
    styles: &ListStyles,
    w: &mut W,
) -> Result<(), WriteFault>
    ensures { Puts W.meaning w.old (test_name_text styles.now name.now) result w.new }
{
    // If neither style is a colour, the name is written unchanged.
    if styles.module_path == Style::Plain && styles.test_name == Style::Plain {
        return w.write_str(name.as_str());
    }
    write_coloured_name(name, styles, w)
}

// Like `write_test_name`, for any styles.
#[tactic(auto, unfolding(crate::specs::Instance::test_name_text))]
#[inline(never)]
fn write_coloured_name<W: WriteStr>(
    name: &TestCaseName,
    styles: &ListStyles,
    w: &mut W,
) -> Result<(), WriteFault>
    ensures { Puts W.meaning w.old (test_name_text styles.now name.now) result w.new }
{
    let (module_path, last) = name.module_path_and_name();
    match module_path {
        None => styles.test_name.write(w, last),
        Some(module_path) => {
            styles.module_path.write(w, module_path)?;
            styles.module_path.write(w, "::")?;
            styles.test_name.write(w, last)
        }
    }
}
