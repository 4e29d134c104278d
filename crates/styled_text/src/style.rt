//! Styles of a terminal, and texts in them.
//!
//! A style is a sequence before a text and one after it. A plain style has neither, so that one function writes both
//! kinds of report.

ghost use Rattle.std.specs.Prelude.{◌≡◌, true};
ghost use Rattle.styled_text.specs.Names.{decimal, style_prefix, style_suffix, styled, styles_of};
ghost use Rattle.styled_text.specs.Names.{list_styles_of, Puts};

use itoa::Buffer;
use writers::write_str::{WriteFault, WriteStr};

/// The sequence that ends every style but the plain one: ESC `[0m`.
pub const RESET_COLOR: &str = "\x1b[0m";

/// How a text is shown.
///
/// ```
/// Style::BoldGreen.write(&mut out, "PASS")?;
/// assert_eq!(out.as_str(), "\x1b[32;1mPASS\x1b[0m");
/// ```
#[derive(Clone, Copy, Debug, Default, PartialEq, Eq)]
pub enum Style {
    /// As it is.
    #[default]
    Plain,
    /// Bold.
    Bold,
    /// Bold and red.
    BoldRed,
    /// Bold and green.
    BoldGreen,
    /// Bold and yellow.
    BoldYellow,
    /// Bold and blue.
    BoldBlue,
    /// Bold and magenta.
    BoldMagenta,
    /// Cyan.
    Cyan,
    /// Bright black, a grey.
    BrightBlack,
}

impl Style {
    /// The style that leaves a text as it is.
    pub fn plain() -> Style
        ensures { result ≡ Style.Plain }
    {
        Style::Plain
    }

    /// The prefix of a text in this style: ESC `[` code `m`, or nothing.
    ///
    /// ```
    /// assert_eq!(Style::Cyan.prefix(), "\x1b[36m");
    /// ```
    pub fn prefix(self) -> &'static str
        ensures { result.now ≡ style_prefix self }
    {
        match self {
            Style::Plain => "",
            Style::Bold => "\x1b[1m",
            Style::BoldRed => "\x1b[31;1m",
            Style::BoldGreen => "\x1b[32;1m",
            Style::BoldYellow => "\x1b[33;1m",
            Style::BoldBlue => "\x1b[34;1m",
            Style::BoldMagenta => "\x1b[35;1m",
            Style::Cyan => "\x1b[36m",
            Style::BrightBlack => "\x1b[90m",
        }
    }

    /// The suffix of a text in this style.
    pub fn suffix(self) -> &'static str
        ensures { result.now ≡ style_suffix self }
    {
        match self {
            Style::Plain => "",
            _ => RESET_COLOR,
        }
    }

    /// Writes a text in this style.
    ///
    /// ```
    /// Style::Plain.write(&mut out, "PASS")?;
    /// assert_eq!(out.as_str(), "PASS");
    /// ```
    ///
    /// # Errors
    ///
    /// The writer's fault. It has accepted a prefix of the text.
    #[tactic(auto, unfolding(crate::specs::Style::styled))]
    #[inline(always)]
    pub fn write<W: WriteStr>(self, w: &mut W, text: &str) -> Result<(), WriteFault>
        ensures { Puts W.meaning w.old (styled self text.now) result w.new }
    {
        if self == Style::Plain {
            return w.write_str(text);
        }
        self.write_coloured(w, text)
    }

    // For any style. A plain one has less to write.
    #[tactic(auto, unfolding(crate::specs::Style::styled))]
    fn write_coloured<W: WriteStr>(self, w: &mut W, text: &str) -> Result<(), WriteFault>
        ensures { Puts W.meaning w.old (styled self text.now) result w.new }
    {
        w.write_str(self.prefix())?;
        w.write_str(text)?;
        w.write_str(self.suffix())
    }

    /// Writes a number in decimal in this style.
    ///
    /// ```
    /// Style::Bold.write_number(&mut out, 12)?;
    /// assert_eq!(out.as_str(), "\x1b[1m12\x1b[0m");
    /// ```
    ///
    /// # Errors
    ///
    /// The writer's fault. It has accepted a prefix of the text.
    #[tactic(auto, unfolding(crate::specs::Style::styled))]
    pub fn write_number<W: WriteStr>(self, w: &mut W, number: u128) -> Result<(), WriteFault>
        ensures { Puts W.meaning w.old (styled self (decimal number)) result w.new }
    {
        let mut buffer = Buffer::new();
        if self == Style::Plain {
            return w.write_str(buffer.format(number));
        }
        w.write_str(self.prefix())?;
        w.write_str(buffer.format(number))?;
        w.write_str(self.suffix())
    }
}

/// The styles of names in lists.
#[derive(Clone, Copy, Debug, Default, PartialEq, Eq)]
pub struct ListStyles {
    /// The style of a binary's id.
    pub binary_id: Style,
    /// The style of a test's name.
    pub test_name: Style,
    /// The style of the module path before a test's name.
    pub module_path: Style,
    /// The style of numbers.
    pub count: Style,
}

impl ListStyles {
    /// Sets the styles to colours.
    pub fn colorize(&mut self)
        ensures { self.new ≡ list_styles_of true }
    {
        self.binary_id = Style::BoldMagenta;
        self.test_name = Style::BoldBlue;
        self.module_path = Style::Cyan;
        self.count = Style::Bold;
    }
}

/// The styles of a report. By default all are plain.
///
/// ```
/// let mut styles = Styles::default();
/// assert_eq!(styles.fail, Style::Plain);
/// styles.colorize();
/// assert_eq!(styles.fail, Style::BoldRed);
/// ```
#[derive(Clone, Copy, Debug, Default, PartialEq, Eq)]
pub struct Styles {
    /// Whether the styles are colours.
    pub is_colorized: bool,
    /// Numbers and names.
    pub count: Style,
    /// What passed.
    pub pass: Style,
    /// What is retried.
    pub retry: Style,
    /// What failed.
    pub fail: Style,
    /// What was skipped, and warnings.
    pub skip: Style,
    /// A setup script's id.
    pub script_id: Style,
    /// The unique prefix of a run's id.
    pub run_id_prefix: Style,
    /// The rest of a run's id.
    pub run_id_rest: Style,
    /// Names in lists.
    pub list_styles: ListStyles,
}

impl Styles {
    /// Sets the styles to colours.
    pub fn colorize(&mut self)
        ensures { self.new ≡ styles_of true }
    {
        self.is_colorized = true;
        self.count = Style::Bold;
        self.pass = Style::BoldGreen;
        self.retry = Style::BoldMagenta;
        self.fail = Style::BoldRed;
        self.skip = Style::BoldYellow;
        self.script_id = Style::BoldBlue;
        self.run_id_prefix = Style::BoldMagenta;
        self.run_id_rest = Style::BrightBlack;
        self.list_styles.colorize();
    }
}
