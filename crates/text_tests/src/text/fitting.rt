//! Texts and tests that are cut: wide, combining and control characters at the cut, sequences, and parts that meet.

use crate::testing::expect_text;
use report_text::helpers::DisplayTestInstance;
use report_text::helpers::instance::DisplayCounterIndex;
use run_model::name::OwnedTestInstanceId;
use std::alloc::Global;
use std::test::Fail;
use styled_text::fitting::{count_columns, write_fitted};
use styled_text::style::ListStyles;
use writers::text::WriteText;
use writers::write_str::{WriteFault, WriteStr};

/// Words, as a text.
#[derive(Clone, Copy)]
struct Words<'a>(&'a str);

impl WriteText for Words<'_> {
    ghost text = { λ p. p.0.now };

    fn write_to<W: WriteStr>(&self, w: &mut W) -> Result<(), WriteFault> {
        w.write_str(self.0)
    }
}

#[test]
fn fits_words(rt: HostRuntime) -> Result<(), Fail> {
    for (text, start, end, want) in [
        ("e\u{301}", 1, 1, "\u{301}"),
        ("e\u{301}", 0, 1, "e\u{301}"),
        ("日本x", 0, 3, "日"),
        ("日本x", 1, 5, "本x"),
        ("a\tb", 0, 1, "a\t"),
        ("a\x1b[1mbc\x1b[0m", 0, 0, "\x1b[1m\x1b[0m"),
        ("a\x1b[1mbc\x1b[0md", 1, 2, "\x1b[1mb\x1b[0m"),
        ("a\x1b[31日b", 0, 3, "a\x1b[31日"),
        ("", 0, 5, ""),
    ] {
        let words = Words(text);
        let _ = count_columns(&words);
        let mut out = String::new(rt.alloc());
        write_fitted(&mut out, &words, start, end)?;
        expect_text(&rt, out.as_str(), want);
    }
    assert!(rt; count_columns(&Words("\x1b[1m日e\u{301}\t\x1b[0m")) == 3);
    Ok(())
}

// What a test shows in a greatest width.
fn shown(
    alloc: Global,
    counter_index: Option<DisplayCounterIndex>,
    (binary_id, name): (&str, &str),
    is_colorized: bool,
    width: usize,
) -> Result<String, Fail> {
    let test = OwnedTestInstanceId::new(alloc, binary_id, name)?;
    let mut styles = ListStyles::default();
    if is_colorized {
        styles.colorize();
    }
    let shown = DisplayTestInstance::new(None, counter_index, test.as_ref(), &styles);
    Ok(shown.with_max_width(width).to_string(alloc)?)
}

// The ids of tests, whether they are in colour, a greatest width, and what is shown.
const TESTS: &[((&str, &str), bool, usize, &str)] = &[
    (("b", "日本x"), false, 7, "b 日本x"),
    (("b", "日本x"), false, 5, "b 本x"),
    (("b", "日本x"), false, 4, "b x"),
    (("b", "日本x"), false, 1, "b"),
    (("b", "日本x"), false, 0, ""),
    (("b", "日本x"), true, 0, "\x1b[35;1m\x1b[0m\x1b[34;1m\x1b[0m"),
    (("b", "e\u{301}f"), false, 3, "b \u{301}f"),
    (("b", "e\u{301}f"), false, 2, "b "),
    (("日", "x"), false, 1, ""),
    (("b", "a::\u{301}"), false, 2, "b \u{301}"),
    (
        ("b", "a::\u{301}"),
        true,
        2,
        "\x1b[35;1mb\x1b[0m \x1b[36m\x1b[0m\x1b[36m\x1b[0m\x1b[34;1m\x1b[0m",
    ),
];

#[test]
fn fits_tests(rt: HostRuntime) -> Result<(), Fail> {
    for &(test, is_colorized, width, want) in TESTS {
        let text = shown(rt.alloc(), None, test, is_colorized, width)?;
        expect_text(&rt, text.as_str(), want);
    }
    // The counter comes before the names.
    let counter = DisplayCounterIndex::new_padded('─', 1);
    for (width, want) in [(9, "(───) b t"), (8, "(───) b "), (6, "(───) "), (3, "(──")] {
        let text = shown(rt.alloc(), Some(counter), ("b", "t"), false, width)?;
        expect_text(&rt, text.as_str(), want);
    }
    Ok(())
}
