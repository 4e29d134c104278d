//! The message if an interceptor, such as a debugger or a tracer, would get more than one test.

ghost use Rattle.std.specs.Prelude.{◌≡◌, IfOk, string_bytes};
ghost use Rattle.styled_text.specs.Names.{flat_map, Puts};
ghost use Rattle.report_text.specs.Interceptor.{listed_test, interceptor_option, selected_text, too_many_tests_text};
ghost use Rattle.report_text.specs.Interceptor.{unlisted_text};

use crate::helpers::instance::DisplayTestInstance;
use report_words::plural::{tests_plural_if, tests_str};
use run_names::config::NextestRunMode;
use run_names::memory::OutOfMemory;
use run_names::name::OwnedTestInstanceId;
use std::alloc::Global;
use styled_text::style::{ListStyles, Style};
use styled_text::text::Number;
use writers::text::{When, WriteText};
use writers::write_str::{WriteFault, WriteStr};

/// The message if an interceptor would get more than one test: its option, how many tests there are, those that are
/// listed, and how many more there are.
///
/// ```
/// let (mode, list_styles) = (NextestRunMode::Test, &styles.list_styles);
/// let text = format_interceptor_too_many_tests(alloc, "debugger", mode, 3, &[test], list_styles, styles.count)?;
/// let first = "--debugger requires exactly one test, but 3 tests were selected:";
/// assert_eq!(text.as_str(), format!(in alloc; "{first}\n  alpha t1\n  ... and 2 more tests")?.as_str());
/// ```
///
/// # Errors
///
/// Memory was refused. [`write_interceptor_too_many_tests`] writes the message without allocating.
pub fn format_interceptor_too_many_tests(
    alloc: Global,
    cli_opt_name: &str,
    mode: NextestRunMode,
    test_count: usize,
    test_instances: &[OwnedTestInstanceId],
    list_styles: &ListStyles,
    count_style: Style,
) -> Result<String, OutOfMemory>
    ensures { IfOk result
        (λ text. string_bytes text
        ≡ too_many_tests_text cli_opt_name.now mode test_count test_instances.now list_styles.now count_style) }
{
    let mut text = String::new(alloc);
    let written = write_interceptor_too_many_tests(
        &mut text,
        cli_opt_name,
        mode,
        test_count,
        test_instances,
        list_styles,
        count_style,
    );
    match written {
        Ok(()) => Ok(text),
        Err(_) => Err(OutOfMemory),
    }
}

/// Writes what [`format_interceptor_too_many_tests`] says.
///
/// # Errors
///
/// The writer's fault. It has accepted a prefix of the text.
#[tactic(auto, unfolding(crate::specs::Interceptor::too_many_tests_text))]
pub fn write_interceptor_too_many_tests<W: WriteStr>(
    w: &mut W,
    cli_opt_name: &str,
    mode: NextestRunMode,
    test_count: usize,
    test_instances: &[OwnedTestInstanceId],
    list_styles: &ListStyles,
    count_style: Style,
) -> Result<(), WriteFault>
    ensures { Puts W.meaning w.old
        (too_many_tests_text cli_opt_name.now mode test_count test_instances.now list_styles.now count_style) result
        w.new }
{
    write_interceptor_option(w, cli_opt_name, mode)?;
    write_selected(w, mode, test_count, count_style)?;
    write_listed(w, test_instances, list_styles)?;
    write_unlisted(w, mode, test_count, test_instances.len(), count_style)
}

#[tactic(auto, unfolding(crate::specs::Interceptor::interceptor_option))]
fn write_interceptor_option<W: WriteStr>(
    w: &mut W,
    cli_opt_name: &str,
    mode: NextestRunMode,
) -> Result<(), WriteFault>
    ensures { Puts W.meaning w.old (interceptor_option cli_opt_name.now mode) result w.new }
{
    let word = tests_plural_if(mode, false);
    ("--", cli_opt_name, " requires exactly one ", word).write_to(w)
}

#[tactic(auto, unfolding(crate::specs::Interceptor::selected_text))]
fn write_selected<W: WriteStr>(
    w: &mut W,
    mode: NextestRunMode,
    test_count: usize,
    count_style: Style,
) -> Result<(), WriteFault>
    ensures { Puts W.meaning w.old (selected_text mode test_count count_style) result w.new }
{
    let count = Number(count_style, test_count as u128);
    let word = tests_str(mode, test_count);
    (", but ", count, " ", word, " were selected:").write_to(w)
}

fn write_listed<W: WriteStr>(
    w: &mut W,
    test_instances: &[OwnedTestInstanceId],
    list_styles: &ListStyles,
) -> Result<(), WriteFault>
    ensures { Puts W.meaning w.old (flat_map (listed_test list_styles.now) test_instances.now) result w.new }
{
    for test_instance in test_instances {
        write_listed_test(w, test_instance, list_styles)?;
    }
    Ok(())
}

#[tactic(auto, unfolding(crate::specs::Interceptor::listed_test))]
fn write_listed_test<W: WriteStr>(
    w: &mut W,
    test_instance: &OwnedTestInstanceId,
    list_styles: &ListStyles,
) -> Result<(), WriteFault>
    ensures { Puts W.meaning w.old (listed_test list_styles.now test_instance.now) result w.new }
{
    let shown = DisplayTestInstance::new(None, None, test_instance.as_ref(), list_styles);
    ("\n  ", shown).write_to(w)
}

#[tactic(auto, using(std::proofs::lemmas::Bool::Decides::nat_tests), unfolding(crate::specs::Interceptor::unlisted_text, crate::specs::Interceptor::rest_text))]
fn write_unlisted<W: WriteStr>(
    w: &mut W,
    mode: NextestRunMode,
    test_count: usize,
    listed_count: usize,
    count_style: Style,
) -> Result<(), WriteFault>
    ensures { Puts W.meaning w.old (unlisted_text mode test_count listed_count count_style) result w.new }
{
    let rest_count = test_count.saturating_sub(listed_count);
    let count = Number(count_style, rest_count as u128);
    let rest = ("\n  ... and ", count, " more ", tests_str(mode, rest_count));
    When(test_count > listed_count, rest).write_to(w)
}
