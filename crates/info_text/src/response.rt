//! The response of a unit that is asked for its state.

ghost use Rattle.std.specs.Prelude.{◌≡◌, ◌+◌, false};
ghost use Rattle.{text_parts.specs.Names.layout_of, text_parts.specs.Names.script_of, report_words.specs.Parts.paint};
ghost use Rattle.{styled_text.specs.Names.indent, styled_text.specs.Names.Puts, styled_text.specs.Names.spaces};
ghost use Rattle.info_text.specs.Response.{HasAnswerOutput, HasValidOutput, answer, answering_script, answering_test};
ghost use Rattle.info_text.specs.Response.{info_layout, info_response_text, is_delay, script_answer, script_unit};
ghost use Rattle.info_text.specs.Response.{test_answer, test_unit, told_attempt, unit_answer, valid_output};
ghost use Rattle.info_text.specs.Words.{number_padding, separator};

use crate::state::{InfoUnit, write_state};
use report_text::helpers::{ThemeCharacters, decimal_char_width};
use run_model::info::{InfoResponse, SetupScriptInfoResponse, TestInfoResponse, UnitState};
use run_model::output::{ChildExecutionOutputDescription, LiveSpec};
use run_model::status::RetryData;
use run_model::unit::UnitKind;
use styled_text::indenter::indented;
use styled_text::numbers::spaces_str;
use styled_text::style::Styles;
use styled_text::text::Number;
use text_parts::instance::{CountedInstance, InstanceEnd};
use text_parts::script::{ScriptInstance, ShownScript};
use text_parts::settings::Settings;
use unit_report::unit_output::{ChildOutputSpec, OutputHeader, OutputName};
use writers::text::WriteText;
use writers::write_str::{WriteFault, WriteStr};

/// Writes the response of a unit. `index` is its index among all, from 0. Output of the unit must be
/// loaded.
///
/// # Errors
///
/// The writer's fault. It has accepted a prefix of the text.
#[tactic(auto, unfolding(crate::specs::Response::info_response_text, crate::specs::Response::response_number))]
pub fn write_info_response<W: WriteStr>(
    w: &mut W,
    settings: &Settings,
    index: usize,
    total: usize,
    response: &InfoResponse<'_>,
) -> Result<(), WriteFault>
    requires { HasAnswerOutput response.now }
    ensures { Puts W.meaning w.old
        (paint settings.now.styles (info_response_text settings.now index total response.now)) result w.new }
{
    let styles = &settings.styles;
    let number = index as u128 + 1;
    let response_number = (
        "\n* ",
        Number(styles.count, number),
        "/",
        Number(styles.count, total as u128),
        ": ",
        number_padding(number, total),
    );
    Separator(settings.theme_characters, index).write_to(w)?;
    response_number.write_to(w)?;
    write_indented(w, settings, response)?;
    "\n".write_to(w)
}

// A bar before each response but the first. It is shorter than those around all responses.
#[derive(Clone, Copy)]
struct Separator(ThemeCharacters, usize);

impl WriteText for Separator {
    ghost text = { λ s. separator s.0 s.1 };

    #[tactic(auto, unfolding(crate::specs::Words::separator))]
    fn write_to<W: WriteStr>(&self, w: &mut W) -> Result<(), WriteFault> {
        if self.1 == 0 {
            return Ok(());
        }
        self.0.write_hbar(w, 8)?;
        "\n".write_to(w)
    }
}

// The spaces after the number of a response, so that it is as wide as `status: ` if it fits.
fn number_padding(number: u128, total: usize) -> &'static str
    ensures { result.now ≡ number_padding number total }
{
    let left = 8usize
        .saturating_sub(decimal_char_width(number))
        .saturating_sub(decimal_char_width(total))
        .saturating_sub(3);
    spaces_str(left)
}

// Later lines are indented.
fn write_indented<W: WriteStr>(
    w: &mut W,
    settings: &Settings,
    response: &InfoResponse<'_>,
) -> Result<(), WriteFault>
    requires { HasAnswerOutput response.now }
    ensures { Puts W.meaning w.old
        (indent (spaces 2) false (paint settings.now.styles (answer settings.now response.now))) result w.new }
{
    let mut out = indented(w).with_str("  ").skip_initial();
    let result = write_answer(&mut out, settings, response);
    let back = out.into_inner();
    let _ = &*back;
    result
}

// Who responds, its state and its output.
fn write_answer<W: WriteStr>(
    w: &mut W,
    settings: &Settings,
    response: &InfoResponse<'_>,
) -> Result<(), WriteFault>
    requires { HasAnswerOutput response.now }
    ensures { Puts W.meaning w.old (paint settings.now.styles (answer settings.now response.now)) result w.new }
{
    match response {
        InfoResponse::SetupScript(response) => write_script_answer(w, settings, response),
        InfoResponse::Test(response) => write_test_answer(w, settings, response),
    }
}

#[tactic(auto, unfolding(crate::specs::Response::script_answer))]
fn write_script_answer<W: WriteStr>(
    w: &mut W,
    settings: &Settings,
    response: &SetupScriptInfoResponse,
) -> Result<(), WriteFault>
    requires { HasValidOutput response.now.state response.now.output }
    ensures { Puts W.meaning w.old (paint settings.now.styles (script_answer settings.now response.now)) result w.new }
{
    let script = script_of_response(response);
    (ShownScript(&settings.styles, &script), "\n").write_to(w)?;
    write_unit_answer(
        w,
        settings,
        script_unit(response),
        response.state.get(),
        response.output.get(),
    )
}

fn script_of_response(response: &SetupScriptInfoResponse) -> ScriptInstance<'_>
    ensures { script_of result ≡ answering_script response.now }
{
    ScriptInstance {
        stress_index: response.stress_index,
        script_id: &response.script_id,
        program: &response.program,
        args: &response.args,
    }
}

fn script_unit(response: &SetupScriptInfoResponse) -> InfoUnit
    ensures { result ≡ script_unit response.now }
{
    InfoUnit {
        kind: UnitKind::Script,
        attempt: None,
        has_errors: response.output.get().has_errors(),
    }
}

#[tactic(auto, unfolding(crate::specs::Response::test_answer))]
fn write_test_answer<W: WriteStr>(
    w: &mut W,
    settings: &Settings,
    response: &TestInfoResponse<'_>,
) -> Result<(), WriteFault>
    requires { HasValidOutput response.now.state response.now.output }
    ensures { Puts W.meaning w.old (paint settings.now.styles (test_answer settings.now response.now)) result w.new }
{
    let test = test_of_response(response);
    InstanceEnd(&settings.styles, &test).write_to(w)?;
    write_unit_answer(
        w,
        settings,
        test_unit(response),
        response.state.get(),
        response.output.get(),
    )
}

// The test as the response names it, without a counter.
fn test_of_response<'a>(response: &TestInfoResponse<'a>) -> CountedInstance<'a>
    ensures { result ≡ answering_test response.now }
{
    CountedInstance {
        stress_index: response.stress_index,
        counter: None,
        instance: response.test_instance,
    }
}

fn test_unit(response: &TestInfoResponse<'_>) -> InfoUnit
    ensures { result ≡ test_unit response.now }
{
    InfoUnit {
        kind: UnitKind::Test,
        attempt: told_attempt(response.retry_data, response.state.get()),
        has_errors: response.output.get().has_errors(),
    }
}

// The attempt, if it is shown: not for a first attempt, unless the unit waits for the next one.
fn told_attempt(retry_data: RetryData, state: &UnitState) -> Option<RetryData>
    ensures { result ≡ told_attempt retry_data state.now }
{
    if retry_data.attempt > 1 && retry_data.total_attempts > 1 || is_delay(state) {
        Some(retry_data)
    } else {
        None
    }
}

fn is_delay(state: &UnitState) -> bool
    ensures { result ≡ is_delay state.now }
{
    matches!(state, UnitState::DelayBeforeNextAttempt { .. })
}

#[tactic(auto, unfolding(crate::specs::Response::unit_answer))]
fn write_unit_answer<W: WriteStr>(
    w: &mut W,
    settings: &Settings,
    unit: InfoUnit,
    state: &UnitState,
    output: &ChildExecutionOutputDescription<LiveSpec>,
) -> Result<(), WriteFault>
    requires { HasValidOutput state.now output.now }
    ensures { Puts W.meaning w.old (paint settings.now.styles (unit_answer settings.now unit state.now output.now))
        result w.new }
{
    write_state(w, settings, unit, state)?;
    write_valid_output(w, settings, unit.kind, state, output)
}

// The output, unless the unit waits for its next attempt: then the output is still that of the attempt before.
#[tactic(auto, unfolding(crate::specs::Response::valid_output))]
fn write_valid_output<W: WriteStr>(
    w: &mut W,
    settings: &Settings,
    kind: UnitKind,
    state: &UnitState,
    output: &ChildExecutionOutputDescription<LiveSpec>,
) -> Result<(), WriteFault>
    requires { HasValidOutput state.now output.now }
    ensures { Puts W.meaning w.old (paint settings.now.styles (valid_output settings.now kind state.now output.now))
        result w.new }
{
    if !state.has_valid_output() {
        return Ok(());
    }
    let spec = output_spec_for_info(&settings.styles, kind);
    settings
        .unit_output
        .write_child_execution_output(&settings.styles, &spec, output, w)
}

fn output_spec_for_info(styles: &Styles, kind: UnitKind) -> ChildOutputSpec
    ensures { layout_of result ≡ info_layout styles.now kind }
{
    let style = styles.count;
    ChildOutputSpec {
        kind,
        stdout_header: OutputHeader::Label {
            style,
            name: OutputName::Stdout,
        },
        stderr_header: OutputHeader::Label {
            style,
            name: OutputName::Stderr,
        },
        combined_header: OutputHeader::Label {
            style,
            name: OutputName::Output,
        },
        exec_fail_header: OutputHeader::Label {
            style,
            name: OutputName::Errors,
        },
        output_indent: "  ",
    }
}
