//! What is shown of the output of a test or a setup script.

ghost use Rattle.std.specs.Prelude.{◌≡◌, ◌∷◌, ◌++◌, [], true};
ghost use Rattle.styled_text.specs.Names.{option_map, Puts};
ghost use Rattle.{unit_report.specs.Captured.captured};
ghost use Rattle.run_model.specs.Outputs.{has_loaded_output, is_loaded};
ghost use Rattle.run_model.specs.Outputs.{subslice_value};
ghost use Rattle.unit_report.specs.UnitOutput.{both_streams, child_output, errors_block, errors_text, execution_output};
ghost use Rattle.unit_report.specs.UnitOutput.{layout_of, not_captured_text, present_stream, shown_stream, split_text};
ghost use Rattle.unit_report.specs.UnitOutput.{stream_text};

use super::DisplayerKind;
use super::captured::Captured;
use super::error_chain::DisplayErrorChain;
use super::header::{OutputHeader, OutputName};
use super::overrides::OutputDisplayOverrides;
use run_model::boxed::Boxed;
use run_model::output::{
    ByteSubslice, ChildExecutionOutputDescription, ChildOutputDescription, ChildSingleOutput,
    ErrorChain, Highlight, LiveSpec,
};
use run_model::unit::UnitKind;
use styled_text::style::Styles;
use styled_text::text::{Indent, Toned};
use writers::text::WriteText;
use writers::write_str::{WriteFault, WriteStr};

/// How the output of a unit is laid out.
#[derive(Clone, Copy, Debug)]
pub struct ChildOutputSpec {
    /// Whether it is a test or a setup script.
    pub kind: UnitKind,
    /// The line before standard output.
    pub stdout_header: OutputHeader,
    /// The line before standard error.
    pub stderr_header: OutputHeader,
    /// The line before both streams, if they were captured together.
    pub combined_header: OutputHeader,
    /// The line before the errors of the execution.
    pub exec_fail_header: OutputHeader,
    /// What precedes each line of an output that is not empty.
    pub output_indent: &'static str,
}

/// Shows the output of tests and setup scripts.
#[derive(Clone, Copy, Debug)]
pub struct UnitOutputReporter {
    overrides: OutputDisplayOverrides,
    displayer_kind: DisplayerKind,
    display_empty_outputs: bool,
}

impl UnitOutputReporter {
    /// A reporter with these overrides. Empty streams are shown only if `display_empty_outputs` is set.
    pub fn new(
        overrides: OutputDisplayOverrides,
        displayer_kind: DisplayerKind,
        display_empty_outputs: bool,
    ) -> UnitOutputReporter
        ensures overrides { result.overrides ≡ overrides }
        ensures displayer_kind { result.displayer_kind ≡ displayer_kind }
        ensures display_empty_outputs { result.display_empty_outputs ≡ display_empty_outputs }
    {
        UnitOutputReporter {
            overrides,
            displayer_kind,
            display_empty_outputs,
        }
    }

    /// The overrides of the tests' display settings.
    pub fn overrides(&self) -> OutputDisplayOverrides
        ensures { result ≡ self.now.overrides }
    {
        self.overrides
    }

    /// Writes all that is shown of an attempt: errors first, then its output, then an empty line. The output must be
    /// loaded.
    ///
    /// # Errors
    ///
    /// The writer's fault. It has accepted a prefix of the text.
    #[tactic(auto, unfolding(crate::specs::UnitOutput::execution_output))]
    pub fn write_child_execution_output<W: WriteStr>(
        &self,
        styles: &Styles,
        spec: &ChildOutputSpec,
        exec_output: &ChildExecutionOutputDescription<LiveSpec>,
        w: &mut W,
    ) -> Result<(), WriteFault>
        requires { has_loaded_output exec_output.now ≡ true }
        ensures { Puts W.meaning w.old (execution_output self.now styles.now (layout_of spec.now) exec_output.now)
            result w.new }
    {
        match exec_output {
            ChildExecutionOutputDescription::Output {
                output,
                errors,
                highlight,
                ..
            } => {
                write_errors(w, spec, errors)?;
                self.write_child_output(styles, spec, output, highlight_of(highlight), w)?;
                "\n".write_to(w)
            }
            ChildExecutionOutputDescription::StartError(error) => {
                write_errors_block(w, spec, error)?;
                "\n".write_to(w)
            }
        }
    }

    /// Writes the output of a process, each stream below its header. It must be loaded.
    ///
    /// # Errors
    ///
    /// The writer's fault. It has accepted a prefix of the text.
    #[tactic(auto, unfolding(crate::specs::UnitOutput::child_output))]
    pub fn write_child_output<W: WriteStr>(
        &self,
        styles: &Styles,
        spec: &ChildOutputSpec,
        output: &ChildOutputDescription,
        highlight: Option<&Highlight>,
        w: &mut W,
    ) -> Result<(), WriteFault>
        requires { is_loaded output.now ≡ true }
        ensures { Puts W.meaning w.old
            (child_output self.now styles.now (layout_of spec.now) output.now
            (option_map (λ h. h.now) highlight.entry))
            result w.new }
    {
        let streams = StreamWriter {
            reporter: self,
            styles,
            spec,
        };
        match output {
            ChildOutputDescription::Split { stdout, stderr } => {
                streams.write_split(w, stdout, stderr, highlight)
            }
            ChildOutputDescription::Combined { output } => {
                let part = highlight.and_then(|it| it.combined_subslice());
                streams.write_present(w, spec.combined_header, output, part)
            }
            ChildOutputDescription::NotLoaded => unreachable!(),
        }
    }
}

#[derive(Clone, Copy)]
struct StreamWriter<'a> {
    reporter: &'a UnitOutputReporter,
    styles: &'a Styles,
    spec: &'a ChildOutputSpec,
}

impl StreamWriter<'_> {
    // A replay says in one line that neither stream was captured.
    #[tactic(auto, unfolding(crate::specs::UnitOutput::split_text))]
    fn write_split<W: WriteStr>(
        &self,
        w: &mut W,
        stdout: &Option<ChildSingleOutput>,
        stderr: &Option<ChildSingleOutput>,
        highlight: Option<&Highlight>,
    ) -> Result<(), WriteFault>
        ensures { Puts W.meaning w.old
            (split_text self.now.reporter.now self.now.styles.now (layout_of self.now.spec.now) stdout.now
            stderr.now (option_map (λ h. h.now) highlight.entry))
            result w.new }
    {
        match (stdout, stderr) {
            (None, None) if self.reporter.displayer_kind == DisplayerKind::Replay => {
                write_not_captured(w, self.styles, OutputName::Output)
            }
            _ => self.write_both(w, stdout, stderr, highlight),
        }
    }

    #[tactic(auto, unfolding(crate::specs::UnitOutput::both_streams))]
    fn write_both<W: WriteStr>(
        &self,
        w: &mut W,
        stdout: &Option<ChildSingleOutput>,
        stderr: &Option<ChildSingleOutput>,
        highlight: Option<&Highlight>,
    ) -> Result<(), WriteFault>
        ensures { Puts W.meaning w.old
            (both_streams self.now.reporter.now self.now.styles.now (layout_of self.now.spec.now) stdout.now
            stderr.now (option_map (λ h. h.now) highlight.entry))
            result w.new }
    {
        let part = highlight.and_then(|it| it.stdout_subslice());
        self.write_stream(w, self.spec.stdout_header, OutputName::Stdout, stdout, part)?;
        let part = highlight.and_then(|it| it.stderr_subslice());
        self.write_stream(w, self.spec.stderr_header, OutputName::Stderr, stderr, part)
    }

    // A replay says that a stream was not captured.
    #[tactic(auto, unfolding(crate::specs::UnitOutput::stream_text))]
    fn write_stream<W: WriteStr>(
        &self,
        w: &mut W,
        header: OutputHeader,
        name: OutputName,
        output: &Option<ChildSingleOutput>,
        highlight: Option<ByteSubslice<'_>>,
    ) -> Result<(), WriteFault>
        ensures { Puts W.meaning w.old
            (stream_text self.now.reporter.now self.now.styles.now self.now.spec.now.output_indent.now header name
            output.now (subslice_value highlight.entry))
            result w.new }
    {
        match output {
            Some(output) => self.write_present(w, header, output, highlight),
            None if self.reporter.displayer_kind == DisplayerKind::Replay => {
                write_not_captured(w, self.styles, name)
            }
            None => Ok(()),
        }
    }

    #[tactic(auto, unfolding(crate::specs::UnitOutput::present_stream))]
    fn write_present<W: WriteStr>(
        &self,
        w: &mut W,
        header: OutputHeader,
        output: &ChildSingleOutput,
        highlight: Option<ByteSubslice<'_>>,
    ) -> Result<(), WriteFault>
        ensures { Puts W.meaning w.old
            (present_stream self.now.reporter.now self.now.styles.now self.now.spec.now.output_indent.now header
            output.now (subslice_value highlight.entry))
            result w.new }
    {
        if self.reporter.display_empty_outputs || !output.is_empty() {
            self.write_shown(w, header, output, highlight)
        } else {
            Ok(())
        }
    }

    #[tactic(auto, unfolding(crate::specs::UnitOutput::shown_stream))]
    fn write_shown<W: WriteStr>(
        &self,
        w: &mut W,
        header: OutputHeader,
        output: &ChildSingleOutput,
        highlight: Option<ByteSubslice<'_>>,
    ) -> Result<(), WriteFault>
        ensures { Puts W.meaning w.old
            (shown_stream self.now.styles.now self.now.spec.now.output_indent.now header output.now
            (subslice_value highlight.entry))
            result w.new }
    {
        let captured = Captured {
            styles: self.styles,
            text: output.as_str(),
            highlight,
        };
        (header, "\n", Indent(self.spec.output_indent, captured)).write_to(w)
    }
}

#[tactic(auto, unfolding(crate::specs::UnitOutput::not_captured_text))]
fn write_not_captured<W: WriteStr>(
    w: &mut W,
    styles: &Styles,
    name: OutputName,
) -> Result<(), WriteFault>
    ensures { Puts W.meaning w.old (not_captured_text styles.now name) result w.new }
{
    let note = Toned(styles.skip, "not captured");
    ("    (", name.as_str(), " ", note, ")\n").write_to(w)
}

#[tactic(auto, unfolding(crate::specs::UnitOutput::errors_text))]
fn write_errors<W: WriteStr>(
    w: &mut W,
    spec: &ChildOutputSpec,
    errors: &Option<ErrorChain>,
) -> Result<(), WriteFault>
    ensures { Puts W.meaning w.old (errors_text (layout_of spec.now) errors.now) result w.new }
{
    match errors {
        None => Ok(()),
        Some(chain) => write_errors_block(w, spec, chain),
    }
}

#[tactic(auto, unfolding(crate::specs::UnitOutput::errors_block, writers::specs::Texts::plain))]
fn write_errors_block<W: WriteStr>(
    w: &mut W,
    spec: &ChildOutputSpec,
    chain: &ErrorChain,
) -> Result<(), WriteFault>
    ensures { Puts W.meaning w.old (errors_block (layout_of spec.now) chain.now) result w.new }
{
    let errors = Indent(spec.output_indent, (DisplayErrorChain(chain), "\n"));
    (spec.exec_fail_header, "\n", errors).write_to(w)
}

fn highlight_of(highlight: &Option<Boxed<Highlight>>) -> Option<&Highlight>
    ensures { option_map (λ h. h.now) result ≡ highlight.now }
{
    match highlight {
        Some(highlight) => Some(highlight.get()),
        None => None,
    }
}
