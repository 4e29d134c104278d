//! The line after the line of a test whose process was aborted, on Windows.

ghost use Rattle.text_parts.specs.Names.{nt_status_text, nt_line, nt_message, line_of_abort, line_of_failure};
ghost use Rattle.text_parts.specs.Names.{abort_line};
ghost use Rattle.{styled_text.specs.Names.styled, styled_text.specs.Names.Puts, report_words.specs.Parts.paint};

use report_text::helpers::write_nt_status;
use run_model::abort::{AbortDescription, DescriptionText};
use run_model::status::{ExecutionResultDescription, FailureDescription};
use styled_text::style::{Style, Styles};
use styled_text::text::{IndentLater, Toned};
use writers::text::WriteText;
use writers::write_str::{WriteFault, WriteStr};

/// Writes the line about an abort after the line of its test. A signal is named in the line itself.
///
/// ```
/// use run_model::abort::AbortDescription;
/// use run_model::boxed::Boxed;
/// use run_model::status::FailureDescription;
/// let abort = Boxed::new(alloc, AbortDescription::WindowsJobObject)?;
/// let outcome = ExecutionResultDescription::Fail { failure: FailureDescription::Abort { abort }, leaked: false };
/// write_abort_line(&mut out, &styles, &outcome)?;
/// assert_eq!(out.as_str(), "           - terminated via job object\n");
/// ```
///
/// # Errors
///
/// The writer's fault. It has accepted a prefix of the text.
#[tactic(auto, unfolding(crate::specs::AbortLine::abort_line))]
#[inline(always)]
pub fn write_abort_line<W: WriteStr>(
    w: &mut W,
    styles: &Styles,
    outcome: &ExecutionResultDescription,
) -> Result<(), WriteFault>
    ensures { Puts W.meaning w.old (paint styles.now (abort_line outcome.now)) result w.new }
{
    match outcome {
        ExecutionResultDescription::Fail { failure, .. } => write_line_of_failure(
            w, styles, failure,
        ),
        ExecutionResultDescription::Pass
        | ExecutionResultDescription::Leak { .. }
        | ExecutionResultDescription::ExecFail
        | ExecutionResultDescription::Timeout { .. } => Ok(()),
    }
}

fn write_line_of_failure<W: WriteStr>(
    w: &mut W,
    styles: &Styles,
    failure: &FailureDescription,
) -> Result<(), WriteFault>
    ensures { Puts W.meaning w.old (paint styles.now (line_of_failure failure.now)) result w.new }
{
    match failure {
        FailureDescription::ExitCode { .. } => Ok(()),
        FailureDescription::Abort { abort } => write_line_of_abort(w, styles, abort.get()),
    }
}

#[tactic(auto, unfolding(crate::specs::AbortLine::job_object_line))]
fn write_line_of_abort<W: WriteStr>(
    w: &mut W,
    styles: &Styles,
    abort: &AbortDescription,
) -> Result<(), WriteFault>
    ensures { Puts W.meaning w.old (paint styles.now (line_of_abort abort.now)) result w.new }
{
    match abort {
        AbortDescription::UnixSignal { .. } => Ok(()),
        AbortDescription::WindowsNtStatus { code, message } => write_nt_line(
            w, styles, *code, message,
        ),
        AbortDescription::WindowsJobObject => {
            let terminated = Toned(styles.fail, "terminated");
            (
                "           - ",
                terminated,
                " via ",
                Toned(styles.count, "job object"),
                "\n",
            )
                .write_to(w)
        }
    }
}

#[tactic(auto, unfolding(crate::specs::AbortLine::nt_line))]
fn write_nt_line<W: WriteStr>(
    w: &mut W,
    styles: &Styles,
    code: i32,
    message: &Option<DescriptionText>,
) -> Result<(), WriteFault>
    ensures { Puts W.meaning w.old (paint styles.now (nt_line code message.now)) result w.new }
{
    "           - ".write_to(w)?;
    styles.fail.write(w, "with code")?;
    " ".write_to(w)?;
    write_styled_nt_status(w, styles.count, code)?;
    (NtMessage(message), "\n").write_to(w)
}

#[tactic(auto, unfolding(styled_text::specs::Style::styled))]
fn write_styled_nt_status<W: WriteStr>(w: &mut W, style: Style, code: i32) -> Result<(), WriteFault>
    ensures { Puts W.meaning w.old (styled style (nt_status_text code)) result w.new }
{
    w.write_str(style.prefix())?;
    write_nt_status(w, code)?;
    w.write_str(style.suffix())
}

// The message of a status, if it is known, with later lines indented like the first.
#[derive(Clone, Copy)]
struct NtMessage<'a>(&'a Option<DescriptionText>);

impl WriteText for NtMessage<'_> {
    ghost text = { λ m. nt_message m.0.now };

    #[tactic(auto, unfolding(crate::specs::AbortLine::nt_message, crate::specs::AbortLine::indented_message, styled_text::specs::Style::plain))]
    fn write_to<W: WriteStr>(&self, w: &mut W) -> Result<(), WriteFault> {
        match self.0 {
            None => Ok(()),
            Some(message) => (": ", IndentLater("           - ", message.as_str())).write_to(w),
        }
    }
}
