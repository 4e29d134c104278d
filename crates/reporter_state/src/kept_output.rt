//! A short form of what the summary shows of a test: an ordered map moves its values, and most lines fit in few bytes.

ghost use Rattle.std.specs.Prelude.{◌≡◌, ◌<◌, ◌^◌, ℤ, IfOk, IfSome, None};
ghost use Rattle.reporter_state.specs.declared.kept_output.ShortSummary.{ShortSummary};
ghost use Rattle.reporter_state.specs.KeptOutputs.{ended_by, final_output_of, summary_of_line};
ghost use Rattle.reporter_state.specs.{declared.final_output.FinalOutput.TheVariants.Executed};
ghost use Rattle.reporter_state.specs.{declared.final_output.FinalOutput.TheVariants.ExecutedWithOutput};

use crate::final_output::FinalOutput;
use crate::loaded_output::LoadedOutput;
use run_model::boxed::Boxed;
use run_model::memory::OutOfMemory;
use run_model::status::{
    ExecutionResultDescription, FailureDescription, RetryData, StatusCase, StatusSummary,
};
use run_model::time::Nanos;
use std::alloc::Global;
use std::marker::Model;

/// What the summary shows of a test, in few bytes. Contracts see what is shown.
#[derive(Drop)]
pub struct KeptOutput {
    pub form: OutputForm,
}

/// The forms. `Line` repeats the fields of a `ShortSummary`: in a variant they take fewer bytes than that struct does.
#[derive(Drop)]
pub enum OutputForm {
    /// The test was skipped.
    Skipped,
    /// It ran, and only its line is shown.
    Line {
        case: StatusCase,
        is_slow: bool,
        exit_code: i32,
        retry_data: RetryData,
        nanos: u64,
    },
    /// Its line is shown with the output of its last attempt.
    LineWithOutput {
        case: StatusCase,
        is_slow: bool,
        exit_code: i32,
        retry_data: RetryData,
        nanos: u64,
        output: LoadedOutput,
    },
    /// A line that does not fit into the short form.
    Whole(Boxed<FinalOutput>),
}

/// The outcome of a test whose last attempt passed or exited with a code.
#[derive(Clone, Copy)]
pub struct ShortSummary {
    /// How long the last attempt ran, in nanoseconds.
    pub nanos: u64,
    /// The number of the attempt, and how many are allowed.
    pub retry_data: RetryData,
    /// The exit code of its process, or 0 if it passed.
    pub exit_code: i32,
    /// The outcome of the attempts.
    pub case: StatusCase,
    /// Whether the last attempt was marked as slow.
    pub is_slow: bool,
}

impl Model for KeptOutput {
    ghost use Rattle.reporter_state.specs.Names.{final_output_of, FinalOutput};

    ghost Value = { FinalOutput };

    ghost view = { λ k. final_output_of k.form };
}

impl KeptOutput {
    /// The short form of what is shown. Only an output without a short form is allocated.
    ///
    /// # Errors
    ///
    /// Memory was refused.
    pub fn new(alloc: Global, output: FinalOutput) -> Result<KeptOutput, OutOfMemory>
        ensures { IfOk result (λ k. k ≡ output) }
    {
        let form = match output {
            FinalOutput::Skipped => OutputForm::Skipped,
            FinalOutput::Executed { summary } => line_alone(alloc, summary)?,
            FinalOutput::ExecutedWithOutput { summary, output } => {
                line_with_output(alloc, summary, output)?
            }
        };
        Ok(KeptOutput { form })
    }
}

fn line_alone(alloc: Global, summary: StatusSummary) -> Result<OutputForm, OutOfMemory>
    ensures { IfOk result (λ form. final_output_of form ≡ Executed summary) }
{
    match ShortSummary::of(&summary) {
        Some(line) => Ok(OutputForm::Line {
            case: line.case,
            is_slow: line.is_slow,
            exit_code: line.exit_code,
            retry_data: line.retry_data,
            nanos: line.nanos,
        }),
        None => Ok(OutputForm::Whole(Boxed::new(alloc, FinalOutput::Executed { summary })?)),
    }
}

fn line_with_output(
    alloc: Global,
    summary: StatusSummary,
    output: LoadedOutput,
) -> Result<OutputForm, OutOfMemory>
    ensures { IfOk result (λ form. final_output_of form ≡ ExecutedWithOutput summary output) }
{
    match ShortSummary::of(&summary) {
        Some(line) => Ok(OutputForm::LineWithOutput {
            case: line.case,
            is_slow: line.is_slow,
            exit_code: line.exit_code,
            retry_data: line.retry_data,
            nanos: line.nanos,
            output,
        }),
        None => Ok(OutputForm::Whole(Boxed::new(
            alloc,
            FinalOutput::ExecutedWithOutput { summary, output },
        )?)),
    }
}

impl ShortSummary {
    // None if the last result has no short form.
    fn of(summary: &StatusSummary) -> Option<ShortSummary>
        ensures short { IfSome result (λ line. summary_of_line line ≡ summary.now) }
        ensures none { result ≡ None → (line : ShortSummary) → line.nanos < 2 ^ 64
            → summary_of_line line ≡ summary.now → ⊥ }
    {
        let exit_code = exit_code_of(&summary.result)?;
        let nanos = u64::try_from(summary.time_taken.0).ok()?;
        Some(ShortSummary {
            nanos,
            retry_data: summary.retry_data,
            exit_code,
            case: summary.case,
            is_slow: summary.is_slow,
        })
    }

    /// The outcome of the attempts.
    pub fn summary(&self) -> StatusSummary
        ensures { result ≡ summary_of_line self.now }
    {
        StatusSummary {
            case: self.case,
            retry_data: self.retry_data,
            result: ended_by(self.exit_code),
            time_taken: Nanos(self.nanos as u128),
            is_slow: self.is_slow,
        }
    }
}

fn ended_by(exit_code: i32) -> ExecutionResultDescription
    ensures { result ≡ ended_by exit_code }
{
    if exit_code == 0 {
        return ExecutionResultDescription::Pass;
    }
    ExecutionResultDescription::Fail {
        failure: FailureDescription::ExitCode { code: exit_code },
        leaked: false,
    }
}

fn exit_code_of(outcome: &ExecutionResultDescription) -> Option<i32>
    ensures code { IfSome result (λ code. ended_by code ≡ outcome.now) }
    ensures none { result ≡ None → (code : ℤ) → ended_by code ≡ outcome.now → ⊥ }
{
    match outcome {
        ExecutionResultDescription::Pass => Some(0),
        ExecutionResultDescription::Fail {
            failure: FailureDescription::ExitCode { code },
            leaked: false,
        } if *code != 0 => Some(*code),
        _ => None,
    }
}
