//! What the summary keeps of a test.

ghost use Rattle.std.specs.Prelude.{◌≡◌, IfOk, IsOk, false};
ghost use Rattle.{run_model.specs.Statuses.is_aborted, text_parts.specs.Finish.timed_at_end};
ghost use Rattle.reporter_state.specs.Names.{HasShownOutput, finish_of, final_output, finished_entry, skipped_entry};
ghost use Rattle.reporter_state.specs.Names.{final_level_of_output};

use crate::binary_ids::KeptBinaryIds;
use crate::finished_attempts::FinishedAttempts;
use crate::kept_test::KeptTest;
use crate::loaded_output::LoadedOutput;
use run_model::level::FinalStatusLevel;
use run_model::memory::OutOfMemory;
use run_model::status::StatusSummary;
use std::alloc::Global;
use text_parts::instance::CountedInstance;

/// An entry of the summary.
#[derive(Drop)]
pub struct FinalOutputEntry {
    /// The test.
    pub test: KeptTest,
    /// What is shown of it.
    pub output: FinalOutput,
}

/// What the summary shows of a test.
#[derive(Debug, Drop)]
pub enum FinalOutput {
    /// It ran, and only its line is shown.
    Executed {
        /// The outcome of its attempts.
        summary: StatusSummary,
    },
    /// It ran, and its line is shown with the output of its last attempt.
    ExecutedWithOutput {
        /// The outcome of its attempts.
        summary: StatusSummary,
        /// The output of its last attempt.
        output: LoadedOutput,
    },
    /// It was skipped, and its line is shown.
    Skipped,
}

impl FinalOutput {
    /// The level from which the summary lists the test.
    pub fn final_status_level(&self) -> FinalStatusLevel
        ensures { result ≡ final_level_of_output self.now }
    {
        match self {
            FinalOutput::Executed { summary } => summary.final_status_level(),
            FinalOutput::ExecutedWithOutput { summary, .. } => summary.final_status_level(),
            FinalOutput::Skipped => FinalStatusLevel::Skip,
        }
    }

    #[tactic(auto, unfolding(crate::specs::Effects::final_output))]
    fn of_test(
        alloc: Global,
        attempts: &FinishedAttempts<'_, '_>,
    ) -> Result<FinalOutput, OutOfMemory>
        requires { HasShownOutput (finish_of attempts.now.finished) }
        ensures output { IfOk result (λ o. o ≡ final_output (finish_of attempts.now.finished)) }
        ensures free { is_aborted (finish_of attempts.now.finished).last.result ≡ false
            → timed_at_end attempts.now.finished.row attempts.now.finished.display ≡ false → IsOk result }
    {
        let finished = &attempts.finished;
        let summary = attempts.statuses.summary(alloc)?;
        if finished.row.is_shown_at_end(finished.display) {
            let output = &finished.describe.last_status().output;
            Ok(FinalOutput::ExecutedWithOutput {
                summary,
                output: LoadedOutput::copy_of(alloc, output)?,
            })
        } else {
            Ok(FinalOutput::Executed { summary })
        }
    }
}

impl FinalOutputEntry {
    /// What the summary shows of a finished test. It copies the test's names and the texts of the last attempt, and
    /// shares the bytes of its output. Output that is shown must be loaded.
    ///
    /// # Errors
    ///
    /// Memory was refused.
    pub fn of_test(
        alloc: Global,
        ids: &mut KeptBinaryIds,
        attempts: &FinishedAttempts<'_, '_>,
    ) -> Result<FinalOutputEntry, OutOfMemory>
        requires { HasShownOutput (finish_of attempts.now.finished) }
        ensures { IfOk result (λ e. e ≡ finished_entry (finish_of attempts.now.finished)) }
    {
        Ok(FinalOutputEntry {
            test: KeptTest::copy_of(alloc, ids, attempts.finished.test)?,
            output: FinalOutput::of_test(alloc, attempts)?,
        })
    }

    /// What the summary shows of a skipped test. It allocates for the test's names.
    ///
    /// ```
    /// use reporter_state::binary_ids::KeptBinaryIds;
    /// let mut ids = KeptBinaryIds::new(alloc);
    /// let entry = FinalOutputEntry::skipped(alloc, &mut ids, settings.padded_instance(None, test.as_ref()))?;
    /// assert!(entry.output.final_status_level() == FinalStatusLevel::Skip);
    /// ```
    ///
    /// # Errors
    ///
    /// Memory was refused.
    pub fn skipped(
        alloc: Global,
        ids: &mut KeptBinaryIds,
        test: CountedInstance<'_>,
    ) -> Result<FinalOutputEntry, OutOfMemory>
        ensures { IfOk result (λ e. e ≡ skipped_entry test.entry) }
    {
        Ok(FinalOutputEntry {
            test: KeptTest::copy_of(alloc, ids, test)?,
            output: FinalOutput::Skipped,
        })
    }
}
