//! A finished test with its attempts.

ghost use Rattle.std.specs.Prelude.{◌≡◌};
ghost use Rattle.run_model.specs.Statuses.{described_summary, summary_of};

use run_model::output::LiveSpec;
use run_model::status::ExecutionStatuses;
use test_text::test_finished::FinishedTest;

/// A finished test with its attempts, for its line and for its entry in the summary.
#[derive(Clone, Copy)]
pub struct FinishedAttempts<'e, 'a> {
    /// The test.
    pub finished: FinishedTest<'e, 'a>,
    /// The attempts of the test.
    pub statuses: &'e ExecutionStatuses<LiveSpec>,
    ghost described: { summary_of statuses.now ≡ described_summary finished.describe },
}

impl<'e, 'a> FinishedAttempts<'e, 'a> {
    /// The test with its attempts. Its outcome must be theirs.
    #[inline(always)]
    pub fn new(
        finished: FinishedTest<'e, 'a>,
        statuses: &'e ExecutionStatuses<LiveSpec>,
    ) -> FinishedAttempts<'e, 'a>
        requires described { summary_of statuses.now ≡ described_summary finished.describe }
        ensures finished { result.finished ≡ finished.entry }
        ensures statuses { result.statuses.now ≡ statuses.now }
    {
        FinishedAttempts { finished, statuses }
    }
}
