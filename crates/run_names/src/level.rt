//! Which results are shown, and why a run is cancelled.
//!
//! The variants of each type are in ascending order.

ghost use Rattle.std.specs.Prelude.{◌≡◌, IsTrue, ◌↔◌, ◌<◌, ◌≤◌, ◌-◌, Some};
ghost use Rattle.run_names.specs.Levels.{reason_rank, reason_words, status_rank, final_rank};

/// Which status lines are shown during a run. Each level also shows what the levels before it show.
///
/// ```
/// assert!(StatusLevel::Fail < StatusLevel::Pass);
/// ```
#[derive(Clone, Copy, Debug, PartialEq, Eq, PartialOrd, Ord)]
pub enum StatusLevel {
    /// No test.
    None,
    /// Tests that failed.
    Fail,
    /// Attempts that are retried.
    Retry,
    /// Slow tests.
    Slow,
    /// Tests that leaked handles.
    Leak,
    /// Tests that passed.
    Pass,
    /// Tests that were skipped.
    Skip,
    /// Everything.
    All,
}

impl StatusLevel {
    /// Whether a result of this level is shown if `shown` is the configured level.
    ///
    /// ```
    /// assert!(StatusLevel::Fail.is_shown_at(StatusLevel::Pass));
    /// ```
    pub fn is_shown_at(self, shown: StatusLevel) -> bool
        ensures { IsTrue result ↔ (status_rank self ≤ status_rank shown) }
    {
        self <= shown
    }
}

/// Which tests the final summary lists. Each level also lists what the levels before it list.
///
/// ```
/// assert!(FinalStatusLevel::Fail < FinalStatusLevel::Pass);
/// ```
#[derive(Clone, Copy, Debug, PartialEq, Eq, PartialOrd, Ord)]
pub enum FinalStatusLevel {
    /// No test.
    None,
    /// Tests that failed.
    Fail,
    /// Tests that passed after earlier attempts.
    Flaky,
    /// Slow tests.
    Slow,
    /// Tests that were skipped.
    Skip,
    /// Tests that leaked handles.
    Leak,
    /// Tests that passed.
    Pass,
    /// Everything.
    All,
}

impl FinalStatusLevel {
    /// Whether a test of this level is listed if `shown` is the configured level.
    ///
    /// ```
    /// assert!(FinalStatusLevel::Fail.is_shown_at(FinalStatusLevel::Flaky));
    /// ```
    pub fn is_shown_at(self, shown: FinalStatusLevel) -> bool
        ensures { IsTrue result ↔ (final_rank self ≤ final_rank shown) }
    {
        self <= shown
    }

    /// How many levels below `All` this one is, from 0 for `All` to 7 for `None`.
    ///
    /// A summary is sorted by this number, so that failures come last, next to the prompt. Only the reporter needs it.
    #[doc(hidden)]
    pub fn below_all(self) -> u8
        ensures { result ≡ 7 - final_rank self }
    {
        match self {
            FinalStatusLevel::None => 7,
            FinalStatusLevel::Fail => 6,
            FinalStatusLevel::Flaky => 5,
            FinalStatusLevel::Slow => 4,
            FinalStatusLevel::Skip => 3,
            FinalStatusLevel::Leak => 2,
            FinalStatusLevel::Pass => 1,
            FinalStatusLevel::All => 0,
        }
    }
}

/// Why a run is cancelled. A greater reason replaces a smaller one.
///
/// ```
/// assert!(CancelReason::TestFailure < CancelReason::Signal);
/// ```
#[derive(Clone, Copy, Debug, PartialEq, Eq, PartialOrd, Ord)]
pub enum CancelReason {
    /// A setup script failed.
    SetupScriptFailure,
    /// A test failed, and running tests are waited for.
    TestFailure,
    /// The report could not be written.
    ReportError,
    /// The run took too long.
    GlobalTimeout,
    /// A test failed, and running tests are terminated.
    TestFailureImmediate,
    /// A signal other than an interrupt was received.
    Signal,
    /// An interrupt was received.
    Interrupt,
    /// A second signal was received, and running tests are killed.
    SecondSignal,
}

impl CancelReason {
    /// Whether it replaces the other one as the run's cancel reason.
    /// ```
    /// assert!(CancelReason::Interrupt.is_above(CancelReason::TestFailure));
    /// ```
    pub fn is_above(self, other: CancelReason) -> bool
        ensures { IsTrue result ↔ (reason_rank (Some other) < reason_rank (Some self)) }
    {
        self > other
    }

    /// The reason in words, as a report shows it.
    ///
    /// ```
    /// assert_eq!(CancelReason::TestFailureImmediate.as_str(), "test failure");
    /// ```
    pub fn as_str(self) -> &'static str
        ensures { result.now ≡ reason_words self }
    {
        match self {
            CancelReason::SetupScriptFailure => "setup script failure",
            CancelReason::TestFailure => "test failure",
            CancelReason::ReportError => "reporting error",
            CancelReason::GlobalTimeout => "global timeout",
            CancelReason::TestFailureImmediate => "test failure",
            CancelReason::Signal => "signal",
            CancelReason::Interrupt => "interrupt",
            CancelReason::SecondSignal => "second signal",
        }
    }
}
