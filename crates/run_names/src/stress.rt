//! Stress runs: the tests run many times, to find those that fail now and then.

ghost use Rattle.std.specs.{Prelude.◌≡◌, Option.option_map, Int.NonZero.non_zero_u32_get, Ordering.nat_cmp};
ghost use Rattle.std.specs.{Cmp.Lexicographic.slice_cmp};
ghost use Rattle.run_names.specs.Stress.{completed_of, count_left, elapsed_of, remaining_of, remaining_value};
ghost use Rattle.run_names.specs.Stress.{stress_key, time_left};

use crate::time::Nanos;
use std::cmp::Ordering;
use std::num::NonZeroU32;

/// Which iteration of a stress run it is.
///
/// Ordered by the iteration, then by the total. An unknown total comes first.
///
/// ```
/// use std::num::NonZeroU32;
/// let first = StressIndex { current: 0, total: NonZeroU32::new(3) };
/// assert!(first < StressIndex { current: 1, ..first });
/// ```
#[derive(Clone, Copy, Debug, PartialEq, Eq, PartialOrd, Ord)]
pub struct StressIndex {
    /// The iteration, from 0.
    pub current: u32,
    /// How many iterations there are, if that is known.
    pub total: Option<NonZeroU32>,
}

impl StressIndex {
    /// `cmp` with a contract that names the order. Only the reporter needs it.
    #[doc(hidden)]
    pub fn compare(&self, other: &StressIndex) -> Ordering
        ensures { result ≡ slice_cmp nat_cmp (stress_key self.now) (stress_key other.now) }
    {
        self.cmp(other)
    }
}

/// How often a stress run repeats its tests.
#[derive(Clone, Copy, Debug, PartialEq, Eq)]
pub enum StressCount {
    /// This many times.
    Count {
        /// How many iterations there are.
        count: NonZeroU32,
    },
    /// Until the run is ended.
    Infinite,
}

/// How far a stress run has come.
///
/// ```
/// let progress = StressProgress::Count { total: StressCount::Infinite, elapsed: time, completed: 2 };
/// assert_eq!(progress.remaining(), Some(StressRemaining::Infinite));
/// ```
#[derive(Clone, Copy, Debug, PartialEq, Eq)]
pub enum StressProgress {
    /// A run of this many iterations.
    Count {
        /// How many iterations are planned.
        total: StressCount,
        /// How long the run has taken.
        elapsed: Nanos,
        /// How many iterations have finished.
        completed: u32,
    },
    /// A run of this duration.
    Time {
        /// How long the run should take.
        total: Nanos,
        /// How long it has taken.
        elapsed: Nanos,
        /// How many iterations have finished.
        completed: u32,
    },
}

impl StressProgress {
    /// How long the run has taken.
    pub fn elapsed(&self) -> Nanos
        ensures { result ≡ elapsed_of self.now }
    {
        match self {
            StressProgress::Count { elapsed, .. } | StressProgress::Time { elapsed, .. } =>
                *elapsed,
        }
    }

    /// How many iterations have finished.
    ///
    /// ```
    /// let progress = StressProgress::Count { total: StressCount::Infinite, elapsed: time, completed: 2 };
    /// assert_eq!(progress.completed(), 2);
    /// ```
    pub fn completed(&self) -> u32
        ensures { result ≡ completed_of self.now }
    {
        match self {
            StressProgress::Count { completed, .. } | StressProgress::Time { completed, .. } =>
                *completed,
        }
    }

    /// What remains, unless the run is complete.
    ///
    /// ```
    /// let progress = StressProgress::Time { total: Nanos(5), elapsed: Nanos(3), completed: 1 };
    /// assert_eq!(progress.remaining(), Some(StressRemaining::Time(Nanos(2))));
    /// ```
    pub fn remaining(&self) -> Option<StressRemaining>
        ensures { option_map remaining_value result ≡ remaining_of self.now }
    {
        match self {
            StressProgress::Count {
                total: StressCount::Count { count },
                completed,
                ..
            } => count_left(*count, *completed),
            StressProgress::Count {
                total: StressCount::Infinite,
                ..
            } => Some(StressRemaining::Infinite),
            StressProgress::Time { total, elapsed, .. } => time_left(*total, *elapsed),
        }
    }
}

// The iterations that remain, if any do.
fn count_left(count: NonZeroU32, completed: u32) -> Option<StressRemaining>
    ensures { option_map remaining_value result ≡ count_left (non_zero_u32_get count) completed }
{
    let left = NonZeroU32::new(count.get().saturating_sub(completed))?;
    Some(StressRemaining::Count(left))
}

// The time that remains, if any does.
fn time_left(total: Nanos, elapsed: Nanos) -> Option<StressRemaining>
    ensures { option_map remaining_value result ≡ time_left total.0 elapsed.0 }
{
    if elapsed.0 < total.0 {
        Some(StressRemaining::Time(Nanos(total.0 - elapsed.0)))
    } else {
        None
    }
}

/// What remains of a stress run.
#[derive(Clone, Copy, Debug, PartialEq, Eq)]
pub enum StressRemaining {
    /// This many iterations.
    Count(NonZeroU32),
    /// Iterations without end.
    Infinite,
    /// This much time.
    Time(Nanos),
}
