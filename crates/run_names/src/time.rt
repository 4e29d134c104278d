//! Durations.

ghost use Rattle.std.specs.Prelude.{◌≡◌, ◌*◌, ◌↔◌, IfOk, IsOk};
ghost use Rattle.std.specs.Duration.{as_nanos, FitsDuration};

use std::error::Error;
use std::fmt;
use std::time::Duration;

/// A duration in nanoseconds. It holds every `u128`, which is more than std's `Duration` does.
///
/// ```
/// assert_eq!(Nanos(1_500_000_000), Nanos::from_millis(1_500)); // one second and a half
/// ```
#[derive(Clone, Copy, Debug, Default, PartialEq, Eq, PartialOrd, Ord, Hash)]
pub struct Nanos(pub u128);

impl Nanos {
    /// This many seconds.
    ///
    /// ```
    /// assert_eq!(Nanos::from_secs(3), Nanos(3_000_000_000));
    /// ```
    pub fn from_secs(seconds: u64) -> Self
        ensures { result.0 ≡ seconds * 1000000000 }
    {
        Nanos(seconds as u128 * 1_000_000_000)
    }

    /// This many milliseconds.
    ///
    /// ```
    /// assert_eq!(Nanos::from_millis(20), Nanos(20_000_000));
    /// ```
    pub fn from_millis(milliseconds: u64) -> Self
        ensures { result.0 ≡ milliseconds * 1000000 }
    {
        Nanos(milliseconds as u128 * 1_000_000)
    }
}

/// Every `Duration` fits.
///
/// ```
/// use std::time::Duration;
/// assert_eq!(Nanos::from(Duration::from_millis(1_500)), Nanos(1_500_000_000));
/// ```
impl From<Duration> for Nanos {
    ghost from_gives = { λ duration nanos. nanos.0 ≡ as_nanos duration };

    fn from(duration: Duration) -> Self {
        Nanos(duration.as_nanos())
    }
}

/// A duration is longer than std's `Duration` can be.
#[derive(Clone, Copy, Debug, PartialEq, Eq)]
pub struct DurationTooLong;

impl fmt::Display for DurationTooLong {
    fn fmt<W: fmt::Write>(&self, f: &mut fmt::Formatter<W>) -> fmt::Result {
        f.write_str("duration too long")
    }
}

impl Error for DurationTooLong {}

/// A longer duration is the error.
///
/// ```
/// use std::time::Duration;
/// assert_eq!(Duration::try_from(Nanos::from_secs(3)), Ok(Duration::from_secs(3)));
/// assert!(Duration::try_from(Nanos(u128::MAX)).is_err());
/// ```
impl TryFrom<Nanos> for Duration {
    type Error = DurationTooLong;

    ghost try_from_gives = { λ nanos result. (IsOk result ↔ FitsDuration nanos.0)
        × IfOk result (λ duration. as_nanos duration ≡ nanos.0) };

    fn try_from(nanos: Nanos) -> Result<Duration, DurationTooLong> {
        if nanos.0 > Duration::MAX.as_nanos() {
            return Err(DurationTooLong);
        }
        Ok(Duration::from_nanos_u128(nanos.0))
    }
}
