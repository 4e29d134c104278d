//! The values of single fields of a scene. Each function returns None for a bad field.

ghost use Rattle.std.specs.Prelude.{◌≡◌};
ghost use Rattle.{scene_fields.specs.Numbers.number_in, uuid.specs.Text.parsed};
ghost use Rattle.scene_fields.specs.Values.{absent_in, config_key_in, display_in, final_level_in, flag_in, flaky_in};
ghost use Rattle.scene_fields.specs.Values.{mode_in, reason_in, reason_or_none_in, stress_in, total_in};

use super::numbers::read_small_count;
use super::split::split_at_byte;
use run_model::config::{NextestRunMode, TestOutputDisplay};
use run_model::level::{CancelReason, FinalStatusLevel};
use run_model::status::FlakyResult;
use run_model::stress::StressIndex;
use std::num::NonZeroU32;
use uuid::Uuid;

/// What a `config` line can set.
#[derive(Clone, Copy, PartialEq, Eq)]
pub enum ConfigKey {
    /// The level from which on the summary lists a test.
    Final,
    /// How many tests the run has. The width of a counter whose number is not known depends on it.
    Runs,
    /// Whether the run runs benchmarks.
    Bench,
    /// When the output of tests that succeed is shown, in place of what their events say.
    Success,
    /// When the output of tests that fail is shown, in place of what their events say.
    Failure,
    /// Whether tests write to the terminal themselves.
    NoCapture,
    /// Whether the line of a test that starts shows its command.
    Verbose,
    /// Whether output has no margin.
    NoIndent,
    /// Whether the report has characters beyond ASCII.
    Unicode,
    /// Whether streams that were captured empty are shown.
    Empty,
}

/// Reads the key of a `config` line.
pub fn read_config_key(field: &str) -> Option<ConfigKey>
    ensures { result ≡ config_key_in field.now }
{
    match field {
        "final" => Some(ConfigKey::Final),
        "runs" => Some(ConfigKey::Runs),
        "bench" => Some(ConfigKey::Bench),
        "success" => Some(ConfigKey::Success),
        "failure" => Some(ConfigKey::Failure),
        "nocapture" => Some(ConfigKey::NoCapture),
        "verbose" => Some(ConfigKey::Verbose),
        "noindent" => Some(ConfigKey::NoIndent),
        "unicode" => Some(ConfigKey::Unicode),
        "empty" => Some(ConfigKey::Empty),
        _ => None,
    }
}

/// Reads the absent value, `-`.
pub fn read_absent(field: &str) -> Option<()>
    ensures { result ≡ absent_in field.now }
{
    (field == "-").then_some(())
}

/// Reads the id of a run, in any form that a UUID has.
pub fn read_run_id(field: &str) -> Option<Uuid>
    ensures { result ≡ parsed field.now }
{
    match Uuid::parse_str(field) {
        Ok(id) => Some(id),
        Err(_) => None,
    }
}

/// Reads yes or no, as `1` or `0`.
pub fn read_flag(field: &str) -> Option<bool>
    ensures { result ≡ flag_in field.now }
{
    match field {
        "0" => Some(false),
        "1" => Some(true),
        _ => None,
    }
}

/// Reads whether a run runs tests or benchmarks, as `0` or `1`.
pub fn read_mode(field: &str) -> Option<NextestRunMode>
    ensures { result ≡ mode_in field.now }
{
    match field {
        "0" => Some(NextestRunMode::Test),
        "1" => Some(NextestRunMode::Benchmark),
        _ => None,
    }
}

/// Reads the level from which on the summary lists a test.
pub fn read_final_level(field: &str) -> Option<FinalStatusLevel>
    ensures { result ≡ final_level_in field.now }
{
    match field {
        "none" => Some(FinalStatusLevel::None),
        "fail" => Some(FinalStatusLevel::Fail),
        "flaky" => Some(FinalStatusLevel::Flaky),
        "slow" => Some(FinalStatusLevel::Slow),
        "skip" => Some(FinalStatusLevel::Skip),
        "leak" => Some(FinalStatusLevel::Leak),
        "pass" => Some(FinalStatusLevel::Pass),
        "all" => Some(FinalStatusLevel::All),
        _ => None,
    }
}

/// Reads when an output is shown.
pub fn read_display(field: &str) -> Option<TestOutputDisplay>
    ensures { result ≡ display_in field.now }
{
    match field {
        // The values of most events come first.
        "never" => Some(TestOutputDisplay::Never),
        "immediate" => Some(TestOutputDisplay::Immediate),
        "immediate-final" => Some(TestOutputDisplay::ImmediateFinal),
        "final" => Some(TestOutputDisplay::Final),
        _ => None,
    }
}

/// Reads what a success after earlier attempts counts as.
pub fn read_flaky_result(field: &str) -> Option<FlakyResult>
    ensures { result ≡ flaky_in field.now }
{
    match field {
        "pass" => Some(FlakyResult::Pass),
        "fail" => Some(FlakyResult::Fail),
        _ => None,
    }
}

/// Reads an iteration of a stress run: its number from 0, perhaps with a slash and how many there are, or `-`.
///
/// ```
/// use run_model::stress::StressIndex;
/// use std::num::NonZeroU32;
/// let first = StressIndex { current: 0, total: NonZeroU32::new(3) };
/// assert_eq!(read_stress_index("0/3"), Some(Some(first)));
/// ```
#[inline(always)]
pub fn read_stress_index(field: &str) -> Option<Option<StressIndex>>
    ensures { result ≡ stress_in field.now }
{
    if field == "-" {
        return Some(None);
    }
    match split_at_byte(field, b'/') {
        None => Some(Some(StressIndex {
            current: read_small_count(field)?,
            total: None,
        })),
        Some((current, total)) => Some(Some(StressIndex {
            current: read_small_count(current)?,
            total: Some(read_total(total)?),
        })),
    }
}

/// Reads how many iterations of a stress run there are, which is not 0.
pub fn read_total(text: &str) -> Option<NonZeroU32>
    ensures { result ≡ total_in (number_in 32 text.now) }
{
    NonZeroU32::new(read_small_count(text)?)
}

/// Reads why a run is cancelled.
pub fn read_reason(field: &str) -> Option<CancelReason>
    ensures { result ≡ reason_in field.now }
{
    match field {
        "setup-script-failure" => Some(CancelReason::SetupScriptFailure),
        "test-failure" => Some(CancelReason::TestFailure),
        "report-error" => Some(CancelReason::ReportError),
        "global-timeout" => Some(CancelReason::GlobalTimeout),
        "test-failure-immediate" => Some(CancelReason::TestFailureImmediate),
        "signal" => Some(CancelReason::Signal),
        "interrupt" => Some(CancelReason::Interrupt),
        "second-signal" => Some(CancelReason::SecondSignal),
        _ => None,
    }
}

/// Reads why a run is cancelled, or `-`.
pub fn read_reason_or_none(field: &str) -> Option<Option<CancelReason>>
    ensures { result ≡ reason_or_none_in field.now }
{
    match field {
        "-" => Some(None),
        _ => Some(Some(read_reason(field)?)),
    }
}
