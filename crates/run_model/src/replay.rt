//! Replays of recorded runs.

use jiff::civil::DateTime;
use run_names::abort::DescriptionText;
use run_names::run_id::ShortestRunIdPrefix;
use uuid::Uuid;

/// Which recorded run a replay shows.
///
/// ```
/// use jiff::civil::DateTime;
/// use uuid::Uuid;
/// let run_id = Uuid::from_u128(0x4000_8000_0000_0000_0001);
/// let started_at = DateTime::new(2024, 2, 29, 7, 5, 9, 0)?;
/// let status = DescriptionText::new(alloc, "ok")?;
/// let header = ReplayHeader { run_id, unique_prefix: None, started_at, status };
/// ```
#[derive(Debug, Drop)]
pub struct ReplayHeader {
    /// The run's id.
    pub run_id: Uuid,
    /// The part of the id that no other recorded run has, where that is known.
    pub unique_prefix: Option<ShortestRunIdPrefix>,
    /// When the run started, by the clock where the replay is shown. A part of a second is not shown.
    pub started_at: DateTime,
    /// How the run ended, in the record's words.
    pub status: DescriptionText,
}
