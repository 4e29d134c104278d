//! Units: what a run starts as processes.

/// Whether a unit is a test or a setup script.
///
/// ```
/// assert_ne!(UnitKind::Test, UnitKind::Script);
/// ```
#[derive(Clone, Copy, Debug, PartialEq, Eq)]
pub enum UnitKind {
    /// A test, or a benchmark.
    Test,
    /// A setup script.
    Script,
}
