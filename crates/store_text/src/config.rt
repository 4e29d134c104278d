//! What a store keeps.

ghost use Rattle.std.specs.Prelude.{◌≡◌};
ghost use Rattle.store_text.specs.StoredOutput.{is_switched_on};

/// What a store keeps of finished tests besides their names and results.
///
/// ```
/// // The output of tests that fail, and of no others.
/// let store = StoreConfig { store_success_output: false, store_failure_output: true };
/// assert!(store.stores_output(false));
/// ```
#[derive(Clone, Copy, Debug, PartialEq, Eq)]
pub struct StoreConfig {
    /// Whether it keeps the output of tests whose last attempt passed, even if a test is flaky and counts as failed.
    pub store_success_output: bool,
    /// Whether it keeps the output of tests whose last attempt failed.
    pub store_failure_output: bool,
}

impl StoreConfig {
    /// Whether it keeps the output of a test, given whether the test counts as a success for its output setting.
    ///
    /// ```
    /// let is_success = statuses.describe().is_success_for_output();
    /// assert!(!store.stores_output(is_success));
    /// ```
    pub fn stores_output(self, is_success: bool) -> bool
        ensures { result ≡ is_switched_on self is_success }
    {
        if is_success {
            self.store_success_output
        } else {
            self.store_failure_output
        }
    }
}
