//! Tests that a rerun was expected to run and has not.

ghost use Rattle.std.specs.Prelude.{◌≡◌, IfOk};

use crate::memory::{OutOfMemory, TooManyOwners};
use crate::name::OwnedTestInstanceId;
use std::alloc::Global;
use std::marker::Model;
use std::sync::Arc;

/// The outstanding tests of the previous run that a rerun has not seen.
///
/// ```
/// let list = TestInstanceList::new(alloc, vec![in alloc; test]?)?;
/// let not_seen = NotSeen { not_seen: list, total_not_seen: 1 };
/// ```
#[derive(Debug, Drop)]
pub struct NotSeen {
    /// The tests that are listed. There may be more.
    pub not_seen: TestInstanceList,
    /// How many there are.
    pub total_not_seen: usize,
}

impl NotSeen {
    /// A copy that shares the same list. It allocates nothing.
    ///
    /// # Errors
    ///
    /// The shared list has as many owners as its counter can hold.
    pub fn try_clone(&self) -> Result<Self, TooManyOwners>
        ensures { IfOk result (λ copy. copy ≡ self.now) }
    {
        Ok(NotSeen {
            not_seen: self.not_seen.try_clone()?,
            total_not_seen: self.total_not_seen,
        })
    }
}

/// Tests in order, which copies share. Contracts see them as a list.
///
/// ```
/// let list = TestInstanceList::new(alloc, vec![in alloc; test]?)?;
/// assert_eq!(list.as_slice()[0].binary_id.as_str(), "alpha");
/// ```
#[derive(Debug, Drop)]
pub struct TestInstanceList {
    instances: Arc<Vec<OwnedTestInstanceId>>,
}

impl Model for TestInstanceList {
    ghost use Rattle.{std.specs.Prelude.List, run_names.specs.declared.name.OwnedTestInstanceId.OwnedTestInstanceId};

    ghost Value = { List OwnedTestInstanceId };

    ghost view = { λ list. list.instances.value.items };
}

impl TestInstanceList {
    /// These tests. It allocates.
    ///
    /// # Errors
    ///
    /// Memory was refused. The tests are dropped.
    pub fn new(alloc: Global, instances: Vec<OwnedTestInstanceId>) -> Result<Self, OutOfMemory>
        ensures { IfOk result (λ list. list ≡ instances.items) }
    {
        Ok(TestInstanceList {
            instances: Arc::new(alloc, instances)?,
        })
    }

    /// The tests.
    pub fn as_slice(&self) -> &[OwnedTestInstanceId]
        ensures { result.now ≡ self.now }
    {
        self.instances.as_slice()
    }

    /// A copy that shares the same tests. It allocates nothing.
    ///
    /// # Errors
    ///
    /// The shared list has as many owners as its counter can hold.
    pub fn try_clone(&self) -> Result<Self, TooManyOwners>
        ensures { IfOk result (λ list. list ≡ self.now) }
    {
        Ok(TestInstanceList {
            instances: Arc::try_clone(&self.instances)?,
        })
    }
}
