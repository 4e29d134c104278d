//! A kept test. It owns its names, so it outlives the event that named it.

ghost use Rattle.std.specs.Prelude.{◌≡◌, IfOk};
ghost use Rattle.reporter_state.specs.Names.{instance_key, kept_test, key_cmp};

use crate::binary_ids::KeptBinaryIds;
use report_text::helpers::DisplayCounterIndex;
use run_model::boxed::Shared;
use run_model::memory::OutOfMemory;
use run_model::name::{RustBinaryId, TestCaseName, TestInstanceId};
use run_model::stress::StressIndex;
use std::alloc::Global;
use std::cmp::Ordering;
use std::marker::Model;
use text_parts::instance::CountedInstance;

/// A test as its lines name it, which owns its names.
///
/// ```
/// use reporter_state::binary_ids::KeptBinaryIds;
/// let mut ids = KeptBinaryIds::new(alloc);
/// let kept = KeptTest::copy_of(alloc, &mut ids, settings.padded_instance(None, test.as_ref()))?;
/// assert_eq!(kept.as_counted().instance.test_name.as_str(), "t1");
/// ```
#[derive(Drop)]
pub struct KeptTest {
    /// Which iteration of a stress run it belongs to.
    pub stress_index: Option<StressIndex>,
    /// Its counter, if counters are shown.
    pub counter: Option<DisplayCounterIndex>,
    /// The test.
    pub instance: KeptInstance,
}

/// The names of a kept test. The id is shared by the tests of its binary.
#[derive(Drop)]
pub struct KeptInstance {
    binary_id: Shared<RustBinaryId>,
    test_name: TestCaseName,
}

impl Model for KeptInstance {
    ghost use Rattle.run_names.specs.declared.name.OwnedTestInstanceId.{OwnedTestInstanceId};

    ghost Value = { OwnedTestInstanceId };

    ghost view = { λ i. record { binary_id = i.binary_id; test_name = i.test_name } };
}

impl KeptTest {
    /// Copies the test's name, and its binary's id if that is new.
    ///
    /// # Errors
    ///
    /// Memory was refused.
    pub fn copy_of(
        alloc: Global,
        ids: &mut KeptBinaryIds,
        test: CountedInstance<'_>,
    ) -> Result<KeptTest, OutOfMemory>
        ensures { IfOk result (λ t. t ≡ kept_test test.entry) }
    {
        let TestInstanceId {
            binary_id,
            test_name,
        } = test.instance;
        Ok(KeptTest {
            stress_index: test.stress_index,
            counter: test.counter,
            instance: KeptInstance {
                binary_id: ids.keep(alloc, binary_id)?,
                test_name: TestCaseName::new(alloc, test_name.as_str())?,
            },
        })
    }

    /// The test, with borrowed names.
    pub fn as_counted(&self) -> CountedInstance<'_>
        ensures { kept_test result ≡ self.now }
    {
        CountedInstance {
            stress_index: self.stress_index,
            counter: self.counter,
            instance: self.instance.as_ref(),
        }
    }
}

impl KeptInstance {
    /// The names, borrowed.
    pub fn as_ref(&self) -> TestInstanceId<'_>
        ensures { (result.binary_id.now ≡ self.now.binary_id) × (result.test_name.now ≡ self.now.test_name) }
    {
        TestInstanceId {
            binary_id: self.binary_id.get(),
            test_name: &self.test_name,
        }
    }

    /// Compares the bytes of the binaries' ids, then of the tests' names.
    pub fn compare(&self, other: &KeptInstance) -> Ordering
        ensures { result ≡ key_cmp (instance_key self.now) (instance_key other.now) }
    {
        self.binary_id
            .get()
            .cmp(other.binary_id.get())
            .then_with(|| self.test_name.cmp(&other.test_name))
    }
}
