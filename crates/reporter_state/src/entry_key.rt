//! The keys of summary entries.

ghost use Rattle.std.specs.Prelude.{◌≡◌, refl, Some, IfOk};
ghost use Rattle.styled_text.specs.Names.{as_partial_cmp, eq_by_cmp, nat_cmp, eq_by_cmp_equiv};
ghost use Rattle.styled_text.specs.Names.{partial_equiv_from_equiv, partial_order_from_total, slice_cmp};
ghost use Rattle.reporter_state.specs.Names.{counter_key, iteration_key, level_key, test_key, Placed, placed_cmp};
ghost use Rattle.reporter_state.specs.Names.{placed_key, placed_total, key_cmp};

use crate::final_output::FinalOutput;
use crate::kept_test::KeptTest;
use report_text::helpers::DisplayCounterIndex;
use run_model::boxed::Boxed;
use run_model::memory::OutOfMemory;
use run_model::stress::StressIndex;
use std::alloc::Global;
use std::cmp::Ordering;
use std::marker::Model;

/// The key of an entry. It is ordered by the entry's final level, the greatest first, then by the iteration, then by
/// the counter if one is shown, then by the bytes of the binary's id and of the test's name, and then by the number of
/// entries kept before.
#[derive(Drop)]
pub struct EntryKey {
    // Boxed, so that a move is cheap.
    parts: Boxed<KeyParts>,
}

#[derive(Drop)]
struct KeyParts {
    // How many levels below `All`. It is compared first, and is the same for most entries.
    below: u8,
    // Whether the test has neither an iteration nor a counter, like most.
    is_plain: bool,
    // The number of entries kept before, so that no two keys are equal.
    place: usize,
    test: KeptTest,
}

impl Model for KeyParts {
    ghost use Rattle.std.specs.Prelude.{◌≡◌, true};
    ghost use Rattle.reporter_state.specs.Keys.{IsPlain, Placed};

    ghost Value = { Placed };

    ghost view = { λ p. record { below = p.below; test = p.test; place = p.place } };

    ghost invariant = { λ p. p.is_plain ≡ true → IsPlain p.test };
}

impl Model for EntryKey {
    ghost use Rattle.reporter_state.specs.Keys.{Placed};

    ghost Value = { Placed };

    ghost view = { λ k. k.parts };
}

impl EntryKey {
    /// The key of a test with this output, after `place` other entries. It allocates for the test.
    ///
    /// # Errors
    ///
    /// Memory was refused.
    pub fn new(
        alloc: Global,
        test: KeptTest,
        output: &FinalOutput,
        place: usize,
    ) -> Result<EntryKey, OutOfMemory>
        ensures { IfOk result (λ k. k ≡ record { below = level_key output.now; test = test; place = place }) }
    {
        let parts = KeyParts {
            below: output.final_status_level().below_all(),
            is_plain: test.stress_index.is_none() && test.counter.is_none(),
            place,
            test,
        };
        Ok(EntryKey {
            parts: Boxed::new(alloc, parts)?,
        })
    }

    /// The test.
    pub fn test(&self) -> &KeptTest
        ensures { result.now ≡ self.now.test }
    {
        &self.parts.get().test
    }
}

impl PartialEq for EntryKey {
    ghost eq = { eq_by_cmp placed_cmp };

    ghost laws = { partial_equiv_from_equiv (eq_by_cmp_equiv placed_total) };

    fn eq(&self, other: &EntryKey) -> bool {
        self.cmp(other).is_eq()
    }
}

impl Eq for EntryKey {
    ghost laws = { eq_by_cmp_equiv placed_total };
}

impl PartialOrd for EntryKey {
    ghost partial_cmp = { as_partial_cmp placed_cmp };

    ghost laws = { partial_order_from_total placed_total };

    fn partial_cmp(&self, other: &EntryKey) -> Option<Ordering> {
        Some(self.cmp(other))
    }
}

impl Ord for EntryKey {
    ghost cmp = { placed_cmp };

    ghost total = { placed_total };

    ghost matches_partial_cmp = { λ x y. refl };

    ghost matches_eq = { λ x y. refl };

    fn cmp(&self, other: &EntryKey) -> Ordering {
        let (left, right) = (self.parts.get(), other.parts.get());
        compare_order(left, right).then_with(|| left.place.cmp(&right.place))
    }
}

// Compares as the final order does, which ignores places.
fn compare_order(left: &KeyParts, right: &KeyParts) -> Ordering
    ensures { result ≡ key_cmp (placed_key left.now) (placed_key right.now) }
{
    if left.below != right.below {
        return left.below.cmp(&right.below);
    }
    if left.is_plain && right.is_plain {
        return left.test.instance.compare(&right.test.instance);
    }
    compare_tests(&left.test, &right.test)
}

fn compare_tests(left: &KeptTest, right: &KeptTest) -> Ordering
    ensures { result ≡ key_cmp (test_key left.now) (test_key right.now) }
{
    compare_iterations(left.stress_index, right.stress_index)
        .then_with(|| compare_counters(left.counter, right.counter))
        .then_with(|| left.instance.compare(&right.instance))
}

// None sorts first.
fn compare_iterations(left: Option<StressIndex>, right: Option<StressIndex>) -> Ordering
    ensures { result ≡ slice_cmp nat_cmp (iteration_key left) (iteration_key right) }
{
    match (left, right) {
        (None, None) => Ordering::Equal,
        (None, Some(_)) => Ordering::Less,
        (Some(_), None) => Ordering::Greater,
        (Some(left), Some(right)) => left.compare(&right),
    }
}

// None sorts first, then numbers, then padding.
fn compare_counters(
    left: Option<DisplayCounterIndex>,
    right: Option<DisplayCounterIndex>,
) -> Ordering
    ensures { result ≡ slice_cmp nat_cmp (counter_key left) (counter_key right) }
{
    match (left, right) {
        (None, None) => Ordering::Equal,
        (None, Some(_)) => Ordering::Less,
        (Some(_), None) => Ordering::Greater,
        (Some(left), Some(right)) => compare_shown_counters(left, right),
    }
}

fn compare_shown_counters(left: DisplayCounterIndex, right: DisplayCounterIndex) -> Ordering
    ensures { result ≡ slice_cmp nat_cmp (counter_key (Some left)) (counter_key (Some right)) }
{
    match (left, right) {
        (
            DisplayCounterIndex::Counter { current, total },
            DisplayCounterIndex::Counter {
                current: right_current,
                total: right_total,
            },
        ) => (current, total).cmp(&(right_current, right_total)),
        (DisplayCounterIndex::Counter { .. }, DisplayCounterIndex::Padded { .. }) => Ordering::Less,
        (DisplayCounterIndex::Padded { .. }, DisplayCounterIndex::Counter { .. }) =>
            Ordering::Greater,
        (DisplayCounterIndex::Padded { .. }, DisplayCounterIndex::Padded { .. }) => Ordering::Equal,
    }
}
