//! Counts, which a scene writes as pairs of a key and a number.
//!
//! Single spaces separate the pairs, as in `passed=2 failed=1`, and each key occurs once. A count without a pair is 0,
//! and `-` means no pair at all. Each function returns None for a bad field.

ghost use Rattle.std.specs.Prelude.{◌≡◌, ◌<◌, false, List, Option, IfSome};
ghost use Rattle.{std.specs.List.list_any, std.specs.Option.option_map, scene_fields.specs.Numbers.number_in};
ghost use Rattle.scene_fields.specs.Counts.{Row, counts_in, has_space, pair_in, row_in, skips_in};
ghost use Rattle.scene_fields.specs.CountsLaws.{skips_no_space};
ghost use Rattle.scene_fields.specs.Counts.{skips_rows, stats_in, stats_rows};
ghost use Rattle.scene_fields.specs.CountsLaws.{stats_no_space};

use super::numbers::read_count;
use super::split::{first_piece, split_at_byte};
use super::usual_stats::read_usual_stats;
use super::values::read_reason;
use run_model::event::SkipCounts;
use run_model::stats::RunStats;

// The greatest number of keys of any counts.
const KEYS: usize = 15;

// Counts that a scene writes as pairs.
trait Counts: Copy {
    // The keys, and how a value of each changes these counts.
    ghost rows: { Self → List (Row Self) };

    // Sets the count of `word` and returns the index of its row; None for an unknown key or a bad value.
    fn set(&mut self, word: &str, value: &str) -> Option<usize>
        ensures set { option_map (λ place. (place, self.new)) result ≡ row_in 0 (rows self.old) word.now value.now }
        ensures place { IfSome result (λ place. place < 15) };

    // No key has a space in it.
    ghost no_space: { (before : Self) → list_any (λ row. has_space row.0) (rows before) ≡ false };
}

// Reads pairs, beginning with `none`, the counts without any. A space is searched only after an `=`. If there is one
// before it, the word before the `=` has a space and so is no key.
#[inline(always)]
fn read_pairs<C: Counts>(none: C, field: &str) -> Option<C>
    ensures { result ≡ counts_in C.rows none field.now }
{
    let mut counts = none;
    let mut has_key = [false; KEYS];
    let mut rest = if field == "-" { None } else { Some(field) };
    while let Some(left) = rest {
        let (word, after) = split_at_byte(left, b'=')?;
        let (value, others) = first_piece(after, b' ');
        read_pair(&mut counts, &mut has_key, word, value)?;
        rest = others;
    }
    Some(counts)
}

// Reads a pair whose key must not have occurred before. Inlined to save a call for each pair.
#[inline(always)]
fn read_pair<C: Counts>(
    counts: &mut C,
    has_key: &mut [bool; KEYS],
    word: &str,
    value: &str,
) -> Option<()>
    ensures { option_map (λ _. (counts.new, has_key.new)) result
        ≡ pair_in C.rows (counts.old, has_key.old) word.now value.now }
{
    let place = counts.set(word, value)?;
    if has_key[place] {
        return None;
    }
    has_key[place] = true;
    Some(())
}

// Sets the count of this row.
fn set_count(count: &mut usize, value: &str, place: usize) -> Option<usize>
    ensures set { option_map (λ _. count.new) result ≡ number_in 64 value.now }
    ensures place { IfSome result (λ row. row ≡ place) }
{
    *count = read_count(value)?;
    Some(place)
}

impl Counts for RunStats {
    ghost rows = { stats_rows };

    fn set(&mut self, word: &str, value: &str) -> Option<usize> {
        match word {
            "initial" => set_count(&mut self.initial_run_count, value, 0),
            "finished" => set_count(&mut self.finished_count, value, 1),
            "passed" => set_count(&mut self.passed, value, 2),
            "slow" => set_count(&mut self.passed_slow, value, 3),
            "flaky" => set_count(&mut self.flaky, value, 4),
            "leaky" => set_count(&mut self.leaky, value, 5),
            "failed" => set_count(&mut self.failed, value, 6),
            "leakyfailed" => set_count(&mut self.leaky_failed, value, 7),
            "exec" => set_count(&mut self.exec_failed, value, 8),
            "timedout" => set_count(&mut self.timed_out, value, 9),
            "skipped" => set_count(&mut self.skipped, value, 10),
            "setupfailed" => set_count(&mut self.setup_scripts_failed, value, 11),
            "setupexec" => set_count(&mut self.setup_scripts_exec_failed, value, 12),
            "setuptimedout" => set_count(&mut self.setup_scripts_timed_out, value, 13),
            "cancel" => {
                self.cancel_reason = Some(read_reason(value)?);
                Some(14)
            }
            _ => None,
        }
    }

    ghost no_space = { stats_no_space };
}

impl Counts for SkipCounts {
    ghost rows = { skips_rows };

    fn set(&mut self, word: &str, value: &str) -> Option<usize> {
        match word {
            "rerun" => set_count(&mut self.skipped_tests_rerun, value, 0),
            "nonbench" => set_count(&mut self.skipped_tests_non_benchmark, value, 1),
            "tests" => set_count(&mut self.skipped_tests, value, 2),
            "filter" => set_count(&mut self.skipped_tests_default_filter, value, 3),
            "binaries" => set_count(&mut self.skipped_binaries, value, 4),
            "binfilter" => set_count(&mut self.skipped_binaries_default_filter, value, 5),
            _ => None,
        }
    }

    ghost no_space = { skips_no_space };
}

/// Reads the statistics of a run.
///
/// ```
/// let cancel_reason = Some(CancelReason::Signal);
/// let stats = RunStats { finished_count: 1, failed: 1, cancel_reason, ..RunStats::new(2) };
/// assert_eq!(read_stats("initial=2 finished=1 failed=1 cancel=signal"), Some(stats));
/// ```
#[inline(never)] // so that the statistics are copied once on their way out
pub fn read_stats(field: &str) -> Option<RunStats>
    ensures { result ≡ stats_in field.now }
{
    match read_usual_stats(field) {
        Some(stats) => Some(stats),
        None => read_any_stats(field),
    }
}

// Reads statistics in any order.
#[inline(never)]
#[tactic(auto, unfolding(crate::specs::Counts::stats_in))]
fn read_any_stats(field: &str) -> Option<RunStats>
    ensures { result ≡ stats_in field.now }
{
    read_pairs(RunStats::new(0), field)
}

/// Reads what a run skips.
///
/// ```
/// use run_model::event::SkipCounts;
/// let skipped = SkipCounts { skipped_tests: 3, skipped_tests_default_filter: 2, ..SkipCounts::default() };
/// assert_eq!(read_skips("tests=3 filter=2"), Some(skipped));
/// ```
#[tactic(auto, unfolding(crate::specs::Counts::skips_in))]
pub fn read_skips(field: &str) -> Option<SkipCounts>
    ensures { result ≡ skips_in field.now }
{
    read_pairs(SkipCounts::default(), field)
}
