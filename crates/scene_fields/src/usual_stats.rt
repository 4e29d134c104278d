//! Statistics as most lines have them: some of the keys, in their usual order.
//!
//! Nearly every line has them, and they are the longest field of most lines. Here each byte is read once: a key is
//! compared as a whole and its digits are read in place, while `counts` searches the `=` and the space of each pair and
//! then its key.

ghost use Rattle.std.specs.Prelude.{◌≡◌, Some, IfSome, MatchOption};
ghost use Rattle.scene_fields.specs.{Numbers.HasNoNumberAfter, Numbers.IsNumberAfter, Numbers.IsNumberOrZero};
ghost use Rattle.scene_fields.specs.{Counts.stats_in};

use super::numbers::leading_number;
use run_model::stats::RunStats;

// Reads statistics that have `initial` and `finished`, and after them perhaps `passed`, `failed` and `skipped`, in this
// order. It returns None for any other field, even a valid one.
#[inline(always)]
pub(crate) fn read_usual_stats(field: &str) -> Option<RunStats>
    ensures { IfSome result (λ stats. stats_in field.now ≡ Some stats) }
{
    let (initial_run_count, rest) = number_after(b"initial=", field.as_bytes())?;
    let (begin, rest) = rest.split_first_chunk::<4>()?;
    if *begin != *b" fin" {
        return None;
    }
    let (finished_count, rest) = number_after(b"ished=", rest)?;
    let (passed, rest) = number_after_or_zero(b" passed=", rest);
    let (failed, rest) = number_after_or_zero(b" failed=", rest);
    let (skipped, rest) = number_after_or_zero(b" skipped=", rest);
    if !rest.is_empty() {
        return None;
    }
    Some(RunStats {
        finished_count,
        passed,
        failed,
        skipped,
        ..RunStats::new(initial_run_count)
    })
}

// The number after a key at the front, and the text after the number. The key is an array, so that its length is known
// and it is compared in one or two instructions.
#[inline(always)]
fn number_after<'a, const N: usize>(key: &[u8; N], text: &'a [u8]) -> Option<(usize, &'a [u8])>
    ensures { MatchOption result (HasNoNumberAfter key.now text.now) (λ x. IsNumberAfter key.now text.now x.0 x.1.now) }
{
    let (front, behind) = text.split_first_chunk::<N>()?;
    if *front != *key {
        return None;
    }
    let (number, rest) = leading_number(behind)?;
    Some((number as usize, rest))
}

// Like `number_after`, but 0 and the whole text if there is no such number.
#[inline(always)]
fn number_after_or_zero<'a, const N: usize>(key: &[u8; N], text: &'a [u8]) -> (usize, &'a [u8])
    ensures { IsNumberOrZero key.now text.now result.0 result.1.now }
{
    number_after(key, text).unwrap_or((0, text))
}
