//! Numbers as a scene writes them.
//!
//! They are decimal, and may have leading zeros. A plus is never allowed, and a minus only if a number may be negative.

ghost use Rattle.std.specs.Prelude.{◌≡◌, ◌<◌, ◌≤◌, ◌^◌, length, false, IfSome, MatchOption};
ghost use Rattle.std.specs.{Option.SomeIff, Str.Parse.IsNumeral, Str.Parse.digits_value, Str.Parse.signed_digits_value};
ghost use Rattle.scene_fields.specs.Numbers.{IsLeadingNumber, IsSigned, code_in, nanos_in, number_in};
ghost use Rattle.scene_fields.specs.{Numbers.starts_with_digit, Split.BeginsWith};

use run_model::time::Nanos;

// Any number of so many digits fits 64 bits.
const MOST_DIGITS: usize = 19;

/// Reads a count: any number that fits a `usize`.
///
/// ```
/// assert_eq!(read_count("007"), Some(7));
/// assert_eq!(read_count("+7"), None);
/// ```
#[tactic(auto, using(crate::proofs::lemmas::Numbers::number_by))]
pub fn read_count(text: &str) -> Option<usize>
    ensures { result ≡ number_in 64 text.now }
{
    parse_count(text)
}

// The value of digits without a plus.
fn parse_count(text: &str) -> Option<usize>
    ensures { SomeIff result (IsNumeral 10 text.now × (digits_value 10 text.now < 2 ^ 64)) (digits_value 10 text.now) }
{
    if let Some(number) = short_number(text.as_bytes()) {
        return Some(number as usize);
    }
    if text.starts_with('+') {
        return None;
    }
    text.parse().ok()
}

// The number that The value of at most nineteen digits.
#[inline]
#[tactic(auto, using(crate::proofs::lemmas::ShortNumbers::not_whole))]
fn short_number(text: &[u8]) -> Option<u64>
    ensures { SomeIff result (IsNumeral 10 text.now × (length text.now ≤ 19)) (digits_value 10 text.now) }
{
    let (number, rest) = leading_number(text)?;
    if rest.is_empty() { Some(number) } else { None }
}

// The number of the digits at the front, at most nineteen of them, and what follows. Nineteen digits always fit 64
// bits, so no digit needs an overflow check.
#[inline(always)]
pub(crate) fn leading_number(text: &[u8]) -> Option<(u64, &[u8])>
    ensures { MatchOption result (starts_with_digit text.now ≡ false) (λ x. IsLeadingNumber text.now x.0 x.1.now) }
{
    let mut number = 0;
    let mut len = 0;
    for byte in &text[..text.len().min(MOST_DIGITS)] {
        let digit = u64::from(*byte).wrapping_sub(u64::from(b'0'));
        if digit > 9 {
            break;
        }
        number = number * 10 + digit;
        len += 1;
    }
    if len == 0 {
        return None;
    }
    Some((number, &text[len..]))
}

/// Reads a number of attempts or the like: any number that fits a `u32`.
#[tactic(auto, using(crate::proofs::lemmas::Numbers::number_by))]
pub fn read_small_count(text: &str) -> Option<u32>
    ensures { result ≡ number_in 32 text.now }
{
    parse_small_count(text)
}

// Like `read_count`, for 32 bits.
fn parse_small_count(text: &str) -> Option<u32>
    ensures { SomeIff result (IsNumeral 10 text.now × (digits_value 10 text.now < 2 ^ 32)) (digits_value 10 text.now) }
{
    if text.starts_with('+') {
        return None;
    }
    text.parse().ok()
}

/// Reads a duration in nanoseconds.
#[inline(always)]
pub fn read_nanos(text: &str) -> Option<Nanos>
    ensures { result ≡ nanos_in text.now }
{
    Some(Nanos(read_wide_count(text)?))
}

/// Reads the first field of a line as a duration of at most nineteen digits, and returns the text after its tab, too.
///
/// ```
/// assert_eq!(cut_nanos("250\t0\tsplit"), Some((Nanos(250), "0\tsplit")));
/// ```
#[inline(always)]
pub fn cut_nanos(line: &str) -> Option<(Nanos, &str)>
    ensures { IfSome result (λ x. BeginsWith nanos_in line.now x.0 x.1.now) }
{
    let (number, rest) = leading_number(line.as_bytes())?;
    let (behind, _) = rest.split_first()?;
    if *behind != b'\t' {
        return None;
    }
    let tab = line.len() - rest.len();
    Some((Nanos(u128::from(number)), &line[tab + 1..]))
}

// Reads a number of 128 bits.
#[inline(always)]
#[tactic(auto, using(crate::proofs::lemmas::Numbers::number_by))]
fn read_wide_count(text: &str) -> Option<u128>
    ensures { result ≡ number_in 128 text.now }
{
    parse_wide_count(text)
}

// Reads digits without a plus as a number of 128 bits.
fn parse_wide_count(text: &str) -> Option<u128>
    ensures { SomeIff result (IsNumeral 10 text.now × (digits_value 10 text.now < 2 ^ 128)) (digits_value 10 text.now) }
{
    if let Some(number) = short_number(text.as_bytes()) {
        return Some(u128::from(number));
    }
    if text.starts_with('+') {
        return None;
    }
    text.parse().ok()
}

/// Reads an exit code or the like, which may be negative.
///
/// ```
/// assert_eq!(read_code("-0"), Some(0));
/// ```
#[tactic(auto, using(crate::proofs::lemmas::Numbers::code_by))]
pub fn read_code(text: &str) -> Option<i32>
    ensures { result ≡ code_in text.now }
{
    parse_code(text)
}

// Reads digits, perhaps after a minus.
fn parse_code(text: &str) -> Option<i32>
    ensures { SomeIff result (IsSigned text.now) (signed_digits_value 10 text.now) }
{
    if text.starts_with('+') {
        return None;
    }
    text.parse().ok()
}
