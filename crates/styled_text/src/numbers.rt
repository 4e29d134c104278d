//! Numbers and spaces as text.

ghost use Rattle.styled_text.specs.Names.{IsUtf8, decimal};
ghost use Rattle.std.specs.Prelude.{◌≡◌, ◌+◌, ◌/◌, ◌%◌, ◌<◌, ◌≤◌, ◌∷◌, [], ◌++◌, ◌-◌, length, chars, codes};
ghost use Rattle.styled_text.specs.Names.{spaces, right_in, digit_column, last_digits, rounded, seconds, Puts, plain};

use itoa::Buffer;
use std::str;
use writers::write_str::{WriteFault, WriteStr};

/// The nearest whole number of units, ties up. No sum overflows, even at the greatest number.
///
/// ```
/// assert_eq!(round_to(10, 25), 3);
/// ```
pub fn round_to(unit: u128, n: u128) -> u128
    requires even { unit % 2 ≡ 0 }
    requires above { 1 < unit }
    ensures { result ≡ rounded unit n }
{
    let whole = n / unit;
    if n % unit >= unit / 2 {
        whole + 1
    } else {
        whole
    }
}

/// The text of a digit.
pub fn digit_str(digit: u128) -> &'static str
    requires { digit < 10 }
    ensures { result.now ≡ (48 + digit) ∷ [] }
{
    match digit {
        0 => "0",
        1 => "1",
        2 => "2",
        3 => "3",
        4 => "4",
        5 => "5",
        6 => "6",
        7 => "7",
        8 => "8",
        9 => "9",
        _ => unreachable!(),
    }
}

/// The given number of spaces, at most twelve.
pub fn spaces_str(count: usize) -> &'static str
    requires { count ≤ 12 }
    ensures { result.now ≡ spaces count }
{
    match count {
        0 => "",
        1 => " ",
        2 => "  ",
        3 => "   ",
        4 => "    ",
        5 => "     ",
        6 => "      ",
        7 => "       ",
        8 => "        ",
        9 => "         ",
        10 => "          ",
        11 => "           ",
        12 => "            ",
        _ => unreachable!(),
    }
}

pub(crate) fn write_spaces<W: WriteStr>(w: &mut W, count: usize) -> Result<(), WriteFault>
    ensures { Puts W.meaning w.old (spaces count) result w.new }
{
    let mut left = count;
    while left > 12 {
        w.write_str(spaces_str(12))?;
        left -= 12;
    }
    w.write_str(spaces_str(left))
}

/// How many characters the text has.
#[tactic(auto, using(std::proofs::lemmas::Str::chars_from_encodes))]
pub(crate) fn char_count(text: &str) -> usize
    ensures { result ≡ length (chars text.now) }
{
    text.chars().count()
}

/// How many characters the number has. Most of those that are aligned number attempts, and are below ten.
#[tactic(auto, using(crate::proofs::lemmas::Decimals::digit_laws))]
pub(crate) fn decimal_char_count(n: u128) -> usize
    ensures count { result ≡ length (chars (decimal n)) }
    ensures utf8 { IsUtf8 (decimal n) }
{
    if n < 10 {
        return 1;
    }
    char_count(Buffer::new().format(n))
}

/// Writes nanoseconds as seconds with three decimals, right-aligned in eight columns, between brackets, and a space.
///
/// Rounds to the nearest thousandth, ties up.
///
/// ```
/// write_bracketed_seconds(&mut out, 5_000_000)?;
/// assert_eq!(out.as_str(), "[   0.005s] ");
/// ```
///
/// # Errors
///
/// The writer's fault. It has accepted a prefix of the text.
pub fn write_bracketed_seconds<W: WriteStr>(w: &mut W, nanos: u128) -> Result<(), WriteFault>
    ensures { Puts W.meaning w.old (codes "[" ++ (right_in 8 (seconds 3 nanos) ++ codes "s] ")) result w.new }
{
    // Almost every duration is shorter, and its text is one piece of twelve bytes.
    if nanos < 9_999_000_000_000 {
        return write_short_seconds(w, nanos as u64);
    }
    write_seconds_between(w, "[", 8, nanos, "s] ")
}

// Less than 9,999 seconds have at most four digits.
#[inline]
#[tactic(auto, using(crate::proofs::lemmas::Decimals::decimal_laws))]
fn write_short_seconds<W: WriteStr>(w: &mut W, nanos: u64) -> Result<(), WriteFault>
    requires { nanos < 9999000000000 }
    ensures { Puts W.meaning w.old (codes "[" ++ (right_in 8 (seconds 3 nanos) ++ codes "s] ")) result w.new }
{
    let rounded = ((nanos + 500_000) / 1_000_000) as u32;
    let whole = rounded / 1000;
    let row = [
        b'[',
        digit_or_space(whole, 1000),
        digit_or_space(whole, 100),
        digit_or_space(whole, 10),
        b'0' + (whole % 10) as u8,
        b'.',
        b'0' + (rounded / 100 % 10) as u8,
        b'0' + (rounded / 10 % 10) as u8,
        b'0' + (rounded % 10) as u8,
        b's',
        b']',
        b' ',
    ];
    // These twelve are ASCII.
    w.write_str(unsafe { str::from_utf8_unchecked(&row) })
}

// The digit of a number at a power of ten, or a space where the number is below it.
#[inline(always)]
fn digit_or_space(number: u32, power: u32) -> u8
    requires { 0 < power }
    ensures { result ≡ digit_column number power }
{
    if number < power {
        b' '
    } else {
        b'0' + (number / power % 10) as u8
    }
}

/// Writes nanoseconds as seconds with three decimals, right-aligned in the given number of columns, between two texts.
///
/// Rounds to the nearest thousandth, ties up.
///
/// ```
/// write_seconds_between(&mut out, "[", 8, 5_000_000, "s] ")?;
/// assert_eq!(out.as_str(), "[   0.005s] ");
/// ```
///
/// # Errors
///
/// The writer's fault. It has accepted a prefix of the text.
pub fn write_seconds_between<W: WriteStr>(
    w: &mut W,
    before: &str,
    columns: usize,
    nanos: u128,
    after: &str,
) -> Result<(), WriteFault>
    requires { columns ≤ 16 }
    ensures { Puts W.meaning w.old (before.now ++ (right_in columns (seconds 3 nanos) ++ after.now)) result w.new }
{
    w.write_str(before)?;
    write_seconds_right(w, columns, nanos)?;
    w.write_str(after)
}

/// Writes nanoseconds as seconds with three decimals.
///
/// # Errors
///
/// The writer's fault. It has accepted a prefix of the text.
#[tactic(auto, unfolding(writers::specs::Texts::plain, crate::specs::Numbers::seconds, crate::specs::Numbers::with_point))]
pub fn write_seconds<W: WriteStr>(w: &mut W, nanos: u128) -> Result<(), WriteFault>
    ensures { Puts W.meaning w.old (plain (seconds 3 nanos)) result w.new }
{
    let (whole, thousandths) = round_to_thousandths(nanos);
    w.write_str(Buffer::new().format(whole))?;
    write_decimals(w, thousandths)
}

fn write_seconds_right<W: WriteStr>(
    w: &mut W,
    columns: usize,
    nanos: u128,
) -> Result<(), WriteFault>
    requires { columns ≤ 16 }
    ensures { Puts W.meaning w.old (right_in columns (seconds 3 nanos)) result w.new }
{
    let (whole, thousandths) = round_to_thousandths(nanos);
    let mut buffer = Buffer::new();
    let whole = buffer.format(whole);
    w.write_str(spaces_str(columns.saturating_sub(4).saturating_sub(whole.len())))?;
    w.write_str(whole)?;
    write_decimals(w, thousandths)
}

// Nanoseconds as seconds and thousandths, rounded to the nearest, ties up.
fn round_to_thousandths(nanos: u128) -> (u128, u32)
    ensures seconds { result.0 ≡ rounded 1000000 nanos / 1000 }
    ensures thousandths { result.1 ≡ rounded 1000000 nanos % 1000 }
{
    // Almost every duration fits 64 bits, which are divided much faster.
    if let Ok(nanos) = u64::try_from(nanos) {
        let rounded = nanos / 1_000_000 + u64::from(nanos % 1_000_000 >= 500_000);
        return ((rounded / 1000) as u128, (rounded % 1000) as u32);
    }
    let rounded = round_to(1_000_000, nanos);
    (rounded / 1000, (rounded % 1000) as u32)
}

#[tactic(auto, using(crate::proofs::lemmas::Decimals::decimal_laws))]
fn write_decimals<W: WriteStr>(w: &mut W, thousandths: u32) -> Result<(), WriteFault>
    requires { thousandths < 1000 }
    ensures { Puts W.meaning w.old (codes "." ++ last_digits 3 thousandths) result w.new }
{
    let digits = [
        b'.',
        b'0' + (thousandths / 100) as u8,
        b'0' + (thousandths / 10 % 10) as u8,
        b'0' + (thousandths % 10) as u8,
    ];
    // These four are ASCII.
    w.write_str(unsafe { str::from_utf8_unchecked(&digits) })
}
