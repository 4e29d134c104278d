//! The width of numbers.

ghost use Rattle.std.specs.Prelude.{◌≡◌, ℕ, length};
ghost use Rattle.std.specs.Fmt.{decimal};

use itoa::Buffer;

/// An unsigned number of any width.
pub trait Unsigned: Copy + Drop {
    /// The number.
    ghost value: { Self → ℕ };

    /// The number in 128 bits.
    fn to_u128(self) -> u128
        ensures { result ≡ value self };
}

impl Unsigned for u8 {
    ghost value = { λ n. n };

    fn to_u128(self) -> u128 {
        self as u128
    }
}

impl Unsigned for u16 {
    ghost value = { λ n. n };

    fn to_u128(self) -> u128 {
        self as u128
    }
}

impl Unsigned for u32 {
    ghost value = { λ n. n };

    fn to_u128(self) -> u128 {
        self as u128
    }
}

impl Unsigned for u64 {
    ghost value = { λ n. n };

    fn to_u128(self) -> u128 {
        self as u128
    }
}

impl Unsigned for usize {
    ghost value = { λ n. n };

    fn to_u128(self) -> u128 {
        self as u128
    }
}

impl Unsigned for u128 {
    ghost value = { λ n. n };

    fn to_u128(self) -> u128 {
        self
    }
}

/// How many digits the number's decimal text has, 1 for 0.
///
/// ```
/// assert_eq!(decimal_char_width(5000u32), 4);
/// ```
pub fn decimal_char_width<N: Unsigned>(n: N) -> usize
    ensures { result ≡ length (decimal (N.value n)) }
{
    Buffer::new().format(n.to_u128()).len()
}
