//! The position of a captured stream, as the scene of a recorded run has it.

ghost use Rattle.std.specs.Prelude.{◌≡◌, ◌≤◌, ◌↔◌, IsTrue};
ghost use Rattle.std.specs.{Char.is_ascii_uppercase, List.list_any, Option.option_map};
ghost use Rattle.scene_fields.specs.References.{after_mark, end_of, reference_in, sum_in, sum_of};

use super::numbers::read_count;
use super::split::split_at_byte;
use hex::FromHex;
use std::hash::{DefaultHasher, Hasher};

/// The position of a captured stream in the file of outputs, and the sum that identifies its bytes.
#[derive(Clone, Copy, Debug, PartialEq, Eq)]
pub struct Reference {
    /// The number of bytes before it.
    pub offset: u64,
    /// How many bytes it has.
    pub len: usize,
    /// The checksum of its bytes: their SipHash-1-3 with the key 0, highest byte first. It detects damage, not
    /// tampering.
    pub sum: [u8; 8],
}

impl Reference {
    /// Whether a file of this length has all bytes of this reference. A stream of no bytes ends where it begins.
    pub fn ends_within(&self, file_len: u64) -> bool
        ensures { IsTrue result ↔ (end_of self.now ≤ file_len) }
    {
        match self.offset.checked_add(self.len as u64) {
            Some(end) => end <= file_len,
            None => false,
        }
    }

    /// Whether these bytes have the sum of this reference.
    pub fn has_sum_of(&self, bytes: &[u8]) -> bool
        ensures { IsTrue result ↔ (sum_of bytes.now ≡ self.now.sum) }
    {
        sum_of(bytes) == self.sum
    }
}

// The sum of these bytes.
#[tactic(auto, unfolding(crate::specs::References::sum_of))]
fn sum_of(bytes: &[u8]) -> [u8; 8]
    ensures { result ≡ sum_of bytes.now }
{
    let mut hasher = DefaultHasher::new();
    hasher.write(bytes);
    hasher.finish().to_be_bytes()
}

/// Reads a reference, `\@OFFSET:LENGTH:SUM`. `None` means that the field is not one.
///
/// ```
/// let reference = read_reference("\\@70:0:d1fba762150c532c");
/// assert_eq!(reference.map(|it| (it.offset, it.len)), Some((70, 0)));
/// assert_eq!(read_reference("\\@70:0"), None);
/// ```
#[tactic(auto, unfolding(crate::specs::References::reference_in))]
pub fn read_reference(field: &str) -> Option<Reference>
    ensures { result ≡ reference_in field.now }
{
    let (offset, after) = split_at_byte(after_mark(field)?, b':')?;
    let (len, sum) = split_at_byte(after, b':')?;
    Some(Reference {
        offset: read_count(offset)? as u64,
        len: read_count(len)?,
        sum: read_sum(sum)?,
    })
}

// The text after the mark `\@`, if a field begins with it.
#[tactic(auto, using(crate::proofs::lemmas::ReferenceMarks::after_mark_by))]
fn after_mark(field: &str) -> Option<&str>
    ensures { option_map (λ t. t.now) result ≡ after_mark field.now }
{
    field.strip_prefix("\\@")
}

// Reads a sum, whose digits are lower case.
#[tactic(auto, unfolding(crate::specs::References::sum_in))]
fn read_sum(digits: &str) -> Option<[u8; 8]>
    ensures { result ≡ sum_in digits.now }
{
    if has_upper_case(digits) {
        return None;
    }
    <[u8; 8] as FromHex>::from_hex(digits).ok()
}

// Whether a text has an upper-case letter of ASCII.
fn has_upper_case(text: &str) -> bool
    ensures { result ≡ list_any is_ascii_uppercase text.now }
{
    text.bytes().any(|byte| byte.is_ascii_uppercase())
}
