//! Memory that was refused, and sharing that reached its limit.

pub use out_of_memory::OutOfMemory;
use std::alloc::AllocError;
use std::error::Error;
use std::fmt;

/// A shared value has as many owners as its counter can hold. Sharing allocates nothing, so this is not
/// [`OutOfMemory`]; `?` converts it where a caller does not need the difference.
///
/// ```
/// assert_eq!(OutOfMemory::from(TooManyOwners), OutOfMemory);
/// ```
#[derive(Clone, Copy, Debug, PartialEq, Eq)]
pub struct TooManyOwners;

impl fmt::Display for TooManyOwners {
    fn fmt<W: fmt::Write>(&self, f: &mut fmt::Formatter<W>) -> fmt::Result {
        f.write_str("too many owners")
    }
}

impl Error for TooManyOwners {}

// The kit's counter reports that it is full as a failed allocation.
impl From<AllocError> for TooManyOwners {
    fn from(_full: AllocError) -> TooManyOwners {
        TooManyOwners
    }
}

impl From<TooManyOwners> for OutOfMemory {
    fn from(_full: TooManyOwners) -> OutOfMemory {
        OutOfMemory
    }
}
