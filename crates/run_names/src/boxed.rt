//! Parts of a value that are rare and large, held apart so that the value itself stays small.

ghost use Rattle.std.specs.{Prelude.◌≡◌, Prelude.IfOk, Borrow.sem};

use crate::memory::{OutOfMemory, TooManyOwners};
use std::alloc::Global;
use std::marker::Model;
use std::sync::Arc;

/// A value on the heap. Contracts see the value.
/// ```
/// let mut boxed = Boxed::new(alloc, Nanos::from_secs(1))?;
/// assert_eq!(*boxed.get(), Nanos::from_secs(1));
/// *boxed.get_mut() = Nanos::from_secs(2);
/// assert_eq!(*boxed.get(), Nanos::from_secs(2));
/// ```
#[derive(Debug, Drop)]
pub struct Boxed<T> {
    value: Box<T>,
}

impl<T> Model for Boxed<T> {
    ghost Value = { T };

    ghost view = { λ b. b.value.value };
}

impl<T: Drop> Boxed<T> {
    ghost use Rattle.run_names.specs.Boxes.{LendsValue};

    /// Puts a value on the heap.
    ///
    /// # Errors
    ///
    /// Memory was refused. The value is dropped.
    #[inline(always)]
    pub fn new(alloc: Global, value: T) -> Result<Self, OutOfMemory>
        ensures { IfOk result (λ b. b ≡ value) }
    {
        Ok(Boxed {
            value: Box::new(alloc, value)?,
        })
    }

    /// The value.
    pub fn get(&self) -> &T
        ensures { result.now ≡ self.now }
    {
        &*self.value
    }

    /// The value, mutable.
    pub fn get_mut(&mut self) -> &mut T
        ensures* lends { sem 𝓛 (LendsValue T.row self.entry result) }
        ensures value { result.now ≡ self.old }
    {
        self.value.as_mut()
    }
}

impl<T: PartialEq + Drop> PartialEq for Boxed<T> {
    ghost eq = { T.eq };

    ghost laws = { T.laws };

    fn eq(&self, other: &Self) -> bool {
        self.get() == other.get()
    }
}

impl<T: Eq + Drop> Eq for Boxed<T> {
    ghost laws = { T.Eq.laws };
}

/// A value on the heap, shared by its copies. Contracts see the value.
/// ```
/// let shared = Shared::new(alloc, Nanos::from_secs(1))?;
/// assert_eq!(*shared.try_clone()?.get(), Nanos::from_secs(1));
/// ```
#[derive(Debug, Drop)]
pub struct Shared<T> {
    value: Arc<T>,
}

impl<T> Model for Shared<T> {
    ghost Value = { T };

    ghost view = { λ s. s.value.value };
}

impl<T: Drop> Shared<T> {
    /// Puts a value on the heap.
    ///
    /// # Errors
    ///
    /// Memory was refused. The value is dropped.
    pub fn new(alloc: Global, value: T) -> Result<Self, OutOfMemory>
        ensures { IfOk result (λ s. s ≡ value) }
    {
        Ok(Shared {
            value: Arc::new(alloc, value)?,
        })
    }

    /// The value.
    pub fn get(&self) -> &T
        ensures { result.now ≡ self.now }
    {
        &*self.value
    }

    /// A copy that shares the value. It allocates nothing.
    ///
    /// ```
    /// let shared = Shared::new(alloc, time)?;
    /// assert_eq!(shared.try_clone()?.get(), shared.get());
    /// ```
    ///
    /// # Errors
    ///
    /// The shared value has as many owners as its counter can hold.
    pub fn try_clone(&self) -> Result<Self, TooManyOwners>
        ensures { IfOk result (λ s. s ≡ self.now) }
    {
        Ok(Shared {
            value: Arc::try_clone(&self.value)?,
        })
    }
}
