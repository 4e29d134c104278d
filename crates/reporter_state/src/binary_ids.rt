//! The ids of the binaries whose tests are kept.

ghost use Rattle.std.specs.Prelude.{◌≡◌, ◌≤◌, IfOk, vec_len};

use run_model::boxed::Shared;
use run_model::memory::OutOfMemory;
use run_model::name::RustBinaryId;
use std::alloc::Global;

// How many of the last ids are searched for one to share.
const REMEMBERED: usize = 8;

/// The ids that were kept last, for the next tests of their binaries: a run has few binaries.
///
/// ```
/// let mut ids = KeptBinaryIds::new(alloc);
/// let kept = ids.keep(alloc, &RustBinaryId::new(alloc, "alpha")?)?;
/// assert_eq!(kept.get().as_str(), "alpha");
/// ```
#[derive(Drop)]
pub struct KeptBinaryIds {
    last: Vec<Shared<RustBinaryId>>,
    ghost few: { vec_len last ≤ 8 },
}

impl KeptBinaryIds {
    /// No ids. It allocates nothing.
    pub fn new(alloc: Global) -> KeptBinaryIds {
        KeptBinaryIds {
            last: Vec::new(alloc),
        }
    }

    /// The id to keep. It copies the text if it is not among the last ones.
    ///
    /// # Errors
    ///
    /// Memory was refused.
    pub fn keep(
        &mut self,
        alloc: Global,
        id: &RustBinaryId,
    ) -> Result<Shared<RustBinaryId>, OutOfMemory>
        ensures id { IfOk result (λ kept. kept ≡ id.now) }
        ensures remembered { IfOk result (λ _. 1 ≤ vec_len self.new.last) }
    {
        for known in &self.last {
            if known.get() == id {
                return Ok(known.try_clone()?);
            }
        }
        let kept = Shared::new(alloc, RustBinaryId::new(alloc, id.as_str())?)?;
        if self.last.len() == REMEMBERED {
            self.last.clear();
        }
        self.last.push(kept.try_clone()?)?;
        Ok(kept)
    }
}
