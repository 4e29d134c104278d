//! Output that is loaded.

ghost use Rattle.std.specs.Prelude.{◌≡◌, IfOk, true};
ghost use Rattle.run_model.specs.Outputs.{has_loaded_output};

use run_model::boxed::Boxed;
use run_model::memory::OutOfMemory;
use run_model::output::{ChildExecutionOutputDescription, LiveSpec};
use std::alloc::Global;
use std::marker::Model;

/// Output that is loaded, as the entries of the summary need it. Contracts see the output.
///
/// ```
/// let failed = ExecuteStatus::failed(1, time);
/// let loaded = LoadedOutput::copy_of(alloc, &failed.output)?;
/// assert!(loaded.get().has_loaded_output());
/// ```
#[derive(Debug, Drop)]
pub struct LoadedOutput {
    output: Boxed<ChildExecutionOutputDescription<LiveSpec>>,
}

impl Model for LoadedOutput {
    ghost use Rattle.std.specs.Prelude.{◌≡◌, true};
    ghost use Rattle.run_model.specs.Names.{has_loaded_output, Written};

    ghost Value = { Written };

    ghost view = { λ o. o.output };

    ghost invariant = { λ o. has_loaded_output o.output ≡ true };
}

impl LoadedOutput {
    /// Copies loaded output: it allocates for the texts and shares the captured bytes.
    ///
    /// # Errors
    ///
    /// Memory was refused.
    pub fn copy_of(
        alloc: Global,
        output: &ChildExecutionOutputDescription<LiveSpec>,
    ) -> Result<LoadedOutput, OutOfMemory>
        requires { has_loaded_output output.now ≡ true }
        ensures { IfOk result (λ o. o ≡ output.now) }
    {
        Ok(LoadedOutput {
            output: Boxed::new(alloc, output.try_clone(alloc)?)?,
        })
    }

    /// The output.
    pub fn get(&self) -> &ChildExecutionOutputDescription<LiveSpec>
        ensures same { result.now ≡ self.now }
        ensures loaded { has_loaded_output self.now ≡ true }
    {
        self.output.get()
    }
}
