//! The mode of a run, when output is shown, and a profile's default filter.

ghost use Rattle.std.specs.Prelude.{◌≡◌, ◌≢◌, IfOk, MatchOption};
ghost use Rattle.run_names.specs.{Displays.display_name, Displays.is_immediate, Displays.is_final};
ghost use Rattle.run_names.specs.{Filters.default_config_filter, declared.config.TestOutputDisplay.TestOutputDisplay};

use crate::memory::OutOfMemory;
use crate::name::ProfileName;
use std::alloc::Global;

/// Whether a run runs tests or benchmarks.
///
/// ```
/// assert_ne!(NextestRunMode::Test, NextestRunMode::Benchmark);
/// ```
#[derive(Clone, Copy, Debug, PartialEq, Eq)]
pub enum NextestRunMode {
    /// Tests.
    Test,
    /// Benchmarks.
    Benchmark,
}

/// When a test's output is shown.
#[derive(Clone, Copy, Debug, PartialEq, Eq)]
pub enum TestOutputDisplay {
    /// As soon as the test has finished.
    Immediate,
    /// As soon as the test has finished, and at the end of the run.
    ImmediateFinal,
    /// At the end of the run.
    Final,
    /// Never.
    Never,
}

impl TestOutputDisplay {
    /// Whether it is shown as soon as the test has finished.
    ///
    /// ```
    /// assert!(TestOutputDisplay::ImmediateFinal.is_immediate());
    /// ```
    pub fn is_immediate(self) -> bool
        ensures { result ≡ is_immediate self }
    {
        match self {
            TestOutputDisplay::Immediate | TestOutputDisplay::ImmediateFinal => true,
            TestOutputDisplay::Final | TestOutputDisplay::Never => false,
        }
    }

    /// Whether it is shown at the end of the run.
    ///
    /// ```
    /// assert!(TestOutputDisplay::ImmediateFinal.is_final());
    /// ```
    pub fn is_final(self) -> bool
        ensures { result ≡ is_final self }
    {
        match self {
            TestOutputDisplay::ImmediateFinal | TestOutputDisplay::Final => true,
            TestOutputDisplay::Immediate | TestOutputDisplay::Never => false,
        }
    }

    /// The name in a configuration: `immediate`, `immediate-final`, `final` or `never`.
    ///
    /// ```
    /// assert_eq!(TestOutputDisplay::ImmediateFinal.name(), "immediate-final");
    /// ```
    pub fn name(self) -> &'static str
        ensures { result.now ≡ display_name self }
    {
        match self {
            TestOutputDisplay::Immediate => "immediate",
            TestOutputDisplay::ImmediateFinal => "immediate-final",
            TestOutputDisplay::Final => "final",
            TestOutputDisplay::Never => "never",
        }
    }

    /// The setting of this name, if there is one.
    ///
    /// ```
    /// assert_eq!(TestOutputDisplay::from_name("final"), Some(TestOutputDisplay::Final));
    /// ```
    pub fn from_name(name: &str) -> Option<TestOutputDisplay>
        ensures { MatchOption result ((display : TestOutputDisplay) → name.now ≢ display_name display)
            (λ display. name.now ≡ display_name display) }
    {
        match name {
            // The setting that most events have comes first.
            "never" => Some(TestOutputDisplay::Never),
            "immediate" => Some(TestOutputDisplay::Immediate),
            "immediate-final" => Some(TestOutputDisplay::ImmediateFinal),
            "final" => Some(TestOutputDisplay::Final),
            _ => None,
        }
    }
}

/// Which profile a default filter comes from.
#[derive(Debug, Drop)]
pub struct CompiledDefaultFilter {
    /// The profile.
    pub profile: ProfileName,
    /// The profile's own filter, or one of its overrides.
    pub section: CompiledDefaultFilterSection,
}

impl CompiledDefaultFilter {
    /// The filter of the profile `default`, which nextest uses without configuration. It allocates the profile's name.
    ///
    /// ```
    /// let filter = CompiledDefaultFilter::for_default_config(alloc)?;
    /// assert_eq!(filter.profile.as_str(), "default");
    /// ```
    ///
    /// # Errors
    ///
    /// Memory was refused.
    pub fn for_default_config(alloc: Global) -> Result<Self, OutOfMemory>
        ensures { IfOk result (λ filter. filter ≡ default_config_filter) }
    {
        Ok(CompiledDefaultFilter {
            profile: ProfileName::new(alloc, "default")?,
            section: CompiledDefaultFilterSection::Profile,
        })
    }
}

/// Which of a profile's default filters it is.
#[derive(Clone, Copy, Debug, PartialEq, Eq)]
pub enum CompiledDefaultFilterSection {
    /// The default filter of the profile itself.
    Profile,
    /// The default filter of an override, by the override's index.
    Override(usize),
}
