//! What the tests share: settings of a reporter, and the assertion, which is proved anew at each place where it is
//! used.

use run_model::config::{CompiledDefaultFilter, CompiledDefaultFilterSection, NextestRunMode};
use run_model::level::{FinalStatusLevel, StatusLevel};
use run_model::name::ProfileName;
use std::alloc::Global;
use std::process::Abort;
use std::test::Fail;
use text_parts::settings::{Settings, overrides_for, styles_for, theme_for};
use unit_report::config::StatusLevels;
use unit_report::unit_output::{DisplayerKind, UnitOutputReporter};

/// The settings of a reporter that shows no counters.
pub fn settings(alloc: Global, should_colorize: bool) -> Result<Settings, Fail> {
    Ok(Settings {
        mode: NextestRunMode::Test,
        status_levels: StatusLevels {
            status_level: StatusLevel::Pass,
            final_status_level: FinalStatusLevel::Fail,
        },
        styles: styles_for(should_colorize),
        counter_width: None,
        default_filter: CompiledDefaultFilter {
            profile: ProfileName::new(alloc, "default")?,
            section: CompiledDefaultFilterSection::Profile,
        },
        theme_characters: theme_for(false),
        unit_output: UnitOutputReporter::new(
            overrides_for(false, None, None),
            DisplayerKind::Live,
            false,
        ),
        no_output_indent: false,
        no_capture: false,
        verbose: false,
    })
}

/// A text is the wanted one.
pub fn expect_text(rt: &impl Abort, shown: &str, want: &str) {
    assert_eq!(rt; shown, want);
}
