//! The reporter of a scene: its builder, its decider, and its errors as faults of the program.

ghost use Rattle.std.specs.Prelude.{◌≡◌, IfOk, IfErr};
ghost use Rattle.scene_follower.specs.Names.{builder_for, fault_at_call, kind_for, progress_for, surroundings_of};
ghost use Rattle.scene_follower.specs.Names.{decider_for, Fault};

use command_line::args::Options;
use command_line::fault::{Fault, LineFault};
use console_reporter::config::{DisplayConfig, ShowProgress};
use console_reporter::imp::{
    DisplayReporterBuilder, DisplayerKind, OutputLoadDecider, Surroundings, WriteEventError,
};
use run_model::config::CompiledDefaultFilter;
use scene_run_lines::config::SceneConfig;
use std::alloc::Global;
use text_parts::settings::overrides_for;

/// What decides which output the scene's reporter needs and which events it refuses. It allocates nothing.
pub fn decider_of(options: &Options<'_>, config: &SceneConfig) -> OutputLoadDecider
    ensures { result ≡ decider_for options.now config.now }
{
    let Surroundings {
        is_terminal,
        is_ci,
        ..
    } = surroundings_of(config);
    let resolved = display_of(options, config).resolve(is_terminal, is_ci);
    let overrides = overrides_for(
        config.no_capture,
        config.success_output,
        config.failure_output,
    );
    let store = options.store.map(|store| store.config);
    OutputLoadDecider::new(resolved.status_levels.status_level, overrides, store)
}

// The settings of the display, from the options and the scene.
fn display_of(options: &Options<'_>, config: &SceneConfig) -> DisplayConfig
    ensures { result ≡ (builder_for options.now config.now).display_config }
{
    DisplayConfig::with_overrides(
        progress_for(options),
        config.no_capture,
        options.status_level,
        config.final_status_level,
    )
}

/// The surroundings of the report, from the scene: no terminal and no build machine.
pub fn surroundings_of(config: &SceneConfig) -> Surroundings
    ensures { result ≡ surroundings_of config.now }
{
    Surroundings {
        use_unicode: config.use_unicode,
        display_empty_outputs: config.display_empty_outputs,
        ..Surroundings::default()
    }
}

/// The builder of the scene's reporter.
///
/// # Errors
///
/// `OutOfMemory`.
pub fn builder_of(
    alloc: Global,
    options: &Options<'_>,
    config: &SceneConfig,
) -> Result<DisplayReporterBuilder, Fault<'static>>
    ensures ok { IfOk result (λ builder. builder ≡ builder_for options.now config.now) }
    ensures err { IfErr result (λ fault. fault ≡ Fault.OutOfMemory) }
{
    Ok(DisplayReporterBuilder {
        mode: config.mode,
        default_filter: CompiledDefaultFilter::for_default_config(alloc)?,
        display_config: display_of(options, config),
        run_count: config.run_count,
        success_output: config.success_output,
        failure_output: config.failure_output,
        should_colorize: options.should_colorize,
        verbose: config.verbose,
        no_output_indent: config.no_output_indent,
        displayer_kind: kind_for(options),
    })
}

// How progress is shown, by the options.
fn progress_for(options: &Options<'_>) -> ShowProgress
    ensures { result ≡ progress_for options.now }
{
    if options.show_counter {
        ShowProgress::Counter
    } else {
        ShowProgress::None
    }
}

// Whether the options show a recorded run.
fn kind_for(options: &Options<'_>) -> DisplayerKind
    ensures { result ≡ kind_for options.now }
{
    if options.is_replay {
        DisplayerKind::Replay
    } else {
        DisplayerKind::Live
    }
}

/// The fault of a call that failed, on the line of this number. Only a refused call's fault has that number.
pub fn fault_at_call(number: u64, error: WriteEventError) -> Fault<'static>
    ensures { result ≡ fault_at_call number error }
{
    match error {
        WriteEventError::RetriedSuccess => Fault::Line {
            line: number,
            fault: LineFault::RetriedSuccess,
        },
        WriteEventError::OutputNotLoaded => Fault::Line {
            line: number,
            fault: LineFault::OutputNotLoaded,
        },
        WriteEventError::Io | WriteEventError::Failed => Fault::WriteFailed,
        WriteEventError::Memory => Fault::OutOfMemory,
        WriteEventError::StoreIo => Fault::StoreFailed,
    }
}
