//! The report of a scene in memory, and the conversion of C's options.

ghost use Rattle.std.specs.Prelude.{◌≡◌, ◌↔◌, [], IfSome, IfOk, IfErr, None, Some, string_bytes};
ghost use Rattle.scene_follower.specs.Names.{OfText, Prints, device, store_for};
ghost use Rattle.report_c.specs.Reported.{AsksFor, IsUnreported, level_numbered};

use crate::NorigullyOptions;
use command_line::args::Options;
use command_line::fault::Fault;
use run_model::level::StatusLevel;
use scenes::report::report_to_string;
use std::alloc::Global;

/// The same options as those of the program `report`, with no file; None if there is no such status level.
pub fn options_of(options: &NorigullyOptions) -> Option<Options<'static>>
    ensures asked { IfSome result (AsksFor options.now) }
    ensures none { (result ≡ None) ↔ (level_numbered options.now.status_level ≡ None) }
{
    match read_level(options.status_level) {
        None => None,
        Some(status_level) => Some(Options {
            should_colorize: options.should_colorize,
            show_counter: options.show_counter,
            is_replay: options.is_replay,
            unload_skipped: false,
            status_level,
            store: None,
            file: "",
            is_last: false,
        }),
    }
}

// The status level with this number.
fn read_level(number: u32) -> Option<StatusLevel>
    ensures { result ≡ level_numbered number }
{
    match number {
        0 => Some(StatusLevel::None),
        1 => Some(StatusLevel::Fail),
        2 => Some(StatusLevel::Retry),
        3 => Some(StatusLevel::Slow),
        4 => Some(StatusLevel::Leak),
        5 => Some(StatusLevel::Pass),
        6 => Some(StatusLevel::Skip),
        7 => Some(StatusLevel::All),
        _ => None,
    }
}

/// The report of the run that a text spells.
///
/// # Errors
///
/// The first line that is wrong or whose event is refused, or `OutOfMemory`.
pub fn report_of<'a>(alloc: Global, options: &Options<'a>, text: &[u8]) -> Result<String, Fault<'a>>
    requires no_store { store_for options.now ≡ None }
    ensures report { IfOk result (λ report. OfText text.now
        (Prints device device options.now (Some [], None) (Some (string_bytes report), None))) }
    ensures fault { IfErr result (IsUnreported options.now text.now) }
{
    report_to_string(alloc, options, text)
}
