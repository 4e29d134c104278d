//! A run that is paused, and continues.

ghost use Rattle.std.specs.Prelude.{◌++◌};
ghost use Rattle.run_text.specs.Pause.{due_to_signal, run_continued_text, run_paused_text};
ghost use Rattle.styled_text.specs.Names.{Puts, styled, right_in};
ghost use Rattle.report_words.specs.Parts.{paint};

use crate::running::{Running, ShownRunning};
use styled_text::text::{Aligned, Painted, Toned};
use text_parts::settings::Settings;
use writers::text::{When, WriteText};
use writers::write_str::{WriteFault, WriteStr};

/// Writes that the run is paused, and how many setup scripts or tests run.
///
/// ```
/// write_run_paused(&mut out, &settings, 0, 2)?;
/// assert_eq!(out.as_str(), "     Pausing due to signal: 2 tests running\n");
/// ```
///
/// # Errors
///
/// The writer's fault. It has accepted a prefix of the text.
#[tactic(auto, unfolding(crate::specs::Pause::run_paused_text))]
pub fn write_run_paused<W: WriteStr>(
    w: &mut W,
    settings: &Settings,
    setup_scripts_running: usize,
    running: usize,
) -> Result<(), WriteFault>
    ensures { Puts W.meaning w.old
        (paint settings.now.styles (run_paused_text settings.now.mode setup_scripts_running running)) result w.new }
{
    write_pause(w, settings, "Pausing", setup_scripts_running, running)
}

/// Writes that the run continues after a pause, and how many setup scripts or tests run.
///
/// # Errors
///
/// The writer's fault. It has accepted a prefix of the text.
#[tactic(auto, unfolding(crate::specs::Pause::run_continued_text))]
pub fn write_run_continued<W: WriteStr>(
    w: &mut W,
    settings: &Settings,
    setup_scripts_running: usize,
    running: usize,
) -> Result<(), WriteFault>
    ensures { Puts W.meaning w.old
        (paint settings.now.styles (run_continued_text settings.now.mode setup_scripts_running running)) result w.new }
{
    write_pause(w, settings, "Continuing", setup_scripts_running, running)
}

#[tactic(auto, unfolding(crate::specs::Pause::due_to_signal, crate::specs::Pause::now_running))]
fn write_pause<W: WriteStr>(
    w: &mut W,
    settings: &Settings,
    word: &str,
    setup_scripts_running: usize,
    running: usize,
) -> Result<(), WriteFault>
    ensures { Puts W.meaning w.old
        (styled settings.now.styles.pass (right_in 12 word.now)
        ++ paint settings.now.styles (due_to_signal settings.now.mode setup_scripts_running running))
        result w.new }
{
    let running = Running {
        setup_scripts: setup_scripts_running,
        tests: running,
    };
    let styles = &settings.styles;
    let shown = ShownRunning {
        styles,
        mode: settings.mode,
        running,
    };
    let now = When(!running.is_none(), (": ", shown, " running"));
    let cause = (" due to ", Toned(styles.count, "signal"), now, "\n");
    (Painted(styles.pass, Aligned(12, word)), cause).write_to(w)
}
