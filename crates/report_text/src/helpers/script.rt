//! Setup scripts as a report shows them.

ghost use Rattle.std.specs.Prelude.{◌≡◌, ◌∷◌, IfOk, Some, map, string_bytes};
ghost use Rattle.{report_text.specs.Instance.script_text, report_text.specs.Quoting.shell_words};
ghost use Rattle.{writers.specs.Writer.Puts};

use crate::helpers::instance::StressPart;
use crate::helpers::quoting::write_shell_command;
use run_names::command::CommandLine;
use run_names::memory::OutOfMemory;
use run_names::name::ScriptId;
use run_names::stress::StressIndex;
use std::alloc::Global;
use std::fmt;
use std::fmt::Formatter;
use styled_text::style::Style;
use styled_text::text::Toned;
use writers::show_written;
use writers::text::WriteText;
use writers::write_str::{WriteFault, WriteStr};

/// A setup script as a report shows it: its iteration of a stress run, if there is one, its id and its command as a
/// shell reads it.
///
/// [`write_script_instance`] writes the same and allocates nothing.
///
/// ```
/// use run_names::name::ScriptId;
/// let id = ScriptId::new(alloc, "s1")?;
/// let args = [String::from_str(alloc, "an argument")?];
/// let shown = DisplayScriptInstance::new(alloc, None, id, "cmd", &args, styles.script_id, styles.count)?;
/// assert_eq!(shown.to_string(alloc)?.as_str(), "s1: cmd 'an argument'");
/// ```
#[derive(Debug, Drop)]
pub struct DisplayScriptInstance {
    stress_index: Option<StressIndex>,
    script_id: ScriptId,
    full_command: String,
    script_id_style: Style,
    count_style: Style,
}

impl DisplayScriptInstance {
    /// Shows the script in these styles.
    ///
    /// # Errors
    ///
    /// Memory was refused.
    pub fn new(
        alloc: Global,
        stress_index: Option<StressIndex>,
        script_id: ScriptId,
        command: &str,
        args: &[String],
        script_id_style: Style,
        count_style: Style,
    ) -> Result<DisplayScriptInstance, OutOfMemory>
        ensures stress_index { IfOk result (λ shown. shown.stress_index ≡ stress_index) }
        ensures script_id { IfOk result (λ shown. shown.script_id ≡ script_id) }
        ensures command { IfOk result
            (λ shown. string_bytes shown.full_command ≡ shell_words (command.now ∷ map string_bytes args.now)) }
        ensures script_id_style { IfOk result (λ shown. shown.script_id_style ≡ script_id_style) }
        ensures count_style { IfOk result (λ shown. shown.count_style ≡ count_style) }
    {
        let args = CommandLine::from_strings(alloc, args)?;
        DisplayScriptInstance::from_command_line(
            alloc,
            stress_index,
            script_id,
            command,
            &args,
            script_id_style,
            count_style,
        )
    }

    /// Shows the script as [`new`](DisplayScriptInstance::new) does, without a copy of its arguments.
    ///
    /// # Errors
    ///
    /// Memory was refused.
    pub fn from_command_line(
        alloc: Global,
        stress_index: Option<StressIndex>,
        script_id: ScriptId,
        command: &str,
        args: &CommandLine,
        script_id_style: Style,
        count_style: Style,
    ) -> Result<DisplayScriptInstance, OutOfMemory>
        ensures stress_index { IfOk result (λ shown. shown.stress_index ≡ stress_index) }
        ensures script_id { IfOk result (λ shown. shown.script_id ≡ script_id) }
        ensures command { IfOk result
            (λ shown. string_bytes shown.full_command ≡ shell_words (command.now ∷ args.now)) }
        ensures script_id_style { IfOk result (λ shown. shown.script_id_style ≡ script_id_style) }
        ensures count_style { IfOk result (λ shown. shown.count_style ≡ count_style) }
    {
        let mut full_command = String::new(alloc);
        match write_shell_command(&mut full_command, command, args) {
            Ok(()) => Ok(DisplayScriptInstance {
                stress_index,
                script_id,
                full_command,
                script_id_style,
                count_style,
            }),
            Err(_) => Err(OutOfMemory),
        }
    }
}

impl WriteText for DisplayScriptInstance {
    ghost text = { λ s. script_text s.script_id_style s.count_style s.stress_index s.script_id
        (string_bytes s.full_command) };

    #[tactic(auto, unfolding(crate::specs::Instance::script_text))]
    fn write_to<W: WriteStr>(&self, w: &mut W) -> Result<(), WriteFault> {
        StressPart(&self.count_style, &self.stress_index).write_to(w)?;
        (Toned(self.script_id_style, self.script_id.as_str()), ": ").write_to(w)?;
        w.write_str(self.full_command.as_str())
    }
}

impl fmt::Display for DisplayScriptInstance {
    ghost output = { λ s. Some
        (script_text s.script_id_style s.count_style s.stress_index s.script_id (string_bytes s.full_command)) };

    fn fmt<W: fmt::Write>(&self, f: &mut Formatter<W>) -> fmt::Result {
        show_written!(self, f)
    }
}

/// Writes a setup script as [`DisplayScriptInstance`] shows it.
///
/// # Errors
///
/// The writer's fault. It has accepted a prefix of the text.
#[tactic(auto, unfolding(crate::specs::Instance::script_text))]
pub fn write_script_instance<W: WriteStr>(
    w: &mut W,
    stress_index: Option<StressIndex>,
    script_id: &ScriptId,
    command: &str,
    args: &CommandLine,
    script_id_style: Style,
    count_style: Style,
) -> Result<(), WriteFault>
    ensures { Puts W.meaning w.old
        (script_text script_id_style count_style stress_index script_id.now
        (shell_words (command.now ∷ args.now)))
        result w.new }
{
    StressPart(&count_style, &stress_index).write_to(w)?;
    (Toned(script_id_style, script_id.as_str()), ": ").write_to(w)?;
    write_shell_command(w, command, args)
}
