//! The setup script that a line is about.

ghost use Rattle.{report_words.specs.Parts.paint, text_parts.specs.Script.script_of};
ghost use Rattle.{text_parts.specs.Script.shown_script};

use report_text::helpers::write_script_instance;
use run_model::command::CommandLine;
use run_model::name::{ProgramName, ScriptId};
use run_model::stress::StressIndex;
use styled_text::style::Styles;
use writers::text::WriteText;
use writers::write_str::{WriteFault, WriteStr};

/// A setup script as its lines name it.
#[derive(Clone, Copy)]
pub struct ScriptInstance<'a> {
    /// Which iteration of a stress run it belongs to.
    pub stress_index: Option<StressIndex>,
    /// The script's id.
    pub script_id: &'a ScriptId,
    /// The program that it runs.
    pub program: &'a ProgramName,
    /// The program's arguments.
    pub args: &'a CommandLine,
}

/// A setup script as a report shows it: its iteration, if there is one, its id and its command as a shell reads it.
///
/// ```
/// use run_model::name::{ProgramName, ScriptId};
/// let (script_id, program) = (ScriptId::new(alloc, "s1")?, ProgramName::new(alloc, "cmd")?);
/// let args = CommandLine::from_words(alloc, &["x"])?;
/// let script = ScriptInstance { stress_index: None, script_id: &script_id, program: &program, args: &args };
/// ShownScript(&styles, &script).write_to(&mut out)?;
/// assert_eq!(out.as_str(), "s1: cmd x");
/// ```
#[derive(Clone, Copy)]
pub struct ShownScript<'s, 'a>(pub &'s Styles, pub &'s ScriptInstance<'a>);

impl WriteText for ShownScript<'_, '_> {
    ghost text = { λ s. paint s.0.now (shown_script (script_of s.1.now)) };

    fn write_to<W: WriteStr>(&self, w: &mut W) -> Result<(), WriteFault> {
        let ShownScript(styles, script) = *self;
        write_script_instance(
            w,
            script.stress_index,
            script.script_id,
            script.program.as_str(),
            script.args,
            styles.script_id,
            styles.count,
        )
    }
}
