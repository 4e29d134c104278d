//! Laws of the specs: functions that do nothing.
//!
//! Such a function has no arguments and no body. Its clause says something about definitions alone, and the prover
//! proved it. So a law shows what the clauses of other functions imply.

ghost use Rattle.std.specs.Prelude.{◌≡◌, ◌⊎◌, ℕ, List, [], None, Option, Some};
ghost use Rattle.scene_reader.specs.Names.{ParsedLines, RunLine};
ghost use Rattle.scene_follower.specs.Names.{Begins, IsStop, IsUnread, OfText, Options, Prints, StandAtOneCall};
ghost use Rattle.scene_follower.specs.Names.{StopsBy, device};
ghost use Rattle.scenes.specs.Names.{IsNotCreated, IsRunAccepted, SceneFails};
ghost use Rattle.scene_follower.specs.Follow.{IsWrongLine};
ghost use Rattle.scene_follower.specs.Read.{AtLine};
ghost use Rattle.{styled_text.specs.Texts.Text, run_model.specs.declared.call.ReportCall.ReportCall};

use command_line::fault::Fault;
use std::io::Write;

/// If a fault stops a report with records, the records come after the texts: no call has a record in the second device
/// before its text is in the first one. So if nothing was printed, nothing was stored, provided that a call without a
/// text has no record. `report_scene` and `follow_source` promise `StandAtOneCall`.
pub fn records_come_after_texts()
    ensures { (texts records : List ReportCall → Text) (calls : List ReportCall) (stored : List ℕ)
        → ((first : List ReportCall) → texts first ≡ [] → records first ≡ [])
        → StandAtOneCall device device texts records calls (Some [], Some []) (Some [], Some stored) → stored ≡ [] }
{}

/// What the clause `err` of `report_scene` leaves where `judge` accepts the scene: the file cannot be read, a device
/// failed, memory was refused, or the store was not created, with its own fault. When one of the first three comes is
/// not specified: a body that always returns `OutOfMemory` meets the clause.
pub fn scenes_end_well<'a, W: Write, S: Write, F: FnOnce(&'a str) -> Result<S, Fault<'a>>>()
    ensures { (options : Options) (text : List ℕ) (create_store : F) (old : W) (new : W × Option S) (fault : Fault)
        → SceneFails W.contents S.contents (F.post create_store) options text old new fault
        → OfText text (IsRunAccepted options)
        → IsUnread options.file.now fault ⊎ IsStop options fault
        ⊎ IsNotCreated (F.post create_store) options text fault (old, None) new }
{}

/// Like [`scenes_end_well`], for `follow_source` and a source without a malformed line or a refused call.
pub fn followed_lines_end_well<W: Write, S: Write>()
    ensures { (options : Options) (all : List RunLine) (old new : W × S) (fault : Fault)
        → StopsBy options all
        (Prints device device options (W.contents old.0, S.contents old.1) (W.contents new.0, S.contents new.1))
        (Begins device device options (W.contents old.0, S.contents old.1) (W.contents new.0, S.contents new.1))
        fault
        → ((run : ParsedLines) (lines : List RunLine) (number : ℕ) (wrong : Fault)
        → AtLine all run lines number → IsWrongLine options run lines number wrong → ⊥)
        → IsUnread options.file.now fault ⊎ IsStop options fault }
{}
