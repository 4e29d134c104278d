//! The entries of a summary, and their order.

ghost use Rattle.std.specs.Prelude.{◌≡◌, List, [], ◌∷◌, ◌++◌, OnOk, OnErr};
ghost use Rattle.{writers.specs.Writer.Puts, report_words.specs.Parts.paint};
ghost use Rattle.{reporter_state.specs.declared.final_output.FinalOutput.TheVariants.ExecutedWithOutput};
ghost use Rattle.reporter_state.specs.Names.{status_line, StatusLineKind, final_text, shown_entries, final_order};
ghost use Rattle.reporter_state.specs.Names.{borrowed_test, FinalOutputEntry};

use crate::entry_key::EntryKey;
use crate::final_output::{FinalOutput, FinalOutputEntry};
use crate::kept_output::{KeptOutput, OutputForm, ShortSummary};
use crate::kept_test::KeptTest;
use crate::loaded_output::LoadedOutput;
use run_model::memory::OutOfMemory;
use run_model::status::StatusSummary;
use std::alloc::Global;
use std::cmp::Reverse;
use std::collections::BTreeMap;
use std::marker::Model;
use test_text::status_line::{StatusLine, StatusLineKind, write_status_line};
use test_text::test_skipped::write_skip_line;
use text_parts::attempt_output::write_test_execute_status;
use text_parts::settings::Settings;
use writers::write_str::{WriteFault, WriteStr};

/// The entries of a summary. Contracts see them in the order in which they are listed.
///
/// ```
/// use reporter_state::binary_ids::KeptBinaryIds;
/// use reporter_state::final_output::FinalOutputEntry;
/// let mut ids = KeptBinaryIds::new(alloc);
/// let mut entries = KeptEntries::new(alloc);
/// let skipped = settings.padded_instance(None, test.as_ref());
/// entries.keep(alloc, FinalOutputEntry::skipped(alloc, &mut ids, skipped)?)?;
/// entries.write(&mut out, &settings)?;
/// assert_eq!(out.as_str(), "        SKIP [         ] alpha t1\n");
/// ```
#[derive(Drop)]
pub struct KeptEntries {
    // Greatest first: a search of the map compares with the first keys first, and most runs keep entries in order.
    by_key: BTreeMap<Reverse<EntryKey>, KeptOutput>,
}

impl Model for KeptEntries {
    ghost use Rattle.{std.specs.Prelude.List, std.specs.BTreeMap.btree_map_len, reporter_state.specs.Names.ArePlaced};
    ghost use Rattle.{reporter_state.specs.Names.shown_of, reporter_state.specs.Names.FinalOutputEntry};

    ghost Value = { List FinalOutputEntry };

    ghost view = { λ k. shown_of k.by_key.entries };

    ghost invariant = { λ k. ArePlaced (btree_map_len k.by_key) k.by_key.entries };
}

impl KeptEntries {
    /// No entries. It allocates nothing.
    #[tactic(auto, unfolding(crate::specs::Order::ordered_by))]
    pub fn new(alloc: Global) -> KeptEntries
        ensures { result ≡ final_order [] }
    {
        KeptEntries {
            by_key: BTreeMap::new(alloc),
        }
    }

    /// Keeps an entry: in the final order it comes after earlier ones with the same key.
    ///
    /// # Errors
    ///
    /// Memory was refused. The entries are as they were.
    pub fn keep(&mut self, alloc: Global, entry: FinalOutputEntry) -> Result<(), OutOfMemory>
        ensures ok { OnOk result
            ((kept : List FinalOutputEntry) → self.old ≡ final_order kept
            → self.new ≡ final_order (kept ++ entry ∷ [])) }
        ensures err { OnErr result (self.new ≡ self.old) }
    {
        let FinalOutputEntry { test, output } = entry;
        let key = EntryKey::new(alloc, test, &output, self.by_key.len())?;
        let kept = KeptOutput::new(alloc, output)?;
        self.by_key.insert(Reverse(key), kept)?;
        Ok(())
    }

    /// Writes the entries in their order. It allocates nothing.
    ///
    /// # Errors
    ///
    /// The writer's fault. It has accepted a prefix of the text.
    pub fn write<W: WriteStr>(&self, w: &mut W, settings: &Settings) -> Result<(), WriteFault>
        ensures { Puts W.meaning w.old (shown_entries settings.now self.now) result w.new }
    {
        for (key, output) in self.by_key.iter().rev() {
            write_kept(w, settings, key.0.test(), output)?;
        }
        Ok(())
    }
}

#[tactic(auto, unfolding(crate::specs::Entries::final_text), using(crate::proofs::lemmas::KeptTests::skip_of_kept))]
fn write_kept<W: WriteStr>(
    w: &mut W,
    settings: &Settings,
    test: &KeptTest,
    output: &KeptOutput,
) -> Result<(), WriteFault>
    ensures { Puts W.meaning w.old
        (paint settings.now.styles (final_text settings.now (borrowed_test test.now) output.now)) result w.new }
{
    match &output.form {
        OutputForm::Skipped => write_skip_line(w, settings, test.as_counted()),
        OutputForm::Line {
            case,
            is_slow,
            exit_code,
            retry_data,
            nanos,
        } => {
            let line = ShortSummary {
                nanos: *nanos,
                retry_data: *retry_data,
                exit_code: *exit_code,
                case: *case,
                is_slow: *is_slow,
            };
            write_line(w, settings, test, &line.summary())
        }
        OutputForm::LineWithOutput {
            case,
            is_slow,
            exit_code,
            retry_data,
            nanos,
            output,
        } => {
            let line = ShortSummary {
                nanos: *nanos,
                retry_data: *retry_data,
                exit_code: *exit_code,
                case: *case,
                is_slow: *is_slow,
            };
            write_line_with_output(w, settings, test, &line.summary(), output)
        }
        OutputForm::Whole(output) => write_entry(w, settings, test, output.get()),
    }
}

#[tactic(auto, unfolding(crate::specs::Entries::final_text), using(crate::proofs::lemmas::KeptTests::skip_of_kept))]
fn write_entry<W: WriteStr>(
    w: &mut W,
    settings: &Settings,
    test: &KeptTest,
    output: &FinalOutput,
) -> Result<(), WriteFault>
    ensures { Puts W.meaning w.old
        (paint settings.now.styles (final_text settings.now (borrowed_test test.now) output.now)) result w.new }
{
    match output {
        FinalOutput::Executed { summary } => write_line(w, settings, test, summary),
        FinalOutput::ExecutedWithOutput { summary, output } => {
            write_line_with_output(w, settings, test, summary, output)
        }
        FinalOutput::Skipped => write_skip_line(w, settings, test.as_counted()),
    }
}

#[tactic(auto, unfolding(crate::specs::Entries::final_text))]
fn write_line_with_output<W: WriteStr>(
    w: &mut W,
    settings: &Settings,
    test: &KeptTest,
    summary: &StatusSummary,
    output: &LoadedOutput,
) -> Result<(), WriteFault>
    ensures { Puts W.meaning w.old
        (paint settings.now.styles
        (final_text settings.now (borrowed_test test.now) (ExecutedWithOutput summary.now output.now)))
        result w.new }
{
    write_line(w, settings, test, summary)?;
    write_test_execute_status(w, settings, false, &summary.result, output.get())
}

#[tactic(auto, using(crate::proofs::lemmas::KeptTests::line_of_kept))]
fn write_line<W: WriteStr>(
    w: &mut W,
    settings: &Settings,
    test: &KeptTest,
    summary: &StatusSummary,
) -> Result<(), WriteFault>
    ensures { Puts W.meaning w.old
        (paint settings.now.styles (status_line StatusLineKind.Final (borrowed_test test.now) summary.now)) result
        w.new }
{
    let line = StatusLine::of_summary(summary);
    write_status_line(
        w,
        &settings.styles,
        StatusLineKind::Final,
        &test.as_counted(),
        line,
    )
}
