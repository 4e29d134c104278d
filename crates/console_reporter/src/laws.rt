//! Laws of reports, with those of other crates that speak of a whole report.
//!
//! A law is a function that does nothing. Its clauses are what the prover proved about definitions. A program need not
//! call it; a proof about a program may.

ghost use Rattle.std.specs.Prelude.{◌≡◌, ◌++◌, ◌∷◌, List, Result, Some, length, slice_get};
ghost use Rattle.{std.specs.List.flat_map, run_model.specs.declared.call.ReportCall.ReportCall};
ghost use Rattle.reporter_state.specs.declared.faults.RunFault.{RunFault};
ghost use Rattle.console_reporter.specs.Names.{AreAccepted, Configuration, EndsWell, report, report_texts, text};
ghost use Rattle.console_reporter.specs.Names.{Runs, absent};

pub use reporter_state::laws::one_final_order;
pub use styled_text::laws::{indent_laws, piece_laws};
pub use text_parts::laws::reasons_only_hide;
pub use writers::laws::delivery_law;
use writers::write_str::WriteStr;

/// A report is the texts of its calls, one after another, each at the index of its call.
pub fn texts_make_the_report()
    ensures joined { (config : Configuration) (past : List ReportCall)
        → report config past ≡ flat_map (λ t. t) (report_texts config past) }
    ensures placed { (config : Configuration) (later : List ReportCall) (call : ReportCall) (past : List ReportCall)
        → slice_get (report_texts config (later ++ call ∷ past)) (length past) ≡ Some (text config past call) }
{}

/// What [`run_report`](crate::imp::run_report) promises is no empty promise: accepted calls end well, or what stopped
/// them has its cause.
///
/// - An `Err` is `Io`, and the writer counted one failure more; or `Memory`, at a call where the writer or the reporter
///   asks for some. That it was refused there is tested and not proved.
/// - If the writer asks for no memory, as a `TextBuffer` does not, the reporter copies no prefix and keeps no test for
///   the summary, and no device can fail or none has failed once more, the result is `Ok`: the whole report is accepted
///   and delivered.
pub fn runs_end_well<W: WriteStr>()
    ensures { (config : Configuration) (calls : List ReportCall) (old new : W) (result : Result (Unit {0}) RunFault)
        → Runs W.meaning absent config calls (old, tt) result (new, tt) → AreAccepted config calls
        → EndsWell W.meaning absent config calls (old, tt) result (new, tt) }
{}

/// Like [`runs_end_well`], of [`run_report_with_store`](crate::imp::run_report_with_store), if neither device fails:
/// the records are accepted and delivered too.
pub fn runs_with_store_end_well<W: WriteStr, S: WriteStr>()
    ensures { (config : Configuration) (calls : List ReportCall) (old new : W × S) (result : Result (Unit {0}) RunFault)
        → Runs W.meaning S.meaning config calls old result new → AreAccepted config calls
        → EndsWell W.meaning S.meaning config calls old result new }
{}
