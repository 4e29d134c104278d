//! The run of a list of calls, with a reporter of its own.

ghost use Rattle.std.specs.Prelude.{◌≡◌};
ghost use Rattle.console_reporter.specs.Names.{configured, configured_with_store, Runs, absent};

use super::builder::DisplayReporterBuilder;
use super::reporter::DisplayReporter;
use super::store::Store;
use reporter_state::faults::RunFault;
use run_model::call::ReportCall;
use std::alloc::Global;
use store_text::config::StoreConfig;
use writers::write_str::WriteStr;

/// Makes the calls in order with a new reporter, ends the report, and stops at the first fault. What it promises is one
/// record, `Runs` in specs/Runs.antt.
///
/// On `Ok` the writer has accepted the report of the calls and delivered it. On an error at position `i` it has
/// accepted and delivered the report of the calls before `i`, if it held nothing back before, and accepted a prefix of
/// the text of call `i`. A refusal is of the first call that is not accepted, and nothing of that call was written.
///
/// ```
/// run_report(alloc, builder, &mut out, true, false, false, false, &calls)?;
/// assert!(out.as_str().starts_with("        PASS [   0.020s] (1/1) alpha t1\n"));
/// ```
///
/// # Errors
///
/// The first fault with the index of its call. The writer has accepted the report of the calls before, and a prefix
/// of the text of that call.
pub fn run_report<W: WriteStr>(
    alloc: Global,
    builder: DisplayReporterBuilder,
    writer: &mut W,
    use_unicode: bool,
    is_terminal: bool,
    is_ci: bool,
    display_empty_outputs: bool,
    calls: &[ReportCall<'_>],
) -> Result<(), RunFault>
    ensures { Runs W.meaning absent (configured builder use_unicode is_terminal is_ci display_empty_outputs) calls.now
        (writer.old, tt) result (writer.new, tt) }
{
    let mut reporter = builder.build(
        alloc,
        writer,
        use_unicode,
        is_terminal,
        is_ci,
        display_empty_outputs,
    );
    let outcome = reporter.make_calls(alloc, &*calls);
    let DisplayReporter {
        writer,
        store,
        state,
    } = reporter;
    drop(state);
    drop(store);
    let _writer = writer;
    outcome
}

/// Makes the calls in order with a new reporter with a store, ends the report, and stops at the first fault.
///
/// It promises what [`run_report`] does. On `Ok` the second writer has accepted the records of the calls and delivered
/// them; on an error at position `i` those of the calls before `i` and a prefix of the record of call `i`. No byte of
/// that record was written before the whole text of its call was delivered: after `StoreIo` the first writer has that
/// text, after `Io` the second has the records of the calls before and no more.
///
/// No record is held in memory. `Memory` comes from either writer, or if the call's test is kept for the summary or a
/// prefix is copied.
///
/// ```
/// let mut records = String::new(alloc);
/// run_report_with_store(alloc, builder, &mut out, &mut records, store, true, false, false, false, &calls)?;
/// assert_eq!(records.as_str(), "5:alpha,2:t1,4:PASS,0:,\n");
/// ```
///
/// # Errors
///
/// The first fault with the index of its call. The writers have accepted the texts and records of the calls before,
/// and a prefix of those of that call.
pub fn run_report_with_store<W: WriteStr, S: WriteStr>(
    alloc: Global,
    builder: DisplayReporterBuilder,
    writer: &mut W,
    store_writer: &mut S,
    store: StoreConfig,
    use_unicode: bool,
    is_terminal: bool,
    is_ci: bool,
    display_empty_outputs: bool,
    calls: &[ReportCall<'_>],
) -> Result<(), RunFault>
    ensures { Runs W.meaning S.meaning
        (configured_with_store store builder use_unicode is_terminal is_ci display_empty_outputs) calls.now
        (writer.old, store_writer.old) result (writer.new, store_writer.new) }
{
    let mut reporter = builder.build_with_store(
        alloc,
        writer,
        store_writer,
        store,
        use_unicode,
        is_terminal,
        is_ci,
        display_empty_outputs,
    );
    let outcome = reporter.make_calls(alloc, &*calls);
    let DisplayReporter {
        writer,
        store,
        state,
    } = reporter;
    drop(state);
    match store {
        Some(store) => {
            let Store {
                writer: store_writer,
                config,
            } = store;
            let _config = config;
            give_back(writer, store_writer);
            outcome
        }
        None => outcome,
    }
}

/// Ends two borrows, and changes nothing. Hidden: only this library and its programs need it, where a reporter with a
/// store ends before its writers.
#[doc(hidden)]
pub fn give_back<W, S>(writer: &mut W, store_writer: &mut S)
    ensures writer { writer.new ≡ writer.old }
    ensures store_writer { store_writer.new ≡ store_writer.old }
{
    let _store_writer = store_writer;
    let _writer = writer;
}
