//! Runs when memory is refused. With enough memory every report is complete. `scripts/check-faults` runs these tests
//! once for each allocation, which it refuses: a test then returns that error, and fails with another message if a text
//! is no prefix of the whole one.

use super::{ALL_OUTPUT, Texts, Trial, front_len, is_prefix, run_alone, run_with_store, try_runs};
use crate::testing::{CallResults, line_builder, make_call, make_calls};
use console_reporter::prelude::*;
use run_model::run_id::ShortestRunIdPrefix;
use std::alloc::Global;
use std::mem;
use std::test::Fail;
use test_devices::Device;

// How a run is reported: at once, without a store or with one, or call by call.
#[derive(Clone, Copy, PartialEq, Eq)]
enum Way {
    Alone,
    WithStore,
    CallByCall,
}

const WAYS: [Way; 3] = [Way::Alone, Way::WithStore, Way::CallByCall];

// More bytes than each of the texts has.
const ROOM: usize = 1000;

// Reports a run. Without a store the second writer gets nothing.
fn run_over<W: WriteStr, S: WriteStr>(
    alloc: Global,
    way: Way,
    report: &mut W,
    records: &mut S,
    calls: &[ReportCall<'_>],
) -> Result<CallResults, OutOfMemory> {
    match way {
        Way::Alone => Ok(CallResults::to_run(run_alone(alloc, report, calls)?)),
        Way::WithStore => Ok(CallResults::to_run(run_with_store(alloc, report, records, calls)?)),
        Way::CallByCall => {
            let builder = line_builder(alloc, StatusLevel::Pass)?;
            Ok(make_each(alloc, builder, report, records, calls))
        }
    }
}

fn make_each<W: WriteStr, S: WriteStr>(
    alloc: Global,
    builder: DisplayReporterBuilder,
    report: &mut W,
    records: &mut S,
    calls: &[ReportCall<'_>],
) -> CallResults {
    let mut reporter = builder.build_with_store(
        alloc, report, records, ALL_OUTPUT, false, false, false, false,
    );
    let results = make_calls(alloc, &mut reporter, calls);
    let _parts = reporter.into_parts();
    results
}

// Whether these texts are right for a run with these results: complete, or a prefix of each if memory was refused. A
// record comes only after the whole text of its call. Without a store there are no records.
fn leaves(texts: Texts, results: CallResults, report: &[u8], records: Option<&[u8]>) -> bool {
    let is_known = match results.outcome {
        Ok(()) => true,
        Err(stop) => stop.fault == WriteEventError::Memory && results.are_silent,
    };
    if !is_known || !reaches(report, texts.report, results.outcome) {
        return false;
    }
    let Some(records) = records else {
        return true;
    };
    reaches(records, texts.records, results.outcome)
        && is_text_first(texts, results.outcome, report, records)
}

// Whether these bytes are the texts of the calls that succeeded and a prefix of the text of the call that did not.
fn reaches(bytes: &[u8], texts: &[&str], outcome: Result<(), RunFault>) -> bool {
    let (least, most) = match outcome {
        Ok(()) => (texts.len(), texts.len()),
        Err(stop) => (stop.position, stop.position.saturating_add(1)),
    };
    is_prefix(bytes, texts)
        && bytes.len() >= front_len(texts, least)
        && bytes.len() <= front_len(texts, most)
}

// Whether the call that failed has no byte of its record, or its whole text.
fn is_text_first(
    texts: Texts,
    outcome: Result<(), RunFault>,
    report: &[u8],
    records: &[u8],
) -> bool {
    let Err(stop) = outcome else {
        return true;
    };
    records.len() == front_len(texts.records, stop.position)
        || report.len() == front_len(texts.report, stop.position.saturating_add(1))
}

// The result of the run, after its texts were checked.
fn judge(
    texts: Texts,
    results: Result<CallResults, OutOfMemory>,
    report: &[u8],
    records: Option<&[u8]>,
) -> Result<(), Fail> {
    let results = results?;
    if !leaves(texts, results, report, records) {
        return Err(Fail::from("a run left other texts"));
    }
    results.outcome?;
    Ok(())
}

/// Reports the run to two texts that grow.
pub fn run_over_strings(alloc: Global, calls: &[ReportCall<'_>], texts: Texts) -> Result<(), Fail> {
    for way in WAYS {
        let (mut report, mut records) = (String::new(alloc), String::new(alloc));
        let results = run_over(alloc, way, &mut report, &mut records, calls);
        let stored = (way != Way::Alone).then_some(records.as_bytes());
        judge(texts, results, report.as_bytes(), stored)?;
    }
    Ok(())
}

/// Reports the run through two buffers, which reserve their memory first.
pub fn run_over_buffers(alloc: Global, calls: &[ReportCall<'_>], texts: Texts) -> Result<(), Fail> {
    for way in WAYS {
        let mut report = buffer(alloc)?;
        let mut records = buffer(alloc)?;
        let results = run_over(alloc, way, &mut report, &mut records, calls);
        let (report, records) = (device_under(report), device_under(records));
        let stored = (way != Way::Alone).then_some(records.taken());
        judge(texts, results, report.taken(), stored)?;
    }
    Ok(())
}

fn buffer(alloc: Global) -> Result<TextBuffer<Device>, Fail> {
    Ok(TextBuffer::new(alloc, Device::with_room(alloc, ROOM)?)?)
}

// The device has all that was accepted, since each call delivers its text.
fn device_under(buffer: TextBuffer<Device>) -> Device {
    let (device, _) = buffer.into_inner();
    device
}

/// Makes the calls after the prefix of the run's id was set.
pub fn run_after_prefix(alloc: Global, calls: &[ReportCall<'_>], texts: Texts) -> Result<(), Fail> {
    let prefix = ShortestRunIdPrefix::new(alloc, "0", "0000000-0000-4000-8000-000000000001")?;
    let prefix = ReportCall::Prefix(prefix);
    let tried = run_after(alloc, &prefix, calls, texts);
    mem::forget(prefix);
    tried
}

// The memory for the copy of the prefix may be refused too. The reporter then has failed: it would go on with other
// texts.
fn run_after(
    alloc: Global,
    prefix: &ReportCall<'_>,
    calls: &[ReportCall<'_>],
    texts: Texts,
) -> Result<(), Fail> {
    let builder = line_builder(alloc, StatusLevel::Pass)?;
    let (mut report, mut records) = (String::new(alloc), String::new(alloc));
    let mut reporter = builder.build_with_store(
        alloc,
        &mut report,
        &mut records,
        ALL_OUTPUT,
        false,
        false,
        false,
        false,
    );
    let copied = make_call(alloc, &mut reporter, prefix);
    let results = make_calls(alloc, &mut reporter, calls);
    let _parts = reporter.into_parts();
    let Err(fault) = copied else {
        return judge(
            texts,
            Ok(results),
            report.as_bytes(),
            Some(records.as_bytes()),
        );
    };
    let failed = Err(RunFault {
        position: 0,
        fault: WriteEventError::Failed,
    });
    if results.outcome != failed || !report.is_empty() || !records.is_empty() {
        return Err(Fail::from("the report went on without its prefix"));
    }
    let outcome = Err(RunFault { position: 0, fault });
    let results = CallResults { outcome, ..results };
    judge(
        texts,
        Ok(results),
        report.as_bytes(),
        Some(records.as_bytes()),
    )
}

#[test]
fn runs_over_texts_that_grow(rt: HostRuntime) -> Result<(), Fail> {
    try_runs(rt.alloc(), Trial::Strings)
}

#[test]
fn runs_over_buffers(rt: HostRuntime) -> Result<(), Fail> {
    try_runs(rt.alloc(), Trial::Buffers)
}

#[test]
fn calls_after_a_prefix_was_not_copied(rt: HostRuntime) -> Result<(), Fail> {
    try_runs(rt.alloc(), Trial::Prefix)
}
