//! Each write and each flush of either writer fails once. The tests check what the two devices took, which call has the
//! fault, and that neither a later call nor a refused one writes.

use super::{ALL_OUTPUT, Texts, Trial, front_len, is_prefix, run_alone, run_with_store, try_runs};
use crate::testing::{CallResults, line_builder, make_calls, retried_success, write_event};
use console_reporter::imp::Store;
use console_reporter::prelude::*;
use std::alloc::Global;
use std::mem;
use std::test::Fail;
use test_devices::{BYTES_AT_ONCE, Device, Failure};

// Which writer's device fails, and whether there is a store.
#[derive(Clone, Copy, PartialEq, Eq)]
enum Failing {
    Report,
    ReportBesideStore,
    Store,
}

// A device whose call after the first n fails.
#[derive(Clone, Copy)]
struct Fault {
    failing: Failing,
    failure: Failure,
    works: usize,
}

// The result of a run, and how many bytes each device took.
#[derive(Clone, Copy, PartialEq, Eq)]
struct Left {
    outcome: Result<(), RunFault>,
    report: usize,
    records: usize,
}

impl Fault {
    // The expected result for calls with these texts.
    fn leaves(self, texts: Texts) -> Left {
        let (of_failing, fault) = match self.failing {
            Failing::Store => (texts.records, WriteEventError::StoreIo),
            Failing::Report | Failing::ReportBesideStore => (texts.report, WriteEventError::Io),
        };
        let all = texts.report.len();
        let Some((position, taken)) = self.stop(of_failing) else {
            return Left {
                outcome: Ok(()),
                report: front_len(texts.report, all),
                records: self.stored(texts, all),
            };
        };
        let outcome = Err(RunFault { position, fault });
        match self.failing {
            // The text of a call is delivered before its record.
            Failing::Store => Left {
                outcome,
                report: front_len(texts.report, position.saturating_add(1)),
                records: taken,
            },
            Failing::Report | Failing::ReportBesideStore => Left {
                outcome,
                report: taken,
                records: self.stored(texts, position),
            },
        }
    }

    // How many bytes the store has after the first n calls.
    fn stored(self, texts: Texts, calls: usize) -> usize {
        match self.failing {
            Failing::Report => 0,
            Failing::ReportBesideStore | Failing::Store => front_len(texts.records, calls),
        }
    }

    // The call in which the device fails, and how many bytes it took before. Each call writes its text piece by piece
    // and flushes the device. The end of the report flushes it once more.
    fn stop(self, texts: &[&str]) -> Option<(usize, usize)> {
        let (mut works, mut taken) = (self.works, 0usize);
        for (position, text) in texts.iter().enumerate() {
            if self.failure != Failure::FlushError {
                let writes = text.len().div_ceil(BYTES_AT_ONCE);
                if works < writes {
                    let front = works.saturating_mul(BYTES_AT_ONCE);
                    return Some((position, taken.saturating_add(front)));
                }
                works -= writes;
            }
            taken = taken.saturating_add(text.len());
            if self.failure != Failure::NothingTaken {
                if works == 0 {
                    return Some((position, taken));
                }
                works -= 1;
            }
        }
        let fails_at_the_end = works == 0 && self.failure != Failure::NothingTaken;
        fails_at_the_end.then_some((texts.len(), taken))
    }

    // The two writers.
    fn writers(self, alloc: Global) -> Result<(TextBuffer<Device>, TextBuffer<Device>), Fail> {
        let (report, records) = match self.failing {
            Failing::Store => (usize::MAX, self.works),
            Failing::Report | Failing::ReportBesideStore => (self.works, usize::MAX),
        };
        let report = buffer(alloc, report, self.failure)?;
        let records = buffer(alloc, records, self.failure)?;
        Ok((report, records))
    }

    // Runs the calls, and returns the devices and the result.
    fn run(
        self,
        alloc: Global,
        calls: &[ReportCall<'_>],
    ) -> Result<(Devices, Result<Result<(), RunFault>, OutOfMemory>), Fail> {
        let (mut report, mut records) = self.writers(alloc)?;
        let outcome = if self.failing == Failing::Report {
            run_alone(alloc, &mut report, calls)
        } else {
            run_with_store(alloc, &mut report, &mut records, calls)
        };
        Ok((Devices::under(report, records), outcome))
    }

    // Reports an event that is refused, and then makes every call, even after a fault. It returns the devices,
    // whether the event was refused, and the results of the calls.
    fn make_all(
        self,
        alloc: Global,
        builder: DisplayReporterBuilder,
        refused: &TestEvent<'_>,
        calls: &[ReportCall<'_>],
    ) -> Result<(Devices, bool, CallResults), Fail> {
        let (mut report, mut records) = self.writers(alloc)?;
        let store = match self.failing {
            Failing::Report => None,
            Failing::ReportBesideStore | Failing::Store => {
                Some(Store::new(&mut records, ALL_OUTPUT))
            }
        };
        let mut reporter = builder.build_in(alloc, &mut report, store, Surroundings::default());
        let refusal = write_event(&mut reporter, refused);
        let results = make_calls(alloc, &mut reporter, calls);
        let _parts = reporter.into_parts();
        let is_refused = refusal == Err(WriteEventError::RetriedSuccess);
        Ok((Devices::under(report, records), is_refused, results))
    }

    // Runs the calls over these devices.
    fn try_run(
        self,
        alloc: Global,
        refused: &TestEvent<'_>,
        calls: &[ReportCall<'_>],
        texts: Texts,
    ) -> Result<(), Fail> {
        let left = self.leaves(texts);
        let (devices, outcome) = self.run(alloc, calls)?;
        if outcome != Ok(left.outcome) || !devices.took(texts, left) {
            return Err(Fail::from("a run left other texts"));
        }
        self.try_calls(alloc, refused, calls, texts, left)
    }

    // Like `try_run`, with one call at a time.
    fn try_calls(
        self,
        alloc: Global,
        refused: &TestEvent<'_>,
        calls: &[ReportCall<'_>],
        texts: Texts,
        left: Left,
    ) -> Result<(), Fail> {
        let builder = line_builder(alloc, StatusLevel::Pass)?;
        let (devices, is_refused, results) = self.make_all(alloc, builder, refused, calls)?;
        if results.outcome != left.outcome || !devices.took(texts, left) {
            return Err(Fail::from("calls one by one left other texts"));
        }
        if !is_refused || !results.are_silent {
            return Err(Fail::from("a call did not return that it was refused, or that one failed"));
        }
        Ok(())
    }
}

// A writer over a device whose call after the first n fails.
fn buffer(alloc: Global, works: usize, failure: Failure) -> Result<TextBuffer<Device>, Fail> {
    Ok(TextBuffer::new(alloc, Device::failing_at(alloc, works, failure))?)
}

// The two devices.
#[derive(Drop)]
struct Devices {
    report: Device,
    records: Device,
}

impl Devices {
    fn under(report: TextBuffer<Device>, records: TextBuffer<Device>) -> Devices {
        let ((report, _), (records, _)) = (report.into_inner(), records.into_inner());
        Devices { report, records }
    }

    // Whether they took this many bytes of these texts.
    fn took(&self, texts: Texts, left: Left) -> bool {
        let (report, records) = (self.report.taken(), self.records.taken());
        report.len() == left.report
            && records.len() == left.records
            && is_prefix(report, texts.report)
            && is_prefix(records, texts.records)
    }
}

// Reports the run to a device that fails at its first call, then at its second, and so on until none fails.
fn try_each(
    alloc: Global,
    refused: &TestEvent<'_>,
    calls: &[ReportCall<'_>],
    texts: Texts,
    failing: Failing,
    failure: Failure,
) -> Result<(), Fail> {
    for works in 0..1000 {
        let fault = Fault {
            failing,
            failure,
            works,
        };
        fault.try_run(alloc, refused, calls, texts)?;
        if fault.leaves(texts).outcome.is_ok() {
            return Ok(());
        }
    }
    Err(Fail::from("every device failed"))
}

// Tries this for each writer and for each kind of failure.
fn try_all(
    alloc: Global,
    refused: &TestEvent<'_>,
    calls: &[ReportCall<'_>],
    texts: Texts,
) -> Result<(), Fail> {
    for failing in [Failing::Report, Failing::ReportBesideStore, Failing::Store] {
        for failure in [Failure::Error, Failure::NothingTaken, Failure::FlushError] {
            try_each(alloc, refused, calls, texts, failing, failure)?;
        }
    }
    Ok(())
}

/// Reports the run to devices that fail, at each of their calls in turn.
pub fn try_run(
    alloc: Global,
    test: TestInstanceId<'_>,
    calls: &[ReportCall<'_>],
    texts: Texts,
) -> Result<(), Fail> {
    let refused = retried_success(test);
    let tried = try_all(alloc, &refused, calls, texts);
    mem::forget(refused);
    tried
}

#[test]
fn each_write_and_each_flush_fails_once(rt: HostRuntime) -> Result<(), Fail> {
    try_runs(rt.alloc(), Trial::Faults)
}
