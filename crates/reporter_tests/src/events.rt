//! Single events: one that is refused, and one whose text a device has no room for.

use crate::runs::{TWO_TESTS, run_started};
use crate::testing::{line_builder, retried_success, write_event};
use console_reporter::prelude::*;
use std::alloc::Global;
use std::mem;
use std::test::Fail;
use test_devices::Device;

#[test]
fn a_refused_event_changes_nothing(rt: HostRuntime) -> Result<(), Fail> {
    let alloc = rt.alloc();
    let test = OwnedTestInstanceId::new(alloc, "a", "t1")?;
    let refused = retried_success(test.as_ref());
    let tried = start_after_refused(alloc, &refused);
    mem::forget(refused);
    tried
}

fn start_after_refused(alloc: Global, refused: &TestEvent<'_>) -> Result<(), Fail> {
    let started = run_started(alloc)?;
    let tried = write_both(alloc, refused, &started);
    mem::forget(started);
    tried
}

// The level shows no lines of tests, so there is no text before the refusal.
fn write_both(alloc: Global, refused: &TestEvent<'_>, next: &TestEvent<'_>) -> Result<(), Fail> {
    let builder = line_builder(alloc, StatusLevel::None)?;
    let mut report = String::new(alloc);
    let mut reporter = builder.build_for(alloc, &mut report, Surroundings::default());
    let outcome = write_event(&mut reporter, refused);
    let next_outcome = write_event(&mut reporter, next);
    let _parts = reporter.into_parts();
    if outcome != Err(WriteEventError::RetriedSuccess) || next_outcome != Ok(()) {
        return Err(Fail::from("the event was not refused, or the next one was"));
    }
    if TWO_TESTS.report.first().copied() != Some(report.as_str()) {
        return Err(Fail::from("the refused event left something"));
    }
    Ok(())
}

#[test]
fn a_device_without_room_for_a_text(rt: HostRuntime) -> Result<(), Fail> {
    let started = run_started(rt.alloc())?;
    let tried = write_without_room(rt.alloc(), &started);
    mem::forget(started);
    tried
}

fn write_without_room(alloc: Global, event: &TestEvent<'_>) -> Result<(), Fail> {
    let builder = line_builder(alloc, StatusLevel::Pass)?;
    let mut report = TextBuffer::new(alloc, Device::with_room(alloc, 10)?)?;
    let mut reporter = builder.build_for(alloc, &mut report, Surroundings::default());
    let outcome = write_event(&mut reporter, event);
    let later = [write_event(&mut reporter, event), reporter.finish()];
    let _parts = reporter.into_parts();
    if outcome != Err(WriteEventError::Io) || later != [Err(WriteEventError::Failed); 2] {
        return Err(Fail::from("the device did not fail, or the report went on"));
    }
    let (device, _) = report.into_inner();
    if device.taken() != b"----------".as_slice() {
        return Err(Fail::from("the device has other bytes"));
    }
    Ok(())
}
