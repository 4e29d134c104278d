//! Reports when memory is refused. With enough memory each is complete. `scripts/check-faults` runs these tests once
//! for each allocation, which it refuses: a test then returns that error, and panics if a text is no prefix of the
//! whole one.

use super::pieces::large_line;
use super::{OPTIONS, STORING, judge_and_write, report_and_store};
use command_line::fault::Fault;
use scene_reader::reader::LARGE;
use std::test::Fail;
use test_devices::Device;
use test_devices::scenes::{ASKED, CANCELLED, OF_ASKED, OF_CANCELLED, OF_TWO_TESTS, TWO_TESTS};

// More bytes than each report has.
const ROOM: usize = 600;

// Scenes, their reports, and their records without outputs.
const REPORTS: &[(&str, &str, &str)] = &[
    (
        TWO_TESTS,
        OF_TWO_TESTS,
        "5:alpha,2:t1,4:PASS,0:,\n5:alpha,7:mod::t2,4:FAIL,0:,\n",
    ),
    (CANCELLED, OF_CANCELLED, "1:a,2:t1,4:FAIL,0:,\n"),
    (ASKED, OF_ASKED, ""),
];

// Whether this text is right for a run with this result: the whole one, or a prefix of it if memory was refused.
fn leaves(outcome: &Result<(), Fault<'_>>, text: &[u8], whole: &str) -> bool {
    match outcome {
        Ok(()) => text == whole.as_bytes(),
        Err(fault) => is_out_of_memory(fault) && whole.as_bytes().starts_with(text),
    }
}

// Whether a fault says that memory was refused, with its status.
fn is_out_of_memory(fault: &Fault<'_>) -> bool {
    match fault {
        Fault::OutOfMemory => fault.status() == 3,
        _ => false,
    }
}

#[test]
fn a_scene_from_its_text_to_its_records(rt: HostRuntime) -> Result<(), Fail> {
    let alloc = rt.alloc();
    for &(text, whole, records) in REPORTS {
        for (options, records) in [(OPTIONS, ""), (STORING, records)] {
            let (outcome, device, store) = report_and_store(
                alloc,
                &options,
                text.as_bytes(),
                Device::with_room(alloc, ROOM)?,
                Device::with_room(alloc, ROOM)?,
            );
            assert!(rt; leaves(&outcome, device.taken(), whole));
            assert!(rt; leaves(&outcome, store.taken(), records));
            outcome?;
        }
    }
    Ok(())
}

#[test]
fn a_scene_that_is_judged_and_then_written(rt: HostRuntime) -> Result<(), Fail> {
    let alloc = rt.alloc();
    for &(text, whole, records) in REPORTS {
        for (options, records) in [(OPTIONS, ""), (STORING, records)] {
            let (mut device, mut store) = (
                Device::with_room(alloc, ROOM)?,
                Device::with_room(alloc, ROOM)?,
            );
            let outcome = judge_and_write(alloc, &options, text, &mut device, &mut store);
            assert!(rt; leaves(&outcome, device.taken(), whole));
            assert!(rt; leaves(&outcome, store.taken(), records));
            outcome?;
        }
    }
    Ok(())
}

#[test]
fn a_large_output_that_keeps_its_memory(rt: HostRuntime) -> Result<(), Fail> {
    let alloc = rt.alloc();
    let line = large_line(alloc, "split\t", "y\\n", "\t\t-\t-")?;
    let (outcome, device, _) = report_and_store(
        alloc,
        &OPTIONS,
        line.as_bytes(),
        Device::with_room(alloc, 4 * LARGE)?,
        Device::with_room(alloc, 0)?,
    );
    match outcome {
        Ok(()) => {
            assert!(rt; device.taken().len() > 2 * LARGE);
            Ok(())
        }
        Err(fault) => {
            assert!(rt; is_out_of_memory(&fault));
            Err(Fail::from("memory was refused"))
        }
    }
}
