//! Devices that fail: what remains of the report and of the records, and which fault is reported. The contents of
//! records are cases of `cases/program`.

use super::{OPTIONS, STORING, report_and_store};
use crate::testing::expect_row;
use command_line::args::Options;
use command_line::fault::Fault;
use std::alloc::Global;
use std::test::Fail;
use test_devices::scenes::{
    ASKED, CANCELLED, DONE, OF_ASKED, OF_CANCELLED, OF_TWO_TESTS, STORED_OF_TWO_TESTS, TWO_TESTS,
};
use test_devices::{Device, Failure};

// A scene, its options, and what each device has if none fails.
#[derive(Clone, Copy)]
struct Run {
    options: Options<'static>,
    scene: &'static str,
    whole: &'static str,
    records: &'static str,
}

impl Run {
    // Reports the scene to two devices, one of which fails at its first call, then at its second, and so on until the
    // report is complete. Returns how many calls could fail. Each device must have a prefix, and the fault must name
    // the device that failed.
    fn count(&self, alloc: Global, is_store: bool, failure: Failure) -> Result<usize, Fail> {
        for number in 0..1000 {
            let (calls, store_calls) = if is_store {
                (usize::MAX, number)
            } else {
                (number, usize::MAX)
            };
            let (outcome, device, store) = report_and_store(
                alloc,
                &self.options,
                self.scene.as_bytes(),
                Device::failing_at(alloc, calls, failure),
                Device::failing_at(alloc, store_calls, failure),
            );
            let (taken, stored) = (device.taken(), store.taken());
            let (whole, records) = (self.whole.as_bytes(), self.records.as_bytes());
            let is_right = match outcome {
                Ok(()) if taken == whole && stored == records => return Ok(number),
                Ok(()) => return Err(Fail::from("a text is not whole")),
                Err(Fault::StoreFailed) => is_store,
                Err(Fault::WriteFailed) => !is_store,
                Err(_) => false,
            };
            if !is_right || !whole.starts_with(taken) || !records.starts_with(stored) {
                return Err(Fail::from("no beginning of both texts, or another fault"));
            }
        }
        Err(Fail::from("every device failed"))
    }
}

// Scenes, with the number of writes, of seven bytes each, and of flushes that the report takes, and those that the
// records take. With records each call flushes its text; without, the report is flushed once, at the end.
fn rows() -> [(Run, [usize; 2], [usize; 2]); 5] {
    let two_tests = Run {
        options: STORING,
        scene: TWO_TESTS,
        whole: OF_TWO_TESTS,
        records: STORED_OF_TWO_TESTS,
    };
    let unstored = Run {
        options: OPTIONS,
        scene: TWO_TESTS,
        whole: OF_TWO_TESTS,
        records: "",
    };
    let cancelled = Run {
        options: STORING,
        scene: CANCELLED,
        whole: OF_CANCELLED,
        records: "1:a,2:t1,4:FAIL,0:,\n",
    };
    let asked = Run {
        options: OPTIONS,
        scene: ASKED,
        whole: OF_ASKED,
        records: "",
    };
    let done = Run {
        options: STORING,
        scene: DONE,
        whole: "        PASS [   0.005s] alpha t1\n",
        records: "5:alpha,2:t1,4:PASS,0:,\n",
    };
    [
        (two_tests, [48, 4], [9, 4]),
        (unstored, [47, 1], [0, 0]),
        (cancelled, [33, 4], [3, 4]),
        (asked, [12, 1], [0, 0]),
        (done, [5, 1], [4, 1]),
    ]
}

#[test]
fn each_write_of_either_device_fails_once(rt: HostRuntime) -> Result<(), Fail> {
    let alloc = rt.alloc();
    for (run, [writes, flushes], [stores, store_flushes]) in rows() {
        for (is_store, failure, want) in [
            (false, Failure::NothingTaken, writes),
            (false, Failure::Error, writes.saturating_add(flushes)),
            (true, Failure::NothingTaken, stores),
            (true, Failure::Error, stores.saturating_add(store_flushes)),
        ] {
            expect_row(&rt, run.count(alloc, is_store, failure)? == want, run.scene);
        }
    }
    Ok(())
}
