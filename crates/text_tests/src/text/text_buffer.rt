//! Devices that fail, at each of their calls and with errors of each kind, or whose calls are interrupted.

use crate::testing::{expect_row, expect_text};
use std::alloc::Global;
use std::io::{ErrorKind, Write};
use std::test::Fail;
use test_devices::{BYTES_AT_ONCE, Device, Failure};
use writers::write_str::{CAPACITY, RetryInterrupted, TextBuffer, WriteFault, WriteStr};

const TEXT: &str = "a text of several writes";

// Errors of a device. Elsewhere some of them mean that a call is repeated, or that memory was refused; here all are
// failures.
const KINDS: [ErrorKind; 7] = [
    ErrorKind::Interrupted,
    ErrorKind::WouldBlock,
    ErrorKind::TimedOut,
    ErrorKind::OutOfMemory,
    ErrorKind::BrokenPipe,
    ErrorKind::StorageFull,
    ErrorKind::Other,
];

// Writes and flushes over a device, and returns the result, what the device took and how many bytes are pending.
fn deliver<W: Write + Drop>(
    alloc: Global,
    device: W,
    text: &str,
) -> Result<(W, Result<(), WriteFault>, usize), Fail> {
    let Ok(mut buffer) = TextBuffer::new(alloc, device) else {
        return Err(Fail::from("memory was refused"));
    };
    let outcome = write_and_flush(&mut buffer, text);
    let (device, pending) = buffer.into_inner();
    Ok((device, outcome, pending.len()))
}

fn write_and_flush<W: WriteStr>(w: &mut W, text: &str) -> Result<(), WriteFault> {
    w.write_str(text)?;
    w.write_str_flush()
}

// Whether the error of a failed write is reported, after the device took the text of the writes before it.
fn is_failed_write(
    alloc: Global,
    kind: ErrorKind,
    call: usize,
    failure: Failure,
) -> Result<bool, Fail> {
    let device = Device::failing_at(alloc, call, failure).with_kind(kind);
    let (device, outcome, pending) = deliver(alloc, device, TEXT)?;
    let taken = device.taken();
    let is_front = TEXT.as_bytes().starts_with(taken)
        && taken.len() == call.saturating_mul(BYTES_AT_ONCE)
        && taken.len().saturating_add(pending) == TEXT.len();
    Ok(outcome == Err(WriteFault::Device) && is_front)
}

#[test]
fn a_write_that_fails_is_a_failure_of_the_device(rt: HostRuntime) -> Result<(), Fail> {
    let alloc = rt.alloc();
    for kind in KINDS {
        for call in 0..TEXT.len().div_ceil(BYTES_AT_ONCE) {
            for failure in [Failure::Error, Failure::NothingTaken] {
                expect_row(&rt, is_failed_write(alloc, kind, call, failure)?, call);
            }
        }
    }
    Ok(())
}

// Whether the error of a failed flush is reported, after the device took the text.
fn is_failed_flush(alloc: Global, kind: ErrorKind, text: &str) -> Result<bool, Fail> {
    let device = Device::failing_at(alloc, 0, Failure::FlushError).with_kind(kind);
    let (device, outcome, pending) = deliver(alloc, device, text)?;
    Ok(outcome == Err(WriteFault::Device) && device.taken() == text.as_bytes() && pending == 0)
}

#[test]
fn a_flush_that_fails_is_a_failure_of_the_device(rt: HostRuntime) -> Result<(), Fail> {
    let alloc = rt.alloc();
    for (row, kind) in KINDS.iter().enumerate() {
        expect_row(&rt, is_failed_flush(alloc, *kind, TEXT)?, row);
        // A flush reaches the device even if nothing is pending: earlier writes may not be flushed yet.
        expect_row(&rt, is_failed_flush(alloc, *kind, "")?, row);
    }
    Ok(())
}

#[test]
fn a_device_that_fails_once_is_written_on(rt: HostRuntime) -> Result<(), Fail> {
    let mut buffer = TextBuffer::new(rt.alloc(), Device::interrupted(rt.alloc(), 1))?;
    buffer.write_str(TEXT)?;
    // Each write of the device is interrupted once, and so is its flush.
    for call in 0..=TEXT.len().div_ceil(BYTES_AT_ONCE) {
        let flushed = buffer.write_str_flush();
        expect_row(&rt, flushed == Err(WriteFault::Device), call);
    }
    assert!(rt; buffer.write_str_flush() == Ok(()));
    let (device, pending) = buffer.into_inner();
    assert!(rt; device.taken() == TEXT.as_bytes() && pending.is_empty());
    Ok(())
}

// Whether a text is delivered to a device that interrupts each call this many times.
fn is_made_again(alloc: Global, times: usize) -> Result<bool, Fail> {
    let device = RetryInterrupted::new(Device::interrupted(alloc, times));
    let (device, outcome, pending) = deliver(alloc, device, TEXT)?;
    let mut device = device.into_inner();
    // The flush was repeated until it succeeded, so the next flush is interrupted again.
    let is_flushed = device.flush().is_err() == (times > 0);
    Ok(outcome == Ok(()) && pending == 0 && device.taken() == TEXT.as_bytes() && is_flushed)
}

#[test]
fn a_call_that_is_interrupted_is_made_again(rt: HostRuntime) -> Result<(), Fail> {
    for times in [0, 1, 2, 100] {
        expect_row(&rt, is_made_again(rt.alloc(), times)?, times);
    }
    Ok(())
}

// Whether the errors of a device's second write and of its flush are of this kind.
fn is_returned(alloc: Global, kind: ErrorKind) -> bool {
    let device = Device::failing_at(alloc, 1, Failure::Error).with_kind(kind);
    let mut device = RetryInterrupted::new(device);
    let first = device.write(TEXT.as_bytes());
    let (write, flush) = (device.write(b"text"), device.flush());
    first.ok() == Some(BYTES_AT_ONCE)
        && write.is_err_and(|error| error.kind() == kind)
        && flush.is_err_and(|error| error.kind() == kind)
}

#[test]
fn no_other_result_of_a_device_is_changed(rt: HostRuntime) -> Result<(), Fail> {
    let alloc = rt.alloc();
    for (row, kind) in KINDS.iter().enumerate() {
        if *kind != ErrorKind::Interrupted {
            expect_row(&rt, is_returned(alloc, *kind), row);
        }
    }
    let mut device = RetryInterrupted::new(Device::failing_at(alloc, 0, Failure::NothingTaken));
    assert_eq!(rt; device.write(b"text").ok(), Some(0));
    Ok(())
}

#[test]
fn many_texts_and_large_ones_are_delivered(rt: HostRuntime) -> Result<(), Fail> {
    let alloc = rt.alloc();
    let large = "0123456789abcdef".repeat(alloc, 1 << 20)?;
    let mut buffer = TextBuffer::new(alloc, Vec::new(alloc))?;
    // Each small text is delivered by itself.
    for _ in 0..5 * CAPACITY {
        buffer.write_str("x")?;
        buffer.write_str_flush()?;
    }
    buffer.write_str(large.as_str())?;
    buffer.write_str_flush()?;
    let (device, _) = buffer.into_inner();
    let Some(small) = device.as_slice().strip_suffix(large.as_bytes()) else {
        return Err(Fail::from("the large text was not delivered"));
    };
    assert!(rt; small.len() == 5 * CAPACITY && small.iter().all(|byte| *byte == b'x'));
    Ok(())
}

#[test]
fn a_fault_has_words(rt: HostRuntime) -> Result<(), Fail> {
    for (fault, words) in [
        (WriteFault::Device, "the device failed"),
        (WriteFault::Memory, "out of memory"),
    ] {
        expect_text(&rt, fault.to_string(rt.alloc())?.as_str(), words);
    }
    Ok(())
}
