//! A C library: it takes the bytes of a scene and gives the bytes of its report.
//!
//! `bindings/norigully.h` declares its function in C, and `bindings/norigully.rs` wraps it for Rust.
#![tactic(auto)]

ghost use Rattle.std.specs.Prelude.{◌≡◌, ◌≢◌, ◌↔◌, ◌≤◌, None};
ghost use Rattle.report_c.specs.Reported.{IsTooLong, IsWritten, IsFaultOfLine, level_numbered, outcome_of_fault};

mod report;

use command_line::fault::Fault;
use report::{options_of, report_of};
use std::alloc::Global;

/// How the report of a scene is shown.
#[repr(C)]
#[derive(Clone, Copy)]
pub struct NorigullyOptions {
    /// Whether the report has colours.
    pub should_colorize: bool,
    /// Whether each line of a test has a counter.
    pub show_counter: bool,
    /// Whether the report is one of a recorded run that is replayed.
    pub is_replay: bool,
    /// The status level from which on the lines of tests are shown: 0 none, 1 fail, 2 retry, 3 slow, 4 leak, 5 pass,
    /// 6 skip, 7 all.
    pub status_level: u32,
}

/// The result of `norigully_report`.
#[repr(C)]
#[derive(Clone, Copy)]
pub struct NorigullyOutcome {
    /// The length of the report in bytes if the status is 0 or 1, and otherwise 0.
    pub length: usize,
    /// The number of the wrong line, from 1, if the status is 2, and otherwise 0.
    pub line: u64,
    /// 0 if the report is in the buffer. Otherwise 1 if the report is longer than the buffer, 2 if a line of the
    /// scene is wrong, 3 if memory was refused, and 4 if there is no such status level.
    pub status: u32,
}

const WRITTEN: u32 = 0;

const TOO_LONG: u32 = 1;

const WRONG_LINE: u32 = 2;

const OUT_OF_MEMORY: u32 = 3;

const UNKNOWN_LEVEL: u32 = 4;

/// Writes the report of a scene to the front of a buffer. The whole scene is checked before a byte is written. If the
/// status is not 0, the buffer is unchanged.
///
/// The length of a scene does not bound that of its report. A caller starts with a buffer of some size. If the status
/// is 1, it calls again with a buffer of `length` bytes.
///
/// ```
/// let options = NorigullyOptions { should_colorize: false, show_counter: false, is_replay: false, status_level: 5 };
/// let outcome = norigully_report(alloc, &options, b"\nboom\n", &mut [0; 80]);
/// assert_eq!((outcome.status, outcome.line), (2, 2));
/// ```
#[unsafe(no_mangle)]
pub extern "C" fn norigully_report(
    alloc: Global,
    options: &NorigullyOptions,
    scene: &[u8],
    out: &mut [u8],
) -> NorigullyOutcome
    // The buffer begins with the report of exactly the run that the text spells. The rest of it is unchanged.
    ensures report { result.status ≡ 0 → IsWritten options.now scene.now out.old out.new result.length }
    // The report of that run has more bytes than the buffer.
    ensures too_long { result.status ≡ 1 → IsTooLong options.now scene.now out.old result.length }
    // The line is the first one of the text that is malformed, or that of the first event that a reporter refuses.
    ensures line { result.status ≡ 2 → IsFaultOfLine options.now scene.now result.line }
    // The status is 4 if and only if there is no such status level.
    ensures level { (result.status ≡ 4) ↔ (level_numbered options.now.status_level ≡ None) }
    ensures fault { result.status ≤ 4 }
    ensures untouched { result.status ≢ 0 → out.new ≡ out.old }
    ensures no_line { result.status ≢ 2 → result.line ≡ 0 }
    ensures no_length { 2 ≤ result.status → result.length ≡ 0 }
{
    let Some(options) = options_of(options) else {
        return failed(UNKNOWN_LEVEL, 0);
    };
    let report = match report_of(alloc, &options, scene) {
        Ok(report) => report,
        Err(fault) => return outcome_of_fault(&fault),
    };
    let length = report.len();
    let status = if length <= out.len() {
        out[..length].copy_from_slice(report.as_bytes());
        WRITTEN
    } else {
        TOO_LONG
    };
    NorigullyOutcome {
        length,
        line: 0,
        status,
    }
}

// The outcome of a scene with this fault. A report in memory can only fail for a wrong line or refused memory.
fn outcome_of_fault(fault: &Fault<'_>) -> NorigullyOutcome
    ensures { result ≡ outcome_of_fault fault.now }
{
    match fault {
        Fault::Line { line, .. } => failed(WRONG_LINE, *line),
        _ => failed(OUT_OF_MEMORY, 0),
    }
}

// An outcome without a report.
fn failed(status: u32, line: u64) -> NorigullyOutcome
    ensures status { result.status ≡ status }
    ensures line { result.line ≡ line }
    ensures length { result.length ≡ 0 }
{
    NorigullyOutcome {
        length: 0,
        line,
        status,
    }
}
