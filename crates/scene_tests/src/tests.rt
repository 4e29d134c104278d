//! What the programs do, over scenes and writers in memory.

use self::pieces::push_often;
use crate::testing::{expect_row, expect_text};
use command_line::args::{Options, StoreOptions, words};
use command_line::fault::{Fault, FaultLine, LineFault, ReportProgram};
use run_model::level::StatusLevel;
use scene_follower::follow::{RunOutcome, follow_scene};
use scenes::report::{judge, report_scene, write_report};
use std::alloc::{AllocError, Global};
use std::io::{ErrorKind, Read, Write};
use std::process::Abort;
use std::test::Fail;
use std::{io, mem};
use store_text::config::StoreConfig;
use test_devices::Device;
use test_devices::scenes::{END, OF_TWO_TESTS, STORED_OF_TWO_TESTS, TWO_TESTS};

mod growths;
mod pieces;
mod stores;

const OPTIONS: Options<'static> = Options {
    should_colorize: false,
    show_counter: false,
    is_replay: false,
    unload_skipped: false,
    status_level: StatusLevel::Pass,
    store: None,
    file: "FILE",
    is_last: false,
};

const IN_COLOUR: Options<'static> = Options {
    should_colorize: true,
    ..OPTIONS
};

// Records without outputs.
const STORING: Options<'static> = Options {
    store: Some(StoreOptions {
        file: "out",
        config: StoreConfig {
            store_success_output: false,
            store_failure_output: false,
        },
    }),
    ..OPTIONS
};

// The texts, as the words of a command line.
fn words_of(alloc: Global, texts: &[&str]) -> Result<Vec<String>, Fail> {
    let mut args = Vec::with_capacity(alloc, texts.len())?;
    for text in texts {
        args.push(String::from_str(alloc, text)?)?;
    }
    Ok(args)
}

// Reports a scene, and stores its records if the options ask for them. It has no contract, so that the proof of a test
// does not have to carry that of `report_scene` for each call.
fn report_and_store<R: Read + Drop, W: Write, S: Write>(
    alloc: Global,
    options: &Options<'static>,
    reader: R,
    writer: W,
    mut store_writer: S,
) -> (Result<(), Fault<'static>>, W, S) {
    let lent = &mut store_writer;
    let (outcome, writer, _) = report_scene(alloc, options, reader, writer, |_| Ok(lent));
    (outcome, writer, store_writer)
}

// Reads and checks a scene, and writes its report and its records to these devices. The scene is not dropped: its drop
// would be proved once more here.
fn judge_and_write(
    alloc: Global,
    options: &Options<'static>,
    text: &str,
    device: &mut Device,
    store: &mut Device,
) -> Result<(), Fault<'static>> {
    let scene = judge(alloc, options, text.as_bytes())?;
    let outcome = write_report(alloc, options, &scene, device, store);
    mem::forget(scene);
    outcome
}

// Why a scene is not accepted, if it is not.
fn fault_of_judging<R: Read + Drop>(alloc: Global, reader: R) -> Option<Fault<'static>> {
    match judge(alloc, &OPTIONS, reader) {
        Ok(scene) => {
            mem::forget(scene);
            None
        }
        Err(fault) => Some(fault),
    }
}

// The fault has this status and this line.
fn expect_fault(
    rt: &impl Abort,
    alloc: Global,
    fault: &Fault<'_>,
    status: u8,
    line: &str,
) -> Result<(), Fail> {
    expect_text(rt, fault.to_string(alloc)?.as_str(), line);
    expect_row(rt, fault.status() == status, line);
    Ok(())
}

#[test]
fn writes_the_report_and_stops_where_the_device_fails(rt: HostRuntime) -> Result<(), Fail> {
    let alloc = rt.alloc();
    // The devices are lent, which the contract of `write_report` does not cover.
    let (mut roomy, mut store) = (
        Device::with_room(alloc, 600)?,
        Device::with_room(alloc, 600)?,
    );
    assert!(rt; judge_and_write(alloc, &STORING, TWO_TESTS, &mut roomy, &mut store).is_ok());
    assert!(rt; roomy.taken() == OF_TWO_TESTS.as_bytes());
    assert!(rt; store.taken() == STORED_OF_TWO_TESTS.as_bytes());
    let (mut device, mut unstored) = (Device::with_room(alloc, 10)?, Device::with_room(alloc, 10)?);
    let Err(fault) = judge_and_write(alloc, &STORING, TWO_TESTS, &mut device, &mut unstored) else {
        return Err(Fail::from("the device failed"));
    };
    expect_fault(&rt, alloc, &fault, 3, "report: write failed")?;
    assert!(rt; device.taken() == b"----------".as_slice() && unstored.taken().is_empty());
    Ok(())
}

// A reader that gives at most seven bytes a read, and fails after some reads.
#[derive(Drop)]
struct Failing<'a> {
    text: &'a [u8],
    reads_before: usize,
    kind: ErrorKind,
}

impl Read for Failing<'_> {
    fn read(&mut self, buf: &mut [u8]) -> io::Result<usize> {
        if self.reads_before == 0 {
            return Err(io::Error::from(self.kind));
        }
        self.reads_before -= 1;
        let n = buf.len().min(self.text.len()).min(7);
        let (front, rest) = self.text.split_at(n);
        buf[..n].copy_from_slice(front);
        self.text = rest;
        Ok(n)
    }
}

// A reader that gives one byte a read, and is interrupted before each.
#[derive(Drop)]
struct Interrupted<'a> {
    text: &'a [u8],
    is_next: bool,
}

impl Read for Interrupted<'_> {
    fn read(&mut self, buf: &mut [u8]) -> io::Result<usize> {
        self.is_next = !self.is_next;
        if self.is_next {
            return Err(io::Error::from(ErrorKind::Interrupted));
        }
        let n = buf.len().min(self.text.len()).min(1);
        let (front, rest) = self.text.split_at(n);
        buf[..n].copy_from_slice(front);
        self.text = rest;
        Ok(n)
    }
}

// Follows a scene. Like `report_and_store`, it has no contract.
fn follow<R: Read + Drop, W: Write>(
    alloc: Global,
    reader: R,
    writer: W,
) -> (Result<RunOutcome, Fault<'static>>, W) {
    let (outcome, writer, _) = follow_scene(alloc, &OPTIONS, reader, writer, io::sink());
    (outcome, writer)
}

// How often a loop turns: more often than 16 bits can count.
const MANY: usize = 70_000;

// `TWO_TESTS`, with a comment of MANY bytes, a skipped test, and MANY empty lines before and after that. The report
// shows none of these.
fn behind_many_lines(alloc: Global) -> Result<String, AllocError> {
    let (config, run) = TWO_TESTS.split_at("config\tfinal\tfail\n".len());
    let mut text = String::from_str(alloc, config)?;
    push_often(&mut text, "#", MANY)?;
    push_often(&mut text, "\n", MANY)?;
    text.push_str("skip\t-\ta\tt1")?;
    push_often(&mut text, "\n", MANY)?;
    text.push_str(run)?;
    Ok(text)
}

#[test]
fn reads_on_after_an_interrupt(rt: HostRuntime) -> Result<(), Fail> {
    let alloc = rt.alloc();
    let text = behind_many_lines(alloc)?;
    let reader = || Interrupted {
        text: text.as_bytes(),
        is_next: false,
    };
    let (outcome, printed, _) = report_and_store(
        alloc,
        &OPTIONS,
        reader(),
        Vec::new(alloc),
        Vec::new(alloc),
    );
    outcome?;
    let (outcome, followed) = follow(alloc, reader(), Vec::new(alloc));
    assert!(rt; outcome? == RunOutcome::Failed);
    let report = OF_TWO_TESTS.as_bytes();
    assert!(rt; printed.as_slice() == report && followed.as_slice() == report);
    Ok(())
}

#[test]
fn reports_why_a_file_is_not_read(rt: HostRuntime) -> Result<(), Fail> {
    let alloc = rt.alloc();
    // The last line has no line feed.
    let text = END.trim_end().as_bytes();
    let kinds = [
        (ErrorKind::Other, "report: cannot read FILE", 2),
        (ErrorKind::WouldBlock, "report: cannot read FILE", 2),
        (ErrorKind::OutOfMemory, "report: out of memory", 3),
    ];
    for (kind, line, status) in kinds {
        for reads_before in 0..14 {
            let reader = || Failing {
                text,
                reads_before,
                kind,
            };
            let texts = (Vec::new(alloc), Vec::new(alloc));
            let (outcome, printed, stored) = report_and_store(
                alloc,
                &STORING,
                reader(),
                texts.0,
                texts.1,
            );
            let judged = fault_of_judging(alloc, reader());
            let followed = follow(alloc, reader(), Vec::new(alloc)).0;
            // The read after the last byte returns 0, and is the last one.
            let is_read = reads_before > text.len().div_ceil(7);
            expect_row(&rt, outcome.is_ok() == is_read, line);
            expect_row(&rt, judged.is_none() == is_read, line);
            expect_row(&rt, followed.is_ok() == is_read, line);
            for fault in [outcome.err(), judged, followed.err()]
                .into_iter()
                .flatten()
            {
                expect_fault(&rt, alloc, &fault, status, line)?;
                expect_row(&rt, printed.is_empty() && stored.is_empty(), line);
            }
        }
    }
    Ok(())
}

// Records in a file, and which outputs they have.
const fn keeping(
    file: &'static str,
    store_success_output: bool,
    store_failure_output: bool,
) -> Option<StoreOptions<'static>> {
    Some(StoreOptions {
        file,
        config: StoreConfig {
            store_success_output,
            store_failure_output,
        },
    })
}

// Every option without a value, and a level.
const ALL: Options<'static> = Options {
    show_counter: true,
    is_replay: true,
    unload_skipped: true,
    status_level: StatusLevel::Skip,
    ..IN_COLOUR
};

// The words of a command line, and the options that they are.
const WORDS: &[(&[&str], Options<'static>)] = &[
    (&["FILE"], OPTIONS),
    (&["--color", "FILE"], IN_COLOUR),
    (
        &["--color", "--color"],
        Options {
            file: "--color",
            ..IN_COLOUR
        },
    ),
    (
        &[
            "--level",
            "skip",
            "--color",
            "--counter",
            "--replay",
            "--unload",
            "FILE",
        ],
        ALL,
    ),
    (
        &[
            "--unload",
            "--replay",
            "--counter",
            "--color",
            "--level",
            "skip",
            "FILE",
        ],
        ALL,
    ),
    (
        &["--level", "none", "--level"],
        Options {
            status_level: StatusLevel::None,
            file: "--level",
            ..OPTIONS
        },
    ),
    (&["--store", "out", "FILE"], STORING),
];

#[test]
fn takes_options_in_any_order(rt: HostRuntime) -> Result<(), Fail> {
    for &(texts, options) in WORDS {
        let args = words_of(rt.alloc(), texts)?;
        assert!(rt; words(args.as_slice()) == Some(options));
    }
    Ok(())
}

#[test]
fn takes_options_of_the_store_in_any_order(rt: HostRuntime) -> Result<(), Fail> {
    let rows: [(&[&str], Options<'static>); 3] = [
        (
            &["--store", "--color", "--store"],
            Options {
                store: keeping("--color", false, false),
                file: "--store",
                ..OPTIONS
            },
        ),
        (
            &["--store-success", "--color", "--store", "", "FILE"],
            Options {
                store: keeping("", true, false),
                ..IN_COLOUR
            },
        ),
        (
            &[
                "--store",
                "out",
                "--store-failure",
                "--store-success",
                "FILE",
            ],
            Options {
                store: keeping("out", true, true),
                ..OPTIONS
            },
        ),
    ];
    for (texts, options) in rows {
        let args = words_of(rt.alloc(), texts)?;
        assert!(rt; words(args.as_slice()) == Some(options));
    }
    Ok(())
}

#[test]
fn reports_each_fault(rt: HostRuntime) -> Result<(), Fail> {
    let faults = [
        (
            Fault::Usage,
            2,
            "report: usage: report [--color] [--counter] [--replay] [--unload] \
             [--level L] [--store PATH] [--store-success] [--store-failure] FILE",
        ),
        (
            Fault::CannotRead { file: "a b" },
            2,
            "report: cannot read a b",
        ),
        (Fault::CannotWrite { file: "" }, 2, "report: cannot write "),
        (
            Fault::Line {
                line: 18446744073709551615,
                fault: LineFault::BadField(12),
            },
            2,
            "report: line 18446744073709551615: bad field 12",
        ),
        (Fault::WriteFailed, 3, "report: write failed"),
        (Fault::StoreFailed, 3, "report: store write failed"),
        (Fault::OutOfMemory, 3, "report: out of memory"),
    ];
    for (fault, status, line) in faults {
        expect_fault(&rt, rt.alloc(), &fault, status, line)?;
    }
    let follow = FaultLine {
        program: ReportProgram::Follow,
        fault: Fault::Usage,
    };
    expect_text(
        &rt,
        follow.to_string(rt.alloc())?.as_str(),
        "follow: usage: follow [--color] [--counter] [--replay] [--unload] \
             [--level L] [--store PATH] [--store-success] [--store-failure] [FILE]",
    );
    Ok(())
}

#[test]
fn reports_what_is_wrong_with_a_line(rt: HostRuntime) -> Result<(), Fail> {
    let faults = [
        (LineFault::NotUtf8, "line 3: not UTF-8"),
        (LineFault::UnknownEvent, "line 3: unknown event"),
        (LineFault::ConfigAfterEvent, "line 3: config after an event"),
        (
            LineFault::WrongNumberOfFields,
            "line 3: wrong number of fields",
        ),
        (
            LineFault::RetriedSuccess,
            "line 3: a retried attempt succeeded",
        ),
        (LineFault::OutputNotLoaded, "line 3: output not loaded"),
        (LineFault::BadField(0), "line 3: bad field 0"),
    ];
    for (fault, line) in faults {
        let shown = Fault::Line { line: 3, fault }.to_string(rt.alloc())?;
        expect_text(
            &rt,
            shown.as_str().strip_prefix("report: ").unwrap_or(""),
            line,
        );
    }
    Ok(())
}
