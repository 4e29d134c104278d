//! References as a scene writes them, and the streams that they name.

pub mod sources;

use crate::testing::{expect_bytes, expect_count, expect_row, expect_text};
use recorded::{LoadFault, Metered, ReadAt, RecordedOutputs, Source};
use scene_fields::reference::{Reference, read_reference};
use sources::{Failing, Growing, Shortened};
use std::alloc::Global;
use std::fs::File;
use std::io::{Cursor, ErrorKind, Write};
use std::path::Path;
use std::process::Abort;
use std::test::Fail;
use std::{env, fs, io, process};

// Two streams.
const OUTPUTS: &[u8] = b"passed\nfailed\n";

// References to these: to the first, to the second, to both, and to no byte, at the start and at the end.
const STREAMS: [(&str, &[u8]); 5] = [
    ("\\@0:7:62cd0a585dc2fe91", b"passed\n"),
    ("\\@7:7:ee2a98c236301c76", b"failed\n"),
    ("\\@0:14:1f5c9955d83970a4", b"passed\nfailed\n"),
    ("\\@0:0:d1fba762150c532c", b""),
    ("\\@14:0:d1fba762150c532c", b""),
];

// References that end beyond the outputs.
const PAST_END: [&str; 5] = [
    "\\@8:7:ee2a98c236301c76",
    "\\@15:0:d1fba762150c532c",
    "\\@0:18446744073709551615:d1fba762150c532c",
    "\\@18446744073709551615:1:d1fba762150c532c",
    "\\@18446744073709551615:18446744073709551615:d1fba762150c532c",
];

// References to bytes that have another sum.
const WRONG_SUM: &[&str] = &[
    "\\@7:7:62cd0a585dc2fe91",
    "\\@1:7:62cd0a585dc2fe91",
    "\\@0:7:62cd0a585dc2fe92",
    "\\@0:0:62cd0a585dc2fe91",
];

// The reference in a field.
fn reference(field: &str) -> Result<Reference, Fail> {
    Ok(read_reference(field).ok_or("a reference")?)
}

#[test]
fn reads_references(rt: HostRuntime) -> Result<(), Fail> {
    for (field, offset, len, sum) in [
        (STREAMS[0].0, 0, 7, b"\x62\xcd\x0a\x58\x5d\xc2\xfe\x91"),
        ("\\@0070:007:0000000000000000", 70, 7, &[0; 8]),
        (
            PAST_END[4],
            u64::MAX,
            usize::MAX,
            b"\xd1\xfb\xa7\x62\x15\x0c\x53\x2c",
        ),
    ] {
        let read = reference(field)?;
        expect_row(
            &rt,
            read.offset == offset && read.len == len && read.sum == *sum,
            field,
        );
    }
    Ok(())
}

#[test]
fn refuses_what_is_no_reference(rt: HostRuntime) {
    let fields = [
        "",
        "-",
        "passed",
        "\\",
        "\\@",
        "@0:0:d1fba762150c532c",
        " \\@0:0:d1fba762150c532c",
        "\\\\@0:0:d1fba762150c532c",
        "\\@0",
        "\\@0:0",
        "\\@0:0:",
        "\\@:0:d1fba762150c532c",
        "\\@0::d1fba762150c532c",
        "\\@+0:0:d1fba762150c532c",
        "\\@0:-0:d1fba762150c532c",
        "\\@0: 0:d1fba762150c532c",
        "\\@0x0:0:d1fba762150c532c",
        "\\@18446744073709551616:0:d1fba762150c532c",
        "\\@0:18446744073709551616:d1fba762150c532c",
        "\\@0:0:d1fba762150c532",
        "\\@0:0:d1fba762150c532c0",
        "\\@0:0:d1fba762150c532ce0",
        "\\@0:0:d1fba762150c532g",
        "\\@0:0:D41D8CD98F00B204E9800998ECF8427E",
        "\\@0:0:d1fba762150c532E",
        "\\@0:0:d1fba762150c532c:",
        "\\@0:0:d1fba762150c532c ",
        "\\@0:0:0:d1fba762150c532c",
    ];
    for field in fields {
        expect_row(&rt, read_reference(field).is_none(), field);
    }
}

// Checks a reference that can be loaded, and that its read bytes are counted.
fn expect_stream<O: ReadAt + Drop>(
    rt: &impl Abort,
    alloc: Global,
    outputs: &mut RecordedOutputs<O>,
    field: &str,
    stream: &[u8],
) -> Result<(), Fail> {
    let reference = reference(field)?;
    expect_row(rt, outputs.holds(&reference)?, field);
    let before = outputs.bytes_read();
    let loaded = outputs.load(alloc, &reference)?;
    expect_bytes(rt, loaded.as_slice(), stream, field);
    let read = outputs.bytes_read().saturating_sub(before);
    expect_count(rt, read, stream.len() as u64, field);
    Ok(())
}

// Checks a reference that cannot be loaded: of one beyond the end nothing is read, and of one with another sum all.
fn expect_no_stream<O: ReadAt + Drop>(
    rt: &impl Abort,
    alloc: Global,
    outputs: &mut RecordedOutputs<O>,
    field: &str,
    fault: LoadFault,
) -> Result<(), Fail> {
    let reference = reference(field)?;
    let before = outputs.bytes_read();
    let is_past = fault == LoadFault::PastEnd;
    expect_row(rt, outputs.holds(&reference)? != is_past, field);
    expect_row(
        rt,
        fault_of(alloc, outputs, &reference) == Some(fault),
        field,
    );
    let want = if is_past { 0 } else { reference.len as u64 };
    expect_count(rt, outputs.bytes_read().saturating_sub(before), want, field);
    Ok(())
}

// The results of loading each of these references from the outputs.
fn check_loads<O: ReadAt + Drop>(
    rt: &impl Abort,
    alloc: Global,
    outputs: &mut RecordedOutputs<O>,
) -> Result<(), Fail> {
    for (field, stream) in STREAMS {
        expect_stream(rt, alloc, outputs, field, stream)?;
    }
    for field in PAST_END {
        expect_no_stream(rt, alloc, outputs, field, LoadFault::PastEnd)?;
    }
    for &field in WRONG_SUM {
        expect_no_stream(rt, alloc, outputs, field, LoadFault::WrongSum)?;
    }
    Ok(())
}

// The fault of a load, if it has one.
fn fault_of<O: ReadAt + Drop>(
    alloc: Global,
    outputs: &mut RecordedOutputs<O>,
    reference: &Reference,
) -> Option<LoadFault> {
    outputs.load(alloc, reference).err()
}

#[test]
fn loads_from_memory(rt: HostRuntime) -> Result<(), Fail> {
    check_loads(
        &rt,
        rt.alloc(),
        &mut RecordedOutputs::new(Metered::new(OUTPUTS))?,
    )?;
    check_loads(
        &rt,
        rt.alloc(),
        &mut RecordedOutputs::new(Metered::new(Cursor::new(OUTPUTS)))?,
    )
}

#[test]
fn loads_from_a_file(rt: HostRuntime) -> Result<(), Fail> {
    let alloc = rt.alloc();
    let name = format!(in alloc; "norigully-outputs-{}", process::id(rt.process()))?;
    let path = env::temp_dir(&rt)?.join(alloc, name.as_str())?;
    let mut written = File::create(&rt, path.as_path())?;
    let file = File::open(&rt, path.as_path())?;
    // Both handles stay open while the file is removed from its folder.
    fs::remove_file(&rt, path.as_path())?;
    written.write_all(&OUTPUTS[..7])?;
    let mut outputs = RecordedOutputs::new(Metered::new(file))?;
    assert!(rt; !outputs.holds(&reference(STREAMS[1].0)?)?);
    written.write_all(&OUTPUTS[7..])?;
    check_loads(&rt, alloc, &mut outputs)?;
    // The file was cut, which only the read notices: the length is not requested again.
    written.set_len(9)?;
    let cut = fault_of(alloc, &mut outputs, &reference(STREAMS[1].0)?);
    let is_missed = cut == Some(LoadFault::CannotRead(ErrorKind::UnexpectedEof));
    expect_row(&rt, is_missed, "a file that was cut off");
    Ok(())
}

#[test]
fn a_file_that_gives_little_at_once_is_read_on(rt: HostRuntime) -> Result<(), Fail> {
    // Linux returns at most a page of this file per read.
    let mut file = File::open(&rt, Path::new("/proc/self/smaps"))?;
    let mut buffer = [0; 6_000];
    file.read_at(0, &mut buffer)?;
    assert!(rt; !buffer.contains(&0));
    Ok(())
}

#[test]
fn a_folder_gives_no_stream(rt: HostRuntime) -> Result<(), Fail> {
    let folder = File::open(&rt, env::temp_dir(&rt)?.as_path())?;
    let mut outputs = RecordedOutputs::new(Metered::new(folder))?;
    for field in [STREAMS[0].0, STREAMS[2].0, PAST_END[2], PAST_END[3]] {
        expect_row(
            &rt,
            outputs.load(rt.alloc(), &reference(field)?).is_err(),
            field,
        );
    }
    assert!(rt; outputs.bytes_read() == 0);
    Ok(())
}

#[test]
fn asks_anew_how_many_bytes_there_are(rt: HostRuntime) -> Result<(), Fail> {
    let mut outputs = RecordedOutputs::new(Metered::new(Growing::new(OUTPUTS, &[0, 7, 13, 14])))?;
    let [first, second] = [reference(STREAMS[0].0)?, reference(STREAMS[1].0)?];
    assert!(rt; outputs.holds(&first)?);
    // The first is known to be there by now, so the length is requested for the second alone.
    assert!(rt; outputs.holds(&first)? && !outputs.holds(&second)?);
    let (field, stream) = STREAMS[1];
    expect_bytes(
        &rt,
        outputs.load(rt.alloc(), &second)?.as_slice(),
        stream,
        field,
    );
    assert!(rt; outputs.holds(&first)? && outputs.holds(&second)?);
    Ok(())
}

// Makes outputs over a source that fails, and loads from them a stream that is not there, and one stream twice.
fn use_failing(
    alloc: Global,
    source: Failing<'_>,
    first: &Reference,
    past: &Reference,
) -> Result<u64, LoadFault> {
    let mut outputs = RecordedOutputs::new(Metered::new(source))?;
    outputs.holds(past)?;
    outputs.load(alloc, first)?;
    outputs.load(alloc, first)?;
    Ok(outputs.bytes_read())
}

#[test]
fn reports_each_call_that_fails(rt: HostRuntime) -> Result<(), Fail> {
    let [first, past] = [reference(STREAMS[0].0)?, reference(PAST_END[0])?];
    for (kind, row) in [
        (ErrorKind::Other, "other"),
        (ErrorKind::OutOfMemory, "out of memory"),
        (ErrorKind::Interrupted, "interrupted"),
    ] {
        // There are four calls: two requests for the length and two reads.
        for calls in 0..4 {
            let source = Failing::new(OUTPUTS, calls, kind);
            let used = use_failing(rt.alloc(), source, &first, &past);
            expect_row(&rt, used == Err(LoadFault::CannotRead(kind)), row);
        }
        let source = Failing::new(OUTPUTS, 4, kind);
        expect_row(
            &rt,
            use_failing(rt.alloc(), source, &first, &past) == Ok(14),
            row,
        );
    }
    Ok(())
}

#[test]
fn a_call_that_fails_leaves_the_outputs_as_they_were(rt: HostRuntime) -> Result<(), Fail> {
    let first = reference(STREAMS[0].0)?;
    let mut outputs = RecordedOutputs::new(Metered::new(Failing::once(
        OUTPUTS,
        1,
        ErrorKind::Other,
    )))?;
    assert!(rt; outputs.load(rt.alloc(), &first).is_err());
    assert!(rt; outputs.bytes_read() == 0);
    check_loads(&rt, rt.alloc(), &mut outputs)
}

#[test]
fn bytes_that_are_counted_and_missing_are_an_error(rt: HostRuntime) -> Result<(), Fail> {
    let (field, missing) = (
        STREAMS[0].0,
        LoadFault::CannotRead(ErrorKind::UnexpectedEof),
    );
    for there in 0..7 {
        let mut outputs = RecordedOutputs::new(Metered::new(Shortened::new(OUTPUTS, there)))?;
        let fault = fault_of(rt.alloc(), &mut outputs, &reference(field)?);
        expect_row(&rt, fault == Some(missing), field);
        expect_count(&rt, outputs.bytes_read(), 0, field);
    }
    Ok(())
}

#[test]
fn a_fault_has_its_words(rt: HostRuntime) -> Result<(), Fail> {
    let faults = [
        (
            LoadFault::CannotRead(ErrorKind::Other),
            "the outputs cannot be read",
        ),
        (LoadFault::PastEnd, "the output lies past the end"),
        (LoadFault::WrongSum, "the output has another sum"),
        (LoadFault::OutOfMemory, "out of memory"),
    ];
    for (fault, words) in faults {
        expect_text(&rt, fault.to_string(rt.alloc())?.as_str(), words);
    }
    Ok(())
}
