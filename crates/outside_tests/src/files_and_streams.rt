//! Each form once, and what the system answers where something is amiss.

use fz_outside::files::{FileRead, Files, MemFile, MemFiles};
use fz_outside::flaky::{Flaky, Schedule};
use fz_outside::real::{RealFiles, RealSink, RealSource};
use fz_outside::sink::{MemSink, Sink, put};
use fz_outside::source::{MemSource, Source, read_up_to};
use fz_outside::words::{ListStreams, Streams, Words};
use fz_outside::{Failed, FileFault};
use std::alloc::Global;
use std::fs::OpenFile;
use std::test::Fail;
use std::{fs, io};

fn on_schedule<T>(inner: T, failing: &[u64]) -> Flaky<'_, T> {
    Flaky {
        inner,
        piece: 2,
        schedule: Schedule {
            failing,
            calls: 0,
            faults: 0,
        },
    }
}

#[test]
fn draws_and_then_zeros(rt: HostRuntime) {
    let streams = ListStreams::new(&[7, 8]);
    let mut first = streams.stream(0, 0);
    assert!(rt; first.draw() == 7);
    let mut other = streams.stream(3, 9);
    for want in &[7u64, 8, 0, 0] {
        assert!(rt; other.draw() == *want);
    }
}

// Pieces of two bytes: the second call of each object fails, and the bytes go on where they stood.
const READS: [(Result<usize, Failed>, &str); 5] = [
    (Ok(2), "se"),
    (Err(Failed), "se"),
    (Ok(2), "ve"),
    (Ok(1), "ne"),
    (Ok(0), "ne"),
];

#[test]
fn a_source_that_fails_once(rt: HostRuntime) {
    let mut source = on_schedule(MemSource::new(b"seven"), &[1]);
    let mut buf = [0; 8];
    for (want, bytes) in &READS {
        assert!(rt; source.read(&mut buf) == *want);
        assert!(rt; &buf[..2] == bytes.as_bytes());
    }
    assert!(rt; source.schedule.faults == 1);
}

const PUTS: [(Result<(), Failed>, &str); 3] = [
    (Err(Failed), "se"),
    (Ok(()), "seseven"),
    (Err(Failed), "sesevense"),
];

#[test]
fn a_sink_that_fails_once(rt: HostRuntime) -> Result<(), Fail> {
    let mut sink = on_schedule(MemSink::<9>::new(rt.alloc())?, &[1]);
    for (want, bytes) in &PUTS {
        assert!(rt; put(&mut sink, b"seven") == *want);
        assert!(rt; sink.inner.bytes() == bytes.as_bytes());
    }
    Ok(())
}

// A name, what a read of it answers, and how many bytes.
type Row<'a> = (&'a str, (&'a str, usize));

fn outcome(read: &Result<FileRead, FileFault>) -> (&'static str, usize) {
    match read {
        Ok(FileRead::Absent) => ("absent", 0),
        Ok(FileRead::TooLong) => ("too long", 0),
        Ok(FileRead::Bytes(bytes)) => ("bytes", bytes.len()),
        Err(FileFault::Failed) => ("failed", 0),
        Err(FileFault::NoMemory) => ("no memory", 0),
    }
}

fn reads<F: Files>(alloc: Global, files: &mut F, rows: &[Row<'_>]) -> bool {
    for (name, want) in rows {
        if outcome(&files.read(alloc, name)) != *want {
            return false;
        }
    }
    true
}

const IN_MEMORY: [Row<'static>; 4] = [
    ("a", ("bytes", 3)),
    ("c", ("absent", 0)),
    ("b", ("failed", 0)),
    ("b", ("bytes", 0)),
];

#[test]
fn files_in_memory(rt: HostRuntime) {
    let table = [
        MemFile {
            name: "a",
            bytes: b"one",
        },
        MemFile {
            name: "b",
            bytes: b"",
        },
        MemFile {
            name: "a",
            bytes: b"two!",
        },
    ];
    let mut files = on_schedule(MemFiles::new(&table), &[2]);
    assert!(rt; reads(rt.alloc(), &mut files, &IN_MEMORY));
}

// A file of the greatest length is read, and one that is a byte longer is not. A name that isn't there and a path
// through a file are absent; a folder, an empty name and a file that can't be read are faults.
const OF_THE_SYSTEM: [Row<'static>; 9] = [
    ("outside_test/none", ("absent", 0)),
    ("outside_test/limit", ("bytes", 67_108_864)),
    ("outside_test/longer", ("too long", 0)),
    ("outside_test/limit/x", ("absent", 0)),
    ("outside_test/none/x", ("absent", 0)),
    ("outside_test", ("failed", 0)),
    ("outside_test/", ("failed", 0)),
    ("outside_test/a\0b", ("failed", 0)),
    ("/proc/self/mem", ("failed", 0)),
];

#[test]
fn files_of_the_system(rt: HostRuntime) -> Result<(), Fail> {
    fs::create_dir_all(&rt, "outside_test")?;
    fs::create(&rt, "outside_test/limit")?.set_len(67_108_864)?;
    fs::create(&rt, "outside_test/longer")?.set_len(67_108_865)?;
    assert!(rt; reads(rt.alloc(), &mut RealFiles::new(&rt), &OF_THE_SYSTEM));
    fs::remove_dir_all(&rt, "outside_test")?;
    Ok(())
}

// What is written to a file is read from it.
#[test]
fn reader_and_writer_of_the_system(rt: HostRuntime) -> Result<(), Fail> {
    let mut sink = RealSink::new(fs::create(&rt, "outside_test_bytes")?);
    assert!(rt; put(&mut sink, b"seven") == Ok(()));
    let mut source = RealSource::new(fs::open(&rt, "outside_test_bytes")?);
    let read = read_up_to(rt.alloc(), &mut source, 4)
        .ok()
        .expect(&rt, "four bytes");
    assert!(rt; read.as_slice() == b"seve".as_slice());
    fs::remove_file(&rt, "outside_test_bytes")?;
    Ok(())
}

// Nothing can be written to a full device.
#[test]
fn devices_of_the_system(rt: HostRuntime) -> Result<(), Fail> {
    assert!(rt; put(&mut RealSink::new(io::writer(&rt)), b"seven\n") == Ok(()));
    let full = fs::OpenOptions::new().write(true).open(&rt, "/dev/full")?;
    assert!(rt; put(&mut RealSink::new(full), b"seven") == Err(Failed));
    Ok(())
}

fn read_of<S: Source>(source: &mut S) -> Result<usize, Failed> {
    let mut buf = [0; 8];
    source.read(&mut buf)
}

// An error of the system is no end of input and no written piece: a folder, a file that is open for the other way,
// and a pipe whose reader has gone.
#[test]
fn a_folder_is_no_input(rt: HostRuntime) -> Result<(), Fail> {
    fs::create_dir_all(&rt, "outside_test_folder")?;
    let mut folder = RealSource::new(fs::open(&rt, "outside_test_folder")?);
    assert!(rt; read_of(&mut folder) == Err(Failed));
    assert!(rt; read_of(&mut folder) == Err(Failed));
    fs::remove_dir_all(&rt, "outside_test_folder")?;
    Ok(())
}

#[test]
fn files_that_are_open_for_the_other_way(rt: HostRuntime) -> Result<(), Fail> {
    let mut writer = RealSource::new(fs::create(&rt, "outside_test_ways")?);
    assert!(rt; read_of(&mut writer) == Err(Failed));
    let mut reader = RealSink::new(fs::open(&rt, "outside_test_ways")?);
    assert!(rt; reader.write(b"seven") == Err(Failed));
    fs::remove_file(&rt, "outside_test_ways")?;
    Ok(())
}

#[test]
fn a_pipe_without_a_reader(rt: HostRuntime) -> Result<(), Fail> {
    let (reader, writer) = io::pipe(&rt)?;
    drop(reader);
    let mut broken = RealSink::new(writer);
    assert!(rt; broken.write(b"seven") == Err(Failed));
    assert!(rt; broken.write(b"seven") == Err(Failed));
    Ok(())
}

// A pipe whose writer has gone has ended.
#[test]
fn a_pipe_without_a_writer(rt: HostRuntime) -> Result<(), Fail> {
    let (reader, writer) = io::pipe(&rt)?;
    assert!(rt; RealSink::new(writer).write(b"seven") == Ok(5));
    let mut ended = RealSource::new(reader);
    assert!(rt; read_of(&mut ended) == Ok(5));
    assert!(rt; read_of(&mut ended) == Ok(0));
    Ok(())
}
