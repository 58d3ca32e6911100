//! Services over doors in memory.

ghost use Rattle.std.specs.Prelude.{◌≤◌, length};

use fz_outside::files::MemFiles;
use fz_outside::sink::MemSink;
use fz_outside::source::MemSource;
use memory_runs::doors::{DOORS, door_with, doors_behind};
use memory_runs::journals::empty_journals;
use memory_runs::{KEY, Status, TABLE, census_files, words_of};
use outside_doors::memory::MemDoors;
use outside_links::memory::MemLink;
use std::alloc::{AllocError, Global};
use std::sync::Wait;
use std::test::Fail;
use std::thread::Threads;

const ASK: &[u8] = b"hello ann\nask census 1 size people\nbye\n";

/// The replies to it, where its ask is number 0 or 1.
static REPLIES: [&[u8]; 2] = [
    b"hello ann\nanswer 0 5 1000000\nbye\n",
    b"hello ann\nanswer 1 3 1000000\nbye\n",
];

// How a service ends, what it leaves of its doors, what it writes to the sink, and what an audit says behind it.
#[derive(Drop)]
struct Outcome<'a> {
    status: Status,
    doors: Vec<MemDoors<'a>>,
    out: Vec<u8>,
    audit: Vec<u8>,
}

impl Outcome<'_> {
    // A connection that a door was handed back.
    fn link(&self, door: usize, place: usize) -> Option<&MemLink<'_>> {
        self.doors.get(door)?.served().get(place)
    }

    // What was written over it.
    fn written(&self, door: usize, place: usize) -> Option<&[u8]> {
        Some(self.link(door, place)?.written())
    }

    // How many connections a door was handed back.
    fn handed_back(&self, door: usize) -> usize {
        match self.doors.get(door) {
            Some(door) => door.served().len(),
            None => 0,
        }
    }

    // Whether a call of a door failed.
    fn has_failed(&self, door: usize) -> bool {
        match self.doors.get(door) {
            Some(door) => door.faults() > 0,
            None => false,
        }
    }
}

// A service by so many workers, of so many connections each, at these doors.
fn served<'a, R: Threads + Wait + Sync>(
    rt: &R,
    alloc: Global,
    workers: &str,
    each: &str,
    first: Vec<MemDoors<'a>>,
) -> Result<Outcome<'a>, AllocError>
    requires few { length first.items ≤ DOORS }
{
    let held = census_files(TABLE, "key", &KEY);
    let mut journals = empty_journals(alloc)?;
    journals.ran(rt, alloc, &["init", "cat.json", "key"], &held, b"")?;
    let words = words_of(
        alloc,
        &[
            "serve",
            "cat.json",
            "key",
            "--port",
            "7000",
            "--workers",
            workers,
            "--each",
            each,
        ],
    )?;
    let mut files = MemFiles::new(&held);
    let mut source = MemSource::new(b"");
    let mut sink = MemSink::<64>::new(alloc)?;
    let mut doors = doors_behind(alloc, first)?;
    let status = journals.ran_over(
        rt,
        alloc,
        &words,
        &mut files,
        &mut source,
        &mut sink,
        &mut doors,
    );
    let (_, audit) = journals.ran(rt, alloc, &["audit", "cat.json", "key"], &held, b"")?;
    Ok(Outcome {
        status,
        doors,
        out: sink.bytes().to_vec(alloc)?,
        audit,
    })
}

// Two workers serve a connection each, and ask the same owner: one ask is number 0, and the other is number 1.
#[test]
fn two_workers_serve(rt: HostRuntime) -> Result<(), Fail> {
    let alloc = rt.alloc();
    let doors = vec![in alloc;
        door_with(alloc, &[ASK], &[], &[])?,
        door_with(alloc, &[ASK], &[], &[])?,
    ]?;
    let outcome = served(&rt, alloc, "2", "1", doors)?;
    assert!(rt; outcome.status == Status::Done && outcome.out.is_empty());
    let first = outcome.written(0, 0);
    let second = outcome.written(1, 0);
    assert!(rt;
        (first == Some(REPLIES[0]) && second == Some(REPLIES[1]))
            || (first == Some(REPLIES[1]) && second == Some(REPLIES[0]))
    );
    assert!(rt;
        outcome.audit.as_slice()
            == b"census reservations 2 answered 2 exhausted 0 lost 0 spent 2000000 budget 10000000\n".as_slice()
    );
    Ok(())
}

// Workers, connections for each, how many come to the first door and to the second, which calls of the first door fail and which of
// the second; and how the service ends, what it writes to the sink, how many each door is handed back, and which door has failed.
type Ending<'a> = (
    (&'a str, &'a str),
    (usize, usize),
    (&'a [u64], &'a [u64]),
    (Status, &'a [u8]),
    (usize, usize),
    (bool, bool),
);

#[rattlefmt::skip]
static ENDINGS: [Ending<'static>; 9] = [
    (("1", "1"), (1, 0), (&[], &[]), (Status::Done, b""), (1, 0), (false, false)),
    // More than are wanted come, and to a door that nobody attends.
    (("1", "2"), (3, 1), (&[], &[]), (Status::Done, b""), (2, 0), (false, false)),
    (("2", "2"), (2, 2), (&[], &[]), (Status::Done, b""), (2, 2), (false, false)),
    // The port is another's.
    (("1", "1"), (1, 0), (&[0], &[]), (Status::Fault, b""), (0, 0), (true, false)),
    // One worker's is: the other one goes on to its end.
    (("2", "2"), (2, 2), (&[], &[0]), (Status::Fault, b""), (2, 0), (false, true)),
    (("2", "2"), (2, 2), (&[0], &[]), (Status::Fault, b""), (0, 2), (true, false)),
    // A connection doesn't come, by a fault or since there is none.
    (("1", "2"), (2, 0), (&[2], &[]), (Status::Fault, b""), (1, 0), (true, false)),
    (("1", "2"), (1, 0), (&[], &[]), (Status::Fault, b""), (1, 0), (true, false)),
    // No word of a service.
    (("17", "1"), (1, 0), (&[], &[]), (Status::Usage, b"usage\n"), (0, 0), (false, false)),
];

// So many connections that say hello.
fn greetings(alloc: Global, count: usize) -> Result<Vec<&'static [u8]>, AllocError> {
    let mut inputs = Vec::new(alloc);
    for _ in 0..count {
        inputs.push(b"hello ann\n".as_slice())?;
    }
    Ok(inputs)
}

#[test]
fn services_end(rt: HostRuntime) -> Result<(), Fail> {
    let alloc = rt.alloc();
    for (said, come, failing, ends, back, failed) in &ENDINGS {
        let first = door_with(alloc, &greetings(alloc, come.0)?, &[], failing.0)?;
        let second = door_with(alloc, &greetings(alloc, come.1)?, &[], failing.1)?;
        let outcome = served(&rt, alloc, said.0, said.1, vec![in alloc; first, second]?)?;
        assert!(rt; outcome.status == ends.0 && outcome.out.as_slice() == ends.1);
        assert!(rt; outcome.handed_back(0) == back.0 && outcome.handed_back(1) == back.1);
        assert!(rt; outcome.has_failed(0) == failed.0 && outcome.has_failed(1) == failed.1);
    }
    Ok(())
}

/// More calls than a connection with one ask takes, seven bytes at once.
const CALLS: u64 = 20;

// A connection fails at one call after another: the service goes on to the next one and is done. What was written before is the
// beginning of the replies.
#[test]
fn connections_fail(rt: HostRuntime) -> Result<(), Fail> {
    let alloc = rt.alloc();
    let mut whole = 0u64;
    for call in 0..CALLS {
        let failing = [call];
        let door = door_with(alloc, &[ASK, b"hello bob\n"], &failing, &[])?;
        let outcome = served(&rt, alloc, "1", "2", vec![in alloc; door]?)?;
        assert!(rt; outcome.status == Status::Done && outcome.handed_back(0) == 2);
        let written = outcome.written(0, 0).unwrap_or(b"none".as_slice());
        assert!(rt; REPLIES[0].starts_with(written));
        if written.len() == REPLIES[0].len() {
            whole = whole.saturating_add(1);
        }
    }
    assert!(rt; 0 < whole && whole < CALLS);
    Ok(())
}

/// How many connections come to one door, one after another.
const COME: usize = 3;

// Whether a connection was dropped, with nothing of it read or written.
fn is_dropped(link: &MemLink<'_>) -> bool {
    link.calls() == 0 && link.written().is_empty()
}

// What a service of some connections comes to, also where memory runs out (a script refuses each allocation in turn): each is handed back, answered
// or dropped, and one that was dropped is told by the status.
#[test]
fn dropped_connections(rt: HostRuntime) -> Result<(), Fail> {
    let alloc = rt.alloc();
    let door = door_with(alloc, &greetings(alloc, COME)?, &[], &[])?;
    let outcome = served(&rt, alloc, "1", "3", vec![in alloc; door]?)?;
    let mut dropped = 0usize;
    for place in 0..outcome.handed_back(0) {
        let Some(link) = outcome.link(0, place) else {
            panic!(rt; "no connection");
        };
        if is_dropped(link) {
            dropped = dropped.saturating_add(1);
        } else {
            assert!(rt; link.written() == b"hello ann\n".as_slice());
        }
    }
    match outcome.status {
        Status::Done => assert!(rt; outcome.handed_back(0) == COME && dropped == 0),
        Status::NoMemory => {
            assert!(rt;
                outcome.handed_back(0) == 0 || (outcome.handed_back(0) == COME && 0 < dropped)
            );
        }
        _ => panic!(rt; "another end"),
    }
    println!(rt; "{dropped} dropped")?;
    Ok(())
}
