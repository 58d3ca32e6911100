//! Sessions over listed draws, and a connection that sends a line only after a reply. What is wanted was worked out by hand.

use crate::links::RepliesFirst;
use crate::serving::{made_of, served, served_of};
use fz_outside::Failed;
use fz_outside::words::ListStreams;
use memory_runs::journals::LARGE;
use memory_runs::{AGE, KEY, TABLE, file, owner_text};
use outside_disks::memory::MemDisk;
use outside_links::link::Link;
use outside_links::memory::MemLink;
use session_serve::serve::SessionEnd::EndOfInput;
use std::alloc::{AllocError, Global};
use std::sync::Wait;
use std::test::Fail;
use std::thread::Threads;

// Rows of a table, draws, what is asked of it by ann, and the replies.
type Draw = (&'static [u8], &'static [u64], &'static [u8]);

// The draws of the first give the noise -1, and it takes them all; zeros alone never end.
#[rattlefmt::skip]
const LISTED: [Draw; 2] = [
    (b"age\n", &[0, 0, 0, 0, 1, 0, 1, 0], b"hello ann\nanswer 0 -1 1000000\nrecall 0 answer -1 2\nleft 1000000 10000000 2\n"),
    (TABLE, &[], b"hello ann\nno 50 0\nrecall 0 exhausted 2\nleft 0 10000000 2\n"),
];

// Whether the replies over these draws are those.
fn is_drawn<R: Threads + Wait + Sync>(
    rt: &R,
    alloc: Global,
    draw: &Draw,
) -> Result<bool, AllocError> {
    let (table, draws, wanted) = draw;
    let mut house = served(rt, alloc, table)?;
    let input = b"hello ann\nask census 1 size people\nrecall census 0\nleft census\n";
    let mut link = MemLink::new(alloc, input, 256, 256, &[])?;
    let end = house.serve(rt, alloc, &mut link, &ListStreams::new(draws));
    Ok(end == EndOfInput && link.written() == *wanted)
}

// Answers over listed draws, worked out by the sampler's rules.
#[test]
fn listed_draws(rt: HostRuntime) -> Result<(), Fail> {
    for draw in &LISTED {
        assert!(rt; is_drawn(&rt, rt.alloc(), draw)?);
    }
    Ok(())
}

// A journal's version, and what is told of an owner whose whole budget an exhausted number has taken: from version 3 on its charge
// comes back, so that the next ask is granted, and before that it stays.
#[rattlefmt::skip]
const EXHAUSTED: [(u8, &[u8]); 3] = [
    (1, b"hello ann\nno 50 0\nleft 1000000 1000000 2\nmine 1000000 none 2\nno 40 1000000 2000000 1000000 2\n"),
    (2, b"hello ann\nno 50 0\nleft 1000000 1000000 2\nmine 1000000 none 2\nno 40 1000000 2000000 1000000 2\n"),
    (3, b"hello ann\nno 50 0\nleft 0 1000000 2\nmine 0 none 2\nno 50 1\n"),
];

// The bytes of a new journal, in the layout of version 1 or of the later ones, as one of this version.
fn in_version(alloc: Global, bytes: &[u8], version: u8) -> Result<Vec<u8>, AllocError> {
    let mut journal = bytes.to_vec(alloc)?;
    if let Some(byte) = journal.get_mut(9) {
        *byte = version;
    }
    if version == 1 {
        // All 100 slots.
        journal.resize(6_528, 0)?;
    }
    Ok(journal)
}

// What is told over a journal of this version, of which all draws are zeros.
fn told_by_zeros<R: Threads + Wait + Sync>(
    rt: &R,
    alloc: Global,
    version: u8,
) -> Result<Vec<u8>, AllocError> {
    let tables = &[("people", "people.csv", AGE)];
    let census = owner_text(alloc, "census", 1_000_000, 100, tables)?;
    let catalog = format!(in alloc; "{{\"analysts\":[\"ann\"],\"owners\":[{census}]}}")?;
    let held = [
        file("cat.json", catalog.as_bytes()),
        file("people.csv", TABLE),
        file("key", &KEY),
    ];
    let journal = in_version(alloc, &made_of(rt, alloc, &held)?, version)?;
    let mut house = served_of(alloc, &held, MemDisk::new(alloc, &journal, LARGE, &[])?)?;
    let input =
        b"hello ann\nask census 1 size people\nleft census\nmine census\nask census 1 size people\n";
    let mut link = MemLink::new(alloc, input, 256, 256, &[])?;
    house.serve(rt, alloc, &mut link, &ListStreams::new(&[]));
    link.written().to_vec(alloc)
}

// Whether an exhausted number's charge comes back goes by the version of the owner's journal.
#[test]
fn exhausted_charges(rt: HostRuntime) -> Result<(), Fail> {
    for (version, wanted) in &EXHAUSTED {
        let told = told_by_zeros(&rt, rt.alloc(), *version)?;
        assert!(rt; told.as_slice() == *wanted, "version {version}");
    }
    Ok(())
}

const IN_TURN: &[u8] = b"hello ann\nask census 1 size people\n\nleft census\n";

const TURNS: &[u8] = b"hello ann\nanswer 0 5 1000000\nno 10 0\nleft 1000000 10000000 2\n";

// A reply is written before the next line is read. No clause says so.
#[test]
fn replies_come_first(rt: HostRuntime) -> Result<(), Fail> {
    let mut link = RepliesFirst::new(rt.alloc(), IN_TURN);
    let end = served(&rt, rt.alloc(), TABLE)?.serve_by_key(&rt, rt.alloc(), &mut link);
    assert!(rt; end == EndOfInput);
    assert!(rt; link.faults() == 0);
    assert!(rt; link.written() == TURNS);
    Ok(())
}

// Such a connection fails a second read without a reply.
#[test]
fn reads_wait_for_replies(rt: HostRuntime) {
    let mut link = RepliesFirst::new(rt.alloc(), IN_TURN);
    let mut buf = [0; 64];
    assert!(rt; link.read(&mut buf) == Ok(10));
    assert!(rt; link.read(&mut buf) == Err(Failed));
    assert!(rt; link.faults() == 1);
}
