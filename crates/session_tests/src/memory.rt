//! Want of memory. bench/refused_sessions.py refuses each allocation of this test in turn; here none is refused.

use crate::serving::served;
use memory_runs::TABLE;
use outside_links::memory::MemLink;
use session_serve::serve::SessionEnd::{self, Bye, NoMemory};
use std::alloc::{AllocError, Global};
use std::sync::Wait;
use std::test::Fail;
use std::thread::Threads;

const INPUT: &[u8] =
    b"ask census 1 size people\nhello ann\nask census 1 size people\nask census 1 size people\nrecall census 0\nleft census\nbye\n";

// What became of two asks, and what is written behind `hello ann` then: one that is told 90 took no number and no charge, one that
// is told 51 is lost, and charged.
#[rattlefmt::skip]
const TOLD: [(&str, &[u8]); 9] = [
    ("right", b"answer 0 5 1000000\nanswer 1 3 1000000\nrecall 0 answer 5 4\nleft 2000000 10000000 4\nbye\n"),
    ("no 90", b"answer 0 5 1000000\nno 90\nrecall 0 answer 5 2\nleft 1000000 10000000 2\nbye\n"),
    ("no 51", b"answer 0 5 1000000\nno 51 1\nrecall 0 answer 5 4\nleft 2000000 10000000 4\nbye\n"),
    ("no 90", b"no 90\nanswer 0 5 1000000\nrecall 0 answer 5 2\nleft 1000000 10000000 2\nbye\n"),
    ("no 90", b"no 90\nno 90\nno 60 0 0\nleft 0 10000000 0\nbye\n"),
    ("no 90", b"no 90\nno 51 0\nrecall 0 lost 2\nleft 1000000 10000000 2\nbye\n"),
    ("no 51", b"no 51 0\nanswer 1 3 1000000\nrecall 0 lost 4\nleft 2000000 10000000 4\nbye\n"),
    ("no 51", b"no 51 0\nno 90\nrecall 0 lost 2\nleft 1000000 10000000 2\nbye\n"),
    ("no 51", b"no 51 0\nno 51 1\nrecall 0 lost 4\nleft 2000000 10000000 4\nbye\n"),
];

// What became of the asks where this is written behind `hello ann`, if it may be.
fn asks_of(told: &[u8]) -> Option<&'static str> {
    for (what, due) in &TOLD {
        if told == *due {
            return Some(what);
        }
    }
    None
}

const UNREAD: &str = "unread";

// What became of a session that ended so, if it may have: nothing was read where memory was wanting before the first read.
fn outcome_of(end: SessionEnd, link: &MemLink<'_>) -> Option<&'static str> {
    match end {
        NoMemory if link.calls() == 0 => Some(UNREAD),
        Bye => asks_of(link.written().strip_prefix(b"no 14\nhello ann\n")?),
        _ => None,
    }
}

type Outcomes = (Option<&'static str>, Option<&'static str>);

// What became of a session, and of a second one over the same connection, which follows where the first wasn't read.
fn outcomes<R: Threads + Wait + Sync>(rt: &R, alloc: Global) -> Result<Outcomes, AllocError> {
    let mut house = served(rt, alloc, TABLE)?;
    let mut link = MemLink::new(alloc, INPUT, 256, 256, &[])?;
    let end = house.serve_by_key(rt, alloc, &mut link);
    let first = outcome_of(end, &link);
    if first != Some(UNREAD) {
        return Ok((first, first));
    }
    let end = house.serve_by_key(rt, alloc, &mut link);
    Ok((first, outcome_of(end, &link)))
}

#[test]
fn refused_memory(rt: HostRuntime) -> Result<(), Fail> {
    let (Some(first), Some(second)) = outcomes(&rt, rt.alloc())? else {
        panic!(rt; "another end");
    };
    println!(rt; "{first}")?;
    if second != first {
        println!(rt; "{second}")?;
    }
    Ok(())
}
