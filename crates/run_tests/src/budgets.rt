//! Several workers ask one budget, and one analyst's share of it.

use memory_runs::journals::empty_journals;
use memory_runs::{KEY, Status, TABLE, file};
use std::alloc::{AllocError, Global};
use std::sync::Wait;
use std::test::Fail;
use std::thread::Threads;

/// An owner whose budget pays for one ask.
const SMALL: &[u8] =
    b"{\"analysts\":[\"ann\",\"bob\"],\"owners\":[{\"name\":\"census\",\"budget\":1000000,\"capacity\":100,\"tables\":[\
    {\"name\":\"people\",\"file\":\"people.csv\",\"columns\":[{\"name\":\"age\",\"type\":\"num\"}]}],\"partitions\":[]}]}";

/// One whose budget pays for ten, of which ann may have one.
const LIMITED: &[u8] =
    b"{\"analysts\":[\"ann\",\"bob\"],\"owners\":[{\"name\":\"census\",\"budget\":10000000,\"capacity\":100,\"tables\":[\
    {\"name\":\"people\",\"file\":\"people.csv\",\"columns\":[{\"name\":\"age\",\"type\":\"num\"}]}],\"partitions\":[],\
    \"limits\":[{\"analyst\":\"ann\",\"budget\":1000000}]}]}";

/// Each asks what the budget has, or what ann may spend.
const TWO_BLOCKS: &[u8] =
    b"hello ann\nask census 1 size people\nbye\nhello ann\nask census 1 size people\nbye\n";

/// What is written where the first block's ask is granted, and where the second one's is; each where the other's answer was
/// settled by then, and where it wasn't.
static WRITTEN: [&str; 4] = [
    "hello ann\nanswer 0 5 1000000\nbye\nhello ann\nno 40 1000000 2000000 1000000 1\nbye\n",
    "hello ann\nanswer 0 5 1000000\nbye\nhello ann\nno 40 1000000 2000000 1000000 2\nbye\n",
    "hello ann\nno 40 1000000 2000000 1000000 1\nbye\nhello ann\nanswer 0 5 1000000\nbye\n",
    "hello ann\nno 40 1000000 2000000 1000000 2\nbye\nhello ann\nanswer 0 5 1000000\nbye\n",
];

/// The same where ann's limit refuses the other.
static WITHIN_LIMIT: [&str; 4] = [
    "hello ann\nanswer 0 5 1000000\nbye\nhello ann\nno 43 1000000 2000000 1000000 1\nbye\n",
    "hello ann\nanswer 0 5 1000000\nbye\nhello ann\nno 43 1000000 2000000 1000000 2\nbye\n",
    "hello ann\nno 43 1000000 2000000 1000000 1\nbye\nhello ann\nanswer 0 5 1000000\nbye\n",
    "hello ann\nno 43 1000000 2000000 1000000 2\nbye\nhello ann\nanswer 0 5 1000000\nbye\n",
];

// A run of two blocks by so many workers over the owner of a catalog.
fn ran<R: Threads + Wait + Sync>(
    rt: &R,
    alloc: Global,
    catalog: &[u8],
    workers: &str,
) -> Result<(Status, Vec<u8>), AllocError> {
    let held = [
        file("cat.json", catalog),
        file("people.csv", TABLE),
        file("key", &KEY),
    ];
    let mut journals = empty_journals(alloc)?;
    journals.ran(rt, alloc, &["init", "cat.json", "key"], &held, b"")?;
    let words = ["run", "cat.json", "key", "--workers", workers];
    journals.ran(rt, alloc, &words, &held, TWO_BLOCKS)
}

// The budget is one for all workers: one of two asks is granted, whichever comes first.
#[test]
fn one_of_two_asks_is_granted(rt: HostRuntime) -> Result<(), Fail> {
    let (status, out) = ran(&rt, rt.alloc(), SMALL, "2")?;
    assert!(rt; status == Status::Done);
    assert!(rt; WRITTEN.iter().any(|text| out.as_slice() == text.as_bytes()));
    Ok(())
}

// So is the limit of one analyst who asks by both.
#[test]
fn one_of_two_asks_is_within_the_limit(rt: HostRuntime) -> Result<(), Fail> {
    let (status, out) = ran(&rt, rt.alloc(), LIMITED, "2")?;
    assert!(rt; status == Status::Done);
    assert!(rt;
        WITHIN_LIMIT
            .iter()
            .any(|text| out.as_slice() == text.as_bytes())
    );
    Ok(())
}

// More workers than blocks, the most that there may be.
#[test]
fn sixteen_workers(rt: HostRuntime) -> Result<(), Fail> {
    let (status, out) = ran(&rt, rt.alloc(), SMALL, "16")?;
    assert!(rt; status == Status::Done);
    assert!(rt; WRITTEN.iter().any(|text| out.as_slice() == text.as_bytes()));
    Ok(())
}
