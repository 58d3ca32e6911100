//! Two workers answer at once.

ghost use Rattle.std.specs.Prelude.{◌≤◌, length};

use fz_outside::files::{MemFile, MemFiles};
use fz_outside::sink::MemSink;
use fz_outside::source::MemSource;
use memory_runs::doors::{DOORS, door_with, doors_behind};
use memory_runs::journals::empty_journals;
use memory_runs::{KEY, ROOM, Status, TABLE, census_files, words_of};
use outside_doors::memory::MemDoors;
use outside_links::gate::Gate;
use std::alloc::{AllocError, Global};
use std::hint;
use std::sync::Wait;
use std::sync::atomic::{AtomicU64, Ordering};
use std::test::Fail;
use std::thread::Threads;

/// How many turns a request is held at most.
const TURNS: u32 = 10_000_000;

// Holds the first request of block 0 until the first request of block 1 has left.
#[derive(Drop)]
struct HoldGate {
    left: AtomicU64,
    let_go: AtomicU64,
}

impl Gate for HoldGate {
    fn enter(&self, block: u32, line: u32) {
        if block != 0 || line != 0 {
            return;
        }
        for _ in 0..TURNS {
            if self.left.load(Ordering::SeqCst) == 1 {
                self.let_go.store(1, Ordering::SeqCst);
                return;
            }
            hint::spin_loop();
        }
    }

    fn leave(&self, block: u32, line: u32) {
        if block == 1 && line == 0 {
            self.left.store(1, Ordering::SeqCst);
        }
    }
}

fn hold_gate() -> HoldGate {
    HoldGate {
        left: AtomicU64::new(0),
        let_go: AtomicU64::new(0),
    }
}

// A command behind a gate, over this script and these doors: how it ends, and what it writes.
fn ran<R: Threads + Wait + Sync>(
    rt: &R,
    alloc: Global,
    texts: &[&str],
    script: &[u8],
    first: Vec<MemDoors<'_>>,
    gate: &HoldGate,
) -> Result<(Status, Vec<u8>), AllocError>
    requires few { length first.items ≤ DOORS }
{
    let held: &[MemFile<'_>] = &census_files(TABLE, "key", &KEY);
    let mut journals = empty_journals(alloc)?;
    journals.ran(rt, alloc, &["init", "cat.json", "key"], held, b"")?;
    let words = words_of(alloc, texts)?;
    let mut files = MemFiles::new(held);
    let mut source = MemSource::new(script);
    let mut sink = MemSink::<ROOM>::new(alloc)?;
    let mut doors = doors_behind(alloc, first)?;
    let status = journals.ran_behind(
        rt,
        alloc,
        &words,
        &mut files,
        &mut source,
        &mut sink,
        &mut doors,
        gate,
    );
    Ok((status, sink.bytes().to_vec(alloc)?))
}

// The first request waits for one of another block: one worker would never let it go.
#[test]
fn two_workers_answer_at_once(rt: HostRuntime) -> Result<(), Fail> {
    let (alloc, gate) = (rt.alloc(), hold_gate());
    let script = b"hello ann\nbye\nhello bob\nbye\n";
    let words = ["run", "cat.json", "key", "--workers", "2"];
    let (status, out) = ran(&rt, alloc, &words, script, Vec::new(alloc), &gate)?;
    assert!(rt; status == Status::Done && out.as_slice() == script.as_slice());
    assert!(rt; gate.let_go.load(Ordering::SeqCst) == 1);
    Ok(())
}

// The first connection's line waits for one of the other door's: workers that attend their doors one after another would never let it go.
#[test]
fn two_doors_are_served_at_once(rt: HostRuntime) -> Result<(), Fail> {
    let (alloc, gate) = (rt.alloc(), hold_gate());
    let doors = vec![in alloc;
        door_with(alloc, &[b"hello ann\n"], &[], &[])?,
        door_with(alloc, &[b"hello bob\n"], &[], &[])?,
    ]?;
    let words = [
        "serve",
        "cat.json",
        "key",
        "--port",
        "7000",
        "--workers",
        "2",
        "--each",
        "1",
    ];
    let (status, out) = ran(&rt, alloc, &words, b"", doors, &gate)?;
    assert!(rt; status == Status::Done && out.is_empty());
    assert!(rt; gate.let_go.load(Ordering::SeqCst) == 1);
    Ok(())
}
