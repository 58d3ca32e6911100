//! What the gate is told of a service's connections, and where its workers listen.

use fz_outside::files::MemFiles;
use fz_outside::sink::MemSink;
use fz_outside::source::MemSource;
use memory_runs::doors::{door_with, doors_behind};
use memory_runs::journals::empty_journals;
use memory_runs::{KEY, Status, TABLE, census_files, words_of};
use outside_doors::memory::MemDoors;
use outside_links::gate::Gate;
use std::alloc::{AllocError, Global};
use std::sync::Wait;
use std::sync::atomic::{AtomicU64, Ordering};
use std::test::Fail;
use std::thread::Threads;

// Counts the first requests that enter a block and leave it, in a digit of base 16 for each of the first eight blocks.
#[derive(Drop)]
struct CountGate {
    entered: AtomicU64,
    left: AtomicU64,
}

// A one at the digit of a first request's block.
fn digit(block: u32, line: u32) -> u64 {
    if line == 0 && block < 8 {
        1 << (4 * block)
    } else {
        0
    }
}

impl Gate for CountGate {
    fn enter(&self, block: u32, line: u32) {
        self.entered.fetch_add(digit(block, line), Ordering::SeqCst);
    }

    fn leave(&self, block: u32, line: u32) {
        self.left.fetch_add(digit(block, line), Ordering::SeqCst);
    }
}

// A door to which two connections come.
fn greeted(alloc: Global) -> Result<MemDoors<'static>, AllocError> {
    door_with(
        alloc,
        &[b"hello ann\nbye\n", b"hello bob\nleft census\n"],
        &[],
        &[],
    )
}

// Three workers of two connections each, behind a gate.
fn served<R: Threads + Wait + Sync>(
    rt: &R,
    alloc: Global,
    gate: &CountGate,
) -> Result<(Status, Vec<MemDoors<'static>>), AllocError> {
    let held = census_files(TABLE, "key", &KEY);
    let mut journals = empty_journals(alloc)?;
    journals.ran(rt, alloc, &["init", "cat.json", "key"], &held, b"")?;
    let words = words_of(
        alloc,
        &[
            "serve",
            "cat.json",
            "key",
            "--addr",
            "127.0.0.2",
            "--port",
            "65520",
            "--workers",
            "3",
            "--each",
            "2",
        ],
    )?;
    let first = vec![in alloc; greeted(alloc)?, greeted(alloc)?, greeted(alloc)?]?;
    let mut files = MemFiles::new(&held);
    let mut source = MemSource::new(b"");
    let mut sink = MemSink::<64>::new(alloc)?;
    let mut doors = doors_behind(alloc, first)?;
    let status = journals.ran_behind(
        rt,
        alloc,
        &words,
        &mut files,
        &mut source,
        &mut sink,
        &mut doors,
        gate,
    );
    Ok((status, doors))
}

// Worker i's connection j is block i + 3 * j, at port 65520 + i of the address that is given; no other door listens.
#[test]
fn blocks_and_ports(rt: HostRuntime) -> Result<(), Fail> {
    let gate = CountGate {
        entered: AtomicU64::new(0),
        left: AtomicU64::new(0),
    };
    let (status, doors) = served(&rt, rt.alloc(), &gate)?;
    assert!(rt; status == Status::Done);
    assert!(rt; gate.entered.load(Ordering::SeqCst) == 0x11_1111);
    assert!(rt; gate.left.load(Ordering::SeqCst) == 0x11_1111);
    let ports = [Some(65_520), Some(65_521), Some(65_522), None];
    for (door, port) in doors.iter().zip(&ports) {
        let addr = if port.is_some() { "127.0.0.2" } else { "" };
        assert!(rt; door.port() == *port && door.addr() == addr.as_bytes());
    }
    Ok(())
}
