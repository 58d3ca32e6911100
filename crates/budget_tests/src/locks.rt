//! Locks that several threads share.

ghost use Rattle.std.specs.Prelude.{◌<◌, ◌^◌};

use crate::clerks::{NOTES, by_many, note, shut};
use crate::sheets::{Note, Sheet};
use owner_lock::{NoMemory, Owned};
use std::alloc::Global;
use std::sync::Wait;
use std::test::*;
use std::thread::Threads;

// How often sixteen clerks fill a sheet.
const ROUNDS: u32 = 20;

fn sheet(alloc: Global, room: u64) -> Sheet {
    Sheet {
        notes: Vec::new(alloc),
        room,
        shut: false,
    }
}

// Clerks in threads of their own fill a sheet.
fn filled<R: Threads + Wait + Sync>(
    rt: &R,
    alloc: Global,
    room: u64,
    clerks: u32,
    turns: u32,
) -> Result<Sheet, NoMemory<Sheet>>
    requires { clerks < 2 ^ 16 }
{
    let (lock, mut pass) = Owned::new(alloc, sheet(alloc, room))?;
    by_many(rt, &lock, &mut pass, 0, clerks, turns);
    Ok(lock.close(pass))
}

// Each clerk's notes stand in the order in which they were made, and there are so many.
fn ordered(sheet: &Sheet, clerk: u32) -> u32 {
    let mut next = 0u32;
    for note in &sheet.notes {
        if note.clerk == clerk {
            if note.number != next {
                return 0;
            }
            next = next.wrapping_add(1);
        }
    }
    next
}

#[test]
fn sixteen_clerks_fill_a_sheet(rt: HostRuntime) -> Result<(), Fail> {
    let Ok(sheet) = filled(&rt, rt.alloc(), 10_000, 16, 0) else {
        panic!(rt; "memory")
    };
    assert_eq!(rt; sheet.notes.len(), 3200);
    for clerk in 0..16u32 {
        assert_eq!(rt; ordered(&sheet, clerk), NOTES);
    }
    Ok(())
}

// Each keeps the sheet so long that the others stop trying, and sleep until they are woken: none sleeps for ever. Only where two begin to wait
// at the same moment may one of them not be counted, so that this is done many times.
#[test]
fn a_full_sheet_takes_no_more(rt: HostRuntime) -> Result<(), Fail> {
    for _ in 0..ROUNDS {
        let Ok(sheet) = filled(&rt, rt.alloc(), 777, 16, 1_000) else {
            panic!(rt; "memory")
        };
        assert_eq!(rt; sheet.notes.len(), 777);
    }
    Ok(())
}

#[test]
fn what_is_shut_stays_shut(rt: HostRuntime) -> Result<(), Fail> {
    let Ok((lock, mut first)) = Owned::new(rt.alloc(), sheet(rt.alloc(), 9)) else {
        panic!(rt; "memory")
    };
    let mut other = lock.split(&mut first);
    let one = Note {
        clerk: 1,
        number: 0,
    };
    assert!(rt; note(&rt, &lock, &mut other, one, 0) == Some(0));
    shut(&rt, &lock, &mut first);
    assert!(rt; note(&rt, &lock, &mut other, one, 0).is_none());
    lock.join(&mut first, other);
    let sheet = lock.close(first);
    assert!(rt; sheet.shut && sheet.notes.len() == 1);
    Ok(())
}
