//! The top call over the system: the words of the process, the files of the system, the journals in a folder of it, standard
//! input and standard output, and the ports of an address.
#![tactic(auto)]

ghost use Rattle.std.specs.Prelude.{◌≡◌, ℕ, ◌<◌, length, is_some, Some, map, string_bytes, IfOk};
ghost use Rattle.std.specs.Process.{exit_status};
ghost use Rattle.command_words.specs.Mirrored.{is_mirrored};
ghost use Rattle.outside_disks.specs.Stored.{Stored, is_two};
ghost use Rattle.outside_bays.specs.Places.{fresh_home};
ghost use Rattle.query_server.specs.Status.{status_code};
ghost use Rattle.query_server.specs.declared.end.Status.{Status as Ended};

use command_words::is_mirrored;
use fz_outside::real::{RealFiles, RealSink, RealSource};
use fz_outside::sink::{Sink, put};
use outside_bays::bay::Bay;
use outside_bays::real::RealBay;
use outside_doors::real::RealDoors;
use outside_links::gate::FreeGate;
use query_server::{Status, run_server};
use std::alloc::{AllocError, Global};
use std::io::ErrorKind;
use std::process::ExitCode;
use std::sync::Wait;
use std::thread::Threads;
use std::{env, fs, io};
use worker_pool::MOST_WORKERS;

/// The most owners of a catalog. The journal of owner N is `journals/N.bud`, and its mirror, where there is one, `mirrors/N.bud`.
const OWNERS: u32 = 64;

/// Each worker of a service has a door.
const DOORS: usize = MOST_WORKERS;

// The words behind the program's own name. A word that isn't UTF-8 is no command, so then no words are.
fn words_of(rt: &HostRuntime, alloc: Global) -> Result<Vec<String>, AllocError> {
    match env::args(rt) {
        Ok(args) => args.skip(1).collect(alloc),
        Err(error) if error.kind() == ErrorKind::OutOfMemory => Err(AllocError),
        Err(_) => Ok(Vec::new(alloc)),
    }
}

// What is left to say where there is no memory for the words or for the places.
fn without_memory<K: Sink>(sink: &mut K) -> Status {
    match put(sink, b"memory\n") {
        Ok(()) => Status::NoMemory,
        Err(_) => Status::Fault,
    }
}

// The folder of mirrors, where a word says that there are some.
fn mirrors_for(words: &[String]) -> Option<&'static str>
    ensures { is_some result ≡ is_mirrored (map string_bytes words.now) }
{
    if is_mirrored(words) {
        Some("mirrors")
    } else {
        None
    }
}

// The bay of the journals. Each is kept on two disks where a word says so.
#[tactic(auto, using(crate::proofs::Homes::homes_as_said))]
fn bay_for<'a>(
    rt: &'a HostRuntime,
    alloc: Global,
    words: &[String],
) -> Result<RealBay<'a, HostRuntime>, AllocError>
    ensures owners { IfOk result (λ bay. ⟦<RealBay<'a, HostRuntime> as Bay>⟧.owners bay ≡ OWNERS) }
    ensures home { IfOk result (λ bay. (n : ℕ) → n < OWNERS →
        ⟦<RealBay<'a, HostRuntime> as Bay>⟧.shelf bay n ≡ Some (fresh_home (is_mirrored (map string_bytes words.now)))) }
    ensures twins { IfOk result (λ bay. (n : ℕ) → n < OWNERS → (stored : Stored) × (⟦<RealBay<'a, HostRuntime> as Bay>⟧.shelf bay n ≡ Some stored)
        × (is_two stored.twins ≡ is_mirrored (map string_bytes words.now))) }
{
    RealBay::new(alloc, rt, "journals", mirrors_for(words), OWNERS)
}

// A door for each worker that there may be.
fn doors_of<'a>(
    rt: &'a HostRuntime,
    alloc: Global,
) -> Result<Vec<RealDoors<'a, HostRuntime>>, AllocError>
    ensures { IfOk result (λ doors. length doors.items ≡ DOORS) }
{
    let mut doors = Vec::with_capacity(alloc, DOORS)?;
    doors.resize_with(DOORS, || RealDoors::new(rt))?;
    Ok(doors)
}

// Opens a folder, which takes a number of the process that is free. Reading and writing a folder fail: where standard input or
// output is closed, it stands in its place, and not the file of a journal.
fn hold_number(rt: &HostRuntime) -> Option<fs::File> {
    fs::open(rt, "/").ok()
}

// How the command of the process's words ends, where there is memory for the words and for the places of journals and doors.
fn do_command<R: Threads + Wait + Sync, K: Sink>(
    rt: &HostRuntime,
    threads: &R,
    alloc: Global,
    sink: &mut K,
) -> Result<Status, AllocError> {
    let words = words_of(rt, alloc)?;
    let mut bay = bay_for(rt, alloc, &words)?;
    let mut doors = doors_of(rt, alloc)?;
    let mut files = RealFiles::new(rt);
    let mut source = RealSource::new(rt.reader());
    Ok(run_server(
        threads,
        alloc,
        &words,
        &mut files,
        &mut bay,
        &mut source,
        sink,
        &mut doors,
        &FreeGate,
    ))
}

/// Does the command of the process's words; workers are threads of `threads`. The process is to end with the number of the command's
/// status.
pub fn run_process<R: Threads + Wait + Sync>(rt: &HostRuntime, threads: &R) -> ExitCode
    ensures { (status : Ended) × (exit_status result ≡ status_code status) }
{
    let _held = (hold_number(rt), hold_number(rt), hold_number(rt));
    let mut sink = RealSink::new(io::writer(rt));
    let status = match do_command(rt, threads, rt.alloc(), &mut sink) {
        Ok(status) => status,
        Err(_) => without_memory(&mut sink),
    };
    ExitCode::from(status.code())
}
