//! The top call.

ghost use Rattle.std.specs.Prelude.{◌≡◌, ◌⊎◌, ◌<◌, ◌≤◌, ◌++◌, ℕ, List, length, Err, Some, None, IsSome, Vec, map, string_bytes};
ghost use Rattle.fz_outside.specs.Faults.{HasRisen};
ghost use Rattle.command_words.specs.Command.{command_of};
ghost use Rattle.command_words.specs.Program.{greatest_workers};
ghost use Rattle.std.specs.Io.KnownBytes.{append_known};
ghost use Rattle.catalog_loading.specs.Files.{Contents, always};
ghost use Rattle.owner_books.specs.Shelves.{AreAtHome, SomeLost, SomeRose};
ghost use Rattle.owner_books.specs.Bays.{DisksFailed, DisksLost, KeepsBay, bay_in};
ghost use Rattle.query_server.specs.Outside.{DoorsStay, KeepsFiles, SomeDoorRose, doors_in};
ghost use Rattle.query_server.specs.Due.{AreRead, ForContents, IfFinished, IsDue, IsOfDisks, IsOfDoors, IsOfMaking, IsOfRun, IsWrittenAt, work_of, files_of};
ghost use Rattle.query_server.specs.Promise.{IsRunLeft};
ghost use Rattle.query_server.specs.Service.{IsServiceAt, IsServiceLeft};
ghost use Rattle.query_server.specs.Valid.{IsValidFor, MayEndWell};
ghost use Rattle.query_server.specs.Ends.{IsEndOf, status_at};
ghost use Rattle.query_server.specs.Taken.{IsTakenAt};
ghost use Rattle.std.specs.declared.alloc.Global.{Global as Heap};

use crate::check::check_file;
use crate::end::{End, Status, ended};
use crate::gap::compare_files;
use crate::generated::generate;
use crate::grant::grant_budget;
use crate::listing::{Listing, list_owners};
use crate::run::run_script;
use crate::serve::{Post, serve_doors};
use crate::writing::finish;
use catalog_loading::Stop;
use command_words::{Command, WordsFault, read_words};
use derivation_commands::{derive_file, judge_file};
use fz_outside::files::Files;
use fz_outside::sink::Sink;
use fz_outside::source::Source;
use outside_bays::bay::Bay;
use outside_doors::door::Doors;
use outside_links::gate::Gate;
use std::alloc::Global;
use std::sync::Wait;
use std::thread::Threads;

/// Does a command, up to what is written at its end.
fn run_command<
    R: Threads + Wait + Sync,
    F: Files,
    B: Bay,
    S: Source,
    O: Doors + Drop + Send,
    G: Gate + Sync,
>(
    rt: &R,
    alloc: Global,
    words: &[String],
    files: &mut F,
    bay: &mut B,
    source: &mut S,
    doors: &mut Vec<O>,
    gate: &G,
) -> Result<End, Stop>
where
    O::L: Send,
    requires home { AreAtHome (B.owners bay.old) (B.shelf bay.old) }
    requires doors { greatest_workers ≤ length doors.old.items }
    ensures end { let given = map string_bytes words.now in ForContents (F.held files.old) (S.left source.old)
        (λ reads script. IsEndOf (work_of given reads) (B.shelf bay.old) (B.shelf bay.new) script result
        × AreRead (status_at result) (files_of given reads) (F.names files.old) (F.names files.new)) }
    ensures service { let given = map string_bytes words.now in IsOfDoors (command_of given) →
        ForContents (F.held files.old) (S.left source.old) (λ reads script. IsServiceAt (work_of given reads) (B.shelf bay.old) (B.shelf bay.new)
        (doors_in O.coming O.served O.faults doors.old.items) (doors_in O.coming O.served O.faults doors.new.items) result) }
    ensures taken { IsTakenAt (command_of (map string_bytes words.now)) (S.left source.old) (S.left source.new) (status_at result) }
    ensures unread { IsOfRun (command_of (map string_bytes words.now)) ⊎ (source.new ≡ source.old) }
    ensures untaken { F.faults files.old < F.faults files.new → source.new ≡ source.old }
    ensures still { IsOfDisks (command_of (map string_bytes words.now)) ⊎ (bay.new ≡ bay.old) }
    ensures unmoved { F.faults files.old < F.faults files.new → bay.new ≡ bay.old }
    ensures doors { (doors.new ≡ doors.old) ⊎ (IsOfDoors (command_of (map string_bytes words.now))
        × DoorsStay (doors_in O.coming O.served O.faults doors.old.items) (doors_in O.coming O.served O.faults doors.new.items)) }
    ensures unposted { F.faults files.old < F.faults files.new → doors.new ≡ doors.old }
    ensures files { KeepsFiles F.held F.names F.faults files.old files.new }
    ensures bay { KeepsBay B.shelf B.owners B.faults bay.old bay.new }
    ensures source { S.faults source.old ≤ S.faults source.new }
    ensures disk { (line : Vec ℕ Heap) → result ≡ Err (Stop.Disk line) → IsOfDisks (command_of (map string_bytes words.now))
        × DisksFailed (bay_in B.shelf B.owners B.faults bay.old) (bay_in B.shelf B.owners B.faults bay.new) }
    ensures lost { (line : Vec ℕ Heap) → result ≡ Err (Stop.Disk line) → IsOfMaking (command_of (map string_bytes words.now))
        ⊎ DisksLost (bay_in B.shelf B.owners B.faults bay.old) (bay_in B.shelf B.owners B.faults bay.new) }
    ensures idle { command_of (map string_bytes words.now) ≡ None → (files.new ≡ files.old)
        × ((result ≡ Err Stop.Usage) ⊎ (result ≡ Err Stop.NoMemory)) }
    ensures cause { result ≡ Err Stop.Fault →
        HasRisen (F.faults files.old) (F.faults files.new)
        ⊎ (IsOfRun (command_of (map string_bytes words.now)) × HasRisen (S.faults source.old) (S.faults source.new))
        ⊎ (IsOfDoors (command_of (map string_bytes words.now))
        × SomeDoorRose (doors_in O.coming O.served O.faults doors.old.items) (doors_in O.coming O.served O.faults doors.new.items)) }
{
    match read_words(alloc, words) {
        Err(WordsFault::Usage) => Err(Stop::Usage),
        Err(WordsFault::NoMemory) => Err(Stop::NoMemory),
        Ok(Command::Init { catalog, key }) => {
            list_owners(alloc, files, bay, catalog, key, Listing::Made)
        }
        Ok(Command::Audit { catalog, key }) => {
            list_owners(alloc, files, bay, catalog, key, Listing::Counted)
        }
        Ok(
            Command::Grant {
                catalog,
                key,
                owner,
                amount,
            },
        ) => grant_budget(alloc, files, bay, catalog, key, owner, amount),
        Ok(
            Command::Run {
                catalog,
                key,
                workers,
            },
        ) => run_script(rt, alloc, files, bay, source, gate, catalog, key, workers),
        Ok(
            Command::Check {
                catalog,
                owner,
                file,
            },
        ) => check_file(alloc, files, catalog, owner, file),
        Ok(
            Command::Gap {
                catalog,
                owner,
                second_catalog,
                file,
            },
        ) => compare_files(alloc, files, catalog, owner, second_catalog, file),
        Ok(
            Command::Serve {
                catalog,
                key,
                address,
                port,
                workers,
                each,
            },
        ) => {
            let post = Post::new(address, port, workers, each);
            serve_doors(rt, alloc, files, bay, doors, gate, catalog, key, &post)
        }
        Ok(
            Command::Gen {
                seed,
                asks,
                workers,
            },
        ) => generate(rt, alloc, gate, seed, asks, workers),
        Ok(
            Command::Derive {
                catalog,
                owner,
                file,
            },
        ) => ended(derive_file(alloc, files, catalog, owner, file)),
        Ok(
            Command::Judge {
                catalog,
                owner,
                file,
                derivation,
            },
        ) => ended(judge_file(alloc, files, catalog, owner, file, derivation)),
    }
}

/// Does one of ten commands. Each owner's budget is kept in a journal on its own disk of the bay.
///
/// - `init CATALOG KEY`: CATALOG is a catalog, KEY a file of 32 bytes. Each owner's journal is made on its disk, which has to be
///   empty, and a line for each goes to the sink.
/// - `run CATALOG KEY`, perhaps with `--workers W`, 1 to 16: the source is a script. The owners' journals are opened, the script is
///   answered, and its replies go to the sink. Block k of it is answered by worker k mod W, and each worker answers its lines one after
///   another, each on records of the owner that it asks which begin with all that the worker saw and added before: with one worker on
///   the records so far. What a line adds is kept before it is answered.
/// - `audit CATALOG KEY`: the owners' journals are opened, and what their records come to goes to the sink, a line for each.
/// - `grant CATALOG KEY OWNER AMOUNT`: OWNER is an owner of the catalog, and AMOUNT goes to its budget, in millionths of epsilon, 1 to 10^18.
///   The owner's journal is opened, a record of the grant is kept in it, and the budget with it goes to the sink; or the line that refuses
///   it, where the budget would be above 10^18 or the journal has no room.
/// - `check CATALOG OWNER FILE`: OWNER is an owner of the catalog, and FILE holds a program. Its sensitivity, or the line that
///   refuses it, goes to the sink. Nothing is taken of the source, and no disk.
/// - `gap CATALOG OWNER CATALOG2 FILE`: CATALOG2 is a catalog too, whose owner of that name has the same tables. How far the two
///   datasets are apart, the program's sensitivity, its values on both without noise and their difference go to the sink, or the
///   line that refuses the program. Nothing is taken of the source, and no disk.
/// - `serve CATALOG KEY --port P --each N`, perhaps with `--addr A` and `--workers W`: the owners' journals are opened, and worker i
///   listens at port P + i of A by the door at its place, where it serves N connections, one after another. What a line adds is kept before
///   it is answered. Where a worker gets no thread, nothing is served. A door's fault ends its worker; a connection for which there is no memory
///   is dropped, and counts as served. Both are answered once all have ended. Nothing goes to the sink.
/// - `gen SEED N`, perhaps with WORKERS: in memory, and over no file, one analyst asks one owner N times. What that comes to follows from
///   SEED and N, and goes to the sink.
/// - `derive CATALOG OWNER FILE`: the derivation of the program in FILE goes to the sink, or the line that refuses the program in a `check`, or the
///   line that says that the derivation is too long. No table is read, nothing is taken of the source, and no disk.
/// - `judge CATALOG OWNER FILE DERIVATION`: DERIVATION is judged as a derivation of the program in FILE. The line of a yes with its number goes to the
///   sink, or the line that names the least line at fault, or the one that refuses a program that isn't read. It reads and takes nothing else either.
///
/// Each but `gen`, `grant`, `derive` and `judge` reads the tables of all owners of its catalogs, in order, and `grant` those of its owner. At another
/// status than Done the status's line goes to the sink.
/// Files, source, sink and disks tell what they hold, or don't; what is said of their contents holds where they do. Want of memory
/// (`NoMemory`) may be answered at any time, at faulty words too; in a script that is answered, and in a session, it may be the reply to a
/// line that asks: 90 before a reservation, and 51 after it. The runtime is for workers: each has a thread, and waits for the owners'
/// locks. The gate is told of each line when it begins and when it has been answered.
/// What an owner and its analysts may rely on of `run` and `serve` stands on one page, `PlainPromise` (plain_promise): the clauses `headline` and
/// `service` imply it.
pub fn run_server<
    R: Threads + Wait + Sync,
    F: Files,
    B: Bay,
    S: Source,
    K: Sink,
    O: Doors + Drop + Send,
    G: Gate + Sync,
>(
    rt: &R,
    alloc: Global,
    words: &[String],
    files: &mut F,
    bay: &mut B,
    source: &mut S,
    sink: &mut K,
    doors: &mut Vec<O>,
    gate: &G,
) -> Status
where
    O::L: Send,
    requires home { AreAtHome (B.owners bay.old) (B.shelf bay.old) }
    requires doors { greatest_workers ≤ length doors.old.items }
    // What is written, whatever files and source hold or tell: it is due for some contents of the files, at each read, and of the
    // source, and for the ones that are told. Where something failed it is a prefix of that. And only files are read that the
    // words name, or the catalogs of these, in the order of work.
    ensures line { let given = map string_bytes words.now in (text : List ℕ) × (K.contents sink.new ≡ append_known (K.contents sink.old) text)
        × ForContents (F.held files.old) (S.left source.old)
        (λ reads script. IsWrittenAt (work_of given reads) (B.shelf bay.old) (B.shelf bay.new) script result text
        × AreRead result (files_of given reads) (F.names files.old) (F.names files.new)) }
    // What a run leaves, at whatever status it ends: the script was answered, with the promises to every owner, and what is written
    // is a prefix of its replies, all of them at status Done; or nothing was written to any owner's disk. That too is so of some
    // contents of files and source, the ones that are told; by a law, of those of `line`.
    ensures headline { let given = map string_bytes words.now in IsOfRun (command_of given) →
        (text : List ℕ) × (K.contents sink.new ≡ append_known (K.contents sink.old) text)
        × ForContents (F.held files.old) (S.left source.old)
        (λ reads script. IsRunLeft given reads (B.shelf bay.old) (B.shelf bay.new) script result text) }
    // What a service leaves, at whatever status it ends: the workers held sessions, each over the connections of its door, with the
    // promises to every owner; or nothing was written to any owner's disk, and the doors are as they were.
    ensures service { let given = map string_bytes words.now in IsOfDoors (command_of given) →
        ForContents (F.held files.old) (S.left source.old) (λ reads script. IsServiceLeft given reads (B.shelf bay.old) (B.shelf bay.new)
        (doors_in O.coming O.served O.faults doors.old.items) (doors_in O.coming O.served O.faults doors.new.items)
        result (K.faults sink.old) (K.faults sink.new)) }
    // Each status but Fault, DiskFault and NoMemory comes exactly where the words, the files, the disks and the script give it, in
    // this order.
    ensures status { (held : Contents) (script : List ℕ) → F.held files.old ≡ Some held → S.left source.old ≡ Some script →
        IfFinished result ((text : List ℕ)
        × IsDue (work_of (map string_bytes words.now) (always held)) (B.shelf bay.old) (B.shelf bay.new) script result text) }
    // Where all that a command takes is valid and no count of faults rises, it ends well, or memory runs out: `init` and `audit` with
    // Done, `grant` with Done, TooLarge or JournalFull, `run` with Done or with ScriptTooLong, `check`, `gap` and `judge` with Done or ProgramRefused,
    // `derive` with these or DerivationTooLong, `serve` and `gen` with Done.
    ensures complete { let given = map string_bytes words.now in (held : Contents) → F.held files.old ≡ Some held →
        IsValidFor (work_of given (always held)) (B.shelf bay.old) →
        (HasRisen (F.faults files.old) (F.faults files.new) → ⊥) → (HasRisen (S.faults source.old) (S.faults source.new) → ⊥) →
        (HasRisen (K.faults sink.old) (K.faults sink.new) → ⊥) → (HasRisen (B.faults bay.old) (B.faults bay.new) → ⊥) →
        (SomeRose (B.shelf bay.old) (B.shelf bay.new) → ⊥) →
        (SomeDoorRose (doors_in O.coming O.served O.faults doors.old.items) (doors_in O.coming O.served O.faults doors.new.items) → ⊥) →
        MayEndWell (work_of given (always held)) result }
    // Of the source a run alone takes anything, at most 2^24 + 1 bytes; and it doesn't where files failed.
    ensures taken { IsTakenAt (command_of (map string_bytes words.now)) (S.left source.old) (S.left source.new) result
        × (IsOfRun (command_of (map string_bytes words.now)) ⊎ (source.new ≡ source.old))
        × (F.faults files.old < F.faults files.new → source.new ≡ source.old) }
    // Files hold what they held; the bay has its owners, and every disk is at home again.
    ensures kept { (F.held files.new ≡ F.held files.old) × (B.owners bay.new ≡ B.owners bay.old)
        × AreAtHome (B.owners bay.new) (B.shelf bay.new) × ((o : ℕ) → IsSome (B.shelf bay.old o) → IsSome (B.shelf bay.new o)) }
    // A command that takes no disk leaves the bay as it was, and so does one whose files failed; and another than `serve` leaves the doors
    // as they were. At faulty words no file is read.
    ensures untouched { (IsOfDisks (command_of (map string_bytes words.now)) ⊎ (bay.new ≡ bay.old))
        × (F.faults files.old < F.faults files.new → bay.new ≡ bay.old)
        × (IsOfDoors (command_of (map string_bytes words.now)) ⊎ (doors.new ≡ doors.old))
        × (F.faults files.old < F.faults files.new → doors.new ≡ doors.old)
        × (command_of (map string_bytes words.now) ≡ None → files.new ≡ files.old) }
    // There are as many doors as before, and counts of faults never fall.
    ensures counts { (F.faults files.old ≤ F.faults files.new) × (B.faults bay.old ≤ B.faults bay.new)
        × (S.faults source.old ≤ S.faults source.new) × (K.faults sink.old ≤ K.faults sink.new)
        × DoorsStay (doors_in O.coming O.served O.faults doors.old.items) (doors_in O.coming O.served O.faults doors.new.items) }
    // Fault comes only where a count rose: of files, for a command; of the source, in a run; of a door, in a service; or of the sink.
    // Nothing was written then, unless the sink failed.
    ensures fault { result ≡ Status.Fault →
        ((IsSome (command_of (map string_bytes words.now)) × HasRisen (F.faults files.old) (F.faults files.new))
        ⊎ (IsOfRun (command_of (map string_bytes words.now)) × HasRisen (S.faults source.old) (S.faults source.new))
        ⊎ (IsOfDoors (command_of (map string_bytes words.now))
        × SomeDoorRose (doors_in O.coming O.served O.faults doors.old.items) (doors_in O.coming O.served O.faults doors.new.items))
        ⊎ HasRisen (K.faults sink.old) (K.faults sink.new))
        × (HasRisen (K.faults sink.old) (K.faults sink.new) ⊎ (K.contents sink.new ≡ K.contents sink.old)) }
    // DiskFault comes only where the bay's or a disk's count rose, of a command that takes the disks.
    ensures disk { result ≡ Status.DiskFault → IsOfDisks (command_of (map string_bytes words.now))
        × (HasRisen (B.faults bay.old) (B.faults bay.new) ⊎ SomeRose (B.shelf bay.old) (B.shelf bay.new)) }
    // But for an `init`, an owner's two disks are both lost then: both counts rose, or that of one whose other is empty.
    ensures lost { result ≡ Status.DiskFault → IsOfMaking (command_of (map string_bytes words.now))
        ⊎ (HasRisen (B.faults bay.old) (B.faults bay.new) ⊎ SomeLost (B.shelf bay.old) (B.shelf bay.new)) }
{
    let end = run_command(rt, alloc, words, files, bay, source, doors, gate);
    finish(sink, &end)
}
