//! A run over memory whose replies are known, and what a service and a grant come to over the same files. They are derived from the top
//! call's contract alone.
#![tactic(auto)]

ghost use Rattle.std.specs.Prelude.{◌≡◌, ◌⊎◌, ◌≤◌, length, Some, [], ◌∷◌, codes, map, string_bytes, replicate, IfOk};
ghost use Rattle.fz_outside.specs.Files.{bytes_of};
ghost use Rattle.command_words.specs.Program.{greatest_workers};
ghost use Rattle.query_server.specs.Shelves.{AreAtHome};
ghost use Rattle.worked_row.specs.Held.{IsJournalMade};
ghost use Rattle.worked_row.specs.Row.{catalog_text, table_text, row, row_without, row_lost, row_failed};

mod rows;

pub use crate::rows::{grant_row, serve_row};
use fz_outside::files::{MemFile, MemFiles};
use fz_outside::sink::{MemSink, Sink};
use fz_outside::source::MemSource;
use outside_bays::bay::Bay;
use outside_doors::door::Doors;
use outside_links::gate::FreeGate;
use query_server::{Status, run_server};
use std::alloc::{AllocError, Global};
use std::sync::Wait;
use std::thread::Threads;

/// How many bytes the sink has room for: more than any status writes here.
const ROOM: usize = 64;

/// What a run came to.
#[derive(Drop)]
pub struct Ran {
    pub status: Status,
    pub sink: MemSink<ROOM>,
}

/// The words of the command.
fn words_of_row(alloc: Global) -> Result<Vec<String>, AllocError>
    ensures { IfOk result (λ words. map string_bytes words.items ≡ codes "run" ∷ codes "cat.json" ∷ codes "key" ∷ []) }
{
    let run = String::from_str(alloc, "run")?;
    let catalog = String::from_str(alloc, "cat.json")?;
    let key = String::from_str(alloc, "key")?;
    Ok(vec![in alloc; run, catalog, key]?)
}

/// The files that are read: a catalog, its table of three rows, and a key of zeros.
fn files_of_row() -> [MemFile<'static>; 3]
    ensures catalog { bytes_of result (codes "cat.json") ≡ Some catalog_text }
    ensures table { bytes_of result (codes "people.csv") ≡ Some table_text }
    ensures key { bytes_of result (codes "key") ≡ Some (replicate 32 0) }
{
    [
        MemFile {
            name: "cat.json",
            bytes: b"{\"analysts\":[\"ann\",\"bob\"],\"owners\":[{\"name\":\"census\",\"budget\":10000000,\"capacity\":100,\"tables\":[\
                {\"name\":\"people\",\"file\":\"people.csv\",\"columns\":[{\"name\":\"age\",\"type\":\"num\"}]}],\"partitions\":[]}]}",
        },
        MemFile {
            name: "people.csv",
            bytes: b"age\n20\n30\n40\n",
        },
        MemFile {
            name: "key",
            bytes: &[0; 32],
        },
    ]
}

/// An analyst asks for the size of a table of three rows, over a journal that was made and has no records. Under a key of zeros
/// the noise is 2, so the answer is 5. These replies are written; or memory is wanting, for the whole, for the one program, or
/// after its reservation; or the owner's disk failed, as its journal was opened or as a record was appended; nothing else can come.
pub fn row_one<R: Threads + Wait + Sync, B: Bay, O: Doors + Drop + Send>(
    rt: &R,
    alloc: Global,
    bay: &mut B,
    doors: &mut Vec<O>,
) -> Result<Ran, AllocError>
where
    O::L: Send,
    requires home { AreAtHome (B.owners bay.old) (B.shelf bay.old) }
    requires doors { greatest_workers ≤ length doors.old.items }
    requires made { IsJournalMade (B.shelf bay.old) }
    ensures { IfOk result (λ ran. (ran.status ≡ Status.NoMemory) ⊎ (ran.status ≡ Status.DiskFault)
        ⊎ ((ran.status ≡ Status.Done)
        × ((⟦<MemSink<ROOM> as Sink>⟧.contents ran.sink ≡ Some row)
        ⊎ (⟦<MemSink<ROOM> as Sink>⟧.contents ran.sink ≡ Some row_without)
        ⊎ (⟦<MemSink<ROOM> as Sink>⟧.contents ran.sink ≡ Some row_lost)
        ⊎ (⟦<MemSink<ROOM> as Sink>⟧.contents ran.sink ≡ Some row_failed)))) }
{
    let words = words_of_row(alloc)?;
    let listed = files_of_row();
    let mut files = MemFiles::new(&listed);
    let mut source = MemSource::new(b"hello ann\nask census 1 size people\nbye\n");
    let mut sink = MemSink::<ROOM>::new(alloc)?;
    let status = run_server(
        rt,
        alloc,
        &words,
        &mut files,
        bay,
        &mut source,
        &mut sink,
        doors,
        &FreeGate,
    );
    // The sink isn't full, so it hasn't failed.
    let faults = sink.faults();
    prove!(faults == 0);
    Ok(Ran { status, sink })
}
