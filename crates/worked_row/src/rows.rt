//! A grant and a service over the row's files and journal, by whatever files, bay, sink and doors.

ghost use Rattle.std.specs.Prelude.{◌≡◌, ◌≤◌, length, Some, [], map, string_bytes};
ghost use Rattle.catalog_loading.specs.Files.{Contents};
ghost use Rattle.query_server.specs.Due.{IfFinished};
ghost use Rattle.query_server.specs.Outside.{doors_in};
ghost use Rattle.query_server.specs.ServiceOver.{door_at};
ghost use Rattle.query_server.specs.Shelves.{AreAtHome};
ghost use Rattle.worked_row.specs.Grant.{grant_words, granted_text, IsGranted};
ghost use Rattle.worked_row.specs.Held.{AreRowFiles, IsJournalMade};
ghost use Rattle.worked_row.specs.Serve.{IsOneService, IsRowServed, IsToCome};

use fz_outside::files::Files;
use fz_outside::sink::Sink;
use fz_outside::source::Source;
use outside_bays::bay::Bay;
use outside_doors::door::Doors;
use outside_links::gate::Gate;
use query_server::{Status, run_server};
use std::alloc::Global;
use std::sync::Wait;
use std::thread::Threads;

/// The owner grants 5 epsilon on top of 10, over a journal that was made and has no records. The line says 15 and one record, and the
/// journal's bytes stand for that record; or memory is wanting, the owner's disk failed, or files or sink did; nothing else can come.
pub fn grant_row<
    R: Threads + Wait + Sync,
    F: Files,
    B: Bay,
    S: Source,
    K: Sink,
    O: Doors + Drop + Send,
    G: Gate + Sync,
>(
    rt: &R,
    alloc: Global,
    words: &[String],
    files: &mut F,
    bay: &mut B,
    source: &mut S,
    sink: &mut K,
    doors: &mut Vec<O>,
    gate: &G,
) -> Status
where
    O::L: Send,
    requires home { AreAtHome (B.owners bay.old) (B.shelf bay.old) }
    requires doors { 16 ≤ length doors.old.items }
    requires words { map string_bytes words.now ≡ grant_words }
    requires files { (held : Contents) × (F.held files.old ≡ Some held) × AreRowFiles held }
    requires sink { K.contents sink.old ≡ Some [] }
    requires made { IsJournalMade (B.shelf bay.old) }
    ensures { IfFinished result ((result ≡ Status.Done) × (K.contents sink.new ≡ Some granted_text) × IsGranted (B.shelf bay.new)) }
{
    run_server(rt, alloc, words, files, bay, source, sink, doors, gate)
}

/// One worker serves one connection, over which the row's script comes, over a journal that was made and has no records. Where that ends
/// well, the connection was handed back, and unless one of its calls failed the row was written to it: the answer with its number charged,
/// and `bye`; or memory was wanting for the program or after its reservation; or the owner's disk failed.
pub fn serve_row<
    R: Threads + Wait + Sync,
    F: Files,
    B: Bay,
    S: Source,
    K: Sink,
    O: Doors + Drop + Send,
    G: Gate + Sync,
>(
    rt: &R,
    alloc: Global,
    words: &[String],
    files: &mut F,
    bay: &mut B,
    source: &mut S,
    sink: &mut K,
    doors: &mut Vec<O>,
    gate: &G,
) -> Status
where
    O::L: Send,
    requires home { AreAtHome (B.owners bay.old) (B.shelf bay.old) }
    requires doors { 16 ≤ length doors.old.items }
    requires words { IsOneService (map string_bytes words.now) }
    requires files { (held : Contents) × (F.held files.old ≡ Some held) × AreRowFiles held }
    requires comes { IsToCome (door_at (doors_in O.coming O.served O.faults doors.old.items) 0) }
    requires made { IsJournalMade (B.shelf bay.old) }
    ensures { result ≡ Status.Done → IsRowServed (door_at (doors_in O.coming O.served O.faults doors.new.items) 0) }
{
    run_server(rt, alloc, words, files, bay, source, sink, doors, gate)
}
