//! The connections of doors are served.

ghost use Rattle.std.specs.Prelude.{◌≡◌, ◌⊎◌, ◌+◌, ◌^◌, ◌<◌, ◌≤◌, ℕ, List, Option, length, All, IsErrOf};
ghost use Rattle.word_streams.specs.Draws.{draws_of};
ghost use Rattle.fz_outside.specs.Faults.{HasRisen};
ghost use Rattle.owner_house.specs.House.{house_of};
ghost use Rattle.owner_lock.specs.Known.{whole_share};
ghost use Rattle.command_words.specs.Program.{greatest_workers};
ghost use Rattle.generated_run.specs.SessionCore.Code.{AreFresh, ArePasses};
ghost use Rattle.query_server.specs.Work.{ended, to_serve};
ghost use Rattle.query_server.specs.Serve.{serve_steps};
ghost use Rattle.owner_books.specs.Shelves.{AreAtHome};
ghost use Rattle.query_server.specs.Outside.{DoorsStay, KeepsFiles, SomeDoorRose, doors_in};
ghost use Rattle.owner_books.specs.Bays.{HasDiskCause, HasLostCause, KeepsBay};
ghost use Rattle.query_server.specs.Due.{ForContents};
ghost use Rattle.query_server.specs.Service.{IsServiceAt, IsServiceEnd, IsServiceOn};
ghost use Rattle.query_server.specs.Ends.{IsEndOf, IsStepEnd};

use crate::end::End;
use catalog_loading::{Opened, Stop, open_house};
use fz_outside::files::Files;
use generated_run::{Desk, Passes};
use outside_bays::bay::Bay;
use outside_disks::disk::Disk;
use outside_doors::door::Doors;
use outside_links::gate::Gate;
use owner_books::{Opening, open_desks, put_back};
use owner_house::house::House;
use service_workers::{Posting, Service, serve_all};
use std::alloc::Global;
use std::sync::Wait;
use std::thread::Threads;
use word_streams::KeyStreams;

/// Where so many workers are to listen, and how many connections each is to serve.
#[derive(Clone, Copy, Drop)]
pub(crate) struct Post<'a> {
    pub(crate) posting: Posting<'a>,
    pub(crate) workers: u32,
}

impl<'a> Post<'a> {
    /// So many workers are to listen at this port and at those behind it.
    pub(crate) fn new(addr: &'a str, port: u32, workers: u32, each: u32) -> Post<'a>
        requires { port < 2 ^ 16 }
        ensures port { result.posting.port ≡ port }
        ensures each { result.posting.each ≡ each }
        ensures workers { result.workers ≡ workers }
    {
        Post {
            posting: Posting {
                addr,
                port: port as u16,
                each,
            },
            workers,
        }
    }
}

/// Serves over the owners' books.
fn serve_over<R: Threads + Wait + Sync, D: Disk + Send, O: Doors + Drop + Send, G: Gate + Sync>(
    rt: &R,
    alloc: Global,
    house: &House,
    key: [u8; 32],
    desks: &[Desk<D>],
    passes: &mut Passes<D>,
    doors: &mut Vec<O>,
    gate: &G,
    post: &Post<'_>,
) -> Result<End, Stop>
where
    O::L: Send,
    requires workers { (1 ≤ post.now.workers) × (post.now.workers ≤ greatest_workers) }
    requires doors { greatest_workers ≤ length doors.old.items }
    requires ports { post.now.posting.port + post.now.workers ≤ 2 ^ 16 }
    requires some { 1 ≤ post.now.posting.each }
    requires here { passes.old.locks ≡ desks.now }
    requires passes { ArePasses (house_of house.now) passes.old.knows }
    requires fresh { AreFresh (house_of house.now) passes.old.knows }
    requires shares { All (λ s. s ≡ whole_share) passes.old.shares }
    ensures end { IsServiceEnd (house_of house.now) (draws_of key) post.now.workers post.now.posting.each
        (doors_in O.coming O.served O.faults doors.old.items) (doors_in O.coming O.served O.faults doors.new.items)
        passes.old.knows passes.new.knows result }
    ensures passes { ArePasses (house_of house.now) passes.new.knows }
    ensures back { (passes.new.locks ≡ passes.old.locks) × All (λ s. s ≡ whole_share) passes.new.shares }
{
    let streams = KeyStreams::new(key);
    let workers = post.workers as usize;
    match serve_all(
        rt,
        alloc,
        house,
        desks,
        passes,
        &streams,
        gate,
        doors,
        &post.posting,
        workers,
    ) {
        Ok(Service::Served) => Ok(End::Done(Vec::new(alloc))),
        Ok(Service::DoorFault) => Err(Stop::Fault),
        Ok(Service::NoMemory) => Err(Stop::NoMemory),
        Err(_) => Err(Stop::NoMemory),
    }
}

/// Opens the owners' books, serves over them, and puts the disks back.
fn serve_house<R: Threads + Wait + Sync, B: Bay, O: Doors + Drop + Send, G: Gate + Sync>(
    rt: &R,
    alloc: Global,
    opened: &mut Opened,
    bay: &mut B,
    doors: &mut Vec<O>,
    gate: &G,
    post: &Post<'_>,
) -> Result<End, Stop>
where
    O::L: Send,
    requires home { AreAtHome (B.owners bay.old) (B.shelf bay.old) }
    requires workers { (1 ≤ post.now.workers) × (post.now.workers ≤ greatest_workers) }
    requires doors { greatest_workers ≤ length doors.old.items }
    requires ports { post.now.posting.port + post.now.workers ≤ 2 ^ 16 }
    requires some { 1 ≤ post.now.posting.each }
    ensures end { (script : List ℕ) → IsEndOf (to_serve post.now.workers post.now.posting.each opened.old.loading opened.old.key)
        (B.shelf bay.old) (B.shelf bay.new) script result }
    ensures service { IsServiceOn opened.old.loading opened.old.key post.now.workers post.now.posting.each (B.shelf bay.old) (B.shelf bay.new)
        (doors_in O.coming O.served O.faults doors.old.items) (doors_in O.coming O.served O.faults doors.new.items) result }
    ensures bay { KeepsBay B.shelf B.owners B.faults bay.old bay.new }
    ensures cause { IsErrOf result Stop.Fault →
        SomeDoorRose (doors_in O.coming O.served O.faults doors.old.items) (doors_in O.coming O.served O.faults doors.new.items) }
    ensures disk { HasDiskCause B.shelf B.owners B.faults bay.old bay.new result }
    ensures lost { HasLostCause B.shelf B.owners B.faults bay.old bay.new result }
{
    let Opening { desks, passes } = open_desks(alloc, bay, opened)?;
    let house = opened.house();
    let mut passes = Passes::new(passes);
    let end = serve_over(
        rt,
        alloc,
        house,
        opened.key(),
        &desks,
        &mut passes,
        doors,
        gate,
        post,
    );
    put_back(bay, desks, passes.into_vec());
    end
}

/// Opens the house of a catalog and a key, and serves the connections of the first doors.
pub(crate) fn serve_doors<
    R: Threads + Wait + Sync,
    F: Files,
    B: Bay,
    O: Doors + Drop + Send,
    G: Gate + Sync,
>(
    rt: &R,
    alloc: Global,
    files: &mut F,
    bay: &mut B,
    doors: &mut Vec<O>,
    gate: &G,
    catalog: &str,
    key: &str,
    post: &Post<'_>,
) -> Result<End, Stop>
where
    O::L: Send,
    requires home { AreAtHome (B.owners bay.old) (B.shelf bay.old) }
    requires workers { (1 ≤ post.now.workers) × (post.now.workers ≤ greatest_workers) }
    requires doors { greatest_workers ≤ length doors.old.items }
    requires ports { post.now.posting.port + post.now.workers ≤ 2 ^ 16 }
    requires some { 1 ≤ post.now.posting.each }
    ensures end { (left : Option (List ℕ)) → ForContents (F.held files.old) left
        (IsStepEnd (F.names files.old) (F.names files.new) (B.shelf bay.old) (B.shelf bay.new)
        (serve_steps catalog.now key.now post.now.workers post.now.posting.each) result) }
    ensures service { (left : Option (List ℕ)) → ForContents (F.held files.old) left
        (λ reads script. IsServiceAt (ended (serve_steps catalog.now key.now post.now.workers post.now.posting.each reads).given)
        (B.shelf bay.old) (B.shelf bay.new)
        (doors_in O.coming O.served O.faults doors.old.items) (doors_in O.coming O.served O.faults doors.new.items) result) }
    // Where a call of files failed, no disk was touched, and no door.
    ensures unmoved { F.faults files.old < F.faults files.new → bay.new ≡ bay.old }
    ensures unposted { F.faults files.old < F.faults files.new → doors.new ≡ doors.old }
    ensures doors { DoorsStay (doors_in O.coming O.served O.faults doors.old.items) (doors_in O.coming O.served O.faults doors.new.items) }
    ensures files { KeepsFiles F.held F.names F.faults files.old files.new }
    ensures bay { KeepsBay B.shelf B.owners B.faults bay.old bay.new }
    ensures cause { IsErrOf result Stop.Fault → HasRisen (F.faults files.old) (F.faults files.new)
        ⊎ SomeDoorRose (doors_in O.coming O.served O.faults doors.old.items) (doors_in O.coming O.served O.faults doors.new.items) }
    ensures disk { HasDiskCause B.shelf B.owners B.faults bay.old bay.new result }
    ensures lost { HasLostCause B.shelf B.owners B.faults bay.old bay.new result }
{
    let mut opened = open_house(alloc, files, catalog, key)?;
    serve_house(rt, alloc, &mut opened, bay, doors, gate, post)
}
