//! The crew of workers: hired, at work, and brought in.

ghost use Rattle.std.specs.Prelude.{◌≡◌, ◌+◌, ◌++◌, ◌^◌, ◌<◌, ◌≤◌, [], ◌∷◌, ℕ, length};
ghost use Rattle.std.specs.Prelude.{map, sum_by, All, IfErr, IfOk, OnOk, get_or, slice_index_or, vec_capacity};
ghost use Rattle.word_streams.specs.Draws.{draws_of};
ghost use Rattle.owner_house.specs.House.{house_of};
ghost use Rattle.held_sessions.specs.SessionCore.Bundles.{given_halves, handed_on, kept_halves};
ghost use Rattle.held_sessions.specs.SessionCore.Code.{ArePasses, pass_at};
ghost use Rattle.script_workers.specs.Crews.{HasTakenAll, needed};
ghost use Rattle.service_workers.specs.Services.{door_of};
ghost use Rattle.service_workers.specs.Code.{HasAttended, IsPosted, worse_of, worst_of};
ghost use Rattle.worker_pool.specs.Workers.{worker_limit};

use crate::posting::{Posting, Service};
use crate::worker::{Place, Worker, attend_own};
use outside_disks::disk::Disk;
use outside_doors::door::Doors;
use outside_links::gate::Gate;
use owner_house::house::House;
use script_workers::{Desk, Passes, Server, Token};
use std::alloc::{AllocError, Global};
use std::sync::Wait;
use std::thread::Threads;
use word_streams::KeyStreams;
use worker_pool::{NotStarted, work_together};

// A worker for the first of some doors, with half of the passes' shares. Without memory nothing is given away.
fn hire<D: Disk, O: Drop>(
    alloc: Global,
    desks: &[Desk<D>],
    passes: &mut Passes<D>,
    doors: &mut Vec<O>,
) -> Result<Worker<Token<D>, O>, AllocError>
    requires here { passes.old.locks ≡ desks.now }
    requires shares { All (λ s. 2 ≤ s) passes.old.shares }
    requires door { 0 < length doors.old.items }
    ensures kept { IfOk result (λ _. passes.new ≡ kept_halves passes.old) }
    ensures passes { IfOk result (λ w. w.passes ≡ given_halves passes.old) }
    ensures door { IfOk result (λ w. doors.old.items ≡ w.door ∷ doors.new.items) }
    ensures capacity { vec_capacity doors.new ≡ vec_capacity doors.old }
    ensures refused { IfErr result (λ _. (passes.new ≡ passes.old) × (doors.new.items ≡ doors.old.items)) }
{
    let half = passes.split(alloc, desks)?;
    Ok(Worker {
        passes: half,
        door: doors.remove(0),
        end: Service::Served,
    })
}

/// Hires a worker for each of so many doors, or for as many as there is memory for: with half of each share that is left, and its door.
pub(crate) fn hire_all<D: Disk, O: Drop>(
    alloc: Global,
    desks: &[Desk<D>],
    passes: &mut Passes<D>,
    doors: &mut Vec<O>,
    count: usize,
    crew: &mut Vec<Worker<Token<D>, O>>,
) -> Result<(), AllocError>
    requires here { passes.old.locks ≡ desks.now }
    requires shares { All (λ s. needed count ≤ s) passes.old.shares }
    requires doors { count ≤ length doors.old.items }
    requires room { (crew.old.items ≡ []) × (count ≤ vec_capacity crew.old) }
    ensures len { OnOk result (length crew.new.items ≡ count) }
    ensures hired { (i : ℕ) (d : _) → i < length crew.new.items →
        ((slice_index_or crew.new.items i d).passes.locks ≡ passes.old.locks)
        × ((slice_index_or crew.new.items i d).passes.knows ≡ map handed_on passes.old.knows) }
    // Each door is one worker's, or is left.
    ensures doors { doors.old.items ≡ map (λ w. w.door) crew.new.items ++ doors.new.items }
    ensures capacity { vec_capacity doors.new ≡ vec_capacity doors.old }
    ensures kept { (passes.new.locks ≡ passes.old.locks) × (passes.new.knows ≡ passes.old.knows) }
    // No share is lost.
    ensures shares { (o : ℕ) →
        get_or passes.new.shares o 0 + sum_by (λ w. get_or w.passes.shares o 0) crew.new.items ≡ get_or passes.old.shares o 0 }
{
    for _ in 0..count {
        crew.push_reserved(hire(alloc, desks, passes, doors)?);
    }
    Ok(())
}

/// Each worker attends its door, in a thread of its own, once all have threads. The words of noise are of one type: a check that values may
/// go to a thread is found for one type with a type of its own, and not yet for two.
pub(crate) fn work<
    R: Threads + Wait + Sync,
    D: Disk + Send,
    G: Gate + Sync,
    O: Doors + Drop + Send,
>(
    rt: &R,
    alloc: Global,
    house: &House,
    desks: &[Desk<D>],
    streams: &KeyStreams,
    gate: &G,
    posting: &Posting<'_>,
    crew: Vec<Worker<Token<D>, O>>,
) -> Result<Vec<Worker<Token<D>, O>>, NotStarted<Worker<Token<D>, O>>>
where
    O::L: Send,
    requires some { (0 < length crew.items) × (length crew.items ≤ worker_limit) }
    requires ports { posting.now.port + length crew.items ≤ 2 ^ 16 }
    requires each { 0 < posting.now.each }
    requires here { (i : ℕ) (d : _) → i < length crew.items → (slice_index_or crew.items i d).passes.locks ≡ desks.now }
    requires passes { (i : ℕ) (d : _) → i < length crew.items → ArePasses (house_of house.now) (slice_index_or crew.items i d).passes.knows }
    ensures len { IfOk result (λ after. length after.items ≡ length crew.items) }
    ensures attended { IfOk result (λ after. (i : ℕ) (d : _) → i < length crew.items →
        HasAttended (house_of house.now) (draws_of streams.now) posting.now.each (slice_index_or after.items i d).end
        (door_of (O.coming (slice_index_or crew.items i d).door) (O.served (slice_index_or crew.items i d).door) (O.faults (slice_index_or crew.items i d).door))
        (door_of (O.coming (slice_index_or after.items i d).door) (O.served (slice_index_or after.items i d).door) (O.faults (slice_index_or after.items i d).door))
        (slice_index_or crew.items i d).passes.knows (slice_index_or after.items i d).passes.knows) }
    ensures posted { IfOk result (λ after. (i : ℕ) (d : _) → i < length crew.items →
        IsPosted (O.listens (slice_index_or after.items i d).door posting.now.addr.now (posting.now.port + i))
        (O.faults (slice_index_or crew.items i d).door) (O.faults (slice_index_or after.items i d).door)) }
    ensures kept { IfOk result (λ after. (i : ℕ) (d : _) → i < length crew.items → (slice_index_or after.items i d).passes
        ≡ record (slice_index_or crew.items i d).passes { knows = (slice_index_or after.items i d).passes.knows }) }
    ensures refused { IfErr result (λ refused. refused.crew.items ≡ crew.items) }
{
    let count = crew.len();
    let job = |index: usize, worker: &mut Worker<Token<D>, O>|
        requires { (index < count) × (count ≤ worker_limit) × (posting.now.port + count ≤ 2 ^ 16) × (0 < posting.now.each)
            × (worker.old.passes.locks ≡ desks.now) × ArePasses (house_of house.now) worker.old.passes.knows }
        ensures { HasAttended (house_of house.entry.now) (draws_of streams.entry.now) posting.entry.now.each worker.new.end
            (door_of (O.coming worker.old.door) (O.served worker.old.door) (O.faults worker.old.door))
            (door_of (O.coming worker.new.door) (O.served worker.new.door) (O.faults worker.new.door))
            worker.old.passes.knows worker.new.passes.knows
            × IsPosted (O.listens worker.new.door posting.entry.now.addr.now (posting.entry.now.port + index))
            (O.faults worker.old.door) (O.faults worker.new.door)
            × (worker.new.passes ≡ record worker.old.passes { knows = worker.new.passes.knows }) }
    {
        let server = Server {
            rt,
            alloc,
            house,
            desks,
            streams,
            gate,
        };
        attend_own(&server, worker, posting, Place { index, count });
    };
    work_together(rt, alloc, crew, &job)
}

// Puts a door in front of the others, for which there is room.
fn put_first<O>(doors: &mut Vec<O>, door: O)
    requires room { length doors.old.items < vec_capacity doors.old }
    ensures items { doors.new.items ≡ door ∷ doors.old.items }
    ensures capacity { vec_capacity doors.new ≡ vec_capacity doors.old }
{
    doors.push_reserved(door);
    doors.rotate_right(1);
}

// What a worker's end makes of that of others: a connection that was dropped is told before a door's fault.
fn worse(one: Service, other: Service) -> Service
    ensures { result ≡ worse_of one other }
{
    match (one, other) {
        (Service::NoMemory, _) | (_, Service::NoMemory) => Service::NoMemory,
        (Service::DoorFault, _) | (_, Service::DoorFault) => Service::DoorFault,
        _ => Service::Served,
    }
}

/// Takes the passes of all workers in, puts their doors in front of those that are left, and says what they come to.
pub(crate) fn bring_in<D: Disk, O: Drop>(
    desks: &[Desk<D>],
    passes: &mut Passes<D>,
    doors: &mut Vec<O>,
    crew: Vec<Worker<Token<D>, O>>,
) -> Service
    requires here { passes.old.locks ≡ desks.now }
    requires all { (i : ℕ) (d : _) → i < length crew.items → (slice_index_or crew.items i d).passes.locks ≡ desks.now }
    requires room { length crew.items + length doors.old.items ≤ vec_capacity doors.old }
    ensures locks { passes.new.locks ≡ passes.old.locks }
    ensures shares { (o : ℕ) →
        get_or passes.new.shares o 0 ≡ get_or passes.old.shares o 0 + sum_by (λ w. get_or w.passes.shares o 0) crew.items }
    ensures taken { (o : ℕ) → o < length desks.now →
        HasTakenAll (pass_at passes.old.knows o) (map (λ w. pass_at w.passes.knows o) crew.items) (pass_at passes.new.knows o) }
    ensures len { (length passes.new.shares ≡ length desks.now) × (length passes.new.knows ≡ length desks.now) }
    ensures doors { doors.new.items ≡ map (λ w. w.door) crew.items ++ doors.old.items }
    ensures end { result ≡ worst_of (map (λ w. w.end) crew.items) }
{
    let mut end = Service::Served;
    let mut workers = crew;
    while let Some(worker) = workers.pop() {
        end = worse(end, worker.end);
        passes.join(desks, worker.passes);
        put_first(doors, worker.door);
    }
    let owners = passes.len();
    prove!(owners == desks.len());
    end
}
