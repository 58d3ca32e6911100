//! A service, from its doors to the last connection.

ghost use Rattle.std.specs.Prelude.{◌≡◌, ◌+◌, ◌^◌, ◌<◌, ◌≤◌, ℕ, length, map, All, IfErr, IfOk, slice_index_or};
ghost use Rattle.owner_lock.specs.Known.{whole_share};
ghost use Rattle.word_streams.specs.Draws.{draws_of};
ghost use Rattle.owner_house.specs.House.{house_of};
ghost use Rattle.held_sessions.specs.SessionCore.Code.{AreFresh, ArePasses};
ghost use Rattle.held_sessions.specs.SessionCore.Worked.{HaveAddedNone};
ghost use Rattle.service_workers.specs.Services.{IsService, door_of};
ghost use Rattle.service_workers.specs.Code.{IsPosted};
ghost use Rattle.worker_pool.specs.Workers.{worker_limit};

use crate::crew::{bring_in, hire_all, work};
use crate::posting::{Posting, Service};
use outside_disks::disk::Disk;
use outside_doors::door::Doors;
use outside_links::gate::Gate;
use owner_house::house::House;
use script_workers::{Desk, Passes};
use std::alloc::{AllocError, Global};
use std::sync::Wait;
use std::thread::Threads;
use word_streams::KeyStreams;

/// So many workers serve connections, each those of the door at its place. All memory but that of the sessions themselves is taken before
/// they begin, and they begin once all have threads: where one can't be started, nothing is served.
///
/// A worker ends after a fault of its door. It goes on after a connection that failed, or that gave too many bytes; and after one that
/// it dropped, since there was no memory for its session, which counts as served.
pub fn serve_all<R: Threads + Wait + Sync, D: Disk + Send, G: Gate + Sync, O: Doors + Drop + Send>(
    rt: &R,
    alloc: Global,
    house: &House,
    desks: &[Desk<D>],
    passes: &mut Passes<D>,
    streams: &KeyStreams,
    gate: &G,
    doors: &mut Vec<O>,
    posting: &Posting<'_>,
    workers: usize,
) -> Result<Service, AllocError>
where
    O::L: Send,
    requires workers { (0 < workers) × (workers ≤ worker_limit) }
    requires doors { workers ≤ length doors.old.items }
    requires ports { posting.now.port + workers ≤ 2 ^ 16 }
    requires some { 0 < posting.now.each }
    requires here { passes.old.locks ≡ desks.now }
    requires passes { ArePasses (house_of house.now) passes.old.knows }
    requires fresh { AreFresh (house_of house.now) passes.old.knows }
    requires shares { All (λ s. s ≡ whole_share) passes.old.shares }
    // Each worker's sessions, at its door and by its passes; what all of them added is the passes' own.
    ensures service { IfOk result (λ end. IsService (house_of house.now) (draws_of streams.now) workers posting.now.each end
        (map (λ d. door_of (O.coming d) (O.served d) (O.faults d)) doors.old.items) (map (λ d. door_of (O.coming d) (O.served d) (O.faults d)) doors.new.items)
        passes.old.knows passes.new.knows) }
    // Worker i's door listens at the given address and port P + i, or it has failed.
    ensures posted { IfOk result (λ _. (i : ℕ) (d : O) → i < workers →
        IsPosted (O.listens (slice_index_or doors.new.items i d) posting.now.addr.now (posting.now.port + i))
        (O.faults (slice_index_or doors.old.items i d)) (O.faults (slice_index_or doors.new.items i d))) }
    ensures refused { IfErr result (λ _. HaveAddedNone (house_of house.now) passes.old.knows passes.new.knows) }
    ensures untouched { IfErr result (λ _. doors.new.items ≡ doors.old.items) }
    ensures passes { ArePasses (house_of house.now) passes.new.knows }
    // All shares are back.
    ensures back { (passes.new.locks ≡ passes.old.locks) × All (λ s. s ≡ whole_share) passes.new.shares }
{
    let owners = passes.len();
    prove!(owners == desks.len());
    let mut crew = Vec::with_capacity(alloc, workers)?;
    match hire_all(alloc, desks, passes, doors, workers, &mut crew) {
        Ok(()) => match work(rt, alloc, house, desks, streams, gate, posting, crew) {
            Ok(crew) => Ok(bring_in(desks, passes, doors, crew)),
            Err(idle) => {
                bring_in(desks, passes, doors, idle.crew);
                Err(AllocError)
            }
        },
        Err(refusal) => {
            bring_in(desks, passes, doors, crew);
            Err(refusal)
        }
    }
}
