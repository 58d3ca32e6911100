//! The crew of workers: hired, at work, and brought in.

ghost use Rattle.std.specs.Prelude.{◌≡◌, ◌+◌, ◌<◌, ◌≤◌, [], ℕ, length, map, sum_by, All, OnOk, get_or, slice_index_or, vec_capacity};
ghost use Rattle.session_core.specs.OwnerHouse.House.{house_of};
ghost use Rattle.session_core.specs.Blocks.{script_blocks};
ghost use Rattle.session_core.specs.Code.{ArePasses, pass_at};
ghost use Rattle.script_workers.specs.Crews.{HasDone, HasRoomFor, HasTakenAll, IsHired, needed};
ghost use Rattle.script_workers.specs.Starts.{blocks_at};
ghost use Rattle.worker_pool.specs.Workers.{worker_limit};

use crate::needs::needs_of_all;
use crate::worker::{Worker, hire, serve};
use fz_outside::words::Streams;
use outside_disks::disk::Disk;
use outside_links::gate::Gate;
use session_core::passes::{Passes, Token};
use session_core::server::Server;
use session_core::{Desk, House};
use std::alloc::{AllocError, Global};
use std::sync::Wait;
use std::thread::Threads;
use worker_pool::work_each;

/// Hires so many workers, or as many as there is memory for.
pub(crate) fn hire_all<D: Disk>(
    alloc: Global,
    desks: &[Desk<D>],
    passes: &mut Passes<D>,
    script: &[u8],
    count: usize,
    crew: &mut Vec<Worker<Token<D>>>,
) -> Result<(), AllocError>
    requires here { passes.old.locks ≡ desks.now }
    requires shares { All (λ s. needed count ≤ s) passes.old.shares }
    requires few { (0 < count) × (count ≤ worker_limit) }
    requires room { (crew.old.items ≡ []) × (count ≤ vec_capacity crew.old) }
    ensures len { OnOk result (length crew.new.items ≡ count) }
    ensures hired { (i : ℕ) (d : _) → i < length crew.new.items →
        IsHired count i (script_blocks script.now) passes.old (slice_index_or crew.new.items i d).passes (slice_index_or crew.new.items i d).texts }
    ensures kept { (passes.new.locks ≡ passes.old.locks) × (passes.new.knows ≡ passes.old.knows) }
    // No share is lost.
    ensures shares { (o : ℕ) →
        get_or passes.new.shares o 0 + sum_by (λ w. get_or w.passes.shares o 0) crew.new.items ≡ get_or passes.old.shares o 0 }
{
    let needs = needs_of_all(script, count);
    for index in 0..count {
        crew.push_reserved(hire(alloc, desks, passes, needs[index])?);
    }
    Ok(())
}

/// Each worker answers its blocks, in a thread of its own where one can be started.
pub(crate) fn work<R: Threads + Wait + Sync, D: Disk + Send, S: Streams + Sync, G: Gate + Sync>(
    rt: &R,
    alloc: Global,
    house: &House,
    desks: &[Desk<D>],
    streams: &S,
    gate: &G,
    starts: &[&[u8]],
    crew: &mut [Worker<Token<D>>],
)
where
    S::W: Send,
    requires some { 0 < length crew.old }
    requires here { (i : ℕ) (d : _) → i < length crew.old → (slice_index_or crew.old i d).passes.locks ≡ desks.now }
    requires passes { (i : ℕ) (d : _) → i < length crew.old → ArePasses (house_of house.now) (slice_index_or crew.old i d).passes.knows }
    requires room { (i : ℕ) (d : _) → i < length crew.old → HasRoomFor (length crew.old) i (blocks_at starts.now) (slice_index_or crew.old i d).texts }
    ensures len { length crew.new ≡ length crew.old }
    ensures done { (i : ℕ) (d : _) → i < length crew.old →
        HasDone (house_of house.now) (S.given streams.now) (length crew.old) i (blocks_at starts.now)
        (slice_index_or crew.old i d).passes (slice_index_or crew.new i d).passes (slice_index_or crew.new i d).texts }
{
    let count = crew.len();
    let job = |index: usize, worker: &mut Worker<Token<D>>|
        requires { (0 < count) × (worker.old.passes.locks ≡ desks.now) × ArePasses (house_of house.now) worker.old.passes.knows
            × HasRoomFor count index (blocks_at starts.now) worker.old.texts }
        ensures { HasDone (house_of house.entry.now) (S.given streams.entry.now) count index (blocks_at starts.entry.now)
            worker.old.passes worker.new.passes worker.new.texts }
    {
        let server = Server {
            rt,
            alloc,
            house,
            desks,
            streams,
            gate,
        };
        serve(&server, worker, starts, count, index);
        nudge_all(desks);
    };
    work_each(rt, &job, crew);
}

// A worker that has answered its last block won't ask for an owner again.
fn nudge_all<D: Disk>(desks: &[Desk<D>]) {
    for desk in desks {
        desk.nudge();
    }
}

/// Takes the passes of all workers in.
pub(crate) fn bring_in<D: Disk>(
    desks: &[Desk<D>],
    passes: &mut Passes<D>,
    crew: Vec<Worker<Token<D>>>,
)
    requires here { passes.old.locks ≡ desks.now }
    requires all { (i : ℕ) (d : _) → i < length crew.items → (slice_index_or crew.items i d).passes.locks ≡ desks.now }
    ensures locks { passes.new.locks ≡ passes.old.locks }
    ensures shares { (o : ℕ) →
        get_or passes.new.shares o 0 ≡ get_or passes.old.shares o 0 + sum_by (λ w. get_or w.passes.shares o 0) crew.items }
    ensures taken { (o : ℕ) → o < length desks.now →
        HasTakenAll (pass_at passes.old.knows o) (map (λ w. pass_at w.passes.knows o) crew.items) (pass_at passes.new.knows o) }
    ensures len { (length passes.new.shares ≡ length desks.now) × (length passes.new.knows ≡ length desks.now) }
{
    let mut workers = crew;
    while let Some(worker) = workers.pop() {
        passes.join(desks, worker.passes);
    }
    let owners = passes.len();
    prove!(owners == desks.len());
}
