//! A script, from its bytes to its replies.

ghost use Rattle.std.specs.Prelude.{◌≡◌, ◌^◌, ◌-◌, ◌<◌, ◌≤◌, ℕ, min, sum_by, All, IfErr, IfOk, get_or};
ghost use Rattle.owner_lock.specs.Known.{whole_share};
ghost use Rattle.session_core.specs.OwnerHouse.House.{house_of};
ghost use Rattle.session_core.specs.Blocks.{script_blocks};
ghost use Rattle.session_core.specs.Code.{AreFresh, ArePasses, room_for_lines};
ghost use Rattle.session_core.specs.Worked.{HasWorked, HaveAddedNone};
ghost use Rattle.worker_pool.specs.Workers.{worker_limit};

use crate::crew::{bring_in, hire_all, work};
use crate::order::put_in_order;
use crate::starts::starts_of;
use fz_outside::words::Streams;
use outside_disks::disk::Disk;
use outside_links::gate::Gate;
use session_core::blocks::pass_block;
use session_core::passes::Passes;
use session_core::{Desk, House};
use std::alloc::{AllocError, Global};
use std::sync::Wait;
use std::thread::Threads;

// Room for the replies to all blocks.
fn room_for(script: &[u8]) -> usize
    ensures { result ≡ min (2 ^ 64 - 1) (sum_by room_for_lines (script_blocks script.now)) }
{
    let mut room = 0usize;
    let mut rest = script;
    while !rest.is_empty() {
        let block = pass_block(rest);
        room = room.saturating_add(block.room);
        rest = block.behind;
    }
    room
}

/// The replies to a script, which so many workers answer. All memory but that of the lines themselves is taken before they begin.
pub fn answer_script<R: Threads + Wait + Sync, D: Disk + Send, S: Streams + Sync, G: Gate + Sync>(
    rt: &R,
    alloc: Global,
    house: &House,
    desks: &[Desk<D>],
    passes: &mut Passes<D>,
    streams: &S,
    gate: &G,
    script: &[u8],
    workers: usize,
) -> Result<Vec<u8>, AllocError>
where
    S::W: Send,
    requires workers { (0 < workers) × (workers ≤ worker_limit) }
    requires here { passes.old.locks ≡ desks.now }
    requires passes { ArePasses (house_of house.now) passes.old.knows }
    requires fresh { AreFresh (house_of house.now) passes.old.knows }
    requires shares { All (λ s. s ≡ whole_share) passes.old.shares }
    // The stated replies, in any order with those of other workers; what all of them added is the passes' own.
    ensures worked { IfOk result (λ out. HasWorked (house_of house.now) (S.given streams.now) workers script.now out.items passes.old.knows passes.new.knows) }
    ensures refused { IfErr result (λ _. HaveAddedNone (house_of house.now) passes.old.knows passes.new.knows) }
    ensures passes { ArePasses (house_of house.now) passes.new.knows }
    // All shares are back.
    ensures back { (passes.new.locks ≡ passes.old.locks) × All (λ s. s ≡ whole_share) passes.new.shares }
{
    let owners = passes.len();
    prove!(owners == desks.len());
    let mut out = Vec::with_capacity(alloc, room_for(script))?;
    let starts = starts_of(alloc, script)?;
    let mut crew = Vec::with_capacity(alloc, workers)?;
    match hire_all(alloc, desks, passes, script, workers, &mut crew) {
        Ok(()) => {
            work(rt, alloc, house, desks, streams, gate, &starts, &mut crew);
            put_in_order(&starts, &crew, &mut out);
            bring_in(desks, passes, crew);
            Ok(out)
        }
        Err(refusal) => {
            bring_in(desks, passes, crew);
            Err(refusal)
        }
    }
}
