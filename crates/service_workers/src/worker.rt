//! One worker, and what it does.

ghost use Rattle.std.specs.Prelude.{◌≡◌, ◌≢◌, ◌+◌, ◌*◌, ◌-◌, ◌^◌, ◌<◌, ◌≤◌, ◌||◌, min, ℕ, List, IsErr, IfOk, MatchBool, OnErr};
ghost use Rattle.fz_outside.specs.Faults.{HasCause};
ghost use Rattle.owner_house.specs.House.{house_of};
ghost use Rattle.held_sessions.specs.SessionCore.Code.{ArePasses};
ghost use Rattle.held_sessions.specs.SessionEnds.{NoMemory};
ghost use Rattle.service_workers.specs.Services.{door_of};
ghost use Rattle.service_workers.specs.Code.{HasAttended, HasHeld, IsPosted, end_by};
ghost use Rattle.worker_pool.specs.Workers.{worker_limit};

use crate::posting::{Posting, Service};
use fz_outside::Failed;
use fz_outside::words::Streams;
use held_sessions::{SessionEnd, serve};
use outside_disks::disk::Disk;
use outside_doors::door::Doors;
use outside_links::gate::Gate;
use owner_desk::Knows;
use script_workers::{Bundle, Passes, Server, Token};
use std::sync::Wait;
use std::thread::Parker;
use std::time::Duration;

/// A worker's passes, its door, and how its work ended. It is generic in what its passes hold, so that it may go to a thread of its own.
#[derive(Drop)]
pub(crate) struct Worker<T: Knows, O: Drop> {
    pub(crate) passes: Bundle<T>,
    pub(crate) door: O,
    pub(crate) end: Service,
}

/// Which worker it is, of how many.
#[derive(Clone, Copy)]
pub(crate) struct Place {
    pub(crate) index: usize,
    pub(crate) count: usize,
}

impl Place {
    // What a worker's connections are numbered by, as the gate is told.
    fn block(&self, number: u32) -> u32
        ensures { result ≡ min (2 ^ 32 - 1) (self.now.index + self.now.count * number) }
    {
        let own = self.count.saturating_mul(number as usize);
        u32::try_from(own.saturating_add(self.index)).unwrap_or(u32::MAX)
    }
}

// Serves the next connection that comes by a door, and hands it back.
fn serve_next<R: Wait, D: Disk, S: Streams, G: Gate, O: Doors>(
    server: &Server<'_, R, D, S, G>,
    passes: &mut Passes<D>,
    door: &mut O,
    block: u32,
) -> Result<SessionEnd, Failed>
    requires here { passes.old.locks ≡ server.now.desks.now }
    requires passes { ArePasses (house_of server.now.house.now) passes.old.knows }
    ensures held { IfOk result (λ end. HasHeld (house_of server.now.house.now) (S.given server.now.streams.now) end
        (door_of (O.coming door.old) (O.served door.old) (O.faults door.old)) (door_of (O.coming door.new) (O.served door.new) (O.faults door.new))
        passes.old.knows passes.new.knows) }
    ensures there { (addr : List ℕ) (port : ℕ) → O.listens door.old addr port → O.listens door.new addr port }
    ensures failed { OnErr result ((O.coming door.new ≡ O.coming door.old) × (O.served door.new ≡ O.served door.old) × (passes.new ≡ passes.old)) }
    ensures cause { HasCause (O.faults door.old) (O.faults door.new) (IsErr result) }
    ensures passes { ArePasses (house_of server.now.house.now) passes.new.knows }
    ensures kept { passes.new ≡ record passes.old { knows = passes.new.knows } }
{
    let mut link = door.next()?;
    let end = serve(server, &mut link, passes, block);
    door.done(link);
    Ok(end)
}

// How long a worker rests after a connection that it dropped, in milliseconds.
const REST: u64 = 100;

// Whether a connection was dropped, since its session was in want of memory. The worker rests then: others may give memory back.
fn was_dropped<R: Wait>(rt: &R, end: SessionEnd) -> bool
    ensures { MatchBool result (end ≡ NoMemory) (end ≢ NoMemory) }
{
    let dropped = matches!(end, SessionEnd::NoMemory);
    if dropped {
        Parker::new().park_timeout(rt, Duration::from_millis(REST));
    }
    dropped
}

// Whether one was dropped, now or before.
fn either(before: bool, now: bool) -> bool
    ensures { result ≡ (before || now) }
{
    before || now
}

// How a worker's work ended.
fn end_of(dropped: bool, failed: bool) -> Service
    ensures { result ≡ end_by dropped failed }
{
    match (dropped, failed) {
        (true, _) => Service::NoMemory,
        (false, true) => Service::DoorFault,
        (false, false) => Service::Served,
    }
}

// Serves as many connections as are wanted, one after another.
fn serve_each<R: Wait, D: Disk, S: Streams, G: Gate, O: Doors>(
    server: &Server<'_, R, D, S, G>,
    passes: &mut Passes<D>,
    door: &mut O,
    each: u32,
    place: Place,
) -> Service
    requires here { passes.old.locks ≡ server.now.desks.now }
    requires passes { ArePasses (house_of server.now.house.now) passes.old.knows }
    ensures attended { HasAttended (house_of server.now.house.now) (S.given server.now.streams.now) each result
        (door_of (O.coming door.old) (O.served door.old) (O.faults door.old)) (door_of (O.coming door.new) (O.served door.new) (O.faults door.new))
        passes.old.knows passes.new.knows }
    ensures there { (addr : List ℕ) (port : ℕ) → O.listens door.old addr port → O.listens door.new addr port }
    ensures kept { passes.new ≡ record passes.old { knows = passes.new.knows } }
{
    let mut any = false;
    for number in 0..each {
        let end = match serve_next(server, passes, door, place.block(number)) {
            Ok(end) => end,
            Err(_) => return end_of(any, true),
        };
        let dropped = was_dropped(server.rt, end);
        any = either(any, dropped);
    }
    end_of(any, false)
}

// Attends a door.
fn attend<R: Wait, D: Disk, S: Streams, G: Gate, O: Doors>(
    server: &Server<'_, R, D, S, G>,
    passes: &mut Passes<D>,
    door: &mut O,
    posting: &Posting<'_>,
    place: Place,
) -> Service
    requires place { (place.index < place.count) × (place.count ≤ worker_limit) }
    requires port { posting.now.port + place.count ≤ 2 ^ 16 }
    requires some { 0 < posting.now.each }
    requires here { passes.old.locks ≡ server.now.desks.now }
    requires passes { ArePasses (house_of server.now.house.now) passes.old.knows }
    ensures attended { HasAttended (house_of server.now.house.now) (S.given server.now.streams.now) posting.now.each result
        (door_of (O.coming door.old) (O.served door.old) (O.faults door.old)) (door_of (O.coming door.new) (O.served door.new) (O.faults door.new))
        passes.old.knows passes.new.knows }
    ensures posted { IsPosted (O.listens door.new posting.now.addr.now (posting.now.port + place.index)) (O.faults door.old) (O.faults door.new) }
    ensures kept { passes.new ≡ record passes.old { knows = passes.new.knows } }
{
    let port = posting.port + place.index as u16;
    match door.listen(posting.addr, port) {
        Ok(()) => serve_each(server, passes, door, posting.each, place),
        Err(_) => Service::DoorFault,
    }
}

/// A worker attends its door, and keeps how that ended.
pub(crate) fn attend_own<R: Wait, D: Disk, S: Streams, G: Gate, O: Doors + Drop>(
    server: &Server<'_, R, D, S, G>,
    worker: &mut Worker<Token<D>, O>,
    posting: &Posting<'_>,
    place: Place,
)
    requires place { (place.index < place.count) × (place.count ≤ worker_limit) }
    requires port { posting.now.port + place.count ≤ 2 ^ 16 }
    requires some { 0 < posting.now.each }
    requires here { worker.old.passes.locks ≡ server.now.desks.now }
    requires passes { ArePasses (house_of server.now.house.now) worker.old.passes.knows }
    ensures attended { HasAttended (house_of server.now.house.now) (S.given server.now.streams.now) posting.now.each worker.new.end
        (door_of (O.coming worker.old.door) (O.served worker.old.door) (O.faults worker.old.door))
        (door_of (O.coming worker.new.door) (O.served worker.new.door) (O.faults worker.new.door))
        worker.old.passes.knows worker.new.passes.knows }
    ensures posted { IsPosted (O.listens worker.new.door posting.now.addr.now (posting.now.port + place.index))
        (O.faults worker.old.door) (O.faults worker.new.door) }
    ensures kept { worker.new.passes ≡ record worker.old.passes { knows = worker.new.passes.knows } }
{
    worker.end = attend(server, &mut worker.passes, &mut worker.door, posting, place);
}
