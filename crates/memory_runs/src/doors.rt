//! Doors in memory, as many as a service may need.

ghost use Rattle.std.specs.Prelude.{◌≡◌, ◌≤◌, ◌<◌, length, IfOk};

use outside_doors::memory::MemDoors;
use outside_links::memory::MemLink;
use std::alloc::{AllocError, Global};
use std::collections::VecDeque;
use worker_pool::MOST_WORKERS;

/// How many doors a service may need: one for each worker.
pub const DOORS: usize = MOST_WORKERS;

/// How much a connection of a test takes, and how much of it at once.
pub const ROOM_OF_LINK: usize = 4_096;

pub const PIECE: usize = 7;

/// A door to which connections with these bytes come, of which the one at a place has these calls that fail; and which of the door's own
/// calls fail.
pub fn door_with<'a>(
    alloc: Global,
    inputs: &[&'a [u8]],
    link_failing: &'a [u64],
    failing: &'a [u64],
) -> Result<MemDoors<'a>, AllocError> {
    let mut coming = VecDeque::new(alloc);
    for input in inputs {
        coming.push_back(MemLink::new(alloc, input, ROOM_OF_LINK, PIECE, link_failing)?)?;
    }
    MemDoors::new(alloc, coming, failing)
}

/// These doors, and behind them as many as there may be to which nobody comes.
pub fn doors_behind<'a>(
    alloc: Global,
    first: Vec<MemDoors<'a>>,
) -> Result<Vec<MemDoors<'a>>, AllocError>
    requires few { length first.items ≤ DOORS }
    ensures { IfOk result (λ doors. DOORS ≤ length doors.items) }
{
    let mut doors = first;
    for _ in doors.len()..DOORS {
        doors.push(MemDoors::new(alloc, VecDeque::new(alloc), &[])?)?;
    }
    Ok(doors)
}

/// Doors to which nobody comes.
pub fn idle_doors(alloc: Global) -> Result<Vec<MemDoors<'static>>, AllocError>
    ensures { IfOk result (λ doors. DOORS ≤ length doors.items) }
{
    doors_behind(alloc, Vec::new(alloc))
}
