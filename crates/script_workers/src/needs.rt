//! What the blocks of each worker ask for.

ghost use Rattle.std.specs.Prelude.{◌≡◌, ◌<◌, ◌≤◌, ℕ, slice_index_or};
ghost use Rattle.session_core.specs.Blocks.{script_blocks};
ghost use Rattle.script_workers.specs.Crews.{AreNeeds};
ghost use Rattle.worker_pool.specs.Workers.{worker_limit};

use session_core::blocks::pass_block;
use worker_pool::MOST_WORKERS;

/// What a worker's blocks ask for.
#[derive(Clone, Copy)]
pub(crate) struct Needs {
    /// Room for their replies.
    pub(crate) room: usize,
    /// How many blocks there are.
    pub(crate) blocks: usize,
}

/// What each worker's blocks ask for, in one pass over the script: block k is worker `k % count`'s.
pub(crate) fn needs_of_all(script: &[u8], count: usize) -> [Needs; MOST_WORKERS]
    requires count { (0 < count) × (count ≤ worker_limit) }
    ensures { (i : ℕ) (d : _) → i < count → AreNeeds count i (script_blocks script.now) (slice_index_or result i d) }
{
    let mut needs = [Needs { room: 0, blocks: 0 }; MOST_WORKERS];
    let mut rest = script;
    let mut number = 0usize;
    while !rest.is_empty() {
        let block = pass_block(rest);
        let own = needs[number % count];
        let room = own.room.saturating_add(block.room);
        needs[number % count] = Needs {
            room,
            blocks: own.blocks + 1,
        };
        number += 1;
        rest = block.behind;
    }
    needs
}
