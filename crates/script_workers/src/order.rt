//! The replies in the script's order.

ghost use Rattle.std.specs.Prelude.{◌≡◌, ◌+◌, ◌++◌, ◌<◌, ◌≤◌, [], List, ℕ, length, sum_by, slice_index_or, vec_capacity};
ghost use Rattle.session_core.specs.Blocks.{own_blocks};
ghost use Rattle.session_core.specs.Code.{room_for_lines};
ghost use Rattle.script_workers.specs.Crews.{AreFor};
ghost use Rattle.script_workers.specs.Starts.{blocks_at};
ghost use Rattle.script_workers.specs.Texts.{KeepsTexts, in_all};
ghost use Rattle.worker_pool.specs.Workers.{worker_limit};

use crate::worker::Worker;
use session_core::Knows;
use worker_pool::MOST_WORKERS;

// Puts a text at the end, for which there is room.
fn push_all(out: &mut Vec<u8>, text: &[u8])
    requires { length out.old.items + length text.now ≤ vec_capacity out.old }
    ensures items { out.new.items ≡ out.old.items ++ text.now }
    ensures capacity { vec_capacity out.new ≡ vec_capacity out.old }
{
    for &byte in text {
        out.push_reserved(byte);
    }
}

/// Puts the texts of the workers' blocks in the script's order.
pub(crate) fn put_in_order<T: Knows>(starts: &[&[u8]], crew: &[Worker<T>], out: &mut Vec<u8>)
    requires few { (0 < length crew.now) × (length crew.now ≤ worker_limit) }
    requires texts { (i : ℕ) (d : _) → i < length crew.now → (own : List (List ℕ)) × KeepsTexts (slice_index_or crew.now i d).texts own
        × AreFor own (own_blocks (length crew.now) i 0 (blocks_at starts.now)) }
    requires room { (out.old.items ≡ []) × (sum_by room_for_lines (blocks_at starts.now) ≤ vec_capacity out.old) }
    // There is a text for each block, in order, and of these the ones of a worker's blocks are those that it kept.
    ensures order { (texts : List (List ℕ)) × (length texts ≡ length (blocks_at starts.now)) × (out.new.items ≡ in_all texts)
        × ((i : ℕ) (d : _) → i < length crew.now → KeepsTexts (slice_index_or crew.now i d).texts (own_blocks (length crew.now) i 0 texts)) }
{
    let mut given = [0usize; MOST_WORKERS];
    for number in 0..starts.len() {
        let index = number % crew.len();
        push_all(out, crew[index].texts.text(given[index]));
        given[index] += 1;
    }
}
