//! Asks that follow from a seed are answered in memory.

ghost use Rattle.std.specs.Fmt.{signed_decimal};
ghost use Rattle.std.specs.Prelude.{◌≡◌, ◌++◌, ◌≤◌, ℕ, List, IfOk, IsErrOf};
ghost use Rattle.command_words.specs.Program.{greatest_asks, greatest_workers};
ghost use Rattle.query_server.specs.Gen.{tally_text};
ghost use Rattle.query_server.specs.Work.{to_generate};
ghost use Rattle.owner_books.specs.Shelves.{Shelf};
ghost use Rattle.query_server.specs.Ends.{IsEndOf};

use crate::end::End;
use catalog_loading::Stop;
use generated_run::{Tally, run_generated};
use itoa::Buffer;
use outside_links::gate::Gate;
use owner_books::put_field;
use std::alloc::{AllocError, Global};
use std::sync::Wait;
use std::thread::Threads;

/// Puts the sum of the answers behind a text.
fn put_sum(lines: &mut Vec<u8>, tally: &Tally) -> Result<(), AllocError>
    ensures { IfOk result (λ _. lines.new.items ≡ lines.old.items ++ signed_decimal tally.now.sum) }
{
    let mut buffer = Buffer::new();
    lines.extend_from_slice(buffer.format(tally.sum).as_bytes())
}

/// Puts what a generated run came to behind a text.
fn put_tally(lines: &mut Vec<u8>, tally: &Tally) -> Result<(), AllocError>
    ensures { IfOk result (λ _. lines.new.items ≡ lines.old.items ++ tally_text tally.now) }
{
    put_field(lines, b"asks ", u64::from(tally.asks))?;
    put_field(lines, b" answered ", u64::from(tally.answered))?;
    put_field(lines, b" exhausted ", u64::from(tally.exhausted))?;
    put_field(lines, b" over ", u64::from(tally.over))?;
    put_field(lines, b" spent ", tally.spent)?;
    lines.extend_from_slice(b" sum ")?;
    put_sum(lines, tally)?;
    lines.extend_from_slice(b"\n")
}

/// The line of what a generated run came to.
fn tally_line(alloc: Global, tally: &Tally) -> Result<Vec<u8>, AllocError>
    ensures { IfOk result (λ line. line.items ≡ tally_text tally.now) }
{
    let mut line = Vec::new(alloc);
    put_tally(&mut line, tally)?;
    Ok(line)
}

/// Answers so many asks by so many workers. What they come to follows from the seed and from how many there are.
pub(crate) fn generate<R: Threads + Wait + Sync, G: Gate + Sync>(
    rt: &R,
    alloc: Global,
    gate: &G,
    seed: u32,
    asks: u32,
    workers: u32,
) -> Result<End, Stop>
    requires asks { (1 ≤ asks) × (asks ≤ greatest_asks) }
    requires workers { (1 ≤ workers) × (workers ≤ greatest_workers) }
    ensures end { (shelf : Shelf) (script : List ℕ) → IsEndOf (to_generate seed asks) shelf shelf script result }
    ensures sound { IsErrOf result Stop.Fault → ⊥ }
{
    let tally = run_generated(rt, alloc, gate, seed, asks, workers)?;
    let line = tally_line(alloc, &tally)?;
    Ok(End::Done(line))
}
