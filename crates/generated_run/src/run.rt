//! The run.

ghost use Rattle.std.specs.Prelude.{◌≡◌, ◌≤◌, [], length, slice_get, All, Some, None, IfOk};
ghost use Rattle.word_streams.specs.Draws.{draws_of};
ghost use Rattle.budget_ledger.specs.Account.{IsBook};
ghost use Rattle.owner_lock.specs.Known.{whole_share};
ghost use Rattle.session_laws.specs.SessionCore.Code.{IsClosedWith, pass_at};
ghost use Rattle.owner_house.specs.House.{house_of};
ghost use Rattle.owner_house.specs.Owner.{Owner};
ghost use Rattle.generated_run.specs.Answered.{IsAnsweredOver};
ghost use Rattle.generated_run.specs.Tally.{most_asks, tally_of};
ghost use Rattle.worker_pool.specs.Workers.{worker_limit};

use crate::counting::{Tally, count_up};
use budget_ledger::book::Book;
use generated_house::{generated_book, generated_house, generated_key, generated_script};
use outside_disks::disk::Disk;
use outside_links::gate::Gate;
use owner_desk::Desk;
use owner_house::house::House;
use script_workers::{Passes, answer_script};
use std::alloc::{AllocError, Global};
use std::sync::Wait;
use std::thread::Threads;
use word_streams::KeyStreams;

// Closes the one desk with the one pass, which has the whole share.
fn close<D: Disk + Drop>(desks: Vec<Desk<D>>, passes: Passes<D>) -> Book<D>
    requires one { length desks.items ≡ 1 }
    requires here { passes.locks ≡ desks.items }
    requires whole { All (λ s. s ≡ whole_share) passes.shares }
    ensures closed { IsClosedWith (pass_at passes.knows 0) result.ledger.records result.storage.closed }
{
    let mut desks = desks;
    let mut each = passes.into_vec();
    let Some(desk) = desks.pop() else {
        unreachable!()
    };
    let Some(pass) = each.pop() else {
        unreachable!()
    };
    desk.close(pass)
}

// Answers a script over a book that was just opened, by so many workers, and gives the book back.
fn answer<R: Threads + Wait + Sync, D: Disk + Send + Drop, G: Gate + Sync>(
    rt: &R,
    alloc: Global,
    gate: &G,
    house: &House,
    key: [u8; 32],
    book: Book<D>,
    script: &[u8],
    workers: u32,
) -> Result<Book<D>, AllocError>
    requires workers { (1 ≤ workers) × (workers ≤ worker_limit) }
    requires book { IsBook book }
    requires fresh { (book.ledger.records ≡ []) × (book.ledger.found ≡ []) × (book.storage.closed ≡ None) }
    requires one { length (house_of house.now).owners ≡ 1 }
    requires entry { (owner : Owner) → slice_get (house_of house.now).owners 0 ≡ Some owner → book.ledger.entry ≡ owner.entry }
    ensures answered { IfOk result (λ given. (owner : Owner) → slice_get (house_of house.now).owners 0 ≡ Some owner →
        IsAnsweredOver (house_of house.now) (draws_of key) workers script.now given.ledger.records) }
{
    let Ok((desk, pass)) = Desk::new(alloc, 0, book) else {
        return Err(AllocError);
    };
    let desks = vec![in alloc; desk]?;
    let first = vec![in alloc; pass]?;
    let mut passes = Passes::new(first);
    let streams = KeyStreams::new(key);
    let count = workers as usize;
    let _replies = answer_script(
        rt,
        alloc,
        house,
        &desks,
        &mut passes,
        &streams,
        gate,
        script,
        count,
    )?;
    Ok(close(desks, passes))
}

/// Answers so many asks by so many workers, and says what they came to. That follows from the seed and from how many asks there are
/// alone, however many workers there are and in whatever order the asks come; or memory ran out.
pub fn run_generated<R: Threads + Wait + Sync, G: Gate + Sync>(
    rt: &R,
    alloc: Global,
    gate: &G,
    seed: u32,
    asks: u32,
    workers: u32,
) -> Result<Tally, AllocError>
    requires asks { (1 ≤ asks) × (asks ≤ most_asks) }
    requires workers { (1 ≤ workers) × (workers ≤ worker_limit) }
    ensures tally { IfOk result (λ tally. tally ≡ tally_of seed asks) }
{
    let house = generated_house(alloc, seed, asks)?;
    let book = generated_book(alloc, asks)?;
    let script = generated_script(alloc, asks)?;
    let key = generated_key(seed);
    let given = answer(rt, alloc, gate, &house, key, book, &script, workers)?;
    count_up(&given, asks)
}
