//! A script is read and answered.

ghost use Rattle.std.specs.Prelude.{◌≡◌, ◌⊎◌, ℕ, List, ◌<◌, ◌≤◌, All, IsErrOf};
ghost use Rattle.word_streams.specs.Draws.{draws_of};
ghost use Rattle.fz_outside.specs.Faults.{HasCause, HasRisen};
ghost use Rattle.owner_house.specs.House.{house_of};
ghost use Rattle.owner_books.specs.Bays.{HasDiskCause, HasLostCause, KeepsBay};
ghost use Rattle.query_server.specs.Outside.{KeepsFiles};
ghost use Rattle.owner_lock.specs.Known.{whole_share};
ghost use Rattle.command_words.specs.Program.{greatest_workers};
ghost use Rattle.generated_run.specs.SessionCore.Code.{AreFresh, ArePasses};
ghost use Rattle.query_server.specs.Work.{to_answer};
ghost use Rattle.query_server.specs.Run.{run_steps};
ghost use Rattle.owner_books.specs.Shelves.{AreAtHome};
ghost use Rattle.query_server.specs.Due.{ForContents, IsLeftToRead};
ghost use Rattle.query_server.specs.Ends.{IsScriptEnd, IsEndOf, IsStepEnd, status_at};
ghost use Rattle.query_server.specs.Taken.{IsTaken};

use crate::end::End;
use catalog_loading::{Opened, Stop, open_house};
use fz_outside::files::Files;
use fz_outside::source::{Source, read_up_to};
use generated_run::{Desk, Passes, answer_script};
use outside_bays::bay::Bay;
use outside_disks::disk::Disk;
use outside_links::gate::Gate;
use owner_books::{Opening, open_desks, put_back};
use owner_house::house::House;
use std::alloc::Global;
use std::sync::Wait;
use std::thread::Threads;
use word_streams::KeyStreams;

/// The most bytes of a script.
const SCRIPT_LIMIT: usize = 1 << 24;

/// Reads a script to its end, or to one byte more than it may have, and answers it.
fn answer_over<R: Threads + Wait + Sync, D: Disk + Send, S: Source, G: Gate + Sync>(
    rt: &R,
    alloc: Global,
    house: &House,
    key: [u8; 32],
    desks: &[Desk<D>],
    passes: &mut Passes<D>,
    source: &mut S,
    gate: &G,
    workers: u32,
) -> Result<End, Stop>
    requires workers { (1 ≤ workers) × (workers ≤ greatest_workers) }
    requires here { passes.old.locks ≡ desks.now }
    requires passes { ArePasses (house_of house.now) passes.old.knows }
    requires fresh { AreFresh (house_of house.now) passes.old.knows }
    requires shares { All (λ s. s ≡ whole_share) passes.old.shares }
    ensures end { (script : List ℕ) × IsLeftToRead (S.left source.old) script
        × IsScriptEnd (house_of house.now) (draws_of key) workers script passes.old.knows passes.new.knows result }
    ensures passes { ArePasses (house_of house.now) passes.new.knows }
    ensures back { (passes.new.locks ≡ passes.old.locks) × All (λ s. s ≡ whole_share) passes.new.shares }
    ensures taken { IsTaken (S.left source.old) (S.left source.new) (status_at result) }
    ensures cause { HasCause (S.faults source.old) (S.faults source.new) (IsErrOf result Stop.Fault) }
{
    let script = read_up_to(alloc, source, SCRIPT_LIMIT + 1)?;
    if script.len() > SCRIPT_LIMIT {
        return Ok(End::ScriptTooLong);
    }
    let streams = KeyStreams::new(key);
    let replies = answer_script(
        rt,
        alloc,
        house,
        desks,
        passes,
        &streams,
        gate,
        &script,
        workers as usize,
    )?;
    Ok(End::Done(replies))
}

/// Opens the owners' books, answers the script over them, and puts the disks back.
fn answer<R: Threads + Wait + Sync, B: Bay, S: Source, G: Gate + Sync>(
    rt: &R,
    alloc: Global,
    opened: &mut Opened,
    bay: &mut B,
    source: &mut S,
    gate: &G,
    workers: u32,
) -> Result<End, Stop>
    requires home { AreAtHome (B.owners bay.old) (B.shelf bay.old) }
    requires workers { (1 ≤ workers) × (workers ≤ greatest_workers) }
    ensures end { (script : List ℕ) × IsLeftToRead (S.left source.old) script
        × IsEndOf (to_answer workers opened.old.loading opened.old.key) (B.shelf bay.old) (B.shelf bay.new) script result }
    ensures taken { IsTaken (S.left source.old) (S.left source.new) (status_at result) }
    ensures bay { KeepsBay B.shelf B.owners B.faults bay.old bay.new }
    ensures cause { HasCause (S.faults source.old) (S.faults source.new) (IsErrOf result Stop.Fault) }
    ensures disk { HasDiskCause B.shelf B.owners B.faults bay.old bay.new result }
    ensures lost { HasLostCause B.shelf B.owners B.faults bay.old bay.new result }
{
    let Opening { desks, passes } = open_desks(alloc, bay, opened)?;
    let house = opened.house();
    let mut passes = Passes::new(passes);
    let end = answer_over(
        rt,
        alloc,
        house,
        opened.key(),
        &desks,
        &mut passes,
        source,
        gate,
        workers,
    );
    put_back(bay, desks, passes.into_vec());
    end
}

/// Opens the house of a catalog and a key, and answers a script.
pub(crate) fn run_script<R: Threads + Wait + Sync, F: Files, B: Bay, S: Source, G: Gate + Sync>(
    rt: &R,
    alloc: Global,
    files: &mut F,
    bay: &mut B,
    source: &mut S,
    gate: &G,
    catalog: &str,
    key: &str,
    workers: u32,
) -> Result<End, Stop>
    requires home { AreAtHome (B.owners bay.old) (B.shelf bay.old) }
    requires workers { (1 ≤ workers) × (workers ≤ greatest_workers) }
    ensures end { ForContents (F.held files.old) (S.left source.old)
        (IsStepEnd (F.names files.old) (F.names files.new) (B.shelf bay.old) (B.shelf bay.new)
        (run_steps catalog.now key.now workers) result) }
    ensures taken { IsTaken (S.left source.old) (S.left source.new) (status_at result) }
    // Where a call of files failed, nothing was taken of the source, and no disk was touched.
    ensures unread { F.faults files.old < F.faults files.new → source.new ≡ source.old }
    ensures unmoved { F.faults files.old < F.faults files.new → bay.new ≡ bay.old }
    ensures files { KeepsFiles F.held F.names F.faults files.old files.new }
    ensures bay { KeepsBay B.shelf B.owners B.faults bay.old bay.new }
    ensures source { S.faults source.old ≤ S.faults source.new }
    ensures cause { IsErrOf result Stop.Fault → HasRisen (F.faults files.old) (F.faults files.new) ⊎ HasRisen (S.faults source.old) (S.faults source.new) }
    ensures disk { HasDiskCause B.shelf B.owners B.faults bay.old bay.new result }
    ensures lost { HasLostCause B.shelf B.owners B.faults bay.old bay.new result }
{
    let mut opened = open_house(alloc, files, catalog, key)?;
    answer(rt, alloc, &mut opened, bay, source, gate, workers)
}
