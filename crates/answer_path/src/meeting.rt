//! One demand of an owner, whatever it is.

ghost use Rattle.std.specs.Prelude.{◌≡◌, ◌++◌, List};
ghost use Rattle.wire_lines.specs.Refusal.{no_memory};
ghost use Rattle.wire_lines.specs.Reply.{refused, replied};
ghost use Rattle.owner_house.specs.Names.{AreNames};
ghost use Rattle.owner_house.specs.Owner.{Owner, IsOwnerOf};
ghost use Rattle.owner_desk.specs.Passes.{Told, first_of_run};
ghost use Rattle.owner_desk.specs.Shared.{IsKept};
ghost use Rattle.answer_path.specs.Answered.{HasSmallAnswer, IsUnasked};
ghost use Rattle.answer_path.specs.Code.{AsksTooManyWalks, HasPartFor, IsDemandOf, demand_of};
ghost use Rattle.answer_path.specs.Met.{IsMet};
ghost use Rattle.answer_path.specs.Shut.{LeavesDue, ShutsBy, shut_of};

use crate::answer::ask;
use crate::demand::Demand;
use crate::last_program::LastProgram;
use crate::standing::{left, mine, recall};
use fz_outside::words::Streams;
use outside_disks::disk::Disk;
use owner_desk::{Desk, Pass};
use part_views::Dataset;
use std::alloc::Global;
use std::sync::Wait;
use wire_lines::Reply;

/// Meets a demand of the owner of this number. The program of the session's last query isn't read again.
pub fn meet<'d, R: Wait, D: Disk, S: Streams>(
    rt: &R,
    alloc: Global,
    desk: &Desk<D>,
    pass: &mut Pass<D>,
    last: &mut LastProgram,
    dataset: &'d Dataset,
    streams: &S,
    owner: u32,
    demand: &Demand<'_>,
) -> Reply<'d>
    requires here { pass.old.lock ≡ desk.now }
    requires demand { IsDemandOf pass.old.knows.opened.ledger.entry (demand_of demand.now) }
    requires part { HasPartFor dataset.now.partitions (demand_of demand.now) }
    requires names { AreNames dataset.now.tables }
    // The stated reply on some records that begin with those seen, what the line added, and what it did to the owner's book.
    ensures met { (whose : Owner) → IsOwnerOf pass.old.knows.opened.ledger.entry dataset.now whose → (told : List Told)
        × IsMet whose (S.given streams.now owner) (first_of_run pass.old.knows) (demand_of demand.now)
        pass.old.knows.seen (replied result) told pass.new.knows.seen
        × (pass.new.knows.own ≡ pass.old.knows.own ++ told)
        × ShutsBy whose (S.given streams.now owner) (demand_of demand.now) (replied result) told
        (shut_of pass.old.knows) (shut_of pass.new.knows) }
    // Where the append of a reservation failed, what the disk may have is what was granted on the records seen then.
    ensures due { (whose : Owner) → IsOwnerOf pass.old.knows.opened.ledger.entry dataset.now whose
        → (told : List Told) → pass.new.knows.own ≡ pass.old.knows.own ++ told
        → LeavesDue whose (first_of_run pass.old.knows) (demand_of demand.now) (replied result) told
        pass.new.knows.seen pass.new.knows.failure }
    // A line that is refused before the budget is asked leaves the pass as it was.
    ensures same { IsUnasked (replied result) → pass.new ≡ pass.old }
    // A program that takes too many walks is told that memory ran out, whatever the rows are.
    ensures walks { AsksTooManyWalks dataset.now (demand_of demand.now) → replied result ≡ refused no_memory }
    ensures kept { IsKept pass.old pass.new }
    // An answer is within 2^50 + 2^33 in absolute value.
    ensures fits { HasSmallAnswer (replied result) }
{
    match demand {
        Demand::Asks(query) => ask(rt, alloc, desk, pass, last, dataset, streams, owner, query),
        Demand::Recalls { analyst, number } => recall(rt, desk, pass, *number, *analyst),
        Demand::Balances => left(rt, desk, pass),
        Demand::Spends { analyst } => mine(rt, desk, pass, *analyst),
    }
}
