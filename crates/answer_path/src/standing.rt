//! What became of a number, what is spent of a budget, and what an analyst has spent.

ghost use Rattle.std.specs.Prelude.{◌≡◌};
ghost use Rattle.wire_lines.specs.Reply.{replied};
ghost use Rattle.owner_desk.specs.Passes.{first_of_run};
ghost use Rattle.owner_desk.specs.Answers.{PassStays};
ghost use Rattle.owner_desk.specs.Shared.{IsKept};
ghost use Rattle.answer_path.specs.Answered.{HasSmallAnswer, IsUnasked};
ghost use Rattle.answer_path.specs.Standing.{IsBalance, IsRecalled, IsSpending, left_reply, mine_reply, recall_reply};

use budget_core::answers::{Left, Mine, Recall};
use journal_records::records::Outcome;
use outside_disks::disk::Disk;
use owner_desk::{Desk, Pass};
use std::sync::Wait;
use wire_lines::{NumberRefusal, Refusal, Reply};

fn recalled<'a>(number: u32, outcome: Option<Outcome>, seen: u32) -> Reply<'a>
    ensures { result ≡ Reply.Recalled number outcome seen }
{
    Reply::Recalled {
        number,
        outcome,
        seen,
    }
}

/// What is told of a number.
fn recall_reply_of<'a>(number: u32, recall: Recall) -> Reply<'a>
    ensures { replied result ≡ recall_reply number recall }
{
    match recall {
        Recall::Unknown { seen } => Reply::Refused(Refusal::Number(NumberRefusal::Unknown {
            number,
            seen,
        })),
        Recall::NotYours { seen } => Reply::Refused(Refusal::Number(NumberRefusal::NotYours {
            number,
            seen,
        })),
        Recall::Answer { value, seen } => recalled(number, Some(Outcome::Answered(value)), seen),
        Recall::Open { seen } => recalled(number, None, seen),
        Recall::Lost { seen } => recalled(number, Some(Outcome::Lost), seen),
        Recall::Exhausted { seen } => recalled(number, Some(Outcome::Exhausted), seen),
    }
}

/// What is told of the budget.
fn left_reply_of<'a>(left: Left) -> Reply<'a>
    ensures { replied result ≡ left_reply left }
{
    Reply::Left {
        spent: left.spent,
        budget: left.budget,
        seen: left.seen,
    }
}

/// What an analyst is told of its own spending.
fn mine_reply_of<'a>(mine: Mine) -> Reply<'a>
    ensures { replied result ≡ mine_reply mine }
{
    Reply::Mine {
        spent: mine.spent,
        limit: mine.limit,
        seen: mine.seen,
    }
}

/// Says what became of a reservation, to the analyst who asked for it.
pub(crate) fn recall<R: Wait, D: Disk>(
    rt: &R,
    desk: &Desk<D>,
    pass: &mut Pass<D>,
    number: u32,
    analyst: u16,
) -> Reply<'static>
    requires here { pass.old.lock ≡ desk.now }
    ensures told { IsRecalled (first_of_run pass.old.knows) analyst number pass.old.knows.seen (replied result) pass.new.knows.seen }
    ensures stays { PassStays pass.old.knows pass.new.knows.seen pass.new.knows }
    ensures kept { IsKept pass.old pass.new }
    ensures asked { IsUnasked (replied result) → ⊥ }
    ensures fits { HasSmallAnswer (replied result) }
{
    recall_reply_of(number, desk.recall(rt, pass, number, analyst))
}

/// Says what is spent of an owner's budget.
pub(crate) fn left<R: Wait, D: Disk>(rt: &R, desk: &Desk<D>, pass: &mut Pass<D>) -> Reply<'static>
    requires here { pass.old.lock ≡ desk.now }
    ensures told { IsBalance pass.old.knows.opened.ledger.entry pass.old.knows.seen (replied result) pass.new.knows.seen }
    ensures stays { PassStays pass.old.knows pass.new.knows.seen pass.new.knows }
    ensures kept { IsKept pass.old pass.new }
    ensures asked { IsUnasked (replied result) → ⊥ }
    ensures fits { HasSmallAnswer (replied result) }
{
    left_reply_of(desk.left(rt, pass))
}

/// Says what an analyst has spent, to that analyst.
pub(crate) fn mine<R: Wait, D: Disk>(
    rt: &R,
    desk: &Desk<D>,
    pass: &mut Pass<D>,
    analyst: u16,
) -> Reply<'static>
    requires here { pass.old.lock ≡ desk.now }
    ensures told { IsSpending pass.old.knows.opened.ledger.entry analyst pass.old.knows.seen (replied result) pass.new.knows.seen }
    ensures stays { PassStays pass.old.knows pass.new.knows.seen pass.new.knows }
    ensures kept { IsKept pass.old pass.new }
    ensures asked { IsUnasked (replied result) → ⊥ }
    ensures fits { HasSmallAnswer (replied result) }
{
    mine_reply_of(desk.mine(rt, pass, analyst))
}
