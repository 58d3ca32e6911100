//! One query, from its program to its reply.

ghost use Rattle.std.specs.Prelude.{◌≡◌, ◌++◌, ◌<◌, ◌≤◌, ◌^◌, ◌+ℤ◌, unsigned_abs, false, ℕ, List, Result, Some};
ghost use Rattle.budget_core.specs.Entries.{IsEpsilon};
ghost use Rattle.journal_records.specs.Encoding.{IsByteList};
ghost use Rattle.sha2.specs.Sha256.{sha256};
ghost use Rattle.fz_ast.specs.Limits.{IsNumber};
ghost use Rattle.fz_frac.specs.Distance.{Fin};
ghost use Rattle.fz_frac.specs.Sens.{distance_of};
ghost use Rattle.linear_types.specs.Program.{is_endless};
ghost use Rattle.wire_lines.specs.Refusal.{no_memory, refusal_at};
ghost use Rattle.wire_lines.specs.Reply.{refused, replied};
ghost use Rattle.part_views.specs.Partitions.{HasPart};
ghost use Rattle.owner_house.specs.Owner.{Owner, IsOwnerOf};
ghost use Rattle.owner_desk.specs.Answers.{HasGranted, HasSettled};
ghost use Rattle.owner_desk.specs.Passes.{Told, first_of_run};
ghost use Rattle.owner_desk.specs.Shared.{IsKept};
ghost use Rattle.answer_path.specs.Noise.{scale_numerator, scale_denominator, noise_at};
ghost use Rattle.answer_path.specs.Verdict.{ask_for, money_refusal};
ghost use Rattle.answer_path.specs.Answered.{HasSmallAnswer, IsAsked, IsSettledAt, IsUnasked, answer_limit, outcome_reply};
ghost use Rattle.answer_path.specs.Shut.{FailsBy, IsGrantPending, IsSaidOpen, disk_word, shut_of};
ghost use Rattle.owner_house.specs.Names.{AreNames};
ghost use Rattle.answer_path.specs.Reading.{read, IsReading};
ghost use Rattle.answer_path.specs.Turn.{IsTurn, book_refusal, disk_refusal, settled_reply};
ghost use Rattle.answer_path.specs.Code.{AsksTooManyWalks, IsAdmittedIn, IsQueryOf, IsWorth, query_of};
ghost use Rattle.answer_path.specs.Demand.{asks};

use crate::deciding::decide;
use crate::last_program::LastProgram;
use crate::program::Admitted;
use crate::query::Query;
use budget_core::entry::{Ask, Grant, ReserveFault};
use budget_ledger::book::{AppendFault, BookFault};
use discrete_laplace::sample;
use fuzz_eval::run::run;
use fz_frac::{Frac, Sens};
use fz_outside::words::Streams;
use journal_records::records::Outcome;
use outside_disks::disk::Disk;
use owner_desk::{Desk, Pass};
use part_views::Dataset;
use partition_charge::view::View;
use std::alloc::Global;
use std::sync::Wait;
use wire_lines::{DiskRefusal, MoneyRefusal, NumberRefusal, Refusal, Reply};

/// The noise's scale at an epsilon in millionths: 10^6 / e in lowest terms.
fn scale_of(e: u32) -> Frac
    requires { IsEpsilon e }
    ensures numerator { result.p ≡ scale_numerator e }
    ensures denominator { result.q ≡ scale_denominator e }
    ensures bounds { (0 < result.p) × (result.p ≤ 1000000) }
{
    match Frac::new(1_000_000, u64::from(e)) {
        Ok(scale) => scale,
        Err(_) => unreachable!(),
    }
}

/// A program's value with noise.
fn noisy(value: i64, noise: i64) -> i64
    requires number { IsNumber value }
    requires small { unsigned_abs noise < 2 ^ 33 }
    ensures sum { result ≡ value +ℤ noise }
    ensures fits { unsigned_abs result ≤ answer_limit }
{
    value + noise
}

/// How a reservation with this noise is settled: by the program's value on the view's rows, or as lost where memory ran out.
fn outcome_with(
    alloc: Global,
    admitted: &Admitted<'_>,
    dataset: &Dataset,
    view: View,
    noise: i64,
) -> Outcome
    requires part { HasPart dataset.now.partitions view }
    requires admitted { IsAdmittedIn dataset.now view admitted.now }
    requires small { unsigned_abs noise < 2 ^ 33 }
    ensures settled { IsSettledAt (IsWorth dataset.now view (admitted.now.checked.term.now)) (Some noise) result }
    ensures fits { (grant : Grant) → HasSmallAnswer (outcome_reply grant result) }
{
    match run(
        alloc,
        &admitted.checked,
        &admitted.plan,
        dataset.tables(view),
    ) {
        Ok(value) => Outcome::Answered(noisy(value, noise)),
        Err(_) => Outcome::Lost,
    }
}

/// How an owner's reservation of this number is settled. A number whose draws don't suffice needs no run.
fn outcome_at<S: Streams>(
    alloc: Global,
    admitted: &Admitted<'_>,
    dataset: &Dataset,
    streams: &S,
    owner: u32,
    query: &Query<'_>,
    number: u32,
) -> Outcome
    requires part { HasPart dataset.now.partitions query.now.view }
    requires admitted { IsAdmittedIn dataset.now query.now.view admitted.now }
    requires epsilon { IsEpsilon query.now.epsilon }
    ensures settled { IsSettledAt (IsWorth dataset.now query.now.view (admitted.now.checked.term.now))
        (noise_at query.now.epsilon (S.given streams.now owner number)) result }
    ensures fits { (grant : Grant) → HasSmallAnswer (outcome_reply grant result) }
{
    let scale = scale_of(query.epsilon);
    let mut words = streams.stream(owner, number);
    match sample(scale.p, scale.q, &mut words) {
        Ok(noise) => outcome_with(alloc, admitted, dataset, query.view, noise),
        Err(_) => Outcome::Exhausted,
    }
}

/// A finite sensitivity.
fn fraction_of(sens: Sens) -> Frac
    requires { is_endless (distance_of sens) ≡ false }
    ensures { distance_of sens ≡ Fin result.p result.q }
{
    match sens {
        Sens::Finite(sens) => sens,
        Sens::Inf => unreachable!(),
    }
}

/// The refusal of an ask that isn't granted.
fn refusal_of(fault: ReserveFault) -> MoneyRefusal
    ensures { result ≡ money_refusal fault }
{
    match fault {
        ReserveFault::OverBudget {
            spent,
            after,
            budget,
            seen,
        } => MoneyRefusal::OverBudget {
            spent,
            after,
            budget,
            seen,
        },
        ReserveFault::Full {
            used,
            unsettled,
            capacity,
        } => MoneyRefusal::JournalFull {
            used,
            open: unsettled,
            capacity,
        },
        ReserveFault::OverShare {
            spent,
            after,
            limit,
            seen,
        } => MoneyRefusal::OverShare {
            spent,
            after,
            limit,
            seen,
        },
    }
}

/// A record wasn't appended: the disk failed, or an earlier fault had closed the book.
fn disk_refusal_of(fault: AppendFault) -> DiskRefusal
    ensures { result ≡ disk_refusal fault }
{
    match fault {
        AppendFault::Closed { failed_at } => DiskRefusal::Closed { failed_at },
        AppendFault::DiskFault => DiskRefusal::Fault,
    }
}

/// Why no reservation was made: over budget or the analyst's share, no room, or its record wasn't appended.
fn book_refusal_of<'a>(fault: BookFault) -> Refusal<'a>
    ensures { refusal_at result ≡ book_refusal fault }
{
    match fault {
        BookFault::Refused(fault) => Refusal::Money(refusal_of(fault)),
        BookFault::Unwritten(fault) => Refusal::Disk(disk_refusal_of(fault)),
    }
}

/// The reply to an ask that is granted.
fn reply_of<'a>(grant: Grant, outcome: Outcome) -> Reply<'a>
    ensures { replied result ≡ outcome_reply grant outcome }
{
    let number = grant.number;
    match outcome {
        Outcome::Answered(value) => Reply::Answer {
            number,
            value,
            taken: grant.taken,
        },
        Outcome::Exhausted => Reply::Refused(Refusal::Number(NumberRefusal::Exhausted { number })),
        Outcome::Lost => Reply::Refused(Refusal::Number(NumberRefusal::Lost { number })),
    }
}

/// What a query asks of the budget, by the SHA-256 of its program.
fn asking_of(query: &Query<'_>, digest: [u8; 32], sens: Frac) -> Ask
    requires { digest ≡ sha256 query.now.program.now }
    ensures asking { result ≡ ask_for (query_of query.now) sens.p sens.q }
    ensures digest { IsByteList 32 result.digest }
{
    Ask {
        analyst: query.analyst,
        view: query.view,
        e: query.epsilon,
        p: sens.p,
        q: sens.q,
        digest,
    }
}

/// Settles a grant, and says its outcome only once the settlement is kept.
fn settle<'a, R: Wait, D: Disk>(
    rt: &R,
    desk: &Desk<D>,
    pass: &mut Pass<D>,
    grant: Grant,
    outcome: Outcome,
) -> Reply<'a>
    requires here { pass.old.lock ≡ desk.now }
    requires granted { HasGranted pass.old.knows grant.number }
    ensures settled { (written : Result ℕ AppendFault) × HasSettled pass.old.knows grant.number outcome written pass.new.knows
        × (replied result ≡ settled_reply grant outcome written) }
    ensures kept { IsKept pass.old pass.new }
{
    match desk.settle(rt, pass, grant.number, outcome) {
        Ok(_) => reply_of(grant, outcome),
        Err(fault) => Reply::Refused(Refusal::Disk(disk_refusal_of(fault))),
    }
}

/// Answers a query whose program, of this SHA-256, is admitted: the budget is asked, the noise is drawn, the program is run, and the
/// reservation is settled. It has the rows, and says nothing that is said before the budget is asked.
fn answer_admitted<'a, R: Wait, D: Disk, S: Streams>(
    rt: &R,
    alloc: Global,
    desk: &Desk<D>,
    pass: &mut Pass<D>,
    admitted: &Admitted<'_>,
    digest: [u8; 32],
    dataset: &Dataset,
    streams: &S,
    owner: u32,
    query: &Query<'_>,
) -> Reply<'a>
    requires here { pass.old.lock ≡ desk.now }
    requires query { IsQueryOf pass.old.knows.opened.ledger.entry (query_of query.now) }
    requires part { HasPart dataset.now.partitions query.now.view }
    requires reads { IsReading query.now.program.now (read (admitted.now.checked.term.now)) }
    requires admitted { IsAdmittedIn dataset.now query.now.view admitted.now }
    requires digest { digest ≡ sha256 query.now.program.now }
    ensures turn { (whose : Owner) → IsOwnerOf pass.old.knows.opened.ledger.entry dataset.now whose
        → IsTurn whose (S.given streams.now owner) (query_of query.now) pass.old.knows (replied result) pass.new.knows }
    ensures asked { IsUnasked (replied result) → ⊥ }
    ensures kept { IsKept pass.old pass.new }
    ensures fits { HasSmallAnswer (replied result) }
{
    let asking = asking_of(query, digest, fraction_of(admitted.checked.sens));
    match desk.reserve(rt, pass, &asking) {
        Err(fault) => Reply::Refused(book_refusal_of(fault)),
        Ok(grant) => {
            let outcome = outcome_at(
                alloc,
                admitted,
                dataset,
                streams,
                owner,
                query,
                grant.number,
            );
            settle(rt, desk, pass, grant, outcome)
        }
    }
}

/// Answers a query of the owner of this number: its program is admitted without rows, and what that says is told; or else the budget
/// is asked, the noise is drawn, the program is run on the view's rows, and the reservation is settled.
/// Out of memory is said before a reservation, and an answer is lost after it.
pub fn ask<'d, R: Wait, D: Disk, S: Streams>(
    rt: &R,
    alloc: Global,
    desk: &Desk<D>,
    pass: &mut Pass<D>,
    last: &mut LastProgram,
    dataset: &'d Dataset,
    streams: &S,
    owner: u32,
    query: &Query<'_>,
) -> Reply<'d>
    requires here { pass.old.lock ≡ desk.now }
    requires query { IsQueryOf pass.old.knows.opened.ledger.entry (query_of query.now) }
    requires part { HasPart dataset.now.partitions query.now.view }
    requires names { AreNames dataset.now.tables }
    // The stated reply on some records that begin with those seen, and what the line added.
    ensures step { (whose : Owner) → IsOwnerOf pass.old.knows.opened.ledger.entry dataset.now whose → (told : List Told)
        × IsAsked whose (S.given streams.now owner) (first_of_run pass.old.knows) (query_of query.now)
        pass.old.knows.seen (replied result) told pass.new.knows.seen
        × (pass.new.knows.own ≡ pass.old.knows.own ++ told) }
    // What the line did to the owner's book.
    ensures shuts { (whose : Owner) → IsOwnerOf pass.old.knows.opened.ledger.entry dataset.now whose
        → (told : List Told) → pass.new.knows.own ≡ pass.old.knows.own ++ told
        → FailsBy whose (S.given streams.now owner) (query_of query.now) (disk_word (replied result)) told
        (shut_of pass.old.knows) (shut_of pass.new.knows) }
    // Only of a book that isn't shut the analyst's share is told.
    ensures said_open { IsSaidOpen (replied result) pass.new.knows.failure }
    // Where the append of the reservation failed, what the disk may have is what was granted on the records seen then.
    ensures due { (whose : Owner) → IsOwnerOf pass.old.knows.opened.ledger.entry dataset.now whose
        → (told : List Told) → pass.new.knows.own ≡ pass.old.knows.own ++ told
        → IsGrantPending whose (first_of_run pass.old.knows) (query_of query.now) (replied result) told
        pass.new.knows.seen pass.new.knows.failure }
    // A line that is refused before the budget is asked leaves the pass as it was.
    ensures same { IsUnasked (replied result) → pass.new ≡ pass.old }
    // A program that takes too many walks is told that memory ran out, whatever the rows are.
    ensures walks { AsksTooManyWalks dataset.now (asks (query_of query.now)) → replied result ≡ refused no_memory }
    ensures kept { IsKept pass.old pass.new }
    // An answer is within 2^50 + 2^33 in absolute value.
    ensures fits { HasSmallAnswer (replied result) }
{
    match decide(alloc, last, dataset.sig(query.view), query.program) {
        Ok(decided) => answer_admitted(
            rt,
            alloc,
            desk,
            pass,
            &decided.admitted,
            decided.digest,
            dataset,
            streams,
            owner,
            query,
        ),
        Err(unadmitted) => Reply::Refused(unadmitted.told()),
    }
}
