//! A pass for each owner.

ghost use Rattle.std.specs.Prelude.{◌≡◌, ◌≤◌, length, All, IfErr, IfOk};
ghost use Rattle.owner_history.specs.OwnerDesk.Shared.{Shared};
ghost use Rattle.session_core.specs.Bundles.{HaveTakenIn, bundle_of, given_halves, kept_halves};

use budget_ledger::book::Book;
use outside_disks::disk::Disk;
use owner_history::{Desk, Guarded, Held, Knows, Noted, Pass};
use owner_lock::Ticket;
use std::alloc::{AllocError, Global};
use std::marker::Model;

/// One worker's passes: one for each owner, in the order of the catalog. It is generic in what its passes hold, so that it may go to
/// another thread.
#[derive(Drop)]
pub struct Bundle<T: Knows> {
    pub(crate) each: Vec<Held<T>>,
}

/// What a pass on a book on a disk `D` holds.
pub type Token<D> = Ticket<Guarded<D>, Noted, Book<D>>;

/// The passes on books whose disks are each a `D`.
pub type Passes<D> = Bundle<Token<D>>;

impl<T: Knows> Model for Bundle<T> {
    ghost use Rattle.session_core.specs.Bundles.{Bundle as Seen, bundle_of};

    ghost Value = { Seen };

    ghost view = { λ p. bundle_of p.each.items };
}

impl<D: Disk> Passes<D> {
    /// The passes of a house's owners.
    pub fn new(passes: Vec<Pass<D>>) -> Passes<D>
        ensures { result ≡ bundle_of passes.items }
    {
        Bundle { each: passes }
    }

    /// The owners' passes, in order.
    pub fn into_vec(self) -> Vec<Pass<D>>
        ensures { bundle_of result.items ≡ self }
    {
        self.each
    }

    /// How many there are: one for each lock.
    pub fn len(&self) -> usize
        ensures len { result ≡ length self.now.locks }
        ensures each_has { (length self.now.shares ≡ length self.now.locks) × (length self.now.knows ≡ length self.now.locks) }
    {
        self.each.len()
    }

    /// Passes for another worker, with half of each share. Without memory nothing is given away.
    pub fn split(&mut self, alloc: Global, desks: &[Desk<D>]) -> Result<Passes<D>, AllocError>
        requires here { self.old.locks ≡ desks.now }
        requires shares { All (λ s. 2 ≤ s) self.old.shares }
        ensures kept { IfOk result (λ _. self.new ≡ kept_halves self.old) }
        ensures given { IfOk result (λ other. other ≡ given_halves self.old) }
        ensures refused { IfErr result (λ _. self.new ≡ self.old) }
    {
        let mut others = Vec::with_capacity(alloc, self.each.len())?;
        let mut owner = 0;
        while owner < desks.len() {
            others.push_reserved(desks[owner].split(&mut self.each[owner]));
            owner += 1;
        }
        Ok(Bundle { each: others })
    }

    /// Takes in the passes of another worker.
    pub fn join(&mut self, desks: &[Desk<D>], other: Passes<D>)
        requires here { (self.old.locks ≡ desks.now) × (other.locks ≡ desks.now) }
        ensures taken { HaveTakenIn self.old other self.new }
    {
        let mut others = other.each;
        while let Some(pass) = others.pop() {
            let owner = others.len();
            desks[owner].join(&mut self.each[owner], pass);
        }
    }
}
