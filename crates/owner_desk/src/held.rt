//! Desks and passes, as contracts see them.
//!
//! Each is generic in what it holds: so `Send` and `Sync` are found of it, which they aren't of a struct that names the lock.

use crate::guarded::Guarded;
use crate::noted::Noted;
use budget_ledger::book::Book;
use outside_disks::disk::Disk;
use owner_lock::{Owned, Ticket};
use std::marker::Model;

/// A lock.
pub trait Locks {
    ghost use Rattle.atomic_table.specs.Seated.{TableId};

    /// Which lock it is.
    ghost lock: { Self → TableId };
}

impl<D: Disk> Locks for Owned<Guarded<D>> {
    ghost use Rattle.owner_lock.specs.Passes.{lock_id};

    ghost lock = { λ o. lock_id o };
}

/// An owner's book, behind a lock.
#[derive(Drop)]
pub struct Locked<O: Locks> {
    pub(crate) owned: O,
}

impl<O: Locks> Model for Locked<O> {
    ghost use Rattle.atomic_table.specs.Seated.{TableId};

    ghost Value = { TableId };

    ghost view = { λ d. O.lock d.owned };
}

/// A token of a lock.
pub trait Knows {
    ghost use Rattle.owner_desk.specs.Shared.{Shared};

    /// What is known by it.
    ghost knows: { Self → Shared };

    /// What is true of it.
    ghost sure: { Self → Type 0 };
}

impl<D: Disk> Knows for Ticket<Guarded<D>, Noted, Book<D>> {
    ghost use Rattle.owner_lock.specs.Passes.{known, pass_lock};
    ghost use Rattle.owner_desk.specs.Shared.{IsPassKnown, opened_in, shared_by};

    ghost knows = { λ t. shared_by (pass_lock t) (known t) };

    ghost sure = { λ t. IsPassKnown (opened_in (known t).fixed) (known t) };
}

/// One worker's pass on an owner's book.
#[derive(Drop)]
pub struct Held<T: Knows> {
    pub(crate) ticket: T,
    /// The owner's number. With it a pass has a size, so that a slice of passes can be indexed.
    pub(crate) owner: u32,
}

impl<T: Knows> Model for Held<T> {
    ghost use Rattle.owner_desk.specs.Shared.{Shared};

    ghost Value = { Shared };

    ghost view = { λ p. T.knows p.ticket };

    ghost invariant = { λ p. T.sure p.ticket };
}
