//! What a thread comes in by.

ghost use Rattle.std.specs.Prelude.{◌≡◌, []};
ghost use Rattle.owner_lock.specs.Views.{Rests};

use crate::stands::StandsFor;
use crate::view::View;
use atomic_table::Seat;

/// A pass of one lock. It names no bound, so that a type with a parameter can hold one.
#[derive(Drop)]
pub struct Ticket<T, E, F> {
    pub(crate) seat: Seat<T, View<E, F>>,
    pub ghost rests: { Rests seat.me.0 },
    pub ghost empty: { seat.me.1 ≡ [] },
}

/// A pass of a lock round a `T`.
pub type Pass<T> = Ticket<T, <T as StandsFor>::Entry, <T as StandsFor>::Fixed>;
