//! The rule of the lock's table, and what each kind of step tells. These types are for the proofs alone.

ghost use Rattle.owner_lock.specs.History.{OneHistory, freed, looked, marked, turned, warned};
ghost use Rattle.owner_lock.specs.Views.{both, first_view, left_half, right_half, spent};

use crate::stands::StandsFor;
use crate::view::View;
use atomic_table::{Join, Play, Split, TableRule};
use std::marker::PhantomData;
use std::snapshot::Snapshot;

/// There is one legal history.
pub struct Law;

impl<T: StandsFor> TableRule<T, View<T::Entry, T::Fixed>, Snapshot<T>> for Law {
    ghost holds = { λ _. OneHistory T.StandsFor };

    ghost first = { λ s. first_view T.StandsFor s.value };
}

/// Word 1 to one that says that a seat has the turn.
pub struct Turn<T>(PhantomData<T>);

impl<T: StandsFor> Play<T, View<T::Entry, T::Fixed>> for Turn<T> {
    ghost then = { turned T.StandsFor };
}

/// What word 1 says of those who wait.
pub struct Warn<T>(PhantomData<T>);

impl<T: StandsFor> Play<T, View<T::Entry, T::Fixed>> for Warn<T> {
    ghost then = { warned T.StandsFor };
}

/// Word 0 by one up.
pub struct Mark<T>(PhantomData<T>);

impl<T: StandsFor> Play<T, View<T::Entry, T::Fixed>> for Mark<T> {
    ghost then = { marked T.StandsFor };
}

/// Word 1 to one that says that no seat has the turn.
pub struct Free<T>(PhantomData<T>);

impl<T: StandsFor> Play<T, View<T::Entry, T::Fixed>> for Free<T> {
    ghost then = { freed T.StandsFor };
}

/// A look at word 0.
pub struct Look<T>(PhantomData<T>);

impl<T: StandsFor> Play<T, View<T::Entry, T::Fixed>> for Look<T> {
    ghost then = { looked T.StandsFor };
}

/// How a seat's view is cut in two, and put together.
pub struct Halves;

impl<E, F> Split<View<E, F>> for Halves {
    ghost left = { left_half };

    ghost right = { right_half };
}

impl<E, F> Join<View<E, F>> for Halves {
    ghost both = { both };

    ghost spent = { spent };
}
