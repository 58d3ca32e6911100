//! What a seat of the table knows. No value of it is made.

use std::collections::LinkedList;

pub struct View<E, F> {
    /// The fixed part of the state that was put under the lock. None once the seat was joined to another.
    pub fixed: Option<F>,
    /// The history of the state that was put under the lock.
    pub base: LinkedList<E>,
    /// A beginning of the history.
    pub seen: LinkedList<E>,
    /// What a seat had seen that was joined to this one, until the next look.
    pub told: LinkedList<E>,
    /// The seat's own entries, with their positions.
    pub own: LinkedList<(u64, E)>,
    pub share: u64,
    pub shut: bool,
    pub turn: bool,
}
