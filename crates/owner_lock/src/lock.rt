//! The lock.

ghost use Rattle.std.specs.Prelude.{◌≡◌};

use crate::law::Law;
use crate::stands::StandsFor;
use crate::view::View;
use atomic_table::Table;
use std::alloc::Global;
use std::snapshot::Snapshot;

/// There was no memory. The state comes back.
#[derive(Drop)]
pub struct NoMemory<T> {
    pub state: T,
}

/// A lock round one state.
#[derive(Drop)]
pub struct Owned<T: StandsFor> {
    pub(crate) table: Table<T, View<T::Entry, T::Fixed>, Snapshot<T>, Law, Global>,
    ghost sized: { (table.shared.table_id.words ≡ 2) × (table.shared.table_id.slots ≡ 1) },
}
