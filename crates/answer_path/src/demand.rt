//! What is demanded of an owner.

use crate::query::Query;

/// What an analyst may demand of an owner. It borrows the line.
#[derive(Clone, Copy)]
pub enum Demand<'a> {
    /// An answer to a query.
    Asks(Query<'a>),
    /// What became of a number that this analyst reserved.
    Recalls { analyst: u16, number: u32 },
    /// What is spent of the budget.
    Balances,
    /// What this analyst has spent.
    Spends { analyst: u16 },
}
