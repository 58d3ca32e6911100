//! What a ledger answers about its records.

/// How a reservation stands. `seen` is the number of records that show it.
#[derive(Clone, Copy, Debug, Drop, PartialEq, Eq)]
pub enum Recall {
    /// There is no reservation of that number.
    Unknown { seen: u32 },
    /// Another analyst reserved it.
    NotYours { seen: u32 },
    /// It was answered with this noised value.
    Answer { value: i64, seen: u32 },
    /// It is of this run and has no settlement yet.
    Open { seen: u32 },
    /// Its answer was lost, or an earlier run left it open.
    Lost { seen: u32 },
    /// The sampler ran out of draws.
    Exhausted { seen: u32 },
}

/// What is spent of the budget, in millionths of epsilon.
#[derive(Clone, Copy, Debug, Drop, PartialEq, Eq)]
pub struct Left {
    pub spent: u64,
    pub budget: u64,
    /// The number of records.
    pub seen: u32,
}

/// What one analyst has spent, in millionths of epsilon, and what it may spend at most, where it has a limit.
#[derive(Clone, Copy, Debug, Drop, PartialEq, Eq)]
pub struct Mine {
    pub spent: u64,
    pub limit: Option<u64>,
    /// The number of records.
    pub seen: u32,
}

/// How many reservations there are, and how they ended.
#[derive(Clone, Copy, Debug, Drop, PartialEq, Eq)]
pub struct Counts {
    pub reservations: u32,
    pub answered: u32,
    pub exhausted: u32,
    /// All others.
    pub lost: u32,
}

/// Why no grant was made.
#[derive(Clone, Copy, Debug, Drop, PartialEq, Eq)]
pub enum GrantRefusal {
    /// The budget with this amount would exceed the limit of all budgets.
    TooLarge {
        budget: u64,
        amount: u64,
    },
    /// The records, a settlement for each open reservation and the new record would exceed the capacity.
    Full {
        used: u32,
        unsettled: u32,
        capacity: u32,
    },
}

/// Why found records make no ledger.
#[derive(Clone, Copy, Debug, Drop, PartialEq, Eq)]
pub enum FoundFault {
    /// Memory is wanting.
    NoMemory,
    /// The first record that may not follow those before it.
    Astray(u32),
}
