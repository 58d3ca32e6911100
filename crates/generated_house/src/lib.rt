//! The house, the book and the script of a run in memory that is generated from a seed.
#![tactic(auto)]

ghost use Rattle.std.specs.Prelude.{◌≡◌, ◌≤◌};
ghost use Rattle.generated_house.specs.Sizes.{most_asks, paid_of};

mod book;
mod house;
mod key;
mod script;

pub use book::generated_book;
pub use house::generated_house;
pub use key::generated_key;
pub use script::generated_script;

/// How many rows the table has.
pub const ROWS: usize = 1000;

/// How many asks a block has.
pub const BLOCK: u32 = 10;

/// What an ask costs, in millionths.
pub const PRICE: u64 = 1_000_000;

/// The version of the journal, in which an ask whose number has no noise stays charged.
pub const VERSION: u8 = 2;

/// How many asks the budget pays for: half of them, rounded up.
pub fn paid_of(asks: u32) -> u32
    requires { asks ≤ most_asks }
    ensures { result ≡ paid_of asks }
{
    (asks + 1) / 2
}
