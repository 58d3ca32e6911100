//! Connections, as a trait whose contracts say which bytes a connection gave, which were written to it, and how often it has
//! failed.
#![tactic(auto)]

ghost use Rattle.std.specs.Prelude.{◌≡◌, ◌≤◌};
ghost use Rattle.fz_outside.specs.Faults.{HasRisen};

use fz_outside::Failed;

pub mod gate;
pub mod link;
pub mod memory;

/// Counts a fault.
pub fn fault(count: &mut u64) -> Failed
    ensures later { count.old ≤ count.new }
    ensures risen { HasRisen count.old count.new }
{
    *count = count.saturating_add(1);
    Failed
}
