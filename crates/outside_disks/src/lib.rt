//! Disks, as a trait whose contracts say what was done to a disk, what its reads give, what a stop may leave, and how
//! often it has failed.
//!
//! The forms in memory tell what was done to them, the file of the system doesn't.
#![tactic(auto)]

ghost use Rattle.std.specs.Prelude.{◌≡◌, ◌+◌, ◌≤◌, min};
ghost use Rattle.fz_outside.specs.Faults.{HasRisen, last_count};

use fz_outside::Failed;

pub mod disk;
pub mod disks;
pub mod failing;
pub mod laws;
pub mod memory;
pub mod real;

/// Counts a fault.
pub fn fault(count: &mut u64) -> Failed
    ensures counted { count.new ≡ min (count.old + 1) last_count }
    ensures later { count.old ≤ count.new }
    ensures risen { HasRisen count.old count.new }
{
    *count = count.saturating_add(1);
    Failed
}
