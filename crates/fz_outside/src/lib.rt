//! The outside of the program, as traits whose contracts say what an object holds and how often it has failed.
//!
//! Each trait has a form in memory, which tells what it holds, and a real one, which doesn't.
#![tactic(auto)]

ghost use Rattle.std.specs.Prelude.{◌≡◌, ◌+◌, ◌≤◌, min};
ghost use Rattle.fz_outside.specs.Faults.{HasRisen, last_count};
ghost use Rattle.fz_outside.specs.declared.FileFault.TheVariants.{Failed as FileFailed, NoMemory};

use std::alloc::AllocError;

pub mod files;
pub mod flaky;
pub mod names;
pub mod real;
pub mod sink;
pub mod source;
pub mod words;

/// The outside has failed, and its count of faults has risen.
#[derive(Clone, Copy, Debug, PartialEq, Eq)]
pub struct Failed;

// Counts a fault.
fn fault(count: &mut u64) -> Failed
    ensures counted { count.new ≡ min (count.old + 1) last_count }
    ensures later { count.old ≤ count.new }
    ensures risen { HasRisen count.old count.new }
{
    *count = count.saturating_add(1);
    Failed
}

/// Why contents could not be read whole.
#[derive(Clone, Copy, Debug, PartialEq, Eq)]
pub enum FileFault {
    /// The outside has failed, and its count of faults has risen.
    Failed,
    /// Memory is wanting.
    NoMemory,
}

impl From<Failed> for FileFault {
    ghost from_gives = { λ _ fault. fault ≡ FileFailed };

    fn from(_failed: Failed) -> FileFault {
        FileFault::Failed
    }
}

impl From<AllocError> for FileFault {
    ghost from_gives = { λ _ fault. fault ≡ NoMemory };

    fn from(_error: AllocError) -> FileFault {
        FileFault::NoMemory
    }
}
