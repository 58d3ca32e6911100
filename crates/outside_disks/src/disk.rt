//! A disk: bytes at places, which a write changes at once for reads, and a sync for good.

ghost use Rattle.std.specs.Prelude.{◌≡◌, ℕ, Option, length, IsErr, IfOk, IfSome, OnOk, OnErr};
ghost use Rattle.fz_outside.specs.Faults.{HasCause};
ghost use Rattle.outside_disks.specs.Disks.{Trace, seen_of, noted, Gives, MayHaveWritten};
ghost use Rattle.outside_disks.specs.Disks.Step.{Wrote, Synced};

use fz_outside::Failed;

/// Bytes at places. Nobody else writes them.
///
/// A write is seen by reads at once. Until a sync answers Ok a stop may leave any bytes in its range, and behind
/// what was the end.
pub trait Disk {
    // What was done to the disk so far, where it is told. What reads give (`seen_of`), what a stop now may leave
    // (`IsImage`) and what a stop since an earlier moment may have left (`WasImage`) follow from it.
    ghost trace: { Self → Option Trace };

    // How many calls have failed.
    ghost faults: { Self → ℕ };

    /// How many bytes there are.
    fn len(&mut self) -> Result<u64, Failed>
        ensures length { IfOk result (λ n. IfSome (trace self.old) (λ t. n ≡ length (seen_of t))) }
        ensures same { trace self.new ≡ trace self.old }

        ensures cause { HasCause (faults self.old) (faults self.new) (IsErr result) }
        ensures passed { OnOk result (faults self.new ≡ faults self.old) };

    /// Fills `buf` with the bytes from this place on. Past the end there are zeros.
    fn read_at(&mut self, place: u64, buf: &mut [u8]) -> Result<(), Failed>
        ensures bytes { OnOk result (IfSome (trace self.old) (λ t. Gives (seen_of t) place buf.new)) }
        ensures same { trace self.new ≡ trace self.old }

        ensures cause { HasCause (faults self.old) (faults self.new) (IsErr result) }
        ensures passed { OnOk result (faults self.new ≡ faults self.old) };

    /// Writes the bytes at this place. Between the end and a place behind it zeros are put.
    /// A write that fails may have written other bytes, from the same place on.
    fn write_at(&mut self, place: u64, bytes: &[u8]) -> Result<(), Failed>
        ensures written { OnOk result (trace self.new ≡ noted (Wrote place bytes.now) (trace self.old)) }
        ensures err { OnErr result (MayHaveWritten place (length bytes.now) (trace self.old) (trace self.new)) }

        ensures cause { HasCause (faults self.old) (faults self.new) (IsErr result) }
        ensures passed { OnOk result (faults self.new ≡ faults self.old) };

    /// Makes what reads give stable.
    fn sync(&mut self) -> Result<(), Failed>
        ensures synced { OnOk result (trace self.new ≡ noted Synced (trace self.old)) }
        ensures err { OnErr result (trace self.new ≡ trace self.old) }

        ensures cause { HasCause (faults self.old) (faults self.new) (IsErr result) }
        ensures passed { OnOk result (faults self.new ≡ faults self.old) };

    /// Answers Ok where the bytes are still those that whoever opens the disk now would find, and not others in their place.
    fn is_in_place(&mut self) -> Result<(), Failed>
        ensures same { trace self.new ≡ trace self.old }

        ensures cause { HasCause (faults self.old) (faults self.new) (IsErr result) }
        ensures passed { OnOk result (faults self.new ≡ faults self.old) };

    /// How many calls have failed.
    fn fault_count(&self) -> u64
        ensures { result ≡ faults self.now };
}
