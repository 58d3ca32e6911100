//! A bay: the disks of each owner, to be taken and put back.

ghost use Rattle.std.specs.Prelude.{◌≡◌, ℕ, ◌<◌, Option, Some, None, IsSome, IsErr, IfOk, OnOk, OnErr};
ghost use Rattle.fz_outside.specs.Faults.{HasCause};
ghost use Rattle.outside_disks.specs.Stored.{Stored, stored_of};
ghost use Rattle.outside_bays.specs.Bays.{Changes, Same};

use fz_outside::Failed;
use outside_disks::disk::Disk;
use outside_disks::disks::Disks;

/// The disks of owners 0, 1, 2, ..
///
/// Each owner has one, or two with a mirror. Taken ones aren't taken again before they are put back. A disk that wasn't made yet is an
/// empty one.
pub trait Bay {
    type D: Disk + Drop + Send;

    // How many owners there are.
    ghost owners: { Self → ℕ };

    // What each owner's disks show while they are at home, and None while they are taken: then they show that themselves.
    ghost shelf: { Self → ℕ → Option Stored };

    // How many calls have failed.
    ghost faults: { Self → ℕ };

    /// Takes the owner's disks.
    fn take(&mut self, owner: u32) -> Result<Disks<Self::D>, Failed>
        requires owner { owner < owners self.old }
        requires home { IsSome (shelf self.old owner) }

        ensures given { IfOk result (λ disks. shelf self.old owner ≡ Some (stored_of Self.D.trace Self.D.faults disks)) }
        ensures taken { OnOk result (Changes owner None (shelf self.old) (shelf self.new)) }
        ensures err { OnErr result (Same (shelf self.old) (shelf self.new)) }
        ensures owners { owners self.new ≡ owners self.old }

        ensures cause { HasCause (faults self.old) (faults self.new) (IsErr result) }
        ensures passed { OnOk result (faults self.new ≡ faults self.old) };

    /// Puts the owner's disks back.
    fn put_back(&mut self, owner: u32, disks: Disks<Self::D>)
        requires owner { owner < owners self.old }
        requires taken { shelf self.old owner ≡ None }

        ensures home { Changes owner (Some (stored_of Self.D.trace Self.D.faults disks)) (shelf self.old) (shelf self.new) }
        ensures owners { owners self.new ≡ owners self.old }
        ensures passed { faults self.new ≡ faults self.old };
}
