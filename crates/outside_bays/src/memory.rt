//! A bay of disks in memory, some of whose calls fail.

ghost use Rattle.std.specs.Prelude.{◌≡◌, ℕ, ◌<◌, Some, None, IsSome, length, is_err, IsErr, IfOk, OnOk, OnErr};
ghost use Rattle.fz_outside.specs.Faults.{HasCause};
ghost use Rattle.fz_outside.specs.Schedule.{is_listed, began};
ghost use Rattle.outside_disks.specs.Stored.{stored_of};
ghost use Rattle.outside_bays.specs.Bays.{Changes, Same, shelf_of};
ghost use Rattle.outside_bays.specs.Failing.{disks_of, schedule_of};

use crate::bay::Bay;
use fz_outside::Failed;
use fz_outside::flaky::Schedule;
use outside_disks::disk::Disk;
use outside_disks::disks::Disks;

/// Disks in memory, one or two for each owner. The calls that are listed fail, by their numbers from 0.
#[derive(Drop)]
pub struct MemBay<'a, D: Disk> {
    disks: Vec<Option<Disks<D>>>,
    schedule: Schedule<'a>,
}

impl<'a, D: Disk + Drop + Send> MemBay<'a, D> {
    /// These disks, all of them at home.
    pub fn new(disks: Vec<Option<Disks<D>>>, failing: &'a [u64]) -> Self
        ensures owners { ⟦<MemBay<'a, D> as Bay>⟧.owners result ≡ length disks.items }
        ensures shelf { (n : ℕ) → ⟦<MemBay<'a, D> as Bay>⟧.shelf result n ≡ shelf_of (stored_of D.trace D.faults) disks.items n }
        ensures faults { ⟦<MemBay<'a, D> as Bay>⟧.faults result ≡ 0 }
        ensures calls { (schedule_of result).calls ≡ 0 }
        ensures failing { (schedule_of result).failing.now ≡ failing.now }
    {
        MemBay {
            disks,
            schedule: Schedule {
                failing,
                calls: 0,
                faults: 0,
            },
        }
    }
}

// Begins a call, which fails where it is listed.
fn begin(schedule: &mut Schedule<'_>) -> Result<(), Failed>
    ensures listed { is_err result ≡ is_listed schedule.old }
    ensures began { schedule.new ≡ began schedule.old }
    ensures cause { HasCause schedule.old.faults schedule.new.faults (IsErr result) }
    ensures passed { OnOk result (schedule.new.faults ≡ schedule.old.faults) }
{
    let _before = schedule.faults;
    schedule.begin()
}

impl<D: Disk + Drop + Send> Bay for MemBay<'_, D> {
    type D = D;

    ghost owners = { λ bay. length bay.disks.items };

    ghost shelf = { λ bay. shelf_of (stored_of D.trace D.faults) bay.disks.items };

    ghost faults = { λ bay. bay.schedule.faults };

    fn take(&mut self, owner: u32) -> Result<Disks<D>, Failed>
        requires owner { owner < length (disks_of self.old) }
        requires home { IsSome (shelf_of (stored_of D.trace D.faults) (disks_of self.old) owner) }

        ensures began { schedule_of self.new ≡ began (schedule_of self.old) }
        ensures listed { is_err result ≡ is_listed (schedule_of self.old) }

        // As of any bay.
        ensures given { IfOk result (λ disks. shelf_of (stored_of D.trace D.faults) (disks_of self.old) owner ≡ Some (stored_of D.trace D.faults disks)) }
        ensures taken { OnOk result (Changes owner None (shelf_of (stored_of D.trace D.faults) (disks_of self.old))
            (shelf_of (stored_of D.trace D.faults) (disks_of self.new))) }
        ensures err { OnErr result (Same (shelf_of (stored_of D.trace D.faults) (disks_of self.old))
            (shelf_of (stored_of D.trace D.faults) (disks_of self.new))) }
        ensures owners { length (disks_of self.new) ≡ length (disks_of self.old) }
        ensures cause { HasCause (schedule_of self.old).faults (schedule_of self.new).faults (IsErr result) }
        ensures passed { OnOk result ((schedule_of self.new).faults ≡ (schedule_of self.old).faults) }
    {
        begin(&mut self.schedule)?;
        match self.disks[owner as usize].take() {
            Some(disks) => Ok(disks),
            None => Err(Failed),
        }
    }

    fn put_back(&mut self, owner: u32, disks: Disks<D>)
        requires owner { owner < length (disks_of self.old) }
        requires taken { shelf_of (stored_of D.trace D.faults) (disks_of self.old) owner ≡ None }

        ensures same { schedule_of self.new ≡ schedule_of self.old }

        // As of any bay.
        ensures home { Changes owner (Some (stored_of D.trace D.faults disks))
            (shelf_of (stored_of D.trace D.faults) (disks_of self.old))
            (shelf_of (stored_of D.trace D.faults) (disks_of self.new)) }
        ensures owners { length (disks_of self.new) ≡ length (disks_of self.old) }
        ensures passed { (schedule_of self.new).faults ≡ (schedule_of self.old).faults }
    {
        self.disks[owner as usize] = Some(disks);
    }
}
