//! Disks some of whose calls fail: a stop of the machine, or one fault, as a disk.

ghost use Rattle.std.specs.Prelude.{◌≡◌, ◌+◌, ◌-◌, ◌==◌, ◌↔◌, length, min, IsErr, is_err, IfOk, IfSome, OnOk, OnErr};
ghost use Rattle.fz_outside.specs.Faults.{HasCause, both_counts, count_after, last_count};
ghost use Rattle.outside_disks.specs.Disks.{seen_of, noted, Gives, MayHaveWritten};
ghost use Rattle.outside_disks.specs.Disks.Step.{Wrote, Synced};
ghost use Rattle.outside_disks.specs.Failing.{inner_of, calls_left, fuse_refused, IsSpent, blip_inner, blip_calls, blip_at, blip_refused, IsPassed};

use crate::disk::Disk;
use crate::fault;
use fz_outside::Failed;

/// Passes so many calls on, and fails each one after.
#[derive(Drop)]
pub struct FuseDisk<D: Disk> {
    inner: D,
    left: u64,
    refused: u64,
}

impl<D: Disk> FuseDisk<D> {
    pub fn new(inner: D, calls: u64) -> FuseDisk<D>
        ensures inner { inner_of result ≡ inner }
        ensures left { calls_left result ≡ calls }
    {
        FuseDisk {
            inner,
            left: calls,
            refused: 0,
        }
    }

    /// The disk behind it.
    pub fn into_inner(self) -> D
        ensures { result ≡ inner_of self }
    {
        self.inner
    }
}

// A call of a fuse: it fails where none is left.
fn spend(left: &mut u64, refused: &mut u64) -> Result<(), Failed>
    ensures blown { IsErr result ↔ (left.old ≡ 0) }
    ensures spent { left.new ≡ left.old - 1 }
    ensures counted { refused.new ≡ count_after (is_err result) refused.old }
{
    if *left == 0 {
        return Err(fault(refused));
    }
    *left -= 1;
    Ok(())
}

impl<D: Disk> Disk for FuseDisk<D> {
    ghost trace = { λ disk. D.trace disk.inner };

    ghost faults = { λ disk. both_counts (D.faults disk.inner) disk.refused };

    fn len(&mut self) -> Result<u64, Failed>
        ensures spent { IsSpent self.old self.new }
        ensures blown { calls_left self.old ≡ 0 → IsErr result × (inner_of self.new ≡ inner_of self.old) }

        // As of any disk.
        ensures length { IfOk result (λ n. IfSome (D.trace (inner_of self.old)) (λ t. n ≡ length (seen_of t))) }
        ensures same { D.trace (inner_of self.new) ≡ D.trace (inner_of self.old) }
        ensures cause { HasCause (both_counts (D.faults (inner_of self.old)) (fuse_refused self.old))
            (both_counts (D.faults (inner_of self.new)) (fuse_refused self.new)) (IsErr result) }
        ensures passed { OnOk result (both_counts (D.faults (inner_of self.new)) (fuse_refused self.new)
            ≡ both_counts (D.faults (inner_of self.old)) (fuse_refused self.old)) }
    {
        spend(&mut self.left, &mut self.refused)?;
        self.inner.len()
    }

    fn read_at(&mut self, place: u64, buf: &mut [u8]) -> Result<(), Failed>
        ensures spent { IsSpent self.old self.new }
        ensures blown { calls_left self.old ≡ 0 → IsErr result × (inner_of self.new ≡ inner_of self.old) }

        // As of any disk.
        ensures bytes { OnOk result (IfSome (D.trace (inner_of self.old)) (λ t. Gives (seen_of t) place buf.new)) }
        ensures same { D.trace (inner_of self.new) ≡ D.trace (inner_of self.old) }
        ensures cause { HasCause (both_counts (D.faults (inner_of self.old)) (fuse_refused self.old))
            (both_counts (D.faults (inner_of self.new)) (fuse_refused self.new)) (IsErr result) }
        ensures passed { OnOk result (both_counts (D.faults (inner_of self.new)) (fuse_refused self.new)
            ≡ both_counts (D.faults (inner_of self.old)) (fuse_refused self.old)) }
    {
        spend(&mut self.left, &mut self.refused)?;
        self.inner.read_at(place, buf)
    }

    fn write_at(&mut self, place: u64, bytes: &[u8]) -> Result<(), Failed>
        ensures spent { IsSpent self.old self.new }
        ensures blown { calls_left self.old ≡ 0 → IsErr result × (inner_of self.new ≡ inner_of self.old) }

        // As of any disk.
        ensures written { OnOk result (D.trace (inner_of self.new) ≡ noted (Wrote place bytes.now) (D.trace (inner_of self.old))) }
        ensures err { OnErr result (MayHaveWritten place (length bytes.now) (D.trace (inner_of self.old)) (D.trace (inner_of self.new))) }
        ensures cause { HasCause (both_counts (D.faults (inner_of self.old)) (fuse_refused self.old))
            (both_counts (D.faults (inner_of self.new)) (fuse_refused self.new)) (IsErr result) }
        ensures passed { OnOk result (both_counts (D.faults (inner_of self.new)) (fuse_refused self.new)
            ≡ both_counts (D.faults (inner_of self.old)) (fuse_refused self.old)) }
    {
        spend(&mut self.left, &mut self.refused)?;
        self.inner.write_at(place, bytes)
    }

    fn sync(&mut self) -> Result<(), Failed>
        ensures spent { IsSpent self.old self.new }
        ensures blown { calls_left self.old ≡ 0 → IsErr result × (inner_of self.new ≡ inner_of self.old) }

        // As of any disk.
        ensures synced { OnOk result (D.trace (inner_of self.new) ≡ noted Synced (D.trace (inner_of self.old))) }
        ensures err { OnErr result (D.trace (inner_of self.new) ≡ D.trace (inner_of self.old)) }
        ensures cause { HasCause (both_counts (D.faults (inner_of self.old)) (fuse_refused self.old))
            (both_counts (D.faults (inner_of self.new)) (fuse_refused self.new)) (IsErr result) }
        ensures passed { OnOk result (both_counts (D.faults (inner_of self.new)) (fuse_refused self.new)
            ≡ both_counts (D.faults (inner_of self.old)) (fuse_refused self.old)) }
    {
        spend(&mut self.left, &mut self.refused)?;
        self.inner.sync()
    }

    fn is_in_place(&mut self) -> Result<(), Failed>
        ensures spent { IsSpent self.old self.new }
        ensures blown { calls_left self.old ≡ 0 → IsErr result × (inner_of self.new ≡ inner_of self.old) }

        // As of any disk.
        ensures same { D.trace (inner_of self.new) ≡ D.trace (inner_of self.old) }
        ensures cause { HasCause (both_counts (D.faults (inner_of self.old)) (fuse_refused self.old))
            (both_counts (D.faults (inner_of self.new)) (fuse_refused self.new)) (IsErr result) }
        ensures passed { OnOk result (both_counts (D.faults (inner_of self.new)) (fuse_refused self.new)
            ≡ both_counts (D.faults (inner_of self.old)) (fuse_refused self.old)) }
    {
        spend(&mut self.left, &mut self.refused)?;
        self.inner.is_in_place()
    }

    fn fault_count(&self) -> u64 {
        self.inner.fault_count().saturating_add(self.refused)
    }
}

/// Fails one call alone, by its number from 0.
#[derive(Drop)]
pub struct BlipDisk<D: Disk> {
    inner: D,
    failing: u64,
    calls: u64,
    refused: u64,
}

impl<D: Disk> BlipDisk<D> {
    pub fn new(inner: D, failing: u64) -> BlipDisk<D>
        ensures inner { blip_inner result ≡ inner }
        ensures calls { blip_calls result ≡ 0 }
        ensures failing { blip_at result ≡ failing }
    {
        BlipDisk {
            inner,
            failing,
            calls: 0,
            refused: 0,
        }
    }

    /// The disk behind it.
    pub fn into_inner(self) -> D
        ensures { result ≡ blip_inner self }
    {
        self.inner
    }
}

// A call of a blip: it fails where it has this number.
fn pass(failing: u64, calls: &mut u64, refused: &mut u64) -> Result<(), Failed>
    ensures blip { is_err result ≡ (calls.old == failing) }
    ensures calls { calls.new ≡ min (calls.old + 1) last_count }
    ensures counted { refused.new ≡ count_after (is_err result) refused.old }
{
    let call = *calls;
    *calls = calls.saturating_add(1);
    if call == failing {
        return Err(fault(refused));
    }
    Ok(())
}

impl<D: Disk> Disk for BlipDisk<D> {
    ghost trace = { λ disk. D.trace disk.inner };

    ghost faults = { λ disk. both_counts (D.faults disk.inner) disk.refused };

    fn len(&mut self) -> Result<u64, Failed>
        ensures begun { IsPassed self.old self.new }
        ensures blip { blip_calls self.old ≡ blip_at self.old → IsErr result × (blip_inner self.new ≡ blip_inner self.old) }

        // As of any disk.
        ensures length { IfOk result (λ n. IfSome (D.trace (blip_inner self.old)) (λ t. n ≡ length (seen_of t))) }
        ensures same { D.trace (blip_inner self.new) ≡ D.trace (blip_inner self.old) }
        ensures cause { HasCause (both_counts (D.faults (blip_inner self.old)) (blip_refused self.old))
            (both_counts (D.faults (blip_inner self.new)) (blip_refused self.new)) (IsErr result) }
        ensures passed { OnOk result (both_counts (D.faults (blip_inner self.new)) (blip_refused self.new)
            ≡ both_counts (D.faults (blip_inner self.old)) (blip_refused self.old)) }
    {
        pass(self.failing, &mut self.calls, &mut self.refused)?;
        self.inner.len()
    }

    fn read_at(&mut self, place: u64, buf: &mut [u8]) -> Result<(), Failed>
        ensures begun { IsPassed self.old self.new }
        ensures blip { blip_calls self.old ≡ blip_at self.old → IsErr result × (blip_inner self.new ≡ blip_inner self.old) }

        // As of any disk.
        ensures bytes { OnOk result (IfSome (D.trace (blip_inner self.old)) (λ t. Gives (seen_of t) place buf.new)) }
        ensures same { D.trace (blip_inner self.new) ≡ D.trace (blip_inner self.old) }
        ensures cause { HasCause (both_counts (D.faults (blip_inner self.old)) (blip_refused self.old))
            (both_counts (D.faults (blip_inner self.new)) (blip_refused self.new)) (IsErr result) }
        ensures passed { OnOk result (both_counts (D.faults (blip_inner self.new)) (blip_refused self.new)
            ≡ both_counts (D.faults (blip_inner self.old)) (blip_refused self.old)) }
    {
        pass(self.failing, &mut self.calls, &mut self.refused)?;
        self.inner.read_at(place, buf)
    }

    fn write_at(&mut self, place: u64, bytes: &[u8]) -> Result<(), Failed>
        ensures begun { IsPassed self.old self.new }
        ensures blip { blip_calls self.old ≡ blip_at self.old → IsErr result × (blip_inner self.new ≡ blip_inner self.old) }

        // As of any disk.
        ensures written { OnOk result (D.trace (blip_inner self.new) ≡ noted (Wrote place bytes.now) (D.trace (blip_inner self.old))) }
        ensures err { OnErr result (MayHaveWritten place (length bytes.now) (D.trace (blip_inner self.old)) (D.trace (blip_inner self.new))) }
        ensures cause { HasCause (both_counts (D.faults (blip_inner self.old)) (blip_refused self.old))
            (both_counts (D.faults (blip_inner self.new)) (blip_refused self.new)) (IsErr result) }
        ensures passed { OnOk result (both_counts (D.faults (blip_inner self.new)) (blip_refused self.new)
            ≡ both_counts (D.faults (blip_inner self.old)) (blip_refused self.old)) }
    {
        pass(self.failing, &mut self.calls, &mut self.refused)?;
        self.inner.write_at(place, bytes)
    }

    fn sync(&mut self) -> Result<(), Failed>
        ensures begun { IsPassed self.old self.new }
        ensures blip { blip_calls self.old ≡ blip_at self.old → IsErr result × (blip_inner self.new ≡ blip_inner self.old) }

        // As of any disk.
        ensures synced { OnOk result (D.trace (blip_inner self.new) ≡ noted Synced (D.trace (blip_inner self.old))) }
        ensures err { OnErr result (D.trace (blip_inner self.new) ≡ D.trace (blip_inner self.old)) }
        ensures cause { HasCause (both_counts (D.faults (blip_inner self.old)) (blip_refused self.old))
            (both_counts (D.faults (blip_inner self.new)) (blip_refused self.new)) (IsErr result) }
        ensures passed { OnOk result (both_counts (D.faults (blip_inner self.new)) (blip_refused self.new)
            ≡ both_counts (D.faults (blip_inner self.old)) (blip_refused self.old)) }
    {
        pass(self.failing, &mut self.calls, &mut self.refused)?;
        self.inner.sync()
    }

    fn is_in_place(&mut self) -> Result<(), Failed>
        ensures begun { IsPassed self.old self.new }
        ensures blip { blip_calls self.old ≡ blip_at self.old → IsErr result × (blip_inner self.new ≡ blip_inner self.old) }

        // As of any disk.
        ensures same { D.trace (blip_inner self.new) ≡ D.trace (blip_inner self.old) }
        ensures cause { HasCause (both_counts (D.faults (blip_inner self.old)) (blip_refused self.old))
            (both_counts (D.faults (blip_inner self.new)) (blip_refused self.new)) (IsErr result) }
        ensures passed { OnOk result (both_counts (D.faults (blip_inner self.new)) (blip_refused self.new)
            ≡ both_counts (D.faults (blip_inner self.old)) (blip_refused self.old)) }
    {
        pass(self.failing, &mut self.calls, &mut self.refused)?;
        self.inner.is_in_place()
    }

    fn fault_count(&self) -> u64 {
        self.inner.fault_count().saturating_add(self.refused)
    }
}
