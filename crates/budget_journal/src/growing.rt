//! An area more.

ghost use Rattle.std.specs.Prelude.{◌≡◌, ◌+◌, ◌*◌, ◌<◌, ◌≤◌, suc, length, IsErr, IfOk, IfSome, OnOk, OnErr};
ghost use Rattle.fz_outside.specs.Faults.{HasCause};
ghost use Rattle.outside_disks.specs.Disks.{seen_of, noted, WhereTold, MayHaveWritten};
ghost use Rattle.outside_disks.specs.Disks.Step.{Wrote, Synced};
ghost use Rattle.budget_journal.specs.Growth.{IsChunk, ChunkCopied, AreaCopied, AreaCopyFailed, AreaAdded, AreaAddFailed, RoomMade, RoomNotMade};
ghost use Rattle.budget_journal.specs.Journals.{mark_at, GrowsWhereFull};
ghost use Rattle.budget_journal.specs.declared.form.Form.TheVariants.{Many};

use crate::area::Area;
use fz_outside::Failed;
use journal_records::coding::GATE;
use outside_disks::disk::Disk;

// Writes these bytes and makes them stable.
pub(crate) fn put_stable<D: Disk>(disk: &mut D, place: u64, bytes: &[u8]) -> Result<(), Failed>
    ensures stable { OnOk result (D.trace disk.new ≡ noted Synced (noted (Wrote place bytes.now) (D.trace disk.old))) }
    ensures err { OnErr result (MayHaveWritten place (length bytes.now) (D.trace disk.old) (D.trace disk.new)) }
    ensures cause { HasCause (D.faults disk.old) (D.faults disk.new) (IsErr result) }
    ensures passed { OnOk result (D.faults disk.new ≡ D.faults disk.old) }
{
    disk.write_at(place, bytes)?;
    disk.sync()
}

/// How many slots are copied at once, by way of the stack.
const CHUNK_SLOTS: u32 = 256;

/// How many bytes those have.
const CHUNK_BYTES: usize = 64 * CHUNK_SLOTS as usize;

// Fills a chunk with what goes into the next area from a slot on: what this one has there, and behind its slots zeros.
fn fill_chunk<D: Disk>(disk: &mut D, from: &Area, slot: u32, chunk: &mut [u8]) -> Result<(), Failed>
    ensures filled { OnOk result (IfSome (D.trace disk.old) (λ t. IsChunk from.now.begin from.now.slots slot (seen_of t) chunk.new)) }
    ensures same { D.trace disk.new ≡ D.trace disk.old }
    ensures cause { HasCause (D.faults disk.old) (D.faults disk.new) (IsErr result) }
    ensures passed { OnOk result (D.faults disk.new ≡ D.faults disk.old) }
{
    let held = chunk
        .len()
        .min(64 * from.slots.saturating_sub(slot) as usize);
    chunk[held..].fill(0);
    if held != 0 {
        disk.read_at(from.place(slot), &mut chunk[..held])?;
    }
    Ok(())
}

// Writes the slots of the next area that a chunk has room for, from one on.
fn copy_chunk<D: Disk>(
    disk: &mut D,
    from: &Area,
    to: &Area,
    slot: u32,
    chunk: &mut [u8],
) -> Result<(), Failed>
    requires { to.now.begin ≡ from.now.begin + 64 * from.now.slots }
    ensures copied { OnOk result (WhereTold (ChunkCopied from.now.begin from.now.slots slot (length chunk.old)) (D.trace disk.old) (D.trace disk.new)) }
    ensures err { OnErr result (MayHaveWritten (to.now.begin + 64 * slot) (length chunk.old) (D.trace disk.old) (D.trace disk.new)) }
    ensures cause { HasCause (D.faults disk.old) (D.faults disk.new) (IsErr result) }
    ensures passed { OnOk result (D.faults disk.new ≡ D.faults disk.old) }
{
    fill_chunk(disk, from, slot, chunk)?;
    disk.write_at(to.place(slot), chunk)
}

// Writes the next area behind this one: its slots as they are, and then zeros. No frame but its own has the chunk.
#[inline(never)]
fn copy_area<D: Disk>(disk: &mut D, from: &Area, to: &Area) -> Result<(), Failed>
    requires { to.now.begin ≡ from.now.begin + 64 * from.now.slots }
    ensures copied { OnOk result (WhereTold (AreaCopied from.now.begin from.now.slots to.now.slots) (D.trace disk.old) (D.trace disk.new)) }
    ensures begun { OnErr result (WhereTold (AreaCopyFailed from.now.begin from.now.slots) (D.trace disk.old) (D.trace disk.new)) }
    ensures cause { HasCause (D.faults disk.old) (D.faults disk.new) (IsErr result) }
    ensures passed { OnOk result (D.faults disk.new ≡ D.faults disk.old) }
{
    let mut chunk = [0u8; CHUNK_BYTES];
    let mut slot = 0;
    while slot < to.slots {
        let count = CHUNK_SLOTS.min(to.slots - slot);
        copy_chunk(disk, from, to, slot, &mut chunk[..64 * count as usize])?;
        slot += count;
    }
    Ok(())
}

// Makes the next area live. Its gate is written once the area is stable.
fn add_area<D: Disk>(disk: &mut D, full: &Area) -> Result<Area, Failed>
    requires { full.now.slots < full.now.capacity }
    ensures added { OnOk result (WhereTold (AreaAdded full.now.capacity full.now.number) (D.trace disk.old) (D.trace disk.new)) }
    ensures refused { OnErr result (WhereTold (AreaAddFailed full.now.capacity full.now.number) (D.trace disk.old) (D.trace disk.new)) }
    ensures next { IfOk result (λ area. (area.form ≡ full.now.form) × (area.capacity ≡ full.now.capacity) × (area.number ≡ full.now.number + 1)) }
    ensures cause { HasCause (D.faults disk.old) (D.faults disk.new) (IsErr result) }
    ensures passed { OnOk result (D.faults disk.new ≡ D.faults disk.old) }
{
    let next = full.next();
    copy_area(disk, full, &next)?;
    disk.sync()?;
    put_stable(disk, 96 + u64::from(next.number), &[GATE])?;
    Ok(next)
}

// The live area, once it has a free slot: the next one, where this one is full.
pub(crate) fn make_room<D: Disk>(disk: &mut D, live: &Area, used: u32) -> Result<Area, Failed>
    requires { used < live.now.capacity }
    ensures made { IfOk result (λ area. WhereTold (RoomMade (mark_at live.now used) area.number) (D.trace disk.old) (D.trace disk.new)) }
    ensures refused { OnErr result (WhereTold (RoomNotMade (mark_at live.now used)) (D.trace disk.old) (D.trace disk.new)) }
    ensures grows { IfOk result (λ area. GrowsWhereFull (mark_at live.now used) (mark_at area (used + 1))) }
    ensures form { IfOk result (λ area. area.form ≡ live.now.form) }
    ensures capacity { IfOk result (λ area. area.capacity ≡ live.now.capacity) }
    ensures cause { HasCause (D.faults disk.old) (D.faults disk.new) (IsErr result) }
    ensures passed { OnOk result (D.faults disk.new ≡ D.faults disk.old) }
{
    if used < live.slots {
        Ok(*live)
    } else {
        add_area(disk, live)
    }
}
