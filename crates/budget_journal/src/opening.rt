//! Opening a journal that a stop may have left.

ghost use Rattle.std.specs.Prelude.{◌≡◌, ◌≢◌, ◌↔◌, ℕ, ◌+◌, ◌*◌, ◌^◌, ◌<◌, ◌≤◌, Some, List, length, take, drop};
ghost use Rattle.std.specs.Prelude.{IsTrue, IsErrOf, IfOk, IfErr, IfSome, IfNone, OnOk, false};
ghost use Rattle.std.specs.List.{All};
ghost use Rattle.fz_outside.specs.Faults.{HasCause};
ghost use Rattle.outside_disks.specs.Disks.{Trace, seen_of, noted, WhereTold};
ghost use Rattle.outside_disks.specs.Disks.Step.{Synced};
ghost use Rattle.journal_records.specs.Encoding.{IsValid};
ghost use Rattle.budget_journal.specs.declared.opening.OpenFault.TheVariants.{DiskFault, NoMemory};
ghost use Rattle.budget_journal.specs.declared.form.Form.TheVariants.{Many};
ghost use Rattle.budget_journal.specs.Areas.{area_in, HasGates, IsStray};
ghost use Rattle.budget_journal.specs.Journals.{Layout, slot_place, Differ, Found, IsMarked, IsOpenFault, MayHaveSynced};
ghost use Rattle.budget_journal.specs.Journals.{disk_of, used, is_closed, capacity_of, mark_of, version_of};
ghost use Rattle.budget_journal.specs.Opening.{AreAlike, HeaderRead, SlotAdded, Scanned, IsSlotFault, SlotsRead, JournalRead};

use crate::area::Area;
use crate::form::{Form, version_named};
use crate::journal::Journal;
use fz_outside::Failed;
use journal_records::coding::{GATE, encode_header};
use journal_records::decoding::decode;
use journal_records::records::{Header, Record};
use outside_disks::disk::Disk;
use std::alloc::{AllocError, AllocFailed, Global};

/// Why a journal was not opened.
#[derive(Clone, Copy, Debug, Drop, PartialEq, Eq)]
pub enum OpenFault {
    /// The disk has failed in this call.
    DiskFault,
    /// Memory is wanting.
    NoMemory,
    /// The disk has under 128 bytes, or the header's gate is closed.
    NotInitialised { length: u64 },
    /// The header on the disk isn't the entry's in the version that is found there, or that version is none of 1, 2 and 3.
    Changed { kept: [u8; 128], found: [u8; 128] },
    /// The least slot that isn't wholly there, or is past the last one in version 1, or is open and no record, or is open behind a
    /// closed one.
    Damaged { slot: u32 },
}

impl From<Failed> for OpenFault {
    ghost from_gives = { λ _ fault. fault ≡ DiskFault };

    fn from(_failed: Failed) -> OpenFault {
        OpenFault::DiskFault
    }
}

impl From<AllocError> for OpenFault {
    ghost from_gives = { λ _ fault. fault ≡ NoMemory };

    fn from(_error: AllocError) -> OpenFault {
        OpenFault::NoMemory
    }
}

impl<T: Drop> From<AllocFailed<T>> for OpenFault {
    ghost from_gives = { λ _ fault. fault ≡ NoMemory };

    fn from(_error: AllocFailed<T>) -> OpenFault {
        OpenFault::NoMemory
    }
}

// The live area by the gates in a header, where these are in order.
fn area_by_gates(kept: &[u8; 128], capacity: u32) -> Option<Area>
    ensures live { IfSome result (λ area. (area.form ≡ Many) × (area.capacity ≡ capacity) × HasGates capacity area.number kept.now) }
    ensures stray { IfNone result ((n : ℕ) × IsStray capacity kept.now n) }
{
    let mut live = Area::first(Form::Many, capacity);
    let mut shut = false;
    for number in 1..32 {
        if kept[96 + number] != GATE {
            shut = true;
        } else if shut {
            // behind one that isn't open
            return None;
        } else if live.slots == capacity {
            // for no area
            return None;
        } else {
            live = live.next();
        }
    }
    Some(live)
}

// Whether two headers have the same fields.
fn have_same_fields(kept: &[u8; 128], found: &[u8; 128]) -> bool
    ensures { IsTrue result ↔ (take 97 kept.now ≡ take 97 found.now) }
{
    kept[..97] == found[..97]
}

// The live area of the header that is kept, if it is the one found, by the rules of this form.
fn area_by_header(form: Form, capacity: u32, kept: &[u8; 128], found: &[u8; 128]) -> Option<Area>
    ensures form { IfSome result (λ area. area.form ≡ form) }
    ensures capacity { IfSome result (λ area. area.capacity ≡ capacity) }
    ensures alike { IfSome result (λ area. AreAlike form capacity area.number kept.now found.now) }
    ensures differ { IfNone result (Differ form capacity kept.now found.now) }
{
    match form {
        Form::One if *kept == *found => Some(Area::first(form, capacity)),
        Form::Many if have_same_fields(kept, found) => area_by_gates(kept, capacity),
        _ => None,
    }
}

// The length, the live area and the version of a journal with so many bytes, if its header is the wanted one.
fn judge_header(size: u64, kept: &[u8; 128], header: &Header) -> Result<(u64, Area, u8), OpenFault>
    requires { 128 ≤ size }
    ensures judged { (bytes : List ℕ) → size ≡ length bytes → kept.now ≡ take 128 bytes → HeaderRead header.now bytes result }
    ensures long { IfOk result (λ read. read.0 ≡ size) }
    ensures same { IfOk result (λ read. read.1.capacity ≡ header.now.capacity) }
    ensures sound { IsErrOf result DiskFault → ⊥ }
{
    if kept[0] != GATE {
        return Err(OpenFault::NotInitialised { length: size });
    }
    let version = version_named(kept[9]);
    let mut found = [0u8; 128];
    encode_header(&Header { version, ..*header }, &mut found);
    match area_by_header(Form::of(kept[9]), header.capacity, kept, &found) {
        Some(live) => Ok((size, live, version)),
        None => Err(OpenFault::Changed { kept: *kept, found }),
    }
}

// Syncs, and reads the header. Gives the length, the live area and the version.
fn read_header<D: Disk>(disk: &mut D, header: &Header) -> Result<(u64, Area, u8), OpenFault>
    ensures judged { (t : Trace) → D.trace disk.old ≡ Some t → HeaderRead header.now (seen_of t) result }
    ensures long { IfOk result (λ read. 128 ≤ read.0) }
    ensures same { IfOk result (λ read. read.1.capacity ≡ header.now.capacity) }
    ensures synced { OnOk result (D.trace disk.new ≡ noted Synced (D.trace disk.old)) }
    ensures kept { MayHaveSynced (D.trace disk.old) (D.trace disk.new) }
    ensures cause { HasCause (D.faults disk.old) (D.faults disk.new) (IsErrOf result DiskFault) }
    ensures passed { OnOk result (D.faults disk.new ≡ D.faults disk.old) }
{
    disk.sync()?;
    let size = disk.len()?;
    if size < 128 {
        return Err(OpenFault::NotInitialised { length: size });
    }
    let mut kept = [0u8; 128];
    disk.read_at(0, &mut kept)?;
    judge_header(size, &kept, header)
}

// Adds the record of a slot that was read, if it is open: it is moved once.
fn judge_slot(
    slot: u32,
    bytes: &[u8; 64],
    closed: bool,
    records: &mut Vec<Record>,
) -> Result<(), OpenFault>
    ensures judged { (file : List ℕ) (layout : Layout) → slot_place layout slot + 64 ≤ length file → bytes.now ≡ take 64 (drop (slot_place layout slot) file)
        → SlotAdded layout file slot closed records.old.items records.new.items result }
    ensures bounded { length records.new.items ≤ length records.old.items + 1 }
    ensures valid { All IsValid records.old.items → All IsValid records.new.items }
    ensures sound { IsErrOf result DiskFault → ⊥ }
{
    if bytes[0] != GATE {
        return Ok(());
    }
    if closed {
        return Err(OpenFault::Damaged { slot });
    }
    match decode(bytes) {
        Some(found) => {
            records.push(found)?;
            Ok(())
        }
        None => Err(OpenFault::Damaged { slot }),
    }
}

// Reads a slot that is wholly there, and adds its record, if it is open.
fn read_slot<D: Disk>(
    disk: &mut D,
    place: u64,
    slot: u32,
    closed: bool,
    records: &mut Vec<Record>,
) -> Result<(), OpenFault>
    ensures judged { (t : Trace) (layout : Layout) → D.trace disk.old ≡ Some t → place ≡ slot_place layout slot → place + 64 ≤ length (seen_of t)
        → SlotAdded layout (seen_of t) slot closed records.old.items records.new.items result }
    ensures bounded { length records.new.items ≤ length records.old.items + 1 }
    ensures valid { All IsValid records.old.items → All IsValid records.new.items }
    ensures same { D.trace disk.new ≡ D.trace disk.old }
    ensures cause { HasCause (D.faults disk.old) (D.faults disk.new) (IsErrOf result DiskFault) }
    ensures passed { OnOk result (D.faults disk.new ≡ D.faults disk.old) }
{
    let mut bytes = [0u8; 64];
    disk.read_at(place, &mut bytes)?;
    judge_slot(slot, &bytes, closed, records)
}

// Adds the record of the next slot of the live area, if it is open.
fn add_slot<D: Disk>(
    disk: &mut D,
    size: u64,
    live: &Area,
    slot: u32,
    records: &mut Vec<Record>,
) -> Result<(), OpenFault>
    ensures judged { (t : Trace) (layout : Layout) → D.trace disk.old ≡ Some t → size ≡ length (seen_of t) → live.now.begin ≡ layout.begin → slot < layout.slots
        → Scanned layout (seen_of t) slot records.old.items
        → OnOk result (Scanned layout (seen_of t) (slot + 1) records.new.items) × IfErr result (IsSlotFault layout (seen_of t)) }
    ensures bounded { length records.new.items ≤ length records.old.items + 1 }
    ensures valid { All IsValid records.old.items → All IsValid records.new.items }
    ensures same { D.trace disk.new ≡ D.trace disk.old }
    ensures cause { HasCause (D.faults disk.old) (D.faults disk.new) (IsErrOf result DiskFault) }
    ensures passed { OnOk result (D.faults disk.new ≡ D.faults disk.old) }
{
    let place = live.place(slot);
    if size < place + 64 {
        return Err(OpenFault::Damaged { slot });
    }
    let closed = records.len() < slot as usize;
    read_slot(disk, place, slot, closed, records)
}

// Reads the live area's slots of a journal with so many bytes, up to the least that is damaged. Takes memory for these alone.
fn read_slots<D: Disk>(
    alloc: Global,
    disk: &mut D,
    size: u64,
    live: &Area,
) -> Result<Vec<Record>, OpenFault>
    requires { 128 ≤ size }
    ensures judged { (t : Trace) → D.trace disk.old ≡ Some t → size ≡ length (seen_of t)
        → SlotsRead (area_in live.now.form live.now.capacity live.now.number size) (seen_of t) result }
    ensures bounded { IfOk result (λ records. length records.items ≤ live.now.slots) }
    ensures valid { IfOk result (λ records. All IsValid records.items) }
    ensures same { D.trace disk.new ≡ D.trace disk.old }
    ensures cause { HasCause (D.faults disk.old) (D.faults disk.new) (IsErrOf result DiskFault) }
    ensures passed { OnOk result (D.faults disk.new ≡ D.faults disk.old) }
{
    let mut records = Vec::with_capacity(alloc, live.slots as usize)?;
    for slot in 0..live.slots {
        add_slot(disk, size, live, slot, &mut records)?;
    }
    if size > live.file_size(size) {
        return Err(OpenFault::Damaged { slot: live.slots });
    }
    Ok(records)
}

// Reads the live area, its records and the version, or says why not.
fn read_journal<D: Disk>(
    alloc: Global,
    disk: &mut D,
    header: &Header,
) -> Result<(Area, Vec<Record>, u8), OpenFault>
    ensures judged { (t : Trace) → D.trace disk.old ≡ Some t → JournalRead header.now (seen_of t) result }
    ensures capacity { IfOk result (λ read. read.0.capacity ≡ header.now.capacity) }
    ensures bounded { IfOk result (λ read. length read.1.items ≤ read.0.slots) }
    ensures valid { IfOk result (λ read. All IsValid read.1.items) }
    ensures synced { OnOk result (D.trace disk.new ≡ noted Synced (D.trace disk.old)) }
    ensures kept { MayHaveSynced (D.trace disk.old) (D.trace disk.new) }
    ensures cause { HasCause (D.faults disk.old) (D.faults disk.new) (IsErrOf result DiskFault) }
    ensures passed { OnOk result (D.faults disk.new ≡ D.faults disk.old) }
{
    let (size, live, version) = read_header(disk, header)?;
    let records = read_slots(alloc, disk, size, &live)?;
    Ok((live, records, version))
}

impl<D: Disk> Journal<D> {
    /// Opens the journal of this header that a stop may have left, in whatever version it has. It begins with a sync: what is read
    /// is stable.
    pub fn open(
        alloc: Global,
        disk: D,
        header: &Header,
    ) -> Result<(Journal<D>, Vec<Record>), (D, OpenFault)>
        ensures found { IfOk result (λ opened. WhereTold (Found (record header.now { version = version_of opened.0 }) opened.1.items)
            (D.trace disk) (D.trace (disk_of opened.0))) }
        ensures marked { IfOk result (λ opened. IfSome (D.trace (disk_of opened.0))
            (IsMarked (mark_of opened.0) (record header.now { version = version_of opened.0 }) opened.1.items)) }
        ensures open { IfOk result (λ opened. is_closed opened.0 ≡ false) }
        ensures counted { IfOk result (λ opened. used opened.0 ≡ length opened.1.items) }
        ensures capacity { IfOk result (λ opened. capacity_of opened.0 ≡ header.now.capacity) }
        ensures room { IfOk result (λ opened. length opened.1.items ≤ header.now.capacity) }
        ensures valid { IfOk result (λ opened. All IsValid opened.1.items) }
        ensures passed { IfOk result (λ opened. D.faults (disk_of opened.0) ≡ D.faults disk) }

        ensures refused { IfErr result (λ refused. (t : Trace) → D.trace disk ≡ Some t → IsOpenFault header.now (seen_of t) refused.1) }
        ensures kept { IfErr result (λ refused. MayHaveSynced (D.trace disk) (D.trace refused.0)) }
        ensures cause { IfErr result (λ refused. HasCause (D.faults disk) (D.faults refused.0) (refused.1 ≡ DiskFault)) }
    {
        let mut disk = disk;
        match read_journal(alloc, &mut disk, header) {
            Ok((area, records, version)) => {
                let journal = Journal {
                    disk,
                    area,
                    used: records.len() as u32,
                    closed: false,
                    version,
                };
                Ok((journal, records))
            }
            Err(fault) => Err((disk, fault)),
        }
    }
}
