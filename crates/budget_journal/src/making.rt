//! Making a journal on an empty disk.

ghost use Rattle.std.specs.Prelude.{◌≡◌, ◌≢◌, ◌+◌, ◌*◌, Some, ℕ, [], ◌<◌, ◌≤◌, ◌^◌, length, IsErr, IsErrOf, IfErr, OnOk, OnErr};
ghost use Rattle.fz_outside.specs.Faults.{HasCause};
ghost use Rattle.outside_disks.specs.Disks.{Trace, seen_of, WhereTold};
ghost use Rattle.journal_records.specs.Encoding.{IsHeader};
ghost use Rattle.budget_journal.specs.declared.form.Form.TheVariants.{Many};
ghost use Rattle.budget_journal.specs.Areas.{area_slots};
ghost use Rattle.budget_journal.specs.Journals.{IsAtRest, TellsSome};
ghost use Rattle.budget_journal.specs.Making.{AreZeros, MakesJournal, BeginsSome, AddsSteps};
ghost use Rattle.budget_journal.specs.declared.making.InitFault.TheVariants.{DiskFault, AlreadyThere};

use crate::area::Area;
use crate::form::Form;
use crate::growing::put_stable;
use crate::journal::Journal;
use fz_outside::Failed;
use journal_records::coding::{GATE, encode_header};
use journal_records::records::Header;
use outside_disks::disk::Disk;

/// Why no journal was made.
#[derive(Clone, Copy, Debug, Drop, PartialEq, Eq)]
pub enum InitFault {
    /// The disk has failed in this call: give it up.
    DiskFault,
    /// The disk isn't empty.
    AlreadyThere { length: u64 },
}

impl From<Failed> for InitFault {
    ghost from_gives = { λ _ fault. fault ≡ DiskFault };

    fn from(_failed: Failed) -> InitFault {
        InitFault::DiskFault
    }
}

// Writes zeros over so many pieces of 64 bytes, on an empty disk.
fn put_zeros<D: Disk>(disk: &mut D, pieces: u64) -> Result<(), Failed>
    requires { pieces < 2 ^ 33 }
    ensures zeroed { OnOk result (WhereTold (AddsSteps (λ zeros. AreZeros zeros (64 * pieces))) (D.trace disk.old) (D.trace disk.new)) }
    ensures begun { OnErr result (WhereTold (AddsSteps (BeginsSome (λ zeros. AreZeros zeros (64 * pieces)))) (D.trace disk.old) (D.trace disk.new)) }
    ensures cause { HasCause (D.faults disk.old) (D.faults disk.new) (IsErr result) }
    ensures passed { OnOk result (D.faults disk.new ≡ D.faults disk.old) }
{
    let zeros = [0u8; 64];
    for piece in 0..pieces {
        disk.write_at(64 * piece, &zeros)?;
    }
    Ok(())
}

// How many pieces of 64 bytes the header and area 0 have.
fn first_pieces(capacity: u32) -> u64
    ensures long { 64 * result ≡ 128 + 64 * area_slots Many capacity 0 }
    ensures few { result < 2 ^ 33 }
{
    2 + u64::from(Area::first(Form::Many, capacity).slots)
}

impl<D: Disk> Journal<D> {
    /// Makes a journal of no records on an empty disk, in the header's version, which isn't the first: the header and area 0
    /// alone. After Ok a stop leaves it and nothing else.
    pub fn init(disk: &mut D, header: &Header) -> Result<(), InitFault>
        requires valid { IsHeader header.now }
        requires grown { 2 ≤ header.now.version }
        ensures made { OnOk result ((t : Trace) → D.trace disk.old ≡ Some t → (seen_of t ≡ []) × TellsSome (IsAtRest header.now []) (D.trace disk.new)) }
        ensures in_turn { OnOk result (WhereTold (AddsSteps (MakesJournal header.now)) (D.trace disk.old) (D.trace disk.new)) }
        ensures begun { IfErr result (λ fault. fault ≡ DiskFault
            → WhereTold (AddsSteps (BeginsSome (MakesJournal header.now))) (D.trace disk.old) (D.trace disk.new)) }
        ensures there { IfErr result (λ fault. (n : ℕ) → fault ≡ AlreadyThere n
            → (n ≢ 0) × (D.trace disk.new ≡ D.trace disk.old) × ((t : Trace) → D.trace disk.old ≡ Some t → n ≡ length (seen_of t))) }
        ensures cause { HasCause (D.faults disk.old) (D.faults disk.new) (IsErrOf result DiskFault) }
        ensures passed { OnOk result (D.faults disk.new ≡ D.faults disk.old) }
    {
        let length = disk.len()?;
        if length != 0 {
            return Err(InitFault::AlreadyThere { length });
        }
        put_zeros(disk, first_pieces(header.capacity))?;
        disk.sync()?;
        let mut bytes = [0u8; 128];
        encode_header(header, &mut bytes);
        put_stable(disk, 1, &bytes[1..])?;
        put_stable(disk, 0, &[GATE])?;
        Ok(())
    }
}
