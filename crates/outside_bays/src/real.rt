//! The bay of the system: the disk of owner N is the file `N.bud` of a folder, and perhaps there is a second one in another folder. It
//! tells nothing of what they hold.

ghost use Rattle.std.specs.Prelude.{◌≡◌, ℕ, ◌<◌, length, is_some, Some, None, IsSome, IsErr, IfOk, OnOk, OnErr};
ghost use Rattle.fz_outside.specs.Faults.{HasCause};
ghost use Rattle.outside_disks.specs.Stored.{stored_of};
ghost use Rattle.outside_bays.specs.Bays.{Changes, Same, shelf_of};
ghost use Rattle.outside_bays.specs.Places.{failed_in, fresh_home, home_shown, homes_of};

use crate::bay::Bay;
use fz_outside::Failed;
use outside_disks::disk::Disk;
use outside_disks::disks::Disks;
use outside_disks::fault;
use outside_disks::real::{FileDisk, FilePlace, open_file};
use std::alloc::{AllocError, Global};
use std::io::ErrorKind;
use std::{fs, io, rt};

/// Files, one or two for each owner. A missing file is an empty disk, and is made when it is written first.
#[derive(Drop)]
pub struct RealBay<'a, R> {
    rt: &'a R,
    // Where each owner's files belong, or None while its disks are taken.
    homes: Vec<Option<Disks<FilePlace>>>,
    faults: u64,
}

// Where the files of this name belong.
fn home_of(
    alloc: Global,
    folder: &str,
    mirrors: Option<&str>,
    name: &str,
) -> Result<Disks<FilePlace>, AllocError>
    ensures { IfOk result (λ home. home_shown home ≡ fresh_home (is_some mirrors.entry)) }
{
    let first = FilePlace::new(alloc, folder, name)?;
    match mirrors {
        None => Ok(Disks::One(first)),
        Some(mirrors) => Ok(Disks::Both(first, FilePlace::new(alloc, mirrors, name)?)),
    }
}

impl<'a, R: rt::Files<File = fs::File> + Sync> RealBay<'a, R> {
    /// The bay of so many owners in this folder, and in that of mirrors where there is one. The folders that they are in are there.
    pub fn new(
        alloc: Global,
        rt: &'a R,
        folder: &str,
        mirrors: Option<&str>,
        owners: u32,
    ) -> Result<Self, AllocError>
        ensures owners { IfOk result (λ bay. ⟦<RealBay<'a, R> as Bay>⟧.owners bay ≡ owners) }
        ensures home { IfOk result (λ bay. (n : ℕ) → n < owners → ⟦<RealBay<'a, R> as Bay>⟧.shelf bay n ≡ Some (fresh_home (is_some mirrors.entry))) }
        ensures faults { IfOk result (λ bay. ⟦<RealBay<'a, R> as Bay>⟧.faults bay ≡ 0) }
    {
        let mut homes = Vec::new(alloc);
        for owner in 0..owners {
            let name = format!(in alloc; "{owner}.bud")?;
            homes.push(Some(home_of(alloc, folder, mirrors, &name)?))?;
        }
        Ok(RealBay {
            rt,
            homes,
            faults: 0,
        })
    }
}

// The file of a place, where it is there and can be opened.
type Opened = io::Result<Option<fs::File>>;

// A file that another process has is no disk. One that can't be opened otherwise is a broken one.
fn unless_held(opened: Opened) -> Result<Opened, Failed> {
    match opened {
        Err(error) if error.kind() == ErrorKind::WouldBlock => Err(Failed),
        opened => Ok(opened),
    }
}

// Opens the files of a home. One alone must be opened or missing, and stands first; of two none may be held.
fn open_home<R: rt::Files<File = fs::File>>(
    rt: &R,
    home: &Option<Disks<FilePlace>>,
) -> Result<(Opened, Opened), Failed> {
    match home {
        Some(Disks::One(place)) => match open_file(rt, place) {
            Ok(file) => Ok((Ok(file), Ok(None))),
            Err(_) => Err(Failed),
        },
        Some(Disks::Both(first, second)) => {
            let first = unless_held(open_file(rt, first))?;
            let second = unless_held(open_file(rt, second))?;
            Ok((first, second))
        }
        None => Err(Failed),
    }
}

// The disk of a place, of what was opened there.
fn disk_at<'a, R: rt::Files<File = fs::File>>(
    rt: &'a R,
    place: FilePlace,
    opened: Opened,
) -> FileDisk<'a, R>
    ensures { ⟦<FileDisk<'a, R> as Disk>⟧.faults result ≡ place.faults }
{
    match opened {
        Ok(file) => FileDisk::new(rt, place, file),
        Err(_) => FileDisk::broken(rt, place),
    }
}

// The disks of a home, of what was opened there.
fn disks_at<'a, R: rt::Files<File = fs::File>>(
    rt: &'a R,
    home: Disks<FilePlace>,
    opened: (Opened, Opened),
) -> Disks<FileDisk<'a, R>>
    ensures { stored_of ⟦<FileDisk<'a, R> as Disk>⟧.trace ⟦<FileDisk<'a, R> as Disk>⟧.faults result ≡ home_shown home }
{
    let (one, other) = opened;
    match home {
        Disks::One(place) => Disks::One(disk_at(rt, place, one)),
        Disks::Both(first, second) => {
            Disks::Both(disk_at(rt, first, one), disk_at(rt, second, other))
        }
    }
}

// Where the files of disks belong, which are closed.
fn closed<'a, R: rt::Files<File = fs::File>>(disks: Disks<FileDisk<'a, R>>) -> Disks<FilePlace>
    ensures { home_shown result ≡ stored_of ⟦<FileDisk<'a, R> as Disk>⟧.trace ⟦<FileDisk<'a, R> as Disk>⟧.faults disks.entry }
{
    match disks {
        Disks::One(disk) => Disks::One(disk.close()),
        Disks::Both(first, second) => Disks::Both(first.close(), second.close()),
    }
}

impl<'a, R: rt::Files<File = fs::File> + Sync> Bay for RealBay<'a, R> {
    type D = FileDisk<'a, R>;

    ghost owners = { λ bay. length bay.homes.items };

    ghost shelf = { λ bay. shelf_of home_shown bay.homes.items };

    ghost faults = { λ bay. bay.faults };

    fn take(&mut self, owner: u32) -> Result<Disks<FileDisk<'a, R>>, Failed>
        requires owner { owner < length (homes_of self.old) }
        requires home { IsSome (shelf_of home_shown (homes_of self.old) owner) }

        ensures given { IfOk result (λ disks. shelf_of home_shown (homes_of self.old) owner ≡ Some (stored_of ⟦<FileDisk<'a, R> as Disk>⟧.trace ⟦<FileDisk<'a, R> as Disk>⟧.faults disks)) }
        ensures taken { OnOk result (Changes owner None (shelf_of home_shown (homes_of self.old)) (shelf_of home_shown (homes_of self.new))) }
        ensures err { OnErr result (Same (shelf_of home_shown (homes_of self.old)) (shelf_of home_shown (homes_of self.new))) }
        ensures owners { length (homes_of self.new) ≡ length (homes_of self.old) }
        ensures cause { HasCause (failed_in self.old) (failed_in self.new) (IsErr result) }
        ensures passed { OnOk result (failed_in self.new ≡ failed_in self.old) }
    {
        let Ok(opened) = open_home(self.rt, &self.homes[owner as usize]) else {
            return Err(fault(&mut self.faults));
        };
        match self.homes[owner as usize].take() {
            Some(home) => Ok(disks_at(self.rt, home, opened)),
            None => Err(Failed),
        }
    }

    fn put_back(&mut self, owner: u32, disks: Disks<FileDisk<'a, R>>)
        requires owner { owner < length (homes_of self.old) }
        requires taken { shelf_of home_shown (homes_of self.old) owner ≡ None }

        ensures home { Changes owner (Some (stored_of ⟦<FileDisk<'a, R> as Disk>⟧.trace ⟦<FileDisk<'a, R> as Disk>⟧.faults disks.entry))
            (shelf_of home_shown (homes_of self.old)) (shelf_of home_shown (homes_of self.new)) }
        ensures owners { length (homes_of self.new) ≡ length (homes_of self.old) }
        ensures passed { failed_in self.new ≡ failed_in self.old }
    {
        self.homes[owner as usize] = Some(closed(disks));
    }
}
