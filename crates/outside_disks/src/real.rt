//! A file of the system as a disk. It tells nothing of what it holds, and counts each error of the system.

ghost use Rattle.std.specs.Prelude.{◌≡◌, None, IsErr, IfOk, OnOk};
ghost use Rattle.fz_outside.specs.Faults.{HasCause};

use crate::disk::Disk;
use crate::fault;
use fz_outside::Failed;
use std::alloc::{AllocError, Global};
use std::io::ErrorKind;
use std::os::unix::fs::{DirBuilderExt, FileExt, MetadataExt, OpenOptionsExt};
use std::{fs, io, rt};

/// Where a file belongs, and how often it has failed as a disk.
#[derive(Debug, Drop)]
pub struct FilePlace {
    path: String,
    folder: String,
    // the folder that the folder is in
    above: String,
    faults: u64,
}

impl FilePlace {
    /// The place of a file of this name in a folder, whose own folder is there. It has not failed yet.
    pub fn new(alloc: Global, folder: &str, name: &str) -> Result<FilePlace, AllocError>
        ensures { IfOk result (λ place. place.faults ≡ 0) }
    {
        Ok(FilePlace {
            path: format!(in alloc; "{folder}/{name}")?,
            folder: format!(in alloc; "{folder}")?,
            above: format!(in alloc; "{folder}/..")?,
            faults: 0,
        })
    }
}

// A journal is for its owner alone to read and write, and its folder for nobody else to look into.
const FILE_MODE: u32 = 0o600;

const FOLDER_MODE: u32 = 0o700;

// What was found where a file belongs.
#[derive(Drop)]
enum Found {
    File(fs::File),
    Nothing,
    // something that can't be opened
    Broken,
}

/// A file that is read and written. Where it isn't there it is an empty one, and its first write makes it and its folder.
///
/// It is locked for as long as it is open, so that no other process has it open as a disk. Such a lock ends with the process.
#[derive(Drop)]
pub struct FileDisk<'a, R> {
    rt: &'a R,
    home: FilePlace,
    found: Found,
}

// A file for this process alone, or the error that says that another one has it.
fn locked(file: fs::File) -> io::Result<fs::File> {
    file.try_lock()?;
    Ok(file)
}

/// Opens the file of this place for this process alone, if it is there.
pub fn open_file<R: rt::Files<File = fs::File>>(
    rt: &R,
    home: &FilePlace,
) -> io::Result<Option<fs::File>> {
    match fs::OpenOptions::new()
        .read(true)
        .write(true)
        .open(rt, home.path.as_str())
    {
        Ok(file) => Ok(Some(locked(file)?)),
        Err(e) if e.kind() == ErrorKind::NotFound => Ok(None),
        Err(e) => Err(e),
    }
}

impl<'a, R: rt::Files<File = fs::File>> FileDisk<'a, R> {
    /// The disk of a place whose file was opened, if it was there.
    pub fn new(rt: &'a R, home: FilePlace, file: Option<fs::File>) -> Self
        ensures { ⟦<FileDisk<'a, R> as Disk>⟧.faults result ≡ home.faults }
    {
        let found = match file {
            Some(file) => Found::File(file),
            None => Found::Nothing,
        };
        FileDisk { rt, home, found }
    }

    /// The disk of a place whose file can't be opened: each of its calls fails.
    pub fn broken(rt: &'a R, home: FilePlace) -> Self
        ensures { ⟦<FileDisk<'a, R> as Disk>⟧.faults result ≡ home.faults }
    {
        FileDisk {
            rt,
            home,
            found: Found::Broken,
        }
    }

    /// Closes the file.
    pub fn close(self) -> FilePlace
        ensures { result.faults ≡ ⟦<FileDisk<'a, R> as Disk>⟧.faults self.entry }
    {
        self.home
    }
}

// Why a call fails of what can't be opened. No memory is taken.
fn unopened<T>() -> io::Result<T>
    ensures { IsErr result }
{
    Err(ErrorKind::Other.into())
}

fn length_of(found: &Found) -> io::Result<u64> {
    match found {
        Found::File(file) => Ok(file.metadata()?.len()),
        Found::Nothing => Ok(0),
        Found::Broken => unopened(),
    }
}

// Reads on until the buffer is full or the file ends. What isn't read is zero.
fn read_whole(file: &fs::File, place: u64, buf: &mut [u8]) -> io::Result<()> {
    let mut done = 0;
    while done < buf.len() {
        let n = file.read_at(&mut buf[done..], place.saturating_add(done as u64))?;
        if n == 0 {
            buf[done..].fill(0);
            return Ok(());
        }
        done += n;
    }
    Ok(())
}

fn read_from(found: &Found, place: u64, buf: &mut [u8]) -> io::Result<()> {
    match found {
        Found::File(file) => read_whole(file, place, buf),
        Found::Nothing => {
            buf.fill(0);
            Ok(())
        }
        Found::Broken => unopened(),
    }
}

// Makes an empty file for this process alone, and its folder where that isn't there, and syncs what they are in: a stop doesn't lose
// them.
fn make<R: rt::Files<File = fs::File>>(rt: &R, home: &FilePlace) -> io::Result<fs::File> {
    let made = fs::DirBuilder::new()
        .mode(FOLDER_MODE)
        .create(rt, home.folder.as_str());
    match made {
        Err(e) if e.kind() != ErrorKind::AlreadyExists => return Err(e),
        _ => (),
    }
    fs::open(rt, home.above.as_str())?.sync_all()?;
    let file = fs::OpenOptions::new()
        .read(true)
        .write(true)
        .create_new(true)
        .mode(FILE_MODE)
        .open(rt, home.path.as_str())?;
    let file = locked(file)?;
    fs::open(rt, home.folder.as_str())?.sync_all()?;
    Ok(file)
}

// Writes on until all is written.
fn write_whole(file: &fs::File, place: u64, bytes: &[u8]) -> io::Result<()> {
    let mut done = 0;
    while done < bytes.len() {
        let n = file.write_at(&bytes[done..], place.saturating_add(done as u64))?;
        if n == 0 {
            return Err(io::ErrorKind::WriteZero.into());
        }
        done += n;
    }
    Ok(())
}

// Writes to the file, which is made first where it isn't there.
fn write_to<R: rt::Files<File = fs::File>>(
    rt: &R,
    home: &FilePlace,
    found: &mut Found,
    place: u64,
    bytes: &[u8],
) -> io::Result<()> {
    if matches!(found, Found::Nothing) {
        *found = Found::File(make(rt, home)?);
    }
    match found {
        Found::File(file) => write_whole(file, place, bytes),
        _ => unopened(),
    }
}

fn sync_whole(found: &Found) -> io::Result<()> {
    match found {
        Found::File(file) => file.sync_data(),
        Found::Nothing => Ok(()),
        Found::Broken => unopened(),
    }
}

// Whether the place's path leads to this very file.
fn is_at<R: rt::Files<File = fs::File>>(
    rt: &R,
    home: &FilePlace,
    file: &fs::File,
) -> io::Result<bool> {
    let (held, found) = (file.metadata()?, fs::metadata(rt, home.path.as_str())?);
    Ok(held.dev() == found.dev() && held.ino() == found.ino())
}

// An error where the path leads to another file or to none. No memory is taken.
fn look<R: rt::Files<File = fs::File>>(rt: &R, home: &FilePlace, found: &Found) -> io::Result<()> {
    match found {
        Found::File(file) if is_at(rt, home, file)? => Ok(()),
        _ => Err(ErrorKind::NotFound.into()),
    }
}

fn count<T>(answer: io::Result<T>, faults: &mut u64) -> Result<T, Failed>
    ensures cause { HasCause faults.old faults.new (IsErr result) }
    ensures passed { OnOk result (faults.new ≡ faults.old) }
{
    match answer {
        Ok(value) => Ok(value),
        Err(_) => Err(fault(faults)),
    }
}

impl<R: rt::Files<File = fs::File>> Disk for FileDisk<'_, R> {
    ghost trace = { λ _. None };

    ghost faults = { λ disk. disk.home.faults };

    fn len(&mut self) -> Result<u64, Failed> {
        count(length_of(&self.found), &mut self.home.faults)
    }

    fn read_at(&mut self, place: u64, buf: &mut [u8]) -> Result<(), Failed> {
        count(read_from(&self.found, place, buf), &mut self.home.faults)
    }

    fn write_at(&mut self, place: u64, bytes: &[u8]) -> Result<(), Failed> {
        let written = write_to(self.rt, &self.home, &mut self.found, place, bytes);
        count(written, &mut self.home.faults)
    }

    fn sync(&mut self) -> Result<(), Failed> {
        count(sync_whole(&self.found), &mut self.home.faults)
    }

    fn is_in_place(&mut self) -> Result<(), Failed> {
        count(
            look(self.rt, &self.home, &self.found),
            &mut self.home.faults,
        )
    }

    fn fault_count(&self) -> u64 {
        self.home.faults
    }
}
