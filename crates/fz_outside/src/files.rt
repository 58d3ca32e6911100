//! Files that are read whole, by name.
#![tactic(auto)]

ghost use Rattle.std.specs.Prelude.{◌≡◌, ℕ, List, [], Option, Some, ◌<◌, IfOk, IfSome, IsErrOf, OnOk};
ghost use Rattle.std.specs.Option.{option_copied};
ghost use Rattle.fz_outside.specs.Faults.{HasCause};
ghost use Rattle.fz_outside.specs.Files.{IsRead, IsBounded, AddsName, bytes_of};
ghost use Rattle.fz_outside.specs.declared.FileFault.TheVariants.{Failed, NoMemory};

use crate::FileFault;
use crate::names::{Name, Names};
use crate::source::{MemSource, Source, read_up_to};
use std::alloc::Global;

/// The greatest length of a file that is read: 2^26 bytes.
pub const GREATEST_LENGTH: usize = 67_108_864;

/// What is read of a file.
#[derive(Drop)]
pub enum FileRead {
    /// There is no such file.
    Absent,
    /// It has over 2^26 bytes.
    TooLong,
    /// All its bytes.
    Bytes(Vec<u8>),
}

/// Files that are read whole, by name.
pub trait Files {
    // Each file's bytes by its name, or None where there is no such file, where this is told.
    ghost held: { Self → Option (List ℕ → Option (List ℕ)) };

    // The names of the files that were read so far, in order.
    ghost names: { Self → List (List ℕ) };

    // How many calls have failed.
    ghost faults: { Self → ℕ };

    /// Reads the file of this name.
    fn read(&mut self, alloc: Global, name: &str) -> Result<FileRead, FileFault>
        ensures found { IfOk result (λ read. IfSome (held self.old) (λ holds. IsRead (holds name.now) read)) }
        ensures bound { IfOk result IsBounded }
        ensures same { held self.new ≡ held self.old }
        ensures named { AddsName result name.now (names self.old) (names self.new) }

        ensures cause { HasCause (faults self.old) (faults self.new) (IsErrOf result Failed) }
        ensures passed { OnOk result (faults self.new ≡ faults self.old) }
        ensures memory { IsErrOf result NoMemory → faults self.new ≡ faults self.old };
}

/// A file in memory.
#[derive(Clone, Copy, Debug)]
pub struct MemFile<'a> {
    pub name: &'a str,
    pub bytes: &'a [u8],
}

/// Files in memory. It tells them, and never fails but for want of memory.
#[derive(Drop)]
pub struct MemFiles<'a> {
    files: &'a [MemFile<'a>],
    names: Names,
}

impl<'a> MemFiles<'a> {
    /// These files. Of two with one name the first is read.
    pub fn new(files: &'a [MemFile<'a>]) -> Self
        ensures held { ⟦<MemFiles<'a> as Files>⟧.held result ≡ Some (bytes_of files.now) }
        ensures unread { ⟦<MemFiles<'a> as Files>⟧.names result ≡ [] }
    {
        MemFiles {
            files,
            names: Names::new(),
        }
    }
}

impl Files for MemFiles<'_> {
    ghost held = { λ files. Some (bytes_of files.files.now) };

    ghost names = { λ files. files.names.read };

    ghost faults = { λ _. 0 };

    fn read(&mut self, alloc: Global, name: &str) -> Result<FileRead, FileFault> {
        self.names = self.names.and(&Name { text: name });
        match find(self.files, name) {
            Some(bytes) => read_whole(alloc, &mut MemSource::new(bytes)),
            None => Ok(FileRead::Absent),
        }
    }
}

// The bytes of the first file that has this name.
fn find<'a>(files: &[MemFile<'a>], name: &str) -> Option<&'a [u8]>
    ensures { option_copied result ≡ bytes_of files.now name.now }
{
    for file in files {
        if file.name == name {
            return Some(file.bytes);
        }
    }
    None
}

/// Reads a source to its end, as the bytes of a file.
pub fn read_whole<S: Source>(alloc: Global, source: &mut S) -> Result<FileRead, FileFault>
    ensures found { IfOk result (λ read. IfSome (S.left source.old) (λ bytes. IsRead (Some bytes) read)) }
    ensures bound { IfOk result IsBounded }

    ensures cause { HasCause (S.faults source.old) (S.faults source.new) (IsErrOf result Failed) }
    ensures passed { OnOk result (S.faults source.new ≡ S.faults source.old) }
    ensures memory { IsErrOf result NoMemory → S.faults source.new ≡ S.faults source.old }
{
    let bytes = read_up_to(alloc, source, GREATEST_LENGTH + 1)?;
    if bytes.len() > GREATEST_LENGTH {
        return Ok(FileRead::TooLong);
    }
    Ok(FileRead::Bytes(bytes))
}
