//! Files that are read whole: any, and a key's.

ghost use Rattle.std.specs.Prelude.{◌≡◌, ◌≢◌, ◌∷◌, [], length, MatchOption, IsErrOf, OnOk};
ghost use Rattle.fz_outside.specs.Faults.{HasCause};
ghost use Rattle.catalog_loading.specs.Steps.{file_read};
ghost use Rattle.catalog_loading.specs.Loaded.{key_read};
ghost use Rattle.catalog_loading.specs.Given.{IsStep};

use crate::stops::Stop;
use fz_outside::files::{FileRead, Files};
use std::alloc::Global;

/// The bytes of a file that is there and not too long.
pub fn read_file<F: Files>(alloc: Global, files: &mut F, name: &str) -> Result<Vec<u8>, Stop>
    ensures step { IsStep (F.held files.old) (F.names files.old) (F.names files.new) (file_read name.now) (λ bytes. bytes.items) result }
    ensures same { F.held files.new ≡ F.held files.old }
    ensures cause { HasCause (F.faults files.old) (F.faults files.new) (IsErrOf result Stop.Fault) }
    ensures passed { OnOk result (F.faults files.new ≡ F.faults files.old) }
{
    match files.read(alloc, name)? {
        FileRead::Bytes(bytes) => Ok(bytes),
        FileRead::Absent | FileRead::TooLong => Err(Stop::refuse(alloc, name)),
    }
}

/// The 32 bytes of a key's file.
fn key_of(bytes: &[u8]) -> Option<[u8; 32]>
    ensures { MatchOption result (length bytes.now ≢ 32) (λ key. (length bytes.now ≡ 32) × (key ≡ bytes.now)) }
{
    if bytes.len() != 32 {
        return None;
    }
    let mut key = [0u8; 32];
    key.copy_from_slice(bytes);
    Some(key)
}

/// The key that a file of 32 bytes holds.
pub(crate) fn read_key<F: Files>(alloc: Global, files: &mut F, name: &str) -> Result<[u8; 32], Stop>
    ensures step { IsStep (F.held files.old) (F.names files.old) (F.names files.new) (key_read name.now) (λ key. key) result }
    ensures same { F.held files.new ≡ F.held files.old }
    ensures cause { HasCause (F.faults files.old) (F.faults files.new) (IsErrOf result Stop.Fault) }
    ensures passed { OnOk result (F.faults files.new ≡ F.faults files.old) }
{
    let bytes = read_file(alloc, files, name)?;
    match key_of(&bytes) {
        Some(key) => Ok(key),
        None => Err(Stop::refuse(alloc, name)),
    }
}
