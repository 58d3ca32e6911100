//! What stops a command.

ghost use Rattle.std.specs.Prelude.{◌≡◌};
ghost use Rattle.catalog_loading.specs.declared.stops.Stop.TheVariants.{NoMemory as OutOfMemory};

use fz_ast::NoMemory;
use fz_outside::FileFault;
use std::alloc::{AllocError, AllocFailed, Global};

/// What stops a command before its work is done. Loading a catalog stops at a refused name, a fault or want of memory.
#[derive(Drop)]
pub enum Stop {
    /// The words are no command.
    Usage,
    /// The file or the owner of this name is refused.
    Refused(String),
    /// An owner's journal is refused, with this line.
    Journal(Vec<u8>),
    /// The bay or an owner's disk has failed, with this line.
    Disk(Vec<u8>),
    /// Files or the source have failed.
    Fault,
    /// Memory ran out.
    NoMemory,
}

impl Stop {
    ghost use Rattle.catalog_loading.specs.Given.{IsRefusalOf};

    /// A name is refused.
    pub fn refuse(alloc: Global, name: &str) -> Stop
        ensures { IsRefusalOf name.now result }
    {
        match String::from_str(alloc, name) {
            Ok(name) => Stop::Refused(name),
            Err(_) => Stop::NoMemory,
        }
    }
}

impl From<AllocError> for Stop {
    ghost from_gives = { λ _ stop. stop ≡ OutOfMemory };

    fn from(_error: AllocError) -> Stop {
        Stop::NoMemory
    }
}

impl<T: Drop> From<AllocFailed<T>> for Stop {
    ghost from_gives = { λ _ stop. stop ≡ OutOfMemory };

    fn from(_error: AllocFailed<T>) -> Stop {
        Stop::NoMemory
    }
}

impl From<NoMemory> for Stop {
    ghost from_gives = { λ _ stop. stop ≡ OutOfMemory };

    fn from(_error: NoMemory) -> Stop {
        Stop::NoMemory
    }
}

impl From<FileFault> for Stop {
    ghost use Rattle.catalog_loading.specs.Given.{stop_at_fault};

    ghost from_gives = { λ fault stop. stop ≡ stop_at_fault fault };

    fn from(fault: FileFault) -> Stop {
        match fault {
            FileFault::Failed => Stop::Fault,
            FileFault::NoMemory => Stop::NoMemory,
        }
    }
}
