//! What `derive` and `judge` work on is read.

ghost use Rattle.std.specs.Prelude.{◌≡◌, IfOk, IsErrOf, OnOk};
ghost use Rattle.fz_outside.specs.Faults.{HasCause};
ghost use Rattle.owner_house.specs.Names.{AreNames};
ghost use Rattle.catalog_loading.specs.Given.{IsStep};
ghost use Rattle.derivation_commands.specs.Task.{subject_read};
ghost use Rattle.derivation_commands.specs.Held.{subject_of};

use catalog_loading::{Stop, find_owner, open_catalog, read_file};
use fz_ast::Sig;
use fz_outside::files::Files;
use std::alloc::Global;

/// A program, and the tables that it may name.
#[derive(Drop)]
pub(crate) struct Subject {
    pub(crate) tables: Sig,
    pub(crate) program: Vec<u8>,
}

/// Reads a catalog, in which the owner is looked for, and then a program. The catalog has the names and the columns of the owner's tables,
/// so none of these is read.
pub(crate) fn read_subject<F: Files>(
    alloc: Global,
    files: &mut F,
    catalog: &str,
    owner: &str,
    file: &str,
) -> Result<Subject, Stop>
    ensures step { IsStep (F.held files.old) (F.names files.old) (F.names files.new) (subject_read catalog.now owner.now file.now) subject_of result }
    ensures names { IfOk result (λ subject. AreNames subject.tables) }
    ensures same { F.held files.new ≡ F.held files.old }
    ensures cause { HasCause (F.faults files.old) (F.faults files.new) (IsErrOf result Stop.Fault) }
    ensures passed { OnOk result (F.faults files.new ≡ F.faults files.old) }
{
    let house = open_catalog(alloc, files, catalog)?;
    let number = find_owner(alloc, &house, owner)?;
    let tables = house.signature(alloc, number)?;
    let program = read_file(alloc, files, file)?;
    Ok(Subject { tables, program })
}
