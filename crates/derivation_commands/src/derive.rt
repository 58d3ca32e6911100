//! The derivation of a program is written.

ghost use Rattle.std.specs.Prelude.{◌≡◌, ◌≤◌, IfOk, IsErrOf};
ghost use Rattle.fz_outside.specs.Faults.{HasRisen};
ghost use Rattle.owner_house.specs.Names.{AreNames};
ghost use Rattle.derivation_commands.specs.Task.{derive_steps};
ghost use Rattle.derivation_commands.specs.Outcome.{IsDeriveOutcome};
ghost use Rattle.derivation_commands.specs.Ends.{EndsSo};
ghost use Rattle.derivation_commands.specs.Held.{outcome_of};

use crate::ending::Ending;
use crate::lines::refusal_line;
use crate::reading::{Subject, read_subject};
use answer_path::check_program;
use catalog_loading::Stop;
use fz_outside::files::Files;
use least_derivation::{DeriveFault, derive};
use std::alloc::{AllocError, Global};

/// The derivation of a program that is accepted.
fn derive_subject(alloc: Global, subject: &Subject) -> Result<Ending, AllocError>
    requires { AreNames subject.now.tables }
    ensures { IfOk result (λ ending. IsDeriveOutcome subject.now.tables subject.now.program.items (outcome_of ending)) }
{
    let accepted = match check_program(alloc, &subject.tables, &subject.program) {
        Ok(accepted) => accepted,
        Err(refusal) => return Ok(Ending::Refused(refusal_line(alloc, &refusal)?)),
    };
    match derive(alloc, &subject.tables, &accepted.term) {
        Ok(text) => Ok(Ending::Written(text)),
        Err(DeriveFault::TooLong) => Ok(Ending::TooLong),
        Err(_) => Err(AllocError),
    }
}

/// Reads the files of a `derive`, and writes the derivation.
pub fn derive_file<F: Files>(
    alloc: Global,
    files: &mut F,
    catalog: &str,
    owner: &str,
    file: &str,
) -> Result<Ending, Stop>
    ensures end { EndsSo (F.held files.old) (F.names files.old) (F.names files.new) (derive_steps catalog.now owner.now file.now) result }
    ensures same { F.held files.new ≡ F.held files.old }
    ensures later { F.faults files.old ≤ F.faults files.new }
    ensures cause { IsErrOf result Stop.Fault → HasRisen (F.faults files.old) (F.faults files.new) }
{
    let subject = read_subject(alloc, files, catalog, owner, file)?;
    let ending = derive_subject(alloc, &subject)?;
    Ok(ending)
}
