//! A program is checked.

ghost use Rattle.std.specs.Prelude.{ℕ, List, Option, IfOk, IsErrOf};
ghost use Rattle.fz_outside.specs.Faults.{HasRisen};
ghost use Rattle.owner_house.specs.Names.{AreNames};
ghost use Rattle.query_server.specs.Ends.{IsStepEnd, IsVerdictOn};
ghost use Rattle.query_server.specs.Check.{check_steps};
ghost use Rattle.query_server.specs.Work.{to_check};
ghost use Rattle.owner_books.specs.Shelves.{Shelf};
ghost use Rattle.query_server.specs.Outside.{KeepsFiles};
ghost use Rattle.catalog_loading.specs.Given.{IsStep};
ghost use Rattle.query_server.specs.Due.{ForContents};

use crate::end::End;
use crate::whole::tables_of;
use catalog_loading::{Stop, find_owner, load_for, open_catalog, read_file};
use derivation_commands::{refusal_line, sensitivity_line};
use fz_outside::files::Files;
use generated_run::check_program;
use part_views::Dataset;
use std::alloc::{AllocError, Global};

/// A program, and the owner's tables that it may name, with their rows.
#[derive(Drop)]
struct Candidate {
    dataset: Dataset,
    program: Vec<u8>,
}

/// What a program comes to over the tables of a dataset.
#[tactic(auto, using(crate::proofs::Admitted::program_accepted, crate::proofs::Admitted::program_told))]
fn admit(alloc: Global, dataset: &Dataset, program: &[u8]) -> Result<End, AllocError>
    requires { AreNames dataset.now.tables }
    ensures { IfOk result (IsVerdictOn dataset.now.tables program.now) }
{
    match check_program(alloc, tables_of(dataset), program) {
        Ok(accepted) => Ok(End::Done(sensitivity_line(alloc, b"ok ", accepted.sens)?)),
        Err(refusal) => Ok(End::ProgramRefused(refusal_line(alloc, &refusal)?)),
    }
}

/// Reads what a `check` works on: the catalog, the owner in it, the tables of all owners, and then the program.
fn read_candidate<F: Files>(
    alloc: Global,
    files: &mut F,
    catalog: &str,
    owner: &str,
    file: &str,
) -> Result<Candidate, Stop>
    ensures step { IsStep (F.held files.old) (F.names files.old) (F.names files.new) (check_steps catalog.now owner.now file.now)
        (λ candidate. to_check candidate.dataset.tables candidate.program.items) result }
    ensures names { IfOk result (λ candidate. AreNames candidate.dataset.tables) }
    ensures files { KeepsFiles F.held F.names F.faults files.old files.new }
    ensures cause { IsErrOf result Stop.Fault → HasRisen (F.faults files.old) (F.faults files.new) }
{
    let catalog = open_catalog(alloc, files, catalog)?;
    let owner = find_owner(alloc, &catalog, owner)?;
    let dataset = load_for(alloc, files, &catalog, owner)?;
    let program = read_file(alloc, files, file)?;
    Ok(Candidate { dataset, program })
}

/// Reads the files of a `check`, and checks its program.
pub(crate) fn check_file<F: Files>(
    alloc: Global,
    files: &mut F,
    catalog: &str,
    owner: &str,
    file: &str,
) -> Result<End, Stop>
    ensures end { (left : Option (List ℕ)) (shelf : Shelf) → ForContents (F.held files.old) left
        (IsStepEnd (F.names files.old) (F.names files.new) shelf shelf (check_steps catalog.now owner.now file.now) result) }
    ensures files { KeepsFiles F.held F.names F.faults files.old files.new }
    ensures cause { IsErrOf result Stop.Fault → HasRisen (F.faults files.old) (F.faults files.new) }
{
    let candidate = read_candidate(alloc, files, catalog, owner, file)?;
    let end = admit(alloc, &candidate.dataset, &candidate.program)?;
    Ok(end)
}
