//! A program's values on two datasets are compared.

ghost use Rattle.std.specs.Prelude.{◌≡◌, ◌<◌, ℕ, List, Option, length, IfOk, IsErrOf};
ghost use Rattle.owner_books.specs.Shelves.{Shelf};
ghost use Rattle.fz_frac.specs.Sens.{distance_of};
ghost use Rattle.metric_law.specs.Means.{Means};
ghost use Rattle.metric_values.specs.Tables.{apart, rows_of as tables_rows};
ghost use Rattle.metric_values.specs.Values.{NumV};
ghost use Rattle.generated_run.specs.AnswerPath.Code.{IsAdmitted};
ghost use Rattle.owner_house.specs.Names.{AreNames};
ghost use Rattle.fz_outside.specs.Faults.{HasRisen};
ghost use Rattle.query_server.specs.Work.{to_compare};
ghost use Rattle.query_server.specs.Gap.{gap_steps, gap_text, loading_steps, second_steps};
ghost use Rattle.query_server.specs.Outside.{KeepsFiles};
ghost use Rattle.query_server.specs.Due.{ForContents};
ghost use Rattle.owner_catalog.specs.Catalog.{IsCatalog};
ghost use Rattle.owner_catalog.specs.Entries.{owner_entry_at, owner_signature};
ghost use Rattle.catalog_loading.specs.Given.{IsOwnerAt, IsStep};
ghost use Rattle.query_server.specs.Ends.{IsEndOf, IsGapOn, IsStepEnd};

use crate::end::End;
use crate::whole::{rows_of, tables_of};
use catalog_loading::{Stop, find_fitting, find_owner, load_for, open_catalog, read_file};
use derivation_commands::refusal_line;
use fuzz_eval::run::run;
use fz_frac::Sens;
use fz_outside::files::Files;
use generated_run::{Admitted, admit, read_program};
use owner_books::{put_number, put_sensitivity, put_signed};
use owner_catalog::Catalog;
use part_views::Dataset;
use std::alloc::{AllocError, Global};
use value_distance::tables_apart;

/// Two datasets of the same tables, and a program.
#[derive(Drop)]
struct Operands {
    first: Dataset,
    second: Dataset,
    program: Vec<u8>,
}

/// What an accepted program comes to on two datasets.
#[derive(Clone, Copy)]
struct Comparison {
    distance: u64,
    sens: Sens,
    first: i64,
    second: i64,
}

/// The four lines.
fn comparison_lines(alloc: Global, found: &Comparison) -> Result<Vec<u8>, AllocError>
    ensures { IfOk result (λ lines. lines.items ≡ gap_text found.now.distance (distance_of found.now.sens) found.now.first found.now.second) }
{
    let mut lines = Vec::new(alloc);
    lines.extend_from_slice(b"distance ")?;
    put_number(&mut lines, found.distance)?;
    lines.extend_from_slice(b"\nsensitivity ")?;
    put_sensitivity(&mut lines, found.sens)?;
    lines.extend_from_slice(b"\nvalues ")?;
    put_signed(&mut lines, found.first)?;
    lines.extend_from_slice(b" ")?;
    put_signed(&mut lines, found.second)?;
    lines.extend_from_slice(b"\ngap ")?;
    put_number(&mut lines, found.first.abs_diff(found.second))?;
    lines.extend_from_slice(b"\n")?;
    Ok(lines)
}

/// The program's value on a dataset of its tables.
fn value_on(alloc: Global, admitted: &Admitted<'_>, dataset: &Dataset) -> Result<i64, AllocError>
    requires { IsAdmitted dataset.now.tables (admitted.now.checked.term.now) admitted.now }
    ensures { IfOk result (λ value. Means (tables_rows dataset.now.tables dataset.now.rows) (admitted.now.checked.term.now) (NumV value)) }
{
    match run(alloc, &admitted.checked, &admitted.plan, rows_of(dataset)) {
        Ok(value) => Ok(value),
        Err(_) => Err(AllocError),
    }
}

/// How far two datasets of the same tables are apart, and the program's values on them.
fn comparison_on(
    alloc: Global,
    admitted: &Admitted<'_>,
    first: &Dataset,
    second: &Dataset,
) -> Result<Comparison, AllocError>
    requires admitted { IsAdmitted first.now.tables (admitted.now.checked.term.now) admitted.now }
    requires tables { second.now.tables ≡ first.now.tables }
    ensures distance { IfOk result (λ found. found.distance ≡ apart first.now.rows second.now.rows) }
    ensures sens { IfOk result (λ found. found.sens ≡ admitted.now.checked.sens) }
    ensures first { IfOk result (λ found. Means (tables_rows first.now.tables first.now.rows) (admitted.now.checked.term.now) (NumV found.first)) }
    ensures second { IfOk result (λ found. Means (tables_rows first.now.tables second.now.rows) (admitted.now.checked.term.now) (NumV found.second)) }
{
    let Ok(distance) = tables_apart(alloc, rows_of(first), rows_of(second)) else {
        return Err(AllocError);
    };
    let first_value = value_on(alloc, admitted, first)?;
    let second_value = value_on(alloc, admitted, second)?;
    Ok(Comparison {
        distance,
        sens: admitted.checked.sens,
        first: first_value,
        second: second_value,
    })
}

/// Compares a program on two datasets of the same tables: it is read and admitted first.
fn compare(
    alloc: Global,
    first: &Dataset,
    second: &Dataset,
    program: &[u8],
) -> Result<End, AllocError>
    requires tables { second.now.tables ≡ first.now.tables }
    requires names { AreNames first.now.tables }
    ensures { IfOk result (IsGapOn first.now.tables first.now.rows second.now.rows program.now) }
{
    let term = match read_program(alloc, program) {
        Ok(term) => term,
        Err(refusal) => return Ok(End::ProgramRefused(refusal_line(alloc, &refusal)?)),
    };
    let admitted = match admit(alloc, tables_of(first), &term) {
        Ok(admitted) => admitted,
        Err(refusal) => return Ok(End::ProgramRefused(refusal_line(alloc, &refusal)?)),
    };
    let comparison = comparison_on(alloc, &admitted, first, second)?;
    Ok(End::Done(comparison_lines(alloc, &comparison)?))
}

/// Reads the tables of all owners of the first catalog and of the second, and then the program.
fn load_operands<F: Files>(
    alloc: Global,
    files: &mut F,
    first_house: &Catalog,
    first_owner: u32,
    second_house: &Catalog,
    second_owner: u32,
    file: &str,
) -> Result<Operands, Stop>
    requires owners { (first_owner < length first_house.now.owners) × (second_owner < length second_house.now.owners) }
    requires fit { owner_signature (owner_entry_at second_house.now second_owner) ≡ owner_signature (owner_entry_at first_house.now first_owner) }
    ensures step { (name : List ℕ) → IsOwnerAt first_house.now name first_owner → IsOwnerAt second_house.now name second_owner →
        IsStep (F.held files.old) (F.names files.old) (F.names files.new) (loading_steps first_house.now second_house.now name file.now)
        (λ found. to_compare found.first.tables found.first.rows found.second.rows found.program.items) result }
    ensures tables { IfOk result (λ found. found.second.tables ≡ found.first.tables) }
    ensures names { IfOk result (λ found. AreNames found.first.tables) }
    ensures files { KeepsFiles F.held F.names F.faults files.old files.new }
    ensures cause { IsErrOf result Stop.Fault → HasRisen (F.faults files.old) (F.faults files.new) }
{
    let first = load_for(alloc, files, first_house, first_owner)?;
    let second = load_for(alloc, files, second_house, second_owner)?;
    let program = read_file(alloc, files, file)?;
    Ok(Operands {
        first,
        second,
        program,
    })
}

/// Reads the second catalog, in which the owner is looked for, and then what is left.
fn read_second<F: Files>(
    alloc: Global,
    files: &mut F,
    first_house: &Catalog,
    first_owner: u32,
    owner: &str,
    second_catalog: &str,
    file: &str,
) -> Result<Operands, Stop>
    requires owner { IsOwnerAt first_house.now owner.now first_owner }
    requires legal { IsCatalog first_house.now }
    ensures step { IsStep (F.held files.old) (F.names files.old) (F.names files.new)
        (second_steps first_house.now (owner_entry_at first_house.now first_owner) owner.now second_catalog.now file.now)
        (λ found. to_compare found.first.tables found.first.rows found.second.rows found.program.items) result }
    ensures tables { IfOk result (λ found. found.second.tables ≡ found.first.tables) }
    ensures names { IfOk result (λ found. AreNames found.first.tables) }
    ensures files { KeepsFiles F.held F.names F.faults files.old files.new }
    ensures cause { IsErrOf result Stop.Fault → HasRisen (F.faults files.old) (F.faults files.new) }
{
    let house = open_catalog(alloc, files, second_catalog)?;
    let found = find_fitting(alloc, first_house, first_owner, &house, owner)?;
    load_operands(alloc, files, first_house, first_owner, &house, found, file)
}

/// Reads what a `gap` works on: the first catalog and the owner in it, the second catalog and the owner in it, the tables of all
/// owners of the first and of the second, and then the program.
fn read_operands<F: Files>(
    alloc: Global,
    files: &mut F,
    catalog: &str,
    owner: &str,
    second_catalog: &str,
    file: &str,
) -> Result<Operands, Stop>
    ensures step { IsStep (F.held files.old) (F.names files.old) (F.names files.new) (gap_steps catalog.now owner.now second_catalog.now file.now)
        (λ found. to_compare found.first.tables found.first.rows found.second.rows found.program.items) result }
    ensures tables { IfOk result (λ found. found.second.tables ≡ found.first.tables) }
    ensures names { IfOk result (λ found. AreNames found.first.tables) }
    ensures files { KeepsFiles F.held F.names F.faults files.old files.new }
    ensures cause { IsErrOf result Stop.Fault → HasRisen (F.faults files.old) (F.faults files.new) }
{
    let house = open_catalog(alloc, files, catalog)?;
    let found = find_owner(alloc, &house, owner)?;
    read_second(alloc, files, &house, found, owner, second_catalog, file)
}

/// Reads the files of a `gap`, and compares its program on both datasets.
pub(crate) fn compare_files<F: Files>(
    alloc: Global,
    files: &mut F,
    catalog: &str,
    owner: &str,
    second_catalog: &str,
    file: &str,
) -> Result<End, Stop>
    ensures end { (left : Option (List ℕ)) (shelf : Shelf) → ForContents (F.held files.old) left
        (IsStepEnd (F.names files.old) (F.names files.new) shelf shelf (gap_steps catalog.now owner.now second_catalog.now file.now) result) }
    ensures files { KeepsFiles F.held F.names F.faults files.old files.new }
    ensures cause { IsErrOf result Stop.Fault → HasRisen (F.faults files.old) (F.faults files.new) }
{
    let found = read_operands(alloc, files, catalog, owner, second_catalog, file)?;
    let end = compare(alloc, &found.first, &found.second, &found.program)?;
    Ok(end)
}
