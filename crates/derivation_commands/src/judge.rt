//! A derivation is judged.

ghost use Rattle.std.specs.Prelude.{◌≡◌, ◌≤◌, IfOk, IsErrOf, OnOk, length};
ghost use Rattle.fz_outside.specs.Faults.{HasCause, HasRisen};
ghost use Rattle.catalog_loading.specs.Given.{IsStep};
ghost use Rattle.derivation_lines.specs.Written.{longest};
ghost use Rattle.derivation_commands.specs.Task.{judge_steps};
ghost use Rattle.derivation_commands.specs.Outcome.{IsJudgeOutcome};
ghost use Rattle.derivation_commands.specs.Ends.{EndsSo};
ghost use Rattle.derivation_commands.specs.Held.{outcome_of, task_of};

use crate::ending::Ending;
use crate::lines::{fault_line, refusal_line, sensitivity_line};
use crate::reading::{Subject, read_subject};
use answer_path::read_program;
use catalog_loading::{Stop, read_file};
use fz_derive::judge::{JudgeFault, judge};
use fz_frac::Sens;
use fz_outside::files::Files;
use std::alloc::{AllocError, Global};

/// A program with the tables that it may name, and the bytes that are to be judged as its derivation.
#[derive(Drop)]
pub(crate) struct Claim {
    pub(crate) subject: Subject,
    pub(crate) derivation: Vec<u8>,
}

/// The verdict on a derivation.
fn judge_claim(alloc: Global, claim: &Claim) -> Result<Ending, AllocError>
    requires { length claim.now.derivation.items ≤ longest }
    ensures { IfOk result (λ ending. IsJudgeOutcome claim.now.subject.tables claim.now.subject.program.items claim.now.derivation.items (outcome_of ending)) }
{
    let subject = &claim.subject;
    let term = match read_program(alloc, &subject.program) {
        Ok(term) => term,
        Err(refusal) => return Ok(Ending::Refused(refusal_line(alloc, &refusal)?)),
    };
    match judge(alloc, &subject.tables, &term, &claim.derivation) {
        Ok(bound) => {
            let line = sensitivity_line(alloc, b"yes ", Sens::Finite(bound))?;
            Ok(Ending::Written(line))
        }
        Err(JudgeFault::Line { at }) => Ok(Ending::Refused(fault_line(alloc, at)?)),
        Err(JudgeFault::NoMemory) => Err(AllocError),
    }
}

/// Reads what a `judge` works on: the catalog and the owner in it, the program, and then the derivation.
fn read_claim<F: Files>(
    alloc: Global,
    files: &mut F,
    catalog: &str,
    owner: &str,
    file: &str,
    derivation: &str,
) -> Result<Claim, Stop>
    ensures step { IsStep (F.held files.old) (F.names files.old) (F.names files.new) (judge_steps catalog.now owner.now file.now derivation.now) task_of result }
    ensures short { IfOk result (λ claim. length claim.derivation.items ≤ longest) }
    ensures same { F.held files.new ≡ F.held files.old }
    ensures cause { HasCause (F.faults files.old) (F.faults files.new) (IsErrOf result Stop.Fault) }
    ensures passed { OnOk result (F.faults files.new ≡ F.faults files.old) }
{
    let subject = read_subject(alloc, files, catalog, owner, file)?;
    let derivation = read_file(alloc, files, derivation)?;
    Ok(Claim {
        subject,
        derivation,
    })
}

/// Reads the files of a `judge`, and judges the derivation.
pub fn judge_file<F: Files>(
    alloc: Global,
    files: &mut F,
    catalog: &str,
    owner: &str,
    file: &str,
    derivation: &str,
) -> Result<Ending, Stop>
    ensures end { EndsSo (F.held files.old) (F.names files.old) (F.names files.new) (judge_steps catalog.now owner.now file.now derivation.now) result }
    ensures same { F.held files.new ≡ F.held files.old }
    ensures later { F.faults files.old ≤ F.faults files.new }
    ensures cause { IsErrOf result Stop.Fault → HasRisen (F.faults files.old) (F.faults files.new) }
{
    let claim = read_claim(alloc, files, catalog, owner, file, derivation)?;
    let ending = judge_claim(alloc, &claim)?;
    Ok(ending)
}
