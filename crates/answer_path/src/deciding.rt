//! What is said of a query's program before the budget is asked.

ghost use Rattle.std.specs.Prelude.{IfOk, IfErr};
ghost use Rattle.owner_house.specs.Names.{AreNames};
ghost use Rattle.answer_path.specs.Code.{IsDecided, IsUndecided};

use crate::last_program::LastProgram;
use crate::program::{Admitted, Unadmitted, admit_apart};
use fz_ast::Sig;
use std::alloc::Global;

/// A program that is read and admitted, and the SHA-256 of its bytes.
#[derive(Drop)]
pub struct Decided<'a> {
    pub admitted: Admitted<'a>,
    pub digest: [u8; 32],
}

/// Reads a program, unless it is the last one, and admits it over the tables of a view. It is handed a signature and no rows, so no
/// refusal of a program, no word of too many walks, and no word that memory ran out, goes by a row.
///
/// # Errors
///
/// What `read_program` or `admit_apart` says of it.
pub fn decide<'s: 'a, 'a>(
    alloc: Global,
    last: &'a mut LastProgram,
    sig: &'s Sig,
    bytes: &[u8],
) -> Result<Decided<'a>, Unadmitted<'s>>
    requires { AreNames sig.now }
    ensures decided { IfOk result (IsDecided sig.now bytes.now) }
    ensures undecided { IfErr result (IsUndecided sig.now bytes.now) }
{
    let program = match last.recall_or_read(alloc, bytes) {
        Ok(program) => program,
        Err(refusal) => return Err(Unadmitted::Refused(refusal)),
    };
    let digest = program.digest();
    match admit_apart(alloc, sig, program.term()) {
        Ok(admitted) => Ok(Decided { admitted, digest }),
        Err(unadmitted) => Err(unadmitted),
    }
}
