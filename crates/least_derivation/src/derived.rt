//! Writes the derivation of a program.
ghost use Rattle.std.specs.Prelude.{◌≡◌, IfOk, IfErr};
ghost use Rattle.fz_ast.specs.Signature.{IsSignature};
ghost use Rattle.least_derivation.specs.Answered.{ExplainsDerive, IsAccepted, IsDerivationOf, IsTooLong};

use derivation_lines::write::{WriteFault, written};
use fz_ast::{Sig, Term};
use fz_derive::least::least;
use fz_derive::least_line::LeastFault;
use sensitivity_check::{CheckFault, check};
use std::alloc::Global;

/// Why a derivation isn't written.
#[derive(Drop)]
pub enum DeriveFault {
    /// The program's first fault, or memory ran out.
    Check(CheckFault),
    /// It has over 2^26 bytes.
    TooLong,
}

// Each signature's names are distinct, and its types well formed.
fn is_signature(sig: &Sig)
    ensures { IsSignature sig.now }
{
    if sig.is_empty() {
        return;
    }
    let _ = sig.table(0);
}

// The derivation of a program that is accepted.
fn accepted_text(alloc: Global, sig: &Sig, term: &Term) -> Result<Vec<u8>, DeriveFault>
    requires accepted { IsAccepted sig.now term.now }
    ensures written { IfOk result (λ text. IsDerivationOf sig.now term.now text.items) }
    ensures too_long { IfErr result (λ f. f ≡ DeriveFault.TooLong → IsTooLong sig.now term.now) }
    ensures fault { IfErr result (ExplainsDerive sig.now term.now) }
{
    is_signature(sig);
    let (arena, lines) = match least(alloc, sig, term) {
        Ok(made) => made,
        Err(LeastFault::NoMemory) => return Err(DeriveFault::Check(CheckFault::NoMemory)),
        Err(LeastFault::Fails) => unreachable!(),
    };
    match written(alloc, arena.types(), &lines) {
        Ok(text) => Ok(text),
        Err(WriteFault::TooLong) => Err(DeriveFault::TooLong),
        Err(WriteFault::NoMemory) => Err(DeriveFault::Check(CheckFault::NoMemory)),
    }
}

/// The least derivation of a program, as bytes: a line for each node, which says the sensitivities that the checker finds.
///
/// # Errors
///
/// The program's first fault, as `check` has it, which has `NoMemory`; `TooLong` exactly where an accepted program's derivation has over
/// 2^26 bytes.
pub fn derive(alloc: Global, sig: &Sig, term: &Term) -> Result<Vec<u8>, DeriveFault>
    ensures accepted { IfOk result (λ _. IsAccepted sig.now term.now) }
    ensures written { IfOk result (λ text. IsDerivationOf sig.now term.now text.items) }
    ensures too_long { IfErr result (λ f. f ≡ DeriveFault.TooLong → IsTooLong sig.now term.now) }
    ensures fault { IfErr result (ExplainsDerive sig.now term.now) }
{
    match check(alloc, sig, term) {
        Ok(_) => accepted_text(alloc, sig, term),
        Err(fault) => Err(DeriveFault::Check(fault)),
    }
}
