//! A program is read, checked, and run without data.

ghost use Rattle.std.specs.Prelude.{◌≡◌, IfOk, IfErr};
ghost use Rattle.fz_ast.specs.Signature.{Signature};
ghost use Rattle.wire_lines.specs.Refusal.{refusal_at};
ghost use Rattle.answer_path.specs.Reading.{read, IsReading};
ghost use Rattle.owner_house.specs.Names.{AreNames};
ghost use Rattle.answer_path.specs.Code.{IsAccepted, IsAdmitted, IsProgramRefusal, IsTermRefusal, IsUnadmitted, IsUnread, told_of};

use crate::refusals::{fault_refusal, lex_refusal, limit_refusal, parse_refusal};
use fz_ast::{Sig, Term};
use fz_frac::Sens;
use fz_lexer::lex;
use fz_parser::parse;
use sensitivity_check::{Checked, check};
use shape_run::{Plan, ShapeFault, shape};
use std::alloc::Global;
use wire_lines::Refusal;

/// A program that is accepted, and its greatest sensitivity over the tables, which is finite and in lowest terms.
#[derive(Drop)]
pub struct Accepted {
    pub term: Term,
    pub sens: Sens,
}

/// A term that is accepted: what the checker found of it, and the plan of its run.
#[derive(Drop)]
pub struct Admitted<'a> {
    pub checked: Checked<'a>,
    pub plan: Plan,
}

/// Why a term or a program isn't admitted: it is refused, or memory ran out; or it takes too many walks, which is neither.
#[derive(Clone, Copy)]
pub enum Unadmitted<'a> {
    Refused(Refusal<'a>),
    TooManyWalks,
}

impl<'a> Unadmitted<'a> {
    /// What is told of it: of too many walks the same as of want of memory.
    pub fn told(self) -> Refusal<'a>
        ensures { refusal_at result ≡ told_of self.entry }
    {
        match self {
            Unadmitted::Refused(refusal) => refusal,
            Unadmitted::TooManyWalks => Refusal::NoMemory,
        }
    }
}

/// Reads a program as a term.
///
/// # Errors
///
/// It has no tokens, is no term, or is nested too deep; or memory ran out.
pub fn read_program<'s>(alloc: Global, bytes: &[u8]) -> Result<Term, Refusal<'s>>
    ensures term { IfOk result (λ term. IsReading bytes.now (read term)) }
    ensures refused { IfErr result (λ refusal. (ts : Signature) → IsProgramRefusal ts bytes.now (refusal_at refusal)) }
    ensures unread { IfErr result (λ refusal. IsUnread bytes.now (refusal_at refusal)) }
{
    let tokens = match lex(alloc, bytes) {
        Ok(tokens) => tokens,
        Err(fault) => return Err(lex_refusal(fault)),
    };
    match parse(alloc, &tokens) {
        Ok(term) => Ok(term),
        Err(fault) => Err(parse_refusal(fault)),
    }
}

/// Checks a term over the tables of a signature, and runs it without data.
///
/// # Errors
///
/// It is ill typed, too sensitive or no number, or goes past a limit of runs; or it takes too many walks; or memory ran out.
pub(crate) fn admit_apart<'s: 'a, 'a>(
    alloc: Global,
    sig: &'s Sig,
    term: &'a Term,
) -> Result<Admitted<'a>, Unadmitted<'s>>
    requires { AreNames sig.now }
    ensures admitted { IfOk result (IsAdmitted sig.now term.now) }
    ensures unadmitted { IfErr result (IsUnadmitted sig.now term.now) }
{
    let checked = match check(alloc, sig, term) {
        Ok(checked) => checked,
        Err(fault) => return Err(Unadmitted::Refused(fault_refusal(sig, &fault))),
    };
    match shape(alloc, sig, term) {
        Ok(plan) => Ok(Admitted { checked, plan }),
        Err(ShapeFault::TooManyWalks) => Err(Unadmitted::TooManyWalks),
        Err(fault) => Err(Unadmitted::Refused(limit_refusal(fault))),
    }
}

/// The same, where too many walks are told as want of memory is.
///
/// # Errors
///
/// What `admit_apart` says of it.
pub fn admit<'s: 'a, 'a>(
    alloc: Global,
    sig: &'s Sig,
    term: &'a Term,
) -> Result<Admitted<'a>, Refusal<'s>>
    requires { AreNames sig.now }
    ensures admitted { IfOk result (IsAdmitted sig.now term.now) }
    ensures refused { IfErr result (λ refusal. IsTermRefusal sig.now term.now (refusal_at refusal)) }
{
    match admit_apart(alloc, sig, term) {
        Ok(admitted) => Ok(admitted),
        Err(unadmitted) => Err(unadmitted.told()),
    }
}

/// Reads a program, and says whether it is accepted over the tables of a signature.
///
/// # Errors
///
/// What `read_program` or `admit` refuses it for; or memory ran out.
pub fn check_program<'s>(alloc: Global, sig: &'s Sig, bytes: &[u8]) -> Result<Accepted, Refusal<'s>>
    requires { AreNames sig.now }
    ensures accepted { IfOk result (IsAccepted sig.now bytes.now) }
    ensures refused { IfErr result (λ refusal. IsProgramRefusal sig.now bytes.now (refusal_at refusal)) }
{
    let term = read_program(alloc, bytes)?;
    let sens = admit(alloc, sig, &term)?.checked.sens;
    Ok(Accepted { term, sens })
}
