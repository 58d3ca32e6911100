//! What a program is refused for, by each fault.

ghost use Rattle.std.specs.Prelude.{◌≡◌, ◌<◌, length, slice_get, Some};
ghost use Rattle.fz_ast.specs.Signature.{TableType};
ghost use Rattle.wire_lines.specs.Refusal.{ill_typed, unbounded, program_refusal_at, refusal_at};
ghost use Rattle.owner_house.specs.Names.{AreNames};
ghost use Rattle.answer_path.specs.Code.{HasPlace, HasTable, TellsFault, lex_refusal, limit_refusal, parse_refusal};

use fz_ast::{Sig, Span};
use fz_lexer::LexFault;
use fz_parser::ParseFault;
use sensitivity_check::CheckFault;
use shape_run::ShapeFault;
use wire_lines::{Name, ProgramRefusal, Refusal, TypeFault};

/// No token begins at some byte, or there are too many; or memory ran out.
pub(crate) fn lex_refusal<'s>(fault: LexFault) -> Refusal<'s>
    ensures { refusal_at result ≡ lex_refusal fault }
{
    match fault {
        LexFault::Bad { place } => Refusal::Program(ProgramRefusal::NoToken { place }),
        LexFault::TooManyTokens { place } => Refusal::Program(ProgramRefusal::NoToken { place }),
        LexFault::NoMemory => Refusal::NoMemory,
    }
}

/// The tokens are no term, or one that is nested too deep; or memory ran out.
pub(crate) fn parse_refusal<'s>(fault: ParseFault) -> Refusal<'s>
    requires { HasPlace fault }
    ensures { refusal_at result ≡ parse_refusal fault }
{
    match fault {
        ParseFault::Stuck { token } => {
            Refusal::Program(ProgramRefusal::NoTerm {
                token: token as u32,
            })
        }
        ParseFault::TooNested { depth } => Refusal::Program(ProgramRefusal::TooNested { depth }),
        ParseFault::NoMemory => Refusal::NoMemory,
    }
}

fn ill_typed<'s>(fault: TypeFault, span: Span) -> ProgramRefusal<'s>
    ensures { program_refusal_at result ≡ ill_typed fault span.from span.to }
{
    ProgramRefusal::IllTyped {
        fault,
        from: span.from,
        to: span.to,
    }
}

/// A table's sensitivity has no bound. Its name is the signature's.
fn unbounded<'s>(sig: &'s Sig, table: usize) -> ProgramRefusal<'s>
    requires names { AreNames sig.now }
    requires table { table < length sig.now }
    ensures { (t : TableType) → slice_get sig.now table ≡ Some t → program_refusal_at result ≡ unbounded t.name }
{
    let name = Name {
        bytes: sig.table(table).name.as_bytes(),
    };
    ProgramRefusal::Unbounded { table: name }
}

/// The term is ill typed, or its sensitivity is too great, out of range or unbounded; or memory ran out.
pub(crate) fn fault_refusal<'s>(sig: &'s Sig, fault: &CheckFault) -> Refusal<'s>
    requires names { AreNames sig.now }
    requires table { HasTable sig.now fault.now }
    ensures { TellsFault sig.now fault.now (refusal_at result) }
{
    Refusal::Program(match fault {
        CheckFault::Unbound { span } => ill_typed(TypeFault::Unbound, *span),
        CheckFault::Mismatch { span, .. } => ill_typed(TypeFault::Mismatch, *span),
        CheckFault::NotGround { span } => ill_typed(TypeFault::NotGround, *span),
        CheckFault::NotFlat { span } => ill_typed(TypeFault::NotFlat, *span),
        CheckFault::TooSensitive { span, r, .. } => ProgramRefusal::TooSensitive {
            from: span.from,
            to: span.to,
            sens: *r,
        },
        CheckFault::Range { span } => ProgramRefusal::OutOfRange {
            from: span.from,
            to: span.to,
        },
        CheckFault::Unbounded { table } => unbounded(sig, *table),
        CheckFault::NotNum { .. } => ProgramRefusal::NoNumber,
        CheckFault::NoMemory => return Refusal::NoMemory,
    })
}

/// A run would go too deep, take too many turns or make too wide a bag; or it would take too many walks, or memory ran out, which are told alike.
pub(crate) fn limit_refusal<'s>(fault: ShapeFault) -> Refusal<'s>
    ensures { refusal_at result ≡ limit_refusal fault }
{
    Refusal::Program(match fault {
        ShapeFault::TooDeep { span } => ProgramRefusal::TooDeep {
            from: span.from,
            to: span.to,
        },
        ShapeFault::TooLong { span } => ProgramRefusal::TooLong {
            from: span.from,
            to: span.to,
        },
        ShapeFault::TooWide { span, width } => ProgramRefusal::TooWide {
            from: span.from,
            to: span.to,
            width,
        },
        ShapeFault::TooManyWalks | ShapeFault::NoMemory => return Refusal::NoMemory,
    })
}
