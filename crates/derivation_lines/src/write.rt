//! Derivations as bytes.
ghost use Rattle.std.specs.Prelude.{◌≡◌, ◌<◌, ◌≤◌, ◌++◌, ◌∷◌, [], ℕ, List, length, decimal, IfOk, IfErr};
ghost use Rattle.fz_ast.specs.Types.{Ty};
ghost use Rattle.fz_ast.specs.TypeNodes.{IsKnownType, type_at, type_of};
ghost use Rattle.derivation_lines.specs.Held.{AreHeld, line_in, lines_in};
ghost use Rattle.derivation_lines.specs.Pending.{AreHeldPieces, IsHeldPiece, Writes, pending, piece_text};
ghost use Rattle.derivation_lines.specs.Readable.{WrittenReadsBack};
ghost use Rattle.derivation_lines.specs.Said.{said_of};
ghost use Rattle.derivation_lines.specs.Unwritten.{ExplainsWrite};
ghost use Rattle.derivation_lines.specs.Written.{amount_text, derivation_text, infix_text, line_text, longest, said_text, type_text};
ghost use Rattle.fz_frac.specs.Sens.{distance_of};

use crate::count::derivation_length;
use crate::line::{Line, Said};
use fz_ast::{NoMemory, TypeForm, Types};
use fz_frac::Sens;
use itoa::Buffer;
use std::alloc::{AllocError, Global};

/// The most bytes of a derivation.
pub const LONGEST: usize = 67108864;

/// Why a derivation isn't written.
#[derive(Clone, Copy, Debug, PartialEq, Eq)]
pub enum WriteFault {
    /// It has more than the most bytes.
    TooLong,
    /// Memory ran out.
    NoMemory,
}

impl From<AllocError> for WriteFault {
    ghost use Rattle.std.specs.Prelude.{◌≡◌};
    ghost use Rattle.derivation_lines.specs.declared.write.WriteFault.TheVariants.{NoMemory};

    ghost from_gives = { λ _ e. e ≡ NoMemory };

    fn from(_error: AllocError) -> WriteFault {
        WriteFault::NoMemory
    }
}

impl From<NoMemory> for WriteFault {
    ghost use Rattle.std.specs.Prelude.{◌≡◌};
    ghost use Rattle.derivation_lines.specs.declared.write.WriteFault.TheVariants.{NoMemory};

    ghost from_gives = { λ _ e. e ≡ NoMemory };

    fn from(_error: NoMemory) -> WriteFault {
        WriteFault::NoMemory
    }
}

/// What is still to be written of a type, behind what was: a part, a sign with its spaces, or a parenthesis.
#[derive(Clone, Copy)]
pub enum Piece {
    Part(u32),
    Star,
    Ampersand,
    Plus,
    Lollipop,
    Close,
}

fn put_number(out: &mut Vec<u8>, n: u32) -> Result<(), AllocError>
    ensures { IfOk result (λ _. out.new.items ≡ out.old.items ++ decimal n) }
{
    let mut buffer = Buffer::new();
    out.extend_from_slice(buffer.format(n).as_bytes())
}

fn put_amount(out: &mut Vec<u8>, amount: Sens) -> Result<(), AllocError>
    ensures { IfOk result (λ _. out.new.items ≡ out.old.items ++ amount_text (distance_of amount)) }
{
    match amount {
        Sens::Inf => out.extend_from_slice(b"inf"),
        Sens::Finite(f) if f.q == 1 => put_number(out, f.p),
        Sens::Finite(f) => {
            put_number(out, f.p)?;
            out.push(b'/')?;
            put_number(out, f.q)
        }
    }
}

// An infix type: its parenthesis is written, and the rest is to come.
fn put_infix(
    left: &mut Vec<Piece>,
    out: &mut Vec<u8>,
    a: u32,
    sign: Piece,
    b: u32,
) -> Result<(), AllocError>
    ensures { (T : List Ty) (s : List ℕ) → piece_text T sign ≡ 32 ∷ (s ++ 32 ∷ []) → IsHeldPiece T sign → (a < length T) × (b < length T)
        → AreHeldPieces T left.old.items → IfOk result (λ _. Writes T out.old.items (infix_text s (type_text (type_at T a)) (type_text (type_at T b)))
        left.old.items out.new.items left.new.items) }
{
    left.push(Piece::Close)?;
    left.push(Piece::Part(b))?;
    left.push(sign)?;
    left.push(Piece::Part(a))?;
    out.push(b'(')?;
    Ok(())
}

// Begins a type of this form: what can be written is, and its parts are to come.
fn put_form(left: &mut Vec<Piece>, out: &mut Vec<u8>, form: TypeForm) -> Result<(), AllocError>
    ensures { (T : List Ty) → IsKnownType (length T) form → AreHeldPieces T left.old.items → IfOk result (λ _.
        Writes T out.old.items (type_text (type_of (type_at T) form)) left.old.items out.new.items left.new.items) }
{
    match form {
        TypeForm::Num => out.extend_from_slice(b"num"),
        TypeForm::Text => out.extend_from_slice(b"text"),
        TypeForm::Unit => out.extend_from_slice(b"unit"),
        TypeForm::Tensor(a, b) => put_infix(left, out, a, Piece::Star, b),
        TypeForm::With(a, b) => put_infix(left, out, a, Piece::Ampersand, b),
        TypeForm::Sum(a, b) => put_infix(left, out, a, Piece::Plus, b),
        TypeForm::Arrow(a, b) => put_infix(left, out, a, Piece::Lollipop, b),
        TypeForm::Bang(r, a) => {
            out.extend_from_slice(b"![")?;
            put_amount(out, r)?;
            out.extend_from_slice(b"] ")?;
            left.push(Piece::Part(a))?;
            Ok(())
        }
        TypeForm::Bag(a) => {
            out.extend_from_slice(b"bag ")?;
            left.push(Piece::Part(a))?;
            Ok(())
        }
    }
}

fn put_piece(
    left: &mut Vec<Piece>,
    out: &mut Vec<u8>,
    types: &Types,
    piece: Piece,
) -> Result<(), AllocError>
    requires held { IsHeldPiece types.now piece }
    requires left { AreHeldPieces types.now left.old.items }
    ensures { IfOk result (λ _. Writes types.now out.old.items (piece_text types.now piece) left.old.items out.new.items left.new.items) }
{
    match piece {
        Piece::Part(n) => put_form(left, out, types.form(n)),
        Piece::Star => out.extend_from_slice(b" * "),
        Piece::Ampersand => out.extend_from_slice(b" & "),
        Piece::Plus => out.extend_from_slice(b" + "),
        Piece::Lollipop => out.extend_from_slice(b" -o "),
        Piece::Close => out.extend_from_slice(b")"),
    }
}

// A type. What is still to come stands in a list, so nothing recurses, however deep the type is.
fn put_type(alloc: Global, types: &Types, ty: u32, out: &mut Vec<u8>) -> Result<(), AllocError>
    requires { ty < length types.now }
    ensures { IfOk result (λ _. out.new.items ≡ out.old.items ++ type_text (type_at types.now ty)) }
{
    let mut left = Vec::new(alloc);
    left.push(Piece::Part(ty))?;
    while let Some(piece) = left.pop() {
        put_piece(&mut left, out, types, piece)?;
    }
    Ok(())
}

fn put_said(out: &mut Vec<u8>, said: &Said) -> Result<(), AllocError>
    ensures { IfOk result (λ _. out.new.items ≡ out.old.items ++ said_text (said_of said.now)) }
{
    out.extend_from_slice(b" | ")?;
    out.extend_from_slice(said.name.as_bytes())?;
    out.push(b' ')?;
    put_amount(out, said.amount)
}

fn put_line(alloc: Global, types: &Types, line: &Line, out: &mut Vec<u8>) -> Result<(), AllocError>
    requires { line.now.ty < length types.now }
    ensures { IfOk result (λ _. out.new.items ≡ out.old.items ++ line_text (line_in types.now line.now)) }
{
    put_type(alloc, types, line.ty, out)?;
    for said in &line.says {
        put_said(out, said)?;
    }
    out.push(b'\n')?;
    Ok(())
}

fn put_lines(alloc: Global, types: &Types, lines: &[Line]) -> Result<Vec<u8>, AllocError>
    requires { AreHeld types.now lines.now }
    ensures { IfOk result (λ out. out.items ≡ derivation_text (lines_in types.now lines.now)) }
{
    let mut out = Vec::new(alloc);
    for line in lines {
        put_line(alloc, types, line, &mut out)?;
    }
    Ok(out)
}

/// The bytes of a derivation, whose types are numbers in `types`. How many they are is counted before any is written.
///
/// # Errors
///
/// `TooLong` exactly where they would be over 2^26; `NoMemory` where memory ran out.
pub fn written(alloc: Global, types: &Types, lines: &[Line]) -> Result<Vec<u8>, WriteFault>
    requires { AreHeld types.now lines.now }
    ensures text { IfOk result (λ out. out.items ≡ derivation_text (lines_in types.now lines.now)) }
    ensures short { IfOk result (λ out. length out.items ≤ longest) }
    ensures fault { IfErr result (ExplainsWrite (lines_in types.now lines.now)) }
{
    if derivation_length(alloc, types, lines)? > LONGEST {
        return Err(WriteFault::TooLong);
    }
    let out = put_lines(alloc, types, lines)?;
    Ok(out)
}

/// What is written of lines is read back.
pub fn written_reads_back()
    ensures { WrittenReadsBack }
{}
