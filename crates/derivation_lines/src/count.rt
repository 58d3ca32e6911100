//! How long the texts of types and lines are, before any is written: a type's text may be exponentially longer than what is kept of the type.
ghost use Rattle.std.specs.Prelude.{◌≡◌, ◌<◌, ◌≤◌, ◌+◌, ℕ, List, length, decimal, min, IfOk};
ghost use Rattle.std.specs.List.{AllByRecursion};
ghost use Rattle.fz_ast.specs.Types.{Ty};
ghost use Rattle.fz_ast.specs.TypeNodes.{IsKnownType, type_at, type_of};
ghost use Rattle.derivation_lines.specs.Counted.{AreCounts, IsCount};
ghost use Rattle.derivation_lines.specs.Held.{AreHeld, line_in, lines_in};
ghost use Rattle.derivation_lines.specs.Said.{said_of};
ghost use Rattle.derivation_lines.specs.Written.{amount_text, derivation_text, infix_text, line_text, said_text, type_text};
ghost use Rattle.derivation_lines.specs.declared.line.Line.{Line};
ghost use Rattle.fz_frac.specs.Sens.{distance_of};

use crate::line::{Line, Said};
use fz_ast::{NoMemory, TypeForm, Types};
use fz_frac::Sens;
use itoa::Buffer;
use std::alloc::Global;

fn number_length(n: u32) -> usize
    ensures is { result ≡ length (decimal n) }
    ensures short { result ≤ 10 }
{
    let mut buffer = Buffer::new();
    buffer.format(n).len()
}

fn amount_length(amount: Sens) -> usize
    ensures is { result ≡ length (amount_text (distance_of amount)) }
    ensures short { result ≤ 21 }
{
    match amount {
        Sens::Inf => 3,
        Sens::Finite(f) if f.q == 1 => number_length(f.p),
        Sens::Finite(f) => number_length(f.p) + 1 + number_length(f.q),
    }
}

// An infix type: parentheses, two spaces, a sign and its sides.
fn infix_length(sign: usize, a: usize, b: usize) -> usize
    requires { sign ≤ 2 }
    ensures { (s v w : List ℕ) → length s ≡ sign → IsCount v a → IsCount w b → IsCount (infix_text s v w) result }
{
    a.saturating_add(b).saturating_add(sign + 4)
}

// A type of this form, its parts' lengths being those at their numbers.
fn form_length(form: TypeForm, lengths: &[usize]) -> usize
    requires { IsKnownType (length lengths.now) form }
    ensures { (T : List Ty) → AreCounts T lengths.now → IsCount (type_text (type_of (type_at T) form)) result }
{
    match form {
        TypeForm::Num => 3,
        TypeForm::Text | TypeForm::Unit => 4,
        TypeForm::Tensor(a, b) | TypeForm::With(a, b) | TypeForm::Sum(a, b) => infix_length(
            1,
            lengths[a as usize],
            lengths[b as usize],
        ),
        TypeForm::Arrow(a, b) => infix_length(2, lengths[a as usize], lengths[b as usize]),
        TypeForm::Bang(r, a) => lengths[a as usize].saturating_add(amount_length(r) + 4),
        TypeForm::Bag(a) => lengths[a as usize].saturating_add(4),
    }
}

// The length of each type's text.
fn type_lengths(alloc: Global, types: &Types) -> Result<Vec<usize>, NoMemory>
    ensures all { IfOk result (λ lengths. length lengths.items ≡ length types.now) }
    ensures are { IfOk result (λ lengths. AreCounts types.now lengths.items) }
{
    let mut lengths = Vec::new(alloc);
    for i in 0..types.len() {
        // There are no more types than a u32 numbers.
        if i > u32::MAX as usize {
            return Err(NoMemory);
        }
        let length = form_length(types.form(i as u32), &lengths);
        if let Err(_) = lengths.push(length) {
            return Err(NoMemory);
        }
    }
    Ok(lengths)
}

fn said_length(said: &Said) -> usize
    ensures is { result ≡ length (said_text (said_of said.now)) }
    ensures short { result ≤ 57 }
{
    4 + said.name.as_bytes().len() + amount_length(said.amount)
}

fn line_length(lengths: &[usize], line: &Line) -> usize
    requires { line.now.ty < length lengths.now }
    ensures { (T : List Ty) → AreCounts T lengths.now → IsCount (line_text (line_in T line.now)) result }
{
    let mut length = lengths[line.ty as usize].saturating_add(1);
    for said in &line.says {
        length = length.saturating_add(said_length(said));
    }
    length
}

fn lines_length(lengths: &[usize], lines: &[Line]) -> usize
    requires { AllByRecursion (λ (l : Line). l.ty < length lengths.now) lines.now }
    ensures { (T : List Ty) → AreCounts T lengths.now → IsCount (derivation_text (lines_in T lines.now)) result }
{
    let mut length = 0usize;
    for line in lines {
        length = length.saturating_add(line_length(lengths, line));
    }
    length
}

/// How long the text of a derivation is, or the greatest `usize` where it is longer.
pub fn derivation_length(alloc: Global, types: &Types, lines: &[Line]) -> Result<usize, NoMemory>
    requires { AreHeld types.now lines.now }
    ensures { IfOk result (IsCount (derivation_text (lines_in types.now lines.now))) }
{
    let lengths = type_lengths(alloc, types)?;
    Ok(lines_length(&lengths, lines))
}
