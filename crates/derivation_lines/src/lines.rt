//! The lines of a derivation, from its bytes.
ghost use Rattle.std.specs.Prelude.{◌≡◌, ◌<◌, ◌≤◌, ◌^◌, ◌++◌, [], ◌∷◌, ◌↔◌, true, IsTrue, length, IfOk, IfErr, IfSome, IfNone};
ghost use Rattle.fz_ast.specs.TypeNodes.{type_at};
ghost use Rattle.fz_ast.specs.Arena.{Grows};
ghost use Rattle.derivation_lines.specs.Lines.{AreInOrder};
ghost use Rattle.derivation_lines.specs.Texts.{lacks, AreLines, IsTypeText, IsSaidText, IsLineText};
ghost use Rattle.derivation_lines.specs.Said.{said_of, says_of};
ghost use Rattle.derivation_lines.specs.Held.{line_in, lines_in, AreHeld};
ghost use Rattle.derivation_lines.specs.Pieces.{Explains, NoTypeText, NoSaidText, NoLineText, AreSaid, NoneSaid, pieces_of, pieces_behind, ExplainsLines};

use crate::interned::interned;
use crate::line::{JudgeFault, Line, Said, byte_order};
use fz_ast::{Arena, Name, NoMemory};
use fz_lexer::{Kind, LexFault, lex_line};
use fz_parser::{ParseFault, parse_sensitivity, parse_type};
use memchr::memchr;
use std::alloc::Global;

/// Why bytes are no line, or no piece of one.
#[derive(Clone, Copy)]
enum TextFault {
    /// They aren't of the form.
    Form,
    /// Memory ran out.
    NoMemory,
}

impl From<NoMemory> for TextFault {
    ghost use Rattle.std.specs.Prelude.{◌≡◌};
    ghost use Rattle.derivation_lines.specs.declared.lines.TextFault.TheVariants.{NoMemory};

    ghost from_gives = { λ _ e. e ≡ NoMemory };

    fn from(_error: NoMemory) -> TextFault {
        TextFault::NoMemory
    }
}

impl From<LexFault> for TextFault {
    ghost use Rattle.std.specs.Prelude.{◌≡◌};
    ghost use Rattle.derivation_lines.specs.Pieces.{of_lexer};

    ghost from_gives = { λ fault e. e ≡ of_lexer fault };

    fn from(fault: LexFault) -> TextFault {
        match fault {
            LexFault::Bad { .. } | LexFault::TooManyTokens { .. } => TextFault::Form,
            LexFault::NoMemory => TextFault::NoMemory,
        }
    }
}

impl From<ParseFault> for TextFault {
    ghost use Rattle.std.specs.Prelude.{◌≡◌};
    ghost use Rattle.derivation_lines.specs.Pieces.{of_parser};

    ghost from_gives = { λ fault e. e ≡ of_parser fault };

    fn from(fault: ParseFault) -> TextFault {
        match fault {
            ParseFault::Stuck { .. } | ParseFault::TooNested { .. } => TextFault::Form,
            ParseFault::NoMemory => TextFault::NoMemory,
        }
    }
}

/// What stands before and behind the first such byte. None where there is none.
fn cut_at(bytes: &[u8], byte: u8) -> Option<(&[u8], &[u8])>
    ensures cut { IfSome result (λ r. bytes.now ≡ r.0.now ++ byte ∷ r.1.now) }
    ensures first { IfSome result (λ r. lacks byte r.0.now ≡ true) }
    ensures none { IfNone result (lacks byte bytes.now ≡ true) }
{
    let at = memchr(byte, bytes)?;
    Some((&bytes[..at], &bytes[at + 1..]))
}

/// The first piece of a text, and what is left behind its bar.
fn split_piece(text: &[u8]) -> (&[u8], Option<&[u8]>)
    ensures pieces { pieces_of text.now ≡ result.0.now ∷ pieces_behind result.1 }
    ensures piece { length result.0.now ≤ length text.now }
    ensures rest { IfSome result.1 (λ rest. length rest.now < length text.now) }
{
    match cut_at(text, b'|') {
        Some((piece, rest)) => (piece, Some(rest)),
        None => (text, None),
    }
}

/// The number in the arena of the type that a text is.
fn read_type(alloc: Global, arena: &mut Arena, text: &[u8]) -> Result<u32, TextFault>
    requires { length text.now < 2 ^ 32 }
    ensures grows { Grows arena.old arena.new }
    ensures known { IfOk result (λ n. n < length arena.new) }
    ensures is { IfOk result (λ n. IsTypeText text.now (type_at arena.new n)) }
    ensures fault { IfErr result (Explains (NoTypeText text.now)) }
{
    let tokens = lex_line(alloc, text)?;
    let ty = parse_type(alloc, &tokens)?;
    let (types, root) = ty.parts();
    let numbers = interned(alloc, arena, types)?;
    Ok(numbers[root as usize])
}

/// A name, and what is said of it.
fn read_said(alloc: Global, text: &[u8]) -> Result<Said, TextFault>
    requires { length text.now < 2 ^ 32 }
    ensures is { IfOk result (λ said. IsSaidText text.now (said_of said)) }
    ensures fault { IfErr result (Explains (NoSaidText text.now)) }
{
    let tokens = lex_line(alloc, text)?;
    let Some((first, rest)) = tokens.split_first() else {
        return Err(TextFault::Form);
    };
    let Kind::Name(name) = &first.kind else {
        return Err(TextFault::Form);
    };
    let amount = parse_sensitivity(alloc, rest)?;
    Ok(Said {
        name: Name::new(name.as_bytes()),
        amount,
    })
}

/// Whether the next name stands behind the last one in byte order.
fn may_follow(says: &[Said], next: &Said) -> bool
    requires { AreInOrder (says_of says.now) }
    ensures { IsTrue result ↔ AreInOrder (says_of says.now ++ said_of next.now ∷ []) }
{
    match says.split_last() {
        Some((last, _)) => byte_order(&last.name, &next.name).is_lt(),
        None => true,
    }
}

/// What is said of names in the pieces behind a line's first bar.
fn read_says(alloc: Global, behind: Option<&[u8]>) -> Result<Vec<Said>, TextFault>
    requires { IfSome behind (λ rest. length rest.now < 2 ^ 32) }
    ensures are { IfOk result (λ says. AreSaid (pieces_behind behind.entry) (says_of says.items)) }
    ensures fault { IfErr result (Explains (NoneSaid (pieces_behind behind.entry))) }
{
    let mut says: Vec<Said> = Vec::new(alloc);
    let mut behind = behind;
    while let Some(text) = behind {
        let (piece, rest) = split_piece(text);
        let said = read_said(alloc, piece)?;
        if !may_follow(&says, &said) {
            return Err(TextFault::Form);
        }
        if let Err(_) = says.push(said) {
            return Err(TextFault::NoMemory);
        }
        behind = rest;
    }
    Ok(says)
}

/// A line, from its bytes without the LF.
fn read_line(alloc: Global, arena: &mut Arena, text: &[u8]) -> Result<Line, TextFault>
    requires { length text.now < 2 ^ 32 }
    ensures grows { Grows arena.old arena.new }
    ensures known { IfOk result (λ line. line.ty < length arena.new) }
    ensures is { IfOk result (λ line. IsLineText text.now (line_in arena.new line)) }
    ensures fault { IfErr result (Explains (NoLineText text.now)) }
{
    let (piece, behind) = split_piece(text);
    let ty = read_type(alloc, arena, piece)?;
    let says = read_says(alloc, behind)?;
    Ok(Line { ty, says })
}

/// The lines of a derivation, of which there are to be so many. Their types are numbers in the arena.
///
/// # Errors
///
/// `Line` at the least line, from 0, that is missing, isn't ended by LF or isn't of the form, or at `count` where bytes
/// stand behind the last one. `NoMemory` where memory ran out.
pub fn read_lines(
    alloc: Global,
    arena: &mut Arena,
    bytes: &[u8],
    count: usize,
) -> Result<Vec<Line>, JudgeFault>
    requires { length bytes.now < 2 ^ 32 }
    ensures grows { Grows arena.old arena.new }
    ensures held { IfOk result (λ lines. AreHeld arena.new lines.items) }
    ensures lines { IfOk result (λ lines. AreLines bytes.now (lines_in arena.new lines.items)) }
    ensures count { IfOk result (λ lines. length lines.items ≡ count) }
    ensures fault { IfErr result (ExplainsLines bytes.now count) }
{
    let mut lines = Vec::new(alloc);
    let mut rest = bytes;
    for at in 0..count {
        let Some((text, after)) = cut_at(rest, b'\n') else {
            return Err(JudgeFault::Line { at });
        };
        match read_line(alloc, arena, text) {
            Ok(line) => {
                if let Err(_) = lines.push(line) {
                    return Err(JudgeFault::NoMemory);
                }
            }
            Err(TextFault::Form) => return Err(JudgeFault::Line { at }),
            Err(TextFault::NoMemory) => return Err(JudgeFault::NoMemory),
        }
        rest = after;
    }
    if !rest.is_empty() {
        return Err(JudgeFault::Line { at: count });
    }
    Ok(lines)
}
