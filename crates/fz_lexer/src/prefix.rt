//! The token that some bytes begin with.
ghost use Rattle.std.specs.Prelude.{◌≡◌, ◌<◌, ◌≤◌, ◌^◌, ◌≢◌, false, ℕ, List, true, length, IfOk, IfSome, IfNone, slice_index, slice_get};
ghost use Rattle.fz_lexer.specs.Bytes.{begins, every_byte, is_digit, is_letter, value_from};
ghost use Rattle.fz_lexer.specs.Tokens.{IsReservedOrName};
ghost use Rattle.fz_lexer.specs.Prefixes.{IsTokenPrefix};

use crate::bytes::{Class, is_digit, is_letter, run};
use crate::sign::{mark, sign_at};
use crate::token::{Kind, Lexeme};
use crate::word::reserved;
use std::alloc::{AllocError, Global};

/// A token that begins some bytes, and how many of them it takes.
#[derive(Drop)]
pub struct TokenPrefix {
    pub kind: Kind,
    pub len: usize,
}

fn lexeme(alloc: Global, bytes: &[u8]) -> Result<Lexeme, AllocError>
    ensures { IfOk result (λ l. l ≡ bytes.now) }
{
    Ok(Lexeme::new(Vec::from_slice(alloc, bytes)?))
}

/// A reserved word or a name.
fn word_kind(alloc: Global, text: &[u8]) -> Result<Kind, AllocError>
    ensures { IfOk result (IsReservedOrName text.now) }
{
    match reserved(text) {
        Some(word) => Ok(Kind::Reserved(word)),
        None => Ok(Kind::Name(lexeme(alloc, text)?)),
    }
}

fn name(alloc: Global, bytes: &[u8]) -> Result<Option<TokenPrefix>, AllocError>
    requires { begins is_letter bytes.now ≡ true }
    ensures { IfOk result (IsTokenPrefix bytes.now) }
{
    let len = run(bytes, Class::Name);
    if len > 32 {
        return Ok(None);
    }
    let kind = word_kind(alloc, &bytes[..len])?;
    Ok(Some(TokenPrefix { kind, len }))
}

/// The value of digits, where it is at most 2^50.
fn value_of(digits: &[u8]) -> Option<u64>
    requires { every_byte is_digit digits.now ≡ true }
    ensures value { IfSome result (λ v. (v ≡ value_from 0 digits.now) × (v ≤ 2 ^ 50)) }
    ensures none { IfNone result (2 ^ 50 < value_from 0 digits.now) }
{
    let mut value = 0;
    for b in digits {
        value = 10 * value + (*b - 48) as u64;
        if value > 1125899906842624 {
            return None;
        }
    }
    Some(value)
}

fn number(bytes: &[u8]) -> Option<TokenPrefix>
    requires { begins is_digit bytes.now ≡ true }
    ensures { IsTokenPrefix bytes.now result }
{
    let len = run(bytes, Class::Digit);
    match value_of(&bytes[..len]) {
        None => None,
        Some(number) => Some(TokenPrefix {
            kind: Kind::Number(number),
            len,
        }),
    }
}

fn text(alloc: Global, bytes: &[u8]) -> Result<Option<TokenPrefix>, AllocError>
    requires some { 0 < length bytes.now }
    requires quote { slice_index bytes.now 0 ≡ 34 }
    ensures { IfOk result (IsTokenPrefix bytes.now) }
{
    let rest = &bytes[1..];
    let len = run(rest, Class::Text);
    if len > 64 {
        return Ok(None);
    }
    if len == rest.len() {
        return Ok(None);
    }
    if rest[len] != 34 {
        return Ok(None);
    }
    let text = lexeme(alloc, &rest[..len])?;
    Ok(Some(TokenPrefix {
        kind: Kind::Text(text),
        len: len + 2,
    }))
}

fn sign(bytes: &[u8]) -> Option<TokenPrefix>
    requires some { 0 < length bytes.now }
    requires no_letter { is_letter (slice_index bytes.now 0) ≡ false }
    requires no_digit { is_digit (slice_index bytes.now 0) ≡ false }
    requires no_quote { slice_index bytes.now 0 ≢ 34 }
    ensures { IsTokenPrefix bytes.now result }
{
    match sign_at(bytes) {
        None => None,
        Some(sign) => Some(TokenPrefix {
            kind: Kind::Punctuation(sign),
            len: mark(sign).len(),
        }),
    }
}

/// The token that begins the bytes.
pub fn token_prefix(alloc: Global, bytes: &[u8]) -> Result<Option<TokenPrefix>, AllocError>
    requires { 0 < length bytes.now }
    ensures { IfOk result (IsTokenPrefix bytes.now) }
{
    let first = bytes[0];
    if is_letter(first) {
        name(alloc, bytes)
    } else if is_digit(first) {
        Ok(number(bytes))
    } else if first == 34 {
        text(alloc, bytes)
    } else {
        Ok(sign(bytes))
    }
}
