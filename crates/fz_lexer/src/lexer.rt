//! The cut of a program into its tokens.
ghost use Rattle.std.specs.Prelude.{◌≡◌, ◌≢◌, ◌<◌, ◌≤◌, ◌+◌, ◌^◌, ◌∷◌, ◌++◌, [], ℕ, List, length, IfOk, IfErr};
ghost use Rattle.fz_lexer.specs.Prefixes.{token_at};
ghost use Rattle.fz_lexer.specs.Tokens.{AreTokens, IsLexed, ExplainsCut, ExplainsLex, IsLexedOrFaulty};
ghost use Rattle.fz_lexer.specs.Tokens.{ExplainsLine, IsLineOrFaulty};
ghost use Rattle.fz_lexer.specs.declared.token.Token.{Token};
ghost use Rattle.fz_lexer.specs.declared.token.LexFault.{LexFault};

use crate::bytes::{Class, run};
use crate::prefix::{TokenPrefix, token_prefix};
use crate::token::{LexFault, Token};
use fz_ast::span::Span;
use std::alloc::{AllocError, Global};

const MOST_BYTES: usize = 16000;

const MOST_TOKENS: usize = 4096;

impl From<AllocError> for LexFault {
    ghost use Rattle.std.specs.Prelude.{◌≡◌};
    ghost use Rattle.fz_lexer.specs.declared.token.LexFault.TheVariants.{NoMemory};

    ghost from_gives = { λ _ e. e ≡ NoMemory };

    fn from(_error: AllocError) -> LexFault {
        LexFault::NoMemory
    }
}

/// Puts a token that begins at a place to the others.
fn add(tokens: &mut Vec<Token>, found: TokenPrefix, place: usize) -> Result<(), AllocError>
    requires { place + found.len < 2 ^ 32 }
    ensures { IfOk result (λ _. tokens.new.items ≡ tokens.old.items ++ token_at place found ∷ []) }
{
    let span = Span {
        from: place as u32,
        to: (place + found.len) as u32,
    };
    tokens.push(Token {
        kind: found.kind,
        span,
    })?;
    Ok(())
}

/// Cuts a text into at most `most` tokens.
fn cut(alloc: Global, bytes: &[u8], most: usize) -> Result<Vec<Token>, LexFault>
    requires { length bytes.now < 2 ^ 32 }
    ensures tokens { IfOk result (λ tokens. AreTokens bytes.now tokens.items) }
    ensures count { IfOk result (λ tokens. length tokens.items ≤ most) }
    ensures fault { IfErr result (λ fault. ExplainsCut most bytes.now fault) }
{
    let mut tokens = Vec::new(alloc);
    let mut place = run(bytes, Class::Blank);
    while place < bytes.len() {
        match token_prefix(alloc, &bytes[place..])? {
            None => return Err(LexFault::Bad {
                place: place as u32,
            }),
            Some(found) => {
                if tokens.len() == most {
                    return Err(LexFault::TooManyTokens {
                        place: place as u32,
                    });
                }
                let to = place + found.len;
                add(&mut tokens, found, place)?;
                place = to + run(&bytes[to..], Class::Blank);
            }
        }
    }
    Ok(tokens)
}

/// Cuts a program into its tokens.
///
/// # Errors
///
/// `Bad` where the program is over 16,000 bytes long, or at the first byte that begins no token; `TooManyTokens` where
/// token 4,097 begins; the earlier place first. `NoMemory` where memory ran out.
pub fn lex(alloc: Global, bytes: &[u8]) -> Result<Vec<Token>, LexFault>
    ensures tokens { IfOk result (λ tokens. IsLexed bytes.now tokens.items) }
    ensures fault { IfErr result (λ fault. ExplainsLex bytes.now fault) }
{
    if bytes.len() > MOST_BYTES {
        return Err(LexFault::Bad {
            place: MOST_BYTES as u32,
        });
    }
    cut(alloc, bytes, MOST_TOKENS)
}

/// Cuts a text of any length into its tokens.
///
/// # Errors
///
/// `Bad` at the first byte that begins no token; `NoMemory` where memory ran out.
pub fn lex_line(alloc: Global, bytes: &[u8]) -> Result<Vec<Token>, LexFault>
    requires { length bytes.now < 2 ^ 32 }
    ensures tokens { IfOk result (λ tokens. AreTokens bytes.now tokens.items) }
    ensures fault { IfErr result (λ fault. ExplainsLine bytes.now fault) }
{
    // A token takes a byte at least.
    cut(alloc, bytes, bytes.len())
}

/// A program is cut in one way at most.
pub fn one_cut()
    ensures { (w : List ℕ) (ts us : List Token) → AreTokens w ts → AreTokens w us → us ≡ ts }
{}

/// A program that is refused, other than for want of memory, is no list of tokens within the limits.
pub fn refused_is_none()
    ensures { (w : List ℕ) (fault : LexFault) (ts : List Token) → ExplainsLex w fault → IsLexed w ts → fault ≡ LexFault.NoMemory }
{}

/// Nothing but want of memory can stand in the place of a program's fault.
pub fn one_fault()
    ensures { (w : List ℕ) (fault other : LexFault) → ExplainsLex w fault → ExplainsLex w other →
        fault ≢ LexFault.NoMemory → other ≢ LexFault.NoMemory → other ≡ fault }
{}

/// Any bytes are the tokens of a program, or have a fault that is no want of memory.
pub fn every_text_is_lexed()
    ensures { (w : List ℕ) → IsLexedOrFaulty w }
{}

/// A text without limits that is refused, other than for want of memory, is no list of tokens.
pub fn refused_line_is_none()
    ensures { (w : List ℕ) (fault : LexFault) (ts : List Token) → ExplainsLine w fault → AreTokens w ts → fault ≡ LexFault.NoMemory }
{}

/// Nothing but want of memory can stand in the place of the fault of a text without limits.
pub fn one_line_fault()
    ensures { (w : List ℕ) (fault other : LexFault) → ExplainsLine w fault → ExplainsLine w other →
        fault ≢ LexFault.NoMemory → other ≢ LexFault.NoMemory → other ≡ fault }
{}

/// Any bytes are tokens, or have a byte that begins none after tokens.
pub fn every_line_is_lexed()
    ensures { (w : List ℕ) → IsLineOrFaulty w }
{}
