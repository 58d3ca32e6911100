//! Texts without limits: their tokens, and the types and sensitivities that they are.
use crate::programs::{Piece, joined};
use crate::terms::{at, factor, type_texts};
use fz_ast::Span;
use fz_lexer::{Kind, LexFault, Token, Word, lex_line};
use fz_parser::{ParseFault, parse_sensitivity, parse_type};
use std::alloc::{AllocError, Global};
use std::test::Fail;

fn tokens_of(alloc: Global, text: &[u8]) -> Result<Vec<Token>, LexFault> {
    if text.len() > u32::MAX as usize {
        return Err(LexFault::NoMemory);
    }
    lex_line(alloc, text)
}

fn fault_text(alloc: Global, fault: ParseFault) -> Result<String, AllocError> {
    match fault {
        ParseFault::Stuck { token } => format!(in alloc; "stuck {token}"),
        ParseFault::TooNested { depth } => format!(in alloc; "too nested {depth}"),
        ParseFault::NoMemory => format!(in alloc; "no memory"),
    }
}

fn type_outcome(alloc: Global, tokens: &[Token]) -> Result<String, AllocError> {
    match parse_type(alloc, tokens) {
        Ok(ty) => {
            let (types, root) = ty.parts();
            String::from_str(alloc, at(&type_texts(alloc, types)?, root))
        }
        Err(fault) => fault_text(alloc, fault),
    }
}

fn sensitivity_outcome(alloc: Global, tokens: &[Token]) -> Result<String, AllocError> {
    match parse_sensitivity(alloc, tokens) {
        Ok(sens) => factor(alloc, sens),
        Err(fault) => fault_text(alloc, fault),
    }
}

// The type and the sensitivity that a text is, or where its tokens are stuck.
fn outcome(alloc: Global, text: &[u8]) -> Result<String, AllocError> {
    match tokens_of(alloc, text) {
        Ok(tokens) => {
            let ty = type_outcome(alloc, &tokens)?;
            let sens = sensitivity_outcome(alloc, &tokens)?;
            format!(in alloc; "{ty}, {sens}")
        }
        Err(LexFault::Bad { place }) => format!(in alloc; "bad {place}"),
        Err(_other) => format!(in alloc; "another fault"),
    }
}

#[rattlefmt::skip]
static TEXTS: [(&str, &str); 26] = [
    ("num", "num, stuck 0"), ("bool", "(unit + unit), stuck 0"), (" (\tnum\r)\n", "num, stuck 0"),
    ("num -o text -> unit", "(num -o (![inf] text -o unit)), stuck 0"),
    ("(![inf] num -o ![2/4] bag text)", "(![inf] num -o ![1/2] bag text), stuck 0"),
    ("num * text & unit + num + bag num", "((num * (text & unit)) + (num + bag num)), stuck 0"),
    ("![1/4294967295] num", "![1/4294967295] num, stuck 0"), ("![1/4294967296] num", "stuck 4, stuck 0"),
    ("1", "stuck 0, 1/1"), ("4294967295", "stuck 0, 4294967295/1"), ("4294967296", "stuck 0, stuck 0"),
    ("4294967295/4294967294", "stuck 0, 4294967295/4294967294"), ("6 / 4", "stuck 0, 3/2"),
    ("1/4294967296", "stuck 0, stuck 2"), ("inf", "stuck 0, inf"), ("0", "stuck 0, stuck 0"),
    ("1/0", "stuck 0, stuck 2"), ("1/2/3", "stuck 0, stuck 3"), ("inf 1", "stuck 0, stuck 1"),
    ("", "stuck 0, stuck 0"), ("bag", "stuck 1, stuck 0"), ("num num", "stuck 1, stuck 0"),
    ("num | people 1", "stuck 1, stuck 0"), ("(num", "stuck 2, stuck 0"), ("num)", "stuck 1, stuck 0"),
    ("num #", "bad 4"),
];

#[test]
fn types_and_sensitivities(rt: HostRuntime) -> Result<(), Fail> {
    for (text, wanted) in &TEXTS {
        let found = outcome(rt.alloc(), text.as_bytes())?;
        assert!(rt; found.as_str() == *wanted, "{found}");
    }
    Ok(())
}

// How deep the type is that tokens are; 0 where they are none.
fn depth_of(alloc: Global, tokens: &[Token]) -> u32 {
    match parse_type(alloc, tokens) {
        Ok(ty) => {
            let (types, root) = ty.parts();
            types.depth(root)
        }
        Err(_fault) => 0,
    }
}

// Texts that are longer than a program, and how deep their types are.
static LONG_TYPES: [(&[Piece], u32); 4] = [
    (&[("bag ", 20000), ("num", 1)], 20001),
    (&[("(", 20000), ("num", 1), (")", 20000)], 1),
    (&[("num -o ", 20000), ("num", 1)], 20001),
    (&[("bag ", 20000), ("(", 1)], 0),
];

#[test]
fn long_types(rt: HostRuntime) -> Result<(), Fail> {
    for (pieces, wanted) in &LONG_TYPES {
        let text = joined(rt.alloc(), pieces)?;
        let tokens = tokens_of(rt.alloc(), &text).unwrap_or(Vec::new(rt.alloc()));
        assert!(rt; depth_of(rt.alloc(), &tokens) == *wanted);
    }
    Ok(())
}

fn word(word: Word) -> Token {
    Token {
        kind: Kind::Reserved(word),
        span: Span { from: 0, to: 0 },
    }
}

fn bags(alloc: Global, count: u32) -> Result<Vec<Token>, AllocError> {
    let mut tokens = Vec::new(alloc);
    for _bag in 0..count {
        tokens.push(word(Word::Bag))?;
    }
    tokens.push(word(Word::Num))?;
    Ok(tokens)
}

// Deeper than a stack goes.
#[test]
fn a_million_bags(rt: HostRuntime) -> Result<(), Fail> {
    let tokens = bags(rt.alloc(), 1000000)?;
    assert!(rt; depth_of(rt.alloc(), &tokens) == 1000001);
    Ok(())
}
