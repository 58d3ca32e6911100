//! Programs as text, over one table `people` with a column of numbers.

use fz_ast::{Column, Name, NoMemory, Sig, Term, row_type};
use fz_lexer::lex;
use fz_parser::parse;
use std::alloc::{AllocError, Global};

/// A text, and how often it stands.
pub(crate) type Piece = (&'static str, u32);

fn add(text: &mut Vec<u8>, piece: &str, times: u32) -> Result<(), AllocError> {
    for _ in 0..times {
        text.extend_from_slice(piece.as_bytes())?;
    }
    Ok(())
}

/// Pieces one after another.
pub(crate) fn joined(alloc: Global, pieces: &[Piece]) -> Result<Vec<u8>, AllocError> {
    let mut text = Vec::new(alloc);
    for (piece, times) in pieces {
        add(&mut text, piece, *times)?;
    }
    Ok(text)
}

/// Each byte as the letter of its number.
pub(crate) fn letters(alloc: Global, bytes: &[u8]) -> Result<String, AllocError> {
    let mut text = String::new(alloc);
    for b in bytes {
        text.push(*b as char)?;
    }
    Ok(text)
}

/// What a program is read as.
pub(crate) fn term_of(alloc: Global, program: &[u8]) -> Option<Term> {
    let tokens = lex(alloc, program).ok()?;
    parse(alloc, &tokens).ok()
}

pub(crate) fn people(alloc: Global) -> Result<Sig, NoMemory> {
    let mut sig = Sig::new(alloc);
    let name = Name::new(b"people");
    if !sig.contains(name.as_bytes()) {
        sig.push(name, row_type(alloc, &[Column::Num])?)?;
    }
    Ok(sig)
}
