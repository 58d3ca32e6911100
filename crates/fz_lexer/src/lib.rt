//! Cuts the bytes of a program into tokens.
#![tactic(auto)]

mod bytes;
mod lexer;
mod prefix;
mod sign;
mod token;
mod word;

pub use lexer::{
    every_line_is_lexed, every_text_is_lexed, lex, lex_line, one_cut, one_fault, one_line_fault,
    refused_is_none, refused_line_is_none,
};
pub use token::{Kind, LexFault, Lexeme, Sign, Token, Word};
