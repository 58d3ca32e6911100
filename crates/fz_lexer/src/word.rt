//! The reserved words.
ghost use Rattle.std.specs.Prelude.{◌≡◌, IfSome, IfNone};
ghost use Rattle.fz_lexer.specs.Words.{spelling};
ghost use Rattle.fz_lexer.specs.declared.token.Word.{Word};

use crate::bytes::is_same;
use crate::token::Word;

const WORDS: [Word; 33] = [
    Word::Fun,
    Word::Fn,
    Word::Let,
    Word::In,
    Word::Case,
    Word::Of,
    Word::Inl,
    Word::Inr,
    Word::If,
    Word::Then,
    Word::Else,
    Word::Fst,
    Word::Snd,
    Word::True,
    Word::False,
    Word::Num,
    Word::Text,
    Word::Unit,
    Word::Bool,
    Word::Bag,
    Word::Inf,
    Word::Size,
    Word::Sum,
    Word::Clip,
    Word::Least,
    Word::Greatest,
    Word::Map,
    Word::Filter,
    Word::Split,
    Word::Union,
    Word::Do,
    Word::Release,
    Word::At,
];

#[tactic(auto, unfolding(crate::specs::Words::spelling))]
pub fn spelling(word: Word) -> &'static [u8]
    ensures { result.now ≡ spelling word }
{
    match word {
        Word::Fun => b"fun",
        Word::Fn => b"fn",
        Word::Let => b"let",
        Word::In => b"in",
        Word::Case => b"case",
        Word::Of => b"of",
        Word::Inl => b"inl",
        Word::Inr => b"inr",
        Word::If => b"if",
        Word::Then => b"then",
        Word::Else => b"else",
        Word::Fst => b"fst",
        Word::Snd => b"snd",
        Word::True => b"true",
        Word::False => b"false",
        Word::Num => b"num",
        Word::Text => b"text",
        Word::Unit => b"unit",
        Word::Bool => b"bool",
        Word::Bag => b"bag",
        Word::Inf => b"inf",
        Word::Size => b"size",
        Word::Sum => b"sum",
        Word::Clip => b"clip",
        Word::Least => b"least",
        Word::Greatest => b"greatest",
        Word::Map => b"map",
        Word::Filter => b"filter",
        Word::Split => b"split",
        Word::Union => b"union",
        Word::Do => b"do",
        Word::Release => b"release",
        Word::At => b"at",
    }
}

/// The reserved word that is spelled so.
pub fn reserved(text: &[u8]) -> Option<Word>
    ensures found { IfSome result (λ word. text.now ≡ spelling word) }
    ensures none { IfNone result ((word : Word) → text.now ≡ spelling word → ⊥) }
{
    for i in 0..WORDS.len() {
        let word = WORDS[i];
        if is_same(text, spelling(word)) {
            return Some(word);
        }
    }
    None
}
