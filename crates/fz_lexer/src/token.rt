//! What tokens are, and faults.
ghost use Rattle.std.specs.Prelude.{◌≡◌};

use fz_ast::span::Span;
use std::marker::Model;

/// A reserved word.
#[derive(Clone, Copy, Debug, PartialEq, Eq)]
pub enum Word {
    Fun,
    Fn,
    Let,
    In,
    Case,
    Of,
    Inl,
    Inr,
    If,
    Then,
    Else,
    Fst,
    Snd,
    True,
    False,
    Num,
    Text,
    Unit,
    Bool,
    Bag,
    Inf,
    Size,
    Sum,
    Clip,
    Least,
    Greatest,
    Map,
    Filter,
    Split,
    Union,
    Do,
    Release,
    At,
}

/// A sign.
#[derive(Clone, Copy, Debug, PartialEq, Eq)]
pub enum Sign {
    /// `(`
    LeftParenthesis,
    /// `)`
    RightParenthesis,
    /// `<`
    LeftAngle,
    /// `>`
    RightAngle,
    /// `[`
    LeftBracket,
    /// `]`
    RightBracket,
    /// `,`
    Comma,
    /// `:`
    Colon,
    /// `=`
    Is,
    /// `!`
    Bang,
    /// `|`
    Bar,
    /// `+`
    Plus,
    /// `-`
    Minus,
    /// `*`
    Star,
    /// `&`
    Ampersand,
    /// `/`
    Slash,
    /// `=>`
    Yields,
    /// `->`
    Arrow,
    /// `-o`
    Lollipop,
    /// `<=`
    AtMost,
    /// `==`
    EqualTo,
}

/// The bytes of a name, or those between the quotes of a text.
#[derive(Drop)]
pub struct Lexeme {
    bytes: Vec<u8>,
}

impl Model for Lexeme {
    ghost use Rattle.std.specs.Prelude.{ℕ, List};

    ghost Value = { List ℕ };

    ghost view = { λ l. l.bytes.items };
}

impl Lexeme {
    pub(crate) fn new(bytes: Vec<u8>) -> Lexeme
        ensures { result ≡ bytes.items }
    {
        Lexeme { bytes }
    }

    pub fn as_bytes(&self) -> &[u8]
        ensures { result.now ≡ self.now }
    {
        self.bytes.as_slice()
    }
}

/// What a token is.
#[derive(Drop)]
pub enum Kind {
    Name(Lexeme),
    /// At most 2^50.
    Number(u64),
    Text(Lexeme),
    Reserved(Word),
    Punctuation(Sign),
}

/// A token, and where it stands.
#[derive(Drop)]
pub struct Token {
    pub kind: Kind,
    pub span: Span,
}

/// Why bytes are no tokens. Places count bytes from 0. A program has at most 16,000 bytes and 4,096 tokens.
#[derive(Clone, Copy, Debug, PartialEq, Eq)]
pub enum LexFault {
    /// No token begins at this byte; or the program is over 16,000 bytes long, and the place is 16,000.
    Bad { place: u32 },
    /// Token 4,097 begins here.
    TooManyTokens { place: u32 },
    /// Memory ran out.
    NoMemory,
}
