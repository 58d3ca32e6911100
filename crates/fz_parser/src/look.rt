//! Looking tables up.
ghost use Rattle.std.specs.Prelude.{◌≡◌, ◌<◌, ◌≤◌, [], get_or, slice_index, slice_index_or};
ghost use Rattle.fz_parser.specs.Classes.{word_number, sign_number, phrase_number, terminal_number, class_of, may_stand};
ghost use Rattle.fz_parser.specs.Tests.{choice};
ghost use Rattle.fz_parser.specs.declared.grammar.Item.{Item};
ghost use Rattle.fz_parser.specs.declared.grammar.Terminal.{Terminal};
ghost use Rattle.fz_lexer.specs.declared.token.Kind.{Kind};

use crate::grammar::{Item, Phrase, Terminal};
use crate::tables::{CHOICES, ITEMS, STARTS};
use fz_lexer::{Kind, Sign, Word};

#[tactic(auto, unfolding(crate::specs::Classes::word_number))]
fn word_number(word: Word) -> u8
    ensures is { result ≡ word_number word }
    ensures below { result < 33 }
{
    word as u8
}

#[tactic(auto, unfolding(crate::specs::Classes::sign_number))]
fn sign_number(sign: Sign) -> u8
    ensures is { result ≡ sign_number sign }
    ensures below { result < 21 }
{
    sign as u8
}

#[tactic(auto, unfolding(crate::specs::Classes::phrase_number))]
fn phrase_number(phrase: Phrase) -> u8
    ensures is { result ≡ phrase_number phrase }
    ensures below { result < 25 }
{
    phrase as u8
}

/// The number of what a token has to be.
#[tactic(auto, unfolding(crate::specs::Classes::terminal_number))]
fn terminal_number(terminal: Terminal) -> u8
    ensures { result ≡ terminal_number terminal }
{
    match terminal {
        Terminal::Named => 1,
        Terminal::Numeral => 2,
        Terminal::Positive => 3,
        Terminal::Quoted => 4,
        Terminal::Symbol(sign) => 5 + sign_number(sign),
        Terminal::Keyword(word) => 26 + word_number(word),
    }
}

/// The class of a token: what may stand where it stands. Class 0 is the end of the tokens.
#[tactic(auto, unfolding(crate::specs::Classes::class_of))]
pub fn class_of(kind: &Kind) -> u8
    ensures { result ≡ class_of kind.now }
{
    match kind {
        Kind::Name(name) => { if name.as_bytes().len() <= 32 { 1 } else { 63 } }
        Kind::Number(number) => number_class(*number),
        Kind::Text(text) => { if text.as_bytes().len() <= 64 { 4 } else { 63 } }
        Kind::Punctuation(sign) => 5 + sign_number(*sign),
        Kind::Reserved(word) => 26 + word_number(*word),
    }
}

#[tactic(auto, unfolding(crate::specs::Classes::class_of))]
fn number_class(number: u64) -> u8
    ensures { result ≡ class_of (Kind.Number number) }
{
    if 0 < number && number < 4294967296 {
        3
    } else if number <= 1125899906842624 {
        2
    } else {
        63
    }
}

#[tactic(auto, unfolding(crate::specs::Classes::may_stand))]
fn is_wanted(number: u8, class: u8) -> bool
    ensures { result ≡ may_stand number class }
{
    class == number || number == 2 && class == 3
}

/// Whether a token of this class may stand where such a one is wanted.
pub fn may_stand(terminal: Terminal, class: u8) -> bool
    ensures { result ≡ may_stand (terminal_number terminal) class }
{
    is_wanted(terminal_number(terminal), class)
}

pub fn start_at(rule: u8) -> usize
    requires { rule < 78 }
    ensures { result ≡ slice_index STARTS rule }
{
    STARTS[rule as usize] as usize
}

pub fn item_at(place: usize) -> Item
    requires { place < 276 }
    ensures { result ≡ slice_index_or ITEMS place (Item.Take Terminal.Named) }
{
    ITEMS[place]
}

fn tabled(phrase: Phrase, class: u8) -> u8
    requires { class < 64 }
    ensures { result ≡ get_or (get_or CHOICES (phrase_number phrase) []) class 0 }
{
    CHOICES[phrase_number(phrase) as usize][class as usize]
}

/// One more than the rule for the phrase before a token of that class, or 0.
pub fn choice_at(phrase: Phrase, class: u8) -> u8
    requires { class < 64 }
    ensures { result ≡ choice phrase class }
{
    tabled(phrase, class)
}
