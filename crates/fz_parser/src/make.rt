//! One action, and one token.
ghost use Rattle.std.specs.Prelude.{◌≡◌, ◌≤◌, ◌∷◌, ◌++◌, [], length, drop, true, IfOk, OnOk};
ghost use Rattle.fz_parser.specs.Parts.{made, takes, gives, arity, build, shift, type_};
ghost use Rattle.fz_parser.specs.Grammar.{Fits};
ghost use Rattle.fz_parser.specs.Tests.{begins_with};
ghost use Rattle.fz_parser.specs.Steps.{sorts};
ghost use Rattle.fz_parser.specs.Kept.{what_of, state_of, IsHeld, IsInOrder, IsValue, Makes};
ghost use Rattle.fz_parser.specs.declared.grammar.Action.{Action};

use crate::grammar::{Action, Terminal};
use crate::maker::*;
use crate::reader::{Entry, Held, Reader};
use fz_ast::{Form, Name, NoMemory, Span, Text, TypeForm};
use fz_frac::Sens;
use fz_lexer::{Kind, Token};
use std::alloc::AllocError;

/// How many parts an action takes.
#[tactic(auto, unfolding(crate::specs::Parts::arity, crate::specs::Parts::takes))]
fn arity(action: Action) -> usize
    ensures { result ≡ arity action }
{
    match action {
        Action::Begin | Action::TruthTerm(_) | Action::InfFactor => 0,
        Action::NumType | Action::TextType | Action::UnitType | Action::BoolType => 0,
        Action::NumberTerm | Action::NameTerm | Action::TextTerm | Action::UnitTerm => 1,
        Action::PlainInteger | Action::NegativeInteger | Action::WholeFactor => 1,
        Action::InfixTerm(_) | Action::NegativeTerm | Action::TimesTerm => 2,
        Action::UnaryTerm(_) | Action::GroupTerm | Action::FractionFactor => 2,
        Action::JoinType(_) | Action::ArrowType | Action::BagType | Action::GroupType => 2,
        Action::NegativeTimesTerm | Action::InjectTerm(_) | Action::BangTerm => 3,
        Action::PrefixTerm(_) | Action::BangType => 3,
        Action::LambdaTerm(_) | Action::LetBangTerm | Action::LetTerm => 4,
        Action::IfTerm | Action::RangedTerm(_) => 4,
        Action::LetPairTerm => 5,
        Action::CaseTerm => 6,
    }
}

/// What an action that gives a type makes of them.
#[tactic(auto, unfolding(crate::specs::Parts::gives))]
fn made_type(reader: &mut Reader, action: Action, whole: Span) -> Result<Held, NoMemory>
    requires kept { IsInOrder reader.old }
    requires ready { begins_with (takes action) (sorts (state_of reader.old)) ≡ true }
    requires gives { gives action ≡ type_ }
    ensures { IfOk result (λ held. Makes reader.old reader.new held (made action whole (state_of reader.old))) }
{
    match action {
        Action::JoinType(joint) => join(reader, joint, whole),
        Action::ArrowType => arrow(reader, whole),
        Action::BangType => bang_type(reader, whole),
        Action::BagType => bag_type(reader, whole),
        Action::NumType => reader.new_type(whole, TypeForm::Num),
        Action::TextType => reader.new_type(whole, TypeForm::Text),
        Action::UnitType => reader.new_type(whole, TypeForm::Unit),
        Action::BoolType => bool_type(reader, whole),
        Action::GroupType => Ok(group_type(reader)),
        _ => unreachable!(),
    }
}

/// What an action makes of the parts on top.
#[tactic(auto, unfolding(crate::specs::Parts::gives))]
fn made(reader: &mut Reader, action: Action, whole: Span) -> Result<Held, NoMemory>
    requires kept { IsInOrder reader.old }
    requires ready { begins_with (takes action) (sorts (state_of reader.old)) ≡ true }
    ensures { IfOk result (λ held. Makes reader.old reader.new held (made action whole (state_of reader.old))) }
{
    match action {
        Action::Begin => Ok(Held::Begun),
        Action::LambdaTerm(arrow) => lambda(reader, arrow, whole),
        Action::LetBangTerm => let_bang(reader, whole),
        Action::LetPairTerm => let_pair(reader, whole),
        Action::LetTerm => let_plain(reader, whole),
        Action::CaseTerm => case(reader, whole),
        Action::IfTerm => choice(reader, whole),
        Action::InfixTerm(op) => binary(reader, op, whole),
        Action::NegativeTerm => negative(reader, whole),
        Action::NegativeTimesTerm => negative_times(reader, whole),
        Action::TimesTerm => times(reader, whole),
        Action::NumberTerm => plain_number(reader, whole),
        Action::UnaryTerm(op) => unary(reader, op, whole),
        Action::RangedTerm(op) => ranged(reader, op, whole),
        Action::InjectTerm(side) => inject(reader, side, whole),
        Action::BangTerm => bang(reader, whole),
        Action::PrefixTerm(op) => binary(reader, op, whole),
        Action::NameTerm => variable(reader, whole),
        Action::TextTerm => literal(reader, whole),
        Action::TruthTerm(side) => truth(reader, side, whole),
        Action::UnitTerm => reader.new_term(whole, Form::Unit),
        Action::GroupTerm => Ok(group_term(reader)),
        Action::PlainInteger => Ok(plain_integer(reader)),
        Action::NegativeInteger => Ok(negative_integer(reader)),
        Action::WholeFactor => Ok(whole_factor(reader)),
        Action::FractionFactor => Ok(fraction(reader)),
        Action::InfFactor => Ok(Held::Factor(Sens::Inf)),
        _ => made_type(reader, action, whole),
    }
}

fn push(entries: &mut Vec<Entry>, entry: Entry) -> Result<(), AllocError>
    ensures { IfOk result (λ _. entries.new.items ≡ entries.old.items ++ entry ∷ []) }
{
    entries.push(entry)?;
    Ok(())
}

/// One part in the place of the last `count`.
fn replace(reader: &mut Reader, count: usize, entry: Entry) -> Result<(), NoMemory>
    requires kept { IsInOrder reader.old }
    requires held { IsHeld reader.old.nodes entry.held }
    ensures kept { OnOk result (IsInOrder reader.new) }
    ensures state { OnOk result (state_of reader.new ≡
        record {
          last = reader.old.last;
          parts = record { from = entry.from; what = what_of reader.old.nodes entry.held } ∷
              drop count (state_of reader.old).parts;
        }) }
{
    let rest = reader.entries.len().saturating_sub(count);
    reader.entries.truncate(rest);
    push(&mut reader.entries, entry)?;
    Ok(())
}

/// The part that an action makes takes the place of those that it is made of.
pub fn make(reader: &mut Reader, action: Action) -> Result<(), NoMemory>
    requires kept { IsInOrder reader.old }
    requires ready { begins_with (takes action) (sorts (state_of reader.old)) ≡ true }
    ensures kept { OnOk result (IsInOrder reader.new) }
    ensures state { OnOk result (state_of reader.new ≡ build action (state_of reader.old)) }
{
    let count = arity(action);
    let from = reader.start(count);
    let to = reader.last.to;
    let whole = Span { from, to };
    let held = made(reader, action, whole)?;
    replace(reader, count, Entry { from, held })?;
    Ok(())
}

/// What is kept of a token.
fn value(terminal: Terminal, token: &Token) -> Option<Held>
    requires { Fits terminal token.now.kind }
    ensures { IsValue terminal token.now result }
{
    match terminal {
        Terminal::Named => match &token.kind {
            Kind::Name(name) => Some(Held::Name(Name::new(name.as_bytes()))),
            _ => None,
        },
        Terminal::Numeral => match &token.kind {
            Kind::Number(number) => Some(Held::Number(*number)),
            _ => None,
        },
        Terminal::Positive => match &token.kind {
            Kind::Number(number) => Some(Held::Positive(*number as u32)),
            _ => None,
        },
        Terminal::Quoted => match &token.kind {
            Kind::Text(text) => Some(Held::Text(Text::new(text.as_bytes()))),
            _ => None,
        },
        Terminal::Keyword(_) | Terminal::Symbol(_) => None,
    }
}

/// Takes a token where such a one is wanted.
pub fn take(reader: &mut Reader, terminal: Terminal, token: &Token) -> Result<(), NoMemory>
    requires kept { IsInOrder reader.old }
    requires fits { Fits terminal token.now.kind }
    ensures kept { OnOk result (IsInOrder reader.new) }
    ensures state { OnOk result (state_of reader.new ≡ shift terminal token.now (state_of reader.old)) }
{
    let span = token.span;
    reader.last = span;
    match value(terminal, token) {
        Some(held) => {
            let from = span.from;
            replace(reader, 0, Entry { from, held })?;
            Ok(())
        }
        None => Ok(()),
    }
}
