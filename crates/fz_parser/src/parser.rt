//! The parser: a stack of what is still to come, and a step a token.
ghost use Rattle.std.specs.Prelude.{◌≡◌, ◌≢◌, ◌↔◌, ◌<◌, ◌≤◌, ◌++◌, ◌∷◌, [], ℕ, List, reverse, length, take, drop, IfOk, IfErr, OnOk};
ghost use Rattle.fz_ast.specs.declared.span.Span.{Span};
ghost use Rattle.fz_ast.specs.Terms.{Term};
ghost use Rattle.fz_ast.specs.Bare.{bare};
ghost use Rattle.fz_ast.specs.Limits.{IsBang, TypeLimits, TermLimits};
ghost use Rattle.fz_ast.specs.Types.{Ty};
ghost use Rattle.fz_frac.specs.Distance.{Distance};
ghost use Rattle.fz_frac.specs.Sens.{distance_of};
ghost use Rattle.fz_lexer.specs.declared.token.Token.{Token};
ghost use Rattle.fz_parser.specs.Table.{rule_count};
ghost use Rattle.fz_parser.specs.Grammar.{body, IsPhrase, IsTerm, IsTypeOf, IsSensitivityOf, Derives};
ghost use Rattle.fz_parser.specs.Parts.{State, What};
ghost use Rattle.fz_parser.specs.Written.{IsProduct};
ghost use Rattle.fz_parser.specs.Printer.{written, kinds_of, type_kinds, factor_kinds};
ghost use Rattle.fz_parser.specs.declared.grammar.Item.{Item};
ghost use Rattle.fz_parser.specs.declared.grammar.Phrase.{Phrase};
ghost use Rattle.fz_parser.specs.Reading.{IsParsed, ExplainsAs, ExplainsParse, IsParsedOrFaulty};
ghost use Rattle.fz_parser.specs.Reading.{ExplainsType, IsStuckType, IsTypeOrStuck};
ghost use Rattle.fz_parser.specs.Reading.{ExplainsSensitivity, IsStuckSensitivity, IsSensitivityOrStuck};
ghost use Rattle.fz_parser.specs.Steps.{front, IsGoal, Sound, At, ComesTo, AreInOrder, START};
ghost use Rattle.fz_parser.specs.Kept.{state_of, IsInOrder, IsReadAs};
ghost use Rattle.fz_parser.specs.declared.fault.ParseFault.{ParseFault};

use crate::fault::ParseFault;
use crate::grammar::{Item, Phrase, Top};
use crate::look::{choice_at, class_of, item_at, may_stand, start_at};
use crate::make::{make, take};
use crate::reader::Reader;
use fz_ast::{NoMemory, Term, Ty};
use fz_frac::Sens;
use fz_lexer::Token;
use std::alloc::{AllocError, Global};

/// Puts a rule's body on the stack, its first item on top.
fn push_body(stack: &mut Vec<Item>, rule: u8) -> Result<(), AllocError>
    requires { rule < rule_count }
    ensures { IfOk result (λ _. reverse stack.new.items ≡ body rule ++ reverse stack.old.items) }
{
    let start = start_at(rule);
    let mut rest = start_at(rule + 1);
    while rest > start {
        rest -= 1;
        stack.push(item_at(rest))?;
    }
    Ok(())
}

/// Goes on until a token is wanted, before a token of this class.
fn settle(class: u8, stack: &mut Vec<Item>, reader: &mut Reader) -> Result<Top, NoMemory>
    requires class { class < 64 }
    requires kept { IsInOrder reader.old }
    requires sound { (goal : Phrase) × Sound goal (reverse stack.old.items) (state_of reader.old) }
    ensures kept { OnOk result (IsInOrder reader.new) }
    ensures left { IfOk result (λ top. (goal : Phrase) → Sound goal (reverse stack.old.items) (state_of reader.old) →
        AreInOrder goal top (reverse stack.new.items) (state_of reader.new)) }
    ensures outcome { IfOk result (λ top. (goal : Phrase) (read rest : List Token) → front rest ≡ class →
        Sound goal (reverse stack.old.items) (state_of reader.old) →
        At goal read rest (reverse stack.old.items) (state_of reader.old) → ComesTo goal top read rest (reverse stack.new.items) (state_of reader.new)) }
{
    while let Some(item) = stack.pop() {
        match item {
            Item::Take(terminal) => return Ok(Top::Wants(terminal)),
            Item::Make(action) => make(reader, action)?,
            Item::Read(phrase) => {
                let choice = choice_at(phrase, class);
                if choice == 0 {
                    return Ok(Top::DeadEnd);
                }
                push_body(stack, choice - 1)?;
            }
        }
    }
    Ok(Top::Empty)
}

fn start(alloc: Global, goal: Phrase) -> Result<Vec<Item>, AllocError>
    ensures { IfOk result (λ stack. stack.items ≡ START goal) }
{
    let mut stack = Vec::new(alloc);
    stack.push(Item::Read(goal))?;
    Ok(stack)
}

const DEEPEST: u64 = 64;

/// The parts of the goal, however deep it is: one, which is all of it.
fn read(alloc: Global, goal: Phrase, tokens: &[Token]) -> Result<Reader, ParseFault>
    requires { IsGoal goal }
    ensures read { IfOk result (IsReadAs goal tokens.now) }
    ensures fault { IfErr result (λ fault. ExplainsAs What (IsPhrase goal) tokens.now fault) }
{
    let mut stack = start(alloc, goal)?;
    let mut reader = Reader::new(alloc);
    for place in 0..tokens.len() {
        let token = &tokens[place];
        let class = class_of(&token.kind);
        match settle(class, &mut stack, &mut reader)? {
            Top::Empty => return Err(ParseFault::Stuck { token: place }),
            Top::DeadEnd => return Err(ParseFault::Stuck { token: place }),
            Top::Wants(terminal) => {
                if !may_stand(terminal, class) {
                    return Err(ParseFault::Stuck { token: place });
                }
                take(&mut reader, terminal, token)?;
            }
        }
    }
    let end = tokens.len();
    match settle(0, &mut stack, &mut reader)? {
        Top::Empty => Ok(reader),
        Top::DeadEnd => Err(ParseFault::Stuck { token: end }),
        Top::Wants(_) => Err(ParseFault::Stuck { token: end }),
    }
}

/// Reads the tokens as a term.
///
/// # Errors
///
/// `Stuck` at the first token with which no term begins, or at the number of tokens where they end too early;
/// `TooNested` where the term's tree, types included, is over 64 deep; `NoMemory` where memory ran out.
pub fn parse(alloc: Global, tokens: &[Token]) -> Result<Term, ParseFault>
    ensures term { IfOk result (IsParsed tokens.now) }
    ensures fault { IfErr result (λ fault. ExplainsParse tokens.now fault) }
{
    let reader = read(alloc, Phrase::Expression, tokens)?;
    let root = reader.term(0);
    let depth = reader.nodes.depth(root);
    if depth > DEEPEST {
        return Err(ParseFault::TooNested { depth });
    }
    let Reader { nodes, .. } = reader;
    Ok(Term::new(nodes, root))
}

/// Reads the tokens as a type, however deep it is.
///
/// # Errors
///
/// `Stuck` at the first token with which no type begins, or at the number of tokens where they end too early; `NoMemory`
/// where memory ran out.
pub fn parse_type(alloc: Global, tokens: &[Token]) -> Result<Ty, ParseFault>
    ensures is { IfOk result (IsTypeOf tokens.now) }
    ensures fault { IfErr result (λ fault. ExplainsType tokens.now fault) }
{
    let reader = read(alloc, Phrase::AnyType, tokens)?;
    let (_, root) = reader.written(0);
    let types = reader.nodes.types().copy()?;
    Ok(Ty::new(types, root))
}

/// Reads the tokens as a sensitivity: a number, a fraction or `inf`, kept in lowest terms.
///
/// # Errors
///
/// `Stuck` at the first token with which no sensitivity begins, or at the number of tokens where they end too early;
/// `NoMemory` where memory ran out.
pub fn parse_sensitivity(alloc: Global, tokens: &[Token]) -> Result<Sens, ParseFault>
    ensures is { IfOk result (λ sens. IsSensitivityOf tokens.now (distance_of sens)) }
    ensures fault { IfErr result (λ fault. ExplainsSensitivity tokens.now fault) }
{
    let reader = read(alloc, Phrase::Sensitivity, tokens)?;
    Ok(reader.factor(0))
}

/// Tokens are at most one term.
pub fn one_term()
    ensures { (ts : List Token) (e other : Term) → IsTerm ts e → IsTerm ts other → other ≡ e }
{}

/// Names, numbers, texts and bang numbers of a term are within the limits.
pub fn terms_keep_limits()
    ensures { (ts : List Token) (e : Term) → IsTerm ts e → TermLimits e }
{}

/// Tokens that are refused, other than for want of memory, are no term within the limit on nesting.
pub fn refused_is_none()
    ensures { (ts : List Token) (fault : ParseFault) (e : Term) → ExplainsParse ts fault → IsParsed ts e → fault ≡ ParseFault.NoMemory }
{}

/// Nothing but want of memory can stand in the place of the tokens' fault.
pub fn one_fault()
    ensures { (ts : List Token) (fault other : ParseFault) → ExplainsParse ts fault → ExplainsParse ts other →
        fault ≢ ParseFault.NoMemory → other ≢ ParseFault.NoMemory → other ≡ fault }
{}

/// Products are what they are usually written as, though the table keeps what begins with a number together.
pub fn products_as_written()
    ensures { (w : List Token) (s r : State) → Derives (Item.Read Phrase.Multiplication ∷ []) w s r ↔ IsProduct w s r }
{}

/// Any tokens are a term within the limit on nesting, or have a fault that is no want of memory.
pub fn every_list_of_tokens_is_parsed()
    ensures { (ts : List Token) → IsParsedOrFaulty ts }
{}

/// What a term is written as reads as the term, but for its spans.
pub fn what_is_written_reads_back()
    ensures { (e : Term) → TermLimits e → IsTerm (written e []) (bare e) }
{}

/// Tokens are at most one type.
pub fn one_type()
    ensures { (ts : List Token) (T other : Ty) → IsTypeOf ts T → IsTypeOf ts other → other ≡ T }
{}

/// Tokens are at most one sensitivity.
pub fn one_sensitivity()
    ensures { (ts : List Token) (d other : Distance) → IsSensitivityOf ts d → IsSensitivityOf ts other → other ≡ d }
{}

/// The bang numbers of a type that is read are within the limits, and so is a sensitivity.
pub fn types_keep_limits()
    ensures types { (ts : List Token) (T : Ty) → IsTypeOf ts T → TypeLimits T }
    ensures sensitivities { (ts : List Token) (d : Distance) → IsSensitivityOf ts d → IsBang d }
{}

/// Tokens are stuck in one place at most.
pub fn one_stuck_place()
    ensures types { (ts : List Token) (k other : ℕ) → IsStuckType ts k → IsStuckType ts other → other ≡ k }
    ensures sensitivities { (ts : List Token) (k other : ℕ) → IsStuckSensitivity ts k → IsStuckSensitivity ts other → other ≡ k }
{}

/// Any tokens are a type, or are stuck.
pub fn every_list_of_tokens_is_a_type()
    ensures { (ts : List Token) → IsTypeOrStuck ts }
{}

/// Any tokens are a sensitivity, or are stuck.
pub fn every_list_of_tokens_is_a_sensitivity()
    ensures { (ts : List Token) → IsSensitivityOrStuck ts }
{}

/// Tokens that are what a type is written as, wherever they stand, are that type, however deep it is.
pub fn written_types_read_back()
    ensures { (ts : List Token) (T : Ty) → TypeLimits T → kinds_of ts ≡ type_kinds T → IsTypeOf ts T }
{}

/// Tokens that are what a sensitivity is written as, wherever they stand, are that sensitivity.
pub fn written_sensitivities_read_back()
    ensures { (ts : List Token) (d : Distance) → IsBang d → kinds_of ts ≡ factor_kinds d → IsSensitivityOf ts d }
{}
