//! The typing rules, as a family with one constructor a rule and as a function with first faults.
#![tactic(auto)]

ghost use Rattle.linear_types.specs.Laws.{AcceptedExactly, AcceptedIsBounded, FaultsAreKept, NotNumExactly, OnlyNamesInScope};
ghost use Rattle.linear_types.specs.Laws.{QuotientIsLeast, QuotientSuffices, RuleIsComplete, RuleIsSound, RuleKeepsRange};
ghost use Rattle.linear_types.specs.Laws.{SpansChangeNoTyping, TypesAreUnique, TypesCanBeWritten, UnboundedExactly};

pub mod env;
pub mod places;

pub use env::{Entry, Env};
pub use places::EnvFault;

/// The function that answers a type or the first fault is the typing rules.
pub fn rule_is_typing()
    ensures sound { RuleIsSound }
    ensures complete { RuleIsComplete }
    ensures range { RuleKeepsRange }
{}

/// A term has at most one type, whatever its spans, which can be written, and the scalar of `let !x` suffices; over a finite bang it is the least that does.
pub fn types_are_unique()
    ensures unique { TypesAreUnique }
    ensures spans { SpansChangeNoTyping }
    ensures written { TypesCanBeWritten }
    ensures quotient { QuotientSuffices }
    ensures least { QuotientIsLeast }
{}

/// An accepted program is a number by the rules, and its sensitivity is finite and the greatest over the tables.
pub fn accepted_is_bounded()
    ensures scope { OnlyNamesInScope }
    ensures accepted { AcceptedIsBounded }
{}

/// Which program is accepted, which is unbounded in which table, and which is no number: each exactly there.
pub fn answers_are_exact()
    ensures accepted { AcceptedExactly }
    ensures unbounded { UnboundedExactly }
    ensures not_num { NotNumExactly }
    ensures faults { FaultsAreKept }
{}
