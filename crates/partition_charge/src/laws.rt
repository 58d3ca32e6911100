//! The laws of costs. Each function does nothing: its contract is the law.

ghost use Rattle.partition_charge.specs.Laws.{NeverFalls, CostsItsDearest, AddsUpWhole};

/// A charge never lowers the cost.
pub fn never_falls()
    ensures { NeverFalls }
{}

/// A partition costs the least that no part of it costs more than.
pub fn costs_its_dearest()
    ensures { CostsItsDearest }
{}

/// Where the whole view alone is charged, the cost is the sum of the amounts.
pub fn adds_up_whole()
    ensures { AddsUpWhole }
{}
