//! Bags made of others. Their elements are made where they are walked.
ghost use Rattle.std.specs.Prelude.{◌≡◌, ◌≤◌, ◌∷◌, [], IfOk, Some, false, suc, true};
ghost use Rattle.metric_values.specs.Values.{BagV, PairV};
ghost use Rattle.run_values.specs.Parts.{IsBag, elements};
ghost use Rattle.flow_values.specs.Depths.{stage_deep};
ghost use Rattle.flow_values.specs.Steps.{AllGo, all_through};

use flow_values::Value;
use fz_ast::NoMemory;
use std::alloc::Global;

/// What a function gives for each element, or the elements of which it says a truth. Where there is no element, `c` need not be a function.
pub fn staged(
    alloc: Global,
    c: &Value,
    b: &Value,
    left: u32,
    keeps: Option<bool>,
) -> Result<Value, NoMemory>
    requires bag { IsBag b.now.means }
    requires goes { AllGo (record { function = c.now.means; left = left; keeps = keeps } ∷ []) (elements b.now.means) }
    ensures means { IfOk result
        (λ v. v.means ≡ BagV (all_through (record { function = c.now.means; left = left; keeps = keeps } ∷ []) (elements b.now.means))) }
    ensures deep { IfOk result (λ v. v.deep ≤ suc (stage_deep c.now.deep b.now.deep left)) }
{
    if !c.is_function() {
        return Value::no_elements(alloc);
    }
    b.staged(alloc, c, left, keeps)
}

/// The elements of which a function says true, and the others.
pub fn split(alloc: Global, c: &Value, b: &Value, left: u32) -> Result<Value, NoMemory>
    requires bag { IsBag b.now.means }
    requires kept { AllGo (record { function = c.now.means; left = left; keeps = Some true } ∷ []) (elements b.now.means) }
    requires others { AllGo (record { function = c.now.means; left = left; keeps = Some false } ∷ []) (elements b.now.means) }
    ensures means { IfOk result (λ v. v.means ≡ PairV
        (BagV (all_through (record { function = c.now.means; left = left; keeps = Some true } ∷ []) (elements b.now.means)))
        (BagV (all_through (record { function = c.now.means; left = left; keeps = Some false } ∷ []) (elements b.now.means)))) }
    ensures deep { IfOk result (λ v. v.deep ≤ suc (suc (stage_deep c.now.deep b.now.deep left))) }
{
    let kept = staged(alloc, c, b, left, Some(true))?;
    let others = staged(alloc, c, b, left, Some(false))?;
    Value::pair(alloc, kept, others)
}
