//! Elements put at the end of a list.
ghost use Rattle.std.specs.Prelude.{◌≡◌, ◌++◌, ◌∷◌, [], OnOk};
ghost use Rattle.bag_ops.specs.Bags.{picked, others};

use fz_ast::NoMemory;
use run_values::Value;

/// Adds a value at the end.
pub fn put(out: &mut Vec<Value>, x: Value) -> Result<(), NoMemory>
    ensures { OnOk result (out.new.items ≡ out.old.items ++ x ∷ []) }
{
    match out.push(x) {
        Ok(()) => Ok(()),
        Err(_) => Err(NoMemory),
    }
}

/// Adds a value at the end where it is kept.
pub fn put_kept(out: &mut Vec<Value>, keep: bool, x: Value) -> Result<(), NoMemory>
    ensures { OnOk result (out.new.items ≡ out.old.items ++ picked (x ∷ []) (keep ∷ [])) }
{
    if keep {
        return put(out, x);
    }
    Ok(())
}

/// Adds a value at the end of one of two lists.
pub fn put_either(
    yes: &mut Vec<Value>,
    no: &mut Vec<Value>,
    keep: bool,
    x: Value,
) -> Result<(), NoMemory>
    ensures kept { OnOk result (yes.new.items ≡ yes.old.items ++ picked (x ∷ []) (keep ∷ [])) }
    ensures others { OnOk result (no.new.items ≡ no.old.items ++ others (x ∷ []) (keep ∷ [])) }
{
    if keep {
        return put(yes, x);
    }
    put(no, x)
}
