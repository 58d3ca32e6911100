//! Words and signs whose parts have values, but for those that give elements to a function.
ghost use Rattle.std.specs.Prelude.{◌≡◌, ◌≤◌, bytes_eq, max, suc, IfOk};
ghost use Rattle.fz_ast.specs.Names.{text_of};
ghost use Rattle.metric_law.specs.Means.{MeansIn};
ghost use Rattle.metric_values.specs.Numbers.{clamp};
ghost use Rattle.metric_values.specs.Distances.{same_number};
ghost use Rattle.metric_values.specs.Values.{NumV};
ghost use Rattle.std.specs.Prelude.{◌+ℤ◌, ◌-ℤ◌};
ghost use Rattle.run_values.specs.Parts.{IsNum, IsTextValue, number_in, text_in};
ghost use Rattle.fuzz_eval.specs.Steps.{AppliesNoFunction, AreComparable, Can1, Can2, CanRanged, CanTimes};
ghost use Rattle.fuzz_eval.specs.Steps.{Gives1, Gives2, GivesRanged, GivesTimes, WalksNot, injected};
ghost use Rattle.fz_ast.specs.declared.term.Ranged.TheVariants.{Clip};

use crate::numbers::{minus, plus, times};
use bag_ops::clipped;
use flow_values::{Plain, Value};
use fz_ast::{Binary, NoMemory, Side, Text, Unary};
use std::alloc::Global;

/// What a word with one part gives, but for `size`, which walks a bag.
pub fn unary(form: Unary, u: &Value) -> Result<Value, NoMemory>
    requires walks { WalksNot form }
    requires can { Can1 form u.now.means }
    ensures gives { IfOk result (λ v. Gives1 form u.now.means v.means) }
    ensures deep { IfOk result (λ v. v.deep ≤ u.now.deep) }
{
    match form {
        Unary::Fst => u.first(),
        Unary::Snd => u.second(),
        Unary::Least => Ok(Value::num(u.first()?.number().min(u.second()?.number()))),
        Unary::Greatest => Ok(Value::num(u.first()?.number().max(u.second()?.number()))),
        Unary::Size => unreachable!(),
    }
}

pub fn scale(k: i64, u: &Value) -> Value
    requires { CanTimes k u.now.means }
    ensures gives { GivesTimes k u.now.means result.means }
    ensures deep { result.deep ≡ 0 }
{
    Value::num(times(k, u.number()))
}

pub fn inject(alloc: Global, side: Side, u: Value) -> Result<Value, NoMemory>
    ensures means { IfOk result (λ v. v.means ≡ injected side u.means) }
    ensures deep { IfOk result (λ v. v.deep ≡ suc u.deep) }
{
    match side {
        Side::Inl => Value::inl(alloc, u),
        Side::Inr => Value::inr(alloc, u),
    }
}

fn add(u: &Value, w: &Value) -> Value
    requires u_num { IsNum u.now.means }
    requires w_num { IsNum w.now.means }
    ensures means { result.means ≡ NumV (clamp (number_in u.now.means +ℤ number_in w.now.means)) }
    ensures deep { result.deep ≡ 0 }
{
    Value::num(plus(u.number(), w.number()))
}

fn subtract(u: &Value, w: &Value) -> Value
    requires u_num { IsNum u.now.means }
    requires w_num { IsNum w.now.means }
    ensures means { result.means ≡ NumV (clamp (number_in u.now.means -ℤ number_in w.now.means)) }
    ensures deep { result.deep ≡ 0 }
{
    Value::num(minus(u.number(), w.number()))
}

/// Whether two numbers, or two texts, are the same.
pub fn equal(u: &Value, w: &Value) -> bool
    requires { AreComparable u.now.means w.now.means }
    ensures numbers { IsNum u.now.means → result ≡ same_number (number_in u.now.means) (number_in w.now.means) }
    ensures texts { IsTextValue u.now.means → result ≡ bytes_eq (text_in u.now.means) (text_in w.now.means) }
{
    match (u.as_number(), w.as_number()) {
        (Some(y), Some(z)) => y == z,
        _ => u.same_text(w),
    }
}

/// Whether a text is the one that is quoted.
pub fn is_text(u: &Value, quoted: &Text) -> bool
    requires { IsTextValue u.now.means }
    ensures { result ≡ bytes_eq (text_in u.now.means) (text_of quoted.now) }
{
    match u.plain() {
        Plain::Text(bytes) => bytes == quoted.as_bytes(),
        _ => unreachable!(),
    }
}

/// What a word or sign with two parts gives, but for those that apply a function.
pub fn plain(alloc: Global, form: Binary, u: Value, w: Value, left: u32) -> Result<Value, NoMemory>
    requires plain { AppliesNoFunction form }
    requires can { Can2 left form u.means w.means }
    ensures gives { IfOk result (λ v. Gives2 (MeansIn left) form u.means w.means v.means) }
    ensures deep { IfOk result (λ v. v.deep ≤ suc (max u.deep w.deep)) }
{
    match form {
        Binary::Pair => Value::pair(alloc, u, w),
        Binary::With => Value::pair(alloc, u, w),
        Binary::Plus => Ok(add(&u, &w)),
        Binary::Minus => Ok(subtract(&u, &w)),
        Binary::AtMost => Ok(Value::truth(u.number() <= w.number())),
        Binary::Equal => Ok(Value::truth(equal(&u, &w))),
        Binary::Union => u.union(alloc, &w),
        _ => unreachable!(),
    }
}

/// A number within bounds.
pub fn clip(lo: i64, hi: i64, u: &Value) -> Value
    requires { CanRanged Clip lo hi u.now.means }
    ensures gives { GivesRanged Clip lo hi u.now.means result.means }
    ensures deep { result.deep ≡ 0 }
{
    Value::num(clipped(lo, hi, u.number()))
}
