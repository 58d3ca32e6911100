//! Sensitivities by place, the innermost name first.
ghost use Rattle.std.specs.Prelude.{◌≡◌, ◌<◌, ◌⊎◌, ◌+◌, ◌++◌, [], ◌∷◌, length, drop, replicate, MatchResult};
ghost use Rattle.fz_frac.specs.Distance.{none, one};
ghost use Rattle.fz_frac.specs.Sens.{distance_of};
ghost use Rattle.linear_types.specs.Sensitivities.{first, rest, plus, join, scale};
ghost use Rattle.linear_types.specs.Places.{distances, IsGiven, IsCause, IsNext};
ghost use Rattle.linear_types.specs.declared.places.EnvFault.TheVariants.{NoMemory};

use fz_frac::{Range, Sens};
use std::alloc::{AllocError, AllocFailed, Global};

/// Why sensitivities aren't given.
#[derive(Clone, Copy, Debug, PartialEq, Eq)]
pub enum EnvFault {
    /// One of them doesn't fit a fraction of 32 bits.
    Range,
    NoMemory,
}

impl From<Range> for EnvFault {
    ghost use Rattle.std.specs.Prelude.{◌≡◌};
    ghost use Rattle.linear_types.specs.declared.places.EnvFault.TheVariants.{Range as OutOfRange};

    ghost from_gives = { λ _ fault. fault ≡ OutOfRange };

    fn from(_: Range) -> EnvFault {
        EnvFault::Range
    }
}

impl From<AllocError> for EnvFault {
    ghost use Rattle.std.specs.Prelude.{◌≡◌};
    ghost use Rattle.linear_types.specs.declared.places.EnvFault.TheVariants.{NoMemory};

    ghost from_gives = { λ _ fault. fault ≡ NoMemory };

    fn from(_: AllocError) -> EnvFault {
        EnvFault::NoMemory
    }
}

impl From<AllocFailed<Sens>> for EnvFault {
    ghost use Rattle.std.specs.Prelude.{◌≡◌};
    ghost use Rattle.linear_types.specs.declared.places.EnvFault.TheVariants.{NoMemory};

    ghost from_gives = { λ _ fault. fault ≡ NoMemory };

    fn from(_: AllocFailed<Sens>) -> EnvFault {
        EnvFault::NoMemory
    }
}

/// The innermost name's sensitivity, and 0 past the end.
pub fn first_of(amounts: &[Sens]) -> Sens
    ensures { distance_of result ≡ first (distances amounts.now) }
{
    match amounts {
        [] => Sens::whole(0),
        [amount, ..] => *amount,
    }
}

/// The sensitivities without the innermost name's.
pub fn rest_of(amounts: &[Sens]) -> &[Sens]
    ensures { distances result.now ≡ rest (distances amounts.now) }
{
    match amounts {
        [] => amounts,
        [_, others @ ..] => others,
    }
}

/// Each of the sensitivities times `r`, or `Range` exactly where a product is out of range.
pub fn scaled(alloc: Global, r: Sens, amounts: &[Sens]) -> Result<Vec<Sens>, EnvFault>
    ensures { MatchResult result (λ v. IsGiven v.items (scale (distance_of r) (distances amounts.now)))
        (λ f. IsCause f (scale (distance_of r) (distances amounts.now))) }
{
    let mut products = Vec::new(alloc);
    for amount in amounts {
        products.push(r.mul(*amount)?)?;
    }
    Ok(products)
}

fn sum_at(a: &[Sens], b: &[Sens], i: usize) -> Result<Sens, Range>
    requires { (i < length a.now) ⊎ (i < length b.now) }
    ensures { IsNext result (plus (distances (drop i a.now)) (distances (drop i b.now)))
        (plus (distances (drop (i + 1) a.now)) (distances (drop (i + 1) b.now))) }
{
    if i >= a.len() {
        Ok(b[i])
    } else if i >= b.len() {
        Ok(a[i])
    } else {
        a[i].add(b[i])
    }
}

/// The sums place by place, or `Range` exactly where one is out of range.
pub fn sum(alloc: Global, a: &[Sens], b: &[Sens]) -> Result<Vec<Sens>, EnvFault>
    ensures { MatchResult result (λ v. IsGiven v.items (plus (distances a.now) (distances b.now))) (λ f. IsCause f (plus (distances a.now) (distances b.now))) }
{
    let mut sums = Vec::new(alloc);
    for i in 0..a.len().max(b.len()) {
        sums.push(sum_at(a, b, i)?)?;
    }
    Ok(sums)
}

fn greater_at(a: &[Sens], b: &[Sens], i: usize) -> Sens
    requires { (i < length a.now) ⊎ (i < length b.now) }
    ensures { join (distances (drop i a.now)) (distances (drop i b.now)) ≡ distance_of result ∷
        join (distances (drop (i + 1) a.now)) (distances (drop (i + 1) b.now)) }
{
    if i >= a.len() {
        b[i]
    } else if i >= b.len() {
        a[i]
    } else {
        a[i].max(b[i])
    }
}

/// The greater of the two at each place.
pub fn joined(alloc: Global, a: &[Sens], b: &[Sens]) -> Result<Vec<Sens>, EnvFault>
    ensures { MatchResult result (λ v. IsGiven v.items (join (distances a.now) (distances b.now))) (λ f. f ≡ NoMemory) }
{
    let mut greatest = Vec::new(alloc);
    for i in 0..b.len().max(a.len()) {
        greatest.push(greater_at(a, b, i))?;
    }
    Ok(greatest)
}

/// The same sensitivities in memory of their own.
pub fn copied(alloc: Global, a: &[Sens]) -> Result<Vec<Sens>, EnvFault>
    ensures { MatchResult result (λ v. v.items ≡ a.now) (λ f. f ≡ NoMemory) }
{
    let mut copy = Vec::new(alloc);
    for amount in a {
        copy.push(*amount)?;
    }
    Ok(copy)
}

/// The sensitivities of a name that stands under `n` others: 0 for each of those, and then 1.
pub fn used_at(alloc: Global, n: usize) -> Result<Vec<Sens>, EnvFault>
    ensures { MatchResult result (λ v. distances v.items ≡ replicate n none ++ one ∷ []) (λ f. f ≡ NoMemory) }
{
    let mut amounts = Vec::new(alloc);
    for _ in 0..n {
        amounts.push(Sens::whole(0))?;
    }
    amounts.push(Sens::whole(1))?;
    Ok(amounts)
}
