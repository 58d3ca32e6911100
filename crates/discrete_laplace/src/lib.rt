//! Discrete Laplace noise, exactly, from uniform draws.
//!
//! The sampler is that of "The Discrete Gaussian for Differential Privacy" by Canonne, Kamath and Steinke. It computes
//! with whole numbers alone, and takes no memory.
#![tactic(auto)]

ghost use Rattle.std.specs.Prelude.{◌≡◌, ◌<◌, ◌≤◌, ◌^◌, ℕ, ℤ, List, Some, OnOk, OnErr, IfOk, IfSome, unsigned_abs};
ghost use Rattle.std.specs.Result.{result_ok};
ghost use Rattle.fz_outside.specs.Draws.{first_draws, HasDrawn};
ghost use Rattle.exact_bernoulli.specs.Meter.{draw_limit, allowed, Took, Takes};
ghost use Rattle.discrete_laplace.specs.DiscreteLaplace.{signed_size, IsGeometric, IsAttempt, IsSample, IsNoise};
ghost use Rattle.discrete_laplace.specs.Noise.{noise_of, draws_taken};

pub use exact_bernoulli::Exhausted;
use exact_bernoulli::{Meter, bernoulli, bernoulli_exp, uniform};
use fz_outside::words::Words;

/// How many ones of probability `exp(-1)` come before the first zero.
fn geometric<W: Words>(meter: &mut Meter<W>) -> Result<u64, Exhausted>
    ensures few { IfOk result (λ ones. ones ≤ 4096) }
    ensures same_words { meter.new.words.ghost_name ≡ meter.old.words.ghost_name }
    ensures took { Took W.draws W.place meter.old.left meter.old.words.now
        meter.new.left meter.new.words.now }
    ensures fewer { OnOk result (meter.new.left < meter.old.left) }
    ensures segment { Takes IsGeometric result (allowed W.draws meter.old.left meter.old.words.now)
        (allowed W.draws meter.new.left meter.new.words.now) }
{
    let mut ones: u64 = 0;
    while bernoulli_exp(1, 1, meter)? {
        ones += 1;
    }
    Ok(ones)
}

/// A size with its sign, or `None` for minus zero: zero would come twice as often otherwise.
fn signed(negative: bool, size: u64) -> Option<i64>
    requires { size < 2 ^ 63 }
    ensures value { result ≡ signed_size negative size }
    ensures size { IfSome result (λ noise. unsigned_abs noise ≡ size) }
{
    match (negative, size) {
        (true, 0) => None,
        (true, _) => Some(-(size as i64)),
        (false, _) => Some(size as i64),
    }
}

/// A number, or `None` where the attempt is rejected.
fn attempt<W: Words>(t: u32, s: u32, meter: &mut Meter<W>) -> Result<Option<i64>, Exhausted>
    requires some { 0 < t }
    requires most { t ≤ 1000000 }
    requires divisor { 0 < s }
    ensures same_words { meter.new.words.ghost_name ≡ meter.old.words.ghost_name }
    ensures took { Took W.draws W.place meter.old.left meter.old.words.now
        meter.new.left meter.new.words.now }
    ensures fewer { OnOk result (meter.new.left < meter.old.left) }
    ensures small { IfOk result (λ outcome. IfSome outcome (λ noise. unsigned_abs noise < 2 ^ 33)) }
    ensures segment { Takes (IsAttempt t s) result (allowed W.draws meter.old.left meter.old.words.now)
        (allowed W.draws meter.new.left meter.new.words.now) }
{
    let u = uniform(t as u64, meter)?;
    if !bernoulli_exp(u as u32, t, meter)? {
        return Ok(None);
    }
    let v = geometric(meter)?;
    let negative = bernoulli(1, 2, meter)?;
    Ok(signed(negative, (u + t as u64 * v) / s as u64))
}

/// Attempts up to the first that gives a number.
fn accepted<W: Words>(t: u32, s: u32, meter: &mut Meter<W>) -> Result<i64, Exhausted>
    requires some { 0 < t }
    requires most { t ≤ 1000000 }
    requires divisor { 0 < s }
    ensures same_words { meter.new.words.ghost_name ≡ meter.old.words.ghost_name }
    ensures took { Took W.draws W.place meter.old.left meter.old.words.now
        meter.new.left meter.new.words.now }
    ensures fewer { OnOk result (meter.new.left < meter.old.left) }
    ensures small { IfOk result (λ noise. unsigned_abs noise < 2 ^ 33) }
    ensures segment { Takes (IsSample t s) result (allowed W.draws meter.old.left meter.old.words.now)
        (allowed W.draws meter.new.left meter.new.words.now) }
{
    loop {
        if let Some(noise) = attempt(t, s, meter)? {
            return Ok(noise);
        }
    }
}

/// Discrete Laplace noise of scale `t / s`, from at most 4,096 draws. `Exhausted` comes exactly where these don't suffice,
/// and then all of them were taken.
pub fn sample<W: Words>(t: u32, s: u32, words: &mut W) -> Result<i64, Exhausted>
    requires some { 0 < t }
    requires most { t ≤ 1000000 }
    requires divisor { 0 < s }
    ensures noise { result_ok result ≡ noise_of t s (first_draws draw_limit (W.draws words.old)) }
    ensures taken { HasDrawn W.draws W.place
        (draws_taken t s (first_draws draw_limit (W.draws words.old))) words.old words.new }
    // the same by the segments of the draws
    ensures segments { IfOk result (λ noise. IsNoise t s (first_draws draw_limit (W.draws words.old)) noise
        (draws_taken t s (first_draws draw_limit (W.draws words.old)))) }
    ensures none { OnErr result ((noise : ℤ) (taken : ℕ) →
        ¬ IsNoise t s (first_draws draw_limit (W.draws words.old)) noise taken) }
    ensures all { OnErr result (draws_taken t s (first_draws draw_limit (W.draws words.old)) ≡ draw_limit) }
    ensures within { draws_taken t s (first_draws draw_limit (W.draws words.old)) ≤ draw_limit }
    // so a caller may add it to a value
    ensures small { IfOk result (λ noise. unsigned_abs noise < 2 ^ 33) }
{
    accepted(t, s, &mut Meter::new(words))
}

/// The noise that is computed from a list of draws is the one that its segments give, and a list gives one at most. (It is
/// proved for every list, and there is nothing to do.)
pub fn noise_is_that_of_its_segments()
    ensures found { (t s : ℕ) (draws : List ℕ) (noise : ℤ) →
        noise_of t s draws ≡ Some noise → IsNoise t s draws noise (draws_taken t s draws) }
    ensures complete { (t s : ℕ) (draws : List ℕ) (noise : ℤ) (taken : ℕ) →
        IsNoise t s draws noise taken → (noise_of t s draws ≡ Some noise) × (draws_taken t s draws ≡ taken) }
    ensures only_one { (t s : ℕ) (draws : List ℕ) (noise other : ℤ) (taken others : ℕ) →
        IsNoise t s draws noise taken → IsNoise t s draws other others → (noise ≡ other) × (taken ≡ others) }
{}
