//! Uniform and Bernoulli numbers from at most 4,096 draws, with whole numbers alone and no memory.
//!
//! The algorithms are those of "The Discrete Gaussian for Differential Privacy" by Canonne, Kamath and Steinke.
#![tactic(auto)]

ghost use Rattle.std.specs.Prelude.{◌≡◌, ◌<◌, ◌≤◌, ◌*◌, [], ◌∷◌, OnOk, OnErr, IfOk, MatchResult};
ghost use Rattle.fz_outside.specs.Draws.{HasDrawn};
ghost use Rattle.exact_bernoulli.specs.ExactBernoulli.{IsUniform, IsBernoulli, IsBernoulliExp};
ghost use Rattle.exact_bernoulli.specs.Meter.{draw_limit, allowed, Took, Takes};

use fz_outside::words::Words;

/// How many draws a meter allows.
const DRAW_LIMIT: u16 = 4096;

/// A draw was needed, and as many as are allowed were taken.
#[derive(Clone, Copy, Debug, PartialEq, Eq)]
pub struct Exhausted;

/// Words of which only so many draws more may be taken.
#[derive(Drop)]
pub struct Meter<'a, W> {
    pub words: &'a mut W,
    pub left: u16,
    ghost limited: { left ≤ 4096 },
}

impl<'a, W: Words> Meter<'a, W> {
    /// Allows 4,096 draws.
    pub fn new(words: &'a mut W) -> Self
        ensures same_words { result.words.ghost_name ≡ words.entry.ghost_name }
        ensures left { result.left ≡ draw_limit }
        ensures words { result.words.now ≡ words.old }
    {
        Meter {
            words,
            left: DRAW_LIMIT,
        }
    }

    /// The next draw, or `Exhausted` where none is allowed any more.
    fn draw(&mut self) -> Result<u64, Exhausted>
        ensures same_words { self.new.words.ghost_name ≡ self.old.words.ghost_name }
        ensures took { Took W.draws W.place self.old.left self.old.words.now
            self.new.left self.new.words.now }
        ensures fewer { OnOk result (self.new.left < self.old.left) }
        ensures front { MatchResult result
            (λ w. allowed W.draws self.old.left self.old.words.now ≡ w ∷ allowed W.draws self.new.left self.new.words.now)
            (λ _. allowed W.draws self.old.left self.old.words.now ≡ []) }
        ensures over { OnErr result (allowed W.draws self.new.left self.new.words.now ≡ []) }
    {
        if self.left == 0 {
            return Err(Exhausted);
        }
        self.left -= 1;
        Ok(self.words.draw())
    }
}

/// A number below `m`, each as likely as the others: draws from the last, incomplete round of remainders are rejected.
pub fn uniform<W: Words>(m: u64, meter: &mut Meter<W>) -> Result<u64, Exhausted>
    requires { 0 < m }
    ensures below { IfOk result (λ number. number < m) }
    ensures same_words { meter.new.words.ghost_name ≡ meter.old.words.ghost_name }
    ensures took { Took W.draws W.place meter.old.left meter.old.words.now
        meter.new.left meter.new.words.now }
    ensures fewer { OnOk result (meter.new.left < meter.old.left) }
    ensures segment { Takes (IsUniform m) result (allowed W.draws meter.old.left meter.old.words.now)
        (allowed W.draws meter.new.left meter.new.words.now) }
{
    let incomplete = (u64::MAX % m + 1) % m;
    let last_kept = u64::MAX - incomplete;
    loop {
        let draw = meter.draw()?;
        if draw <= last_kept {
            return Ok(draw % m);
        }
    }
}

/// True with probability `n / d`.
pub fn bernoulli<W: Words>(n: u64, d: u64, meter: &mut Meter<W>) -> Result<bool, Exhausted>
    requires some { 0 < d }
    requires fraction { n ≤ d }
    ensures same_words { meter.new.words.ghost_name ≡ meter.old.words.ghost_name }
    ensures took { Took W.draws W.place meter.old.left meter.old.words.now
        meter.new.left meter.new.words.now }
    ensures fewer { OnOk result (meter.new.left < meter.old.left) }
    ensures segment { Takes (IsBernoulli n d) result (allowed W.draws meter.old.left meter.old.words.now)
        (allowed W.draws meter.new.left meter.new.words.now) }
{
    Ok(uniform(d, meter)? < n)
}

/// True with probability `exp(-u / t)`: trials of `u / (t * 1)`, `u / (t * 2)` and so on up to the first that fails. It is
/// true where their number is odd.
pub fn bernoulli_exp<W: Words>(u: u32, t: u32, meter: &mut Meter<W>) -> Result<bool, Exhausted>
    requires some { 0 < t }
    requires most { t ≤ 1000000 }
    requires fraction { u ≤ t }
    ensures same_words { meter.new.words.ghost_name ≡ meter.old.words.ghost_name }
    ensures took { Took W.draws W.place meter.old.left meter.old.words.now
        meter.new.left meter.new.words.now }
    ensures fewer { OnOk result (meter.new.left < meter.old.left) }
    ensures segment { Takes (IsBernoulliExp u t) result (allowed W.draws meter.old.left meter.old.words.now)
        (allowed W.draws meter.new.left meter.new.words.now) }
{
    let mut trials: u64 = 1;
    while bernoulli(u as u64, t as u64 * trials, meter)? {
        trials += 1;
    }
    Ok(trials % 2 == 1)
}
