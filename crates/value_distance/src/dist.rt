//! Distances of 63 bits, and what is answered where there is none.
ghost use Rattle.std.specs.Prelude.{◌≡◌, ◌<◌, ◌↔◌, IfSome, IsNone, IsTrue};
ghost use Rattle.fz_frac.specs.Distance.{Fin, Inf, add, greater, mul};
ghost use Rattle.fz_frac.specs.Lowest.{lowest};
ghost use Rattle.fz_frac.specs.Sens.{distance_of};
ghost use Rattle.value_distance.specs.Answers.{answered};
ghost use Rattle.value_distance.specs.Widths.{is_too_wide};

use crate::ratio::Ratio;
use fz_ast::NoMemory;
use fz_frac::Sens;

/// How far two values are apart.
#[derive(Clone, Copy, PartialEq, Eq)]
pub enum Dist {
    Finite(Ratio),
    Inf,
}

/// Why there is no distance.
#[derive(Clone, Copy, Debug, PartialEq, Eq)]
pub enum DistFault {
    /// In lowest terms some part's distance has a numerator or denominator over `2^63 - 1`.
    Range,
    NoMemory,
}

impl From<NoMemory> for DistFault {
    ghost use Rattle.value_distance.specs.declared.dist.DistFault.TheVariants.{NoMemory as OutOfMemory};

    ghost from_gives = { λ _ e. e ≡ OutOfMemory };

    fn from(_: NoMemory) -> DistFault {
        DistFault::NoMemory
    }
}

fn finite(p: u128, q: u128) -> Option<Dist>
    requires { 0 < q }
    ensures exact { IfSome result (λ d. answered d ≡ lowest (Fin p q)) }
    ensures range { IsNone result ↔ IsTrue (is_too_wide (Fin p q)) }
{
    match Ratio::new(p, q) {
        Some(ratio) => Some(Dist::Finite(ratio)),
        None => None,
    }
}

impl Dist {
    /// A whole number; `None` where it is wide.
    pub fn whole(n: u64) -> Option<Dist>
        ensures exact { IfSome result (λ d. answered d ≡ lowest (Fin n 1)) }
        ensures range { IsNone result ↔ IsTrue (is_too_wide (Fin n 1)) }
    {
        finite(n as u128, 1)
    }

    /// The exact sum; `None` where it is wide.
    pub fn add(self, other: Dist) -> Option<Dist>
        ensures exact { IfSome result (λ d. answered d ≡ lowest (add (answered self) (answered other))) }
        ensures range { IsNone result ↔ IsTrue (is_too_wide (add (answered self) (answered other))) }
    {
        match (self, other) {
            (Dist::Finite(a), Dist::Finite(b)) => {
                let (p, q) = (a.p as u128, a.q as u128);
                let (r, s) = (b.p as u128, b.q as u128);
                finite(p * s + r * q, q * s)
            }
            _ => Some(Dist::Inf),
        }
    }

    /// The exact product with a bang number, which is above 0; `None` where it is wide.
    pub fn times(self, r: Sens) -> Option<Dist>
        ensures exact { IfSome result (λ d. answered d ≡ lowest (mul (distance_of r) (answered self))) }
        ensures range { IsNone result ↔ IsTrue (is_too_wide (mul (distance_of r) (answered self))) }
    {
        match (r, self) {
            (Sens::Finite(f), Dist::Finite(a)) => {
                finite(f.p as u128 * a.p as u128, f.q as u128 * a.q as u128)
            }
            (Sens::Finite(f), Dist::Inf) if f.p == 0 => Dist::whole(0),
            (Sens::Inf, Dist::Finite(a)) if a.p == 0 => Dist::whole(0),
            _ => Some(Dist::Inf),
        }
    }

    /// The greater of the two.
    pub fn max(self, other: Dist) -> Dist
        ensures { answered result ≡ greater (answered self) (answered other) }
    {
        match (self, other) {
            (Dist::Finite(a), Dist::Finite(b)) => {
                if a.p as u128 * b.q as u128 <= b.p as u128 * a.q as u128 {
                    other
                } else {
                    self
                }
            }
            _ => Dist::Inf,
        }
    }
}
