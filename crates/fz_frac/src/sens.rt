//! Sensitivities: a fraction, or infinity.
ghost use Rattle.std.specs.Prelude.{◌≡◌, ◌↔◌, IsTrue, IsErr, IfOk};
ghost use Rattle.fz_frac.specs.Distance.{Fin, ◌≈◌, is_le, add, mul, endless, quotient, greater, ceil_times};
ghost use Rattle.fz_frac.specs.Lowest.{is_out};
ghost use Rattle.fz_frac.specs.Sens.{distance_of, IsDivisor};

use crate::frac::{Frac, Range, reduce};

#[derive(Clone, Copy, Debug, PartialEq, Eq, Hash)]
pub enum Sens {
    Finite(Frac),
    Inf,
}

// Infinity times a whole number.
fn endless_times(n: u32) -> Sens
    ensures { distance_of result ≡ endless n }
{
    if n == 0 { Sens::whole(0) } else { Sens::Inf }
}

impl Sens {
    /// A whole number.
    pub fn whole(n: u32) -> Sens
        ensures { distance_of result ≡ Fin n 1 }
    {
        Sens::Finite(Frac { p: n, q: 1 })
    }

    /// The exact sum, or `Range`.
    pub fn add(self, other: Sens) -> Result<Sens, Range>
        ensures exact { IfOk result (λ s. distance_of s ≈ add (distance_of self) (distance_of other)) }
        ensures range { IsErr result ↔ IsTrue (is_out (add (distance_of self) (distance_of other))) }
    {
        match (self, other) {
            (Sens::Finite(a), Sens::Finite(b)) => {
                let (p, q) = (a.p as u128, a.q as u128);
                let (r, s) = (b.p as u128, b.q as u128);
                Ok(Sens::Finite(reduce(p * s + r * q, q * s)?))
            }
            _ => Ok(Sens::Inf),
        }
    }

    /// The exact product, or `Range`. Infinity times 0 is 0.
    pub fn mul(self, other: Sens) -> Result<Sens, Range>
        ensures exact { IfOk result (λ s. distance_of s ≈ mul (distance_of self) (distance_of other)) }
        ensures range { IsErr result ↔ IsTrue (is_out (mul (distance_of self) (distance_of other))) }
    {
        match (self, other) {
            (Sens::Finite(a), Sens::Finite(b)) => {
                let p = a.p as u128 * b.p as u128;
                let q = a.q as u128 * b.q as u128;
                Ok(Sens::Finite(reduce(p, q)?))
            }
            (Sens::Finite(a), Sens::Inf) => Ok(endless_times(a.p)),
            (Sens::Inf, Sens::Finite(b)) => Ok(endless_times(b.p)),
            (Sens::Inf, Sens::Inf) => Ok(Sens::Inf),
        }
    }

    /// The exact quotient, or `Range`. The divisor is finite and above 0.
    pub fn div(self, other: Sens) -> Result<Sens, Range>
        requires { IsDivisor other }
        ensures exact { IfOk result (λ s. distance_of s ≈ quotient (distance_of self) (distance_of other)) }
        ensures range { IsErr result ↔ IsTrue (is_out (quotient (distance_of self) (distance_of other))) }
    {
        match (self, other) {
            (Sens::Finite(a), Sens::Finite(b)) => {
                let p = a.p as u128 * b.q as u128;
                let q = a.q as u128 * b.p as u128;
                Ok(Sens::Finite(reduce(p, q)?))
            }
            _ => Ok(Sens::Inf),
        }
    }

    /// Whether `self` is at most `other`.
    pub fn le(self, other: Sens) -> bool
        ensures { result ≡ is_le (distance_of self) (distance_of other) }
    {
        match (self, other) {
            (Sens::Finite(a), Sens::Finite(b)) => a.p as u64 * b.q as u64
                <= b.p as u64 * a.q as u64,
            (_, Sens::Inf) => true,
            (Sens::Inf, Sens::Finite(_)) => false,
        }
    }

    /// The greater of the two.
    pub fn max(self, other: Sens) -> Sens
        ensures { distance_of result ≡ greater (distance_of self) (distance_of other) }
    {
        if self.le(other) { other } else { self }
    }

    /// `self` times `e`, rounded up; `None` exactly for infinity.
    pub fn ceil_times(self, e: u32) -> Option<u64>
        ensures { result ≡ ceil_times (distance_of self) e }
    {
        match self {
            Sens::Finite(a) => Some((a.p as u64 * e as u64 + (a.q as u64 - 1)) / a.q as u64),
            Sens::Inf => None,
        }
    }
}
