//! Fractions of 32 bits in lowest terms.
ghost use Rattle.std.specs.Prelude.{◌≡◌, ◌<◌, ◌≤◌, ◌↔◌, IsTrue, IsErr, IfOk};
ghost use Rattle.std.specs.Int.{IsGcd};
ghost use Rattle.fz_frac.specs.Distance.{Fin, ◌≈◌};
ghost use Rattle.fz_frac.specs.Lowest.{gcd, widest, is_out};

/// The exact answer doesn't fit a fraction of 32 bits.
#[derive(Clone, Copy, Debug, PartialEq, Eq)]
pub struct Range;

/// The fraction `p/q` in lowest terms; zero is 0/1.
#[derive(Clone, Copy, Debug, PartialEq, Eq, Hash)]
pub struct Frac {
    pub p: u32,
    pub q: u32,
    pub ghost above_zero: { 0 < q },
    pub ghost lowest: { gcd p q ≡ 1 },
    pub ghost narrow: { (p ≤ widest) × (q ≤ widest) },
}

impl Frac {
    /// `p/q` in lowest terms, or `Range` where its numerator or denominator is over `2^32 - 1`.
    pub fn new(p: u64, q: u64) -> Result<Frac, Range>
        requires { 0 < q }
        ensures exact { IfOk result (λ f. Fin f.p f.q ≈ Fin p q) }
        ensures range { IsErr result ↔ IsTrue (is_out (Fin p q)) }
    {
        reduce(p as u128, q as u128)
    }
}

// Euclid's algorithm.
fn common_divisor(a: u128, b: u128) -> u128
    ensures { IsGcd a b result }
{
    let mut x = a;
    let mut y = b;
    while y != 0 {
        let r = x % y;
        x = y;
        y = r;
    }
    x
}

pub(crate) fn reduce(p: u128, q: u128) -> Result<Frac, Range>
    requires { 0 < q }
    ensures exact { IfOk result (λ f. Fin f.p f.q ≈ Fin p q) }
    ensures range { IsErr result ↔ IsTrue (is_out (Fin p q)) }
{
    let g = common_divisor(p, q);
    let n = p / g;
    let d = q / g;
    if n <= u32::MAX as u128 && d <= u32::MAX as u128 {
        Ok(Frac {
            p: n as u32,
            q: d as u32,
        })
    } else {
        Err(Range)
    }
}
