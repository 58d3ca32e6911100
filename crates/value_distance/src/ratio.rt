//! Fractions of 63 bits in lowest terms.
ghost use Rattle.std.specs.Prelude.{◌≡◌, ◌<◌, ◌≤◌, ◌↔◌, IfSome, IsNone, IsTrue};
ghost use Rattle.std.specs.Int.{IsGcd};
ghost use Rattle.fz_frac.specs.Distance.{Fin};
ghost use Rattle.fz_frac.specs.Lowest.{gcd, lowest};
ghost use Rattle.value_distance.specs.Widths.{greatest_of_63_bits, is_too_wide};

/// The fraction `p/q` in lowest terms; zero is 0/1.
#[derive(Clone, Copy, PartialEq, Eq)]
pub struct Ratio {
    pub p: u64,
    pub q: u64,
    pub ghost above_zero: { 0 < q },
    pub ghost lowest: { gcd p q ≡ 1 },
    pub ghost narrow: { (p ≤ greatest_of_63_bits) × (q ≤ greatest_of_63_bits) },
}

// Euclid's algorithm.
fn common_divisor(a: u128, b: u128) -> u128
    ensures { IsGcd a b result }
{
    let mut x = a;
    let mut y = b;
    while y != 0 {
        let r = x % y;
        x = y;
        y = r;
    }
    x
}

impl Ratio {
    /// `p/q` in lowest terms; `None` where that is wide.
    pub fn new(p: u128, q: u128) -> Option<Ratio>
        requires { 0 < q }
        ensures exact { IfSome result (λ r. Fin r.p r.q ≡ lowest (Fin p q)) }
        ensures range { IsNone result ↔ IsTrue (is_too_wide (Fin p q)) }
    {
        let g = common_divisor(p, q);
        let (n, d) = (p / g, q / g);
        if n <= i64::MAX as u128 && d <= i64::MAX as u128 {
            Some(Ratio {
                p: n as u64,
                q: d as u64,
            })
        } else {
            None
        }
    }
}
