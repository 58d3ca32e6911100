//! Arithmetic, clamped.
ghost use Rattle.std.specs.Prelude.{◌≡◌, ◌+ℤ◌, ◌-ℤ◌, ◌*ℤ◌};
ghost use Rattle.metric_values.specs.Numbers.{clamp, clip};

const GREATEST: i64 = 1 << 50;

#[inline]
pub fn clamped(z: i64) -> i64
    ensures { result ≡ clamp z }
{
    z.min(GREATEST).max(-GREATEST)
}

#[inline]
pub fn plus(y: i64, z: i64) -> i64
    ensures { result ≡ clamp (y +ℤ z) }
{
    clamped(y.saturating_add(z))
}

#[inline]
pub fn minus(y: i64, z: i64) -> i64
    ensures { result ≡ clamp (y -ℤ z) }
{
    clamped(y.saturating_sub(z))
}

#[inline]
pub fn times(y: i64, z: i64) -> i64
    ensures { result ≡ clamp (y *ℤ z) }
{
    clamped(y.saturating_mul(z))
}

/// The number within the bounds, also where `lo` is over `hi`.
#[inline]
pub fn clipped(lo: i64, hi: i64, z: i64) -> i64
    ensures { result ≡ clip lo hi z }
{
    z.min(hi).max(lo)
}
