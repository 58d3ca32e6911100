//! Arithmetic, clamped.
ghost use Rattle.std.specs.Prelude.{◌≡◌, ◌+ℤ◌, ◌-ℤ◌, ◌*ℤ◌};
ghost use Rattle.metric_values.specs.Numbers.{clamp};

const GREATEST: i64 = 1 << 50;

pub fn clamped(z: i64) -> i64
    ensures { result ≡ clamp z }
{
    z.min(GREATEST).max(-GREATEST)
}

pub fn plus(y: i64, z: i64) -> i64
    ensures { result ≡ clamp (y +ℤ z) }
{
    clamped(y.saturating_add(z))
}

pub fn minus(y: i64, z: i64) -> i64
    ensures { result ≡ clamp (y -ℤ z) }
{
    clamped(y.saturating_sub(z))
}

pub fn times(y: i64, z: i64) -> i64
    ensures { result ≡ clamp (y *ℤ z) }
{
    clamped(y.saturating_mul(z))
}
