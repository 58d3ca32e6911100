//! Numbers, clipped and clamped.
ghost use Rattle.std.specs.Prelude.{◌≡◌, pos};
ghost use Rattle.metric_values.specs.Numbers.{clamp, clip};

/// The number within the bounds, also where `lo` is over `hi`.
pub fn clipped(lo: i64, hi: i64, z: i64) -> i64
    ensures { result ≡ clip lo hi z }
{
    z.min(hi).max(lo)
}

/// A sum, clamped.
pub fn narrowed(total: i128) -> i64
    ensures { result ≡ clamp total }
{
    if total > 1 << 50 {
        1 << 50
    } else if total < -(1 << 50) {
        -(1 << 50)
    } else {
        total as i64
    }
}

/// A number of elements, clamped.
pub fn count(len: usize) -> i64
    ensures { result ≡ clamp (pos len) }
{
    len.min(1 << 50) as i64
}
