//! The sampler once more, plainly and slowly, out of the whole list of draws.

ghost use Rattle.std.specs.Prelude.{◌<◌, ◌≤◌};

/// A number below `m`, and the draws behind it.
fn uniform(m: u64, draws: &[u64]) -> Option<(u64, &[u64])>
    requires { 0 < m }
{
    // A draw counts where the round of m draws in which it stands is a whole one.
    let kept = draws
        .iter()
        .position(|draw| (*draw - *draw % m).checked_add(m - 1).is_some())?;
    let behind = draws.get(kept + 1..)?;
    Some((draws.get(kept)? % m, behind))
}

/// Whether a number below `d` is below `n`, and the draws behind it.
fn trial(n: u64, d: u64, draws: &[u64]) -> Option<(bool, &[u64])>
    requires { 0 < d }
{
    let (number, behind) = uniform(d, draws)?;
    Some((number < n, behind))
}

/// Whether the first failing one of the trials of `u / t`, `u / 2t`, `u / 3t` .. is one of odd number.
fn exponential(u: u64, t: u64, draws: &[u64]) -> Option<(bool, &[u64])>
    requires some { 0 < t }
    requires most { t ≤ 1000000 }
{
    let mut left = draws;
    for k in 1..4097_u64 {
        let (one, behind) = trial(u, t * k, left)?;
        if !one {
            return Some((k % 2 == 1, behind));
        }
        left = behind;
    }
    None
}

/// How many ones of `exp(-1)` stand before the first zero.
fn geometric(draws: &[u64]) -> Option<(u64, &[u64])> {
    let mut left = draws;
    for ones in 0..4096_u64 {
        let (one, behind) = exponential(1, 1, left)?;
        if !one {
            return Some((ones, behind));
        }
        left = behind;
    }
    None
}

/// The noise of scale `t / s`, and the draws behind it.
pub fn sample(t: u64, s: u64, draws: &[u64]) -> Option<(i64, &[u64])>
    requires some { 0 < t }
    requires most { t ≤ 1000000 }
{
    let mut left = draws;
    for _ in 0..4096_u64 {
        let (u, behind) = uniform(t, left)?;
        let (goes_on, behind) = exponential(u, t, behind)?;
        left = behind;
        if goes_on {
            let (v, behind) = geometric(left)?;
            let (positive, behind) = uniform(2, behind)?;
            left = behind;
            let size = i64::try_from(t.checked_mul(v)?.checked_add(u)?.checked_div(s)?).ok()?;
            match positive {
                0 if size == 0 => {}
                0 => return Some((size.checked_neg()?, left)),
                _ => return Some((size, left)),
            }
        }
    }
    None
}
