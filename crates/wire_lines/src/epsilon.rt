//! An epsilon is read.

ghost use Rattle.std.specs.Prelude.{◌≡◌, ◌≤◌, IsTrue, length};
ghost use Rattle.std.specs.Char.{is_ascii_digit};
ghost use Rattle.std.specs.List.{list_all};
ghost use Rattle.wire_lines.specs.Epsilon.{epsilon_of, in_millionths, epsilon_in_range};

use crate::cut::cut_at;
use crate::digits::{is_digits, value_of};

/// The most digits before the point, and behind it.
const WHOLE: usize = 4;

const FRACTION: usize = 6;

/// 1000 in millionths.
const GREATEST: u64 = 1_000_000_000;

/// The number that the digits before the point and behind it write, in millionths.
#[tactic(auto, using(crate::proofs::Epsilons::scale_small))]
fn millionths(whole: &[u8], fraction: &[u8]) -> u64
    requires whole_digits { IsTrue (list_all is_ascii_digit whole.now) }
    requires whole_length { length whole.now ≤ 4 }
    requires fraction_digits { IsTrue (list_all is_ascii_digit fraction.now) }
    requires fraction_length { length fraction.now ≤ 6 }
    ensures { result ≡ in_millionths whole.now fraction.now }
{
    let scale = 10_u64.pow((FRACTION - fraction.len()) as u32);
    value_of(whole) * 1_000_000 + value_of(fraction) * scale
}

/// An epsilon of so many millionths, where it may be one.
fn within(millionths: u64) -> Option<u32>
    ensures { result ≡ epsilon_in_range millionths }
{
    if millionths > 0 && millionths <= GREATEST {
        Some(millionths as u32)
    } else {
        None
    }
}

/// The epsilon that a text writes, in millionths. None where it is no decimal in range.
#[tactic(auto, using(crate::proofs::Epsilons::epsilon_whole))]
pub fn read_epsilon(text: &[u8]) -> Option<u32>
    ensures { result ≡ epsilon_of text.now }
{
    match cut_at(text, b'.') {
        None if is_digits(text, WHOLE) => within(millionths(text, &[])),
        Some((whole, fraction)) if is_digits(whole, WHOLE) && is_digits(fraction, FRACTION) => {
            within(millionths(whole, fraction))
        }
        _ => None,
    }
}
