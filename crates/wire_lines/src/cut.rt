//! A list of bytes is cut at a byte.

ghost use Rattle.std.specs.Prelude.{◌≡◌, ◌≢◌, ◌++◌, ◌∷◌, All, IfSome, IfNone};

use memchr::memchr;

/// What stands before and behind the first such byte. None where there is none.
#[tactic(auto, using(crate::proofs::Cuts::cut_here, crate::proofs::Cuts::apart_before, crate::proofs::Cuts::apart))]
pub fn cut_at(bytes: &[u8], byte: u8) -> Option<(&[u8], &[u8])>
    ensures cut { IfSome result (λ r. bytes.now ≡ r.0.now ++ byte ∷ r.1.now) }
    ensures first { IfSome result (λ r. All (λ b. b ≢ byte) r.0.now) }
    ensures none { IfNone result (All (λ b. b ≢ byte) bytes.now) }
{
    let at = memchr(byte, bytes)?;
    Some((&bytes[..at], &bytes[at + 1..]))
}
