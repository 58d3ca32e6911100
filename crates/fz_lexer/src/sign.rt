//! The signs.
ghost use Rattle.std.specs.Prelude.{◌≡◌, ◌≤◌, ◌++◌, ℕ, List, true, false, IfSome, IfNone, length, take, drop};
ghost use Rattle.fz_lexer.specs.Bytes.{stops, is_name_byte};
ghost use Rattle.fz_lexer.specs.Signs.{mark, may_follow, SpellsSign, IsLongestSign, NoSign};
ghost use Rattle.fz_lexer.specs.declared.token.Sign.{Sign};

use crate::bytes::{is_name_byte, is_same};
use crate::token::Sign;

/// The longer ones first.
const SIGNS: [Sign; 21] = [
    Sign::Yields,
    Sign::Arrow,
    Sign::Lollipop,
    Sign::AtMost,
    Sign::EqualTo,
    Sign::LeftParenthesis,
    Sign::RightParenthesis,
    Sign::LeftAngle,
    Sign::RightAngle,
    Sign::LeftBracket,
    Sign::RightBracket,
    Sign::Comma,
    Sign::Colon,
    Sign::Is,
    Sign::Bang,
    Sign::Bar,
    Sign::Plus,
    Sign::Minus,
    Sign::Star,
    Sign::Ampersand,
    Sign::Slash,
];

#[tactic(auto, unfolding(crate::specs::Signs::mark))]
pub fn mark(sign: Sign) -> &'static [u8]
    ensures { result.now ≡ mark sign }
{
    match sign {
        Sign::Yields => b"=>",
        Sign::Arrow => b"->",
        Sign::Lollipop => b"-o",
        Sign::AtMost => b"<=",
        Sign::EqualTo => b"==",
        Sign::LeftParenthesis => b"(",
        Sign::RightParenthesis => b")",
        Sign::LeftAngle => b"<",
        Sign::RightAngle => b">",
        Sign::LeftBracket => b"[",
        Sign::RightBracket => b"]",
        Sign::Comma => b",",
        Sign::Colon => b":",
        Sign::Is => b"=",
        Sign::Bang => b"!",
        Sign::Bar => b"|",
        Sign::Plus => b"+",
        Sign::Minus => b"-",
        Sign::Star => b"*",
        Sign::Ampersand => b"&",
        Sign::Slash => b"/",
    }
}

#[tactic(auto, unfolding(crate::specs::Signs::may_follow))]
fn may_follow(sign: Sign, after: &[u8]) -> bool
    ensures { result ≡ may_follow sign after.now }
{
    match sign {
        Sign::Lollipop => after.is_empty() || !is_name_byte(after[0]),
        _ => true,
    }
}

/// Whether the bytes begin with the sign.
fn stands(sign: Sign, bytes: &[u8]) -> bool
    ensures yes { result ≡ true → SpellsSign sign (take (length (mark sign)) bytes.now) (drop (length (mark sign)) bytes.now) }
    ensures no { result ≡ false → (text after : List ℕ) → bytes.now ≡ text ++ after → SpellsSign sign text after → ⊥ }
{
    let mark = mark(sign);
    if bytes.len() < mark.len() {
        return false;
    }
    let (text, after) = bytes.split_at(mark.len());
    is_same(text, mark) && may_follow(sign, after)
}

/// The longest sign that begins the bytes.
pub fn sign_at(bytes: &[u8]) -> Option<Sign>
    ensures found { IfSome result (IsLongestSign bytes.now) }
    ensures none { IfNone result (NoSign bytes.now) }
{
    for i in 0..SIGNS.len() {
        let sign = SIGNS[i];
        if stands(sign, bytes) {
            return Some(sign);
        }
    }
    None
}
