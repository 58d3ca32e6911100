//! Classes of bytes, and runs of them.
ghost use Rattle.std.specs.Prelude.{◌≡◌, ◌≤◌, ◌↔◌, IsTrue, true, length, take, drop};
ghost use Rattle.fz_lexer.specs.Bytes.{is_blank, is_digit, is_letter, is_name_byte, is_text_byte, within, every_byte, stops};

/// Bytes that go together.
#[derive(Clone, Copy, Debug, PartialEq, Eq)]
pub enum Class {
    Blank,
    Name,
    Digit,
    Text,
}

#[tactic(auto, unfolding(crate::specs::Bytes::is_digit))]
pub fn is_digit(b: u8) -> bool
    ensures { result ≡ is_digit b }
{
    48 <= b && b <= 57
}

#[tactic(auto, unfolding(crate::specs::Bytes::is_letter))]
pub fn is_letter(b: u8) -> bool
    ensures { result ≡ is_letter b }
{
    97 <= b && b <= 122 || 65 <= b && b <= 90 || b == 95
}

#[tactic(auto, unfolding(crate::specs::Bytes::is_name_byte))]
pub fn is_name_byte(b: u8) -> bool
    ensures { result ≡ is_name_byte b }
{
    is_letter(b) || is_digit(b)
}

#[tactic(auto, unfolding(crate::specs::Bytes::is_blank))]
fn is_blank(b: u8) -> bool
    ensures { result ≡ is_blank b }
{
    b == 32 || b == 9 || b == 13 || b == 10
}

#[tactic(auto, unfolding(crate::specs::Bytes::is_text_byte))]
fn is_text_byte(b: u8) -> bool
    ensures { result ≡ is_text_byte b }
{
    32 <= b && b <= 126 && b != 34 || 128 <= b
}

fn is_within(class: Class, b: u8) -> bool
    ensures { result ≡ within class b }
{
    match class {
        Class::Blank => is_blank(b),
        Class::Name => is_name_byte(b),
        Class::Digit => is_digit(b),
        Class::Text => is_text_byte(b),
    }
}

/// How many of the first bytes are in the class.
pub fn run(bytes: &[u8], class: Class) -> usize
    ensures within { result ≤ length bytes.now }
    ensures each { every_byte (within class) (take result bytes.now) ≡ true }
    ensures stops { stops (within class) (drop result bytes.now) ≡ true }
{
    let mut n = 0;
    while n < bytes.len() && is_within(class, bytes[n]) {
        n += 1;
    }
    n
}

pub fn is_same(a: &[u8], b: &[u8]) -> bool
    ensures { IsTrue result ↔ (a.now ≡ b.now) }
{
    a == b
}
