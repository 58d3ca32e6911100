//! Texts of digits.

ghost use Rattle.std.specs.Prelude.{◌≡◌, ◌<◌, ◌≤◌, IsTrue, length};
ghost use Rattle.std.specs.Char.{is_ascii_digit};
ghost use Rattle.std.specs.List.{list_all};
ghost use Rattle.std.specs.Str.Parse.{digits_value};
ghost use Rattle.wire_lines.specs.Number.{is_numeral};

/// Whether each byte is an ASCII digit.
fn are_digits(text: &[u8]) -> bool
    ensures { result ≡ list_all is_ascii_digit text.now }
{
    text.iter().all(|b| b.is_ascii_digit())
}

/// Whether a text has 1 to `most` digits and nothing else.
pub fn is_digits(text: &[u8], most: usize) -> bool
    ensures { result ≡ is_numeral most text.now }
{
    !text.is_empty() && text.len() <= most && are_digits(text)
}

/// The number that some digits write.
pub fn value_of(digits: &[u8]) -> u64
    requires digits { IsTrue (list_all is_ascii_digit digits.now) }
    requires short { length digits.now ≤ 10 }
    ensures value { result ≡ digits_value 10 digits.now }
    ensures small { length digits.now ≤ 6 → result < 1000000 }
{
    let mut value = 0;
    for b in digits {
        value = value * 10 + u64::from(*b - b'0');
    }
    value
}
