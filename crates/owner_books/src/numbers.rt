//! Numbers in lines.

ghost use Rattle.std.specs.Prelude.{◌≡◌, ◌++◌, IfOk, decimal};
ghost use Rattle.std.specs.Fmt.{signed_decimal};
ghost use Rattle.fz_frac.specs.Sens.{distance_of};
ghost use Rattle.wire_lines.specs.Reply.{sensitivity_text};

use fz_frac::Sens;
use itoa::Buffer;
use std::alloc::AllocError;
use wire_lines::{REPLY_LIMIT, write_sensitivity};

/// Puts a whole number behind some lines.
pub fn put_number(lines: &mut Vec<u8>, n: u64) -> Result<(), AllocError>
    ensures { IfOk result (λ _. lines.new.items ≡ lines.old.items ++ decimal n) }
{
    let mut buffer = Buffer::new();
    lines.extend_from_slice(buffer.format(n).as_bytes())
}

/// Puts a number that may be negative behind some lines.
pub fn put_signed(lines: &mut Vec<u8>, n: i64) -> Result<(), AllocError>
    ensures { IfOk result (λ _. lines.new.items ≡ lines.old.items ++ signed_decimal n) }
{
    let mut buffer = Buffer::new();
    lines.extend_from_slice(buffer.format(n).as_bytes())
}

/// Puts a sensitivity behind some lines.
pub fn put_sensitivity(lines: &mut Vec<u8>, sens: Sens) -> Result<(), AllocError>
    ensures { IfOk result (λ _. lines.new.items ≡ lines.old.items ++ sensitivity_text (distance_of sens)) }
{
    let mut text = [0u8; REPLY_LIMIT];
    let n = write_sensitivity(sens, &mut text);
    lines.extend_from_slice(&text[..n])
}

/// Puts a label and a whole number behind some lines.
pub fn put_field(lines: &mut Vec<u8>, label: &[u8], n: u64) -> Result<(), AllocError>
    ensures { IfOk result (λ _. lines.new.items ≡ lines.old.items ++ (label.now ++ decimal n)) }
{
    lines.extend_from_slice(label)?;
    put_number(lines, n)
}
