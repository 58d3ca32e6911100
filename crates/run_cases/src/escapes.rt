//! The bytes that a text of a case stands for. `\n` and `\r` are ends of lines, `\xA5` is a byte, and `\[64 TEXT\]` is a text 64 times, in
//! which `\#` is the number of the copy, from 0 on, and `\+` that number and one.

use std::alloc::{AllocError, Global};

// The number of a hexadecimal digit.
fn digit(byte: u8) -> u8 {
    match byte {
        b'0'..=b'9' => byte - b'0',
        b'A'..=b'F' => byte - b'A' + 10,
        _ => 0,
    }
}

// The byte of an escape, and what stands after it.
fn escaped(part: &[u8]) -> (Option<u8>, &[u8]) {
    match part {
        [b'n', rest @ ..] => (Some(b'\n'), rest),
        [b'r', rest @ ..] => (Some(b'\r'), rest),
        [b'x', high, low, rest @ ..] => (Some(digit(*high) << 4 | digit(*low)), rest),
        _ => (None, part),
    }
}

// Puts a number at the end, in decimal.
fn push_number(bytes: &mut Vec<u8>, alloc: Global, number: u32) -> Result<(), AllocError> {
    let digits = format!(in alloc; "{number}")?;
    bytes.extend_from_slice(digits.as_bytes())
}

// Puts an escape at the end, and what stands after it.
fn push_part(bytes: &mut Vec<u8>, alloc: Global, part: &[u8], copy: u32) -> Result<(), AllocError> {
    let rest = match part {
        [b'#', rest @ ..] => {
            push_number(bytes, alloc, copy)?;
            rest
        }
        [b'+', rest @ ..] => {
            push_number(bytes, alloc, copy.saturating_add(1))?;
            rest
        }
        _ => {
            let (byte, rest) = escaped(part);
            if let Some(byte) = byte {
                bytes.push(byte)?;
            }
            rest
        }
    };
    bytes.extend_from_slice(rest)
}

// Puts the bytes of a text at the end that is a copy of this number.
fn push_copy(bytes: &mut Vec<u8>, alloc: Global, text: &str, copy: u32) -> Result<(), AllocError> {
    let mut is_first = true;
    for part in text.as_bytes().split(|byte| *byte == b'\\') {
        if is_first {
            bytes.extend_from_slice(part)?;
        } else {
            push_part(bytes, alloc, part, copy)?;
        }
        is_first = false;
    }
    Ok(())
}

// Puts the copies of a text at the end that has their number before it.
fn push_copies(bytes: &mut Vec<u8>, alloc: Global, counted: &str) -> Result<(), AllocError> {
    let (count, text) = counted.split_once(' ').unwrap_or((counted, ""));
    for copy in 0..count.parse().unwrap_or(0u32) {
        push_copy(bytes, alloc, text, copy)?;
    }
    Ok(())
}

/// The bytes of a text.
pub fn bytes_of(alloc: Global, text: &str) -> Result<Vec<u8>, AllocError> {
    let mut bytes = Vec::new(alloc);
    for part in text.split("\\]") {
        let (before, counted) = part.split_once("\\[").unwrap_or((part, "0 "));
        push_copy(&mut bytes, alloc, before, 0)?;
        push_copies(&mut bytes, alloc, counted)?;
    }
    Ok(bytes)
}
