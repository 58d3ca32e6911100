//! The bytes of journals: what a line changes in them, and how they are printed.

use crate::escapes::bytes_of;
use crate::runs::Disks;
use std::alloc::{AllocError, Global};
use std::mem;

/// Nothing on any disk.
pub fn empty(alloc: Global) -> Disks {
    Disks {
        first: Vec::new(alloc),
        second: Vec::new(alloc),
        first_mirror: Vec::new(alloc),
        second_mirror: Vec::new(alloc),
    }
}

/// The same bytes.
pub fn copied(alloc: Global, disks: &Disks) -> Result<Disks, AllocError> {
    Ok(Disks {
        first: disks.first.to_vec(alloc)?,
        second: disks.second.to_vec(alloc)?,
        first_mirror: disks.first_mirror.to_vec(alloc)?,
        second_mirror: disks.second_mirror.to_vec(alloc)?,
    })
}

/// Owner 0's disk and its mirror change places.
pub fn swap(disks: &mut Disks) {
    mem::swap(&mut disks.first, &mut disks.first_mirror);
}

/// Cuts owner 0's disk to a size or fills it up to it with zeros, or puts a text over its bytes at a place.
pub fn change(
    alloc: Global,
    disks: &mut Disks,
    word: &str,
    place: &str,
    text: &str,
) -> Result<(), AllocError> {
    let place: usize = place.parse().unwrap_or(0);
    if word == "size" {
        return disks.first.resize(place, 0);
    }
    let bytes = bytes_of(alloc, text)?;
    for (to, from) in disks.first.iter_mut().skip(place).zip(bytes.iter()) {
        *to = *from;
    }
    Ok(())
}

/// Whether the disks have the same bytes.
pub fn are_same(one: &Disks, other: &Disks) -> bool {
    one.first.as_slice() == other.first.as_slice()
        && one.second.as_slice() == other.second.as_slice()
        && one.first_mirror.as_slice() == other.first_mirror.as_slice()
        && one.second_mirror.as_slice() == other.second_mirror.as_slice()
}

/// Prints whether the disks stayed as they were.
pub fn push_same(out: &mut Vec<u8>, same: bool) -> Result<(), AllocError> {
    out.extend_from_slice(if same { b"same yes\n" } else { b"same no\n" })
}

// A row of bytes, without the zeros at its end.
fn without_zeros(bytes: &[u8]) -> &[u8] {
    let mut length = 0usize;
    for (place, byte) in bytes.iter().enumerate() {
        if *byte != 0 {
            length = place.saturating_add(1);
        }
    }
    bytes.get(..length).unwrap_or(bytes)
}

// Puts a row of bytes at the end, in hexadecimal.
fn push_slot(text: &mut String, place: usize, bytes: &[u8]) -> Result<(), AllocError> {
    write!(text, "@ {place}:")?;
    for byte in bytes {
        write!(text, " {byte:02X}")?;
    }
    text.push_str("\n")
}

/// Prints how long a disk is, and its slots of 64 bytes in which there are others than zeros.
pub fn push_slots(out: &mut Vec<u8>, alloc: Global, bytes: &[u8]) -> Result<(), AllocError> {
    let mut text = format!(in alloc; "@ {} bytes\n", bytes.len())?;
    let mut place = 0usize;
    for slot in bytes.chunks(64) {
        let told = without_zeros(slot);
        if !told.is_empty() {
            push_slot(&mut text, place, told)?;
        }
        place = place.saturating_add(64);
    }
    out.extend_from_slice(text.as_bytes())
}
