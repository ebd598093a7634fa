// Bytes of a lent buffer and numbers in them, little endian: past the end a byte reads 0 and none is written.
use std::alloc::{AllocError, Global};

// A number that a call takes. Beside `short`, since a generic one would need a trait for the largest number of its type.
pub(crate) fn word(n: usize) -> u32 {
    u32::try_from(n).unwrap_or(u32::MAX)
}

// A number that a store keeps.
pub(crate) fn short(n: usize) -> u16 {
    u16::try_from(n).unwrap_or(u16::MAX)
}

pub(crate) fn byte(b: &[u8], at: usize) -> u8 {
    b.get(at).copied().unwrap_or(0)
}

pub(crate) fn number(b: &[u8], at: usize) -> u16 {
    u16::from_le_bytes([byte(b, at), byte(b, at.wrapping_add(1))])
}

// At a place of a store, which need not have it: damage is put anywhere.
pub(crate) fn put(b: &mut [u8], at: usize, bytes: &[u8]) {
    for (i, from) in bytes.iter().enumerate() {
        if let Some(to) = b.get_mut(at.wrapping_add(i)) {
            *to = *from;
        }
    }
}

pub(crate) fn put_number(b: &mut [u8], at: usize, n: u16) {
    put(b, at, &n.to_le_bytes());
}

// What a buffer holds before anything is written to it.
pub(crate) fn pattern(at: usize) -> u8 {
    (at % 251) as u8
}

pub(crate) fn patterned(alloc: Global, len: usize) -> Result<Vec<u8>, AllocError> {
    (0..len).map(pattern).collect(alloc)
}
