//! Digests, and bytes that several tests change.

use crate::asserts::{must, same_at};
use std::alloc::Global;
use std::process::Abort;
use store_types::Digest32;

/// SHA-256 of `abc`.
pub(crate) const ABC_BYTES: [u8; 32] = [
    0xba, 0x78, 0x16, 0xbf, 0x8f, 0x01, 0xcf, 0xea, 0x41, 0x41, 0x40, 0xde, 0x5d, 0xae, 0x22, 0x23,
    0xb0, 0x03, 0x61, 0xa3, 0x96, 0x17, 0x7a, 0x9c, 0xb4, 0x10, 0xff, 0x61, 0xf2, 0x00, 0x15, 0xad,
];

pub(crate) const ABC: Digest32 = Digest32(ABC_BYTES);

pub(crate) fn zeros(rt: &impl Abort, alloc: Global, count: usize) -> Vec<u8> {
    must(rt, vec![in alloc; 0; count])
}

/// The first bytes, where there are so many.
pub(crate) fn front(bytes: &[u8], count: usize) -> &[u8] {
    bytes.get(..count).unwrap_or(bytes)
}

/// Compares what stands from one place to another, for each row of the two and the bytes.
pub(crate) fn same_parts(rt: &impl Abort, text: &[u8], parts: &[(usize, usize, &[u8])]) {
    for (from, to, want) in parts {
        same_at(rt, *from, text.get(*from..*to), Some(*want));
    }
}

/// Puts bytes at a place, where it has room for them.
pub(crate) fn put(text: &mut [u8], at: usize, bytes: &[u8]) {
    if let Some(behind) = text.get_mut(at..) {
        for (place, byte) in behind.iter_mut().zip(bytes) {
            *place = *byte;
        }
    }
}
