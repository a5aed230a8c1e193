use crate::asserts::same;
use crc_core::{Crc, crc32};

// The check value of the standard, and others that are widely published.
static KNOWN: [(&[u8], u32); 4] = [
    (b"", 0),
    (b"abc", 0x352441c2),
    (b"123456789", 0xcbf43926),
    (b"The quick brown fox jumps over the lazy dog", 0x414fa339),
];

#[test]
fn known_checksums(rt: HostRuntime) {
    for (bytes, want) in &KNOWN {
        same(&rt, crc32(bytes), *want);
    }
}

static PIECES: [&[u8]; 3] = [b"The quick brown fox", b"", b" jumps over the lazy dog"];

#[test]
fn piece_by_piece(rt: HostRuntime) {
    let mut crc = Crc::new();
    for piece in &PIECES {
        crc.update(piece);
    }
    same(&rt, crc.finish(), 0x414fa339);
}
