//! Sessions that the program makes itself, against the bytes that their rules give.

use crate::asserts::{must, same, same_at};
use generator::{generate, piece, summary};
use sha2::{Digest, Sha256};
use std::alloc::Global;
use std::process::Abort;
use store_types::Bytes;
use wire_commands::ListRow;

/// Seeds, and of the piece of each its length, its first bytes and its SHA-256.
static PIECES: [(u64, usize, &[u8], &[u8]); 2] = [
    (
        0,
        1344,
        b"\x1a\x9a\x66\x62\x8f\x14\x5b\x7b",
        b"\xa0\x00\xc5\x50\xf9\x67\xf6\x70\x6d\x4b\x03\x92\xb8\x42\x02\x15\
          \x0b\xec\xcb\xcc\xf8\x0c\x40\xc3\x52\xd6\x96\xdf\x9a\x61\x4b\x76",
    ),
    (
        4_294_967_297,
        3982,
        b"\x83\x98\xf4\x21\x91\x2d\x49\x77",
        b"\x79\xca\x2b\xe2\xe2\x7a\xbd\xda\xc1\xee\x83\xee\x81\x68\xa5\x64\
          \x25\x9c\xec\x43\xd2\x75\xd6\x22\x60\xec\x74\x5d\x6c\x63\x94\x56",
    ),
];

#[test]
fn known_pieces(rt: HostRuntime) {
    for (seed, size, front, sum) in &PIECES {
        let bytes = must(&rt, piece(rt.alloc(), *seed));
        same_at(&rt, *seed, bytes.len(), *size);
        same_at(&rt, *seed, bytes.get(..8), Some(*front));
        same_at(
            &rt,
            *seed,
            Sha256::digest(bytes.as_slice()).as_slice(),
            *sum,
        );
    }
}

/// Lanes, and of the input of each its size in bytes and its SHA-256. All 64 are compared by `tests/generated`.
static INPUTS: [(u32, usize, &[u8]); 2] = [
    (
        0,
        25,
        b"\x67\x66\x1c\xab\x8f\x03\x8a\xe2\x95\xc8\xcd\x98\x61\xc4\xad\x8f\
          \x61\xb5\x1d\x3a\x22\x11\x07\xb7\xa7\x9e\x58\x39\xda\xab\xeb\xb2",
    ),
    (
        63,
        508_681,
        b"\xe7\x94\x7b\xf6\x66\x5a\x3b\xf0\xcd\xb0\xc3\x51\x36\xe9\x4b\x21\
          \x50\x49\xe5\xa5\x41\xc0\x39\xe4\x53\x59\x08\xc6\x73\x5c\x31\x50",
    ),
];

fn try_input(rt: &impl Abort, alloc: Global, lane: u32, size: usize, sum: &[u8]) {
    assert!(rt; lane <= 63);
    let input = must(rt, generate(alloc, 63, lane));
    same_at(rt, lane, input.len(), size);
    same_at(rt, lane, Sha256::digest(input.as_slice()).as_slice(), sum);
}

#[test]
fn known_inputs(rt: HostRuntime) {
    for (lane, size, sum) in &INPUTS {
        try_input(&rt, rt.alloc(), *lane, *size, sum);
    }
}

fn row(rt: &impl Abort, alloc: Global, snapshot: &[u8], damaged: bool, files: u8) -> ListRow {
    ListRow {
        snapshot: must(rt, Bytes::from_slice(alloc, snapshot)),
        damaged,
        files,
    }
}

/// Of three lanes and two snapshots, one of them damaged.
const SUMMARY: &[u8] =
    b"lane 1 3 ba7816bf8f01cfea414140de5dae2223b00361a396177a9cb410ff61f20015ad\n\
lane 2 0 e3b0c44298fc1c149afbf4c8996fb92427ae41e4649b934ca495991b7852b855\n\
host/g1/2020-01-03T00:00:00Z 2\n\
host/g2/2020-01-04T00:00:00Z 0\n\
status 0\n";

#[test]
fn summary_of_three_lanes(rt: HostRuntime) {
    let alloc = rt.alloc();
    let replies = [
        must(&rt, Bytes::from_slice(alloc, b"x")),
        must(&rt, Bytes::from_slice(alloc, b"abc")),
        Bytes::new(alloc),
    ];
    let rows = [
        row(&rt, alloc, b"host/g1/2020-01-03T00:00:00Z", false, 2),
        row(&rt, alloc, b"host/g2/2020-01-04T00:00:00Z", true, 0),
    ];
    let text = must(&rt, summary(alloc, &replies, &rows));
    same(&rt, text.as_slice(), SUMMARY);
}

#[test]
fn summary_of_no_lanes(rt: HostRuntime) {
    let text = must(&rt, summary(rt.alloc(), &[], &[]));
    same(&rt, text.as_slice(), b"status 0\n");
}
