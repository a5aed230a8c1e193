//! Indexes against bytes and checksums that were made elsewhere.

use crate::asserts::{must, same, same_at};
use crate::formats::fixtures::{front, put, same_parts, zeros};
use fixed_index::{BadIndex, FixedView, FixedWriter, IndexFault};
use std::alloc::Global;
use std::process::Abort;
use store_types::Digest32;

/// SHA-256 of 32 bytes 07 and 32 bytes 09.
const CSUM: [u8; 32] = [
    0x49, 0x44, 0x0f, 0xa4, 0x64, 0xb1, 0x71, 0xc0, 0x74, 0x62, 0xbb, 0x22, 0x42, 0x2a, 0xac, 0x0a,
    0xd0, 0x08, 0x6d, 0x5f, 0x23, 0x1a, 0xd3, 0xe0, 0x50, 0x71, 0xff, 0x5e, 0x88, 0x26, 0xd7, 0x54,
];

/// The index of an archive in a piece of 4,096 and one of one byte.
fn two_pieces(rt: &impl Abort, alloc: Global) -> Vec<u8> {
    let mut writer = FixedWriter::new(alloc, [1; 16], 1_579_069_803, 4097, 4096);
    must(rt, writer.append(&Digest32([7; 32]), 4096));
    must(rt, writer.append(&Digest32([9; 32]), 1));
    same(rt, writer.facts(), (2, 4097, Digest32(CSUM)));
    must(rt, writer.close(alloc))
}

/// The text with a last piece of one byte, but for the zeros of its head.
static PARTS: [(usize, usize, &[u8]); 8] = [
    (0, 8, b"\x2f\x7f\x41\xed\x91\xfd\x0f\xcd"),
    (8, 24, &[1; 16]),
    (24, 32, b"\x6b\xb1\x1e\x5e\0\0\0\0"),
    (32, 64, &CSUM),
    (64, 72, b"\x01\x10\0\0\0\0\0\0"),
    (72, 80, b"\0\x10\0\0\0\0\0\0"),
    (4096, 4128, &[7; 32]),
    (4128, 4160, &[9; 32]),
];

#[test]
fn text_of_a_short_last_piece(rt: HostRuntime) {
    let text = two_pieces(&rt, rt.alloc());
    same(&rt, text.len(), 4160);
    same_parts(&rt, &text, &PARTS);
    let head = zeros(&rt, rt.alloc(), 4096 - 80);
    same_parts(&rt, &text, &[(80, 4096, &head)]);
}

/// A piece's digest, and where it begins and ends.
fn piece(view: &FixedView, i: u32) -> Option<(Digest32, (u64, u64))> {
    if i < view.len() {
        Some((view.digest(i), view.span(i)))
    } else {
        None
    }
}

#[test]
fn view_of_a_short_last_piece(rt: HostRuntime) {
    let text = two_pieces(&rt, rt.alloc());
    let view = must(&rt, FixedView::open_on(&text));
    same(&rt, view.len(), 2);
    same(&rt, piece(&view, 0), Some((Digest32([7; 32]), (0, 4096))));
    same(
        &rt,
        piece(&view, 1),
        Some((Digest32([9; 32]), (4096, 4097))),
    );
    same(&rt, (view.size(), view.chunk_size()), (4097, 4096));
    same(&rt, view.csum(), Digest32(CSUM));
}

#[test]
fn no_pieces(rt: HostRuntime) {
    let text = must(
        &rt,
        FixedWriter::new(rt.alloc(), [0; 16], -1, 0, 16_777_216).close(rt.alloc()),
    );
    same(&rt, text.len(), 4096);
    same_parts(&rt, &text, &[(32, 36, b"\xe3\xb0\xc4\x42")]);
    same(&rt, must(&rt, FixedView::open_on(&text)).len(), 0);
}

fn cause_of(bytes: &[u8]) -> Option<IndexFault> {
    FixedView::open_on(bytes).err().map(|e: BadIndex| e.cause)
}

/// A byte that is put at a place, and the cause.
static CAUSES: [(usize, u8, IndexFault); 6] = [
    (0, 28, IndexFault::Magic),
    (72, 136, IndexFault::Sizes),
    (73, 32, IndexFault::Sizes),
    (65, 32, IndexFault::Sizes),
    (40, 0, IndexFault::Csum),
    (4100, 0, IndexFault::Csum),
];

/// How many of the first bytes are left, and the cause.
static FRONTS: [(usize, Option<IndexFault>); 4] = [
    (4160, None),
    (4095, Some(IndexFault::Short)),
    (4159, Some(IndexFault::Length)),
    (4128, Some(IndexFault::Sizes)),
];

#[test]
fn first_cause(rt: HostRuntime) {
    let text = two_pieces(&rt, rt.alloc());
    for (at, byte, cause) in &CAUSES {
        let mut changed = must(&rt, text.clone());
        put(&mut changed, *at, &[*byte]);
        same_at(&rt, *at, cause_of(&changed), Some(*cause));
    }
    for (len, cause) in &FRONTS {
        same_at(&rt, *len, cause_of(front(&text, *len)), *cause);
    }
}

#[test]
fn too_many_pieces(rt: HostRuntime) {
    let mut long = zeros(&rt, rt.alloc(), 4096 + 32 * 1_048_577);
    put(&mut long, 0, b"\x2f\x7f\x41\xed\x91\xfd\x0f\xcd");
    same(&rt, cause_of(&long), Some(IndexFault::Count));
}
