//! Indexes against bytes and checksums that were made elsewhere.

use crate::asserts::{must, same, same_at};
use crate::formats::fixtures::{ABC, ABC_BYTES, front, put, same_parts, zeros};
use dynamic_index::{BadIndex, DynamicView, DynamicWriter, IndexFault};
use std::alloc::Global;
use std::process::Abort;
use store_types::{Digest32, Piece};

/// SHA-256 of `de`.
const DE: [u8; 32] = [
    0x95, 0x9a, 0x45, 0xd4, 0x4e, 0x6f, 0xcf, 0x58, 0x36, 0x1e, 0xd0, 0x04, 0x68, 0x15, 0x56, 0xfe,
    0x50, 0x12, 0x9f, 0x21, 0x09, 0xe8, 0x17, 0xde, 0xc0, 0x98, 0xc0, 0x0c, 0x9e, 0x5d, 0x25, 0x78,
];

/// SHA-256 of the two entries.
const CSUM: [u8; 32] = [
    0xda, 0x46, 0x4a, 0xae, 0x3d, 0x9f, 0x63, 0xd0, 0x6f, 0x30, 0x87, 0x10, 0x06, 0x2b, 0x5d, 0xb4,
    0x19, 0x96, 0xb1, 0xe3, 0x69, 0x90, 0xb9, 0x2e, 0xcc, 0x69, 0x34, 0x40, 0xe6, 0x66, 0x01, 0x51,
];

/// SHA-256 of nothing.
const EMPTY_CSUM: [u8; 32] = [
    0xe3, 0xb0, 0xc4, 0x42, 0x98, 0xfc, 0x1c, 0x14, 0x9a, 0xfb, 0xf4, 0xc8, 0x99, 0x6f, 0xb9, 0x24,
    0x27, 0xae, 0x41, 0xe4, 0x64, 0x9b, 0x93, 0x4c, 0xa4, 0x95, 0x99, 0x1b, 0x78, 0x52, 0xb8, 0x55,
];

/// The index of the pieces `abc` and `de`.
fn two_pieces(rt: &impl Abort, alloc: Global) -> Vec<u8> {
    let mut writer = DynamicWriter::new(alloc, [1; 16], 1_579_069_803);
    must(rt, writer.append(&ABC, 3));
    let de = Piece {
        digest: Digest32(DE),
        length: 2,
    };
    must(rt, writer.append_all(alloc, &[de]));
    let (entries, end, csum) = writer.facts();
    same(rt, (entries, end), (2, 5));
    same(rt, csum, Digest32(CSUM));
    must(rt, writer.close(alloc))
}

/// The index's text, but for the zeros of its head.
static PARTS: [(usize, usize, &[u8]); 8] = [
    (0, 8, b"\x1c\x91\x4e\xa5\x19\xba\xb3\xcd"),
    (8, 24, &[1; 16]),
    (24, 32, b"\x6b\xb1\x1e\x5e\0\0\0\0"),
    (32, 64, &CSUM),
    (4096, 4104, b"\x03\0\0\0\0\0\0\0"),
    (4104, 4136, &ABC_BYTES),
    (4136, 4144, b"\x05\0\0\0\0\0\0\0"),
    (4144, 4176, &DE),
];

#[test]
fn text_of_two_pieces(rt: HostRuntime) {
    let text = two_pieces(&rt, rt.alloc());
    same(&rt, text.len(), 4176);
    same_parts(&rt, &text, &PARTS);
    let head = zeros(&rt, rt.alloc(), 4096 - 64);
    same_parts(&rt, &text, &[(64, 4096, &head)]);
}

/// Offsets, and the piece that each is in.
static PLACES: [(u64, Option<u32>); 6] = [
    (0, Some(0)),
    (2, Some(0)),
    (3, Some(1)),
    (4, Some(1)),
    (5, None),
    (u64::MAX, None),
];

#[test]
fn view_of_two_pieces(rt: HostRuntime) {
    let text = two_pieces(&rt, rt.alloc());
    let view = must(&rt, DynamicView::open_on(&text));
    same(&rt, (view.len(), view.size()), (2, 5));
    same(&rt, view.csum(), Digest32(CSUM));
    same(&rt, piece(&view, 0), Some((ABC, (0, 3))));
    same(&rt, piece(&view, 1), Some((Digest32(DE), (3, 5))));
    for (offset, place) in &PLACES {
        same_at(&rt, *offset, view.chunk_at(*offset), *place);
    }
}

/// A piece's digest, and where it begins and ends.
fn piece(view: &DynamicView, i: u32) -> Option<(Digest32, (u64, u64))> {
    if i < view.len() {
        Some((view.digest(i), view.span(i)))
    } else {
        None
    }
}

#[test]
fn no_pieces(rt: HostRuntime) {
    let writer = DynamicWriter::new(rt.alloc(), [0; 16], -1);
    same(&rt, writer.facts(), (0, 0, Digest32(EMPTY_CSUM)));
    let text = must(&rt, writer.close(rt.alloc()));
    same(&rt, text.len(), 4096);
    same_parts(&rt, &text, &[(32, 64, &EMPTY_CSUM)]);
    let view = must(&rt, DynamicView::open_on(&text));
    same(&rt, (view.len(), view.size()), (0, 0));
    same(&rt, view.chunk_at(0), None);
}

fn cause_of(bytes: &[u8]) -> Option<IndexFault> {
    DynamicView::open_on(bytes).err().map(|e: BadIndex| e.cause)
}

/// A byte that is put at a place, as often as need be, how many of the first bytes are left, and the cause. The second piece
/// begins at 3, and its end stands at 4136, the lowest byte first.
static CAUSES: [(&[(usize, u8)], usize, Option<IndexFault>); 14] = [
    (&[(8, 9)], 4176, None),
    (&[(0, 47)], 4095, Some(IndexFault::Short)),
    (&[(0, 47), (7, 206)], 4096, Some(IndexFault::Magic)),
    (&[(7, 206), (32, 0)], 4175, Some(IndexFault::Magic)),
    (&[(32, 0), (4136, 3)], 4175, Some(IndexFault::Length)),
    (&[(32, 0), (4096, 0)], 4136, Some(IndexFault::Sizes)),
    (&[(4136, 3)], 4176, Some(IndexFault::Sizes)),
    (&[(4136, 2)], 4176, Some(IndexFault::Sizes)),
    (&[(4136, 4), (4139, 1)], 4176, Some(IndexFault::Sizes)),
    (&[(4136, 3), (4139, 1)], 4176, Some(IndexFault::Csum)),
    (&[(4136, 6)], 4176, Some(IndexFault::Csum)),
    (&[(4175, 0)], 4176, Some(IndexFault::Csum)),
    (&[(63, 0)], 4176, Some(IndexFault::Csum)),
    (&[], 4136, Some(IndexFault::Csum)),
];

#[test]
fn first_cause(rt: HostRuntime) {
    let text = two_pieces(&rt, rt.alloc());
    for (changes, len, cause) in &CAUSES {
        let mut changed = must(&rt, text.clone());
        for (at, byte) in *changes {
            put(&mut changed, *at, &[*byte]);
        }
        same_at(&rt, *changes, cause_of(front(&changed, *len)), *cause);
    }
}

#[test]
fn too_many_pieces(rt: HostRuntime) {
    let mut long = zeros(&rt, rt.alloc(), 4096 + 40 * 1_048_577);
    put(&mut long, 0, b"\x1c\x91\x4e\xa5\x19\xba\xb3\xcd");
    same(&rt, cause_of(&long), Some(IndexFault::Count));
    let most = front(&long, 4096 + 40 * 1_048_576);
    same(&rt, cause_of(most), Some(IndexFault::Sizes));
}
