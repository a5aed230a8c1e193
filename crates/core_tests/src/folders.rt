//! Folders that stand before a core is opened over them, with indexes that are made. The bytes are made by
//! `tests/make-tables`.

use crate::asserts::must;
use crate::fixtures::{ABC, DE, ROOT_PATH};
use disk_trait::{Disk, MemoryDisk};
use dynamic_index::DynamicWriter;
use std::alloc::Global;
use std::process::Abort;
use store_types::{Digest32, Piece};

/// Files by name and content.
pub(crate) type Contents = &'static [(&'static str, &'static [u8])];

/// The indexes of the first snapshot that are made.
#[derive(Clone, Copy)]
pub(crate) enum Archives {
    /// None, or `root.didx` of so many entries: `abc` is the last, and `de` each before it.
    Root(u32),
    /// `root.didx` of 2,049 entries: `abc` is the one with the number 1,010, and `de` is in each other.
    Amid,
    /// `root.didx` of `abc`, which has this length by it, and `de`.
    Pieces(u32),
    /// `a.fidx` of two pieces, the second of them `de`, `b.didx` of none, and `c.didx` of so many, where there are any.
    Three(u32),
}

pub(crate) const FIRST_PATH: &str = "host/a/2020-01-15T06:30:03Z/a.fidx";

const SECOND_PATH: &str = "host/a/2020-01-15T06:30:03Z/b.didx";

pub(crate) const THIRD_PATH: &str = "host/a/2020-01-15T06:30:03Z/c.didx";

/// SHA-256 of 4,096 times `x`, of which no chunk is there.
const ABSENT: Digest32 = Digest32([
    0xa2, 0xe6, 0x59, 0xda, 0xcb, 0x46, 0x91, 0xe8, 0x87, 0xac, 0x01, 0x39, 0xf8, 0x89, 0x3d, 0x04,
    0x76, 0x4e, 0xe1, 0x97, 0xd7, 0x0f, 0xb7, 0x3d, 0x31, 0x90, 0xd5, 0x61, 0x13, 0xd1, 0x8e, 0x3e,
]);

/// The fixed index of that piece and of `de`: what stands before its zeros, and behind them.
const FIXED_FRONT: &[u8] =
    b"/\x7fA\xed\x91\xfd\x0f\xcd\xe3'l\xd9\xed\xedV\xd3\x9e\xf6JXT\x92\x1f\xfck\xb1\x1e^\0\0\0\0\x15\x8d\xc1M\xcc7\xcc\\\xed/\xafjp =;\xefQ\xe9S\x9c+\xbaw\x99\x13\xdf?\xb2/\xb8\xd1\x02\x10\0\0\0\0\0\0\0\x10\0\0\0\0\0\0";

const FIXED_DIGESTS: &[u8] =
    b"\xa2\xe6Y\xda\xcbF\x91\xe8\x87\xac\x019\xf8\x89=\x04vN\xe1\x97\xd7\x0f\xb7=1\x90\xd5a\x13\xd1\x8e>\x95\x9aE\xd4No\xcfX6\x1e\xd0\x04h\x15V\xfeP\x12\x9f!\x09\xe8\x17\xde\xc0\x98\xc0\x0c\x9e]%x";

fn push(rt: &impl Abort, writer: &mut DynamicWriter, piece: &Piece) {
    let length = piece.length;
    assert!(rt; writer.len() < 1_048_576 && length > 0 && length <= 16_777_216);
    must(rt, writer.append(&piece.digest, length));
}

fn push_all(rt: &impl Abort, writer: &mut DynamicWriter, count: u32, piece: &Piece) {
    for _ in 0..count {
        push(rt, writer, piece);
    }
}

/// Puts a file, whose path has at most 255 letters.
pub(crate) fn put<D: Disk>(rt: &impl Abort, alloc: Global, disk: &mut D, path: &str, bytes: &[u8]) {
    assert!(rt; path.len() <= 255);
    must(rt, disk.put(alloc, path, bytes))
}

/// Puts an index of these pieces, each so many times.
fn put_index(
    rt: &impl Abort,
    alloc: Global,
    disk: &mut MemoryDisk,
    path: &str,
    pieces: &[(u32, Piece)],
) {
    let mut writer = DynamicWriter::new(alloc, [1; 16], 1_579_069_803);
    for (count, piece) in pieces {
        push_all(rt, &mut writer, *count, piece);
    }
    put(rt, alloc, disk, path, &must(rt, writer.close(alloc)))
}

/// Puts the fixed index, and the one without entries.
fn put_first_two(rt: &impl Abort, alloc: Global, disk: &mut MemoryDisk) {
    let mut fixed = must(rt, FIXED_FRONT.to_vec(alloc));
    must(rt, fixed.resize(4096, 0));
    must(rt, fixed.extend_from_slice(FIXED_DIGESTS));
    put(rt, alloc, disk, FIRST_PATH, &fixed);
    let empty = DynamicWriter::new(alloc, [1; 16], 1_579_069_803);
    put(rt, alloc, disk, SECOND_PATH, &must(rt, empty.close(alloc)))
}

/// A disk with these files, and with these indexes.
pub(crate) fn folder(
    rt: &impl Abort,
    alloc: Global,
    files: Contents,
    archives: Archives,
) -> MemoryDisk {
    let mut disk = MemoryDisk::new(alloc);
    for (path, bytes) in files {
        put(rt, alloc, &mut disk, path, bytes);
    }
    let abc = Piece {
        digest: ABC,
        length: 3,
    };
    let de = Piece {
        digest: DE,
        length: 2,
    };
    match archives {
        Archives::Root(0) => {}
        Archives::Root(entries) => {
            let pieces = [(entries.saturating_sub(1), de), (1, abc)];
            put_index(rt, alloc, &mut disk, ROOT_PATH, &pieces);
        }
        Archives::Amid => {
            let pieces = [(1_010, de), (1, abc), (1_038, de)];
            put_index(rt, alloc, &mut disk, ROOT_PATH, &pieces);
        }
        Archives::Pieces(length) => {
            let first = Piece {
                digest: ABC,
                length,
            };
            put_index(rt, alloc, &mut disk, ROOT_PATH, &[(1, first), (1, de)]);
        }
        Archives::Three(0) => put_first_two(rt, alloc, &mut disk),
        Archives::Three(entries) => {
            put_first_two(rt, alloc, &mut disk);
            let absent = Piece {
                digest: ABSENT,
                length: 4096,
            };
            let pieces = [(entries.saturating_sub(1), absent), (1, abc)];
            put_index(rt, alloc, &mut disk, THIRD_PATH, &pieces);
        }
    }
    disk
}
