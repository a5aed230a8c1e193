//! The book of touches, as a core begins with it and dates what it lacks. The bytes are made by `tests/make-tables`.

use crate::acts::{Row, Step};
use crate::asserts::same_at;
use crate::cases::{Spot, begun_with, try_row};
use crate::fixtures::{
    ABC_BLOB, ABC_CHUNK, BOOK, Clock, DE_BLOB, DE_CHUNK, Kept, TestCore, kept, opened,
};
use crate::folders::{Archives, Contents, folder, put};
use crate::sent::{
    FORGET_FIRST, LIST, NO_BASE, NO_MEMORY, NO_SNAPSHOT, NONE_THERE, NOTHING, OPEN_FIRST,
};
use disk_trait::MemoryDisk;
use std::alloc::Global;
use std::process::Abort;

pub(crate) const NONE_OF_BOTH: Contents = &[];

const ONE: Contents = &[(ABC_CHUNK, ABC_BLOB)];

pub(crate) const BOTH: Contents = &[(ABC_CHUNK, ABC_BLOB), (DE_CHUNK, DE_BLOB)];

/// A book as of 10 in which `abc` was touched at 5 and `de` at 4; one without `de`; one that has no chunk; one as of the last moment that
/// there is.
pub(crate) const SAVED: &[u8] =
    b"PBSBOOK1\x0a\0\0\0\0\0\0\0\x02\0\0\0\0\0\0\0\x95\x9aE\xd4No\xcfX6\x1e\xd0\x04h\x15V\xfeP\x12\x9f!\x09\xe8\x17\xde\xc0\x98\xc0\x0c\x9e]%x\x04\0\0\0\0\0\0\0\xbax\x16\xbf\x8f\x01\xcf\xeaAA@\xde]\xae\"#\xb0\x03a\xa3\x96\x17z\x9c\xb4\x10\xffa\xf2\0\x15\xad\x05\0\0\0\0\0\0\0\xcaS\xfaZL3\x84\xd1\xe5\xcd\xae\x16\x11\x19l\x19=\xef\x9c\x93\x16\x02\xcd\x06\x87\xad\xe7\x06\x0bS\xd8\x87";

pub(crate) const OF_ABC: &[u8] =
    b"PBSBOOK1\x0a\0\0\0\0\0\0\0\x01\0\0\0\0\0\0\0\xbax\x16\xbf\x8f\x01\xcf\xeaAA@\xde]\xae\"#\xb0\x03a\xa3\x96\x17z\x9c\xb4\x10\xffa\xf2\0\x15\xad\x05\0\0\0\0\0\0\06\xe8\xda'\x04\x05\xad\xa9\xa3\xfb\x96P\xf9\xaayIe\xd8\x17!\xcd\xce\xc2t%?kn7`D[";

const NO_CHUNKS: &[u8] =
    b"PBSBOOK1\x0a\0\0\0\0\0\0\0\0\0\0\0\0\0\0\0f\x9e\xf87\xe7\xbdJ\xa5*04\x1f\xa6\x92\x08\xe9g1\xa1\xbe\xcd\x93x\xd7\x82p\0_\xda\xa6{\xdd";

const LATEST: &[u8] =
    b"PBSBOOK1\x7fA\xf4\xff:\0\0\0\x01\0\0\0\0\0\0\0\xbax\x16\xbf\x8f\x01\xcf\xeaAA@\xde]\xae\"#\xb0\x03a\xa3\x96\x17z\x9c\xb4\x10\xffa\xf2\0\x15\xad\x7fA\xf4\xff:\0\0\0\xed\xfc\xa0l\x1c8^\xd2\xc8\x16\xc8\xcf<qJ\x92\xd0HfY?\x91\xfbE\xban\x8a\xe5\xc3w\xd4\x8d";

/// What stands in place of the book, the chunks that are there, and what the core begins with.
static BEGUN: [(Option<&[u8]>, Contents, Kept); 9] = [
    (None, NONE_OF_BOTH, (0, None, None, 0)),
    (None, BOTH, (0, Some(0), Some(0), 2)),
    (Some(SAVED), BOTH, (10, Some(5), Some(4), 0)),
    // what it has of a chunk that isn't there is dropped
    (Some(SAVED), ONE, (10, Some(5), None, 0)),
    (Some(SAVED), NONE_OF_BOTH, (10, None, None, 0)),
    // a chunk that it lacks stands as of its moment
    (Some(NO_CHUNKS), BOTH, (10, Some(10), Some(10), 2)),
    (Some(OF_ABC), BOTH, (10, Some(5), Some(10), 1)),
    (
        Some(LATEST),
        ONE,
        (253_402_300_799, Some(253_402_300_799), None, 0),
    ),
    (Some(b"abc"), BOTH, (0, Some(0), Some(0), 2)),
];

/// Bytes that are no book, for one reason each: the checksum, the version, a last moment too late, a count too great, one too small,
/// falling digests, one digest twice, a touch after the last moment, a byte more. And how often opening calls the disk: a sync, a list of
/// all names, the file's size, the count in its head, and the read of all of it, which comes only where that count fits the size.
static DAMAGED: [(&[u8], u64); 9] = [
    (
        b"PBSBOOK1\x0a\0\0\0\0\0\0\0\x01\0\0\0\0\0\0\0\xbax\x16\xbf\x8f\x01\xcf\xeaAA@\xde]\xae\"#\xb0\x03a\xa3\x96\x17z\x9c\xb4\x10\xffa\xf2\0\x15\xad\x05\0\0\0\0\0\0\06\xe8\xda'\x04\x05\xad\xa9\xa3\xfb\x96P\xf9\xaayIe\xd8\x17!\xcd\xce\xc2t%?kn7`D\0",
        5,
    ),
    (
        b"PBSBOOK2\x0a\0\0\0\0\0\0\0\x01\0\0\0\0\0\0\0\xbax\x16\xbf\x8f\x01\xcf\xeaAA@\xde]\xae\"#\xb0\x03a\xa3\x96\x17z\x9c\xb4\x10\xffa\xf2\0\x15\xad\x05\0\0\0\0\0\0\0}\x05\xab\xe3\x86\x83~\x1at\xf7\xbe\x8c\x0e\x0a_n^\xd7\xa4\xf7,2\x1emB\x9f\xb2QD\x87\x0d\x1e",
        5,
    ),
    (
        b"PBSBOOK1\x80A\xf4\xff:\0\0\0\x01\0\0\0\0\0\0\0\xbax\x16\xbf\x8f\x01\xcf\xeaAA@\xde]\xae\"#\xb0\x03a\xa3\x96\x17z\x9c\xb4\x10\xffa\xf2\0\x15\xad\x05\0\0\0\0\0\0\0\xa87D\x97\xb0$^\x0a_\xc6\x1dL\xc0\xc5\xf9\x02\xe1k\xbd\x19\x81U0C\x93\xac\x8c\xfa\x8e\xc9t\xb8",
        5,
    ),
    (
        b"PBSBOOK1\x0a\0\0\0\0\0\0\0\x02\0\0\0\0\0\0\0\xbax\x16\xbf\x8f\x01\xcf\xeaAA@\xde]\xae\"#\xb0\x03a\xa3\x96\x17z\x9c\xb4\x10\xffa\xf2\0\x15\xad\x05\0\0\0\0\0\0\0\x7f\xc86\xed\xf9\x09\xcc\x93@\xa6\xf9\x94j\x0f\xf1O\xd0\x83\xba\x18\x03\xe1\xba\x92\xc1[\x135\x94U*\xb9",
        4,
    ),
    (
        b"PBSBOOK1\x0a\0\0\0\0\0\0\0\0\0\0\0\0\0\0\0\xbax\x16\xbf\x8f\x01\xcf\xeaAA@\xde]\xae\"#\xb0\x03a\xa3\x96\x17z\x9c\xb4\x10\xffa\xf2\0\x15\xad\x05\0\0\0\0\0\0\0d?$\xa9\x97|0\x14\x0b{z\xbe\x16\xae\xefs7\xcf2\x9d8o`\x02=N1\xfc\xd7\xcc\x02\xac",
        4,
    ),
    (
        b"PBSBOOK1\x0a\0\0\0\0\0\0\0\x02\0\0\0\0\0\0\0\xbax\x16\xbf\x8f\x01\xcf\xeaAA@\xde]\xae\"#\xb0\x03a\xa3\x96\x17z\x9c\xb4\x10\xffa\xf2\0\x15\xad\x05\0\0\0\0\0\0\0\x95\x9aE\xd4No\xcfX6\x1e\xd0\x04h\x15V\xfeP\x12\x9f!\x09\xe8\x17\xde\xc0\x98\xc0\x0c\x9e]%x\x04\0\0\0\0\0\0\0\xf3\x8fL\xf0b\x0a\xbb)g\x8f2\xe8\x1b\xbe\x16i=\xd4\x0bJk\x88\x8c\x992\x90\x01\x8e\x0b#\xf8\xac",
        5,
    ),
    (
        b"PBSBOOK1\x0a\0\0\0\0\0\0\0\x02\0\0\0\0\0\0\0\xbax\x16\xbf\x8f\x01\xcf\xeaAA@\xde]\xae\"#\xb0\x03a\xa3\x96\x17z\x9c\xb4\x10\xffa\xf2\0\x15\xad\x05\0\0\0\0\0\0\0\xbax\x16\xbf\x8f\x01\xcf\xeaAA@\xde]\xae\"#\xb0\x03a\xa3\x96\x17z\x9c\xb4\x10\xffa\xf2\0\x15\xad\x05\0\0\0\0\0\0\0\x80\xe6-\x90\xaf\x18\xfe\xd8\xacy\xbc\xf1\xf0\xaa\xf5\x1cVw*\x12\xf1\xfc\x86\x86dj\xd2%M8^\x1f",
        5,
    ),
    (
        b"PBSBOOK1\x0a\0\0\0\0\0\0\0\x01\0\0\0\0\0\0\0\xbax\x16\xbf\x8f\x01\xcf\xeaAA@\xde]\xae\"#\xb0\x03a\xa3\x96\x17z\x9c\xb4\x10\xffa\xf2\0\x15\xad\x0b\0\0\0\0\0\0\0\xc5\x15\xe4DQY8\xff\xac\x0bn0$\xd5\x0af\xf9us\xa0\x13LMbU\x95\xeb7\xed\xb3\xec\xe5",
        5,
    ),
    (
        b"PBSBOOK1\x0a\0\0\0\0\0\0\0\x01\0\0\0\0\0\0\0\xbax\x16\xbf\x8f\x01\xcf\xeaAA@\xde]\xae\"#\xb0\x03a\xa3\x96\x17z\x9c\xb4\x10\xffa\xf2\0\x15\xad\x05\0\0\0\0\0\0\06\xe8\xda'\x04\x05\xad\xa9\xa3\xfb\x96P\xf9\xaayIe\xd8\x17!\xcd\xce\xc2t%?kn7`D[\0",
        4,
    ),
];

/// A clock that falls behind its second reading.
const CLOCK: Clock = (&[70, 80], 0);

/// A disk with these chunks and this book.
fn disk_with(rt: &impl Abort, alloc: Global, book: Option<&[u8]>, chunks: Contents) -> MemoryDisk {
    let mut disk = folder(rt, alloc, chunks, Archives::Root(0));
    if let Some(bytes) = book {
        put(rt, alloc, &mut disk, BOOK, bytes);
    }
    disk
}

/// What a core over it has, and how many calls its opening made.
fn kept_by(rt: &impl Abort, alloc: Global, book: Option<&[u8]>, chunks: Contents) -> (Kept, u64) {
    begun_with(rt, alloc, disk_with(rt, alloc, book, chunks))
}

#[test]
fn cores_begin_with_the_saved_book(rt: HostRuntime) {
    for (number, (book, chunks, wanted)) in BEGUN.iter().enumerate() {
        let (found, _) = kept_by(&rt, rt.alloc(), *book, *chunks);
        same_at(&rt, number, found, *wanted);
    }
}

/// One of its touches and one undated, and nothing of a book.
const AS_IF_NONE: Kept = (0, Some(0), None, 1);

#[test]
fn damaged_books_count_as_none(rt: HostRuntime) {
    for (number, (book, calls)) in DAMAGED.iter().enumerate() {
        let found = kept_by(&rt, rt.alloc(), Some(book), ONE);
        same_at(&rt, number, found, (AS_IF_NONE, *calls));
    }
}

/// A book that is cut anywhere is none.
#[test]
fn torn_books_count_as_none(rt: HostRuntime) {
    for len in 0..SAVED.len() {
        let torn = &SAVED[..len.min(SAVED.len())];
        let (found, _) = kept_by(&rt, rt.alloc(), Some(torn), ONE);
        same_at(&rt, len, found, AS_IF_NONE);
    }
}

/// What stands in place of the book, a first act, its moment, and that of a second one.
type Dated = (Option<&'static [u8]>, Row, u64, u64);

const LISTS: Row = (5, Step::Send(LIST), NONE_THERE, 0);

static DATED: [Dated; 8] = [
    (None, LISTS, 70, 80),
    // refused, for want of memory, a lane's end
    (None, (6, Step::Send(FORGET_FIRST), NO_SNAPSHOT, 0), 70, 80),
    (None, (7, Step::Short, NO_MEMORY, 2), 70, 80),
    (None, (3, Step::End, NOTHING, 6), 70, 80),
    (None, (63, Step::Send(OPEN_FIRST), NO_BASE, 0), 70, 80),
    // no moment is before the book's
    (Some(NO_CHUNKS), LISTS, 70, 80),
    (
        Some(
            b"PBSBOOK1K\0\0\0\0\0\0\0\0\0\0\0\0\0\0\0\xbb8\xd3\x1b\x87\x983\x88\xeby\xcaT\xe5\xcd\xa2\x85D\xbfCH$co\x1e\xa6\xd2\x8a\xb6\xc7\xb0\x14]",
        ),
        LISTS,
        75,
        80,
    ),
    (
        Some(
            b"PBSBOOK1\x7fA\xf4\xff:\0\0\0\0\0\0\0\0\0\0\0\xbfk\xe8\xed\x0c\x7f\x8a\xf0.&Cf\xd9\xa0Y\x9cD\xa8\xa5\x17P4K\x81\x0e\x06\\\xcf\x8ee\xf3\xce",
        ),
        LISTS,
        253_402_300_799,
        253_402_300_799,
    ),
];

/// An act, and another: the first dates what is undated.
fn try_two(rt: &impl Abort, core: &mut TestCore, alloc: Global, spot: Spot, row: &Dated) {
    let (_, act, first, second) = row;
    try_row(rt, core, alloc, (spot, 0), act);
    same_at(
        rt,
        spot,
        kept(core),
        (*first, Some(*first), Some(*first), 0),
    );
    try_row(rt, core, alloc, (spot, 1), &LISTS);
    same_at(
        rt,
        spot,
        kept(core),
        (*second, Some(*first), Some(*first), 0),
    );
}

fn try_dated(rt: &impl Abort, alloc: Global, number: usize, row: &Dated) {
    let (book, _, _, _) = row;
    let mut core = opened(rt, alloc, disk_with(rt, alloc, *book, BOTH), CLOCK);
    try_two(rt, &mut core, alloc, [number, 0, 0, 0], row)
}

#[test]
fn first_entries_date(rt: HostRuntime) {
    for (number, row) in DATED.iter().enumerate() {
        try_dated(&rt, rt.alloc(), number, row);
    }
}
