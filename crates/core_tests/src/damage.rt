//! Chunks and indexes that are damaged once a snapshot is opened, and what a reader is told of them. The bytes are made by
//! `tests/make-tables`.

use crate::acts::{Row, Step};
use crate::cases::try_tables;
use crate::fixtures::{ABC_BLOB, ABC_CHUNK, DE_BLOB, DE_CHUNK, MANIFEST_PATH, ROOT_PATH};
use crate::folders::{Archives, Contents};
use crate::sent::{AT_END, DONE, IN_NONE, NO_FILE, NO_INDEX, NOT_ALLOWED, READ_FIRST};
use std::alloc::Global;
use std::process::Abort;

/// `abc`'s blob with another last byte.
const TORN_BLOB: &[u8] = b"B\xab8\x07\xbe\x83p\xa1\xc2A$5abd";

pub(crate) const NAME: &[u8] = b"root.didx";

/// The first snapshot's manifest, which lists an archive without pieces. Its index is another one.
const FILES: Contents = &[(
    MANIFEST_PATH,
    b"B\xab8\x07\xbe\x83p\xa1\xcda\x9a\xdc{\"backup-id\":\"a\",\"backup-time\":1579069803,\"backup-type\":\"host\",\"files\":[{\"crypt-mode\":\"none\",\"csum\":\"e3b0c44298fc1c149afbf4c8996fb92427ae41e4649b934ca495991b7852b855\",\"filename\":\"root.didx\",\"size\":0}]}",
)];

/// `abc`'s chunk is damaged: nothing is there, no blob, the blob of `de`.
const NOTHING_THERE: &[u8] =
    b"B\0\0\0\x17\xbax\x16\xbf\x8f\x01\xcf\xeaAA@\xde]\xae\"#\xb0\x03a\xa3\x96\x17z\x9c\xb4\x10\xffa\xf2\0\x15\xad\0\0\0\0\0\0\0\0\0\0\0\0\0\0\0\0\0\0\0\0\0\0\0\0\0\0\0\0\0\0\0\0\0";

const NO_BLOB: &[u8] =
    b"B\0\0\0\x17\xbax\x16\xbf\x8f\x01\xcf\xeaAA@\xde]\xae\"#\xb0\x03a\xa3\x96\x17z\x9c\xb4\x10\xffa\xf2\0\x15\xad\x01\0\0\0\0\0\0\0\0\0\0\0\0\0\0\0\0\0\0\0\0\0\0\0\0\0\0\0\0\0\0\0\0";

const ANOTHER_BLOB: &[u8] =
    b"B\0\0\0\x17\xbax\x16\xbf\x8f\x01\xcf\xeaAA@\xde]\xae\"#\xb0\x03a\xa3\x96\x17z\x9c\xb4\x10\xffa\xf2\0\x15\xad\x02\x95\x9aE\xd4No\xcfX6\x1e\xd0\x04h\x15V\xfeP\x12\x9f!\x09\xe8\x17\xde\xc0\x98\xc0\x0c\x9e]%x";

/// Nothing is there of `de`'s chunk.
const NO_DE: &[u8] =
    b"B\0\0\0\x17\x95\x9aE\xd4No\xcfX6\x1e\xd0\x04h\x15V\xfeP\x12\x9f!\x09\xe8\x17\xde\xc0\x98\xc0\x0c\x9e]%x\0\0\0\0\0\0\0\0\0\0\0\0\0\0\0\0\0\0\0\0\0\0\0\0\0\0\0\0\0\0\0\0\0";

/// `abc`'s chunk is `abc`, which is not as long as the index says.
const ANOTHER_LENGTH: &[u8] =
    b"B\0\0\0\x17\xbax\x16\xbf\x8f\x01\xcf\xeaAA@\xde]\xae\"#\xb0\x03a\xa3\x96\x17z\x9c\xb4\x10\xffa\xf2\0\x15\xad\x02\xbax\x16\xbf\x8f\x01\xcf\xeaAA@\xde]\xae\"#\xb0\x03a\xa3\x96\x17z\x9c\xb4\x10\xffa\xf2\0\x15\xad";

/// The reader of lane 5 opens.
static OPENED: [Row; 1] = [(5, Step::Send(READ_FIRST), DONE, 0)];

/// DOWNLOAD of the archive's index, of 4,176 bytes, from its end on.
const DOWNLOAD: &[u8] = b"\x15\x09root.didxP\x10\0\0\0\0\0\0";

/// GET_CHUNK of `abc`, and a RANGE of it.
pub(crate) const GET_ABC: &[u8] =
    b"\x16\xbax\x16\xbf\x8f\x01\xcf\xeaAA@\xde]\xae\"#\xb0\x03a\xa3\x96\x17z\x9c\xb4\x10\xffa\xf2\0\x15\xad";

const ABC_RANGE: &[u8] = b"\x17\x09root.didx\0\0\0\0\0\0\0\0\x03\0\0\0";

/// What stands under the name of `abc`'s chunk, and what a range tells then: the chunk that is there, and each way in which it is
/// not.
static RANGES: [Row; 10] = [
    (5, Step::Send(DOWNLOAD), AT_END, 0),
    (5, Step::Send(ABC_RANGE), NOTHING_THERE, 0),
    (5, Step::Put(ABC_CHUNK, ABC_BLOB), DONE, 0),
    (5, Step::Send(ABC_RANGE), b"\x04\0\0\0\0abc", 0),
    (5, Step::Put(ABC_CHUNK, TORN_BLOB), DONE, 0),
    (5, Step::Send(ABC_RANGE), NO_BLOB, 0),
    (5, Step::Put(ABC_CHUNK, DE_BLOB), DONE, 0),
    (5, Step::Send(ABC_RANGE), ANOTHER_BLOB, 0),
    (5, Step::Remove(ABC_CHUNK), DONE, 0),
    (5, Step::Send(ABC_RANGE), NOTHING_THERE, 0),
];

/// RANGE of the last two bytes of `abc` and the first of `de`.
const OF_BOTH: &[u8] = b"\x17\x09root.didx\x01\0\0\0\0\0\0\0\x03\0\0\0";

/// Parts of two chunks, and the first that is damaged.
static IN_ORDER: [Row; 8] = [
    (5, Step::Send(DOWNLOAD), AT_END, 0),
    (5, Step::Put(ABC_CHUNK, ABC_BLOB), DONE, 0),
    (5, Step::Put(DE_CHUNK, DE_BLOB), DONE, 0),
    (5, Step::Send(OF_BOTH), b"\x04\0\0\0\0bcd", 0),
    (5, Step::Remove(DE_CHUNK), DONE, 0),
    (5, Step::Send(OF_BOTH), NO_DE, 0),
    (5, Step::Remove(ABC_CHUNK), DONE, 0),
    (5, Step::Send(OF_BOTH), NOTHING_THERE, 0),
];

/// `abc`'s and `de`'s chunks as they stand on the disk.
pub(crate) const ABC_DATA: &[u8] = b"\x10\0\0\0\0B\xab8\x07\xbe\x83p\xa1\xc2A$5abc";

const TORN_DATA: &[u8] = b"\x10\0\0\0\0B\xab8\x07\xbe\x83p\xa1\xc2A$5abd";

pub(crate) const DE_DATA: &[u8] = b"\x0f\0\0\0\0B\xab8\x07\xbe\x83p\xa1\x8b)\x90}de";

/// The chunk that is there is given, and each way in which it is not is told.
static CHUNKS: [Row; 12] = [
    (5, Step::Send(GET_ABC), NOT_ALLOWED, 0),
    (5, Step::Send(DOWNLOAD), AT_END, 0),
    (
        5,
        Step::Send(
            b"\x16\xe3\xb0\xc4B\x98\xfc\x1c\x14\x9a\xfb\xf4\xc8\x99o\xb9$'\xaeA\xe4d\x9b\x93L\xa4\x95\x99\x1bxR\xb8U",
        ),
        NOT_ALLOWED,
        0,
    ),
    (5, Step::Send(GET_ABC), NOTHING_THERE, 0),
    (5, Step::Put(ABC_CHUNK, ABC_BLOB), DONE, 0),
    (5, Step::Send(GET_ABC), ABC_DATA, 0),
    (5, Step::Put(ABC_CHUNK, TORN_BLOB), DONE, 0),
    (5, Step::Send(GET_ABC), NO_BLOB, 0),
    (5, Step::Put(ABC_CHUNK, DE_BLOB), DONE, 0),
    (5, Step::Send(GET_ABC), ANOTHER_BLOB, 0),
    (5, Step::Remove(ABC_CHUNK), DONE, 0),
    (5, Step::Send(GET_ABC), NOTHING_THERE, 0),
];

/// The index has two entries.
const TWO_ENTRIES: &[u8] = b"\x09\0\0\0\x16\x02\0\0\0\0\0\0\0";

/// A VERIFY reads the chunks of an index, which is not downloaded before.
static ENTRIES: [Row; 11] = [
    (4, Step::ReadChunk(NAME, 0), IN_NONE, 0),
    (5, Step::ReadChunk(b"index.json.blob", 0), NO_FILE, 0),
    (5, Step::ReadChunk(b"other.didx", 0), NO_FILE, 0),
    (5, Step::ReadChunk(NAME, 2), TWO_ENTRIES, 0),
    (5, Step::ReadChunk(NAME, u32::MAX), TWO_ENTRIES, 0),
    (5, Step::ReadChunk(NAME, 0), NOTHING_THERE, 0),
    (5, Step::ReadChunk(NAME, 1), NO_DE, 0),
    // the page that it read stays at hand
    (5, Step::Remove(ROOT_PATH), DONE, 0),
    (5, Step::ReadChunk(NAME, 0), NOTHING_THERE, 0),
    (5, Step::Put(ROOT_PATH, ABC_BLOB), DONE, 0),
    (5, Step::ReadChunk(NAME, 1), NO_DE, 0),
];

/// They are given as they stand there, without a test, and allow no other read.
static AS_THEY_STAND: [Row; 9] = [
    (5, Step::Put(ABC_CHUNK, ABC_BLOB), DONE, 0),
    (5, Step::Put(DE_CHUNK, DE_BLOB), DONE, 0),
    (5, Step::ReadChunk(NAME, 0), ABC_DATA, 0),
    (5, Step::ReadChunk(NAME, 1), DE_DATA, 0),
    (5, Step::Put(ABC_CHUNK, TORN_BLOB), DONE, 0),
    (5, Step::ReadChunk(NAME, 0), TORN_DATA, 0),
    (5, Step::Put(ABC_CHUNK, DE_BLOB), DONE, 0),
    (5, Step::ReadChunk(NAME, 0), DE_DATA, 0),
    (5, Step::Send(GET_ABC), NOT_ALLOWED, 0),
];

/// And parts of files, the index among them, whether it is one or not.
static PARTS: [Row; 9] = [
    (4, Step::ReadFile(NAME, 0), IN_NONE, 0),
    (5, Step::ReadFile(b"other.didx", 0), NO_FILE, 0),
    (5, Step::ReadFile(NAME, 4176), AT_END, 0),
    (
        5,
        Step::ReadFile(NAME, 4177),
        b"\x09\0\0\0\x16P\x10\0\0\0\0\0\0",
        0,
    ),
    (5, Step::Put(ROOT_PATH, ABC_BLOB), DONE, 0),
    (
        5,
        Step::ReadFile(NAME, 12),
        b"\x0c\0\0\0\0\x0f\0\0\0\0\0\0\0abc",
        0,
    ),
    (5, Step::Send(GET_ABC), NOT_ALLOWED, 0),
    (5, Step::Remove(ROOT_PATH), DONE, 0),
    (5, Step::ReadFile(NAME, 0), NO_INDEX, 0),
];

/// Both chunks are whole. By the index `abc` has one byte more than its chunk, or one less: no range of it is given, whatever it asks
/// for, and GET_CHUNK gives the chunk.
static LONGER: [Row; 8] = [
    (5, Step::Send(DOWNLOAD), AT_END, 0),
    (5, Step::Put(ABC_CHUNK, ABC_BLOB), DONE, 0),
    (5, Step::Put(DE_CHUNK, DE_BLOB), DONE, 0),
    (
        5,
        Step::Send(b"\x17\x09root.didx\0\0\0\0\0\0\0\0\x04\0\0\0"),
        ANOTHER_LENGTH,
        0,
    ),
    (
        5,
        Step::Send(b"\x17\x09root.didx\0\0\0\0\0\0\0\0\x01\0\0\0"),
        ANOTHER_LENGTH,
        0,
    ),
    (
        5,
        Step::Send(b"\x17\x09root.didx\x03\0\0\0\0\0\0\0\x03\0\0\0"),
        ANOTHER_LENGTH,
        0,
    ),
    (
        5,
        Step::Send(b"\x17\x09root.didx\x04\0\0\0\0\0\0\0\x02\0\0\0"),
        b"\x03\0\0\0\0de",
        0,
    ),
    (5, Step::Send(GET_ABC), ABC_DATA, 0),
];

static SHORTER: [Row; 5] = [
    (5, Step::Send(DOWNLOAD), AT_END, 0),
    (5, Step::Put(ABC_CHUNK, ABC_BLOB), DONE, 0),
    (5, Step::Put(DE_CHUNK, DE_BLOB), DONE, 0),
    (
        5,
        Step::Send(b"\x17\x09root.didx\0\0\0\0\0\0\0\0\x02\0\0\0"),
        ANOTHER_LENGTH,
        0,
    ),
    (
        5,
        Step::Send(b"\x17\x09root.didx\x02\0\0\0\0\0\0\0\x02\0\0\0"),
        b"\x03\0\0\0\0de",
        0,
    ),
];

/// They are asked of a reader of their own. The archive of its snapshot has the pieces `abc`, of this length by the index, and `de`.
fn try_asked(rt: &impl Abort, alloc: Global, length: u32, rows: &[Row]) {
    let archives = Archives::Pieces(length);
    try_tables(rt, alloc, FILES, archives, &OPENED, rows)
}

#[test]
fn damaged_chunks_are_told_by_ranges(rt: HostRuntime) {
    try_asked(&rt, rt.alloc(), 3, &RANGES)
}

#[test]
fn the_first_that_is_damaged_is_told(rt: HostRuntime) {
    try_asked(&rt, rt.alloc(), 3, &IN_ORDER)
}

#[test]
fn damaged_chunks_are_told_by_digest(rt: HostRuntime) {
    try_asked(&rt, rt.alloc(), 3, &CHUNKS)
}

#[test]
fn a_verify_reads_entries(rt: HostRuntime) {
    try_asked(&rt, rt.alloc(), 3, &ENTRIES)
}

#[test]
fn a_verify_reads_files_as_they_stand(rt: HostRuntime) {
    try_asked(&rt, rt.alloc(), 3, &AS_THEY_STAND)
}

#[test]
fn a_verify_reads_parts(rt: HostRuntime) {
    try_asked(&rt, rt.alloc(), 3, &PARTS)
}

#[test]
fn lengths_are_compared(rt: HostRuntime) {
    try_asked(&rt, rt.alloc(), 4, &LONGER);
    try_asked(&rt, rt.alloc(), 2, &SHORTER)
}
