use crate::acts::{Row, Step};
use crate::cases::try_tables;
use crate::fixtures::MANIFEST_PATH;
use crate::folders::Archives;
use crate::sent::{
    ABORT, BAD_NAME, CLOSE_READER, DONE, FINISH, IN_NONE, IN_READER, IN_WRITER, NO_BASE, NO_FILE,
    NO_SNAPSHOT, OPEN_FIRST, OPEN_OTHER, PUT_MANIFEST, READ_FIRST, READ_SECOND, UNREADABLE,
};

/// The first snapshot, of its manifest alone.
static WRITTEN: [Row; 3] = [
    (3, Step::Send(OPEN_FIRST), NO_BASE, 0),
    (3, Step::Send(PUT_MANIFEST), DONE, 0),
    (3, Step::Send(FINISH), DONE, 0),
];

/// DOWNLOAD of the manifest, of 86 bytes, from its front on, and from an offset.
const DOWNLOAD: &[u8] = b"\x15\x0findex.json.blob\0\0\0\0\0\0\0\0";

/// A reader of one snapshot, and what it is refused.
static READ: [Row; 13] = [
    (5, Step::Send(DOWNLOAD), IN_NONE, 0),
    (5, Step::Send(READ_SECOND), NO_SNAPSHOT, 0),
    (5, Step::Send(b"\x14\x06host/a"), BAD_NAME, 0),
    (5, Step::Send(READ_FIRST), DONE, 0),
    (5, Step::Send(READ_FIRST), IN_READER, 0),
    (
        5,
        Step::Send(DOWNLOAD),
        b"_\0\0\0\0V\0\0\0\0\0\0\0B\xab8\x07\xbe\x83p\xa1\xb2\x94\x08E{\"backup-id\":\"a\",\"backup-time\":1579069803,\"backup-type\":\"host\",\"files\":[]}",
        0,
    ),
    (
        5,
        Step::Send(b"\x15\x0findex.json.blobP\0\0\0\0\0\0\0"),
        b"\x0f\0\0\0\0V\0\0\0\0\0\0\0s\":[]}",
        0,
    ),
    (
        5,
        Step::Send(b"\x15\x0findex.json.blobV\0\0\0\0\0\0\0"),
        b"\x09\0\0\0\0V\0\0\0\0\0\0\0",
        0,
    ),
    (
        5,
        Step::Send(b"\x15\x0findex.json.blobW\0\0\0\0\0\0\0"),
        b"\x09\0\0\0\x16V\0\0\0\0\0\0\0",
        0,
    ),
    (
        5,
        Step::Send(b"\x15\x0bx.conf.blob\0\0\0\0\0\0\0\0"),
        NO_FILE,
        0,
    ),
    (5, Step::Send(b"\x15\x04../x\0\0\0\0\0\0\0\0"), BAD_NAME, 0),
    (5, Step::Remove(MANIFEST_PATH), DONE, 0),
    (5, Step::Send(DOWNLOAD), UNREADABLE, 0),
];

/// A reader is closed, and no other session is.
static CLOSED: [Row; 8] = [
    (5, Step::Send(CLOSE_READER), IN_NONE, 0),
    (3, Step::Send(OPEN_OTHER), NO_BASE, 0),
    (3, Step::Send(CLOSE_READER), IN_WRITER, 0),
    (5, Step::Send(READ_FIRST), DONE, 0),
    (5, Step::Send(ABORT), IN_READER, 0),
    (5, Step::Send(CLOSE_READER), DONE, 0),
    (5, Step::Send(DOWNLOAD), IN_NONE, 0),
    (5, Step::Send(CLOSE_READER), IN_NONE, 0),
];

#[test]
fn snapshots_are_read(rt: HostRuntime) {
    try_tables(&rt, rt.alloc(), &[], Archives::Root(0), &WRITTEN, &READ)
}

#[test]
fn readers_are_closed(rt: HostRuntime) {
    try_tables(&rt, rt.alloc(), &[], Archives::Root(0), &WRITTEN, &CLOSED)
}
