use crate::acts::{Row, Step};
use crate::cases::try_tables;
use crate::fixtures::MANIFEST_PATH;
use crate::folders::Archives;
use crate::sent::{
    ABORT, DONE, EXISTS, FINISH, FIRST_BASE, GROUP_BUSY, IN_NONE, NO_BASE, NO_FILE, NOT_NEWER,
    NOTHING, OPEN_FIRST, OPEN_SECOND, PUT_DIGITS, PUT_WITH_FILE,
};

/// A BLOB of nothing as `b.blob`.
const PUT_EMPTY: &[u8] = b"\x11\x06b.blobB\xab8\x07\xbe\x83p\xa1\0\0\0\0";

/// A file of the first snapshot, and one of the second.
const A_PATH: &str = "host/a/2020-01-15T06:30:03Z/a.conf.blob";

const B_PATH: &str = "host/a/2020-01-15T06:30:04Z/b.blob";

/// The manifest has 196 bytes. It stands there once it is finished.
static WRITTEN: [Row; 9] = [
    (3, Step::Send(OPEN_FIRST), NO_BASE, 0),
    (4, Step::Send(OPEN_SECOND), GROUP_BUSY, 0),
    (3, Step::Send(PUT_DIGITS), DONE, 0),
    (3, Step::Send(PUT_DIGITS), EXISTS, 0),
    (3, Step::Send(FINISH), NO_FILE, 0),
    (3, Step::Send(PUT_WITH_FILE), DONE, 0),
    (3, Step::Holds(MANIFEST_PATH, 196), NO_FILE, 0),
    (3, Step::Send(FINISH), DONE, 0),
    (3, Step::Holds(MANIFEST_PATH, 196), DONE, 0),
];

/// The group has a snapshot then, which is the base of the next.
static NEXT: [Row; 6] = [
    (3, Step::Send(OPEN_FIRST), NOT_NEWER, 0),
    (4, Step::Send(OPEN_SECOND), FIRST_BASE, 0),
    (4, Step::Send(PUT_EMPTY), DONE, 0),
    (4, Step::End, NOTHING, 6),
    (4, Step::Holds(B_PATH, 12), NO_FILE, 0),
    (5, Step::Send(OPEN_SECOND), FIRST_BASE, 0),
];

/// One snapshot from its writer's first command to its last, and one that is never finished.
#[test]
fn snapshots_are_written(rt: HostRuntime) {
    try_tables(&rt, rt.alloc(), &[], Archives::Root(0), &WRITTEN, &NEXT)
}

static ABORTED: [Row; 15] = [
    (3, Step::Send(ABORT), IN_NONE, 0),
    (3, Step::Send(OPEN_FIRST), NO_BASE, 0),
    (3, Step::Send(PUT_DIGITS), DONE, 0),
    (3, Step::Send(PUT_WITH_FILE), DONE, 0),
    (3, Step::Send(FINISH), DONE, 0),
    (4, Step::Send(OPEN_SECOND), FIRST_BASE, 0),
    (4, Step::Send(PUT_EMPTY), DONE, 0),
    (
        4,
        Step::Send(b"\x11\x0findex.json.blobB\xab8\x07\xbe\x83p\xa1\0\0\0\0"),
        DONE,
        0,
    ),
    (4, Step::Holds(B_PATH, 12), DONE, 0),
    (4, Step::Send(ABORT), DONE, 0),
    (4, Step::Holds(B_PATH, 12), NO_FILE, 0),
    (4, Step::Holds(A_PATH, 21), DONE, 0),
    (4, Step::Holds(MANIFEST_PATH, 196), DONE, 0),
    (4, Step::Send(ABORT), IN_NONE, 0),
    (5, Step::Send(OPEN_SECOND), FIRST_BASE, 0),
];

/// What an ABORT takes away, and what it leaves.
#[test]
fn writers_are_aborted(rt: HostRuntime) {
    try_tables(&rt, rt.alloc(), &[], Archives::Root(0), &[], &ABORTED)
}
