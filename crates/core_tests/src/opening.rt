//! Folders that an earlier run left, with damaged snapshots among them, opened and asked.

use crate::acts::{Row, Step};
use crate::cases::{behind, try_tables};
use crate::fixtures::{DIGITS, MANIFEST, MANIFEST_PATH};
use crate::folders::{Archives, Contents, folder};
use crate::sent::{
    ABORT, BOTH_KEYS, DONE, FILES, FIRST_BASE, FORGET_OTHER, FORGET_SECOND, GROUP, IN_READER, LIST,
    NO_BASE, NO_SNAPSHOT, ONE_LISTED, OPEN_FIRST, OPEN_SECOND, READ_FIRST, READ_SECOND,
};

/// The first is whole. Three bytes stand in place of the second's manifest, beside a file that none lists. The other's file is missing.
const LEFT: Contents = &[
    (MANIFEST_PATH, MANIFEST),
    ("host/a/2020-01-15T06:30:04Z/index.json.blob", b"abc"),
    ("host/a/2020-01-15T06:30:04Z/b.blob", DIGITS),
    (
        "host/b/2020-01-15T06:30:03Z/index.json.blob",
        b"B\xab8\x07\xbe\x83p\xa1V\xf2\x06q{\"backup-id\":\"b\",\"backup-time\":1579069803,\"backup-type\":\"host\",\"files\":[{\"crypt-mode\":\"none\",\"csum\":\"69dcb4830c28203c26a1dade2d893d7f1d13cdba5eb39e348b008f3a5a0fb688\",\"filename\":\"a.conf.blob\",\"size\":21}]}",
    ),
];

/// The first is told whole, the others damaged and without files.
const ALL_LISTED: &[u8] =
    b"]\0\0\0\0\x03\0\x1bhost/a/2020-01-15T06:30:03Z\0\x01\x1bhost/a/2020-01-15T06:30:04Z\x01\0\x1bhost/b/2020-01-15T06:30:03Z\x01\0";

/// Each of the two is unreadable, told with the name of the file that makes it so.
const SECOND_UNREADABLE: &[u8] = b"-\0\0\0\x18+host/a/2020-01-15T06:30:04Z/index.json.blob";

const OTHER_UNREADABLE: &[u8] = b")\0\0\0\x18'host/b/2020-01-15T06:30:03Z/a.conf.blob";

/// A writer's snapshot is not later than the second.
const NOT_NEWER: &[u8] = b"\x09\0\0\0\x07l\xb1\x1e^\0\0\0\0";

/// A snapshot of the group that is later than the second.
const OPEN_THIRD: &[u8] = b"\x0a\x1bhost/a/2020-01-15T06:30:05Z";

/// What is told of them.
static TOLD: [Row; 11] = [
    (5, Step::Send(LIST), ALL_LISTED, 0),
    (5, Step::Send(GROUP), BOTH_KEYS, 0),
    (
        5,
        Step::Send(FILES),
        b":\0\0\0\0\x01\x0findex.json.blobV\0\0\0\0\0\0\0\xc1j.\x19\xd5R\x1a\xca\xf0\x88\xf4=\x8do\x0b\xa1\x15\x198\xc1]X\x98\xda\xe2Gt$tAN\xa2",
        0,
    ),
    (
        5,
        Step::Send(b"\x1f\x1bhost/a/2020-01-15T06:30:04Z"),
        SECOND_UNREADABLE,
        0,
    ),
    (
        5,
        Step::Send(b"\x1f\x1bhost/b/2020-01-15T06:30:03Z"),
        OTHER_UNREADABLE,
        0,
    ),
    (
        5,
        Step::Send(b"\x1f\x1bhost/a/2020-01-15T06:30:05Z"),
        NO_SNAPSHOT,
        0,
    ),
    (5, Step::Send(READ_SECOND), SECOND_UNREADABLE, 0),
    (
        5,
        Step::Send(b"\x14\x1bhost/b/2020-01-15T06:30:03Z"),
        OTHER_UNREADABLE,
        0,
    ),
    (
        5,
        Step::Send(b"\x14\x1bhost/a/2020-01-15T06:30:05Z"),
        NO_SNAPSHOT,
        0,
    ),
    (5, Step::Send(READ_FIRST), DONE, 0),
    (5, Step::Send(READ_SECOND), IN_READER, 0),
];

/// What begins a writer. The base is the whole snapshot, though a damaged one is later.
static WRITTEN: [Row; 7] = [
    (3, Step::Send(OPEN_FIRST), NOT_NEWER, 0),
    (3, Step::Send(OPEN_SECOND), NOT_NEWER, 0),
    (3, Step::Send(OPEN_THIRD), FIRST_BASE, 0),
    (3, Step::Send(ABORT), DONE, 0),
    (
        3,
        Step::Send(b"\x0a\x1bhost/b/2020-01-15T06:30:04Z"),
        NO_BASE,
        0,
    ),
    (3, Step::Send(ABORT), DONE, 0),
    (5, Step::Send(LIST), ALL_LISTED, 0),
];

/// The damaged ones are forgotten, and the second's time with it.
static FORGOTTEN: [Row; 7] = [
    (5, Step::Send(FORGET_SECOND), DONE, 0),
    (5, Step::Send(FORGET_OTHER), DONE, 0),
    (5, Step::Send(FORGET_OTHER), NO_SNAPSHOT, 0),
    (5, Step::Send(LIST), ONE_LISTED, 0),
    (3, Step::Send(OPEN_SECOND), FIRST_BASE, 0),
    (3, Step::Send(ABORT), DONE, 0),
    (5, Step::Names("host/", 2), DONE, 0),
];

static AGAIN: [Row; 2] = [
    (5, Step::Send(LIST), ONE_LISTED, 0),
    (5, Step::Names("", 1), DONE, 0),
];

#[test]
fn damaged_snapshots_are_told(rt: HostRuntime) {
    try_tables(&rt, rt.alloc(), LEFT, Archives::Root(0), &[], &TOLD)
}

#[test]
fn damaged_snapshots_are_no_base(rt: HostRuntime) {
    try_tables(&rt, rt.alloc(), LEFT, Archives::Root(0), &[], &WRITTEN)
}

/// The damaged ones are forgotten. What no manifest listed is left, and goes as the folder is opened again.
#[test]
fn damaged_snapshots_are_forgotten(rt: HostRuntime) {
    let alloc = rt.alloc();
    let left = folder(&rt, alloc, LEFT, Archives::Root(0));
    let left = behind(&rt, alloc, left, &[], &FORGOTTEN);
    drop(behind(&rt, alloc, left, &[], &AGAIN));
}
