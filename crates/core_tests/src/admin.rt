use crate::acts::{Row, Rows, Step};
use crate::asserts::must;
use crate::cases::{put_beside, try_rows, try_tables};
use crate::fixtures::{DIGITS, MANIFEST_PATH, STILL, TestCore, opened};
use crate::folders::Archives;
use crate::sent::{
    ABORT, BAD_NAME, BOTH_KEYS, DONE, FILES, FINISH, FIRST_BASE, FORGET_FIRST, FORGET_SECOND,
    GROUP, IN_WRITER, LIST, NO_BASE, NO_FILE, NO_SNAPSHOT, NONE_THERE, OPEN_FIRST, OPEN_OTHER,
    OPEN_SECOND, PUT_DIGITS, PUT_WITH_FILE, UNREADABLE,
};
use blob_codec::encode;
use disk_trait::MemoryDisk;
use std::alloc::Global;
use std::process::Abort;

/// Two snapshots of one group, the first with a file, and one of another group. None is there before.
static WRITTEN: [Row; 11] = [
    (5, Step::Send(LIST), NONE_THERE, 0),
    (3, Step::Send(OPEN_OTHER), NO_BASE, 0),
    (
        3,
        Step::Send(
            b"\x11\x0findex.json.blobB\xab8\x07\xbe\x83p\xa1b\x01\x0d\xc1{\"backup-id\":\"b\",\"backup-time\":1579069803,\"backup-type\":\"host\",\"files\":[]}",
        ),
        DONE,
        0,
    ),
    (3, Step::Send(FINISH), DONE, 0),
    (3, Step::Send(OPEN_FIRST), NO_BASE, 0),
    (3, Step::Send(PUT_DIGITS), DONE, 0),
    (3, Step::Send(PUT_WITH_FILE), DONE, 0),
    (3, Step::Send(FINISH), DONE, 0),
    (3, Step::Send(OPEN_SECOND), FIRST_BASE, 0),
    (
        3,
        Step::Send(
            b"\x11\x0findex.json.blobB\xab8\x07\xbe\x83p\xa10#\x87\xba{\"backup-id\":\"a\",\"backup-time\":1579069804,\"backup-type\":\"host\",\"files\":[]}",
        ),
        DONE,
        0,
    ),
    (3, Step::Send(FINISH), DONE, 0),
];

fn written() -> Rows {
    &WRITTEN
}

/// They are there, and these acts are done.
fn try_written(rt: &impl Abort, alloc: Global, rows: &[Row]) {
    try_tables(rt, alloc, &[], Archives::Root(0), written(), rows)
}

/// LIST tells the snapshot of the other group alone, and that one behind the second.
const OTHER_LISTED: &[u8] = b"!\0\0\0\0\x01\0\x1bhost/b/2020-01-15T06:30:03Z\0\x01";

const TWO_LISTED: &[u8] =
    b"?\0\0\0\0\x02\0\x1bhost/a/2020-01-15T06:30:04Z\0\x01\x1bhost/b/2020-01-15T06:30:03Z\0\x01";

static LISTED: [Row; 5] = [
    (
        5,
        Step::Send(LIST),
        b"]\0\0\0\0\x03\0\x1bhost/a/2020-01-15T06:30:03Z\0\x02\x1bhost/a/2020-01-15T06:30:04Z\0\x01\x1bhost/b/2020-01-15T06:30:03Z\0\x01",
        0,
    ),
    (
        5,
        Step::Send(b"\x1e\x1bhost/a/2020-01-15T06:30:03Z"),
        TWO_LISTED,
        0,
    ),
    (
        5,
        Step::Send(b"\x1e\x1bhost/a/2021-01-15T06:30:03Z"),
        OTHER_LISTED,
        0,
    ),
    (
        5,
        Step::Send(b"\x1e\x1bhost/b/2020-01-15T06:30:03Z"),
        NONE_THERE,
        0,
    ),
    (5, Step::Send(b"\x1e\x06host/a"), BAD_NAME, 0),
];

static TOLD: [Row; 3] = [
    (5, Step::Send(GROUP), BOTH_KEYS, 0),
    (5, Step::Send(b"(\x04vm/a"), NONE_THERE, 0),
    (
        5,
        Step::Send(b"(\x1bhost/a/2020-01-15T06:30:03Z"),
        BAD_NAME,
        0,
    ),
];

/// PRUNE that keeps the last 1,000, and more years than there may be.
const TOO_MANY: &[u8] = b"!\x06host/b\xe8\x03\0\0\0\0\0\0\0\0\xe9\x03\0";

const OF_NO_GROUP: &[u8] = b"!\x1bhost/a/2020-01-15T06:30:03Z\xe8\x03\0\0\0\0\0\0\0\0\xe9\x03\0";

/// The first steps of prunes, and what they are refused.
static BEGUN: [Row; 5] = [
    (
        5,
        Step::Send(b"!\x06host/b\xe8\x03\0\0\0\0\0\0\0\0\0\0\0"),
        b"\x1f\0\0\0\0\x01\0\x1bhost/b/2020-01-15T06:30:03Z",
        0,
    ),
    (5, Step::Send(TOO_MANY), b"\x05\0\0\0\x15\xe8\x03\0\0", 0),
    (5, Step::Send(OF_NO_GROUP), BAD_NAME, 0),
    (
        5,
        Step::Send(b"\x0a\x19vm/a/2020-01-15T06:30:03Z"),
        NO_BASE,
        0,
    ),
    (5, Step::Send(OF_NO_GROUP), IN_WRITER, 0),
];

/// The files of a snapshot; then its manifest is a blob of other bytes, another snapshot's manifest, and gone.
static TOLD_FILES: [Row; 9] = [
    (
        5,
        Step::Send(FILES),
        b"n\0\0\0\0\x02\x0ba.conf.blob\x15\0\0\0\0\0\0\0i\xdc\xb4\x83\x0c( <&\xa1\xda\xde-\x89=\x7f\x1d\x13\xcd\xba^\xb3\x9e4\x8b\0\x8f:Z\x0f\xb6\x88\x0findex.json.blob\xc4\0\0\0\0\0\0\0\x07\x86\xbdrCA\x09\x1d\x05\xd3\x02\xe7m}+i\xf6/\xf7\xe0\xce\xce\xc0\x1d\xe6\xd5W\x14o\x04\xdc\xca",
        0,
    ),
    (
        5,
        Step::Send(b"\x1f\x1bhost/c/2020-01-15T06:30:03Z"),
        NO_SNAPSHOT,
        0,
    ),
    (5, Step::Send(b"\x1f\x06host/a"), BAD_NAME, 0),
    (5, Step::Put(MANIFEST_PATH, DIGITS), DONE, 0),
    (5, Step::Send(FILES), UNREADABLE, 0),
    (
        5,
        Step::Put(
            MANIFEST_PATH,
            b"B\xab8\x07\xbe\x83p\xa10#\x87\xba{\"backup-id\":\"a\",\"backup-time\":1579069804,\"backup-type\":\"host\",\"files\":[]}",
        ),
        DONE,
        0,
    ),
    (
        5,
        Step::Send(FILES),
        b":\0\0\0\0\x01\x0findex.json.blobV\0\0\0\0\0\0\0Og\xd4)\xf4\xea\xadp\x9e\x91\xe0|\x01\x94kU]\x82\x0a\xf8\x1b\xd6m\x89\x11\x9dI\x88WE\x9bn",
        0,
    ),
    (5, Step::Remove(MANIFEST_PATH), DONE, 0),
    (5, Step::Send(FILES), UNREADABLE, 0),
];

#[test]
fn snapshots_are_listed(rt: HostRuntime) {
    try_written(&rt, rt.alloc(), &LISTED)
}

#[test]
fn groups_are_told(rt: HostRuntime) {
    try_written(&rt, rt.alloc(), &TOLD)
}

#[test]
fn prunes_begin(rt: HostRuntime) {
    try_written(&rt, rt.alloc(), &BEGUN)
}

#[test]
fn files_are_told(rt: HostRuntime) {
    try_written(&rt, rt.alloc(), &TOLD_FILES)
}

/// The front of a manifest of the first, and what it lists of a file but for the first letters of its name.
const LISTING: &[u8] =
    b"{\"backup-id\":\"a\",\"backup-time\":1579069803,\"backup-type\":\"host\",\"files\":[";

const LISTED_FILE: &[u8] =
    b".blob\",\"size\":21,\"csum\":\"69dcb4830c28203c26a1dade2d893d7f1d13cdba5eb39e348b008f3a5a0fb688\"}";

/// The blob of a manifest of the first that lists 64 files.
fn listing(rt: &impl Abort, alloc: Global) -> Vec<u8> {
    let mut text = must(rt, LISTING.to_vec(alloc));
    for number in 0..64u8 {
        must(
            rt,
            text.extend_from_slice(if 0 < number { b"," } else { b"" }),
        );
        must(rt, text.extend_from_slice(b"{\"filename\":\""));
        must(rt, text.push(b'a' + number / 8));
        must(rt, text.push(b'a' + number % 8));
        must(rt, text.extend_from_slice(LISTED_FILE));
    }
    must(rt, text.extend_from_slice(b"]}"));
    must(rt, must(rt, encode(alloc, &text)).ok().ok_or("too long"))
}

static NO_MANIFEST: [Row; 1] = [(5, Step::Send(FILES), UNREADABLE, 0)];

fn try_listing(rt: &impl Abort, core: &mut TestCore, alloc: Global) {
    try_rows(rt, core, alloc, [0; 4], written());
    put_beside(rt, core, alloc, MANIFEST_PATH, &listing(rt, alloc));
    try_rows(rt, core, alloc, [1, 0, 0, 0], &NO_MANIFEST)
}

/// A manifest that was put there since the datastore was opened lists 64 files, which no FINISH makes.
#[test]
fn a_manifest_of_64_files_is_none(rt: HostRuntime) {
    let alloc = rt.alloc();
    let mut core = opened(&rt, alloc, MemoryDisk::new(alloc), STILL);
    try_listing(&rt, &mut core, alloc)
}

/// A writer has the second as base, which is not forgotten then. The first is: its manifest goes, a sync, and its other file. The
/// second is forgotten once its holder has ended.
static FORGOTTEN: [Row; 14] = [
    (
        6,
        Step::Send(b"\x0a\x1bhost/a/2020-01-15T06:30:05Z"),
        b"\x1d\0\0\0\0\x1bhost/a/2020-01-15T06:30:04Z",
        0,
    ),
    (5, Step::Send(FORGET_SECOND), b"\x05\0\0\0\x06\x06\0\0\0", 0),
    (6, Step::Send(FORGET_SECOND), IN_WRITER, 0),
    (5, Step::Send(b" \x06host/a"), BAD_NAME, 0),
    (5, Step::Send(FORGET_FIRST), DONE, 0),
    (5, Step::Calls(3), DONE, 0),
    (5, Step::Names("host/a/2020-01-15T06:30:03Z", 0), DONE, 0),
    (5, Step::Names("host/", 2), DONE, 0),
    (5, Step::Holds(MANIFEST_PATH, 196), NO_FILE, 0),
    (5, Step::Send(FORGET_FIRST), NO_SNAPSHOT, 0),
    (5, Step::Send(LIST), TWO_LISTED, 0),
    (6, Step::Send(ABORT), DONE, 0),
    (5, Step::Send(FORGET_SECOND), DONE, 0),
    (5, Step::Send(GROUP), NONE_THERE, 0),
];

#[test]
fn snapshots_are_forgotten(rt: HostRuntime) {
    try_written(&rt, rt.alloc(), &FORGOTTEN)
}
