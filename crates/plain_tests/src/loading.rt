//! Folders that are loaded as a plain store: LIST tells the whole snapshots. That the core tells the same, and which others are damaged, is
//! in the scenarios of `folders`. The bytes are made by `tests/make-tables`.

use crate::asserts::{must, same};
use crate::folders::{change, numbered};
use crate::reading::{BLOB, DYNAMIC, MANIFEST, OTHER_BLOB, datastore};
use crate::weaving::told_alone;
use disk_trait::MemoryDisk;
use plain_store::Plain;
use std::alloc::Global;
use std::process::Abort;

/// LIST from the first snapshot on.
const LIST: &[u8] = b"\x02\0\0\0\x1e\0";

/// The folder is loaded, which tells whether a snapshot is damaged, and LIST tells this.
fn try_folder(
    rt: &impl Abort,
    alloc: Global,
    mut disk: MemoryDisk,
    wanted: &[u8],
    is_damaged: bool,
) {
    let (store, damaged) = must(rt, Plain::load_told(alloc, &mut disk));
    same(rt, &[damaged as u8], &[is_damaged as u8]);
    let told = told_alone(rt, alloc, &store, None, b"06", LIST);
    same(rt, told.as_slice(), wanted);
}

/// What stands at a name of the datastore in place of what stood there, or nothing.
type Change = (&'static str, Option<&'static [u8]>);

/// Changes of the datastore, what is told of its snapshots then, and whether one is damaged.
type Row = (&'static [Change], &'static [u8], bool);

const BOTH: &[u8] =
    b"A\0\0\0\0\x02\0\x1bhost/a/2020-01-15T06:30:03Z\0\x04\x1dhost/a-b/2020-01-15T06:30:03Z\0\x01";

const OTHER_ALONE: &[u8] = b"#\0\0\0\0\x01\0\x1dhost/a-b/2020-01-15T06:30:03Z\0\x01";

/// Three bytes, which are no blob, and the blob of one byte, which is no manifest.
const ABC: &[u8] = b"abc";

const NO_JSON: &[u8] = b"B\xab8\x07\xbe\x83p\xa1\x83\x16\xdc\x8cx";

/// Other manifests, files and indexes. No index and no blob is read at opening; without its manifest a snapshot is not finished.
static DAMAGED: [Row; 8] = [
    (&[], BOTH, false),
    (&[(MANIFEST, Some(ABC))], OTHER_ALONE, true),
    (&[(MANIFEST, Some(b""))], OTHER_ALONE, true),
    (&[(MANIFEST, Some(NO_JSON))], OTHER_ALONE, true),
    (&[(BLOB, None)], OTHER_ALONE, true),
    (&[(DYNAMIC, None)], OTHER_ALONE, true),
    (&[(DYNAMIC, Some(ABC)), (BLOB, Some(ABC))], BOTH, false),
    (&[(MANIFEST, None)], OTHER_ALONE, false),
];

/// Names that are none of a snapshot's files; those that go at an opening; snapshots of all types, whatever key their manifests have, one of
/// them damaged, and a file that no manifest lists.
static OTHERS: [Row; 3] = [
    (
        &[
            (".chunks/ba78/ba78", Some(ABC)),
            (".chunks/book", Some(ABC)),
            ("host/a/2020-01-15T06:30:03Z/notes.txt", Some(ABC)),
            (
                "host/a/2020-01-15T06:30:03Z/x/index.json.blob",
                Some(OTHER_BLOB),
            ),
            (
                "host/a/2020-02-30T06:30:03Z/index.json.blob",
                Some(OTHER_BLOB),
            ),
            ("host/a/index.json.blob", Some(OTHER_BLOB)),
            ("index.json.blob", Some(OTHER_BLOB)),
            ("notes.txt", Some(ABC)),
            (
                "vm/-/2020-01-15T06:30:03Z/index.json.blob",
                Some(OTHER_BLOB),
            ),
        ],
        BOTH,
        false,
    ),
    (
        &[
            (
                "host/a/2020-01-15T06:30:03Z/index.json.blob.tmp",
                Some(OTHER_BLOB),
            ),
            (
                "host/a/2020-01-15T06:30:04Z/index.json.blob.tmp",
                Some(OTHER_BLOB),
            ),
            ("host/a/2020-01-15T06:30:04Z/set.blob", Some(ABC)),
            ("notes.tmp", Some(ABC)),
        ],
        BOTH,
        false,
    ),
    (
        &[
            (
                "ct/z/2020-01-15T06:30:03Z/index.json.blob",
                Some(OTHER_BLOB),
            ),
            ("host/a-b/2020-01-15T06:30:03Z/set.blob", Some(ABC)),
            ("host/a/2020-01-15T06:30:04Z/index.json.blob", Some(ABC)),
            (
                "vm/A/9999-12-31T23:59:59Z/index.json.blob",
                Some(OTHER_BLOB),
            ),
        ],
        b"y\0\0\0\0\x04\0\x19ct/z/2020-01-15T06:30:03Z\0\x01\x1bhost/a/2020-01-15T06:30:03Z\0\x04\x1dhost/a-b/2020-01-15T06:30:03Z\0\x01\x19vm/A/9999-12-31T23:59:59Z\0\x01",
        true,
    ),
];

/// The datastore with these changes.
fn changed(rt: &impl Abort, alloc: Global, changes: &[Change]) -> MemoryDisk {
    let mut disk = datastore(rt, alloc);
    for (name, bytes) in changes {
        change(rt, &mut disk, alloc, name, *bytes);
    }
    disk
}

fn try_rows(rt: &impl Abort, alloc: Global, rows: &[Row]) {
    for (changes, wanted, damaged) in rows {
        try_folder(rt, alloc, changed(rt, alloc, changes), wanted, *damaged);
    }
}

#[test]
fn damaged_snapshots_are_left_out(rt: HostRuntime) {
    try_rows(&rt, rt.alloc(), &DAMAGED)
}

#[test]
fn other_names_are_passed_over(rt: HostRuntime) {
    try_rows(&rt, rt.alloc(), &OTHERS)
}

/// The blob of a manifest that lists files of these numbers, from 10 on, behind its header.
fn many_listed(rt: &impl Abort, alloc: Global, header: &[u8], end: usize) -> Vec<u8> {
    let mut text = must(rt, header.to_vec(alloc));
    must(
        rt,
        text.extend_from_slice(
            b"{\"backup-id\":\"a\",\"backup-time\":1579069803,\"backup-type\":\"host\",\"files\":[",
        ),
    );
    for number in 10..end {
        must(
            rt,
            text.extend_from_slice(
                b"{\"crypt-mode\":\"none\",\"csum\":\"313cbece05892a562406ace8a0eee5e8e7b544fda0b69693e09f90cc6fff476b\",\"filename\":\"",
            ),
        );
        let name = numbered(rt, alloc, "x", number, ".blob\",\"size\":12},");
        must(rt, text.extend_from_slice(name.as_bytes()));
    }
    let _ = text.pop();
    must(rt, text.extend_from_slice(b"]}"));
    text
}

/// How the files' paths begin.
const PATH: &str = "host/a/2020-01-15T06:30:03Z/x";

/// A disk with that manifest, and with the files.
fn with_many(rt: &impl Abort, alloc: Global, header: &[u8], end: usize) -> MemoryDisk {
    let mut disk = MemoryDisk::new(alloc);
    let manifest = many_listed(rt, alloc, header, end);
    change(rt, &mut disk, alloc, MANIFEST, Some(&manifest));
    for number in 10..end {
        let name = numbered(rt, alloc, PATH, number, ".blob");
        change(rt, &mut disk, alloc, name.as_str(), Some(ABC));
    }
    disk
}

/// A manifest lists 63 files at most: the headers of the blobs of two, what is told, and whether it is damaged.
static MANY: [(&[u8], usize, &[u8], bool); 2] = [
    (
        b"B\xab8\x07\xbe\x83p\xa1\xf6P\xb4\x1a",
        73,
        b"!\0\0\0\0\x01\0\x1bhost/a/2020-01-15T06:30:03Z\0@",
        false,
    ),
    (
        b"B\xab8\x07\xbe\x83p\xa1\x888&)",
        74,
        b"\x03\0\0\0\0\0\0",
        true,
    ),
];

#[test]
fn many_files_are_listed(rt: HostRuntime) {
    let alloc = rt.alloc();
    for (header, end, wanted, damaged) in &MANY {
        let disk = with_many(&rt, alloc, header, *end);
        try_folder(&rt, alloc, disk, wanted, *damaged);
    }
}
