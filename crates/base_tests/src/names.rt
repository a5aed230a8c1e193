use crate::asserts::{must, same, same_at};
use std::alloc::Global;
use std::process::Abort;
use store_types::{BadBlob, BadName, FileName, GroupKey, Kind, SnapshotKey, date_of_day};

/// A snapshot's text, and what it names. The seconds are those of `date -u +%s`.
type Row = (&'static str, Kind, &'static str, u64);

/// Snapshots in their order: `ct`, `host`, `vm`, then the bytes of the id, then the time.
static SNAPSHOTS: [Row; 10] = [
    ("ct/z/9999-12-31T23:59:59Z", Kind::Ct, "z", 253_402_300_799),
    ("host/0/2000-02-29T23:59:59Z", Kind::Host, "0", 951_868_799),
    ("host/Z/1970-01-01T00:00:00Z", Kind::Host, "Z", 0),
    ("host/_/1970-01-01T00:00:00Z", Kind::Host, "_", 0),
    (
        "host/a/2020-01-15T06:30:03Z",
        Kind::Host,
        "a",
        1_579_069_803,
    ),
    (
        "host/a/2020-02-29T00:00:00Z",
        Kind::Host,
        "a",
        1_582_934_400,
    ),
    ("host/a-b/1970-01-01T00:00:00Z", Kind::Host, "a-b", 0),
    ("host/a.b/1970-01-01T00:00:00Z", Kind::Host, "a.b", 0),
    (
        "host/aaaaaaaabbbbbbbbccccccccddddddddeeeeeeeeffffffff0000000011111111/2100-03-01T00:00:00Z",
        Kind::Host,
        "aaaaaaaabbbbbbbbccccccccddddddddeeeeeeeeffffffff0000000011111111",
        4_107_542_400,
    ),
    ("vm/0/1970-01-01T00:00:00Z", Kind::Vm, "0", 0),
];

/// Texts with a wrong kind or id, or with too few or too many parts.
static NO_SNAPSHOTS: [&str; 13] = [
    "",
    "host/a",
    "/a/2020-01-15T06:30:03Z",
    "Host/a/2020-01-15T06:30:03Z",
    "disk/a/2020-01-15T06:30:03Z",
    "host//2020-01-15T06:30:03Z",
    "host/.a/2020-01-15T06:30:03Z",
    "host/-a/2020-01-15T06:30:03Z",
    "host/a b/2020-01-15T06:30:03Z",
    "host/ä/2020-01-15T06:30:03Z",
    "host/aaaaaaaabbbbbbbbccccccccddddddddeeeeeeeeffffffff00000000111111112/2020-01-15T06:30:03Z",
    "host/a/2020-01-15T06:30:03Z/",
    "host/a/b/2020-01-15T06:30:03Z",
];

/// Texts with a wrong time.
static NO_TIMES: [&str; 15] = [
    "host/a/2020-13-15T06:30:03Z",
    "host/a/2020-00-15T06:30:03Z",
    "host/a/2020-01-00T06:30:03Z",
    "host/a/2020-04-31T06:30:03Z",
    "host/a/2021-02-29T06:30:03Z",
    "host/a/2100-02-29T06:30:03Z",
    "host/a/2020-01-15T24:00:00Z",
    "host/a/2020-01-15T06:60:00Z",
    "host/a/2016-12-31T23:59:60Z",
    "host/a/1969-12-31T23:59:59Z",
    "host/a/10000-01-01T00:00:00Z",
    "host/a/2020-01-15T06:30:03",
    "host/a/2020-01-15t06:30:03z",
    "host/a/2020-1-15T06:30:03Z",
    "host/a/2020-01-15T06:30:03+00:00",
];

static NO_GROUPS: [&str; 9] = [
    "",
    "host",
    "host/",
    "/a",
    "tape/a",
    "HOST/a",
    "host/-a",
    "host/a/",
    "host/a/2020-01-15T06:30:03Z",
];

static NO_FILE_NAMES: [&str; 9] = [
    "",
    ".blob",
    ".a.blob",
    "-a.blob",
    "root.pxar",
    "root.BLOB",
    "root.blob ",
    "a/b.blob",
    "aaaaaaaabbbbbbbbccccccccddddddddeeeeeeeeffffffff00000000112_.blob",
];

fn check_snapshot(rt: &impl Abort, alloc: Global, row: &Row) -> SnapshotKey {
    let (text, kind, id, time) = row;
    let key = must(rt, must(rt, SnapshotKey::parse(alloc, text.as_bytes())));
    same(rt, (key.kind, key.time), (*kind, *time));
    same(rt, key.id.as_slice(), id.as_bytes());
    same(rt, must(rt, key.print(alloc)).as_str(), *text);
    key
}

#[test]
fn snapshots(rt: HostRuntime) {
    let alloc = rt.alloc();
    let mut before: Option<SnapshotKey> = None;
    for row in &SNAPSHOTS {
        let key = check_snapshot(&rt, alloc, row);
        if let Some(before) = before {
            same_at(&rt, row.0, before < key, true);
        }
        before = Some(key);
    }
}

/// What a text may be the name of.
#[derive(Clone, Copy, Debug)]
enum Named {
    Snapshot,
    Group,
    File,
}

fn is_name(rt: &impl Abort, alloc: Global, named: Named, text: &[u8]) -> bool {
    match named {
        Named::Snapshot => must(rt, SnapshotKey::parse(alloc, text)).is_ok(),
        Named::Group => must(rt, GroupKey::parse(alloc, text)).is_ok(),
        Named::File => must(rt, FileName::check(alloc, text)).is_ok(),
    }
}

fn try_no_names(rt: &impl Abort, alloc: Global, named: Named, texts: &[&str]) {
    for text in texts {
        let found = is_name(rt, alloc, named, text.as_bytes());
        same_at(rt, (named, *text), found, false);
    }
}

#[test]
fn no_names(rt: HostRuntime) {
    let alloc = rt.alloc();
    try_no_names(&rt, alloc, Named::Snapshot, &NO_SNAPSHOTS);
    try_no_names(&rt, alloc, Named::Snapshot, &NO_TIMES);
    try_no_names(&rt, alloc, Named::Group, &NO_GROUPS);
    try_no_names(&rt, alloc, Named::File, &NO_FILE_NAMES);
}

fn snapshot(rt: &impl Abort, alloc: Global) -> SnapshotKey {
    must(
        rt,
        must(
            rt,
            SnapshotKey::parse(alloc, b"host/a/2020-01-15T06:30:03Z"),
        ),
    )
}

fn group(rt: &impl Abort, alloc: Global, text: &[u8]) -> GroupKey {
    must(rt, must(rt, GroupKey::parse(alloc, text)))
}

fn try_copy(rt: &impl Abort, key: &SnapshotKey) {
    let copy = must(rt, key.clone());
    same(rt, key.same_group(&copy), true);
    same(rt, copy == *key, true);
}

fn try_group(rt: &impl Abort, alloc: Global, key: &SnapshotKey) {
    let group = group(rt, alloc, b"host/a");
    same(rt, key.is_of(&group), true);
    same(rt, must(rt, key.group(alloc)), group);
}

#[test]
fn keys(rt: HostRuntime) {
    let key = snapshot(&rt, rt.alloc());
    try_copy(&rt, &key);
    try_group(&rt, rt.alloc(), &key)
}

fn printed(rt: &impl Abort, alloc: Global, text: &[u8]) -> String {
    must(
        rt,
        must(rt, must(rt, GroupKey::parse(alloc, text))).print(alloc),
    )
}

#[test]
fn groups(rt: HostRuntime) {
    same(&rt, printed(&rt, rt.alloc(), b"host/a").as_str(), "host/a");
    let later = group(&rt, rt.alloc(), b"vm/9");
    same(
        &rt,
        must(&rt, group(&rt, rt.alloc(), b"host/a").clone()) < later,
        true,
    );
}

/// A name, and whether it is one of a fixed index, a dynamic index and a blob.
type FileRow = (&'static str, (bool, bool, bool));

/// File names in their order.
static FILE_NAMES: [FileRow; 4] = [
    (
        "aaaaaaaabbbbbbbbccccccccddddddddeeeeeeeeffffffff0000000011_.blob",
        (false, false, true),
    ),
    ("drive-scsi0.img.fidx", (true, false, false)),
    ("index.json.blob", (false, false, true)),
    ("root.didx", (false, true, false)),
];

fn file(rt: &impl Abort, alloc: Global, text: &str) -> FileName {
    must(rt, must(rt, FileName::check(alloc, text.as_bytes())))
}

fn try_kinds(rt: &impl Abort, name: &FileName, row: &FileRow) {
    let (text, kinds) = row;
    let found = (name.is_fixed(), name.is_dynamic(), name.is_blob());
    same_at(rt, *text, found, *kinds);
    same_at(rt, *text, name.is_index(), !name.is_blob());
    same_at(rt, *text, name.is_manifest(), *text == "index.json.blob");
}

fn try_text(rt: &impl Abort, alloc: Global, name: &FileName, text: &str) {
    same(rt, must(rt, name.print(alloc)).as_str(), text);
    let copy = must(rt, name.clone());
    let is_manifest = copy == must(rt, FileName::manifest(alloc));
    same_at(rt, text, is_manifest, text == "index.json.blob");
}

fn check_file(rt: &impl Abort, alloc: Global, row: &FileRow) -> FileName {
    let name = file(rt, alloc, row.0);
    try_kinds(rt, &name, row);
    try_text(rt, alloc, &name, row.0);
    name
}

#[test]
fn file_names(rt: HostRuntime) {
    let alloc = rt.alloc();
    let mut before: Option<FileName> = None;
    for row in &FILE_NAMES {
        let name = check_file(&rt, alloc, row);
        if let Some(before) = before {
            same_at(&rt, row.0, before < name, true);
        }
        before = Some(name);
    }
}

#[test]
fn dates(rt: HostRuntime) {
    let date = date_of_day(18_276);
    same(&rt, (date.year, date.month, date.day), (2020, 1, 15));
}

#[test]
fn faults(rt: HostRuntime) {
    let fault = BadBlob::WrongCrc {
        kept: 0xcbf4_3927,
        found: 0xcbf4_3926,
    };
    let text = must(&rt, format!(in rt.alloc(); "{fault}; {BadName}"));
    let want = "the checksum is cbf43926, where cbf43927 is kept; the name is not in its grammar";
    same(&rt, text.as_str(), want);
}
