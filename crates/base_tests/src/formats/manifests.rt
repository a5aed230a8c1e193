use crate::asserts::{must, same, same_at};
use crate::formats::fixtures::ABC;
use manifest::{BadManifest, FileFact, Manifest, check, read};
use std::alloc::Global;
use std::process::Abort;
use store_types::{Bytes, Digest32, FileName, Kind, Rows, SnapshotKey};

const ZEROS: Digest32 = Digest32([0; 32]);

/// The text in front of the list of files, and the one behind.
const FRONT: &str =
    "{\"backup-id\":\"a\",\"backup-time\":1579069803,\"backup-type\":\"host\",\"files\":[";

const BACK: &str = "]}";

/// Texts without entries that are no JSON or lack a key, and the cause; 0 where there is none.
static WHOLE: [(&str, u8); 13] = [
    (
        "{\"backup-id\":\"a\",\"backup-time\":1579069803,\"backup-type\":\"host\",\"files\":[]}",
        0,
    ),
    ("", 1),
    ("[]x", 1),
    (
        "{\"backup-id\":\"a\",\"backup-time\":01,\"backup-type\":\"host\",\"files\":[]}",
        1,
    ),
    (
        "{\"backup-id\":\"a\",\"backup-time\":1e400,\"backup-type\":\"host\",\"files\":[]}",
        1,
    ),
    (
        "{\"backup-id\":\"a\",\"backup-time\":1,\"backup-type\":\"host\",\"files\":[],\"x\":\"\\ud800\"}",
        1,
    ),
    ("[]", 2),
    ("null", 2),
    ("{}", 2),
    (
        "{\"backup-time\":1,\"backup-type\":\"host\",\"files\":[]}",
        2,
    ),
    (
        "{\"backup-id\":\"a\",\"backup-type\":\"host\",\"files\":[]}",
        2,
    ),
    ("{\"backup-id\":\"a\",\"backup-time\":1,\"files\":[]}", 2),
    (
        "{\"backup-id\":\"a\",\"backup-time\":1,\"backup-type\":\"host\"}",
        2,
    ),
];

/// Texts with values that are not as they should be, and others beside them that are.
static VALUES: [(&str, u8); 15] = [
    (
        "{\"backup-id\":1,\"backup-time\":1,\"backup-type\":\"host\",\"files\":[]}",
        2,
    ),
    (
        "{\"backup-id\":\"\",\"backup-time\":1,\"backup-type\":\"host\",\"files\":[]}",
        2,
    ),
    (
        "{\"backup-id\":\"a/b\",\"backup-time\":1,\"backup-type\":\"host\",\"files\":[]}",
        2,
    ),
    (
        "{\"backup-id\":\"b\",\"backup-time\":1,\"backup-type\":\"host/a\",\"files\":[]}",
        2,
    ),
    (
        "{\"backup-id\":\"a\",\"backup-time\":1,\"backup-type\":\"HOST\",\"files\":[]}",
        2,
    ),
    (
        "{\"backup-id\":\"a\",\"backup-time\":1,\"backup-type\":\"host\",\"files\":{}}",
        2,
    ),
    (
        "{\"backup-id\":\"a\",\"backup-time\":5.0,\"backup-type\":\"host\",\"files\":[]}",
        2,
    ),
    (
        "{\"backup-id\":\"a\",\"backup-time\":5e0,\"backup-type\":\"host\",\"files\":[]}",
        2,
    ),
    (
        "{\"backup-id\":\"a\",\"backup-time\":-0,\"backup-type\":\"host\",\"files\":[]}",
        2,
    ),
    (
        "{\"backup-id\":\"a\",\"backup-time\":18446744073709551616,\"backup-type\":\"host\",\"files\":[]}",
        2,
    ),
    (
        "{\"backup-id\":\"a\",\"backup-time\":253402300800,\"backup-type\":\"host\",\"files\":[]}",
        2,
    ),
    (
        "{\"backup-id\":\"a\",\"backup-time\":253402300799,\"backup-type\":\"host\",\"files\":[]}",
        0,
    ),
    (
        "{\"backup-id\":\"a\",\"backup-time\":0,\"backup-type\":\"vm\",\"files\":[],\"signature\":null,\"unprotected\":{}}",
        0,
    ),
    (
        "{\"backup-id\":\"a\",\"backup-time\":1,\"backup-type\":\"ct\",\"files\":[],\"files\":1}",
        2,
    ),
    (
        "{\"backup-id\":\"a\",\"backup-time\":1,\"backup-type\":\"ct\",\"files\":1,\"files\":[3]}",
        3,
    ),
];

/// Entries, and the cause.
static ENTRIES: [(&str, u8); 18] = [
    ("", 0),
    (
        "{\"filename\":\"a.blob\",\"size\":18446744073709551615,\"csum\":\"ba7816bf8f01cfea414140de5dae2223b00361a396177a9cb410ff61f20015ad\",\"crypt-mode\":\"none\"}",
        0,
    ),
    ("1", 3),
    (
        "{\"size\":1,\"csum\":\"ba7816bf8f01cfea414140de5dae2223b00361a396177a9cb410ff61f20015ad\"}",
        3,
    ),
    (
        "{\"filename\":\"a.blob\",\"csum\":\"ba7816bf8f01cfea414140de5dae2223b00361a396177a9cb410ff61f20015ad\"}",
        3,
    ),
    ("{\"filename\":\"a.blob\",\"size\":1}", 3),
    (
        "{\"filename\":\"a.txt\",\"size\":1,\"csum\":\"ba7816bf8f01cfea414140de5dae2223b00361a396177a9cb410ff61f20015ad\"}",
        3,
    ),
    (
        "{\"filename\":\"a.blob\",\"size\":1.0,\"csum\":\"ba7816bf8f01cfea414140de5dae2223b00361a396177a9cb410ff61f20015ad\"}",
        3,
    ),
    (
        "{\"filename\":\"a.blob\",\"size\":18446744073709551616,\"csum\":\"ba7816bf8f01cfea414140de5dae2223b00361a396177a9cb410ff61f20015ad\"}",
        3,
    ),
    (
        "{\"filename\":\"a.blob\",\"size\":1,\"csum\":\"ba7816bf8f01cfea414140de5dae2223b00361a396177a9cb410ff61f20015\"}",
        3,
    ),
    (
        "{\"filename\":\"a.blob\",\"size\":1,\"csum\":\"ga7816bf8f01cfea414140de5dae2223b00361a396177a9cb410ff61f20015ad\"}",
        3,
    ),
    (
        "{\"filename\":\"a.blob\",\"size\":1,\"csum\":\"ba7816bf8f01cfea414140de5dae2223b00361a396177a9cb410ff61f20015ad\",\"crypt-mode\":\"encrypt\"}",
        5,
    ),
    (
        "{\"filename\":\"a.blob\",\"size\":1,\"csum\":\"ba7816bf8f01cfea414140de5dae2223b00361a396177a9cb410ff61f20015ad\",\"crypt-mode\":null}",
        5,
    ),
    (
        "{\"filename\":\"a.blob\",\"size\":1,\"crypt-mode\":null}",
        3,
    ),
    (
        "{\"filename\":\"a.blob\",\"size\":1,\"csum\":\"ba7816bf8f01cfea414140de5dae2223b00361a396177a9cb410ff61f20015ad\"},{\"filename\":\"a.blob\",\"size\":2,\"csum\":\"ba7816bf8f01cfea414140de5dae2223b00361a396177a9cb410ff61f20015ad\"}",
        4,
    ),
    (
        "{\"filename\":\"a.blob\",\"size\":1,\"csum\":\"ba7816bf8f01cfea414140de5dae2223b00361a396177a9cb410ff61f20015ad\"},{\"filename\":\"a.blob\",\"size\":2,\"csum\":\"ba7816bf8f01cfea414140de5dae2223b00361a396177a9cb410ff61f20015ad\",\"crypt-mode\":\"sign-only\"}",
        5,
    ),
    (
        "{\"filename\":\"a.blob\",\"size\":1,\"csum\":\"ba7816bf8f01cfea414140de5dae2223b00361a396177a9cb410ff61f20015ad\"},{\"filename\":\"a.blob\",\"size\":2,\"csum\":\"\"},1",
        3,
    ),
    (
        "{\"filename\":\"a.blob\",\"size\":1,\"csum\":\"ba7816bf8f01cfea414140de5dae2223b00361a396177a9cb410ff61f20015ad\"},{\"filename\":\"a.blob\",\"size\":2,\"csum\":\"ba7816bf8f01cfea414140de5dae2223b00361a396177a9cb410ff61f20015ad\"},1",
        4,
    ),
];

fn cause_of(rt: &impl Abort, alloc: Global, text: &[u8]) -> u8 {
    match must(rt, read(alloc, text)) {
        Ok(_) => 0,
        Err(BadManifest { cause }) => cause,
    }
}

fn with_entries(rt: &impl Abort, alloc: Global, entries: &str) -> String {
    let mut text = must(rt, String::from_str(alloc, FRONT));
    must(rt, text.push_str(entries));
    must(rt, text.push_str(BACK));
    text
}

/// A manifest's text with so many arrays, one in another, under a key that is not read.
fn nested(rt: &impl Abort, alloc: Global, depth: usize) -> String {
    let mut text = must(
        rt,
        String::from_str(
            alloc,
            "{\"backup-id\":\"a\",\"backup-time\":1,\"backup-type\":\"host\",\"files\":[],\"x\":",
        ),
    );
    for _ in 0..depth {
        must(rt, text.push('['));
    }
    for _ in 0..depth {
        must(rt, text.push(']'));
    }
    must(rt, text.push('}'));
    text
}

fn try_cause(rt: &impl Abort, alloc: Global, text: &str, want: u8) {
    let found = cause_of(rt, alloc, text.as_bytes());
    same_at(rt, text, found, want);
}

#[test]
fn first_cause(rt: HostRuntime) {
    for (text, cause) in &WHOLE {
        try_cause(&rt, rt.alloc(), text, *cause);
    }
}

#[test]
fn first_cause_of_values(rt: HostRuntime) {
    for (text, cause) in &VALUES {
        try_cause(&rt, rt.alloc(), text, *cause);
    }
}

#[test]
fn no_text(rt: HostRuntime) {
    let found = cause_of(&rt, rt.alloc(), b"\"\xff\"");
    same(&rt, found, 1);
}

#[test]
fn first_cause_of_entries(rt: HostRuntime) {
    for (entries, cause) in &ENTRIES {
        let text = with_entries(&rt, rt.alloc(), entries);
        try_cause(&rt, rt.alloc(), text.as_str(), *cause);
    }
}

#[test]
fn nested_as_deep_as_is_read(rt: HostRuntime) {
    for (depth, cause) in [(126, 0), (127, 1)] {
        let text = nested(&rt, rt.alloc(), depth);
        let found = cause_of(&rt, rt.alloc(), text.as_bytes());
        same_at(&rt, depth, found, cause);
    }
}

/// Compares a listed file with its name, size and checksum.
fn same_file(rt: &impl Abort, file: &FileFact, want: Listed) {
    same(rt, (file.name.as_str(), file.size, file.csum), want);
}

/// Two entries, one of them with a key that is not read.
const TWO: &str =
    "{\"filename\":\"root.didx\",\"size\":5,\"csum\":\"BA7816BF8F01CFEA414140DE5DAE2223B00361A396177A9CB410FF61F20015AD\",\"extra\":[]},{\"crypt-mode\":\"none\",\"csum\":\"0000000000000000000000000000000000000000000000000000000000000000\",\"filename\":\"a.conf.blob\",\"size\":0}";

fn read_with(rt: &impl Abort, alloc: Global, entries: &str) -> Manifest {
    let text = with_entries(rt, alloc, entries);
    must(rt, must(rt, read(alloc, text.as_bytes())))
}

fn try_files(rt: &impl Abort, files: &[FileFact]) {
    assert!(rt; files.len() == 2);
    same_file(rt, &files[0], ("root.didx", 5, ABC));
    same_file(rt, &files[1], ("a.conf.blob", 0, ZEROS));
}

fn try_key(rt: &impl Abort, alloc: Global, key: &SnapshotKey) {
    let want = must(
        rt,
        must(
            rt,
            SnapshotKey::parse(alloc, b"host/a/2020-01-15T06:30:03Z"),
        ),
    );
    same(rt, *key == want, true);
}

#[test]
fn what_is_read(rt: HostRuntime) {
    let manifest = read_with(&rt, rt.alloc(), TWO);
    try_files(&rt, manifest.files.as_slice());
    try_key(&rt, rt.alloc(), &manifest.key)
}

/// A file's name, size and checksum.
type Listed = (&'static str, u64, Digest32);

/// `a.blob` and `root.didx` as the manifest lists them, or longer, with another checksum, or both; and other files.
#[derive(Clone, Copy)]
enum Upload {
    A,
    LongA,
    WrongA,
    Root,
    LongRoot,
    OtherRoot,
    WrongRoot,
    B,
    C,
    Manifest,
    OtherManifest,
}

fn listed(upload: Upload) -> Listed {
    match upload {
        Upload::A => ("a.blob", 6, ABC),
        Upload::LongA => ("a.blob", 7, ABC),
        Upload::WrongA => ("a.blob", 7, ZEROS),
        Upload::Root => ("root.didx", 5, ABC),
        Upload::LongRoot => ("root.didx", 6, ABC),
        Upload::OtherRoot => ("root.didx", 5, ZEROS),
        Upload::WrongRoot => ("root.didx", 6, ZEROS),
        Upload::B => ("b.blob", 1, ABC),
        Upload::C => ("c.blob", 1, ABC),
        Upload::Manifest => ("index.json.blob", 1, ZEROS),
        Upload::OtherManifest => ("index.json.blob", 1, ABC),
    }
}

/// Uploads beside a manifest that lists `root.didx` and then `a.blob`: the file and the field that are told; 0 for none.
static UPLOADS: [(&[Upload], &str, u8); 13] = [
    (&[Upload::A, Upload::Root], "", 0),
    (&[Upload::A, Upload::Manifest, Upload::Root], "", 0),
    (&[], "root.didx", 4),
    (&[Upload::LongA], "root.didx", 4),
    (&[Upload::Root], "a.blob", 4),
    (&[Upload::A, Upload::LongRoot], "root.didx", 6),
    (&[Upload::A, Upload::OtherRoot], "root.didx", 7),
    (&[Upload::LongA, Upload::WrongRoot], "root.didx", 6),
    (&[Upload::WrongA, Upload::B, Upload::Root], "a.blob", 6),
    (&[Upload::B, Upload::Root], "a.blob", 4),
    (&[Upload::A, Upload::B, Upload::Root], "b.blob", 5),
    (
        &[Upload::A, Upload::B, Upload::C, Upload::Root],
        "b.blob",
        5,
    ),
    (
        &[Upload::C, Upload::Root, Upload::B, Upload::A],
        "b.blob",
        5,
    ),
];

/// Snapshots, and which of type, id and time is told to differ from `host/a` at 7.
static KEYS: [(Kind, &[u8], u64, u8); 6] = [
    (Kind::Host, b"a", 7, 0),
    (Kind::Vm, b"a", 7, 1),
    (Kind::Host, b"b", 7, 2),
    (Kind::Host, b"a", 8, 3),
    (Kind::Ct, b"b", 8, 1),
    (Kind::Host, b"b", 8, 2),
];

fn fact(rt: &impl Abort, alloc: Global, upload: Upload) -> FileFact {
    let (name, size, csum) = listed(upload);
    let name = must(rt, must(rt, FileName::check(alloc, name.as_bytes())));
    FileFact { name, size, csum }
}

fn facts(rt: &impl Abort, alloc: Global, uploads: &[Upload]) -> Vec<FileFact> {
    let mut facts = Vec::new(alloc);
    for upload in uploads {
        must(rt, facts.push(fact(rt, alloc, *upload)));
    }
    facts
}

fn key(rt: &impl Abort, alloc: Global, kind: Kind, id: &[u8], time: u64) -> SnapshotKey {
    let id = must(rt, Bytes::from_slice(alloc, id));
    SnapshotKey { kind, id, time }
}

/// The file that is told, empty for none, and the field, 0 for none.
fn told(
    rt: &impl Abort,
    manifest: &Manifest,
    key: &SnapshotKey,
    uploads: &[FileFact],
) -> (Option<FileName>, u8) {
    match must(rt, check(manifest, key, uploads)) {
        Ok(()) => (None, 0),
        Err(mismatch) => (mismatch.file, mismatch.field),
    }
}

fn try_upload(
    rt: &impl Abort,
    manifest: &Manifest,
    session: &SnapshotKey,
    uploads: &[FileFact],
    want: (&str, u8),
) {
    let (file, field) = told(rt, manifest, session, uploads);
    let file = match &file {
        Some(file) => file.as_str(),
        None => "",
    };
    same(rt, (file, field), want);
}

/// The snapshot `host/a` at 7, with a manifest that lists these files.
fn manifest(rt: &impl Abort, alloc: Global, files: &[Upload]) -> Manifest {
    let key = key(rt, alloc, Kind::Host, b"a", 7);
    let files = Rows::from_vec(facts(rt, alloc, files));
    Manifest { key, files }
}

static LISTS: [Upload; 2] = [Upload::Root, Upload::A];

/// In a session of the manifest's snapshot.
fn try_row(
    rt: &impl Abort,
    alloc: Global,
    manifest: &Manifest,
    uploads: &[Upload],
    want: (&str, u8),
) {
    let uploads = facts(rt, alloc, uploads);
    try_upload(rt, manifest, &manifest.key, &uploads, want)
}

#[test]
fn first_mismatch(rt: HostRuntime) {
    let manifest = manifest(&rt, rt.alloc(), &LISTS);
    for (uploads, name, field) in &UPLOADS {
        try_row(&rt, rt.alloc(), &manifest, uploads, (*name, *field));
    }
}

/// With all files that the manifest lists.
fn try_session(
    rt: &impl Abort,
    alloc: Global,
    manifest: &Manifest,
    session: &SnapshotKey,
    want: u8,
) {
    let uploads = facts(rt, alloc, &[Upload::A, Upload::Root]);
    try_upload(rt, manifest, session, &uploads, ("", want))
}

#[test]
fn another_snapshot(rt: HostRuntime) {
    let manifest = manifest(&rt, rt.alloc(), &LISTS);
    for (kind, id, time, field) in &KEYS {
        let session = key(&rt, rt.alloc(), *kind, id, *time);
        try_session(&rt, rt.alloc(), &manifest, &session, *field);
    }
}

static ITSELF: [Upload; 1] = [Upload::OtherManifest];

#[test]
fn a_manifest_that_lists_itself(rt: HostRuntime) {
    let manifest = manifest(&rt, rt.alloc(), &ITSELF);
    try_row(&rt, rt.alloc(), &manifest, &ITSELF, ("index.json.blob", 4))
}
