ghost use Rattle.std.specs.Prelude.{None, Some, if◌then◌else◌};

use crate::asserts::{must, same, same_at};
use crate::fixtures::{ROOT, key, named};
use blob_codec::encode;
use disk_trait::{Disk, DiskError, Failed, FailingDisk, MemoryDisk};
use snapshot_files::{
    FilePath, Found, Stored, finish, forget, manifest_path_of, path_of, put_file, remove_files,
    scan,
};
use std::alloc::Global;
use std::process::Abort;

const MANIFEST: &str = "host/a/2020-01-15T06:30:03Z/index.json.blob";

const STAGED: &str = "host/a/2020-01-15T06:30:03Z/index.json.blob.tmp";

const SET: &str = "host/a/2020-01-15T06:30:03Z/set.blob";

const STAGED_BLOB: &str = "host/a/2020-01-15T06:30:03Z/set.blob.tmp";

/// Another snapshot's.
const OTHER: &str = "host/a/2021-01-15T06:30:03Z/set.blob";

#[derive(Clone, Copy, Debug)]
enum Change {
    PutFile,
    Finish,
    Forget,
}

// How many calls of the disk it makes.
fn calls_of(change: Change) -> u64 {
    match change {
        Change::PutFile => 3,
        Change::Finish => 4,
        Change::Forget => 4,
    }
}

type Outcome = Result<(), DiskError>;

fn finish_it<D: Disk>(rt: &impl Abort, disk: &mut D, alloc: Global) -> Outcome {
    let path = must(rt, manifest_path_of(alloc, &key(rt, alloc)));
    finish(disk, alloc, &path, b"manifest")
}

fn forget_it<D: Disk>(rt: &impl Abort, disk: &mut D, alloc: Global) -> Outcome {
    let key = key(rt, alloc);
    let files = [named(rt, alloc, "set.blob"), named(rt, alloc, "root.didx")];
    forget(disk, alloc, &key, &files)
}

// `false` where the disk failed.
fn make<D: Disk>(rt: &impl Abort, disk: &mut D, alloc: Global, change: Change) -> bool {
    let outcome = match change {
        Change::PutFile => put_file(disk, alloc, &path(rt, alloc, "set.blob"), b"newest"),
        Change::Finish => finish_it(rt, disk, alloc),
        Change::Forget => forget_it(rt, disk, alloc),
    };
    if outcome == Err(DiskError::Failed) {
        return false;
    }
    must(rt, outcome);
    true
}

fn put_all(rt: &impl Abort, disk: &mut MemoryDisk, alloc: Global, files: &[(&str, &[u8])]) {
    for (path, text) in files {
        assert!(rt; path.len() <= 255);
        must(rt, disk.put(alloc, path, text));
    }
}

fn put_set(rt: &impl Abort, disk: &mut MemoryDisk, alloc: Global) {
    must(
        rt,
        put_file(disk, alloc, &path(rt, alloc, "set.blob"), b"set"),
    );
}

static REPLACED: [(&str, &[u8]); 2] = [(OTHER, b"other"), (SET, b"old")];

static FORGOTTEN: [(&str, &[u8]); 4] = [
    (OTHER, b"other"),
    (MANIFEST, b"manifest"),
    (ROOT, b"root"),
    (SET, b"set"),
];

// What is there before. All is synced, but for the file that is put before a snapshot is finished.
fn disk_before(rt: &impl Abort, alloc: Global, change: Change) -> MemoryDisk {
    let mut disk = MemoryDisk::new(alloc);
    match change {
        Change::PutFile => put_all(rt, &mut disk, alloc, &REPLACED),
        Change::Finish => {
            must(rt, disk.put(alloc, OTHER, b"other"));
            put_set(rt, &mut disk, alloc);
            return disk;
        }
        Change::Forget => put_all(rt, &mut disk, alloc, &FORGOTTEN),
    }
    must(rt, disk.sync());
    disk
}

// What stands at the manifest, its temporary name, the index, the blob, its temporary name, and of the other snapshot,
// each with a slash after it.
fn shown(rt: &impl Abort, alloc: Global, disk: &mut MemoryDisk) -> String {
    let mut text = String::new(alloc);
    for name in [MANIFEST, STAGED, ROOT, SET, STAGED_BLOB, OTHER] {
        if let Some(bytes) = must(rt, disk.read(alloc, name)) {
            must(
                rt,
                text.push_str(str::from_utf8(bytes.as_slice()).unwrap_or("no text")),
            );
        }
        must(rt, text.push('/'));
    }
    text
}

// What a crash leaves, by its choice.
fn shown_after(rt: &impl Abort, alloc: Global, left: &MemoryDisk, choice: u8) -> String {
    let mut crashed = must(rt, left.crashed(alloc, choice));
    shown(rt, alloc, &mut crashed)
}

// What stands there before a change and after it.
#[derive(Clone, Copy)]
enum Left {
    Old,
    Put,
    TornPut,
    New,
    Unnamed,
    Named,
    Begun,
    Torn,
    Finished,
    Whole,
    Gone,
    RootLeft,
    Nothing,
}

// The same, as it is shown.
fn text_of(left: Left) -> &'static str {
    match left {
        Left::Old => "///old//other/",
        Left::Put => "///old/newest/other/",
        Left::TornPut => "///old/new/other/",
        Left::New => "///newest//other/",
        Left::Unnamed => "////set/other/",
        Left::Named => "///set//other/",
        Left::Begun => "/manifest//set//other/",
        Left::Torn => "/mani//set//other/",
        Left::Finished => "manifest///set//other/",
        Left::Whole => "manifest//root/set//other/",
        Left::Gone => "//root/set//other/",
        Left::RootLeft => "//root///other/",
        Left::Nothing => "/////other/",
    }
}

// A change on a disk that fails at its call k, counted from 0: what a crash leaves by each choice, the second of which is
// what reads.
fn try_change(
    rt: &impl Abort,
    alloc: Global,
    mut disk: FailingDisk<MemoryDisk>,
    change: Change,
    k: u64,
    wants: [Left; 3],
) {
    let is_whole = k == calls_of(change);
    let is_made = make(rt, &mut disk, alloc, change);
    same_at(rt, (change, k), is_made, is_whole);
    let faults = if is_whole { 0 } else { 1 };
    same_at(rt, (change, k), disk.faults(), faults);
    let mut left = disk.into_inner();
    let reads = shown(rt, alloc, &mut left);
    same_at(rt, (change, k), reads.as_str(), text_of(wants[1]));
    for choice in 0..3u8 {
        let reads = shown_after(rt, alloc, &left, choice);
        let want = text_of(wants[choice as usize]);
        same_at(rt, (change, k, choice), reads.as_str(), want);
    }
}

static CHANGES: [(Change, u64, (Left, Left, Left)); 14] = [
    (Change::PutFile, 0, (Left::Old, Left::Old, Left::Old)),
    (Change::PutFile, 1, (Left::Old, Left::Put, Left::TornPut)),
    (Change::PutFile, 2, (Left::Put, Left::Put, Left::Put)),
    (Change::PutFile, 3, (Left::Put, Left::New, Left::New)),
    (Change::Finish, 0, (Left::Unnamed, Left::Named, Left::Named)),
    (Change::Finish, 1, (Left::Unnamed, Left::Begun, Left::Torn)),
    (Change::Finish, 2, (Left::Begun, Left::Begun, Left::Begun)),
    (
        Change::Finish,
        3,
        (Left::Begun, Left::Finished, Left::Finished),
    ),
    (
        Change::Finish,
        4,
        (Left::Finished, Left::Finished, Left::Finished),
    ),
    (Change::Forget, 0, (Left::Whole, Left::Whole, Left::Whole)),
    (Change::Forget, 1, (Left::Whole, Left::Gone, Left::Whole)),
    (Change::Forget, 2, (Left::Gone, Left::Gone, Left::Gone)),
    (Change::Forget, 3, (Left::Gone, Left::RootLeft, Left::Gone)),
    (Change::Forget, 4, (Left::Gone, Left::Nothing, Left::Gone)),
];

// The change fails at its call k alone, and from there on.
fn try_both(rt: &impl Abort, alloc: Global, change: Change, k: u64, wants: [Left; 3]) {
    let plan = must(rt, Vec::from_slice(alloc, &[k]));
    let failing = FailingDisk::at_calls(disk_before(rt, alloc, change), plan);
    try_change(rt, alloc, failing, change, k, wants);
    let stopping = FailingDisk::stopping_after(disk_before(rt, alloc, change), k);
    try_change(rt, alloc, stopping, change, k, wants)
}

#[test]
fn each_call_fails(rt: HostRuntime) {
    let alloc = rt.alloc();
    for (change, k, left) in &CHANGES {
        let wants = [left.0, left.1, left.2];
        try_both(&rt, alloc, *change, *k, wants);
    }
}

fn path(rt: &impl Abort, alloc: Global, name: &str) -> FilePath {
    must(rt, path_of(alloc, &key(rt, alloc), &named(rt, alloc, name)))
}

fn remove(rt: &impl Abort, disk: &mut MemoryDisk, paths: &[FilePath]) {
    must(rt, remove_files(disk, paths));
}

/// A row that may have a file.
#[derive(Drop)]
struct MayBePut {
    path: FilePath,
    is_put: bool,
}

impl Stored for MayBePut {
    ghost at = { λ row. if row.is_put then Some row.path else None };

    fn path(&self) -> Option<&FilePath> {
        if self.is_put { Some(&self.path) } else { None }
    }
}

fn row(rt: &impl Abort, alloc: Global, name: &str, is_put: bool) -> MayBePut {
    let path = path(rt, alloc, name);
    MayBePut { path, is_put }
}

fn remove_set(rt: &impl Abort, alloc: Global, disk: &mut MemoryDisk) {
    let files = [path(rt, alloc, "set.blob"), path(rt, alloc, "b.blob")];
    same(rt, files[0].as_str(), SET);
    remove(rt, disk, &files)
}

#[test]
fn files_are_removed(rt: HostRuntime) {
    let mut disk = disk_before(&rt, rt.alloc(), Change::Forget);
    remove_set(&rt, rt.alloc(), &mut disk);
    let reads = shown(&rt, rt.alloc(), &mut disk);
    same(&rt, reads.as_str(), "manifest//root///other/");
}

// What has no file is passed over; where nothing has one, the disk is not called.
#[test]
fn rows_with_a_file_are_removed(rt: HostRuntime) {
    let alloc = rt.alloc();
    let mut disk = FailingDisk::stopping_after(disk_before(&rt, alloc, Change::Forget), 1);
    try_rows(&rt, alloc, &mut disk);
    let reads = shown(&rt, alloc, &mut disk.into_inner());
    same(&rt, reads.as_str(), "manifest//root///other/");
}

fn try_rows<D: Disk>(rt: &impl Abort, alloc: Global, disk: &mut D) {
    let rows = [
        row(rt, alloc, "root.didx", false),
        row(rt, alloc, "set.blob", true),
    ];
    same(rt, remove_files(disk, &rows), Ok(()));
    same(rt, remove_files(disk, &rows[..1]), Ok(()));
    same(rt, remove_files(disk, &rows), Err(Failed));
}

// The blob of a manifest of `host/a-b` that lists nothing.
const OTHER_BLOB: &[u8] =
    b"B\xab8\x07\xbe\x83p\xa1\xd8\x04\xd8h{\"backup-type\":\"host\",\"backup-id\":\"a-b\",\"backup-time\":1579069803,\"files\":[]}";

// A manifest of `host/a` that lists `set.blob`, `root.didx` and so many further files.
fn manifest_of(rt: &impl Abort, alloc: Global, further: u32) -> Vec<u8> {
    let zeros = "0000000000000000000000000000000000000000000000000000000000000000";
    let mut text = must(
        rt,
        String::from_str(
            alloc,
            "{\"backup-type\":\"host\",\"backup-id\":\"a\",\"backup-time\":1579069803,\"files\":[",
        ),
    );
    for i in 0..further {
        must(
            rt,
            write!(
                text,
                "{{\"filename\":\"{i}.blob\",\"size\":12,\"csum\":\"{zeros}\"}},"
            ),
        );
    }
    must(
        rt,
        write!(
            text,
            "{{\"filename\":\"set.blob\",\"size\":12,\"csum\":\"{zeros}\"}},"
        ),
    );
    must(
        rt,
        write!(
            text,
            "{{\"filename\":\"root.didx\",\"size\":0,\"csum\":\"{zeros}\"}}]}}"
        ),
    );
    must(rt, must(rt, encode(alloc, text.as_str().as_bytes())))
}

fn push_name(rt: &impl Abort, text: &mut String, name: &[u8]) {
    must(rt, text.push_str(str::from_utf8(name).unwrap_or("no text")));
}

fn tell(rt: &impl Abort, text: &mut String, found: &Found) {
    must(rt, write!(text, "[{:?} ", found.key.kind));
    push_name(rt, text, found.key.id.as_slice());
    if let Some(manifest) = &found.manifest {
        must(rt, write!(text, " {}", manifest.files.as_slice().len()));
    }
    if let Some(name) = &found.unreadable {
        must(rt, text.push(' '));
        push_name(rt, text, name.as_slice());
    }
    must(rt, text.push(']'));
}

// Each snapshot with the number of files that its manifest lists, and the name that makes it damaged.
fn found_on(rt: &impl Abort, alloc: Global, disk: &mut MemoryDisk) -> String {
    let mut text = String::new(alloc);
    for found in &must(rt, scan(disk, alloc)) {
        tell(rt, &mut text, found);
    }
    text
}

// Names whose byte order is not the snapshots', a snapshot without a manifest, and names that are none of a snapshot.
static FILES: [(&str, &[u8]); 8] = [
    ("vm/a/2020-01-15T06:30:03Z/index.json.blob", OTHER_BLOB),
    ("host/a-b/2020-01-15T06:30:03Z/index.json.blob", OTHER_BLOB),
    ("ct/z/2020-01-15T06:30:03Z/index.json.blob", b"abc"),
    (STAGED, OTHER_BLOB),
    (OTHER, b"set"),
    ("host/a/2020-01-15T06:30:03Z/x/index.json.blob", OTHER_BLOB),
    ("host/a/2020-01-15T06:30:03z/index.json.blob", OTHER_BLOB),
    (
        ".chunks/host/a/2020-01-15T06:30:03Z/index.json.blob",
        OTHER_BLOB,
    ),
];

fn datastore(rt: &impl Abort, alloc: Global) -> MemoryDisk {
    let mut disk = MemoryDisk::new(alloc);
    put_all(rt, &mut disk, alloc, &FILES);
    disk
}

// How many files the manifest of `host/a` lists beside two that are there or not, and what is found of it.
static FOUND: [(u32, bool, bool, &str); 5] = [
    (0, true, true, "[Host a 2]"),
    (
        0,
        false,
        true,
        "[Host a 2 host/a/2020-01-15T06:30:03Z/set.blob]",
    ),
    (
        0,
        false,
        false,
        "[Host a 2 host/a/2020-01-15T06:30:03Z/root.didx]",
    ),
    (
        61,
        true,
        true,
        "[Host a 63 host/a/2020-01-15T06:30:03Z/0.blob]",
    ),
    (
        62,
        true,
        true,
        "[Host a 64 host/a/2020-01-15T06:30:03Z/index.json.blob]",
    ),
];

fn listed(
    rt: &impl Abort,
    alloc: Global,
    further: u32,
    has_set: bool,
    has_root: bool,
) -> MemoryDisk {
    let mut disk = datastore(rt, alloc);
    must(
        rt,
        disk.put(alloc, MANIFEST, &manifest_of(rt, alloc, further)),
    );
    if has_set {
        must(rt, disk.put(alloc, SET, b"set"));
    }
    if has_root {
        must(rt, disk.put(alloc, ROOT, b"root"));
    }
    disk
}

fn expected_of(rt: &impl Abort, alloc: Global, wanted: &str) -> String {
    must(
        rt,
        format!(in alloc;
            "[Ct z ct/z/2020-01-15T06:30:03Z/index.json.blob]{wanted}[Host a-b 0][Vm a 0]"
        ),
    )
}

fn try_found(rt: &impl Abort, alloc: Global, disk: &mut MemoryDisk, wanted: &str) {
    let text = found_on(rt, alloc, disk);
    let expected = expected_of(rt, alloc, wanted);
    same(rt, text.as_str(), expected.as_str());
}

#[test]
fn what_is_found(rt: HostRuntime) {
    for (further, has_set, has_root, wanted) in &FOUND {
        let mut disk = listed(&rt, rt.alloc(), *further, *has_set, *has_root);
        try_found(&rt, rt.alloc(), &mut disk, wanted);
    }
}

fn try_scan(rt: &impl Abort, alloc: Global, k: u64, fails: bool) {
    let mut disk = datastore(rt, alloc);
    must(rt, disk.put(alloc, MANIFEST, &manifest_of(rt, alloc, 0)));
    let plan = must(rt, Vec::from_slice(alloc, &[k]));
    let mut failing = FailingDisk::at_calls(disk, plan);
    let outcome = scan(&mut failing, alloc);
    let has_failed = matches!(&outcome, Err(DiskError::Failed));
    same_at(rt, k, has_failed, fails);
}

// Three lists, the size of four manifests and a read of each, and the two files that one of them lists.
#[test]
fn each_call_of_a_scan_fails(rt: HostRuntime) {
    let alloc = rt.alloc();
    for k in 0..14 {
        try_scan(&rt, alloc, k, k < 13);
    }
}

/// A manifest's file of one byte more than a blob has makes its snapshot damaged, and is not read: there are the three lists, its size,
/// and the calls of the other three snapshots.
#[test]
fn a_manifest_that_is_too_long_is_none(rt: HostRuntime) {
    let mut disk = datastore(&rt, rt.alloc());
    put_long(&rt, &mut disk, rt.alloc());
    let before = disk.calls();
    let wanted = "[Host a host/a/2020-01-15T06:30:03Z/index.json.blob]";
    try_found(&rt, rt.alloc(), &mut disk, wanted);
    same(&rt, disk.calls(), before.saturating_add(10));
}

fn put_long(rt: &impl Abort, disk: &mut MemoryDisk, alloc: Global) {
    let mut text = Vec::new(alloc);
    must(rt, text.resize(16_777_229, 0));
    must(rt, disk.put(alloc, MANIFEST, &text));
}
