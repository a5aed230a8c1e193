//! Folders that a run left, opened again: at each call the disk fails, or a crash comes.

use crate::asserts::{must, same, same_at};
use disk_trait::{Disk, DiskError, FailingDisk, MemoryDisk};
use snapshot_files::{Inventory, open_files};
use std::alloc::Global;
use std::process::Abort;

/// The blob of a manifest of `host/a-b` that lists nothing.
const EMPTY: &[u8] =
    b"B\xab8\x07\xbe\x83p\xa1\xd8\x04\xd8h{\"backup-type\":\"host\",\"backup-id\":\"a-b\",\"backup-time\":1579069803,\"files\":[]}";

/// Two snapshots, one of them damaged, with files that no manifest lists; a chunk; names of no form of ours.
static STAYING: [&str; 10] = [
    ".chunks/ba78/ba7816bf8f01cfea414140de5dae2223b00361a396177a9cb410ff61f20015ad",
    ".chunks/ba78/other",
    ".chunks/book",
    "ct/z/2020-01-15T06:30:03Z/index.json.blob",
    "host/a/2020-01-15T06:30:03Z/index.json.blob",
    "host/a/2020-01-15T06:30:03Z/set.blob",
    "host/a/2021-01-15T06:30:03Z/notes.txt",
    "host/a/2021-01-15T06:30:03Z/x/set.blob",
    "host/a/set.blob",
    "set.blob",
];

/// Temporary files, and those of a snapshot without a manifest.
static LEAVING: [&str; 7] = [
    ".chunks/ba78/ba7816bf8f01cfea414140de5dae2223b00361a396177a9cb410ff61f20015ad.tmp",
    ".tmp",
    "host/a/2020-01-15T06:30:03Z/index.json.blob.tmp",
    "host/a/2021-01-15T06:30:03Z/a.fidx",
    "host/a/2021-01-15T06:30:03Z/root.didx",
    "host/a/2021-01-15T06:30:03Z/set.blob",
    "notes.tmp",
];

fn names_staying() -> &'static [&'static str] {
    &STAYING
}

fn names_leaving() -> &'static [&'static str] {
    &LEAVING
}

fn put_all(rt: &impl Abort, disk: &mut MemoryDisk, alloc: Global, names: &[&str]) {
    for name in names {
        assert!(rt; name.len() <= 255);
        let bytes = if name.starts_with("host/") {
            EMPTY
        } else {
            b"abc"
        };
        must(rt, disk.put(alloc, name, bytes));
    }
}

fn folder(rt: &impl Abort, alloc: Global) -> MemoryDisk {
    let mut disk = MemoryDisk::new(alloc);
    put_all(rt, &mut disk, alloc, names_leaving());
    put_all(rt, &mut disk, alloc, names_staying());
    disk
}

/// How many of these stand there.
fn count(rt: &impl Abort, disk: &mut MemoryDisk, names: &[&str]) -> usize {
    let mut count = 0;
    for name in names {
        if must(rt, disk.size(name)).is_some() {
            count += 1;
        }
    }
    count
}

/// The snapshots' types with what makes them damaged, and how many chunks there are.
fn told(rt: &impl Abort, alloc: Global, found: &Inventory) -> String {
    let mut text = String::new(alloc);
    for found in &found.snapshots {
        must(
            rt,
            write!(text, "{:?} {} ", found.key.kind, found.unreadable.is_some()),
        );
    }
    must(rt, write!(text, "{}", found.chunks.len()));
    text
}

const TOLD: &str = "Ct true Host false 1";

/// A sync, a list, seven removes, and of two manifests the size and a read.
const CALLS: u64 = 13;

/// Syncs the disk, as `core_opening` does, and opens its folder.
fn open<D: Disk>(disk: &mut D, alloc: Global) -> Result<Inventory, DiskError> {
    disk.sync()?;
    open_files(disk, alloc)
}

fn open_and_tell(rt: &impl Abort, disk: &mut MemoryDisk, alloc: Global) -> String {
    told(rt, alloc, &must(rt, open(disk, alloc)))
}

/// All that stays is there, and nothing else.
fn try_left(rt: &impl Abort, alloc: Global, disk: &mut MemoryDisk, k: u64) {
    let staying = names_staying();
    same_at(rt, k, must(rt, disk.list(alloc, "")).len(), staying.len());
    same_at(rt, k, count(rt, disk, staying), staying.len());
}

#[test]
fn a_folder_is_opened(rt: HostRuntime) {
    let mut disk = folder(&rt, rt.alloc());
    let before = disk.calls();
    let text = open_and_tell(&rt, &mut disk, rt.alloc());
    same(&rt, text.as_str(), TOLD);
    same(&rt, disk.calls(), before.saturating_add(CALLS));
    try_left(&rt, rt.alloc(), &mut disk, CALLS)
}

#[test]
fn an_empty_folder_is_opened(rt: HostRuntime) {
    let text = open_and_tell(&rt, &mut MemoryDisk::new(rt.alloc()), rt.alloc());
    same(&rt, text.as_str(), "0");
}

/// What a crash leaves is opened.
fn open_left(rt: &impl Abort, alloc: Global, left: &MemoryDisk, k: u64, choice: u8) {
    let mut crashed = must(rt, left.crashed(alloc, choice));
    let text = open_and_tell(rt, &mut crashed, alloc);
    same_at(rt, (k, choice), text.as_str(), TOLD);
    try_left(rt, alloc, &mut crashed, k)
}

/// The disk fails at its call k, from 0, alone or from there on. Files leave from the third call on.
fn try_opening(rt: &impl Abort, alloc: Global, mut disk: FailingDisk<MemoryDisk>, k: u64) {
    let has_failed = matches!(open(&mut disk, alloc), Err(DiskError::Failed));
    same_at(rt, k, has_failed, k < CALLS);
    same_at(rt, k, disk.faults(), if k < CALLS { 1 } else { 0 });
    let mut left = disk.into_inner();
    count_left(rt, &mut left, k);
    for choice in 0..3u8 {
        open_left(rt, alloc, &left, k, choice);
    }
}

/// So many of the names stand there when the call k has failed.
fn count_left(rt: &impl Abort, left: &mut MemoryDisk, k: u64) {
    let staying = count(rt, left, names_staying());
    same_at(rt, k, staying, names_staying().len());
    let leaving = count(rt, left, names_leaving());
    same_at(rt, k, leaving as u64, 9u64.saturating_sub(k.max(2)));
}

/// All is synced, so that the first sync is not missed where it fails.
fn synced(rt: &impl Abort, alloc: Global) -> MemoryDisk {
    let mut disk = folder(rt, alloc);
    must(rt, disk.sync());
    disk
}

#[test]
fn each_call_of_an_opening_fails(rt: HostRuntime) {
    let alloc = rt.alloc();
    for k in 0..CALLS + 1 {
        let plan = must(&rt, Vec::from_slice(alloc, &[k]));
        try_opening(
            &rt,
            alloc,
            FailingDisk::at_calls(synced(&rt, alloc), plan),
            k,
        );
        try_opening(
            &rt,
            alloc,
            FailingDisk::stopping_after(synced(&rt, alloc), k),
            k,
        );
    }
}
