//! Folders that are synced at once, and a file beside them: each of them, and one that can't be is told.

use crate::asserts::{must, same, same_at};
use crate::watched::{Record, Watched};
use disk_trait::Failed;
use file_disk::{AtOnce, SyncFolders};
use std::alloc::Global;
use std::fs;
use std::process::Abort;
use std::thread::Threads;

// So many folders, of which the one at a place is not there.
fn folders(rt: &impl Abort, alloc: Global, count: usize, missing: usize) -> Vec<String> {
    let mut paths = Vec::new(alloc);
    for place in 0..count {
        let path = if place == missing { "none" } else { "." };
        must(rt, paths.push(must(rt, String::from_str(alloc, path))));
    }
    paths
}

// Wherever one is missing, it fails; where all are there, it does not.
fn try_count<R: Threads + Abort>(rt: HostRuntime, threads: &R, count: usize) {
    let syncs = AtOnce::new(rt, threads);
    for missing in 0..=count {
        let outcome = syncs.sync_folders(&folders(threads, rt.alloc(), count, missing));
        let want = if missing < count { Err(Failed) } else { Ok(()) };
        same_at(threads, (count, missing), outcome, want);
    }
}

// The file is synced once, whatever stands beside it; where it can't be, it fails.
fn try_file<R: Threads + Abort>(rt: HostRuntime, threads: &R, count: usize) {
    let alloc = rt.alloc();
    let record = Record::new(alloc);
    let watched = Watched {
        rt,
        record: &record,
    };
    let file = must(threads, fs::open(&watched, "."));
    let syncs = AtOnce::new(rt, threads);
    let beside = folders(threads, alloc, count, count);
    for want in [Ok(()), Err(Failed)] {
        record.fails.set(want.is_err());
        same_at(threads, count, syncs.sync_with(&file, &beside), want);
    }
    same(threads, must(threads, record.taken(alloc)).as_str(), ".\n");
    record.fails.set(false);
    let outcome = syncs.sync_with(
        &file,
        &folders(threads, alloc, count.saturating_add(1), count),
    );
    same_at(threads, count, outcome, Err(Failed));
}

#[test]
fn each_folder_is_synced(rt: HostRuntime) {
    for count in [0, 1, 2, 3, 8, 17, 40] {
        try_count(rt, &rt, count);
    }
}

#[test]
fn a_file_is_synced_beside_them(rt: HostRuntime) {
    for count in [0, 1, 2, 17, 40] {
        try_file(rt, &rt, count);
    }
}
