//! A disk over a folder whose host fails at one call, each in turn.

use crate::asserts::{must, same, same_at};
use crate::sessions::told;
use crate::watched::{Record, alone_at};
use disk_trait::Disk;
use std::alloc::Global;
use std::fs;
use std::process::Abort;

const ROOT: &str = "disk_tests_refused";

const SESSION: &str = "\
put a/b/c one
put a/b/c two
put a/d ''
sync
read a/b/c
part a/b/c 1 2
size a/b/c
list a/
rename a/b/c e/f
sync
sync
remove e/f
sync";

// How many of the disk's calls fail. None is for want of memory.
fn failed_calls<D: Disk>(rt: &impl Abort, alloc: Global, disk: &mut D) -> u64 {
    let mut failed = 0u64;
    for line in SESSION.lines() {
        if told(rt, alloc, disk, "", line).as_str() == "failed" {
            failed = failed.saturating_add(1);
        }
    }
    failed
}

// What came of the calls on an empty folder.
#[derive(Clone, Copy)]
struct Tried {
    // How many of the disk's calls failed, how many the host was asked for, and how many folders it read.
    failed: u64,
    calls: u64,
    folders: usize,
}

// Makes the calls where a call of the host fails, or a read of a folder's names.
fn try_calls(
    rt: HostRuntime,
    abort: &impl Abort,
    fails_at: Option<u64>,
    unread: Option<(usize, usize)>,
) -> Tried {
    let _ = fs::remove_dir_all(&rt, ROOT);
    must(abort, fs::create_dir(&rt, ROOT));
    let alloc = rt.alloc();
    let record = Record::new(alloc);
    record.fails_at.set(fails_at);
    record.unread.set(unread);
    let mut disk = must(abort, alone_at(rt, &record, ROOT));
    let failed = failed_calls(abort, alloc, &mut disk);
    drop(disk);
    Tried {
        failed,
        calls: record.calls.get(),
        folders: record.reads.get(),
    }
}

#[test]
fn each_call_of_the_host_fails(rt: HostRuntime) {
    let Tried {
        failed,
        calls,
        folders,
    } = try_calls(rt, &rt, None, None);
    same(&rt, failed, 0);
    same(&rt, (calls > 50, folders > 2), (true, true));
    for call in 1..=calls {
        same_at(&rt, call, try_calls(rt, &rt, Some(call), None).failed, 1);
    }
    for folder in 1..=folders {
        let tried = try_calls(rt, &rt, None, Some((folder, 0)));
        same_at(&rt, folder, tried.failed, 1);
    }
    // Some names of the root were read before that.
    same(&rt, try_calls(rt, &rt, None, Some((1, 1))).failed, 1);
    must(&rt, fs::remove_dir_all(&rt, ROOT));
}
