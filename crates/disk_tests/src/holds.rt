//! One disk a folder, or several that only read it.

use crate::asserts::{must, same, same_at};
use crate::maps::ALL_FAIL;
use crate::sessions::play;
use crate::watched::{Record, alone_at, play_alone, shared_at};
use std::fs;
use std::process::Abort;

const ROOT: &str = "disk_tests_held";

// Each call of another disk fails.
fn try_others(rt: HostRuntime, abort: &impl Abort, record: &Record) {
    play_alone(rt, abort, record, ROOT, "", &[ALL_FAIL]);
    let mut third = must(abort, shared_at(rt, record, ROOT));
    play(abort, rt.alloc(), &mut third, ALL_FAIL)
}

const BEHIND: &str = "\
list '' = a
put b two = done
sync = done
faults = 0";

// The first has the folder from its first call on.
fn try_alone(rt: HostRuntime, abort: &impl Abort, record: &Record) {
    let mut first = must(abort, alone_at(rt, record, ROOT));
    play(abort, rt.alloc(), &mut first, "put a one = done");
    try_others(rt, abort, record);
    play(abort, rt.alloc(), &mut first, BEHIND)
}

// Its sync changes nothing.
const NO_CHANGE: &str = "\
put a one = failed
rename a b = failed
remove a = failed";

// A second that reads the folder. Each call of one that would have it fails, and each change of its own.
fn try_second(rt: HostRuntime, abort: &impl Abort, record: &Record) {
    let mut second = must(abort, shared_at(rt, record, ROOT));
    play(abort, rt.alloc(), &mut second, "list '' = a b");
    play_alone(rt, abort, record, ROOT, "", &[ALL_FAIL]);
    play(abort, rt.alloc(), &mut second, NO_CHANGE)
}

// Two read the folder.
fn try_shared(rt: HostRuntime, abort: &impl Abort, record: &Record) {
    let mut first = must(abort, shared_at(rt, record, ROOT));
    play(abort, rt.alloc(), &mut first, "sync = done\nsize a = 3");
    try_second(rt, abort, record);
    play(abort, rt.alloc(), &mut first, "list '' = a b")
}

// Each call of one whose folder is no more there fails, and it finds no file.
const MOVED: &str = "\
put a one = failed
rename a b = failed
remove a = failed
sync = failed
size a = failed";

// The folder at the root is another than was locked.
fn try_other(rt: HostRuntime, abort: &impl Abort, record: &Record) {
    let mut disk = must(abort, alone_at(rt, record, ROOT));
    play(abort, rt.alloc(), &mut disk, "sync = done");
    must(abort, fs::rename(&rt, ROOT, "disk_tests_moved"));
    must(abort, fs::create_dir(&rt, ROOT));
    play(abort, rt.alloc(), &mut disk, MOVED);
    let moved = must(abort, fs::read_to_string(&rt, "disk_tests_moved/a"));
    same_at(abort, ROOT, moved.as_str(), "one");
    same(abort, must(abort, fs::read_dir(&rt, ROOT)).count(), 0);
    must(abort, fs::remove_dir_all(&rt, "disk_tests_moved"));
}

fn try_all(rt: HostRuntime, abort: &impl Abort, record: &Record) {
    try_alone(rt, abort, record);
    // when it has gone, the next has it
    play_alone(rt, abort, record, ROOT, "", &["list '' = a b"]);
    try_shared(rt, abort, record);
    try_other(rt, abort, record)
}

#[test]
fn one_disk_has_a_folder(rt: HostRuntime) {
    let _ = fs::remove_dir_all(&rt, ROOT);
    must(&rt, fs::create_dir(&rt, ROOT));
    let record = Record::new(rt.alloc());
    try_all(rt, &rt, &record);
    must(&rt, fs::remove_dir_all(&rt, ROOT));
}
