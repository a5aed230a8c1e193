//! What any disk does: it is a map from names to bytes.

use crate::asserts::{must, same, same_at};
use crate::sessions::{play, play_at};
use crate::watched::{Record, alone_at};
use disk_trait::{Disk, FailingDisk, MemoryDisk};
use file_disk::{AtOnce, FileDisk};
use std::alloc::{AllocError, Global};
use std::fs;
use std::process::Abort;
use std::thread::Threads;

// Puts, reads, lists, renames and removes.
const MAP: &str = "\
put a/b one = done
put a-b '' = done
put a/c/d.tmp twenty bytes in a row = done
put a/b three = done
put b four = done
size a/b = 5
size a-b = 0
read a/b = three
list '' = a-b a/b a/c/d.tmp b
list a/ = a/b a/c/d.tmp
list a/c/d = a/c/d.tmp
list a = a-b a/b a/c/d.tmp
list a/b/ = no names
list c/ = no names
list ../ = no names
part a/c/d.tmp 7 4 = 4 byte
part a/c/d.tmp 19 4 = 2 ow--
part a/c/d.tmp 21 4 = 0 ----
part a/c/d.tmp 18446744073709551615 4 = 0 ----
rename a/c/d.tmp a/b = done
rename b e/f = done
remove a-b = done
sync = done
size a/b = 21";

// Names at which nothing is, and of which a folder can have no file. The first is empty.
const ABSENT_NAMES: &str = " a/b/c b none/at/all ../a a//b /a .";

const ABSENT: &str = "\
size NAME = none
read NAME = none
part NAME 0 0 = none ----
rename NAME g = none
remove NAME = none";

// The longest name of a store: a chunk's file before it is renamed.
const CHUNK: &str =
    ".chunks/0123/0123456789abcdef0123456789abcdef0123456789abcdef0123456789abcdef.tmp";

const LONG: &str = "\
put NAME one = done
put NAME three = done
size NAME = 5
read NAME = three
part NAME 1 4 = 4 hree
list NAME = NAME
rename NAME g = done
size NAME = none
rename g NAME = done
sync = done
read NAME = three
remove NAME = done
list NAME = no names";

// The longest name of a store, and the longest that a disk takes.
fn try_long_names<D: Disk>(rt: &impl Abort, alloc: Global, disk: &mut D) {
    play_at(rt, alloc, disk, CHUNK, LONG);
    let longest = must(rt, "n".repeat(alloc, 255));
    play_at(rt, alloc, disk, longest.as_str(), LONG);
}

// As any disk does.
fn try_all<D: Disk>(rt: &impl Abort, alloc: Global, disk: &mut D) {
    play(rt, alloc, disk, MAP);
    try_long_names(rt, alloc, disk);
    for name in ABSENT_NAMES.split(' ') {
        play_at(rt, alloc, disk, name, ABSENT);
    }
    play(rt, alloc, disk, "list '' = a/b e/f\nfaults = 0")
}

#[test]
fn memory_is_a_map(rt: HostRuntime) {
    try_all(&rt, rt.alloc(), &mut MemoryDisk::new(rt.alloc()))
}

// A folder as a disk of its own.
fn folder_at<'a, R: Threads + Sync>(
    rt: HostRuntime,
    threads: &'a R,
    root: &str,
) -> Result<FileDisk<HostRuntime, AtOnce<&'a R>>, AllocError> {
    FileDisk::alone(rt, AtOnce::new(rt, threads), rt.alloc(), root)
}

/// With no folder, a file in its place or one that another disk has, each call fails, and makes nothing.
pub const ALL_FAIL: &str = "\
put a one = failed
rename a b = failed
remove a = failed
sync = failed
size a = failed
part a 0 0 = failed
read a = failed
list '' = failed
faults = 8
calls = 8";

// Names outside the folder, of which it can have no file, and of a folder.
const BAD_NAMES: &str = "\
put ../a one = failed
put a/b/c one = failed
put '' one = failed
put a/.. one = failed
put a one = failed
size a = failed
remove a = failed
faults = 7";

const ROOT: &str = "disk_tests_map";

fn try_missing<R: Threads + Sync + Abort>(rt: HostRuntime, threads: &R) {
    play(
        threads,
        rt.alloc(),
        &mut must(threads, folder_at(rt, threads, ROOT)),
        ALL_FAIL,
    )
}

fn try_folder<R: Threads + Sync + Abort>(rt: HostRuntime, threads: &R) {
    let mut disk = must(threads, folder_at(rt, threads, ROOT));
    try_all(threads, rt.alloc(), &mut disk);
    play(threads, rt.alloc(), &mut disk, BAD_NAMES)
}

#[test]
fn folder_is_a_map(rt: HostRuntime) {
    let _ = fs::remove_dir_all(&rt, ROOT);
    try_missing(rt, &rt);
    same(&rt, must(&rt, fs::exists(&rt, ROOT)), false);
    must(&rt, fs::write(&rt, ROOT, b"a file"));
    try_missing(rt, &rt);
    must(&rt, fs::remove_file(&rt, ROOT));
    must(&rt, fs::create_dir(&rt, ROOT));
    try_folder(rt, &rt);
    let text = must(&rt, fs::read_to_string(&rt, "disk_tests_map/e/f"));
    same_at(&rt, ROOT, text.as_str(), "four");
    must(&rt, fs::remove_dir_all(&rt, ROOT));
}

// A folder of a host whose files give and take one byte a call.
#[test]
fn folder_is_a_map_byte_by_byte(rt: HostRuntime) {
    let root = "disk_tests_bytes";
    let _ = fs::remove_dir_all(&rt, root);
    must(&rt, fs::create_dir(&rt, root));
    let record = Record::new(rt.alloc());
    record.by_bytes.set(true);
    let mut disk = must(&rt, alone_at(rt, &record, root));
    try_all(&rt, rt.alloc(), &mut disk);
    let text = must(&rt, fs::read_to_string(&rt, "disk_tests_bytes/e/f"));
    same_at(&rt, root, text.as_str(), "four");
    must(&rt, fs::remove_dir_all(&rt, root));
}

// What a disk must be to be moved to another thread.
fn try_sent<D: Disk + Send + Drop>(rt: &impl Abort, disk: D) {
    same(rt, disk.faults(), 0);
}

#[test]
fn crosses_threads(rt: HostRuntime) {
    let memory = MemoryDisk::new(rt.alloc());
    try_sent(&rt, FailingDisk::stopping_after(memory, 0));
    try_sent(&rt, must(&rt, folder_at(rt, &rt, "none")));
}
