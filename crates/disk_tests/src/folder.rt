//! Which files and folders a disk over a folder syncs, and when.

use crate::asserts::{must, same_at};
use crate::sessions::{parted, told};
use crate::watched::{Record, alone_at};
use disk_trait::Disk;
use std::alloc::Global;
use std::fs;
use std::process::Abort;

const ROOT: &str = "disk_tests_synced";

// A path below the root, which itself is a point.
fn below_root(path: &str) -> &str {
    let name = path.strip_prefix(ROOT).unwrap_or(path);
    let name = name.strip_prefix("/").unwrap_or(name);
    if name.is_empty() { "." } else { name }
}

fn add_names(rt: &impl Abort, text: &mut String, names: &[&str]) {
    for name in names {
        must(rt, text.push(' '));
        must(rt, text.push_str(name));
    }
}

// Adds what was synced since the record was last taken, in byte order.
fn tell_synced(rt: &impl Abort, alloc: Global, record: &Record, text: &mut String) {
    let all = must(rt, record.taken(alloc));
    let mut names: Vec<&str> = Vec::new(alloc);
    for path in all.as_str().lines() {
        must(rt, names.push(below_root(path)));
    }
    must(rt, names.sort());
    add_names(rt, text, &names)
}

// A call whose line begins so goes to a disk that is full, or that syncs nothing.
fn beset<'t>(record: &Record, line: &'t str) -> &'t str {
    let (word, rest) = parted(line);
    record.full.set(word == "full:");
    record.fails.set(word == "unsynced:");
    match word {
        "full:" | "unsynced:" => rest,
        _ => line,
    }
}

// What a call tells, and what is synced in it; of `reads` how many folders were read so far.
fn seen<D: Disk>(
    rt: &impl Abort,
    alloc: Global,
    record: &Record,
    disk: &mut D,
    line: &str,
) -> String {
    if line == "reads" {
        return must(rt, format!(in alloc; "{}", record.reads.get()));
    }
    let mut found = told(rt, alloc, disk, "", beset(record, line));
    tell_synced(rt, alloc, record, &mut found);
    found
}

// Plays a session.
fn play_watched<D: Disk>(
    rt: &impl Abort,
    alloc: Global,
    record: &Record,
    disk: &mut D,
    session: &str,
) {
    for line in session.lines() {
        let (line, want) = must(rt, line.split_once(" = ").ok_or("no line of a session"));
        let found = seen(rt, alloc, record, disk, line);
        same_at(rt, line, found.as_str(), want);
    }
}

// Plays sessions, one after another, by a disk of its own.
fn play_run(rt: HostRuntime, abort: &impl Abort, sessions: &[&str]) {
    let record = Record::new(rt.alloc());
    let mut disk = must(abort, alone_at(rt, &record, ROOT));
    for session in sessions {
        play_watched(abort, rt.alloc(), &record, &mut disk, session);
    }
}

fn make_root(rt: HostRuntime, abort: &impl Abort, below: &str) {
    let _ = fs::remove_dir_all(&rt, ROOT);
    must(abort, fs::create_dir_all(&rt, below));
}

// What was there before is synced by the first sync; a file and its folder as it is put; a name that changes by the sync.
const NAMES: &str = "\
sync = done . x x/y
sync = done
put x/a.tmp one = done x x/a.tmp
put x/a.tmp two = done x x/a.tmp
sync = done
rename x/a.tmp x/a = done
rename x/a.tmp x/b = none
sync = done x
sync = done
rename x/a b = done
sync = done . x
remove b = done
remove b = none
sync = done .
put u/v/c '' = done . u u/v u/v/c
put u/v/d '' = done u/v u/v/d
sync = done";

// Eight folders wait, and a ninth has no room beside them. One that waits is synced beside a file.
const EIGHT: &str = "\
put 1/f '' = done . 1 1/f
put 3/f '' = done . 3 3/f
put 5/f '' = done . 5 5/f
put 7/f '' = done . 7 7/f
rename 1/f 2/f = done
rename 3/f 4/f = done
rename 5/f 6/f = done
remove 7/f = done
remove u/v/d = done . 1 2 3 4 5 6 7
put x/f '' = done u/v x x/f";

// Behind a call that failed all is synced again.
const FAILED: &str = "\
full: put 1/f one = failed
put 2/f one = done 2 2/f
sync = done . 1 2 3 4 5 6 7 u u/v x x/y
unsynced: put 2/f two = failed
unsynced: sync = failed
unsynced: sync = failed
sync = done . 1 2 3 4 5 6 7 u u/v x x/y
sync = done
full: put x '' = failed
sync = done . 1 2 3 4 5 6 7 u u/v x x/y
sync = done";

// Eight folders wait, and each change of a ninth fails, since they can't be synced. On the host it is made.
const NINTH: &str = "\
put 3/f '' = done 3 3/f
put 5/f '' = done 5 5/f
put 7/f '' = done 7 7/f
put b '' = done . b
remove b = done
remove 1/f = done
remove 2/f = done
remove 3/f = done
remove 4/f = done
remove 5/f = done
remove 6/f = done
remove 7/f = done
unsynced: remove x/f = failed
unsynced: put x/g one = failed
unsynced: rename x/g 1/f = failed
unsynced: rename 1/f x/h = failed
sync = done . 1 2 3 4 5 6 7 u u/v x x/y
sync = done
list '' = u/v/c x/h
read x/h = one";

#[test]
fn names_wait_for_the_sync(rt: HostRuntime) {
    make_root(rt, &rt, "disk_tests_synced/x/y");
    play_run(rt, &rt, &[NAMES, EIGHT, FAILED, NINTH]);
    must(&rt, fs::remove_dir_all(&rt, ROOT));
}

// A run that was then killed, and what the next one's first sync syncs. It syncs nothing more by the second.
static LEFT: [(&str, &str); 3] = [
    // a chunk that was renamed
    (
        "\
put c/1/k.tmp k = done . c c/1 c/1/k.tmp
sync = done . c c/1
rename c/1/k.tmp c/1/k = done",
        "sync = done . c c/1\nsync = done",
    ),
    // a folder that was made
    (
        "sync = done .\nput n/f.tmp f = done . n n/f.tmp",
        "sync = done . n\nsync = done",
    ),
    // a manifest that was removed
    (
        "put h/m m = done . h h/m\nsync = done . h\nremove h/m = done",
        "sync = done . h\nsync = done",
    ),
];

#[test]
fn what_a_killed_run_left_is_synced(rt: HostRuntime) {
    for (killed, next) in &LEFT {
        make_root(rt, &rt, ROOT);
        play_run(rt, &rt, &[killed]);
        play_run(rt, &rt, &[next]);
    }
    must(&rt, fs::remove_dir_all(&rt, ROOT));
}

// What is listed behind the first sync, twice, and how many folders were read until then: what the sync came by is not read
// once more. Behind another sync or a change all is.
static LISTED: [&str; 5] = [
    "\
sync = done . x x/y
list '' = x/f
reads = 3
list '' = x/f
reads = 6",
    "\
sync = done . x x/y
sync = done
list '' = x/f
reads = 6
list '' = x/f
reads = 9",
    "\
sync = done . x x/y
put x/g '' = done x x/g
list '' = x/f x/g
reads = 6
list '' = x/f x/g
reads = 9",
    "\
sync = done . x x/y
rename x/f x/y/h = done
list '' = x/y/h
reads = 6
list '' = x/y/h
reads = 9",
    "\
sync = done . x x/y
remove x/f = done
list '' = no names
reads = 6
list '' = no names
reads = 9",
];

// A root with a file in a folder, and an empty folder.
fn make_file(rt: HostRuntime, abort: &impl Abort) {
    make_root(rt, abort, "disk_tests_synced/x/y");
    must(abort, fs::write(&rt, "disk_tests_synced/x/f", b"f"));
}

#[test]
fn a_first_sync_lists(rt: HostRuntime) {
    for session in &LISTED {
        make_file(rt, &rt);
        play_run(rt, &rt, &[session]);
    }
    must(&rt, fs::remove_dir_all(&rt, ROOT));
}

// Right behind the first sync.
#[test]
fn names_below_a_folder_are_listed(rt: HostRuntime) {
    make_file(rt, &rt);
    must(&rt, fs::write(&rt, "disk_tests_synced/g", b"g"));
    play_run(rt, &rt, &["sync = done . x x/y\nlist x/ = x/f"]);
    must(&rt, fs::remove_dir_all(&rt, ROOT));
}
