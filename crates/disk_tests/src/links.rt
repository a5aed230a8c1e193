//! Links, and folders in the place of files: each call that meets one fails, and nothing is changed behind it.

use crate::asserts::{must, same_at};
use crate::sessions::parted;
use crate::watched::{Record, play_alone};
use std::fs;
use std::os::unix::fs::symlink;
use std::process::Abort;

const ROOT: &str = "disk_tests_linked";

const OUTSIDE: &str = "disk_tests_outside";

// Where a link stands below the root, what it leads to from there, and a name that it is met at: in the place of a folder, the
// outermost and the innermost; of a file: to one, to nothing, and to a folder; in a circle.
const LINKS: &str = "\
host ../disk_tests_outside/host host/a/m
host/a ../../disk_tests_outside/host/a host/a/m
host/m ../../disk_tests_outside/host/a/m host/m
book.tmp ../disk_tests_outside/none book.tmp
host/f a host/f
c c c";

// Each call that meets a name.
const MET: &str = "\
size NAME = failed
part NAME 0 1 = failed
read NAME = failed
put NAME new = failed
rename NAME new = failed
rename old NAME = failed
remove NAME = failed";

// A link is met by a listing that it is below, and by the walk of the first sync.
const MET_BELOW: &str = "\
list '' = failed
list NAME = failed
sync = failed
size old = 3
calls = 11
faults = 10";

// The innermost folder of `host/a` that is there, where this is a link.
fn beside(link: &str) -> &str {
    match link {
        "host" => ROOT,
        "host/a" => "disk_tests_linked/host",
        _ => "disk_tests_linked/host/a",
    }
}

// A root with a file `old`, a folder `host/a` and a link, which leads to a folder beside it.
fn make_linked(rt: HostRuntime, abort: &impl Abort, link: &str, to: &str) {
    let _ = fs::remove_dir_all(&rt, ROOT);
    let _ = fs::remove_dir_all(&rt, OUTSIDE);
    must(abort, fs::create_dir_all(&rt, "disk_tests_outside/host/a"));
    must(
        abort,
        fs::write(&rt, "disk_tests_outside/host/a/m", b"kept"),
    );
    must(abort, fs::create_dir(&rt, ROOT));
    must(abort, fs::write(&rt, "disk_tests_linked/old", b"old"));
    must(abort, fs::create_dir_all(&rt, beside(link)));
    let place = must(abort, format!(in rt.alloc(); "{ROOT}/{link}"));
    must(abort, symlink(&rt, to, place.as_str()));
}

// One line of the links. Outside nothing has changed.
fn try_line(rt: HostRuntime, abort: &impl Abort, record: &Record, line: &str) {
    let (link, rest) = parted(line);
    let (to, name) = parted(rest);
    make_linked(rt, abort, link, to);
    play_alone(rt, abort, record, ROOT, name, &[MET, MET_BELOW]);
    play_alone(rt, abort, record, OUTSIDE, "", &["list '' = host/a/m"]);
    let kept = must(
        abort,
        fs::read_to_string(&rt, "disk_tests_outside/host/a/m"),
    );
    same_at(abort, line, kept.as_str(), "kept");
}

#[test]
fn no_link_is_followed(rt: HostRuntime) {
    let record = Record::new(rt.alloc());
    for line in LINKS.lines() {
        try_line(rt, &rt, &record, line);
    }
    must(&rt, fs::remove_dir_all(&rt, ROOT));
    must(&rt, fs::remove_dir_all(&rt, OUTSIDE));
}

// A folder stands where a file should be. It may be listed.
const AS_FILE: [&str; 3] = ["sync = done", MET, "list '' = old"];

#[test]
fn a_folder_is_no_file(rt: HostRuntime) {
    let root = "disk_tests_as_file";
    let _ = fs::remove_dir_all(&rt, root);
    must(&rt, fs::create_dir_all(&rt, "disk_tests_as_file/m"));
    must(&rt, fs::write(&rt, "disk_tests_as_file/old", b"old"));
    let record = Record::new(rt.alloc());
    play_alone(rt, &rt, &record, root, "m", &AS_FILE);
    must(&rt, fs::remove_dir_all(&rt, root));
}
