use crate::asserts::{must, same, same_at};
use disk_trait::{Disk, DiskError, FailingDisk, MemoryDisk};
use file_install::{drop_firm, install, install_firm};
use std::alloc::Global;
use std::process::Abort;

#[derive(Clone, Copy, Debug)]
enum Change {
    Install,
    InstallFirm,
    DropFirm,
}

// Makes a change of the file `a`.
fn make<D: Disk>(alloc: Global, disk: &mut D, change: Change) -> Result<(), DiskError> {
    match change {
        Change::Install => install(disk, alloc, "a", b"new one"),
        Change::InstallFirm => install_firm(disk, alloc, "a", b"new one"),
        Change::DropFirm => Ok(drop_firm(disk, "a")?),
    }
}

// How many calls of the disk it makes.
fn calls_of(change: Change) -> u64 {
    match change {
        Change::Install => 3,
        Change::InstallFirm => 4,
        Change::DropFirm => 2,
    }
}

fn old_disk(alloc: Global) -> Result<MemoryDisk, DiskError> {
    let mut disk = MemoryDisk::new(alloc);
    disk.put(alloc, "a", b"old")?;
    disk.put(alloc, "b", b"other")?;
    disk.sync()?;
    Ok(disk)
}

// What stands at `a`, `a.tmp` and `b`, each with a slash after it.
fn shown(rt: &impl Abort, alloc: Global, disk: &mut MemoryDisk) -> String {
    let mut text = String::new(alloc);
    for name in ["a", "a.tmp", "b"] {
        if let Some(bytes) = must(rt, disk.read(alloc, name)) {
            must(
                rt,
                text.push_str(str::from_utf8(bytes.as_slice()).unwrap_or("no text")),
            );
        }
        must(rt, text.push('/'));
    }
    text
}

// What stands there before a change and after it.
#[derive(Clone, Copy)]
enum Left {
    Old,
    Whole,
    Half,
    New,
    Gone,
}

// The same, as it is shown.
fn text_of(left: Left) -> &'static str {
    match left {
        Left::Old => "old//other/",
        Left::Whole => "old/new one/other/",
        Left::Half => "old/new/other/",
        Left::New => "new one//other/",
        Left::Gone => "//other/",
    }
}

// A change on a disk that fails at its call k, counted from 0: what a crash leaves by each choice, the second of which is
// what reads.
fn try_change(
    rt: &impl Abort,
    alloc: Global,
    mut disk: FailingDisk<MemoryDisk>,
    change: Change,
    k: u64,
    wants: &[Left; 3],
) {
    let is_whole = k == calls_of(change);
    let outcome = make(alloc, &mut disk, change);
    same_at(rt, (change, k), outcome.is_ok(), is_whole);
    same_at(rt, (change, k), disk.faults(), if is_whole { 0 } else { 1 });
    let mut left = disk.into_inner();
    same_at(
        rt,
        (change, k),
        shown(rt, alloc, &mut left).as_str(),
        text_of(wants[1]),
    );
    for choice in 0..3u8 {
        let mut crashed = must(rt, left.crashed(alloc, choice));
        let reads = shown(rt, alloc, &mut crashed);
        same_at(
            rt,
            (change, k, choice),
            reads.as_str(),
            text_of(wants[choice as usize]),
        );
    }
}

static CHANGES: [(Change, u64, (Left, Left, Left)); 12] = [
    (Change::Install, 0, (Left::Old, Left::Old, Left::Old)),
    (Change::Install, 1, (Left::Old, Left::Whole, Left::Half)),
    (Change::Install, 2, (Left::Whole, Left::Whole, Left::Whole)),
    (Change::Install, 3, (Left::Whole, Left::New, Left::New)),
    (Change::InstallFirm, 0, (Left::Old, Left::Old, Left::Old)),
    (Change::InstallFirm, 1, (Left::Old, Left::Whole, Left::Half)),
    (
        Change::InstallFirm,
        2,
        (Left::Whole, Left::Whole, Left::Whole),
    ),
    (Change::InstallFirm, 3, (Left::Whole, Left::New, Left::New)),
    (Change::InstallFirm, 4, (Left::New, Left::New, Left::New)),
    (Change::DropFirm, 0, (Left::Old, Left::Old, Left::Old)),
    (Change::DropFirm, 1, (Left::Old, Left::Gone, Left::Old)),
    (Change::DropFirm, 2, (Left::Gone, Left::Gone, Left::Gone)),
];

#[test]
fn each_call_fails(rt: HostRuntime) {
    let alloc = rt.alloc();
    for (change, k, left) in &CHANGES {
        let wants = [left.0, left.1, left.2];
        let failing = FailingDisk::at_calls(
            must(&rt, old_disk(alloc)),
            must(&rt, Vec::from_slice(alloc, &[*k])),
        );
        try_change(&rt, alloc, failing, *change, *k, &wants);
        let stopping = FailingDisk::stopping_after(must(&rt, old_disk(alloc)), *k);
        try_change(&rt, alloc, stopping, *change, *k, &wants);
    }
}

// An absent file is dropped without a change.
#[test]
fn drops_nothing(rt: HostRuntime) {
    let alloc = rt.alloc();
    let mut disk = must(&rt, old_disk(alloc));
    must(&rt, drop_firm(&mut disk, "c"));
    same(
        &rt,
        shown(&rt, alloc, &mut disk).as_str(),
        text_of(Left::Old),
    );
    same(&rt, disk.steps().len(), 4);
}
