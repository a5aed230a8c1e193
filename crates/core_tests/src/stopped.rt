//! A collection beside a writer, on a disk that fails at each call, or stops before it: what is found after a crash of each kind. The
//! bytes are made by `tests/make-tables`.

use crate::acts::{Row, Rows, Step, do_act};
use crate::asserts::{must, same_at};
use crate::beside::{
    ABC, AT_END_OF_ONE, AT_END_OF_TWO, CLOSE, DE_ABC, OPENED_FIRST, OPENED_SECOND,
};
use crate::cases::{Spot, begun_with, try_rows};
use crate::collecting::{PASS, START, TWO_USED, taken_over};
use crate::fixtures::{STILL, TestCore, TestDisk, disk_of, opened, opened_over};
use crate::folders::folder;
use crate::sent::{IN_READER, LIST, NO_SNAPSHOT, READ_FIRST, READ_SECOND};
use disk_trait::{FailingDisk, MemoryDisk};
use std::alloc::Global;
use std::process::Abort;

/// What is there is restored whole: the first snapshot.
static FIRST_RESTORED: [Row; 9] = [
    (4, Step::Send(READ_SECOND), NO_SNAPSHOT, 0),
    OPENED_FIRST,
    AT_END_OF_TWO,
    DE_ABC,
    START,
    PASS,
    PASS,
    PASS,
    TWO_USED,
];

/// Both.
static BOTH_RESTORED: [Row; 14] = [
    OPENED_FIRST,
    AT_END_OF_TWO,
    DE_ABC,
    (4, Step::Send(READ_SECOND), IN_READER, 0),
    CLOSE,
    OPENED_SECOND,
    AT_END_OF_ONE,
    ABC,
    START,
    PASS,
    PASS,
    PASS,
    PASS,
    TWO_USED,
];

/// The second.
static SECOND_RESTORED: [Row; 4] = [
    (4, Step::Send(READ_FIRST), NO_SNAPSHOT, 0),
    OPENED_SECOND,
    AT_END_OF_ONE,
    ABC,
];

/// The snapshots that may be found, as LIST tells them: the first alone; the second too, once it is finished; that one alone, once the
/// first is forgotten.
static LISTED: [&[u8]; 3] = [
    b"!\0\0\0\0\x01\0\x1bhost/a/2020-01-15T06:30:03Z\0\x02",
    b"?\0\0\0\0\x02\0\x1bhost/a/2020-01-15T06:30:03Z\0\x02\x1bhost/a/2020-01-15T06:30:04Z\0\x02",
    b"!\0\0\0\0\x01\0\x1bhost/a/2020-01-15T06:30:04Z\0\x02",
];

fn restored(number: usize) -> Rows {
    match number {
        0 => &FIRST_RESTORED,
        1 => &BOTH_RESTORED,
        _ => &SECOND_RESTORED,
    }
}

/// Which of them are there after so many acts: the eighth is the FINISH, and the ninth the FORGET.
fn listed_after(acts: usize) -> usize {
    match acts {
        0..=7 => 0,
        8 => 1,
        _ => 2,
    }
}

/// What they are done on: a disk that fails at a call, or stops before it.
fn begun(rt: &impl Abort, alloc: Global, stops: bool, call: u64) -> TestDisk {
    let case = taken_over();
    let disk = folder(rt, alloc, case.files, case.archives);
    if stops {
        return FailingDisk::stopping_after(disk, call);
    }
    let calls = must(rt, Vec::from_slice(alloc, &[call]));
    FailingDisk::at_calls(disk, calls)
}

/// Does them all: how many were done before the disk failed.
fn count_done(rt: &impl Abort, core: &mut TestCore, alloc: Global) -> usize {
    let mut done = 0usize;
    for (lane, step, _, _) in taken_over().steps {
        if do_act(rt, core, alloc, *lane, *step).kind != 5 {
            done = done.saturating_add(1);
        }
    }
    done
}

/// Which of the three is told.
fn listed(told: &[u8]) -> Option<usize> {
    for (number, listed) in LISTED.iter().enumerate() {
        if told == *listed {
            return Some(number);
        }
    }
    None
}

/// Which of them LIST tells.
fn found_by(rt: &impl Abort, core: &mut TestCore, alloc: Global) -> usize {
    let told = do_act(rt, core, alloc, 4, Step::Send(LIST));
    must(rt, listed(told.frame.as_bytes()).ok_or("other snapshots"))
}

/// What was there before the act that failed is found, or what is there after it, and is restored.
fn try_found(rt: &impl Abort, core: &mut TestCore, alloc: Global, spot: Spot) {
    let [_, _, _, done] = spot;
    let found = found_by(rt, core, alloc);
    let fits = found == listed_after(done) || found == listed_after(done.saturating_add(1));
    same_at(rt, spot, fits, true);
    try_rows(rt, core, alloc, spot, restored(found))
}

fn try_crashed(rt: &impl Abort, alloc: Global, spot: Spot, disk: MemoryDisk) {
    let mut core = opened(rt, alloc, disk, STILL);
    try_found(rt, &mut core, alloc, spot)
}

/// A crash of each kind comes behind them. Gives whether all were done.
fn try_call(rt: &impl Abort, alloc: Global, stops: bool, call: u64) -> bool {
    let mut core = opened_over(rt, alloc, begun(rt, alloc, stops, call), STILL);
    let done = count_done(rt, &mut core, alloc);
    let left = disk_of(core);
    for choice in 0..3u8 {
        let spot = [stops as usize, call as usize, choice as usize, done];
        try_crashed(rt, alloc, spot, must(rt, left.crashed(alloc, choice)));
    }
    done == taken_over().steps.len()
}

/// From the first call behind those of opening on, until there is none more.
#[test]
fn faults_and_stops_lose_no_snapshot(rt: HostRuntime) {
    let alloc = rt.alloc();
    let disk = folder(&rt, alloc, taken_over().files, taken_over().archives);
    let (_, opened) = begun_with(&rt, alloc, disk);
    for call in opened..opened.saturating_add(1000) {
        let is_done = try_call(&rt, alloc, false, call);
        try_call(&rt, alloc, true, call);
        if is_done {
            return;
        }
    }
    panic!(rt; "calls without an end")
}
