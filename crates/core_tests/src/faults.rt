//! Collections on a disk that fails.

use crate::acts::{Step, do_act};
use crate::asserts::{must, same_at};
use crate::cases::begun_with;
use crate::collecting::ONE_NEEDED;
use crate::fixtures::{Kept, STILL, TestCore, kept, opened_over};
use crate::folders::{Archives, folder};
use crate::sent::FILES;
use disk_trait::FailingDisk;
use std::alloc::Global;
use std::process::Abort;

/// A collection of four acts behind its start, and one that finds none open.
const WHOLE: &[(u32, Step)] = &[
    (5, Step::Start),
    (5, Step::Pass),
    (5, Step::Pass),
    (5, Step::Pass),
    (5, Step::Pass),
    (5, Step::Pass),
];

/// Memory is wanting, and then the disk fails on another lane.
const SHORT: &[(u32, Step)] = &[
    (5, Step::Start),
    (5, Step::Short),
    (6, Step::Send(FILES)),
    (5, Step::Pass),
    (5, Step::Pass),
    (5, Step::End),
];

/// What is done while a call of the disk fails, the first behind opening being 0; the kinds of the entries, and what the core has
/// then.
type Fault = (&'static [(u32, Step)], u64, [u8; 6], Kept);

const MARKED: Kept = (1_000_000, Some(1_000_000), Some(4), 0);

const NOT_MARKED: Kept = (1_000_000, Some(5), Some(4), 0);

const SWEPT: Kept = (1_000_000, Some(1_000_000), None, 0);

/// A mark asks for the index's size, and reads its front and its page; the first visit lists the chunks and removes `de`; the second has no call; the end
/// installs the book. In the end no call is left to fail.
static FAULTS: [Fault; 10] = [
    (WHOLE, 0, [3, 5, 5, 5, 5, 5], NOT_MARKED),
    (WHOLE, 1, [3, 5, 5, 5, 5, 5], NOT_MARKED),
    (WHOLE, 2, [3, 5, 5, 5, 5, 5], NOT_MARKED),
    (WHOLE, 3, [3, 1, 5, 5, 5, 5], MARKED),
    (WHOLE, 4, [3, 1, 5, 5, 5, 5], MARKED),
    (WHOLE, 5, [3, 1, 1, 1, 5, 5], SWEPT),
    (WHOLE, 6, [3, 1, 1, 1, 5, 5], SWEPT),
    (WHOLE, 7, [3, 1, 1, 1, 5, 5], SWEPT),
    (WHOLE, 8, [3, 1, 1, 1, 4, 0], SWEPT),
    (SHORT, 0, [3, 2, 5, 5, 5, 6], NOT_MARKED),
];

/// A core whose disk fails at one call, counted from its opening's first.
fn begun(rt: &impl Abort, alloc: Global, call: u64) -> TestCore {
    let disk = folder(rt, alloc, ONE_NEEDED, Archives::Root(1));
    let failing = FailingDisk::at_calls(disk, must(rt, Vec::from_slice(alloc, &[call])));
    opened_over(rt, alloc, failing, STILL)
}

fn try_kinds(rt: &impl Abort, core: &mut TestCore, alloc: Global, number: usize, row: &Fault) {
    let (steps, _, kinds, left) = row;
    for (step, kind) in steps.iter().zip(kinds) {
        let found = do_act(rt, core, alloc, step.0, step.1).kind;
        same_at(rt, number, found, *kind);
    }
    let found = (kept(core), core.collector.is_none());
    same_at(rt, number, found, (*left, true));
}

fn try_fault(rt: &impl Abort, alloc: Global, number: usize, opening: u64, row: &Fault) {
    let (_, call, _, _) = row;
    let mut core = begun(rt, alloc, opening.saturating_add(*call));
    try_kinds(rt, &mut core, alloc, number, row)
}

/// A call of the disk that fails ends the collector, and so does one of another lane's.
#[test]
fn faults_end_collections(rt: HostRuntime) {
    let alloc = rt.alloc();
    let (_, opening) = begun_with(
        &rt,
        alloc,
        folder(&rt, alloc, ONE_NEEDED, Archives::Root(1)),
    );
    for (number, row) in FAULTS.iter().enumerate() {
        try_fault(&rt, alloc, number, opening, row);
    }
}
