use crate::acts::{Row, Step};
use crate::asserts::{must, same, same_at};
use crate::cases::{try_row, try_rows, try_tables};
use crate::fixtures::{STILL, TestCore, opened};
use crate::folders::Archives;
use crate::sent::{
    ABORT, CLOSE_READER, DONE, FINISH, FIRST_BASE, FORGET_FIRST, GROUP_BUSY, IN_NONE, IN_READER,
    IN_WRITER, LIST, NO_BASE, NO_MEMORY, NO_SNAPSHOT, NONE_THERE, NOT_NEWER, NOTHING, ONE_KEY,
    ONE_LISTED, OPEN_FIRST, OPEN_SECOND, PRUNE, PUT_MANIFEST, READ_FIRST,
};
use core_state::{Act, Place, enter};
use disk_trait::MemoryDisk;
use std::alloc::Global;
use std::process::Abort;
use store_types::MEMORY_KIND;

/// The first snapshot is a lane's base, or has a reader of it.
const HELD_BY_2: &[u8] = b"\x05\0\0\0\x06\x02\0\0\0";

const HELD_BY_4: &[u8] = b"\x05\0\0\0\x06\x04\0\0\0";

const HELD_BY_5: &[u8] = b"\x05\0\0\0\x06\x05\0\0\0";

/// Two lanes want writers of one group, and a third wants to forget what is a base.
static STEPS: [Row; 17] = [
    (3, Step::Send(OPEN_FIRST), NO_BASE, 0),
    (1, Step::Send(OPEN_SECOND), GROUP_BUSY, 0),
    (3, Step::Send(PUT_MANIFEST), DONE, 0),
    (3, Step::Send(FINISH), DONE, 0),
    (1, Step::Send(OPEN_FIRST), NOT_NEWER, 0),
    (1, Step::Send(OPEN_SECOND), FIRST_BASE, 0),
    (1, Step::End, NOTHING, 6),
    (5, Step::Send(LIST), ONE_LISTED, 0),
    (2, Step::Send(OPEN_SECOND), FIRST_BASE, 0),
    (5, Step::Send(FORGET_FIRST), HELD_BY_2, 0),
    (5, Step::Send(LIST), ONE_LISTED, 0),
    (2, Step::Send(ABORT), DONE, 0),
    (5, Step::Send(LIST), ONE_LISTED, 0),
    (5, Step::Send(FORGET_FIRST), DONE, 0),
    (5, Step::Send(FORGET_FIRST), NO_SNAPSHOT, 0),
    (2, Step::Send(LIST), NONE_THERE, 0),
    (5, Step::Short, NO_MEMORY, 2),
];

#[test]
fn groups_have_one_writer(rt: HostRuntime) {
    try_tables(&rt, rt.alloc(), &[], Archives::Root(0), &[], &STEPS)
}

/// Lanes that hold the first snapshot, as base or with a reader, while another prunes its group. Behind each act a FORGET is told the
/// least lane that then holds it.
static HOLDERS: [Row; 29] = [
    (3, Step::Send(OPEN_FIRST), NO_BASE, 0),
    (3, Step::Send(PUT_MANIFEST), DONE, 0),
    (6, Step::Send(FORGET_FIRST), NO_SNAPSHOT, 0),
    (3, Step::Send(FINISH), DONE, 0),
    (4, Step::Send(OPEN_SECOND), FIRST_BASE, 0),
    (6, Step::Send(FORGET_FIRST), HELD_BY_4, 0),
    (5, Step::Send(READ_FIRST), DONE, 0),
    (6, Step::Send(FORGET_FIRST), HELD_BY_4, 0),
    (2, Step::Send(READ_FIRST), DONE, 0),
    (6, Step::Send(FORGET_FIRST), HELD_BY_2, 0),
    (2, Step::Send(FORGET_FIRST), IN_READER, 0),
    (6, Step::Send(FORGET_FIRST), HELD_BY_2, 0),
    (4, Step::Send(PRUNE), IN_WRITER, 0),
    (6, Step::Send(FORGET_FIRST), HELD_BY_2, 0),
    (2, Step::Send(CLOSE_READER), DONE, 0),
    (6, Step::Send(FORGET_FIRST), HELD_BY_4, 0),
    (1, Step::Send(OPEN_SECOND), b"\x05\0\0\0\x05\x04\0\0\0", 0),
    (6, Step::Send(FORGET_FIRST), HELD_BY_4, 0),
    (4, Step::Send(ABORT), DONE, 0),
    (6, Step::Send(FORGET_FIRST), HELD_BY_5, 0),
    (6, Step::Send(PRUNE), ONE_KEY, 0),
    (6, Step::Send(FORGET_FIRST), HELD_BY_5, 0),
    (1, Step::Send(OPEN_FIRST), NOT_NEWER, 0),
    (6, Step::Send(FORGET_FIRST), HELD_BY_5, 0),
    (5, Step::End, NOTHING, 6),
    (6, Step::Send(FORGET_FIRST), DONE, 0),
    (6, Step::Send(FORGET_FIRST), NO_SNAPSHOT, 0),
    (6, Step::Send(PRUNE), NONE_THERE, 0),
    (6, Step::Send(FORGET_FIRST), NO_SNAPSHOT, 0),
];

#[test]
fn snapshots_are_held(rt: HostRuntime) {
    try_tables(&rt, rt.alloc(), &[], Archives::Root(0), &[], &HOLDERS)
}

/// Lanes whose sessions are closed, or are not theirs to close, and a collector that memory was wanting for: each act, and how many
/// entries the lane then has in reserve. What ends a session or such a collector fills up nothing, and takes an entry of the reserve
/// where no spare one is.
static CLOSINGS: [(Row, u8); 16] = [
    ((3, Step::Send(ABORT), IN_NONE, 0), 3),
    ((3, Step::Send(OPEN_FIRST), NO_BASE, 0), 3),
    ((3, Step::Send(CLOSE_READER), IN_WRITER, 0), 3),
    ((3, Step::Send(ABORT), DONE, 0), 2),
    ((1, Step::Send(OPEN_FIRST), NO_BASE, 0), 3),
    ((1, Step::Send(PUT_MANIFEST), DONE, 0), 3),
    ((1, Step::Send(FINISH), DONE, 0), 3),
    ((2, Step::Send(READ_FIRST), DONE, 0), 3),
    ((2, Step::Send(ABORT), IN_READER, 0), 3),
    ((2, Step::Send(CLOSE_READER), DONE, 0), 2),
    ((2, Step::Send(CLOSE_READER), IN_NONE, 0), 3),
    ((5, Step::Start, NOTHING, 3), 3),
    ((5, Step::Short, NO_MEMORY, 2), 3),
    ((5, Step::Pass, NO_MEMORY, 4), 2),
    ((5, Step::Pass, IN_NONE, 0), 3),
    ((3, Step::End, NOTHING, 6), 1),
];

/// How many spare entries there are, how many the lane has in reserve, and whether there is one for it.
fn reserve(core: &TestCore, lane: u32) -> (usize, u8, bool) {
    let held = core.journal.held.get(lane as usize);
    let has_room = lane < 64 && core.room(lane, &Act::Short);
    (core.journal.spare, *held.unwrap_or(&0), has_room)
}

fn try_closing(
    rt: &impl Abort,
    core: &mut TestCore,
    alloc: Global,
    number: usize,
    closing: &(Row, u8),
) {
    let (row, left) = closing;
    try_row(rt, core, alloc, ([0; 4], number), row);
    same_at(rt, number, reserve(core, row.0), (0, *left, true));
}

fn try_closings(rt: &impl Abort, core: &mut TestCore, alloc: Global) {
    for (number, closing) in CLOSINGS.iter().enumerate() {
        try_closing(rt, core, alloc, number, closing);
    }
    must(rt, core.reserve(2));
    same(rt, core.journal.spare, 2);
}

#[test]
fn sessions_are_closed_by_the_reserve(rt: HostRuntime) {
    let alloc = rt.alloc();
    let mut core = opened(&rt, alloc, MemoryDisk::new(alloc), STILL);
    try_closings(&rt, &mut core, alloc)
}

/// A want of memory on lane 3 that takes an entry of the lane's reserve, since none is spare.
fn use_reserve(rt: &impl Abort, core: &mut TestCore) {
    let at = Place {
        lane: 3,
        moment: 1_000_000,
        number: 0,
    };
    assert!(rt; core.journal.room(3));
    same(rt, enter(core, at, MEMORY_KIND, None).last, true);
}

/// How many entries and counts of calls the order has memory for.
fn capacities(core: &TestCore) -> (usize, usize) {
    let journal = &core.journal;
    (journal.entries.capacity(), journal.calls.capacity())
}

/// A first act, how many entries of the reserve are used then, what ends the lane, and what another lane does then.
struct Ending<'a> {
    first: Row,
    used: usize,
    ending: &'a [Row],
    other: Row,
}

/// What ends a lane by the last entries of its reserve, with what came before. It takes no memory, and another lane has what was its.
fn end_lane(rt: &impl Abort, core: &mut TestCore, alloc: Global, case: &Ending<'_>) {
    let spot = [0; 4];
    try_row(rt, core, alloc, (spot, 0), &case.first);
    for _ in 0..case.used {
        use_reserve(rt, core);
    }
    let before = capacities(core);
    try_rows(rt, core, alloc, spot, case.ending);
    same(
        rt,
        (capacities(core), core.collector.is_none()),
        (before, true),
    );
    same(rt, core.journal.room(3), false);
    try_row(rt, core, alloc, (spot, 1), &case.other)
}

fn try_ending(rt: &impl Abort, alloc: Global, case: &Ending<'_>) {
    let mut core = opened(rt, alloc, MemoryDisk::new(alloc), STILL);
    end_lane(rt, &mut core, alloc, case)
}

/// A writer's lane ends by the last entry of its reserve, and frees the group.
static WRITER_ENDS: Ending<'static> = Ending {
    first: (3, Step::Send(OPEN_FIRST), NO_BASE, 0),
    used: 2,
    ending: &[(3, Step::End, NOTHING, 6)],
    other: (4, Step::Send(OPEN_FIRST), NO_BASE, 0),
};

#[test]
fn lanes_end_without_memory(rt: HostRuntime) {
    try_ending(&rt, rt.alloc(), &WRITER_ENDS)
}

/// Memory is wanting for a collector's lane by an entry of its reserve: the collector's end and the lane's have the other two.
static COLLECTOR_ENDS: Ending<'static> = Ending {
    first: (3, Step::Start, NOTHING, 3),
    used: 1,
    ending: &[(3, Step::Pass, NO_MEMORY, 4), (3, Step::End, NOTHING, 6)],
    other: (4, Step::Start, NOTHING, 3),
};

#[test]
fn collections_end_without_memory(rt: HostRuntime) {
    try_ending(&rt, rt.alloc(), &COLLECTOR_ENDS)
}
