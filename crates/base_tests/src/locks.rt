use crate::asserts::{must, same_at};
use lock_book::LockBook;
use std::alloc::Global;
use std::process::Abort;
use store_types::{GroupKey, SnapshotKey};

fn group(rt: &impl Abort, alloc: Global, text: &str) -> GroupKey {
    must(rt, must(rt, GroupKey::parse(alloc, text.as_bytes())))
}

fn snapshot(rt: &impl Abort, alloc: Global, text: &str) -> SnapshotKey {
    must(rt, must(rt, SnapshotKey::parse(alloc, text.as_bytes())))
}

/// What a lane asks of a lock book, by the names of groups and snapshots.
#[derive(Clone, Copy)]
enum Ask {
    Group(&'static str),
    Writer(&'static str),
    WriterOver(&'static str, &'static str),
    Shared(&'static str),
    FreeForWriter(&'static str),
    FreeForRemoval(&'static str),
    Release,
}

/// The lane that holds what is asked for, where one does.
fn holder(rt: &impl Abort, alloc: Global, book: &mut LockBook, lane: u32, ask: Ask) -> Option<u32> {
    let outcome = match ask {
        Ask::Group(name) => must(rt, book.group_take(lane, &group(rt, alloc, name))),
        Ask::Writer(name) => must(rt, book.writer_take(lane, &group(rt, alloc, name), None)),
        Ask::WriterOver(name, base) => {
            must(
                rt,
                book.writer_take(
                    lane,
                    &group(rt, alloc, name),
                    Some(&snapshot(rt, alloc, base)),
                ),
            )
        }
        Ask::Shared(name) => {
            must(rt, book.shared_take(lane, &snapshot(rt, alloc, name)));
            Ok(())
        }
        Ask::FreeForWriter(name) => book.free_for_writer(lane, &group(rt, alloc, name)),
        Ask::FreeForRemoval(name) => book.free_for_removal(&snapshot(rt, alloc, name)),
        Ask::Release => {
            book.release(lane);
            Ok(())
        }
    };
    outcome.err().map(|held| held.lane)
}

/// Asks in turn of an empty book, and compares who holds what is asked for.
fn ask_all(rt: &impl Abort, alloc: Global, asks: &[(u32, Ask, Option<u32>)]) {
    let mut book = LockBook::new(alloc);
    for (number, row) in asks.iter().enumerate() {
        let (lane, ask, want) = row;
        let found = holder(rt, alloc, &mut book, *lane, *ask);
        same_at(rt, number, found, *want);
    }
}

static GROUPS: [(u32, Ask, Option<u32>); 11] = [
    (3, Ask::Group("host/a"), None),
    (1, Ask::Group("host/a"), Some(3)),
    (1, Ask::FreeForWriter("host/a"), Some(3)),
    (3, Ask::FreeForWriter("host/a"), None),
    (63, Ask::Group("host/a"), Some(3)),
    (3, Ask::Group("host/a"), None),
    (1, Ask::Group("host/b"), None),
    (3, Ask::Release, None),
    (2, Ask::FreeForWriter("host/a"), None),
    (2, Ask::Group("host/a"), None),
    (2, Ask::Group("host/b"), Some(1)),
];

/// A snapshot, and a later one of its group.
const KEY: &str = "vm/a/2020-01-15T06:30:03Z";

const LATER: &str = "vm/a/2020-01-15T06:30:04Z";

static WRITERS: [(u32, Ask, Option<u32>); 9] = [
    (3, Ask::Writer("vm/b"), None),
    (0, Ask::FreeForRemoval(KEY), None),
    (4, Ask::WriterOver("vm/a", KEY), None),
    (0, Ask::FreeForRemoval(KEY), Some(4)),
    (0, Ask::WriterOver("vm/a", KEY), Some(4)),
    (0, Ask::FreeForRemoval(KEY), Some(4)),
    (4, Ask::Release, None),
    (0, Ask::FreeForRemoval(KEY), None),
    (0, Ask::FreeForWriter("vm/b"), Some(3)),
];

static SHARES: [(u32, Ask, Option<u32>); 12] = [
    (0, Ask::FreeForRemoval(KEY), None),
    (5, Ask::Shared(KEY), None),
    (3, Ask::Shared(KEY), None),
    (7, Ask::Shared(KEY), None),
    (0, Ask::Shared(LATER), None),
    (0, Ask::FreeForRemoval(KEY), Some(3)),
    (3, Ask::Release, None),
    (0, Ask::FreeForRemoval(KEY), Some(5)),
    (5, Ask::Release, None),
    (7, Ask::Release, None),
    (0, Ask::FreeForRemoval(KEY), None),
    (0, Ask::FreeForRemoval(LATER), Some(0)),
];

#[test]
fn a_group_has_one_lane(rt: HostRuntime) {
    ask_all(&rt, rt.alloc(), &GROUPS)
}

#[test]
fn a_writer_holds_its_base(rt: HostRuntime) {
    ask_all(&rt, rt.alloc(), &WRITERS)
}

#[test]
fn a_snapshot_is_shared(rt: HostRuntime) {
    ask_all(&rt, rt.alloc(), &SHARES)
}
