//! A session that ends beside another, each on a lane and in a thread of its own.

use crate::asserts::{must, same};
use crate::serving::gated::{BACKED_UP, BACKUP_A, BACKUPS};
use crate::stores::{opened, order_of};
use crate::talks::{Talk, session, two_sessions};
use crate::watch::Watch;
use port_traits::FreeGate;
use std::alloc::Global;
use std::process::Abort;
use std::sync::Wait;
use std::thread::Threads;
use store_types::Entry;

/// The kinds of a lane's entries.
pub(crate) fn assert_lane(
    rt: &impl Abort,
    alloc: Global,
    order: &[Entry],
    lane: u32,
    kinds: &[u8],
) {
    let mut found = Vec::new(alloc);
    for entry in order {
        if entry.lane == lane {
            must(rt, found.push(entry.kind));
        }
    }
    same(rt, &found, kinds);
}

/// A session that ends without a FINISH that is done: what it is sent; which read of its source fails, and which write of its sink, each of one
/// byte; what is told, and the kinds of its entries.
type Ending = (&'static [u8], u64, u64, &'static [u8], &'static [u8]);

/// No read or write has this number.
const NEVER: u64 = u64::MAX;

/// OPEN_WRITER and BLOB of the manifest.
const UPLOAD: &[u8] =
    b"\x1d\0\0\0\x0a\x1bhost/a/2020-01-15T06:30:03Zg\0\0\0\x11\x0findex.json.blobB\xab8\x07\xbe\x83p\xa1\xb2\x94\x08E{\"backup-id\":\"a\",\"backup-time\":1579069803,\"backup-type\":\"host\",\"files\":[]}";

const UPLOADED: &[u8] = b"\x02\0\0\0\0\0\x01\0\0\0\0";

/// A lane whose sink failed does nothing more but its end. Then its source fails or ends; or there is no command, or a part of one, or BYE.
static ENDINGS: [Ending; 8] = [
    (BACKUP_A, NEVER, 0, b"", &[0, 6]),
    (BACKUP_A, NEVER, 1, b"\x02", &[0, 6]),
    (BACKUP_A, NEVER, 8, b"\x02\0\0\0\0\0\x01\0", &[0, 0, 6]),
    (UPLOAD, 2, NEVER, UPLOADED, &[0, 0, 6]),
    (UPLOAD, NEVER, NEVER, UPLOADED, &[0, 0, 6]),
    (
        b"\x1d\0\0\0\x0a\x1bhost/a/2020-01-15T06:30:03Zg\0\0\0\x11\x0findex.json.blobB\xab8\x07\xbe\x83p\xa1\xb2\x94\x08E{\"backup-id\":\"a\",\"backup-time\":1579069803,\"backup-type\":\"host\",\"files\":[]}\x01\0\0\0c",
        NEVER,
        NEVER,
        b"\x02\0\0\0\0\0\x01\0\0\0\0\x09\0\0\0\x01\x8c\0\0\0\0\0\0\0",
        &[0, 0, 6],
    ),
    (
        b"\x1d\0\0\0\x0a\x1bhost/a/2020-01-15T06:30:03Zg\0\0\0\x11\x0findex.json.blobB\xab8\x07\xbe\x83p\xa1\xb2\x94\x08E{\"backup-id\":\"a\",\"backup-time\":1579069803,\"backup-type\":\"host\",\"files\":[]}\x01\0\0",
        NEVER,
        NEVER,
        b"\x02\0\0\0\0\0\x01\0\0\0\0\x09\0\0\0\x01\x8c\0\0\0\0\0\0\0",
        &[0, 0, 6],
    ),
    (
        b"\x1d\0\0\0\x0a\x1bhost/a/2020-01-15T06:30:03Zg\0\0\0\x11\x0findex.json.blobB\xab8\x07\xbe\x83p\xa1\xb2\x94\x08E{\"backup-id\":\"a\",\"backup-time\":1579069803,\"backup-type\":\"host\",\"files\":[]}\x01\0\0\0?",
        NEVER,
        NEVER,
        b"\x02\0\0\0\0\0\x01\0\0\0\0\x01\0\0\0\0",
        &[0, 0, 6],
    ),
];

/// OPEN_WRITER again, whose group is free; and LIST, which shows the other lane's snapshot alone.
const AGAIN: (&[u8], &[u8]) = (
    b"\x1d\0\0\0\x0a\x1bhost/a/2020-01-15T06:30:03Z\x02\0\0\0\x1e\0",
    b"\x02\0\0\0\0\0!\0\0\0\0\x01\0\x1bhost/b/2020-01-15T06:30:03Z\0\x01",
);

/// Serves two at once, on lanes 0 and 1, and one behind them. The order in which they act.
fn order_beside(
    rt: &(impl Threads + Wait + Abort + Sync),
    alloc: Global,
    one: &mut Talk,
    other: &mut Talk,
    again: &mut Talk,
) -> Vec<Entry> {
    let (store, mut seat) = must(rt, opened(rt, alloc, must(rt, Watch::of(alloc, false))));
    two_sessions(rt, alloc, &store, &mut seat, 0, one, other, &FreeGate);
    session(rt, alloc, &store, &mut seat, 2, again, &FreeGate);
    order_of(rt, store, seat)
}

/// The session is on lane 0. On lane 1 `host/b` is backed up at the same time.
fn try_ending(rt: &(impl Threads + Wait + Abort + Sync), alloc: Global, row: &Ending) {
    let (sent, read, write, told, kinds) = *row;
    let mut ending = must(rt, Talk::failing(alloc, sent, told, read, write));
    let mut other = must(rt, Talk::of(alloc, BACKUPS[1], BACKED_UP));
    let mut again = must(rt, Talk::of(alloc, AGAIN.0, AGAIN.1));
    let order = order_beside(rt, alloc, &mut ending, &mut other, &mut again);
    for talk in [&ending, &other, &again] {
        talk.assert_told(rt);
    }
    assert_lane(rt, alloc, &order, 0, kinds);
    assert_lane(rt, alloc, &order, 1, &[0, 0, 0, 6]);
    assert_lane(rt, alloc, &order, 2, &[0, 0, 6]);
}

#[test]
fn a_lane_ends_beside_another(rt: HostRuntime) {
    for row in &ENDINGS {
        try_ending(&rt, rt.alloc(), row);
    }
}
