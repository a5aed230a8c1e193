//! Each call of the disk fails in turn, while two sessions act by turns.

use super::gated::{All, sessions};
use super::*;
use crate::gates::{Held, TurnGate};
use crate::judged::{NEXT, assert_told};
use store_types::Entry;

/// Each command of the first lane waits for the second's before it, and each of the second for the first's.
static BY_TURNS: [Held; 17] = [
    ((1, 0), (0, 0)),
    ((0, 1), (1, 0)),
    ((1, 1), (0, 1)),
    ((0, 2), (1, 1)),
    ((1, 2), (0, 2)),
    ((0, 3), (1, 2)),
    ((1, 3), (0, 3)),
    ((0, 4), (1, 3)),
    ((1, 4), (0, 4)),
    ((0, 5), (1, 4)),
    ((1, 5), (0, 5)),
    ((0, 6), (1, 5)),
    ((1, 6), (0, 6)),
    ((0, 7), (1, 6)),
    ((1, 7), (0, 7)),
    ((0, 8), (1, 7)),
    ((1, 8), (0, 8)),
];

/// OPEN_WRITER, BLOB of a blob and of the manifest, FINISH, FILES, OPEN_READER, DOWNLOAD of the manifest, CLOSE_READER, FORGET: for `host/a` and
/// for `host/b`.
static SENT: [&[u8]; 2] = [
    b"\x1d\0\0\0\x0a\x1bhost/a/2020-01-15T06:30:03Z\"\0\0\0\x11\x0ba.conf.blobB\xab8\x07\xbe\x83p\xa1&9\xf4\xcb123456789\xe9\0\0\0\x11\x0findex.json.blobB\xab8\x07\xbe\x83p\xa1\xe34\xfd\xda{\"backup-id\":\"a\",\"backup-time\":1579069803,\"backup-type\":\"host\",\"files\":[{\"crypt-mode\":\"none\",\"csum\":\"69dcb4830c28203c26a1dade2d893d7f1d13cdba5eb39e348b008f3a5a0fb688\",\"filename\":\"a.conf.blob\",\"size\":21}]}\x01\0\0\0\x12\x1d\0\0\0\x1f\x1bhost/a/2020-01-15T06:30:03Z\x1d\0\0\0\x14\x1bhost/a/2020-01-15T06:30:03Z\x19\0\0\0\x15\x0findex.json.blob\0\0\0\0\0\0\0\0\x01\0\0\0\x18\x1d\0\0\0 \x1bhost/a/2020-01-15T06:30:03Z",
    b"\x1d\0\0\0\x0a\x1bhost/b/2020-01-15T06:30:03Z\"\0\0\0\x11\x0ba.conf.blobB\xab8\x07\xbe\x83p\xa1&9\xf4\xcb123456789\xe9\0\0\0\x11\x0findex.json.blobB\xab8\x07\xbe\x83p\xa1V\xf2\x06q{\"backup-id\":\"b\",\"backup-time\":1579069803,\"backup-type\":\"host\",\"files\":[{\"crypt-mode\":\"none\",\"csum\":\"69dcb4830c28203c26a1dade2d893d7f1d13cdba5eb39e348b008f3a5a0fb688\",\"filename\":\"a.conf.blob\",\"size\":21}]}\x01\0\0\0\x12\x1d\0\0\0\x1f\x1bhost/b/2020-01-15T06:30:03Z\x1d\0\0\0\x14\x1bhost/b/2020-01-15T06:30:03Z\x19\0\0\0\x15\x0findex.json.blob\0\0\0\0\0\0\0\0\x01\0\0\0\x18\x1d\0\0\0 \x1bhost/b/2020-01-15T06:30:03Z",
];

/// The reply to each.
static REPLIES: [[&[u8]; 9]; 2] = [
    [
        b"\x02\0\0\0\0\0",
        b"\x01\0\0\0\0",
        b"\x01\0\0\0\0",
        b"\x01\0\0\0\0",
        b"n\0\0\0\0\x02\x0ba.conf.blob\x15\0\0\0\0\0\0\0i\xdc\xb4\x83\x0c( <&\xa1\xda\xde-\x89=\x7f\x1d\x13\xcd\xba^\xb3\x9e4\x8b\0\x8f:Z\x0f\xb6\x88\x0findex.json.blob\xd8\0\0\0\0\0\0\0\x10\x96\xbc\xa9oY\xe4\xeb\xd8}=\xd3\xb3\xdd4-uX\xbeF\xe8u\x87}p\x19\xe2\x87\x0b\xc1$\xac",
        b"\x01\0\0\0\0",
        b"\xe1\0\0\0\0\xd8\0\0\0\0\0\0\0B\xab8\x07\xbe\x83p\xa1\xe34\xfd\xda{\"backup-id\":\"a\",\"backup-time\":1579069803,\"backup-type\":\"host\",\"files\":[{\"crypt-mode\":\"none\",\"csum\":\"69dcb4830c28203c26a1dade2d893d7f1d13cdba5eb39e348b008f3a5a0fb688\",\"filename\":\"a.conf.blob\",\"size\":21}]}",
        b"\x01\0\0\0\0",
        b"\x01\0\0\0\0",
    ],
    [
        b"\x02\0\0\0\0\0",
        b"\x01\0\0\0\0",
        b"\x01\0\0\0\0",
        b"\x01\0\0\0\0",
        b"n\0\0\0\0\x02\x0ba.conf.blob\x15\0\0\0\0\0\0\0i\xdc\xb4\x83\x0c( <&\xa1\xda\xde-\x89=\x7f\x1d\x13\xcd\xba^\xb3\x9e4\x8b\0\x8f:Z\x0f\xb6\x88\x0findex.json.blob\xd8\0\0\0\0\0\0\0\x81\xe7s\xcd\x9b\x17\x02K'N\x8b\x07F\x1c\xba\xdf\xb4\xc1\xf8P\xee#\xc3p\xe0\xfd\xd1\xfbq\xdd\xd2\x9a",
        b"\x01\0\0\0\0",
        b"\xe1\0\0\0\0\xd8\0\0\0\0\0\0\0B\xab8\x07\xbe\x83p\xa1V\xf2\x06q{\"backup-id\":\"b\",\"backup-time\":1579069803,\"backup-type\":\"host\",\"files\":[{\"crypt-mode\":\"none\",\"csum\":\"69dcb4830c28203c26a1dade2d893d7f1d13cdba5eb39e348b008f3a5a0fb688\",\"filename\":\"a.conf.blob\",\"size\":21}]}",
        b"\x01\0\0\0\0",
        b"\x01\0\0\0\0",
    ],
];

/// The snapshots' manifests.
const MANIFESTS: [&str; 2] = [MANIFEST, "host/b/2020-01-15T06:30:03Z/index.json.blob"];

/// A lane is told all that it is told alone, up to the fault: its act that met it that the disk failed, and each one behind it that act's place.
fn assert_lane(
    rt: &impl Abort,
    order: &[Entry],
    lane: u32,
    port: &Port<MemSource, MemSink>,
    count: u64,
) {
    let replies = &REPLIES[(lane % 2) as usize];
    let told = port.sink.as_bytes();
    let found = assert_told(rt, order, lane, replies, told, false);
    same_numbers(rt, &[found as u64], &[count]);
}

/// Where the folder was not opened, the lanes are told nothing.
fn assert_lanes(rt: &impl Abort, ports: &[Port<MemSource, MemSink>], order: &[Entry]) {
    let count = if order.is_empty() { 0 } else { 9 };
    let mut lane: u32 = 0;
    for port in ports {
        assert_lane(rt, order, lane, port, count);
        lane = lane.wrapping_add(1);
    }
}

/// Each group is free in the next run. Its earlier snapshot is there or gone, as the manifest is.
fn assert_free(rt: &(impl Abort + Threads + Wait + Sync), alloc: Global, disk: MemoryDisk) {
    let mut disk = disk;
    for place in 0..2 {
        let is_there = must(rt, disk.size(MANIFESTS[place])).is_some();
        let [sent, gone, there] = NEXT[place];
        let port = must(rt, port_of(alloc, sent));
        let Ran { sink, served } = must(rt, session(rt, alloc, port, disk, None, standing(alloc)));
        same(rt, sink.as_bytes(), if is_there { there } else { gone });
        disk = served.disk;
    }
}

/// How many calls of the disk both sessions have, with those of the opening and of the save.
const CALLS: u64 = 32;

/// The disk's call with this number fails, if there are so many.
fn try_call(rt: &(impl Abort + Threads + Wait + Sync), alloc: Global, call: u64) {
    let gate = must(rt, TurnGate::of(alloc, SENT.len(), &BY_TURNS));
    let All { ports, served } = sessions(rt, alloc, &SENT, &[call], &gate);
    let found = [
        u64::from(gate.gave_up()),
        u64::from(served.status.number()),
        served.disk.faults(),
    ];
    let fails = call < CALLS;
    same_numbers(rt, &found, if fails { &[0, 3, 1] } else { &[0, 0, 0] });
    assert_lanes(rt, &ports, &served.order);
    assert_free(rt, alloc, served.disk.into_inner())
}

/// Puts, syncs, renames, removals and reads of each lane fail, each beside an unfinished session of the other.
#[test]
fn each_call_fails_beside_another_lane(rt: HostRuntime) {
    for call in 0..=CALLS {
        try_call(&rt, rt.alloc(), call);
    }
}
