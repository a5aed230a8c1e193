//! Sessions at once by `serve`, with a gate round their commands.

use super::*;
use crate::at_once::assert_lane;
use crate::gates::{CountingGate, Held, MeetingGate, TurnGate};
use crate::watch::LOOKS;
use disk_trait::FailingDisk;
use port_traits::Gate;
use store_types::Entry;

/// What became of several sessions.
#[derive(Drop)]
pub(crate) struct All {
    pub(crate) ports: Vec<Port<MemSource, MemSink>>,
    pub(crate) served: Served<FailingDisk<MemoryDisk>, MemoryDisk>,
}

/// Serves sessions at once, on an empty datastore, of whose disk the calls with these numbers fail.
pub(crate) fn sessions<G: Gate + Sync>(
    rt: &(impl Abort + Threads + Wait + Sync),
    alloc: Global,
    sent: &[&[u8]],
    failing: &[u64],
    gate: &G,
) -> All {
    let mut ports = Vec::new(alloc);
    for bytes in sent {
        must(rt, ports.push(must(rt, port_of(alloc, bytes))));
    }
    let words = words::asking(rt, alloc, sent.len());
    let disk = FailingDisk::at_calls(MemoryDisk::new(alloc), must(rt, failing.to_vec(alloc)));
    let served = serve(
        rt,
        alloc,
        &words,
        &mut ports,
        disk,
        None::<MemoryDisk>,
        standing(alloc),
        &mut empty_sink(alloc),
        gate,
    );
    All { ports, served }
}

/// OPEN_WRITER, BLOB of a manifest without files, FINISH.
pub(crate) const BACKUP_A: &[u8] =
    b"\x1d\0\0\0\x0a\x1bhost/a/2020-01-15T06:30:03Zg\0\0\0\x11\x0findex.json.blobB\xab8\x07\xbe\x83p\xa1\xb2\x94\x08E{\"backup-id\":\"a\",\"backup-time\":1579069803,\"backup-type\":\"host\",\"files\":[]}\x01\0\0\0\x12";

/// The same for `host/a` to `host/d`.
pub(crate) static BACKUPS: [&[u8]; 4] = [
    BACKUP_A,
    b"\x1d\0\0\0\x0a\x1bhost/b/2020-01-15T06:30:03Zg\0\0\0\x11\x0findex.json.blobB\xab8\x07\xbe\x83p\xa1b\x01\x0d\xc1{\"backup-id\":\"b\",\"backup-time\":1579069803,\"backup-type\":\"host\",\"files\":[]}\x01\0\0\0\x12",
    b"\x1d\0\0\0\x0a\x1bhost/c/2020-01-15T06:30:03Zg\0\0\0\x11\x0findex.json.blobB\xab8\x07\xbe\x83p\xa1\xed\x8f\xde\x0b{\"backup-id\":\"c\",\"backup-time\":1579069803,\"backup-type\":\"host\",\"files\":[]}\x01\0\0\0\x12",
    b"\x1d\0\0\0\x0a\x1bhost/d/2020-01-15T06:30:03Zg\0\0\0\x11\x0findex.json.blobB\xab8\x07\xbe\x83p\xa1\x83,w\x12{\"backup-id\":\"d\",\"backup-time\":1579069803,\"backup-type\":\"host\",\"files\":[]}\x01\0\0\0\x12",
];

pub(crate) const BACKED_UP: &[u8] = b"\x02\0\0\0\0\0\x01\0\0\0\0\x01\0\0\0\0";

/// LIST of them.
pub(crate) const LIST: &[u8] = b"\x02\0\0\0\x1e\0";

const FOUR_LISTED: &[u8] =
    b"{\0\0\0\0\x04\0\x1bhost/a/2020-01-15T06:30:03Z\0\x01\x1bhost/b/2020-01-15T06:30:03Z\0\x01\x1bhost/c/2020-01-15T06:30:03Z\0\x01\x1bhost/d/2020-01-15T06:30:03Z\0\x01";

/// The lanes of the first four entries.
fn assert_firsts(rt: &impl Abort, order: &[Entry], lanes: &[u64]) {
    let [a, b, c, d, ..] = order else {
        panic!(rt; "not four entries");
    };
    let found = [
        u64::from(a.lane),
        u64::from(b.lane),
        u64::from(c.lane),
        u64::from(d.lane),
    ];
    same_numbers(rt, &found, lanes);
}

/// The first command of lanes 0 to 2 waits for the next lane's first, and the second of lanes 1 to 3 for lane 0's first.
static FROM_LAST: [Held; 6] = [
    ((0, 0), (1, 0)),
    ((1, 0), (2, 0)),
    ((2, 0), (3, 0)),
    ((1, 1), (0, 0)),
    ((2, 1), (0, 0)),
    ((3, 1), (0, 0)),
];

/// The same with the lanes' numbers reversed.
static FROM_FIRST: [Held; 6] = [
    ((3, 0), (2, 0)),
    ((2, 0), (1, 0)),
    ((1, 0), (0, 0)),
    ((2, 1), (3, 0)),
    ((1, 1), (3, 0)),
    ((0, 1), (3, 0)),
];

/// Four backups, whose first commands are done in the order of these lanes: all are finished, and no lane is waited for in vain.
fn try_gated(
    rt: &(impl Threads + Wait + Abort + Sync),
    alloc: Global,
    held: &'static [Held],
    lanes: &[u64],
) {
    let gate = must(rt, TurnGate::of(alloc, BACKUPS.len(), held));
    let All { ports, served } = sessions(rt, alloc, &BACKUPS, &[], &gate);
    same_numbers(
        rt,
        &[u64::from(gate.gave_up()), u64::from(served.status.number())],
        &[0, 0],
    );
    for port in &ports {
        same(rt, port.sink.as_bytes(), BACKED_UP);
    }
    assert_firsts(rt, &served.order, lanes);
    for lane in 0..4 {
        assert_lane(rt, alloc, &served.order, lane, &[0, 0, 0, 6]);
    }
    let list = must(rt, port_of(alloc, LIST));
    let disk = served.disk.into_inner();
    let Ran { sink, .. } = must(rt, session(rt, alloc, list, disk, None, standing(alloc)));
    same(rt, sink.as_bytes(), FOUR_LISTED);
}

#[test]
fn four_lanes_wait_for_each_other(rt: HostRuntime) {
    try_gated(&rt, rt.alloc(), &FROM_LAST, &[3, 2, 1, 0]);
    try_gated(&rt, rt.alloc(), &FROM_FIRST, &[0, 1, 2, 3])
}

/// LIST of no snapshot, and BYE.
const LIST_AND_BYE: &[u8] = b"\x02\0\0\0\x1e\0\x01\0\0\0?";

const NONE_LISTED: &[u8] = b"\x03\0\0\0\0\0\0\x01\0\0\0\0";

/// As many sessions as there may be, each with a LIST that waits until all have come to theirs. All are answered and entered.
#[test]
fn sixty_four_lanes_meet(rt: HostRuntime) {
    let alloc = rt.alloc();
    let gate = MeetingGate::of(64, LOOKS);
    let sent: Vec<&[u8]> = must(&rt, vec![in alloc; LIST_AND_BYE; 64]);
    let All { ports, served } = sessions(&rt, alloc, &sent, &[], &gate);
    let found = [
        u64::from(gate.have_met()),
        u64::from(served.status.number()),
        served.order.len() as u64,
        served.report.lanes.len() as u64,
    ];
    same_numbers(&rt, &found, &[1, 0, 128, 64]);
    for port in &ports {
        same(&rt, port.sink.as_bytes(), NONE_LISTED);
    }
    for lane in 0..64 {
        assert_lane(&rt, alloc, &served.order, lane, &[0, 6]);
    }
}

/// Each command has its two calls, a job or a collection as one command; BYE has none, and neither has what is no command.
static GATED: [&[u8]; 5] = [
    b"",
    b"\x01\0\0\0?",
    b"\x01\0\0\0$\x01\0\0\0\x12",
    b"\x01\0\0\0\x12\x01\0\0\0c",
    b"\x1d\0\0\0\x0a\x1bhost/a/2020-01-15T06:30:03Zg\0\0\0\x11\x0findex.json.blobB\xab8\x07\xbe\x83p\xa1\xb2\x94\x08E{\"backup-id\":\"a\",\"backup-time\":1579069803,\"backup-type\":\"host\",\"files\":[]}\x01\0\0\0\x12\x1d\0\0\0\x0a\x1bhost/a/2020-01-15T06:30:04Zg\0\0\0\x11\x0findex.json.blobB\xab8\x07\xbe\x83p\xa10#\x87\xba{\"backup-id\":\"a\",\"backup-time\":1579069804,\"backup-type\":\"host\",\"files\":[]}\x01\0\0\0\x12\x15\0\0\0!\x06host/a\x01\0\0\0\0\0\0\0\0\0\0\0\x01\x15\0\0\0!\x06host/a\x01\0\0\0\0\0\0\0\0\0\0\0\0\x08\0\0\0(\x06host/a\x01\0\0\0?",
];

/// How many commands each lane has.
static COUNTS: [(u32, u64); 5] = [(0, 0), (1, 0), (2, 2), (3, 1), (4, 9)];

/// A gate is called so often before the commands of each session, and after them, and never out of turn.
#[test]
fn gates_stand_round_each_command(rt: HostRuntime) {
    let alloc = rt.alloc();
    let gate = must(&rt, CountingGate::of(alloc, GATED.len()));
    let all = sessions(&rt, alloc, &GATED, &[], &gate);
    for (lane, count) in &COUNTS {
        same_numbers(&rt, &gate.counts(*lane), &[*count, *count, 0]);
    }
    same(&rt, &[all.served.status.number()], &[1]);
}
