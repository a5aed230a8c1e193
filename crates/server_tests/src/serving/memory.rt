//! A growth is refused, as `rt try --test --fail-alloc N` does. What is handed in takes memory too: where that is refused, nothing is served.

use super::long::{LONG_ARCHIVES, long_remote};
use super::*;
use disk_trait::DiskError;
use port_traits::Sink;
use store_types::Entry;

/// Nothing where what is handed in lacks memory.
fn served(
    rt: &(impl Threads + Wait + Sync),
    alloc: Global,
    sent: &[u8],
    disk: MemoryDisk,
    remote: Option<MemoryDisk>,
    clock: SetClock,
) -> Option<Ran> {
    let port = port_of(alloc, sent).ok()?;
    session(rt, alloc, port, disk, remote, clock).ok()
}

/// The status tells whose growth was refused, if any: the memory disk's record, the sink, or the store itself. Where none was, the replies
/// are the session's.
fn assert_status(rt: &impl Abort, lacking: &Ran, replies: &[u8]) {
    let expected = match lacking.served.status {
        Status::Ok => {
            same(rt, lacking.sink.as_bytes(), replies);
            [0, 0]
        }
        Status::NoMemory => [0, 0],
        Status::DiskFault => [1, 0],
        Status::SinkFault => [0, 1],
        _ => panic!(rt; "another status"),
    };
    same_numbers(
        rt,
        &[lacking.served.disk.faults(), lacking.sink.faults()],
        &expected,
    );
}

/// The order ends with the lane's end. Before it are commands, and what was answered for want of memory or for a fault.
fn assert_fits(rt: &impl Abort, order: &[Entry], status: Status) {
    let [acts @ .., end] = order else {
        panic!(rt; "no entry");
    };
    same(rt, &[end.kind], &[6]);
    let other = match status {
        Status::NoMemory => 2,
        Status::DiskFault => 5,
        _ => 0,
    };
    for entry in acts {
        let fits = entry.lane == 0 && (entry.kind == 0 || entry.kind == other);
        same(rt, &[u8::from(fits)], &[1]);
    }
}

/// A session, and its replies.
type Talk = (&'static [u8], &'static [u8]);

/// A second backup over a first: an archive of pieces of one size, and a third that takes its piece by PREVIOUS and is aborted;
/// then a restore of the second by GET_CHUNK and RANGE.
const OVER_BASE: Talk = (
    b"\x1d\0\0\0\x0a\x1bhost/a/2020-01-15T06:30:03Zg\0\0\0\x11\x0findex.json.blobB\xab8\x07\xbe\x83p\xa1\xb2\x94\x08E{\"backup-id\":\"a\",\"backup-time\":1579069803,\"backup-type\":\"host\",\"files\":[]}\x01\0\0\0\x12\x1d\0\0\0\x0a\x1bhost/a/2020-01-15T06:30:04Z\x19\0\0\0\x0b\x0findex.json.blobV\0\0\0\0\0\0\0\x1b\0\0\0\x0c\x09root.fidx\x03\0\0\0\0\0\0\0\0\x10\0\0\0\0\0\00\0\0\0\x0e\xbax\x16\xbf\x8f\x01\xcf\xeaAA@\xde]\xae\"#\xb0\x03a\xa3\x96\x17z\x9c\xb4\x10\xffa\xf2\0\x15\xadB\xab8\x07\xbe\x83p\xa1\xc2A$5abc,\0\0\0\x0f\0\x01\0\xbax\x16\xbf\x8f\x01\xcf\xeaAA@\xde]\xae\"#\xb0\x03a\xa3\x96\x17z\x9c\xb4\x10\xffa\xf2\0\x15\xad\0\0\0\0\0\0\0\02\0\0\0\x10\0\x01\0\0\0\0\0\0\0\x03\0\0\0\0\0\0\0O\x8bB\xc2-\xd3r\x9bQ\x9b\xa6\xf6\x8d-\xa7\xcc[-`m\x05\xda\xedZ\xd5\x12\x8c\xc0>lcX\xe6\0\0\0\x11\x0findex.json.blobB\xab8\x07\xbe\x83p\xa1\x94\xf5\xe5\xd3{\"backup-id\":\"a\",\"backup-time\":1579069804,\"backup-type\":\"host\",\"files\":[{\"crypt-mode\":\"none\",\"csum\":\"4f8b42c22dd3729b519ba6f68d2da7cc5b2d606d05daed5ad5128cc03e6c6358\",\"filename\":\"root.fidx\",\"size\":3}]}\x01\0\0\0\x12\x1d\0\0\0\x0a\x1bhost/a/2020-01-15T06:30:05Z\x13\0\0\0\x0b\x09root.fidx \x10\0\0\0\0\0\0\x0b\0\0\0\x0d\x09root.didx,\0\0\0\x0f\0\x01\0\xbax\x16\xbf\x8f\x01\xcf\xeaAA@\xde]\xae\"#\xb0\x03a\xa3\x96\x17z\x9c\xb4\x10\xffa\xf2\0\x15\xad\0\0\0\0\0\0\0\0\x01\0\0\0\x13\x1d\0\0\0\x14\x1bhost/a/2020-01-15T06:30:04Z\x13\0\0\0\x15\x09root.fidx \x10\0\0\0\0\0\0!\0\0\0\x16\xbax\x16\xbf\x8f\x01\xcf\xeaAA@\xde]\xae\"#\xb0\x03a\xa3\x96\x17z\x9c\xb4\x10\xffa\xf2\0\x15\xad\x17\0\0\0\x17\x09root.fidx\x01\0\0\0\0\0\0\0\x02\0\0\0",
    b"\x02\0\0\0\0\0\x01\0\0\0\0\x01\0\0\0\0\x1d\0\0\0\0\x1bhost/a/2020-01-15T06:30:03Z\x09\0\0\0\0V\0\0\0\0\0\0\0\x02\0\0\0\0\0\x01\0\0\0\0\x01\0\0\0\0\x01\0\0\0\0\x01\0\0\0\0\x01\0\0\0\0\x1d\0\0\0\0\x1bhost/a/2020-01-15T06:30:04Z\x09\0\0\0\0 \x10\0\0\0\0\0\0\x02\0\0\0\0\0\x01\0\0\0\0\x01\0\0\0\0\x01\0\0\0\0\x09\0\0\0\0 \x10\0\0\0\0\0\0\x10\0\0\0\0B\xab8\x07\xbe\x83p\xa1\xc2A$5abc\x03\0\0\0\0bc",
);

/// A backup of `host/a` and two of `host/b`; LIST, FILES and GROUP; a PRUNE that removes the older of two, a FORGET of the other,
/// and LIST.
const ALL_BUT_ONE: Talk = (
    b"\x1d\0\0\0\x0a\x1bhost/a/2020-01-15T06:30:03Zg\0\0\0\x11\x0findex.json.blobB\xab8\x07\xbe\x83p\xa1\xb2\x94\x08E{\"backup-id\":\"a\",\"backup-time\":1579069803,\"backup-type\":\"host\",\"files\":[]}\x01\0\0\0\x12\x1d\0\0\0\x0a\x1bhost/b/2020-01-15T06:30:03Zg\0\0\0\x11\x0findex.json.blobB\xab8\x07\xbe\x83p\xa1b\x01\x0d\xc1{\"backup-id\":\"b\",\"backup-time\":1579069803,\"backup-type\":\"host\",\"files\":[]}\x01\0\0\0\x12\x1d\0\0\0\x0a\x1bhost/b/2020-01-15T06:30:04Zg\0\0\0\x11\x0findex.json.blobB\xab8\x07\xbe\x83p\xa1\xe0\xb6\x82>{\"backup-id\":\"b\",\"backup-time\":1579069804,\"backup-type\":\"host\",\"files\":[]}\x01\0\0\0\x12\x02\0\0\0\x1e\0\x1d\0\0\0\x1f\x1bhost/a/2020-01-15T06:30:03Z\x08\0\0\0(\x06host/b\x15\0\0\0!\x06host/b\x01\0\0\0\0\0\0\0\0\0\0\0\0\x1d\0\0\0 \x1bhost/b/2020-01-15T06:30:04Z\x02\0\0\0\x1e\0",
    b"\x02\0\0\0\0\0\x01\0\0\0\0\x01\0\0\0\0\x02\0\0\0\0\0\x01\0\0\0\0\x01\0\0\0\0\x1d\0\0\0\0\x1bhost/b/2020-01-15T06:30:03Z\x01\0\0\0\0\x01\0\0\0\0]\0\0\0\0\x03\0\x1bhost/a/2020-01-15T06:30:03Z\0\x01\x1bhost/b/2020-01-15T06:30:03Z\0\x01\x1bhost/b/2020-01-15T06:30:04Z\0\x01:\0\0\0\0\x01\x0findex.json.blobV\0\0\0\0\0\0\0\xc1j.\x19\xd5R\x1a\xca\xf0\x88\xf4=\x8do\x0b\xa1\x15\x198\xc1]X\x98\xda\xe2Gt$tAN\xa2;\0\0\0\0\x02\0\x1bhost/b/2020-01-15T06:30:03Z\x1bhost/b/2020-01-15T06:30:04Z=\0\0\0\0\x02\0\x1bhost/b/2020-01-15T06:30:04Z\x01\x1bhost/b/2020-01-15T06:30:03Z\0\x01\0\0\0\0!\0\0\0\0\x01\0\x1bhost/a/2020-01-15T06:30:03Z\0\x01",
);

/// A snapshot whose FINISH was answered is there in every case. The status is printed.
fn try_lacking(rt: &(impl Abort + Threads + Wait + Sync), alloc: Global, talk: &Talk) -> u8 {
    let (sent, replies) = talk;
    let disk = MemoryDisk::new(alloc);
    let Some(mut lacking) = served(rt, alloc, sent, disk, None, standing(alloc)) else {
        return 0;
    };
    assert_status(rt, &lacking, replies);
    if lacking.sink.as_bytes().starts_with(front(replies, 16)) {
        let size = must(rt, lacking.served.disk.size(MANIFEST)).unwrap_or(0);
        same_numbers(rt, &[size], &[86]);
    }
    if lacking.served.report.lanes.is_empty() {
        same_numbers(rt, &[lacking.served.order.len() as u64], &[0]);
    } else {
        assert_fits(rt, &lacking.served.order, lacking.served.status);
    }
    lacking.served.status.number()
}

/// Four sessions, of which at most one growth is refused. The statuses are printed.
#[test]
fn memory_is_refused(rt: HostRuntime) {
    let talks = [
        (READ_BACK, READ_BACK_REPLIES),
        (UNFINISHED, UNFINISHED_REPLIES),
        OVER_BASE,
        ALL_BUT_ONE,
    ];
    for talk in &talks {
        let status = try_lacking(&rt, rt.alloc(), talk);
        must(&rt, println!(rt; "status {status}"));
    }
}

/// Whether memory was wanting for an entry between these places: the next then closes what was open.
fn was_closed(rt: &impl Abort, order: &[Entry], from: usize, until: usize) -> bool {
    let mut was_short = false;
    let mut is_short = false;
    let mut place: usize = 0;
    for entry in order {
        same(rt, &[u8::from(is_short && entry.kind != 0)], &[0]);
        is_short = entry.kind == 2 && from < place && place < until;
        was_short = was_short || is_short;
        place = place.saturating_add(1);
    }
    was_short
}

/// Want of memory is told, and then, where the lane has not ended, that a snapshot was forgotten.
const SHORT: &[u8] = b"\x01\0\0\0\x1c";

const SHORT_AND_DONE: &[u8] = b"\x01\0\0\0\x1c\x01\0\0\0\0";

/// A backup, a VERIFY of it, and a FORGET.
const VERIFIED: Talk = (
    b"\x1d\0\0\0\x0a\x1bhost/a/2020-01-15T06:30:03Z\x0b\0\0\0\x0d\x09root.didx0\0\0\0\x0e\xbax\x16\xbf\x8f\x01\xcf\xeaAA@\xde]\xae\"#\xb0\x03a\xa3\x96\x17z\x9c\xb4\x10\xffa\xf2\0\x15\xadB\xab8\x07\xbe\x83p\xa1\xc2A$5abc/\0\0\0\x0e\x95\x9aE\xd4No\xcfX6\x1e\xd0\x04h\x15V\xfeP\x12\x9f!\x09\xe8\x17\xde\xc0\x98\xc0\x0c\x9e]%xB\xab8\x07\xbe\x83p\xa1\x8b)\x90}deT\0\0\0\x0f\0\x02\0\xbax\x16\xbf\x8f\x01\xcf\xeaAA@\xde]\xae\"#\xb0\x03a\xa3\x96\x17z\x9c\xb4\x10\xffa\xf2\0\x15\xad\0\0\0\0\0\0\0\0\x95\x9aE\xd4No\xcfX6\x1e\xd0\x04h\x15V\xfeP\x12\x9f!\x09\xe8\x17\xde\xc0\x98\xc0\x0c\x9e]%x\x03\0\0\0\0\0\0\02\0\0\0\x10\0\x02\0\0\0\0\0\0\0\x05\0\0\0\0\0\0\0\xdaFJ\xae=\x9fc\xd0o0\x87\x10\x06+]\xb4\x19\x96\xb1\xe3i\x90\xb9.\xcci4@\xe6f\x01Q\xe6\0\0\0\x11\x0findex.json.blobB\xab8\x07\xbe\x83p\xa1\xd7D#\x81{\"backup-id\":\"a\",\"backup-time\":1579069803,\"backup-type\":\"host\",\"files\":[{\"crypt-mode\":\"none\",\"csum\":\"da464aae3d9f63d06f308710062b5db41996b1e36990b92ecc693440e6660151\",\"filename\":\"root.didx\",\"size\":5}]}\x01\0\0\0\x12\x1d\0\0\0\"\x1bhost/a/2020-01-15T06:30:03Z\x1d\0\0\0 \x1bhost/a/2020-01-15T06:30:03Z",
    b"\x02\0\0\0\0\0\x02\0\0\0\0\0\x01\0\0\0\0\x01\0\0\0\0\x01\0\0\0\0\x01\0\0\0\0\x01\0\0\0\0\x01\0\0\0\0\x13\0\0\0\0\x02\x02\0\0\0\0\0\0\0\x05\0\0\0\0\0\0\0\0\x01\0\0\0\0",
);

/// A VERIFY that lacked memory leaves no reader. The entries of its steps in the reader are those behind the ninth, up to the fifteenth, which
/// closes it. The status is printed.
#[test]
fn a_verify_lacks_memory(rt: HostRuntime) {
    let alloc = rt.alloc();
    let (sent, replies) = VERIFIED;
    let disk = MemoryDisk::new(alloc);
    let Some(lacking) = served(&rt, alloc, sent, disk, None, standing(alloc)) else {
        return;
    };
    assert_status(&rt, &lacking, replies);
    if was_closed(&rt, &lacking.served.order, 8, 14) {
        // behind the replies of the backup
        let told = lacking.sink.as_bytes();
        let verified = &told[told.len().min(42)..];
        let is_so = verified == SHORT || verified == SHORT_AND_DONE;
        same(&rt, &[u8::from(is_so)], &[1]);
    }
    must(
        &rt,
        println!(rt; "status {}", lacking.served.status.number()),
    );
}

/// The SYNC of an archive, and a writer of a later snapshot.
const PULLED: Talk = (
    b"\x08\0\0\0#\x06host/a\x1d\0\0\0\x0a\x1bhost/a/2020-01-15T06:30:04Z",
    b"\x1f\0\0\0\0\x01\0\x1bhost/a/2020-01-15T06:30:03Z\x1d\0\0\0\0\x1bhost/a/2020-01-15T06:30:03Z",
);

/// A writer of a first snapshot.
const NO_BASE: &[u8] = b"\x02\0\0\0\0\0";

/// A SYNC that lacked memory leaves no writer, and nothing of its snapshot. The entries of its steps in the writer are those behind the third,
/// up to the thirteenth: an ABORT is the next. The status is printed, and how many entries the order has.
#[test]
fn a_pull_lacks_memory(rt: HostRuntime) {
    let alloc = rt.alloc();
    let (sent, replies) = PULLED;
    let Ok(remote) = long_remote(alloc, &LONG_ARCHIVES[1]) else {
        return;
    };
    let disk = MemoryDisk::new(alloc);
    let Some(lacking) = served(&rt, alloc, sent, disk, Some(remote), standing(alloc)) else {
        return;
    };
    let told = lacking.sink.as_bytes();
    if lacking.served.status == Status::Ok {
        same(&rt, told, replies);
    }
    if was_closed(&rt, &lacking.served.order, 2, 13) {
        let (reply, later) = told.split_at(told.len().min(5));
        same(&rt, reply, SHORT);
        let is_so = later.is_empty() || later == NO_BASE;
        same(&rt, &[u8::from(is_so)], &[1]);
    }
    let remote = must(&rt, lacking.served.remote.as_ref().ok_or("no remote"));
    same_numbers(&rt, &[remote.faults()], &[0]);
    let entries = lacking.served.order.len();
    must(
        &rt,
        println!(rt;
            "status {}, {entries} entries",
            lacking.served.status.number()
        ),
    );
}

/// A backup, and a day later a FORGET and a collection.
const COLLECTED: Talk = (
    b"\x1d\0\0\0\x0a\x1bhost/a/2020-01-15T06:30:03Z\x0b\0\0\0\x0d\x09root.didx0\0\0\0\x0e\xbax\x16\xbf\x8f\x01\xcf\xeaAA@\xde]\xae\"#\xb0\x03a\xa3\x96\x17z\x9c\xb4\x10\xffa\xf2\0\x15\xadB\xab8\x07\xbe\x83p\xa1\xc2A$5abc/\0\0\0\x0e\x95\x9aE\xd4No\xcfX6\x1e\xd0\x04h\x15V\xfeP\x12\x9f!\x09\xe8\x17\xde\xc0\x98\xc0\x0c\x9e]%xB\xab8\x07\xbe\x83p\xa1\x8b)\x90}deT\0\0\0\x0f\0\x02\0\xbax\x16\xbf\x8f\x01\xcf\xeaAA@\xde]\xae\"#\xb0\x03a\xa3\x96\x17z\x9c\xb4\x10\xffa\xf2\0\x15\xad\0\0\0\0\0\0\0\0\x95\x9aE\xd4No\xcfX6\x1e\xd0\x04h\x15V\xfeP\x12\x9f!\x09\xe8\x17\xde\xc0\x98\xc0\x0c\x9e]%x\x03\0\0\0\0\0\0\02\0\0\0\x10\0\x02\0\0\0\0\0\0\0\x05\0\0\0\0\0\0\0\xdaFJ\xae=\x9fc\xd0o0\x87\x10\x06+]\xb4\x19\x96\xb1\xe3i\x90\xb9.\xcci4@\xe6f\x01Q\xe6\0\0\0\x11\x0findex.json.blobB\xab8\x07\xbe\x83p\xa1\xd7D#\x81{\"backup-id\":\"a\",\"backup-time\":1579069803,\"backup-type\":\"host\",\"files\":[{\"crypt-mode\":\"none\",\"csum\":\"da464aae3d9f63d06f308710062b5db41996b1e36990b92ecc693440e6660151\",\"filename\":\"root.didx\",\"size\":5}]}\x01\0\0\0\x12\x1d\0\0\0 \x1bhost/a/2020-01-15T06:30:03Z\x01\0\0\0$",
    b"\x02\0\0\0\0\0\x02\0\0\0\0\0\x01\0\0\0\0\x01\0\0\0\0\x01\0\0\0\0\x01\0\0\0\0\x01\0\0\0\0\x01\0\0\0\0\x01\0\0\0\0)\0\0\0\0\xe0\xc8\x10\0\0\0\0\04v\x0f\0\0\0\0\0\0\0\0\0\0\0\0\0\0\0\0\0\0\0\0\0\x02\0\0\0\0\0\0\0",
);

/// Where memory was wanting since a collector opened, its end is the next entry.
fn assert_cut_short(rt: &impl Abort, order: &[Entry]) {
    let mut is_open = false;
    let mut is_cut = false;
    for entry in order {
        same(rt, &[u8::from(is_cut && entry.kind != 4)], &[0]);
        is_open = entry.kind == 3 || (is_open && entry.kind != 4);
        is_cut = is_open && entry.kind == 2;
    }
}

/// The status is printed.
#[test]
fn a_collection_lacks_memory(rt: HostRuntime) {
    let alloc = rt.alloc();
    let (sent, replies) = COLLECTED;
    let moments = [
        1_000_000, 1_000_000, 1_000_000, 1_000_000, 1_000_000, 1_000_000, 1_000_000, 1_000_000,
        1_100_000,
    ];
    let Ok(moments) = moments.to_vec(alloc) else {
        return;
    };
    let disk = MemoryDisk::new(alloc);
    let clock = SetClock::new(moments, 0);
    let Some(lacking) = served(&rt, alloc, sent, disk, None, clock) else {
        return;
    };
    assert_cut_short(&rt, &lacking.served.order);
    if lacking.served.status == Status::Ok {
        same(&rt, lacking.sink.as_bytes(), replies);
    }
    must(
        &rt,
        println!(rt; "status {}", lacking.served.status.number()),
    );
}

/// A snapshot, what is left of another, and a temporary file.
static OPENED: [(&str, &[u8]); 4] = [
    (MANIFEST, ROOT_LISTED),
    ("host/a/2020-01-15T06:30:03Z/root.didx", b"abc"),
    (
        "host/a/2020-01-15T06:30:04Z/a.conf.blob",
        b"B\xab8\x07\xbe\x83p\xa1&9\xf4\xcb123456789",
    ),
    ("notes.tmp", b"abc"),
];

const ROOT_LISTED: &[u8] =
    b"B\xab8\x07\xbe\x83p\xa1\xd7D#\x81{\"backup-id\":\"a\",\"backup-time\":1579069803,\"backup-type\":\"host\",\"files\":[{\"crypt-mode\":\"none\",\"csum\":\"da464aae3d9f63d06f308710062b5db41996b1e36990b92ecc693440e6660151\",\"filename\":\"root.didx\",\"size\":5}]}";

fn before_opening(alloc: Global) -> Result<MemoryDisk, DiskError> {
    let mut disk = MemoryDisk::new(alloc);
    for (name, bytes) in &OPENED {
        if name.len() <= 255 {
            disk.put(alloc, name, bytes)?;
        }
    }
    Ok(disk)
}

/// LIST of the snapshot.
const LISTED: Talk = (
    b"\x02\0\0\0\x1e\0",
    b"!\0\0\0\0\x01\0\x1bhost/a/2020-01-15T06:30:03Z\0\x02",
);

/// Where it was at opening, no command is read; the snapshot is there in every case. The status is printed.
#[test]
fn an_opening_lacks_memory(rt: HostRuntime) {
    let alloc = rt.alloc();
    let (sent, replies) = LISTED;
    let Ok(disk) = before_opening(alloc) else {
        return;
    };
    let Some(mut lacking) = served(&rt, alloc, sent, disk, None, standing(alloc)) else {
        return;
    };
    if lacking.served.report.lanes.is_empty() {
        let told = lacking.sink.as_bytes().len() as u64;
        same_numbers(&rt, &[lacking.served.order.len() as u64, told], &[0, 0]);
    }
    assert_status(&rt, &lacking, replies);
    let size = must(&rt, lacking.served.disk.size(MANIFEST)).unwrap_or(0);
    same_numbers(&rt, &[size], &[ROOT_LISTED.len() as u64]);
    must(
        &rt,
        println!(rt; "status {}", lacking.served.status.number()),
    );
}
