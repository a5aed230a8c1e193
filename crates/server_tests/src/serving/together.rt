//! Sessions at once: each is told what it is told alone, whatever comes to the other.

use super::*;
use crate::at_once::assert_lane;

/// OPEN_WRITER of `host/b/2020-01-15T06:30:03Z`.
const OPENED: &[u8] = b"\x1d\0\0\0\x0a\x1bhost/b/2020-01-15T06:30:03Z";

/// And BLOB of `a.conf.blob`; the snapshot is left unfinished.
const STARTED: &[u8] =
    b"\x1d\0\0\0\x0a\x1bhost/b/2020-01-15T06:30:03Z\"\0\0\0\x11\x0ba.conf.blobB\xab8\x07\xbe\x83p\xa1&9\xf4\xcb123456789";

/// And a frame without a command, or a part of one.
const BROKEN: &[u8] =
    b"\x1d\0\0\0\x0a\x1bhost/b/2020-01-15T06:30:03Z\"\0\0\0\x11\x0ba.conf.blobB\xab8\x07\xbe\x83p\xa1&9\xf4\xcb123456789\0\0\0\0";

const CUT: &[u8] =
    b"\x1d\0\0\0\x0a\x1bhost/b/2020-01-15T06:30:03Z\"\0\0\0\x11\x0ba.conf.blobB\xab8\x07\xbe\x83p\xa1&9\xf4\xcb123456789\x01\0\0";

const BROKEN_REPLIES: &[u8] = b"\x02\0\0\0\0\0\x01\0\0\0\0\x09\0\0\0\x01\x47\0\0\0\0\0\0\0";

/// OPEN_WRITER is answered.
const NO_BASE: &[u8] = b"\x02\0\0\0\0\0";

/// The second session: what it sends, which of its reads and of its writes, each of one byte, fail, the status, its report, and the kinds of its
/// entries.
struct Row {
    input: &'static [u8],
    unread: &'static [u64],
    untaken: &'static [u64],
    status: u8,
    taken: u64,
    given: u64,
    ending: Ending,
    kinds: &'static [u8],
}

/// It ends; its source fails at the first, the second and the third read; its sink fails at once, and within a first and a second reply; no command
/// stands there, or a part of one.
static ROWS: [Row; 9] = [
    Row {
        input: STARTED,
        unread: &[],
        untaken: &[],
        status: 0,
        taken: 71,
        given: 11,
        ending: Ending::Clean,
        kinds: &[0, 0, 6],
    },
    Row {
        input: STARTED,
        unread: &[0],
        untaken: &[],
        status: 4,
        taken: 0,
        given: 0,
        ending: Ending::SourceFault,
        kinds: &[6],
    },
    Row {
        input: STARTED,
        unread: &[1],
        untaken: &[],
        status: 4,
        taken: 5,
        given: 0,
        ending: Ending::SourceFault,
        kinds: &[6],
    },
    Row {
        input: STARTED,
        unread: &[2],
        untaken: &[],
        status: 4,
        taken: 71,
        given: 11,
        ending: Ending::SourceFault,
        kinds: &[0, 0, 6],
    },
    Row {
        input: STARTED,
        unread: &[],
        untaken: &[0],
        status: 5,
        taken: 71,
        given: 0,
        ending: Ending::SinkFault,
        kinds: &[0, 6],
    },
    Row {
        input: STARTED,
        unread: &[],
        untaken: &[1],
        status: 5,
        taken: 71,
        given: 1,
        ending: Ending::SinkFault,
        kinds: &[0, 6],
    },
    Row {
        input: STARTED,
        unread: &[],
        untaken: &[8],
        status: 5,
        taken: 71,
        given: 8,
        ending: Ending::SinkFault,
        kinds: &[0, 0, 6],
    },
    Row {
        input: BROKEN,
        unread: &[],
        untaken: &[],
        status: 1,
        taken: 75,
        given: 24,
        ending: Ending::Broken { place: 71 },
        kinds: &[0, 0, 6],
    },
    Row {
        input: CUT,
        unread: &[],
        untaken: &[],
        status: 1,
        taken: 74,
        given: 24,
        ending: Ending::Broken { place: 71 },
        kinds: &[0, 0, 6],
    },
];

/// A lane took so many bytes, gave so many, and ended so.
pub(crate) fn assert_end(rt: &impl Abort, found: &LaneReport, counts: &[u64], ending: Ending) {
    let is_so = found.ending == ending;
    same_numbers(rt, &[found.taken, found.given, u64::from(is_so)], counts);
}

fn try_beside(rt: &(impl Abort + Threads + Wait + Sync), alloc: Global, row: &Row) {
    let source = MemSource::new(
        must(rt, row.input.to_vec(alloc)),
        must(rt, row.unread.to_vec(alloc)),
    );
    let sink = MemSink::new(alloc, must(rt, row.untaken.to_vec(alloc))).at_most(1);
    let mut ports = Vec::new(alloc);
    must(rt, ports.push(must(rt, port_of(alloc, READ_BACK))));
    must(rt, ports.push(Port { source, sink }));
    let words = words::asking(rt, alloc, 2);
    let disk = MemoryDisk::new(alloc);
    let served = run_words(rt, alloc, &words, &mut ports, disk, None, standing(alloc));
    let [one, two] = ports.as_slice() else {
        panic!(rt; "not two ports");
    };
    same(rt, one.sink.as_bytes(), READ_BACK_REPLIES);
    same(rt, two.sink.as_bytes(), front(BROKEN_REPLIES, row.given));
    assert_run(rt, alloc, &served, row);
    // nothing is left of it
    let opened = must(rt, port_of(alloc, OPENED));
    let Ran { sink, .. } = must(
        rt,
        session(rt, alloc, opened, served.disk, None, standing(alloc)),
    );
    same(rt, sink.as_bytes(), NO_BASE);
}

/// The status, the report and the entries of each lane.
fn assert_run(rt: &impl Abort, alloc: Global, served: &Run, row: &Row) {
    same(rt, &[served.status.number()], &[row.status]);
    let [one, two] = served.report.lanes.as_slice() else {
        panic!(rt; "not two lanes");
    };
    assert_end(rt, one, &[207, 120, 1], Ending::Clean);
    assert_end(rt, two, &[row.taken, row.given, 1], row.ending);
    assert_lane(rt, alloc, &served.order, 0, &[0, 0, 0, 0, 0, 6]);
    assert_lane(rt, alloc, &served.order, 1, row.kinds);
}

/// The first session backs up and reads back beside it. What the second left unfinished is gone.
#[test]
fn sessions_stand_beside_each_other(rt: HostRuntime) {
    for row in &ROWS {
        try_beside(&rt, rt.alloc(), row);
    }
}
