//! Each read of the source and each write to the sink fails in turn.

ghost use Rattle.std.specs.Prelude.{◌<◌, None};

use super::gated::BACKUPS;
use super::together::assert_end;
use super::*;
use crate::at_once::assert_lane;
use port_traits::{Failed, Sink};

/// A session, its replies, and where its frames and replies end, command by command.
struct Marked {
    input: &'static [u8],
    replies: &'static [u8],
    /// How many commands are answered, the bytes of the input up to the last of them, and those of the replies. At BYE no
    /// command more is answered.
    marks: &'static [(usize, u64, u64)],
    /// How many reads of one byte it takes.
    reads: u64,
}

/// It reads to the end of its input.
const TO_THE_END: Marked = Marked {
    input: READ_BACK,
    replies: READ_BACK_REPLIES,
    marks: &[
        (1, 33, 6),
        (2, 140, 11),
        (3, 145, 16),
        (4, 178, 21),
        (5, 207, 120),
    ],
    reads: 208,
};

/// It leaves a second snapshot unfinished.
const TO_BYE: Marked = Marked {
    input: UNFINISHED,
    replies: UNFINISHED_REPLIES,
    marks: &[
        (1, 33, 6),
        (2, 140, 11),
        (3, 145, 16),
        (4, 178, 49),
        (5, 216, 54),
        (6, 240, 59),
        (6, 245, 64),
    ],
    reads: 245,
};

/// The disk holds the manifest of the snapshot that is finished, or nothing, beside so many other files and the book of touches.
fn assert_holds(
    rt: &impl Abort,
    alloc: Global,
    mut disk: MemoryDisk,
    is_finished: bool,
    others: u64,
) {
    let _ = must(rt, disk.remove(".chunks/book"));
    let count = must(rt, disk.list(alloc, "")).len() as u64;
    let size = must(rt, disk.size(MANIFEST)).unwrap_or(0);
    let want = if is_finished { [1, 86] } else { [0, 0] };
    same_numbers(rt, &[count.saturating_sub(others), size], &want);
}

/// The kinds of a lane that was cut off behind so many commands.
fn cut_off(rt: &impl Abort, alloc: Global, commands: usize) -> Vec<u8> {
    let mut kinds = must(rt, vec![in alloc; 0u8; commands]);
    must(rt, kinds.push(6));
    kinds
}

/// A lane was cut off behind so many commands. The first snapshot is there where its FINISH was done, and of a second nothing.
fn assert_cut_off(rt: &impl Abort, alloc: Global, served: Run, commands: usize) {
    let kinds = cut_off(rt, alloc, commands);
    assert_kinds(rt, alloc, &served, &kinds);
    assert_holds(rt, alloc, served.disk, commands >= 3, 0)
}

/// How many commands are answered where so many bytes were taken, and how many bytes are told.
fn answered_by(row: &Marked, taken: u64) -> (usize, u64) {
    let mut answered = (0, 0);
    for (commands, input, replies) in row.marks {
        if *input <= taken {
            answered = (*commands, *replies);
        }
    }
    answered
}

/// How many commands are answered where so many bytes are told, and the next is not; and the bytes of the input up to that one.
fn answered_before(row: &Marked, told: u64) -> (usize, u64) {
    for (commands, input, replies) in row.marks {
        if told < *replies {
            return (*commands, *input);
        }
    }
    (0, 0)
}

/// The source's read with this number, from 0, fails, when so many bytes are taken.
fn try_read(
    rt: &(impl Abort + Threads + Wait + Sync),
    alloc: Global,
    row: &Marked,
    most: usize,
    call: u64,
    taken: u64,
)
    requires { 0 < most }
{
    let failing = must(rt, [call].to_vec(alloc));
    let source = MemSource::new(must(rt, row.input.to_vec(alloc)), failing).at_most(most);
    let sink = empty_sink(alloc);
    let port = Port { source, sink };
    let disk = MemoryDisk::new(alloc);
    let Ran { sink, served } = must(rt, session(rt, alloc, port, disk, None, standing(alloc)));
    let (commands, given) = answered_by(row, taken);
    let ending = Ending::SourceFault;
    let report = LaneReport {
        taken,
        given,
        ending,
    };
    same(rt, sink.as_bytes(), front(row.replies, given));
    assert_report(rt, &served, Status::SourceFault, report);
    assert_cut_off(rt, alloc, served, commands)
}

#[test]
fn each_read_fails(rt: HostRuntime) {
    let alloc = rt.alloc();
    // a first read asks for five bytes, and the next takes all
    for (call, taken) in [(0, 0), (1, 5), (2, 207)] {
        try_read(&rt, alloc, &TO_THE_END, usize::MAX, call, taken);
    }
    for row in [&TO_THE_END, &TO_BYE] {
        for call in 0..row.reads {
            try_read(&rt, alloc, row, 1, call, call);
        }
    }
}

/// A session's sink failed when so many bytes were taken, and so many told.
fn assert_sink_failed(
    rt: &impl Abort,
    alloc: Global,
    row: &Marked,
    served: Run,
    taken: u64,
    given: u64,
) {
    let report = LaneReport {
        taken,
        given,
        ending: Ending::SinkFault,
    };
    assert_report(rt, &served, Status::SinkFault, report);
    let (commands, _) = answered_before(row, given);
    assert_cut_off(rt, alloc, served, commands)
}

/// The sink takes one byte a write, and the write behind so many bytes fails. A read gives so many bytes at most, and so many are taken.
fn try_write(
    rt: &(impl Abort + Threads + Wait + Sync),
    alloc: Global,
    row: &Marked,
    told: u64,
    most: usize,
    taken: u64,
)
    requires { 0 < most }
{
    let source = must(rt, source_of(alloc, row.input)).at_most(most);
    let sink = MemSink::new(alloc, must(rt, [told].to_vec(alloc))).at_most(1);
    let port = Port { source, sink };
    let disk = MemoryDisk::new(alloc);
    let Ran { sink, served } = must(rt, session(rt, alloc, port, disk, None, standing(alloc)));
    same(rt, sink.as_bytes(), front(row.replies, told));
    assert_sink_failed(rt, alloc, row, served, taken, told)
}

/// Behind a failed write no more is read.
#[test]
fn each_write_fails(rt: HostRuntime) {
    let alloc = rt.alloc();
    for row in [&TO_THE_END, &TO_BYE] {
        let all = row.input.len() as u64;
        for told in 0..row.replies.len() as u64 {
            let (_, taken) = answered_before(row, told);
            try_write(&rt, alloc, row, told, usize::MAX, all);
            try_write(&rt, alloc, row, told, 1, taken);
        }
    }
}

/// A sink that takes so many bytes, and then nothing of what it is given. It never answers that it failed.
#[derive(Drop)]
struct StuckSink {
    room: usize,
    faults: u64,
}

impl Sink for StuckSink {
    ghost taken = { λ _. None };

    ghost faults = { λ s. s.faults };

    fn write(&mut self, bytes: &[u8]) -> Result<usize, Failed> {
        let count = bytes.len().min(self.room);
        if count == 0 {
            self.faults = self.faults.saturating_add(1);
        }
        self.room -= count;
        Ok(count)
    }

    fn faults(&self) -> u64 {
        self.faults
    }
}

/// The other has room for all of its replies.
fn stuck_ports(rt: &impl Abort, alloc: Global, room: usize) -> Vec<Port<MemSource, StuckSink>> {
    let mut ports = Vec::new(alloc);
    must(
        rt,
        ports.push(Port {
            source: must(rt, source_of(alloc, UNFINISHED)),
            sink: StuckSink { room, faults: 0 },
        }),
    );
    must(
        rt,
        ports.push(Port {
            source: must(rt, source_of(alloc, BACKUPS[1])),
            sink: StuckSink {
                room: 16,
                faults: 0,
            },
        }),
    );
    ports
}

/// The first lane's sink failed when so many bytes were told. The second is told all.
fn assert_stuck(rt: &impl Abort, alloc: Global, served: Run, told: u64) {
    same(rt, &[served.status.number()], &[5]);
    let [one, two] = served.report.lanes.as_slice() else {
        panic!(rt; "not two lanes");
    };
    assert_end(rt, one, &[245, told, 1], Ending::SinkFault);
    assert_end(rt, two, &[145, 16, 1], Ending::Clean);
    let (commands, _) = answered_before(&TO_BYE, told);
    assert_lane(rt, alloc, &served.order, 0, &cut_off(rt, alloc, commands));
    assert_lane(rt, alloc, &served.order, 1, &[0, 0, 0, 6]);
    assert_holds(rt, alloc, served.disk, commands >= 3, 1)
}

fn try_stuck(rt: &(impl Abort + Threads + Wait + Sync), alloc: Global, room: usize) {
    let mut ports = stuck_ports(rt, alloc, room);
    let words = words::asking(rt, alloc, 2);
    let served = serve(
        rt,
        alloc,
        &words,
        &mut ports,
        MemoryDisk::new(alloc),
        None::<MemoryDisk>,
        standing(alloc),
        &mut empty_sink(alloc),
        &FreeGate,
    );
    assert_stuck(rt, alloc, served, room as u64)
}

/// A write that takes nothing is a fault, of its own lane alone.
#[test]
fn a_sink_takes_nothing(rt: HostRuntime) {
    for room in [0, 5, 6, 60] {
        try_stuck(&rt, rt.alloc(), room);
    }
}
