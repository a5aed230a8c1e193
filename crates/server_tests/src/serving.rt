//! Sessions by `serve` on datastores in memory. The bytes are made by `tests/make-tables`.

mod checks;
mod disk_faults;
pub(crate) mod gated;
mod generated;
mod journal;
pub(crate) mod long;
mod memory;
mod port_faults;
mod statuses;
mod together;
mod words;

use crate::asserts::{must, same, same_numbers};
use disk_trait::{Disk, MemoryDisk};
use lane::Ending;
use pbs_server::{Served, Status, serve};
use port_traits::{FreeGate, MemSink, MemSource, SetClock};
use std::alloc::{AllocError, Global};
use std::process::Abort;
use std::sync::Wait;
use std::thread::Threads;
use store_history::{LaneReport, Port};

/// How a session was served.
type Run = Served<MemoryDisk, MemoryDisk>;

/// Serves what the words ask for on a disk beside a remote. The replies to a session are in its port's sink.
fn run_words(
    rt: &(impl Threads + Wait + Sync),
    alloc: Global,
    words: &[String],
    ports: &mut [Port<MemSource, MemSink>],
    disk: MemoryDisk,
    remote: Option<MemoryDisk>,
    clock: SetClock,
) -> Run {
    let mut journal = empty_sink(alloc);
    serve(
        rt,
        alloc,
        words,
        ports,
        disk,
        remote,
        clock,
        &mut journal,
        &FreeGate,
    )
}

/// Serves a session on a disk beside a remote.
fn run(
    rt: &(impl Threads + Wait + Sync),
    alloc: Global,
    ports: &mut [Port<MemSource, MemSink>],
    disk: MemoryDisk,
    remote: Option<MemoryDisk>,
    clock: SetClock,
) -> Result<Run, AllocError> {
    let words = words::words_of(alloc, &["run", "root", "session"])?;
    Ok(run_words(rt, alloc, &words, ports, disk, remote, clock))
}

/// A clock that stands.
fn standing(alloc: Global) -> SetClock {
    SetClock::new(Vec::new(alloc), 1_600_000_000)
}

/// A source of these bytes: a first read takes up to five of them, and the next all.
fn source_of(alloc: Global, sent: &[u8]) -> Result<MemSource, AllocError> {
    Ok(MemSource::new(sent.to_vec(alloc)?, Vec::new(alloc)))
}

fn empty_sink(alloc: Global) -> MemSink {
    MemSink::new(alloc, Vec::new(alloc))
}

/// The port of a session of these bytes, all of which is told.
fn port_of(alloc: Global, sent: &[u8]) -> Result<Port<MemSource, MemSink>, AllocError> {
    let source = source_of(alloc, sent)?;
    let sink = empty_sink(alloc);
    Ok(Port { source, sink })
}

/// What became of a session: its sink, and how it was served.
#[derive(Drop)]
struct Ran {
    sink: MemSink,
    served: Run,
}

/// Serves one session.
fn session(
    rt: &(impl Threads + Wait + Sync),
    alloc: Global,
    port: Port<MemSource, MemSink>,
    disk: MemoryDisk,
    remote: Option<MemoryDisk>,
    clock: SetClock,
) -> Result<Ran, AllocError> {
    let mut ports = Vec::new(alloc);
    ports.push(port)?;
    let served = run(rt, alloc, &mut ports, disk, remote, clock)?;
    let sink = match ports.pop() {
        Some(port) => port.sink,
        None => empty_sink(alloc),
    };
    Ok(Ran { sink, served })
}

/// The run has this status, and its one lane this report.
fn assert_report(rt: &impl Abort, served: &Run, status: Status, want: LaneReport) {
    let [report] = served.report.lanes.as_slice() else {
        panic!(rt; "not one lane");
    };
    let is_so = report.ending == want.ending && served.status == status;
    let found = [report.taken, report.given, u64::from(is_so)];
    same_numbers(rt, &found, &[want.taken, want.given, 1]);
}

/// The order has entries of these kinds, all of lane 0 at 1,600,000,000, and as many counts of calls.
fn assert_kinds(rt: &impl Abort, alloc: Global, served: &Run, kinds: &[u8]) {
    let mut found = Vec::new(alloc);
    for entry in &served.order {
        let is_one = entry.lane == 0 && entry.moment == 1_600_000_000;
        must(rt, found.push(if is_one { entry.kind } else { 99 }));
    }
    same(rt, &found, kinds);
    same_numbers(
        rt,
        &[served.report.calls.len() as u64],
        &[kinds.len() as u64],
    );
}

/// The manifest of a snapshot without other files, of 86 bytes.
const MANIFEST: &str = "host/a/2020-01-15T06:30:03Z/index.json.blob";

/// OPEN_WRITER of `host/a/2020-01-15T06:30:03Z`, BLOB of a manifest without files, FINISH; OPEN_READER of that snapshot, and
/// DOWNLOAD of the manifest.
const READ_BACK: &[u8] =
    b"\x1d\0\0\0\x0a\x1bhost/a/2020-01-15T06:30:03Zg\0\0\0\x11\x0findex.json.blobB\xab8\x07\xbe\x83p\xa1\xb2\x94\x08E{\"backup-id\":\"a\",\"backup-time\":1579069803,\"backup-type\":\"host\",\"files\":[]}\x01\0\0\0\x12\x1d\0\0\0\x14\x1bhost/a/2020-01-15T06:30:03Z\x19\0\0\0\x15\x0findex.json.blob\0\0\0\0\0\0\0\0";

const READ_BACK_REPLIES: &[u8] =
    b"\x02\0\0\0\0\0\x01\0\0\0\0\x01\0\0\0\0\x01\0\0\0\0_\0\0\0\0V\0\0\0\0\0\0\0B\xab8\x07\xbe\x83p\xa1\xb2\x94\x08E{\"backup-id\":\"a\",\"backup-time\":1579069803,\"backup-type\":\"host\",\"files\":[]}";

/// The same upload; then OPEN_WRITER of `host/a/2020-01-15T06:30:04Z`, BLOB of `a.conf.blob` and of `b.blob`, and BYE.
const UNFINISHED: &[u8] =
    b"\x1d\0\0\0\x0a\x1bhost/a/2020-01-15T06:30:03Zg\0\0\0\x11\x0findex.json.blobB\xab8\x07\xbe\x83p\xa1\xb2\x94\x08E{\"backup-id\":\"a\",\"backup-time\":1579069803,\"backup-type\":\"host\",\"files\":[]}\x01\0\0\0\x12\x1d\0\0\0\x0a\x1bhost/a/2020-01-15T06:30:04Z\"\0\0\0\x11\x0ba.conf.blobB\xab8\x07\xbe\x83p\xa1&9\xf4\xcb123456789\x14\0\0\0\x11\x06b.blobB\xab8\x07\xbe\x83p\xa1\0\0\0\0\x01\0\0\0?";

const UNFINISHED_REPLIES: &[u8] =
    b"\x02\0\0\0\0\0\x01\0\0\0\0\x01\0\0\0\0\x1d\0\0\0\0\x1bhost/a/2020-01-15T06:30:03Z\x01\0\0\0\0\x01\0\0\0\0\x01\0\0\0\0";

/// The first bytes.
fn front(bytes: &[u8], count: u64) -> &[u8] {
    &bytes[..bytes.len().min(count as usize)]
}
