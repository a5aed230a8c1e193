//! The exit statuses, and which of several is told.

use super::gated::LIST;
use super::long::SYNC;
use super::*;
use disk_trait::FailingDisk;

/// Each exit status with its number and its name.
static STATUSES: [(Status, u8, &str); 12] = [
    (Status::Ok, 0, "Ok"),
    (Status::BadFrame, 1, "BadFrame"),
    (Status::Usage, 2, "Usage"),
    (Status::DiskFault, 3, "DiskFault"),
    (Status::SourceFault, 4, "SourceFault"),
    (Status::SinkFault, 5, "SinkFault"),
    (Status::NoMemory, 6, "NoMemory"),
    (Status::TooManyLanes, 7, "TooManyLanes"),
    (Status::Unequal, 8, "Unequal"),
    (Status::SourceTooLong, 9, "SourceTooLong"),
    (Status::RemoteFault, 10, "RemoteFault"),
    (Status::BadOrder, 11, "BadOrder"),
];

#[test]
fn statuses_are_numbered_and_named(rt: HostRuntime) {
    for (status, number, name) in &STATUSES {
        same(&rt, &[status.number()], &[*number]);
        same(&rt, status.name().as_bytes(), name.as_bytes());
    }
}

/// Two sessions without a call of the disk, on disks of which these calls fail, and a journal of which these writes fail: the status, and how many
/// calls of the disk there were.
fn serve_two(
    rt: &(impl Abort + Threads + Wait + Sync),
    alloc: Global,
    one: &Session,
    other: &Session,
    disk_fails: &[u64],
    journal_fails: &[u64],
) -> (u8, u64) {
    let mut ports = Vec::new(alloc);
    must(rt, ports.push(failing_port(rt, alloc, one)));
    must(rt, ports.push(failing_port(rt, alloc, other)));
    let words = journal::asking_order(rt, alloc, 2);
    let disk = FailingDisk::at_calls(MemoryDisk::new(alloc), must(rt, disk_fails.to_vec(alloc)));
    let remote = FailingDisk::at_calls(MemoryDisk::new(alloc), must(rt, [0].to_vec(alloc)));
    let served = serve(
        rt,
        alloc,
        &words,
        &mut ports,
        disk,
        Some(remote),
        standing(alloc),
        &mut MemSink::new(alloc, must(rt, journal_fails.to_vec(alloc))),
        &FreeGate,
    );
    (served.status.number(), served.disk.calls())
}

/// A frame of a command that there is not.
const NO_COMMAND: &[u8] = b"\x01\0\0\0c";

/// A session, which of its reads and of its writes fail, and the place of its status among `FIRSTS`.
type Session = (&'static [u8], &'static [u64], &'static [u64], usize);

/// The statuses as they come before each other: by the disk, by the remote, by a source, by a sink, for a place without a command, and for none of these.
static FIRSTS: [u8; 6] = [3, 10, 4, 5, 1, 0];

/// A read of the remote fails, the source, the sink; no command stands there; nothing fails.
static SESSIONS: [Session; 5] = [
    (SYNC, &[], &[], 1),
    (LIST, &[0], &[], 2),
    (LIST, &[], &[0], 3),
    (NO_COMMAND, &[], &[], 4),
    (LIST, &[], &[], 5),
];

fn failing_port(rt: &impl Abort, alloc: Global, session: &Session) -> Port<MemSource, MemSink> {
    let (sent, unread, untaken, _) = session;
    let source = MemSource::new(must(rt, sent.to_vec(alloc)), must(rt, unread.to_vec(alloc)));
    let sink = MemSink::new(alloc, must(rt, untaken.to_vec(alloc)));
    Port { source, sink }
}

/// Beside a fault of the disk as the book is saved, or none, and one of the journal, or none.
fn try_two(
    rt: &(impl Abort + Threads + Wait + Sync),
    alloc: Global,
    one: &Session,
    other: &Session,
    last_call: u64,
) {
    let first = one.3.min(other.3);
    for (disk_fails, by_disk) in [([].as_slice(), 5), ([last_call].as_slice(), 0)] {
        for (journal_fails, by_journal) in [([].as_slice(), 5), ([0].as_slice(), 3)] {
            let (status, _) = serve_two(rt, alloc, one, other, disk_fails, journal_fails);
            let place = first.min(by_disk).min(by_journal);
            let want = FIRSTS.get(place).copied().unwrap_or(255);
            same(rt, &[status], &[want]);
        }
    }
}

fn try_beside_each(
    rt: &(impl Abort + Threads + Wait + Sync),
    alloc: Global,
    one: &Session,
    last_call: u64,
) {
    for other in &SESSIONS {
        try_two(rt, alloc, one, other, last_call);
    }
}

#[test]
fn the_first_of_several_is_told(rt: HostRuntime) {
    let alloc = rt.alloc();
    let (_, calls) = serve_two(&rt, alloc, &SESSIONS[4], &SESSIONS[4], &[], &[]);
    let last_call = calls.saturating_sub(1);
    for one in &SESSIONS {
        try_beside_each(&rt, alloc, one, last_call);
    }
}
