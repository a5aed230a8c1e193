//! Checks whose ports, disks or journal fail, and how many ports they take. What they tell else is in the scenarios of `checks`.

use super::*;
use disk_trait::FailingDisk;

/// What fails in a check: the first read of the port at this place; and calls of the disk, of the remote, and of the journal.
type Failing = (usize, [&'static [u64]; 3]);

/// There are fewer ports.
const NO_PORT: usize = 999;

const NOTHING: Failing = (NO_PORT, [&[], &[], &[]]);

/// A port for each of these files.
fn ports_of(
    rt: &impl Abort,
    alloc: Global,
    files: &[&[u8]],
    failing: usize,
) -> Vec<Port<MemSource, MemSink>> {
    let mut ports = Vec::new(alloc);
    for (place, file) in files.iter().enumerate() {
        let calls: &[u64] = if place == failing { &[0] } else { &[] };
        let bytes = must(rt, file.to_vec(alloc));
        let source = MemSource::new(bytes, must(rt, calls.to_vec(alloc)));
        let sink = empty_sink(alloc);
        must(rt, ports.push(Port { source, sink }));
    }
    ports
}

/// A disk of which these calls fail.
fn failing_disk(
    rt: &impl Abort,
    alloc: Global,
    disk: MemoryDisk,
    calls: &[u64],
) -> FailingDisk<MemoryDisk> {
    FailingDisk::at_calls(disk, must(rt, calls.to_vec(alloc)))
}

/// Checks what these files have: the order's, and of each session its input and its replies. Gives the status, and what the journal takes.
fn check(
    rt: &(impl Abort + Threads + Wait + Sync),
    alloc: Global,
    disk: MemoryDisk,
    files: &[&[u8]],
    failing: &Failing,
) -> (u8, Vec<u8>) {
    let (port, [disk_calls, remote_calls, writes]) = failing;
    let mut ports = ports_of(rt, alloc, files, *port);
    let words = words::checking(rt, alloc, files.len() / 2);
    let mut journal = MemSink::new(alloc, must(rt, writes.to_vec(alloc)));
    let remote = failing_disk(rt, alloc, MemoryDisk::new(alloc), remote_calls);
    let served = serve(
        rt,
        alloc,
        &words,
        &mut ports,
        failing_disk(rt, alloc, disk, disk_calls),
        Some(remote),
        standing(alloc),
        &mut journal,
        &FreeGate,
    );
    let is_unequal = served.status == Status::Unequal;
    let is_told = served.report.unequal.is_some() == is_unequal;
    same(rt, &[u8::from(is_told)], &[1]);
    (served.status.number(), journal.into_bytes())
}

/// The line where the replies are equal, and where the first byte of lane 0's is 3 in place of 2.
const EQUAL: &[u8] = b"equal\n";

const FIRST_BYTE: &[u8] = b"lane 0 byte 0: 02 03\n";

/// The check of a run on a disk as it was before finds the replies equal.
pub fn assert_equal(
    rt: &(impl Abort + Threads + Wait + Sync),
    alloc: Global,
    disk: MemoryDisk,
    files: &[&[u8]],
) {
    let (status, line) = check(rt, alloc, disk, files, &NOTHING);
    same(rt, &line, EQUAL);
    same(rt, &[status], &[0]);
}

/// The check of a session that reads back what it backs up, of which these replies were kept, answers this.
fn expect(
    rt: &(impl Abort + Threads + Wait + Sync),
    alloc: Global,
    kept: &[u8],
    failing: &Failing,
    status: u8,
    line: &[u8],
) {
    let files = [journal::ORDER, READ_BACK, kept];
    let (found, told) = check(rt, alloc, MemoryDisk::new(alloc), &files, failing);
    same(rt, &told, line);
    same(rt, &[found], &[status]);
}

/// What fails, and the status. Of several faults the first is told, as disk, remote, ports and journal are come to.
static FAILS: [(Failing, u8); 9] = [
    ((0, [&[], &[], &[]]), 4),
    ((1, [&[], &[], &[]]), 4),
    ((2, [&[], &[], &[]]), 4),
    ((NO_PORT, [&[0], &[], &[]]), 3),
    ((NO_PORT, [&[], &[0], &[]]), 10),
    ((NO_PORT, [&[], &[], &[0]]), 5),
    ((0, [&[0], &[0], &[0]]), 3),
    ((0, [&[], &[0], &[0]]), 10),
    ((2, [&[], &[], &[0]]), 4),
];

/// The replies as they were, and with another first byte.
#[test]
fn what_fails_is_told(rt: HostRuntime) {
    let alloc = rt.alloc();
    let mut other = must(&rt, READ_BACK_REPLIES.to_vec(alloc));
    if let Some(byte) = other.first_mut() {
        *byte = 3;
    }
    expect(&rt, alloc, READ_BACK_REPLIES, &NOTHING, 0, EQUAL);
    expect(&rt, alloc, &other, &NOTHING, 8, FIRST_BYTE);
    for (failing, status) in &FAILS {
        expect(&rt, alloc, READ_BACK_REPLIES, failing, *status, b"");
        expect(&rt, alloc, &other, failing, *status, b"");
    }
}

/// Sessions that words ask for, ports, and the status.
static COUNTS: [(usize, usize, u8); 7] = [
    (1, 2, 2),
    (1, 4, 2),
    (2, 3, 2),
    (0, 1, 2),
    (64, 129, 11),
    (65, 131, 7),
    (65, 130, 2),
];

/// There is a port for the order, and two for each session, of which there are 64 at most. An empty order is none.
#[test]
fn ports_are_counted(rt: HostRuntime) {
    let alloc = rt.alloc();
    for (sessions, count, status) in &COUNTS {
        let mut ports = words::empty_ports(&rt, alloc, *count);
        let words = words::checking(&rt, alloc, *sessions);
        let disk = MemoryDisk::new(alloc);
        let served = run_words(&rt, alloc, &words, &mut ports, disk, None, standing(alloc));
        same(&rt, &[served.status.number()], &[*status]);
    }
}
