//! What the journal takes: the order, where the words ask for it.

use super::gated::BACKUPS;
use super::*;
use disk_trait::FailingDisk;
use order_file::read_order;

/// Serves the sessions on an empty datastore, of whose disk the calls with these numbers fail.
fn serve_into(
    rt: &(impl Abort + Threads + Wait + Sync),
    alloc: Global,
    words: &[String],
    ports: &mut [Port<MemSource, MemSink>],
    failing: &[u64],
    journal: &mut MemSink,
) -> Served<FailingDisk<MemoryDisk>, MemoryDisk> {
    let disk = FailingDisk::at_calls(MemoryDisk::new(alloc), must(rt, failing.to_vec(alloc)));
    serve(
        rt,
        alloc,
        words,
        ports,
        disk,
        None::<MemoryDisk>,
        standing(alloc),
        journal,
        &FreeGate,
    )
}

/// The words, how many ports there are, which calls of the disk fail, the status, and what the journal takes.
type Row = (
    &'static [&'static str],
    usize,
    &'static [u64],
    u8,
    &'static [u8],
);

/// The order is asked for, or not, where the datastore is opened, and where it is not. It is asked for by words that ask for another number of
/// sessions than there are ports, or for none. A command that is read, and not done.
static TAKEN: [Row; 7] = [
    (&["run", "root", "one"], 1, &[], 0, b""),
    (
        &["run", "--order", "file", "root", "one"],
        1,
        &[],
        0,
        b"PBSORDER\0\0\0\0\0\x10^_\0\0\0\0\x06",
    ),
    (&["run", "root", "one"], 1, &[0], 3, b""),
    (
        &["run", "root", "one", "--order=file"],
        1,
        &[0],
        3,
        b"PBSORDER",
    ),
    (&["run", "--order", "file", "root", "one"], 2, &[], 2, b""),
    (&["run", "--order", "file", "root"], 0, &[], 2, b""),
    (&["check", "root", "file", "one"], 1, &[], 2, b""),
];

fn try_taken(rt: &(impl Abort + Threads + Wait + Sync), alloc: Global, row: &Row) {
    let (words, count, failing, status, text) = row;
    let words = must(rt, words::words_of(alloc, words));
    let mut ports = words::empty_ports(rt, alloc, *count);
    let mut journal = empty_sink(alloc);
    let served = serve_into(rt, alloc, &words, &mut ports, failing, &mut journal);
    same(rt, journal.as_bytes(), text);
    let found = [
        served.status.number(),
        u8::from(served.report.journal_failed),
    ];
    same(rt, &found, &[*status, 0])
}

#[test]
fn it_takes_an_order_that_is_asked_for(rt: HostRuntime) {
    for row in &TAKEN {
        try_taken(&rt, rt.alloc(), row);
    }
}

/// The words of a run of so many sessions, with its order.
pub fn asking_order(rt: &impl Abort, alloc: Global, sessions: usize) -> Vec<String> {
    let mut words = words::asking(rt, alloc, sessions);
    must(
        rt,
        words.push(must(rt, String::from_str(alloc, "--order=file"))),
    );
    words
}

fn try_read_back(rt: &(impl Abort + Threads + Wait + Sync), alloc: Global, sent: &[&[u8]]) {
    let mut ports = Vec::new(alloc);
    for bytes in sent {
        must(rt, ports.push(must(rt, port_of(alloc, bytes))));
    }
    let words = asking_order(rt, alloc, sent.len());
    let mut journal = empty_sink(alloc);
    let served = serve_into(rt, alloc, &words, &mut ports, &[], &mut journal);
    let lanes = must(rt, u32::try_from(sent.len()));
    let read = must(rt, read_order(alloc, lanes, journal.as_bytes()));
    let is_same = read == Some(served.order);
    same(rt, &[u8::from(is_same)], &[1])
}

/// The file of several sessions' order is read as the order that is returned.
#[test]
fn it_is_read_back(rt: HostRuntime) {
    for count in 1..=BACKUPS.len() {
        try_read_back(&rt, rt.alloc(), &BACKUPS[..count]);
    }
}

/// The order of a session that reads back what it backs up.
pub const ORDER: &[u8] =
    b"PBSORDER\0\0\0\0\0\x10^_\0\0\0\0\0\0\0\0\0\0\x10^_\0\0\0\0\0\0\0\0\0\0\x10^_\0\0\0\0\0\0\0\0\0\0\x10^_\0\0\0\0\0\0\0\0\0\0\x10^_\0\0\0\0\0\0\0\0\0\0\x10^_\0\0\0\0\x06";

/// How many bytes are there before each write of seven bytes at most, and behind the last.
static FRONTS: [u64; 15] = [0, 7, 8, 15, 22, 29, 36, 43, 50, 57, 64, 71, 78, 85, 86];

/// The write with this number fails, if there are so many.
fn try_failing(rt: &(impl Abort + Threads + Wait + Sync), alloc: Global, call: u64, size: u64) {
    let mut ports = Vec::new(alloc);
    must(rt, ports.push(must(rt, port_of(alloc, READ_BACK))));
    let words = asking_order(rt, alloc, 1);
    let mut journal = MemSink::new(alloc, must(rt, [call].to_vec(alloc))).at_most(7);
    let served = serve_into(rt, alloc, &words, &mut ports, &[], &mut journal);
    same(rt, journal.as_bytes(), front(ORDER, size));
    let found = [
        served.status.number(),
        u8::from(served.report.journal_failed),
    ];
    same(rt, &found, if size < 86 { &[5, 1] } else { &[0, 0] });
    // the session is told all
    for port in &ports {
        same(rt, port.sink.as_bytes(), READ_BACK_REPLIES);
    }
}

#[test]
fn each_write_to_it_fails(rt: HostRuntime) {
    for (call, size) in FRONTS.iter().enumerate() {
        try_failing(&rt, rt.alloc(), call as u64, *size);
    }
}
