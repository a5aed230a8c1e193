//! How many ports the words ask for.

use super::*;

pub fn words_of(alloc: Global, all: &[&str]) -> Result<Vec<String>, AllocError> {
    let mut words = Vec::new(alloc);
    for word in all {
        words.push(String::from_str(alloc, word)?)?;
    }
    Ok(words)
}

/// So many ports, each with an empty session.
pub fn empty_ports(rt: &impl Abort, alloc: Global, count: usize) -> Vec<Port<MemSource, MemSink>> {
    let mut ports = Vec::new(alloc);
    for _ in 0..count {
        must(rt, ports.push(must(rt, port_of(alloc, b""))));
    }
    ports
}

/// These words, and so many sessions.
fn with_sessions(rt: &impl Abort, alloc: Global, fronts: &[&str], sessions: usize) -> Vec<String> {
    let mut words = must(rt, words_of(alloc, fronts));
    for _ in 0..sessions {
        must(rt, words.push(must(rt, String::from_str(alloc, "session"))));
    }
    words
}

/// The words of a run of so many sessions.
pub fn asking(rt: &impl Abort, alloc: Global, sessions: usize) -> Vec<String> {
    with_sessions(rt, alloc, &["run", "root"], sessions)
}

/// The words of its check.
pub fn checking(rt: &impl Abort, alloc: Global, sessions: usize) -> Vec<String> {
    with_sessions(rt, alloc, &["check", "root", "order"], sessions)
}

/// Sessions that words ask for, ports, and the status, the order's length and how many reports there are.
static COUNTS: [(usize, usize, [u64; 3]); 8] = [
    (1, 2, [2, 0, 0]),
    (2, 1, [2, 0, 0]),
    (0, 0, [2, 0, 0]),
    (65, 64, [2, 0, 0]),
    (64, 65, [2, 0, 0]),
    (65, 65, [7, 0, 0]),
    (1, 1, [0, 1, 1]),
    (3, 3, [0, 3, 3]),
];

/// As many ports as words ask for, and 64 at most.
#[test]
fn ports_are_counted(rt: HostRuntime) {
    let alloc = rt.alloc();
    for (sessions, count, wanted) in &COUNTS {
        let mut ports = empty_ports(&rt, alloc, *count);
        let words = asking(&rt, alloc, *sessions);
        let disk = MemoryDisk::new(alloc);
        let served = run_words(&rt, alloc, &words, &mut ports, disk, None, standing(alloc));
        let found = [
            u64::from(served.status.number()),
            served.order.len() as u64,
            served.report.lanes.len() as u64,
        ];
        same_numbers(&rt, &found, wanted);
    }
}
