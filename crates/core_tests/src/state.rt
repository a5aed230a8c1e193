use crate::asserts::{must, same};
use core_state::Journal;
use std::process::Abort;
use store_types::Entry;

/// Enters an act of lane 7, where there is room: whether its entry was of the lane's reserve.
fn try_entry(journal: &mut Journal) -> Option<bool> {
    if !journal.room(7) {
        return None;
    }
    let entry = Entry {
        lane: 7,
        moment: 0,
        kind: 0,
    };
    Some(journal.enter(7, entry, 0))
}

fn try_entries(rt: &impl Abort, journal: &mut Journal, expected: &[Option<bool>]) {
    for is_held in expected {
        same(rt, try_entry(journal), *is_held);
    }
}

/// Whether the entries are of the lane's reserve, and where there is no more room: without a spare entry, with two, and once
/// the reserve is filled again, with one.
static BEGUN: [Option<bool>; 4] = [Some(true), Some(true), Some(true), None];

static SPARE: [Option<bool>; 3] = [Some(false), Some(false), None];

static FILLED: [Option<bool>; 5] = [Some(false), Some(true), Some(true), Some(true), None];

/// Each lane has three entries, and those that are spare are used first.
#[test]
fn a_reserve_has_an_edge(rt: HostRuntime) {
    let mut journal = must(&rt, Journal::new(rt.alloc()));
    try_entries(&rt, &mut journal, &BEGUN);
    same(&rt, journal.room(6) && journal.room(8), true);
    must(&rt, journal.reserve(2));
    try_entries(&rt, &mut journal, &SPARE);
    must(&rt, journal.fill(7));
    try_entries(&rt, &mut journal, &FILLED);
    same(&rt, (journal.entries.len(), journal.calls.len()), (9, 9));
}
