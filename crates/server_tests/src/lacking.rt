//! Two lanes at once where a growth is refused, as `rt try --test --fail-alloc N` does. Either lane may lack memory: the order tells which.

use crate::asserts::{must, same_numbers};
use crate::gates::MeetingGate;
use crate::judged::{NEXT, assert_told};
use crate::serving::gated::BACKUPS;
use crate::stores::{opened, order_of};
use crate::talks::{Talk, two_sessions};
use crate::watch::Watch;
use lane::Ending;
use port_traits::FreeGate;
use std::alloc::Global;
use std::process::Abort;
use std::sync::Wait;
use std::thread::Threads;
use store_types::{COMMAND_KIND, Entry, MEMORY_KIND};

/// How often a lane looks for the other, which may have ended.
const LOOKS: u32 = 1_000;

/// The replies to OPEN_WRITER, BLOB of the manifest and FINISH, where none of them lacked memory, and where the first, the second, the third did.
static REPLIES: [[&[u8]; 3]; 4] = [
    [b"\x02\0\0\0\0\0", b"\x01\0\0\0\0", b"\x01\0\0\0\0"],
    [b"\x01\0\0\0\x1c", b"\x02\0\0\0\x03\0", b"\x02\0\0\0\x03\0"],
    [b"\x02\0\0\0\0\0", b"\x01\0\0\0\x1c", b"\x01\0\0\0\x09"],
    [b"\x02\0\0\0\0\0", b"\x01\0\0\0\0", b"\x01\0\0\0\x1c"],
];

/// Sessions for two lanes.
fn talks_of(alloc: Global, one: &[u8], other: &[u8]) -> Option<(Talk, Talk)> {
    let one = Talk::of(alloc, one, b"").ok()?;
    let other = Talk::of(alloc, other, b"").ok()?;
    Some((one, other))
}

/// The backups, and the sessions behind them.
fn handed_in(alloc: Global) -> Option<((Talk, Talk), (Talk, Talk))> {
    let backups = talks_of(alloc, BACKUPS[0], BACKUPS[1])?;
    let later = talks_of(alloc, NEXT[0][0], NEXT[1][0])?;
    Some((backups, later))
}

/// Which entry of a lane, from 1, tells that memory was wanting. 0 is for none.
fn short_of(order: &[Entry], lane: u32) -> usize {
    let mut count: usize = 0;
    for entry in order {
        if entry.lane == lane {
            count = count.saturating_add(1);
            if entry.kind == MEMORY_KIND {
                return count;
            }
        }
    }
    0
}

/// How many commands of a lane were done or refused.
fn done_of(order: &[Entry], lane: u32) -> usize {
    let mut count: usize = 0;
    for entry in order {
        if entry.lane == lane && entry.kind == COMMAND_KIND {
            count = count.saturating_add(1);
        }
    }
    count
}

/// A lane was told what the order says. It ended cleanly behind its last command, or behind one that lacked memory, or as its sink did.
fn assert_session(rt: &impl Abort, order: &[Entry], lane: u32, replies: &[&[u8]], talk: &Talk) {
    let is_cut = talk.ending == Ending::SinkFault;
    let count = assert_told(rt, order, lane, replies, talk.told(), is_cut);
    let is_so = match talk.ending {
        Ending::Clean => count == replies.len(),
        Ending::NoMemory => count == short_of(order, lane) && count > 0,
        _ => is_cut,
    };
    same_numbers(rt, &[u64::from(is_so)], &[1]);
}

/// A group's backup is done as the order says. Behind it a later snapshot can be begun, over the first where that was finished.
fn assert_group(
    rt: &impl Abort,
    order: &[Entry],
    lane: u32,
    backup: &Talk,
    next: &[&[u8]; 3],
    later: &Talk,
) {
    let replies = &REPLIES[short_of(order, lane).min(3)];
    assert_session(rt, order, lane, replies, backup);
    let is_finished = done_of(order, lane) == replies.len();
    let base = if is_finished { next[2] } else { next[1] };
    assert_session(rt, order, lane.wrapping_add(2), &[base], later);
}

/// A lane's kinds behind a 1, as the digits of one number.
fn kinds_of(order: &[Entry], lane: u32) -> u64 {
    let mut kinds: u64 = 1;
    for entry in order {
        if entry.lane == lane {
            kinds = kinds.wrapping_mul(10).wrapping_add(u64::from(entry.kind));
        }
    }
    kinds
}

/// The order in which they act, two at once and then two. None where there is no memory to open the datastore.
fn order_of_both(
    rt: &(impl Threads + Wait + Sync),
    alloc: Global,
    one: &mut Talk,
    other: &mut Talk,
    next: &mut Talk,
    last: &mut Talk,
) -> Option<Vec<Entry>> {
    let Ok(watch) = Watch::of(alloc, false) else {
        return None;
    };
    let (store, mut seat) = match opened(rt, alloc, watch) {
        Ok(made) => made,
        Err(_not_opened) => return None,
    };
    let gate = MeetingGate::of(2, LOOKS);
    two_sessions(rt, alloc, &store, &mut seat, 0, one, other, &gate);
    two_sessions(rt, alloc, &store, &mut seat, 2, next, last, &FreeGate);
    Some(order_of(rt, store, seat))
}

/// Two backups at once, and behind both two sessions that each begin a next one of a group. The kinds are printed. Where there is no memory for
/// what is handed in, or to open the datastore, nothing is served.
#[test]
fn a_lane_lacks_memory(rt: HostRuntime) {
    let alloc = rt.alloc();
    let Some(((mut one, mut other), (mut next, mut last))) = handed_in(alloc) else {
        return;
    };
    let served = order_of_both(&rt, alloc, &mut one, &mut other, &mut next, &mut last);
    let Some(order) = served else {
        return;
    };
    assert_group(&rt, &order, 0, &one, &NEXT[0], &next);
    assert_group(&rt, &order, 1, &other, &NEXT[1], &last);
    let kinds = (
        kinds_of(&order, 0),
        kinds_of(&order, 1),
        kinds_of(&order, 2),
        kinds_of(&order, 3),
    );
    must(&rt, println!(rt; "kinds {kinds:?}"));
}
