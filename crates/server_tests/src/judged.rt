//! What a lane is to be told, by the order that a run returned.

use crate::asserts::same;
use std::process::Abort;
use store_types::{END_KIND, Entry, FAULT_KIND, MEMORY_KIND};

/// What an act is answered that lacked memory, and one whose call of the disk failed.
const NO_MEMORY: &[u8] = b"\x01\0\0\0\x1c";

const DISK_FAULT: &[u8] = b"\x01\0\0\0\x1a";

/// OPEN_WRITER of a later snapshot of `host/a` and of `host/b`, and its reply where there is no earlier one, and where there is.
pub(crate) static NEXT: [[&[u8]; 3]; 2] = [
    [
        b"\x1d\0\0\0\x0a\x1bhost/a/2020-01-15T06:30:04Z",
        b"\x02\0\0\0\0\0",
        b"\x1d\0\0\0\0\x1bhost/a/2020-01-15T06:30:03Z",
    ],
    [
        b"\x1d\0\0\0\x0a\x1bhost/b/2020-01-15T06:30:04Z",
        b"\x02\0\0\0\0\0",
        b"\x1d\0\0\0\0\x1bhost/b/2020-01-15T06:30:03Z",
    ],
];

/// The place of the first act whose call of the disk failed, or the order's length.
pub(crate) fn fault_of(order: &[Entry]) -> usize {
    for place in 0..order.len() {
        if order[place].kind == FAULT_KIND {
            return place;
        }
    }
    order.len()
}

/// What an act is answered behind a fault at this place, which is below 256.
fn halted(place: usize) -> [u8; 13] {
    [9, 0, 0, 0, 27, (place % 256) as u8, 0, 0, 0, 0, 0, 0, 0]
}

/// The reply of an entry, where this one is told if it is done.
fn reply_of<'a>(kind: u8, is_fault: bool, done: &'a [u8], halted: &'a [u8]) -> &'a [u8] {
    match kind {
        MEMORY_KIND => NO_MEMORY,
        FAULT_KIND if is_fault => DISK_FAULT,
        FAULT_KIND => halted,
        _ => done,
    }
}

/// What is told behind a reply. Where the sink failed, it may have been given a front of that.
fn behind<'a>(rt: &impl Abort, told: &'a [u8], reply: &[u8], is_cut: bool) -> &'a [u8] {
    let (own, rest) = told.split_at(told.len().min(reply.len()));
    let want = if is_cut { &reply[..own.len()] } else { reply };
    same(rt, own, want);
    rest
}

/// A lane is told just what the order says: for each command that was done its reply, for one that lacked memory or met a fault of the disk this,
/// and for each later one the place of that fault. Gives how many of its commands were entered.
pub(crate) fn assert_told(
    rt: &impl Abort,
    order: &[Entry],
    lane: u32,
    replies: &[&[u8]],
    told: &[u8],
    is_cut: bool,
) -> usize {
    let fault = fault_of(order);
    let halted = halted(fault);
    let mut rest = told;
    let mut count: usize = 0;
    for place in 0..order.len() {
        let entry = order[place];
        if entry.lane == lane && entry.kind != END_KIND && count < replies.len() {
            let reply = reply_of(entry.kind, place == fault, replies[count], &halted);
            rest = behind(rt, rest, reply, is_cut);
            count += 1;
        }
    }
    same(rt, rest, b"");
    count
}
