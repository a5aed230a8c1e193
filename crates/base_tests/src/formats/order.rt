//! Order files, against bytes that are written out.

use crate::asserts::{must, same, same_at};
use crate::formats::fixtures::front;
use order_file::{put_order, read_order};
use port_traits::{Failed, MemSink, Sink};
use std::alloc::Global;
use std::process::Abort;
use store_types::{Entry, LAST_MOMENT};

/// An entry's lane, moment and kind.
type Row = (u32, u64, u8);

fn order_of(rt: &impl Abort, alloc: Global, rows: &[Row]) -> Vec<Entry> {
    let mut order = Vec::new(alloc);
    for (lane, moment, kind) in rows {
        let entry = Entry {
            lane: *lane,
            moment: *moment,
            kind: *kind,
        };
        must(rt, order.push(entry));
    }
    order
}

/// The file of an order, by a sink that takes at most so many bytes at once.
fn file(rt: &impl Abort, alloc: Global, order: &[Entry], most: usize) -> Vec<u8> {
    assert!(rt; most > 0);
    let mut sink = MemSink::new(alloc, Vec::new(alloc)).at_most(most);
    must(rt, put_order(&mut sink, order));
    sink.into_bytes()
}

/// An order, and its file.
static FILES: [(&[Row], &[u8]); 3] = [
    (&[], b"PBSORDER"),
    (&[(0, 5, 6)], b"PBSORDER\0\0\0\0\x05\0\0\0\0\0\0\0\x06"),
    (
        &[(257, 5, 0), (1, 258, 3), (257, LAST_MOMENT, 6)],
        b"PBSORDER\x01\x01\0\0\x05\0\0\0\0\0\0\0\0\x01\0\0\0\x02\x01\0\0\0\0\0\0\x03\x01\x01\0\0\x7f\x41\xf4\xff\x3a\0\0\0\x06",
    ),
];

fn try_file(rt: &impl Abort, alloc: Global, row: &(&[Row], &[u8]), most: usize) {
    let (rows, want) = row;
    let order = order_of(rt, alloc, rows);
    let text = file(rt, alloc, &order, most);
    same_at(rt, most, text.as_slice(), *want);
}

#[test]
fn files(rt: HostRuntime) {
    for row in &FILES {
        for most in [1, 7, 4096] {
            try_file(&rt, rt.alloc(), row, most);
        }
    }
}

/// How many lanes there are, an order's entries, and whether they keep the rules.
static ORDERS: [(u32, &[Row], bool); 16] = [
    (0, &[], true),
    (0, &[(0, 5, 6)], false),
    (1, &[], false),
    (1, &[(0, 0, 6)], true),
    (1, &[(0, 5, 7), (0, 5, 0), (0, LAST_MOMENT, 6)], true),
    (1, &[(0, 5, 0)], false),
    (1, &[(0, 5, 6), (0, 5, 6)], false),
    (1, &[(0, 5, 6), (0, 5, 0)], false),
    (1, &[(1, 5, 0), (0, 5, 6)], false),
    (1, &[(u32::MAX, 5, 0), (0, 5, 6)], false),
    (1, &[(0, 5, 0), (0, 4, 6)], false),
    (1, &[(0, LAST_MOMENT + 1, 6)], false),
    (1, &[(0, 5, 8), (0, 5, 6)], false),
    (1, &[(0, 5, 255), (0, 5, 6)], false),
    (2, &[(0, 5, 6)], false),
    (2, &[(1, 5, 6), (0, 5, 0), (0, 5, 6)], true),
];

#[test]
fn rules(rt: HostRuntime) {
    for row in &ORDERS {
        let (lanes, rows, keeps) = row;
        let order = order_of(&rt, rt.alloc(), rows);
        let text = file(&rt, rt.alloc(), &order, 4096);
        let read = must(&rt, read_order(rt.alloc(), *lanes, &text));
        let want = if *keeps { Some(order) } else { None };
        same_at(&rt, row, read, want);
    }
}

fn is_order(rt: &impl Abort, alloc: Global, bytes: &[u8]) -> bool {
    must(rt, read_order(alloc, 1, bytes)).is_some()
}

#[test]
fn no_files(rt: HostRuntime) {
    let whole = b"PBSORDER\0\0\0\0\x05\0\0\0\0\0\0\0\x06";
    for size in 0..whole.len() {
        same_at(
            &rt,
            size,
            is_order(&rt, rt.alloc(), front(whole, size)),
            false,
        );
    }
    for other in [
        b"PBSORDER\0\0\0\0\x05\0\0\0\0\0\0\0\x06\0".as_slice(),
        b"PBSORDES\0\0\0\0\x05\0\0\0\0\0\0\0\x06".as_slice(),
        b"QBSORDER\0\0\0\0\x05\0\0\0\0\0\0\0\x06".as_slice(),
    ] {
        same_at(&rt, other, is_order(&rt, rt.alloc(), other), false);
    }
    same(&rt, is_order(&rt, rt.alloc(), whole), true);
}

/// One lane's order of so many entries, whose moments rise by one.
fn long_order(rt: &impl Abort, alloc: Global, count: u64) -> Vec<Entry> {
    let mut order = Vec::new(alloc);
    for moment in 1..=count {
        let entry = Entry {
            lane: 0,
            moment,
            kind: if moment < count { 0 } else { 6 },
        };
        must(rt, order.push(entry));
    }
    order
}

#[test]
fn long_files(rt: HostRuntime) {
    for count in [314, 315, 316, 630, 700] {
        let order = long_order(&rt, rt.alloc(), count);
        let text = file(&rt, rt.alloc(), &order, 4096);
        same_at(
            &rt,
            count,
            text.len() as u64,
            count.wrapping_mul(13).wrapping_add(8),
        );
        let read = must(&rt, read_order(rt.alloc(), 1, &text));
        same_at(&rt, count, read, Some(order));
    }
}

/// Writes to a sink that fails at one call, or never, and looks that a front of the file is there.
fn try_sink(rt: &impl Abort, alloc: Global, order: &[Entry], failing: u64) {
    let text = file(rt, alloc, order, 4096);
    let mut sink = MemSink::new(alloc, must(rt, [failing].to_vec(alloc)));
    let result = put_order(&mut sink, order);
    let want = if failing < 4 {
        (Err(Failed), 1)
    } else {
        (Ok(()), 0)
    };
    same_at(rt, failing, (result, sink.faults()), want);
    let sizes = [0, 8, 8 + 4095, 8 + 2 * 4095];
    let size = sizes.get(failing as usize).copied().unwrap_or(text.len());
    same_at(rt, failing, sink.as_bytes(), front(&text, size));
}

#[test]
fn sinks_that_fail(rt: HostRuntime) {
    let order = long_order(&rt, rt.alloc(), 700);
    for failing in 0..5 {
        try_sink(&rt, rt.alloc(), &order, failing);
    }
}
